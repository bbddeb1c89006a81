//! Laws of the definitions, each the contract of a function that does nothing.
ghost use Rattle.command_pieces.specs.ReadBack.{PiecesReadBack, FirstPiecesNameVerbs};

/// Read after each byte, a command is less than whole pieces within a piece, whole pieces at the end of each piece but the last, and the
/// command and its tag at the end of the last.
pub fn pieces_read_back()
    ensures { PiecesReadBack }
{}

/// The first piece of a command names its verb.
pub fn first_pieces_name_verbs()
    ensures { FirstPiecesNameVerbs }
{}

//! Laws of the definitions, each the contract of a function that does nothing.
ghost use Rattle.mail_talk.specs.Told.{CutsTellTheSame};
ghost use Rattle.mail_talk.specs.Saying.{FirstPiecesTell, LaterPiecesTell, CutPiecesTellNothing};

/// No cut of the bytes that are heard changes what a talk tells.
pub fn any_cut()
    ensures { CutsTellTheSame }
{}

/// The pieces of a command, said as they are written, tell what the calls of a [`crate::Listener`] take note of. A piece that is said only
/// in part tells nothing.
pub fn pieces_tell()
    ensures first { FirstPiecesTell }
    ensures later { LaterPiecesTell }
    ensures cut { CutPiecesTellNothing }
{}

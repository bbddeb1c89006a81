//! Laws of the definitions, each the contract of a function that does nothing.
ghost use Rattle.imap_commands.specs.ReadBack.{CommandsReadBack, NoCommandIsPrefix, PiecesAreNonempty};

/// The joined pieces of a command read as that command and its tag, whatever bytes its texts have.
pub fn commands_read_back()
    ensures { CommandsReadBack }
{}

/// No command is a proper prefix of another: bytes without the end of a command read as none.
pub fn no_command_is_prefix()
    ensures { NoCommandIsPrefix }
{}

/// No piece of a command is empty, so all pieces but the last are a proper prefix, which reads as no command.
pub fn pieces_are_nonempty()
    ensures { PiecesAreNonempty }
{}

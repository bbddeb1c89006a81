//! What the first words of a command tell.
ghost use Rattle.std.specs.Prelude.{◌≡◌};
ghost use Rattle.command_pieces.specs.Verbs.{verb_of_command};

use imap_commands::Command;

/// What a command does, as far as its first piece tells more than that it is one.
#[derive(Clone, Copy, Debug)]
pub enum Verb {
    Select,
    Search,
    Other,
}

/// The verb of a command.
pub fn verb_of(command: &Command) -> Verb
    ensures { result ≡ verb_of_command command.now }
{
    match command {
        Command::Select { .. } => Verb::Select,
        Command::Search { .. } => Verb::Search,
        _ => Verb::Other,
    }
}

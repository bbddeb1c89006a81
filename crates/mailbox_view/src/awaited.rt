//! What the answer to a command will mean.
ghost use Rattle.std.specs.Prelude.{◌≡◌};
ghost use Rattle.mailbox_view.specs.View.{is_awaiting};

/// The command whose tagged answer is awaited, as far as the answer tells something.
#[derive(Clone, Copy)]
pub enum Awaited {
    /// No command.
    Nothing,
    Capability,
    Enable,
    List,
    /// A SELECT whose folder is a literal that the server hasn't asked for yet.
    SelectSoon,
    Select,
    /// A FETCH of all changes, after which the mark rises.
    Changes,
    /// Any other command.
    Other,
}

impl Awaited {
    /// Whether any command awaits its answer.
    pub fn is_awaiting(self) -> bool
        ensures { result ≡ is_awaiting self }
    {
        match self {
            Awaited::Nothing => false,
            _ => true,
        }
    }
}

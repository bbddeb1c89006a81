//! What a dial awaits.
ghost use Rattle.std.specs.Prelude.{◌≡◌};
ghost use Rattle.mail_talk.specs.States.{is_idle, is_listening, is_piece, is_request, is_silent};

/// What is awaited of the server, or of the client.
#[derive(Clone, Copy, Debug, PartialEq)]
pub enum Phase {
    /// A dial.
    NotDialled,
    /// The server's greeting.
    Greeting,
    /// The next command.
    Idle,
    /// A continuation request, `+`, after a piece of a command.
    Request,
    /// The next piece of a command, after the server's `+`.
    Piece,
    /// The tagged answer to a whole command.
    Answer,
    /// A dial, since bytes of this one were no response.
    Damaged,
}

impl Phase {
    /// Whether the server is to say something.
    pub fn is_listening(self) -> bool
        ensures { result ≡ is_listening self }
    {
        match self {
            Phase::Greeting | Phase::Request | Phase::Answer => true,
            _ => false,
        }
    }

    /// Whether the next command is awaited.
    pub fn is_idle(self) -> bool
        ensures { result ≡ is_idle self }
    {
        match self {
            Phase::Idle => true,
            _ => false,
        }
    }

    /// Whether the next piece of a command is awaited.
    pub fn is_piece(self) -> bool
        ensures { result ≡ is_piece self }
    {
        match self {
            Phase::Piece => true,
            _ => false,
        }
    }

    /// Whether a continuation request is awaited.
    pub fn is_request(self) -> bool
        ensures { result ≡ is_request self }
    {
        match self {
            Phase::Request => true,
            _ => false,
        }
    }

    /// Whether nothing more is told before the next dial.
    pub fn is_silent(self) -> bool
        ensures { result ≡ is_silent self }
    {
        match self {
            Phase::NotDialled | Phase::Damaged => true,
            _ => false,
        }
    }
}

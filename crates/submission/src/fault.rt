//! Why a message wasn't submitted.
use mail_values::Bytes;
use std::alloc::AllocError;

/// Why a message wasn't submitted, or may not have been.
#[derive(Drop)]
pub enum SubmitFault {
    /// A reply has another code than its step expects: the code, and the text of the reply's last line.
    Refused { code: u16, text: Bytes },
    /// Before the dot, a reply was outside the grammar or longer than 65,536 bytes. `at` is its first byte, counted from the dial.
    Damaged { at: u64 },
    /// The link failed before the sending of the dot began.
    Link,
    /// After the sending of the dot began, the link failed, or a reply was damaged, before the reply to it was whole.
    Doubt,
    /// There was no memory. Nothing was said.
    Memory,
}

impl From<AllocError> for SubmitFault {
    ghost use Rattle.std.specs.Prelude.{◌≡◌};
    ghost use Rattle.submission.specs.declared.fault.SubmitFault.TheVariants.{Memory};

    ghost from_gives = { λ _ e. e ≡ Memory };

    fn from(_: AllocError) -> Self {
        SubmitFault::Memory
    }
}

/// Why the steps of a submission end before the last. The reply that is to blame was the last one heard.
#[derive(Clone, Copy)]
pub enum Stop {
    Refused { code: u16 },
    Damaged,
    Link,
    Doubt,
}

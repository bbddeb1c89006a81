//! Why a form isn't sent.
use compose_drafts::DraftFault;
use mail_values::{Bytes, Text};
use record_io::KeepFault;
use std::alloc::AllocError;
use submission::SubmitFault;

/// Why a form isn't sent, or may not have been.
#[derive(Drop)]
pub enum SendFault {
    /// The draft has no recipient.
    NoRecipient,
    /// The field `to`, `cc` or `identity` is no list of boxes. `at` is the offset of the first byte after which none can follow, or the length.
    NotAddress { field: Text, at: usize },
    /// The text is too long: its bytes.
    Long { bytes: usize },
    /// A reply of the post server has another code than its step expects.
    Refused { code: u16, text: Bytes },
    /// A reply of the post server is damaged. `at` is its first byte, counted from the dial.
    Damaged { at: u64 },
    /// The link to the post server failed before the message was sent whole.
    Unreachable,
    /// It is not known whether the form was sent.
    InDoubt,
    /// The keeper failed.
    Unkept,
    Memory,
}

impl From<AllocError> for SendFault {
    ghost use Rattle.std.specs.Prelude.{◌≡◌};
    ghost use Rattle.account_sends.specs.declared.faults.SendFault.TheVariants.{Memory};

    ghost from_gives = { λ _ e. e ≡ Memory };

    fn from(_: AllocError) -> Self {
        SendFault::Memory
    }
}

impl From<DraftFault> for SendFault {
    ghost use Rattle.std.specs.Prelude.{◌≡◌};
    ghost use Rattle.account_sends.specs.Sends.{draft_fault};

    ghost from_gives = { λ fault e. e ≡ draft_fault fault };

    fn from(fault: DraftFault) -> Self {
        match fault {
            DraftFault::NoRecipient => SendFault::NoRecipient,
            DraftFault::NotAddress { field, at } => SendFault::NotAddress { field, at },
            DraftFault::Long { bytes } => SendFault::Long { bytes },
            DraftFault::Memory => SendFault::Memory,
        }
    }
}

impl From<SubmitFault> for SendFault {
    ghost use Rattle.std.specs.Prelude.{◌≡◌};
    ghost use Rattle.account_sends.specs.Sends.{post_fault};

    ghost from_gives = { λ fault e. e ≡ post_fault fault };

    fn from(fault: SubmitFault) -> Self {
        match fault {
            SubmitFault::Refused { code, text } => SendFault::Refused { code, text },
            SubmitFault::Damaged { at } => SendFault::Damaged { at },
            SubmitFault::Link => SendFault::Unreachable,
            SubmitFault::Doubt => SendFault::InDoubt,
            SubmitFault::Memory => SendFault::Memory,
        }
    }
}

impl From<KeepFault> for SendFault {
    ghost use Rattle.std.specs.Prelude.{◌≡◌};
    ghost use Rattle.account_sends.specs.Sends.{keep_fault};

    ghost from_gives = { λ fault e. e ≡ keep_fault fault };

    fn from(fault: KeepFault) -> Self {
        match fault {
            KeepFault::Failed => SendFault::Unkept,
            KeepFault::Memory => SendFault::Memory,
        }
    }
}

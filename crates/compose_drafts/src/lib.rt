//! Builds the message of a draft: its header and its text, as a mail server takes them.
#![tactic(auto)]

ghost use Rattle.std.specs.Prelude.{◌≡◌};
ghost use Rattle.compose_drafts.specs.declared.DraftFault.TheVariants.{Memory};

mod bodies;
mod boxes;
mod building;
mod dates;
mod envelope;
mod fields;
mod laws;
mod parties;
mod references;
mod words;

pub use building::{build, build_draft};
pub use envelope::recipients;
pub use laws::fields_are_read;
use mail_values::Text;
use std::alloc::AllocError;

/// Why a draft is no message.
#[derive(Drop)]
pub enum DraftFault {
    /// `to` and `cc` have nothing but spaces.
    NoRecipient,
    /// The field `to`, `cc` or `identity` is no list of boxes. `at` is the offset of the first byte after which none can follow, or the length.
    NotAddress { field: Text, at: usize },
    /// The text has more than 524,288 bytes.
    Long { bytes: usize },
    Memory,
}

impl From<AllocError> for DraftFault {
    ghost from_gives = { λ _ e. e ≡ Memory };

    fn from(_e: AllocError) -> DraftFault {
        DraftFault::Memory
    }
}

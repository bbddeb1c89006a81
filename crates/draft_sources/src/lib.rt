//! The drafts that a member begins with: empty, or made from a message that is answered, forwarded or edited.
#![tactic(auto)]

mod drafts;
mod laws;
mod lines;
mod references;

pub use drafts::{draft_of, first_identity, new_draft};
pub use laws::saved_texts_are_restored;
pub use mail_values::Memory;

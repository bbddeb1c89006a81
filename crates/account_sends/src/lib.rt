//! Sends the message of a form at most once: its state is kept before anything of it is said to the post server.
//!
//! An [`Outbox`] is a member's link to the post server and the keeper of the records. `specs/Sends.antt` says what is looked up and
//! written before a message is submitted, and what becomes of it; `specs/Once.antt` that no form is submitted again.
#![tactic(auto)]

mod faults;
mod identities;
mod laws;
mod letters;
mod outbox;
mod sending;

pub use faults::SendFault;
pub use laws::{dots_end_submissions, forms_are_sent_once};
pub use letters::Letter;
pub use outbox::Outbox;

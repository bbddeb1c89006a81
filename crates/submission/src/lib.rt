//! Submits a message to a mail server (RFC 5321, RFC 6409): once, and with an answer that says what became of it.
#![tactic(auto)]

pub mod fault;
pub mod inbox;
pub mod lines;
mod message;
pub mod replies;
pub mod steps;
mod submitting;

pub use fault::SubmitFault;
use mail_values::Text;
pub use submitting::submit;

/// Whom a message is from and to: `local@domain` each. `form` is the number of the form that it was written in.
#[derive(Drop)]
pub struct Envelope {
    pub form: u64,
    pub from: Text,
    pub to: Vec<Text>,
}

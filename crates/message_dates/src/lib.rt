//! The dates of messages: the moment at which one was sent, and moments as a table shows them.
#![tactic(auto)]

mod minutes;
mod sent;

pub use mail_values::Memory;
pub use minutes::minute_text;
pub use sent::sent_instant;

//! Reads requests of HTTP as asks, and writes replies.
#![tactic(auto)]

mod faults;
mod receiving;
mod replies;
mod requests;

pub use faults::AskFault;
pub use replies::http_text;
pub use requests::read_ask;

//! What was said of a command, read from the pieces in which it is sent (RFC 9051 §4.3).
#![tactic(auto)]

mod laws;
mod verb;

pub use laws::{first_pieces_name_verbs, pieces_read_back};
pub use verb::{Verb, verb_of};

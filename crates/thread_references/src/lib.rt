//! Threads of messages by their references and subjects (RFC 5256, REFERENCES).
#![tactic(auto)]

mod forest;
mod laws;
mod listing;
mod pruning;
mod subjects;
mod trees;

pub use forest::{Forest, threads};
pub use laws::pruning_is_rewriting;
pub use thread_places::Facts;

//! What a talk with a mail server tells, from the pieces that were said and heard (RFC 9051, RFC 7162).
#![tactic(auto)]

pub mod answer;
mod laws;
mod listener;
pub mod phase;
pub mod results;
mod told;
mod unit;

pub use answer::{Answer, Excess};
pub use laws::{any_cut, pieces_tell};
pub use listener::Listener;
pub use phase::Phase;
pub use results::{Asked, FetchedBody, Results};
pub use std::alloc::AllocError as Memory;
pub use told::Told;

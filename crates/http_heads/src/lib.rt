//! Reads the head of a request, as far as it has come.
#![tactic(auto)]

mod framing;
mod heads;
mod places;

pub use framing::{Found, HeadFault, body_len};
pub use heads::{Head, HeadField, Heard, parts_of, read_head, scanned_head};
pub use places::Place;

//! Washes the HTML of a message: what is left can only be shown.
//!
//! The definition is `wash` in `specs/Wash.antt`; read `Closings` first. `specs/Law.antt` says what holds of all washed tokens.
#![tactic(auto)]

mod element;
mod laws;
mod lookup;
mod message;
mod open_elements;
mod runs;
mod styling;
mod tags;
mod washer;

pub use laws::washed_is_allowed;
pub use message::wash;
pub use std::alloc::AllocError as Memory;
pub use washer::Washer;

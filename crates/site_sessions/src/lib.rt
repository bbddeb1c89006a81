//! Who is logged in: sessions, and the roster that keeps them.
//!
//! A `Roster` has 128 places, each with one session or none, and a slot for each account of the site. A user who enters gets a
//! session of a slot; a session is found again by the token of its cookie, and ends after half an hour without an ask.
#![tactic(auto)]

mod fault;
mod places;
mod roster;
mod session;
mod slots;

pub use fault::EnterFault;
pub use mail_values::{Memory, Text};
pub use roster::Roster;
pub use session::Session;
pub use slots::Slot;

//! What an address in a message refers to: one of its parts (RFC 2392, RFC 2557), an address of the web, a link, or nothing.
//!
//! `References` is made once for the HTML part of a message, and `References::refer` looks an address up. `refer` is one use of it.
#![tactic(auto)]

mod addresses;
mod laws;
mod lookup;
mod maps;
mod refs;

pub use laws::schemes_decide;
pub use lookup::{References, refer};
pub use mail_values::{Section, Text};
pub use refs::Ref;
pub use std::alloc::AllocError as Memory;

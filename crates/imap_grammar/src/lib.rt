//! The grammar of an IMAP4rev2 server's responses (RFC 9051 §7), with QRESYNC and CONDSTORE (RFC 7162) and extended searches
//! (RFC 4731): reads one whole unit of the server's stream.
#![tactic(auto)]

mod codes;
mod fetch;
mod items;
mod reading;
mod response;
mod searches;
mod states;
mod untagged;

pub use imap_values::{Lent, Slices};
pub use items::Items;
pub use reading::read_response;
pub use response::{Code, Item, Response, Word};
pub use std::alloc::AllocError as Memory;

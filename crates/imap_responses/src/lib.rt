//! Responses of an IMAP4rev2 server, read from the pieces in which its bytes arrive (RFC 9051 §7).
#![tactic(auto)]

mod fault;
mod laws;
mod reader;
mod stream;

pub use fault::ReadFault;
pub use imap_grammar::{Code, Item, Items, Lent, Response, Slices, Word, read_response};
pub use laws::one_split;
pub use reader::Reader;
pub use std::alloc::AllocError as Memory;
pub use stream::response_units;

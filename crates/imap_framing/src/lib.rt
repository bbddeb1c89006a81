//! Cuts the stream of an IMAP server into units (RFC 9051 §2.2.2). A unit is a line, together with its literals and the lines after them.
//! The stream may arrive in any pieces.
#![tactic(auto)]

mod laws;
mod line;
mod reader;
mod scan;
mod stream;

pub use laws::{one_split, plain_lines};
pub use line::LIMIT;
pub use reader::{TooLong, UnitReader};
pub use std::alloc::AllocError as Memory;
pub use stream::{StreamFault, units_of};

//! The Content-* fields of a message or a part (RFC 2045, RFC 2183, RFC 2557): its type, parameters, coding, disposition, name,
//! Content-ID and Content-Location.
#![tactic(auto)]

mod content;
mod pieces;

pub use content::{Content, read_content};
pub use mail_values::Memory;

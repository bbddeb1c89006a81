//! The header fields of a message (RFC 5322), and their values as texts.
#![tactic(auto)]

mod decoding;
mod header;
mod identifiers;
mod items;
mod lines;
mod reading;
mod subjects;
mod words;

pub use decoding::{decoded, decoded_words, trim, unfolded};
pub use header::{Field, Fields};
pub use identifiers::{ids_in, message_ids};
pub use lines::{find_byte, first_line};
pub use mail_values::Memory;
pub use reading::fields;
pub use subjects::{Base, base_subject};

//! The codings in which mail carries bytes (RFC 2045 §6), and the charsets in which the bytes
//! are text.
#![tactic(auto)]

mod base64_text;
mod charset;
mod coding;
mod quoted_rows;
mod quoted_text;

pub use base64_text::encode_base64;
pub use charset::{Charset, charset_of, text_of};
pub use coding::{Coding, decode};
pub use quoted_rows::encode_quoted;
pub use std::alloc::AllocError as Memory;

//! The data formats of IMAP (RFC 9051 §4): atoms, numbers, strings, lists, sets of UIDs and dates, each read from the front of a slice.
#![tactic(auto)]

mod dates;
mod error;
mod lent;
mod sets;
mod slices;
mod strings;
mod values;
mod words;

pub use dates::moment;
pub use error::ParseError;
pub use lent::Lent;
pub use sets::uid_set;
pub use slices::Slices;
pub use std::alloc::AllocError as Memory;
pub use strings::{begins_string, is_nil, nstring, quoted_raw, string};
pub use values::skip_value;
pub use words::{
    Class, all_in_class, eq_ignore_case, expect_byte, expect_end, number, positive, split_words,
    starts_with_ignore_case, take_while, take_while1, text_after_word, word_list,
};

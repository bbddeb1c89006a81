//! Reads and writes flowed text (RFC 3676): the paragraphs of a text of `format=flowed`.
#![tactic(auto)]

mod lines;
mod reading;
mod writing;

pub use lines::split_line;
use mail_values::Text;
pub use reading::{Paras, read_flowed, read_line};
pub use std::alloc::AllocError as Memory;
pub use writing::write_flowed;

/// A paragraph, or a single line: its quote depth and its text.
#[derive(Drop)]
pub struct Para {
    pub depth: u32,
    pub text: Text,
}

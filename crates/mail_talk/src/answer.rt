//! The tagged answer to a command.
use imap_grammar::{Code, Word};
use mail_values::Bytes;

/// The tagged answer to the last command.
#[derive(Drop)]
pub struct Answer {
    pub word: Word,
    pub code: Option<Code>,
    pub text: Bytes,
    /// The offset of the answer in what was heard since the dial.
    pub at: u64,
    /// Pieces of the command were not said yet.
    pub is_early: bool,
}

/// The rows and the header bytes that a folder would have had, if they are too many.
#[derive(Clone, Copy, Debug, PartialEq)]
pub struct Excess {
    pub rows: u32,
    pub bytes: u64,
}

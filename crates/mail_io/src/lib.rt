//! Input and output of the program: traits that count their faults, and what implements them.
//!
//! A `Source` and a `Sink` count their faults and, if they can tell, say which bytes they have left or have taken. In-memory
//! implementations serve the tests, adapters wrap std's readers and writers, `read_to_end` and `write_whole` are the loops
//! over them. The shared types of `mail_values` are handed on under their names.
#![tactic(auto)]

pub mod link;
pub mod memory;
pub mod outside;
pub mod recording;
pub mod script;
pub mod scripted_link;
pub mod standard;
pub mod stream;

pub use account_pictures::Piece;
pub use link::Link;
pub use mail_values::{Bytes, Memory, Section, Text, Words};
pub use memory::{MemorySink, MemorySource};
pub use outside::{Failed, Sink, Source};
pub use scripted_link::ScriptedLink;
pub use standard::{ReaderSource, WriterSink};
pub use stream::{InputFault, read_to_end, write_whole};

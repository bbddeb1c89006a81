//! Reads stretches of an HTML text and decodes their character references (HTML Standard 13.2.5.72 to 13.2.5.80).
#![tactic(auto)]

mod names;
pub mod prefixes;
pub mod references;
pub mod stretch;

pub use std::alloc::AllocError as Memory;

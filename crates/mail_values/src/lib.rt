//! Small owned types that the crates share.
//!
//! `Text`, `Bytes` and `Words` are owned values that contracts see as lists. `Section` is the number of a body part.
//! `Memory` is the error of a refused allocation.
#![tactic(auto)]

pub mod sections;
pub mod texts;

pub use sections::Section;
pub use std::alloc::AllocError as Memory;
pub use texts::{Bytes, Text, Words};

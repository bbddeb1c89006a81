//! The attributes of a washed start tag: which of a message's attributes are kept, and with what values.
//!
//! The definition is `washed_attributes` in `specs/Attributes.antt`; `specs/Soundness.antt` says what follows from it.
#![tactic(auto)]

pub mod attributes;
mod first;
mod laws;
pub mod names;
pub mod place;
mod values;

pub use attributes::wash_attributes;
pub use first::{attribute_text, first_attribute};
pub use laws::{kept_attributes_are_allowed, references_are_sound};
pub use place::Place;
pub use std::alloc::AllocError as Memory;

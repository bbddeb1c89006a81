//! The tree of parts of a message (RFC 2045, RFC 2046): every byte string has one.
//!
//! `tree` reads a message and lends its fields and its parts, each with its section, its Content-* fields, and its bytes; no body is
//! copied. `part` finds a part by its section, and `best` the part to show.
#![tactic(auto)]

mod body;
mod choice;
mod laws;
mod media;
mod node;
mod opening;
mod parts;
mod reading;

pub use choice::{Shown, best, part, shown_as};
pub use laws::{
    multiparts_choose_a_child, nothing_waits, opens_in_tree_order, outer_lines_end_parts,
};
pub use mail_values::Section;
pub use parts::{Part, Tree};
pub use reading::tree;
pub use std::alloc::AllocError as Memory;
pub use transfer_codings::Coding;

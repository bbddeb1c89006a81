//! Rules of style blocks (CSS Syntax §9, with simple selectors alone): reads the rules of a message's `style` elements, and returns
//! what they declare for an element. What they declare can only style, as an inline style can that `style_wash` washed.
//!
//! The definition is in `specs/`: read `Blocks`, `Selectors`, `Rules` and `Cascade`, in this order.
#![tactic(auto)]

mod blocks;
mod cascade;
mod comments;
mod entries;
mod laws;
mod rule_list;
mod rules;
mod selectors;

pub use laws::{declared_is_style, read_rules_are_written};
pub use rules::Rules;
pub use std::alloc::AllocError as Memory;

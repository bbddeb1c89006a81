//! Washes inline styles (CSS Style Attributes §3): keeps the declarations that a page may have, each in one spelling. They load nothing,
//! and have no escape, no comment and no at-rule.
//!
//! The definition is in `specs/`: read `Tables`, `Items`, `Values` and `Declarations`, in this order.
#![tactic(auto)]

mod characters;
mod declarations;
mod items;
mod laws;
mod tables;
mod values;

pub use declarations::wash_style;
pub use laws::{
    styles_are_fixed_points, styles_are_kept, washed_calls_only_rgb, washed_characters,
    washed_is_style, washing_is_idempotent,
};
pub use std::alloc::AllocError as Memory;

//! Tells whether the HTML of a message has pictures of the web: whether it is washed otherwise if remote pictures are requested.
//!
//! The definition is `has_remote_images` in `specs/Remote.antt`; `specs/Decides.antt` says what it decides.
#![tactic(auto)]

mod images;
mod laws;

pub use images::has_remote_images;
pub use laws::remote_images_decide;
pub use std::alloc::AllocError as Memory;

//! The page of a message: which tokens it has, and functions that write it.
//!
//! [`show_page`] is the page. Its contract has the promise about strangers' messages: the page reads as its defined tokens, all of
//! them are allowed, and a browser loads nothing of itself but the style sheet, the message's own parts and, if requested, remote
//! pictures. A [`Frame`] says whether it is shown by itself or in a session.
#![tactic(auto)]

mod actions;
mod flowed;
mod frame;
mod head;
mod html;
mod mail;
mod offer;
mod page;
mod parts;
mod show;
mod text;

pub use account_pictures::Address;
pub use frame::Frame;
pub use mail_values::Text;
pub use mime_tree::Section;
pub use page_writer::{PageBytes, WRITE_ROOM, write_page};
pub use show::{PageFault, show_page};

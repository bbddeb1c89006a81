//! The rows of a folder: what a mail server told of its messages, by UID (RFC 9051, RFC 7162).
//!
//! A `Mailbox` keeps the rows of one folder, up to a number of rows and of header bytes, with the folder's UIDVALIDITY and the MODSEQ up to
//! which all changes were told.
#![tactic(auto)]

pub mod fault;
pub mod mailbox;
pub mod row;
mod row_map;
pub mod rows;

pub use fault::ViewFault;
pub use mailbox::Mailbox;
pub use row::{Fields, Folder, Row};
pub use rows::Rows;

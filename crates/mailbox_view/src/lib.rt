//! What a mail server told: its folders, and the rows of the folders that were selected.
//!
//! `specs/View.antt` defines what dials, commands and responses tell, in order (RFC 9051, RFC 7162).
#![tactic(auto)]

pub mod abilities;
pub mod awaited;
pub mod fetched;
mod recent;
pub mod selection;
mod tags;
pub mod view;

pub use abilities::Abilities;
pub use awaited::Awaited;
pub use mailbox_rows::{Fields, Folder, Mailbox, Row, ViewFault};
pub use selection::Selection;
pub use view::View;

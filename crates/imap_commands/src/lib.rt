//! Encodes the commands of an IMAP4rev2 client (RFC 9051 §6), with QRESYNC and CONDSTORE (RFC 7162), and represents sets of UIDs.
#![tactic(auto)]

mod command;
mod laws;
mod pieces;
mod uid_set;
mod writing;

pub use command::{Command, Known, Label};
pub use laws::{commands_read_back, no_command_is_prefix, pieces_are_nonempty};
pub use std::alloc::AllocError as Memory;
pub use uid_set::{UidRange, UidSet};
pub use writing::write;

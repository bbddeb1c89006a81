//! Commands.

use mail_values::{Bytes, Text};

/// A flag of a message that can be set or cleared (RFC 9051 §2.3.2).
#[derive(Clone, Copy)]
pub enum Label {
    Seen,
    Flagged,
    Answered,
    Deleted,
    Draft,
}

/// The state of a folder when it was last selected: its UIDVALIDITY, and the MODSEQ up to which its changes are known.
#[derive(Clone, Copy)]
pub struct Known {
    pub validity: u32,
    pub mark: u64,
}

/// A command, without its tag.
#[derive(Drop)]
pub enum Command {
    Login {
        user: Text,
        password: Text,
    },
    Capability,
    /// Enables IMAP4rev2 and QRESYNC.
    Enable,
    /// Lists all folders.
    List,
    Select {
        folder: Text,
        known: Option<Known>,
    },
    Noop,
    /// Fetches the rows of all messages from a UID on.
    FetchNew {
        from: u32,
    },
    /// Fetches the changes since a MODSEQ.
    FetchChanged {
        mark: u64,
    },
    FetchBody {
        uid: u32,
    },
    /// Searches whole messages for words.
    Search {
        words: Text,
    },
    Store {
        uid: u32,
        label: Label,
        on: bool,
    },
    Move {
        uid: u32,
        to: Text,
    },
    Expunge {
        uid: u32,
    },
    Append {
        folder: Text,
        label: Option<Label>,
        message: Bytes,
    },
}

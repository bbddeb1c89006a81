//! Why an ask is not answered as it was meant.
use mail_values::{Bytes, Text};

/// What stops a script.
#[derive(Drop)]
pub enum Cause {
    /// The server lists no such folder.
    NoFolder,
    /// The folder has no message with the UID, or the server gave no body of it.
    NoMessage,
    /// The folder's UIDVALIDITY is another than the address has (RFC 9051 §2.3.1.1).
    Renewed { asked: u32, told: u32 },
    /// The message has more bytes than are read.
    LongMessage { size: u64 },
    /// The folder has more rows or header bytes than are kept.
    TooMany { rows: u32, bytes: u64 },
    /// LOGIN was refused, with this text.
    NoLogin { text: Bytes },
    /// The command with this number was refused, with this text.
    Server { number: u32, text: Bytes },
    /// What was heard is no response, or more than is heard for one command, or an OK came before the whole command was said. `at` is
    /// an offset since the dial: of the first byte that is in no response, or else of the end.
    Damaged { at: u64 },
    /// The server lacks what the site needs.
    Lacking { name: Text },
}

//! Folders, and the rows of their messages.
use mail_values::{Bytes, Words};

/// A folder of the server: its name and its attributes (RFC 9051 §7.3.1, RFC 6154).
#[derive(Drop)]
pub struct Folder {
    pub name: Bytes,
    pub attributes: Words,
}

/// What is kept of a message.
#[derive(Drop)]
pub struct Row {
    pub flags: Words,
    pub modseq: u64,
    /// Its INTERNALDATE, in seconds since 1970 in UTC.
    pub internal: i64,
    /// Its RFC822.SIZE, in octets.
    pub size: u64,
    /// The header fields that were asked for.
    pub header: Bytes,
}

/// What a FETCH response told of a message, the last of each item. A header that is NIL is told as an empty one.
#[derive(Drop)]
pub struct Fields {
    pub uid: Option<u32>,
    pub flags: Option<Words>,
    pub modseq: Option<u64>,
    pub internal: Option<i64>,
    pub size: Option<u64>,
    pub header: Option<Bytes>,
}

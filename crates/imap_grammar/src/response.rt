//! Responses.

use crate::items::Items;
use imap_commands::UidSet;
use imap_values::{Lent, Slices};

/// The word of a status response (RFC 9051 §7.1).
#[derive(Clone, Copy, Debug)]
pub enum Word {
    Ok,
    No,
    Bad,
    Bye,
    Preauth,
}

/// The code in the brackets of a status response (RFC 9051 §7.1, RFC 7162 §3.1.2).
#[derive(Clone, Copy, Debug)]
pub enum Code {
    Uidvalidity(u32),
    Highestmodseq(u64),
    Nomodseq,
    Closed,
    /// Any other code.
    Unread,
}

/// A FETCH item (RFC 9051 §7.5.2).
#[derive(Drop)]
pub enum Item<'a> {
    Uid(u32),
    Flags(Slices<'a>),
    Modseq(u64),
    /// The INTERNALDATE in seconds since 1970-01-01 00:00 UTC; 0 if it names no moment.
    Internal(i64),
    /// RFC822.SIZE, in octets.
    Size(u64),
    /// An item whose name begins with `BODY[HEADER`; `None` if it is NIL.
    Header(Option<Lent<'a>>),
    /// An item of another name that begins with `BODY[`; `None` if it is NIL.
    Body(Option<Lent<'a>>),
    Other,
}

/// A response of the server (RFC 9051 §7).
#[derive(Drop)]
pub enum Response<'a> {
    /// A continuation request: the server waits for the next piece of a command.
    Continue {
        text: &'a [u8],
    },
    /// The completion of a command: OK, NO or BAD.
    Tagged {
        tag: &'a [u8],
        word: Word,
        code: Option<Code>,
        text: &'a [u8],
    },
    State {
        word: Word,
        code: Option<Code>,
        text: &'a [u8],
    },
    Capability(Slices<'a>),
    Enabled(Slices<'a>),
    List {
        attributes: Slices<'a>,
        name: Lent<'a>,
    },
    Exists(u32),
    Expunge(u32),
    Fetch {
        number: u32,
        items: Items<'a>,
    },
    /// Expunged UIDs (RFC 7162 §3.2.10); `earlier` if they were expunged before the mailbox was selected.
    Vanished {
        earlier: bool,
        set: UidSet,
    },
    /// The result of an extended search (RFC 4731 §3.1): the tag of its command, and the set of ALL.
    Esearch {
        tag: Lent<'a>,
        set: Option<UidSet>,
    },
    /// Any other untagged response.
    Other,
}

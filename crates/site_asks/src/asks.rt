//! Asks: what a request wants of the site.
use crate::Draft;
use account_pictures::{Address, Identity};
use mail_values::{Section, Text};

/// A flag of a message that a member sets or clears (RFC 9051 §2.3.2).
#[derive(Clone, Copy)]
pub enum Flag {
    Seen,
    Flagged,
    Answered,
}

/// How a new draft uses the message that it is made from.
#[derive(Clone, Copy)]
pub enum How {
    Reply,
    Forward,
    /// The message is itself a saved draft, which is edited.
    Edit,
}

/// What a request wants. A `key` is the form key that the page's form sent back: it must be the session's.
#[derive(Drop)]
pub enum Ask {
    Folders,
    /// A page of a folder's rows, counted from 1.
    List {
        folder: Text,
        page: u32,
    },
    Threads {
        folder: Text,
        page: u32,
    },
    Search {
        folder: Text,
        words: Text,
        page: u32,
    },
    /// A message's page. `part` is the text to show, if one was chosen; `images` asks for remote images.
    Show {
        at: Address,
        part: Option<Section>,
        images: bool,
    },
    /// The bytes of one part.
    Part {
        at: Address,
        section: Section,
    },
    Flag {
        key: Text,
        at: Address,
        flag: Flag,
        on: bool,
    },
    Move {
        key: Text,
        at: Address,
        to: Text,
    },
    Delete {
        key: Text,
        at: Address,
    },
    /// The form of a new draft. `form` is its number.
    Compose {
        form: u64,
        from: Option<(Address, How)>,
    },
    SaveDraft {
        key: Text,
        fields: Draft,
    },
    SendDraft {
        key: Text,
        fields: Draft,
    },
    Identities,
    /// Replaces the identity of a number from 1 to 16.
    SetIdentity {
        key: Text,
        number: u8,
        identity: Identity,
    },
    LoginPage,
    Login {
        user: Text,
        password: Text,
    },
    Logout {
        key: Text,
    },
    /// The site's style sheet.
    Sheet,
}

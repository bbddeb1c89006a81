//! Replies: what a request is answered with.
use mail_values::{Bytes, Text};

/// What a reply's body is.
#[derive(Drop)]
pub enum Kind {
    /// A page of the site. With `images` it may load remote images, which its request asked for.
    Page { images: bool },
    /// A part of a message that a browser may show, of this media type.
    Picture(Text),
    /// Any other part of a message, for the browser to save.
    Raw,
    /// No body: the browser is sent to this address of the site.
    To(Text),
    /// The site's style sheet.
    Sheet,
}

/// A reply to a request.
#[derive(Drop)]
pub struct Reply {
    /// The status code (RFC 9110 §15).
    pub status: u16,
    pub kind: Kind,
    pub body: Bytes,
    /// The user whose account answered; empty if none did.
    pub account: Text,
    /// The number of the turn in which the account answered, if one was taken.
    pub turn: Option<u64>,
}

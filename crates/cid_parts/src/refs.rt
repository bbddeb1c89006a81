//! What an address refers to.

use mail_values::{Section, Text};

/// What an address in a message refers to.
#[derive(Drop)]
pub enum Ref {
    /// A part of the message itself.
    Part(Section),
    /// An address of the web, as `url` serializes it.
    Remote(Text),
    /// An address to which a click may lead, but which loads nothing, as `url` serializes it.
    Link(Text),
    /// Nothing that a page may use.
    Nothing,
}

//! What was said on a link.
use mail_values::Bytes;

/// A part of the talk on a link: the talk is the list of its pieces, from the first dial.
#[derive(Drop)]
pub enum Piece {
    /// The link was dialled. `fresh` means that nothing that an earlier dial told is kept.
    Dialled { fresh: bool },
    /// Bytes that were sent.
    Said(Bytes),
    /// Bytes that were received.
    Heard(Bytes),
}

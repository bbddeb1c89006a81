//! Parts that aren't yet opened.
use mail_values::Section;
use mime_content::Content;

/// The place of a part in the numbering.
#[derive(Clone, Copy)]
pub enum Position {
    /// It is the whole body of the message of a section, or of the message itself.
    Body(Option<Section>),
    /// It is the child of a multipart, and has a section of its own.
    Child(Section),
}

/// A part that isn't opened yet. `around` is how many multiparts and messages are around it, `enclosed` whether it is in a message
/// in the message, and its body is at `[body, to)`.
#[derive(Drop)]
pub struct Node {
    pub position: Position,
    pub around: usize,
    pub enclosed: bool,
    pub body: usize,
    pub to: usize,
    pub content: Content,
}

//! The tree of a message, and its parts.
ghost use Rattle.std.specs.Prelude.{◌≡◌, not, ◌||◌};
ghost use Rattle.std.specs.Option.{option_copied};
ghost use Rattle.mime_tree.specs.Content.{is_multipart, is_message};

use crate::media::{has_message, has_parts};
use header_words::Fields;
use mail_values::Section;
use mime_content::Content;
use std::marker::Model;
use transfer_codings::Coding;

/// A part of a message. It lends the bytes of its body.
#[derive(Drop)]
pub struct Part<'a> {
    section: Section,
    content: Content,
    raw: bool,
    enclosed: bool,
    start: usize,
    bytes: &'a [u8],
}

impl<'a> Model for Part<'a> {
    ghost use Rattle.mime_tree.specs.Tree.{PartValue};

    ghost Value = { PartValue };

    ghost use Rattle.mime_tree.specs.Opening.{part_value};

    ghost view = { λ p. part_value p.section p.enclosed p.raw p.content p.start p.bytes.now };
}

/// The tree of a message: its fields, and its parts in tree order. The multipart that is the whole body of a message is no part.
#[derive(Drop)]
pub struct Tree<'a> {
    fields: Fields<'a>,
    alternative: bool,
    parts: Vec<Part<'a>>,
}

impl<'a> Model for Tree<'a> {
    ghost use Rattle.mime_tree.specs.Tree.{TreeValue};

    ghost Value = { TreeValue };

    ghost view = { λ t. record { header = t.fields; alternative = t.alternative; parts = t.parts.items } };
}

impl<'a> Part<'a> {
    ghost use Rattle.mime_tree.specs.Opening.{part_value};

    pub(crate) fn new(
        section: Section,
        content: Content,
        raw: bool,
        enclosed: bool,
        start: usize,
        bytes: &'a [u8],
    ) -> Part<'a>
        ensures { result ≡ part_value section enclosed raw content start bytes.now }
    {
        Part {
            section,
            content,
            raw,
            enclosed,
            start,
            bytes,
        }
    }

    /// Returns the section.
    pub fn section(&self) -> &Section
        ensures { result.now ≡ self.now.section }
    {
        &self.section
    }

    /// Returns the type in lower case, as `text/plain`. A multipart or a message that isn't opened, and a leaf of an unknown coding,
    /// is `application/octet-stream`.
    pub fn mime(&self) -> &str
        ensures { result.now ≡ self.now.mime }
    {
        if self.raw {
            "application/octet-stream"
        } else {
            self.content.mime.as_str()
        }
    }

    /// Returns the charset as it is written, or `utf-8` if there is none.
    pub fn charset(&self) -> &str
        ensures { result.now ≡ self.now.charset }
    {
        self.content.charset.as_str()
    }

    /// Returns the coding of the body. An unknown one is `Plain`.
    pub fn coding(&self) -> Coding
        ensures { result ≡ self.now.coding }
    {
        match self.content.coding {
            Some(coding) => coding,
            None => Coding::Plain,
        }
    }

    /// Returns the name of the file that the part is to be saved as, or an empty text.
    pub fn name(&self) -> &str
        ensures { result.now ≡ self.now.name }
    {
        self.content.name.as_str()
    }

    /// Returns the bytes between the `<` and `>` of the Content-ID.
    pub fn id(&self) -> Option<&[u8]>
        ensures { option_copied result ≡ self.now.id }
    {
        match &self.content.id {
            Some(id) => Some(id.as_slice()),
            None => None,
        }
    }

    /// Returns the Content-Location.
    pub fn location(&self) -> Option<&str>
        ensures { option_copied result ≡ self.now.location }
    {
        match &self.content.location {
            Some(location) => Some(location.as_str()),
            None => None,
        }
    }

    /// Returns whether DelSp is yes, if the format is flowed (RFC 3676 §4).
    pub fn format(&self) -> Option<bool>
        ensures { result ≡ self.now.format }
    {
        self.content.format
    }

    /// Returns whether the disposition is attachment (RFC 2183 §2.2).
    pub fn is_attached(&self) -> bool
        ensures { result ≡ self.now.attached }
    {
        self.content.attached
    }

    /// Returns whether the part is in a message in the message.
    pub fn is_enclosed(&self) -> bool
        ensures { result ≡ self.now.enclosed }
    {
        self.enclosed
    }

    /// Returns whether the part is neither a multipart nor a message.
    pub fn is_leaf(&self) -> bool
        ensures { result ≡ not (is_multipart self.now.mime || is_message self.now.mime) }
    {
        let mime = self.mime();
        !(has_parts(mime) || has_message(mime))
    }

    /// Returns the bytes of the body as they are in the message, not decoded.
    pub fn bytes(&self) -> &'a [u8]
        ensures { result.now ≡ self.now.bytes }
    {
        self.bytes
    }
}

impl<'a> Tree<'a> {
    pub(crate) fn new(fields: Fields<'a>, alternative: bool, parts: Vec<Part<'a>>) -> Tree<'a>
        ensures { result ≡ record { header = fields.entry; alternative = alternative; parts = parts.entry.items } }
    {
        Tree {
            fields,
            alternative,
            parts,
        }
    }

    /// Returns the header fields of the message, and the place of its body.
    pub fn fields(&self) -> &Fields<'a>
        ensures { result.now ≡ self.now.header }
    {
        &self.fields
    }

    /// Returns the parts in tree order.
    pub fn parts(&self) -> &[Part<'a>]
        ensures { result.now ≡ self.now.parts }
    {
        &self.parts
    }

    /// Returns whether the message itself is a multipart/alternative.
    pub fn is_alternative(&self) -> bool
        ensures { result ≡ self.now.alternative }
    {
        self.alternative
    }
}

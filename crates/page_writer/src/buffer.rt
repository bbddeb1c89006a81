//! The bytes of a page, in which long texts are kept as they are until the page is written.
//!
//! A character may take six bytes of markup, so that a page is up to six times as long as its texts. Only short texts are
//! spelled in memory.
ghost use Rattle.std.specs.Prelude.{◌≡◌, [], ◌++◌, chars, encode_utf8_all, string_bytes, OnOk, is_ok, if◌then◌else◌};
ghost use Rattle.html_syntax.specs.Token.Token.{Start, End};
ghost use Rattle.page_writer.specs.Page.{spell_chars, spell_token};
ghost use Rattle.page_writer.specs.Bytes.{AreTexts};
ghost use Rattle.page_writer.specs.Written.{segment_bytes};
ghost use Rattle.std.specs.List.{concat};

use crate::{Memory, spelling};
use html_syntax::Attributes;
use std::alloc::{AllocError, Global};
use std::marker::Model;
use std::mem;

/// Length in bytes from which a text is kept as it is.
const LONG: usize = 65_536;

/// The most bytes of start tags. The start tags of a message of the largest size have fewer, unless its addresses are relative to a
/// long base.
const START_TAGS_LIMIT: usize = 268_435_456;

/// Markup, and a text after it that isn't spelled yet. It is seen as the bytes that both are on the page.
#[derive(Drop)]
pub struct Segment {
    markup: Vec<u8>,
    text: String,
}

impl Model for Segment {
    ghost use Rattle.std.specs.Prelude.{List, ℕ, string_bytes};
    ghost use Rattle.page_writer.specs.Written.{segment_bytes};

    ghost Value = { List ℕ };

    ghost view = { λ s. segment_bytes s.markup.items (string_bytes s.text) };
}

impl Segment {
    fn new(markup: Vec<u8>, text: String) -> Self
        ensures { result ≡ segment_bytes markup.items (string_bytes text) }
    {
        Segment { markup, text }
    }

    /// The markup and the text.
    pub fn parts(&self) -> (&[u8], &str)
        ensures { segment_bytes result.0.now result.1.now ≡ self.now }
    {
        (&self.markup, self.text.as_str())
    }
}

/// The bytes of a page so far, seen as their list.
#[derive(Drop)]
pub struct PageBytes {
    alloc: Global,
    segments: Vec<Segment>,
    tail: Vec<u8>,
    /// How many bytes of start tags there is room for.
    room: usize,
}

impl Model for PageBytes {
    ghost use Rattle.std.specs.Prelude.{List, ℕ, ◌++◌};
    ghost use Rattle.std.specs.List.{concat};

    ghost Value = { List ℕ };

    ghost view = { λ b. concat b.segments.items ++ b.tail.items };
}

impl PageBytes {
    pub fn new(alloc: Global) -> Self
        ensures { result ≡ [] }
    {
        PageBytes {
            alloc,
            segments: Vec::new(alloc),
            tail: Vec::new(alloc),
            room: START_TAGS_LIMIT,
        }
    }

    /// Appends markup as it is.
    pub fn add_markup(&mut self, markup: &[u8]) -> Result<(), Memory>
        ensures { self.new ≡ (if is_ok result then self.old ++ markup.now else self.old) }
    {
        self.tail.extend_from_slice(markup)
    }

    /// Appends a text, whose characters are escaped as needed.
    pub fn add_text(&mut self, text: &str) -> Result<(), Memory>
        ensures { self.new ≡ (if is_ok result then self.old ++ encode_utf8_all (spell_chars (chars text.now)) else self.old) }
    {
        if text.len() < LONG {
            spelling::add_text(&mut self.tail, text)
        } else {
            self.add_long_text(text)
        }
    }

    fn add_long_text(&mut self, text: &str) -> Result<(), Memory>
        ensures { self.new ≡ (if is_ok result then self.old ++ encode_utf8_all (spell_chars (chars text.now)) else self.old) }
    {
        let text = String::from_str(self.alloc, text)?;
        self.segments.reserve(1)?;
        let markup = mem::replace(&mut self.tail, Vec::new(self.alloc));
        self.segments.push(Segment::new(markup, text)).unwrap();
        Ok(())
    }

    /// Appends a start tag. Start tags beyond their limit are answered as want of memory.
    pub fn add_start(&mut self, name: &str, attributes: &Attributes) -> Result<(), Memory>
        ensures items { self.new ≡ (if is_ok result then self.old ++ encode_utf8_all (spell_token (Start (chars name.now) attributes.now)) else self.old) }
        ensures texts { OnOk result (AreTexts attributes.now) }
    {
        if self.room == 0 {
            return Err(AllocError);
        }
        let before = self.tail.len();
        let written = spelling::add_start(&mut self.tail, name, attributes);
        self.room = self
            .room
            .saturating_sub(self.tail.len().saturating_sub(before));
        written
    }

    pub fn add_end(&mut self, name: &str) -> Result<(), Memory>
        ensures { self.new ≡ (if is_ok result then self.old ++ encode_utf8_all (spell_token (End (chars name.now))) else self.old) }
    {
        spelling::add_end(&mut self.tail, name)
    }

    /// The segments, and the markup after the last of them.
    pub fn parts(&self) -> (&[Segment], &[u8])
        ensures { concat result.0.now ++ result.1.now ≡ self.now }
    {
        (&self.segments, &self.tail)
    }
}

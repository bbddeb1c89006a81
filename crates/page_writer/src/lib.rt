//! A writer of HTML pages that read as what was written.
//!
//! A [`PageOut`] takes a page token by token: start tags, end tags, texts. Its contract is that the bytes of the finished page
//! are the spelling of exactly these tokens, and that the HTML Standard's tokenizer reads them as these tokens again. So no
//! text and no attribute value, whoever chose it, can become a tag.
#![tactic(auto)]

mod buffer;
mod laws;
mod sending;
mod spelling;

ghost use Rattle.std.specs.Prelude.{◌≡◌, ℕ, ◌<◌, List, [], ◌∷◌, ◌++◌, length, chars, encode_utf8_all, OnOk, OnErr, IsTrue, is_ok, if◌then◌else◌};
ghost use Rattle.page_writer.specs.Page.{spell_token};
ghost use Rattle.page_writer.specs.Writer.{names_of};
ghost use Rattle.page_writer.specs.Bytes.{AreTexts};
ghost use Rattle.html_syntax.specs.Token.Token.{Start, End, Doctype};
ghost use Rattle.html_syntax.specs.Tokenizer.{tokens_of_bytes};
ghost use Rattle.page_writer.specs.Page.{spell, takes_tags, MayStart};
ghost use Rattle.html_rules.specs.Tokens.{replace_nulls};
ghost use Rattle.page_writer.specs.Writer.{with_token, with_text, innermost};
ghost use Rattle.html_rules.specs.Nesting.{IsNested};

pub use buffer::PageBytes;
use html_rules::is_void;
use html_syntax::Attributes;
pub use laws::pages_read_as_written;
pub use sending::{WRITE_ROOM, write_page};
pub use std::alloc::AllocError as Memory;
use std::alloc::Global;
use std::marker::Model;

/// A page that is being written, seen as the tokens written so far and the names of the open elements.
///
/// Text and attribute values may hold any characters; U+0000 is written, and counts, as U+FFFD. Each call leaves the page as
/// it was if memory is refused.
#[derive(Drop)]
pub struct PageOut {
    bytes: PageBytes,
    inside: Vec<String>,
}

impl Model for PageOut {
    ghost use Rattle.page_writer.specs.Writer.{Page, page_of, names_of, IsPagePrefix};

    ghost Value = { Page };

    ghost view = { λ a. page_of a.bytes (names_of a.inside.items) };

    ghost invariant = { λ a. IsPagePrefix a.bytes (names_of a.inside.items) };
}

impl PageOut {
    /// An empty page.
    pub fn new(alloc: Global) -> PageOut
        ensures written { result.written ≡ [] }
        ensures opened { result.opened ≡ [] }
    {
        PageOut {
            bytes: PageBytes::new(alloc),
            inside: Vec::new(alloc),
        }
    }

    /// Writes `<!DOCTYPE html>`.
    pub fn doctype(&mut self) -> Result<(), Memory>
        requires { IsTrue (takes_tags self.old.opened) }
        ensures ok { OnOk result (self.new ≡ with_token self.old Doctype) }
        ensures err { OnErr result (self.new ≡ self.old) }
    {
        self.bytes.add_markup(b"<!DOCTYPE html>")
    }

    /// Writes a text. Its characters are escaped as needed.
    pub fn chars(&mut self, text: &str) -> Result<(), Memory>
        ensures ok { OnOk result (self.new ≡ with_text self.old (chars text.now)) }
        ensures err { OnErr result (self.new ≡ self.old) }
    {
        self.bytes.add_text(text)
    }

    /// Writes a start tag, and opens its element unless it is void (HTML Standard, 13.1.2).
    ///
    /// The element and the attributes are listed, and the attributes have different names. An open `title` or `textarea` takes no
    /// tags.
    pub fn start(
        &mut self,
        alloc: Global,
        name: &str,
        attributes: &Attributes,
    ) -> Result<(), Memory>
        requires { MayStart self.old.opened (chars name.now) attributes.now }
        ensures ok { OnOk result (self.new ≡ with_token self.old (Start (chars name.now) (replace_nulls attributes.now))) }
        ensures err { OnErr result (self.new ≡ self.old) }
    {
        if is_void(name) {
            self.bytes.add_start(name, attributes)
        } else {
            open_element(alloc, &mut self.bytes, &mut self.inside, name, attributes)
        }
    }

    /// Writes the end tag of the innermost open element, and closes it.
    pub fn end(&mut self) -> Result<(), Memory>
        requires { 0 < length self.old.opened }
        ensures ok { OnOk result (self.new ≡ with_token self.old (End (innermost self.old.opened))) }
        ensures err { OnErr result (self.new ≡ self.old) }
    {
        let last = self.inside.len() - 1;
        self.bytes.add_end(self.inside[last].as_str())?;
        let _ = self.inside.pop();
        Ok(())
    }

    /// The bytes of the page, in UTF-8. No element may be open.
    pub fn finish(self) -> PageBytes
        requires { self.opened ≡ [] }
        ensures spelled { result ≡ encode_utf8_all (spell self.written) }
        ensures reads { tokens_of_bytes result ≡ self.written }
        ensures nested { IsNested self.written }
    {
        let PageOut { bytes, inside } = self;
        bytes
    }
}

/// Writes a start tag and pushes the element's name.
fn open_element(
    alloc: Global,
    out: &mut PageBytes,
    inside: &mut Vec<String>,
    name: &str,
    attributes: &Attributes,
) -> Result<(), Memory>
    ensures items { out.new ≡ (if is_ok result then out.old ++ encode_utf8_all (spell_token (Start (chars name.now) attributes.now)) else out.old) }
    ensures names { names_of inside.new.items ≡ (if is_ok result then chars name.now ∷ names_of inside.old.items else names_of inside.old.items) }
    ensures texts { OnOk result (AreTexts attributes.now) }
{
    inside.push(String::from_str(alloc, name)?)?;
    let written = out.add_start(name, attributes);
    if written.is_err() {
        let _ = inside.pop();
    }
    written
}

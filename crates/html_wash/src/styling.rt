//! The rules of a message's style elements, and what becomes of the characters after a tag.
ghost use Rattle.std.specs.Prelude.{◌≡◌, ◌<◌, false, chars, encode_utf8_all, string_bytes, IfOk, OnOk};
ghost use Rattle.html_rules.specs.Values.{is_empty as is_empty_text};
ghost use Rattle.style_wash.specs.Characters.{trimmed};
ghost use Rattle.html_tokens.specs.Scanned.{span_tokens, IsSpan};
ghost use Rattle.html_wash.specs.Elements.{name_of};
ghost use Rattle.html_wash.specs.Styling.{counted, declared_for, following_of, is_dropping, is_screen as is_screen_text, no_styling, settled, taken_limit, with_characters, with_following};
ghost use Rattle.html_wash.specs.StylingSteps.{IsFor, declared_by, is_sheet, reads};
ghost use Rattle.html_wash.specs.Writing.{IfCharacters};

use crate::Memory;
use crate::element::Element;
use crate::runs::token_text;
use html_tokens::{Lexeme, Scanner, Span, StartTag};
use std::alloc::Global;
use std::marker::Model;
use style_rules::Rules;
use wash_attributes::attribute_text;

/// The most start tags for which rules declare a style.
const TAKEN_LIMIT: usize = 20_000;

/// What becomes of the characters that follow.
#[derive(Clone, Copy)]
pub enum TextUse {
    Keep,
    Drop,
    Read,
}

/// The rules of a message's style elements, and what becomes of the characters that follow.
#[derive(Drop)]
pub struct Styling {
    rules: Rules,
    count: usize,
    text_use: TextUse,
    /// The text of a style element so far, while it is read.
    text: String,
}

impl Model for Styling {
    ghost use Rattle.html_wash.specs.Styling.{Styling as StylingValue};
    ghost use Rattle.html_wash.specs.TextSeen.{following_seen};

    ghost Value = { StylingValue };

    ghost view = { λ s. record { rules = s.rules; count = s.count; following = following_seen s.text_use s.text } };
}

impl Styling {
    /// Returns no rules. Characters are kept.
    pub fn new(alloc: Global) -> Styling
        ensures { result ≡ no_styling }
    {
        Styling {
            rules: Rules::new(alloc),
            count: 0,
            text_use: TextUse::Keep,
            text: String::new(alloc),
        }
    }

    /// Whether characters are dropped.
    pub fn drops_text(&self) -> bool
        ensures { result ≡ is_dropping self.now.following }
    {
        !matches!(self.text_use, TextUse::Keep)
    }

    /// Whether characters are those of a style element whose rules count.
    fn reads_text(&self) -> bool
        ensures { result ≡ reads self.now.following }
    {
        matches!(self.text_use, TextUse::Read)
    }

    /// Takes the end of a text: the rules of a style element are read.
    #[tactic(auto, unfolding(crate::specs::Styling::settled))]
    pub fn settle(&mut self, alloc: Global) -> Result<(), Memory>
        ensures { OnOk result (self.new ≡ settled self.old) }
    {
        let text_use = self.text_use;
        self.text_use = TextUse::Keep;
        match text_use {
            TextUse::Read => self.rules.read(alloc, self.text.as_str()),
            _ => Ok(()),
        }
    }

    /// Takes the start tag of a dropped element.
    pub fn drop_text(&mut self, alloc: Global, tag: &StartTag<'_>) -> Result<(), Memory>
        ensures { OnOk result (self.new ≡ with_following (following_of tag.now.name tag.now.attributes) self.old) }
    {
        if is_sheet(alloc, tag)? {
            self.text = String::new(alloc);
            self.text_use = TextUse::Read;
            return Ok(());
        }
        self.text_use = TextUse::Drop;
        Ok(())
    }

    /// Takes the characters of a run, unless they are kept.
    pub fn take_run(
        &mut self,
        alloc: Global,
        scanner: &Scanner<'_>,
        span: &Span,
    ) -> Result<(), Memory>
        requires span { IsSpan scanner.now.text span.now }
        ensures { OnOk result (IfCharacters (span_tokens scanner.now.text span.now) (λ cs. self.new ≡ with_following (with_characters self.old.following cs) self.old)) }
    {
        if !self.reads_text() {
            return Ok(());
        }
        match scanner.piece(alloc, span)? {
            Lexeme::Lent(text) => self.read_text(text),
            Lexeme::Made(token) => self.read_text(token_text(&token)),
        }
    }

    /// Takes characters of a style element.
    fn read_text(&mut self, text: &str) -> Result<(), Memory>
        ensures { OnOk result (self.new ≡ with_following (with_characters self.old.following (chars text.now)) self.old) }
    {
        self.text.push_str(text)
    }

    /// Returns the style that the rules declare for a start tag, which may be empty, and counts the tag unless it is.
    pub fn declared(
        &mut self,
        alloc: Global,
        element: Element,
        tag: &StartTag<'_>,
    ) -> Result<String, Memory>
        ensures style { IfOk result (λ style. chars (string_bytes style) ≡ declared_for self.old (name_of element) tag.now.attributes) }
        ensures counts { OnOk result (self.new ≡ counted (declared_for self.old (name_of element) tag.now.attributes) self.old) }
    {
        let style = self.style_for(alloc, element, tag)?;
        self.count_tag(style.as_str());
        Ok(style)
    }

    /// Returns the style that the rules declare for a start tag. Its classes aren't read if that is known to be empty.
    fn style_for(
        &self,
        alloc: Global,
        element: Element,
        tag: &StartTag<'_>,
    ) -> Result<String, Memory>
        ensures { IfOk result (λ style. IsFor self.now (name_of element) tag.now.attributes (string_bytes style)) }
    {
        if self.rules.is_empty() {
            return Ok(String::new(alloc));
        }
        if self.count >= TAKEN_LIMIT {
            return Ok(String::new(alloc));
        }
        let classes = attribute_text(alloc, tag, "class")?;
        self.style_of(alloc, element, classes.as_str())
    }

    /// Returns the style that the rules declare for an element with classes.
    fn style_of(&self, alloc: Global, element: Element, classes: &str) -> Result<String, Memory>
        ensures { IfOk result (λ style. chars (string_bytes style) ≡ declared_by self.now.rules (name_of element) (chars classes.now)) }
    {
        self.rules.declared(alloc, element.name(), classes)
    }

    /// Counts a start tag for which the rules declare the style, unless that is empty.
    #[tactic(auto, unfolding(crate::specs::Styling::counted))]
    fn count_tag(&mut self, style: &str)
        requires { is_empty_text style.now ≡ false → self.old.count < taken_limit }
        ensures { self.new ≡ counted style.now self.old }
    {
        if !style.is_empty() {
            self.count += 1;
        }
    }
}

/// Whether a start tag is that of a style element whose rules count.
fn is_sheet(alloc: Global, tag: &StartTag<'_>) -> Result<bool, Memory>
    ensures { IfOk result (λ is. is ≡ is_sheet tag.now.name tag.now.attributes) }
{
    if !tag.name().reads_as("style") {
        return Ok(false);
    }
    let media = attribute_text(alloc, tag, "media")?;
    Ok(is_screen(trim(media.as_str())))
}

/// The text without the white space around it.
fn trim(text: &str) -> &str
    ensures { result.now ≡ trimmed text.now }
{
    text.trim_ascii()
}

/// Whether rules for a `media` count.
fn is_screen(media: &str) -> bool
    ensures { result ≡ is_screen_text media.now }
{
    media.is_empty() || media.eq_ignore_ascii_case("all") || media.eq_ignore_ascii_case("screen")
}

//! RCDATA, RAWTEXT and plaintext (HTML Standard 13.2.5.2 to 13.2.5.14).
ghost use Rattle.std.specs.Prelude.{◌≡◌, ◌++◌, ◌<◌, length, take, drop, true, false, codes, zero, IsCharBoundary};
ghost use Rattle.html_syntax.specs.States.{is_script};
ghost use Rattle.html_syntax.specs.States.State.{Data, Raw, Plaintext};
ghost use Rattle.html_syntax.specs.Tokenizer.{read, chars as char_tokens};
ghost use Rattle.html_references.specs.Input.{input, read_as};
ghost use Rattle.html_tokens.specs.Scanned.{element_name, raw_text_kind, opens_end};
ghost use Rattle.html_tokens.specs.Contents.{content_read_as, ends_name as name_ends, begins_with_name, begins_end_tag as content_closes};
ghost use Rattle.html_references.specs.declared.stretch.ReadAs.TheVariants as reads;

use crate::cuts::skip_to_byte;
use crate::mode::Content;
use crate::script::script_end;
use html_references::stretch::ReadAs;

impl Content {
    /// Returns how the element's content is read.
    pub fn read_as(self) -> ReadAs
        ensures { result ≡ content_read_as self }
    {
        match self {
            Content::Title | Content::Textarea => ReadAs::Rcdata,
            _ => ReadAs::Raw,
        }
    }

    /// Returns `</` and the element's name.
    pub fn end_tag(self) -> &'static str
        ensures { result.now ≡ codes "</" ++ element_name self }
    {
        match self {
            Content::Title => "</title",
            Content::Textarea => "</textarea",
            Content::Style => "</style",
            Content::Xmp => "</xmp",
            Content::Iframe => "</iframe",
            Content::Noembed => "</noembed",
            Content::Noframes => "</noframes",
            Content::Script => "</script",
        }
    }
}

/// Whether the text begins with a character that ends a tag's name.
fn ends_name(text: &[u8]) -> bool
    ensures { result ≡ name_ends text.now }
{
    match text {
        [] => false,
        [c, ..] => matches!(*c, b'\t' | b'\n' | 0x0C | b' ' | b'\r' | b'/' | b'>'),
    }
}

/// Whether a text begins with a word, whatever its case, and a tag's name ends after it. The word is in lower case.
pub fn begins_with_name(word: &[u8], text: &[u8]) -> bool
    ensures { result ≡ begins_with_name word.now text.now }
{
    match word {
        [] => ends_name(text),
        [letter, word @ ..] => match text {
            [] => false,
            [c, text @ ..] => *letter == c.to_ascii_lowercase() && begins_with_name(word, text),
        },
    }
}

/// Whether a text begins with the element's end tag.
pub fn begins_end_tag(content: Content, rest: &str) -> bool
    ensures { result ≡ content_closes content rest.now }
{
    begins_with_name(content.end_tag().as_bytes(), rest.as_bytes())
}

/// The length of the content of an element other than `script`.
fn element_end(content: Content, rest: &str) -> usize
    requires { is_script (raw_text_kind content) ≡ false }
    ensures boundary { IsCharBoundary rest.now result }
    ensures reads { read (Raw (raw_text_kind content) (element_name content)) 0 (input rest.now)
        ≡ char_tokens (read_as (content_read_as content) (input (take result rest.now))) ++ read Data 0 (input (drop result rest.now)) }
    ensures ends { result < length rest.now → content_closes content (drop result rest.now) ≡ true }
{
    let mut at = skip_to_byte(b'<', rest);
    while at < rest.len() && !begins_end_tag(content, &rest[at..]) {
        at += 1 + skip_to_byte(b'<', &rest[at + 1..]);
    }
    at
}

/// The length of the content of an element, up to its end tag or the text's end.
pub fn content_end(content: Content, rest: &str) -> usize
    ensures boundary { IsCharBoundary rest.now result }
    ensures reads { read (Raw (raw_text_kind content) (element_name content)) 0 (input rest.now)
        ≡ char_tokens (read_as (content_read_as content) (input (take result rest.now))) ++ read Data 0 (input (drop result rest.now)) }
    ensures ends { result < length rest.now → opens_end (drop result rest.now) ≡ true }
{
    match content {
        Content::Script => script_end(rest),
        _ => element_end(content, rest),
    }
}

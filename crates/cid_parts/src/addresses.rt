//! Reads an address: its scheme, its URL, and what a URL is by itself.
ghost use Rattle.std.specs.Prelude.{◌≡◌, true, ◌&&◌, ◌||◌, IfOk, if◌then◌else◌, Some, None, drop, codes, string_bytes, IsAscii};
ghost use Rattle.std.specs.List.{list_all};
ghost use Rattle.std.specs.Option.{option_copied};
ghost use Rattle.url.specs.Parts.{serialize};
ghost use Rattle.html_syntax.specs.References.{begins_with};
ghost use Rattle.html_rules.specs.Values.{is_address_char, is_remote, is_link};
ghost use Rattle.cid_parts.specs.Located.{url_of, base_of};
ghost use Rattle.cid_parts.specs.Refer.{is_cid, ref_of_text, IsSafe};

use crate::refs::Ref;
use mail_values::Text;
use std::alloc::{AllocError, Global};
use url::{ParseError, Url};

/// Returns what follows `cid:`, if an address begins so.
pub fn content_id(address: &[u8]) -> Option<&[u8]>
    ensures { option_copied result ≡ (if is_cid address.now then Some (drop 4 address.now) else None) }
{
    match address {
        [a, b, c, d, rest @ ..] if [*a, *b, *c, *d].eq_ignore_ascii_case(b"cid:") => Some(rest),
        _ => None,
    }
}

/// Returns the URL that an address reads as with a base.
#[tactic(auto, unfolding(crate::specs::Located::url_of))]
pub fn read_url(alloc: Global, base: Option<&Url>, address: &str) -> Result<Option<Url>, AllocError>
    ensures { IfOk result (λ url. url ≡ url_of (option_copied base.entry) address.now) }
{
    let parsed = match base {
        Some(base) => base.join(address),
        None => Url::parse(alloc, address),
    };
    match parsed {
        Ok(url) => Ok(Some(url)),
        Err(ParseError::OutOfMemory) => Err(AllocError),
        Err(ParseError::Overflow) => Err(AllocError),
        Err(_) => Ok(None),
    }
}

/// The longest base in bytes. Each relative address is read with a copy of its base, and a message may have millions of them.
const BASE_LIMIT: usize = 8_192;

/// Returns the base that a Content-Location gives. A base that is longer than the limit is answered as want of memory.
pub fn read_base(alloc: Global, location: Option<&str>) -> Result<Option<Url>, AllocError>
    ensures { IfOk result (λ base. base ≡ base_of (option_copied location.entry)) }
{
    match location {
        Some(location) => within_limit(read_url(alloc, None, location)?),
        None => Ok(None),
    }
}

fn within_limit(base: Option<Url>) -> Result<Option<Url>, AllocError>
    ensures { IfOk result (λ same. same ≡ base) }
{
    match base {
        Some(url) if url.as_str().len() > BASE_LIMIT => Err(AllocError),
        base => Ok(base),
    }
}

/// Returns whether a text has neither a space nor a control. It reads the whole text: without an end in its midst, the loop is done on
/// many bytes at once.
pub fn has_address_chars(text: &str) -> bool
    ensures { result ≡ list_all is_address_char text.now }
{
    let mut all = true;
    for byte in text.as_bytes() {
        all &= is_address_byte(*byte);
    }
    all
}

fn is_address_byte(byte: u8) -> bool
    ensures { result ≡ is_address_char byte }
{
    byte > b' ' && !(0x7F..=0x9F).contains(&byte)
}

#[tactic(auto, unfolding(html_rules::specs::Values::is_remote))]
fn is_remote(text: &str) -> bool
    requires { list_all is_address_char text.now ≡ true }
    ensures { result ≡ is_remote text.now }
{
    is_web(text)
}

fn is_web(text: &str) -> bool
    ensures { result ≡ (begins_with (codes "http://") text.now || begins_with (codes "https://") text.now) }
{
    begins_with("http://", text) || begins_with("https://", text)
}

#[tactic(auto, unfolding(html_rules::specs::Values::is_link))]
fn is_link(text: &str) -> bool
    requires { list_all is_address_char text.now ≡ true }
    ensures { result ≡ is_link text.now }
{
    is_remote(text) || begins_with("mailto:", text)
}

#[tactic(auto, using(crate::proofs::Words::begins_with_take))]
fn begins_with(word: &str, text: &str) -> bool
    ensures { result ≡ begins_with word.now text.now }
{
    text.as_bytes().starts_with(word.as_bytes())
}

/// Returns what a URL is by itself, by its text, which has neither spaces nor controls.
#[tactic(auto, unfolding(crate::specs::Refer::ref_of_text))]
pub fn ref_of_text(text: String) -> Ref
    requires chars { list_all is_address_char (string_bytes text) ≡ true }
    requires ascii { IsAscii (string_bytes text) }
    ensures equals { result ≡ ref_of_text (string_bytes text) }
    ensures safe { IsSafe result }
{
    if is_remote(text.as_str()) {
        return Ref::Remote(Text::from_string(text));
    }
    if is_link(text.as_str()) {
        return Ref::Link(Text::from_string(text));
    }
    Ref::Nothing
}

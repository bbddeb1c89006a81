//! Strings (RFC 9051 §4.3).

ghost use Rattle.std.specs.Prelude.{◌≡◌, ◌≤◌, length, IfOk};
ghost use Rattle.imap_values.specs.Lents.{bytes_of, bytes_or_nil};
ghost use Rattle.imap_values.specs.Words.{ParsesAs, all_in_class};
ghost use Rattle.imap_values.specs.declared.words.Class.TheVariants as classes;
ghost use Rattle.imap_values.specs.Strings.{IsClosingQuote, NoQuoteBefore, unescape, quoted_raw_at, quoted_at, literal_at, literal8_at, string_at, begins_string, is_nil, nstring_at};

use crate::error::ParseError;
use crate::lent::Lent;
use crate::words::{Class, all_in_class, eq_ignore_case, number};
use mail_values::Bytes;
use memchr::memchr2;
use std::alloc::{AllocError, Global};

/// The offset of the next quote or `\` from `at` on, or the length.
fn next_mark(bytes: &[u8], at: usize) -> usize
    requires { at ≤ length bytes.now }
    ensures within { result ≤ length bytes.now }
    ensures advances { at ≤ result }
    ensures plain { NoQuoteBefore bytes.now at → NoQuoteBefore bytes.now result }
{
    match memchr2(b'"', b'\\', &bytes[at..]) {
        Some(count) => at + count,
        None => bytes.len(),
    }
}

/// The offset of the first quote that is not escaped.
fn closing_quote(bytes: &[u8]) -> Option<usize>
    ensures { IsClosingQuote bytes.now result }
{
    let mut at = next_mark(bytes, 0);
    while at < bytes.len() {
        if bytes[at] == b'"' {
            return Some(at);
        }
        if bytes[at] == b'\\' {
            at += 1;
            if at == bytes.len() {
                return None;
            }
        }
        at = next_mark(bytes, at + 1);
    }
    None
}

/// Whether a text has no CR and no LF.
fn is_one_line(text: &[u8]) -> bool
    ensures { result ≡ all_in_class classes.Line text.now }
{
    match memchr2(b'\r', b'\n', text) {
        Some(_) => false,
        None => true,
    }
}

/// Reads a quoted string after its opening quote, and returns its text with the escapes, and the rest.
#[tactic(auto, unfolding(crate::specs::Strings::quoted_raw_at))]
pub fn quoted_raw(bytes: &[u8]) -> Result<(&[u8], &[u8]), ParseError>
    ensures { ParsesAs (λ x. (x.0.now, x.1.now)) result (quoted_raw_at bytes.now) }
{
    match closing_quote(bytes) {
        None => Err(ParseError::NotInGrammar),
        Some(len) => {
            let text = &bytes[..len];
            let after = &bytes[len + 1..];
            if !is_one_line(text) {
                return Err(ParseError::NotInGrammar);
            }
            Ok((text, after))
        }
    }
}

/// Removes each `\` before another byte.
fn unescape(alloc: Global, text: &[u8]) -> Result<Bytes, AllocError>
    ensures { IfOk result (λ v. v ≡ unescape text.now) }
{
    let mut out = Vec::new(alloc);
    let mut held = false;
    for byte in text {
        if !held && *byte == b'\\' {
            held = true;
        } else {
            held = false;
            out.push(*byte)?;
        }
    }
    Ok(Bytes::from_vec(out))
}

/// The text of a quoted string without its escapes, copied only if it has some.
fn text_of(alloc: Global, raw: &[u8]) -> Result<Lent<'_>, AllocError>
    ensures { IfOk result (λ v. bytes_of v ≡ unescape raw.now) }
{
    if all_in_class(Class::Unescaped, raw) {
        return Ok(Lent::Slice(raw));
    }
    Ok(Lent::Made(unescape(alloc, raw)?))
}

#[tactic(auto, unfolding(crate::specs::Strings::quoted_at))]
fn quoted(alloc: Global, bytes: &[u8]) -> Result<(Lent<'_>, &[u8]), ParseError>
    ensures { ParsesAs (λ x. (bytes_of x.0, x.1.now)) result (quoted_at bytes.now) }
{
    let (text, after) = quoted_raw(bytes)?;
    Ok((text_of(alloc, text)?, after))
}

/// Reads a literal after its `{`, and returns its octets and the rest.
#[tactic(auto, unfolding(crate::specs::Strings::literal_at))]
pub fn literal(bytes: &[u8]) -> Result<(&[u8], &[u8]), ParseError>
    ensures { ParsesAs (λ x. (x.0.now, x.1.now)) result (literal_at bytes.now) }
{
    let (n, rest) = number(bytes, 33_554_432)?;
    let n = n as usize;
    match rest {
        [b'}', b'\r', b'\n', after @ ..] => {
            if after.len() < n {
                return Err(ParseError::NotInGrammar);
            }
            Ok(after.split_at(n))
        }
        _ => Err(ParseError::NotInGrammar),
    }
}

/// Reads a literal8 after its `~`.
fn literal8(bytes: &[u8]) -> Result<(&[u8], &[u8]), ParseError>
    ensures { ParsesAs (λ x. (x.0.now, x.1.now)) result (literal8_at bytes.now) }
{
    match bytes {
        [b'{', rest @ ..] => literal(rest),
        _ => Err(ParseError::NotInGrammar),
    }
}

/// Reads a quoted string, a literal or a literal8.
#[tactic(auto, unfolding(crate::specs::Strings::string_at))]
pub fn string(alloc: Global, bytes: &[u8]) -> Result<(Lent<'_>, &[u8]), ParseError>
    ensures { ParsesAs (λ x. (bytes_of x.0, x.1.now)) result (string_at bytes.now) }
{
    match bytes {
        [b'"', rest @ ..] => quoted(alloc, rest),
        [b'{', rest @ ..] => {
            let (octets, after) = literal(rest)?;
            Ok((Lent::Slice(octets), after))
        }
        [b'~', rest @ ..] => {
            let (octets, after) = literal8(rest)?;
            Ok((Lent::Slice(octets), after))
        }
        _ => Err(ParseError::NotInGrammar),
    }
}

/// Whether the bytes begin as a string does.
pub fn begins_string(bytes: &[u8]) -> bool
    ensures { result ≡ begins_string bytes.now }
{
    match bytes {
        [b'"' | b'{', ..] => true,
        [b'~', b'{', ..] => true,
        _ => false,
    }
}

pub fn is_nil(bytes: &[u8]) -> bool
    ensures { result ≡ is_nil bytes.now }
{
    bytes.len() >= 3 && eq_ignore_case(&bytes[..3], b"nil")
}

/// Reads NIL or a string.
#[tactic(auto, unfolding(crate::specs::Strings::nstring_at))]
pub fn nstring(alloc: Global, bytes: &[u8]) -> Result<(Option<Lent<'_>>, &[u8]), ParseError>
    ensures { ParsesAs (λ x. (bytes_or_nil x.0, x.1.now)) result (nstring_at bytes.now) }
{
    if is_nil(bytes) {
        return Ok((None, &bytes[3..]));
    }
    let (text, rest) = string(alloc, bytes)?;
    Ok((Some(text), rest))
}

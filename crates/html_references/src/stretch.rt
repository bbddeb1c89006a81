//! Stretches of text and the characters that they are read as.
ghost use Rattle.std.specs.Prelude.{◌≡◌, ◌<◌, ◌∷◌, ◌++◌, [], true, chars, length, take, drop, slice_index, string_bytes, OnOk, IfOk, IsCharBoundary};
ghost use Rattle.html_syntax.specs.Characters.{ampersand, line_feed};
ghost use Rattle.html_references.specs.Input.{input, read_as as what_is_read, in_attribute as reads_in_attribute, null_read_as as null_of, is_special, no_special, line_end_len};

use crate::Memory;
use crate::references::{Reference, read_reference};
use memchr::memchr3;
use std::alloc::Global;

/// How a stretch of text is read.
#[derive(Clone, Copy)]
pub enum ReadAs {
    /// Text outside of tags: references are decoded, U+0000 stays.
    Text,
    /// RCDATA: references are decoded.
    Rcdata,
    /// An attribute's value: references are decoded by the rules for attributes.
    Value,
    /// Every character is itself.
    Raw,
}

/// The length of the prefix before the first `&`, CR or U+0000.
fn plain_len(rest: &str) -> usize
    ensures boundary { IsCharBoundary rest.now result }
    ensures plain { no_special (take result rest.now) ≡ true }
    ensures stops_at_special { result < length rest.now → is_special (slice_index rest.now result) ≡ true }
{
    memchr3(b'&', b'\r', 0, rest.as_bytes()).unwrap_or(rest.len())
}

/// Returns the character that U+0000 is read as.
fn read_null(read_as: ReadAs) -> char
    ensures { result ≡ null_of read_as }
{
    match read_as {
        ReadAs::Text => '\0',
        ReadAs::Rcdata | ReadAs::Value | ReadAs::Raw => '\u{FFFD}',
    }
}

/// Reads the `&` that is right before the text: its character, and the length of the reference after it.
fn read_ampersand(read_as: ReadAs, rest: &str) -> Reference
    ensures boundary { IsCharBoundary rest.now result.len }
    ensures reads { what_is_read read_as (input (ampersand ∷ rest.now)) ≡ result.character ∷ what_is_read read_as (input (drop result.len rest.now)) }
{
    match read_as {
        ReadAs::Raw => Reference {
            len: 0,
            character: '&',
        },
        ReadAs::Text => read_reference(false, rest.as_bytes()),
        ReadAs::Rcdata => read_reference(false, rest.as_bytes()),
        ReadAs::Value => read_reference(true, rest.as_bytes()),
    }
}

/// Reads the special byte that the text begins with: its character, and the number of bytes that belong to it.
fn read_special(read_as: ReadAs, rest: &str) -> Reference
    requires nonempty { 0 < length rest.now }
    requires special { is_special (slice_index rest.now 0) ≡ true }
    ensures nonempty { 0 < result.len }
    ensures boundary { IsCharBoundary rest.now result.len }
    ensures reads { what_is_read read_as (input rest.now) ≡ result.character ∷ what_is_read read_as (input (drop result.len rest.now)) }
{
    let first = rest.as_bytes()[0];
    let more = &rest[1..];
    if first == b'&' {
        let found = read_ampersand(read_as, more);
        Reference {
            len: 1 + found.len,
            character: found.character,
        }
    } else if first == 0 {
        Reference {
            len: 1,
            character: read_null(read_as),
        }
    } else {
        read_line_end(more)
    }
}

/// Reads the line end whose carriage return is right before the text.
fn read_line_end(more: &str) -> Reference
    ensures character { result.character ≡ line_feed }
    ensures len { result.len ≡ line_end_len more.now }
{
    Reference {
        len: if more.as_bytes().first() == Some(&b'\n') {
            2
        } else {
            1
        },
        character: '\n',
    }
}

/// Appends a character.
fn push_character(out: &mut String, character: char) -> Result<(), Memory>
    ensures { OnOk result (chars (string_bytes out.new) ≡ chars (string_bytes out.old) ++ character ∷ []) }
{
    out.push(character)?;
    Ok(())
}

/// Appends the first characters that a text is read as, and returns the number of bytes read.
fn push_front(out: &mut String, read_as: ReadAs, rest: &str) -> Result<usize, Memory>
    requires { 0 < length rest.now }
    ensures nonempty { IfOk result (λ n. 0 < n) }
    ensures boundary { IfOk result (λ n. IsCharBoundary rest.now n) }
    ensures reads { IfOk result (λ n. chars (string_bytes out.new) ++ what_is_read read_as (input (drop n rest.now)) ≡ chars (string_bytes out.old) ++ what_is_read read_as (input rest.now)) }
{
    let plain = plain_len(rest);
    if plain > 0 {
        out.push_str(&rest[..plain])?;
        Ok(plain)
    } else {
        let found = read_special(read_as, rest);
        push_character(out, found.character)?;
        Ok(found.len)
    }
}

/// Appends the characters of a stretch.
fn push_stretch(out: &mut String, read_as: ReadAs, stretch: &str) -> Result<(), Memory>
    ensures { OnOk result (chars (string_bytes out.new) ≡ chars (string_bytes out.old) ++ what_is_read read_as (input stretch.now)) }
{
    let mut at = 0;
    while at < stretch.len() {
        at += push_front(out, read_as, &stretch[at..])?;
    }
    Ok(())
}

/// Returns the characters of a stretch.
pub fn read_stretch(alloc: Global, read_as: ReadAs, stretch: &str) -> Result<String, Memory>
    ensures { IfOk result (λ t. chars (string_bytes t) ≡ what_is_read read_as (input stretch.now)) }
{
    let plain = plain_len(stretch);
    // Few references are shorter than their characters.
    let mut text = String::with_capacity(alloc, stretch.len())?;
    text.push_str(&stretch[..plain])?;
    if plain < stretch.len() {
        push_stretch(&mut text, read_as, &stretch[plain..])?;
    }
    Ok(text)
}

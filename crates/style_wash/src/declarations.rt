//! Declarations, and styles that are made of them.
ghost use Rattle.std.specs.Prelude.{◌≡◌, ◌==◌, ◌≤◌, ◌<◌, [], ◌∷◌, IfOk, IsTrue, MatchOption, None, OnOk, Some, length};
ghost use Rattle.std.specs.List.{list_all, position_or_len};
ghost use Rattle.std.specs.Str.{IsAscii};
ghost use Rattle.std.specs.String.{string_bytes};
ghost use Rattle.style_wash.specs.Characters.{is_style_char};
ghost use Rattle.style_wash.specs.Cuts.{property_onto, with_declaration, IsPlainBefore};
ghost use Rattle.style_wash.specs.Declarations.{IsStyle, calls_only_rgb, declaration_of, declaration_with, is_piece_end, pieces, stylewash, value_after_colon, without_important};
ghost use Rattle.style_wash.specs.Seen.{nesting_seen};
ghost use Rattle.style_wash.specs.Tables.{property_of};
ghost use Rattle.style_wash.specs.Values.Nesting.{Outside};

use crate::characters::{trim, trim_back};
use crate::tables::property;
use crate::values::{Nesting, nesting_after, push_value};
use memchr::memchr3;
use std::alloc::{AllocError as Memory, Global};

/// Returns the declarations of an inline style that a page may have, in their order, with `; ` between each two; the result is empty if
/// there are none. Each has one spelling: the property in lower case, `: `, and the items with ` `, `, ` or `/` between each two; names
/// are in single quotes.
pub fn wash_style(alloc: Global, text: &str) -> Result<String, Memory>
    ensures equals { IfOk result (λ style. string_bytes style ≡ stylewash text.now) }

    // What the page around the style may rely on.
    ensures style { IfOk result (λ style. IsStyle (string_bytes style)) }
    ensures idempotent { IfOk result (λ style. stylewash (string_bytes style) ≡ string_bytes style) }
    ensures characters { IfOk result (λ style. IsTrue (list_all is_style_char (string_bytes style))) }
    ensures functions { IfOk result (λ style. IsTrue (calls_only_rgb [] (string_bytes style))) }
{
    // A washed style is rarely longer than its text.
    let mut style = Vec::with_capacity(alloc, text.len())?;
    let mut rest = text.as_bytes();
    while let Some((piece, after)) = split_piece(rest) {
        push_declaration(piece, &mut style)?;
        rest = after;
    }
    push_declaration(rest, &mut style)?;
    Ok(text_of(style))
}

// Converts ASCII bytes to a string.
fn text_of(bytes: Vec<u8>) -> String
    requires { IsAscii bytes.items }
    ensures { string_bytes result ≡ bytes.items }
{
    match String::from_utf8(bytes) {
        Ok(text) => text,
        Err(_) => unreachable!(),
    }
}

// Splits at the first `;` outside of quotes.
fn split_piece(text: &[u8]) -> Option<(&[u8], &[u8])>
    ensures { MatchOption result (pieces Outside text.now ≡ text.now ∷ [])
        (λ cut. (pieces Outside text.now ≡ cut.0.now ∷ pieces Outside cut.1.now) × (length cut.1.now < length text.now)) }
{
    let mut place = Nesting::Outside;
    let mut end = plain_len(text);
    while end < text.len() && !is_piece_end(place, text[end]) {
        place = nesting_after(false, place, text[end]);
        end += 1;
    }
    if end == text.len() {
        return None;
    }
    Some((&text[..end], &text[end + 1..]))
}

// The length of the prefix before the first `;` or quote.
fn plain_len(text: &[u8]) -> usize
    ensures within { result ≤ length text.now }
    ensures plain { IsPlainBefore result text.now }
{
    memchr3(b';', b'\'', b'"', text).unwrap_or(text.len())
}

fn is_piece_end(place: Nesting, c: u8) -> bool
    ensures { result ≡ is_piece_end (nesting_seen place) c }
{
    match place {
        Nesting::Outside => c == b';',
        Nesting::Until(_) => false,
    }
}

// Appends the declaration that a text is to those of a style, and nothing if the text is none.
fn push_declaration(text: &[u8], style: &mut Vec<u8>) -> Result<(), Memory>
    ensures { OnOk result (style.new.items ≡ with_declaration style.old.items (declaration_of text.now)) }
{
    let Some((name, value)) = split_declaration(text) else {
        return Ok(());
    };
    let Some(property) = property(name) else {
        return Ok(());
    };
    let size = style.len();
    push_property(property, style)?;
    if !push_value(trim(without_important(value)), style)? {
        style.truncate(size);
    }
    Ok(())
}

// Appends a property to the declarations of a style.
fn push_property(property: &str, style: &mut Vec<u8>) -> Result<(), Memory>
    ensures { OnOk result (style.new.items ≡ property_onto style.old.items property.now) }
{
    if !style.is_empty() {
        style.extend_from_slice(b"; ")?;
    }
    style.extend_from_slice(property.as_bytes())?;
    style.extend_from_slice(b": ")?;
    Ok(())
}

// Splits at the first colon.
fn split_declaration(text: &[u8]) -> Option<(&[u8], &[u8])>
    ensures { MatchOption result (declaration_of text.now ≡ None)
        (λ cut. declaration_of text.now ≡ declaration_with (property_of cut.0.now) (value_after_colon cut.1.now)) }
{
    let colon = find_byte(b':', text);
    if colon == text.len() {
        return None;
    }
    Some((&text[..colon], &text[colon + 1..]))
}

// A value without a last `!important` and the white space after it.
fn without_important(value: &[u8]) -> &[u8]
    ensures { result.now ≡ without_important value.now }
{
    let text = trim_back(value);
    if text.ends_with(b"!important") {
        return &text[..text.len() - 10];
    }
    value
}

// The offset of the first such byte, or the length.
fn find_byte(byte: u8, text: &[u8]) -> usize
    ensures equals { result ≡ position_or_len (λ c. c == byte) text.now }
    ensures within { result ≤ length text.now }
{
    let mut end = 0;
    while end < text.len() && text[end] != byte {
        end += 1;
    }
    end
}

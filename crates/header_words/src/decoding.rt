//! The value of a field as a text.
ghost use Rattle.std.specs.Prelude.{◌≡◌, IfOk, OnOk, ◌++◌, string_bytes};
ghost use Rattle.std.specs.Str.Lossy.{utf8_lossy};
ghost use Rattle.header_words.specs.Fields.{is_blank};
ghost use Rattle.header_words.specs.Places.{raw_field};
ghost use Rattle.header_words.specs.Value.{unfolded, unfolded_with, without_front, without_back, trimmed, decoded_text, decoded_of};

use crate::header::Field;
use crate::items::decode_words;
use crate::lines::{after_colon, first_line, is_continuation};
use std::alloc::{AllocError, Global};

/// Returns the value of a field as a text: each fold is one space, encoded words are decoded (RFC 2047), other bytes are read
/// as UTF-8 lossily, and white space at both ends is dropped. A word of a charset that isn't read stays as it is written.
#[tactic(auto, unfolding(crate::specs::Value::decoded_of))]
pub fn decoded(alloc: Global, field: &Field<'_>) -> Result<String, AllocError>
    ensures { IfOk result (λ text. string_bytes text ≡ decoded_of field.now.lines) }
{
    let value = unfolded(alloc, field)?;
    let mut bytes = decode_words(alloc, value)?;
    trim_ends(&mut bytes);
    read_lossily(alloc, bytes)
}

/// Drops the spaces and TABs at both ends.
fn trim_ends(bytes: &mut Vec<u8>)
    ensures { bytes.new.items ≡ trimmed bytes.old.items }
{
    let front = bytes.len() - trim_front(bytes).len();
    let len = trim(bytes).len();
    bytes.copy_within(front..front + len, 0);
    bytes.truncate(len);
}

/// Reads bytes as UTF-8 lossily. Valid text, as nearly all mail has it, is not copied.
pub fn read_lossily(alloc: Global, bytes: Vec<u8>) -> Result<String, AllocError>
    ensures { IfOk result (λ text. string_bytes text ≡ utf8_lossy bytes.items) }
{
    match String::from_utf8(bytes) {
        Ok(text) => Ok(text),
        Err(error) => String::from_utf8_lossy(alloc, error.as_bytes()),
    }
}

/// Decodes the encoded words of a text that is a part of a value, as a file's name is, and reads its other bytes as UTF-8
/// lossily. White space at its ends stays.
pub fn decoded_words(alloc: Global, text: &[u8]) -> Result<String, AllocError>
    ensures { IfOk result (λ decoded. string_bytes decoded ≡ decoded_text text.now) }
{
    let bytes = decode_words(alloc, Vec::from_slice(alloc, text)?)?;
    read_lossily(alloc, bytes)
}

/// Returns the value of a field as bytes, each fold as one space.
pub fn unfolded(alloc: Global, field: &Field<'_>) -> Result<Vec<u8>, AllocError>
    ensures { IfOk result (λ value. value.items ≡ unfolded field.now.lines) }
{
    unfold(alloc, field.raw())
}

/// Joins the lines of a field's value.
fn unfold(alloc: Global, raw: &[u8]) -> Result<Vec<u8>, AllocError>
    ensures { IfOk result (λ value. value.items ≡ unfolded (raw_field raw.now).lines) }
{
    let (line, size) = first_line(raw);
    let mut value = Vec::from_slice(alloc, after_colon(line))?;
    let mut rest = &raw[size..];
    while !rest.is_empty() {
        let (line, size) = first_line(rest);
        unfold_line(&mut value, line)?;
        rest = &rest[size..];
    }
    Ok(value)
}

fn unfold_line(value: &mut Vec<u8>, line: &[u8]) -> Result<(), AllocError>
    ensures { OnOk result (value.new.items ≡ unfolded_with value.old.items line.now) }
{
    if is_continuation(line) {
        value.push(b' ')?;
        value.extend_from_slice(trim_front(line))?;
    }
    Ok(())
}

fn is_blank(byte: u8) -> bool
    ensures { result ≡ is_blank byte }
{
    byte == b' ' || byte == b'\t'
}

/// Returns bytes without the spaces and TABs at both ends.
pub fn trim(bytes: &[u8]) -> &[u8]
    ensures { result.now ≡ trimmed bytes.now }
{
    trim_back(trim_front(bytes))
}

/// Returns bytes without the spaces and TABs at their front.
pub fn trim_front(bytes: &[u8]) -> &[u8]
    ensures { result.now ≡ without_front bytes.now }
{
    let mut rest = bytes;
    while let [first, more @ ..] = rest {
        if !is_blank(*first) {
            break;
        }
        rest = more;
    }
    rest
}

fn trim_back(bytes: &[u8]) -> &[u8]
    ensures { result.now ≡ without_back bytes.now }
{
    let mut rest = bytes;
    while let [more @ .., last] = rest {
        if !is_blank(*last) {
            break;
        }
        rest = more;
    }
    rest
}

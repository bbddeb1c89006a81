//! The spelling of tags and texts (HTML Standard, 13.1.2 and 13.3).
//!
//! The functions `push_..` append to a buffer, and leave a prefix if memory is refused; the functions `add_..` then remove it.

ghost use Rattle.std.specs.Prelude.{◌≡◌, ℕ, ◌<◌, ◌≤◌, List, [], ◌∷◌, ◌++◌, ◌+◌, ◌*◌, length, take, chars, encode_utf8_all, string_bytes, vec_len, vec_capacity, OnOk, OnErr, IsOk, is_ok, if◌then◌else◌, IsTrue};
ghost use Rattle.page_writer.specs.Writer.{names_of};
ghost use Rattle.html_syntax.specs.Token.Token.{Start, End};
ghost use Rattle.page_writer.specs.Page.{spell_chars, spell_attributes, spell_token};
ghost use Rattle.page_writer.specs.Bytes.{spell_byte, spell_bytes, attribute_bytes, Extends, AreTexts};

use crate::Memory;
use html_syntax::Attributes;
use std::alloc::Global;

/// Bytes of a text that are searched together for one that is escaped.
const CHUNK: usize = 64;

/// Room in bytes that is made beyond a text, so that what follows it rarely moves it.
const ROOM: usize = 4096;

fn push(out: &mut Vec<u8>, bytes: &[u8]) -> Result<(), Memory>
    ensures ok { OnOk result (out.new.items ≡ out.old.items ++ bytes.now) }
    ensures extends { Extends out.old.items out.new.items }
{
    out.extend_from_slice(bytes)
}

fn push_byte(out: &mut Vec<u8>, byte: u8) -> Result<(), Memory>
    ensures ok { OnOk result (out.new.items ≡ out.old.items ++ spell_byte byte) }
    ensures err { OnErr result (out.new.items ≡ out.old.items) }
    ensures at_most_six { vec_len out.new ≤ vec_len out.old + 6 }
    ensures capacity { vec_capacity out.old ≤ vec_capacity out.new }
    ensures fits { vec_len out.old + 6 ≤ vec_capacity out.old → IsOk result }
{
    match byte {
        b'<' => out.extend_from_slice(b"&lt;"),
        b'>' => out.extend_from_slice(b"&gt;"),
        b'&' => out.extend_from_slice(b"&amp;"),
        b'"' => out.extend_from_slice(b"&quot;"),
        b'\r' => out.extend_from_slice(b"&#13;"),
        0 => out.extend_from_slice(b"\xEF\xBF\xBD"),
        _ => {
            out.push(byte)?;
            Ok(())
        }
    }
}

/// Appends bytes as they are spelled. It takes no memory if there is room for six times their number.
pub fn push_each(out: &mut Vec<u8>, bytes: &[u8]) -> Result<(), Memory>
    ensures ok { OnOk result (out.new.items ≡ out.old.items ++ spell_bytes bytes.now) }
    ensures extends { Extends out.old.items out.new.items }
    ensures capacity { vec_capacity out.old ≤ vec_capacity out.new }
    ensures fits { vec_len out.old + 6 * length bytes.now ≤ vec_capacity out.old → IsOk result }
{
    for byte in bytes {
        push_byte(out, *byte)?;
    }
    Ok(())
}

/// Whether each of the bytes is spelled as itself. It reads all of them: without an end in its midst, the loop is done on many bytes at
/// once.
// Inlined into a caller, the loop took ten times as long.
#[inline(never)]
pub fn is_plain(bytes: &[u8]) -> bool
    ensures { IsTrue result → spell_bytes bytes.now ≡ bytes.now }
{
    let mut all = true;
    for byte in bytes {
        all &= is_plain_byte(*byte);
    }
    all
}

#[tactic(auto, using(crate::proofs::Bytes::plain_byte))]
fn is_plain_byte(byte: u8) -> bool
    ensures { IsTrue result → spell_byte byte ≡ byte ∷ [] }
{
    let is_markup = (byte == b'<') | (byte == b'>') | (byte == b'&');
    let is_other = (byte == b'"') | (byte == b'\r') | (byte == 0);
    !is_markup & !is_other
}

fn push_chunk(out: &mut Vec<u8>, bytes: &[u8]) -> Result<(), Memory>
    ensures ok { OnOk result (out.new.items ≡ out.old.items ++ spell_bytes bytes.now) }
    ensures extends { Extends out.old.items out.new.items }
{
    if is_plain(bytes) {
        push(out, bytes)
    } else {
        push_each(out, bytes)
    }
}

fn push_chunks(out: &mut Vec<u8>, text: &str) -> Result<(), Memory>
    ensures ok { OnOk result (out.new.items ≡ out.old.items ++ encode_utf8_all (spell_chars (chars text.now))) }
    ensures extends { Extends out.old.items out.new.items }
{
    for chunk in text.as_bytes().chunks(CHUNK) {
        push_chunk(out, chunk)?;
    }
    Ok(())
}

/// Appends a text as it is spelled. Most texts have nothing to be escaped, and are copied at once.
#[tactic(auto, using(crate::proofs::Bytes::plain_text))]
fn push_text(out: &mut Vec<u8>, text: &str) -> Result<(), Memory>
    ensures ok { OnOk result (out.new.items ≡ out.old.items ++ encode_utf8_all (spell_chars (chars text.now))) }
    ensures extends { Extends out.old.items out.new.items }
{
    if is_plain(text.as_bytes()) {
        push(out, text.as_bytes())
    } else {
        push_chunks(out, text)
    }
}

fn push_attribute(out: &mut Vec<u8>, name: &str, value: &str) -> Result<(), Memory>
    ensures ok { OnOk result (out.new.items ≡ out.old.items ++ attribute_bytes name.now (chars value.now)) }
    ensures extends { Extends out.old.items out.new.items }
{
    push(out, b" ")?;
    push(out, name.as_bytes())?;
    push(out, b"=\"")?;
    push_text(out, value)?;
    push(out, b"\"")
}

fn push_attributes(out: &mut Vec<u8>, attributes: &Attributes) -> Result<(), Memory>
    ensures ok { OnOk result (out.new.items ≡ out.old.items ++ encode_utf8_all (spell_attributes attributes.now)) }
    ensures texts { OnOk result (AreTexts attributes.now) }
    ensures extends { Extends out.old.items out.new.items }
{
    for i in 0..attributes.len() {
        push_attribute(out, attributes.name(i), attributes.value(i))?;
    }
    Ok(())
}

fn push_start(out: &mut Vec<u8>, name: &str, attributes: &Attributes) -> Result<(), Memory>
    ensures ok { OnOk result (out.new.items ≡ out.old.items ++ encode_utf8_all (spell_token (Start (chars name.now) attributes.now))) }
    ensures texts { OnOk result (AreTexts attributes.now) }
    ensures extends { Extends out.old.items out.new.items }
{
    push(out, b"<")?;
    push(out, name.as_bytes())?;
    push_attributes(out, attributes)?;
    push(out, b">")
}

fn push_end(out: &mut Vec<u8>, name: &str) -> Result<(), Memory>
    ensures ok { OnOk result (out.new.items ≡ out.old.items ++ encode_utf8_all (spell_token (End (chars name.now)))) }
    ensures extends { Extends out.old.items out.new.items }
{
    push(out, b"</")?;
    push(out, name.as_bytes())?;
    push(out, b">")
}

/// Truncates the buffer to its first `before` bytes if `written` failed.
fn undo_on_err(out: &mut Vec<u8>, before: usize, written: Result<(), Memory>) -> Result<(), Memory>
    ensures returns_written { result ≡ written }
    ensures items { out.new.items ≡ (if is_ok written then out.old.items else take before out.old.items) }
{
    if written.is_err() {
        out.truncate(before);
    }
    written
}

pub fn add_text(out: &mut Vec<u8>, text: &str) -> Result<(), Memory>
    ensures { out.new.items ≡ (if is_ok result then out.old.items ++ encode_utf8_all (spell_chars (chars text.now)) else out.old.items) }
{
    out.reserve(text.len() + ROOM)?;
    let before = out.len();
    let written = push_text(out, text);
    undo_on_err(out, before, written)
}

pub fn add_start(out: &mut Vec<u8>, name: &str, attributes: &Attributes) -> Result<(), Memory>
    ensures items { out.new.items ≡ (if is_ok result then out.old.items ++ encode_utf8_all (spell_token (Start (chars name.now) attributes.now)) else out.old.items) }
    ensures texts { OnOk result (AreTexts attributes.now) }
{
    let before = out.len();
    let written = push_start(out, name, attributes);
    undo_on_err(out, before, written)
}

pub fn add_end(out: &mut Vec<u8>, name: &str) -> Result<(), Memory>
    ensures { out.new.items ≡ (if is_ok result then out.old.items ++ encode_utf8_all (spell_token (End (chars name.now))) else out.old.items) }
{
    let before = out.len();
    let written = push_end(out, name);
    undo_on_err(out, before, written)
}

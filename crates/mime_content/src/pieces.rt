//! The pieces of a structured field, and the parameters among them (RFC 2045 §5.1, RFC 2183 §2).
ghost use Rattle.std.specs.Prelude.{◌≡◌, ◌≤◌, length, IfOk, OnOk};
ghost use Rattle.std.specs.Str.{str_eq_ignore_ascii_case};
ghost use Rattle.mime_content.specs.Pieces.{quoting_after, cuts, size_from, first_piece, is_kept, with_kept, is_outside, unquoted, text_of_value, value_in, parameter};
ghost use Rattle.mime_content.specs.declared.pieces.Quoting.TheVariants.{Inside, Outside};

use header_words::{find_byte, trim};
use mail_values::Bytes;
use std::alloc::{AllocError, Global};

/// Whether a place of a field is in a quoted string.
#[derive(Clone, Copy)]
pub enum Quoting {
    Outside,
    Inside,
    Escaped,
}

fn after(quoting: Quoting, byte: u8) -> Quoting
    ensures { result ≡ quoting_after quoting byte }
{
    match quoting {
        Quoting::Outside => if byte == b'"' {
            Quoting::Inside
        } else {
            Quoting::Outside
        },
        Quoting::Inside => {
            if byte == b'"' {
                Quoting::Outside
            } else if byte == b'\\' {
                Quoting::Escaped
            } else {
                Quoting::Inside
            }
        }
        Quoting::Escaped => Quoting::Inside,
    }
}

fn is_cut(quoting: Quoting, byte: u8) -> bool
    ensures { result ≡ cuts quoting byte }
{
    match quoting {
        Quoting::Outside => byte == b';',
        Quoting::Inside | Quoting::Escaped => false,
    }
}

/// Returns the length of the first piece.
fn piece_size(value: &[u8]) -> usize
    ensures size { result ≡ size_from Outside value.now }
    ensures within { result ≤ length value.now }
{
    let mut quoting = Quoting::Outside;
    for (i, byte) in value.iter().enumerate() {
        if is_cut(quoting, *byte) {
            return i;
        }
        quoting = after(quoting, *byte);
    }
    value.len()
}

/// Returns the first piece, which is the type or the disposition.
pub fn first_piece(value: &[u8]) -> &[u8]
    ensures { result.now ≡ first_piece value.now }
{
    trim(&value[..piece_size(value)])
}

/// Returns the value of the first parameter of a name, in either case.
pub fn parameter(alloc: Global, name: &[u8], value: &[u8]) -> Result<Option<Bytes>, AllocError>
    ensures { IfOk result (λ found. found ≡ parameter name.now value.now) }
{
    let mut at = piece_size(value);
    while at < value.len() {
        let rest = &value[at + 1..];
        let size = piece_size(rest);
        if let Some(found) = value_in(alloc, name, &rest[..size])? {
            return Ok(Some(found));
        }
        at += size + 1;
    }
    Ok(None)
}

/// Returns the value of a piece that is a parameter of this name.
fn value_in(alloc: Global, name: &[u8], piece: &[u8]) -> Result<Option<Bytes>, AllocError>
    ensures { IfOk result (λ found. found ≡ value_in name.now piece.now) }
{
    let at = find_byte(b'=', piece);
    if at < piece.len() && is_named(trim(&piece[..at]), name) {
        return text_of_value(alloc, trim(&piece[at + 1..]));
    }
    Ok(None)
}

fn is_named(text: &[u8], name: &[u8]) -> bool
    ensures { result ≡ str_eq_ignore_ascii_case text.now name.now }
{
    text.eq_ignore_ascii_case(name)
}

fn text_of_value(alloc: Global, value: &[u8]) -> Result<Option<Bytes>, AllocError>
    ensures { IfOk result (λ found. found ≡ text_of_value value.now) }
{
    match value {
        [b'"', quoted @ ..] => unquote(alloc, quoted),
        _ => Ok(Some(Bytes::from_slice(alloc, value)?)),
    }
}

/// Returns the text of a quoted string, from just after its first quote.
fn unquote(alloc: Global, quoted: &[u8]) -> Result<Option<Bytes>, AllocError>
    ensures { IfOk result (λ found. found ≡ unquoted Inside quoted.now) }
{
    let mut text = Bytes::from_vec(Vec::new(alloc));
    let mut quoting = Quoting::Inside;
    for byte in quoted {
        if has_ended(quoting) {
            return Ok(None);
        }
        push_kept(&mut text, quoting, *byte)?;
        quoting = after(quoting, *byte);
    }
    if has_ended(quoting) {
        Ok(Some(text))
    } else {
        Ok(None)
    }
}

fn has_ended(quoting: Quoting) -> bool
    ensures { result ≡ is_outside quoting }
{
    match quoting {
        Quoting::Outside => true,
        Quoting::Inside | Quoting::Escaped => false,
    }
}

fn keeps(quoting: Quoting, byte: u8) -> bool
    ensures { result ≡ is_kept quoting byte }
{
    match quoting {
        Quoting::Outside => false,
        Quoting::Inside => byte != b'"' && byte != b'\\',
        Quoting::Escaped => true,
    }
}

/// Adds a byte of a quoted string, if it belongs to the text.
fn push_kept(text: &mut Bytes, quoting: Quoting, byte: u8) -> Result<(), AllocError>
    ensures { OnOk result (text.new ≡ with_kept quoting byte text.old) }
{
    if keeps(quoting, byte) {
        text.push(byte)?;
    }
    Ok(())
}

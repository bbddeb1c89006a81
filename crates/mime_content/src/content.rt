//! The Content-* fields of a header, read (RFC 2045, RFC 2183).
ghost use Rattle.std.specs.Prelude.{◌≡◌, ◌⊎◌, true, length, IfOk, codes, []};
ghost use Rattle.std.specs.List.{list_all};
ghost use Rattle.std.specs.Option.{option_or};
ghost use Rattle.std.specs.Str.{str_to_ascii_lowercase};
ghost use Rattle.std.specs.Str.Lossy.{utf8_lossy};
ghost use Rattle.header_words.specs.Value.{trimmed, decoded_text};
ghost use Rattle.mime_content.specs.Pieces.{parameter, first_piece};
ghost use Rattle.mime_content.specs.Content.{content_of, field_value, is_token, is_token_byte, is_type, readable, mime_of, filled, text_of, name_of, coding_named, is_attachment, id_in, location_in, is_word, format_of};

use crate::pieces::{first_piece, parameter};
use header_words::{Fields, decoded_words, find_byte, trim, unfolded};
use mail_values::{Bytes, Text};
use std::alloc::{AllocError, Global};
use transfer_codings::Coding;

/// The Content-* fields of a header.
#[derive(Drop)]
pub struct Content {
    pub mime: Text,
    pub boundary: Option<Bytes>,
    pub charset: Text,
    /// `None` if the coding is unknown.
    pub coding: Option<Coding>,
    pub attached: bool,
    pub name: Text,
    pub id: Option<Bytes>,
    pub location: Option<Text>,
    /// `Some` if the format is flowed: whether DelSp is yes.
    pub format: Option<bool>,
}

/// Reads the Content-* fields of a header. `default` is the type of a part that has none.
#[tactic(auto, unfolding(crate::specs::Content::content_of))]
pub fn read_content(
    alloc: Global,
    default: &str,
    fields: &Fields<'_>,
) -> Result<Content, AllocError>
    ensures { IfOk result (λ c. c ≡ content_of default.now fields.now.fields) }
{
    let kind = readable_type(alloc, fields)?;
    let disposition = field_value(alloc, fields, "Content-Disposition")?;
    let coding = field_value(alloc, fields, "Content-Transfer-Encoding")?;
    let id = field_value(alloc, fields, "Content-ID")?;
    let location = field_value(alloc, fields, "Content-Location")?;
    Ok(Content {
        mime: mime(alloc, default, kind.as_slice())?,
        boundary: boundary(alloc, kind.as_slice())?,
        charset: charset(alloc, kind.as_slice())?,
        coding: coding_of(trim(coding.as_slice())),
        attached: is_attached(disposition.as_slice()),
        name: name(alloc, disposition.as_slice(), kind.as_slice())?,
        id: id_of(alloc, trim(id.as_slice()))?,
        location: location_of(alloc, trim(location.as_slice()))?,
        format: format(alloc, kind.as_slice())?,
    })
}

/// Returns the value of the first field of a name, unfolded; nothing if there is none.
fn field_value(alloc: Global, fields: &Fields<'_>, name: &str) -> Result<Bytes, AllocError>
    ensures { IfOk result (λ value. value ≡ field_value name.now fields.now.fields) }
{
    match fields.first(name) {
        Some(field) => Ok(Bytes::from_vec(unfolded(alloc, &field)?)),
        None => Ok(Bytes::from_vec(Vec::new(alloc))),
    }
}

/// Returns the Content-Type, or nothing if it has no type that reads.
fn readable_type(alloc: Global, fields: &Fields<'_>) -> Result<Bytes, AllocError>
    ensures has_type { IfOk result (λ kind. length kind ≡ 0 ⊎ is_type (first_piece kind) ≡ true) }
    ensures equals { IfOk result (λ kind. kind ≡ readable (field_value (codes "Content-Type") fields.now.fields)) }
{
    let kind = field_value(alloc, fields, "Content-Type")?;
    if is_type(first_piece(kind.as_slice())) {
        return Ok(kind);
    }
    Ok(Bytes::from_vec(Vec::new(alloc)))
}

/// Returns whether a text is two tokens with `/` between.
fn is_type(text: &[u8]) -> bool
    ensures { result ≡ is_type text.now }
{
    let at = find_byte(b'/', text);
    at < text.len() && is_token(&text[..at]) && is_token(&text[at + 1..])
}

fn is_token(text: &[u8]) -> bool
    ensures { result ≡ is_token text.now }
{
    !text.is_empty() && has_token_bytes(text)
}

fn has_token_bytes(text: &[u8]) -> bool
    ensures { result ≡ list_all is_token_byte text.now }
{
    text.iter().all(|b| is_token_byte(*b))
}

fn is_token_byte(byte: u8) -> bool
    ensures { result ≡ is_token_byte byte }
{
    byte > 32 && byte < 127 && !b"()<>@,;:\\\"/[]?=".contains(&byte)
}

/// Returns the type in lower case, or the default if there is none.
fn mime(alloc: Global, default: &str, kind: &[u8]) -> Result<Text, AllocError>
    requires { length kind.now ≡ 0 ⊎ is_type (first_piece kind.now) ≡ true }
    ensures { IfOk result (λ mime. mime ≡ mime_of default.now kind.now) }
{
    if kind.is_empty() {
        return Text::from_text(alloc, default);
    }
    lowered(alloc, first_piece(kind))
}

/// Returns a type in lower case.
fn lowered(alloc: Global, mime: &[u8]) -> Result<Text, AllocError>
    requires { is_type mime.now ≡ true }
    ensures { IfOk result (λ text. text ≡ str_to_ascii_lowercase mime.now) }
{
    let lowered = mime.to_ascii_lowercase(alloc)?;
    Ok(Text::from_string(String::from_utf8_lossy(alloc, &lowered)?))
}

/// Reads bytes as a text.
fn lossy(alloc: Global, bytes: &[u8]) -> Result<Text, AllocError>
    ensures { IfOk result (λ text. text ≡ utf8_lossy bytes.now) }
{
    Ok(Text::from_string(String::from_utf8_lossy(alloc, bytes)?))
}

fn boundary(alloc: Global, kind: &[u8]) -> Result<Option<Bytes>, AllocError>
    ensures { IfOk result (λ found. found ≡ filled (parameter (codes "boundary") kind.now)) }
{
    match parameter(alloc, b"boundary", kind)? {
        Some(boundary) if !boundary.as_slice().is_empty() => Ok(Some(boundary)),
        _ => Ok(None),
    }
}

fn charset(alloc: Global, kind: &[u8]) -> Result<Text, AllocError>
    ensures { IfOk result (λ text. text ≡ text_of (parameter (codes "charset") kind.now) (codes "utf-8")) }
{
    match parameter(alloc, b"charset", kind)? {
        Some(charset) => lossy(alloc, charset.as_slice()),
        None => Text::from_text(alloc, "utf-8"),
    }
}

fn coding_of(name: &[u8]) -> Option<Coding>
    ensures { result ≡ coding_named name.now }
{
    if name.eq_ignore_ascii_case(b"")
        || name.eq_ignore_ascii_case(b"7bit")
        || name.eq_ignore_ascii_case(b"8bit")
        || name.eq_ignore_ascii_case(b"binary")
    {
        return Some(Coding::Plain);
    }
    if name.eq_ignore_ascii_case(b"base64") {
        return Some(Coding::Base64);
    }
    if name.eq_ignore_ascii_case(b"quoted-printable") {
        return Some(Coding::Quoted);
    }
    None
}

fn is_attached(disposition: &[u8]) -> bool
    ensures { result ≡ is_attachment disposition.now }
{
    first_piece(disposition).eq_ignore_ascii_case(b"attachment")
}

/// Returns the name of the file that a part is to be saved as.
fn name(alloc: Global, disposition: &[u8], kind: &[u8]) -> Result<Text, AllocError>
    ensures { IfOk result (λ text. text ≡ name_of (option_or (parameter (codes "filename") disposition.now) (parameter (codes "name") kind.now))) }
{
    if let Some(name) = parameter(alloc, b"filename", disposition)? {
        return named(alloc, name.as_slice());
    }
    match parameter(alloc, b"name", kind)? {
        Some(name) => named(alloc, name.as_slice()),
        None => Text::from_text(alloc, ""),
    }
}

/// Decodes the name of a file: many mailers write encoded words there.
fn named(alloc: Global, value: &[u8]) -> Result<Text, AllocError>
    ensures { IfOk result (λ text. text ≡ decoded_text value.now) }
{
    Ok(Text::from_string(decoded_words(alloc, value)?))
}

/// Returns the bytes between the `<` and `>` of a Content-ID.
fn id_of(alloc: Global, value: &[u8]) -> Result<Option<Bytes>, AllocError>
    ensures { IfOk result (λ found. found ≡ id_in value.now) }
{
    if value.len() > 1 && value.starts_with(b"<") && value[value.len() - 1..].starts_with(b">") {
        let id = &value[1..value.len() - 1];
        return Ok(Some(Bytes::from_slice(alloc, id)?));
    }
    Ok(None)
}

fn location_of(alloc: Global, value: &[u8]) -> Result<Option<Text>, AllocError>
    ensures { IfOk result (λ found. found ≡ location_in value.now) }
{
    if value.is_empty() {
        return Ok(None);
    }
    Ok(Some(lossy(alloc, value)?))
}

fn is_word(word: &[u8], found: &Option<Bytes>) -> bool
    ensures { result ≡ is_word word.now found.now }
{
    match found {
        Some(value) => value.as_slice().eq_ignore_ascii_case(word),
        None => false,
    }
}

/// Returns whether DelSp is yes, if the format is flowed (RFC 3676 §4).
fn format(alloc: Global, kind: &[u8]) -> Result<Option<bool>, AllocError>
    ensures { IfOk result (λ found. found ≡ format_of kind.now) }
{
    if !is_word(b"flowed", &parameter(alloc, b"format", kind)?) {
        return Ok(None);
    }
    let del_sp = parameter(alloc, b"delsp", kind)?;
    Ok(Some(is_word(b"yes", &del_sp)))
}

//! The length of a request's body.
ghost use Rattle.std.specs.Prelude.{◌≡◌, codes};
ghost use Rattle.std.specs.Char.{is_ascii_digit};
ghost use Rattle.std.specs.List.{list_all};
ghost use Rattle.http_heads.specs.Framing.{body_len, content_length, found_seen, is_found, is_length, length_of, occurs_in, occurs_with, within_limit};
ghost use Rattle.http_heads.specs.Heads.{field_seen, fields_seen};

use crate::heads::HeadField;

/// Why a head is refused.
#[derive(Clone, Copy, Debug, PartialEq, Eq)]
pub enum HeadFault {
    /// It has more than 64 fields.
    TooLarge,
    /// It has a Transfer-Encoding.
    Coding,
    /// It has two Content-Lengths, or one that isn't 1 to 18 decimal digits.
    Length,
    /// Its Content-Length is above 1,048,576.
    Body { bytes: u64 },
}

/// How often a field occurs, and its value if it occurs once.
#[derive(Clone, Copy)]
pub enum Found<'b> {
    Never,
    Once(&'b [u8]),
    Twice,
}

/// Returns how often a name occurs when it has occurred `found` often before.
fn found_with<'b>(found: Found<'b>, field: &HeadField<'b>, name: &str) -> Found<'b>
    ensures { found_seen result ≡ occurs_with (found_seen found.entry) name.now (field_seen field.now) }
{
    if !field.name.eq_ignore_ascii_case(name.as_bytes()) {
        return found;
    }
    match found {
        Found::Never => Found::Once(field.value),
        _ => Found::Twice,
    }
}

/// Returns how often a name occurs.
fn find<'b>(fields: &[HeadField<'b>], name: &str) -> Found<'b>
    ensures { found_seen result ≡ occurs_in name.now (fields_seen fields.now) }
{
    let mut found = Found::Never;
    for field in fields {
        found = found_with(found, field, name);
    }
    found
}

fn are_digits(text: &[u8]) -> bool
    ensures { result ≡ list_all is_ascii_digit text.now }
{
    text.iter().all(|byte| byte.is_ascii_digit())
}

/// Whether a text is 1 to 18 decimal digits.
fn is_length(text: &[u8]) -> bool
    ensures { result ≡ is_length text.now }
{
    !text.is_empty() && text.len() <= 18 && are_digits(text)
}

/// Parses a length.
#[tactic(auto, unfolding(crate::specs::Framing::length_of))]
fn parse_length(text: &[u8]) -> Result<u64, HeadFault>
    ensures { result ≡ length_of text.now }
{
    if !is_length(text) {
        return Err(HeadFault::Length);
    }
    let Ok(text) = std::str::from_utf8(text) else {
        return Err(HeadFault::Length);
    };
    match text.parse::<u64>() {
        Ok(len) => Ok(len),
        Err(_) => Err(HeadFault::Length),
    }
}

/// Returns the length that Content-Length tells, 0 if the field is missing.
fn content_length(found: Found<'_>) -> Result<u64, HeadFault>
    ensures { result ≡ content_length (found_seen found.entry) }
{
    match found {
        Found::Never => Ok(0),
        Found::Once(value) => parse_length(value),
        Found::Twice => Err(HeadFault::Length),
    }
}

/// Refuses a length above the limit.
fn within_limit(len: Result<u64, HeadFault>) -> Result<u64, HeadFault>
    ensures { result ≡ within_limit len }
{
    match len {
        Ok(bytes) if bytes > 1_048_576 => Err(HeadFault::Body { bytes }),
        other => other,
    }
}

/// Whether a field occurs.
fn has_field(fields: &[HeadField<'_>], name: &str) -> bool
    ensures { result ≡ is_found (occurs_in name.now (fields_seen fields.now)) }
{
    !matches!(find(fields, name), Found::Never)
}

/// Returns the length of the body of a head with these fields. The faults are tried in the order of `HeadFault`.
#[tactic(auto, unfolding(crate::specs::Framing::body_len))]
pub fn body_len(fields: &[HeadField<'_>]) -> Result<u64, HeadFault>
    ensures { result ≡ body_len (fields_seen fields.now) }
{
    if fields.len() > 64 {
        return Err(HeadFault::TooLarge);
    }
    if has_field(fields, "Transfer-Encoding") {
        return Err(HeadFault::Coding);
    }
    within_limit(content_length(find(fields, "Content-Length")))
}

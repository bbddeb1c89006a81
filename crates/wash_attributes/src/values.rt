//! The values that are written.
ghost use Rattle.std.specs.Prelude.{◌≡◌, true, false, drop, IfOk, MatchOption, chars, string_bytes, encode_utf8_all};
ghost use Rattle.std.specs.List.{list_all};
ghost use Rattle.html_rules.specs.Values.{is_empty, has_at_most_digits, is_digits_percent, is_number, is_word, is_word_char};
ghost use Rattle.style_wash.specs.Characters.{trimmed};
ghost use Rattle.style_wash.specs.Declarations.{stylewash};
ghost use Rattle.cid_parts.specs.Refer.{IsSafe};
ghost use Rattle.wash_attributes.specs.Values.{some_if, unless_empty, link_address, picture_address, written_value};
ghost use Rattle.wash_attributes.specs.Addresses.{target_of};
ghost use Rattle.wash_attributes.specs.Attributes.{join_styles};
ghost use Rattle.wash_attributes.specs.Washing.{given_in};
ghost use Rattle.wash_attributes.specs.Written.{text_in, begins_with_digit, ends_number};

use crate::Memory;
use crate::attributes::Washing;
use crate::place::Place;
use cid_parts::Ref;
use html_rules::ValueKind;
use std::alloc::Global;
use style_wash::wash_style;

/// The text without the white space around it.
fn trim(value: &str) -> &str
    ensures { result.now ≡ trimmed value.now }
{
    value.trim_ascii()
}

/// Whether the bytes are 1 to 5 digits, and an optional `%`.
fn is_digits_percent(bytes: &[u8]) -> bool
    ensures { result ≡ is_digits_percent bytes.now }
{
    match bytes {
        [first, rest @ ..] => first.is_ascii_digit() && has_at_most_digits(4, rest),
        [] => false,
    }
}

/// Whether the bytes are nothing, or a `%` alone.
fn ends_number(bytes: &[u8]) -> bool
    ensures { result ≡ ends_number bytes.now }
{
    match bytes {
        [] => true,
        [first, rest @ ..] => *first == b'%' && rest.is_empty(),
    }
}

/// The bytes after a first digit.
fn after_digit(bytes: &[u8]) -> Option<&[u8]>
    ensures { MatchOption result (begins_with_digit bytes.now ≡ false) (λ rest. (begins_with_digit bytes.now ≡ true) × (rest.now ≡ drop 1 bytes.now)) }
{
    match bytes {
        [first, rest @ ..] if first.is_ascii_digit() => Some(rest),
        _ => None,
    }
}

/// Whether the bytes are at most `count` digits, and an optional `%`.
fn has_at_most_digits(count: usize, bytes: &[u8]) -> bool
    ensures { result ≡ has_at_most_digits count bytes.now }
{
    let mut rest = bytes;
    for _i in 0..count {
        match after_digit(rest) {
            Some(more) => rest = more,
            None => return ends_number(rest),
        }
    }
    ends_number(rest)
}

/// Whether the text is an optional sign, 1 to 5 digits, and an optional `%`.
#[tactic(auto, unfolding(html_rules::specs::Values::is_number))]
fn is_number(text: &str) -> bool
    ensures { result ≡ is_number text.now }
{
    let bytes = text.as_bytes();
    match bytes {
        [] => false,
        [first, rest @ ..] => {
            if *first == b'+' || *first == b'-' {
                is_digits_percent(rest)
            } else {
                is_digits_percent(bytes)
            }
        }
    }
}

fn is_word_byte(byte: u8) -> bool
    ensures { result ≡ is_word_char byte }
{
    byte.is_ascii_alphanumeric() || byte == b'-' || byte == b'#'
}

fn has_word_bytes(text: &str) -> bool
    ensures { result ≡ list_all is_word_char text.now }
{
    text.bytes().all(is_word_byte)
}

/// Whether the text is 1 to 32 ASCII letters, digits, `-` and `#`.
#[tactic(auto, unfolding(html_rules::specs::Values::is_word))]
fn is_word(text: &str) -> bool
    ensures { result ≡ is_word text.now }
{
    1 <= text.len() && text.len() <= 32 && has_word_bytes(text)
}

fn number(alloc: Global, value: &str) -> Result<Option<String>, Memory>
    ensures { IfOk result (λ written. text_in written ≡ some_if (is_number (trimmed (chars value.now))) (trimmed (chars value.now))) }
{
    let text = trim(value);
    if is_number(text) {
        Ok(Some(String::from_str(alloc, text)?))
    } else {
        Ok(None)
    }
}

fn word(alloc: Global, value: &str) -> Result<Option<String>, Memory>
    ensures { IfOk result (λ written. text_in written ≡ some_if (is_word (trimmed (chars value.now))) (trimmed (chars value.now))) }
{
    let text = trim(value);
    if is_word(text) {
        Ok(Some(String::from_str(alloc, text)?))
    } else {
        Ok(None)
    }
}

/// Whether the text is empty.
pub fn is_empty(text: &str) -> bool
    ensures { result ≡ is_empty text.now }
{
    match text.as_bytes() {
        [] => true,
        _ => false,
    }
}

/// Returns a style after what rules declare.
fn join_styles(alloc: Global, declared: &str, own: String) -> Result<String, Memory>
    ensures { IfOk result (λ style. chars (string_bytes style) ≡ join_styles (chars declared.now) (chars (string_bytes own))) }
{
    if is_empty(declared) {
        return Ok(own);
    }
    let mut style = String::from_str(alloc, declared)?;
    if is_empty(own.as_str()) {
        return Ok(style);
    }
    style.push_str("; ")?;
    style.push_str(own.as_str())?;
    Ok(style)
}

/// Returns the washed style after what rules declare, if it isn't empty.
fn style(alloc: Global, value: &str, declared: &str) -> Result<Option<String>, Memory>
    ensures { IfOk result (λ written. text_in written ≡ unless_empty (join_styles (chars declared.now) (stylewash (encode_utf8_all (chars value.now))))) }
{
    let own = wash_style(alloc, value)?;
    let style = join_styles(alloc, declared, own)?;
    if is_empty(style.as_str()) {
        Ok(None)
    } else {
        Ok(Some(style))
    }
}

/// The address to which a link to a reference leads.
fn link_address(reference: Ref) -> Option<String>
    requires { IsSafe reference }
    ensures { (place : Place) → text_in result ≡ link_address (target_of place reference) }
{
    match reference {
        Ref::Remote(text) => Some(text.into_string()),
        Ref::Link(text) => Some(text.into_string()),
        _ => None,
    }
}

/// The address of a reference's picture.
fn picture_address(
    alloc: Global,
    reference: Ref,
    place: &Place,
    images: bool,
) -> Result<Option<String>, Memory>
    requires { IsSafe reference }
    ensures { IfOk result (λ written. text_in written ≡ picture_address images (target_of place.now reference)) }
{
    match reference {
        Ref::Part(section) => Ok(Some(place.part_address(alloc, &section)?)),
        Ref::Remote(text) => {
            if images {
                Ok(Some(text.into_string()))
            } else {
                Ok(None)
            }
        }
        _ => Ok(None),
    }
}

/// Returns the value that is written for an attribute's value, if any.
#[tactic(auto, unfolding(crate::specs::Values::written_value, crate::specs::Addresses::given_of, crate::specs::Attributes::with_declared))]
pub fn written_value(
    alloc: Global,
    kind: ValueKind,
    value: &str,
    with: &Washing<'_, '_, '_, '_, '_>,
) -> Result<Option<String>, Memory>
    ensures { IfOk result (λ written. text_in written ≡ written_value (given_in with.now) kind (chars value.now)) }
{
    match kind {
        ValueKind::Number => number(alloc, value),
        ValueKind::Word => word(alloc, value),
        ValueKind::Flag => Ok(Some(String::new(alloc))),
        ValueKind::Text => Ok(Some(String::from_str(alloc, value)?)),
        ValueKind::Link => Ok(link_address(with.references.refer(alloc, value)?)),
        ValueKind::Source => {
            let reference = with.references.refer(alloc, value)?;
            picture_address(alloc, reference, with.place, with.images)
        }
        ValueKind::Style => style(alloc, value, with.declared),
    }
}

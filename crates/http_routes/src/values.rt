//! How the values of fields are read.
ghost use Rattle.std.specs.Prelude.{◌≡◌, ◌<◌, ◌^◌, ℕ, ◌==◌, IfSome, Some, IsTrue, ◌↔◌, decimal, option_map};
ghost use Rattle.std.specs.Char.{is_ascii_hexdigit};
ghost use Rattle.std.specs.List.{list_all, list_any};
ghost use Rattle.std.specs.Option.{option_copied};
ghost use Rattle.http_routes.specs.Values.{flag_of, form_number, how_of, identity_number, is_form_text, kept_number, number_of, page_number, section_of, small_number, user_name, without_nul, yes, yes_or_no};

use itoa::Buffer;
use mail_values::Section;
use site_asks::{Flag, How};

/// Whether a number is spelled so in decimal.
fn is_spelled_as(number: u32, text: &str) -> bool
    ensures { IsTrue result ↔ (decimal number ≡ text.now) }
{
    Buffer::new().format(number) == text
}

/// Parses a number of 32 bits in decimal, without sign or leading zeros.
pub fn parse_number(text: &str) -> Option<u32>
    ensures { result ≡ small_number text.now }
{
    match text.parse::<u32>() {
        Ok(number) if is_spelled_as(number, text) => Some(number),
        _ => None,
    }
}

/// Parses the number of a page, which is counted from 1.
pub fn parse_page(text: &str) -> Option<u32>
    ensures { result ≡ page_number text.now }
{
    match parse_number(text) {
        Some(page) if page > 0 => Some(page),
        _ => None,
    }
}

/// Parses the number of an identity in a draft.
pub fn parse_identity(text: &str) -> Option<u8>
    ensures { result ≡ identity_number text.now }
{
    match parse_number(text) {
        Some(number) if number < 256 => Some(number as u8),
        _ => None,
    }
}

/// Parses the number of an identity that is kept, from 1 to 16.
pub fn parse_kept(text: &str) -> Option<u8>
    ensures { result ≡ kept_number text.now }
{
    match parse_number(text) {
        Some(number) if number > 0 && number < 17 => Some(number as u8),
        _ => None,
    }
}

fn are_hex_digits(text: &[u8]) -> bool
    ensures { result ≡ list_all is_ascii_hexdigit text.now }
{
    text.iter().all(|byte| byte.is_ascii_hexdigit())
}

/// Whether a text is 16 hexadecimal digits of either case.
fn is_form_text(text: &str) -> bool
    ensures { result ≡ is_form_text text.now }
{
    text.len() == 16 && are_hex_digits(text.as_bytes())
}

/// Parses the number of a form: 16 hexadecimal digits of either case.
#[tactic(auto, unfolding(crate::specs::Values::form_number))]
pub fn parse_form(text: &str) -> Option<u64>
    ensures { result ≡ form_number text.now }
{
    if !is_form_text(text) {
        return None;
    }
    u64::from_str_radix(text, 16).ok()
}

/// Parses the section of a part.
pub fn parse_section(text: &str) -> Option<Section>
    ensures { result ≡ section_of text.now }
{
    let section = Section::parse(text)?;
    // What a section's numbers are is a clause of this call.
    let _numbers = section.numbers();
    Some(section)
}

/// Parses `1` or `0`.
pub fn parse_yes_or_no(text: &str) -> Option<bool>
    ensures { result ≡ yes_or_no text.now }
{
    match text {
        "1" => Some(true),
        "0" => Some(false),
        _ => None,
    }
}

/// Parses `1`.
pub fn parse_yes(text: &str) -> Option<bool>
    ensures { result ≡ yes text.now }
{
    match text {
        "1" => Some(true),
        _ => None,
    }
}

/// Parses the name of a flag.
pub fn parse_flag(text: &str) -> Option<Flag>
    ensures { result ≡ flag_of text.now }
{
    match text {
        "Seen" => Some(Flag::Seen),
        "Flagged" => Some(Flag::Flagged),
        "Answered" => Some(Flag::Answered),
        _ => None,
    }
}

/// Parses what a draft does with the message that it is made from.
pub fn parse_how(text: &str) -> Option<How>
    ensures { result ≡ how_of text.now }
{
    match text {
        "reply" => Some(How::Reply),
        "forward" => Some(How::Forward),
        "edit" => Some(How::Edit),
        _ => None,
    }
}

fn has_nul(text: &[u8]) -> bool
    ensures { result ≡ list_any (λ b. b == 0) text.now }
{
    text.iter().any(|byte| *byte == 0)
}

/// Returns a text if it has no U+0000.
pub fn without_nul(text: &str) -> Option<&str>
    ensures { option_copied result ≡ without_nul text.now }
{
    if has_nul(text.as_bytes()) {
        return None;
    }
    Some(text)
}

/// Returns a text if it may be the name of a user: 1 to 120 bytes without U+0000.
pub fn user_name(text: &str) -> Option<&str>
    ensures { option_copied result ≡ user_name text.now }
{
    if !text.is_empty() && text.len() <= 120 {
        return without_nul(text);
    }
    None
}

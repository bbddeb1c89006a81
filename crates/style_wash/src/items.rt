//! The items of a value.
ghost use Rattle.std.specs.Char.{is_ascii_hexdigit};
ghost use Rattle.std.specs.List.{list_all, position_or_len, slice_split};
ghost use Rattle.std.specs.Prelude.{◌≡◌, ◌++◌, ◌≤◌, ◌<◌, ◌==◌, MatchOption, OnOk, Some, None, true, false, count_by, length};
ghost use Rattle.style_wash.specs.Characters.{is_comma, is_digit, is_point, is_name_char, is_word_char};
ghost use Rattle.style_wash.specs.Items.{are_levels, begins_unit, is_hex_colour, is_decimal, inner, is_digits, is_level, is_name, is_number, is_plain, is_rgb, is_word, item_of, three_digits, written_item};
ghost use Rattle.style_wash.specs.Seen.{item_seen};

use crate::characters::{is_digit, is_letter, is_name_char, is_quote, is_word_char};
use crate::tables::is_unit;
use std::alloc::AllocError as Memory;

/// An item of a declaration: a word, a number or a colour as written, or a quoted name without its quotes.
#[derive(Clone, Copy)]
pub enum Item<'a> {
    Plain(&'a [u8]),
    Name(&'a [u8]),
}

/// The item that a text is.
#[tactic(auto, unfolding(crate::specs::Items::item_of))]
pub fn read_item(text: &[u8]) -> Option<Item<'_>>
    ensures { MatchOption result (item_of text.now ≡ None) (λ item. item_of text.now ≡ Some (item_seen item)) }
{
    if is_plain(text) {
        Some(Item::Plain(text))
    } else {
        Some(Item::Name(quoted_name(text)?))
    }
}

/// Appends an item; a name is in single quotes.
pub fn push_item(item: Item<'_>, written: &mut Vec<u8>) -> Result<(), Memory>
    ensures { OnOk result (written.new.items ≡ written.old.items ++ written_item (item_seen item.entry)) }
{
    match item {
        Item::Plain(text) => written.extend_from_slice(text)?,
        Item::Name(name) => {
            written.push(b'\'')?;
            written.extend_from_slice(name)?;
            written.push(b'\'')?;
        }
    }
    Ok(())
}

#[tactic(auto, unfolding(crate::specs::Items::is_plain))]
fn is_plain(text: &[u8]) -> bool
    ensures { result ≡ is_plain text.now }
{
    is_word(text) || is_number(text) || is_hex_colour(text) || is_rgb(text)
}

// A letter, and then letters, digits and `-`.
fn is_word(text: &[u8]) -> bool
    ensures { result ≡ is_word text.now }
{
    match text {
        [c, more @ ..] => is_letter(*c) && are_word_chars(more),
        [] => false,
    }
}

fn is_digits(text: &[u8]) -> bool
    ensures { result ≡ is_digits text.now }
{
    !text.is_empty() && are_all_digits(text)
}

// Digits, or digits `.` digits, in at most 8 characters.
fn is_decimal(text: &[u8]) -> bool
    ensures { result ≡ is_decimal text.now }
{
    text.len() <= 8 && count(text, b'.') <= 1 && are_runs_of_digits(text)
}

fn begins_unit(c: u8) -> bool
    ensures { result ≡ begins_unit c }
{
    !(is_digit(c) || c == b'.')
}

// A number, and a unit or none.
#[tactic(auto, unfolding(crate::specs::Items::is_number))]
fn is_number(text: &[u8]) -> bool
    ensures { result ≡ is_number text.now }
{
    let end = unit_offset(text);
    is_decimal(&text[..end]) && is_unit(&text[end..])
}

// `#` and 3 or 6 hexadecimal digits.
fn is_hex_colour(text: &[u8]) -> bool
    ensures { result ≡ is_hex_colour text.now }
{
    match text {
        [c, digits @ ..] => {
            *c == b'#' && (digits.len() == 3 || digits.len() == 6) && are_hexadecimal(digits)
        }
        [] => false,
    }
}

// 1 to 3 digits, at most 255.
fn is_level(digits: &[u8]) -> bool
    ensures { result ≡ is_level digits.now }
{
    match digits {
        [a] => is_digit(*a),
        [a, b] => is_digit(*a) && is_digit(*b),
        [a, b, c] => {
            is_digit(*a) && is_digit(*b) && is_digit(*c) && three_digits(*a, *b, *c) <= 255
        }
        _ => false,
    }
}

// The number of three digits.
fn three_digits(a: u8, b: u8, c: u8) -> u16
    requires a { 48 ≤ a }
    requires b { 48 ≤ b }
    requires c { 48 ≤ c }
    ensures { result ≡ three_digits a b c }
{
    100 * u16::from(a - b'0') + 10 * u16::from(b - b'0') + u16::from(c - b'0')
}

fn are_levels(text: &[u8]) -> bool
    ensures { result ≡ are_levels text.now }
{
    count(text, b',') == 2 && are_runs_of_levels(text)
}

// `rgb(n,n,n)`.
#[tactic(auto, unfolding(crate::specs::Items::is_rgb))]
fn is_rgb(text: &[u8]) -> bool
    ensures { result ≡ is_rgb text.now }
{
    text.starts_with(b"rgb(")
        && text.len() >= 5
        && text[text.len() - 1] == b')'
        && are_levels(&text[4..text.len() - 1])
}

// 1 to 64 letters, digits, spaces and `-` between two `'` or two `"`.
#[tactic(auto, unfolding(crate::specs::Items::is_name))]
fn quoted_name(text: &[u8]) -> Option<&[u8]>
    ensures { MatchOption result (is_name text.now ≡ false) (λ name. (is_name text.now ≡ true) × (name.now ≡ inner text.now)) }
{
    let size = text.len();
    if size < 3 || size > 66 || !is_quote(text[0]) || text[size - 1] != text[0] {
        return None;
    }
    let name = &text[1..size - 1];
    if are_name_chars(name) {
        Some(name)
    } else {
        None
    }
}

// ---- over a whole text

fn count(text: &[u8], byte: u8) -> usize
    ensures { result ≡ count_by (λ c. c == byte) text.now }
{
    text.iter().filter(|c| **c == byte).count()
}

fn are_all_digits(text: &[u8]) -> bool
    ensures { result ≡ list_all is_digit text.now }
{
    text.iter().all(|c| is_digit(*c))
}

fn are_hexadecimal(text: &[u8]) -> bool
    ensures { result ≡ list_all is_ascii_hexdigit text.now }
{
    text.iter().all(|c| c.is_ascii_hexdigit())
}

fn are_word_chars(text: &[u8]) -> bool
    ensures { result ≡ list_all is_word_char text.now }
{
    text.iter().all(|c| is_word_char(*c))
}

fn are_name_chars(text: &[u8]) -> bool
    ensures { result ≡ list_all is_name_char text.now }
{
    text.iter().all(|c| is_name_char(*c))
}

// Digits between the points.
fn are_runs_of_digits(text: &[u8]) -> bool
    ensures { result ≡ list_all is_digits (slice_split is_point text.now) }
{
    text.split(|c| *c == b'.').all(|digits| is_digits(digits))
}

// Levels between the commas.
fn are_runs_of_levels(text: &[u8]) -> bool
    ensures { result ≡ list_all is_level (slice_split is_comma text.now) }
{
    text.split(|c| *c == b',').all(|digits| is_level(digits))
}

// The offset of the unit, or the length.
fn unit_offset(text: &[u8]) -> usize
    ensures equals { result ≡ position_or_len begins_unit text.now }
    ensures within { result ≤ length text.now }
{
    let mut end = 0;
    while end < text.len() && !begins_unit(text[end]) {
        end += 1;
    }
    end
}

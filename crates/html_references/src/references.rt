//! Character references (HTML Standard 13.2.5.72 to 13.2.5.80).
ghost use Rattle.std.specs.Prelude.{◌≡◌, ◌+◌, ◌*◌, ◌≤◌, min, drop, fold, take_while};
ghost use Rattle.std.specs.Char.{digit_value};
ghost use Rattle.html_syntax.specs.References.{reference, number_reference, digits_reference, semicolon_len as semicolon_length, char_of as character_of, continues_name as goes_on_test};
ghost use Rattle.html_references.specs.CodeReferences.{reference_of, found_reference, base, digit_test};

use crate::names::{FoundName, longest_name};

/// A reference: its length in bytes after the `&`, and its character.
#[derive(Clone, Copy)]
pub struct Reference {
    pub len: usize,
    pub character: char,
}

/// No reference: the `&` is text.
const NO_REFERENCE: Reference = Reference {
    len: 0,
    character: '&',
};

/// The characters of the numbers 0x80 to 0x9F.
const WINDOWS_1252: [char; 32] = [
    '\u{20AC}', '\u{81}', '\u{201A}', '\u{192}', '\u{201E}', '\u{2026}', '\u{2020}', '\u{2021}',
    '\u{2C6}', '\u{2030}', '\u{160}', '\u{2039}', '\u{152}', '\u{8D}', '\u{17D}', '\u{8F}',
    '\u{90}', '\u{2018}', '\u{2019}', '\u{201C}', '\u{201D}', '\u{2022}', '\u{2013}', '\u{2014}',
    '\u{2DC}', '\u{2122}', '\u{161}', '\u{203A}', '\u{153}', '\u{9D}', '\u{17E}', '\u{178}',
];

/// Returns the reference whose `&` is right before the text.
#[tactic(auto, unfolding(html_syntax::specs::References::reference))]
pub fn read_reference(in_attribute: bool, text: &[u8]) -> Reference
    ensures { reference_of result ≡ reference in_attribute text.now }
{
    match text {
        [] => NO_REFERENCE,
        [c, number @ ..] => {
            if *c == b'#' {
                read_number(number)
            } else {
                read_name(in_attribute, longest_name(text), text)
            }
        }
    }
}

/// Returns the reference whose `&#` is right before the text.
fn read_number(text: &[u8]) -> Reference
    ensures { reference_of result ≡ number_reference text.now }
{
    match text {
        [] => NO_REFERENCE,
        [c, digits @ ..] => {
            if *c == b'x' || *c == b'X' {
                read_digits(true, 2, leading_digits(true, digits), digits)
            } else {
                read_digits(false, 1, leading_digits(false, text), text)
            }
        }
    }
}

/// Returns the digits that the text begins with.
fn leading_digits(hexadecimal: bool, text: &[u8]) -> &[u8]
    ensures { result.now ≡ take_while (digit_test hexadecimal) text.now }
{
    let mut count = 0;
    for c in text {
        if !is_digit_in(hexadecimal, *c) {
            break;
        }
        count += 1;
    }
    &text[..count]
}

fn is_digit_in(hexadecimal: bool, c: u8) -> bool
    ensures { result ≡ digit_test hexadecimal c }
{
    if hexadecimal {
        c.is_ascii_hexdigit()
    } else {
        c.is_ascii_digit()
    }
}

/// Returns the reference of the digits that the text begins with. `before` characters are between the `&` and the text.
fn read_digits(hexadecimal: bool, before: usize, digits: &[u8], text: &[u8]) -> Reference
    requires { before ≤ 2 }
    ensures { reference_of result ≡ digits_reference (base hexadecimal) before digits.now text.now }
{
    match digits {
        [] => NO_REFERENCE,
        [_, ..] => Reference {
            len: before + digits.len() + semicolon_len(rest_after(text, digits.len())),
            character: char_of(value_of(hexadecimal, digits)),
        },
    }
}

/// The length of the semicolon that ends a number, 0 or 1.
fn semicolon_len(text: &[u8]) -> usize
    ensures value { result ≡ semicolon_length text.now }
    ensures bound { result ≤ 1 }
{
    match text {
        [] => 0,
        [c, ..] => if *c == b';' { 1 } else { 0 },
    }
}

fn rest_after(text: &[u8], len: usize) -> &[u8]
    ensures { result.now ≡ drop len text.now }
{
    if len <= text.len() { &text[len..] } else { &[] }
}

/// The value of digits, at most 0x110000.
fn value_of(hexadecimal: bool, digits: &[u8]) -> u32
    ensures { result ≡ min (fold (λ n c. n * base hexadecimal + digit_value c) 0 digits.now) 0x110000 }
{
    let mut value = 0;
    for c in digits {
        value = push_digit(hexadecimal, value, digit_of(*c));
    }
    value
}

fn push_digit(hexadecimal: bool, value: u32, digit: u32) -> u32
    requires value { value ≤ 0x110000 }
    requires digit { digit ≤ 36 }
    ensures { result ≡ min (value * base hexadecimal + digit) 0x110000 }
{
    let shifted = if hexadecimal { value * 16 } else { value * 10 };
    (shifted + digit).min(0x110000)
}

/// The value of a digit or letter, 36 for any other character.
fn digit_of(c: u8) -> u32
    ensures value { result ≡ digit_value c }
    ensures bound { result ≤ 36 }
{
    match (c as char).to_digit(36) {
        Some(value) => value,
        None => 36,
    }
}

fn char_of(n: u32) -> char
    ensures { result ≡ character_of n }
{
    if n == 0 {
        '\u{FFFD}'
    } else if 0x80 <= n && n <= 0x9F {
        WINDOWS_1252[(n - 0x80) as usize]
    } else {
        char::from_u32(n).unwrap_or('\u{FFFD}')
    }
}

/// Returns the reference of the name that was found at the beginning of the text.
fn read_name(in_attribute: bool, found: Option<FoundName>, text: &[u8]) -> Reference
    ensures { reference_of result ≡ found_reference in_attribute found text.now }
{
    match found {
        None => NO_REFERENCE,
        Some(
            FoundName {
                len,
                character,
                is_closed,
            },
        ) => {
            if in_attribute && !is_closed && continues_name(rest_after(text, len)) {
                NO_REFERENCE
            } else {
                Reference { len, character }
            }
        }
    }
}

/// Whether the text begins with `=` or an ASCII letter or digit, before which a name in an attribute is text.
fn continues_name(text: &[u8]) -> bool
    ensures { result ≡ goes_on_test text.now }
{
    match text {
        [] => false,
        [c, ..] => *c == b'=' || c.is_ascii_alphanumeric(),
    }
}

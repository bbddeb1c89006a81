//! The number of a part of a message (RFC 9051 §6.4.5.1).
ghost use Rattle.std.specs.Prelude.{◌≡◌, ◌<◌, ◌≤◌, ◌^◌, ◌↔◌, ℕ, List, ◌++◌, ◌∷◌, [], length, decimal, IfOk, OnOk, IfSome, IsTrue, IsSome, Some, string_bytes};
ghost use Rattle.mail_values.specs.Section.{IsNumber, IsSection, spelling, numbers_of, spelling_with};

use itoa::Buffer;
use std::alloc::{AllocError, Global};
use std::marker::Model;

/// The greatest length of a section.
const DEPTH: usize = 40;

/// The section of a part: the part numbers on the path to it, from the outermost.
///
/// Contracts see the list of its 1 to 40 numbers, each from 1 to 65,535. It is spelled with dots, as in `2.1`.
#[derive(Clone, Copy, Debug, PartialEq, Eq)]
pub struct Section {
    numbers: [u16; DEPTH],
    count: usize,
}

impl Model for Section {
    ghost use Rattle.std.specs.Prelude.{List, ℕ, take, length};
    ghost use Rattle.mail_values.specs.Section.{padded, IsPadded};

    ghost Value = { List ℕ };

    ghost view = { λ s. take s.count s.numbers };

    ghost invariant = { λ s. IsPadded s.numbers s.count };

    ghost inverse = { λ numbers. record { numbers = padded numbers; count = length numbers } };
}

impl Section {
    /// The section of a single number.
    pub fn first(number: u16) -> Self
        requires { 1 ≤ number }
        ensures { result ≡ number ∷ [] }
    {
        let mut numbers = [0; DEPTH];
        numbers[0] = number;
        Section { numbers, count: 1 }
    }

    /// Whether the section has no child, because it has 40 numbers.
    pub fn is_full(&self) -> bool
        ensures { IsTrue result ↔ (length self.now ≡ 40) }
    {
        self.count == DEPTH
    }

    /// The section of the part with this number inside this section.
    pub fn child(self, number: u16) -> Self
        requires nonzero { 1 ≤ number }
        requires room { length self < 40 }
        ensures { result ≡ self ++ number ∷ [] }
    {
        let mut child = self;
        child.numbers[child.count] = number;
        child.count += 1;
        child
    }

    /// The part numbers, from the outermost.
    pub fn numbers(&self) -> &[u16]
        ensures equals { result.now ≡ self.now }
        ensures is_section { IsSection self.now }
    {
        &self.numbers[..self.count]
    }

    /// Parses a spelling: decimal numbers without sign or leading zero, separated by dots. `None` means that no section is
    /// spelled so.
    pub fn parse(text: &str) -> Option<Self>
        ensures sound { IfSome result (λ section. spelling section ≡ text.now) }
        ensures complete { (numbers : List ℕ) → IsSection numbers → spelling numbers ≡ text.now → result ≡ Some numbers }
    {
        let mut section = None;
        for piece in text.split('.') {
            let number = parse_number(piece)?;
            section = Some(with_number(section, number)?);
        }
        section
    }

    /// Spells the section: its numbers in decimal, separated by dots.
    pub fn spell(&self, alloc: Global) -> Result<String, AllocError>
        ensures { IfOk result (λ text. string_bytes text ≡ spelling self.now) }
    {
        let mut text = String::new(alloc);
        for number in self.numbers() {
            push_number(&mut text, *number)?;
        }
        Ok(text)
    }
}

/// Parses a part number.
fn parse_number(text: &str) -> Option<u16>
    ensures sound { IfSome result (λ n. decimal n ≡ text.now) }
    ensures is_number { IfSome result IsNumber }
    ensures complete { (n : ℕ) → IsNumber n → decimal n ≡ text.now → result ≡ Some n }
{
    match text.parse::<u16>() {
        Ok(number) if is_spelled_as(number, text) => Some(number),
        _ => None,
    }
}

/// Whether a number is a part number with this spelling, which excludes a sign and leading zeros.
fn is_spelled_as(number: u16, text: &str) -> bool
    ensures nonzero { IsTrue result → 1 ≤ number }
    ensures sound { IsTrue result → decimal number ≡ text.now }
    ensures complete { IsNumber number → decimal number ≡ text.now → IsTrue result }
{
    number > 0 && Buffer::new().format(number) == text
}

/// The section with a number appended, or `None` if it is full.
fn with_number(section: Option<Section>, number: u16) -> Option<Section>
    requires { IsNumber number }
    ensures appends { IfSome result (λ s. s ≡ numbers_of section ++ number ∷ []) }
    ensures room { length (numbers_of section) < 40 → IsSome result }
{
    match section {
        None => Some(Section::first(number)),
        Some(section) if section.is_full() => None,
        Some(section) => Some(section.child(number)),
    }
}

/// Appends a number to a spelling, after a dot unless it is the first.
fn push_number(text: &mut String, number: u16) -> Result<(), AllocError>
    ensures { OnOk result (string_bytes text.new ≡ spelling_with (string_bytes text.old) number) }
{
    if !text.is_empty() {
        text.push('.')?;
    }
    text.push_str(Buffer::new().format(number))
}

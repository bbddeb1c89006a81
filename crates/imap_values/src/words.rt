//! Words and numbers.

ghost use Rattle.std.specs.Prelude.{◌≡◌, ◌≤◌, ◌<◌, ◌^◌, ◌++◌, ◌+◌, ◌-◌, ◌*◌, min, length, take, drop, IfOk, OnOk};
ghost use Rattle.std.specs.List.{prefix_len};
ghost use Rattle.imap_values.specs.Slices.{slices_of};
ghost use Rattle.imap_values.specs.Words.{ParsesAs, eq_ignore_case, starts_with_ignore_case, in_class, is_tag_byte, is_atom_byte, take_while_at, all_in_class, take_while1_at, byte_at, end_at, number_at, positive_at, value_of, words_of, words_from, nonempty_word, word_list_at, text_after_word_at};

use crate::error::ParseError;
use crate::slices::Slices;
use std::alloc::{AllocError, Global};

/// The classes of bytes that words are made of.
#[derive(Clone, Copy)]
pub enum Class {
    /// Any byte except the space, CR and LF.
    Word,
    /// Any byte except CR and LF.
    Line,
    /// Any byte except `)`, CR and LF.
    ListText,
    Digit,
    /// A byte of a tag (RFC 9051 §9).
    Tag,
    /// Any byte except the space and `]`.
    CodeWord,
    /// Any byte except `]`.
    CodeText,
    /// Any byte except the backslash.
    Unescaped,
    /// A byte of an atom, or of any other word that is no string.
    Atom,
}

impl Class {
    fn in_class(self, byte: u8) -> bool
        ensures { result ≡ in_class self byte }
    {
        match self {
            Class::Word => !(byte == b' ' || byte == b'\r' || byte == b'\n'),
            Class::Line => !(byte == b'\r' || byte == b'\n'),
            Class::ListText => !(byte == b')' || byte == b'\r' || byte == b'\n'),
            Class::Digit => 48 <= byte && byte <= 57,
            Class::Tag => is_tag_byte(byte),
            Class::CodeWord => !(byte == b' ' || byte == b']'),
            Class::CodeText => byte != b']',
            Class::Unescaped => byte != b'\\',
            Class::Atom => is_atom_byte(byte),
        }
    }
}

fn is_atom_byte(byte: u8) -> bool
    ensures { result ≡ is_atom_byte byte }
{
    !(byte == b' '
        || byte == b'('
        || byte == b')'
        || byte == b'"'
        || byte == b'{'
        || byte == b'\r'
        || byte == b'\n')
}

fn is_tag_byte(byte: u8) -> bool
    ensures { result ≡ is_tag_byte byte }
{
    32 < byte
        && byte < 127
        && !(byte == b'('
            || byte == b')'
            || byte == b'{'
            || byte == b'%'
            || byte == b'*'
            || byte == b'"'
            || byte == b'\\'
            || byte == b'+')
}

/// Whether a word is a text, if the case of ASCII letters is ignored.
pub fn eq_ignore_case(word: &[u8], text: &[u8]) -> bool
    ensures { result ≡ eq_ignore_case text.now word.now }
{
    word.eq_ignore_ascii_case(text)
}

/// Whether a word begins with a text, if the case of ASCII letters is ignored.
pub fn starts_with_ignore_case(word: &[u8], text: &[u8]) -> bool
    ensures { result ≡ starts_with_ignore_case text.now word.now }
{
    text.len() <= word.len() && eq_ignore_case(&word[..text.len()], text)
}

fn class_len(class: Class, bytes: &[u8]) -> usize
    ensures len { result ≡ prefix_len (in_class class) bytes.now }
    ensures within { result ≤ length bytes.now }
{
    for (i, byte) in bytes.iter().enumerate() {
        if !class.in_class(*byte) {
            return i;
        }
    }
    bytes.len()
}

/// Splits after the longest prefix of bytes in a class.
pub fn take_while(class: Class, bytes: &[u8]) -> (&[u8], &[u8])
    ensures first { result.0.now ≡ (take_while_at class bytes.now).0 }
    ensures rest { result.1.now ≡ (take_while_at class bytes.now).1 }
{
    bytes.split_at(class_len(class, bytes))
}

/// Whether all bytes are in a class.
pub fn all_in_class(class: Class, bytes: &[u8]) -> bool
    ensures { result ≡ all_in_class class bytes.now }
{
    let (_, rest) = take_while(class, bytes);
    rest.is_empty()
}

/// Splits after the longest prefix of bytes in a class, which has at least one byte.
pub fn take_while1(class: Class, bytes: &[u8]) -> Result<(&[u8], &[u8]), ParseError>
    ensures { ParsesAs (λ x. (x.0.now, x.1.now)) result (take_while1_at class bytes.now) }
{
    let len = class_len(class, bytes);
    if len == 0 {
        return Err(ParseError::NotInGrammar);
    }
    Ok(bytes.split_at(len))
}

/// Returns the bytes after the first, which has to be `wanted`.
pub fn expect_byte(bytes: &[u8], wanted: u8) -> Result<&[u8], ParseError>
    ensures { ParsesAs (λ x. x.now) result (byte_at wanted bytes.now) }
{
    match bytes {
        [first, rest @ ..] => {
            if *first != wanted {
                return Err(ParseError::NotInGrammar);
            }
            Ok(rest)
        }
        _ => Err(ParseError::NotInGrammar),
    }
}

/// Refuses any byte.
pub fn expect_end(bytes: &[u8]) -> Result<(), ParseError>
    ensures { ParsesAs (λ x. x) result (end_at bytes.now) }
{
    match bytes {
        [] => Ok(()),
        _ => Err(ParseError::NotInGrammar),
    }
}

/// Returns the text after a word: empty at the end, or the bytes after a space.
pub fn text_after_word(bytes: &[u8]) -> Result<&[u8], ParseError>
    ensures { ParsesAs (λ x. x.now) result (text_after_word_at bytes.now) }
{
    match bytes {
        [] => Ok(bytes),
        [b' ', rest @ ..] => Ok(rest),
        _ => Err(ParseError::NotInGrammar),
    }
}

/// Appends a digit to a number; a number above `most` becomes `most` + 1.
fn append_digit(most: u64, n: u64, digit: u8) -> u64
    requires { most < 2 ^ 63 }
    ensures { result ≡ min (n * 10 + (digit - 48)) (most + 1) }
{
    if n > most / 10 {
        return most + 1;
    }
    (n * 10 + digit.saturating_sub(48) as u64).min(most + 1)
}

/// The number that digits spell, or `most` + 1 if it is above `most`.
fn value(most: u64, digits: &[u8]) -> u64
    requires { most < 2 ^ 63 }
    ensures { result ≡ min (value_of digits.now) (most + 1) }
{
    let mut n: u64 = 0;
    for digit in digits {
        n = append_digit(most, n, *digit);
    }
    n
}

/// Reads a number from 0 to `most`.
#[tactic(auto, unfolding(crate::specs::Words::number_at))]
pub fn number(bytes: &[u8], most: u64) -> Result<(u64, &[u8]), ParseError>
    requires { most < 2 ^ 63 }
    ensures parses { ParsesAs (λ x. (x.0, x.1.now)) result (number_at most bytes.now) }
    ensures within { IfOk result (λ x. x.0 ≤ most) }
{
    let (digits, rest) = take_while1(Class::Digit, bytes)?;
    let n = value(most, digits);
    if n > most {
        return Err(ParseError::NotInGrammar);
    }
    Ok((n, rest))
}

/// Reads a number from 1 to `most`.
#[tactic(auto, unfolding(crate::specs::Words::positive_at))]
pub fn positive(bytes: &[u8], most: u64) -> Result<(u64, &[u8]), ParseError>
    requires { most < 2 ^ 63 }
    ensures parses { ParsesAs (λ x. (x.0, x.1.now)) result (positive_at most bytes.now) }
    ensures within { IfOk result (λ x. x.0 ≤ most) }
{
    let (n, rest) = number(bytes, most)?;
    if n == 0 {
        return Err(ParseError::NotInGrammar);
    }
    Ok((n, rest))
}

/// Adds a word unless it is empty.
fn push_nonempty<'a>(words: &mut Vec<&'a [u8]>, word: &'a [u8]) -> Result<(), AllocError>
    ensures { OnOk result (slices_of words.new.items ≡ slices_of words.old.items ++ nonempty_word word.now) }
{
    match word {
        [] => Ok(()),
        _ => {
            words.push(word)?;
            Ok(())
        }
    }
}

/// Splits a text at its spaces, without empty words.
pub fn split_words(alloc: Global, text: &[u8]) -> Result<Slices<'_>, AllocError>
    ensures { IfOk result (λ v. v ≡ words_of text.now) }
{
    let mut words = Vec::new(alloc);
    let mut from = 0;
    for i in 0..text.len() {
        if text[i] == b' ' {
            push_nonempty(&mut words, &text[from..i])?;
            from = i + 1;
        }
    }
    push_nonempty(&mut words, &text[from..])?;
    Ok(Slices::from_vec(words))
}

/// Reads the words of a parenthesized list after its `(`, and returns them with the bytes after the `)`.
#[tactic(auto, unfolding(crate::specs::Words::word_list_at))]
pub fn word_list(alloc: Global, bytes: &[u8]) -> Result<(Slices<'_>, &[u8]), ParseError>
    ensures { ParsesAs (λ x. (x.0, x.1.now)) result (word_list_at bytes.now) }
{
    let (text, rest) = take_while(Class::ListText, bytes);
    let after = expect_byte(rest, b')')?;
    Ok((split_words(alloc, text)?, after))
}

//! Encoded words (RFC 2047).
ghost use Rattle.std.specs.Prelude.{◌≡◌, ◌≤◌, ◌++◌, IfOk, OnOk, length, string_bytes};
ghost use Rattle.std.specs.List.{before_first, after_first, prefix_len};
ghost use Rattle.header_words.specs.EncodedWords.{coding_of_letter, without_language, is_star, is_printable, is_question, is_text_byte, text_len, word_with, word_named, word_at, blanks_written, blank_written, word_bytes, word_text};

use crate::lines::find_byte;
use std::alloc::{AllocError, Global};
use std::marker::Model;
use transfer_codings::{Charset, Coding, charset_of, decode, text_of};

/// An encoded word in a charset and a coding that are read, and the bytes that follow it.
#[derive(Drop)]
pub struct Word<'a> {
    charset: Charset,
    coding: Coding,
    text: &'a [u8],
    after: &'a [u8],
}

impl<'a> Model for Word<'a> {
    ghost use Rattle.header_words.specs.EncodedWords.{EncodedWord};

    ghost Value = { EncodedWord };

    ghost view = { λ w. record { charset = w.charset; coding = w.coding; text = w.text.now; after = w.after.now } };
}

impl<'a> Word<'a> {
    /// Returns the word that bytes begin with.
    #[tactic(auto, unfolding(crate::specs::EncodedWords::word_at))]
    pub fn read(bytes: &'a [u8]) -> Option<Self>
        ensures { result ≡ word_at bytes.now }
    {
        match bytes {
            [b'=', b'?', rest @ ..] => word_named(before_question(rest), after_question(rest)),
            _ => None,
        }
    }

    /// Returns the bytes that follow the word.
    pub fn after(&self) -> &'a [u8]
        ensures { result.now ≡ self.now.after }
    {
        self.after
    }

    /// Returns the text of the word.
    #[tactic(auto, unfolding(crate::specs::EncodedWords::word_text))]
    pub fn text(&self, alloc: Global) -> Result<String, AllocError>
        ensures { IfOk result (λ text. string_bytes text ≡ word_text self.now) }
    {
        let bytes = bytes_of(alloc, self.coding, self.text)?;
        text_of(alloc, self.charset, &bytes)
    }
}

fn before_question(bytes: &[u8]) -> &[u8]
    ensures { result.now ≡ before_first is_question bytes.now }
{
    &bytes[..find_byte(b'?', bytes)]
}

fn after_question(bytes: &[u8]) -> &[u8]
    ensures { result.now ≡ after_first is_question bytes.now }
{
    let at = find_byte(b'?', bytes);
    if at < bytes.len() {
        &bytes[at + 1..]
    } else {
        &[]
    }
}

/// Returns the word of a charset's name whose letter, `?` and text come next.
fn word_named<'a>(name: &[u8], bytes: &'a [u8]) -> Option<Word<'a>>
    ensures { result ≡ word_named name.now bytes.now }
{
    match bytes {
        [letter, b'?', bytes @ ..] => {
            let coding = coding_of(*letter);
            word_with(charset_of(without_language(name)), coding, bytes)
        }
        _ => None,
    }
}

/// Returns the word of a charset and a coding whose text comes next.
fn word_with(charset: Option<Charset>, coding: Option<Coding>, bytes: &[u8]) -> Option<Word<'_>>
    ensures { result ≡ word_with charset coding bytes.now }
{
    let charset = charset?;
    let coding = coding?;
    let len = text_len(coding, bytes);
    match &bytes[len..] {
        [b'?', b'=', after @ ..] if len > 0 => Some(Word {
            charset,
            coding,
            text: &bytes[..len],
            after,
        }),
        _ => None,
    }
}

/// Returns how many characters of a text come next.
fn text_len(coding: Coding, bytes: &[u8]) -> usize
    ensures equals { result ≡ text_len coding bytes.now }
    ensures within { result ≤ length bytes.now }
{
    let mut len = 0;
    while len < bytes.len() && is_text_byte(coding, bytes[len]) {
        len += 1;
    }
    len
}

fn is_text_byte(coding: Coding, byte: u8) -> bool
    ensures { result ≡ is_text_byte coding byte }
{
    match coding {
        Coding::Quoted => is_printable(byte) || byte == b' ' || byte == b'\t',
        Coding::Base64 | Coding::Plain => is_printable(byte),
    }
}

fn is_printable(byte: u8) -> bool
    ensures { result ≡ is_printable byte }
{
    byte >= 33 && byte <= 126 && byte != b'?'
}

/// Returns the charset's name without the language that may follow it.
fn without_language(name: &[u8]) -> &[u8]
    ensures { result.now ≡ without_language name.now }
{
    &name[..find_byte(b'*', name)]
}

fn coding_of(letter: u8) -> Option<Coding>
    ensures { result ≡ coding_of_letter letter }
{
    match letter {
        b'B' | b'b' => Some(Coding::Base64),
        b'Q' | b'q' => Some(Coding::Quoted),
        _ => None,
    }
}

/// Decodes the text of a word into bytes.
fn bytes_of(alloc: Global, coding: Coding, text: &[u8]) -> Result<Vec<u8>, AllocError>
    ensures { IfOk result (λ bytes. bytes.items ≡ word_bytes coding text.now) }
{
    match coding {
        Coding::Quoted => {
            let written = write_blanks(alloc, text)?;
            decode(alloc, Coding::Quoted, &written)
        }
        Coding::Base64 => decode(alloc, Coding::Base64, text),
        Coding::Plain => Vec::from_slice(alloc, text),
    }
}

/// Writes a Q text as quoted-printable: `_` and blanks are escaped.
fn write_blanks(alloc: Global, text: &[u8]) -> Result<Vec<u8>, AllocError>
    ensures { IfOk result (λ written. written.items ≡ blanks_written text.now) }
{
    let mut written = Vec::with_capacity(alloc, text.len())?;
    for byte in text {
        push_written(&mut written, *byte)?;
    }
    Ok(written)
}

fn push_written(written: &mut Vec<u8>, byte: u8) -> Result<(), AllocError>
    ensures { OnOk result (written.new.items ≡ written.old.items ++ blank_written byte) }
{
    match byte {
        b'_' | b' ' => written.extend_from_slice(b"=20"),
        b'\t' => written.extend_from_slice(b"=09"),
        _ => {
            written.push(byte)?;
            Ok(())
        }
    }
}

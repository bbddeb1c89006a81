//! The words of a value, and its other bytes.
ghost use Rattle.std.specs.Prelude.{◌≡◌, ◌<◌, ◌≤◌, ◌+◌, ◌++◌, ◌==◌, length, drop, false, IfOk};
ghost use Rattle.std.specs.List.{list_any, position_or_len};
ghost use Rattle.header_words.specs.EncodedWords.{is_question, items_of, joined, with_words_decoded, without_gap};

use crate::decoding::trim_front;
use crate::lines::find_byte;
use crate::words::Word;
use std::alloc::{AllocError, Global};

/// Decodes the words of a value. Other bytes stay as they are.
pub fn decode_words(alloc: Global, value: Vec<u8>) -> Result<Vec<u8>, AllocError>
    ensures { IfOk result (λ bytes. bytes.items ≡ with_words_decoded value.items) }
{
    if has_question(&value) {
        decode_items(alloc, &value)
    } else {
        Ok(value)
    }
}

/// Returns whether a value may have a word: without a question mark it has none.
fn has_question(value: &[u8]) -> bool
    ensures { result ≡ list_any is_question value.now }
{
    value.contains(&b'?')
}

#[tactic(auto, unfolding(crate::specs::EncodedWords::with_words_decoded))]
fn decode_items(alloc: Global, value: &[u8]) -> Result<Vec<u8>, AllocError>
    ensures { IfOk result (λ bytes. bytes.items ≡ with_words_decoded value.now) }
{
    let mut bytes = Vec::with_capacity(alloc, value.len())?;
    let mut rest = value;
    while !rest.is_empty() {
        rest = push_next(alloc, &mut bytes, rest)?;
    }
    Ok(bytes)
}

/// Adds the text of the word that comes next, or the bytes up to where the next may begin. Returns the bytes that follow.
fn push_next<'a>(alloc: Global, bytes: &mut Vec<u8>, rest: &'a [u8]) -> Result<&'a [u8], AllocError>
    requires { 0 < length rest.now }
    ensures text { IfOk result (λ left. bytes.new.items ++ joined false (items_of left.now) ≡ bytes.old.items ++ joined false (items_of rest.now)) }
    ensures advances { IfOk result (λ left. length left.now < length rest.now) }
{
    match Word::read(rest) {
        Some(word) => {
            bytes.extend_from_slice(word.text(alloc)?.as_bytes())?;
            Ok(skip_gap(word.after()))
        }
        None => {
            let size = plain_len(rest);
            bytes.extend_from_slice(&rest[..size])?;
            Ok(&rest[size..])
        }
    }
}

/// Returns the bytes that follow a word, without the white space before another word.
fn skip_gap(after: &[u8]) -> &[u8]
    ensures { result.now ≡ without_gap after.now }
{
    let next = trim_front(after);
    if Word::read(next).is_some() {
        next
    } else {
        after
    }
}

/// Returns how many bytes, at least one, come before the next place where a word may begin.
fn plain_len(rest: &[u8]) -> usize
    requires { 0 < length rest.now }
    ensures equals { result ≡ 1 + position_or_len (λ b. b == 61) (drop 1 rest.now) }
    ensures within { result ≤ length rest.now }
{
    1 + find_byte(b'=', &rest[1..])
}

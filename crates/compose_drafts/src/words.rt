//! Texts in the fields of a header.
ghost use Rattle.std.specs.Prelude.{◌≡◌, ◌≤◌, ◌<◌, ◌++◌, OnOk, length, slice_index};
ghost use Rattle.std.specs.List.{flat_map, list_all};
ghost use Rattle.flowed_text.specs.Flow.{begins_character};
ghost use Rattle.compose_drafts.specs.Texts.{begins_word, encoded_word, encoded_words, has_word_mark, is_plain, is_printable, pieces, spaced_word, word_len, written};

use base64::engine::general_purpose::STANDARD;
use std::alloc::{AllocError, Global};

fn is_printable(byte: u8) -> bool
    ensures { result ≡ is_printable byte }
{
    32 <= byte && byte <= 126
}

fn all_printable(text: &[u8]) -> bool
    ensures { result ≡ list_all is_printable text.now }
{
    text.iter().all(|byte| is_printable(*byte))
}

fn begins_word(text: &[u8]) -> bool
    ensures { result ≡ begins_word text.now }
{
    match text {
        [b'=', b'?', ..] => true,
        _ => false,
    }
}

fn has_word_mark(text: &[u8]) -> bool
    ensures { result ≡ has_word_mark text.now }
{
    let mut rest = text;
    while let [_, more @ ..] = rest {
        if begins_word(rest) {
            return true;
        }
        rest = more;
    }
    false
}

/// Whether a text is written as it is: it has printable ASCII alone, and nothing that looks like an encoded word.
#[tactic(auto, unfolding(crate::specs::Texts::is_plain))]
pub fn is_plain(text: &[u8]) -> bool
    ensures { result ≡ is_plain text.now }
{
    all_printable(text) && !has_word_mark(text)
}

fn begins_character(byte: u8) -> bool
    ensures { result ≡ begins_character byte }
{
    byte < 128 || byte >= 192
}

/// Returns the length of the first encoded word of a text: at most 45 bytes, and whole characters.
#[tactic(auto, unfolding(crate::specs::Texts::word_len))]
fn word_len(text: &[u8]) -> usize
    ensures len { result ≡ word_len text.now }
    ensures within { result ≤ length text.now }
    ensures nonzero { 1 ≤ length text.now → 1 ≤ result }
{
    if text.len() <= 45 {
        text.len()
    } else if begins_character(text[45]) {
        45
    } else if begins_character(text[44]) {
        44
    } else if begins_character(text[43]) {
        43
    } else {
        42
    }
}

/// Appends an encoded word.
fn push_word(alloc: Global, out: &mut Vec<u8>, piece: &[u8]) -> Result<(), AllocError>
    ensures { OnOk result (out.new.items ≡ out.old.items ++ encoded_word piece.now) }
{
    let encoded = STANDARD.encode(alloc, piece)?;
    out.extend_from_slice(b"=?utf-8?B?")?;
    out.extend_from_slice(encoded.as_bytes())?;
    out.extend_from_slice(b"?=")
}

/// Appends a text as encoded words, each after a space.
fn push_more_words(alloc: Global, out: &mut Vec<u8>, text: &[u8]) -> Result<(), AllocError>
    ensures { OnOk result (out.new.items ≡ out.old.items ++ flat_map spaced_word (pieces text.now)) }
{
    let mut rest = text;
    while !rest.is_empty() {
        let (piece, more) = rest.split_at(word_len(rest));
        out.extend_from_slice(b" ")?;
        push_word(alloc, out, piece)?;
        rest = more;
    }
    Ok(())
}

/// Appends a text as encoded words with spaces between them.
pub fn push_encoded_words(alloc: Global, out: &mut Vec<u8>, text: &[u8]) -> Result<(), AllocError>
    ensures { OnOk result (out.new.items ≡ out.old.items ++ encoded_words text.now) }
{
    if text.is_empty() {
        return Ok(());
    }
    let (piece, more) = text.split_at(word_len(text));
    push_word(alloc, out, piece)?;
    push_more_words(alloc, out, more)?;
    Ok(())
}

/// Appends a text as a field has it.
#[tactic(auto, unfolding(crate::specs::Texts::written))]
pub fn push_written(alloc: Global, out: &mut Vec<u8>, text: &[u8]) -> Result<(), AllocError>
    ensures { OnOk result (out.new.items ≡ out.old.items ++ written text.now) }
{
    if is_plain(text) {
        return out.extend_from_slice(text);
    }
    push_encoded_words(alloc, out, text)
}

//! Base subjects (RFC 5256 §2.1).
ghost use Rattle.std.specs.Prelude.{◌≡◌, ◌<◌, ◌≤◌, ◌+◌, ◌-◌, IfOk, OnOk, IfSome, MatchOption, ◌++◌, Bool, length, drop, false};
ghost use Rattle.std.specs.Prelude.{reverse, Some, None, true};
ghost use Rattle.std.specs.List.{position_or_len};
ghost use Rattle.std.specs.Str.{str_eq_ignore_ascii_case};
ghost use Rattle.header_words.specs.Fields.{is_white};
ghost use Rattle.header_words.specs.BaseSubject.{base, spaced_byte, is_bracket, closed_blob_len, before_colon_len, without_leader, without_trailer, is_trailer, unwrapped, single_spaced, begins_with, spaces_len, blob_len, blobs_len, word_len, mark_len, marked_len, leader_len, spare_blob_len, without_front_from, without_front, back_len, without_back, trimmed, is_forward, inside_forward, base_of};

use crate::decoding::read_lossily;
use mail_values::Text;
use std::alloc::{AllocError, Global};

/// A base subject, and whether a mark of a reply or forward was removed from the subject.
#[derive(Drop)]
pub struct Base {
    pub text: Text,
    pub reply: bool,
}

/// Part of a subject, and whether a mark of a reply or forward was removed beside it.
#[derive(Clone, Copy)]
struct Part<'a> {
    text: &'a [u8],
    reply: bool,
}

/// Writes each run of white space as one space.
fn single_spaced(alloc: Global, text: &[u8]) -> Result<Vec<u8>, AllocError>
    ensures { IfOk result (λ spaced. spaced.items ≡ single_spaced false text.now) }
{
    let mut spaced = Vec::with_capacity(alloc, text.len())?;
    let mut after_white = false;
    let mut rest = text;
    while let [first, more @ ..] = rest {
        push_spaced(&mut spaced, after_white, *first)?;
        after_white = is_white(*first);
        rest = more;
    }
    Ok(spaced)
}

fn push_spaced(spaced: &mut Vec<u8>, after_white: bool, byte: u8) -> Result<(), AllocError>
    ensures { OnOk result (spaced.new.items ≡ spaced.old.items ++ spaced_byte after_white byte) }
{
    if !is_white(byte) {
        spaced.push(byte)?;
    } else if !after_white {
        spaced.push(b' ')?;
    }
    Ok(())
}

fn is_white(byte: u8) -> bool
    ensures { result ≡ is_white byte }
{
    match byte {
        b' ' | b'\t' | b'\n' | b'\r' => true,
        _ => false,
    }
}

/// Returns whether a text begins with a word, in either case.
fn begins_with(text: &[u8], word: &[u8]) -> bool
    ensures equals { result ≡ begins_with word.now text.now }
    ensures within { result ≡ true → length word.now ≤ length text.now }
{
    is_same(&text[..word.len().min(text.len())], word)
}

fn is_same(text: &[u8], word: &[u8]) -> bool
    ensures { result ≡ str_eq_ignore_ascii_case text.now word.now }
{
    text.eq_ignore_ascii_case(word)
}

fn spaces_len(text: &[u8]) -> usize
    ensures equals { result ≡ spaces_len text.now }
    ensures within { result ≤ length text.now }
{
    let mut len = 0;
    while len < text.len() && text[len] == b' ' {
        len += 1;
    }
    len
}

/// Returns how many bytes come before the first bracket.
fn unbracketed_len(text: &[u8]) -> usize
    ensures equals { result ≡ position_or_len is_bracket text.now }
    ensures within { result ≤ length text.now }
{
    let mut len = 0;
    while len < text.len() && text[len] != b'[' && text[len] != b']' {
        len += 1;
    }
    len
}

/// Returns the length of the blob that a text begins with.
#[tactic(auto, unfolding(crate::specs::BaseSubject::blob_len))]
fn blob_len(text: &[u8]) -> usize
    ensures equals { result ≡ blob_len text.now }
    ensures within { result ≤ length text.now }
{
    match text {
        [b'[', inside @ ..] => closed_blob_len(inside, unbracketed_len(inside)),
        _ => 0,
    }
}

/// Returns the length of a blob whose first bracket after `[` is at this place.
fn closed_blob_len(inside: &[u8], len: usize) -> usize
    requires { len ≤ length inside.now }
    ensures equals { result ≡ closed_blob_len len (drop len inside.now) }
    ensures within { result ≤ 1 + length inside.now }
{
    match &inside[len..] {
        [b']', after @ ..] => len + 2 + spaces_len(after),
        _ => 0,
    }
}

/// Returns the length of all blobs that a text begins with.
fn blobs_len(text: &[u8]) -> usize
    ensures equals { result ≡ blobs_len text.now }
    ensures within { result ≤ length text.now }
{
    let mut len = 0;
    let mut next = blob_len(text);
    while next > 0 {
        len += next;
        next = blob_len(&text[len..]);
    }
    len
}

/// Returns the length of `re`, `fw` or `fwd`.
#[tactic(auto, unfolding(crate::specs::BaseSubject::word_len))]
fn word_len(text: &[u8]) -> usize
    ensures equals { result ≡ word_len text.now }
    ensures within { result ≤ length text.now }
{
    if begins_with(text, b"fwd") {
        3
    } else if begins_with(text, b"fw") || begins_with(text, b"re") {
        2
    } else {
        0
    }
}

/// Returns how many bytes a mark of a reply or forward has before its colon.
fn before_colon_len(text: &[u8]) -> usize
    ensures equals { result ≡ before_colon_len text.now }
    ensures within { result ≤ length text.now }
{
    let word = word_len(text);
    let spaced = word + spaces_len(&text[word..]);
    spaced + blob_len(&text[spaced..])
}

/// Returns the length of the mark of a reply or forward that a text begins with, without blobs before it.
#[tactic(auto, unfolding(crate::specs::BaseSubject::mark_len))]
fn mark_len(text: &[u8]) -> usize
    ensures equals { result ≡ mark_len text.now }
    ensures within { result ≤ length text.now }
{
    if word_len(text) == 0 {
        return 0;
    }
    let len = before_colon_len(text);
    match &text[len..] {
        [b':', ..] => len + 1,
        _ => 0,
    }
}

/// Returns the length of the mark of a reply or forward that a text begins with, with the blobs before it.
#[tactic(auto, unfolding(crate::specs::BaseSubject::marked_len))]
fn marked_len(text: &[u8]) -> usize
    ensures equals { result ≡ marked_len text.now }
    ensures within { result ≤ length text.now }
{
    let blobs = blobs_len(text);
    match mark_len(&text[blobs..]) {
        0 => 0,
        mark => blobs + mark,
    }
}

/// Removes the leader in front: a space, or a mark of a reply or forward with the blobs before it.
fn strip_leader<'a>(part: Part<'a>) -> Option<Part<'a>>
    ensures { MatchOption result (leader_len part.entry.text.now ≡ 0) (λ rest. (0 < leader_len part.entry.text.now) × (base rest.text.now rest.reply ≡ without_leader (base part.entry.text.now part.entry.reply))) }
{
    if part.text.starts_with(b" ") {
        return Some(Part {
            text: &part.text[1..],
            reply: part.reply,
        });
    }
    let len = marked_len(part.text);
    if len > 0 {
        Some(Part {
            text: &part.text[len..],
            reply: true,
        })
    } else {
        None
    }
}

/// Removes all leaders in front.
fn strip_leaders<'a>(part: Part<'a>) -> Part<'a>
    ensures same { without_front (base result.text.now result.reply) ≡ without_front (base part.entry.text.now part.entry.reply) }
    ensures none_left { leader_len result.text.now ≡ 0 }
{
    let mut rest = part;
    while let Some(next) = strip_leader(rest) {
        rest = next;
    }
    rest
}

/// Removes the blob in front if it leaves something.
fn strip_blob(text: &[u8]) -> Option<&[u8]>
    ensures equals { MatchOption result (spare_blob_len text.now ≡ 0) (λ rest. rest.now ≡ drop (spare_blob_len text.now) text.now) }
    ensures shorter { IfSome result (λ rest. length rest.now < length text.now) }
{
    let len = blob_len(text);
    if len > 0 && len < text.len() {
        Some(&text[len..])
    } else {
        None
    }
}

/// Removes the blobs in front of a text without a leader, but for the last if it leaves nothing. No leader comes after them, so
/// that each blob is read twice at most.
fn strip_blobs(text: &[u8]) -> &[u8]
    requires { leader_len text.now ≡ 0 }
    ensures { (reply : Bool) → without_front_from 0 reply text.now ≡ record { text = result.now; reply = reply } }
{
    let mut rest = text;
    while let Some(more) = strip_blob(rest) {
        rest = more;
    }
    rest
}

/// Returns whether a text ends with a mark of a forward.
fn has_trailer(text: &[u8]) -> bool
    ensures equals { result ≡ is_trailer (reverse text.now) }
    ensures within { result ≡ true → 5 ≤ length text.now }
{
    text.len() >= 5 && is_same(&text[text.len() - 5..], b"(fwd)")
}

/// Removes a space or a mark of a forward at the end.
fn strip_trailer<'a>(part: Part<'a>) -> Option<Part<'a>>
    ensures { MatchOption result (back_len (reverse part.entry.text.now) ≡ 0) (λ rest. (0 < back_len (reverse part.entry.text.now)) × (base (reverse rest.text.now) rest.reply ≡ without_trailer (base (reverse part.entry.text.now) part.entry.reply))) }
{
    if part.text.ends_with(b" ") {
        return Some(Part {
            text: &part.text[..part.text.len() - 1],
            reply: part.reply,
        });
    }
    if has_trailer(part.text) {
        Some(Part {
            text: &part.text[..part.text.len() - 5],
            reply: true,
        })
    } else {
        None
    }
}

fn strip_back<'a>(part: Part<'a>) -> Part<'a>
    ensures { base result.text.now result.reply ≡ without_back (base part.entry.text.now part.entry.reply) }
{
    let mut rest = part;
    while let Some(next) = strip_trailer(rest) {
        rest = next;
    }
    rest
}

fn trim<'a>(part: Part<'a>) -> Part<'a>
    ensures { base result.text.now result.reply ≡ trimmed (base part.entry.text.now part.entry.reply) }
{
    let rest = strip_leaders(strip_back(part));
    Part {
        text: strip_blobs(rest.text),
        reply: rest.reply,
    }
}

/// Returns what lies between `[fwd:` in front and `]` at the end.
#[tactic(auto, using(crate::proofs::SubjectLemmas::forward_if, crate::proofs::SubjectLemmas::no_forward))]
fn inside_forward(text: &[u8]) -> Option<Part<'_>>
    ensures { MatchOption result (is_forward text.now ≡ false) (λ inside. (is_forward text.now ≡ true) × (base inside.text.now inside.reply ≡ inside_forward text.now)) }
{
    if !text.ends_with(b"]") {
        return None;
    }
    let front = &text[..text.len() - 1];
    if begins_with(front, b"[fwd:") {
        Some(Part {
            text: &front[5..],
            reply: true,
        })
    } else {
        None
    }
}

/// Removes what surrounds the base subject. Each round removes six bytes or is the last.
fn unwrap_forwards(spaced: &[u8]) -> Part<'_>
    ensures { base result.text.now result.reply ≡ unwrapped spaced.now }
{
    let mut part = trim(Part {
        text: spaced,
        reply: false,
    });
    while let Some(inside) = inside_forward(part.text) {
        part = trim(inside);
    }
    part
}

/// Returns the base subject of a decoded subject: without marks of replies and forwards, blobs in brackets and needless white space.
pub fn base_subject(alloc: Global, subject: &str) -> Result<Base, AllocError>
    ensures text { IfOk result (λ base. base.text ≡ (base_of subject.now).text) }
    ensures reply { IfOk result (λ base. base.reply ≡ (base_of subject.now).reply) }
{
    let spaced = single_spaced(alloc, subject.as_bytes())?;
    let part = unwrap_forwards(&spaced);
    let reply = part.reply;
    let text = read_lossily(alloc, Vec::from_slice(alloc, part.text)?)?;
    Ok(Base {
        text: Text::from_string(text),
        reply,
    })
}

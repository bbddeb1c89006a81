//! Base64 (RFC 4648 §4).

ghost use Rattle.std.specs.Prelude.{◌≡◌, ◌∷◌, ◌++◌, [], ◌+◌, ◌*◌, ◌/◌, ◌≤◌, ◌<◌, MatchOption, IfOk, OnOk, length, take};
ghost use Rattle.std.specs.List.{All, before_first};
ghost use Rattle.std.specs.Str.{IsAscii};
ghost use Rattle.std.specs.Str.Lines.{lines};
ghost use Rattle.transfer_codings.specs.Base64.{HasFour, base64_bytes, base64_lines, base64_text, bytes_of, is_equals, sextet_of, sextets};

use base64::engine::general_purpose::STANDARD;
use memchr::memchr;
use std::alloc::{AllocError as Memory, Global};

// The value of each character of the alphabet, and 255 for any other byte.
static SEXTETS: [u8; 256] = [
    255, 255, 255, 255, 255, 255, 255, 255, 255, 255, 255, 255, 255, 255, 255, 255, 255, 255, 255,
    255, 255, 255, 255, 255, 255, 255, 255, 255, 255, 255, 255, 255, 255, 255, 255, 255, 255, 255,
    255, 255, 255, 255, 255, 62, 255, 255, 255, 63, 52, 53, 54, 55, 56, 57, 58, 59, 60, 61, 255,
    255, 255, 255, 255, 255, 255, 0, 1, 2, 3, 4, 5, 6, 7, 8, 9, 10, 11, 12, 13, 14, 15, 16, 17, 18,
    19, 20, 21, 22, 23, 24, 25, 255, 255, 255, 255, 255, 255, 26, 27, 28, 29, 30, 31, 32, 33, 34,
    35, 36, 37, 38, 39, 40, 41, 42, 43, 44, 45, 46, 47, 48, 49, 50, 51, 255, 255, 255, 255, 255,
    255, 255, 255, 255, 255, 255, 255, 255, 255, 255, 255, 255, 255, 255, 255, 255, 255, 255, 255,
    255, 255, 255, 255, 255, 255, 255, 255, 255, 255, 255, 255, 255, 255, 255, 255, 255, 255, 255,
    255, 255, 255, 255, 255, 255, 255, 255, 255, 255, 255, 255, 255, 255, 255, 255, 255, 255, 255,
    255, 255, 255, 255, 255, 255, 255, 255, 255, 255, 255, 255, 255, 255, 255, 255, 255, 255, 255,
    255, 255, 255, 255, 255, 255, 255, 255, 255, 255, 255, 255, 255, 255, 255, 255, 255, 255, 255,
    255, 255, 255, 255, 255, 255, 255, 255, 255, 255, 255, 255, 255, 255, 255, 255, 255, 255, 255,
    255, 255, 255, 255, 255, 255, 255, 255, 255, 255, 255, 255, 255, 255,
];

/// Decodes a base64 text.
pub(crate) fn decode(alloc: Global, text: &[u8]) -> Result<Vec<u8>, Memory>
    ensures { IfOk result (λ bytes. bytes.items ≡ base64_bytes text.now) }
{
    let text = before_equals(text);
    let mut bytes = vec![in alloc; 0u8; text.len() / 4 * 3 + 3]?;
    let size = read_sextets(text, bytes.as_mut_slice());
    bytes.truncate(size);
    Ok(bytes)
}

/// Encodes bytes as base64 (RFC 2045 §6.8). Each line has 76 characters, the last may have fewer, and each ends with CR LF. No
/// bytes give no line.
pub fn encode_base64(alloc: Global, bytes: &[u8]) -> Result<Vec<u8>, Memory>
    ensures text { IfOk result (λ text. text.items ≡ base64_text bytes.now) }
    ensures decodes { IfOk result (λ text. base64_bytes text.items ≡ bytes.now) }
    ensures lines { IfOk result (λ text. All (λ line. length line ≤ 76) (lines text.items)) }
    ensures ascii { IfOk result (λ text. IsAscii text.items) }
{
    let count = bytes.len().div_ceil(57);
    let mut text = Vec::with_capacity(alloc, 78 * count)?;
    for block in 0..count.div_ceil(BLOCK) {
        let first = BLOCK * block;
        push_lines(bytes, first, BLOCK.min(count - first), &mut text)?;
    }
    Ok(text)
}

// How many lines are encoded together: a call of the engine costs as much as half a line.
const BLOCK: usize = 16;

// Adds `count` lines of the base64 text of `bytes`, from line `first` on.
fn push_lines(bytes: &[u8], first: usize, count: usize, text: &mut Vec<u8>) -> Result<(), Memory>
    requires lines { first + count ≤ (length bytes.now + 56) / 57 }
    requires any { 0 < count }
    requires few { count ≤ 16 }
    ensures added { OnOk result (text.new.items ≡ text.old.items ++ base64_lines bytes.now first count) }
{
    let end = (57 * (first + count)).min(bytes.len());
    let mut characters = [0u8; 76 * BLOCK];
    let Ok(size) = STANDARD.encode_slice(&bytes[57 * first..end], &mut characters) else {
        unreachable!();
    };
    for number in 0..count {
        let start = 76 * number;
        push_line(&characters[start..(start + 76).min(size)], text)?;
    }
    Ok(())
}

fn push_line(characters: &[u8], text: &mut Vec<u8>) -> Result<(), Memory>
    ensures added { OnOk result (text.new.items ≡ text.old.items ++ (characters.now ++ 13 ∷ 10 ∷ [])) }
{
    text.extend_from_slice(characters)?;
    text.extend_from_slice(b"\r\n")?;
    Ok(())
}

// Returns the text up to its first `=`.
fn before_equals(text: &[u8]) -> &[u8]
    ensures { result.now ≡ before_first is_equals text.now }
{
    match memchr(b'=', text) {
        Some(end) => &text[..end],
        None => text,
    }
}

// Writes the bytes of the sextets of `text`, and returns how many there are.
fn read_sextets(text: &[u8], bytes: &mut [u8]) -> usize
    requires room { 3 * length text.now < 4 * length bytes.old }
    ensures { take result bytes.new ≡ bytes_of (sextets text.now) }
{
    let mut rest = text;
    let mut size = 0;
    while let Some(((a, b, c, d), after)) = next_four(rest) {
        bytes[size] = a * 4 + b / 16;
        bytes[size + 1] = b % 16 * 16 + c / 4;
        bytes[size + 2] = c % 4 * 64 + d;
        size += 3;
        rest = after;
    }
    read_last(rest, bytes, size)
}

// Writes the bytes of the last sextets, fewer than four, from `start` on, and returns where they end.
fn read_last(text: &[u8], bytes: &mut [u8], start: usize) -> usize
    requires few { length (sextets text.now) < 4 }
    requires room { 4 * start + 3 * length text.now < 4 * length bytes.old }
    ensures { take result bytes.new ≡ take start bytes.old ++ bytes_of (sextets text.now) }
{
    let Some((a, after)) = next_sextet(text) else {
        return start;
    };
    let Some((b, after)) = next_sextet(after) else {
        return start;
    };
    bytes[start] = a * 4 + b / 16;
    let Some((c, _)) = next_sextet(after) else {
        return start + 1;
    };
    bytes[start + 1] = b % 16 * 16 + c / 4;
    start + 2
}

// Returns the next four sextets and the text after them, if there are four.
fn next_four(text: &[u8]) -> Option<((u8, u8, u8, u8), &[u8])>
    ensures { MatchOption result (length (sextets text.now) < 4) (λ next. HasFour text.now next.0 next.1.now) }
{
    if let [a, b, c, d, after @ ..] = text {
        let (a, b, c, d) = (sextet(*a), sextet(*b), sextet(*c), sextet(*d));
        if a < 64 && b < 64 && c < 64 && d < 64 {
            return Some(((a, b, c, d), after));
        }
    }
    let (a, after) = next_sextet(text)?;
    let (b, after) = next_sextet(after)?;
    let (c, after) = next_sextet(after)?;
    let (d, after) = next_sextet(after)?;
    Some(((a, b, c, d), after))
}

// Returns the sextet of the next character of the alphabet, and the text after it.
fn next_sextet(text: &[u8]) -> Option<(u8, &[u8])>
    ensures { MatchOption result (sextets text.now ≡ [])
        (λ next. (sextets text.now ≡ next.0 ∷ sextets next.1.now) × (next.0 < 64)
        × (length next.1.now < length text.now)) }
{
    for (i, character) in text.iter().enumerate() {
        let value = sextet(*character);
        if value < 64 {
            return Some((value, &text[i + 1..]));
        }
    }
    None
}

// Returns the sextet of a character, or 255.
fn sextet(character: u8) -> u8
    ensures value { result < 64 → sextet_of character ≡ Some result }
    ensures other { 64 ≤ result → sextet_of character ≡ None }
{
    SEXTETS[character as usize]
}

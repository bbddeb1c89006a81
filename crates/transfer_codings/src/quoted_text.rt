//! Quoted-printable as mail reads it (RFC 2045 §6.7).

ghost use Rattle.std.specs.Prelude.{◌≡◌, ◌==◌, ◌∷◌, ◌++◌, [], ◌+◌, ◌≤◌, ◌<◌, MatchOption, IfOk, IfSome, true, false, length, take};
ghost use Rattle.std.specs.List.{position_or_len, slice_split};
ghost use Rattle.transfer_codings.specs.Quoted.{broken_line, ends_in, escaped_byte, hex_value, is_blank, is_line_feed, line_bytes, quoted_bytes, unescaped, without_blanks, without_last};

use memchr::memchr;
use std::alloc::{AllocError as Memory, Global};

/// Decodes a quoted-printable text.
pub(crate) fn decode(alloc: Global, text: &[u8]) -> Result<Vec<u8>, Memory>
    ensures { IfOk result (λ bytes. bytes.items ≡ quoted_bytes text.now) }
{
    let mut bytes = vec![in alloc; 0u8; text.len()]?;
    let size = read_lines(text, bytes.as_mut_slice());
    bytes.truncate(size);
    Ok(bytes)
}

// Writes the bytes of the lines of `text`, and returns how many there are.
fn read_lines(text: &[u8], bytes: &mut [u8]) -> usize
    requires { length text.now ≤ length bytes.old }
    ensures { take result bytes.new ≡ quoted_bytes text.now }
{
    let mut rest = text;
    let mut size = 0;
    while let Some((line, after)) = split_line(rest) {
        size = read_broken_line(line, bytes, size);
        rest = after;
    }
    read_line(rest, b"", bytes, size)
}

// Returns the first line without its LF, and the text after it.
fn split_line(text: &[u8]) -> Option<(&[u8], &[u8])>
    ensures { MatchOption result (slice_split is_line_feed text.now ≡ text.now ∷ [])
        (λ cut. (slice_split is_line_feed text.now ≡ cut.0.now ∷ slice_split is_line_feed cut.1.now)
        × (length cut.0.now + length cut.1.now + 1 ≡ length text.now)) }
{
    let end = find(b'\n', text);
    if end == text.len() {
        return None;
    }
    Some((&text[..end], &text[end + 1..]))
}

// Returns the place of the first such byte, or the length. It tries a few bytes by hand, since lines and the text between escapes
// may be short.
fn find(byte: u8, text: &[u8]) -> usize
    ensures place { result ≡ position_or_len (λ x. x == byte) text.now }
    ensures bound { result ≤ length text.now }
{
    let near = text.len().min(4);
    for i in 0..near {
        if text[i] == byte {
            return i;
        }
    }
    match memchr(byte, &text[near..]) {
        Some(i) => near + i,
        None => text.len(),
    }
}

// Writes the bytes of a line that ends in LF from `start` on, and returns where they end.
fn read_broken_line(line: &[u8], bytes: &mut [u8], start: usize) -> usize
    requires { start + length line.now + 1 ≤ length bytes.old }
    ensures written { take result bytes.new ≡ take start bytes.old ++ broken_line line.now }
    ensures bound { result ≤ start + length line.now + 1 }
{
    match strip_last(line, b'\r') {
        Some(front) => read_line(front, b"\r\n", bytes, start),
        None => read_line(line, b"\n", bytes, start),
    }
}

// Writes the bytes of a line and its break from `start` on, and returns where they end.
fn read_line(line: &[u8], ending: &[u8], bytes: &mut [u8], start: usize) -> usize
    requires { start + length line.now + length ending.now ≤ length bytes.old }
    ensures written { take result bytes.new ≡ take start bytes.old ++ line_bytes line.now ending.now }
    ensures bound { result ≤ start + length line.now + length ending.now }
{
    let text = trim_blanks(line);
    match strip_last(text, b'=') {
        Some(front) => unescape(front, bytes, start),
        None => {
            let size = unescape(text, bytes, start);
            write(ending, bytes, size)
        }
    }
}

// Returns a line without its last byte, if that is `byte`.
fn strip_last(line: &[u8], byte: u8) -> Option<&[u8]>
    ensures { MatchOption result (ends_in byte line.now ≡ false)
        (λ front. (ends_in byte line.now ≡ true) × (front.now ≡ without_last line.now)
        × (length front.now + 1 ≡ length line.now)) }
{
    let size = line.len();
    if size == 0 || line[size - 1] != byte {
        return None;
    }
    Some(&line[..size - 1])
}

// A line without the spaces and TABs at its end.
fn trim_blanks(line: &[u8]) -> &[u8]
    ensures kept { result.now ≡ without_blanks line.now }
    ensures bound { length result.now ≤ length line.now }
{
    let mut end = line.len();
    while end > 0 && is_blank(line[end - 1]) {
        end -= 1;
    }
    &line[..end]
}

fn is_blank(byte: u8) -> bool
    ensures { result ≡ is_blank byte }
{
    byte == b' ' || byte == b'\t'
}

// Writes a text with its escapes as bytes from `start` on, and returns where it ends.
fn unescape(text: &[u8], bytes: &mut [u8], start: usize) -> usize
    requires { start + length text.now ≤ length bytes.old }
    ensures written { take result bytes.new ≡ take start bytes.old ++ unescaped text.now }
    ensures bound { result ≤ start + length text.now }
{
    let mut rest = text;
    let mut size = start;
    while let [first, after @ ..] = rest {
        if *first == b'=' {
            let (byte, more) = byte_after_equals(after);
            bytes[size] = byte;
            size += 1;
            rest = more;
            continue;
        }
        let run = find(b'=', rest);
        size = write(&rest[..run], bytes, size);
        rest = &rest[run..];
    }
    size
}

// Copies a piece from `start` on, and returns where it ends.
fn write(piece: &[u8], bytes: &mut [u8], start: usize) -> usize
    requires { start + length piece.now ≤ length bytes.old }
    ensures written { take result bytes.new ≡ take start bytes.old ++ piece.now }
    ensures end { result ≡ start + length piece.now }
{
    let end = start + piece.len();
    bytes[start..end].copy_from_slice(piece);
    end
}

// Returns the byte that an `=` and the text after it begin with, and the text after that byte.
fn byte_after_equals(text: &[u8]) -> (u8, &[u8])
    ensures byte { unescaped (61 ∷ text.now) ≡ result.0 ∷ unescaped result.1.now }
    ensures bound { length result.1.now ≤ length text.now }
{
    match escape(text) {
        Some(byte) => (byte, &text[2..]),
        None => (b'=', text),
    }
}

// Returns the byte of the first two characters, if they are hexadecimal digits.
fn escape(text: &[u8]) -> Option<u8>
    ensures value { result ≡ escaped_byte text.now }
    ensures room { IfSome result (λ byte. 2 ≤ length text.now) }
{
    let [high, low, ..] = text else {
        return None;
    };
    let high = hex(*high)?;
    let low = hex(*low)?;
    Some(high * 16 + low)
}

fn hex(digit: u8) -> Option<u8>
    ensures value { result ≡ hex_value digit }
    ensures small { IfSome result (λ value. value < 16) }
{
    match digit {
        b'0'..=b'9' => Some(digit - b'0'),
        b'A'..=b'F' => Some(digit - b'A' + 10),
        b'a'..=b'f' => Some(digit - b'a' + 10),
        _ => None,
    }
}

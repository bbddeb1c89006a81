//! Quoted-printable as mail writes it (RFC 2045 §6.7).

ghost use Rattle.std.specs.Prelude.{◌≡◌, ◌∷◌, ◌++◌, [], ◌+◌, ◌≤◌, ◌<◌, MatchOption, IfOk, OnOk, length};
ghost use Rattle.std.specs.List.{All};
ghost use Rattle.std.specs.Str.{IsAscii};
ghost use Rattle.std.specs.Str.Lines.{lines};
ghost use Rattle.transfer_codings.specs.Quoted.{quoted_bytes};
ghost use Rattle.transfer_codings.specs.QuotedRows.{broken_lines, column_after, escape_of, placed_unit, quoted_text, row_width, rows_text, soft_break, is_literal, unit_column, upper_digit};

use std::alloc::{AllocError as Memory, Global};

// The most characters on a row, without its CR LF.
const WIDTH: usize = 76;

/// Encodes bytes as quoted-printable (RFC 2045 §6.7). A line ends at each CR LF of `bytes`, and at a soft break before it has more
/// than 76 characters. Bytes other than printable ASCII are escaped, and so are `=` and a space at the end of a line. The text
/// decodes to `bytes`, whatever they are.
pub fn encode_quoted(alloc: Global, bytes: &[u8]) -> Result<Vec<u8>, Memory>
    ensures text { IfOk result (λ text. text.items ≡ quoted_text bytes.now) }
    ensures decodes { IfOk result (λ text. quoted_bytes text.items ≡ bytes.now) }
    ensures lines { IfOk result (λ text. All (λ line. length line ≤ row_width) (lines text.items)) }
    ensures ascii { IfOk result (λ text. IsAscii text.items) }
{
    let mut text = Vec::with_capacity(alloc, bytes.len())?;
    let mut rest = bytes;
    while let Some((line, after)) = split_break(rest) {
        push_line(line, &mut text)?;
        text.extend_from_slice(b"\r\n")?;
        rest = after;
    }
    push_line(rest, &mut text)?;
    Ok(text)
}

// Returns the first line without its CR LF, and the text after it.
fn split_break(text: &[u8]) -> Option<(&[u8], &[u8])>
    ensures { MatchOption result (broken_lines text.now ≡ text.now ∷ [])
        (λ cut. (broken_lines text.now ≡ cut.0.now ∷ broken_lines cut.1.now)
        × (length cut.0.now + length cut.1.now + 2 ≡ length text.now)) }
{
    for end in 1..text.len() {
        if text[end] == b'\n' && text[end - 1] == b'\r' {
            return Some((&text[..end - 1], &text[end + 1..]));
        }
    }
    None
}

// Adds a line, as rows of at most 76 characters.
fn push_line(line: &[u8], text: &mut Vec<u8>) -> Result<(), Memory>
    ensures { OnOk result (text.new.items ≡ text.old.items ++ rows_text line.now) }
{
    let mut column = 0;
    let mut rest = line;
    while let [byte, after @ ..] = rest {
        column = push_byte(*byte, after.is_empty(), column, text)?;
        rest = after;
    }
    Ok(())
}

// Adds a byte of a line, with a soft break before it if it doesn't fit on a row of `column` characters. Returns how many the row
// has then.
fn push_byte(byte: u8, at_end: bool, column: usize, text: &mut Vec<u8>) -> Result<usize, Memory>
    requires { column ≤ row_width }
    ensures ok { OnOk result (text.new.items ≡ text.old.items ++ placed_unit column at_end byte) }
    ensures column { IfOk result (λ next. next ≡ column_after column at_end byte) }
    ensures bound { IfOk result (λ next. next ≤ row_width) }
{
    if is_literal(byte, at_end) {
        let start = break_row(column, 1, at_end, text)?;
        text.push(byte)?;
        return Ok(start + 1);
    }
    let start = break_row(column, 3, at_end, text)?;
    text.extend_from_slice(&escape(byte))?;
    Ok(start + 3)
}

// Adds a soft break, unless `size` characters fit on the row. Returns the column at which they begin.
fn break_row(column: usize, size: usize, at_end: bool, text: &mut Vec<u8>) -> Result<usize, Memory>
    requires in_row { column ≤ row_width }
    requires small { size ≤ 3 }
    ensures ok { OnOk result (text.new.items ≡ text.old.items ++ soft_break column size at_end) }
    ensures column { IfOk result (λ start. start ≡ unit_column column size at_end) }
    ensures bound { IfOk result (λ start. start + size ≤ row_width) }
{
    let width = if at_end { WIDTH } else { WIDTH - 1 };
    if column + size <= width {
        return Ok(column);
    }
    text.extend_from_slice(b"=\r\n")?;
    Ok(0)
}

// Returns whether a byte is written as itself.
fn is_literal(byte: u8, at_end: bool) -> bool
    ensures { result ≡ is_literal at_end byte }
{
    byte >= b' ' && byte <= b'~' && byte != b'=' && !(at_end && byte == b' ')
}

fn escape(byte: u8) -> [u8; 3]
    ensures { result ≡ escape_of byte }
{
    [b'=', upper_digit(byte / 16), upper_digit(byte % 16)]
}

fn upper_digit(value: u8) -> u8
    requires { value < 16 }
    ensures { result ≡ upper_digit value }
{
    if value < 10 {
        b'0' + value
    } else {
        b'A' - 10 + value
    }
}

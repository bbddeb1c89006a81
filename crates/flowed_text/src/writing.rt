//! Writes flowed text.
ghost use Rattle.std.specs.Prelude.{◌≡◌, ◌++◌, ◌-◌, ◌^◌, ◌<◌, false, ◌≤◌, IfOk, OnOk, IfSome, MatchOption, length, slice_index, string_bytes};
ghost use Rattle.std.specs.List.{All};
ghost use Rattle.flowed_text.specs.Paragraphs.{paras_of};
ghost use Rattle.flowed_text.specs.Flow.{IsRestorable, LeavesRoom, begins_character, line_with_ending, flow, flow_para, is_stuffed, line_break, least, may_break};

use crate::{Memory, Para};
use std::alloc::{AllocError, Global};

/// The maximum width of a line in characters, without the space at the end of one that flows.
const WIDTH: usize = 76;

/// The maximum length of a written text in bytes.
const MAX_LEN: usize = 67_108_864;

/// Writes paragraphs as a text of `format=flowed` (RFC 3676 §4.2), without DelSp.
///
/// A text that would be longer than 67,108,864 bytes is refused as out of memory before anything is allocated: the marks of each
/// line can make it far longer than its paragraphs. Reading the text returns the same paragraphs if none has CR or LF, and none but
/// `-- ` ends in a space.
pub fn write_flowed(alloc: Global, paras: &[Para]) -> Result<String, Memory>
    ensures equals { IfOk result (λ text. string_bytes text ≡ flow paras.now) }
    ensures parses { All IsRestorable paras.now → IfOk result (λ text. paras_of (string_bytes text) false ≡ paras.now) }
    ensures bounded { IfOk result (λ text. length (string_bytes text) ≤ 67108864) }
{
    let Some(len) = flowed_len(paras) else {
        return Err(AllocError);
    };
    let mut text = String::with_capacity(alloc, len)?;
    for para in paras {
        write_para(&mut text, para)?;
    }
    Ok(text)
}

/// The length of the written text in bytes, or `None` if it is more than `MAX_LEN`.
fn flowed_len(paras: &[Para]) -> Option<usize>
    ensures { MatchOption result (67108864 < length (flow paras.now)) (λ len. (len ≡ length (flow paras.now)) × (len ≤ 67108864)) }
{
    let mut left = MAX_LEN;
    for para in paras {
        left = room_after_para(left, para)?;
    }
    Some(MAX_LEN - left)
}

/// The rest of `room` bytes after a written paragraph, or `None` if it does not fit.
fn room_after_para(room: usize, para: &Para) -> Option<usize>
    ensures { LeavesRoom room (length (flow_para para.now)) result }
{
    let mut left = room;
    let mut rest = para.text.as_str();
    while let Some(end) = line_break(para.depth, rest) {
        let (text, after) = rest.split_at(end);
        left = room_after_line(left, para.depth, text)?;
        rest = after;
    }
    room_after_line(left, para.depth, rest)
}

/// The rest of `room` bytes after a written line, or `None` if it does not fit.
fn room_after_line(room: usize, depth: u32, text: &str) -> Option<usize>
    ensures { LeavesRoom room (length (line_with_ending depth text.now)) result }
{
    let frame = depth as usize + usize::from(is_stuffed(depth, text)) + 2;
    if room < frame || room - frame < text.len() {
        return None;
    }
    Some(room - frame - text.len())
}

/// Appends the lines of a paragraph.
fn write_para(out: &mut String, para: &Para) -> Result<(), Memory>
    ensures depth { para.now.depth < 2 ^ 32 }
    ensures text { OnOk result (string_bytes out.new ≡ string_bytes out.old ++ flow_para para.now) }
{
    let mut rest = para.text.as_str();
    while let Some(end) = line_break(para.depth, rest) {
        let (text, after) = rest.split_at(end);
        write_line(out, para.depth, text)?;
        rest = after;
    }
    write_line(out, para.depth, rest)
}

/// Appends a line with its ending.
fn write_line(out: &mut String, depth: u32, text: &str) -> Result<(), Memory>
    ensures { OnOk result (string_bytes out.new ≡ string_bytes out.old ++ line_with_ending depth text.now) }
{
    for _ in 0..depth {
        out.push('>')?;
    }
    if is_stuffed(depth, text) {
        out.push(' ')?;
    }
    out.push_str(text)?;
    out.push_str("\r\n")
}

/// Whether a line is stuffed with a space before its text.
fn is_stuffed(depth: u32, text: &str) -> bool
    ensures { result ≡ is_stuffed depth text.now }
{
    depth > 0 || text.starts_with(' ') || text.starts_with('>') || text.starts_with("From ")
}

/// The number of bytes after which the first line of a text ends, or `None` if the text is the last line.
fn line_break(depth: u32, text: &str) -> Option<usize>
    ensures equals { result ≡ line_break depth text.now }
    ensures within { IfSome result (λ end. end ≤ length text.now) }
    ensures space { IfSome result (λ end. (0 < end) × (slice_index text.now (end - 1) ≡ 32)) }
{
    let bytes = text.as_bytes();
    let mut width = depth as usize + usize::from(is_stuffed(depth, text));
    let mut last = None;
    let mut size = 0;
    while width <= WIDTH {
        if size == bytes.len() {
            return None;
        }
        width += usize::from(begins_character(bytes[size]));
        size += 1;
        if may_break(bytes, size) {
            last = Some(size);
        }
    }
    last.or(first_break(bytes))
}

/// Whether a byte of UTF-8 begins a character.
fn begins_character(byte: u8) -> bool
    ensures { result ≡ begins_character byte }
{
    byte < 128 || byte >= 192
}

/// The least number of bytes after which a line may end.
fn first_break(bytes: &[u8]) -> Option<usize>
    ensures { result ≡ least (may_break bytes.now) (length bytes.now) }
{
    for i in 0..bytes.len() {
        if may_break(bytes, i + 1) {
            return Some(i + 1);
        }
    }
    None
}

/// Whether a line may end after `size` bytes of a text.
fn may_break(bytes: &[u8], size: usize) -> bool
    requires some { 0 < size }
    requires within { size ≤ length bytes.now }
    ensures { result ≡ may_break bytes.now size }
{
    bytes[size - 1] == b' ' && &bytes[..size] != b"-- ".as_slice()
}

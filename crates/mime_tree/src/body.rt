//! The parts of a multipart's body.
ghost use Rattle.std.specs.Prelude.{◌≡◌, ◌<◌, ◌≤◌, ◌+◌, ◌++◌, ◌∷◌, [], length, drop, true, false, codes, IsTrue, IfOk, IfSome, IfNone, All};
ghost use Rattle.std.specs.List.{list_all};
ghost use Rattle.std.specs.Str.Lines.{strip_carriage_return};
ghost use Rattle.header_words.specs.Fields.{is_blank};
ghost use Rattle.mime_tree.specs.Body.{places, delimiters, line_of, IsWithin, is_closing_line, is_delimiter_line, has_boundary, is_opening_line, with_part};

use header_words::first_line;
use memchr::memmem::Finder;
use memchr::memrchr;
use std::alloc::{AllocError, Global};

/// A place in a text: `[from, to)`.
#[derive(Clone, Copy, Drop)]
pub struct Range {
    pub from: usize,
    pub to: usize,
}

/// Where a line begins, and where the line break before it begins.
#[derive(Clone, Copy)]
struct LineStart {
    line_break: usize,
    at: usize,
}

/// A delimiter line: where the line break before it begins, where the line after it begins, and its text.
#[derive(Clone, Copy)]
struct Delimiter<'a> {
    line_break: usize,
    next: LineStart,
    text: &'a [u8],
}

/// Returns the places of a multipart's parts in its body, if there are at most `most`.
pub fn places_within(
    alloc: Global,
    boundary: &[u8],
    text: &[u8],
    most: usize,
) -> Result<Option<Vec<Range>>, AllocError>
    ensures all { IfOk result (λ found. IfSome found (λ v. v.items ≡ places boundary.now text.now)) }
    ensures few { IfOk result (λ found. IfSome found (λ v. length v.items ≤ most)) }
    ensures within { IfOk result (λ found. IfSome found (λ v. All (IsWithin (length text.now)) v.items)) }
    ensures many { IfOk result (λ found. IfNone found (most < length (places boundary.now text.now))) }
{
    let mut needle = Vec::from_slice(alloc, b"--")?;
    needle.extend_from_slice(boundary)?;
    let finder = Finder::new(&needle);
    let mut found = Vec::new(alloc);
    let mut begun: Option<usize> = None;
    let mut start = LineStart {
        line_break: 0,
        at: 0,
    };
    while let Some(line) = next_delimiter(&finder, boundary, text, start) {
        if !push_part(&mut found, begun, line.line_break, most)? {
            return Ok(None);
        }
        if is_closing(boundary, line.text) {
            return Ok(Some(found));
        }
        begun = Some(line.next.at);
        start = line.next;
    }
    if !push_part(&mut found, begun, text.len(), most)? {
        return Ok(None);
    }
    Ok(Some(found))
}

/// Adds the part that is begun, if one is, up to a line break. Returns false, with nothing added, if there are `most` already.
fn push_part(
    found: &mut Vec<Range>,
    begun: Option<usize>,
    line_break: usize,
    most: usize,
) -> Result<bool, AllocError>
    ensures added { IfOk result (λ fits. fits ≡ true → found.new.items ≡ with_part found.old.items begun line_break) }
    ensures few { IfOk result (λ fits. fits ≡ true → length found.old.items ≤ most → length found.new.items ≤ most) }
    ensures many { IfOk result (λ fits. fits ≡ false → most < length (with_part found.old.items begun line_break)) }
{
    let Some(from) = begun else {
        return Ok(true);
    };
    if found.len() >= most {
        return Ok(false);
    }
    found.push(Range {
        from,
        to: from.max(line_break),
    })?;
    Ok(true)
}

/// Returns the next delimiter line from a line on.
fn next_delimiter<'a>(
    finder: &Finder<'_>,
    boundary: &[u8],
    text: &'a [u8],
    start: LineStart,
) -> Option<Delimiter<'a>>
    requires needle { finder.now ≡ codes "--" ++ boundary.now }
    requires within { start.at ≤ length text.now }
    requires ordered { start.line_break ≤ start.at }
    ensures first { IfSome result (λ d. delimiters boundary.now start.line_break start.at (drop start.at text.now) ≡ line_of d.line_break d.next.at d.text.now ∷ delimiters boundary.now d.next.line_break d.next.at (drop d.next.at text.now)) }
    ensures within { IfSome result (λ d. d.next.at ≤ length text.now) }
    ensures advances { IfSome result (λ d. start.at < d.next.at) }
    ensures ordered { IfSome result (λ d. d.line_break ≤ d.next.at) }
    ensures next_ordered { IfSome result (λ d. d.next.line_break ≤ d.next.at) }
    ensures none { IfNone result (delimiters boundary.now start.line_break start.at (drop start.at text.now) ≡ []) }
{
    let mut line = start;
    while line.at < text.len() {
        line = skip_to_boundary(finder, boundary, text, line)?;
        let (words, size) = first_line(&text[line.at..]);
        let next = LineStart {
            line_break: line.at + words.len(),
            at: line.at + size,
        };
        if is_delimiter(boundary, words) {
            return Some(Delimiter {
                line_break: line.line_break,
                next,
                text: words,
            });
        }
        line = next;
    }
    None
}

/// Returns the next line with `--` and the boundary in it. Lines without them are no delimiters, and most are passed over at once.
fn skip_to_boundary(
    finder: &Finder<'_>,
    boundary: &[u8],
    text: &[u8],
    start: LineStart,
) -> Option<LineStart>
    requires needle { finder.now ≡ codes "--" ++ boundary.now }
    requires within { start.at < length text.now }
    requires ordered { start.line_break ≤ start.at }
    ensures same { IfSome result (λ l. delimiters boundary.now l.line_break l.at (drop l.at text.now) ≡ delimiters boundary.now start.line_break start.at (drop start.at text.now)) }
    ensures advances { IfSome result (λ l. start.at ≤ l.at) }
    ensures within { IfSome result (λ l. l.at < length text.now) }
    ensures ordered { IfSome result (λ l. l.line_break ≤ l.at) }
    ensures none { IfNone result (delimiters boundary.now start.line_break start.at (drop start.at text.now) ≡ []) }
{
    let rest = &text[start.at..];
    let found = finder.find(rest)?;
    match memrchr(b'\n', &rest[..found]) {
        Some(feed) => Some(LineStart {
            line_break: start.at + without_return(&rest[..feed]).len(),
            at: start.at + feed + 1,
        }),
        None => Some(start),
    }
}

fn without_return(line: &[u8]) -> &[u8]
    ensures { result.now ≡ strip_carriage_return line.now }
{
    match line {
        [before @ .., b'\r'] => before,
        _ => line,
    }
}

#[tactic(auto, unfolding(crate::specs::Body::is_delimiter_line))]
fn is_delimiter(boundary: &[u8], line: &[u8]) -> bool
    ensures { result ≡ is_delimiter_line boundary.now line.now }
{
    is_opening(boundary, line) || is_closing(boundary, line)
}

fn is_opening(boundary: &[u8], line: &[u8]) -> bool
    ensures { result ≡ is_opening_line boundary.now line.now }
{
    begins_with(boundary, line) && all_blank(&line[2 + boundary.len()..])
}

#[tactic(auto, unfolding(crate::specs::Body::is_closing_line))]
fn is_closing(boundary: &[u8], line: &[u8]) -> bool
    ensures { result ≡ is_closing_line boundary.now line.now }
{
    if !begins_with(boundary, line) {
        return false;
    }
    let tail = &line[2 + boundary.len()..];
    tail.starts_with(b"--") && all_blank(&tail[2..])
}

fn begins_with(boundary: &[u8], line: &[u8]) -> bool
    ensures equals { result ≡ has_boundary boundary.now line.now }
    ensures room { IsTrue result → 2 + length boundary.now ≤ length line.now }
{
    line.starts_with(b"--") && line[2..].starts_with(boundary)
}

fn all_blank(text: &[u8]) -> bool
    ensures { result ≡ list_all is_blank text.now }
{
    text.iter().all(|b| *b == b' ' || *b == b'\t')
}

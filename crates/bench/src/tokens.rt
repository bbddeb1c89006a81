//! The tokens of an HTML text.

use html_tokens::{Memory, Part, Scanner, StartTag, read_tokens};
use std::alloc::Global;

/// The line between two texts, and after the tokens of each.
pub const SEPARATOR: &str = "====";

/// The number of spans. A text has no more of them than bytes.
pub fn count_spans(text: &str) -> usize {
    let mut scanner = Scanner::new(text);
    let mut count = 0;
    for i in 0..text.len() {
        if scanner.next().is_none() {
            break;
        }
        count = i + 1;
    }
    count
}

/// The number of spans, if the token of each is made and dropped.
pub fn count_tokens(alloc: Global, text: &str) -> Result<usize, Memory> {
    let mut scanner = Scanner::new(text);
    let mut count = 0;
    for i in 0..text.len() {
        match scanner.next() {
            None => break,
            Some(span) => {
                let _token = scanner.token(alloc, &span)?;
                count = i + 1;
            }
        }
    }
    Ok(count)
}

/// The number of attributes of all tags, which are read in place.
pub fn count_attributes(text: &str) -> usize {
    let mut scanner = Scanner::new(text);
    let mut count: usize = 0;
    for _ in 0..text.len() {
        let Some(span) = scanner.next() else {
            break;
        };
        if let Part::StartTag = span.part() {
            let tag = scanner.start_tag(&span);
            count = count.saturating_add(attributes_of(&tag, text.len()));
        }
    }
    count
}

/// The number of attributes of a tag, at most `most`.
fn attributes_of(tag: &StartTag<'_>, most: usize) -> usize {
    let mut reader = tag.attributes();
    let mut count = 0;
    for i in 0..most {
        if reader.next().is_none() {
            break;
        }
        count = i + 1;
    }
    count
}

/// The tokens of texts, one a line, and `====` after those of each text.
///
/// Each text of the input ends at a line `====`; neither that line nor the line feed before it belongs to the text. Names, values
/// and texts are quoted and escaped as Rust escapes them.
pub fn print_tokens(alloc: Global, input: &str) -> Result<String, Memory> {
    let mut lines = String::new(alloc);
    let mut text = String::new(alloc);
    let mut is_first = true;
    for line in input.split('\n') {
        if line == SEPARATOR {
            push_tokens(alloc, &mut lines, text.as_str())?;
            push_line(&mut lines, SEPARATOR)?;
            text.clear();
            is_first = true;
        } else {
            if !is_first {
                text.push('\n')?;
            }
            text.push_str(line)?;
            is_first = false;
        }
    }
    Ok(lines)
}

fn push_tokens(alloc: Global, lines: &mut String, text: &str) -> Result<(), Memory> {
    for token in read_tokens(alloc, text)? {
        push_line(lines, format!(in alloc; "{token}")?.as_str())?;
    }
    Ok(())
}

fn push_line(lines: &mut String, line: &str) -> Result<(), Memory> {
    lines.push_str(line)?;
    lines.push('\n')
}

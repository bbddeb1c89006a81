//! Reads a header.
ghost use Rattle.std.specs.Prelude.{◌≡◌, ◌≤◌, length, IfOk, OnOk};
ghost use Rattle.header_words.specs.Fields.{header_of};
ghost use Rattle.header_words.specs.Places.{with_start, with_letter};

use crate::header::Fields;
use crate::lines::{first_line, is_field};
use std::alloc::{AllocError, Global};

/// Reads the header fields of a message, up to the first empty line. A line that neither begins a field nor continues one is
/// skipped, so every message has a header, and only memory can fail.
pub fn fields(alloc: Global, bytes: &[u8]) -> Result<Fields<'_>, AllocError>
    ensures header { IfOk result (λ read. read ≡ header_of bytes.now) }
    ensures within { IfOk result (λ read. read.body ≤ length bytes.now) }
{
    let mut starts = Vec::new(alloc);
    let mut letters = Vec::new(alloc);
    let mut at = 0;
    while at < bytes.len() {
        let (line, size) = first_line(&bytes[at..]);
        if line.is_empty() {
            return Ok(Fields::of(bytes, starts, letters, at, at + size));
        }
        add_start(&mut starts, &mut letters, line, at)?;
        at += size;
    }
    Ok(Fields::of(bytes, starts, letters, at, at))
}

/// Adds the place and the first letter of a line, if it begins a field.
fn add_start(
    starts: &mut Vec<usize>,
    letters: &mut Vec<u8>,
    line: &[u8],
    at: usize,
) -> Result<(), AllocError>
    ensures starts { OnOk result (starts.new.items ≡ with_start starts.old.items line.now at) }
    ensures letters { OnOk result (letters.new.items ≡ with_letter letters.old.items line.now) }
{
    match line {
        [letter, ..] if is_field(line) => {
            starts.push(at)?;
            letters.push(*letter)?;
        }
        _ => {}
    }
    Ok(())
}

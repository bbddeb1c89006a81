//! What addresses refer to, in a message of 1,000 parts.

use cid_parts::{Memory, Ref, References};
use mime_tree::tree;
use std::alloc::Global;

/// How many parts the message has.
const PARTS: usize = 1_000;

/// How many times the base has `directory/`: it has 1,000 bytes.
const DIRECTORIES: usize = 98;

/// A message of parts that each have a Content-ID and a relative Content-Location.
pub fn message_of_parts(alloc: Global) -> Result<String, Memory> {
    let mut text = String::from_str(alloc, "Content-Type: multipart/related; boundary=b\n\n")?;
    for number in 0..PARTS {
        write!(text, "--b\nContent-ID: <part{number}@n>\n")?;
        write!(text, "Content-Location: {number}.png\n\nx\n")?;
    }
    Ok(text)
}

pub fn long_base(alloc: Global) -> Result<String, Memory> {
    let mut text = String::from_str(alloc, "http://www.e.example")?;
    for _directory in 0..DIRECTORIES {
        text.push_str("/directory")?;
    }
    Ok(text)
}

/// Counts the addresses, one a line, that refer to something.
pub fn count_references(alloc: Global, addresses: &str, below_base: bool) -> Result<usize, Memory> {
    let message = message_of_parts(alloc)?;
    let base = long_base(alloc)?;
    let read = tree(alloc, message.as_bytes())?;
    let base = below_base.then_some(base.as_str());
    let references = References::new(alloc, &read, base)?;
    let mut count: usize = 0;
    for address in addresses.lines() {
        if !matches!(references.refer(alloc, address)?, Ref::Nothing) {
            count = count.saturating_add(1);
        }
    }
    Ok(count)
}

//! The tree of a message's parts.

use itoa::Buffer;
use mail_values::{Memory, Section};
use mime_tree::{Coding, Part, Shown, best, tree};
use std::alloc::Global;

pub fn count_parts(alloc: Global, message: &[u8]) -> Result<usize, Memory> {
    Ok(tree(alloc, message)?.parts().len())
}

/// A line for each part, and one for the displayed part.
pub fn list_parts(alloc: Global, message: &[u8]) -> Result<String, Memory> {
    let tree = tree(alloc, message)?;
    let mut text = String::new(alloc);
    for part in tree.parts() {
        push_part(&mut text, alloc, part)?;
    }
    let shown = best(&tree);
    push_shown(&mut text, alloc, &shown)?;
    Ok(text)
}

fn push_section(text: &mut String, alloc: Global, section: &Section) -> Result<(), Memory> {
    let spelling = section.spell(alloc)?;
    text.push_str(spelling.as_str())
}

fn coding_name(coding: Coding) -> &'static str {
    match coding {
        Coding::Plain => "plain",
        Coding::Base64 => "base64",
        Coding::Quoted => "quoted",
    }
}

fn format_name(format: Option<bool>) -> &'static str {
    match format {
        Some(true) => "flowed+delsp",
        Some(false) => "flowed",
        None => "fixed",
    }
}

/// Appends a part's line: its section, type, charset, coding, format, disposition, size and name.
fn push_part(text: &mut String, alloc: Global, part: &Part<'_>) -> Result<(), Memory> {
    push_section(text, alloc, part.section())?;
    text.push(' ')?;
    text.push_str(part.mime())?;
    text.push(' ')?;
    text.push_str(part.charset())?;
    text.push(' ')?;
    text.push_str(coding_name(part.coding()))?;
    text.push(' ')?;
    text.push_str(format_name(part.format()))?;
    text.push_str(if part.is_attached() {
        " attached "
    } else {
        " inline "
    })?;
    text.push_str(Buffer::new().format(part.bytes().len()))?;
    text.push(' ')?;
    text.push_str(part.name())?;
    text.push('\n')
}

fn push_shown(text: &mut String, alloc: Global, shown: &Shown) -> Result<(), Memory> {
    match shown {
        Shown::Plain(section) => push_named(text, alloc, "plain", section),
        Shown::Flowed(section, true) => push_named(text, alloc, "flowed+delsp", section),
        Shown::Flowed(section, false) => push_named(text, alloc, "flowed", section),
        Shown::Html(section) => push_named(text, alloc, "html", section),
        Shown::Unread(section) => push_named(text, alloc, "unread", section),
        Shown::Nothing => text.push_str("nothing\n"),
    }
}

fn push_named(
    text: &mut String,
    alloc: Global,
    name: &str,
    section: &Section,
) -> Result<(), Memory> {
    text.push_str(name)?;
    text.push(' ')?;
    push_section(text, alloc, section)?;
    text.push('\n')
}

//! Threads of messages. A line of the input is a message: the date, the identifier, the references with spaces between them, `re`
//! for a reply, and the base subject, with `|` between them. Its UID is its number among the lines.

use header_words::Base;
use mail_values::{Bytes, Text, Words};
use std::alloc::{AllocError, Global};
use thread_references::{Facts, threads};

fn facts_of(alloc: Global, uid: u32, line: &str) -> Result<Facts, AllocError> {
    let mut fields = line.split('|');
    let sent = fields
        .next()
        .and_then(|field| field.parse().ok())
        .unwrap_or(0);
    let name = fields.next().unwrap_or("");
    let mut references = Words::new(alloc);
    for id in fields.next().unwrap_or("").split_ascii_whitespace() {
        references.push(Bytes::from_slice(alloc, id.as_bytes())?)?;
    }
    let reply = fields.next().unwrap_or("") == "re";
    let text = Text::from_text(alloc, fields.next().unwrap_or(""))?;
    let mut id = None;
    if !name.is_empty() {
        id = Some(Bytes::from_slice(alloc, name.as_bytes())?);
    }
    Ok(Facts {
        uid,
        id,
        references,
        subject: Base { text, reply },
        sent,
    })
}

fn mailbox(alloc: Global, input: &str) -> Result<Vec<Facts>, AllocError> {
    let mut facts = Vec::new(alloc);
    let mut uid: u32 = 1;
    for line in input.lines() {
        facts.push(facts_of(alloc, uid, line)?)?;
        uid = uid.saturating_add(1);
    }
    Ok(facts)
}

pub fn count_facts(alloc: Global, input: &str) -> Result<usize, AllocError> {
    Ok(mailbox(alloc, input)?.len())
}

pub fn count_roots(alloc: Global, input: &str) -> Result<usize, AllocError> {
    let facts = mailbox(alloc, input)?;
    Ok(threads(alloc, &facts)?.roots())
}

pub fn count_rows(alloc: Global, input: &str) -> Result<usize, AllocError> {
    let facts = mailbox(alloc, input)?;
    Ok(threads(alloc, &facts)?.flat(alloc)?.len())
}

/// UIDs and depths, one message a line.
pub fn list_threads(alloc: Global, input: &str) -> Result<String, AllocError> {
    let facts = mailbox(alloc, input)?;
    let rows = threads(alloc, &facts)?.flat(alloc)?;
    let mut text = String::new(alloc);
    for (uid, depth) in &rows {
        text.push_str(&format!(in alloc; "{uid} {depth}\n")?)?;
    }
    Ok(text)
}

/// Adds messages one by one to a forest without messages.
pub fn count_added(alloc: Global, input: &str) -> Result<usize, AllocError> {
    let facts = mailbox(alloc, input)?;
    let mut forest = threads(alloc, &[])?;
    for one in facts {
        forest.add(alloc, one)?;
    }
    Ok(forest.flat(alloc)?.len())
}

/// Adds all messages at once to a forest without messages.
pub fn count_added_at_once(alloc: Global, input: &str) -> Result<usize, AllocError> {
    let facts = mailbox(alloc, input)?;
    let mut forest = threads(alloc, &[])?;
    forest.add_all(alloc, &facts)?;
    Ok(forest.flat(alloc)?.len())
}

//! Runs of `show`, and what they show of a message.
use mail_io::{Bytes, Memory, MemorySink, MemorySource};
use std::alloc::Global;
use webmail_runs::{Status, run_show};

/// A run: how it ended, and what it shows of the message.
#[derive(Drop)]
pub struct Run {
    pub status: Status,
    pub mail: String,
}

/// What a page has between `<div class="mail">` and the list of parts.
fn mail_in(page: &str) -> &str {
    match page.split_once("<div class=\"mail\">") {
        Some((_, rest)) => match rest.split_once("</div>\n<ul class=\"parts\">") {
            Some((mail, _)) => mail,
            None => "no end",
        },
        None => "no mail",
    }
}

/// Runs on a message.
pub fn run_on(alloc: Global, words: &[&str], message: String) -> Result<Run, Memory> {
    let mut given = Vec::new(alloc);
    for word in words {
        given.push(String::from_str(alloc, word)?)?;
    }
    let mut source = MemorySource::new(Bytes::from_vec(message.into_bytes()), Vec::new(alloc));
    let mut sink = MemorySink::new(alloc, 8192, Vec::new(alloc))?;
    let status = run_show(alloc, &given, &mut source, &mut sink);
    let page = String::from_utf8_lossy(alloc, sink.taken())?;
    let mail = String::from_str(alloc, mail_in(&page))?;
    Ok(Run { status, mail })
}

/// `count` times a text.
pub fn push_times(text: &mut String, piece: &str, count: usize) -> Result<(), Memory> {
    for _ in 0..count {
        text.push_str(piece)?;
    }
    Ok(())
}

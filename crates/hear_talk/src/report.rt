//! What was told, as lines.
use mail_io::Memory;
use mail_talk::Listener;
use mailbox_rows::{Mailbox, Row};
use mailbox_view::View;
use std::alloc::Global;

/// The phase and the last answer, what is lacking, the folders of the last LIST, and the selected folder with its rows.
pub fn report(alloc: Global, listener: &Listener) -> Result<String, Memory> {
    let mut text = String::new(alloc);
    let told = listener.told();
    let phase = told.phase();
    write!(text, "phase {phase:?}")?;
    if let Some(answer) = told.answer() {
        let word = answer.word;
        write!(text, " {word:?}")?;
    }
    text.push('\n')?;
    list_results(alloc, &mut text, listener)?;
    list_view(alloc, &mut text, told.view())?;
    Ok(text)
}

fn list_results(alloc: Global, text: &mut String, listener: &Listener) -> Result<(), Memory> {
    let results = listener.told().results();
    for uid in 1..1_000 {
        if results.has_found(uid) {
            writeln!(text, "found {uid}")?;
        }
    }
    if let Some(message) = results.message() {
        let uid = message.uid;
        let len = message
            .body
            .as_ref()
            .map_or(0, |body| body.as_slice().len());
        writeln!(text, "body {uid} {len}")?;
    }
    Ok(())
}

fn list_view(alloc: Global, text: &mut String, view: &View) -> Result<(), Memory> {
    let capability = view.lacking_capability().unwrap_or("-");
    let enabled = view.lacking_enabled().unwrap_or("-");
    writeln!(text, "lacking {capability} {enabled}")?;
    for folder in view.folders() {
        let name = String::from_utf8_lossy(alloc, folder.name.as_slice())?;
        text.push_str("folder ")?;
        text.push_str(name.as_str())?;
        text.push('\n')?;
    }
    match view.selected() {
        Some(mailbox) => list_mailbox(alloc, text, mailbox),
        None => Ok(()),
    }
}

fn list_mailbox(alloc: Global, text: &mut String, mailbox: &Mailbox) -> Result<(), Memory> {
    let name = String::from_utf8_lossy(alloc, mailbox.name())?;
    let validity = mailbox.validity().unwrap_or(0);
    let mark = mailbox.mark();
    write!(text, "selected {validity} {mark} ")?;
    text.push_str(name.as_str())?;
    text.push('\n')?;
    for (uid, row) in mailbox.rows().iter() {
        list_row(alloc, text, *uid, row)?;
    }
    Ok(())
}

/// A row's UID, MODSEQ, internal date, size, length of the header and flags.
fn list_row(alloc: Global, text: &mut String, uid: u32, row: &Row) -> Result<(), Memory> {
    let modseq = row.modseq;
    let internal = row.internal;
    let size = row.size;
    let len = row.header.as_slice().len();
    write!(text, "row {uid} {modseq} {internal} {size} {len}")?;
    for flag in row.flags.as_slice() {
        let flag = String::from_utf8_lossy(alloc, flag.as_slice())?;
        text.push(' ')?;
        text.push_str(flag.as_str())?;
    }
    text.push('\n')
}

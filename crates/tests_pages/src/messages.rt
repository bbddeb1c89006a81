//! The pages that list messages.
use crate::pages::{framed, is_page};
use folder_pages::{Memory, list_page, search_page, thread_page};
use imap_commands::{UidRange, UidSet};
use mail_values::{Bytes, Text, Words};
use mailbox_rows::{Mailbox, Row, ViewFault};
use std::alloc::Global;
use std::test::*;

/// A message that was read, with this header.
fn seen_row(alloc: Global, header: &[u8]) -> Result<Row, Memory> {
    let mut flags = Words::new(alloc);
    flags.push(Bytes::from_slice(alloc, b"\\Seen")?)?;
    Ok(Row {
        flags,
        modseq: 20,
        internal: 1_767_225_600,
        size: 10,
        header: Bytes::from_slice(alloc, header)?,
    })
}

/// Two messages, one with a date of its own.
fn two_messages(alloc: Global) -> Result<Mailbox, ViewFault> {
    let mut mailbox = Mailbox::new(alloc, Bytes::from_slice(alloc, b"INBOX")?);
    let dated = seen_row(alloc, b"Date: Fri, 2 Jan 2026 09:00:00 +0000\r\n\r\n")?;
    mailbox.put(7, dated)?;
    let plain = seen_row(alloc, b"From: a@b.example\r\nSubject: s\r\n\r\n")?;
    mailbox.put(5, plain)?;
    Ok(mailbox)
}

const DATED: &str =
    "<td></td><td><a href=\"/show/8/7?f=INBOX\">(no subject)</a></td><td>2026-01-02 09:00</td><td>10</td></tr>";

const PLAIN: &str =
    "<td>a@b.example</td><td><a href=\"/show/8/5?f=INBOX\">s</a></td><td>2026-01-01 00:00</td><td>10</td></tr>";

/// The page of a table with some rows, each with its class.
fn table(alloc: Global, rows: &[(&str, &str)], pages: &str) -> Result<String, Memory> {
    let mut content = String::from_str(alloc, "<h1>INBOX</h1>\n<table class=\"list\">")?;
    for (class, row) in rows {
        write!(content, "<tr class=\"{class}\">{row}")?;
    }
    write!(content, "</table>\n<p class=\"pages\">{pages}</p>")?;
    framed(alloc, "INBOX", &content)
}

#[test]
fn lists_the_newest_first(rt: HostRuntime) -> Result<(), Fail> {
    let alloc: Global = rt.alloc();
    let folder = Text::from_text(alloc, "INBOX")?;
    let mailbox = two_messages(alloc)?;
    let page = list_page(alloc, &folder, 8, mailbox.rows(), 1)?;
    let want = table(alloc, &[("seen", DATED), ("seen", PLAIN)], "Page 1 of 1")?;
    assert!(rt; is_page(&page, &want));
    Ok(())
}

#[test]
fn lists_what_was_found(rt: HostRuntime) -> Result<(), Fail> {
    let alloc: Global = rt.alloc();
    let folder = Text::from_text(alloc, "INBOX")?;
    let mut ranges = Vec::new(alloc);
    ranges.push(UidRange::between(1, 6))?;
    let found = UidSet::of(alloc, ranges)?;
    let mailbox = two_messages(alloc)?;
    let page = search_page(alloc, &folder, 8, mailbox.rows(), &found, 1)?;
    let want = table(alloc, &[("seen", PLAIN)], "Page 1 of 1")?;
    assert!(rt; is_page(&page, &want));
    Ok(())
}

#[test]
fn lists_threads(rt: HostRuntime) -> Result<(), Fail> {
    let alloc: Global = rt.alloc();
    let folder = Text::from_text(alloc, "INBOX")?;
    let mailbox = two_messages(alloc)?;
    let page = thread_page(alloc, &folder, 8, mailbox.rows(), &[(5, 0), (7, 17)], 1)?;
    let want = table(alloc, &[("d0", PLAIN), ("d16", DATED)], "Page 1 of 1")?;
    assert!(rt; is_page(&page, &want));
    Ok(())
}

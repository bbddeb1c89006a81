//! Pages of a long mailbox, drawn again and again, for `bench/mail_pages.py`.
use crate::lists::{VALIDITY, folder};
use crate::mailbox;
use folder_pages::{list_page, thread_page};
use mail_io::Memory;
use mail_pages::PageBytes;
use mailbox_rows::{Mailbox, ViewFault};
use std::alloc::Global;

const HEADER: &str =
    "From: Bea Frei <bea@college.example>\r\nSubject: =?utf-8?q?Proben_im_Caf=C3=A9?=\r\nDate: Mon, 5 Jan 2026 08:15:00 +0000\r\n\r\n";

/// A folder with messages of the UIDs from 1 on.
fn filled(alloc: Global, count: u32) -> Result<Mailbox, ViewFault> {
    let mut mailbox = mailbox::empty(alloc)?;
    for uid in 1..=count {
        mailbox.put(uid, mailbox::row(alloc, "\\Seen", 1_204, HEADER)?)?;
    }
    Ok(mailbox)
}

/// Threads of one message each.
fn flat(alloc: Global, count: u32) -> Result<Vec<(u32, u32)>, Memory> {
    let mut flat = Vec::new(alloc);
    for uid in 1..=count {
        flat.push((uid, 0))?;
    }
    Ok(flat)
}

/// Draws a page of a list some times, and returns the last one.
pub fn list(
    alloc: Global,
    count: u32,
    times: u32,
    page: u32,
) -> Result<Option<PageBytes>, ViewFault> {
    let mailbox = filled(alloc, count)?;
    let folder = folder(alloc)?;
    let mut drawn = None;
    for _ in 0..times {
        drawn = Some(list_page(alloc, &folder, VALIDITY, mailbox.rows(), page)?);
    }
    Ok(drawn)
}

/// Draws a page of threads some times, and returns the last one.
pub fn threads(
    alloc: Global,
    count: u32,
    times: u32,
    page: u32,
) -> Result<Option<PageBytes>, ViewFault> {
    let mailbox = filled(alloc, count)?;
    let flat = flat(alloc, count)?;
    let folder = folder(alloc)?;
    let mut drawn = None;
    for _ in 0..times {
        drawn = Some(thread_page(alloc, &folder, VALIDITY, mailbox.rows(), &flat, page)?);
    }
    Ok(drawn)
}

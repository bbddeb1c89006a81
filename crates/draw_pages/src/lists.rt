//! The pages that list the folders and messages of the made-up mailbox.
use crate::mailbox;
use folder_pages::{folder_page, list_page, search_page, thread_page};
use imap_commands::{UidRange, UidSet};
use mail_io::Memory;
use mail_pages::{PageBytes, Text};
use mailbox_rows::ViewFault;
use std::alloc::Global;

/// The UIDVALIDITY of the folder.
pub const VALIDITY: u32 = 8;

/// The UID and the depth of each message, in the order of the threads.
const FLAT: [(u32, u32); 12] = [
    (6, 0),
    (1, 0),
    (2, 0),
    (3, 1),
    (4, 2),
    (7, 1),
    (5, 0),
    (8, 1),
    (9, 2),
    (10, 3),
    (11, 0),
    (12, 0),
];

/// The folder whose messages are listed.
pub fn folder(alloc: Global) -> Result<Text, Memory> {
    Text::from_text(alloc, "Choir & Café")
}

pub fn folders(alloc: Global) -> Result<PageBytes, Memory> {
    folder_page(alloc, &mailbox::folders(alloc)?)
}

pub fn list(alloc: Global) -> Result<PageBytes, ViewFault> {
    let mailbox = mailbox::filled(alloc)?;
    let page = list_page(alloc, &folder(alloc)?, VALIDITY, mailbox.rows(), 1)?;
    Ok(page)
}

/// The page of a search that found some of the messages.
pub fn search(alloc: Global) -> Result<PageBytes, ViewFault> {
    let mut ranges = Vec::new(alloc);
    ranges.push(UidRange::between(2, 5))?;
    ranges.push(UidRange::between(9, 9))?;
    let found = UidSet::of(alloc, ranges)?;
    let mailbox = mailbox::filled(alloc)?;
    let page = search_page(alloc, &folder(alloc)?, VALIDITY, mailbox.rows(), &found, 1)?;
    Ok(page)
}

pub fn threads(alloc: Global) -> Result<PageBytes, ViewFault> {
    let mailbox = mailbox::filled(alloc)?;
    let page = thread_page(alloc, &folder(alloc)?, VALIDITY, mailbox.rows(), &FLAT, 1)?;
    Ok(page)
}

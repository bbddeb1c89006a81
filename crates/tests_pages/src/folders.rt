//! The page that lists the folders.
use crate::pages::{framed, is_page};
use folder_pages::{Memory, folder_page};
use mail_values::{Bytes, Words};
use mailbox_rows::Folder;
use std::alloc::Global;
use std::test::*;

fn folder(alloc: Global, name: &[u8], attribute: &[u8]) -> Result<Folder, Memory> {
    let mut attributes = Words::new(alloc);
    attributes.push(Bytes::from_slice(alloc, attribute)?)?;
    Ok(Folder {
        name: Bytes::from_slice(alloc, name)?,
        attributes,
    })
}

/// Folders in another order than that of the page.
fn folders(alloc: Global) -> Result<Vec<Folder>, Memory> {
    let mut folders = Vec::new(alloc);
    folders.push(folder(alloc, b"b", b"\\Sent")?)?;
    folders.push(folder(alloc, b"a\xFF", b"\\HasNoChildren")?)?;
    folders.push(folder(alloc, b"INBOX", b"\\HasNoChildren")?)?;
    folders.push(folder(alloc, b"A & b", b"\\noselect")?)?;
    Ok(folders)
}

const ITEMS: &str =
    "<h1>Folders</h1>\n<ul class=\"folders\"><li><a href=\"/list?f=INBOX\">INBOX</a></li><li>A &amp; b</li><li>a\u{FFFD}</li><li><a href=\"/list?f=b\">b</a> Sent</li></ul>";

#[test]
fn lists_folders(rt: HostRuntime) -> Result<(), Fail> {
    let alloc: Global = rt.alloc();
    let page = folder_page(alloc, &folders(alloc)?)?;
    let want = framed(alloc, "Folders", ITEMS)?;
    assert!(rt; is_page(&page, &want));
    Ok(())
}

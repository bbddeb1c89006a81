//! The rows of a folder: told in any order, changed, removed, and too many.
use imap_commands::{UidRange, UidSet};
use mail_io::{Bytes, Memory, Words};
use mailbox_rows::{Fields, Mailbox, Row, ViewFault};
use std::alloc::Global;
use std::test::*;

fn row(alloc: Global, modseq: u64, header: Bytes) -> Row {
    Row {
        flags: Words::new(alloc),
        modseq,
        internal: 0,
        size: 9,
        header,
    }
}

fn put(alloc: Global, folder: &mut Mailbox, uid: u32) -> Result<(), ViewFault> {
    let header = Bytes::from_slice(alloc, b"")?;
    folder.put(uid, row(alloc, 1, header))
}

fn folder_of(alloc: Global, uids: &[u32]) -> Result<Mailbox, ViewFault> {
    let mut folder = Mailbox::new(alloc, Bytes::from_slice(alloc, b"INBOX")?);
    folder.set_validity(8);
    for uid in uids {
        put(alloc, &mut folder, *uid)?;
    }
    folder.raise_mark(20);
    Ok(folder)
}

/// The UIDs with their MODSEQs, and the mark.
fn shown(alloc: Global, folder: &Mailbox) -> Result<String, Memory> {
    let mut text = String::new(alloc);
    for (uid, row) in folder.rows().iter() {
        let modseq = row.modseq;
        write!(text, "{uid}:{modseq} ")?;
    }
    let mark = folder.mark();
    write!(text, "mark {mark}")?;
    Ok(text)
}

fn set(alloc: Global, first: u32, last: u32) -> Result<UidSet, Memory> {
    let mut ranges = Vec::new(alloc);
    ranges.push(UidRange::between(first, last))?;
    UidSet::of(alloc, ranges)
}

fn modseq_of(uid: u32, modseq: u64) -> Fields {
    Fields {
        uid: Some(uid),
        flags: None,
        modseq: Some(modseq),
        internal: None,
        size: None,
        header: None,
    }
}

#[test]
fn rows_that_come_and_go(rt: HostRuntime) -> Result<(), Fail> {
    let alloc: Global = rt.alloc();
    let mut folder = folder_of(alloc, &[9, 5, 7, 5])?;
    assert_eq!(rt; shown(alloc, &folder)?.as_str(), "5:1 7:1 9:1 mark 20");
    folder.change(7, modseq_of(7, 31));
    folder.change(6, modseq_of(6, 32));
    assert_eq!(rt; shown(alloc, &folder)?.as_str(), "5:1 7:31 9:1 mark 20");
    folder.vanish(&set(alloc, 8, 4_000_000_000)?);
    folder.set_validity(8);
    assert_eq!(rt; shown(alloc, &folder)?.as_str(), "5:1 7:31 mark 20");
    folder.set_validity(9);
    assert_eq!(rt; shown(alloc, &folder)?.as_str(), "mark 0");
    assert_eq!(rt; folder.validity(), Some(9));
    Ok(())
}

#[test]
fn too_many_rows(rt: HostRuntime) -> Result<(), Fail> {
    let alloc: Global = rt.alloc();
    let mut folder = folder_of(alloc, &[])?;
    for uid in 1..50_001 {
        put(alloc, &mut folder, uid)?;
    }
    put(alloc, &mut folder, 50_000)?;
    assert_eq!(rt; folder.rows().len(), 50_000);
    let many = ViewFault::TooMany {
        rows: 50_001,
        bytes: 0,
    };
    assert_eq!(rt; put(alloc, &mut folder, 50_001), Err(many));
    assert_eq!(rt; shown(alloc, &folder)?.as_str(), "mark 0");
    Ok(())
}

#[test]
fn too_many_header_bytes(rt: HostRuntime) -> Result<(), Fail> {
    let alloc: Global = rt.alloc();
    let mut folder = folder_of(alloc, &[])?;
    let bytes = Vec::from_elem(alloc, b'x', 16_777_216)?;
    folder.put(1, row(alloc, 1, Bytes::from_vec(bytes)))?;
    let letter = Bytes::from_slice(alloc, b"x")?;
    let many = ViewFault::TooMany {
        rows: 2,
        bytes: 16_777_217,
    };
    assert_eq!(rt; folder.put(2, row(alloc, 1, letter)), Err(many));
    assert_eq!(rt; folder.rows().len(), 0);
    Ok(())
}

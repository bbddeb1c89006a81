//! Drafts made from messages.
use account_pictures::{Address, Identity};
use draft_sources::{draft_of, first_identity, new_draft};
use mail_values::{Memory, Text};
use site_asks::How;
use std::alloc::Global;
use std::test::Fail;

const LETTER: &[u8] =
    b"From: Ann <ann@c.example>\r\nTo: bob@d.example\r\nSubject: [x] Re: Lunch\r\nMessage-ID: <b@y>\r\nReferences: <a@x>\r\n\r\nOne?\r\n> Two";

fn inbox(alloc: Global) -> Result<Address, Memory> {
    Ok(Address {
        folder: Text::from_text(alloc, "INBOX")?,
        validity: 8,
        uid: 5,
    })
}

fn identity(alloc: Global, number: u8) -> Result<(u8, Identity), Memory> {
    let ann = Identity {
        name: Text::from_text(alloc, "Ann")?,
        address: Text::from_text(alloc, "ann@c.example")?,
    };
    Ok((number, ann))
}

#[test]
fn answers(rt: HostRuntime) -> Result<(), Fail> {
    let alloc = rt.alloc();
    let draft = draft_of(alloc, LETTER, How::Reply, &inbox(alloc)?, 42, 1)?;
    assert_eq!(rt; draft.to.as_str(), "Ann <ann@c.example>");
    assert_eq!(rt; draft.subject.as_str(), "Re: Lunch");
    assert_eq!(rt; draft.text.as_str(), "> One?\n>> Two\n");
    assert_eq!(rt; draft.refs.as_str(), "<a@x> <b@y>");
    Ok(())
}

#[test]
fn forwards(rt: HostRuntime) -> Result<(), Fail> {
    let alloc = rt.alloc();
    let draft = draft_of(alloc, LETTER, How::Forward, &inbox(alloc)?, 42, 1)?;
    assert_eq!(rt; draft.subject.as_str(), "Fwd: Lunch");
    assert_eq!(rt; draft.text.as_str(), "One?\n> Two\n");
    Ok(())
}

#[test]
fn edits(rt: HostRuntime) -> Result<(), Fail> {
    let alloc = rt.alloc();
    let draft = draft_of(alloc, LETTER, How::Edit, &inbox(alloc)?, 42, 1)?;
    assert_eq!(rt; draft.subject.as_str(), "[x] Re: Lunch");
    assert_eq!(rt; draft.refs.as_str(), "<a@x>");
    assert!(rt; draft.old.is_some());
    Ok(())
}

#[test]
fn begins_with_the_first_identity(rt: HostRuntime) -> Result<(), Fail> {
    let alloc = rt.alloc();
    let kept = vec![in alloc; identity(alloc, 5)?, identity(alloc, 2)?]?;
    let draft = new_draft(alloc, 42, first_identity(&kept));
    assert_eq!(rt; draft.identity, 2);
    assert!(rt; draft.old.is_none());
    Ok(())
}

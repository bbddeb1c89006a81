use account_pictures::Identity;
use compose_drafts::{DraftFault, build, build_draft, recipients};
use mail_values::Text;
use site_asks::Draft;
use std::alloc::{AllocError, Global};
use std::test::Fail;

/// The first second of 2026.
const NEW_YEAR: i64 = 1_767_225_600;

/// A draft of form 42 without copies.
fn draft(
    alloc: Global,
    to: &str,
    subject: &str,
    refs: &str,
    text: &str,
) -> Result<Draft, AllocError> {
    Ok(Draft {
        form: 42,
        identity: 1,
        to: Text::from_text(alloc, to)?,
        cc: Text::from_text(alloc, "")?,
        subject: Text::from_text(alloc, subject)?,
        text: Text::from_text(alloc, text)?,
        refs: Text::from_text(alloc, refs)?,
        old: None,
    })
}

fn identity(alloc: Global, name: &str, address: &str) -> Result<Identity, AllocError> {
    Ok(Identity {
        name: Text::from_text(alloc, name)?,
        address: Text::from_text(alloc, address)?,
    })
}

/// The message as a text, or its fault.
fn shown(alloc: Global, built: Result<Vec<u8>, DraftFault>) -> Result<String, AllocError> {
    match built {
        Ok(bytes) => String::from_utf8_lossy(alloc, &bytes),
        Err(DraftFault::NoRecipient) => String::from_str(alloc, "nobody"),
        Err(DraftFault::NotAddress { field, at }) => {
            let field = field.into_string();
            format!(in alloc; "{field} {at}")
        }
        Err(DraftFault::Long { bytes }) => format!(in alloc; "long {bytes}"),
        Err(DraftFault::Memory) => Err(AllocError),
    }
}

#[test]
fn builds_messages(rt: HostRuntime) -> Result<(), Fail> {
    let alloc = rt.alloc();
    let ann = identity(alloc, "Ann", "ann@c.example")?;
    for (refs, text, want) in [
        (
            "",
            "Hello",
            "Date: Thu, 01 Jan 2026 00:00:00 +0000\r\nFrom: \"Ann\" <ann@c.example>\r\nTo: bob@d.example\r\nSubject: =?utf-8?B?Q2Fmw6k=?=\r\nMessage-ID: <000000000000002a@c.example>\r\nMIME-Version: 1.0\r\nContent-Type: text/plain; charset=utf-8; format=flowed\r\nContent-Transfer-Encoding: 7bit\r\n\r\nHello\r\n",
        ),
        (
            "<a@x> <b@y>",
            "Ol\u{e9} \n-- \nAnn",
            "Date: Thu, 01 Jan 2026 00:00:00 +0000\r\nFrom: \"Ann\" <ann@c.example>\r\nTo: bob@d.example\r\nSubject: =?utf-8?B?Q2Fmw6k=?=\r\nIn-Reply-To: <b@y>\r\nReferences: <a@x>\r\n <b@y>\r\nMessage-ID: <000000000000002a@c.example>\r\nMIME-Version: 1.0\r\nContent-Type: text/plain; charset=utf-8; format=flowed\r\nContent-Transfer-Encoding: quoted-printable\r\n\r\nOl=C3=A9\r\n--=20\r\nAnn\r\n",
        ),
    ] {
        let draft = draft(alloc, "bob@d.example", "Caf\u{e9}", refs, text)?;
        let message = shown(alloc, build(alloc, &draft, &ann, NEW_YEAR))?;
        assert_eq!(rt; message.as_str(), want);
    }
    Ok(())
}

#[test]
fn refuses_drafts(rt: HostRuntime) -> Result<(), Fail> {
    let alloc = rt.alloc();
    for (to, address, want) in [
        ("bob@", "ann@c.example", "to 4"),
        ("  ", "ann@c.example", "nobody"),
        ("", "ann", "nobody"),
        ("bob@d.example", "", "identity 0"),
        ("bob@d.example", "ann", "identity 3"),
        (
            "bob@d.example",
            "ann@c.example, bob@d.example",
            "identity 0",
        ),
        ("bob@d.example", "<ann@c.example>", "identity 0"),
    ] {
        let ann = identity(alloc, "", address)?;
        let draft = draft(alloc, to, "", "", "")?;
        let answer = shown(alloc, build(alloc, &draft, &ann, NEW_YEAR))?;
        assert_eq!(rt; answer.as_str(), want, "{to} {address}");
    }
    Ok(())
}

#[test]
fn saves_drafts(rt: HostRuntime) -> Result<(), Fail> {
    let alloc = rt.alloc();
    let nobody = identity(alloc, "", "ann")?;
    let draft = draft(alloc, " bob@, Ann", "", "", "")?;
    let message = shown(alloc, build_draft(alloc, &draft, &nobody, i64::MAX))?;
    assert_eq!(rt;
        message.as_str(),
        "Date: Thu, 01 Jan 1970 00:00:00 +0000\r\nTo:  bob@, Ann\r\nSubject: \r\nMessage-ID: <000000000000002a@webmail>\r\nMIME-Version: 1.0\r\nContent-Type: text/plain; charset=utf-8; format=flowed\r\nContent-Transfer-Encoding: 7bit\r\n\r\n"
    );
    Ok(())
}

#[test]
fn keeps_the_limit_of_texts(rt: HostRuntime) -> Result<(), Fail> {
    let alloc = rt.alloc();
    let ann = identity(alloc, "", "ann@c.example")?;
    for (size, want) in [(524_288, "ok"), (524_289, "long 524289")] {
        let mut text = String::new(alloc);
        for _ in 0..size {
            text.push('x')?;
        }
        let draft = draft(alloc, "bob@d.example", "", "", &text)?;
        let answer = match build(alloc, &draft, &ann, 0) {
            Ok(_) => String::from_str(alloc, "ok")?,
            fault => shown(alloc, fault)?,
        };
        assert_eq!(rt; answer.as_str(), want);
    }
    Ok(())
}

/// The addresses to which a draft is sent, each with `;`, or its fault.
fn sent_to(alloc: Global, to: &str, cc: &str) -> Result<String, AllocError> {
    let mut draft = draft(alloc, to, "", "", "")?;
    draft.cc = Text::from_text(alloc, cc)?;
    match recipients(alloc, &draft) {
        Ok(found) => {
            let mut out = String::new(alloc);
            for one in &found {
                out.push_str(one.as_str())?;
                out.push_str(";")?;
            }
            Ok(out)
        }
        Err(fault) => shown(alloc, Err(fault)),
    }
}

#[test]
fn sends_to_all_boxes(rt: HostRuntime) -> Result<(), Fail> {
    let alloc = rt.alloc();
    for (to, cc, want) in [
        (
            "Ann <ann@c.example>, bob@d.example",
            "bob@d.example",
            "ann@c.example;bob@d.example;bob@d.example;",
        ),
        (" ", "a@b", "a@b;"),
        (" ", "", "nobody"),
        ("a@b", "bob@", "cc 4"),
    ] {
        let found = sent_to(alloc, to, cc)?;
        assert_eq!(rt; found.as_str(), want, "{to} {cc}");
    }
    Ok(())
}

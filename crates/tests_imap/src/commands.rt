use imap_commands::{Command, Known, Label, Memory, write};
use mail_values::{Bytes, Text};
use std::alloc::Global;
use std::test::Fail;

/// The pieces of a command, with `|` between two.
fn said(alloc: Global, command: &Command) -> Result<String, Memory> {
    let pieces = write(alloc, command, 7)?;
    let mut text = String::new(alloc);
    for piece in &pieces {
        if !text.is_empty() {
            text.push('|')?;
        }
        text.push_str(&String::from_utf8_lossy(alloc, piece)?)?;
    }
    Ok(text)
}

#[test]
fn says_plain_commands(rt: HostRuntime) -> Result<(), Fail> {
    let alloc = rt.alloc();
    for (command, want) in [
        (Command::Capability, "A7 CAPABILITY\r\n"),
        (Command::Enable, "A7 ENABLE IMAP4rev2 QRESYNC\r\n"),
        (Command::List, "A7 LIST \"\" \"*\"\r\n"),
        (Command::Noop, "A7 NOOP\r\n"),
        (
            Command::FetchNew { from: 8 },
            "A7 UID FETCH 8:* (UID FLAGS MODSEQ INTERNALDATE RFC822.SIZE BODY.PEEK[HEADER.FIELDS (DATE FROM TO CC SUBJECT MESSAGE-ID IN-REPLY-TO REFERENCES)])\r\n",
        ),
        (
            Command::FetchChanged { mark: 20 },
            "A7 UID FETCH 1:* (UID FLAGS MODSEQ) (CHANGEDSINCE 20 VANISHED)\r\n",
        ),
        (
            Command::FetchBody { uid: 4_294_967_295 },
            "A7 UID FETCH 4294967295 (UID BODY.PEEK[])\r\n",
        ),
        (
            Command::Store {
                uid: 5,
                label: Label::Deleted,
                on: true,
            },
            "A7 UID STORE 5 +FLAGS (\\Deleted)\r\n",
        ),
        (
            Command::Store {
                uid: 5,
                label: Label::Seen,
                on: false,
            },
            "A7 UID STORE 5 -FLAGS (\\Seen)\r\n",
        ),
        (Command::Expunge { uid: 5 }, "A7 UID EXPUNGE 5\r\n"),
    ] {
        assert_eq!(rt; said(alloc, &command)?.as_str(), want);
    }
    Ok(())
}

#[test]
fn says_texts(rt: HostRuntime) -> Result<(), Fail> {
    let alloc = rt.alloc();
    let login = Command::Login {
        user: Text::from_text(alloc, "a\"b")?,
        password: Text::from_text(alloc, "p\u{E9}")?,
    };
    assert_eq!(rt;
        said(alloc, &login)?.as_str(),
        "A7 LOGIN \"a\\\"b\" {3}\r\n|p\u{E9}\r\n"
    );
    let select = Command::Select {
        folder: Text::from_text(alloc, "INBOX")?,
        known: Some(Known {
            validity: 8,
            mark: 20,
        }),
    };
    assert_eq!(rt;
        said(alloc, &select)?.as_str(),
        "A7 SELECT \"INBOX\" (QRESYNC (8 20))\r\n"
    );
    let moved = Command::Move {
        uid: 7,
        to: Text::from_text(alloc, "Archive")?,
    };
    assert_eq!(rt;
        said(alloc, &moved)?.as_str(),
        "A7 UID MOVE 7 \"Archive\"\r\n"
    );
    let search = Command::Search {
        words: Text::from_text(alloc, "two\r\nlines")?,
    };
    assert_eq!(rt;
        said(alloc, &search)?.as_str(),
        "A7 UID SEARCH RETURN (ALL) TEXT {10}\r\n|two\r\nlines\r\n"
    );
    for (label, flags) in [(Some(Label::Draft), "\\Draft"), (None, "")] {
        let append = Command::Append {
            folder: Text::from_text(alloc, "Drafts")?,
            label,
            message: Bytes::from_slice(alloc, b"Subject: x\r\n\r\ny")?,
        };
        let mut want = String::new(alloc);
        write!(
            want,
            "A7 APPEND \"Drafts\" ({flags}) {{15}}\r\n|Subject: x\r\n\r\ny\r\n"
        )?;
        assert_eq!(rt; said(alloc, &append)?.as_str(), want.as_str());
    }
    Ok(())
}

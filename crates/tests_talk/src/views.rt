//! What a view shows after dials, commands and responses.
use imap_commands::Command;
use imap_grammar::read_response;
use mail_io::{Memory, Text};
use mailbox_view::{Mailbox, View, ViewFault};
use std::alloc::Global;
use std::test::*;

/// The names of folders in the tables.
static NAMES: [&str; 7] = ["INBOX", "Archive", "b", "c", "d", "e", "\u{e9}"];

/// Events, and what is shown after them: the folders that were selected, or the last LIST.
static TALKS: [(&str, &str); 25] = [
    // rows and the mark
    ("", "INBOX 8: 5=3 7=4 mark 20 selected"),
    (
        ">changed|* 1 FETCH (UID 5 MODSEQ (31))|A3 OK x",
        "INBOX 8: 5=31 7=4 mark 31 selected",
    ),
    (
        ">changed|* 1 FETCH (UID 5 MODSEQ (31))|A3 NO x",
        "INBOX 8: 5=31 7=4 mark 20 selected",
    ),
    (
        ">changed|* 1 FETCH (MODSEQ (31))|A3 OK x",
        "INBOX 8: 5=3 7=4 mark 20 selected",
    ),
    (
        ">new 8|row 8 40|A3 OK x",
        "INBOX 8: 5=3 7=4 8=40 mark 20 selected",
    ),
    (
        ">noop|* 1 FETCH (UID 6 MODSEQ (9))|A3 OK x",
        "INBOX 8: 5=3 7=4 mark 20 selected",
    ),
    // messages that go
    (
        ">noop|* VANISHED 7|A3 OK x",
        "INBOX 8: 5=3 mark 20 selected",
    ),
    (
        ">changed|* VANISHED (EARLIER) 1:5|A3 OK x",
        "INBOX 8: 7=4 mark 20 selected",
    ),
    (">noop|* 1 EXPUNGE|A3 OK x", "INBOX 8: mark 0 selected"),
    // tags
    ("* VANISHED 7", "INBOX 8: 5=3 7=4 mark 20 selected"),
    (
        ">changed|* 1 FETCH (UID 5 MODSEQ (31))|A03 OK x|A4 OK x|B3 OK x|A OK x|A33 OK x",
        "INBOX 8: 5=31 7=4 mark 20 selected",
    ),
    (
        ">changed|* 1 FETCH (UID 5 MODSEQ (31))|A4294967299 OK x",
        "INBOX 8: 5=31 7=4 mark 20 selected",
    ),
    // dials and SELECT
    ("dial", "INBOX 8: 5=3 7=4 mark 20"),
    ("fresh", ""),
    (
        "dial|>select INBOX|* OK [UIDVALIDITY 9] x|A1 OK x",
        "INBOX 9: mark 0 selected",
    ),
    (
        "dial|>select INBOX|* OK [UIDVALIDITY 8] x|A1 OK x",
        "INBOX 8: 5=3 7=4 mark 20 selected",
    ),
    (
        ">select Archive|* VANISHED 7|* OK [CLOSED] x|* OK [UIDVALIDITY 3] x|* VANISHED 5|A3 OK x",
        "INBOX 8: 5=3 mark 20|Archive 3: mark 0 selected",
    ),
    (
        ">select Archive|* OK [CLOSED] x|A3 NO x",
        "INBOX 8: 5=3 7=4 mark 20|Archive -: mark 0",
    ),
    (
        ">select INBOX|* VANISHED 7|A3 OK x",
        "INBOX 8: 5=3 mark 20 selected",
    ),
    (
        ">select b|>select c|>select INBOX|>select d|>select e",
        "INBOX 8: 5=3 7=4 mark 20|c -: mark 0|d -: mark 0|e -: mark 0 selected",
    ),
    // a name that is a literal
    (">select \u{e9}", "INBOX 8: 5=3 7=4 mark 20 selected"),
    (
        ">select \u{e9}|+ go",
        "INBOX 8: 5=3 7=4 mark 20|\u{e9} -: mark 0 selected",
    ),
    (">select \u{e9}|A3 NO x", "INBOX 8: 5=3 7=4 mark 20"),
    // folders
    (
        "fresh|>list|* LIST () \"/\" INBOX|* LIST () \"/\" b|A1 OK x|>list|* LIST () \"/\" c|A2 NO x",
        "listed INBOX b",
    ),
    ("fresh|>list|* LIST () \"/\" INBOX", ""),
];

/// Events on a new connection, and the names that are lacking by CAPABILITY, by ENABLED and by SELECT.
static LACKS: [(&str, &str); 6] = [
    ("", "IMAP4rev2 QRESYNC UIDVALIDITY"),
    (
        ">capability|* CAPABILITY imap4REV2 IDLE|A1 OK x",
        "QRESYNC QRESYNC UIDVALIDITY",
    ),
    (
        ">capability|* CAPABILITY IMAP4rev1 QRESYNC|A1 OK x",
        "IMAP4rev2 QRESYNC UIDVALIDITY",
    ),
    (
        ">capability|* CAPABILITY IMAP4rev2|* CAPABILITY QRESYNC|A1 OK x|>enable|* ENABLED qresync|A2 OK x",
        "- - UIDVALIDITY",
    ),
    (
        ">select INBOX|* OK [UIDVALIDITY 3] x|A1 OK x",
        "IMAP4rev2 QRESYNC -",
    ),
    (
        ">select INBOX|* OK [UIDVALIDITY 3] x|* OK [NOMODSEQ] x|A1 OK x",
        "IMAP4rev2 QRESYNC MODSEQ",
    ),
];

const OPENING: &str =
    "fresh|>select INBOX|* OK [UIDVALIDITY 8] x|* OK [HIGHESTMODSEQ 20] x|A1 OK x|>new 1|row 7 4|row 5 3|A2 OK x";

pub fn command_of(alloc: Global, text: &str) -> Result<Command, Memory> {
    let (name, rest) = text.split_once(' ').unwrap_or((text, ""));
    let number = rest.parse::<u32>().unwrap_or(0);
    Ok(match name {
        "capability" => Command::Capability,
        "enable" => Command::Enable,
        "list" => Command::List,
        "select" => Command::Select {
            folder: Text::from_text(alloc, rest)?,
            known: None,
        },
        "new" => Command::FetchNew { from: number },
        "changed" => Command::FetchChanged { mark: 20 },
        "body" => Command::FetchBody { uid: number },
        "search" => Command::Search {
            words: Text::from_text(alloc, rest)?,
        },
        "login" => Command::Login {
            user: Text::from_text(alloc, rest)?,
            password: Text::from_text(alloc, "x")?,
        },
        _ => Command::Noop,
    })
}

/// Applies a unit. `row` and two numbers is a FETCH of all that a row has.
fn hear(alloc: Global, view: &mut View, text: &str) -> Result<(), ViewFault> {
    let unit = match text.strip_prefix("row ") {
        Some(numbers) => {
            let (uid, modseq) = numbers.split_once(' ').unwrap_or((numbers, ""));
            format!(in alloc;
                "* 1 FETCH (UID {uid} MODSEQ ({modseq}) FLAGS () INTERNALDATE \"17-Jul-1996 02:44:25 -0700\" RFC822.SIZE 9 BODY[HEADER] \"\")\r\n"
            )?
        }
        None => format!(in alloc; "{text}\r\n")?,
    };
    if let Some(response) = read_response(alloc, unit.as_bytes())? {
        view.apply(&response)?;
    }
    Ok(())
}

fn tell(alloc: Global, view: &mut View, events: &str) -> Result<(), ViewFault> {
    for event in events.split('|') {
        match event {
            "" => {}
            "fresh" => view.dialled(true),
            "dial" => view.dialled(false),
            _ => match event.strip_prefix('>') {
                Some(command) => view.said(&command_of(alloc, command)?)?,
                None => hear(alloc, view, event)?,
            },
        }
    }
    Ok(())
}

fn show_mailbox(text: &mut String, folder: &Mailbox) -> Result<(), Memory> {
    match folder.validity() {
        Some(validity) => write!(text, " {validity}:")?,
        None => write!(text, " -:")?,
    }
    for (uid, row) in folder.rows().iter() {
        let modseq = row.modseq;
        write!(text, " {uid}={modseq}")?;
    }
    let mark = folder.mark();
    write!(text, " mark {mark}")
}

pub fn show(alloc: Global, view: &View) -> Result<String, Memory> {
    let mut text = String::new(alloc);
    for name in NAMES {
        if let Some(folder) = view.mailbox(name.as_bytes()) {
            if !text.is_empty() {
                text.push('|')?;
            }
            text.push_str(name)?;
            show_mailbox(&mut text, folder)?;
            if view
                .selected()
                .is_some_and(|one| one.name() == name.as_bytes())
            {
                text.push_str(" selected")?;
            }
        }
    }
    for folder in view.folders() {
        let name = String::from_utf8_lossy(alloc, folder.name.as_slice())?;
        text.push_str(if text.is_empty() { "listed " } else { " " })?;
        text.push_str(name.as_str())?;
    }
    Ok(text)
}

#[test]
fn views_after_talks(rt: HostRuntime) -> Result<(), Fail> {
    let alloc: Global = rt.alloc();
    for (events, shown) in TALKS {
        let mut view = View::new(alloc);
        tell(alloc, &mut view, OPENING)?;
        tell(alloc, &mut view, events)?;
        assert_eq!(rt; show(alloc, &view)?.as_str(), shown, "{events}");
    }
    Ok(())
}

#[test]
fn what_servers_lack(rt: HostRuntime) -> Result<(), Fail> {
    let alloc: Global = rt.alloc();
    for (events, lacks) in LACKS {
        let mut view = View::new(alloc);
        tell(alloc, &mut view, events)?;
        let capability = view.lacking_capability().unwrap_or("-");
        let enabled = view.lacking_enabled().unwrap_or("-");
        let selected = view.lacking_selected().unwrap_or("-");
        let text = format!(in alloc; "{capability} {enabled} {selected}")?;
        assert_eq!(rt; text.as_str(), lacks, "{events}");
    }
    Ok(())
}

#[test]
fn folder_with_too_many_rows(rt: HostRuntime) -> Result<(), Fail> {
    let alloc: Global = rt.alloc();
    let mut view = View::new(alloc);
    tell(alloc, &mut view, OPENING)?;
    tell(alloc, &mut view, ">new 8")?;
    for uid in 8..50_006 {
        let unit = format!(in alloc; "row {uid} 1")?;
        hear(alloc, &mut view, unit.as_str())?;
    }
    let many = ViewFault::TooMany {
        rows: 50_001,
        bytes: 0,
    };
    assert_eq!(rt; hear(alloc, &mut view, "row 60000 1"), Err(many));
    assert_eq!(rt; hear(alloc, &mut view, "row 60000 1"), Ok(()));
    assert_eq!(rt; show(alloc, &view)?.as_str(), "INBOX 8: mark 0");
    tell(
        alloc,
        &mut view,
        "A3 OK x|>select INBOX|* OK [CLOSED] x|row 9 2|A4 OK x",
    )?;
    assert_eq!(rt;
        show(alloc, &view)?.as_str(),
        "INBOX 8: 9=2 mark 0 selected"
    );
    Ok(())
}

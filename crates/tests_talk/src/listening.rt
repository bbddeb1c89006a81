//! What is told of talks that are heard: short ones, and what two servers answer to the product's commands.
use crate::views::{command_of, show};
use imap_commands::{Command, write};
use mail_io::Memory;
use mail_talk::{Listener, Phase};
use std::alloc::Global;
use std::test::*;

/// A client that says commands and follows its talk. Bytes are heard in pieces of that many.
#[derive(Drop)]
struct Client {
    alloc: Global,
    listener: Listener,
    command: Command,
    pieces_left: usize,
    piece: usize,
}

impl Client {
    fn new(alloc: Global, piece: usize) -> Self {
        Client {
            alloc,
            listener: Listener::new(alloc),
            command: Command::Noop,
            pieces_left: 0,
            piece,
        }
    }

    /// Says the first piece of a command.
    fn say(&mut self, command: Command) -> Result<(), Memory> {
        let number = self.listener.told().view().number().saturating_add(1);
        let pieces = write(self.alloc, &command, number)?.len();
        if pieces == 1 {
            self.listener.said(&command)?;
        } else {
            self.listener.began(&command)?;
        }
        self.command = command;
        self.pieces_left = pieces.saturating_sub(1);
        Ok(())
    }

    /// Says the next piece.
    fn go_on(&mut self) -> Result<(), Memory> {
        self.pieces_left = self.pieces_left.saturating_sub(1);
        if self.pieces_left == 0 {
            self.listener.completed(&self.command)
        } else {
            self.listener.went_on()
        }
    }

    /// Hears lines, which `^` separates.
    fn hear(&mut self, lines: &str) -> Result<(), Memory> {
        let mut bytes = String::new(self.alloc);
        for line in lines.split('^') {
            bytes.push_str(line)?;
            bytes.push_str("\r\n")?;
        }
        for piece in bytes.as_str().as_bytes().chunks(self.piece.max(1)) {
            self.listener.hear(piece)?;
        }
        Ok(())
    }

    /// Takes part in a talk: `dial` and `fresh`, commands after `>`, `>>` for the next piece of one, and lines of the server.
    fn talk(&mut self, events: &str) -> Result<(), Memory> {
        for event in events.split('|') {
            match event {
                "" => {}
                "fresh" => self.listener.dialled(true),
                "dial" => self.listener.dialled(false),
                ">>" => self.go_on()?,
                _ => match event.strip_prefix('>') {
                    Some(command) => self.say(command_of(self.alloc, command)?)?,
                    None => self.hear(event)?,
                },
            }
        }
        Ok(())
    }

    /// The phase, the tagged answer, and what was told.
    fn shown(&self) -> Result<String, Memory> {
        let told = self.listener.told();
        let phase = told.phase();
        let mut text = format!(in self.alloc; "{phase:?}")?;
        if phase == Phase::Damaged {
            let at = self.listener.at();
            write!(text, " at {at}")?;
        }
        if let Some(answer) = told.answer() {
            let word = answer.word;
            write!(text, " {word:?}")?;
            if answer.is_early {
                text.push_str(" early")?;
            }
        }
        self.show_results(&mut text)?;
        let view = show(self.alloc, told.view())?;
        text.push_str(": ")?;
        text.push_str(view.as_str())?;
        Ok(text)
    }

    fn show_results(&self, text: &mut String) -> Result<(), Memory> {
        let results = self.listener.told().results();
        for uid in 1..10 {
            if results.has_found(uid) {
                write!(text, " found {uid}")?;
            }
        }
        if let Some(message) = results.message() {
            let uid = message.uid;
            write!(text, " body of {uid}")?;
            if let Some(body) = &message.body {
                let body = String::from_utf8_lossy(self.alloc, body.as_slice())?;
                text.push_str(" is ")?;
                text.push_str(body.as_str())?;
            }
        }
        Ok(())
    }
}

fn shown_after(alloc: Global, opening: &str, events: &str, piece: usize) -> Result<String, Memory> {
    let mut client = Client::new(alloc, piece);
    client.talk(opening)?;
    client.talk(events)?;
    client.shown()
}

/// A dial with its greeting, and a folder with rows.
const OPENING: &str =
    "fresh|* OK hi|>select INBOX|* OK [UIDVALIDITY 8] x|* OK [HIGHESTMODSEQ 20] x|A1 OK x|>new 1|* 1 FETCH (UID 5 MODSEQ (3) FLAGS () INTERNALDATE \"01-Dec-2026 09:36:42 +0000\" RFC822.SIZE 9 BODY[HEADER.FIELDS (DATE)] {4}^ab^)|* 2 FETCH (FLAGS (\\Recent) UID 7 INTERNALDATE \" 1-Dec-2026 09:36:42 +0000\" MODSEQ (4) RFC822.SIZE 9 BODY[HEADER.FIELDS (DATE)] NIL)|A2 OK x";

/// What is heard after a dial, and what is shown.
static FIRST_LINES: [(&str, &str); 12] = [
    ("* OK hi|>noop|* 2 FETCH (FLAGS (\\Seen)", "Damaged at 9: "),
    ("+ go|A1", "Damaged at 6: "),
    ("* 1 FETCH (UID 4294967296)", "Damaged at 0: "),
    ("* 1 FETCH (MODSEQ (9223372036854775808))", "Damaged at 0: "),
    ("* LIST (\\Sent) \"/\" {33554433}", "Damaged at 0: "),
    ("* LIST (\\Sent) \"/\" {33554432}", "Greeting: "),
    ("* OK {3}", "Idle: "),
    ("* SOMETHING new (x", "Idle: "),
    ("* VANISHED 7:x", "Damaged at 0: "),
    ("*", "Damaged at 0: "),
    ("A1 OK [APPENDUID x", "Greeting: "),
    ("* BYE no", "Idle: "),
];

/// Talks after the opening one, and what is shown.
static TALKS: [(&str, &str); 30] = [
    ("", "Idle Ok: INBOX 8: 5=3 7=4 mark 20 selected"),
    // answers and requests
    (
        ">noop|+ go|* VANISHED 7|A3 BAD x|* VANISHED 5",
        "Idle Bad: INBOX 8: 5=3 mark 20 selected",
    ),
    (
        ">noop|A03 OK x|A4 OK x",
        "Answer: INBOX 8: 5=3 7=4 mark 20 selected",
    ),
    (
        ">noop|* VANISHED 7|A3 OK x|>noop|* VANISHED 5|x|A4 OK x",
        "Damaged at 380: INBOX 8: mark 20 selected",
    ),
    (
        "* VANISHED 7|>noop|A3 OK x",
        "Idle Ok: INBOX 8: 5=3 mark 20 selected",
    ),
    (
        ">login \u{e9}|+ go|>>|A3 OK x",
        "Idle Ok: INBOX 8: 5=3 7=4 mark 20 selected",
    ),
    (
        ">login \u{e9}|* VANISHED 7|A3 NO x",
        "Idle No early: INBOX 8: 5=3 mark 20 selected",
    ),
    (
        ">login \u{e9}|+ go|* VANISHED 7|A3 OK x",
        "Piece: INBOX 8: 5=3 7=4 mark 20 selected",
    ),
    // a folder whose name is a literal
    (
        ">select \u{e9}|+ go|>>|* OK [CLOSED] x|* OK [UIDVALIDITY 3] x|A3 OK x",
        "Idle Ok: INBOX 8: 5=3 7=4 mark 20|\u{e9} 3: mark 0 selected",
    ),
    (
        ">select \u{e9}|+ go|A3 OK x",
        "Piece: INBOX 8: 5=3 7=4 mark 20 selected",
    ),
    (
        ">select \u{e9}|A3 NO x",
        "Idle No early: INBOX 8: 5=3 7=4 mark 20",
    ),
    // searches
    (
        ">search w|* ESEARCH (TAG \"A3\") UID ALL 5,7|A3 OK x",
        "Idle Ok found 5 found 7: INBOX 8: 5=3 7=4 mark 20 selected",
    ),
    (
        ">search w|* ESEARCH (TAG \"A3\") UID ALL 5|* ESEARCH (TAG \"A2\") UID ALL 7|A3 OK x",
        "Idle Ok found 5: INBOX 8: 5=3 7=4 mark 20 selected",
    ),
    (
        ">search w|* ESEARCH (TAG \"A3\") UID ALL 5|* ESEARCH (TAG \"A3\") UID|A3 OK x",
        "Idle Ok: INBOX 8: 5=3 7=4 mark 20 selected",
    ),
    (
        ">search \u{e9}|* ESEARCH (TAG \"A3\") UID ALL 5|+ go|>>|A3 OK x",
        "Idle Ok found 5: INBOX 8: 5=3 7=4 mark 20 selected",
    ),
    (
        ">search w|* ESEARCH (TAG \"A3\") UID ALL 5|A3 OK x|>search \u{e9}|A4 NO x",
        "Idle No early: INBOX 8: 5=3 7=4 mark 20 selected",
    ),
    // bodies
    (
        ">body 7|* 2 FETCH (UID 7 BODY[] {5}^a^)b)|A3 OK x",
        "Idle Ok body of 7 is a\r\n)b: INBOX 8: 5=3 7=4 mark 20 selected",
    ),
    (
        ">body 7|* 2 FETCH (UID 7 BODY[] NIL)|A3 OK x",
        "Idle Ok body of 7: INBOX 8: 5=3 7=4 mark 20 selected",
    ),
    (
        ">body 7|* 1 FETCH (UID 5 BODY[] \"x\")|A3 OK x",
        "Idle Ok body of 7: INBOX 8: 5=3 7=4 mark 20 selected",
    ),
    // dials
    ("dial|* OK hi", "Idle: INBOX 8: 5=3 7=4 mark 20"),
    ("dial|A1 OK x|>noop", "Greeting: INBOX 8: 5=3 7=4 mark 20"),
    ("fresh|* OK hi", "Idle: "),
    // Cyrus 3.12 and Dovecot 2.4: within a SELECT, a LIST, a search, and a fetch
    (
        ">select Archive|* OK [CLOSED] Ok|* 8 EXISTS|* 8 RECENT|* FLAGS (\\Answered \\Seen)|* OK [PERMANENTFLAGS (\\Seen \\*)] Ok|* OK [UNSEEN 2] Ok|* OK [UIDVALIDITY 1796117803] Ok|* OK [HIGHESTMODSEQ 9] Ok|* OK [MAILBOXID (05be8a3e)] Ok|* LIST (\\HasNoChildren) \"/\" p1|A3 OK [READ-WRITE] Completed",
        "Idle Ok: INBOX 8: 5=3 7=4 mark 20|Archive 1796117803: mark 0 selected",
    ),
    (
        ">select INBOX|* OK [CLOSED] Previous mailbox closed.|* FLAGS (\\Seen)|* OK [PERMANENTFLAGS (\\Seen \\*)] Flags permitted.|* LIST () \"/\" INBOX|* 1 EXISTS|* OK [UIDVALIDITY 8] UIDs valid|* OK [HIGHESTMODSEQ 36] Highest|* VANISHED (EARLIER) 1:5,10|* 1 FETCH (UID 7 FLAGS (\\Flagged) MODSEQ (34))|A3 OK [READ-WRITE] Select completed.",
        "Idle Ok: INBOX 8: 7=34 mark 20 selected",
    ),
    (
        ">list|* LIST (\\HasNoChildren) \"/\" INBOX|* 2 FETCH (FLAGS (\\Seen) UID 7 MODSEQ (22))|A3 OK Completed",
        "Idle Ok: INBOX 8: 5=3 7=22 mark 20 selected INBOX",
    ),
    (
        ">search w|* ESEARCH (TAG \"A3\") UID ALL 5,7|* VANISHED 7|A3 OK [HIGHESTMODSEQ 30] done",
        "Idle Ok found 5 found 7: INBOX 8: 5=3 mark 20 selected",
    ),
    (
        ">body 5|* 3 EXISTS|* 1 FETCH (UID 5 BODY[] ~{1}^\u{0})|* VANISHED 7|A3 OK x",
        "Idle Ok body of 5 is \u{0}: INBOX 8: 5=3 mark 20 selected",
    ),
    (
        ">changed|* 2 FETCH (FLAGS () UID 7 MODSEQ (30))|* VANISHED (EARLIER) 5|* VANISHED 7|A3 OK [HIGHESTMODSEQ 31] x",
        "Idle Ok: INBOX 8: mark 31 selected",
    ),
    // a folder that another client removed, and a server that goes
    (
        ">noop|* VANISHED 5:7|A3 NO [NONEXISTENT] x",
        "Idle No: INBOX 8: mark 20 selected",
    ),
    (
        ">noop|* BYE Server shutting down.",
        "Answer: INBOX 8: 5=3 7=4 mark 20 selected",
    ),
];

#[test]
fn first_lines_of_dials(rt: HostRuntime) -> Result<(), Fail> {
    let alloc: Global = rt.alloc();
    for (events, shown) in FIRST_LINES {
        assert_eq!(rt;
            shown_after(alloc, "fresh", events, usize::MAX)?.as_str(),
            shown,
            "{events}"
        );
        assert_eq!(rt;
            shown_after(alloc, "fresh", events, 1)?.as_str(),
            shown,
            "{events}"
        );
    }
    Ok(())
}

#[test]
fn talks_heard_whole_and_by_single_bytes(rt: HostRuntime) -> Result<(), Fail> {
    let alloc: Global = rt.alloc();
    for (events, shown) in TALKS {
        assert_eq!(rt;
            shown_after(alloc, OPENING, events, usize::MAX)?.as_str(),
            shown,
            "{events}"
        );
        assert_eq!(rt;
            shown_after(alloc, OPENING, events, 1)?.as_str(),
            shown,
            "{events}"
        );
    }
    Ok(())
}

const BODY_UNIT: &[u8] = b"* 1 FETCH (UID 7 BODY[] {5}\r\na\r\n)b)\r\n";

#[test]
fn body_heard_in_any_two_pieces(rt: HostRuntime) -> Result<(), Fail> {
    let alloc: Global = rt.alloc();
    for at in 0..BODY_UNIT.len() {
        let mut client = Client::new(alloc, usize::MAX);
        client.talk(OPENING)?;
        client.talk(">body 7")?;
        client.listener.hear(&BODY_UNIT[..at])?;
        client.listener.hear(&BODY_UNIT[at..])?;
        assert_eq!(rt;
            client.shown()?.as_str(),
            "Answer body of 7 is a\r\n)b: INBOX 8: 5=3 7=4 mark 20 selected"
        );
        assert_eq!(rt; client.listener.heard_count(), 37);
        assert!(rt; !client.listener.has_reached_limit());
    }
    Ok(())
}

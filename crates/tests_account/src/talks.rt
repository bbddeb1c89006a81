//! Whole talks of a session.
use crate::asks::{account_over, call, calls};
use crate::server::Server;
use mail_io::{Bytes, Memory, ScriptedLink, Words};
use record_io::MemoryKeeper;
use std::alloc::Global;
use std::test::*;

/// What is said in the calls of `CALLS`, on one connection.
const SAID: &str = concat!(
    "A1 LOGIN \"ann\" \"pw\"\r\n",
    "A2 CAPABILITY\r\n",
    "A3 ENABLE IMAP4rev2 QRESYNC\r\n",
    "A4 LIST \"\" \"*\"\r\n",
    "A5 SELECT \"INBOX\"\r\n",
    "A6 UID FETCH 1:* (UID FLAGS MODSEQ INTERNALDATE RFC822.SIZE BODY.PEEK[HEADER.FIELDS (DATE FROM TO CC SUBJECT MESSAGE-ID IN-REPLY-TO REFERENCES)])\r\n",
    "A7 LIST \"\" \"*\"\r\n",
    "A8 NOOP\r\n",
    "A9 UID FETCH 6:* (UID FLAGS MODSEQ INTERNALDATE RFC822.SIZE BODY.PEEK[HEADER.FIELDS (DATE FROM TO CC SUBJECT MESSAGE-ID IN-REPLY-TO REFERENCES)])\r\n",
    "A10 UID FETCH 1:* (UID FLAGS MODSEQ) (CHANGEDSINCE 20 VANISHED)\r\n",
    "A11 UID FETCH 5 (UID BODY.PEEK[])\r\n",
    "A12 NOOP\r\n",
    "A13 UID FETCH 6:* (UID FLAGS MODSEQ INTERNALDATE RFC822.SIZE BODY.PEEK[HEADER.FIELDS (DATE FROM TO CC SUBJECT MESSAGE-ID IN-REPLY-TO REFERENCES)])\r\n",
    "A14 UID FETCH 1:* (UID FLAGS MODSEQ) (CHANGEDSINCE 20 VANISHED)\r\n",
    "A15 UID FETCH 5 (UID BODY.PEEK[])\r\n",
);

/// Calls, and what is answered to them. `||` separates them.
pub const CALLS: &str = concat!(
    "login ann ~ in || ",
    "list INBOX 1 ~ 200 INBOX</h1>\n<table class=\"list\"><tr class=\"seen\"><td>a@b.example</td><td><a href=\"/show/8/5?f=INBOX\">s</a></td><td>2026-01-01 00:00</td><td>10</td></tr></table>\n<p class=\"pages\">Page 1 of 1</p> || ",
    "folders ~ 200 Folders</h1>\n<ul class=\"folders\"><li><a href=\"/list?f=INBOX\">INBOX</a></li><li><a href=\"/list?f=Out\">Out</a> Sent</li></ul> || ",
    "show INBOX 8 5 ~ 200 s</h1>\n<table class=\"head\"></table>\n<div class=\"mail\"><pre>\nhi</pre></div>\n<ul class=\"parts\"><li><a href=\"/part/8/5/1?f=INBOX\">1</a> text/plain 2</li></ul> || ",
    "part INBOX 8 5 1 ~ 200 hi",
);

/// The call of an entry of `CALLS`, and what is answered to it.
pub fn call_of(entry: &'static str) -> (&'static str, &'static str) {
    entry.split_once(" ~ ").unwrap_or((entry, ""))
}

/// What is answered to the call of a folder's list.
pub fn listed() -> &'static str {
    let (_, rest) = CALLS.split_once("list INBOX 1 ~ ").unwrap_or((CALLS, ""));
    let (want, _) = rest.split_once(" || ").unwrap_or((rest, ""));
    want
}

#[test]
fn answers_a_whole_talk(rt: HostRuntime) -> Result<(), Fail> {
    let alloc: Global = rt.alloc();
    let mut server = Server::new(alloc, "", 0)?;
    server.insist(SAID);
    let keeper = MemoryKeeper::new(alloc, Vec::new(alloc));
    let post = Server::new(alloc, "", 1)?;
    let mut account = account_over(alloc, server, post, keeper)?;
    for entry in CALLS.split(" || ") {
        let (words, want) = call_of(entry);
        let got = call(alloc, &mut account, words)?;
        assert_eq!(rt; got.as_str(), want, "{words}");
    }
    Ok(())
}

/// What a server sends, whatever is said to it. `|` separates the pieces, and `^` ends a line.
const SENT: &str =
    "* OK hi^|A1 OK in^|* CAPABILITY IMAP4rev2 QRESYNC^A2 OK x^|* ENABLED QRESYNC^A3 OK x^|* LIST () \"/\" INBOX^A4 OK x^|* OK [UIDVALIDITY 8] x^A5 OK x^|* 1 FETCH (UID 5 FLAGS (\\Seen) MODSEQ (20) INTERNALDATE \" 1-Jan-2026 00:00:00 +0000\" RFC822.SIZE 10 BODY[HEADER.FIELDS (FROM SUBJECT)] {33}^From: a@b.example^|Subject: s^^)^A6 OK x^";

fn sent(alloc: Global) -> Result<Vec<Words>, Memory> {
    let mut pieces = Words::new(alloc);
    for piece in SENT.split('|') {
        let mut bytes = Bytes::from_vec(Vec::new(alloc));
        for line in piece.split_inclusive('^') {
            push_line(&mut bytes, line)?;
        }
        pieces.push(bytes)?;
    }
    let mut dials = Vec::new(alloc);
    dials.push(pieces)?;
    Ok(dials)
}

fn push_line(bytes: &mut Bytes, line: &str) -> Result<(), Memory> {
    match line.strip_suffix('^') {
        Some(line) => {
            bytes.extend_from_slice(line.as_bytes())?;
            bytes.extend_from_slice(b"\r\n")
        }
        None => bytes.extend_from_slice(line.as_bytes()),
    }
}

/// What is answered to calls over a link that tells its talk.
fn told(alloc: Global, words: &str) -> Result<String, Memory> {
    let link = ScriptedLink::new(alloc, sent(alloc)?, 2_000, 40, Vec::new(alloc))?;
    let keeper = MemoryKeeper::new(alloc, Vec::new(alloc));
    let post = ScriptedLink::new(alloc, Vec::new(alloc), 0, 0, Vec::new(alloc))?;
    let mut account = account_over(alloc, link, post, keeper)?;
    calls(alloc, &mut account, words)
}

#[test]
fn answers_over_a_link_that_tells(rt: HostRuntime) -> Result<(), Fail> {
    let alloc: Global = rt.alloc();
    let got = told(alloc, "login ann|list INBOX 1")?;
    assert_eq!(rt; got.as_str().strip_prefix("in|"), Some(listed()));
    Ok(())
}

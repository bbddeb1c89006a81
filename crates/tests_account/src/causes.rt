//! What is answered if the server's answers or an ask's address are wrong.
use crate::asks::{account_over, calls};
use crate::server::Server;
use account_core::Memory;
use record_io::MemoryKeeper;
use std::alloc::Global;
use std::test::*;

/// Changed answers of the server, calls, and what is answered to them, case by case.
const CASES: &str = concat!(
    // logins
    "CAPABILITY>* CAPABILITY IMAP4rev2^OK x ~ login ann ~ lacks QRESYNC\n",
    "CAPABILITY>* CAPABILITY QRESYNC^OK x ~ login ann ~ lacks IMAP4rev2\n",
    "ENABLE>OK x ~ login ann ~ lacks QRESYNC\n",
    "LOGIN>NO bad ~ login ann|folders ~ refused: bad|nobody\n",
    "CAPABILITY>BAD no ~ login ann ~ A2 refused: no\n",
    "LIST>NO no ~ login ann ~ A4 refused: no\n",
    "GREETING>* ~ login ann ~ damaged at 0\n",
    "LIST>* LIST (x^OK x ~ login ann ~ damaged at 88\n",
    "LIST>* LIST () \"/\" {33554432}^%33554432^^OK x ~ login ann ~ damaged at 33554520\n",
    // a name that is a literal
    "LOGIN {>+ go|\"pw\">A1 OK in ~ login \u{e9} ~ in\n",
    " ~ login \u{e9} ~ damaged at 19\n",
    // folders
    "SELECT>NO no ~ login ann|list INBOX 1 ~ in|422 The server answered A5: no\n",
    "SELECT>OK x ~ login ann|list INBOX 1 ~ in|502 The server lacks UIDVALIDITY.\n",
    "SELECT>* OK [UIDVALIDITY 8] x^* OK [NOMODSEQ] x^OK x ~ login ann|list INBOX 1 ~ in|502 The server lacks MODSEQ.\n",
    "SELECT>* 1 FETCH (UID 0)^OK x ~ login ann|list INBOX 1 ~ in|502 The server's answer is damaged at byte 142.\n",
    "UID FETCH 1:*>* 1 FETCH (UID 5 FLAGS () MODSEQ (20) INTERNALDATE \" 1-Jan-2026 00:00:00 +0000\" RFC822.SIZE 9 BODY[HEADER.FIELDS (FROM)] {16777217}^%16777217^)^OK x ~ login ann|list INBOX 1 ~ in|422 The folder is too large: 1 rows, 16777217 header bytes.\n",
    // messages
    "UID FETCH 5 >NO no ~ login ann|show INBOX 8 5 ~ in|422 The server answered A7: no\n",
    "UID FETCH 5 >OK x ~ login ann|show INBOX 8 5 ~ in|404 No such message.\n",
    "UID FETCH 5 >* 1 FETCH (UID 5 BODY[] NIL)^OK x ~ login ann|part INBOX 8 5 1 ~ in|404 No such message.\n",
    "UID FETCH 1:*>* 1 FETCH (UID 5 FLAGS () MODSEQ (20) INTERNALDATE \" 1-Jan-2026 00:00:00 +0000\" RFC822.SIZE 26214401 BODY[HEADER.FIELDS (FROM)] NIL)^OK x ~ login ann|show INBOX 8 5 ~ in|422 The message is too long: 26214401 bytes.\n",
    // addresses
    " ~ login ann|list x 1|show x 8 5 ~ in|404 No such folder.|404 No such folder.\n",
    " ~ login ann|show INBOX 8 6 ~ in|404 No such message.\n",
    " ~ login ann|show INBOX 9 5 ~ in|409 The folder was renewed: asked 9, now 8.\n",
    " ~ login ann|part INBOX 8 5 2 ~ in|404 No such part.\n",
    " ~ login ann|show INBOX 8 5 2 ~ in|404 No such part.",
);

/// What is answered to calls if the server answers otherwise.
fn answered(alloc: Global, change: &'static str, words: &str) -> Result<String, Memory> {
    let server = Server::new(alloc, change, 0)?;
    let keeper = MemoryKeeper::new(alloc, Vec::new(alloc));
    let post = Server::new(alloc, "", 1)?;
    let mut account = account_over(alloc, server, post, keeper)?;
    calls(alloc, &mut account, words)
}

#[test]
fn answers_causes(rt: HostRuntime) -> Result<(), Fail> {
    let alloc: Global = rt.alloc();
    for case in CASES.split('\n') {
        let (change, rest) = case.split_once(" ~ ").unwrap_or((case, ""));
        let (words, want) = rest.split_once(" ~ ").unwrap_or((rest, ""));
        let got = answered(alloc, change, words)?;
        assert_eq!(rt; got.as_str(), want, "{case}");
    }
    Ok(())
}

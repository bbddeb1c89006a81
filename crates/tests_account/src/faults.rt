//! Calls of the link and of the keeper that fail once, and want of memory.
use crate::asks::{account_over, call, calls};
use crate::server::Server;
use crate::talks::{CALLS, call_of, listed};
use account_core::Account;
use mail_io::Memory;
use record_io::MemoryKeeper;
use std::alloc::Global;
use std::test::*;

/// An account over a server, a call of whose link and one of whose keeper fail.
fn account_of(
    alloc: Global,
    server: Server,
    failing: u64,
) -> Result<Account<Server, MemoryKeeper>, Memory> {
    let keeper = MemoryKeeper::new(alloc, Vec::from_slice(alloc, &[failing])?);
    let post = Server::new(alloc, "", 1)?;
    account_over(alloc, server, post, keeper)
}

/// Makes the calls of `CALLS`, each again if it isn't answered as it is meant. Returns what was answered then.
fn retried(alloc: Global, account: &mut Account<Server, MemoryKeeper>) -> Result<String, Memory> {
    let mut failures = String::new(alloc);
    for entry in CALLS.split(" || ") {
        let (words, want) = call_of(entry);
        let first = call(alloc, account, words)?;
        if first.as_str() != want {
            failures.push_str(first.as_str())?;
            let again = call(alloc, account, words)?;
            failures.push_str(if again.as_str() == want {
                ";"
            } else {
                " twice;"
            })?;
        }
    }
    Ok(failures)
}

#[test]
fn answers_after_a_failed_call_of_the_link(rt: HostRuntime) -> Result<(), Fail> {
    let alloc: Global = rt.alloc();
    for failing in 1..34 {
        let server = Server::new(alloc, "", failing)?;
        let mut account = account_of(alloc, server, 0)?;
        let got = retried(alloc, &mut account)?;
        let want = match failing {
            1..=10 => "unreachable;",
            11..=32 => "503 The server cannot be reached.;",
            _ => "",
        };
        assert_eq!(rt; got.as_str(), want, "call {failing}");
    }
    Ok(())
}

/// What is said in a login and three lists of a folder, of which the second fails as the last answer is awaited.
const SAID: &str = concat!(
    "A1 LOGIN \"ann\" \"pw\"\r\nA2 CAPABILITY\r\nA3 ENABLE IMAP4rev2 QRESYNC\r\nA4 LIST \"\" \"*\"\r\n",
    "A5 SELECT \"INBOX\"\r\n",
    "A6 UID FETCH 1:* (UID FLAGS MODSEQ INTERNALDATE RFC822.SIZE BODY.PEEK[HEADER.FIELDS (DATE FROM TO CC SUBJECT MESSAGE-ID IN-REPLY-TO REFERENCES)])\r\n",
    "A7 NOOP\r\n",
    "A8 UID FETCH 6:* (UID FLAGS MODSEQ INTERNALDATE RFC822.SIZE BODY.PEEK[HEADER.FIELDS (DATE FROM TO CC SUBJECT MESSAGE-ID IN-REPLY-TO REFERENCES)])\r\n",
    "A9 UID FETCH 1:* (UID FLAGS MODSEQ) (CHANGEDSINCE 20 VANISHED)\r\n",
    "A1 LOGIN \"ann\" \"pw\"\r\nA2 CAPABILITY\r\nA3 ENABLE IMAP4rev2 QRESYNC\r\nA4 LIST \"\" \"*\"\r\n",
    "A5 SELECT \"INBOX\" (QRESYNC (8 20))\r\n",
    "A6 UID FETCH 6:* (UID FLAGS MODSEQ INTERNALDATE RFC822.SIZE BODY.PEEK[HEADER.FIELDS (DATE FROM TO CC SUBJECT MESSAGE-ID IN-REPLY-TO REFERENCES)])\r\n",
    "A7 UID FETCH 1:* (UID FLAGS MODSEQ) (CHANGEDSINCE 20 VANISHED)\r\n",
);

/// The server renews the folder while the link is down.
const RENEWED: &str = "SELECT \"INBOX\" (>* OK [UIDVALIDITY 9] x^* OK [HIGHESTMODSEQ 20] x^OK x";

/// What is answered to calls over a server.
fn answered(alloc: Global, server: Server, words: &str) -> Result<String, Memory> {
    let mut account = account_of(alloc, server, 0)?;
    calls(alloc, &mut account, words)
}

#[test]
fn catches_up_after_a_fault(rt: HostRuntime) -> Result<(), Fail> {
    let alloc: Global = rt.alloc();
    let mut server = Server::new(alloc, "", 20)?;
    server.insist(SAID);
    let words = "login ann|list INBOX 1|list INBOX 1|list INBOX 1";
    let got = answered(alloc, server, words)?;
    let list = listed();
    let want = format!(in alloc; "in|{list}|503 The server cannot be reached.|{list}")?;
    assert_eq!(rt; got.as_str(), want.as_str());
    Ok(())
}

#[test]
fn finds_a_renewed_folder_after_a_fault(rt: HostRuntime) -> Result<(), Fail> {
    let alloc: Global = rt.alloc();
    let server = Server::new(alloc, RENEWED, 17)?;
    let words = "login ann|part INBOX 8 5 1|show INBOX 8 7|show INBOX 8 7";
    let got = answered(alloc, server, words)?;
    assert_eq!(rt;
        got.as_str(),
        "in|200 hi|503 The server cannot be reached.|409 The folder was renewed: asked 8, now 9."
    );
    Ok(())
}

/// The number of the keeper's call that fails, calls, and what is answered to them.
const KEPT: &str = concat!(
    // Nobody has logged in yet.
    "1 ~ login ann|folders|login ann|part INBOX 8 5 1 ~ unkept|nobody|in|200 hi\n",
    // The user who is kept stays, and an ask logs in anew.
    "2 ~ login ann|login ann|part INBOX 8 5 1 ~ in|unkept|200 hi\n",
    // What was told for another user is forgotten, and the user with it.
    "2 ~ login ann|login bob|folders ~ in|unkept|nobody\n",
    // An ask makes no call of the keeper.
    "2 ~ login ann|part INBOX 8 5 1 ~ in|200 hi",
);

#[test]
fn answers_after_a_failed_call_of_the_keeper(rt: HostRuntime) -> Result<(), Fail> {
    let alloc: Global = rt.alloc();
    for case in KEPT.split('\n') {
        let (failing, rest) = case.split_once(" ~ ").unwrap_or((case, ""));
        let (words, want) = rest.split_once(" ~ ").unwrap_or((rest, ""));
        let failing = failing.parse::<u64>().unwrap_or(0);
        let mut account = account_of(alloc, Server::new(alloc, "", 0)?, failing)?;
        let got = calls(alloc, &mut account, words)?;
        assert_eq!(rt; got.as_str(), want, "{case}");
    }
    Ok(())
}

/// Makes a call, and again after want of memory.
fn call_again(
    alloc: Global,
    account: &mut Account<Server, MemoryKeeper>,
    words: &str,
) -> Result<String, Memory> {
    match call(alloc, account, words) {
        Ok(answer) => Ok(answer),
        Err(_) => call(alloc, account, words),
    }
}

/// Passes too if one request of memory is refused, by `rt try --test --fail-alloc N`, unless it is one of the account's making.
#[test]
fn answers_after_want_of_memory(rt: HostRuntime) -> Result<(), Fail> {
    let alloc: Global = rt.alloc();
    let mut account = account_of(alloc, Server::new(alloc, "", 0)?, 0)?;
    for entry in CALLS.split(" || ") {
        let (words, want) = call_of(entry);
        let got = call_again(alloc, &mut account, words)?;
        assert_eq!(rt; got.as_str(), want, "{words}");
    }
    Ok(())
}

//! Forms that a member of the site sends.
ghost use Rattle.std.specs.Prelude.{◌≡◌, true, IfOk};
ghost use Rattle.account_core.specs.Served.{is_served};

use crate::posts::dial;
use crate::sends::draft;
use account_answers::{Answer, Body};
use account_core::Account;
use mail_io::{Bytes, Link, Memory, ScriptedLink, Text, Words};
use record_io::{Keeper, MemoryKeeper};
use site_asks::{Ask, Kind};
use std::alloc::Global;
use std::test::*;

/// What the mail server says after one dial, a chunk for each command. `^` ends a line.
const MAIL: [&str; 9] = [
    "* OK hi^",
    "A1 OK^",
    "* CAPABILITY IMAP4rev2 QRESYNC^A2 OK^",
    "* ENABLED IMAP4rev2 QRESYNC^A3 OK^",
    "* LIST (\\Sent) \"/\" Out^A4 OK^",
    "A5 OK^",
    "+ go on^",
    "A6 OK^",
    "A7 OK^",
];

fn mail_dial(alloc: Global) -> Result<Words, Memory> {
    let mut chunks = Words::new(alloc);
    for chunk in MAIL {
        let mut bytes = Vec::new(alloc);
        for line in chunk.split_terminator('^') {
            bytes.extend_from_slice(line.as_bytes())?;
            bytes.extend_from_slice(b"\r\n")?;
        }
        chunks.push(Bytes::from_vec(bytes))?;
    }
    Ok(chunks)
}

/// An account over a mail server that answers one send and the NOOP of another, and over a post server that takes two messages. The call of
/// the post link with this number fails.
fn account_of(
    alloc: Global,
    post_fails: u64,
) -> Result<Account<ScriptedLink, MemoryKeeper>, Memory> {
    let mut mail_dials = Vec::new(alloc);
    mail_dials.push(mail_dial(alloc)?)?;
    let mail = ScriptedLink::new(alloc, mail_dials, 99_999, 99, Vec::new(alloc))?;
    let mut post_dials = Vec::new(alloc);
    post_dials.push(dial(alloc, 9, "")?)?;
    post_dials.push(dial(alloc, 9, "")?)?;
    let post_fails = Vec::from_slice(alloc, &[post_fails])?;
    let post = ScriptedLink::new(alloc, post_dials, 99_999, 99, post_fails)?;
    let keeper = MemoryKeeper::new(alloc, Vec::new(alloc));
    let domain = Text::from_text(alloc, "c.example")?;
    Ok(Account::new(alloc, mail, post, keeper, domain))
}

/// The status of an answer, and where it leads or what its page says.
fn told(alloc: Global, answer: &Answer) -> Result<String, Memory> {
    let mut text = String::new(alloc);
    let status = answer.status;
    write!(text, "{status} ")?;
    if let Kind::To(place) = &answer.kind {
        text.push_str(place.as_str())?;
    }
    if let Body::Page(page) = &answer.body {
        let (_, bytes) = page.parts();
        let page = String::from_utf8_lossy(alloc, bytes)?;
        text.push_str(fault_in(page.as_str()))?;
    }
    Ok(text)
}

/// What a page says is wrong.
fn fault_in(page: &str) -> &str {
    match page.split_once("<p class=\"fault\">") {
        Some((_, rest)) => match rest.split_once("</p>") {
            Some((text, _)) => text,
            None => "",
        },
        None => "",
    }
}

/// Sends a form. Without a user there is no answer.
fn send<L: Link, K: Keeper>(
    alloc: Global,
    account: &mut Account<L, K>,
    form: u64,
) -> Result<String, Memory> {
    if account.user().is_none() {
        return String::from_str(alloc, "nobody");
    }
    let key = Text::from_text(alloc, "k")?;
    let answer = account.handle(alloc, &key, &ask_of(alloc, form)?, 1_767_225_600)?;
    told(alloc, &answer)
}

/// An ask that sends a form.
fn ask_of(alloc: Global, form: u64) -> Result<Ask, Memory>
    ensures { IfOk result (λ ask. is_served ask ≡ true) }
{
    let mut fields = draft(alloc, "bob@d.example")?;
    fields.form = form;
    Ok(Ask::SendDraft {
        key: Text::from_text(alloc, "k")?,
        fields,
    })
}

/// Logs Ann in and sends these forms, and returns what is told of each.
fn send_all<L: Link, K: Keeper>(
    alloc: Global,
    account: &mut Account<L, K>,
    forms: &[u64],
) -> Result<String, Memory> {
    let user = Text::from_text(alloc, "ann")?;
    let password = Text::from_text(alloc, "pw")?;
    let mut text = String::new(alloc);
    if account.login(alloc, &user, &password).is_err() {
        text.push_str("no login")?;
        return Ok(text);
    }
    for form in forms {
        text.push_str(send(alloc, account, *form)?.as_str())?;
        text.push_str("; ")?;
    }
    Ok(text)
}

fn run(alloc: Global, post_fails: u64, forms: &[u64]) -> Result<String, Memory> {
    let mut account = account_of(alloc, post_fails)?;
    send_all(alloc, &mut account, forms)
}

#[test]
fn forms_are_sent_once(rt: HostRuntime) -> Result<(), Fail> {
    let alloc: Global = rt.alloc();
    let doubt = "409 It is not known whether form 000000000000002b was sent.; ";
    let cases: [(u64, &[u64], &str, usize); 3] = [
        // The second sending of a form says nothing, nor does its third: the mail server has no more to say.
        (0, &[42, 42, 42], "303 /; 303 /; 303 /; ", 0),
        // The reply to the dot of the second form never comes.
        (31, &[42, 43, 43, 43, 42], "303 /; ", 3),
        (1, &[43], "503 The server cannot be reached.; ", 0),
    ];
    for (post_fails, forms, first, doubts) in cases {
        let mut want = String::from_str(alloc, first)?;
        for _ in 0..doubts {
            want.push_str(doubt)?;
        }
        if doubts > 0 {
            want.push_str("303 /; ")?;
        }
        assert_eq!(rt; run(alloc, post_fails, forms)?.as_str(), want.as_str());
    }
    Ok(())
}

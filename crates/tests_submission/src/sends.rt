//! A form that is sent twice, with calls that fail.
ghost use Rattle.std.specs.Prelude.{IsSome};

use crate::posts::dial;
use account_sends::{Outbox, SendFault};
use mail_io::{Memory, ScriptedLink, Text};
use record_io::MemoryKeeper;
use site_asks::Draft;
use std::alloc::Global;
use std::test::*;

pub fn draft(alloc: Global, to: &str) -> Result<Draft, Memory> {
    Ok(Draft {
        form: 43,
        identity: 1,
        to: Text::from_text(alloc, to)?,
        cc: Text::from_text(alloc, "")?,
        subject: Text::from_text(alloc, "a")?,
        text: Text::from_text(alloc, "Hello")?,
        refs: Text::from_text(alloc, "")?,
        old: None,
    })
}

/// Sends a form of Ann's.
fn send(
    alloc: Global,
    outbox: &mut Outbox<ScriptedLink, MemoryKeeper>,
    to: &str,
) -> Result<(), SendFault>
    requires { IsSome outbox.old.adopted }
    ensures { IsSome outbox.new.adopted }
{
    let ann = Text::from_text(alloc, "ann")?;
    let password = Text::from_text(alloc, "pw")?;
    let domain = Text::from_text(alloc, "c.example")?;
    match outbox.prepare(alloc, &ann, &domain, &draft(alloc, to)?, 1_767_225_600)? {
        Some(letter) => outbox.submit(alloc, &ann, &password, &letter),
        None => Ok(()),
    }
}

fn push_name(
    alloc: Global,
    names: &mut String,
    sent: &Result<(), SendFault>,
) -> Result<(), Memory> {
    match sent {
        Ok(()) => names.push_str("sent")?,
        Err(SendFault::NoRecipient) => names.push_str("nobody")?,
        Err(SendFault::NotAddress { field, at }) => {
            let field = field.as_str();
            write!(names, "{field} {at}")?;
        }
        Err(SendFault::Long { .. }) => names.push_str("long")?,
        Err(SendFault::Refused { code, text }) => {
            let text = String::from_utf8_lossy(alloc, text.as_slice())?;
            write!(names, "{code} {text}")?;
        }
        Err(SendFault::Damaged { at }) => write!(names, "damaged {at}")?,
        Err(SendFault::Unreachable) => names.push_str("unreachable")?,
        Err(SendFault::InDoubt) => names.push_str("doubt")?,
        Err(SendFault::Unkept) => names.push_str("unkept")?,
        Err(SendFault::Memory) => names.push_str("memory")?,
    }
    names.push_str(".")
}

/// What the two servers and the numbers of the calls are that fail: the first post server's reply with the number `changed` is another one.
#[derive(Clone, Copy)]
struct Case<'a> {
    changed: usize,
    reply: &'a str,
    link_fails: u64,
    keeper_fails: u64,
    to: &'a str,
}

/// An outbox that no account was adopted for yet.
fn outbox(alloc: Global, case: Case<'_>) -> Result<Outbox<ScriptedLink, MemoryKeeper>, Memory> {
    let mut dials = Vec::new(alloc);
    dials.push(dial(alloc, case.changed, case.reply)?)?;
    dials.push(dial(alloc, 9, "")?)?;
    let link_fails = Vec::from_slice(alloc, &[case.link_fails])?;
    let keeper_fails = Vec::from_slice(alloc, &[case.keeper_fails])?;
    let link = ScriptedLink::new(alloc, dials, 9_999, 99, link_fails)?;
    Ok(Outbox::new(link, MemoryKeeper::new(alloc, keeper_fails)))
}

/// Sends a form twice, and returns how that ended.
fn run(alloc: Global, case: Case<'_>) -> Result<String, SendFault> {
    let mut outbox = outbox(alloc, case)?;
    outbox.adopt(alloc, &Text::from_text(alloc, "ann")?)?;
    let mut names = String::new(alloc);
    push_name(alloc, &mut names, &send(alloc, &mut outbox, case.to))?;
    push_name(alloc, &mut names, &send(alloc, &mut outbox, case.to))?;
    Ok(names)
}

const USUAL: Case<'static> = Case {
    changed: 9,
    reply: "",
    link_fails: 0,
    keeper_fails: 0,
    to: "bob@d.example",
};

/// How the sending ended, or nothing if memory ran out.
fn told(alloc: Global, case: Case<'_>) -> String {
    match run(alloc, case) {
        Ok(names) => names,
        Err(_) => String::new(alloc),
    }
}

#[test]
fn replies_of_the_server(rt: HostRuntime) -> Result<(), Fail> {
    let alloc: Global = rt.alloc();
    let cases: [(usize, &str, &str); 6] = [
        (9, "", "sent.sent."),
        (4, "550 no", "550 no.sent."),
        (0, "hello", "damaged 0.sent."),
        (6, "554 spam", "554 spam.sent."),
        (6, "hello", "doubt.doubt."),
        (6, "25", "doubt.doubt."),
    ];
    for (changed, reply, names) in cases {
        let case = Case {
            changed,
            reply,
            ..USUAL
        };
        assert_eq!(rt; told(alloc, case).as_str(), names);
    }
    Ok(())
}

#[test]
fn calls_of_the_link_fail(rt: HostRuntime) -> Result<(), Fail> {
    let alloc: Global = rt.alloc();
    for number in 1u64..18 {
        let names = match number {
            // The dial, the replies before the dot, and what is said up to it.
            1..=13 => "unreachable.sent.",
            // The dot and its reply.
            14 | 15 => "doubt.doubt.",
            // QUIT, and no call.
            _ => "sent.sent.",
        };
        let case = Case {
            link_fails: number,
            ..USUAL
        };
        assert_eq!(rt; told(alloc, case).as_str(), names);
    }
    Ok(())
}

#[test]
fn calls_of_the_keeper_fail(rt: HostRuntime) -> Result<(), Fail> {
    let alloc: Global = rt.alloc();
    // The first call adopts the account.
    let cases: [(u64, &str); 6] = [
        (2, "unkept.sent."),
        (3, "unkept.sent."),
        (4, "unkept.sent."),
        (5, "unkept.doubt."),
        (6, "sent.unkept."),
        (7, "sent.sent."),
    ];
    for (number, names) in cases {
        let case = Case {
            keeper_fails: number,
            ..USUAL
        };
        assert_eq!(rt; told(alloc, case).as_str(), names);
    }
    Ok(())
}

#[test]
fn drafts_that_are_no_message(rt: HostRuntime) -> Result<(), Fail> {
    let alloc: Global = rt.alloc();
    for (to, names) in [(" ", "nobody.nobody."), ("bob@", "to 4.to 4.")] {
        assert_eq!(rt; told(alloc, Case { to, ..USUAL }).as_str(), names);
    }
    Ok(())
}

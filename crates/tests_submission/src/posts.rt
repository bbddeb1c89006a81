//! What is said to a post server, and what its replies mean.
use mail_io::{Bytes, Memory, Piece, ScriptedLink, Text, Words};
use std::alloc::Global;
use std::test::*;
use submission::{Envelope, SubmitFault, submit};

/// The replies of a server that takes a message, with those of one step replaced.
const REPLIES: [&str; 7] = [
    "220 hi",
    "250 ok",
    "235 ok",
    "250 ok",
    "250 ok",
    "354 go",
    "250 taken",
];

/// What a server says after one dial: a chunk for each reply. The reply with the number `changed` is another one.
pub fn dial(alloc: Global, changed: usize, reply: &str) -> Result<Words, Memory> {
    let mut chunks = Words::new(alloc);
    for (number, usual) in REPLIES.iter().enumerate() {
        let text = if number == changed { reply } else { *usual };
        let mut bytes = Vec::from_slice(alloc, text.as_bytes())?;
        bytes.extend_from_slice(b"\r\n")?;
        chunks.push(Bytes::from_vec(bytes))?;
    }
    Ok(chunks)
}

fn envelope(alloc: Global) -> Result<Envelope, Memory> {
    let mut to = Vec::new(alloc);
    to.push(Text::from_text(alloc, "bob@d.example")?)?;
    Ok(Envelope {
        form: 42,
        from: Text::from_text(alloc, "ann@c.example")?,
        to,
    })
}

/// Names how a submission ended.
fn name_of(alloc: Global, posted: &Result<(), SubmitFault>) -> Result<String, Memory> {
    let mut name = String::new(alloc);
    match posted {
        Ok(()) => name.push_str("taken")?,
        Err(SubmitFault::Refused { code, text }) => {
            let text = String::from_utf8_lossy(alloc, text.as_slice())?;
            write!(name, "refused {code} {text}")?;
        }
        Err(SubmitFault::Damaged { at }) => write!(name, "damaged {at}")?,
        Err(SubmitFault::Link) => name.push_str("link")?,
        Err(SubmitFault::Doubt) => name.push_str("doubt")?,
        Err(SubmitFault::Memory) => name.push_str("memory")?,
    }
    Ok(name)
}

/// Appends what was said, with `|` for the end of a line.
fn push_said(alloc: Global, text: &mut String, pieces: &[Piece]) -> Result<(), Memory> {
    for piece in pieces {
        if let Piece::Said(bytes) = piece {
            let said = String::from_utf8_lossy(alloc, bytes.as_slice())?;
            for line in said.split_terminator("\r\n") {
                text.push_str(line)?;
                text.push_str("|")?;
            }
        }
    }
    Ok(())
}

/// Submits a message, and returns how that ended and what was said.
fn run(alloc: Global, changed: usize, reply: &str) -> Result<String, Memory> {
    let mut dials = Vec::new(alloc);
    dials.push(dial(alloc, changed, reply)?)?;
    let mut link = ScriptedLink::new(alloc, dials, 9_999, 99, Vec::new(alloc))?;
    let message = b"Subject: a\r\n\r\n.x\r\ny\r\n";
    let posted = submit(alloc, &mut link, "ann", "pw", &envelope(alloc)?, message);
    let mut text = name_of(alloc, &posted)?;
    text.push_str(": ")?;
    push_said(alloc, &mut text, &link.talk(alloc)?)?;
    Ok(text)
}

#[test]
fn replies(rt: HostRuntime) -> Result<(), Fail> {
    let alloc: Global = rt.alloc();
    let cases: [(usize, &str, &str); 8] = [
        (
            9,
            "",
            "taken: EHLO webmail|AUTH PLAIN AGFubgBwdw==|MAIL FROM:<ann@c.example>|RCPT TO:<bob@d.example>|DATA|Subject: a||..x|y|.|QUIT|",
        ),
        (0, "554 busy", "refused 554 busy: "),
        (0, "hello", "damaged 0: "),
        (
            1,
            "250-size 9\r\n250 ok",
            "taken: EHLO webmail|AUTH PLAIN AGFubgBwdw==|MAIL FROM:<ann@c.example>|RCPT TO:<bob@d.example>|DATA|Subject: a||..x|y|.|QUIT|",
        ),
        (
            2,
            "535 no",
            "refused 535 no: EHLO webmail|AUTH PLAIN AGFubgBwdw==|",
        ),
        (
            4,
            "550 no",
            "refused 550 no: EHLO webmail|AUTH PLAIN AGFubgBwdw==|MAIL FROM:<ann@c.example>|RCPT TO:<bob@d.example>|",
        ),
        (
            6,
            "554 spam",
            "refused 554 spam: EHLO webmail|AUTH PLAIN AGFubgBwdw==|MAIL FROM:<ann@c.example>|RCPT TO:<bob@d.example>|DATA|Subject: a||..x|y|.|",
        ),
        (
            6,
            "25",
            "doubt: EHLO webmail|AUTH PLAIN AGFubgBwdw==|MAIL FROM:<ann@c.example>|RCPT TO:<bob@d.example>|DATA|Subject: a||..x|y|.|",
        ),
    ];
    for (changed, reply, told) in cases {
        assert_eq!(rt; run(alloc, changed, reply)?.as_str(), told);
    }
    Ok(())
}

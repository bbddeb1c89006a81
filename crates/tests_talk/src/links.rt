//! A scripted link: its faults, its rooms and its talk.
use mail_io::{Bytes, Failed, Link, Memory, Piece, ScriptedLink, Words};
use std::alloc::Global;
use std::test::*;

/// What a server says after two dials: two chunks and then one.
fn dials(alloc: Global) -> Result<Vec<Words>, Memory> {
    let mut first = Words::new(alloc);
    first.push(Bytes::from_slice(alloc, b"abcde")?)?;
    first.push(Bytes::from_slice(alloc, b"fg")?)?;
    let mut second = Words::new(alloc);
    second.push(Bytes::from_slice(alloc, b"hi")?)?;
    let mut dials = Vec::new(alloc);
    dials.push(first)?;
    dials.push(second)?;
    Ok(dials)
}

/// Makes a call: a dial for `d`, a send for `s`, else a receive. Returns `+`, or `-` at a fault.
fn call(link: &mut ScriptedLink, name: char) -> char {
    let result: Result<(), Failed> = match name {
        'd' => link.redial(true),
        's' => link.send(b"xy"),
        _ => receive(link),
    };
    if result.is_ok() { '+' } else { '-' }
}

fn receive(link: &mut ScriptedLink) -> Result<(), Failed> {
    let mut room = [0; 4];
    link.receive(&mut room)?;
    Ok(())
}

fn push_piece(alloc: Global, text: &mut String, piece: &Piece) -> Result<(), Memory> {
    let (name, bytes) = match piece {
        Piece::Dialled { .. } => (" d", b"".as_slice()),
        Piece::Said(bytes) => (" s:", bytes.as_slice()),
        Piece::Heard(bytes) => (" h:", bytes.as_slice()),
    };
    text.push_str(name)?;
    text.push_str(String::from_utf8_lossy(alloc, bytes)?.as_str())
}

/// The results of calls, and then the talk.
fn told(
    alloc: Global,
    failing: &[u64],
    bytes: usize,
    entries: usize,
    calls: &str,
) -> Result<String, Memory> {
    let failing = Vec::from_slice(alloc, failing)?;
    let mut link = ScriptedLink::new(alloc, dials(alloc)?, bytes, entries, failing)?;
    let mut text = String::new(alloc);
    for name in calls.chars() {
        text.push(call(&mut link, name))?;
    }
    for piece in &link.talk(alloc)? {
        push_piece(alloc, &mut text, piece)?;
    }
    Ok(text)
}

#[test]
fn scripted_links(rt: HostRuntime) -> Result<(), Fail> {
    let alloc: Global = rt.alloc();
    let cases: [(&[u64], usize, usize, &str, &str); 8] = [
        // A call gives bytes of one chunk, and a dial loses what is left.
        (&[], 99, 9, "drrrr", "++++- d h:abcd h:e h:fg"),
        (&[], 99, 9, "drdrr", "++++- d h:abcd d h:hi"),
        (&[], 99, 9, "rdsds", "-++++ d s:xy d s:xy"),
        // Calls that are listed fail once.
        (&[1, 4], 99, 9, "ddsss", "-++-+ d s:xy s: s:xy"),
        (&[2], 99, 9, "drr", "+-+ d h:abcd"),
        // The rooms for bytes and entries are full.
        (&[], 5, 9, "drsrr", "++-+- d h:abcd s: h:e"),
        (&[], 99, 2, "drsrds", "++---- d h:abcd s:"),
        (&[], 99, 0, "dssr", "---- s:"),
    ];
    for (failing, bytes, entries, calls, expected) in cases {
        assert_eq!(rt;
            told(alloc, failing, bytes, entries, calls)?.as_str(),
            expected
        );
    }
    Ok(())
}

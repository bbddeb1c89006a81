//! Commands as lines: a name in lower case, numbers, and a text that goes to the line's end.
use imap_commands::{Command, Known, Label, write};
use mail_io::{Bytes, Memory, Text};
use std::alloc::Global;

/// Splits a line at its first space.
fn split(line: &str) -> (&str, &str) {
    line.split_once(' ').unwrap_or((line, ""))
}

/// The number of a word, 0 if it is none.
fn number(word: &str) -> u64 {
    word.parse::<u64>().unwrap_or(0)
}

fn uid(word: &str) -> u32 {
    word.parse::<u32>().unwrap_or(0)
}

/// Reads a command. A name that isn't known is a NOOP.
pub fn command_of(alloc: Global, line: &str) -> Result<Command, Memory> {
    let (name, rest) = split(line);
    Ok(match name {
        "login" => login(alloc, rest)?,
        "capability" => Command::Capability,
        "enable" => Command::Enable,
        "list" => Command::List,
        "select" => Command::Select {
            folder: Text::from_text(alloc, rest)?,
            known: None,
        },
        "resync" => resync(alloc, rest)?,
        "new" => Command::FetchNew { from: uid(rest) },
        "changed" => Command::FetchChanged { mark: number(rest) },
        "body" => Command::FetchBody { uid: uid(rest) },
        "search" => Command::Search {
            words: Text::from_text(alloc, rest)?,
        },
        _ => change_of(alloc, name, rest)?,
    })
}

/// Reads a command that changes a folder.
fn change_of(alloc: Global, name: &str, rest: &str) -> Result<Command, Memory> {
    let (first, second) = split(rest);
    Ok(match name {
        "see" => Command::Store {
            uid: uid(rest),
            label: Label::Seen,
            on: true,
        },
        "move" => Command::Move {
            uid: uid(first),
            to: Text::from_text(alloc, second)?,
        },
        "expunge" => Command::Expunge { uid: uid(rest) },
        "append" => Command::Append {
            folder: Text::from_text(alloc, first)?,
            label: Some(Label::Seen),
            message: Bytes::from_slice(alloc, second.as_bytes())?,
        },
        _ => Command::Noop,
    })
}

fn login(alloc: Global, rest: &str) -> Result<Command, Memory> {
    let (user, password) = split(rest);
    Ok(Command::Login {
        user: Text::from_text(alloc, user)?,
        password: Text::from_text(alloc, password)?,
    })
}

/// A SELECT of a folder whose UIDVALIDITY and mark are known.
fn resync(alloc: Global, rest: &str) -> Result<Command, Memory> {
    let (validity, rest) = split(rest);
    let (mark, folder) = split(rest);
    Ok(Command::Select {
        folder: Text::from_text(alloc, folder)?,
        known: Some(Known {
            validity: uid(validity),
            mark: number(mark),
        }),
    })
}

/// Spells the commands of lines, with tags from A1 on. Each piece is written after a line with its length; an empty line ends a command.
pub fn spell_all(alloc: Global, lines: &[u8]) -> Result<Vec<u8>, Memory> {
    let text = String::from_utf8_lossy(alloc, lines)?;
    let mut out = Vec::new(alloc);
    let mut tag: u32 = 0;
    for line in text.as_str().lines() {
        tag = tag.saturating_add(1);
        spell(alloc, &mut out, line, tag)?;
    }
    Ok(out)
}

fn spell(alloc: Global, out: &mut Vec<u8>, line: &str, tag: u32) -> Result<(), Memory> {
    let command = command_of(alloc, line)?;
    for piece in &write(alloc, &command, tag)? {
        let len = piece.len();
        let head = format!(in alloc; "{len}\n")?;
        out.extend_from_slice(head.as_bytes())?;
        out.extend_from_slice(piece)?;
        out.extend_from_slice(b"\n")?;
    }
    out.extend_from_slice(b"\n")
}

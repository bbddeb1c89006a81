//! Recordings: a line for each event, and after a line `hear N` the N bytes that were heard and a line end.
//!
//! `dial` and `fresh` are dials, `say` and a command is its first piece, `on` the next piece of the same command, and `show` asks for a report.
use crate::commands::command_of;
use crate::report::report;
use imap_commands::{Command, write};
use mail_io::Memory;
use mail_talk::Listener;
use std::alloc::Global;

/// Who says the commands of a recording and hears the answers.
#[derive(Drop)]
struct Client {
    alloc: Global,
    listener: Listener,
    command: Command,
    /// The pieces of the command that weren't said yet.
    pieces_left: usize,
    /// How many bytes are heard at once.
    size: usize,
    /// The reports so far.
    out: Vec<u8>,
}

impl Client {
    fn say(&mut self, line: &str) -> Result<(), Memory> {
        let command = command_of(self.alloc, line)?;
        let tag = self.listener.told().view().number().saturating_add(1);
        let pieces = write(self.alloc, &command, tag)?.len();
        if pieces == 1 {
            self.listener.said(&command)?;
        } else {
            self.listener.began(&command)?;
        }
        self.command = command;
        self.pieces_left = pieces.saturating_sub(1);
        Ok(())
    }

    fn go_on(&mut self) -> Result<(), Memory> {
        self.pieces_left = self.pieces_left.saturating_sub(1);
        if self.pieces_left == 0 {
            self.listener.completed(&self.command)
        } else {
            self.listener.went_on()
        }
    }

    fn hear(&mut self, bytes: &[u8]) -> Result<(), Memory> {
        for piece in bytes.chunks(self.size.max(1)) {
            self.listener.hear(piece)?;
        }
        Ok(())
    }

    fn show(&mut self) -> Result<(), Memory> {
        let text = report(self.alloc, &self.listener)?;
        self.out.extend_from_slice(text.as_bytes())
    }

    /// Takes the event of a line. After it come the bytes that were heard, whose number is returned.
    fn take(&mut self, line: &str) -> Result<usize, Memory> {
        let (event, rest) = line.split_once(' ').unwrap_or((line, ""));
        match event {
            "dial" => self.listener.dialled(false),
            "fresh" => self.listener.dialled(true),
            "say" => self.say(rest)?,
            "on" => self.go_on()?,
            "show" => self.show()?,
            "hear" => return Ok(rest.parse::<usize>().unwrap_or(0)),
            _ => {}
        }
        Ok(0)
    }
}

/// Hears a recording in pieces of at most `size` bytes, and returns its reports, and one at its end.
pub fn hear(alloc: Global, bytes: &[u8], size: usize) -> Result<Vec<u8>, Memory> {
    let mut client = Client {
        alloc,
        listener: Listener::new(alloc),
        command: Command::Noop,
        pieces_left: 0,
        size,
        out: Vec::new(alloc),
    };
    let mut rest = bytes;
    for _ in 0..bytes.len() {
        if rest.is_empty() {
            break;
        }
        rest = hear_event(&mut client, rest)?;
    }
    client.show()?;
    Ok(client.out)
}

/// Takes the event at the front, and returns the bytes after it.
fn hear_event<'a>(client: &mut Client, bytes: &'a [u8]) -> Result<&'a [u8], Memory> {
    let end = bytes
        .iter()
        .position(|byte| *byte == b'\n')
        .unwrap_or(bytes.len());
    let (line, after) = bytes.split_at(end);
    let line = String::from_utf8_lossy(client.alloc, line)?;
    let count = client.take(line.as_str())?;
    let after = after.get(1..).unwrap_or(&[]);
    let (heard, after) = after.split_at(count.min(after.len()));
    client.hear(heard)?;
    Ok(after)
}

//! What a mail server answers to each command.
ghost use Rattle.std.specs.Prelude.{◌≤◌, length};

use mail_io::Memory;
use std::alloc::Global;
use std::str;

/// The answers of a server that has a folder with one message: `COMMAND>ANSWER`, separated by `|`. The first that begins a command is its
/// answer. `^` ends a line, and a line of `OK`, `NO` or `BAD` gets the tag of the command.
/// A line of `%` and a number is that many bytes, and doesn't end.
pub const MAIL: &str = concat!(
    "GREETING>* OK hi",
    "|LOGIN>OK in",
    "|CAPABILITY>* CAPABILITY IMAP4rev2 QRESYNC^OK x",
    "|ENABLE>* ENABLED QRESYNC^OK x",
    "|LIST>* LIST () \"/\" INBOX^* LIST (\\Sent) \"/\" Out^OK x",
    "|SELECT>* OK [UIDVALIDITY 8] x^* OK [HIGHESTMODSEQ 20] x^OK x",
    "|NOOP>OK x",
    "|UID FETCH 1:* (UID FLAGS MODSEQ INTERNALDATE>* 1 FETCH (UID 5 FLAGS (\\Seen) MODSEQ (20) INTERNALDATE \" 1-Jan-2026 00:00:00 +0000\" RFC822.SIZE 10 BODY[HEADER.FIELDS (FROM SUBJECT)] {33}^From: a@b.example^Subject: s^^)^OK x",
    "|UID FETCH 1:*>OK x",
    "|UID FETCH 6:*>OK x",
    "|UID FETCH 5 >* 1 FETCH (UID 5 BODY[] {16}^Subject: s^^hi)^OK x",
);

/// Returns the answer to a command in a list of answers, if there is one.
fn answer_in(answers: &'static str, command: &str) -> Option<&'static str> {
    for entry in answers.split('|') {
        if let Some((start, answer)) = entry.split_once('>') {
            if command.starts_with(start) {
                return Some(answer);
            }
        }
    }
    None
}

fn is_tagged(line: &str) -> bool {
    line.starts_with("OK") || line.starts_with("NO") || line.starts_with("BAD")
}

/// The bytes that a server sends, in a room that is made at first.
#[derive(Drop)]
pub struct Replies {
    /// These answers come before those of `MAIL`.
    change: &'static str,
    pending: Vec<u8>,
    at: usize,
    /// How many bytes are still to be sent before `pending` goes on at `filling_at`.
    filling: usize,
    filling_at: usize,
}

impl Replies {
    pub fn new(alloc: Global, change: &'static str) -> Result<Self, Memory> {
        Ok(Replies {
            change,
            pending: Vec::with_capacity(alloc, 1_024)?,
            at: 0,
            filling: 0,
            filling_at: 0,
        })
    }

    /// Prepares the answer to a command, or an empty line if there is none.
    pub fn answer(&mut self, tag: &str, command: &str) -> Result<(), Memory> {
        self.pending.clear();
        self.at = 0;
        self.filling = 0;
        let answer = answer_in(self.change, command).or(answer_in(MAIL, command));
        for line in answer.unwrap_or("").split('^') {
            self.push_line(tag, line)?;
        }
        Ok(())
    }

    fn push_line(&mut self, tag: &str, line: &str) -> Result<(), Memory> {
        if let Some(count) = line.strip_prefix('%') {
            self.filling = count.parse::<usize>().unwrap_or(0);
            self.filling_at = self.pending.len();
            return Ok(());
        }
        if is_tagged(line) {
            self.pending.extend_from_slice(tag.as_bytes())?;
            self.pending.push(b' ')?;
        }
        self.pending.extend_from_slice(line.as_bytes())?;
        self.pending.extend_from_slice(b"\r\n")
    }

    /// Moves bytes into `room` and returns their number.
    pub fn take(&mut self, room: &mut [u8]) -> usize
        ensures { result ≤ length room.new }
    {
        if self.filling > 0 && self.at == self.filling_at {
            let count = self.filling.min(room.len());
            room[..count].fill(b'x');
            self.filling -= count;
            return count;
        }
        let end = if self.filling > 0 {
            self.filling_at
        } else {
            self.pending.len()
        };
        let rest = self.pending.get(self.at..end).unwrap_or(&[]);
        let count = rest.len().min(room.len());
        room[..count].copy_from_slice(&rest[..count]);
        self.at = self.at.saturating_add(count);
        count
    }
}

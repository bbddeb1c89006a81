//! A reply of a server, read byte by byte.
ghost use Rattle.std.specs.Prelude.{◌≡◌, ◌≤◌, ◌+◌, IfOk, true};
ghost use Rattle.submission.specs.Replies.{Reading, begun, ended, ends_in_return, is_awaited, place_after, read, reply_limit, text_of, without_last};

use crate::lines::{Line, line_of};
use mail_values::Bytes;
use std::alloc::{AllocError, Global};
use std::marker::Model;

/// The most bytes of a reply.
const LIMIT: usize = 65_536;

/// What a reply is.
#[derive(Clone, Copy)]
pub enum Verdict {
    /// It isn't whole yet.
    Awaited,
    /// It is whole, and has this code.
    Whole(u16),
    /// It is outside the grammar, or too long.
    Wrong,
}

impl Verdict {
    pub fn is_awaited(self) -> bool
        ensures { result ≡ is_awaited self }
    {
        matches!(self, Verdict::Awaited)
    }
}

/// A reply so far. Its memory is taken when it is made.
#[derive(Drop)]
pub struct Replies {
    line: Vec<u8>,
    size: usize,
    at: u64,
    verdict: Verdict,
}

impl Model for Replies {
    ghost use Rattle.submission.specs.Replies.{Reading};
    ghost use Rattle.submission.specs.Hearings.{HasRoom};

    ghost Value = { Reading };

    ghost view = { λ r. record { line = r.line.items; size = r.size; at = r.at; verdict = r.verdict } };

    ghost invariant = { λ r. HasRoom r.line r.size };
}

impl Replies {
    /// Returns room for replies, of which the first is awaited.
    pub fn new(alloc: Global) -> Result<Self, AllocError>
        ensures { IfOk result (λ replies. replies ≡ begun 0) }
    {
        Ok(Replies {
            line: Vec::with_capacity(alloc, LIMIT)?,
            size: 0,
            at: 0,
            verdict: Verdict::Awaited,
        })
    }

    pub fn verdict(&self) -> Verdict
        ensures { result ≡ self.now.verdict }
    {
        self.verdict
    }

    /// Where the reply begins, in bytes since the dial.
    pub fn at(&self) -> u64
        ensures { result ≡ self.now.at }
    {
        self.at
    }

    /// Awaits a reply that begins at a place.
    fn begin(&mut self, at: u64)
        ensures { self.new ≡ begun at }
    {
        self.line.clear();
        self.size = 0;
        self.at = at;
        self.verdict = Verdict::Awaited;
    }

    /// Awaits the first reply of a dial.
    pub fn dial(&mut self)
        ensures { self.new ≡ begun 0 }
    {
        self.begin(0);
    }

    /// Awaits the reply after this one.
    pub fn begin_next(&mut self)
        ensures { self.new ≡ begun (place_after self.old) }
    {
        let at = self.at.saturating_add(self.size as u64);
        self.begin(at);
    }

    fn ends_in_return(&self) -> bool
        ensures { result ≡ ends_in_return self.now.line }
    {
        match self.line.last() {
            Some(byte) => *byte == b'\r',
            None => false,
        }
    }

    /// Ends a line, of which the CR was read.
    fn end_line(&mut self)
        requires room { self.old.size + 1 ≤ reply_limit }
        ensures { self.new ≡ ended (without_last self.old.line) self.old }
    {
        let _ = self.line.pop();
        self.size += 1;
        match line_of(&self.line) {
            Line::Last(code) => self.verdict = Verdict::Whole(code),
            Line::More => {
                self.line.clear();
                self.verdict = Verdict::Awaited;
            }
            Line::NoReply => self.verdict = Verdict::Wrong,
        }
    }

    /// Reads one more byte of a reply that is awaited.
    #[tactic(auto, unfolding(crate::specs::Replies::read))]
    pub fn read(&mut self, byte: u8)
        requires awaited { is_awaited self.old.verdict ≡ true }
        ensures equals { self.new ≡ read self.old byte }
        ensures bound { self.new.size ≤ reply_limit }
    {
        if self.size >= LIMIT {
            self.verdict = Verdict::Wrong;
        } else if byte == b'\n' && self.ends_in_return() {
            self.end_line();
        } else {
            self.line.push(byte).unwrap();
            self.size += 1;
        }
    }

    /// Returns the text of a whole reply's last line.
    pub fn into_text(self) -> Bytes
        ensures { result ≡ text_of self.line }
    {
        let Replies { mut line, .. } = self;
        let code = line.len().min(4);
        line.rotate_left(code);
        line.truncate(line.len() - code);
        Bytes::from_vec(line)
    }
}

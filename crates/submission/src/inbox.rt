//! What a server replies, as it is received.
ghost use Rattle.std.specs.Prelude.{◌≡◌, ◌<◌, ◌≤◌, ◌+◌, [], true, length, drop, IfOk, OnOk, OnErr};
ghost use Rattle.mail_io.specs.Causes.{HasCause};
ghost use Rattle.mail_io.specs.Talks.{KeepsTalk};
ghost use Rattle.submission.specs.Hearings.{HearsPiece};
ghost use Rattle.submission.specs.Replies.{dialled, hear, is_awaited, is_awaiting, next_reply, reply_limit};
ghost use Rattle.submission.specs.Submits.{fault_seen};

use crate::fault::{Stop, SubmitFault};
use crate::replies::{Replies, Verdict};
use mail_io::{Failed, Link};
use std::alloc::{AllocError, Global};
use std::marker::Model;

/// The bytes that are received at once.
const ROOM: usize = 4_096;

/// A reply so far, and the bytes that came after it. Its memory is taken when it is made.
#[derive(Drop)]
pub struct Inbox {
    reply: Replies,
    room: [u8; ROOM],
    from: usize,
    to: usize,
}

impl Model for Inbox {
    ghost use Rattle.submission.specs.Replies.{Hearing};
    ghost use Rattle.submission.specs.Hearings.{IsRoomy, unread};

    ghost Value = { Hearing };

    ghost view = { λ i. record { reading = i.reply; rest = unread i.room i.from i.to } };

    ghost invariant = { λ i. IsRoomy i.reply i.room i.from i.to };
}

/// Reads bytes from a place on, up to the end of a reply, and returns where that is.
fn read_from(reply: &mut Replies, bytes: &[u8], from: usize) -> usize
    requires within { from ≤ length bytes.now }
    ensures goes_on { from ≤ result }
    ensures bound { result ≤ length bytes.now }
    ensures reads { hear (record { reading = reply.old; rest = [] }) (drop from bytes.now) ≡ record { reading = reply.new; rest = drop result bytes.now } }
    ensures reads_all { is_awaited reply.new.verdict ≡ true → result ≡ length bytes.now }
    ensures grows { is_awaited reply.new.verdict ≡ true → from + reply.new.size ≡ result + reply.old.size }
    ensures short { reply.old.size ≤ reply_limit → reply.new.size ≤ reply_limit }
{
    let mut at = from;
    while reply.verdict().is_awaited() && at < bytes.len() {
        reply.read(bytes[at]);
        at += 1;
    }
    at
}

impl Inbox {
    pub fn new(alloc: Global) -> Result<Self, AllocError>
        ensures { IfOk result (λ inbox. inbox ≡ dialled) }
    {
        Ok(Inbox {
            reply: Replies::new(alloc)?,
            room: [0; ROOM],
            from: 0,
            to: 0,
        })
    }

    pub fn is_awaiting(&self) -> bool
        ensures { result ≡ is_awaiting self.now }
    {
        self.reply.verdict().is_awaited()
    }

    pub fn verdict(&self) -> Verdict
        ensures { result ≡ self.now.reading.verdict }
    {
        self.reply.verdict()
    }

    /// Awaits the first reply of a dial.
    pub fn dial(&mut self)
        ensures { self.new ≡ dialled }
    {
        self.from = self.to;
        self.reply.dial();
    }

    /// Awaits the next reply, which may have come already.
    pub fn begin_next(&mut self)
        ensures { self.new ≡ next_reply self.old }
    {
        self.reply.begin_next();
        self.from = read_from(&mut self.reply, &self.room[..self.to], self.from);
    }

    /// Receives more bytes of a reply.
    pub fn receive<L: Link>(&mut self, link: &mut L) -> Result<(), Failed>
        requires awaiting { is_awaiting self.old ≡ true }
        ensures hears { OnOk result (HearsPiece (L.talk link.old) (L.talk link.new) self.old self.new) }
        ensures progresses { OnOk result (is_awaiting self.new ≡ true → self.old.reading.size < self.new.reading.size) }
        ensures bound { OnOk result (self.new.reading.size ≤ reply_limit) }
        ensures talk_stays_on_err { OnErr result (KeepsTalk (L.talk link.old) (L.talk link.new)) }
        ensures unchanged_on_err { OnErr result (self.new ≡ self.old) }
        ensures cause { HasCause (L.faults link.old) (L.faults link.new) result }
    {
        self.to = link.receive(&mut self.room)?;
        self.from = read_from(&mut self.reply, &self.room[..self.to], 0);
        Ok(())
    }

    /// Returns the fault that ends a submission.
    pub fn into_fault(self, stop: Stop) -> SubmitFault
        ensures { result ≡ fault_seen stop self }
    {
        match stop {
            Stop::Refused { code } => SubmitFault::Refused {
                code,
                text: self.reply.into_text(),
            },
            Stop::Damaged => SubmitFault::Damaged {
                at: self.reply.at(),
            },
            Stop::Link => SubmitFault::Link,
            Stop::Doubt => SubmitFault::Doubt,
        }
    }
}

//! A caller in memory, whose calls fail if their numbers are in a list. The first call has the number 1.
ghost use Rattle.std.specs.Prelude.{◌≡◌, ◌+◌, ◌<◌, ◌≤◌, ◌⊎◌, ◌↔◌, [], length, take, Some, IsErr, IsTrue, IfOk, OnOk, OnErr, Contains};
ghost use Rattle.std.specs.Io.KnownBytes.{Appends, Keeps};
ghost use Rattle.mail_io.specs.Causes.{HasCause};
ghost use Rattle.mail_io.specs.Memory.{next_count};
ghost use Rattle.mail_io.specs.Scripts.{script_of};
ghost use Rattle.site_io.specs.Callers.{CallerState, after_receive, after_send, failed, received_len};
ghost use Rattle.site_io.specs.Told.{AppendsPrefix};

use crate::Caller;
use mail_io::script::Script;
use mail_io::{Failed, Words};
use std::alloc::{AllocError, Global};
use std::marker::Model;

/// A caller that sends the chunks of a script and records what it hears.
///
/// A call of `receive` returns bytes of one chunk alone; at the end of the chunks, and at a chunk of no bytes, the stream has ended. The room
/// for what is heard and what is sent is made when the caller is made, and a call that would pass it is a fault. A `send` that fails has sent nothing.
#[derive(Drop)]
pub struct ScriptedCaller {
    script: Script,
    heard: Vec<u8>,
    sent: Vec<u8>,
    heard_room: usize,
    sent_room: usize,
    calls: u64,
    faults: u64,
    failing: Vec<u64>,
}

impl Model for ScriptedCaller {
    ghost use Rattle.std.specs.Prelude.{◌≤◌, length, vec_capacity};
    ghost use Rattle.site_io.specs.Callers.{CallerState};

    ghost Value = { CallerState };

    ghost view = { λ c. record { script = c.script; heard = c.heard.items; sent = c.sent.items; heard_room = c.heard_room; sent_room = c.sent_room; calls = c.calls; faults = c.faults; failing = c.failing.items } };

    ghost invariant = { λ c. (c.heard_room ≤ vec_capacity c.heard) × (c.sent_room ≤ vec_capacity c.sent) × (length c.heard.items ≤ c.heard_room) × (length c.sent.items ≤ c.sent_room) };
}

impl ScriptedCaller {
    /// A caller that sends these chunks. There is room to record `heard_room` bytes of them and `sent_room` bytes of replies.
    pub fn new(
        alloc: Global,
        chunks: Words,
        heard_room: usize,
        sent_room: usize,
        failing: Vec<u64>,
    ) -> Result<Self, AllocError>
        ensures { IfOk result (λ c. c ≡ record { script = record { chunks = chunks; dials = [] }; heard = []; sent = []; heard_room = heard_room; sent_room = sent_room; calls = 0; faults = 0; failing = failing.items }) }
    {
        let mut script = Script::new(alloc, vec![in alloc; chunks]?);
        script.redial();
        Ok(ScriptedCaller {
            script,
            heard: Vec::with_capacity(alloc, heard_room)?,
            sent: Vec::with_capacity(alloc, sent_room)?,
            heard_room,
            sent_room,
            calls: 0,
            faults: 0,
            failing,
        })
    }

    /// The bytes sent so far.
    pub fn sent(&self) -> &[u8]
        ensures { result.now ≡ self.now.sent }
    {
        &self.sent
    }

    /// The bytes heard so far.
    pub fn heard(&self) -> &[u8]
        ensures { result.now ≡ self.now.heard }
    {
        &self.heard
    }

    /// Counts a call, and returns whether it fails whatever it is.
    fn begin(&mut self) -> bool
        ensures counts { self.new ≡ record self.old { calls = next_count self.old.calls } }
        ensures decides { IsTrue result ↔ Contains self.old.failing (next_count self.old.calls) }
    {
        self.calls = self.calls.saturating_add(1);
        self.failing.contains(&self.calls)
    }

    fn fail<T>(&mut self) -> Result<T, Failed>
        ensures counts { self.new ≡ record self.old { faults = next_count self.old.faults } }
        ensures cause { HasCause self.old.faults self.new.faults result }
        ensures err { IsErr result }
    {
        self.faults = self.faults.saturating_add(1);
        Err(Failed)
    }
}

impl Caller for ScriptedCaller {
    ghost heard = { λ c. Some c.heard };

    ghost sent = { λ c. Some c.sent };

    ghost faults = { λ c. c.faults };

    fn receive(&mut self, room: &mut [u8]) -> Result<usize, Failed>
        ensures iff_failing { IsErr result ↔ (Contains self.old.failing (next_count self.old.calls) ⊎ ((received_len self.old (length room.old) ≡ 0) ⊎ (self.old.heard_room < length self.old.heard + received_len self.old (length room.old)))) }
        ensures count { IfOk result (λ n. n ≡ received_len self.old (length room.old)) }
        ensures on_ok { IfOk result (λ n. self.new ≡ after_receive self.old n) }
        ensures on_err { OnErr result (self.new ≡ failed self.old) }
        ensures bound { IfOk result (λ n. n ≤ length room.new) }
        ensures hears { IfOk result (λ n. Appends (Some self.old.heard) (Some self.new.heard) (take n room.new)) }
        ensures keeps_sent { Keeps (Some self.old.sent) (Some self.new.sent) }
        ensures cause { HasCause self.old.faults self.new.faults result }
    {
        let count = self.script.front().len().min(room.len());
        if self.begin() || count == 0 || self.heard_room - self.heard.len() < count {
            return self.fail();
        }
        room[..count].copy_from_slice(&self.script.front()[..count]);
        self.script.advance(count);
        self.heard.extend_from_slice(&room[..count]).unwrap();
        Ok(count)
    }

    fn send(&mut self, bytes: &[u8]) -> Result<(), Failed>
        ensures iff_failing { IsErr result ↔ (Contains self.old.failing (next_count self.old.calls) ⊎ (self.old.sent_room < length self.old.sent + length bytes.now)) }
        ensures on_ok { OnOk result (self.new ≡ after_send self.old bytes.now) }
        ensures on_err { OnErr result (self.new ≡ failed self.old) }
        ensures sends_prefix { OnErr result (AppendsPrefix (Some self.old.sent) (Some self.new.sent) bytes.now) }
        ensures keeps_heard { Keeps (Some self.old.heard) (Some self.new.heard) }
        ensures cause { HasCause self.old.faults self.new.faults result }
    {
        if self.begin() || self.sent_room - self.sent.len() < bytes.len() {
            return self.fail();
        }
        self.sent.extend_from_slice(bytes).unwrap();
        Ok(())
    }
}

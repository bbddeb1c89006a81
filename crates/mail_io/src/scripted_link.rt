//! A link in memory, whose calls fail if their numbers are in a list. The first call has the number 1.
ghost use Rattle.std.specs.Prelude.{◌≡◌, ◌<◌, ◌≤◌, ◌⊎◌, ◌↔◌, [], false, length, take, Option, Some, IsErr, IsTrue, IfOk, OnOk, OnErr};
ghost use Rattle.account_pictures.specs.declared.talk.Piece.TheVariants as pieces;
ghost use Rattle.mail_io.specs.Causes.{HasCause};
ghost use Rattle.mail_io.specs.Talks.{AppendsPiece, SaysPrefix};
ghost use Rattle.mail_io.specs.Memory.{next_count};
ghost use Rattle.mail_io.specs.Links.{LinkState, MustFail, failed, after_dial, after_send, after_failed_send, received_len, after_receive};

use crate::recording::Recording;
use crate::script::Script;
use crate::{Failed, Link, Piece, Words};
use std::alloc::{AllocError, Global};
use std::marker::Model;

/// A link that gives the bytes of a script and records its talk.
///
/// It has a list of chunks for each dial. A call of `receive` gives bytes of one chunk alone; at the end of the chunks, and at a chunk of no
/// bytes, the stream has ended. The room for the talk is made when the link is made, and a call that would pass it is a fault. A call of
/// `send` that fails is recorded as a piece of no bytes; for the first that finds no room left there is one entry more.
#[derive(Drop)]
pub struct ScriptedLink {
    script: Script,
    recording: Recording,
    calls: u64,
    faults: u64,
    failing: Vec<u64>,
}

impl Model for ScriptedLink {
    ghost use Rattle.mail_io.specs.Links.{LinkState};

    ghost Value = { LinkState };

    ghost view = { λ l. record { script = l.script; recording = l.recording; calls = l.calls; faults = l.faults; failing = l.failing.items } };
}

impl ScriptedLink {
    /// A link that was not dialled yet, with room for `bytes` bytes and `entries` pieces of talk.
    pub fn new(
        alloc: Global,
        dials: Vec<Words>,
        bytes: usize,
        entries: usize,
        failing: Vec<u64>,
    ) -> Result<Self, AllocError>
        ensures { IfOk result (λ l. l ≡ record { script = record { chunks = []; dials = dials.items }; recording = record { talk = []; byte_room = bytes; entry_room = entries; is_closed = false }; calls = 0; faults = 0; failing = failing.items }) }
    {
        Ok(ScriptedLink {
            script: Script::new(alloc, dials),
            recording: Recording::new(alloc, bytes, entries)?,
            calls: 0,
            faults: 0,
            failing,
        })
    }

    /// The pieces of the talk so far.
    pub fn talk(&self, alloc: Global) -> Result<Vec<Piece>, AllocError>
        ensures { IfOk result (λ pieces. pieces.items ≡ self.now.recording.talk) }
    {
        self.recording.pieces(alloc)
    }

    /// Counts a call, and returns whether it fails whatever it is.
    fn begin(&mut self) -> bool
        ensures counts { self.new ≡ record self.old { calls = next_count self.old.calls } }
        ensures decides { IsTrue result ↔ MustFail self.old }
    {
        self.calls = self.calls.saturating_add(1);
        self.failing.contains(&self.calls) || self.recording.entry_room() == 0
    }

    fn fail<T>(&mut self) -> Result<T, Failed>
        ensures counts { self.new ≡ record self.old { faults = next_count self.old.faults } }
        ensures cause { HasCause self.old.faults self.new.faults result }
        ensures err { IsErr result }
    {
        self.faults = self.faults.saturating_add(1);
        Err(Failed)
    }
}

impl Link for ScriptedLink {
    ghost talk = { λ l. Some l.recording.talk };

    ghost faults = { λ l. l.faults };

    fn redial(&mut self, fresh: bool) -> Result<(), Failed>
        ensures iff_failing { IsErr result ↔ MustFail self.old }
        ensures on_ok { OnOk result (self.new ≡ after_dial self.old fresh) }
        ensures on_err { OnErr result (self.new ≡ failed self.old self.old.recording) }
        ensures cause { HasCause self.old.faults self.new.faults result }
    {
        if self.begin() {
            return self.fail();
        }
        self.script.redial();
        self.recording.dial(fresh);
        Ok(())
    }

    fn send(&mut self, bytes: &[u8]) -> Result<(), Failed>
        requires nonempty { 0 < length bytes.now }
        ensures iff_failing { IsErr result ↔ (MustFail self.old ⊎ (self.old.recording.byte_room < length bytes.now)) }
        ensures on_ok { OnOk result (self.new ≡ after_send self.old bytes.now) }
        ensures on_err { OnErr result (self.new ≡ after_failed_send self.old) }
        ensures says_prefix { OnErr result (SaysPrefix (Some self.old.recording.talk) (Some self.new.recording.talk) bytes.now) }
        ensures cause { HasCause self.old.faults self.new.faults result }
    {
        if self.begin() || self.recording.byte_room() < bytes.len() {
            self.recording.say_nothing();
            return self.fail();
        }
        self.recording.say(bytes);
        Ok(())
    }

    fn receive(&mut self, room: &mut [u8]) -> Result<usize, Failed>
        ensures iff_failing { IsErr result ↔ (MustFail self.old ⊎ ((received_len self.old (length room.old) ≡ 0) ⊎ (self.old.recording.byte_room < received_len self.old (length room.old)))) }
        ensures count { IfOk result (λ n. n ≡ received_len self.old (length room.old)) }
        ensures on_ok { IfOk result (λ n. self.new ≡ after_receive self.old n) }
        ensures on_err { OnErr result (self.new ≡ failed self.old self.old.recording) }
        ensures bound { IfOk result (λ n. n ≤ length room.new) }
        ensures hears { IfOk result (λ n. AppendsPiece (Some self.old.recording.talk) (Some self.new.recording.talk) (pieces.Heard (take n room.new))) }
        ensures cause { HasCause self.old.faults self.new.faults result }
    {
        let count = self.script.front().len().min(room.len());
        if self.begin() || count == 0 || self.recording.byte_room() < count {
            return self.fail();
        }
        room[..count].copy_from_slice(&self.script.front()[..count]);
        self.script.advance(count);
        self.recording.hear(&room[..count]);
        Ok(count)
    }
}

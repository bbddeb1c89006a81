//! Follows a talk with a mail server.
ghost use Rattle.std.specs.Prelude.{◌≡◌, ◌++◌, ◌+◌, [], nat_le, true, length, OnOk};
ghost use Rattle.command_pieces.specs.Verbs.{verb_of_command};
ghost use Rattle.mail_talk.specs.States.{nothing_told, is_listening};
ghost use Rattle.mail_talk.specs.Taking.{TakesNext};
ghost use Rattle.mail_talk.specs.Units.{heard_count, heard_limit, after_heard, drained, with_rest};
ghost use Rattle.mail_talk.specs.Talks.{after_dialled, after_began, after_said, after_went_on, after_completed, if_idle, if_piece};

use crate::Told;
use crate::unit::{Taken, take_unit};
use command_pieces::verb_of;
use imap_commands::Command;
use imap_framing::UnitReader;
use mail_values::Memory;
use std::alloc::Global;
use std::marker::Model;

/// The greatest number of bytes that are heard for one command.
const LIMIT: u64 = 33_554_432;

/// Follows a talk with a mail server: it is given each dial, each piece of a command that was said, and all bytes that were heard, in order.
#[derive(Drop)]
pub struct Listener {
    alloc: Global,
    told: Told,
    units: UnitReader,
    // The number of bytes that are in no response yet, their offset since the dial, and the offset at which the last command was said.
    waiting: u64,
    at: u64,
    from: u64,
}

impl Model for Listener {
    ghost use Rattle.std.specs.Prelude.{◌≡◌, ◌+◌, ◌<◌, ◌≤◌, ◌^◌, length};
    ghost use Rattle.mail_talk.specs.Units.{TalkState};

    ghost Value = { TalkState };

    ghost view = { λ l. record { told = l.told; rest = l.units.rest; at = l.at; from = l.from } };

    ghost invariant = { λ l. (l.waiting ≡ length l.units.rest) × (l.at + l.waiting < 2 ^ 64) × (l.from ≤ l.at) };
}

impl Listener {
    /// Nothing was dialled yet.
    pub fn new(alloc: Global) -> Self
        ensures { result ≡ record { told = nothing_told; rest = []; at = 0; from = 0 } }
    {
        Listener {
            alloc,
            told: Told::nothing(alloc),
            units: UnitReader::new(alloc),
            waiting: 0,
            at: 0,
            from: 0,
        }
    }

    /// What was told.
    pub fn told(&self) -> &Told
        ensures { result.now ≡ self.now.told }
    {
        &self.told
    }

    /// The offset since the dial of the first byte that is in no response yet: if the dial is damaged, of its first unit that is none.
    pub fn at(&self) -> u64
        ensures { result ≡ self.now.at }
    {
        self.at
    }

    /// The number of bytes that were heard since the dial.
    pub fn heard_len(&self) -> u64
        ensures { result ≡ self.now.at + length self.now.rest }
    {
        self.at + self.waiting
    }

    /// The number of bytes that were heard since the last command was said, or since the dial.
    pub fn heard_count(&self) -> u64
        ensures { result ≡ heard_count self.now }
    {
        self.at + self.waiting - self.from
    }

    /// Returns whether so many bytes were heard for the command that whoever listens should stop.
    pub fn has_reached_limit(&self) -> bool
        ensures { result ≡ nat_le heard_limit (heard_count self.now) }
    {
        self.heard_count() >= LIMIT
    }

    /// Takes note of a dial. A fresh one forgets all.
    pub fn dialled(&mut self, fresh: bool)
        ensures { self.new ≡ after_dialled fresh self.old }
    {
        self.told.dialled(fresh);
        self.units = UnitReader::new(self.alloc);
        self.waiting = 0;
        self.at = 0;
        self.from = 0;
    }

    /// Takes note that the first of several pieces of a command was said, if one may be said now. Out of memory, a fresh dial is needed.
    pub fn began(&mut self, command: &Command) -> Result<(), Memory>
        ensures { OnOk result (self.new ≡ if_idle (after_began (verb_of_command command.now)) self.old) }
    {
        if self.told.phase().is_idle() {
            self.begin(command)
        } else {
            Ok(())
        }
    }

    fn begin(&mut self, command: &Command) -> Result<(), Memory>
        ensures { OnOk result (self.new ≡ after_began (verb_of_command command.now) self.old) }
    {
        self.told.begin(verb_of(command))?;
        self.from = self.at;
        self.drain()
    }

    /// Takes note that a command was said in one piece, if one may be said now. Out of memory, a fresh dial is needed.
    pub fn said(&mut self, command: &Command) -> Result<(), Memory>
        ensures { OnOk result (self.new ≡ if_idle (after_said command.now) self.old) }
    {
        if self.told.phase().is_idle() {
            self.say(command)
        } else {
            Ok(())
        }
    }

    fn say(&mut self, command: &Command) -> Result<(), Memory>
        ensures { OnOk result (self.new ≡ after_said command.now self.old) }
    {
        self.told.say(command)?;
        self.from = self.at;
        self.drain()
    }

    /// Takes note that another piece of a command was said, which is not the last, if it was asked for. Out of memory, a fresh dial is needed.
    pub fn went_on(&mut self) -> Result<(), Memory>
        ensures { OnOk result (self.new ≡ if_piece after_went_on self.old) }
    {
        if self.told.phase().is_piece() {
            self.go_on()
        } else {
            Ok(())
        }
    }

    fn go_on(&mut self) -> Result<(), Memory>
        ensures { OnOk result (self.new ≡ after_went_on self.old) }
    {
        self.told.go_on();
        self.drain()
    }

    /// Takes note that the last of several pieces of a command was said, if it was asked for. Out of memory, a fresh dial is needed.
    pub fn completed(&mut self, command: &Command) -> Result<(), Memory>
        ensures { OnOk result (self.new ≡ if_piece (after_completed command.now) self.old) }
    {
        if self.told.phase().is_piece() {
            self.complete(command)
        } else {
            Ok(())
        }
    }

    fn complete(&mut self, command: &Command) -> Result<(), Memory>
        ensures { OnOk result (self.new ≡ after_completed command.now self.old) }
    {
        self.told.complete(command)?;
        self.drain()
    }

    /// Hears bytes. Out of memory, a fresh dial is needed. A dial has fewer than 2^64 bytes; more are refused as out of memory.
    #[tactic(auto, unfolding(crate::specs::Units::after_heard))]
    pub fn hear(&mut self, bytes: &[u8]) -> Result<(), Memory>
        ensures tells { OnOk result (self.new ≡ after_heard bytes.now self.old) }
        ensures counts { OnOk result (is_listening self.new.told.phase ≡ true → heard_count self.new ≡ heard_count self.old + length bytes.now) }
    {
        if self.told.phase().is_silent() {
            return Ok(());
        }
        self.feed(bytes)?;
        self.drain()
    }

    fn feed(&mut self, bytes: &[u8]) -> Result<(), Memory>
        ensures { OnOk result (self.new ≡ with_rest (self.old.rest ++ bytes.now) self.old) }
    {
        let len = bytes.len() as u64;
        if len > u64::MAX - self.at - self.waiting {
            return Err(Memory);
        }
        self.units.feed(bytes)?;
        self.waiting += len;
        Ok(())
    }

    /// Takes the units that were heard, as long as the server is listened to.
    fn drain(&mut self) -> Result<(), Memory>
        ensures { OnOk result (self.new ≡ drained self.old) }
    {
        while self.told.phase().is_listening() {
            if !self.take()? {
                return Ok(());
            }
        }
        Ok(())
    }

    /// Takes the next unit. Returns whether there was a response.
    fn take(&mut self) -> Result<bool, Memory>
        requires { is_listening self.old.told.phase ≡ true }
        ensures { TakesNext self.old result self.new }
    {
        match take_unit(self.alloc, &mut self.told, &mut self.units, self.at) {
            Ok(Taken::Response(len)) => {
                self.at += len;
                self.waiting -= len;
                Ok(true)
            }
            Ok(Taken::Incomplete) => Ok(false),
            Ok(Taken::Damage) => {
                self.units = UnitReader::new(self.alloc);
                self.waiting = 0;
                Ok(false)
            }
            Err(error) => {
                self.units = UnitReader::new(self.alloc);
                self.waiting = 0;
                Err(error)
            }
        }
    }
}

//! Reads the units of a stream that arrives in pieces.
ghost use Rattle.std.specs.Prelude.{◌≡◌, ◌≤◌, [], ◌++◌, drop, length, vec_len, OnOk, OnErr};
ghost use Rattle.imap_framing.specs.Cuts.{empty_cut, with_bytes, AdvancesCut, GivesBack};

use crate::scan::{Found, Phase, START, scan};
use std::alloc::{AllocError, Global};
use std::marker::Model;

/// A literal of a unit has more than [`crate::LIMIT`] octets.
#[derive(Clone, Copy, Debug)]
pub struct TooLong {
    /// The offset of the unit in the stream.
    pub at: u64,
}

/// A buffer for the bytes of one stream, from which units are read.
#[derive(Drop)]
pub struct UnitReader {
    buffer: Vec<u8>,
    // The offset of the buffer in the stream.
    base: usize,
    // The start and end of the unit that was given last, as offsets in the buffer. The rest begins at its end.
    given: usize,
    start: usize,
    // The number of scanned bytes of the rest, and the phase after them.
    scanned: usize,
    phase: Phase,
}

impl Model for UnitReader {
    ghost use Rattle.imap_framing.specs.Cuts.{Cut};

    ghost Value = { Cut };

    ghost use Rattle.imap_framing.specs.Fields.{cut_of, IsHeld};

    ghost view = { λ r. cut_of r.buffer.items r.base r.given r.start };

    ghost invariant = { λ r. IsHeld r.buffer.items r.base r.given r.start r.scanned r.phase };
}

/// The capacity that the buffer keeps; the rest of a longer unit's memory is given back once that unit is gone.
const KEPT_CAPACITY: usize = 1_048_576;

/// Removes the first `start` bytes.
fn drop_front(buffer: &mut Vec<u8>, start: usize)
    requires { start ≤ vec_len buffer.old }
    ensures { buffer.new.items ≡ drop start buffer.old.items }
{
    let len = buffer.len();
    buffer.copy_within(start..len, 0);
    buffer.truncate(len - start);
    buffer.shrink_to(KEPT_CAPACITY);
}

impl UnitReader {
    /// Creates a reader of an empty stream.
    pub fn new(alloc: Global) -> UnitReader
        ensures { result ≡ empty_cut }
    {
        UnitReader {
            buffer: Vec::new(alloc),
            base: 0,
            given: 0,
            start: 0,
            scanned: 0,
            phase: START,
        }
    }

    /// Appends bytes. A stream has fewer than 2^64 bytes; more are refused as out of memory.
    pub fn feed(&mut self, bytes: &[u8]) -> Result<(), AllocError>
        ensures appends { OnOk result (self.new ≡ with_bytes self.old bytes.now) }
        ensures unchanged_on_err { OnErr result (self.new ≡ self.old) }
    {
        if bytes.len() > usize::MAX - self.base - self.buffer.len() {
            return Err(AllocError);
        }
        // More bytes are dropped than are moved, so all moves together are linear in the stream.
        if self.given > self.buffer.len() - self.given {
            self.drop_given_units();
        }
        self.buffer.extend_from_slice(bytes)?;
        self.given = self.start;
        Ok(())
    }

    /// Gives back the memory of a long unit that is gone.
    fn give_memory_back(&mut self)
        ensures { self.new ≡ self.old }
    {
        if self.buffer.capacity() > KEPT_CAPACITY && self.given > self.buffer.len() - self.given {
            self.drop_given_units();
        }
    }

    /// Drops the bytes before the unit that was given last.
    fn drop_given_units(&mut self)
        ensures { self.new ≡ self.old }
    {
        drop_front(&mut self.buffer, self.given);
        self.base += self.given;
        self.start -= self.given;
        self.given = 0;
    }

    /// Advances to the next unit. Returns `false` if the rest does not begin with a whole unit.
    pub fn advance(&mut self) -> Result<bool, TooLong>
        ensures { AdvancesCut self.old result self.new }
    {
        let (found, scanned) = scan(&self.buffer[self.start..], self.scanned, self.phase);
        self.given = self.start;
        match found {
            Found::Awaits(phase) => {
                self.scanned = scanned;
                self.phase = phase;
                self.give_memory_back();
                Ok(false)
            }
            Found::TooLong => Err(TooLong { at: self.at() }),
            Found::Whole => {
                self.start += scanned;
                self.scanned = 0;
                self.phase = START;
                Ok(true)
            }
        }
    }

    /// Makes the unit that was given last the next one again.
    pub fn give_back(&mut self)
        ensures { GivesBack self.old self.new }
    {
        self.start = self.given;
        self.scanned = 0;
        self.phase = START;
    }

    /// The unit that the reader advanced to last; empty if it has not advanced, or if bytes were fed since.
    pub fn unit(&self) -> &[u8]
        ensures { result.now ≡ self.now.given }
    {
        &self.buffer[self.given..self.start]
    }

    /// The offset of the next unit in the stream.
    pub fn at(&self) -> u64
        ensures { result ≡ self.now.at }
    {
        (self.base + self.start) as u64
    }
}

//! Reads responses from bytes that arrive in pieces.
ghost use Rattle.std.specs.Prelude.{◌≡◌, false, true, IsSome, Some, IfOk, IfErr};
ghost use Rattle.imap_framing.specs.Cuts.{empty_cut};
ghost use Rattle.imap_responses.specs.declared.fault.ReadFault.TheVariants as faults;
ghost use Rattle.imap_grammar.specs.Response.{response_of, data_of};
ghost use Rattle.imap_responses.specs.ReaderStates.{ReaderState, FeedsReader, ChecksUnit, AdvancesReader, NextResponseIs, TellsIfResponse};

use crate::fault::ReadFault;
use imap_framing::UnitReader;
use imap_grammar::{Response, read_response};
use std::alloc::{AllocError, Global};
use std::marker::Model;

/// A buffer for the bytes of one connection, from which responses are read.
///
/// A loop `while reader.advance()?` with `reader.current()?` reads the responses so far. `next` does both, but only the contracts of
/// the other two say what state the reader is in afterwards.
#[derive(Drop)]
pub struct Reader {
    alloc: Global,
    units: UnitReader,
    damaged: bool,
}

impl Model for Reader {
    ghost use Rattle.imap_responses.specs.ReaderStates.{ReaderState};

    ghost Value = { ReaderState };

    ghost view = { λ r. record { cut = r.units; damaged = r.damaged } };
}

/// Whether a unit is a response.
fn is_response(alloc: Global, unit: &[u8]) -> Result<bool, AllocError>
    ensures { TellsIfResponse result unit.now }
{
    match read_response(alloc, unit) {
        Ok(Some(_)) => Ok(true),
        Ok(None) => Ok(false),
        Err(error) => Err(error),
    }
}

impl Reader {
    /// Creates a reader of a new connection.
    pub fn new(alloc: Global) -> Reader
        ensures { result ≡ record { cut = empty_cut; damaged = false } }
    {
        Reader {
            alloc,
            units: UnitReader::new(alloc),
            damaged: false,
        }
    }

    /// Appends bytes. A connection has fewer than 2^64 bytes; more are refused as out of memory.
    pub fn feed(&mut self, bytes: &[u8]) -> Result<(), ReadFault>
        ensures { FeedsReader self.old bytes.now result self.new }
    {
        if self.damaged {
            Err(self.fault())
        } else {
            self.units.feed(bytes)?;
            Ok(())
        }
    }

    /// Advances to the next response. Returns `false` if the next unit is incomplete.
    pub fn advance(&mut self) -> Result<bool, ReadFault>
        ensures { AdvancesReader self.old result self.new }
    {
        if self.damaged {
            return Err(self.fault());
        }
        match self.units.advance() {
            Ok(true) => self.check_unit(),
            Ok(false) => Ok(false),
            Err(_) => Err(self.mark_damaged()),
        }
    }

    /// Keeps the unit that was just given if it is a response, and else gives it back.
    fn check_unit(&mut self) -> Result<bool, ReadFault>
        requires { self.old.damaged ≡ false }
        ensures { ChecksUnit self.old result self.new }
    {
        match is_response(self.alloc, self.units.unit()) {
            Ok(true) => Ok(true),
            Ok(false) => {
                self.units.give_back();
                Err(self.mark_damaged())
            }
            Err(_) => {
                self.units.give_back();
                Err(ReadFault::Memory)
            }
        }
    }

    /// Marks the reader as damaged: it reads no more responses.
    fn mark_damaged(&mut self) -> ReadFault
        ensures equals { result ≡ faults.Damaged self.old.cut.at }
        ensures marks { self.new ≡ record { cut = self.old.cut; damaged = true } }
    {
        self.damaged = true;
        self.fault()
    }

    fn fault(&self) -> ReadFault
        ensures { result ≡ faults.Damaged self.now.cut.at }
    {
        ReadFault::Damaged {
            at: self.units.at(),
        }
    }

    /// Returns the response that the reader advanced to last, if no bytes were fed since. It borrows from the reader.
    pub fn current(&self) -> Result<Response<'_>, ReadFault>
        requires { IsSome (response_of self.now.cut.given) }
        ensures equals { IfOk result (λ r. response_of self.now.cut.given ≡ Some (data_of r)) }
        ensures memory { IfErr result (λ e. e ≡ faults.Memory) }
    {
        match read_response(self.alloc, self.units.unit()) {
            Ok(Some(response)) => Ok(response),
            Ok(None) => unreachable!(),
            Err(_) => Err(ReadFault::Memory),
        }
    }

    /// The unit of that response.
    pub fn unit(&self) -> &[u8]
        ensures { result.now ≡ self.now.cut.given }
    {
        self.units.unit()
    }

    /// Returns the next response, or `None` if the next unit is incomplete.
    pub fn next(&mut self) -> Result<Option<Response<'_>>, ReadFault>
        ensures { NextResponseIs self.old result }
    {
        if !self.advance()? {
            return Ok(None);
        }
        Ok(Some(self.current()?))
    }
}

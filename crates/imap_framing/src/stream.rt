//! Reads the units of a whole stream.
ghost use Rattle.std.specs.Prelude.{◌≡◌};
ghost use Rattle.std.specs.List.{concat};
ghost use Rattle.imap_framing.specs.declared.stream.StreamFault.TheVariants as faults;
ghost use Rattle.imap_framing.specs.Streams.{bytes_of_vecs, TakesAllUnits, ReadsUnits};

use crate::reader::{TooLong, UnitReader};
use std::alloc::{AllocError, AllocFailed, Global};

/// Why the units of a stream were not read.
#[derive(Clone, Copy, Debug)]
pub enum StreamFault {
    /// A literal of the unit at that offset is too long.
    TooLong { at: u64 },
    Memory,
}

impl From<TooLong> for StreamFault {
    ghost from_gives = { λ fault made. made ≡ faults.TooLong fault.at };

    fn from(fault: TooLong) -> StreamFault {
        StreamFault::TooLong { at: fault.at }
    }
}

impl From<AllocError> for StreamFault {
    ghost from_gives = { λ _ made. made ≡ faults.Memory };

    fn from(_: AllocError) -> StreamFault {
        StreamFault::Memory
    }
}

impl<T: Drop> From<AllocFailed<T>> for StreamFault {
    ghost from_gives = { λ _ made. made ≡ faults.Memory };

    fn from(_: AllocFailed<T>) -> StreamFault {
        StreamFault::Memory
    }
}

/// Appends a copy of each unit of a reader.
fn take_all(
    alloc: Global,
    reader: &mut UnitReader,
    units: &mut Vec<Vec<u8>>,
) -> Result<(), StreamFault>
    ensures { TakesAllUnits reader.old (bytes_of_vecs units.old.items) result reader.new (bytes_of_vecs units.new.items) }
{
    while reader.advance()? {
        units.push(Vec::from_slice(alloc, reader.unit())?)?;
    }
    Ok(())
}

/// Returns the units of a stream that arrives in these pieces. They depend on the joined bytes alone, not on where these are cut.
pub fn units_of(alloc: Global, pieces: &[Vec<u8>]) -> Result<Vec<Vec<u8>>, StreamFault>
    ensures { ReadsUnits (concat (bytes_of_vecs pieces.now)) result }
{
    let mut reader = UnitReader::new(alloc);
    let mut units = Vec::new(alloc);
    for piece in pieces {
        reader.feed(piece)?;
        take_all(alloc, &mut reader, &mut units)?;
    }
    Ok(units)
}

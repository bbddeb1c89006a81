//! Reads all responses of one connection.
ghost use Rattle.std.specs.Prelude.{◌≡◌, false};
ghost use Rattle.std.specs.List.{concat};
ghost use Rattle.imap_framing.specs.Streams.{bytes_of_vecs};
ghost use Rattle.imap_responses.specs.ResponseStreams.{TakesAllResponses, ReadsResponses};

use crate::fault::ReadFault;
use crate::reader::Reader;
use std::alloc::Global;

/// Appends the unit of each response of a reader.
fn take_all(alloc: Global, reader: &mut Reader, units: &mut Vec<Vec<u8>>) -> Result<(), ReadFault>
    requires { reader.old.damaged ≡ false }
    ensures { TakesAllResponses reader.old (bytes_of_vecs units.old.items) result reader.new (bytes_of_vecs units.new.items) }
{
    while reader.advance()? {
        units.push(Vec::from_slice(alloc, reader.unit())?)?;
    }
    Ok(())
}

/// Returns the units of the responses of a connection whose bytes arrive in these pieces. They depend on the joined bytes alone, not on
/// where these are cut.
pub fn response_units(alloc: Global, pieces: &[Vec<u8>]) -> Result<Vec<Vec<u8>>, ReadFault>
    ensures { ReadsResponses (concat (bytes_of_vecs pieces.now)) result }
{
    let mut reader = Reader::new(alloc);
    let mut units = Vec::new(alloc);
    for piece in pieces {
        reader.feed(piece)?;
        take_all(alloc, &mut reader, &mut units)?;
    }
    Ok(units)
}

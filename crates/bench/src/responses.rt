//! The responses of a server's stream.
ghost use Rattle.std.specs.Prelude.{IsSome};
ghost use Rattle.imap_grammar.specs.Response.{response_of};

use imap_responses::{ReadFault, Reader, Response};
use itoa::Buffer;
use std::alloc::{AllocError, Global};

/// What was read of a stream.
#[derive(Clone, Copy)]
struct Tally {
    responses: usize,
    fetches: usize,
    items: usize,
    damaged: Option<u64>,
}

impl Tally {
    fn add(&mut self, response: &Response<'_>) {
        self.responses = self.responses.saturating_add(1);
        if let Response::Fetch { items, .. } = response {
            self.fetches = self.fetches.saturating_add(1);
            self.items = self.items.saturating_add(items.as_slice().len());
        }
    }
}

pub fn count_responses(alloc: Global, bytes: &[u8], piece: usize) -> Result<usize, AllocError> {
    Ok(read(alloc, bytes, piece)?.responses)
}

/// Lines with the number of responses, of FETCH responses and of their items, and with the place of damage.
pub fn list_counts(alloc: Global, bytes: &[u8], piece: usize) -> Result<String, AllocError> {
    let tally = read(alloc, bytes, piece)?;
    let mut text = String::new(alloc);
    push_count(&mut text, "responses", tally.responses as u64)?;
    push_count(&mut text, "fetches", tally.fetches as u64)?;
    push_count(&mut text, "items", tally.items as u64)?;
    if let Some(at) = tally.damaged {
        push_count(&mut text, "damaged at", at)?;
    }
    Ok(text)
}

fn push_count(text: &mut String, name: &str, count: u64) -> Result<(), AllocError> {
    text.push_str(name)?;
    text.push(' ')?;
    text.push_str(Buffer::new().format(count))?;
    text.push('\n')
}

fn read(alloc: Global, bytes: &[u8], piece: usize) -> Result<Tally, AllocError> {
    let mut reader = Reader::new(alloc);
    let mut tally = Tally {
        responses: 0,
        fetches: 0,
        items: 0,
        damaged: None,
    };
    match read_pieces(&mut reader, bytes, piece, &mut tally) {
        Ok(()) => Ok(tally),
        Err(ReadFault::Damaged { at }) => {
            tally.damaged = Some(at);
            Ok(tally)
        }
        Err(ReadFault::Memory) => Err(AllocError),
    }
}

fn read_pieces(
    reader: &mut Reader,
    bytes: &[u8],
    piece: usize,
    tally: &mut Tally,
) -> Result<(), ReadFault> {
    for piece in bytes.chunks(piece.max(1)) {
        reader.feed(piece)?;
        take_all(reader, tally)?;
    }
    Ok(())
}

/// Counts the responses that are complete.
fn take_all(reader: &mut Reader, tally: &mut Tally) -> Result<(), ReadFault> {
    while reader.advance()? {
        take_current(reader, tally)?;
    }
    Ok(())
}

fn take_current(reader: &Reader, tally: &mut Tally) -> Result<(), ReadFault>
    requires { IsSome (response_of reader.now.cut.given) }
{
    tally.add(&reader.current()?);
    Ok(())
}

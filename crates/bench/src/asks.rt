//! Requests, read again and again until about as many bytes were read as `READ_BYTES` says.
ghost use Rattle.std.specs.Prelude.{None};

use http_front::{AskFault, read_ask};
use site_io::{Caller, Failed};
use std::alloc::{AllocError, Global};

const READ_BYTES: usize = 20_000_000;

/// A caller that sends the bytes of a request. A call receives at most `piece` of them. It tells nothing.
#[derive(Drop)]
struct Sender<'a> {
    left: &'a [u8],
    piece: usize,
    faults: u64,
}

impl<'a> Caller for Sender<'a> {
    ghost heard = { λ s. None };

    ghost sent = { λ s. None };

    ghost faults = { λ s. s.faults };

    fn receive(&mut self, room: &mut [u8]) -> Result<usize, Failed> {
        let count = self.left.len().min(room.len()).min(self.piece);
        if count == 0 {
            self.faults = self.faults.saturating_add(1);
            return Err(Failed);
        }
        let (first, left) = self.left.split_at(count);
        room[..count].copy_from_slice(first);
        self.left = left;
        Ok(count)
    }

    fn send(&mut self, _bytes: &[u8]) -> Result<(), Failed> {
        Ok(())
    }
}

/// Reads a request that comes in pieces of this many bytes, and returns whether it is an ask.
fn is_ask(alloc: Global, request: &[u8], piece: usize) -> Result<bool, AllocError> {
    let mut sender = Sender {
        left: request,
        piece,
        faults: 0,
    };
    match read_ask(alloc, &mut sender, 1) {
        Ok(_) => Ok(true),
        Err(AskFault::Memory) => Err(AllocError),
        Err(_) => Ok(false),
    }
}

/// How often the request was read as an ask.
pub fn count_asks(alloc: Global, request: &[u8], piece: usize) -> Result<usize, AllocError> {
    let mut count: usize = 0;
    for _ in 0..=READ_BYTES.checked_div(request.len()).unwrap_or(0) {
        if is_ask(alloc, request, piece)? {
            count = count.saturating_add(1);
        }
    }
    Ok(count)
}

//! Base64 and quoted-printable.

use crate::work::Work;
use std::alloc::Global;
use std::io::{self, Read, Write};
use transfer_codings::{Memory, decode, encode_base64, encode_quoted};

/// Bytes that are encoded at a time if the input is streamed: whole lines, so the lines of all pieces are those of the whole.
const PIECE: usize = 57 * 1024;

pub fn result_of(alloc: Global, work: Work, input: &[u8]) -> Result<Vec<u8>, Memory> {
    match work {
        Work::Decode(coding) => decode(alloc, coding, input),
        Work::EncodeQuoted => encode_quoted(alloc, input),
        _ => encode_base64(alloc, input),
    }
}

/// Encodes standard input as it comes, as base64(1) does.
pub fn stream_base64(rt: &HostRuntime) -> io::Result<()> {
    let mut room = vec![in rt.alloc(); 0u8; PIECE]?;
    for _ in 0..u64::MAX {
        let size = fill(rt, room.as_mut_slice())?;
        let text = encode_base64(rt.alloc(), first(room.as_slice(), size))?;
        rt.stdout().write_all(text.as_slice())?;
        if size < room.len() {
            return Ok(());
        }
    }
    Ok(())
}

fn first(bytes: &[u8], size: usize) -> &[u8] {
    &bytes[..size.min(bytes.len())]
}

/// Reads until the room is full or the input ends, and returns the number of bytes read.
fn fill(rt: &HostRuntime, room: &mut [u8]) -> io::Result<usize> {
    let mut size = 0;
    for _ in 0..room.len() {
        if size >= room.len() {
            break;
        }
        let count = rt.stdin().read(&mut room[size..])?;
        if count == 0 {
            break;
        }
        size += count;
    }
    Ok(size)
}

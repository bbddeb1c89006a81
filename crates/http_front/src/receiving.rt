//! Receives the bytes of a request.
ghost use Rattle.std.specs.Prelude.{◌≡◌, ◌+◌, ◌<◌, ◌≤◌, [], IfErr, IfOk, OnErr, OnOk, length};
ghost use Rattle.std.specs.Io.KnownBytes.{Keeps};
ghost use Rattle.http_heads.specs.Heads.{ScansAs};
ghost use Rattle.http_heads.specs.Places.{place_of};
ghost use Rattle.http_front.specs.declared.faults.AskFault.TheVariants.{Cut};
ghost use Rattle.http_front.specs.Receiving.{BodyHeard, HeadHeard, Hears, IsCaused, IsCutOrMemory};

use crate::AskFault;
use http_heads::{Heard, Place, read_head, scanned_head};
use httparse::spans::{HeaderSpan, RequestSpans};
use site_io::Caller;
use std::alloc::Global;

/// The most bytes of a head.
const HEAD: usize = 16_384;

/// Waits for bytes, and appends them: at most as many as `room` has.
fn receive_some<C: Caller>(
    caller: &mut C,
    bytes: &mut Vec<u8>,
    room: &mut [u8],
) -> Result<(), AskFault>
    requires nonempty { 0 < length room.old }
    ensures hears { Hears (C.heard caller.old) (C.heard caller.new) bytes.old.items bytes.new.items }
    ensures progresses { OnOk result (length bytes.old.items < length bytes.new.items) }
    ensures bound { length bytes.new.items ≤ length bytes.old.items + length room.old }
    ensures unchanged_on_err { OnErr result (bytes.new.items ≡ bytes.old.items) }
    ensures fault { IfErr result IsCutOrMemory }
    ensures keeps_sent { Keeps (C.sent caller.old) (C.sent caller.new) }
    ensures cause { IsCaused (C.faults caller.old) (C.faults caller.new) result }
{
    bytes.reserve(room.len())?;
    let count = caller.receive(room)?;
    bytes.extend_from_slice(&room[..count]).unwrap();
    Ok(())
}

/// Receives more bytes of a head. Returns where they end, and what they are.
fn receive_head_part<C: Caller>(
    alloc: Global,
    caller: &mut C,
    bytes: &mut Vec<u8>,
    place: Place,
    spans: &mut Vec<HeaderSpan>,
    room: &mut [u8],
) -> Result<(Place, Heard), AskFault>
    requires short { length bytes.old.items < 16384 }
    requires room { 0 < length room.old }
    requires scanned { place ≡ place_of bytes.old.items }
    ensures hears { Hears (C.heard caller.old) (C.heard caller.new) bytes.old.items bytes.new.items }
    ensures progresses { OnOk result (length bytes.old.items < length bytes.new.items) }
    ensures bound { length bytes.new.items ≤ 16384 }
    ensures scanned { IfOk result (λ r. r.0 ≡ place_of bytes.new.items) }
    ensures heard { IfOk result (λ r. ScansAs bytes.new.items spans.new.items r.1) }
    ensures unchanged_if_cut { IfErr result (λ fault. fault ≡ Cut → bytes.new.items ≡ bytes.old.items) }
    ensures fault { IfErr result IsCutOrMemory }
    ensures keeps_sent { Keeps (C.sent caller.old) (C.sent caller.new) }
    ensures cause { IsCaused (C.faults caller.old) (C.faults caller.new) result }
{
    let from = bytes.len();
    let len = room.len().min(HEAD - from);
    receive_some(caller, bytes, &mut room[..len])?;
    let place = place.after(&bytes[from..]);
    let heard = scanned_head(alloc, bytes, place, spans)?;
    Ok((place, heard))
}

/// Receives bytes to the end of a head, and parses it.
pub fn receive_head<C: Caller>(
    alloc: Global,
    caller: &mut C,
    bytes: &mut Vec<u8>,
    spans: &mut Vec<HeaderSpan>,
    room: &mut [u8],
) -> Result<RequestSpans, AskFault>
    requires empty { bytes.old.items ≡ [] }
    requires room { 0 < length room.old }
    ensures hears { Hears (C.heard caller.old) (C.heard caller.new) [] bytes.new.items }
    ensures heard { HeadHeard bytes.new.items spans.new.items result }
    ensures keeps_sent { Keeps (C.sent caller.old) (C.sent caller.new) }
    ensures cause { IsCaused (C.faults caller.old) (C.faults caller.new) result }
{
    let mut place = Place::Start;
    'parts: while bytes.len() < HEAD {
        let (after, heard) = receive_head_part(alloc, caller, bytes, place, spans, room)?;
        match heard {
            Heard::Finished(head) => return Ok(head),
            Heard::NotHttp => return Err(AskFault::NotHttp),
            Heard::More => place = after,
        }
    }
    match read_head(alloc, bytes, place, spans)? {
        Heard::Finished(head) => Ok(head),
        Heard::NotHttp => Err(AskFault::NotHttp),
        Heard::More => Err(AskFault::Head),
    }
}

/// Receives bytes until there are `len` of them.
pub fn receive_body<C: Caller>(
    caller: &mut C,
    bytes: &mut Vec<u8>,
    len: usize,
    room: &mut [u8],
) -> Result<(), AskFault>
    requires room { 0 < length room.old }
    ensures hears { Hears (C.heard caller.old) (C.heard caller.new) bytes.old.items bytes.new.items }
    ensures heard { BodyHeard bytes.new.items len result }
    ensures keeps_sent { Keeps (C.sent caller.old) (C.sent caller.new) }
    ensures cause { IsCaused (C.faults caller.old) (C.faults caller.new) result }
{
    'parts: while bytes.len() < len {
        let count = room.len().min(len - bytes.len());
        receive_some(caller, bytes, &mut room[..count])?;
    }
    Ok(())
}

//! Writing a finished page to a sink, without memory.
ghost use Rattle.std.specs.Prelude.{◌≡◌, ◌*◌, ◌≤◌, length, vec_capacity, OnOk, OnErr};
ghost use Rattle.std.specs.Io.KnownBytes.{Appends};
ghost use Rattle.mail_io.specs.Causes.{HasCause};
ghost use Rattle.mail_io.specs.Stream.{WritesSome};
ghost use Rattle.page_writer.specs.Bytes.{spell_bytes};
ghost use Rattle.std.specs.List.{concat};

use crate::buffer::{PageBytes, Segment};
use crate::spelling::{is_plain, push_each};
use mail_io::{Failed, Sink, write_whole};

/// Bytes of a text that are spelled at a time.
const STEP: usize = 4096;

/// Capacity in bytes of the room that [`write_page`] spells texts in.
pub const WRITE_ROOM: usize = 24_576;

/// Writes a page to its end. At a fault a proper prefix of it was written.
///
/// It takes no memory: long texts are spelled in `room`, whose content is lost.
pub fn write_page<W: Sink>(sink: &mut W, page: &PageBytes, room: &mut Vec<u8>) -> Result<(), Failed>
    requires { WRITE_ROOM ≤ vec_capacity room.old }
    ensures whole { OnOk result (Appends (W.taken sink.old) (W.taken sink.new) page.now) }
    ensures prefix { OnErr result (WritesSome (W.taken sink.old) (W.taken sink.new) page.now) }
    ensures cause { HasCause (W.faults sink.old) (W.faults sink.new) result }
{
    let (segments, tail) = page.parts();
    write_segments(sink, segments, room)?;
    write_whole(sink, tail)
}

fn write_segments<W: Sink>(
    sink: &mut W,
    segments: &[Segment],
    room: &mut Vec<u8>,
) -> Result<(), Failed>
    requires { WRITE_ROOM ≤ vec_capacity room.old }
    ensures whole { OnOk result (Appends (W.taken sink.old) (W.taken sink.new) (concat segments.now)) }
    ensures prefix { OnErr result (WritesSome (W.taken sink.old) (W.taken sink.new) (concat segments.now)) }
    ensures cause { HasCause (W.faults sink.old) (W.faults sink.new) result }
{
    for segment in segments {
        write_segment(sink, segment, room)?;
    }
    Ok(())
}

fn write_segment<W: Sink>(sink: &mut W, segment: &Segment, room: &mut Vec<u8>) -> Result<(), Failed>
    requires { WRITE_ROOM ≤ vec_capacity room.old }
    ensures whole { OnOk result (Appends (W.taken sink.old) (W.taken sink.new) segment.now) }
    ensures prefix { OnErr result (WritesSome (W.taken sink.old) (W.taken sink.new) segment.now) }
    ensures cause { HasCause (W.faults sink.old) (W.faults sink.new) result }
    ensures room { WRITE_ROOM ≤ vec_capacity room.new }
{
    let (markup, text) = segment.parts();
    write_whole(sink, markup)?;
    write_text(sink, text.as_bytes(), room)
}

/// Writes the bytes of a text as they are spelled.
fn write_text<W: Sink>(sink: &mut W, text: &[u8], room: &mut Vec<u8>) -> Result<(), Failed>
    requires { WRITE_ROOM ≤ vec_capacity room.old }
    ensures whole { OnOk result (Appends (W.taken sink.old) (W.taken sink.new) (spell_bytes text.now)) }
    ensures prefix { OnErr result (WritesSome (W.taken sink.old) (W.taken sink.new) (spell_bytes text.now)) }
    ensures cause { HasCause (W.faults sink.old) (W.faults sink.new) result }
    ensures room { WRITE_ROOM ≤ vec_capacity room.new }
{
    for chunk in text.chunks(STEP) {
        write_chunk(sink, chunk, room)?;
    }
    Ok(())
}

fn write_chunk<W: Sink>(sink: &mut W, bytes: &[u8], room: &mut Vec<u8>) -> Result<(), Failed>
    requires room { WRITE_ROOM ≤ vec_capacity room.old }
    requires short { length bytes.now ≤ STEP }
    ensures whole { OnOk result (Appends (W.taken sink.old) (W.taken sink.new) (spell_bytes bytes.now)) }
    ensures prefix { OnErr result (WritesSome (W.taken sink.old) (W.taken sink.new) (spell_bytes bytes.now)) }
    ensures cause { HasCause (W.faults sink.old) (W.faults sink.new) result }
    ensures room_after { WRITE_ROOM ≤ vec_capacity room.new }
{
    if is_plain(bytes) {
        return write_whole(sink, bytes);
    }
    room.clear();
    push_each(room, bytes).unwrap();
    write_whole(sink, room)
}

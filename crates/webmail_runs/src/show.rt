//! The run of `show`.
ghost use Rattle.std.specs.Prelude.{◌≡◌, ◌≢◌, ◌⊎◌, map, string_bytes};
ghost use Rattle.std.specs.Io.KnownBytes.{Keeps, Appends};
ghost use Rattle.mail_io.specs.Causes.{Rose};
ghost use Rattle.mail_io.specs.Stream.{ReadsPast, ReadsSome, WritesSome};
ghost use Rattle.mail_pages.specs.ShowPage.{page_bytes, IsSafe, IsShown, IsMissing};
ghost use Rattle.webmail_runs.specs.Outcomes.{done, wrong_words, read_fault, write_fault, out_of_memory, too_long, no_such_part};
ghost use Rattle.webmail_runs.specs.Run.{message_limit, RequestsNothing, ReadsRequest, IsWritten, IsBegun, RefusesLong};

use crate::status::{
    DONE, NO_SUCH_PART, OUT_OF_MEMORY, READ_FAULT, Status, TOO_LONG, WRITE_FAULT, WRONG_WORDS,
};
use crate::words::parse_words;
use mail_io::{InputFault, Sink, Source, read_to_end};
use mail_pages::{Frame, PageFault, Section, WRITE_ROOM, show_page, write_page};
use std::alloc::Global;

/// The greatest length of a message in bytes.
pub const LIMIT: usize = 26_214_400;

/// Reads a message to its end, and writes its page.
///
/// `words` are those after the program's name: `show`, and in either order `--images` and `--part SECTION`. Wrong words are refused
/// before anything is read, and a message that has no page before anything is written.
pub fn run_show<R: Source, W: Sink>(
    alloc: Global,
    words: &[String],
    source: &mut R,
    sink: &mut W,
) -> Status
    ensures refuses_other_words { RequestsNothing (map string_bytes words.now) → result ≡ wrong_words.status }
    ensures refuses_only_other_words { result ≡ wrong_words.status → RequestsNothing (map string_bytes words.now) }
    ensures reads_nothing_then { result ≡ wrong_words.status → Keeps (R.left source.old) (R.left source.new) }

    // the headline: the page of the message that was read is written, and a browser makes nothing else of it
    ensures writes_safe_page { result ≡ done.status → ReadsRequest (map string_bytes words.now) (R.left source.old) (R.left source.new) (IsWritten (W.taken sink.old) (W.taken sink.new)) }
    ensures writes_prefix { result ≡ write_fault.status → ReadsRequest (map string_bytes words.now) (R.left source.old) (R.left source.new) (IsBegun (W.taken sink.old) (W.taken sink.new)) }

    ensures only_if_missing { result ≡ no_such_part.status → ReadsRequest (map string_bytes words.now) (R.left source.old) (R.left source.new) (λ message part images. IsMissing message part) }
    ensures only_if_long { result ≡ too_long.status → ReadsPast message_limit (R.left source.old) (R.left source.new) }
    ensures refuses_every_long { RefusesLong (R.left source.old) result }
    ensures reads_prefix { result ≡ read_fault.status → ReadsSome message_limit (R.left source.old) (R.left source.new) }
    ensures read_fault_has_cause { result ≡ read_fault.status → Rose (R.faults source.old) (R.faults source.new) }
    ensures keeps_read_faults { result ≢ read_fault.status → R.faults source.new ≡ R.faults source.old }
    ensures write_fault_has_cause { result ≡ write_fault.status → Rose (W.faults sink.old) (W.faults sink.new) }
    ensures keeps_write_faults { result ≢ write_fault.status → W.faults sink.new ≡ W.faults sink.old }
    ensures writes_nothing_else { result ≢ done.status → result ≢ write_fault.status → Keeps (W.taken sink.old) (W.taken sink.new) }
    ensures is_listed { (result ≡ done.status) ⊎ (result ≡ wrong_words.status) ⊎ (result ≡ read_fault.status) ⊎ (result ≡ write_fault.status)
        ⊎ (result ≡ out_of_memory.status) ⊎ (result ≡ too_long.status) ⊎ (result ≡ no_such_part.status) }
{
    let Some(request) = parse_words(words) else {
        return WRONG_WORDS;
    };
    match read_to_end(alloc, source, LIMIT) {
        Ok(message) => show(alloc, &message, &request.part, request.images, sink),
        Err(InputFault::Failed) => READ_FAULT,
        Err(InputFault::Long) => TOO_LONG,
        Err(InputFault::Memory) => OUT_OF_MEMORY,
    }
}

/// Writes the page of a message.
fn show<W: Sink>(
    alloc: Global,
    message: &[u8],
    part: &Option<Section>,
    images: bool,
    sink: &mut W,
) -> Status
    ensures is_shown { result ≡ done.status → IsShown message.now part.now }
    ensures writes_page { result ≡ done.status → Appends (W.taken sink.old) (W.taken sink.new) (page_bytes Frame.Plain message.now part.now images) }
    ensures is_safe { result ≡ done.status → IsSafe Frame.Plain message.now part.now images }
    ensures writes_prefix { result ≡ write_fault.status → IsBegun (W.taken sink.old) (W.taken sink.new) message.now part.now images }
    ensures only_if_missing { result ≡ no_such_part.status → IsMissing message.now part.now }
    ensures write_fault_has_cause { result ≡ write_fault.status → Rose (W.faults sink.old) (W.faults sink.new) }
    ensures keeps_write_faults { result ≢ write_fault.status → W.faults sink.new ≡ W.faults sink.old }
    ensures writes_nothing_else { result ≢ done.status → result ≢ write_fault.status → Keeps (W.taken sink.old) (W.taken sink.new) }
    ensures is_listed { (result ≡ done.status) ⊎ (result ≡ write_fault.status) ⊎ (result ≡ out_of_memory.status) ⊎ (result ≡ no_such_part.status) }
{
    let page = match show_page(alloc, message, part, images, &Frame::Plain) {
        Ok(page) => page,
        Err(PageFault::NoSuchPart) => return NO_SUCH_PART,
        Err(PageFault::Memory) => return OUT_OF_MEMORY,
    };
    let Ok(mut room) = Vec::with_capacity(alloc, WRITE_ROOM) else {
        return OUT_OF_MEMORY;
    };
    match write_page(sink, &page, &mut room) {
        Ok(()) => DONE,
        Err(_) => WRITE_FAULT,
    }
}

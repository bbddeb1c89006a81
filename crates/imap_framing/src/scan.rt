//! Scans for the end of the first unit of some bytes.
ghost use Rattle.std.specs.Prelude.{◌≡◌, ◌≤◌, ◌<◌, ◌+◌, length, take, slice_index};
ghost use Rattle.imap_framing.specs.Scans.{PhaseIs, FoundIs, AwaitsAtEnd};
ghost use Rattle.imap_framing.specs.declared.scan.Phase.TheVariants as phases;

use crate::line::{Ending, ending_at_line_feed, find_byte};

/// The phase of a scan. Offsets are counted from the first byte of the unit.
#[derive(Clone, Copy)]
pub enum Phase {
    /// In the line that begins at `from`.
    Line { from: usize, first: bool },
    /// In a literal with `left` octets to come.
    Octets { left: usize },
}

/// What the scanned bytes are.
#[derive(Clone, Copy)]
pub enum Found {
    /// One whole unit.
    Whole,
    /// Bytes that end with the size of a literal that is too long.
    TooLong,
    /// An incomplete unit.
    Awaits(Phase),
}

/// The phase at the start of a unit.
pub const START: Phase = Phase::Line {
    from: 0,
    first: true,
};

/// Scans a literal to its end, or to the end of the bytes.
fn scan_octets(unit: &[u8], at: usize, left: usize) -> (Found, usize)
    requires in_bounds { at < length unit.now }
    requires phase { PhaseIs (take at unit.now) (phases.Octets left) }
    ensures advances { (at < result.1) × (result.1 ≤ length unit.now) }
    ensures found { FoundIs (take result.1 unit.now) result.0 }
{
    let room = unit.len() - at;
    if left <= room {
        let from = at + left;
        (Found::Awaits(Phase::Line { from, first: false }), from)
    } else {
        let left = left - room;
        (Found::Awaits(Phase::Octets { left }), unit.len())
    }
}

/// Scans the LF at an offset.
fn scan_line_feed(unit: &[u8], line_feed: usize, from: usize, first: bool) -> Found
    requires in_bounds { line_feed < length unit.now }
    requires line_feed { slice_index unit.now line_feed ≡ 10 }
    requires phase { PhaseIs (take line_feed unit.now) (phases.Line from first) }
    ensures { FoundIs (take (line_feed + 1) unit.now) result }
{
    match ending_at_line_feed(first, &unit[from..line_feed]) {
        Ending::NotEnded => Found::Awaits(Phase::Line { from, first }),
        Ending::Ends => Found::Whole,
        Ending::TooLong => Found::TooLong,
        Ending::Literal(0) => Found::Awaits(Phase::Line {
            from: line_feed + 1,
            first: false,
        }),
        Ending::Literal(left) => Found::Awaits(Phase::Octets { left }),
    }
}

/// Scans a line past its next LF, or to the end of the bytes.
fn scan_line(unit: &[u8], at: usize, from: usize, first: bool) -> (Found, usize)
    requires in_bounds { at < length unit.now }
    requires phase { PhaseIs (take at unit.now) (phases.Line from first) }
    ensures advances { (at < result.1) × (result.1 ≤ length unit.now) }
    ensures found { FoundIs (take result.1 unit.now) result.0 }
{
    let line_feed = at + find_byte(b'\n', &unit[at..]);
    if line_feed == unit.len() {
        (Found::Awaits(Phase::Line { from, first }), line_feed)
    } else {
        (scan_line_feed(unit, line_feed, from, first), line_feed + 1)
    }
}

/// Scans a literal, or a part of a line.
fn scan_step(unit: &[u8], at: usize, phase: Phase) -> (Found, usize)
    requires in_bounds { at < length unit.now }
    requires phase { PhaseIs (take at unit.now) phase }
    ensures advances { (at < result.1) × (result.1 ≤ length unit.now) }
    ensures found { FoundIs (take result.1 unit.now) result.0 }
{
    match phase {
        Phase::Line { from, first } => scan_line(unit, at, from, first),
        Phase::Octets { left } => scan_octets(unit, at, left),
    }
}

/// Scans from `at` to the end of the first unit or of the bytes, and returns the offset where it stopped.
pub fn scan(unit: &[u8], at: usize, phase: Phase) -> (Found, usize)
    requires within { at ≤ length unit.now }
    requires phase { PhaseIs (take at unit.now) phase }
    ensures within { result.1 ≤ length unit.now }
    ensures found { FoundIs (take result.1 unit.now) result.0 }
    ensures awaits_at_end { AwaitsAtEnd (length unit.now) result.0 result.1 }
{
    let mut phase = phase;
    let mut at = at;
    while at < unit.len() {
        let (found, next) = scan_step(unit, at, phase);
        at = next;
        match found {
            Found::Awaits(next_phase) => phase = next_phase,
            _ => return (found, at),
        }
    }
    (Found::Awaits(phase), at)
}

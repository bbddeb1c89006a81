//! Sets of UIDs (RFC 9051 §9, uid-set).

ghost use Rattle.std.specs.Prelude.{◌≡◌, ◌≤◌, IfOk, length};
ghost use Rattle.imap_commands.specs.UidSets.{contains_uid};
ghost use Rattle.imap_values.specs.Words.{ParsesAs};
ghost use Rattle.imap_values.specs.Sets.{range_between, range_from_at, range_at, comma_at, ranges_at, membership, uid_set_at};

use crate::error::ParseError;
use crate::words::positive;
use imap_commands::{UidRange, UidSet};
use std::alloc::Global;

fn between(one: u32, other: u32) -> UidRange
    ensures { result ≡ range_between one other }
{
    UidRange::between(one, other)
}

/// Reads the rest of a range after its first UID.
fn range_from(one: u32, bytes: &[u8]) -> Result<(UidRange, &[u8]), ParseError>
    ensures { ParsesAs (λ x. (x.0, x.1.now)) result (range_from_at one bytes.now) }
{
    match bytes {
        [b':', rest @ ..] => {
            let (other, rest) = positive(rest, 4_294_967_295)?;
            Ok((between(one, other as u32), rest))
        }
        _ => Ok((between(one, one), bytes)),
    }
}

#[tactic(auto, unfolding(crate::specs::Sets::range_at))]
fn range(bytes: &[u8]) -> Result<(UidRange, &[u8]), ParseError>
    ensures { ParsesAs (λ x. (x.0, x.1.now)) result (range_at bytes.now) }
{
    let (one, rest) = positive(bytes, 4_294_967_295)?;
    range_from(one as u32, rest)
}

/// Whether the bytes begin with a comma, and the bytes after it.
fn comma(bytes: &[u8]) -> (bool, &[u8])
    ensures comma { result.0 ≡ (comma_at bytes.now).0 }
    ensures rest { result.1.now ≡ (comma_at bytes.now).1 }
{
    match bytes {
        [b',', rest @ ..] => (true, rest),
        _ => (false, bytes),
    }
}

fn ranges(alloc: Global, bytes: &[u8]) -> Result<(Vec<UidRange>, &[u8]), ParseError>
    ensures { ParsesAs (λ x. (x.0.items, x.1.now)) result (ranges_at (length bytes.now) bytes.now) }
{
    let mut ranges = Vec::new(alloc);
    let mut left = bytes;
    for _ in 0..bytes.len() {
        let (one, rest) = range(left)?;
        ranges.push(one)?;
        let (more, after) = comma(rest);
        if !more {
            return Ok((ranges, after));
        }
        left = after;
    }
    Err(ParseError::NotInGrammar)
}

/// Reads a set of UIDs, and returns it with the rest.
#[tactic(auto, unfolding(crate::specs::Sets::uid_set_at))]
pub fn uid_set(alloc: Global, bytes: &[u8]) -> Result<(UidSet, &[u8]), ParseError>
    ensures { ParsesAs (λ x. (membership x.0, x.1.now)) result (uid_set_at bytes.now) }
{
    let (ranges, rest) = ranges(alloc, bytes)?;
    let set = UidSet::of(alloc, ranges)?;
    Ok((set, rest))
}

//! Sets of UIDs (RFC 9051 §9, `uid-set`).
ghost use Rattle.std.specs.Prelude.{◌≡◌, ℕ, ◌≤◌, ◌||◌, ◌++◌, List, min, max, IfOk, OnOk};
ghost use Rattle.imap_commands.specs.declared.uid_set.UidRange.{UidRange};
ghost use Rattle.imap_commands.specs.UidSets.{in_range, contains_uid, AreApart, BeginBy, joined};

use std::alloc::{AllocError as Memory, Global};
use std::marker::Model;

/// The UIDs from `first` to `last`, both included.
#[derive(Clone, Copy)]
pub struct UidRange {
    pub first: u32,
    pub last: u32,
}

impl UidRange {
    /// The range between two UIDs in either order.
    pub fn between(one: u32, other: u32) -> UidRange
        ensures first { result.first ≡ min one other }
        ensures last { result.last ≡ max one other }
    {
        UidRange {
            first: one.min(other),
            last: one.max(other),
        }
    }
}

/// A set of UIDs: ascending ranges that neither touch nor overlap.
#[derive(Drop)]
pub struct UidSet {
    ranges: Vec<UidRange>,
}

impl Model for UidSet {
    ghost Value = { List UidRange };

    ghost view = { λ set. set.ranges.items };

    ghost invariant = { λ set. AreApart set.ranges.items };
}

impl UidSet {
    /// Creates the set of the UIDs in any of the ranges, which may overlap and be in any order. A range whose last UID is below its first is
    /// empty.
    pub fn of(alloc: Global, mut ranges: Vec<UidRange>) -> Result<UidSet, Memory>
        ensures { IfOk result (λ set. (uid : ℕ) → contains_uid uid set ≡ contains_uid uid ranges.items) }
    {
        ranges.sort_unstable_by_key(|range| range.first);
        let mut merged = Vec::new(alloc);
        for range in &ranges {
            add(&mut merged, *range)?;
        }
        Ok(UidSet { ranges: merged })
    }

    /// Whether a UID is in the set. Searches by bisection, without allocation.
    pub fn contains(&self, uid: u32) -> bool
        ensures { result ≡ contains_uid uid self.now }
    {
        let next = self.ranges.partition_point(|range| range.last < uid);
        match self.ranges.get(next) {
            Some(range) => range.first <= uid,
            None => false,
        }
    }

    /// The ranges of the set, in ascending order.
    pub fn ranges(&self) -> &[UidRange]
        ensures same { result.now ≡ self.now }
        ensures apart { AreApart result.now }
    {
        &self.ranges
    }
}

/// Adds a range that does not begin before the others.
fn add(merged: &mut Vec<UidRange>, range: UidRange) -> Result<(), Memory>
    requires apart { AreApart merged.old.items }
    requires latest { BeginBy range.first merged.old.items }
    ensures apart { OnOk result (AreApart merged.new.items) }
    ensures latest { OnOk result (BeginBy range.first merged.new.items) }
    ensures members { OnOk result ((uid : ℕ) → contains_uid uid merged.new.items ≡ (contains_uid uid merged.old.items || in_range uid range)) }
{
    if range.last < range.first {
        return Ok(());
    }
    match merged.pop() {
        Some(before) => push_joined(merged, before, range),
        None => {
            merged.push(range)?;
            Ok(())
        }
    }
}

fn push_joined(merged: &mut Vec<UidRange>, before: UidRange, after: UidRange) -> Result<(), Memory>
    ensures { OnOk result (merged.new.items ≡ merged.old.items ++ joined before after) }
{
    if after.first <= before.last.saturating_add(1) {
        merged.push(UidRange {
            first: before.first,
            last: before.last.max(after.last),
        })?;
    } else {
        merged.push(before)?;
        merged.push(after)?;
    }
    Ok(())
}

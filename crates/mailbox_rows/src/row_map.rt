//! Rows by their UIDs, and the number of their header bytes.
ghost use Rattle.std.specs.Prelude.{◌≡◌, ◌≤◌, ◌<◌, ◌+◌, ◌^◌, ℕ, [], IsSome, IfSome, IfNone, OnOk, OnErr, true, length};
ghost use Rattle.std.specs.Ordering.{nat_cmp};
ghost use Rattle.std.specs.List.Sorted.{IsStrictlySortedBy};
ghost use Rattle.std.specs.Map.{keys_of, lookup, remove_entry};
ghost use Rattle.std.specs.Map.Iter.{ShowsInOrder, deref_pair};
ghost use Rattle.std.specs.Option.{unwrap_or, option_map, option_copied};
ghost use Rattle.imap_commands.specs.UidSets.{contains_uid, in_range};
ghost use Rattle.mailbox_rows.specs.Mailboxes.{header_limit};
ghost use Rattle.mailbox_rows.specs.Rows.{has_uid, changed, with_row, with_change, without, header_len as row_header_len, header_total};

use crate::{Fields, Row};
use imap_commands::{UidRange, UidSet};
use std::alloc::{AllocError, Global};
use std::collections::BTreeMap;
use std::collections::btree_map::Iter;
use std::marker::Model;

/// Rows by their UIDs.
#[derive(Drop)]
pub struct RowMap {
    rows: BTreeMap<u32, Row>,
    header_bytes: u64,
}

impl Model for RowMap {
    ghost use Rattle.std.specs.Prelude.{◌≡◌};
    ghost use Rattle.mailbox_rows.specs.Rows.{Rows, header_total};

    ghost Value = { Rows };

    ghost view = { λ m. m.rows.entries };

    ghost invariant = { λ m. m.header_bytes ≡ header_total m.rows.entries };
}

impl RowMap {
    pub fn new(alloc: Global) -> Self
        ensures { result ≡ [] }
    {
        RowMap {
            rows: BTreeMap::new(alloc),
            header_bytes: 0,
        }
    }

    pub fn len(&self) -> usize
        ensures equals { result ≡ length self.now }
        ensures small { result < 2 ^ 63 }
        ensures ordered { IsStrictlySortedBy nat_cmp (keys_of self.now) }
    {
        self.rows.len()
    }

    pub fn header_bytes(&self) -> u64
        ensures { result ≡ header_total self.now }
    {
        self.header_bytes
    }

    pub fn get(&self, uid: u32) -> Option<&Row>
        ensures { option_copied result ≡ lookup (has_uid uid) self.now }
    {
        self.rows.get(&uid)
    }

    pub fn iter(&self) -> Iter<'_, u32, Row>
        ensures entries { result ≡ self.now }
        ensures runs { ShowsInOrder (deref_pair {K = ℕ} {X = Row}) }
    {
        self.rows.iter()
    }

    pub fn clear(&mut self)
        ensures { self.new ≡ [] }
    {
        self.rows.clear();
        self.header_bytes = 0;
    }

    /// Puts a row in, in the place of the one with its UID if there is one.
    pub fn insert(&mut self, uid: u32, row: Row) -> Result<(), AllocError>
        requires { header_total self.old ≤ header_limit }
        ensures put { OnOk result (self.new ≡ with_row uid row self.old) }
        ensures keys_stay { IsSome (lookup (has_uid uid) self.old) → keys_of self.new ≡ keys_of self.old }
        ensures ordered { IsStrictlySortedBy nat_cmp (keys_of self.new) }
        ensures len { OnOk result (length self.new ≤ length self.old + 1) }
        ensures same { OnErr result (self.new ≡ self.old) }
    {
        let len = header_len(&row);
        let old = old_len(self.rows.insert(uid, row)?);
        self.header_bytes = self.header_bytes + len - old;
        Ok(())
    }

    /// Changes the flags and the MODSEQ of a row that is kept, if they were told.
    pub fn change(&mut self, uid: u32, fields: Fields)
        ensures { self.new ≡ with_change uid fields self.old }
    {
        change_in(&mut self.rows, uid, fields);
    }

    /// Removes the rows whose UIDs are in a set.
    pub fn vanish(&mut self, set: &UidSet)
        ensures { self.new ≡ without (λ uid. contains_uid uid set.now) self.old }
    {
        let mut rest = set.ranges();
        while let [range, more @ ..] = rest {
            self.vanish_range(*range);
            rest = more;
        }
    }

    fn vanish_range(&mut self, range: UidRange)
        ensures { self.new ≡ without (λ uid. in_range uid range) self.old }
    {
        while let Some(uid) = self.first_in(range) {
            self.remove(uid);
        }
    }

    /// The first UID of a range that has a row.
    fn first_in(&self, range: UidRange) -> Option<u32>
        ensures found { IfSome result (λ uid. in_range uid range ≡ true) }
        ensures kept { IfSome result (λ uid. IsSome (lookup (has_uid uid) self.now)) }
        ensures none { IfNone result (without (λ uid. in_range uid range) self.now ≡ self.now) }
    {
        if range.last < range.first {
            return None;
        }
        let (uid, _) = self.rows.range(range.first..=range.last).next()?;
        Some(*uid)
    }

    fn remove(&mut self, uid: u32)
        ensures { self.new ≡ remove_entry (has_uid uid) self.old }
    {
        let len = old_len(self.rows.remove(&uid));
        self.header_bytes -= len;
    }
}

fn header_len(row: &Row) -> u64
    ensures { result ≡ length row.now.header }
{
    row.header.as_slice().len() as u64
}

/// The number of header bytes of a row that goes, 0 if there is none.
fn old_len(row: Option<Row>) -> u64
    ensures { result ≡ unwrap_or (option_map row_header_len row) 0 }
{
    match row {
        Some(row) => header_len(&row),
        None => 0,
    }
}

/// Sets the flags and the MODSEQ of a row, if they were told.
fn change_row(row: &mut Row, fields: Fields)
    ensures { row.new ≡ changed fields row.old }
{
    let Fields { flags, modseq, .. } = fields;
    if let Some(flags) = flags {
        row.flags = flags;
    }
    if let Some(modseq) = modseq {
        row.modseq = modseq;
    }
}

fn change_in(rows: &mut BTreeMap<u32, Row>, uid: u32, fields: Fields)
    ensures { rows.new.entries ≡ with_change uid fields rows.old.entries }
{
    if let Some(row) = rows.get_mut(&uid) {
        change_row(row, fields);
    }
}

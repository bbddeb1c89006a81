//! The rows of a folder, by UID and by their places.
ghost use Rattle.std.specs.Prelude.{◌≡◌, ◌≤◌, ◌<◌, ◌+◌, ◌^◌, ℕ, [], OnOk, OnErr, length};
ghost use Rattle.std.specs.Ordering.{nat_cmp};
ghost use Rattle.std.specs.List.Sorted.{IsStrictlySortedBy};
ghost use Rattle.std.specs.Map.{keys_of, lookup};
ghost use Rattle.std.specs.Map.Iter.{ShowsInOrder, deref_pair};
ghost use Rattle.std.specs.Option.{option_copied};
ghost use Rattle.imap_commands.specs.UidSets.{contains_uid};
ghost use Rattle.mailbox_rows.specs.Mailboxes.{header_limit};
ghost use Rattle.mailbox_rows.specs.Rows.{has_uid, with_row, with_change, without, header_total};

use crate::row_map::RowMap;
use crate::{Fields, Row};
use imap_commands::UidSet;
use std::alloc::{AllocError, Global};
use std::collections::btree_map::Iter;
use std::marker::Model;

/// The rows of a folder, in ascending order of their UIDs.
#[derive(Drop)]
pub struct Rows {
    /// The UIDs of all rows: a map alone cannot begin at a place.
    uids: Vec<u32>,
    map: RowMap,
}

impl Model for Rows {
    ghost use Rattle.std.specs.Prelude.{◌≡◌};
    ghost use Rattle.std.specs.Ordering.{nat_cmp};
    ghost use Rattle.std.specs.List.Sorted.{IsStrictlySortedBy};
    ghost use Rattle.std.specs.Map.{keys_of};
    ghost use Rattle.mailbox_rows.specs.Rows.{Rows as RowList};

    ghost Value = { RowList };

    ghost view = { λ r. r.map };

    ghost invariant = { λ r. (r.uids.items ≡ keys_of r.map) × IsStrictlySortedBy nat_cmp r.uids.items };
}

impl Rows {
    /// The number of rows.
    pub fn len(&self) -> usize
        ensures equals { result ≡ length self.now }
        ensures small { result < 2 ^ 63 }
    {
        self.map.len()
    }

    /// The row of a UID.
    pub fn get(&self, uid: u32) -> Option<&Row>
        ensures { option_copied result ≡ lookup (has_uid uid) self.now }
    {
        self.map.get(uid)
    }

    /// The UIDs with their rows, in ascending order.
    pub fn iter(&self) -> Iter<'_, u32, Row>
        ensures entries { result ≡ self.now }
        ensures runs { ShowsInOrder (deref_pair {K = ℕ} {X = Row}) }
    {
        self.map.iter()
    }

    /// The UIDs of all rows, in ascending order.
    pub fn uids(&self) -> &[u32]
        ensures equals { result.now ≡ keys_of self.now }
        ensures ascending { IsStrictlySortedBy nat_cmp result.now }
    {
        &self.uids
    }

    pub(crate) fn new(alloc: Global) -> Self
        ensures { result ≡ [] }
    {
        Rows {
            uids: Vec::new(alloc),
            map: RowMap::new(alloc),
        }
    }

    pub(crate) fn header_bytes(&self) -> u64
        ensures { result ≡ header_total self.now }
    {
        self.map.header_bytes()
    }

    pub(crate) fn clear(&mut self)
        ensures { self.new ≡ [] }
    {
        self.map.clear();
        self.uids.clear();
    }

    /// Puts a row in, in the place of the one with its UID if there is one.
    pub(crate) fn put(&mut self, uid: u32, row: Row) -> Result<(), AllocError>
        requires { header_total self.old ≤ header_limit }
        ensures put { OnOk result (self.new ≡ with_row uid row self.old) }
        ensures len { OnOk result (length self.new ≤ length self.old + 1) }
        ensures same { OnErr result (self.new ≡ self.old) }
    {
        match self.uids.binary_search(&uid) {
            Ok(_) => self.map.insert(uid, row),
            Err(place) => {
                // with room in the list, only the map can lack memory
                self.uids.reserve(1)?;
                self.map.insert(uid, row)?;
                self.uids.insert(place, uid)?;
                Ok(())
            }
        }
    }

    /// Changes the flags and the MODSEQ of a row that is kept, if they were told.
    pub(crate) fn change(&mut self, uid: u32, fields: Fields)
        ensures { self.new ≡ with_change uid fields self.old }
    {
        self.map.change(uid, fields);
    }

    /// Removes the rows whose UIDs are in a set.
    pub(crate) fn vanish(&mut self, set: &UidSet)
        ensures { self.new ≡ without (λ uid. contains_uid uid set.now) self.old }
    {
        let count = self.map.len();
        self.map.vanish(set);
        if self.map.len() < count {
            self.uids.retain(|uid| !set.contains(*uid));
        }
    }
}

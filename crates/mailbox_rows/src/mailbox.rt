//! A folder that was selected, and its rows.
ghost use Rattle.std.specs.Prelude.{◌≡◌};
ghost use Rattle.imap_commands.specs.UidSets.{contains_uid};
ghost use Rattle.mailbox_rows.specs.Rows.{with_row, with_change, without};
ghost use Rattle.mailbox_rows.specs.Mailboxes.{new_mailbox, emptied, renewed, raised, with_rows, is_past, PutsRow};

use crate::{Fields, Row, Rows, ViewFault};
use imap_commands::UidSet;
use mail_values::Bytes;
use std::alloc::Global;
use std::marker::Model;

/// The greatest number of rows.
const ROW_LIMIT: usize = 50_000;

/// The greatest number of header bytes.
const HEADER_LIMIT: u64 = 16_777_216;

/// What is kept of a folder.
#[derive(Drop)]
pub struct Mailbox {
    name: Bytes,
    validity: Option<u32>,
    rows: Rows,
    mark: u64,
}

impl Model for Mailbox {
    ghost use Rattle.std.specs.Prelude.{◌≡◌, ◌≤◌, length};
    ghost use Rattle.mailbox_rows.specs.Mailboxes.{MailboxState, row_limit, header_limit};
    ghost use Rattle.mailbox_rows.specs.Rows.{header_total};

    ghost Value = { MailboxState };

    ghost view = { λ m. record { name = m.name; validity = m.validity; rows = m.rows; mark = m.mark } };

    ghost invariant = { λ m. (length m.rows ≤ row_limit) × (header_total m.rows ≤ header_limit) };
}

impl Mailbox {
    /// A folder of which nothing is known.
    pub fn new(alloc: Global, name: Bytes) -> Self
        ensures { result ≡ new_mailbox name }
    {
        Mailbox {
            name,
            validity: None,
            rows: Rows::new(alloc),
            mark: 0,
        }
    }

    pub fn name(&self) -> &[u8]
        ensures { result.now ≡ self.now.name }
    {
        self.name.as_slice()
    }

    pub fn validity(&self) -> Option<u32>
        ensures { result ≡ self.now.validity }
    {
        self.validity
    }

    pub fn mark(&self) -> u64
        ensures { result ≡ self.now.mark }
    {
        self.mark
    }

    /// The rows, in ascending order of their UIDs.
    pub fn rows(&self) -> &Rows
        ensures { result.now ≡ self.now.rows }
    {
        &self.rows
    }

    /// Forgets the rows, and which changes are known.
    pub fn forget(&mut self)
        ensures { self.new ≡ emptied self.old }
    {
        self.rows.clear();
        self.mark = 0;
    }

    /// Takes note of the UIDVALIDITY. With another one the rows are forgotten.
    pub fn set_validity(&mut self, validity: u32)
        ensures { self.new ≡ renewed validity self.old }
    {
        if self.validity != Some(validity) {
            self.validity = Some(validity);
            self.forget();
        }
    }

    /// Raises the mark to `mark`, if that is greater.
    pub fn raise_mark(&mut self, mark: u64)
        ensures { self.new ≡ raised mark self.old }
    {
        self.mark = self.mark.max(mark);
    }

    /// Puts a row in, in the place of the one with its UID if there is one.
    pub fn put(&mut self, uid: u32, row: Row) -> Result<(), ViewFault>
        ensures { PutsRow self.old (with_row uid row self.old.rows) result self.new }
    {
        self.rows.put(uid, row)?;
        let count = self.rows.len();
        let bytes = self.rows.header_bytes();
        if is_past_limit(count, bytes) {
            self.rows.clear();
            self.mark = 0;
            return Err(ViewFault::TooMany {
                rows: count as u32,
                bytes,
            });
        }
        Ok(())
    }

    /// Changes the flags and the MODSEQ of a row that is kept, if they were told.
    pub fn change(&mut self, uid: u32, fields: Fields)
        ensures { self.new ≡ with_rows self.old (with_change uid fields self.old.rows) }
    {
        self.rows.change(uid, fields);
    }

    /// Removes the rows whose UIDs are in a set.
    pub fn vanish(&mut self, set: &UidSet)
        ensures { self.new ≡ with_rows self.old (without (λ uid. contains_uid uid set.now) self.old.rows) }
    {
        self.rows.vanish(set);
    }
}

/// Whether a folder has more rows or header bytes than are kept.
fn is_past_limit(count: usize, bytes: u64) -> bool
    ensures { result ≡ is_past count bytes }
{
    count > ROW_LIMIT || bytes > HEADER_LIMIT
}

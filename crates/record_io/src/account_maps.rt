//! The records of one account, in maps.
ghost use Rattle.std.specs.Prelude.{◌≡◌, [], not, ◌==◌, IfOk, OnOk, OnErr};
ghost use Rattle.std.specs.List.{filter};
ghost use Rattle.std.specs.Map.{lookup};
ghost use Rattle.std.specs.BTreeMap.{insert_entry, is_at};
ghost use Rattle.std.specs.Ordering.{nat_cmp};

use crate::copies::{copy_identity, copy_state};
use account_pictures::{Identity, SendState};
use std::alloc::{AllocError, Global};
use std::collections::BTreeMap;
use std::marker::Model;

/// The identities of an account by their numbers, and the send states by form numbers.
#[derive(Drop)]
pub struct AccountMaps {
    identities: BTreeMap<u8, Identity>,
    sends: BTreeMap<u64, SendState>,
}

impl Model for AccountMaps {
    ghost use Rattle.record_io.specs.Maps.{AccountEntries};

    ghost Value = { AccountEntries };

    ghost view = { λ a. record { identities = a.identities.entries; sends = a.sends.entries } };
}

impl AccountMaps {
    pub fn new(alloc: Global) -> Self
        ensures { result ≡ record { identities = []; sends = [] } }
    {
        AccountMaps {
            identities: BTreeMap::new(alloc),
            sends: BTreeMap::new(alloc),
        }
    }

    /// Returns copies of the identities with their numbers.
    pub fn identities(&self, alloc: Global) -> Result<Vec<(u8, Identity)>, AllocError>
        ensures { IfOk result (λ list. list.items ≡ self.now.identities) }
    {
        list_identities(alloc, &self.identities)
    }

    pub fn put_identity(&mut self, number: u8, identity: Identity) -> Result<(), AllocError>
        ensures puts { OnOk result (self.new ≡ record self.old { identities = insert_entry nat_cmp self.old.identities number identity }) }
        ensures unchanged_on_err { OnErr result (self.new ≡ self.old) }
    {
        self.identities.insert(number, identity)?;
        Ok(())
    }

    pub fn state(&self, form: u64) -> Option<SendState>
        ensures { result ≡ lookup (is_at (nat_cmp form)) self.now.sends }
    {
        match self.sends.get(&form) {
            Some(state) => Some(copy_state(state)),
            None => None,
        }
    }

    pub fn set_state(&mut self, form: u64, state: SendState) -> Result<(), AllocError>
        ensures sets { OnOk result (self.new ≡ record self.old { sends = insert_entry nat_cmp self.old.sends form state }) }
        ensures unchanged_on_err { OnErr result (self.new ≡ self.old) }
    {
        self.sends.insert(form, state)?;
        Ok(())
    }

    pub fn remove_state(&mut self, form: u64)
        ensures { self.new ≡ record self.old { sends = filter (λ send. not (form == send.0)) self.old.sends } }
    {
        // `len` promises that the keys ascend, so that one removal is enough.
        if self.sends.len() > 0 {
            let _ = self.sends.remove(&form);
        }
    }
}

fn list_identities(
    alloc: Global,
    map: &BTreeMap<u8, Identity>,
) -> Result<Vec<(u8, Identity)>, AllocError>
    ensures { IfOk result (λ list. list.items ≡ map.now.entries) }
{
    let mut list = Vec::new(alloc);
    for (number, identity) in map {
        list.push((*number, copy_identity(alloc, identity)?))?;
    }
    Ok(list)
}

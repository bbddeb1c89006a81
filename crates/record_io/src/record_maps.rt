//! The records of all accounts, in maps.
ghost use Rattle.std.specs.Prelude.{◌≡◌, [], Some, None, IfOk, OnOk, OnErr};
ghost use Rattle.record_io.specs.Records.{PutIdentity, SetSend, after_change, identities_of, state_of, with_records};

use crate::account_maps::AccountMaps;
use account_pictures::{Identity, SendState};
use std::alloc::{AllocError, Global};
use std::collections::BTreeMap;
use std::marker::Model;

/// The records of accounts by their names.
#[derive(Drop)]
pub struct RecordMaps {
    accounts: BTreeMap<Vec<u8>, AccountMaps>,
}

impl Model for RecordMaps {
    ghost use Rattle.std.specs.Prelude.{List, map};
    ghost use Rattle.account_pictures.specs.declared.records.Records.{Records};
    ghost use Rattle.record_io.specs.Maps.{entry_records};

    ghost Value = { List Records };

    ghost view = { λ r. map entry_records r.accounts.entries };
}

impl RecordMaps {
    pub fn new(alloc: Global) -> Self
        ensures { result ≡ [] }
    {
        RecordMaps {
            accounts: BTreeMap::new(alloc),
        }
    }

    /// Returns copies of a name's identities with their numbers.
    pub fn identities(
        &self,
        alloc: Global,
        account: &[u8],
    ) -> Result<Vec<(u8, Identity)>, AllocError>
        ensures { IfOk result (λ list. list.items ≡ identities_of account.now self.now) }
    {
        match self.accounts.get(account) {
            Some(maps) => maps.identities(alloc),
            None => Ok(Vec::new(alloc)),
        }
    }

    pub fn state(&self, account: &[u8], form: u64) -> Option<SendState>
        ensures { result ≡ state_of account.now form self.now }
    {
        match self.accounts.get(account) {
            Some(maps) => maps.state(form),
            None => None,
        }
    }

    pub fn put_identity(
        &mut self,
        alloc: Global,
        account: &[u8],
        number: u8,
        identity: Identity,
    ) -> Result<(), AllocError>
        ensures puts { OnOk result (self.new ≡ after_change self.old (PutIdentity account.now number identity)) }
        ensures unchanged_on_err { OnErr result (self.new ≡ self.old) }
    {
        if let Some(maps) = self.accounts.get_mut(account) {
            return maps.put_identity(number, identity);
        }
        let mut maps = AccountMaps::new(alloc);
        maps.put_identity(number, identity)?;
        self.insert(alloc, account, maps)
    }

    /// Sets the state of a form, or removes it.
    pub fn set_send(
        &mut self,
        alloc: Global,
        account: &[u8],
        form: u64,
        state: Option<SendState>,
    ) -> Result<(), AllocError>
        ensures sets { OnOk result (self.new ≡ after_change self.old (SetSend account.now form state)) }
        ensures unchanged_on_err { OnErr result (self.new ≡ self.old) }
    {
        match state {
            Some(state) => self.set_state(alloc, account, form, state),
            None => {
                self.remove_state(account, form);
                Ok(())
            }
        }
    }

    fn set_state(
        &mut self,
        alloc: Global,
        account: &[u8],
        form: u64,
        state: SendState,
    ) -> Result<(), AllocError>
        ensures sets { OnOk result (self.new ≡ after_change self.old (SetSend account.now form (Some state))) }
        ensures unchanged_on_err { OnErr result (self.new ≡ self.old) }
    {
        if let Some(maps) = self.accounts.get_mut(account) {
            return maps.set_state(form, state);
        }
        let mut maps = AccountMaps::new(alloc);
        maps.set_state(form, state)?;
        self.insert(alloc, account, maps)
    }

    fn remove_state(&mut self, account: &[u8], form: u64)
        ensures { self.new ≡ after_change self.old (SetSend account.now form None) }
    {
        if let Some(maps) = self.accounts.get_mut(account) {
            maps.remove_state(form);
        }
    }

    /// Puts in the maps of a name, in the place of those that it has.
    fn insert(&mut self, alloc: Global, account: &[u8], maps: AccountMaps) -> Result<(), AllocError>
        ensures inserts { OnOk result (self.new ≡ with_records (record { account = account.now; identities = maps.identities; sends = maps.sends }) self.old) }
        ensures unchanged_on_err { OnErr result (self.new ≡ self.old) }
    {
        let name = Vec::from_slice(alloc, account)?;
        self.accounts.insert(name, maps)?;
        Ok(())
    }
}

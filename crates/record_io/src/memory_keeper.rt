//! A keeper in memory, whose calls fail if their numbers are in a list. The first call has the number 1.
ghost use Rattle.std.specs.Prelude.{◌≡◌, ◌≤◌, ◌↔◌, Some, IsSome, IsErr, IsErrOf, IsTrue, IfOk, IfErr, OnOk, OnErr, Contains};
ghost use Rattle.mail_io.specs.Memory.{next_count};
ghost use Rattle.record_io.specs.Keepers.{HasKeepCause, IfTold, after_adopt, after_fault, after_put, counted, new_keeper};
ghost use Rattle.record_io.specs.Records.{PutIdentity, SetSend, identities_of, state_of};

use crate::copies::copy_identity;
use crate::record_maps::RecordMaps;
use crate::{KeepFault, Keeper};
use account_pictures::{Identity, SendState};
use mail_values::Text;
use std::alloc::{AllocError, Global};
use std::marker::Model;

/// A keeper in memory, which tells its records.
#[derive(Drop)]
pub struct MemoryKeeper {
    records: RecordMaps,
    adopted: Option<Text>,
    calls: u64,
    faults: u64,
    failing: Vec<u64>,
}

impl Model for MemoryKeeper {
    ghost use Rattle.record_io.specs.Keepers.{KeeperState};

    ghost Value = { KeeperState };

    ghost view = { λ k. record { records = k.records; adopted = k.adopted; calls = k.calls; faults = k.faults; failing = k.failing.items } };
}

impl MemoryKeeper {
    /// A keeper of no records.
    pub fn new(alloc: Global, failing: Vec<u64>) -> Self
        ensures { result ≡ new_keeper failing.items }
    {
        MemoryKeeper {
            records: RecordMaps::new(alloc),
            adopted: None,
            calls: 0,
            faults: 0,
            failing,
        }
    }

    /// Counts a call, and returns whether it fails whatever it is.
    fn begin(&mut self) -> bool
        ensures counts { self.new ≡ counted self.old }
        ensures decides { IsTrue result ↔ Contains self.old.failing (next_count self.old.calls) }
    {
        self.calls = self.calls.saturating_add(1);
        self.failing.contains(&self.calls)
    }

    fn fail<T>(&mut self) -> Result<T, KeepFault>
        ensures counts { self.new ≡ record self.old { faults = next_count self.old.faults } }
        ensures cause { HasKeepCause self.old.faults self.new.faults result }
        ensures err { IsErrOf result KeepFault.Failed }
    {
        self.faults = self.faults.saturating_add(1);
        Err(KeepFault::Failed)
    }
}

/// The bytes of the name of the adopted account.
fn adopted_name(adopted: &Option<Text>) -> &[u8]
    requires { IsSome adopted.now }
    ensures { Some result.now ≡ adopted.now }
{
    match adopted {
        Some(account) => account.as_str().as_bytes(),
        None => &[],
    }
}

impl Keeper for MemoryKeeper {
    ghost records = { λ k. Some k.records };

    ghost adopted = { λ k. k.adopted };

    ghost faults = { λ k. k.faults };

    fn adopt(&mut self, alloc: Global, account: &str) -> Result<(), KeepFault>
        ensures iff_failing { IsErrOf result KeepFault.Failed ↔ Contains self.old.failing (next_count self.old.calls) }
        ensures on_ok { OnOk result (self.new ≡ after_adopt account.now self.old) }
        ensures on_err { IfErr result (λ fault. self.new ≡ after_fault fault self.old) }
        ensures cause { HasKeepCause self.old.faults self.new.faults result }
    {
        if self.begin() {
            return self.fail();
        }
        self.adopted = Some(Text::from_text(alloc, account)?);
        Ok(())
    }

    fn identities(&mut self, alloc: Global) -> Result<Vec<(u8, Identity)>, KeepFault>
        requires adopted { IsSome self.old.adopted }
        ensures iff_failing { IsErrOf result KeepFault.Failed ↔ Contains self.old.failing (next_count self.old.calls) }
        ensures told { IfOk result (λ list. IfTold (Some self.old.records) self.old.adopted (λ told account. list.items ≡ identities_of account told)) }
        ensures on_ok { OnOk result (self.new ≡ counted self.old) }
        ensures on_err { IfErr result (λ fault. self.new ≡ after_fault fault self.old) }
        ensures cause { HasKeepCause self.old.faults self.new.faults result }
    {
        if self.begin() {
            return self.fail();
        }
        Ok(self.records.identities(alloc, adopted_name(&self.adopted))?)
    }

    fn put_identity(
        &mut self,
        alloc: Global,
        number: u8,
        identity: &Identity,
    ) -> Result<(), KeepFault>
        requires adopted { IsSome self.old.adopted }
        ensures iff_failing { IsErrOf result KeepFault.Failed ↔ Contains self.old.failing (next_count self.old.calls) }
        ensures on_ok { OnOk result (self.new ≡ after_put (λ account. PutIdentity account number identity.now) self.old) }
        ensures on_err { IfErr result (λ fault. self.new ≡ after_fault fault self.old) }
        ensures cause { HasKeepCause self.old.faults self.new.faults result }
    {
        if self.begin() {
            return self.fail();
        }
        let copy = copy_identity(alloc, identity)?;
        self.records
            .put_identity(alloc, adopted_name(&self.adopted), number, copy)?;
        Ok(())
    }

    fn send_state(&mut self, _alloc: Global, form: u64) -> Result<Option<SendState>, KeepFault>
        requires adopted { IsSome self.old.adopted }
        ensures iff_failing { IsErrOf result KeepFault.Failed ↔ Contains self.old.failing (next_count self.old.calls) }
        ensures told { IfOk result (λ state. IfTold (Some self.old.records) self.old.adopted (λ told account. state ≡ state_of account form told)) }
        ensures on_ok { OnOk result (self.new ≡ counted self.old) }
        ensures on_err { IfErr result (λ fault. self.new ≡ after_fault fault self.old) }
        ensures cause { HasKeepCause self.old.faults self.new.faults result }
    {
        if self.begin() {
            return self.fail();
        }
        Ok(self.records.state(adopted_name(&self.adopted), form))
    }

    fn set_send(
        &mut self,
        alloc: Global,
        form: u64,
        state: Option<SendState>,
    ) -> Result<(), KeepFault>
        requires adopted { IsSome self.old.adopted }
        ensures iff_failing { IsErrOf result KeepFault.Failed ↔ Contains self.old.failing (next_count self.old.calls) }
        ensures on_ok { OnOk result (self.new ≡ after_put (λ account. SetSend account form state) self.old) }
        ensures on_err { IfErr result (λ fault. self.new ≡ after_fault fault self.old) }
        ensures cause { HasKeepCause self.old.faults self.new.faults result }
    {
        if self.begin() {
            return self.fail();
        }
        self.records
            .set_send(alloc, adopted_name(&self.adopted), form, state)?;
        Ok(())
    }
}

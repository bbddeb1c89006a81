//! The trait of what keeps the records of accounts.
ghost use Rattle.std.specs.Prelude.{◌≡◌, ℕ, ◌≤◌, List, Option, Some, IsSome, IfOk, OnOk, OnErr};
ghost use Rattle.account_pictures.specs.declared.records.Records.{Records};
ghost use Rattle.record_io.specs.Keepers.{HasKeepCause, IfTold, told_after};
ghost use Rattle.record_io.specs.Records.{PutIdentity, SetSend, identities_of, state_of};

use account_pictures::{Identity, SendState};
use std::alloc::{AllocError, Global};

/// The reason that a keeper's call did nothing.
#[derive(Clone, Copy, Debug, PartialEq, Eq)]
pub enum KeepFault {
    /// The keeper's fault count rose.
    Failed,
    Memory,
}

impl From<AllocError> for KeepFault {
    ghost use Rattle.std.specs.Prelude.{◌≡◌};
    ghost use Rattle.record_io.specs.declared.keeper.KeepFault.TheVariants.{Memory};

    ghost from_gives = { λ _ e. e ≡ Memory };

    fn from(_: AllocError) -> Self {
        KeepFault::Memory
    }
}

/// An object that keeps the records of accounts. All calls but `adopt` are for the account that was adopted last.
pub trait Keeper {
    /// The records of all names, in order of the names, if the keeper tells them.
    ghost records: { Self → Option (List Records) };

    /// The account that is adopted, `None` before the first.
    ghost adopted: { Self → Option (List ℕ) };

    /// The number of faults so far.
    ghost faults: { Self → ℕ };

    /// Adopts an account. This changes no record.
    fn adopt(&mut self, alloc: Global, account: &str) -> Result<(), KeepFault>
        ensures adopts { OnOk result (adopted self.new ≡ Some account.now) }
        ensures unchanged_on_err { OnErr result (adopted self.new ≡ adopted self.old) }
        ensures keeps_records { records self.new ≡ records self.old }
        ensures cause { HasKeepCause (faults self.old) (faults self.new) result };

    /// Returns the identities with their numbers, in order of these.
    fn identities(&mut self, alloc: Global) -> Result<Vec<(u8, Identity)>, KeepFault>
        requires adopted { IsSome (records self.old) → IsSome (adopted self.old) }
        ensures told { IfOk result (λ list. IfTold (records self.old) (adopted self.old) (λ told account. list.items ≡ identities_of account told)) }
        ensures keeps_adopted { adopted self.new ≡ adopted self.old }
        ensures keeps_records { records self.new ≡ records self.old }
        ensures cause { HasKeepCause (faults self.old) (faults self.new) result };

    /// Puts an identity in, in the place of the one with its number if there is one.
    fn put_identity(
        &mut self,
        alloc: Global,
        number: u8,
        identity: &Identity,
    ) -> Result<(), KeepFault>
        requires adopted { IsSome (records self.old) → IsSome (adopted self.old) }
        requires from_one { 1 ≤ number }
        requires to_sixteen { number ≤ 16 }
        ensures puts { OnOk result (records self.new ≡ told_after (records self.old) (adopted self.old) (λ account. PutIdentity account number identity.now)) }
        ensures unchanged_on_err { OnErr result (records self.new ≡ records self.old) }
        ensures keeps_adopted { adopted self.new ≡ adopted self.old }
        ensures cause { HasKeepCause (faults self.old) (faults self.new) result };

    /// Returns the send state of a form, `None` if it has none.
    fn send_state(&mut self, alloc: Global, form: u64) -> Result<Option<SendState>, KeepFault>
        requires adopted { IsSome (records self.old) → IsSome (adopted self.old) }
        ensures told { IfOk result (λ state. IfTold (records self.old) (adopted self.old) (λ told account. state ≡ state_of account form told)) }
        ensures keeps_adopted { adopted self.new ≡ adopted self.old }
        ensures keeps_records { records self.new ≡ records self.old }
        ensures cause { HasKeepCause (faults self.old) (faults self.new) result };

    /// Sets the send state of a form, or removes it if `state` is `None`.
    fn set_send(
        &mut self,
        alloc: Global,
        form: u64,
        state: Option<SendState>,
    ) -> Result<(), KeepFault>
        requires adopted { IsSome (records self.old) → IsSome (adopted self.old) }
        ensures sets { OnOk result (records self.new ≡ told_after (records self.old) (adopted self.old) (λ account. SetSend account form state)) }
        ensures unchanged_on_err { OnErr result (records self.new ≡ records self.old) }
        ensures keeps_adopted { adopted self.new ≡ adopted self.old }
        ensures cause { HasKeepCause (faults self.old) (faults self.new) result };
}

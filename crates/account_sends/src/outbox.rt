//! A member's outbox.
ghost use Rattle.std.specs.Prelude.{◌≡◌, ◌<◌, length, Some, IsSome, IfOk, IfSome, OnOk, OnErr};
ghost use Rattle.record_io.specs.Keepers.{HasKeepCause, IfTold};
ghost use Rattle.record_io.specs.Records.{identities_of, state_of};
ghost use Rattle.account_sends.specs.Sends.{IsKeptCaused, IsLinkCaused, IsSomeLetter, Prepares, Sends, identity_for};

use crate::faults::SendFault;
use crate::letters::Letter;
use crate::sending::{prepare, submit_letter};
use mail_io::Link;
use mail_values::Text;
use record_io::{KeepFault, Keeper};
use site_asks::Draft;
use std::alloc::Global;
use std::marker::Model;

/// A member's link to the post server, and the keeper of the records.
#[derive(Drop)]
pub struct Outbox<L: Link, K: Keeper> {
    post: L,
    keeper: K,
}

impl<L: Link, K: Keeper> Model for Outbox<L, K> {
    ghost use Rattle.account_sends.specs.Outboxes.{OutboxState};

    ghost Value = { OutboxState };

    ghost view = { λ o. record { talk = L.talk o.post; post_faults = L.faults o.post; records = K.records o.keeper; adopted = K.adopted o.keeper; keeper_faults = K.faults o.keeper } };
}

impl<L: Link, K: Keeper> Outbox<L, K> {
    pub fn new(post: L, keeper: K) -> Self
        ensures { result ≡ record { talk = L.talk post; post_faults = L.faults post; records = K.records keeper; adopted = K.adopted keeper; keeper_faults = K.faults keeper } }
    {
        Outbox { post, keeper }
    }

    /// Lets the keeper adopt a user: from then on the other calls are for their records.
    pub fn adopt(&mut self, alloc: Global, user: &Text) -> Result<(), KeepFault>
        ensures adopts { OnOk result (self.new.adopted ≡ Some user.now) }
        ensures unchanged_on_err { OnErr result (self.new.adopted ≡ self.old.adopted) }
        ensures keeps { self.new ≡ record self.old { adopted = self.new.adopted; keeper_faults = self.new.keeper_faults } }
        ensures cause { HasKeepCause self.old.keeper_faults self.new.keeper_faults result }
    {
        self.keeper.adopt(alloc, user.as_str())
    }

    /// Looks up what is to be submitted for a draft of a user, as it is written at `moment`, in seconds since 1970. Returns `None` if its form
    /// was sent before.
    pub fn prepare(
        &mut self,
        alloc: Global,
        user: &Text,
        domain: &Text,
        draft: &Draft,
        moment: i64,
    ) -> Result<Option<Letter>, SendFault>
        requires adopted { IsSome self.old.records → IsSome self.old.adopted }
        ensures told { IfTold self.old.records self.old.adopted (λ told account. Prepares (state_of account draft.now.form told) draft.now (identity_for draft.now.identity (identities_of account told) user.now domain.now) moment result) }
        ensures letter { IfOk result (λ found. IfSome found (λ letter. IsSomeLetter draft.now moment letter)) }
        ensures nonempty { IfOk result (λ found. IfSome found (λ letter. 0 < length letter.message)) }
        ensures keeps { self.new ≡ record self.old { keeper_faults = self.new.keeper_faults } }
        ensures cause { IsKeptCaused result self.old.keeper_faults self.new.keeper_faults }
    {
        prepare(alloc, &mut self.keeper, user, domain, draft, moment)
    }

    /// Submits the letter of a form that has no state. Before anything of it is said it is noted that the submission begins, and then how it
    /// ended. The faults are those of the keeper and then of the submission.
    pub fn submit(
        &mut self,
        alloc: Global,
        user: &Text,
        password: &Text,
        letter: &Letter,
    ) -> Result<(), SendFault>
        requires adopted { IsSome self.old.records → IsSome self.old.adopted }
        requires nonempty { 0 < length letter.now.message }
        ensures sends { Sends user.now password.now letter.now self.old self.new result }
        ensures keeper_cause { IsKeptCaused result self.old.keeper_faults self.new.keeper_faults }
        ensures post_cause { IsLinkCaused result self.old.post_faults self.new.post_faults }
    {
        submit_letter(
            alloc,
            &mut self.post,
            &mut self.keeper,
            user,
            password,
            letter,
        )
    }
}

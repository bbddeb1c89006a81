//! Looks up what a form needs, and submits its letter.
ghost use Rattle.std.specs.Prelude.{◌≡◌, ◌<◌, length, IsSome, IfOk, IfSome};
ghost use Rattle.record_io.specs.Keepers.{HasKeepCause, IfTold};
ghost use Rattle.record_io.specs.Records.{identities_of, state_of};
ghost use Rattle.account_sends.specs.Sends.{IsKeptCaused, IsSomeLetter, IsWritten, Prepares, Sends, begun, identity_for, noted, sent_result, state_after};
ghost use Rattle.account_sends.specs.Outboxes.{outbox};

use crate::faults::SendFault;
use crate::identities::identity_for;
use crate::letters::{Letter, write_letter};
use account_pictures::SendState;
use mail_io::Link;
use mail_values::Text;
use record_io::{KeepFault, Keeper};
use site_asks::Draft;
use std::alloc::Global;
use submission::{SubmitFault, submit};

/// Keeps the state of a form.
pub fn note<K: Keeper>(
    alloc: Global,
    keeper: &mut K,
    form: u64,
    state: Option<SendState>,
) -> Result<(), KeepFault>
    requires adopted { IsSome (K.records keeper.old) → IsSome (K.adopted keeper.old) }
    ensures notes { K.records keeper.new ≡ noted form state (K.adopted keeper.old) result (K.records keeper.old) }
    ensures keeps_adopted { K.adopted keeper.new ≡ K.adopted keeper.old }
    ensures cause { HasKeepCause (K.faults keeper.old) (K.faults keeper.new) result }
{
    keeper.set_send(alloc, form, state)
}

/// Returns the state of a form after its submission.
pub fn state_after(posted: &Result<(), SubmitFault>) -> Option<SendState>
    ensures { result ≡ state_after posted.now }
{
    match posted {
        Ok(()) => Some(SendState::Done),
        Err(SubmitFault::Doubt) => Some(SendState::Doubt),
        Err(_) => None,
    }
}

/// Writes the letter of a form that has no state.
fn draft_letter<K: Keeper>(
    alloc: Global,
    keeper: &mut K,
    user: &Text,
    domain: &Text,
    draft: &Draft,
    moment: i64,
) -> Result<Letter, SendFault>
    requires adopted { IsSome (K.records keeper.old) → IsSome (K.adopted keeper.old) }
    ensures told { IfTold (K.records keeper.old) (K.adopted keeper.old) (λ told account. IsWritten draft.now (identity_for draft.now.identity (identities_of account told) user.now domain.now) moment result) }
    ensures letter { IfOk result (λ letter. IsSomeLetter draft.now moment letter) }
    ensures nonempty { IfOk result (λ letter. 0 < length letter.message) }
    ensures keeps_records { K.records keeper.new ≡ K.records keeper.old }
    ensures keeps_adopted { K.adopted keeper.new ≡ K.adopted keeper.old }
    ensures cause { IsKeptCaused result (K.faults keeper.old) (K.faults keeper.new) }
{
    let kept = keeper.identities(alloc)?;
    let identity = identity_for(alloc, &kept, draft.identity, user, domain)?;
    Ok(write_letter(alloc, draft, identity, moment)?)
}

/// Looks up what is to be submitted for a draft: nothing if its form was sent before.
pub fn prepare<K: Keeper>(
    alloc: Global,
    keeper: &mut K,
    user: &Text,
    domain: &Text,
    draft: &Draft,
    moment: i64,
) -> Result<Option<Letter>, SendFault>
    requires adopted { IsSome (K.records keeper.old) → IsSome (K.adopted keeper.old) }
    ensures told { IfTold (K.records keeper.old) (K.adopted keeper.old) (λ told account. Prepares (state_of account draft.now.form told) draft.now (identity_for draft.now.identity (identities_of account told) user.now domain.now) moment result) }
    ensures letter { IfOk result (λ found. IfSome found (λ letter. IsSomeLetter draft.now moment letter)) }
    ensures nonempty { IfOk result (λ found. IfSome found (λ letter. 0 < length letter.message)) }
    ensures keeps_records { K.records keeper.new ≡ K.records keeper.old }
    ensures keeps_adopted { K.adopted keeper.new ≡ K.adopted keeper.old }
    ensures cause { IsKeptCaused result (K.faults keeper.old) (K.faults keeper.new) }
{
    match keeper.send_state(alloc, draft.form)? {
        Some(SendState::Done) => Ok(None),
        Some(_) => Err(SendFault::InDoubt),
        None => Ok(Some(draft_letter(alloc, keeper, user, domain, draft, moment)?)),
    }
}

/// Returns what is answered to a submission and the note of its end: a fault of the keeper comes first.
fn finish(posted: Result<(), SubmitFault>, noted: Result<(), KeepFault>) -> Result<(), SendFault>
    ensures { result ≡ sent_result (begun posted noted) }
{
    noted?;
    posted?;
    Ok(())
}

/// Submits a letter once it is noted that its submission begins, and notes how that ended.
pub fn submit_letter<L: Link, K: Keeper>(
    alloc: Global,
    post: &mut L,
    keeper: &mut K,
    user: &Text,
    password: &Text,
    letter: &Letter,
) -> Result<(), SendFault>
    requires adopted { IsSome (K.records keeper.old) → IsSome (K.adopted keeper.old) }
    requires nonempty { 0 < length letter.now.message }
    ensures sends { Sends user.now password.now letter.now (outbox (L.talk post.old) (L.faults post.old) (K.records keeper.old) (K.adopted keeper.old) (K.faults keeper.old)) (outbox (L.talk post.new) (L.faults post.new) (K.records keeper.new) (K.adopted keeper.new) (K.faults keeper.new)) result }
{
    let form = letter.envelope.form;
    note(alloc, keeper, form, Some(SendState::Started))?;
    let posted = submit(
        alloc,
        post,
        user.as_str(),
        password.as_str(),
        &letter.envelope,
        letter.message.as_slice(),
    );
    let noted = note(alloc, keeper, form, state_after(&posted));
    finish(posted, noted)
}

//! The message of a draft, and whom it goes to.
ghost use Rattle.std.specs.Prelude.{◌<◌, length, IfOk};
ghost use Rattle.account_sends.specs.Sends.{Writes};

use account_pictures::Identity;
use compose_drafts::{DraftFault, build, recipients};
use mail_values::Bytes;
use site_asks::Draft;
use std::alloc::Global;
use submission::Envelope;

/// A message that is to be submitted, and whom it is from and to.
#[derive(Drop)]
pub struct Letter {
    pub envelope: Envelope,
    pub message: Bytes,
}

/// Writes the message of a draft that is sent as `identity` at `moment`, in seconds since 1970. The faults are those of `build`.
#[tactic(auto, using(crate::proofs::LetterLemmas::same_fault, crate::proofs::LetterLemmas::letter_some))]
pub fn write_letter(
    alloc: Global,
    draft: &Draft,
    identity: Identity,
    moment: i64,
) -> Result<Letter, DraftFault>
    ensures writes { Writes draft.now identity moment result }
    ensures nonempty { IfOk result (λ letter. 0 < length letter.message) }
{
    let message = build(alloc, draft, &identity, moment)?;
    let to = recipients(alloc, draft)?;
    let Identity { address, .. } = identity;
    Ok(Letter {
        envelope: Envelope {
            form: draft.form,
            from: address,
            to,
        },
        message: Bytes::from_vec(message),
    })
}

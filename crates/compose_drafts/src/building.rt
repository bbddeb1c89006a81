//! Builds messages.
ghost use Rattle.std.specs.Prelude.{◌≡◌, IfOk};
ghost use Rattle.compose_drafts.specs.Bodies.{CarriesText, body_in};
ghost use Rattle.compose_drafts.specs.Drafts.{Builds, IsMessage, parties_of, saved_parties_of};
ghost use Rattle.compose_drafts.specs.Lines.{IsLines};
ghost use Rattle.compose_drafts.specs.Message.{body, message};
ghost use Rattle.compose_drafts.specs.Paragraphs.{coded, is_seven_bit};

use crate::DraftFault;
use crate::bodies::{body_of, is_seven_bit, push_coded};
use crate::dates::clock_at;
use crate::fields::push_header;
use crate::parties::{Parties, read_parties, saved_parties};
use account_pictures::Identity;
use jiff_core::civil::DateTime;
use site_asks::Draft;
use std::alloc::{AllocError, Global};

/// Returns the message of a draft that is sent as `identity` at `moment`, in seconds since 1970.
///
/// Its date is the moment in UTC, or the first second of 1970 if the moment's year hasn't four digits. The faults are tried in the order of
/// `DraftFault`: `to` before `cc`, and then the identity's address. A blank `to` or `cc` is passed over.
pub fn build(
    alloc: Global,
    draft: &Draft,
    identity: &Identity,
    moment: i64,
) -> Result<Vec<u8>, DraftFault>
    ensures equals { Builds draft.now (parties_of draft.now identity.now) moment result }
    ensures lines { IfOk result (λ bytes. IsLines bytes.items) }
    ensures body { IfOk result (λ bytes. CarriesText draft.now (body_in bytes.items)) }
{
    let parties = read_parties(alloc, draft, identity)?;
    let bytes = dated_message(alloc, draft, &parties, moment)?;
    Ok(bytes)
}

/// Returns the message of a draft that is saved at `moment`.
///
/// It has `to` and `cc` as they are, each as one text, and no sender if the identity has no address. Only `Long` and `Memory` are faults.
pub fn build_draft(
    alloc: Global,
    draft: &Draft,
    identity: &Identity,
    moment: i64,
) -> Result<Vec<u8>, DraftFault>
    ensures equals { Builds draft.now (saved_parties_of draft.now identity.now) moment result }
    ensures lines { IfOk result (λ bytes. IsLines bytes.items) }
    ensures body { IfOk result (λ bytes. CarriesText draft.now (body_in bytes.items)) }
{
    let parties = saved_parties(alloc, draft, identity)?;
    let bytes = dated_message(alloc, draft, &parties, moment)?;
    Ok(bytes)
}

/// Returns the message of a draft with these parties and the date of a moment.
fn dated_message(
    alloc: Global,
    draft: &Draft,
    parties: &Parties,
    moment: i64,
) -> Result<Vec<u8>, AllocError>
    ensures equals { IfOk result (λ bytes. IsMessage draft.now parties.now moment bytes.items) }
    ensures body { IfOk result (λ _. CarriesText draft.now (coded (is_seven_bit (body draft.now)) (body draft.now))) }
{
    message(alloc, draft, parties, clock_at(moment))
}

/// Returns the message of a draft with these parties and this date.
#[tactic(auto, unfolding(crate::specs::Message::message))]
fn message(
    alloc: Global,
    draft: &Draft,
    parties: &Parties,
    clock: DateTime,
) -> Result<Vec<u8>, AllocError>
    ensures equals { IfOk result (λ bytes. bytes.items ≡ message draft.now parties.now clock) }
    ensures body { IfOk result (λ _. CarriesText draft.now (coded (is_seven_bit (body draft.now)) (body draft.now))) }
{
    let body = body_of(alloc, draft.text.as_str())?;
    let seven_bit = is_seven_bit(body.as_bytes());
    let mut out = Vec::new(alloc);
    push_header(alloc, &mut out, draft, parties, clock, seven_bit)?;
    out.extend_from_slice(b"\r\n")?;
    push_coded(alloc, &mut out, seven_bit, body.as_bytes())?;
    Ok(out)
}

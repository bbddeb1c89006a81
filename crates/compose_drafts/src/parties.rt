//! The recipients and the sender of a draft.
ghost use Rattle.std.specs.Prelude.{◌≡◌, IfOk, Some};
ghost use Rattle.compose_drafts.specs.declared.parties.Parties.{Parties};
ghost use Rattle.compose_drafts.specs.Drafts.{IsNotAddress, ReadsAs, boxes_or_none, domain_of, from_text, is_blank, parties_of, recipients_of, saved_domain, saved_from, saved_parties_of, sender_of, sent_parties_of, text_or_none, within_limit};

use crate::DraftFault;
use crate::boxes::{push_box, push_boxes};
use crate::words::push_written;
use account_pictures::Identity;
use header_words::find_byte;
use mail_addresses::{AddressFault, Mailbox, is_address, mailboxes};
use mail_values::{Bytes, Text};
use site_asks::Draft;
use std::alloc::{AllocError, Global};

/// The most bytes of a text.
const MOST: usize = 524_288;

/// What the fields of a sender and of recipients have. A field without a text is left out.
#[derive(Drop)]
pub struct Parties {
    pub from: Option<Bytes>,
    pub to: Option<Bytes>,
    pub cc: Option<Bytes>,
    /// The domain of the message's identifier.
    pub domain: Bytes,
}

/// Whether a text has nothing but spaces.
pub fn is_blank(text: &[u8]) -> bool
    ensures { result ≡ is_blank text.now }
{
    text.iter().all(|byte| *byte == b' ')
}

/// The fault of a place in a field.
fn not_address(alloc: Global, field: &str, at: usize) -> DraftFault
    ensures { IsNotAddress field.now at result }
{
    match Text::from_text(alloc, field) {
        Ok(field) => DraftFault::NotAddress { field, at },
        Err(_) => DraftFault::Memory,
    }
}

/// Returns the boxes of a field. A blank field has none.
#[tactic(auto, unfolding(crate::specs::Drafts::recipients_of))]
pub fn boxes_in(alloc: Global, field: &str, text: &str) -> Result<Vec<Mailbox>, DraftFault>
    ensures { ReadsAs (λ v. v.items) result (recipients_of field.now text.now) }
{
    if is_blank(text.as_bytes()) {
        return Ok(Vec::new(alloc));
    }
    match mailboxes(alloc, text) {
        Ok(boxes) => Ok(boxes),
        Err(AddressFault::NotAddress { at }) => Err(not_address(alloc, field, at)),
        Err(AddressFault::Memory) => Err(DraftFault::Memory),
    }
}

/// Checks that the address of an identity is one `local@domain`.
#[tactic(auto, unfolding(crate::specs::Drafts::sender_of))]
fn check_sender(alloc: Global, address: &str) -> Result<(), DraftFault>
    ensures { ReadsAs (λ _. address.now) result (sender_of address.now) }
{
    match mailboxes(alloc, address) {
        Ok(_) => {
            if is_address(address) {
                return Ok(());
            }
            Err(not_address(alloc, "identity", 0))
        }
        Err(AddressFault::NotAddress { at }) => Err(not_address(alloc, "identity", at)),
        Err(AddressFault::Memory) => Err(DraftFault::Memory),
    }
}

/// Checks that a text is not too long.
fn check_len(text: &str) -> Result<(), DraftFault>
    ensures { (parties : Parties) → ReadsAs (λ _. parties) result (within_limit text.now parties) }
{
    if text.len() > MOST {
        return Err(DraftFault::Long { bytes: text.len() });
    }
    Ok(())
}

/// Returns the boxes of a field as it has them, if there are some.
fn boxes_or_none(alloc: Global, boxes: &[Mailbox]) -> Result<Option<Bytes>, AllocError>
    ensures { IfOk result (λ text. text ≡ boxes_or_none boxes.now) }
{
    if boxes.is_empty() {
        return Ok(None);
    }
    let mut text = Vec::new(alloc);
    push_boxes(alloc, &mut text, boxes)?;
    Ok(Some(Bytes::from_vec(text)))
}

/// Returns an identity as a field has it.
fn from_text(alloc: Global, identity: &Identity) -> Result<Bytes, AllocError>
    ensures { IfOk result (λ text. text ≡ from_text identity.now) }
{
    let mut text = Vec::new(alloc);
    push_box(
        alloc,
        &mut text,
        identity.name.as_str().as_bytes(),
        identity.address.as_str().as_bytes(),
    )?;
    Ok(Bytes::from_vec(text))
}

/// Returns what comes after the `@` of an address.
fn domain_of(alloc: Global, address: &str) -> Result<Bytes, AllocError>
    ensures { IfOk result (λ domain. domain ≡ domain_of address.now) }
{
    let bytes = address.as_bytes();
    let at = find_byte(b'@', bytes);
    if at == bytes.len() {
        return Ok(Bytes::from_vec(Vec::new(alloc)));
    }
    Bytes::from_slice(alloc, &bytes[at + 1..])
}

/// Returns the parties of a message that is sent.
fn all_parties(
    alloc: Global,
    identity: &Identity,
    to: &[Mailbox],
    cc: &[Mailbox],
) -> Result<Parties, AllocError>
    ensures { IfOk result (λ parties. parties ≡ record { from = Some (from_text identity.now); to = boxes_or_none to.now; cc = boxes_or_none cc.now; domain = domain_of identity.now.address }) }
{
    let from = from_text(alloc, identity)?;
    let to = boxes_or_none(alloc, to)?;
    let cc = boxes_or_none(alloc, cc)?;
    let domain = domain_of(alloc, identity.address.as_str())?;
    Ok(Parties {
        from: Some(from),
        to,
        cc,
        domain,
    })
}

/// Returns the parties of a message that is sent, if it has a recipient.
#[tactic(auto, unfolding(crate::specs::Drafts::sent_parties_of))]
fn sent_parties(alloc: Global, draft: &Draft, identity: &Identity) -> Result<Parties, DraftFault>
    ensures { ReadsAs (λ parties. parties) result (sent_parties_of draft.now identity.now) }
{
    let to = boxes_in(alloc, "to", draft.to.as_str())?;
    let cc = boxes_in(alloc, "cc", draft.cc.as_str())?;
    check_sender(alloc, identity.address.as_str())?;
    check_len(draft.text.as_str())?;
    Ok(all_parties(alloc, identity, &to, &cc)?)
}

/// Returns the parties of a message that is sent.
#[tactic(auto, unfolding(crate::specs::Drafts::parties_of))]
pub fn read_parties(
    alloc: Global,
    draft: &Draft,
    identity: &Identity,
) -> Result<Parties, DraftFault>
    ensures { ReadsAs (λ parties. parties) result (parties_of draft.now identity.now) }
{
    if is_blank(draft.to.as_str().as_bytes()) && is_blank(draft.cc.as_str().as_bytes()) {
        return Err(DraftFault::NoRecipient);
    }
    sent_parties(alloc, draft, identity)
}

/// Returns a text as a field has it, unless it is blank.
fn text_or_none(alloc: Global, text: &[u8]) -> Result<Option<Bytes>, AllocError>
    ensures { IfOk result (λ field. field ≡ text_or_none text.now) }
{
    if is_blank(text) {
        return Ok(None);
    }
    let mut field = Vec::new(alloc);
    push_written(alloc, &mut field, text)?;
    Ok(Some(Bytes::from_vec(field)))
}

/// Returns the sender of a saved draft, if the identity has an address.
fn saved_from(alloc: Global, identity: &Identity) -> Result<Option<Bytes>, AllocError>
    ensures { IfOk result (λ from. from ≡ saved_from identity.now) }
{
    if is_address(identity.address.as_str()) {
        return Ok(Some(from_text(alloc, identity)?));
    }
    Ok(None)
}

/// Returns the domain of a saved draft's identifier.
fn saved_domain(alloc: Global, identity: &Identity) -> Result<Bytes, AllocError>
    ensures { IfOk result (λ domain. domain ≡ saved_domain identity.now) }
{
    if is_address(identity.address.as_str()) {
        return domain_of(alloc, identity.address.as_str());
    }
    Bytes::from_slice(alloc, b"webmail")
}

/// Returns the parties of a saved draft.
#[tactic(auto, unfolding(crate::specs::Drafts::saved_parties_of))]
pub fn saved_parties(
    alloc: Global,
    draft: &Draft,
    identity: &Identity,
) -> Result<Parties, DraftFault>
    ensures { ReadsAs (λ parties. parties) result (saved_parties_of draft.now identity.now) }
{
    check_len(draft.text.as_str())?;
    let from = saved_from(alloc, identity)?;
    let to = text_or_none(alloc, draft.to.as_str().as_bytes())?;
    let cc = text_or_none(alloc, draft.cc.as_str().as_bytes())?;
    let domain = saved_domain(alloc, identity)?;
    Ok(Parties {
        from,
        to,
        cc,
        domain,
    })
}

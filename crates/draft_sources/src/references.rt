//! The identifiers of the messages that a draft answers.
ghost use Rattle.std.specs.Prelude.{◌≡◌, ◌++◌, true, IfOk, OnOk, codes, take};
ghost use Rattle.std.specs.List.{filter, flat_map, list_all};
ghost use Rattle.compose_drafts.specs.References.{is_visible, is_writable, last_of_ids};
ghost use Rattle.compose_drafts.specs.Texts.{in_angles};
ghost use Rattle.draft_sources.specs.Refs.{ids_of, ids_text, next_id, parents_of, refs_text, reply_ids};

use header_words::{Fields, message_ids};
use mail_values::{Bytes, Text};
use std::alloc::{AllocError, Global};

/// The most identifiers of a draft.
const MOST: usize = 20;

/// Returns the identifiers that a reply answers.
pub fn reply_refs(alloc: Global, fields: &Fields<'_>) -> Result<Text, AllocError>
    ensures { IfOk result (λ text. text ≡ refs_text (reply_ids fields.now)) }
{
    let mut ids = parents_of(alloc, fields)?;
    let mut own = first_id(alloc, fields, "Message-ID")?;
    ids.append(&mut own)?;
    refs_text(alloc, &ids)
}

/// Returns the identifiers in References.
pub fn field_refs(alloc: Global, fields: &Fields<'_>) -> Result<Text, AllocError>
    ensures { IfOk result (λ text. text ≡ refs_text (ids_of (codes "References") fields.now)) }
{
    let ids = ids_of(alloc, fields, "References")?;
    refs_text(alloc, &ids)
}

/// Returns the messages that a message answers.
fn parents_of(alloc: Global, fields: &Fields<'_>) -> Result<Vec<Bytes>, AllocError>
    ensures { IfOk result (λ ids. ids.items ≡ parents_of fields.now) }
{
    let ids = ids_of(alloc, fields, "References")?;
    if ids.is_empty() {
        return first_id(alloc, fields, "In-Reply-To");
    }
    Ok(ids)
}

/// Returns the first identifier of a field.
fn first_id(alloc: Global, fields: &Fields<'_>, name: &str) -> Result<Vec<Bytes>, AllocError>
    ensures { IfOk result (λ ids. ids.items ≡ take 1 (ids_of name.now fields.now)) }
{
    let mut ids = ids_of(alloc, fields, name)?;
    ids.truncate(1);
    Ok(ids)
}

/// Returns the identifiers of a field that count.
#[tactic(auto, unfolding(crate::specs::Refs::ids_of))]
fn ids_of(alloc: Global, fields: &Fields<'_>, name: &str) -> Result<Vec<Bytes>, AllocError>
    ensures { IfOk result (λ ids. ids.items ≡ ids_of name.now fields.now) }
{
    let Some(field) = fields.first(name) else {
        return Ok(Vec::new(alloc));
    };
    let mut ids = message_ids(alloc, &field)?;
    ids.retain(|id| is_writable(id.as_slice()));
    Ok(ids)
}

fn is_visible(byte: u8) -> bool
    ensures { result ≡ is_visible byte }
{
    33 <= byte && byte <= 126
}

fn all_visible(id: &[u8]) -> bool
    ensures { result ≡ list_all is_visible id.now }
{
    id.iter().all(|byte| is_visible(*byte))
}

/// Returns whether an identifier counts.
fn is_writable(id: &[u8]) -> bool
    ensures { result ≡ is_writable id.now }
{
    id.len() <= 200 && all_visible(id)
}

/// Writes the last identifiers, each between `<` and `>`, with spaces between them.
#[tactic(auto, unfolding(crate::specs::Refs::refs_text))]
fn refs_text(alloc: Global, ids: &[Bytes]) -> Result<Text, AllocError>
    requires { list_all is_writable ids.now ≡ true }
    ensures { IfOk result (λ text. text ≡ refs_text ids.now) }
{
    let bytes = ids_bytes(alloc, last_ids(ids))?;
    Ok(Text::from_string(String::from_utf8_lossy(alloc, &bytes)?))
}

fn last_ids(ids: &[Bytes]) -> &[Bytes]
    ensures { result.now ≡ last_of_ids 20 ids.now }
{
    &ids[ids.len().saturating_sub(MOST)..]
}

fn ids_bytes(alloc: Global, ids: &[Bytes]) -> Result<Vec<u8>, AllocError>
    ensures { IfOk result (λ bytes. bytes.items ≡ ids_text ids.now) }
{
    let mut bytes = Vec::new(alloc);
    let [first, more @ ..] = ids else {
        return Ok(bytes);
    };
    push_id(&mut bytes, first.as_slice())?;
    push_more_ids(&mut bytes, more)?;
    Ok(bytes)
}

/// Appends identifiers that come after another one.
fn push_more_ids(out: &mut Vec<u8>, ids: &[Bytes]) -> Result<(), AllocError>
    ensures { OnOk result (out.new.items ≡ out.old.items ++ flat_map next_id ids.now) }
{
    for id in ids {
        out.push(b' ')?;
        push_id(out, id.as_slice())?;
    }
    Ok(())
}

/// Appends an identifier between `<` and `>`.
fn push_id(out: &mut Vec<u8>, id: &[u8]) -> Result<(), AllocError>
    ensures { OnOk result (out.new.items ≡ out.old.items ++ in_angles id.now) }
{
    out.push(b'<')?;
    out.extend_from_slice(id)?;
    out.push(b'>')?;
    Ok(())
}

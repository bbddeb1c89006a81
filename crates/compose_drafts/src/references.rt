//! The identifiers of the messages that a draft answers.
ghost use Rattle.std.specs.Prelude.{◌≡◌, ◌++◌, IfOk, OnOk};
ghost use Rattle.std.specs.List.{filter, flat_map, list_all};
ghost use Rattle.compose_drafts.specs.Message.{ids_text, next_id};
ghost use Rattle.header_words.specs.MessageIds.{ids_in};
ghost use Rattle.compose_drafts.specs.References.{is_visible, is_writable, last_of_ids, references_of};

use crate::boxes::push_in_angles;
use header_words::ids_in;
use mail_values::Bytes;
use std::alloc::{AllocError, Global};

fn is_visible(byte: u8) -> bool
    ensures { result ≡ is_visible byte }
{
    33 <= byte && byte <= 126
}

fn all_visible(id: &[u8]) -> bool
    ensures { result ≡ list_all is_visible id.now }
{
    id.iter().all(|byte| is_visible(*byte))
}

/// Whether an identifier is written.
fn is_writable(id: &[u8]) -> bool
    ensures { result ≡ is_writable id.now }
{
    id.len() <= 200 && all_visible(id)
}

/// Returns the identifiers of a draft that can be written.
pub fn writable_ids(alloc: Global, refs: &[u8]) -> Result<Vec<Bytes>, AllocError>
    ensures { IfOk result (λ ids. ids.items ≡ filter is_writable (ids_in refs.now)) }
{
    let mut ids = ids_in(alloc, refs)?;
    ids.retain(|id| is_writable(id.as_slice()));
    Ok(ids)
}

/// Returns the last of some identifiers.
pub fn last_of_ids(count: usize, ids: &[Bytes]) -> &[Bytes]
    ensures { result.now ≡ last_of_ids count ids.now }
{
    &ids[ids.len().saturating_sub(count)..]
}

/// Appends identifiers that come after another one.
fn push_more_ids(out: &mut Vec<u8>, ids: &[Bytes]) -> Result<(), AllocError>
    ensures { OnOk result (out.new.items ≡ out.old.items ++ flat_map next_id ids.now) }
{
    for id in ids {
        out.extend_from_slice(b"\r\n ")?;
        push_in_angles(out, id.as_slice())?;
    }
    Ok(())
}

/// Appends identifiers, each but the first on a line of its own.
pub fn push_ids(out: &mut Vec<u8>, ids: &[Bytes]) -> Result<(), AllocError>
    ensures { OnOk result (out.new.items ≡ out.old.items ++ ids_text ids.now) }
{
    let [first, more @ ..] = ids else {
        return Ok(());
    };
    push_in_angles(out, first.as_slice())?;
    push_more_ids(out, more)
}

//! The message identifiers in a field, as References and In-Reply-To have them.
ghost use Rattle.std.specs.Prelude.{◌≡◌, ◌≤◌, ◌++◌, IfOk, OnOk, length};
ghost use Rattle.std.specs.List.{position_or_len};
ghost use Rattle.header_words.specs.MessageIds.{ends_id, id_after, ids_in};
ghost use Rattle.header_words.specs.Value.{unfolded};

use crate::decoding::unfolded;
use crate::header::Field;
use mail_values::Bytes;
use std::alloc::{AllocError, Global};

/// Returns the message identifiers of a field in order, without their brackets: what lies between each `<` and the `>` after it,
/// if it has an `@` and no white space or `<`.
pub fn message_ids(alloc: Global, field: &Field<'_>) -> Result<Vec<Bytes>, AllocError>
    ensures { IfOk result (λ ids. ids.items ≡ ids_in (unfolded field.now.lines)) }
{
    let value = unfolded(alloc, field)?;
    ids_in(alloc, &value)
}

/// Returns the message identifiers in a text, as `message_ids` does in a field. Each byte is read twice at most, since no identifier goes past
/// the next `<`.
pub fn ids_in(alloc: Global, text: &[u8]) -> Result<Vec<Bytes>, AllocError>
    ensures { IfOk result (λ ids. ids.items ≡ ids_in text.now) }
{
    let mut ids = Vec::new(alloc);
    let mut rest = text;
    while let [first, more @ ..] = rest {
        if *first == b'<' {
            push_id(alloc, &mut ids, more)?;
        }
        rest = more;
    }
    Ok(ids)
}

/// Appends the identifier after a `<`, if there is one.
fn push_id(alloc: Global, ids: &mut Vec<Bytes>, text: &[u8]) -> Result<(), AllocError>
    ensures { OnOk result (ids.new.items ≡ ids.old.items ++ id_after text.now) }
{
    let len = id_len(text);
    let id = &text[..len];
    match &text[len..] {
        [b'>', ..] if id.contains(&b'@') => {
            ids.push(Bytes::from_slice(alloc, id)?)?;
        }
        _ => (),
    }
    Ok(())
}

/// Returns how many bytes come before the first that ends an identifier.
fn id_len(text: &[u8]) -> usize
    ensures equals { result ≡ position_or_len ends_id text.now }
    ensures within { result ≤ length text.now }
{
    let mut len = 0;
    while len < text.len() && !ends_id(text[len]) {
        len += 1;
    }
    len
}

fn ends_id(byte: u8) -> bool
    ensures { result ≡ ends_id byte }
{
    match byte {
        b'<' | b'>' | b' ' | b'\t' | b'\n' | b'\r' => true,
        _ => false,
    }
}

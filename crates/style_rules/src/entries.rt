//! The declarations of a washed style.
ghost use Rattle.std.specs.Prelude.{◌≡◌, ◌<◌, ◌++◌, ◌∷◌, [], IfOk, OnOk, length, map};
ghost use Rattle.std.specs.List.{before_first};
ghost use Rattle.style_wash.specs.Characters.{is_colon};
ghost use Rattle.style_wash.specs.Declarations.{declarations, stylewash};
ghost use Rattle.style_rules.specs.Rules.{entry_of};
ghost use Rattle.style_rules.specs.Seen.{entries_seen};

use crate::blocks::find_byte;
use std::alloc::{AllocError as Memory, Global};

/// A declaration by its property, and its written form.
#[derive(Drop)]
pub struct Entry {
    pub property: Vec<u8>,
    pub text: String,
}

/// Returns the declarations of a washed style that has some.
pub fn read_entries(alloc: Global, style: &str) -> Result<Vec<Entry>, Memory>
    requires washed { stylewash style.now ≡ style.now }
    requires some { 0 < length style.now }
    ensures { IfOk result (λ entries. entries_seen entries.items ≡ map entry_of (declarations style.now)) }
{
    let mut entries = Vec::new(alloc);
    let mut start = 0;
    'entries: loop {
        let size = find_byte(b';', &style.as_bytes()[start..]);
        push_entry(alloc, &style[start..start + size], &mut entries)?;
        if start + size == style.len() {
            return Ok(entries);
        }
        start += size + 2;
    }
}

/// Adds the declaration that is written in a text.
fn push_entry(alloc: Global, text: &str, entries: &mut Vec<Entry>) -> Result<(), Memory>
    ensures { OnOk result (entries_seen entries.new.items ≡ entries_seen entries.old.items ++ record { property = before_first is_colon text.now; text = text.now } ∷ []) }
{
    let colon = find_byte(b':', text.as_bytes());
    let property = Vec::from_slice(alloc, &text.as_bytes()[..colon])?;
    let text = String::from_str(alloc, text)?;
    entries.push(Entry { property, text })?;
    Ok(())
}

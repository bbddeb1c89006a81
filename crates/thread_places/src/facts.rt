//! What threading asks of a message.
ghost use Rattle.std.specs.Prelude.{◌≡◌, IfOk, List, ℕ};

use header_words::Base;
use mail_values::{Bytes, Text, Words};
use std::alloc::{AllocError, Global};

/// What threading asks of a message: its UID, its identifier, those that it refers to, its base subject, and when it was sent, in
/// seconds since 1970.
#[derive(Drop)]
pub struct Facts {
    pub uid: u32,
    pub id: Option<Bytes>,
    pub references: Words,
    pub subject: Base,
    pub sent: i64,
}

fn copy_words(alloc: Global, words: &[Bytes]) -> Result<Words, AllocError>
    ensures { IfOk result (λ copied. copied ≡ words.now) }
{
    let mut copied = Words::new(alloc);
    for word in words {
        copied.push(Bytes::from_slice(alloc, word.as_slice())?)?;
    }
    Ok(copied)
}

fn copy_id(alloc: Global, id: &Option<Bytes>) -> Result<Option<Bytes>, AllocError>
    ensures { IfOk result (λ copied. copied ≡ id.now) }
{
    match id {
        None => Ok(None),
        Some(id) => Ok(Some(Bytes::from_slice(alloc, id.as_slice())?)),
    }
}

impl Facts {
    /// Returns a copy.
    pub fn copy(&self, alloc: Global) -> Result<Facts, AllocError>
        ensures { IfOk result (λ copied. copied ≡ self.now) }
    {
        Ok(Facts {
            uid: self.uid,
            id: copy_id(alloc, &self.id)?,
            references: copy_words(alloc, self.references.as_slice())?,
            subject: Base {
                text: Text::from_text(alloc, self.subject.text.as_str())?,
                reply: self.subject.reply,
            },
            sent: self.sent,
        })
    }
}

/// Returns a copy of facts.
pub fn copy_all(alloc: Global, facts: &[Facts]) -> Result<Vec<Facts>, AllocError>
    ensures { IfOk result (λ copied. copied.items ≡ facts.now) }
{
    let mut copied = Vec::with_capacity(alloc, facts.len())?;
    for one in facts {
        copied.push(one.copy(alloc)?)?;
    }
    Ok(copied)
}

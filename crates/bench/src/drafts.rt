//! Messages of drafts.

use account_pictures::Identity;
use compose_drafts::{DraftFault, build};
use mail_values::Text;
use site_asks::Draft;
use std::alloc::{AllocError, Global};

/// The first second of 2026.
const NEW_YEAR: i64 = 1_767_225_600;

/// Builds the message of a draft. The input has its to, cc, subject, refs, name, address and text, with a NUL between each two. The result is
/// empty if these are no message.
pub fn built(alloc: Global, input: &str) -> Result<Vec<u8>, AllocError> {
    let parts = input.split('\0').collect::<Vec<&str>>(alloc)?;
    let draft = Draft {
        form: 42,
        identity: 1,
        to: part(alloc, &parts, 0)?,
        cc: part(alloc, &parts, 1)?,
        subject: part(alloc, &parts, 2)?,
        text: part(alloc, &parts, 6)?,
        refs: part(alloc, &parts, 3)?,
        old: None,
    };
    let identity = Identity {
        name: part(alloc, &parts, 4)?,
        address: part(alloc, &parts, 5)?,
    };
    match build(alloc, &draft, &identity, NEW_YEAR) {
        Ok(message) => Ok(message),
        Err(DraftFault::Memory) => Err(AllocError),
        Err(_) => Ok(Vec::new(alloc)),
    }
}

/// One of the parts, or an empty text.
fn part(alloc: Global, parts: &[&str], at: usize) -> Result<Text, AllocError> {
    let text = match parts.get(at) {
        Some(part) => *part,
        None => "",
    };
    Text::from_text(alloc, text)
}

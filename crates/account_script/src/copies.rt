//! The copy of a message that was sent.
ghost use Rattle.std.specs.Prelude.{◌≡◌, IfOk, Some, codes, find};
ghost use Rattle.std.specs.Option.{option_copied};
ghost use Rattle.account_script.specs.Script.{copy_act, has_use, sent_of, text_or_none, IsFit};

use crate::folders::has_folder;
use crate::steps::Act;
use imap_commands::{Command, Label};
use mail_talk::Told;
use mail_values::{Bytes, Memory, Text};
use mailbox_rows::Folder;
use std::alloc::Global;

/// Whether a folder has an attribute.
fn has_use(folder: &Folder, attribute: &[u8]) -> bool
    ensures { result ≡ has_use attribute.now folder.now }
{
    folder
        .attributes
        .as_slice()
        .iter()
        .any(|one| one.as_slice().eq_ignore_ascii_case(attribute))
}

/// Returns bytes as a text, if they are UTF-8.
#[tactic(auto, using(crate::proofs::Texts::is_text, crate::proofs::Texts::is_no_text))]
fn text_of(bytes: &[u8]) -> Option<&str>
    ensures { option_copied result ≡ text_or_none bytes.now }
{
    match std::str::from_utf8(bytes) {
        Ok(text) => Some(text),
        Err(_) => None,
    }
}

fn sent_by_use(folders: &[Folder]) -> Option<&Folder>
    ensures { option_copied result ≡ find (has_use (codes "\\Sent")) folders.now }
{
    folders.iter().find(|folder| has_use(folder, b"\\Sent"))
}

/// Returns the name of the folder of sent messages, if there is one.
fn sent_of(folders: &[Folder]) -> Option<&str>
    ensures { option_copied result ≡ sent_of folders.now }
{
    match sent_by_use(folders) {
        Some(folder) => text_of(folder.name.as_slice()),
        None if has_folder(folders, "Sent") => Some("Sent"),
        None => None,
    }
}

/// Copies a message to the folder of sent messages, if there is one.
pub fn copy(alloc: Global, message: &[u8], told: &Told) -> Result<Act, Memory>
    ensures equals { IfOk result (λ act. act ≡ copy_act (sent_of told.now.view.folders) message.now) }
    ensures fits { IfOk result (λ act. IsFit act) }
{
    match sent_of(told.view().folders()) {
        Some(folder) => append(alloc, folder, message),
        None => Ok(Act::Skip),
    }
}

/// Appends a message that was read.
fn append(alloc: Global, folder: &str, message: &[u8]) -> Result<Act, Memory>
    ensures equals { IfOk result (λ act. act ≡ copy_act (Some folder.now) message.now) }
    ensures fits { IfOk result (λ act. IsFit act) }
{
    Ok(Act::Say(Command::Append {
        folder: Text::from_text(alloc, folder)?,
        label: Some(Label::Seen),
        message: Bytes::from_slice(alloc, message)?,
    }))
}

//! The folders that were selected last, of which rows are kept.
ghost use Rattle.std.specs.Prelude.{◌≡◌, ◌≤◌, length, IfOk, OnOk, IfSome, IfNone, Some, None};
ghost use Rattle.std.specs.List.{prefix_len};
ghost use Rattle.std.specs.Str.{bytes_eq};
ghost use Rattle.imap_commands.specs.UidSets.{contains_uid};
ghost use Rattle.mailbox_rows.specs.Rows.{without};
ghost use Rattle.mailbox_rows.specs.Mailboxes.{MailboxState, with_rows, emptied, renewed, raised};
ghost use Rattle.mailbox_view.specs.Selections.{found, others, moved, is_first, is_other, nth_box, concerned_box, box_named, with_concerned};
ghost use Rattle.mailbox_view.specs.Fetches.{AppliesFetchAt};

use crate::fetched::apply_fetch;
use crate::{Fields, Mailbox, ViewFault};
use imap_commands::UidSet;
use mail_values::{Bytes, Memory};
use std::alloc::Global;

/// The greatest number of folders.
const FOLDER_LIMIT: usize = 4;

fn has_name(folder: &Mailbox, name: &[u8]) -> bool
    ensures { result ≡ bytes_eq folder.now.name name.now }
{
    folder.name() == name
}

/// The place of the folder with a name, or the number of folders.
fn place_of(folders: &[Mailbox], name: &[u8]) -> usize
    ensures place { result ≡ prefix_len (is_other name.now) folders.now }
    ensures within { result ≤ length folders.now }
{
    for (i, folder) in folders.iter().enumerate() {
        if has_name(folder, name) {
            return i;
        }
    }
    folders.len()
}

/// Whether the folder that was selected last has a name.
pub fn is_first(folders: &[Mailbox], name: &[u8]) -> bool
    ensures { result ≡ is_first name.now folders.now }
{
    match folders {
        [folder, ..] => has_name(folder, name),
        [] => false,
    }
}

/// The folder that was selected last.
pub fn first(folders: &[Mailbox]) -> Option<&Mailbox>
    ensures some { IfSome result (λ folder. nth_box 0 folders.now ≡ Some folder.now) }
    ensures none { IfNone result (nth_box 0 folders.now ≡ None) }
{
    match folders {
        [folder, ..] => Some(folder),
        [] => None,
    }
}

/// The folder at a place.
pub fn concerned(folders: &[Mailbox], place: Option<usize>) -> Option<&Mailbox>
    ensures some { IfSome result (λ folder. concerned_box place folders.now ≡ Some folder.now) }
    ensures none { IfNone result (concerned_box place folders.now ≡ None) }
{
    match place {
        Some(n) => nth(folders, n),
        None => None,
    }
}

#[tactic(auto, using(crate::proofs::FolderLemmas::box_there, crate::proofs::FolderLemmas::nth_past))]
fn nth(folders: &[Mailbox], n: usize) -> Option<&Mailbox>
    ensures some { IfSome result (λ folder. nth_box n folders.now ≡ Some folder.now) }
    ensures none { IfNone result (nth_box n folders.now ≡ None) }
{
    if n < folders.len() {
        Some(&folders[n])
    } else {
        None
    }
}

/// The folder with a name.
pub fn find<'a, 'b>(folders: &'a [Mailbox], name: &'b [u8]) -> Option<&'a Mailbox>
    ensures some { IfSome result (λ folder. box_named name.now folders.now ≡ Some folder.now) }
    ensures none { IfNone result (box_named name.now folders.now ≡ None) }
{
    let mut rest = folders;
    while let [folder, more @ ..] = rest {
        if has_name(folder, name) {
            return Some(folder);
        }
        rest = more;
    }
    None
}

/// Takes the folder with a name out, or makes one.
fn take_out(alloc: Global, folders: &mut Vec<Mailbox>, name: &[u8]) -> Result<Mailbox, Memory>
    ensures folder { IfOk result (λ folder. folder ≡ found name.now folders.old.items) }
    ensures others { OnOk result (folders.new.items ≡ others name.now folders.old.items) }
{
    let place = place_of(folders, name);
    if place < folders.len() {
        Ok(folders.remove(place))
    } else {
        Ok(Mailbox::new(alloc, Bytes::from_slice(alloc, name)?))
    }
}

/// Moves the folder with a name to the front. Of five the last goes.
pub fn move_to_front(alloc: Global, folders: &mut Vec<Mailbox>, name: &[u8]) -> Result<(), Memory>
    ensures { OnOk result (folders.new.items ≡ moved name.now folders.old.items) }
{
    let folder = take_out(alloc, folders, name)?;
    folders.insert(0, folder)?;
    folders.truncate(FOLDER_LIMIT);
    Ok(())
}

/// Sets the UIDVALIDITY of the folder at a place.
#[tactic(auto, using(crate::proofs::FolderLemmas::set_at))]
pub fn set_validity_at(folders: &mut Vec<Mailbox>, place: Option<usize>, validity: u32)
    ensures { folders.new.items ≡ with_concerned place (renewed validity) folders.old.items }
{
    if let Some(n) = place {
        if n < folders.len() {
            folders[n].set_validity(validity);
        }
    }
}

/// Raises the mark of the folder at a place.
#[tactic(auto, using(crate::proofs::FolderLemmas::set_at))]
pub fn raise_mark_at(folders: &mut Vec<Mailbox>, place: Option<usize>, mark: u64)
    ensures { folders.new.items ≡ with_concerned place (raised mark) folders.old.items }
{
    if let Some(n) = place {
        if n < folders.len() {
            folders[n].raise_mark(mark);
        }
    }
}

/// Forgets the rows of the folder at a place.
#[tactic(auto, using(crate::proofs::FolderLemmas::set_at))]
pub fn forget_at(folders: &mut Vec<Mailbox>, place: Option<usize>)
    ensures { folders.new.items ≡ with_concerned place emptied folders.old.items }
{
    if let Some(n) = place {
        if n < folders.len() {
            folders[n].forget();
        }
    }
}

/// Removes the rows whose UIDs are in a set from the folder at a place.
#[tactic(auto, using(crate::proofs::FolderLemmas::set_at))]
pub fn vanish_at(folders: &mut Vec<Mailbox>, place: Option<usize>, set: &UidSet)
    ensures { folders.new.items ≡ with_concerned place (λ box. with_rows box (without (λ uid. contains_uid uid set.now) box.rows)) folders.old.items }
{
    if let Some(n) = place {
        if n < folders.len() {
            folders[n].vanish(set);
        }
    }
}

/// Applies what was told of a message to the folder at a place.
pub fn apply_fetch_at(
    folders: &mut Vec<Mailbox>,
    place: Option<usize>,
    uid: u32,
    fields: Fields,
) -> Result<(), ViewFault>
    ensures { AppliesFetchAt folders.old.items place uid fields result folders.new.items }
{
    match place {
        Some(n) => apply_fetch_in(folders, n, uid, fields),
        None => Ok(()),
    }
}

#[tactic(auto, using(crate::proofs::FolderLemmas::fetch_at))]
fn apply_fetch_in(
    folders: &mut Vec<Mailbox>,
    n: usize,
    uid: u32,
    fields: Fields,
) -> Result<(), ViewFault>
    ensures { AppliesFetchAt folders.old.items (Some n) uid fields result folders.new.items }
{
    if n < folders.len() {
        apply_fetch(&mut folders[n], uid, fields)
    } else {
        Ok(())
    }
}

//! What is known of the folder and the message of an ask.
ghost use Rattle.std.specs.Prelude.{◌≡◌, IfOk, IfSome, IfNone, Some, None};
ghost use Rattle.std.specs.Str.{bytes_eq};
ghost use Rattle.mailbox_view.specs.Selections.{box_named};
ghost use Rattle.account_script.specs.Asks.{folder_of, folder_in, address_of};
ghost use Rattle.account_script.specs.Script.{body_of, has_folder, is_selected, known_of, mark_of, next_uid, row_of, rows_of, validity_of};

use account_pictures::Address;
use imap_commands::Known;
use mail_talk::Told;
use mailbox_rows::{Folder, Mailbox, Row};
use site_asks::Ask;

/// Returns the message of an ask, if it has one.
pub fn address_of(ask: &Ask) -> Option<&Address>
    ensures some { IfSome result (λ at. address_of ask.now ≡ Some at.now) }
    ensures none { IfNone result (address_of ask.now ≡ None) }
{
    match ask {
        Ask::Show { at, .. } | Ask::Part { at, .. } => Some(at),
        _ => None,
    }
}

/// Returns the folder of an ask; empty if it has none.
pub fn folder_of(ask: &Ask) -> &str
    ensures { result.now ≡ folder_of ask.now }
{
    match ask {
        Ask::List { folder, .. } => folder.as_str(),
        _ => match address_of(ask) {
            Some(at) => at.folder.as_str(),
            None => "",
        },
    }
}

/// Whether a folder is listed.
pub fn has_folder(folders: &[Folder], name: &str) -> bool
    ensures { result ≡ has_folder name.now folders.now }
{
    folders
        .iter()
        .any(|folder| folder.name.as_slice() == name.as_bytes())
}

/// Whether a folder is selected.
pub fn is_selected(told: &Told, name: &str) -> bool
    ensures { result ≡ is_selected name.now told.now.view }
{
    match told.view().selected() {
        Some(mailbox) => mailbox.name() == name.as_bytes(),
        None => false,
    }
}

/// Returns what is kept of a folder, if anything is.
pub fn mailbox_of<'a, 'b>(told: &'a Told, name: &'b str) -> Option<&'a Mailbox>
    ensures some { IfSome result (λ folder. box_named name.now told.now.view.boxes ≡ Some folder.now) }
    ensures none { IfNone result (box_named name.now told.now.view.boxes ≡ None) }
{
    told.view().mailbox(name.as_bytes())
}

/// Returns what is known of a folder that was selected before.
pub fn known_of(told: &Told, name: &str) -> Option<Known>
    ensures { result ≡ known_of (box_named name.now told.now.view.boxes) }
{
    let mailbox = mailbox_of(told, name)?;
    Some(Known {
        validity: mailbox.validity()?,
        mark: mailbox.mark(),
    })
}

/// Returns the MODSEQ up to which a folder's changes are known, 0 if none is.
pub fn mark_of(told: &Told, name: &str) -> u64
    ensures { result ≡ mark_of (box_named name.now told.now.view.boxes) }
{
    match mailbox_of(told, name) {
        Some(mailbox) => mailbox.mark(),
        None => 0,
    }
}

/// Returns the UIDVALIDITY of a folder, 0 if none is known.
pub fn validity_of(told: &Told, name: &str) -> u32
    ensures { result ≡ validity_of (box_named name.now told.now.view.boxes) }
{
    match mailbox_of(told, name) {
        Some(mailbox) => mailbox.validity().unwrap_or(0),
        None => 0,
    }
}

/// Returns the row of a message, if the folder has it.
pub fn row_of<'a, 'b>(told: &'a Told, at: &'b Address) -> Option<&'a Row>
    ensures some { IfSome result (λ row. row_of at.now.uid (box_named at.now.folder told.now.view.boxes) ≡ Some row.now) }
    ensures none { IfNone result (row_of at.now.uid (box_named at.now.folder told.now.view.boxes) ≡ None) }
{
    mailbox_of(told, at.folder.as_str())?.rows().get(at.uid)
}

/// Returns the first UID after the rows of a folder, or the greatest that there is.
pub fn next_uid(told: &Told, name: &str) -> u32
    ensures { result ≡ next_uid (rows_of (box_named name.now told.now.view.boxes)) }
{
    match mailbox_of(told, name) {
        Some(mailbox) => uid_after(mailbox),
        None => 1,
    }
}

fn uid_after(mailbox: &Mailbox) -> u32
    ensures { result ≡ next_uid mailbox.now.rows }
{
    match mailbox.rows().uids().last() {
        Some(uid) => uid.saturating_add(1),
        None => 1,
    }
}

/// Whether the last command for a body got one.
pub fn body_of(told: &Told) -> Option<&[u8]>
    ensures some { IfSome result (λ body. body_of told.now.results.message ≡ Some body.now) }
    ensures none { IfNone result (body_of told.now.results.message ≡ None) }
{
    match told.results().message() {
        Some(message) => match &message.body {
            Some(body) => Some(body.as_slice()),
            None => None,
        },
        None => None,
    }
}

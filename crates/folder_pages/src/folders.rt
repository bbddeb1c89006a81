//! The page that lists the folders.
ghost use Rattle.std.specs.Prelude.{◌≡◌, ◌++◌, [], ◌∷◌, codes, map, drop, encode_utf8_all, length, OnOk, IfOk, IsTrue, true, find, false, IfSome, OnSome, IfNone};
ghost use Rattle.std.specs.List.{list_any, flat_map};
ghost use Rattle.std.specs.Option.{option_copied};
ghost use Rattle.std.specs.Str.{is_utf8, str_eq_ignore_ascii_case};
ghost use Rattle.std.specs.Str.Lossy.{utf8_lossy};
ghost use Rattle.html_syntax.specs.Token.Token.{End};
ghost use Rattle.page_writer.specs.Page.{spell, takes_tags};
ghost use Rattle.page_frames.specs.Elements.{with_tokens, text as text_tokens, link};
ghost use Rattle.page_frames.specs.Paths.{list_address};
ghost use Rattle.page_frames.specs.Pages.{page_start, document_end, heading, around_content, IsFramePage};
ghost use Rattle.folder_pages.specs.Folders.{key_of, keys_from, folder_order, is_closed, is_special_use, folder_name, use_words, folder_item, item_at, folders_start, folders_title, folder_page};

use mail_values::Bytes;
use mailbox_rows::Folder;
use page_frames::{
    close_page, finish_page, list_address, open, open_page, open_with, write_heading, write_link,
};
use page_writer::{Memory, PageBytes, PageOut};
use std::alloc::Global;

/// Returns whether an attribute is a special use (RFC 6154).
#[tactic(auto, unfolding(crate::specs::Folders::is_special_use))]
fn is_special_use(attribute: &[u8]) -> bool
    ensures { result ≡ is_special_use attribute.now }
{
    attribute.eq_ignore_ascii_case(b"\\All")
        || attribute.eq_ignore_ascii_case(b"\\Archive")
        || attribute.eq_ignore_ascii_case(b"\\Drafts")
        || attribute.eq_ignore_ascii_case(b"\\Flagged")
        || attribute.eq_ignore_ascii_case(b"\\Junk")
        || attribute.eq_ignore_ascii_case(b"\\Sent")
        || attribute.eq_ignore_ascii_case(b"\\Trash")
}

fn has_attribute(attributes: &[Bytes], name: &[u8]) -> bool
    ensures { result ≡ list_any (λ attribute. str_eq_ignore_ascii_case attribute name.now) attributes.now }
{
    attributes.iter().any(|attribute| attribute.as_slice().eq_ignore_ascii_case(name))
}

/// Returns whether there is no such mailbox, or it can't be opened.
#[tactic(auto, unfolding(crate::specs::Folders::is_closed))]
fn is_closed(folder: &Folder) -> bool
    ensures { result ≡ is_closed folder.now }
{
    let attributes = folder.attributes.as_slice();
    has_attribute(attributes, b"\\Noselect") || has_attribute(attributes, b"\\NonExistent")
}

/// Returns the sort keys of the folders, in the order in which they were told.
fn keys<'a>(alloc: Global, folders: &'a [Folder]) -> Result<Vec<(bool, &'a [u8], usize)>, Memory>
    ensures { IfOk result (λ keys. map key_of keys.items ≡ keys_from 0 folders.now) }
{
    let mut keys = Vec::with_capacity(alloc, folders.len())?;
    for place in 0..folders.len() {
        let name = folders[place].name.as_slice();
        keys.push((name != b"INBOX".as_slice(), name, place))?;
    }
    Ok(keys)
}

/// Returns the places of the folders in the order of the page.
fn folder_order(alloc: Global, folders: &[Folder]) -> Result<Vec<usize>, Memory>
    ensures { IfOk result (λ order. order.items ≡ folder_order folders.now) }
{
    let mut keys = keys(alloc, folders)?;
    keys.sort()?;
    let mut order = Vec::with_capacity(alloc, keys.len())?;
    for key in &keys {
        order.push(key.2)?;
    }
    Ok(order)
}

/// Returns bytes as a text if they are UTF-8.
fn utf8_text(bytes: &[u8]) -> Option<&str>
    ensures same { IfSome result (λ text. text.now ≡ bytes.now) }
    ensures some { OnSome result (is_utf8 bytes.now ≡ true) }
    ensures none { IfNone result (is_utf8 bytes.now ≡ false) }
{
    match std::str::from_utf8(bytes) {
        Ok(text) => Some(text),
        Err(_) => None,
    }
}

fn write_lossily(alloc: Global, out: &mut PageOut, bytes: &[u8]) -> Result<(), Memory>
    ensures { OnOk result (out.new ≡ with_tokens out.old (text_tokens (utf8_lossy bytes.now)) out.old.opened) }
{
    out.chars(&String::from_utf8_lossy(alloc, bytes)?)
}

fn write_folder_link(alloc: Global, out: &mut PageOut, name: &str) -> Result<(), Memory>
    requires { IsTrue (takes_tags out.old.opened) }
    ensures { OnOk result (out.new ≡ with_tokens out.old (link (list_address name.now) name.now) out.old.opened) }
{
    write_link(alloc, out, &list_address(alloc, name)?, name)
}

/// Writes the name of a folder, as a link if the folder can be opened.
#[tactic(auto, unfolding(crate::specs::Folders::folder_name))]
fn write_name(alloc: Global, out: &mut PageOut, folder: &Folder) -> Result<(), Memory>
    requires { IsTrue (takes_tags out.old.opened) }
    ensures { OnOk result (out.new ≡ with_tokens out.old (folder_name folder.now) out.old.opened) }
{
    let name = folder.name.as_slice();
    if is_closed(folder) {
        return write_lossily(alloc, out, name);
    }
    match utf8_text(name) {
        Some(text) => write_folder_link(alloc, out, text),
        None => write_lossily(alloc, out, name),
    }
}

fn special_use(attributes: &[Bytes]) -> Option<&Bytes>
    ensures { option_copied result ≡ find is_special_use attributes.now }
{
    attributes
        .iter()
        .find(|attribute| is_special_use(attribute.as_slice()))
}

/// Writes what a folder is for.
#[tactic(auto, unfolding(crate::specs::Folders::use_words))]
fn write_use(alloc: Global, out: &mut PageOut, folder: &Folder) -> Result<(), Memory>
    ensures { OnOk result (out.new ≡ with_tokens out.old (use_words folder.now) out.old.opened) }
{
    match special_use(folder.attributes.as_slice()) {
        Some(attribute) => write_word(alloc, out, attribute.as_slice()),
        None => Ok(()),
    }
}

fn after_first(bytes: &[u8]) -> &[u8]
    ensures { result.now ≡ drop 1 bytes.now }
{
    match bytes {
        [_, rest @ ..] => rest,
        [] => bytes,
    }
}

/// Writes a space, and an attribute without its backslash.
fn write_word(alloc: Global, out: &mut PageOut, attribute: &[u8]) -> Result<(), Memory>
    ensures { OnOk result (out.new ≡ with_tokens out.old (text_tokens (codes " ") ++ text_tokens (utf8_lossy (drop 1 attribute.now))) out.old.opened) }
{
    out.chars(" ")?;
    write_lossily(alloc, out, after_first(attribute))
}

#[tactic(auto, unfolding(page_writer::specs::Writing::literals, crate::specs::Folders::folder_item))]
fn write_item(alloc: Global, out: &mut PageOut, folder: &Folder) -> Result<(), Memory>
    requires { IsTrue (takes_tags out.old.opened) }
    ensures { OnOk result (out.new ≡ with_tokens out.old (folder_item folder.now) out.old.opened) }
{
    open(alloc, out, "li")?;
    write_name(alloc, out, folder)?;
    write_use(alloc, out, folder)?;
    out.end()
}

fn write_item_at(
    alloc: Global,
    out: &mut PageOut,
    folders: &[Folder],
    place: usize,
) -> Result<(), Memory>
    requires { IsTrue (takes_tags out.old.opened) }
    ensures { OnOk result (out.new ≡ with_tokens out.old (item_at folders.now place) out.old.opened) }
{
    match folders.get(place) {
        Some(folder) => write_item(alloc, out, folder),
        None => Ok(()),
    }
}

fn write_items(
    alloc: Global,
    out: &mut PageOut,
    folders: &[Folder],
    order: &[usize],
) -> Result<(), Memory>
    requires { IsTrue (takes_tags out.old.opened) }
    ensures { OnOk result (out.new ≡ with_tokens out.old (flat_map (item_at folders.now) order.now) out.old.opened) }
{
    for place in order {
        write_item_at(alloc, out, folders, *place)?;
    }
    Ok(())
}

#[tactic(auto, unfolding(page_writer::specs::Writing::literals))]
fn open_items(alloc: Global, out: &mut PageOut) -> Result<(), Memory>
    requires { IsTrue (takes_tags out.old.opened) }
    ensures { OnOk result (out.new ≡ with_tokens out.old (folders_start ∷ []) (codes "ul" ∷ out.old.opened)) }
{
    open_with(alloc, out, "ul", "class", "folders")
}

/// Writes all that comes before the folders.
#[tactic(auto, unfolding(page_writer::specs::Writing::literals))]
fn open_list(alloc: Global, out: &mut PageOut, title: &str) -> Result<(), Memory>
    requires { out.old.opened ≡ [] }
    ensures { OnOk result (out.new ≡ with_tokens out.old (page_start title.now true ++ heading title.now ++ folders_start ∷ []) (codes "ul" ∷ around_content)) }
{
    open_page(alloc, out, title, true)?;
    write_heading(alloc, out, title)?;
    open_items(alloc, out)
}

/// Writes all that comes after the folders.
#[tactic(auto, unfolding(page_writer::specs::Writing::literals))]
fn close_list(out: &mut PageOut) -> Result<(), Memory>
    requires { out.old.opened ≡ codes "ul" ∷ around_content }
    ensures { OnOk result (out.new ≡ with_tokens out.old (End (codes "ul") ∷ document_end) []) }
{
    out.end()?;
    close_page(out)
}

/// Returns the page of all folders: INBOX first, then the others by the bytes of their names. Folders that can't be opened, and those whose
/// names aren't UTF-8, have no link.
#[tactic(auto, using(crate::proofs::FolderFrame::folder_parts), unfolding(page_writer::specs::Writing::literals, crate::specs::Folders::folder_page))]
pub fn folder_page(alloc: Global, folders: &[Folder]) -> Result<PageBytes, Memory>
    ensures equals { IfOk result (λ bytes. bytes ≡ encode_utf8_all (spell (folder_page folders.now))) }
    ensures is_safe { OnOk result (IsFramePage (folder_page folders.now)) }
{
    let order = folder_order(alloc, folders)?;
    let mut out = PageOut::new(alloc);
    open_list(alloc, &mut out, "Folders")?;
    write_items(alloc, &mut out, folders, &order)?;
    close_list(&mut out)?;
    Ok(finish_page(out))
}

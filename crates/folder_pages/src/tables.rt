//! The pages that list messages of a folder.
ghost use Rattle.std.specs.Prelude.{◌≡◌, ◌<◌, ◌-◌, ◌*◌, ◌^◌, [], ◌∷◌, ◌++◌, codes, decimal, encode_utf8_all, length, OnOk, IfOk, IsTrue, true, string_bytes};
ghost use Rattle.std.specs.List.{flat_map};
ghost use Rattle.std.specs.Map.{keys_of, lookup};
ghost use Rattle.html_syntax.specs.Token.Token.{End};
ghost use Rattle.page_writer.specs.Page.{spell, takes_tags};
ghost use Rattle.mailbox_rows.specs.Rows.{has_uid};
ghost use Rattle.page_frames.specs.Elements.{with_tokens, line_end};
ghost use Rattle.page_frames.specs.Pages.{page_start, document_end, heading, around_content, IsFramePage};
ghost use Rattle.folder_pages.specs.Tables.{on_page, page_count, newest_first, found_first, list_row, thread_row, table_start, pages_line, table_page, list_page, search_page, thread_page};

use crate::rows::{depth_class, seen_class, write_message_row};
use imap_commands::UidSet;
use itoa::Buffer;
use mail_values::Text;
use mailbox_rows::Rows;
use page_frames::{close_page, finish_page, open_page, open_with, write_heading};
use page_writer::{Memory, PageBytes, PageOut};
use std::alloc::Global;

/// How many rows a page has.
const ROWS: usize = 50;

/// How many rows come before a page.
fn rows_before(page: u32) -> usize
    ensures { result ≡ 50 * (page - 1) }
{
    page.saturating_sub(1) as usize * ROWS
}

/// Returns what is on a page of a list.
fn on_page<T>(items: &[T], page: u32) -> &[T]
    ensures { result.now ≡ on_page page items.now }
{
    let start = items.len().min(rows_before(page));
    let end = items.len().min(start + ROWS);
    &items[start..end]
}

/// Returns the number of pages of a list of some length, at least 1.
fn page_count(items: usize) -> usize
    requires { items < 2 ^ 63 }
    ensures { result ≡ page_count items }
{
    ((items + (ROWS - 1)) / ROWS).max(1)
}

/// Returns the UIDs on a page of a folder's list, the newest first.
fn newest_uids(alloc: Global, rows: &Rows, page: u32) -> Result<Vec<u32>, Memory>
    ensures { IfOk result (λ uids. uids.items ≡ on_page page (newest_first rows.now)) }
{
    let uids = rows.uids();
    let end = uids.len().saturating_sub(rows_before(page));
    let start = end.saturating_sub(ROWS);
    uids[start..end].iter().rev().copied().collect(alloc)
}

/// Returns the UIDs of the messages that are in a set, the newest first.
fn found_uids(alloc: Global, rows: &Rows, found: &UidSet) -> Result<Vec<u32>, Memory>
    ensures { IfOk result (λ uids. uids.items ≡ found_first found.now rows.now) }
{
    rows.uids()
        .iter()
        .rev()
        .filter(|uid| found.contains(**uid))
        .copied()
        .collect(alloc)
}

/// Writes the row of the message with a UID, if there is one.
#[tactic(auto, unfolding(crate::specs::Tables::list_row))]
fn write_list_row(
    alloc: Global,
    out: &mut PageOut,
    folder: &str,
    validity: u32,
    rows: &Rows,
    uid: u32,
) -> Result<(), Memory>
    requires { IsTrue (takes_tags out.old.opened) }
    ensures { OnOk result (out.new ≡ with_tokens out.old (list_row folder.now validity rows.now uid) out.old.opened) }
{
    match rows.get(uid) {
        Some(row) => write_message_row(alloc, out, folder, validity, seen_class(row), uid, row),
        None => Ok(()),
    }
}

fn write_list_rows(
    alloc: Global,
    out: &mut PageOut,
    folder: &str,
    validity: u32,
    rows: &Rows,
    uids: &[u32],
) -> Result<(), Memory>
    requires { IsTrue (takes_tags out.old.opened) }
    ensures { OnOk result (out.new ≡ with_tokens out.old (flat_map (list_row folder.now validity rows.now) uids.now) out.old.opened) }
{
    for uid in uids {
        write_list_row(alloc, out, folder, validity, rows, *uid)?;
    }
    Ok(())
}

/// Writes the row of the message with a UID at a depth of its thread, if there is one.
#[tactic(auto, unfolding(crate::specs::Tables::thread_row))]
fn write_thread_row(
    alloc: Global,
    out: &mut PageOut,
    folder: &str,
    validity: u32,
    rows: &Rows,
    entry: (u32, u32),
) -> Result<(), Memory>
    requires { IsTrue (takes_tags out.old.opened) }
    ensures { OnOk result (out.new ≡ with_tokens out.old (thread_row folder.now validity rows.now entry) out.old.opened) }
{
    let (uid, depth) = entry;
    match rows.get(uid) {
        Some(row) => {
            let class = depth_class(alloc, depth)?;
            write_message_row(alloc, out, folder, validity, &class, uid, row)
        }
        None => Ok(()),
    }
}

fn write_thread_rows(
    alloc: Global,
    out: &mut PageOut,
    folder: &str,
    validity: u32,
    rows: &Rows,
    flat: &[(u32, u32)],
) -> Result<(), Memory>
    requires { IsTrue (takes_tags out.old.opened) }
    ensures { OnOk result (out.new ≡ with_tokens out.old (flat_map (thread_row folder.now validity rows.now) flat.now) out.old.opened) }
{
    for entry in flat {
        write_thread_row(alloc, out, folder, validity, rows, *entry)?;
    }
    Ok(())
}

/// Returns which page this is, of how many.
fn pages_text(alloc: Global, page: u32, items: usize) -> Result<String, Memory>
    requires { items < 2 ^ 63 }
    ensures { IfOk result (λ text. string_bytes text ≡ codes "Page " ++ decimal page ++ codes " of " ++ decimal (page_count items)) }
{
    let mut text = String::from_str(alloc, "Page ")?;
    text.push_str(Buffer::new().format(page))?;
    text.push_str(" of ")?;
    text.push_str(Buffer::new().format(page_count(items)))?;
    Ok(text)
}

#[tactic(auto, unfolding(page_writer::specs::Writing::literals, crate::specs::Tables::pages_line))]
fn write_pages_line(alloc: Global, out: &mut PageOut, page: u32, items: usize) -> Result<(), Memory>
    requires takes { IsTrue (takes_tags out.old.opened) }
    requires fits { items < 2 ^ 63 }
    ensures { OnOk result (out.new ≡ with_tokens out.old (pages_line page items) out.old.opened) }
{
    let text = pages_text(alloc, page, items)?;
    open_with(alloc, out, "p", "class", "pages")?;
    out.chars(&text)?;
    out.end()
}

/// Writes all that comes before the rows.
#[tactic(auto, unfolding(page_writer::specs::Writing::literals))]
fn open_table(alloc: Global, out: &mut PageOut, folder: &str) -> Result<(), Memory>
    requires { out.old.opened ≡ [] }
    ensures { OnOk result (out.new ≡ with_tokens out.old (page_start folder.now true ++ heading folder.now ++ table_start ∷ []) (codes "table" ∷ around_content)) }
{
    open_page(alloc, out, folder, true)?;
    write_heading(alloc, out, folder)?;
    open_with(alloc, out, "table", "class", "list")
}

/// Writes all that comes after the rows.
#[tactic(auto, unfolding(page_writer::specs::Writing::literals))]
fn close_table(alloc: Global, out: &mut PageOut, page: u32, items: usize) -> Result<(), Memory>
    requires opened { out.old.opened ≡ codes "table" ∷ around_content }
    requires fits { items < 2 ^ 63 }
    ensures { OnOk result (out.new ≡ with_tokens out.old (End (codes "table") ∷ line_end ∷ pages_line page items ++ document_end) []) }
{
    out.end()?;
    out.chars("\n")?;
    write_pages_line(alloc, out, page, items)?;
    close_page(out)
}

/// Returns a page with the rows of some messages, of a list of `items` messages.
#[tactic(auto, using(crate::proofs::Frame::table_parts), unfolding(page_writer::specs::Writing::literals))]
fn uids_page(
    alloc: Global,
    folder: &str,
    validity: u32,
    rows: &Rows,
    uids: &[u32],
    page: u32,
    items: usize,
) -> Result<PageBytes, Memory>
    requires { items < 2 ^ 63 }
    ensures equals { IfOk result (λ bytes. bytes ≡ encode_utf8_all (spell (table_page folder.now (flat_map (list_row folder.now validity rows.now) uids.now) page items))) }
    ensures is_safe { OnOk result (IsFramePage (table_page folder.now (flat_map (list_row folder.now validity rows.now) uids.now) page items)) }
{
    let mut out = PageOut::new(alloc);
    open_table(alloc, &mut out, folder)?;
    write_list_rows(alloc, &mut out, folder, validity, rows, uids)?;
    close_table(alloc, &mut out, page, items)?;
    Ok(finish_page(out))
}

/// Returns the page of a folder's list, 50 messages a page, the newest first. `rows` are those of the folder with this UIDVALIDITY.
///
/// Its cost is that of its own rows: they are taken from their place, and other rows are neither read nor stepped over.
#[tactic(auto, unfolding(crate::specs::Tables::list_page))]
pub fn list_page(
    alloc: Global,
    folder: &Text,
    validity: u32,
    rows: &Rows,
    page: u32,
) -> Result<PageBytes, Memory>
    ensures equals { IfOk result (λ bytes. bytes ≡ encode_utf8_all (spell (list_page folder.now validity rows.now page))) }
    ensures is_safe { OnOk result (IsFramePage (list_page folder.now validity rows.now page)) }
{
    let uids = newest_uids(alloc, rows, page)?;
    uids_page(
        alloc,
        folder.as_str(),
        validity,
        rows,
        &uids,
        page,
        rows.len(),
    )
}

/// Returns the page of the messages of a folder that a search found, 50 messages a page, the newest first.
///
/// It looks each UID of the folder up in the set, and reads the rows of its page alone.
#[tactic(auto, unfolding(crate::specs::Tables::search_page))]
pub fn search_page(
    alloc: Global,
    folder: &Text,
    validity: u32,
    rows: &Rows,
    found: &UidSet,
    page: u32,
) -> Result<PageBytes, Memory>
    ensures equals { IfOk result (λ bytes. bytes ≡ encode_utf8_all (spell (search_page folder.now validity rows.now found.now page))) }
    ensures is_safe { OnOk result (IsFramePage (search_page folder.now validity rows.now found.now page)) }
{
    let uids = found_uids(alloc, rows, found)?;
    let shown = on_page(&uids, page);
    uids_page(
        alloc,
        folder.as_str(),
        validity,
        rows,
        shown,
        page,
        uids.len(),
    )
}

/// Returns the page of a folder's threads, 50 messages a page, in the order of `flat`: the UID and the depth of each message.
///
/// A UID of `flat` that no row has gets no row on its page.
#[tactic(auto, using(crate::proofs::Frame::table_parts), unfolding(page_writer::specs::Writing::literals, crate::specs::Tables::thread_page))]
pub fn thread_page(
    alloc: Global,
    folder: &Text,
    validity: u32,
    rows: &Rows,
    flat: &[(u32, u32)],
    page: u32,
) -> Result<PageBytes, Memory>
    ensures equals { IfOk result (λ bytes. bytes ≡ encode_utf8_all (spell (thread_page folder.now validity rows.now flat.now page))) }
    ensures is_safe { OnOk result (IsFramePage (thread_page folder.now validity rows.now flat.now page)) }
{
    let mut out = PageOut::new(alloc);
    open_table(alloc, &mut out, folder.as_str())?;
    write_thread_rows(
        alloc,
        &mut out,
        folder.as_str(),
        validity,
        rows,
        on_page(flat, page),
    )?;
    close_table(alloc, &mut out, page, flat.len())?;
    Ok(finish_page(out))
}

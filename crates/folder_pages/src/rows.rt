//! The rows of a table of messages.
ghost use Rattle.std.specs.Prelude.{◌≡◌, ◌++◌, [], ◌∷◌, codes, OnOk, IfOk, IsTrue, string_bytes};
ghost use Rattle.std.specs.List.{list_any};
ghost use Rattle.std.specs.Str.{str_eq_ignore_ascii_case};
ghost use Rattle.page_writer.specs.Page.{takes_tags};
ghost use Rattle.header_words.specs.Fields.{header_of, first_of};
ghost use Rattle.page_frames.specs.Elements.{with_tokens};
ghost use Rattle.folder_pages.specs.Rows.{value_or_empty, sender_of, subject_or_default, subject_of, is_seen, seen_class, depth_class, cell, subject_cell, number_cells, row_start, message_row};

use header_words::{Fields, decoded, fields};
use itoa::Buffer;
use mail_values::Bytes;
use mailbox_rows::Row;
use message_dates::{minute_text, sent_instant};
use page_frames::{open, open_with, show_address_of, write_element, write_link};
use page_writer::{Memory, PageOut};
use std::alloc::Global;

/// Returns the decoded value of the first field of a name, or an empty text.
fn value_or_empty(alloc: Global, fields: &Fields<'_>, name: &str) -> Result<String, Memory>
    ensures { IfOk result (λ value. string_bytes value ≡ value_or_empty (first_of name.now fields.now.fields)) }
{
    match fields.first(name) {
        Some(field) => decoded(alloc, &field),
        None => Ok(String::new(alloc)),
    }
}

/// Returns the decoded subject, or a text that says that there is none.
fn subject(alloc: Global, fields: &Fields<'_>) -> Result<String, Memory>
    ensures { IfOk result (λ subject. string_bytes subject ≡ subject_of fields.now) }
{
    let subject = value_or_empty(alloc, fields, "Subject")?;
    if subject.is_empty() {
        String::from_str(alloc, "(no subject)")
    } else {
        Ok(subject)
    }
}

fn has_flag(flags: &[Bytes], name: &[u8]) -> bool
    ensures { result ≡ list_any (λ flag. str_eq_ignore_ascii_case flag name.now) flags.now }
{
    flags
        .iter()
        .any(|flag| flag.as_slice().eq_ignore_ascii_case(name))
}

/// Returns the class of a row of a list: whether the message was read.
pub fn seen_class(row: &Row) -> &'static str
    ensures { result.now ≡ seen_class row.now }
{
    if has_flag(row.flags.as_slice(), b"\\Seen") {
        "seen"
    } else {
        "new"
    }
}

/// Returns the class of a row of threads: how deep the message is.
pub fn depth_class(alloc: Global, depth: u32) -> Result<String, Memory>
    ensures { IfOk result (λ class. string_bytes class ≡ depth_class depth) }
{
    let mut class = String::from_str(alloc, "d")?;
    class.push_str(Buffer::new().format(depth.min(16)))?;
    Ok(class)
}

/// Writes the cell of the subject, which leads to the message.
#[tactic(auto, unfolding(page_writer::specs::Writing::literals, crate::specs::Rows::subject_cell))]
fn write_subject_cell(
    alloc: Global,
    out: &mut PageOut,
    folder: &str,
    validity: u32,
    uid: u32,
    fields: &Fields<'_>,
) -> Result<(), Memory>
    requires { IsTrue (takes_tags out.old.opened) }
    ensures { OnOk result (out.new ≡ with_tokens out.old (subject_cell folder.now validity uid fields.now) out.old.opened) }
{
    let address = show_address_of(alloc, folder, validity, uid)?;
    let subject = subject(alloc, fields)?;
    open(alloc, out, "td")?;
    write_link(alloc, out, &address, &subject)?;
    out.end()
}

#[tactic(auto, unfolding(page_writer::specs::Writing::literals))]
fn write_cell(alloc: Global, out: &mut PageOut, content: &str) -> Result<(), Memory>
    requires { IsTrue (takes_tags out.old.opened) }
    ensures { OnOk result (out.new ≡ with_tokens out.old (cell content.now) out.old.opened) }
{
    write_element(alloc, out, "td", content)
}

/// Writes the cells of the date of sending and of the size.
#[tactic(auto, unfolding(crate::specs::Rows::number_cells))]
fn write_number_cells(
    alloc: Global,
    out: &mut PageOut,
    fields: &Fields<'_>,
    row: &Row,
) -> Result<(), Memory>
    requires takes { IsTrue (takes_tags out.old.opened) }
    requires fields { fields.now ≡ header_of row.now.header }
    ensures { OnOk result (out.new ≡ with_tokens out.old (number_cells row.now) out.old.opened) }
{
    let sent = sent_instant(alloc, fields, row.internal)?;
    write_cell(alloc, out, &minute_text(alloc, sent)?)?;
    write_cell(alloc, out, Buffer::new().format(row.size))
}

#[tactic(auto, unfolding(page_writer::specs::Writing::literals, crate::specs::Rows::row_start))]
fn open_row(alloc: Global, out: &mut PageOut, class: &str) -> Result<(), Memory>
    requires { IsTrue (takes_tags out.old.opened) }
    ensures { OnOk result (out.new ≡ with_tokens out.old (row_start class.now ∷ []) (codes "tr" ∷ out.old.opened)) }
{
    open_with(alloc, out, "tr", "class", class)
}

/// Writes the row of a message.
#[tactic(auto, unfolding(page_writer::specs::Writing::literals, crate::specs::Rows::message_row))]
pub fn write_message_row(
    alloc: Global,
    out: &mut PageOut,
    folder: &str,
    validity: u32,
    class: &str,
    uid: u32,
    row: &Row,
) -> Result<(), Memory>
    requires { IsTrue (takes_tags out.old.opened) }
    ensures { OnOk result (out.new ≡ with_tokens out.old (message_row folder.now validity class.now uid row.now) out.old.opened) }
{
    let fields = fields(alloc, row.header.as_slice())?;
    let sender = value_or_empty(alloc, &fields, "From")?;
    open_row(alloc, out, class)?;
    write_cell(alloc, out, &sender)?;
    write_subject_cell(alloc, out, folder, validity, uid, &fields)?;
    write_number_cells(alloc, out, &fields, row)?;
    out.end()
}

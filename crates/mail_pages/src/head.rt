//! What the page of a message begins with: its heading and the table of its fields.
ghost use Rattle.std.specs.Prelude.{◌≡◌, [], OnOk, IfOk, IsTrue, string_bytes};
ghost use Rattle.page_writer.specs.Page.{takes_tags};
ghost use Rattle.header_words.specs.Value.{decoded_of};
ghost use Rattle.page_frames.specs.Elements.{with_tokens};
ghost use Rattle.page_frames.specs.Pages.{around_content};
ghost use Rattle.mail_pages.specs.Head.{field_row, row_of, field_rows, field_table, title_of, title_or_default, page_head};

use header_words::{Field, Fields, decoded};
use page_frames::{open, open_page, open_with, write_element, write_heading};
use page_writer::{Memory, PageOut};
use std::alloc::Global;

/// Writes all that comes before what is shown, and before the paragraph that offers remote images.
#[tactic(auto, unfolding(page_writer::specs::Writing::literals, crate::specs::Head::page_head))]
pub fn write_page_head(
    alloc: Global,
    out: &mut PageOut,
    fields: &Fields<'_>,
    in_session: bool,
) -> Result<(), Memory>
    requires { out.old.opened ≡ [] }
    ensures { OnOk result (out.new ≡ with_tokens out.old (page_head fields.now.fields in_session) around_content) }
{
    let title = title(alloc, fields)?;
    open_page(alloc, out, &title, in_session)?;
    write_heading(alloc, out, &title)?;
    write_field_table(alloc, out, fields)
}

#[tactic(auto, unfolding(page_writer::specs::Writing::literals, crate::specs::Head::field_table))]
fn write_field_table(alloc: Global, out: &mut PageOut, fields: &Fields<'_>) -> Result<(), Memory>
    requires { IsTrue (takes_tags out.old.opened) }
    ensures { OnOk result (out.new ≡ with_tokens out.old (field_table fields.now.fields) out.old.opened) }
{
    open_with(alloc, out, "table", "class", "head")?;
    write_rows(alloc, out, fields)?;
    out.end()?;
    out.chars("\n")
}

/// Writes the row of the first field of a name, if the message has one.
fn write_row(
    alloc: Global,
    out: &mut PageOut,
    fields: &Fields<'_>,
    name: &str,
) -> Result<(), Memory>
    requires { IsTrue (takes_tags out.old.opened) }
    ensures { OnOk result (out.new ≡ with_tokens out.old (row_of fields.now.fields name.now) out.old.opened) }
{
    match fields.first(name) {
        Some(field) => write_field(alloc, out, name, &field),
        None => Ok(()),
    }
}

#[tactic(auto, unfolding(page_writer::specs::Writing::literals))]
fn write_field(
    alloc: Global,
    out: &mut PageOut,
    name: &str,
    field: &Field<'_>,
) -> Result<(), Memory>
    requires { IsTrue (takes_tags out.old.opened) }
    ensures { OnOk result (out.new ≡ with_tokens out.old (field_row name.now (decoded_of field.now.lines)) out.old.opened) }
{
    let value = decoded(alloc, field)?;
    open(alloc, out, "tr")?;
    write_element(alloc, out, "th", name)?;
    write_element(alloc, out, "td", &value)?;
    out.end()
}

fn write_rows(alloc: Global, out: &mut PageOut, fields: &Fields<'_>) -> Result<(), Memory>
    requires { IsTrue (takes_tags out.old.opened) }
    ensures { OnOk result (out.new ≡ with_tokens out.old (field_rows fields.now.fields) out.old.opened) }
{
    write_row(alloc, out, fields, "From")?;
    write_row(alloc, out, fields, "To")?;
    write_row(alloc, out, fields, "Cc")?;
    write_row(alloc, out, fields, "Date")
}

/// The decoded subject, or a text that says that there is none.
fn title(alloc: Global, fields: &Fields<'_>) -> Result<String, Memory>
    ensures { IfOk result (λ title. string_bytes title ≡ title_of fields.now.fields) }
{
    match fields.first("Subject") {
        Some(field) => subject(alloc, &field),
        None => String::from_str(alloc, "(no subject)"),
    }
}

fn subject(alloc: Global, field: &Field<'_>) -> Result<String, Memory>
    ensures { IfOk result (λ title. string_bytes title ≡ title_or_default (decoded_of field.now.lines)) }
{
    let subject = decoded(alloc, field)?;
    if subject.is_empty() {
        String::from_str(alloc, "(no subject)")
    } else {
        Ok(subject)
    }
}

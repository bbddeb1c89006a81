//! The page on which a member writes a message.
ghost use Rattle.std.specs.Prelude.{◌≡◌, ◌<◌, ◌++◌, encode_utf8_all, IfOk, OnOk, IsTrue, string_bytes};
ghost use Rattle.page_writer.specs.Page.{spell, takes_tags};
ghost use Rattle.compose_drafts.specs.Message.{hex_digit, hex_digits};
ghost use Rattle.page_frames.specs.Elements.{with_tokens};
ghost use Rattle.page_frames.specs.Pages.{IsFramePage};
ghost use Rattle.form_pages.specs.Compose.{compose_page, draft_form, hidden_inputs, old_inputs, visible_inputs};

use account_pictures::Address;
use itoa::Buffer;
use mail_values::Text;
use page_frames::{
    close_form, close_page, finish_page, open_form, open_page, write_heading, write_hidden,
    write_text_area, write_visible,
};
use page_writer::{Memory, PageBytes, PageOut};
use site_asks::Draft;
use std::alloc::Global;

/// Returns the page of a draft: a form to send it, and one to save it, with the same fields. `key` is the session's form key.
#[tactic(auto, using(crate::proofs::Frame::compose_frame), unfolding(page_writer::specs::Writing::literals, crate::specs::Compose::compose_page, page_frames::specs::Pages::framed))]
pub fn compose_page(alloc: Global, key: &Text, fields: &Draft) -> Result<PageBytes, Memory>
    ensures equals { IfOk result (λ page. page ≡ encode_utf8_all (spell (compose_page key.now fields.now))) }
    ensures is_safe { OnOk result (IsFramePage (compose_page key.now fields.now)) }
{
    let mut out = PageOut::new(alloc);
    open_page(alloc, &mut out, "Compose", true)?;
    write_heading(alloc, &mut out, "Compose")?;
    write_draft_form(alloc, &mut out, "/send", key, fields, "Send")?;
    write_draft_form(alloc, &mut out, "/draft", key, fields, "Save draft")?;
    close_page(&mut out)?;
    Ok(finish_page(out))
}

/// Writes a form with the fields of a draft.
#[tactic(auto, unfolding(page_writer::specs::Writing::literals, crate::specs::Compose::draft_form))]
fn write_draft_form(
    alloc: Global,
    out: &mut PageOut,
    path: &str,
    key: &Text,
    fields: &Draft,
    label: &str,
) -> Result<(), Memory>
    requires { IsTrue (takes_tags out.old.opened) }
    ensures { OnOk result (out.new ≡ with_tokens out.old (draft_form path.now key.now fields.now label.now) out.old.opened) }
{
    open_form(alloc, out, path)?;
    write_hidden_inputs(alloc, out, key, fields)?;
    write_visible_inputs(alloc, out, fields)?;
    close_form(alloc, out, label)
}

#[tactic(auto, unfolding(crate::specs::Compose::hidden_inputs))]
fn write_hidden_inputs(
    alloc: Global,
    out: &mut PageOut,
    key: &Text,
    fields: &Draft,
) -> Result<(), Memory>
    requires { IsTrue (takes_tags out.old.opened) }
    ensures { OnOk result (out.new ≡ with_tokens out.old (hidden_inputs key.now fields.now) out.old.opened) }
{
    let form = form_text(alloc, fields.form)?;
    write_hidden(alloc, out, "key", key.as_str())?;
    write_hidden(alloc, out, "form", &form)?;
    write_hidden(alloc, out, "refs", fields.refs.as_str())?;
    write_old(alloc, out, &fields.old)
}

/// Writes the saved draft that a draft replaces.
#[tactic(auto, unfolding(crate::specs::Compose::old_inputs))]
fn write_old(alloc: Global, out: &mut PageOut, old: &Option<Address>) -> Result<(), Memory>
    requires { IsTrue (takes_tags out.old.opened) }
    ensures { OnOk result (out.new ≡ with_tokens out.old (old_inputs old.now) out.old.opened) }
{
    match old {
        Some(at) => {
            write_hidden(alloc, out, "f", at.folder.as_str())?;
            write_hidden(alloc, out, "v", Buffer::new().format(at.validity))?;
            write_hidden(alloc, out, "u", Buffer::new().format(at.uid))
        }
        None => Ok(()),
    }
}

#[tactic(auto, unfolding(crate::specs::Compose::visible_inputs))]
fn write_visible_inputs(alloc: Global, out: &mut PageOut, fields: &Draft) -> Result<(), Memory>
    requires { IsTrue (takes_tags out.old.opened) }
    ensures { OnOk result (out.new ≡ with_tokens out.old (visible_inputs fields.now) out.old.opened) }
{
    write_visible(
        alloc,
        out,
        "identity",
        Buffer::new().format(fields.identity),
    )?;
    write_visible(alloc, out, "to", fields.to.as_str())?;
    write_visible(alloc, out, "cc", fields.cc.as_str())?;
    write_visible(alloc, out, "subject", fields.subject.as_str())?;
    write_text_area(alloc, out, fields.text.as_str())
}

/// Returns the number of a form in 16 hexadecimal digits.
pub fn form_text(alloc: Global, number: u64) -> Result<String, Memory>
    ensures { IfOk result (λ text. string_bytes text ≡ hex_digits 16 number) }
{
    let mut text = String::new(alloc);
    push_hex(&mut text, number)?;
    Ok(text)
}

fn push_hex(text: &mut String, number: u64) -> Result<(), Memory>
    ensures { OnOk result (string_bytes text.new ≡ string_bytes text.old ++ hex_digits 16 number) }
{
    for place in 0u64..16 {
        let value = (number >> (60 - 4 * place)) % 16;
        text.push(hex_digit(value as u8) as char)?;
    }
    Ok(())
}

fn hex_digit(value: u8) -> u8
    requires { value < 16 }
    ensures equals { result ≡ hex_digit value }
    ensures ascii { result < 128 }
{
    if value < 10 {
        b'0' + value
    } else {
        b'a' - 10 + value
    }
}

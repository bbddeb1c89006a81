//! The page on which a member sets identities.
ghost use Rattle.std.specs.Prelude.{◌≡◌, encode_utf8_all, IfOk, OnOk, IsTrue};
ghost use Rattle.std.specs.List.{flat_map};
ghost use Rattle.page_writer.specs.Page.{spell, takes_tags};
ghost use Rattle.page_frames.specs.Elements.{with_tokens};
ghost use Rattle.page_frames.specs.Pages.{IsFramePage};
ghost use Rattle.form_pages.specs.Identities.{free_form, free_number, identity_form, identity_inputs, identity_page, is_free, kept_form};

use account_pictures::Identity;
use itoa::Buffer;
use mail_values::Text;
use page_frames::{
    close_form, close_page, finish_page, open_form, open_page, write_heading, write_hidden,
    write_visible,
};
use page_writer::{Memory, PageBytes, PageOut};
use std::alloc::Global;

/// The numbers of identities end before this one.
const END: u8 = 17;

/// Returns the page of the kept identities: a form for each, and an empty one for the lowest number that is free. `key` is the
/// session's form key.
#[tactic(auto, using(crate::proofs::Frame::identity_page_frame), unfolding(page_writer::specs::Writing::literals, crate::specs::Identities::identity_page, page_frames::specs::Pages::framed))]
pub fn identity_page(
    alloc: Global,
    key: &Text,
    kept: &[(u8, Identity)],
) -> Result<PageBytes, Memory>
    ensures equals { IfOk result (λ page. page ≡ encode_utf8_all (spell (identity_page key.now kept.now))) }
    ensures is_safe { OnOk result (IsFramePage (identity_page key.now kept.now)) }
{
    let mut out = PageOut::new(alloc);
    open_page(alloc, &mut out, "Identities", true)?;
    write_heading(alloc, &mut out, "Identities")?;
    write_kept_forms(alloc, &mut out, key, kept)?;
    write_free_form(alloc, &mut out, key, free_number(kept))?;
    close_page(&mut out)?;
    Ok(finish_page(out))
}

/// Writes a form for each kept identity.
fn write_kept_forms(
    alloc: Global,
    out: &mut PageOut,
    key: &Text,
    kept: &[(u8, Identity)],
) -> Result<(), Memory>
    requires { IsTrue (takes_tags out.old.opened) }
    ensures { OnOk result (out.new ≡ with_tokens out.old (flat_map (kept_form key.now) kept.now) out.old.opened) }
{
    for (number, identity) in kept {
        write_identity_form(
            alloc,
            out,
            key,
            *number,
            identity.name.as_str(),
            identity.address.as_str(),
        )?;
    }
    Ok(())
}

/// Writes an empty form for a new identity, if there is a number for it.
fn write_free_form(
    alloc: Global,
    out: &mut PageOut,
    key: &Text,
    number: Option<u8>,
) -> Result<(), Memory>
    requires { IsTrue (takes_tags out.old.opened) }
    ensures { OnOk result (out.new ≡ with_tokens out.old (free_form key.now number) out.old.opened) }
{
    match number {
        Some(number) => write_identity_form(alloc, out, key, number, "", ""),
        None => Ok(()),
    }
}

/// Writes the form of the identity of a number.
#[tactic(auto, unfolding(page_writer::specs::Writing::literals, crate::specs::Identities::identity_form))]
fn write_identity_form(
    alloc: Global,
    out: &mut PageOut,
    key: &Text,
    number: u8,
    name: &str,
    address: &str,
) -> Result<(), Memory>
    requires { IsTrue (takes_tags out.old.opened) }
    ensures { OnOk result (out.new ≡ with_tokens out.old (identity_form key.now number name.now address.now) out.old.opened) }
{
    open_form(alloc, out, "/identities")?;
    write_inputs(alloc, out, key, number, name, address)?;
    close_form(alloc, out, "Save")
}

fn write_inputs(
    alloc: Global,
    out: &mut PageOut,
    key: &Text,
    number: u8,
    name: &str,
    address: &str,
) -> Result<(), Memory>
    requires { IsTrue (takes_tags out.old.opened) }
    ensures { OnOk result (out.new ≡ with_tokens out.old (identity_inputs key.now number name.now address.now) out.old.opened) }
{
    write_hidden(alloc, out, "key", key.as_str())?;
    write_hidden(alloc, out, "number", Buffer::new().format(number))?;
    write_visible(alloc, out, "name", name)?;
    write_visible(alloc, out, "address", address)
}

/// Returns the lowest number from 1 to 16 that no kept identity has.
#[tactic(auto, unfolding(crate::specs::Identities::free_number))]
fn free_number(kept: &[(u8, Identity)]) -> Option<u8>
    ensures { result ≡ free_number kept.now }
{
    for number in 1..END {
        if is_free(kept, number) {
            return Some(number);
        }
    }
    None
}

fn is_free(kept: &[(u8, Identity)], number: u8) -> bool
    ensures { result ≡ is_free kept.now number }
{
    for entry in kept {
        if entry.0 == number {
            return false;
        }
    }
    true
}

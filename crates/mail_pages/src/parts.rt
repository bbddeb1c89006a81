//! The list of a message's parts.
ghost use Rattle.std.specs.Prelude.{◌≡◌, OnOk, IsTrue};
ghost use Rattle.page_writer.specs.Page.{takes_tags};
ghost use Rattle.page_frames.specs.Elements.{with_tokens};
ghost use Rattle.mail_pages.specs.Parts.{part_link, name_words, part_words, part_item, leaf_item, part_items, part_list};

use itoa::Buffer;
use mime_tree::{Part, Section};
use page_frames::{open, open_with, write_link};
use page_writer::{Memory, PageOut};
use std::alloc::Global;
use wash_attributes::Place;

/// Writes the list of the leaves, each with a link to its bytes.
#[tactic(auto, unfolding(page_writer::specs::Writing::literals, crate::specs::Parts::part_list))]
pub fn write_parts(
    alloc: Global,
    out: &mut PageOut,
    place: &Place,
    parts: &[Part<'_>],
) -> Result<(), Memory>
    requires { IsTrue (takes_tags out.old.opened) }
    ensures { OnOk result (out.new ≡ with_tokens out.old (part_list place.now parts.now) out.old.opened) }
{
    open_with(alloc, out, "ul", "class", "parts")?;
    write_items(alloc, out, place, parts)?;
    out.end()
}

fn write_items(
    alloc: Global,
    out: &mut PageOut,
    place: &Place,
    parts: &[Part<'_>],
) -> Result<(), Memory>
    requires { IsTrue (takes_tags out.old.opened) }
    ensures { OnOk result (out.new ≡ with_tokens out.old (part_items place.now parts.now) out.old.opened) }
{
    for part in parts {
        write_leaf(alloc, out, place, part)?;
    }
    Ok(())
}

fn write_leaf(
    alloc: Global,
    out: &mut PageOut,
    place: &Place,
    part: &Part<'_>,
) -> Result<(), Memory>
    requires { IsTrue (takes_tags out.old.opened) }
    ensures { OnOk result (out.new ≡ with_tokens out.old (leaf_item place.now part.now) out.old.opened) }
{
    if part.is_leaf() {
        write_item(alloc, out, place, part)
    } else {
        Ok(())
    }
}

#[tactic(auto, unfolding(page_writer::specs::Writing::literals))]
fn write_item(
    alloc: Global,
    out: &mut PageOut,
    place: &Place,
    part: &Part<'_>,
) -> Result<(), Memory>
    requires { IsTrue (takes_tags out.old.opened) }
    ensures { OnOk result (out.new ≡ with_tokens out.old (part_item place.now part.now) out.old.opened) }
{
    open(alloc, out, "li")?;
    write_part_link(alloc, out, place, part.section())?;
    write_words(out, part)?;
    out.end()
}

/// Writes a link to the bytes of a part.
#[tactic(auto, unfolding(crate::specs::Parts::part_link))]
fn write_part_link(
    alloc: Global,
    out: &mut PageOut,
    place: &Place,
    section: &Section,
) -> Result<(), Memory>
    requires { IsTrue (takes_tags out.old.opened) }
    ensures { OnOk result (out.new ≡ with_tokens out.old (part_link place.now section.now) out.old.opened) }
{
    let address = place.part_address(alloc, section)?;
    let spelling = section.spell(alloc)?;
    write_link(alloc, out, &address, &spelling)
}

/// Writes the type of a part, its name if it has one, and its encoded size in bytes.
#[tactic(auto, unfolding(page_writer::specs::Writing::literals, crate::specs::Parts::part_words))]
fn write_words(out: &mut PageOut, part: &Part<'_>) -> Result<(), Memory>
    ensures { OnOk result (out.new ≡ with_tokens out.old (part_words part.now) out.old.opened) }
{
    out.chars(" ")?;
    out.chars(part.mime())?;
    write_name(out, part.name())?;
    out.chars(" ")?;
    out.chars(Buffer::new().format(part.bytes().len()))
}

#[tactic(auto, unfolding(page_writer::specs::Writing::literals))]
fn write_name(out: &mut PageOut, name: &str) -> Result<(), Memory>
    ensures { OnOk result (out.new ≡ with_tokens out.old (name_words name.now) out.old.opened) }
{
    if name.is_empty() {
        return Ok(());
    }
    out.chars(" ")?;
    out.chars(name)
}

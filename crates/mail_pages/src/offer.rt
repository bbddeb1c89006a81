//! The paragraph that offers remote images.
ghost use Rattle.std.specs.Prelude.{◌≡◌, Some, IfOk, OnOk, IsTrue, string_bytes};
ghost use Rattle.page_writer.specs.Page.{takes_tags};
ghost use Rattle.page_frames.specs.Elements.{with_tokens};
ghost use Rattle.mail_pages.specs.Mail.{choice};
ghost use Rattle.mail_pages.specs.Offer.{page_address, images_link, images_paragraph, has_images, images_offer};

use crate::frame::Frame;
use crate::html::html_has_images;
use account_pictures::Address;
use mime_tree::{Section, Shown, Tree, part};
use page_frames::{images_address, open_with, show_address, shown_part_address, write_link};
use page_writer::{Memory, PageOut};
use std::alloc::Global;

/// Writes the paragraph that offers remote images, if the page is a session's, they weren't requested, and what is shown has some.
#[tactic(auto, unfolding(crate::specs::Offer::images_offer))]
pub fn write_offer(
    alloc: Global,
    out: &mut PageOut,
    frame: &Frame,
    section: &Option<Section>,
    images: bool,
    tree: &Tree<'_>,
    shown: &Shown,
) -> Result<(), Memory>
    requires tags { IsTrue (takes_tags out.old.opened) }
    requires choice { choice tree.now section.now ≡ Some shown.now }
    ensures { OnOk result (out.new ≡ with_tokens out.old (images_offer frame.now tree.now section.now images) out.old.opened) }
{
    let Frame::Session { at, .. } = frame else {
        return Ok(());
    };
    if images {
        return Ok(());
    }
    if has_images(alloc, tree, shown)? {
        write_images_paragraph(alloc, out, &page_address(alloc, at, section)?)
    } else {
        Ok(())
    }
}

/// Whether what is shown has a remote picture.
fn has_images(alloc: Global, tree: &Tree<'_>, shown: &Shown) -> Result<bool, Memory>
    ensures { IfOk result (λ found. found ≡ has_images tree.now.parts shown.now) }
{
    match shown {
        Shown::Html(section) => match part(tree, section) {
            Some(part) => html_has_images(alloc, tree, part),
            None => Ok(false),
        },
        _ => Ok(false),
    }
}

/// Writes the paragraph that offers remote images on the page of an address.
#[tactic(auto, unfolding(page_writer::specs::Writing::literals, crate::specs::Offer::images_paragraph))]
fn write_images_paragraph(alloc: Global, out: &mut PageOut, address: &str) -> Result<(), Memory>
    requires { IsTrue (takes_tags out.old.opened) }
    ensures { OnOk result (out.new ≡ with_tokens out.old (images_paragraph address.now) out.old.opened) }
{
    open_with(alloc, out, "p", "class", "images")?;
    write_images_link(alloc, out, address)?;
    out.end()?;
    out.chars("\n")
}

#[tactic(auto, unfolding(crate::specs::Offer::images_link))]
fn write_images_link(alloc: Global, out: &mut PageOut, address: &str) -> Result<(), Memory>
    requires { IsTrue (takes_tags out.old.opened) }
    ensures { OnOk result (out.new ≡ with_tokens out.old (images_link address.now) out.old.opened) }
{
    let images = images_address(alloc, address)?;
    write_link(alloc, out, &images, "Show remote images")
}

/// The address of the page itself.
fn page_address(alloc: Global, at: &Address, section: &Option<Section>) -> Result<String, Memory>
    ensures { IfOk result (λ address. string_bytes address ≡ page_address at.now section.now) }
{
    match section {
        Some(section) => shown_part_address(alloc, at, section),
        None => show_address(alloc, at),
    }
}

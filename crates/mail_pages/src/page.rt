//! The tokens of the page of a message, written one after another.
ghost use Rattle.std.specs.Prelude.{◌≡◌, [], ◌∷◌, codes, IfOk, OnOk, Some};
ghost use Rattle.html_syntax.specs.Tokenizer.{tokens_of_bytes};
ghost use Rattle.html_rules.specs.Nesting.{IsNested};
ghost use Rattle.mime_tree.specs.Opening.{tree_of};
ghost use Rattle.page_frames.specs.Elements.{with_tokens};
ghost use Rattle.page_frames.specs.Pages.{around_content};
ghost use Rattle.mail_pages.specs.Place.{site_place};
ghost use Rattle.mail_pages.specs.Mail.{choice, mail_of};
ghost use Rattle.mail_pages.specs.ShowPage.{mail, page_foot, page_of, page_bytes};

use crate::actions::write_actions;
use crate::frame::{Frame, in_session, site_place};
use crate::head::write_page_head;
use crate::mail::write_mail;
use crate::offer::write_offer;
use crate::parts::write_parts;
use mime_tree::{Section, Shown, Tree};
use page_frames::{close_page, open_with};
use page_writer::{Memory, PageBytes, PageOut};
use std::alloc::Global;
use wash_attributes::Place;

/// The page of a message, from its tree and from what of it is shown.
#[tactic(auto, unfolding(page_writer::specs::Writing::literals, crate::specs::ShowPage::page_of, crate::specs::ShowPage::shown_of, crate::specs::ShowPage::page_bytes, mime_tree::specs::Opening::tree_of))]
pub fn message_page(
    alloc: Global,
    message: &[u8],
    part: &Option<Section>,
    images: bool,
    frame: &Frame,
    tree: &Tree<'_>,
    shown: &Shown,
) -> Result<PageBytes, Memory>
    requires tree { tree.now ≡ tree_of message.now }
    requires choice { choice tree.now part.now ≡ Some shown.now }
    ensures bytes { IfOk result (λ page. page ≡ page_bytes frame.now message.now part.now images) }
    ensures reads { IfOk result (λ page. tokens_of_bytes page ≡ page_of frame.now message.now part.now images) }
    ensures nested { OnOk result (IsNested (page_of frame.now message.now part.now images)) }
{
    let place = site_place(alloc, frame)?;
    let mut out = PageOut::new(alloc);
    write_page_head(alloc, &mut out, tree.fields(), in_session(frame))?;
    write_offer(alloc, &mut out, frame, part, images, tree, shown)?;
    write_shown(alloc, &mut out, tree, &place, images, shown)?;
    write_page_foot(alloc, &mut out, frame, &place, tree)?;
    Ok(out.finish())
}

/// Opens the element of what is shown, and writes what is shown.
#[tactic(auto, unfolding(page_writer::specs::Writing::literals))]
fn write_shown(
    alloc: Global,
    out: &mut PageOut,
    tree: &Tree<'_>,
    place: &Place,
    images: bool,
    shown: &Shown,
) -> Result<(), Memory>
    requires { out.old.opened ≡ around_content }
    ensures { OnOk result (out.new ≡ with_tokens out.old (mail ∷ mail_of place.now tree.now.parts images shown.now) (codes "div" ∷ around_content)) }
{
    open_with(alloc, out, "div", "class", "mail")?;
    write_mail(alloc, out, tree, place, images, shown)
}

/// Writes all that comes after what is shown.
#[tactic(auto, unfolding(page_writer::specs::Writing::literals, crate::specs::ShowPage::page_foot))]
fn write_page_foot(
    alloc: Global,
    out: &mut PageOut,
    frame: &Frame,
    place: &Place,
    tree: &Tree<'_>,
) -> Result<(), Memory>
    requires opened { out.old.opened ≡ codes "div" ∷ around_content }
    requires place { place.now ≡ site_place frame.now }
    ensures { OnOk result (out.new ≡ with_tokens out.old (page_foot frame.now tree.now.parts) []) }
{
    out.end()?;
    out.chars("\n")?;
    write_parts(alloc, out, place, tree.parts())?;
    write_actions(alloc, out, frame)?;
    close_page(out)
}

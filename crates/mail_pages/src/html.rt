//! The HTML of a part, washed.
ghost use Rattle.std.specs.Prelude.{◌≡◌, IfOk, OnOk, IsTrue, string_bytes};
ghost use Rattle.page_writer.specs.Page.{takes_tags};
ghost use Rattle.page_frames.specs.Elements.{with_tokens};
ghost use Rattle.mail_pages.specs.Mail.{decoded_text, washed_html};
ghost use Rattle.mail_pages.specs.Offer.{html_has_images};

use html_wash::wash;
use mime_tree::{Coding, Part, Tree};
use page_writer::{Memory, PageOut};
use remote_images::has_remote_images;
use std::alloc::Global;
use transfer_codings::{Charset, charset_of, decode, text_of};
use wash_attributes::Place;

/// Writes the washed HTML of a part.
pub fn write_html(
    alloc: Global,
    out: &mut PageOut,
    tree: &Tree<'_>,
    place: &Place,
    images: bool,
    part: &Part<'_>,
) -> Result<(), Memory>
    requires { IsTrue (takes_tags out.old.opened) }
    ensures { OnOk result (out.new ≡ with_tokens out.old (washed_html place.now tree.now.parts images part.now) out.old.opened) }
{
    let html = decoded_text(alloc, part)?;
    wash(alloc, &html, tree, part.location(), place, images, out)
}

/// Whether the HTML of a part has a remote picture.
#[tactic(auto, unfolding(crate::specs::Offer::html_has_images))]
pub fn html_has_images(alloc: Global, tree: &Tree<'_>, part: &Part<'_>) -> Result<bool, Memory>
    ensures { IfOk result (λ found. found ≡ html_has_images tree.now.parts part.now) }
{
    let html = decoded_text(alloc, part)?;
    has_remote_images(alloc, &html, tree, part.location())
}

/// The text of a part: decoded by its coding and its charset. Bytes of no coding are read in place.
pub fn decoded_text(alloc: Global, part: &Part<'_>) -> Result<String, Memory>
    ensures { IfOk result (λ text. string_bytes text ≡ decoded_text part.now) }
{
    let charset = charset_of(part.charset().as_bytes()).unwrap_or(Charset::Utf8);
    match part.coding() {
        Coding::Plain => text_of(alloc, charset, part.bytes()),
        coding => {
            let bytes = decode(alloc, coding, part.bytes())?;
            text_of(alloc, charset, &bytes)
        }
    }
}

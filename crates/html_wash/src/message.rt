//! The washing of a whole message.
ghost use Rattle.std.specs.Prelude.{◌≡◌, true, chars, OnOk};
ghost use Rattle.std.specs.Option.{option_copied};
ghost use Rattle.html_syntax.specs.Tokenizer.{tokens};
ghost use Rattle.page_writer.specs.Page.{takes_tags};
ghost use Rattle.page_writer.specs.Writer.{with_all_tokens};
ghost use Rattle.cid_parts.specs.Located.{references_of};
ghost use Rattle.wash_attributes.specs.Addresses.{given_of};
ghost use Rattle.html_wash.specs.Wash.{wash as washed_tokens};

use crate::Memory;
use crate::washer::Washer;
use cid_parts::References;
use html_tokens::Scanner;
use mime_tree::Tree;
use page_writer::PageOut;
use std::alloc::Global;
use wash_attributes::Place;

/// Washes the HTML of a message into a page.
///
/// `tree` is the message, `base` the Content-Location of its HTML part, `place` gives the addresses of its parts, and `images` tells
/// whether remote pictures are shown. After an error the page has to be given up.
pub fn wash(
    alloc: Global,
    html: &str,
    tree: &Tree,
    base: Option<&str>,
    place: &Place,
    images: bool,
    out: &mut PageOut,
) -> Result<(), Memory>
    requires { takes_tags out.old.opened ≡ true }
    ensures page { OnOk result (out.new ≡ with_all_tokens out.old (washed_tokens (given_of (references_of tree.now (option_copied base.entry)) place.now images) (tokens (chars html.now)))) }
    ensures opened { OnOk result (out.new.opened ≡ out.old.opened) }
{
    let references = References::new(alloc, tree, base)?;
    wash_with(alloc, html, &references, place, images, out)
}

/// Washes the HTML of a message whose references are known.
fn wash_with(
    alloc: Global,
    html: &str,
    references: &References,
    place: &Place,
    images: bool,
    out: &mut PageOut,
) -> Result<(), Memory>
    requires { takes_tags out.old.opened ≡ true }
    ensures page { OnOk result (out.new ≡ with_all_tokens out.old (washed_tokens (given_of references.now place.now images) (tokens (chars html.now)))) }
    ensures opened { OnOk result (out.new.opened ≡ out.old.opened) }
{
    let mut scanner = Scanner::new(html);
    let mut washer = Washer::new(alloc, images);
    while let Some(span) = scanner.next() {
        washer.take(alloc, &scanner, &span, references, place, out)?;
    }
    washer.close(out)
}

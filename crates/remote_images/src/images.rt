//! Looks for a picture of the web.
ghost use Rattle.std.specs.Prelude.{◌≡◌, ◌↔◌, chars, IfOk, IsTrue, Some};
ghost use Rattle.std.specs.Option.{option_copied};
ghost use Rattle.html_syntax.specs.Token.Token.{Start};
ghost use Rattle.html_syntax.specs.Tokenizer.{tokens};
ghost use Rattle.html_tokens.specs.Scanned.{span_tokens, IsSpan};
ghost use Rattle.cid_parts.specs.Located.{references_of};
ghost use Rattle.cid_parts.specs.Refer.{refer};
ghost use Rattle.wash_attributes.specs.declared.place.Place.{Place};
ghost use Rattle.remote_images.specs.Remote.{is_remote, refers_to_web, is_remote_image, has_remote_images};
ghost use Rattle.remote_images.specs.Decides.{ImagesChange};

use crate::Memory;
use cid_parts::{Ref, References};
use html_tokens::{Part, Scanner, Span, StartTag, WrittenAttribute};
use mime_tree::Tree;
use std::alloc::Global;
use wash_attributes::first_attribute;

/// Returns whether the HTML of a message has a picture of the web.
///
/// `tree` is the message, and `base` the Content-Location of its HTML part. The text is read up to the first such picture, and nothing
/// is washed or written.
pub fn has_remote_images(
    alloc: Global,
    html: &str,
    tree: &Tree<'_>,
    base: Option<&str>,
) -> Result<bool, Memory>
    ensures equals { IfOk result (λ found. found ≡ has_remote_images (references_of tree.now (option_copied base.entry)) (tokens (chars html.now))) }
    ensures decides { IfOk result (λ found. (place : Place) → IsTrue found ↔ ImagesChange (references_of tree.now (option_copied base.entry)) place (tokens (chars html.now))) }
{
    let references = References::new(alloc, tree, base)?;
    has_among(alloc, html, &references)
}

/// Whether a text has a picture of the web, if it is known what its addresses refer to.
fn has_among(alloc: Global, html: &str, references: &References<'_, '_>) -> Result<bool, Memory>
    ensures { IfOk result (λ found. found ≡ has_remote_images references.now (tokens (chars html.now))) }
{
    let mut scanner = Scanner::new(html);
    while let Some(span) = scanner.next() {
        if has_in_span(alloc, &scanner, &span, references)? {
            return Ok(true);
        }
    }
    Ok(false)
}

fn has_in_span(
    alloc: Global,
    scanner: &Scanner<'_>,
    span: &Span,
    references: &References<'_, '_>,
) -> Result<bool, Memory>
    requires { IsSpan scanner.now.text span.now }
    ensures { IfOk result (λ found. found ≡ has_remote_images references.now (span_tokens scanner.now.text span.now)) }
{
    match span.part() {
        Part::StartTag => is_remote_image(alloc, &scanner.start_tag(span), references),
        Part::EndTag => {
            // Read so that its token is known to be no start tag.
            let _name = scanner.end_tag(span);
            Ok(false)
        }
        _ => Ok(false),
    }
}

#[tactic(auto, unfolding(crate::specs::Remote::is_remote_image))]
fn is_remote_image(
    alloc: Global,
    tag: &StartTag<'_>,
    references: &References<'_, '_>,
) -> Result<bool, Memory>
    ensures { IfOk result (λ found. found ≡ is_remote_image references.now (Start tag.now.name tag.now.attributes)) }
{
    if !tag.name().reads_as("img") {
        return Ok(false);
    }
    match first_attribute(tag, "src") {
        Some(attribute) => refers_to_web(alloc, &attribute, references),
        None => Ok(false),
    }
}

/// Whether the value of an attribute is an address of the web.
fn refers_to_web(
    alloc: Global,
    attribute: &WrittenAttribute<'_>,
    references: &References<'_, '_>,
) -> Result<bool, Memory>
    ensures { IfOk result (λ found. found ≡ refers_to_web references.now (Some attribute.now.value)) }
{
    let value = attribute.value(alloc)?;
    is_web_address(alloc, value.as_str(), references)
}

fn is_web_address(
    alloc: Global,
    address: &str,
    references: &References<'_, '_>,
) -> Result<bool, Memory>
    ensures { IfOk result (λ found. found ≡ is_remote (refer references.now address.now)) }
{
    match references.refer(alloc, address)? {
        Ref::Remote(_) => Ok(true),
        _ => Ok(false),
    }
}

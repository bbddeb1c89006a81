//! The displayed part of a message.
ghost use Rattle.std.specs.Prelude.{◌≡◌, ◌++◌, codes, IfOk, OnOk, IsTrue, false, string_bytes};
ghost use Rattle.page_writer.specs.Page.{takes_tags};
ghost use Rattle.page_frames.specs.Elements.{with_tokens, text};
ghost use Rattle.mail_pages.specs.Mail.{shown_if_requested, is_text_part, text_shown_as, choice, plain_text, text_of_part, unread_words, paragraph, mail_of};

use crate::flowed::write_flowed;
use crate::html::write_html;
use crate::text::write_body;
use mime_tree::{Coding, Part, Section, Shown, Tree, best, part, shown_as};
use page_frames::{open, write_element};
use page_writer::{Memory, PageOut};
use std::alloc::Global;
use transfer_codings::{Charset, charset_of, decode};
use wash_attributes::Place;

/// Chooses what is shown: the text of a section if one was requested, else the best part. `None` means that no text has that
/// section.
pub fn choose(tree: &Tree<'_>, section: &Option<Section>) -> Option<Shown>
    ensures { result ≡ choice tree.now section.now }
{
    match section {
        Some(section) => match part(tree, section) {
            Some(part) => asked(part),
            None => None,
        },
        None => Some(best(tree)),
    }
}

fn asked(part: &Part<'_>) -> Option<Shown>
    ensures { result ≡ shown_if_requested part.now }
{
    if is_text(part) {
        Some(text_shown_as(part))
    } else {
        None
    }
}

fn is_text(part: &Part<'_>) -> bool
    ensures { result ≡ is_text_part part.now }
{
    part.mime() == "text/plain" || part.mime() == "text/html"
}

fn text_shown_as(part: &Part<'_>) -> Shown
    ensures { result ≡ text_shown_as part.now }
{
    match charset_of(part.charset().as_bytes()) {
        Some(_) => shown_as(part),
        None => Shown::Unread(*part.section()),
    }
}

/// Writes what is shown.
#[tactic(auto, unfolding(page_writer::specs::Writing::literals, crate::specs::Mail::mail_of, crate::specs::Mail::paragraph))]
pub fn write_mail(
    alloc: Global,
    out: &mut PageOut,
    tree: &Tree<'_>,
    place: &Place,
    images: bool,
    shown: &Shown,
) -> Result<(), Memory>
    requires { IsTrue (takes_tags out.old.opened) }
    ensures { OnOk result (out.new ≡ with_tokens out.old (mail_of place.now tree.now.parts images shown.now) out.old.opened) }
{
    match shown {
        Shown::Plain(section) => match part(tree, section) {
            Some(part) => write_plain(alloc, out, part),
            None => Ok(()),
        },
        Shown::Unread(section) => match part(tree, section) {
            Some(part) => write_unread(alloc, out, part),
            None => Ok(()),
        },
        Shown::Nothing => write_element(alloc, out, "p", "No text to show."),
        Shown::Html(section) => match part(tree, section) {
            Some(part) => write_html(alloc, out, tree, place, images, part),
            None => Ok(()),
        },
        Shown::Flowed(section, del_sp) => match part(tree, section) {
            Some(part) => write_flowed(alloc, out, part, *del_sp),
            None => Ok(()),
        },
    }
}

#[tactic(auto, unfolding(page_writer::specs::Writing::literals, crate::specs::Mail::plain_text))]
fn write_plain(alloc: Global, out: &mut PageOut, part: &Part<'_>) -> Result<(), Memory>
    requires { IsTrue (takes_tags out.old.opened) }
    ensures { OnOk result (out.new ≡ with_tokens out.old (plain_text (text_of_part part.now)) out.old.opened) }
{
    open(alloc, out, "pre")?;
    out.chars("\n")?;
    write_text(alloc, out, part)?;
    out.end()
}

/// Writes the text of a part. Bytes of no coding are read in place.
fn write_text(alloc: Global, out: &mut PageOut, part: &Part<'_>) -> Result<(), Memory>
    ensures { OnOk result (out.new ≡ with_tokens out.old (text (text_of_part part.now)) out.old.opened) }
{
    let charset = charset_of(part.charset().as_bytes()).unwrap_or(Charset::Utf8);
    match part.coding() {
        Coding::Plain => write_body(alloc, out, charset, part.bytes()),
        coding => {
            let bytes = decode(alloc, coding, part.bytes())?;
            write_body(alloc, out, charset, &bytes)
        }
    }
}

#[tactic(auto, unfolding(page_writer::specs::Writing::literals, crate::specs::Mail::paragraph))]
fn write_unread(alloc: Global, out: &mut PageOut, part: &Part<'_>) -> Result<(), Memory>
    requires { IsTrue (takes_tags out.old.opened) }
    ensures { OnOk result (out.new ≡ with_tokens out.old (paragraph (unread_words part.now)) out.old.opened) }
{
    let words = unread_words(alloc, part)?;
    write_element(alloc, out, "p", &words)
}

fn unread_words(alloc: Global, part: &Part<'_>) -> Result<String, Memory>
    ensures { IfOk result (λ words. string_bytes words ≡ unread_words part.now) }
{
    let mut words = String::from_str(alloc, "Charset ")?;
    words.push_str(part.charset())?;
    words.push_str(" is not read here; part ")?;
    words.push_str(&part.section().spell(alloc)?)?;
    words.push_str(" is offered below.")?;
    Ok(words)
}

//! Finds the part of a section, and the part to show.
ghost use Rattle.std.specs.Prelude.{◌≡◌, ◌++◌, ◌∷◌, [], ◌≤◌, length, reverse, find};
ghost use Rattle.std.specs.Option.{option_copied};
ghost use Rattle.mime_tree.specs.Best.{part_at, has_section, is_html, is_text, counts, counts_in, is_alternative_at, taken_in, leaf_to_show, shown_as, best_of};

use crate::parts::{Part, Tree};
use mail_values::Section;
use transfer_codings::charset_of;

/// The most numbers of a section.
const DEPTH: usize = 40;

/// The part of a message to show.
#[derive(Clone, Copy, Debug, PartialEq, Eq)]
pub enum Shown {
    /// A plain text.
    Plain(Section),
    /// A text of format flowed, and whether DelSp is yes (RFC 3676).
    Flowed(Section, bool),
    /// An HTML page.
    Html(Section),
    /// A text or a page in a charset that isn't read.
    Unread(Section),
    /// The message has no text and no page.
    Nothing,
}

/// Returns the part of a section, if there is one.
pub fn part<'t, 'a>(tree: &'t Tree<'a>, section: &Section) -> Option<&'t Part<'a>>
    ensures { option_copied result ≡ part_at section.now tree.now.parts }
{
    part_of(tree, section.numbers())
}

fn part_of<'t, 'a>(tree: &'t Tree<'a>, numbers: &[u16]) -> Option<&'t Part<'a>>
    ensures { option_copied result ≡ part_at numbers.now tree.now.parts }
{
    tree.parts().iter().find(|part| has_numbers(part, numbers))
}

fn has_numbers(part: &Part<'_>, numbers: &[u16]) -> bool
    ensures { result ≡ has_section numbers.now part.now }
{
    part.section().numbers() == numbers
}

/// Returns the part to show: in multipart/alternative that of the last child with a text or a page of a read charset, in any
/// other multipart that of the first. If there is none, returns the first text or page of an unread charset. Attachments don't
/// count, and messages in the message aren't entered.
#[tactic(auto, unfolding(crate::specs::Best::best_of))]
pub fn best(tree: &Tree<'_>) -> Shown
    ensures { result ≡ best_of tree.now }
{
    if let Some(part) = leaf_to_show(tree) {
        return shown_as(part);
    }
    match first_text(tree) {
        Some(part) => Shown::Unread(*part.section()),
        None => Shown::Nothing,
    }
}

/// Returns the first text or page of any charset.
fn first_text<'t, 'a>(tree: &'t Tree<'a>) -> Option<&'t Part<'a>>
    ensures { option_copied result ≡ find is_text tree.now.parts }
{
    tree.parts().iter().find(|part| is_text(part))
}

/// Returns the leaf to show, one multipart after the other from the outermost in.
fn leaf_to_show<'t, 'a>(tree: &'t Tree<'a>) -> Option<&'t Part<'a>>
    ensures { option_copied result ≡ leaf_to_show 40 tree.now [] }
{
    let mut around: &[u16] = &[];
    for _step in 0..DEPTH {
        let taken = taken_in(tree, around)?;
        let numbers = taken.section().numbers();
        let size = around.len() + 1;
        if numbers.len() <= size {
            return Some(taken);
        }
        around = &numbers[..size];
    }
    None
}

/// Returns the leaf whose child of a multipart is chosen.
fn taken_in<'t, 'a>(tree: &'t Tree<'a>, around: &[u16]) -> Option<&'t Part<'a>>
    ensures { option_copied result ≡ taken_in tree.now around.now }
{
    if is_alternative_at(tree, around) {
        last_in(tree, around)
    } else {
        first_in(tree, around)
    }
}

fn first_in<'t, 'a>(tree: &'t Tree<'a>, around: &[u16]) -> Option<&'t Part<'a>>
    ensures { option_copied result ≡ find (counts_in around.now) tree.now.parts }
{
    tree.parts().iter().find(|part| counts_in(around, part))
}

fn last_in<'t, 'a>(tree: &'t Tree<'a>, around: &[u16]) -> Option<&'t Part<'a>>
    ensures { option_copied result ≡ find (counts_in around.now) (reverse tree.now.parts) }
{
    tree.parts()
        .iter()
        .rev()
        .find(|part| counts_in(around, part))
}

/// Returns whether the multipart of a section is an alternative. The empty section is the message itself.
fn is_alternative_at(tree: &Tree<'_>, around: &[u16]) -> bool
    ensures { result ≡ is_alternative_at tree.now around.now }
{
    if around.is_empty() {
        return tree.is_alternative();
    }
    match part_of(tree, around) {
        Some(part) => part.mime() == "multipart/alternative",
        None => false,
    }
}

/// Returns whether a part is in the multipart of a section, and may be shown.
fn counts_in(around: &[u16], part: &Part<'_>) -> bool
    ensures { result ≡ counts_in around.now part.now }
{
    counts(part) && part.section().numbers().starts_with(around)
}

/// Returns whether a part is a text or a page of a read charset, neither attached nor in a message in the message.
fn counts(part: &Part<'_>) -> bool
    ensures { result ≡ counts part.now }
{
    is_text(part) && charset_of(part.charset().as_bytes()).is_some()
}

fn is_text(part: &Part<'_>) -> bool
    ensures { result ≡ is_text part.now }
{
    (part.mime() == "text/plain" || is_html(part)) && !part.is_attached() && !part.is_enclosed()
}

fn is_html(part: &Part<'_>) -> bool
    ensures { result ≡ is_html part.now }
{
    part.mime() == "text/html"
}

/// Returns how a text or a page of a read charset is shown.
pub fn shown_as(part: &Part<'_>) -> Shown
    ensures { result ≡ shown_as part.now }
{
    let section = *part.section();
    if is_html(part) {
        return Shown::Html(section);
    }
    match part.format() {
        Some(del_sp) => Shown::Flowed(section, del_sp),
        None => Shown::Plain(section),
    }
}

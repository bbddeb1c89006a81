//! Boxes, and lists of them.
ghost use Rattle.std.specs.Prelude.{◌≡◌, length};
ghost use Rattle.mail_addresses.specs.Runs.{ReadsAs, rest_of};
ghost use Rattle.mail_addresses.specs.Boxes.{ListsBoxes, angle_at, bare_at, box_at, boxes_of, boxes_within, next_at, quoted_box_at, spaced_box_at, unquoted_box_at};

use crate::Mailbox;
use crate::address::{read_address, read_domain};
use crate::quoted::quoted;
use crate::reading::{AddressFault, Stop};
use crate::runs::{
    Class, begins_with, expect_byte, is_run, skip_spaces, strip_byte, take_while, trim_end,
};
use mail_values::Text;
use std::alloc::Global;

/// Reads a list of one or more boxes with commas between them.
///
/// A box is `local@domain`, or `<local@domain>` after a name or none. A name is a quoted string, in which `\` is for the character
/// after it, or any characters but `,<>"@`. Spaces around boxes and names don't count.
#[tactic(auto, unfolding(crate::specs::Boxes::boxes_of))]
pub fn mailboxes(alloc: Global, text: &str) -> Result<Vec<Mailbox>, AddressFault>
    ensures { ListsBoxes (boxes_of text.now) result }
{
    match list(alloc, text) {
        Ok(boxes) => Ok(boxes),
        Err(Stop::Before { left }) => Err(AddressFault::NotAddress {
            at: text.len().saturating_sub(left),
        }),
        Err(Stop::Memory) => Err(AddressFault::Memory),
    }
}

fn list(alloc: Global, text: &str) -> Result<Vec<Mailbox>, Stop>
    ensures { ReadsAs (λ v. v.items) result (boxes_within (length text.now) text.now) }
{
    let mut boxes = Vec::new(alloc);
    let mut rest = text;
    for _ in 0..text.len() {
        let (mailbox, after) = spaced_box(alloc, rest)?;
        boxes.push(mailbox)?;
        let Some(more) = next(after)? else {
            return Ok(boxes);
        };
        rest = more;
    }
    Err(Stop::Before { left: rest.len() })
}

/// Reads what comes after a box: nothing, or a comma and the rest of the list.
fn next(text: &str) -> Result<Option<&str>, Stop>
    ensures { ReadsAs rest_of result (next_at text.now) }
{
    if text.is_empty() {
        return Ok(None);
    }
    let rest = expect_byte(',', text)?;
    Ok(Some(rest))
}

/// Reads a box with the spaces around it.
#[tactic(auto, unfolding(crate::specs::Boxes::spaced_box_at))]
fn spaced_box(alloc: Global, text: &str) -> Result<(Mailbox, &str), Stop>
    ensures { ReadsAs (λ x. (x.0, x.1.now)) result (spaced_box_at text.now) }
{
    let (mailbox, rest) = any_box(alloc, skip_spaces(text))?;
    Ok((mailbox, skip_spaces(rest)))
}

#[tactic(auto, unfolding(crate::specs::Boxes::box_at))]
fn any_box(alloc: Global, text: &str) -> Result<(Mailbox, &str), Stop>
    ensures { ReadsAs (λ x. (x.0, x.1.now)) result (box_at text.now) }
{
    match strip_byte('"', text) {
        Some(after) => quoted_box(alloc, after),
        None => unquoted_box(alloc, text),
    }
}

/// Reads a box whose name is a quoted string, after its opening quote.
#[tactic(auto, unfolding(crate::specs::Boxes::quoted_box_at))]
fn quoted_box(alloc: Global, text: &str) -> Result<(Mailbox, &str), Stop>
    ensures { ReadsAs (λ x. (x.0, x.1.now)) result (quoted_box_at text.now) }
{
    let (name, rest) = quoted(alloc, text)?;
    angle(alloc, name, skip_spaces(rest))
}

/// Reads a box that does not begin with a quote.
#[tactic(auto, unfolding(crate::specs::Boxes::unquoted_box_at))]
fn unquoted_box(alloc: Global, text: &str) -> Result<(Mailbox, &str), Stop>
    ensures { ReadsAs (λ x. (x.0, x.1.now)) result (unquoted_box_at text.now) }
{
    let (name, rest) = take_while(Class::Name, text);
    if begins_with(b'@', rest) {
        return bare(alloc, name, rest);
    }
    let name = Text::from_text(alloc, trim_end(name))?;
    angle(alloc, name, rest)
}

/// Reads `@` and the domain of a box without a name.
#[tactic(auto, unfolding(crate::specs::Boxes::bare_at))]
fn bare<'l: 't, 't>(
    alloc: Global,
    local: &'l str,
    text: &'t str,
) -> Result<(Mailbox, &'t str), Stop>
    ensures { ReadsAs (λ x. (x.0, x.1.now)) result (bare_at local.now text.now) }
{
    if !is_run(Class::Local, 64, local) {
        return Err(Stop::Before { left: text.len() });
    }
    let (address, rest) = read_domain(local, text)?;
    let mailbox = Mailbox {
        name: Text::from_string(String::new(alloc)),
        address: address.to_text(alloc)?,
    };
    Ok((mailbox, rest))
}

/// Reads `<local@domain>` after a name.
#[tactic(auto, unfolding(crate::specs::Boxes::angle_at))]
fn angle(alloc: Global, name: Text, text: &str) -> Result<(Mailbox, &str), Stop>
    ensures { ReadsAs (λ x. (x.0, x.1.now)) result (angle_at name text.now) }
{
    let inner = expect_byte('<', text)?;
    let (address, rest) = read_address(inner)?;
    let after = expect_byte('>', rest)?;
    let mailbox = Mailbox {
        name,
        address: address.to_text(alloc)?,
    };
    Ok((mailbox, after))
}

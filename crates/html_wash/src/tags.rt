//! Writes what tags close and open.
ghost use Rattle.std.specs.Prelude.{◌≡◌, ◌≤◌, ◌||◌, nat_lt, true, false, chars, length, OnOk};
ghost use Rattle.html_syntax.specs.Token.Token.{Start};
ghost use Rattle.html_rules.specs.Tokens.{replace_nulls};
ghost use Rattle.page_writer.specs.Page.{are_attributes, are_distinct};
ghost use Rattle.html_wash.specs.Elements.{name_of};
ghost use Rattle.html_wash.specs.Closings.{none_closed, close_innermost, closed_by, lookups_of};
ghost use Rattle.html_rules.specs.Tables.{is_void};
ghost use Rattle.html_wash.specs.Wash.{open_limit, after_start, after_end};
ghost use Rattle.wash_attributes.specs.Addresses.{given_of};
ghost use Rattle.html_wash.specs.Writing.{outside, with_element, IsInside, Wrote};

use crate::Memory;
use crate::element::{Element, element_named};
use crate::lookup::lookups;
use crate::open_elements::OpenElements;
use cid_parts::References;
use html_tokens::{Attributes, StartTag, WrittenName};
use page_writer::PageOut;
use std::alloc::Global;
use wash_attributes::{Place, wash_attributes};

/// How many elements may be open.
const OPEN_LIMIT: usize = 128;

/// Writes the end tags of the innermost elements.
pub fn close(count: usize, opened: &mut OpenElements, out: &mut PageOut) -> Result<(), Memory>
    requires within { count ≤ length opened.old }
    requires inside { IsInside opened.old out.old.opened (outside opened.old out.old.opened) }
    ensures { OnOk result (Wrote (close_innermost count opened.old) (outside opened.old out.old.opened) out.old out.new opened.new) }
{
    for _i in 0..count {
        out.end()?;
        opened.pop();
    }
    Ok(())
}

/// Writes what the start tag of an element closes.
fn close_by(element: Element, opened: &mut OpenElements, out: &mut PageOut) -> Result<(), Memory>
    requires { IsInside opened.old out.old.opened (outside opened.old out.old.opened) }
    ensures { OnOk result (Wrote (closed_by (lookups_of (name_of element)) opened.old) (outside opened.old out.old.opened) out.old out.new opened.new) }
{
    for kind in lookups(element) {
        let count = opened.looked_up(*kind);
        close(count, opened, out)?;
    }
    Ok(())
}

/// Writes what an end tag closes.
pub fn end_tag(
    name: &WrittenName,
    opened: &mut OpenElements,
    out: &mut PageOut,
) -> Result<(), Memory>
    requires { IsInside opened.old out.old.opened (outside opened.old out.old.opened) }
    ensures { OnOk result (Wrote (after_end opened.old name.now) (outside opened.old out.old.opened) out.old out.new opened.new) }
{
    match element_named(name) {
        None => Ok(()),
        Some(element) => end_element(element, opened, out),
    }
}

/// Writes what the end tag of an element closes.
fn end_element(element: Element, opened: &mut OpenElements, out: &mut PageOut) -> Result<(), Memory>
    requires { IsInside opened.old out.old.opened (outside opened.old out.old.opened) }
    ensures { OnOk result (Wrote (after_end opened.old (name_of element)) (outside opened.old out.old.opened) out.old out.new opened.new) }
{
    if element.is_void() {
        return Ok(());
    }
    let count = opened.ended(element);
    close(count, opened, out)
}

/// Writes a start tag, and opens its element unless it is void.
fn open(
    alloc: Global,
    element: Element,
    attributes: &Attributes,
    opened: &mut OpenElements,
    out: &mut PageOut,
) -> Result<(), Memory>
    requires inside { IsInside opened.old out.old.opened (outside opened.old out.old.opened) }
    requires named { are_attributes attributes.now ≡ true }
    requires distinct { are_distinct attributes.now ≡ true }
    ensures { OnOk result (Wrote (with_element (name_of element) (Start (name_of element) (replace_nulls attributes.now)) opened.old) (outside opened.old out.old.opened) out.old out.new opened.new) }
{
    out.start(alloc, element.name(), attributes)?;
    if element.is_void() {
        return Ok(());
    }
    opened.push(element)
}

/// Whether the start tag of an element may be written while `count` elements are open.
fn has_room(element: Element, count: usize) -> bool
    ensures { result ≡ (is_void (name_of element) || nat_lt count open_limit) }
{
    element.is_void() || count < OPEN_LIMIT
}

/// Writes the start tag of an element after what it closes. `declared` is the style that rules declare for it.
pub fn start_tag(
    alloc: Global,
    element: Element,
    tag: &StartTag,
    declared: &str,
    references: &References,
    place: &Place,
    images: bool,
    opened: &mut OpenElements,
    out: &mut PageOut,
) -> Result<(), Memory>
    requires { IsInside opened.old out.old.opened (outside opened.old out.old.opened) }
    ensures { OnOk result (Wrote (after_start (given_of references.now place.now images) (chars declared.now) opened.old (name_of element) tag.now.attributes) (outside opened.old out.old.opened) out.old out.new opened.new) }
{
    close_by(element, opened, out)?;
    if !has_room(element, opened.len()) {
        return Ok(());
    }
    let attributes = wash_attributes(
        alloc,
        element.name(),
        tag,
        declared,
        references,
        place,
        images,
    )?;
    open(alloc, element, &attributes, opened, out)
}

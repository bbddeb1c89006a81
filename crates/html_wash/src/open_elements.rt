//! The open elements of a message.
ghost use Rattle.std.specs.Prelude.{◌≡◌, ◌+◌, ◌∷◌, List, [], true, false, not, ◌||◌, length, drop, map, OnOk};
ghost use Rattle.std.specs.List.{suffix_len, position_or_len};
ghost use Rattle.html_syntax.specs.Tokenizer.{same, is_among};
ghost use Rattle.html_wash.specs.Elements.{name_of};
ghost use Rattle.html_wash.specs.Closings.{blocks as blocks_name, looked_up as looked_up_of, ended as ended_of};
ghost use Rattle.html_wash.specs.Seen.{lookup_of, are_absent};

use crate::Memory;
use crate::element::Element;
use crate::lookup::{LookupKind, blocks};
use std::alloc::Global;
use std::marker::Model;

/// The open elements of a message, seen as their names with the innermost first.
///
/// A flag for each element says whether one of it may be open, so that a tag that looks for another one costs nothing.
#[derive(Drop)]
pub struct OpenElements {
    elements: Vec<Element>,
    flags: [bool; 58],
}

impl Model for OpenElements {
    ghost use Rattle.std.specs.Prelude.{List};
    ghost use Rattle.html_rules.specs.Tables.{Name};
    ghost use Rattle.html_wash.specs.Seen.{stack, FlagsOpen};

    ghost Value = { List Name };

    ghost view = { λ o. stack o.elements.items };

    ghost invariant = { λ o. FlagsOpen o.flags o.elements.items };
}

impl OpenElements {
    /// Returns no elements.
    pub fn new(alloc: Global) -> OpenElements
        ensures { result ≡ [] }
    {
        OpenElements {
            elements: Vec::new(alloc),
            flags: [false; 58],
        }
    }

    /// The number of open elements.
    pub fn len(&self) -> usize
        ensures { result ≡ length self.now }
    {
        self.elements.len()
    }

    /// Opens an element.
    pub fn push(&mut self, element: Element) -> Result<(), Memory>
        ensures { OnOk result (self.new ≡ name_of element ∷ self.old) }
    {
        self.elements.push(element)?;
        self.flags[element.number()] = true;
        Ok(())
    }

    /// Closes the innermost element, if any is open.
    pub fn pop(&mut self)
        ensures { self.new ≡ drop 1 self.old }
    {
        if let Some(element) = self.elements.pop() {
            if !contains(&self.elements, element) {
                self.flags[element.number()] = false;
            }
        }
    }

    /// Whether an element may be open; `false` only if none is.
    fn may_be_open(&self, element: Element) -> bool
        ensures { result ≡ false → is_among self.now (name_of element) ≡ false }
    {
        self.flags[element.number()]
    }

    /// Whether a lookup may close something; `false` only if none of its elements is open.
    fn may_close(&self, kind: LookupKind) -> bool
        ensures { result ≡ false → are_absent self.now (lookup_of kind).closes ≡ true }
    {
        let mut rest = kind.closed();
        while let [element, more @ ..] = rest {
            if self.may_be_open(*element) {
                return true;
            }
            rest = more;
        }
        false
    }

    /// The number of innermost elements that a lookup closes.
    pub fn looked_up(&self, kind: LookupKind) -> usize
        ensures { result ≡ looked_up_of (lookup_of kind) self.now }
    {
        if !self.may_close(kind) {
            return 0;
        }
        let elements = self.elements.as_slice();
        let region = &elements[region_start(elements, kind)..];
        region.len() - outermost(region, kind)
    }

    /// The number of innermost elements that an end tag closes.
    pub fn ended(&self, element: Element) -> usize
        ensures { result ≡ ended_of (name_of element) self.now }
    {
        if !self.may_be_open(element) {
            return 0;
        }
        let start = look_start(&self.elements, element);
        if start == 0 {
            return 0;
        }
        if !self.elements[start - 1].is(element) {
            return 0;
        }
        self.elements.len() - start + 1
    }
}

/// Whether the element is one of the elements.
fn contains(elements: &[Element], element: Element) -> bool
    ensures { result ≡ is_among (map name_of elements.now) (name_of element) }
{
    let mut rest = elements;
    while let [first, more @ ..] = rest {
        if first.is(element) {
            return true;
        }
        rest = more;
    }
    false
}

/// The index after the innermost element that stops the lookup, or 0.
fn region_start(elements: &[Element], kind: LookupKind) -> usize
    ensures { result + suffix_len (λ e. not (is_among (lookup_of kind).stops (name_of e))) elements.now ≡ length elements.now }
{
    let mut start = elements.len();
    while start > 0 {
        if kind.stops(elements[start - 1]) {
            return start;
        }
        start -= 1;
    }
    0
}

/// The index of the outermost element that the lookup closes, or their number.
fn outermost(region: &[Element], kind: LookupKind) -> usize
    ensures { result ≡ position_or_len (λ e. is_among (lookup_of kind).closes (name_of e)) region.now }
{
    for i in 0..region.len() {
        if kind.closes(region[i]) {
            return i;
        }
    }
    region.len()
}

/// The index after the innermost element that the end tag is for or doesn't look past, or 0.
fn look_start(elements: &[Element], ended: Element) -> usize
    ensures { result + suffix_len (λ e. not (same (name_of e) (name_of ended) || blocks_name (name_of ended) (name_of e))) elements.now ≡ length elements.now }
{
    let mut start = elements.len();
    while start > 0 {
        let element = elements[start - 1];
        if element.is(ended) || blocks(ended, element) {
            return start;
        }
        start -= 1;
    }
    0
}

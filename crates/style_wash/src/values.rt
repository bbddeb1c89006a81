//! Values: items with separators between them.
ghost use Rattle.std.specs.Prelude.{◌≡◌, ◌++◌, ◌<◌, if◌then◌else◌, true, IfOk, MatchOption, None, OnOk, Some, length};
ghost use Rattle.style_wash.specs.Values.{nesting_from_outside, parts, separator_in, nesting_after, is_item_end, separator_in, separator_of, value_of, written_separator};
ghost use Rattle.style_wash.specs.Seen.{item_seen, nesting_seen, separator_seen};
ghost use Rattle.style_wash.specs.Cuts.{BeginsWith, IsGapAndRest, IsTextAndRest, begins_gap, written_onto};

use crate::characters::{is_quote, is_separator, trim};
use crate::items::{push_item, read_item};
use std::alloc::AllocError as Memory;

/// Where a character is: outside of quotes and brackets, or inside, up to the character that ends them.
#[derive(Clone, Copy)]
pub enum Nesting {
    Outside,
    Until(u8),
}

/// The nesting after a character. Brackets count only if `brackets` is set.
pub fn nesting_after(brackets: bool, place: Nesting, c: u8) -> Nesting
    ensures { nesting_seen result ≡ nesting_after brackets (nesting_seen place) c }
{
    match place {
        Nesting::Outside if is_quote(c) => Nesting::Until(c),
        Nesting::Outside if brackets && c == b'(' => Nesting::Until(b')'),
        Nesting::Until(end) if c != end => place,
        _ => Nesting::Outside,
    }
}

#[derive(Clone, Copy)]
enum Separator {
    Space,
    Comma,
    Slash,
}

// The separator that a gap between items is.
#[tactic(auto, unfolding(crate::specs::Values::separator_of))]
fn read_separator(gap: &[u8]) -> Option<Separator>
    ensures { MatchOption result (separator_of gap.now ≡ None) (λ separator. separator_of gap.now ≡ Some (separator_seen separator)) }
{
    named_separator(trim(gap))
}

fn named_separator(text: &[u8]) -> Option<Separator>
    ensures { MatchOption result (separator_in text.now ≡ None) (λ separator. separator_in text.now ≡ Some (separator_seen separator)) }
{
    match text {
        [] => Some(Separator::Space),
        [b','] => Some(Separator::Comma),
        [b'/'] => Some(Separator::Slash),
        _ => None,
    }
}

fn push_separator(separator: Separator, written: &mut Vec<u8>) -> Result<(), Memory>
    ensures { OnOk result (written.new.items ≡ written.old.items ++ written_separator (separator_seen separator)) }
{
    match separator {
        Separator::Space => written.push(b' ')?,
        Separator::Comma => written.extend_from_slice(b", ")?,
        Separator::Slash => written.push(b'/')?,
    }
    Ok(())
}

// Splits before the first separator outside of quotes and brackets.
fn split_text(value: &[u8]) -> (&[u8], &[u8])
    ensures { IsTextAndRest value.now result.0.now result.1.now }
{
    let mut place = Nesting::Outside;
    let mut end = 0;
    while end < value.len() && !is_item_end(place, value[end]) {
        place = nesting_after(true, place, value[end]);
        end += 1;
    }
    (&value[..end], &value[end..])
}

fn is_item_end(place: Nesting, c: u8) -> bool
    ensures { result ≡ is_item_end (nesting_seen place) c }
{
    match place {
        Nesting::Outside => is_separator(c),
        Nesting::Until(_) => false,
    }
}

// Splits after the separators at the front of a text.
fn split_gap(text: &[u8]) -> (&[u8], &[u8])
    requires some { 0 < length text.now }
    requires gap { begins_gap text.now ≡ true }
    ensures { IsGapAndRest text.now result.0.now result.1.now }
{
    let mut end = 1;
    while end < text.len() && is_separator(text[end]) {
        end += 1;
    }
    (&text[..end], &text[end..])
}

const MORE_ITEMS: usize = 15;

/// Appends a value, and returns whether the text is one. If it is none, a part of it may have been appended.
pub fn push_value(value: &[u8], written: &mut Vec<u8>) -> Result<bool, Memory>
    ensures kept { IfOk result (λ whole. BeginsWith written.old.items written.new.items) }
    ensures value { IfOk result (λ whole.
        written_onto written.old.items (value_of value.now) ≡ (if whole then Some written.new.items else None)) }
{
    let mut rest = value;
    let mut left = MORE_ITEMS;
    'items: loop {
        let (text, after) = split_text(rest);
        let Some(item) = read_item(text) else {
            return Ok(false);
        };
        push_item(item, written)?;
        if after.is_empty() {
            return Ok(true);
        }
        let (gap, next) = split_gap(after);
        if left == 0 {
            return Ok(false);
        }
        left -= 1;
        let Some(separator) = read_separator(gap) else {
            return Ok(false);
        };
        push_separator(separator, written)?;
        rest = next;
    }
}

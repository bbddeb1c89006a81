//! The items of a FETCH (RFC 9051 §7.5.2).

ghost use Rattle.std.specs.Prelude.{◌≡◌, ◌≤◌, false, length};
ghost use Rattle.imap_grammar.specs.ItemData.{item_data_of, items_data_of};
ghost use Rattle.imap_values.specs.Words.{ParsesAs};
ghost use Rattle.imap_grammar.specs.Items.{name_len, name_at, item_name_of, uid_at, flags_at, header_at, body_at, modseq_at, internal_at, size_at, other_at, item_value_at, item_at, item_end_at, items_at, item_list_at};

use crate::items::Items;
use crate::response::Item;
use imap_values::{
    ParseError, eq_ignore_case, expect_byte, moment, nstring, number, positive, skip_value,
    starts_with_ignore_case, string, word_list,
};
use std::alloc::Global;

/// The items that are read.
#[derive(Clone, Copy)]
pub enum ItemName {
    Uid,
    Flags,
    Modseq,
    Internaldate,
    Size,
    Header,
    Body,
    Other,
}

#[tactic(auto, unfolding(crate::specs::Items::item_name_of))]
fn item_name(name: &[u8]) -> ItemName
    ensures { result ≡ item_name_of name.now }
{
    if eq_ignore_case(name, b"uid") {
        ItemName::Uid
    } else if eq_ignore_case(name, b"flags") {
        ItemName::Flags
    } else if eq_ignore_case(name, b"modseq") {
        ItemName::Modseq
    } else if eq_ignore_case(name, b"internaldate") {
        ItemName::Internaldate
    } else if eq_ignore_case(name, b"rfc822.size") {
        ItemName::Size
    } else if starts_with_ignore_case(name, b"body[header") {
        ItemName::Header
    } else if starts_with_ignore_case(name, b"body[") {
        ItemName::Body
    } else {
        ItemName::Other
    }
}

#[inline(never)]
fn name_len(bytes: &[u8]) -> usize
    ensures len { result ≡ name_len false bytes.now }
    ensures within { result ≤ length bytes.now }
{
    let mut bracketed = false;
    for (i, byte) in bytes.iter().enumerate() {
        if bracketed {
            bracketed = *byte != b']';
        } else {
            if *byte == b' ' || *byte == b'\r' || *byte == b'\n' {
                return i;
            }
            bracketed = *byte == b'[';
        }
    }
    bytes.len()
}

/// Splits after the name of an item, at a space that is not in brackets. A name has at least one byte.
fn split_name(bytes: &[u8]) -> Result<(&[u8], &[u8]), ParseError>
    ensures { ParsesAs (λ x. (x.0.now, x.1.now)) result (name_at bytes.now) }
{
    let len = name_len(bytes);
    if len == 0 {
        return Err(ParseError::NotInGrammar);
    }
    Ok(bytes.split_at(len))
}

fn uid(bytes: &[u8]) -> Result<(Item<'_>, &[u8]), ParseError>
    ensures { ParsesAs (λ x. (item_data_of x.0, x.1.now)) result (uid_at bytes.now) }
{
    let (n, rest) = positive(bytes, 4_294_967_295)?;
    Ok((Item::Uid(n as u32), rest))
}

fn flags(alloc: Global, bytes: &[u8]) -> Result<(Item<'_>, &[u8]), ParseError>
    ensures { ParsesAs (λ x. (item_data_of x.0, x.1.now)) result (flags_at bytes.now) }
{
    let rest = expect_byte(bytes, b'(')?;
    let (words, after) = word_list(alloc, rest)?;
    Ok((Item::Flags(words), after))
}

fn header(alloc: Global, bytes: &[u8]) -> Result<(Item<'_>, &[u8]), ParseError>
    ensures { ParsesAs (λ x. (item_data_of x.0, x.1.now)) result (header_at bytes.now) }
{
    let (text, rest) = nstring(alloc, bytes)?;
    Ok((Item::Header(text), rest))
}

fn body(alloc: Global, bytes: &[u8]) -> Result<(Item<'_>, &[u8]), ParseError>
    ensures { ParsesAs (λ x. (item_data_of x.0, x.1.now)) result (body_at bytes.now) }
{
    let (text, rest) = nstring(alloc, bytes)?;
    Ok((Item::Body(text), rest))
}

fn modseq(bytes: &[u8]) -> Result<(Item<'_>, &[u8]), ParseError>
    ensures { ParsesAs (λ x. (item_data_of x.0, x.1.now)) result (modseq_at bytes.now) }
{
    let inner = expect_byte(bytes, b'(')?;
    let (n, rest) = positive(inner, 9_223_372_036_854_775_807)?;
    let after = expect_byte(rest, b')')?;
    Ok((Item::Modseq(n), after))
}

fn internal(alloc: Global, bytes: &[u8]) -> Result<(Item<'_>, &[u8]), ParseError>
    ensures { ParsesAs (λ x. (item_data_of x.0, x.1.now)) result (internal_at bytes.now) }
{
    let (text, rest) = string(alloc, bytes)?;
    Ok((Item::Internal(moment(text.as_slice())), rest))
}

fn size(bytes: &[u8]) -> Result<(Item<'_>, &[u8]), ParseError>
    ensures { ParsesAs (λ x. (item_data_of x.0, x.1.now)) result (size_at bytes.now) }
{
    let (n, rest) = number(bytes, 9_223_372_036_854_775_807)?;
    Ok((Item::Size(n), rest))
}

fn other(bytes: &[u8]) -> Result<(Item<'_>, &[u8]), ParseError>
    ensures { ParsesAs (λ x. (item_data_of x.0, x.1.now)) result (other_at bytes.now) }
{
    let rest = skip_value(bytes)?;
    Ok((Item::Other, rest))
}

fn item_value(alloc: Global, name: ItemName, bytes: &[u8]) -> Result<(Item<'_>, &[u8]), ParseError>
    ensures { ParsesAs (λ x. (item_data_of x.0, x.1.now)) result (item_value_at name bytes.now) }
{
    match name {
        ItemName::Uid => uid(bytes),
        ItemName::Flags => flags(alloc, bytes),
        ItemName::Modseq => modseq(bytes),
        ItemName::Internaldate => internal(alloc, bytes),
        ItemName::Size => size(bytes),
        ItemName::Header => header(alloc, bytes),
        ItemName::Body => body(alloc, bytes),
        ItemName::Other => other(bytes),
    }
}

#[tactic(auto, unfolding(crate::specs::Items::item_at))]
fn item(alloc: Global, bytes: &[u8]) -> Result<(Item<'_>, &[u8]), ParseError>
    ensures { ParsesAs (λ x. (item_data_of x.0, x.1.now)) result (item_at bytes.now) }
{
    let (name, rest) = split_name(bytes)?;
    let value = expect_byte(rest, b' ')?;
    item_value(alloc, item_name(name), value)
}

/// Reads what follows an item: `true` for the `)` that ends the list, `false` for the space before the next item.
fn item_end(bytes: &[u8]) -> Result<(bool, &[u8]), ParseError>
    ensures { ParsesAs (λ x. (x.0, x.1.now)) result (item_end_at bytes.now) }
{
    match bytes {
        [b')', rest @ ..] => Ok((true, rest)),
        [b' ', rest @ ..] => Ok((false, rest)),
        _ => Err(ParseError::NotInGrammar),
    }
}

/// The initial capacity of a list of items: servers seldom send more for a message.
const USUAL: usize = 8;

/// Reads one or more items and the `)` after them.
fn items(alloc: Global, bytes: &[u8]) -> Result<(Vec<Item<'_>>, &[u8]), ParseError>
    ensures { ParsesAs (λ x. (items_data_of x.0.items, x.1.now)) result (items_at (length bytes.now) bytes.now) }
{
    let mut items = Vec::with_capacity(alloc, USUAL)?;
    let mut left = bytes;
    for _ in 0..bytes.len() {
        let (one, rest) = item(alloc, left)?;
        items.push(one)?;
        let (ends, after) = item_end(rest)?;
        if ends {
            return Ok((items, after));
        }
        left = after;
    }
    Err(ParseError::NotInGrammar)
}

/// Reads a list of items after its `(`.
#[tactic(auto, unfolding(crate::specs::Items::item_list_at))]
pub fn item_list(alloc: Global, bytes: &[u8]) -> Result<(Items<'_>, &[u8]), ParseError>
    ensures { ParsesAs (λ x. (x.0, x.1.now)) result (item_list_at bytes.now) }
{
    match bytes {
        [] => Err(ParseError::NotInGrammar),
        [b')', rest @ ..] => Ok((Items::from_vec(Vec::new(alloc)), rest)),
        _ => {
            let (items, rest) = items(alloc, bytes)?;
            Ok((Items::from_vec(items), rest))
        }
    }
}

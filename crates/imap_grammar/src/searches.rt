//! Responses to extended searches (RFC 4731 §3.1).

ghost use Rattle.std.specs.Prelude.{◌≡◌, None, length};
ghost use Rattle.imap_values.specs.Lents.{bytes_of};
ghost use Rattle.imap_values.specs.Sets.{membership_or_none};
ghost use Rattle.imap_values.specs.Slices.{slice_of};
ghost use Rattle.imap_values.specs.Words.{ParsesAs};
ghost use Rattle.imap_grammar.specs.Searches.{skip_prefix_at, tag_at, correlator_at, is_word_end, skip_uid, pair_at, all_value_or, last_all_at, all_set_of, search_of};

use imap_commands::UidSet;
use imap_values::{
    Class, Lent, ParseError, begins_string, eq_ignore_case, expect_byte, expect_end, skip_value,
    starts_with_ignore_case, string, take_while1, uid_set,
};
use std::alloc::Global;

/// Returns the bytes after a text, whatever the case of its letters.
fn skip_prefix<'a>(text: &[u8], bytes: &'a [u8]) -> Result<&'a [u8], ParseError>
    ensures { ParsesAs (λ x. x.now) result (skip_prefix_at text.now bytes.now) }
{
    if !starts_with_ignore_case(bytes, text) {
        return Err(ParseError::NotInGrammar);
    }
    Ok(&bytes[text.len()..])
}

#[tactic(auto, unfolding(crate::specs::Searches::tag_at))]
fn tag(alloc: Global, bytes: &[u8]) -> Result<(Lent<'_>, &[u8]), ParseError>
    ensures { ParsesAs (λ x. (bytes_of x.0, x.1.now)) result (tag_at bytes.now) }
{
    if begins_string(bytes) {
        return string(alloc, bytes);
    }
    let (tag, rest) = take_while1(Class::Tag, bytes)?;
    Ok((Lent::Slice(tag), rest))
}

/// Reads the search correlator, which has the tag of the command.
#[tactic(auto, unfolding(crate::specs::Searches::correlator_at))]
fn correlator(alloc: Global, bytes: &[u8]) -> Result<(Lent<'_>, &[u8]), ParseError>
    ensures { ParsesAs (λ x. (bytes_of x.0, x.1.now)) result (correlator_at bytes.now) }
{
    let inner = skip_prefix(b" (tag ", bytes)?;
    let (tag, rest) = tag(alloc, inner)?;
    let after = expect_byte(rest, b')')?;
    Ok((tag, after))
}

fn is_word_end(bytes: &[u8]) -> bool
    ensures { result ≡ is_word_end bytes.now }
{
    match bytes {
        [] => true,
        [first, ..] => *first == b' ',
    }
}

/// The bytes after UID, if they begin with it.
#[tactic(auto, unfolding(crate::specs::Searches::skip_uid))]
fn skip_uid(bytes: &[u8]) -> &[u8]
    ensures { result.now ≡ skip_uid bytes.now }
{
    if starts_with_ignore_case(bytes, b" uid") && is_word_end(&bytes[4..]) {
        &bytes[4..]
    } else {
        bytes
    }
}

/// Reads a pair, and returns its name, the bytes from its value on, and the rest.
#[tactic(auto, unfolding(crate::specs::Searches::pair_at))]
fn pair(bytes: &[u8]) -> Result<(&[u8], &[u8], &[u8]), ParseError>
    ensures { ParsesAs (λ x. (x.0.now, x.1.now, x.2.now)) result (pair_at bytes.now) }
{
    let (name, rest) = take_while1(Class::Atom, expect_byte(bytes, b' ')?)?;
    let value = expect_byte(rest, b' ')?;
    let after = skip_value(value)?;
    Ok((name, value, after))
}

fn all_value_or<'a>(found: Option<&'a [u8]>, name: &[u8], value: &'a [u8]) -> Option<&'a [u8]>
    ensures { slice_of result ≡ all_value_or (slice_of found.entry) name.now value.now }
{
    if eq_ignore_case(name, b"all") {
        Some(value)
    } else {
        found
    }
}

/// Returns the bytes from the value of the last ALL on.
fn last_all(bytes: &[u8]) -> Result<Option<&[u8]>, ParseError>
    ensures { ParsesAs (λ x. slice_of x) result (last_all_at (length bytes.now) None bytes.now) }
{
    let mut left = bytes;
    let mut found = None;
    for _ in 0..bytes.len() {
        if left.is_empty() {
            return Ok(found);
        }
        let (name, value, rest) = pair(left)?;
        found = all_value_or(found, name, value);
        left = rest;
    }
    expect_end(left)?;
    Ok(found)
}

#[tactic(auto, unfolding(crate::specs::Searches::all_set_of))]
fn all_set(alloc: Global, found: Option<&[u8]>) -> Result<Option<UidSet>, ParseError>
    ensures { ParsesAs membership_or_none result (all_set_of (slice_of found.entry)) }
{
    match found {
        None => Ok(None),
        Some(value) => {
            let (set, rest) = uid_set(alloc, value)?;
            if !is_word_end(rest) {
                return Err(ParseError::NotInGrammar);
            }
            Ok(Some(set))
        }
    }
}

/// Reads the tag of a search, and the set of ALL.
#[tactic(auto, unfolding(crate::specs::Searches::search_of))]
pub fn search(alloc: Global, rest: &[u8]) -> Result<(Lent<'_>, Option<UidSet>), ParseError>
    ensures { ParsesAs (λ x. (bytes_of x.0, membership_or_none x.1)) result (search_of rest.now) }
{
    let (tag, rest) = correlator(alloc, rest)?;
    let found = last_all(skip_uid(rest))?;
    let set = all_set(alloc, found)?;
    Ok((tag, set))
}

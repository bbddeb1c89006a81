//! Untagged responses, after their `* ` (RFC 9051 §7.2 to §7.5).

ghost use Rattle.std.specs.Prelude.{◌≡◌};
ghost use Rattle.imap_values.specs.Lents.{bytes_of};
ghost use Rattle.imap_values.specs.Words.{ParsesAs};
ghost use Rattle.imap_grammar.specs.Response.{data_of, untagged_kind_of, line_words_of, separator_at, mailbox_at, attributes_at, list_of, earlier_at, vanished_of, esearch_of, word_response_of, count_kind_of, fetch_of, count_response_of, number_response_of, untagged_response_of};

use crate::fetch::item_list;
use crate::response::Response;
use crate::searches::search;
use crate::states::{state_response, state_word};
use imap_values::{
    Class, Lent, ParseError, Slices, all_in_class, begins_string, eq_ignore_case, expect_byte,
    expect_end, is_nil, number, quoted_raw, split_words, starts_with_ignore_case, string,
    take_while1, text_after_word, uid_set, word_list,
};
use std::alloc::Global;

/// The responses that begin with a word.
#[derive(Clone, Copy)]
pub enum UntaggedKind {
    Capability,
    Enabled,
    List,
    Vanished,
    Esearch,
    Other,
}

/// The responses that begin with a number.
#[derive(Clone, Copy)]
pub enum CountKind {
    Exists,
    Expunge,
    Fetch,
    Other,
}

#[tactic(auto, unfolding(crate::specs::Response::untagged_kind_of))]
fn untagged_kind(word: &[u8]) -> UntaggedKind
    ensures { result ≡ untagged_kind_of word.now }
{
    if eq_ignore_case(word, b"capability") {
        UntaggedKind::Capability
    } else if eq_ignore_case(word, b"enabled") {
        UntaggedKind::Enabled
    } else if eq_ignore_case(word, b"list") {
        UntaggedKind::List
    } else if eq_ignore_case(word, b"vanished") {
        UntaggedKind::Vanished
    } else if eq_ignore_case(word, b"esearch") {
        UntaggedKind::Esearch
    } else {
        UntaggedKind::Other
    }
}

#[tactic(auto, unfolding(crate::specs::Response::count_kind_of))]
fn count_kind(word: &[u8]) -> CountKind
    ensures { result ≡ count_kind_of word.now }
{
    if eq_ignore_case(word, b"exists") {
        CountKind::Exists
    } else if eq_ignore_case(word, b"expunge") {
        CountKind::Expunge
    } else if eq_ignore_case(word, b"fetch") {
        CountKind::Fetch
    } else {
        CountKind::Other
    }
}

/// Reads the words of CAPABILITY or ENABLED.
#[tactic(auto, unfolding(crate::specs::Response::line_words_of))]
fn line_words(alloc: Global, rest: &[u8]) -> Result<Slices<'_>, ParseError>
    ensures { ParsesAs (λ x. x) result (line_words_of rest.now) }
{
    let text = text_after_word(rest)?;
    if !all_in_class(Class::Line, text) {
        return Err(ParseError::NotInGrammar);
    }
    Ok(split_words(alloc, text)?)
}

/// Skips the hierarchy separator of a mailbox: NIL or a quoted string.
#[tactic(auto, unfolding(crate::specs::Response::separator_at))]
fn separator(bytes: &[u8]) -> Result<&[u8], ParseError>
    ensures { ParsesAs (λ x. x.now) result (separator_at bytes.now) }
{
    if is_nil(bytes) {
        return Ok(&bytes[3..]);
    }
    let text = expect_byte(bytes, b'"')?;
    let (_, rest) = quoted_raw(text)?;
    Ok(rest)
}

/// Reads the name of a mailbox: a string, or the bytes up to a space.
#[tactic(auto, unfolding(crate::specs::Response::mailbox_at))]
fn mailbox(alloc: Global, bytes: &[u8]) -> Result<(Lent<'_>, &[u8]), ParseError>
    ensures { ParsesAs (λ x. (bytes_of x.0, x.1.now)) result (mailbox_at bytes.now) }
{
    if begins_string(bytes) {
        return string(alloc, bytes);
    }
    let (name, rest) = take_while1(Class::Word, bytes)?;
    Ok((Lent::Slice(name), rest))
}

#[tactic(auto, unfolding(crate::specs::Response::attributes_at))]
fn attributes(alloc: Global, rest: &[u8]) -> Result<(Slices<'_>, &[u8]), ParseError>
    ensures { ParsesAs (λ x. (x.0, x.1.now)) result (attributes_at rest.now) }
{
    let list = expect_byte(rest, b' ')?;
    let inner = expect_byte(list, b'(')?;
    word_list(alloc, inner)
}

/// Reads a mailbox (RFC 9051 §7.3.1). Extended data may follow it after a space.
#[tactic(auto, unfolding(crate::specs::Response::list_of))]
fn list(alloc: Global, rest: &[u8]) -> Result<Response<'_>, ParseError>
    ensures { ParsesAs data_of result (list_of rest.now) }
{
    let (attributes, rest) = attributes(alloc, rest)?;
    let rest = separator(expect_byte(rest, b' ')?)?;
    let (name, rest) = mailbox(alloc, expect_byte(rest, b' ')?)?;
    text_after_word(rest)?;
    Ok(Response::List { attributes, name })
}

/// Whether VANISHED has `(EARLIER)`, and the rest.
#[tactic(auto, unfolding(crate::specs::Response::earlier_at))]
fn earlier(bytes: &[u8]) -> (bool, &[u8])
    ensures earlier { result.0 ≡ (earlier_at bytes.now).0 }
    ensures rest { result.1.now ≡ (earlier_at bytes.now).1 }
{
    if starts_with_ignore_case(bytes, b"(earlier) ") {
        return (true, &bytes[10..]);
    }
    (false, bytes)
}

/// Reads expunged UIDs (RFC 7162 §3.2.10).
#[tactic(auto, unfolding(crate::specs::Response::vanished_of))]
fn vanished(alloc: Global, rest: &[u8]) -> Result<Response<'_>, ParseError>
    ensures { ParsesAs data_of result (vanished_of rest.now) }
{
    let (earlier, bytes) = earlier(expect_byte(rest, b' ')?);
    let (set, after) = uid_set(alloc, bytes)?;
    expect_end(after)?;
    Ok(Response::Vanished { earlier, set })
}

fn esearch(alloc: Global, rest: &[u8]) -> Result<Response<'_>, ParseError>
    ensures { ParsesAs data_of result (esearch_of rest.now) }
{
    let (tag, set) = search(alloc, rest)?;
    Ok(Response::Esearch { tag, set })
}

fn word_response(alloc: Global, kind: UntaggedKind, rest: &[u8]) -> Result<Response<'_>, ParseError>
    ensures { ParsesAs data_of result (word_response_of kind rest.now) }
{
    match kind {
        UntaggedKind::Capability => Ok(Response::Capability(line_words(alloc, rest)?)),
        UntaggedKind::Enabled => Ok(Response::Enabled(line_words(alloc, rest)?)),
        UntaggedKind::List => list(alloc, rest),
        UntaggedKind::Vanished => vanished(alloc, rest),
        UntaggedKind::Esearch => esearch(alloc, rest),
        UntaggedKind::Other => Ok(Response::Other),
    }
}

fn fetch(alloc: Global, number: u32, rest: &[u8]) -> Result<Response<'_>, ParseError>
    ensures { ParsesAs data_of result (fetch_of number rest.now) }
{
    let list = expect_byte(rest, b' ')?;
    let inner = expect_byte(list, b'(')?;
    let (items, after) = item_list(alloc, inner)?;
    expect_end(after)?;
    Ok(Response::Fetch { number, items })
}

fn count_response(
    alloc: Global,
    count: CountKind,
    number: u32,
    rest: &[u8],
) -> Result<Response<'_>, ParseError>
    ensures { ParsesAs data_of result (count_response_of count number rest.now) }
{
    match count {
        CountKind::Exists => {
            expect_end(rest)?;
            Ok(Response::Exists(number))
        }
        CountKind::Expunge => {
            expect_end(rest)?;
            Ok(Response::Expunge(number))
        }
        CountKind::Fetch => fetch(alloc, number, rest),
        CountKind::Other => Ok(Response::Other),
    }
}

/// Reads a response that begins with a number.
#[tactic(auto, unfolding(crate::specs::Response::number_response_of))]
fn number_response<'a>(
    alloc: Global,
    digits: &'a [u8],
    bytes: &'a [u8],
) -> Result<Response<'a>, ParseError>
    ensures { ParsesAs data_of result (number_response_of digits.now bytes.now) }
{
    let (n, _) = number(digits, 4_294_967_295)?;
    let n = n as u32;
    let rest = expect_byte(bytes, b' ')?;
    let (word, rest) = take_while1(Class::Word, rest)?;
    count_response(alloc, count_kind(word), n, rest)
}

#[tactic(auto, unfolding(crate::specs::Response::untagged_response_of))]
pub fn untagged_response(alloc: Global, bytes: &[u8]) -> Result<Response<'_>, ParseError>
    ensures { ParsesAs data_of result (untagged_response_of bytes.now) }
{
    let (word, rest) = take_while1(Class::Word, bytes)?;
    if all_in_class(Class::Digit, word) {
        return number_response(alloc, word, rest);
    }
    match state_word(word) {
        Some(known) => state_response(known, rest),
        None => word_response(alloc, untagged_kind(word), rest),
    }
}

//! Selectors: a name, `.class` or `name.class`.
ghost use Rattle.std.specs.Prelude.{◌≡◌, MatchOption, IfOk, Some, None, false, find, length, true};
ghost use Rattle.std.specs.List.{after_first, before_first, list_all, list_any};
ghost use Rattle.std.specs.Option.{option_map};
ghost use Rattle.std.specs.Str.{str_eq_ignore_ascii_case};
ghost use Rattle.style_wash.specs.Characters.{is_point, trimmed};
ghost use Rattle.style_rules.specs.Selectors.{element_named as element_of, is_class as is_class_text, is_class_char as is_class_char_of, selector_around, selector_of};
ghost use Rattle.style_rules.specs.Selectors.Selector.{ByName, ByBoth};
ghost use Rattle.style_rules.specs.Seen.{texts_seen, selector_seen};

use std::alloc::{AllocError as Memory, Global};

/// Which elements a rule is for: those of a name, those of a class, or those of both.
#[derive(Drop)]
pub enum Selector {
    ByName(&'static str),
    ByClass(Vec<u8>),
    ByBoth(&'static str, Vec<u8>),
}

static ELEMENTS: [&str; 58] = [
    "a",
    "abbr",
    "address",
    "b",
    "bdo",
    "big",
    "blockquote",
    "br",
    "caption",
    "center",
    "cite",
    "code",
    "col",
    "colgroup",
    "dd",
    "del",
    "dfn",
    "div",
    "dl",
    "dt",
    "em",
    "font",
    "h1",
    "h2",
    "h3",
    "h4",
    "h5",
    "h6",
    "hr",
    "i",
    "img",
    "ins",
    "kbd",
    "li",
    "ol",
    "p",
    "pre",
    "q",
    "s",
    "samp",
    "small",
    "span",
    "strike",
    "strong",
    "sub",
    "sup",
    "table",
    "tbody",
    "td",
    "tfoot",
    "th",
    "thead",
    "tr",
    "tt",
    "u",
    "ul",
    "var",
    "wbr",
];

/// The element that a text names, whatever the case of its letters.
#[tactic(auto, unfolding(crate::specs::Selectors::element_named, html_rules::specs::Tables::message_elements))]
fn element_named(text: &[u8]) -> Option<&'static str>
    ensures { MatchOption result (element_of text.now ≡ None) (λ name. element_of text.now ≡ Some name.now) }
{
    find_ignore_case(&ELEMENTS, text)
}

// The first of the texts that equals `name`, if case is ignored.
fn find_ignore_case(texts: &'static [&'static str], name: &[u8]) -> Option<&'static str>
    ensures { MatchOption result
        (find (str_eq_ignore_ascii_case name.now) (texts_seen texts.now) ≡ None)
        (λ text. find (str_eq_ignore_ascii_case name.now) (texts_seen texts.now) ≡ Some text.now) }
{
    let mut rest = texts;
    while let [text, more @ ..] = rest {
        if is_named(name, text) {
            return Some(*text);
        }
        rest = more;
    }
    None
}

fn is_named(name: &[u8], text: &str) -> bool
    ensures { result ≡ str_eq_ignore_ascii_case name.now text.now }
{
    name.eq_ignore_ascii_case(text.as_bytes())
}

fn is_class_char(c: u8) -> bool
    ensures { result ≡ is_class_char_of c }
{
    c.is_ascii_alphanumeric() || c == b'-' || c == b'_'
}

fn are_class_chars(text: &[u8]) -> bool
    ensures { result ≡ list_all is_class_char_of text.now }
{
    text.iter().all(|c| is_class_char(*c))
}

/// Whether a text is 1 to 64 letters, digits, `-` and `_`.
#[tactic(auto, unfolding(crate::specs::Selectors::is_class))]
fn is_class(text: &[u8]) -> bool
    ensures { result ≡ is_class_text text.now }
{
    1 <= text.len() && text.len() <= 64 && are_class_chars(text)
}

/// The texts before and after the first point.
fn around_point(text: &[u8]) -> Option<(&[u8], &[u8])>
    ensures { MatchOption result (list_any is_point text.now ≡ false)
        (λ parts. (list_any is_point text.now ≡ true) × (parts.0.now ≡ before_first is_point text.now) × (parts.1.now ≡ after_first is_point text.now)) }
{
    for (i, c) in text.iter().enumerate() {
        if *c == b'.' {
            return Some((&text[..i], &text[i + 1..]));
        }
    }
    None
}

/// Returns the selector that a text is, if any.
#[tactic(auto, unfolding(crate::specs::Selectors::selector_of))]
pub fn read_selector(alloc: Global, text: &[u8]) -> Result<Option<Selector>, Memory>
    ensures { IfOk result (λ found. option_map selector_seen found ≡ selector_of text.now) }
{
    let text = trim(text);
    match around_point(text) {
        None => Ok(name_selector(text)),
        Some((name, class)) => {
            if is_class(class) {
                class_selector(alloc, name, class)
            } else {
                Ok(None)
            }
        }
    }
}

fn trim(text: &[u8]) -> &[u8]
    ensures { result.now ≡ trimmed text.now }
{
    text.trim_ascii()
}

fn name_selector(text: &[u8]) -> Option<Selector>
    ensures { option_map selector_seen result ≡ option_map ByName (element_of text.now) }
{
    match element_named(text) {
        None => None,
        Some(name) => Some(Selector::ByName(name)),
    }
}

fn class_selector(alloc: Global, name: &[u8], class: &[u8]) -> Result<Option<Selector>, Memory>
    ensures { IfOk result (λ found. option_map selector_seen found ≡ selector_around name.now class.now) }
{
    match name {
        [] => {
            let class = Vec::from_slice(alloc, class)?;
            Ok(Some(Selector::ByClass(class)))
        }
        _ => named_class_selector(alloc, name, class),
    }
}

fn named_class_selector(
    alloc: Global,
    name: &[u8],
    class: &[u8],
) -> Result<Option<Selector>, Memory>
    ensures { IfOk result (λ found. option_map selector_seen found ≡ option_map (λ element. ByBoth element class.now) (element_of name.now)) }
{
    match element_named(name) {
        None => Ok(None),
        Some(element) => {
            let class = Vec::from_slice(alloc, class)?;
            Ok(Some(Selector::ByBoth(element, class)))
        }
    }
}

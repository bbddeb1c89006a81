//! The properties that a declaration may set, and the units of numbers.
ghost use Rattle.std.specs.Prelude.{◌≡◌, MatchOption, Some, None, find, map};
ghost use Rattle.std.specs.Str.{bytes_eq, str_eq_ignore_ascii_case};
ghost use Rattle.std.specs.List.{list_any};
ghost use Rattle.style_wash.specs.Tables.{is_unit, property_of};
ghost use Rattle.style_wash.specs.Characters.{trimmed};
ghost use Rattle.style_wash.specs.Seen.{texts_seen};

use crate::characters::trim;

const PROPERTIES: [&str; 40] = [
    "background",
    "background-color",
    "border",
    "border-bottom",
    "border-collapse",
    "border-color",
    "border-left",
    "border-right",
    "border-spacing",
    "border-style",
    "border-top",
    "border-width",
    "clear",
    "color",
    "float",
    "font",
    "font-family",
    "font-size",
    "font-style",
    "font-variant",
    "font-weight",
    "height",
    "letter-spacing",
    "line-height",
    "list-style-type",
    "margin",
    "margin-bottom",
    "margin-left",
    "margin-right",
    "margin-top",
    "max-width",
    "padding",
    "padding-bottom",
    "padding-left",
    "padding-right",
    "padding-top",
    "text-align",
    "text-decoration",
    "vertical-align",
    "width",
];

const UNITS: [&str; 11] = [
    "", "px", "pt", "em", "rem", "ex", "%", "cm", "mm", "in", "pc",
];

/// The property that a text names, whatever the case of its letters and the white space around it.
pub fn property(text: &[u8]) -> Option<&'static str>
    ensures { MatchOption result (property_of text.now ≡ None) (λ name. property_of text.now ≡ Some name.now) }
{
    find_ignore_case(&PROPERTIES, trim(text))
}

// The first of the texts that equals `name`, if case is ignored.
fn find_ignore_case(texts: &'static [&'static str], name: &[u8]) -> Option<&'static str>
    ensures { MatchOption result
        (find (str_eq_ignore_ascii_case name.now) (texts_seen texts.now) ≡ None)
        (λ text. find (str_eq_ignore_ascii_case name.now) (texts_seen texts.now) ≡ Some text.now) }
{
    let mut rest = texts;
    while let [text, more @ ..] = rest {
        if is_named(name, text) {
            return Some(*text);
        }
        rest = more;
    }
    None
}

fn is_named(name: &[u8], text: &str) -> bool
    ensures { result ≡ str_eq_ignore_ascii_case name.now text.now }
{
    name.eq_ignore_ascii_case(text.as_bytes())
}

/// Whether a text is a unit, or empty.
#[tactic(auto, unfolding(crate::specs::Tables::is_unit, crate::specs::Tables::units))]
pub fn is_unit(text: &[u8]) -> bool
    ensures { result ≡ is_unit text.now }
{
    contains_text(&UNITS, text)
}

fn contains_text(texts: &'static [&'static str], text: &[u8]) -> bool
    ensures { result ≡ list_any (bytes_eq text.now) (texts_seen texts.now) }
{
    let mut rest = texts;
    while let [word, more @ ..] = rest {
        if text == word.as_bytes() {
            return true;
        }
        rest = more;
    }
    false
}

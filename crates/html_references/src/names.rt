//! The names of character references (HTML Standard 13.5).
ghost use Rattle.std.specs.Prelude.{◌≡◌, option_map, map};
ghost use Rattle.html_syntax.specs.Names.{names};
ghost use Rattle.html_syntax.specs.References.{longest};
ghost use Rattle.html_references.specs.CodeReferences.{listed_of, listed_names, listed_with_first, found_in, found_at, found_name};

use crate::prefixes::begins_with;
use Semicolon::{Optional, Required};

/// Whether the semicolon of a name may be left out.
#[derive(Clone, Copy)]
pub enum Semicolon {
    Optional,
    Required,
}

/// A name without its semicolon, its character, and whether the semicolon has to follow.
type Listed = (&'static str, char, Semicolon);

/// A name that a text begins with: its length in bytes, its character, and whether a semicolon ends it.
#[derive(Clone, Copy)]
pub struct FoundName {
    pub len: usize,
    pub character: char,
    pub is_closed: bool,
}

/// The names that begin with a letter. No name begins with another letter than these.
fn names_with_first(first: u8) -> &'static [Listed]
    ensures { map listed_of result.now ≡ listed_with_first first listed_names }
{
    match first {
        b'A' => &[
            ("AMP", '&', Optional),
            ("Agrave", '\u{C0}', Optional),
            ("Aacute", '\u{C1}', Optional),
            ("Acirc", '\u{C2}', Optional),
            ("Atilde", '\u{C3}', Optional),
            ("Auml", '\u{C4}', Optional),
            ("Aring", '\u{C5}', Optional),
            ("AElig", '\u{C6}', Optional),
        ],
        b'C' => &[("COPY", '\u{A9}', Optional), ("Ccedil", '\u{C7}', Optional)],
        b'D' => &[("Dagger", '\u{2021}', Required)],
        b'E' => &[
            ("Egrave", '\u{C8}', Optional),
            ("Eacute", '\u{C9}', Optional),
            ("Ecirc", '\u{CA}', Optional),
            ("Euml", '\u{CB}', Optional),
            ("ETH", '\u{D0}', Optional),
        ],
        b'G' => &[("GT", '>', Optional)],
        b'I' => &[
            ("Igrave", '\u{CC}', Optional),
            ("Iacute", '\u{CD}', Optional),
            ("Icirc", '\u{CE}', Optional),
            ("Iuml", '\u{CF}', Optional),
        ],
        b'L' => &[("LT", '<', Optional)],
        b'N' => &[("Ntilde", '\u{D1}', Optional)],
        b'O' => &[
            ("Ograve", '\u{D2}', Optional),
            ("Oacute", '\u{D3}', Optional),
            ("Ocirc", '\u{D4}', Optional),
            ("Otilde", '\u{D5}', Optional),
            ("Ouml", '\u{D6}', Optional),
            ("Oslash", '\u{D8}', Optional),
            ("OElig", '\u{152}', Required),
        ],
        b'Q' => &[("QUOT", '"', Optional)],
        b'R' => &[("REG", '\u{AE}', Optional)],
        b'S' => &[("Scaron", '\u{160}', Required)],
        b'T' => &[("THORN", '\u{DE}', Optional)],
        b'U' => &[
            ("Ugrave", '\u{D9}', Optional),
            ("Uacute", '\u{DA}', Optional),
            ("Ucirc", '\u{DB}', Optional),
            ("Uuml", '\u{DC}', Optional),
        ],
        b'Y' => &[
            ("Yacute", '\u{DD}', Optional),
            ("Yuml", '\u{178}', Required),
        ],
        b'a' => &[
            ("amp", '&', Optional),
            ("acute", '\u{B4}', Optional),
            ("agrave", '\u{E0}', Optional),
            ("aacute", '\u{E1}', Optional),
            ("acirc", '\u{E2}', Optional),
            ("atilde", '\u{E3}', Optional),
            ("auml", '\u{E4}', Optional),
            ("aring", '\u{E5}', Optional),
            ("aelig", '\u{E6}', Optional),
            ("apos", '\'', Required),
        ],
        b'b' => &[
            ("brvbar", '\u{A6}', Optional),
            ("bdquo", '\u{201E}', Required),
            ("bull", '\u{2022}', Required),
        ],
        b'c' => &[
            ("cent", '\u{A2}', Optional),
            ("curren", '\u{A4}', Optional),
            ("copy", '\u{A9}', Optional),
            ("cedil", '\u{B8}', Optional),
            ("ccedil", '\u{E7}', Optional),
        ],
        b'd' => &[
            ("deg", '\u{B0}', Optional),
            ("divide", '\u{F7}', Optional),
            ("dagger", '\u{2020}', Required),
            ("darr", '\u{2193}', Required),
        ],
        b'e' => &[
            ("egrave", '\u{E8}', Optional),
            ("eacute", '\u{E9}', Optional),
            ("ecirc", '\u{EA}', Optional),
            ("euml", '\u{EB}', Optional),
            ("eth", '\u{F0}', Optional),
            ("ensp", '\u{2002}', Required),
            ("emsp", '\u{2003}', Required),
            ("euro", '\u{20AC}', Required),
        ],
        b'f' => &[
            ("frac14", '\u{BC}', Optional),
            ("frac12", '\u{BD}', Optional),
            ("frac34", '\u{BE}', Optional),
            ("fnof", '\u{192}', Required),
        ],
        b'g' => &[("gt", '>', Optional), ("ge", '\u{2265}', Required)],
        b'h' => &[
            ("hellip", '\u{2026}', Required),
            ("harr", '\u{2194}', Required),
            ("hearts", '\u{2665}', Required),
        ],
        b'i' => &[
            ("iexcl", '\u{A1}', Optional),
            ("iquest", '\u{BF}', Optional),
            ("igrave", '\u{EC}', Optional),
            ("iacute", '\u{ED}', Optional),
            ("icirc", '\u{EE}', Optional),
            ("iuml", '\u{EF}', Optional),
            ("infin", '\u{221E}', Required),
        ],
        b'l' => &[
            ("lt", '<', Optional),
            ("laquo", '\u{AB}', Optional),
            ("lsquo", '\u{2018}', Required),
            ("ldquo", '\u{201C}', Required),
            ("lsaquo", '\u{2039}', Required),
            ("larr", '\u{2190}', Required),
            ("le", '\u{2264}', Required),
        ],
        b'm' => &[
            ("macr", '\u{AF}', Optional),
            ("micro", '\u{B5}', Optional),
            ("middot", '\u{B7}', Optional),
            ("mdash", '\u{2014}', Required),
            ("minus", '\u{2212}', Required),
        ],
        b'n' => &[
            ("nbsp", '\u{A0}', Optional),
            ("not", '\u{AC}', Optional),
            ("ntilde", '\u{F1}', Optional),
            ("ndash", '\u{2013}', Required),
            ("ne", '\u{2260}', Required),
        ],
        b'o' => &[
            ("ordf", '\u{AA}', Optional),
            ("ordm", '\u{BA}', Optional),
            ("ograve", '\u{F2}', Optional),
            ("oacute", '\u{F3}', Optional),
            ("ocirc", '\u{F4}', Optional),
            ("otilde", '\u{F5}', Optional),
            ("ouml", '\u{F6}', Optional),
            ("oslash", '\u{F8}', Optional),
            ("oelig", '\u{153}', Required),
        ],
        b'p' => &[
            ("pound", '\u{A3}', Optional),
            ("plusmn", '\u{B1}', Optional),
            ("para", '\u{B6}', Optional),
            ("permil", '\u{2030}', Required),
        ],
        b'q' => &[("quot", '"', Optional)],
        b'r' => &[
            ("reg", '\u{AE}', Optional),
            ("raquo", '\u{BB}', Optional),
            ("rsquo", '\u{2019}', Required),
            ("rdquo", '\u{201D}', Required),
            ("rsaquo", '\u{203A}', Required),
            ("rarr", '\u{2192}', Required),
        ],
        b's' => &[
            ("sect", '\u{A7}', Optional),
            ("shy", '\u{AD}', Optional),
            ("sup2", '\u{B2}', Optional),
            ("sup3", '\u{B3}', Optional),
            ("sup1", '\u{B9}', Optional),
            ("szlig", '\u{DF}', Optional),
            ("scaron", '\u{161}', Required),
            ("sbquo", '\u{201A}', Required),
        ],
        b't' => &[
            ("times", '\u{D7}', Optional),
            ("thorn", '\u{FE}', Optional),
            ("thinsp", '\u{2009}', Required),
            ("trade", '\u{2122}', Required),
        ],
        b'u' => &[
            ("uml", '\u{A8}', Optional),
            ("ugrave", '\u{F9}', Optional),
            ("uacute", '\u{FA}', Optional),
            ("ucirc", '\u{FB}', Optional),
            ("uuml", '\u{FC}', Optional),
            ("uarr", '\u{2191}', Required),
        ],
        b'y' => &[
            ("yen", '\u{A5}', Optional),
            ("yacute", '\u{FD}', Optional),
            ("yuml", '\u{FF}', Optional),
        ],
        b'z' => &[
            ("zwnj", '\u{200C}', Required),
            ("zwj", '\u{200D}', Required),
        ],
        _ => &[],
    }
}

/// Returns the longest name that the text begins with.
///
/// No name without its semicolon begins another, so the first match is the only one.
pub fn longest_name(text: &[u8]) -> Option<FoundName>
    ensures { result ≡ option_map found_name (longest names text.now) }
{
    match text {
        [] => None,
        [first, ..] => found_in(names_with_first(*first), text),
    }
}

#[tactic(auto, using(crate::proofs::FoundNames::begins_fits))]
fn found_in(names: &[Listed], text: &[u8]) -> Option<FoundName>
    ensures { result ≡ found_in (map listed_of names.now) text.now }
{
    for name in names {
        let spelling = name.0.as_bytes();
        if begins_with(spelling, text) {
            return found_at(name, &text[spelling.len()..]);
        }
    }
    None
}

/// Returns the name if `rest` may follow its spelling.
fn found_at(name: &Listed, rest: &[u8]) -> Option<FoundName>
    ensures { result ≡ found_at (listed_of name.now) rest.now }
{
    let (spelling, character, semicolon) = *name;
    let is_closed = begins_with(b";", rest);
    match semicolon {
        Required if !is_closed => None,
        _ => Some(FoundName {
            len: spelling.len() + is_closed as usize,
            character,
            is_closed,
        }),
    }
}

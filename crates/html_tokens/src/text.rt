//! Text between tags (HTML Standard 13.2.5.1).
ghost use Rattle.std.specs.Prelude.{◌≡◌, ◌++◌, ◌<◌, length, take, drop, true, IsCharBoundary};
ghost use Rattle.html_syntax.specs.States.State.{Data};
ghost use Rattle.html_syntax.specs.Tokenizer.{read, chars as char_tokens};
ghost use Rattle.html_references.specs.Input.{input, read_as};
ghost use Rattle.html_tokens.specs.Scanned.{opens_markup as opens};
ghost use Rattle.html_references.specs.declared.stretch.ReadAs.TheVariants.{Text};

use crate::cuts::skip_to_byte;

/// Whether a text begins with markup: `<` and a letter, `!` or `?`, or `</` and anything.
pub fn opens_markup(rest: &str) -> bool
    ensures { result ≡ opens rest.now }
{
    match rest.as_bytes() {
        [b'<', next, more @ ..] => {
            next.is_ascii_alphabetic()
                || *next == b'!'
                || *next == b'?'
                || (*next == b'/' && !more.is_empty())
        }
        _ => false,
    }
}

/// The length of the run of characters that a text begins with, up to markup or the text's end.
pub fn text_end(rest: &str) -> usize
    ensures boundary { IsCharBoundary rest.now result }
    ensures reads { read Data 0 (input rest.now) ≡ char_tokens (read_as Text (input (take result rest.now))) ++ read Data 0 (input (drop result rest.now)) }
    ensures ends { result < length rest.now → opens (drop result rest.now) ≡ true }
{
    let mut at = skip_to_byte(b'<', rest);
    while at < rest.len() && !opens_markup(&rest[at..]) {
        at += 1 + skip_to_byte(b'<', &rest[at + 1..]);
    }
    at
}

//! Splits a text into lines.
ghost use Rattle.std.specs.Prelude.{◌≡◌, ◌∷◌, [], ◌<◌, length, MatchOption, IfSome};
ghost use Rattle.flowed_text.specs.Lines.{skip_line_ending, lines, strip_first};

use memchr::memchr2;

/// Splits after the first line of a text, and returns it without its ending; `None` if there is none.
pub fn split_line(text: &str) -> Option<(&str, &str)>
    ensures lines { MatchOption result (lines text.now ≡ []) (λ cut. lines text.now ≡ cut.0.now ∷ lines cut.1.now) }
    ensures shorter { IfSome result (λ cut. length cut.1.now < length text.now) }
{
    if text.is_empty() {
        return None;
    }
    match memchr2(b'\r', b'\n', text.as_bytes()) {
        Some(end) => {
            let (line, ending) = text.split_at(end);
            Some((line, skip_line_ending(ending)))
        }
        None => Some((text, "")),
    }
}

/// The text without the line ending at its front.
fn skip_line_ending(text: &str) -> &str
    ensures { result.now ≡ skip_line_ending text.now }
{
    match text.strip_prefix('\r') {
        Some(rest) => strip_first(rest, '\n'),
        None => strip_first(text, '\n'),
    }
}

/// The text without its first character, if that is `character`.
pub fn strip_first(text: &str, character: char) -> &str
    requires { character < 128 }
    ensures { result.now ≡ strip_first character text.now }
{
    match text.strip_prefix(character) {
        Some(rest) => rest,
        None => text,
    }
}

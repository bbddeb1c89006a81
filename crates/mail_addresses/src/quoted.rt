//! Quoted strings.
ghost use Rattle.std.specs.Prelude.{◌≡◌, take, drop};
ghost use Rattle.mail_addresses.specs.Runs.{ReadsAs};
ghost use Rattle.mail_addresses.specs.Boxes.{escaped_len, quoted_at};

use crate::reading::Stop;
use crate::runs::{Class, expect_byte, strip_byte, take_while};
use mail_values::Text;
use std::alloc::Global;

/// Reads a quoted string after its opening quote: its text, and what comes after its closing quote.
pub fn quoted(alloc: Global, text: &str) -> Result<(Text, &str), Stop>
    ensures { ReadsAs (λ x. (x.0, x.1.now)) result (quoted_at text.now) }
{
    let mut name = String::new(alloc);
    let mut rest = text;
    loop {
        let (run, mark) = take_while(Class::Quoted, rest);
        name.push_str(run)?;
        if let Some(after) = strip_byte('"', mark) {
            return Ok((Text::from_string(name), after));
        }
        let after = expect_byte('\\', mark)?;
        let (escaped, more) = split_escaped(after);
        name.push_str(escaped)?;
        rest = more;
    }
}

/// The length of the quote or `\` that a `\` before it escapes. Any other character is the same without it.
fn escaped_len(text: &str) -> usize
    ensures { result ≡ escaped_len text.now }
{
    match text.as_bytes() {
        [b'"', ..] => 1,
        [b'\\', ..] => 1,
        _ => 0,
    }
}

/// Splits after what a `\` before the text escapes.
fn split_escaped(text: &str) -> (&str, &str)
    ensures mark { result.0.now ≡ take (escaped_len text.now) text.now }
    ensures rest { result.1.now ≡ drop (escaped_len text.now) text.now }
{
    text.split_at(escaped_len(text))
}

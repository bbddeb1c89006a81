//! Pieces of a text, which are lent where they read as they are written.
ghost use Rattle.std.specs.Prelude.{◌≡◌, true, chars};
ghost use Rattle.html_references.specs.Input.{input, read_as, no_special};
ghost use Rattle.html_references.specs.declared.stretch.ReadAs.{ReadAs};

use crate::Token;
use memchr::memchr3;

/// A run of characters that is lent, or a token that was made.
#[derive(Drop)]
pub enum Lexeme<'t> {
    Lent(&'t str),
    Made(Token),
}

/// Whether a text has no `&`, CR and U+0000, and so reads as it is written.
pub fn is_plain(text: &str) -> bool
    ensures value { result ≡ no_special text.now }
    ensures reads { result ≡ true → (r : ReadAs) → chars text.now ≡ read_as r (input text.now) }
{
    memchr3(b'&', b'\r', 0, text.as_bytes()).is_none()
}

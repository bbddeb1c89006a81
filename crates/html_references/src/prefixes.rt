//! Tests of the word that a text begins with.
ghost use Rattle.std.specs.Prelude.{◌≡◌};
ghost use Rattle.html_syntax.specs.References.{begins_with};
ghost use Rattle.html_references.specs.Prefixes.{begins_ignore_case};

/// Whether a text begins with a word.
pub fn begins_with(word: &[u8], text: &[u8]) -> bool
    ensures { result ≡ begins_with word.now text.now }
{
    match word {
        [] => true,
        [w, word @ ..] => match text {
            [] => false,
            [c, text @ ..] => *w == *c && begins_with(word, text),
        },
    }
}

/// Whether a text begins with a word, whatever the case of its ASCII letters. The word is in lower case.
pub fn begins_ignore_case(word: &[u8], text: &[u8]) -> bool
    ensures { result ≡ begins_ignore_case word.now text.now }
{
    match word {
        [] => true,
        [w, word @ ..] => match text {
            [] => false,
            [c, text @ ..] => *w == c.to_ascii_lowercase() && begins_ignore_case(word, text),
        },
    }
}

//! Classes of characters, and white space.
ghost use Rattle.std.specs.Prelude.{◌≡◌};
ghost use Rattle.style_wash.specs.Characters.{is_digit, is_letter, is_name_char, is_quote, is_separator, is_word_char, trimmed, without_back};

pub fn is_digit(c: u8) -> bool
    ensures { result ≡ is_digit c }
{
    c.is_ascii_digit()
}

pub fn is_letter(c: u8) -> bool
    ensures { result ≡ is_letter c }
{
    c.is_ascii_alphabetic()
}

pub fn is_word_char(c: u8) -> bool
    ensures { result ≡ is_word_char c }
{
    c.is_ascii_alphanumeric() || c == b'-'
}

pub fn is_name_char(c: u8) -> bool
    ensures { result ≡ is_name_char c }
{
    is_word_char(c) || c == b' '
}

pub fn is_quote(c: u8) -> bool
    ensures { result ≡ is_quote c }
{
    c == b'\'' || c == b'"'
}

pub fn is_separator(c: u8) -> bool
    ensures { result ≡ is_separator c }
{
    c.is_ascii_whitespace() || c == b',' || c == b'/'
}

pub fn trim(text: &[u8]) -> &[u8]
    ensures { result.now ≡ trimmed text.now }
{
    text.trim_ascii()
}

pub fn trim_back(text: &[u8]) -> &[u8]
    ensures { result.now ≡ without_back text.now }
{
    text.trim_ascii_end()
}

//! The tag, comment or DOCTYPE that a `<` opens (HTML Standard 13.2.5.6, 13.2.5.7 and 13.2.5.42).
ghost use Rattle.std.specs.Prelude.{◌≡◌, true, false, drop, zero, IsCharBoundary};
ghost use Rattle.html_syntax.specs.States.State.{Data};
ghost use Rattle.html_syntax.specs.Tokenizer.{read};
ghost use Rattle.html_references.specs.Input.{input};
ghost use Rattle.html_tokens.specs.Scanned.{opens_markup};
ghost use Rattle.html_tokens.specs.Openings.{opening_len, state_after_opening, begins_empty_tag as is_empty_tag, opening_after_bang, opening_after_solidus, opening_of, OpensTag};

use html_references::prefixes::{begins_ignore_case, begins_with};

/// The kind of markup that a `<` opens.
#[derive(Clone, Copy)]
pub enum Opening {
    StartTag,
    EndTag,
    /// `<!--`
    Comment,
    /// `<?`: a bogus comment whose text begins with the `?`.
    Question,
    /// `<!` or `</` before a bogus comment.
    Bogus,
    /// `<!doctype`
    Doctype,
}

/// Whether a text begins with `</>`.
pub fn begins_empty_tag(rest: &str) -> bool
    ensures { result ≡ is_empty_tag rest.now }
{
    match rest.as_bytes() {
        [b'<', b'/', b'>', ..] => true,
        _ => false,
    }
}

/// The kind of markup that `<!` opens before a text.
fn opening_after_bang(text: &[u8]) -> Opening
    ensures { result ≡ opening_after_bang text.now }
{
    if begins_with(b"--", text) {
        Opening::Comment
    } else if begins_ignore_case(b"doctype", text) {
        Opening::Doctype
    } else {
        Opening::Bogus
    }
}

/// The kind of markup that `</` opens before a text.
fn opening_after_solidus(text: &[u8]) -> Opening
    ensures { result ≡ opening_after_solidus text.now }
{
    match text {
        [] => Opening::Bogus,
        [c, ..] => if c.is_ascii_alphabetic() {
            Opening::EndTag
        } else {
            Opening::Bogus
        },
    }
}

/// The kind of markup that the bytes begin with.
fn opening_of(bytes: &[u8]) -> Opening
    ensures { result ≡ opening_of bytes.now }
{
    match bytes {
        [_, next, more @ ..] => match *next {
            b'!' => opening_after_bang(more),
            b'?' => Opening::Question,
            b'/' => opening_after_solidus(more),
            _ => Opening::StartTag,
        },
        _ => Opening::StartTag,
    }
}

/// Returns the kind of markup that a text begins with.
pub fn opening_at(rest: &str) -> Opening
    requires opens { opens_markup rest.now ≡ true }
    requires nonempty { is_empty_tag rest.now ≡ false }
    ensures boundary { IsCharBoundary rest.now (opening_len result) }
    ensures reads { read Data 0 (input rest.now) ≡ read (state_after_opening result) 0 (input (drop (opening_len result) rest.now)) }
    ensures tag { OpensTag rest.now result }
{
    opening_of(rest.as_bytes())
}

/// Length of the leading run of `</>`, which yields no token.
pub fn empty_tags_len(rest: &str) -> usize
    ensures boundary { IsCharBoundary rest.now result }
    ensures reads { read Data 0 (input rest.now) ≡ read Data 0 (input (drop result rest.now)) }
    ensures ends_run { is_empty_tag (drop result rest.now) ≡ false }
{
    let mut at = 0;
    while begins_empty_tag(&rest[at..]) {
        at += 3;
    }
    at
}

//! Comments and DOCTYPEs (HTML Standard 13.2.5.41 to 13.2.5.68).
ghost use Rattle.std.specs.Prelude.{◌≡◌, ◌≤◌, ◌<◌, ◌∷◌, [], zero, length, take, drop, map, IsCharBoundary};
ghost use Rattle.html_syntax.specs.Token.Token.{Comment, Doctype};
ghost use Rattle.html_syntax.specs.States.{replace_null};
ghost use Rattle.html_syntax.specs.States.State.{Data, Bogus, CommentStart, CommentBody, DoctypeBody};
ghost use Rattle.html_syntax.specs.Tokenizer.{read};
ghost use Rattle.html_references.specs.Input.{input};
ghost use Rattle.html_tokens.specs.Cuts.{LacksByte, IsCutAt};
ghost use Rattle.html_tokens.specs.Closings.{closing_len_after_hyphens, closing_len, abrupt_len};

use crate::cuts::skip_to_byte;

/// A prefix of a text: its length, and the offset after the bytes that end it.
#[derive(Clone, Copy)]
pub struct Cut {
    pub len: usize,
    pub end: usize,
}

/// The length of the ending whose two hyphens are right before the bytes.
fn closing_len_after_hyphens(bytes: &[u8]) -> usize
    ensures { result ≡ closing_len_after_hyphens bytes.now }
{
    match bytes {
        [] => 2,
        [c] => if *c == b'>' || *c == b'!' { 3 } else { 0 },
        [c, next, ..] => {
            if *c == b'>' {
                3
            } else if *c == b'!' && *next == b'>' {
                4
            } else {
                0
            }
        }
    }
}

/// The length of the ending that the text begins with: `-->` or `--!>`, or the part of them before the text's end. 0 if the
/// comment goes on.
fn closing_len(rest: &str) -> usize
    ensures { result ≡ closing_len rest.now }
{
    match rest.as_bytes() {
        [] => 0,
        [c] => if *c == b'-' { 1 } else { 0 },
        [c, next, more @ ..] => {
            if *c == b'-' && *next == b'-' {
                closing_len_after_hyphens(more)
            } else {
                0
            }
        }
    }
}

/// The length of `>` or `->`, which end a comment right at its beginning, else 0.
fn abrupt_len(rest: &str) -> usize
    ensures { result ≡ abrupt_len rest.now }
{
    match rest.as_bytes() {
        [] => 0,
        [c] => if *c == b'>' { 1 } else { 0 },
        [c, next, ..] => {
            if *c == b'>' {
                1
            } else if *c == b'-' && *next == b'>' {
                2
            } else {
                0
            }
        }
    }
}

/// The length of a comment's text that doesn't end right at its beginning.
fn body_end(rest: &str) -> usize
    ensures boundary { IsCharBoundary rest.now result }
    ensures reads { read (CommentBody []) 0 (input rest.now) ≡ read (CommentBody (map replace_null (input (take result rest.now)))) 0 (input (drop result rest.now)) }
    ensures closes { result < length rest.now → 0 < closing_len (drop result rest.now) }
{
    let mut at = skip_to_byte(b'-', rest);
    while at < rest.len() && closing_len(&rest[at..]) == 0 {
        at += 1 + skip_to_byte(b'-', &rest[at + 1..]);
    }
    at
}

/// Cuts the text after `<!--` at the end of the comment.
pub fn comment(rest: &str) -> Cut
    ensures len { IsCharBoundary rest.now result.len }
    ensures end { IsCharBoundary rest.now result.end }
    ensures ordered { result.len ≤ result.end }
    ensures reads { read (CommentStart []) 0 (input rest.now) ≡ Comment (map replace_null (input (take result.len rest.now))) ∷ read Data 0 (input (drop result.end rest.now)) }
{
    let abrupt = abrupt_len(rest);
    if abrupt > 0 {
        Cut {
            len: 0,
            end: abrupt,
        }
    } else {
        let len = body_end(rest);
        Cut {
            len,
            end: len + closing_len(&rest[len..]),
        }
    }
}

/// Cuts a text before and after the first occurrence of an ASCII byte.
pub fn cut_at_byte(byte: u8, rest: &str) -> Cut
    requires { byte < 128 }
    ensures len { IsCharBoundary rest.now result.len }
    ensures end { IsCharBoundary rest.now result.end }
    ensures ordered { result.len ≤ result.end }
    ensures lacks { LacksByte byte (take result.len rest.now) }
    ensures ends { IsCutAt byte rest.now result.len result.end }
{
    let len = skip_to_byte(byte, rest);
    let end = if len < rest.len() { len + 1 } else { len };
    Cut { len, end }
}

/// Cuts the text of a bogus comment at the first `>`.
pub fn bogus_comment(rest: &str) -> Cut
    ensures len { IsCharBoundary rest.now result.len }
    ensures end { IsCharBoundary rest.now result.end }
    ensures ordered { result.len ≤ result.end }
    ensures reads { read (Bogus []) 0 (input rest.now) ≡ Comment (map replace_null (input (take result.len rest.now))) ∷ read Data 0 (input (drop result.end rest.now)) }
{
    cut_at_byte(b'>', rest)
}

/// The offset after the first `>`, where a DOCTYPE ends.
pub fn doctype_end(rest: &str) -> usize
    ensures boundary { IsCharBoundary rest.now result }
    ensures reads { read DoctypeBody 0 (input rest.now) ≡ Doctype ∷ read Data 0 (input (drop result rest.now)) }
{
    cut_at_byte(b'>', rest).end
}

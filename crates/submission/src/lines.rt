//! Lines of replies.
ghost use Rattle.std.specs.Prelude.{◌≡◌, ◌&&◌, IsTrue};
ghost use Rattle.std.specs.Char.{is_ascii_digit};
ghost use Rattle.submission.specs.Replies.{code_of, line_after, line_of, line_seen};

/// What a line of a reply is.
#[derive(Clone, Copy)]
pub enum Line {
    /// The last one, with the reply's code.
    Last(u16),
    /// One before the last.
    More,
    /// None of a reply.
    NoReply,
}

/// Returns the number that three digits are.
fn code_of(a: u8, b: u8, c: u8) -> u16
    requires digits { IsTrue (is_ascii_digit a && is_ascii_digit b && is_ascii_digit c) }
    ensures { result ≡ code_of a b c }
{
    100 * (a - b'0') as u16 + 10 * (b - b'0') as u16 + (c - b'0') as u16
}

fn line_after(code: u16, rest: &[u8]) -> Line
    ensures { line_seen result ≡ line_after code rest.now }
{
    match rest {
        [] => Line::Last(code),
        [b' ', ..] => Line::Last(code),
        [b'-', ..] => Line::More,
        _ => Line::NoReply,
    }
}

/// Returns what a line is, without its CR LF.
#[tactic(auto, unfolding(crate::specs::Replies::line_of))]
pub fn line_of(line: &[u8]) -> Line
    ensures { line_seen result ≡ line_of line.now }
{
    let [a, b, c, rest @ ..] = line else {
        return Line::NoReply;
    };
    if a.is_ascii_digit() && b.is_ascii_digit() && c.is_ascii_digit() {
        line_after(code_of(*a, *b, *c), rest)
    } else {
        Line::NoReply
    }
}

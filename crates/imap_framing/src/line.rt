//! The ends of the lines of a unit.
ghost use Rattle.std.specs.Prelude.{◌≡◌, ◌+◌, ◌-◌, ◌*◌, ◌≤◌, ◌==◌, length};
ghost use Rattle.std.specs.List.{position_or_len, prefix_len};
ghost use Rattle.imap_framing.specs.Lines.{Tail, is_status, not_space, has_literals, tail_of, tail_with};
ghost use Rattle.imap_framing.specs.Units.{after_line_feed, after_line};
ghost use Rattle.imap_framing.specs.Scans.{capped, brace_of_tail, SizeOfTail, state_after_line_feed};

use memchr::memchr;

/// The maximum number of octets in a literal.
pub const LIMIT: usize = 33_554_432;

/// What a line ends with so far. A number above the limit is kept as the limit and one.
#[derive(Clone, Copy)]
pub enum Brace {
    /// No part of a literal's size.
    Out,
    /// `{`
    Open,
    /// `{` and digits.
    Number(usize),
    /// `{`, digits and `}`.
    Size(usize),
}

/// What an LF means for the line before it.
#[derive(Clone, Copy)]
pub enum Ending {
    /// The line goes on: there is no CR before the LF.
    NotEnded,
    /// The line is the last of its unit.
    Ends,
    /// The line ends with the size of a literal that is too long.
    TooLong,
    /// The line ends with the size of a literal.
    Literal(usize),
}

/// The offset of the first such byte, or the length.
pub fn find_byte(byte: u8, text: &[u8]) -> usize
    ensures equals { result ≡ position_or_len (λ b. b == byte) text.now }
    ensures within { result ≤ length text.now }
{
    match memchr(byte, text) {
        Some(at) => at,
        None => text.len(),
    }
}

fn append_digit(number: usize, digit: u8) -> usize
    requires { (48 ≤ digit) × (digit ≤ 57) }
    ensures { result ≡ capped (number * 10 + (digit - 48)) }
{
    if number > LIMIT {
        return LIMIT + 1;
    }
    (number * 10 + (digit - 48) as usize).min(LIMIT + 1)
}

fn next_brace(brace: Brace, byte: u8) -> Brace
    ensures { (tail : Tail) → brace ≡ brace_of_tail tail → result ≡ brace_of_tail (tail_with tail byte) }
{
    match (brace, byte) {
        (_, b'{') => Brace::Open,
        (Brace::Open, b'0'..=b'9') => Brace::Number((byte - b'0') as usize),
        (Brace::Number(number), b'0'..=b'9') => Brace::Number(append_digit(number, byte)),
        (Brace::Number(number), b'}') => Brace::Size(number),
        _ => Brace::Out,
    }
}

fn brace_of(line: &[u8]) -> Brace
    ensures { result ≡ brace_of_tail (tail_of line.now) }
{
    let mut brace = Brace::Out;
    for byte in line {
        brace = next_brace(brace, *byte);
    }
    brace
}

/// The size of a literal at the end of a line.
fn size_at_end(line: &[u8]) -> Option<usize>
    ensures { SizeOfTail result (tail_of line.now) }
{
    // Most lines end with no size, and are not read for one.
    if !line.ends_with(b"}") {
        return None;
    }
    match brace_of(line) {
        Brace::Size(size) => Some(size),
        _ => None,
    }
}

fn is_status(word: &[u8]) -> bool
    ensures { result ≡ is_status word.now }
{
    word.eq_ignore_ascii_case(b"ok")
        || word.eq_ignore_ascii_case(b"no")
        || word.eq_ignore_ascii_case(b"bad")
        || word.eq_ignore_ascii_case(b"bye")
        || word.eq_ignore_ascii_case(b"preauth")
}

/// Whether a unit with this first line has literals.
fn has_literals(line: &[u8]) -> bool
    ensures { result ≡ has_literals line.now }
{
    match line {
        [b'*', b' ', text @ ..] => !is_status(&text[..find_byte(b' ', text)]),
        _ => false,
    }
}

/// What a CR LF means for the line before it.
fn line_ending(first: bool, line: &[u8]) -> Ending
    ensures { state_after_line_feed result first line.now ≡ after_line first line.now }
{
    if first && !has_literals(line) {
        return Ending::Ends;
    }
    match size_at_end(line) {
        Some(size) if size > LIMIT => Ending::TooLong,
        Some(size) => Ending::Literal(size),
        None => Ending::Ends,
    }
}

/// What an LF means for the bytes of the line before it.
pub fn ending_at_line_feed(first: bool, line: &[u8]) -> Ending
    ensures { state_after_line_feed result first line.now ≡ after_line_feed first line.now }
{
    match line {
        [text @ .., b'\r'] => line_ending(first, text),
        _ => Ending::NotEnded,
    }
}

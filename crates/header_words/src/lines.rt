//! Lines and bytes of a header.
ghost use Rattle.std.specs.Prelude.{◌≡◌, ◌≤◌, ◌==◌, length, position};
ghost use Rattle.std.specs.List.{list_all, position_or_len};
ghost use Rattle.std.specs.Str.Lines.{strip_carriage_return};
ghost use Rattle.header_words.specs.Lines.{first_text, first_size};
ghost use Rattle.header_words.specs.Fields.{is_name_byte, is_colon, is_continuation, begins_field, value_of};

use memchr::memchr;

/// Returns the first line without its ending, and how many bytes it takes with it.
pub fn first_line(rest: &[u8]) -> (&[u8], usize)
    ensures text { result.0.now ≡ first_text rest.now }
    ensures size { result.1 ≡ first_size rest.now }
{
    match position(b'\n', rest) {
        Some(end) => (without_return(&rest[..end]), end + 1),
        None => (rest, rest.len()),
    }
}

/// Returns the place of the first such byte, byte by byte: faster than a search by words where it is near, as in a header.
fn position(byte: u8, bytes: &[u8]) -> Option<usize>
    ensures { result ≡ position (λ b. b == byte) bytes.now }
{
    bytes.iter().position(|b| *b == byte)
}

/// Returns the place of the first such byte, or the length if there is none.
pub fn find_byte(byte: u8, bytes: &[u8]) -> usize
    ensures equals { result ≡ position_or_len (λ b. b == byte) bytes.now }
    ensures within { result ≤ length bytes.now }
{
    match memchr(byte, bytes) {
        Some(at) => at,
        None => bytes.len(),
    }
}

fn without_return(line: &[u8]) -> &[u8]
    ensures { result.now ≡ strip_carriage_return line.now }
{
    match line {
        [before @ .., b'\r'] => before,
        _ => line,
    }
}

/// Returns the place of a line's first colon, or its length.
pub fn colon_of(line: &[u8]) -> usize
    ensures { result ≡ position_or_len is_colon line.now }
{
    match position(b':', line) {
        Some(colon) => colon,
        None => line.len(),
    }
}

/// Returns the bytes after a line's first colon.
pub fn after_colon(line: &[u8]) -> &[u8]
    ensures { result.now ≡ value_of line.now }
{
    let colon = colon_of(line);
    if colon < line.len() {
        &line[colon + 1..]
    } else {
        &[]
    }
}

/// Returns whether a line begins a field. Its first byte alone rules out most continuations.
pub fn is_field(line: &[u8]) -> bool
    ensures { result ≡ begins_field line.now }
{
    match line {
        [first, ..] => is_name_byte(*first) && has_name(line),
        [] => false,
    }
}

/// Returns whether a line begins with a name and a colon.
fn has_name(line: &[u8]) -> bool
    ensures { result ≡ begins_field line.now }
{
    let colon = colon_of(line);
    colon < line.len() && colon > 0 && is_name(&line[..colon])
}

fn is_name(name: &[u8]) -> bool
    ensures { result ≡ list_all is_name_byte name.now }
{
    name.iter().all(|b| is_name_byte(*b))
}

fn is_name_byte(byte: u8) -> bool
    ensures { result ≡ is_name_byte byte }
{
    byte >= 33 && byte <= 126
}

/// Returns whether a line continues the field before it.
pub fn is_continuation(line: &[u8]) -> bool
    ensures { result ≡ is_continuation line.now }
{
    match line {
        [b' ' | b'\t', ..] => true,
        _ => false,
    }
}

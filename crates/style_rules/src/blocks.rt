//! The blocks of a style sheet.
ghost use Rattle.std.specs.Prelude.{◌≡◌, ◌==◌, ◌≤◌, ◌<◌, ◌+◌, IfSome, MatchOption, None, Some, length, slice_index};
ghost use Rattle.std.specs.List.{position_or_len};
ghost use Rattle.std.specs.Str.{IsUtf8};
ghost use Rattle.style_wash.specs.Characters.{is_white};
ghost use Rattle.style_rules.specs.Blocks.{body_len as body_len_of, depth_after as depth_after_of, first_block as first_block_of};

use memchr::memchr;

/// A block: its prelude, and its body between the braces.
#[derive(Clone, Copy)]
pub struct Block<'a> {
    pub prelude: &'a str,
    pub body: &'a str,
}

/// Returns the first block of a text and the text after it, if the block is whole.
pub fn first_block(text: &str) -> Option<(Block<'_>, &str)>
    ensures { MatchOption result (first_block_of text.now ≡ None)
        (λ found. (first_block_of text.now ≡ Some (record { block = record { prelude = found.0.prelude.now; body = found.0.body.now }; rest = found.1.now })) × (length found.1.now < length text.now) × IsUtf8 found.1.now) }
{
    let start = find_byte(b'{', text.as_bytes());
    if start == text.len() {
        return None;
    }
    let after = &text[start + 1..];
    match body_len(after.as_bytes()) {
        None => None,
        Some(size) => {
            let block = Block {
                prelude: &text[..start],
                body: &after[..size],
            };
            Some((block, &after[size + 1..]))
        }
    }
}

/// The offset of the first such byte, or the length.
pub fn find_byte(byte: u8, text: &[u8]) -> usize
    ensures equals { result ≡ position_or_len (λ b. b == byte) text.now }
    ensures within { result ≤ length text.now }
    ensures byte { result < length text.now → slice_index text.now result ≡ byte }
{
    match memchr(byte, text) {
        Some(at) => at,
        None => text.len(),
    }
}

/// The length in bytes of the body that a text begins with, if it is closed.
fn body_len(text: &[u8]) -> Option<usize>
    ensures equals { result ≡ body_len_of 0 text.now }
    ensures within { IfSome result (λ size. size < length text.now) }
    ensures brace { IfSome result (λ size. slice_index text.now size ≡ 125) }
{
    let mut depth: usize = 0;
    for (i, c) in text.iter().enumerate() {
        if *c == b'}' && depth == 0 {
            return Some(i);
        }
        depth = depth_after(depth, *c);
    }
    None
}

/// The number of open braces after a byte.
fn depth_after(depth: usize, c: u8) -> usize
    requires { depth < 18446744073709551615 }
    ensures equals { result ≡ depth_after_of depth c }
    ensures grows { result ≤ depth + 1 }
{
    if c == b'{' {
        depth + 1
    } else if c == b'}' && depth > 0 {
        depth - 1
    } else {
        depth
    }
}

/// The offset of the first white space, or the length.
pub fn find_white(text: &[u8]) -> usize
    ensures equals { result ≡ position_or_len is_white text.now }
    ensures within { result ≤ length text.now }
{
    for (i, c) in text.iter().enumerate() {
        if c.is_ascii_whitespace() {
            return i;
        }
    }
    text.len()
}

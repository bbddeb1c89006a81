//! Comments in style sheets.
ghost use Rattle.std.specs.Prelude.{◌≡◌, ◌≤◌, ◌<◌, ◌++◌, ◌∷◌, IfOk, MatchOption, drop, length, take};
ghost use Rattle.std.specs.Str.{IsUtf8};
ghost use Rattle.std.specs.String.{string_bytes};
ghost use Rattle.style_rules.specs.Blocks.{comment_len as comment_len_of, comment_rest as comment_rest_of, spaced};

use std::alloc::{AllocError as Memory, Global};

/// Returns a text with a space in place of each comment, `<!--` and `-->`.
pub fn space_comments(alloc: Global, text: &str) -> Result<String, Memory>
    ensures { IfOk result (λ out. string_bytes out ≡ spaced text.now) }
{
    let mut out = String::with_capacity(alloc, text.len())?;
    let mut rest = text;
    while let Some((front, after)) = split_comment(rest) {
        out.push_str(front)?;
        out.push(' ')?;
        rest = after;
    }
    out.push_str(rest)?;
    Ok(out)
}

/// Splits at the first comment or mark.
fn split_comment(text: &str) -> Option<(&str, &str)>
    ensures { MatchOption result (spaced text.now ≡ text.now)
        (λ parts. (spaced text.now ≡ parts.0.now ++ 32 ∷ spaced parts.1.now) × (length parts.1.now < length text.now) × IsUtf8 parts.1.now) }
{
    let at = comment_start(text.as_bytes());
    if at == text.len() {
        return None;
    }
    let size = comment_len(&text.as_bytes()[at..]);
    Some((&text[..at], &text[at + size..]))
}

/// The offset of the first comment or mark, or the length.
fn comment_start(text: &[u8]) -> usize
    ensures within { result ≤ length text.now }
    ensures spaced { spaced text.now ≡ take result text.now ++ spaced (drop result text.now) }
    ensures comment { result < length text.now → 0 < comment_len_of (drop result text.now) }
{
    let mut at = 0;
    while at < text.len() {
        if comment_len(&text[at..]) > 0 {
            return at;
        }
        at += 1;
    }
    at
}

/// The length in bytes of the comment or mark at the front of a text, or 0.
#[tactic(auto, unfolding(crate::specs::Blocks::comment_len))]
fn comment_len(text: &[u8]) -> usize
    ensures equals { result ≡ comment_len_of text.now }
    ensures within { result ≤ length text.now }
{
    if text.starts_with(b"/*") {
        comment_rest(&text[2..]) + 2
    } else if text.starts_with(b"<!--") {
        4
    } else if text.starts_with(b"-->") {
        3
    } else {
        0
    }
}

/// The length in bytes of the rest of a comment.
fn comment_rest(text: &[u8]) -> usize
    ensures equals { result ≡ comment_rest_of text.now }
    ensures within { result ≤ length text.now }
{
    let mut size = 0;
    while size < text.len() {
        if text[size..].starts_with(b"*/") {
            return size + 2;
        }
        size += 1;
    }
    size
}

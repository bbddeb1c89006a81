//! Values of any kind, which are skipped (RFC 9051 §4).

ghost use Rattle.std.specs.Prelude.{◌≡◌, ◌≤◌, ◌<◌, ◌+◌, ◌^◌, length, IfOk};
ghost use Rattle.imap_values.specs.Words.{ParsesAs};
ghost use Rattle.imap_values.specs.Values.{atom_token_at, literal_token_at, tilde_token_at, token_at, depth_after, tokens_end_at, value_end_at};

use crate::error::ParseError;
use crate::strings::{literal, quoted_raw};
use crate::words::{Class, take_while1};

/// The tokens of a value.
#[derive(Clone, Copy)]
pub enum Token {
    Open,
    Close,
    Space,
    /// A string or an atom.
    Text,
}

fn atom_token(bytes: &[u8]) -> Result<(Token, &[u8]), ParseError>
    ensures { ParsesAs (λ x. (x.0, x.1.now)) result (atom_token_at bytes.now) }
{
    let (_, rest) = take_while1(Class::Atom, bytes)?;
    Ok((Token::Text, rest))
}

fn literal_token(bytes: &[u8]) -> Result<(Token, &[u8]), ParseError>
    ensures { ParsesAs (λ x. (x.0, x.1.now)) result (literal_token_at bytes.now) }
{
    let (_, rest) = literal(bytes)?;
    Ok((Token::Text, rest))
}

/// Reads a literal8, or an atom that begins with `~`.
fn tilde_token<'a>(whole: &'a [u8], bytes: &'a [u8]) -> Result<(Token, &'a [u8]), ParseError>
    ensures { ParsesAs (λ x. (x.0, x.1.now)) result (tilde_token_at whole.now bytes.now) }
{
    match bytes {
        [] => atom_token(whole),
        [b'{', rest @ ..] => literal_token(rest),
        _ => atom_token(whole),
    }
}

#[tactic(auto, unfolding(crate::specs::Values::token_at))]
fn read_token(bytes: &[u8]) -> Result<(Token, &[u8]), ParseError>
    ensures { ParsesAs (λ x. (x.0, x.1.now)) result (token_at bytes.now) }
{
    match bytes {
        [] => Err(ParseError::NotInGrammar),
        [b'(', rest @ ..] => Ok((Token::Open, rest)),
        [b')', rest @ ..] => Ok((Token::Close, rest)),
        [b' ', rest @ ..] => Ok((Token::Space, rest)),
        [b'"', rest @ ..] => {
            let (_, rest) = quoted_raw(rest)?;
            Ok((Token::Text, rest))
        }
        [b'{', rest @ ..] => literal_token(rest),
        [b'~', rest @ ..] => tilde_token(bytes, rest),
        _ => atom_token(bytes),
    }
}

/// The number of open lists after a token.
fn depth_after(depth: usize, token: Token) -> Result<usize, ParseError>
    requires { depth < 2 ^ 63 }
    ensures parses { ParsesAs (λ x. x) result (depth_after depth token) }
    ensures within { IfOk result (λ x. x ≤ depth + 1) }
{
    match token {
        Token::Open => Ok(depth + 1),
        Token::Close => {
            if depth == 0 {
                return Err(ParseError::NotInGrammar);
            }
            Ok(depth - 1)
        }
        Token::Space => {
            if depth == 0 {
                return Err(ParseError::NotInGrammar);
            }
            Ok(depth)
        }
        Token::Text => Ok(depth),
    }
}

/// Skips a value, and returns the rest. Lists are counted, not recursed into, so no depth is refused.
pub fn skip_value(bytes: &[u8]) -> Result<&[u8], ParseError>
    ensures { ParsesAs (λ x. x.now) result (value_end_at bytes.now) }
{
    let mut left = bytes;
    let mut depth = 0;
    for _ in 0..bytes.len() {
        let (token, rest) = read_token(left)?;
        depth = depth_after(depth, token)?;
        if depth == 0 {
            return Ok(rest);
        }
        left = rest;
    }
    Err(ParseError::NotInGrammar)
}

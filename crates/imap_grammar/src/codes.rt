//! The code in the brackets of a status response (RFC 9051 §7.1).

ghost use Rattle.std.specs.Prelude.{◌≡◌, Some};
ghost use Rattle.imap_values.specs.Words.{ParsesAs};
ghost use Rattle.imap_grammar.specs.Codes.{code_name_of, validity_of, modseq_of, code_value_of, argument_at, skip_space, code_at, code_and_text};

use crate::response::Code;
use imap_values::{
    Class, ParseError, eq_ignore_case, expect_byte, expect_end, number, positive, take_while,
    take_while1,
};

/// The codes that are read.
#[derive(Clone, Copy)]
pub enum CodeName {
    Uidvalidity,
    Highestmodseq,
    Nomodseq,
    Closed,
    Other,
}

#[tactic(auto, unfolding(crate::specs::Codes::code_name_of))]
fn code_name(word: &[u8]) -> CodeName
    ensures { result ≡ code_name_of word.now }
{
    if eq_ignore_case(word, b"uidvalidity") {
        CodeName::Uidvalidity
    } else if eq_ignore_case(word, b"highestmodseq") {
        CodeName::Highestmodseq
    } else if eq_ignore_case(word, b"nomodseq") {
        CodeName::Nomodseq
    } else if eq_ignore_case(word, b"closed") {
        CodeName::Closed
    } else {
        CodeName::Other
    }
}

fn validity(argument: &[u8]) -> Result<Code, ParseError>
    ensures { ParsesAs (λ x. x) result (validity_of argument.now) }
{
    let (n, rest) = number(argument, 4_294_967_295)?;
    expect_end(rest)?;
    Ok(Code::Uidvalidity(n as u32))
}

fn modseq(argument: &[u8]) -> Result<Code, ParseError>
    ensures { ParsesAs (λ x. x) result (modseq_of argument.now) }
{
    let (n, rest) = positive(argument, 9_223_372_036_854_775_807)?;
    expect_end(rest)?;
    Ok(Code::Highestmodseq(n))
}

fn code_value(name: CodeName, argument: &[u8]) -> Result<Code, ParseError>
    ensures { ParsesAs (λ x. x) result (code_value_of name argument.now) }
{
    match name {
        CodeName::Uidvalidity => validity(argument),
        CodeName::Highestmodseq => modseq(argument),
        CodeName::Nomodseq => Ok(Code::Nomodseq),
        CodeName::Closed => Ok(Code::Closed),
        CodeName::Other => Ok(Code::Unread),
    }
}

/// Reads the argument of a code after its word, and returns it with the bytes after the `]`.
fn argument(bytes: &[u8]) -> Result<(&[u8], &[u8]), ParseError>
    ensures { ParsesAs (λ x. (x.0.now, x.1.now)) result (argument_at bytes.now) }
{
    match bytes {
        [] => Err(ParseError::NotInGrammar),
        [b']', rest @ ..] => Ok((&bytes[..0], rest)),
        [_, rest @ ..] => {
            let (argument, rest) = take_while(Class::CodeText, rest);
            Ok((argument, expect_byte(rest, b']')?))
        }
    }
}

/// The text after a space, if it begins with one.
pub fn skip_space(text: &[u8]) -> &[u8]
    ensures { result.now ≡ skip_space text.now }
{
    match text {
        [b' ', rest @ ..] => rest,
        _ => text,
    }
}

/// Reads a code, and returns it with the text after it.
#[tactic(auto, unfolding(crate::specs::Codes::code_at))]
fn code(text: &[u8]) -> Result<(Code, &[u8]), ParseError>
    ensures { ParsesAs (λ x. (x.0, x.1.now)) result (code_at text.now) }
{
    let inner = expect_byte(text, b'[')?;
    let (word, rest) = take_while1(Class::CodeWord, inner)?;
    let (argument, rest) = argument(rest)?;
    let code = code_value(code_name(word), argument)?;
    Ok((code, skip_space(rest)))
}

/// Returns the code of a status response and the text after it. A code that does not read is part of the text.
pub fn code_and_text(text: &[u8]) -> Result<(Option<Code>, &[u8]), ParseError>
    ensures { ParsesAs (λ x. (x.0, x.1.now)) result (Some (code_and_text text.now)) }
{
    match code(text) {
        Ok((code, rest)) => Ok((Some(code), rest)),
        Err(ParseError::NotInGrammar) => Ok((None, text)),
        Err(ParseError::Memory) => Err(ParseError::Memory),
    }
}

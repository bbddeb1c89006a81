//! Status responses, tagged or not (RFC 9051 §7.1).

ghost use Rattle.std.specs.Prelude.{◌≡◌};
ghost use Rattle.imap_values.specs.Words.{ParsesAs};
ghost use Rattle.imap_grammar.specs.Response.{data_of, state_word_of, ends_command, tagged_response_of, state_response_of};

use crate::codes::code_and_text;
use crate::response::{Response, Word};
use imap_values::{
    Class, ParseError, eq_ignore_case, expect_byte, take_while, take_while1, text_after_word,
};

#[tactic(auto, unfolding(crate::specs::Response::state_word_of))]
pub fn state_word(word: &[u8]) -> Option<Word>
    ensures { result ≡ state_word_of word.now }
{
    if eq_ignore_case(word, b"ok") {
        Some(Word::Ok)
    } else if eq_ignore_case(word, b"no") {
        Some(Word::No)
    } else if eq_ignore_case(word, b"bad") {
        Some(Word::Bad)
    } else if eq_ignore_case(word, b"bye") {
        Some(Word::Bye)
    } else if eq_ignore_case(word, b"preauth") {
        Some(Word::Preauth)
    } else {
        None
    }
}

/// Whether a command may complete with a word.
fn ends_command(word: Word) -> bool
    ensures { result ≡ ends_command word }
{
    match word {
        Word::Ok => true,
        Word::No => true,
        Word::Bad => true,
        _ => false,
    }
}

/// Reads the completion of a command.
#[tactic(auto, unfolding(crate::specs::Response::tagged_response_of))]
pub fn tagged_response(bytes: &[u8]) -> Result<Response<'_>, ParseError>
    ensures { ParsesAs data_of result (tagged_response_of bytes.now) }
{
    let (tag, rest) = take_while1(Class::Tag, bytes)?;
    let rest = expect_byte(rest, b' ')?;
    let (name, rest) = take_while(Class::Word, rest);
    match state_word(name) {
        None => Err(ParseError::NotInGrammar),
        Some(word) => {
            let rest = text_after_word(rest)?;
            if !ends_command(word) {
                return Err(ParseError::NotInGrammar);
            }
            let (code, text) = code_and_text(rest)?;
            Ok(Response::Tagged {
                tag,
                word,
                code,
                text,
            })
        }
    }
}

/// Reads an untagged status response after its word.
#[tactic(auto, unfolding(crate::specs::Response::state_response_of))]
pub fn state_response(word: Word, rest: &[u8]) -> Result<Response<'_>, ParseError>
    ensures { ParsesAs data_of result (state_response_of word rest.now) }
{
    let (code, text) = code_and_text(text_after_word(rest)?)?;
    Ok(Response::State { word, code, text })
}

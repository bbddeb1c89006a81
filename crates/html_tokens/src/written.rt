//! Names and attributes of tags as the text writes them. They borrow the text, and take no memory but for a value that isn't written
//! as it reads.
ghost use Rattle.std.specs.Prelude.{◌≡◌, true, chars, string_bytes, IfOk};
ghost use Rattle.std.specs.List.{list_all};
ghost use Rattle.html_syntax.specs.States.{same};
ghost use Rattle.std.specs.Cow.{cow_str_bytes};
ghost use Rattle.html_tokens.specs.Tags.{initial, initial_byte, read_name, read_value, is_word_char};

use crate::Memory;
use crate::lexeme::is_plain;
use html_references::stretch::{ReadAs, read_stretch};
use std::alloc::Global;
use std::borrow::CowStr;
use std::marker::Model;

/// The name of a tag or of an attribute, seen as the characters that it reads as: ASCII letters lowered, U+0000 as U+FFFD.
#[derive(Drop)]
pub struct WrittenName<'t> {
    pub(crate) text: &'t str,
}

impl<'t> Model for WrittenName<'t> {
    ghost use Rattle.std.specs.Prelude.{ℕ, List};
    ghost use Rattle.html_tokens.specs.Tags.{read_name};

    ghost Value = { List ℕ };

    ghost view = { λ n. read_name n.text.now };
}

/// Whether a name reads as the word.
fn is_word(name: &str, word: &str) -> bool
    requires { list_all is_word_char word.now ≡ true }
    ensures { result ≡ same word.now (read_name name.now) }
{
    name.eq_ignore_ascii_case(word)
}

/// The letter that the bytes begin with, lowered, or 0.
fn initial_byte(bytes: &[u8]) -> u8
    ensures { result ≡ initial_byte bytes.now }
{
    match bytes {
        [first, ..] if first.is_ascii_alphabetic() => first.to_ascii_lowercase(),
        _ => 0,
    }
}

/// The letter that a name begins with, lowered, or 0.
#[tactic(auto, using(crate::proofs::Initials::initial_read))]
fn initial(name: &str) -> u8
    ensures { result ≡ initial (read_name name.now) }
{
    initial_byte(name.as_bytes())
}

impl<'t> WrittenName<'t> {
    /// Returns the letter that the name begins with, or 0 if it begins with something else.
    pub fn initial(&self) -> u8
        ensures { result ≡ initial self.now }
    {
        initial(self.text)
    }

    /// Whether the name reads as a word of visible ASCII characters without capital letters. Compares no bytes if the lengths differ.
    pub fn reads_as(&self, word: &str) -> bool
        requires { list_all is_word_char word.now ≡ true }
        ensures { result ≡ same word.now self.now }
    {
        is_word(self.text, word)
    }

    /// Returns the name's characters.
    pub fn to_string(&self, alloc: Global) -> Result<String, Memory>
        ensures { IfOk result (λ name. chars (string_bytes name) ≡ self.now) }
    {
        let mut name = read_stretch(alloc, ReadAs::Raw, self.text)?;
        name.make_ascii_lowercase();
        Ok(name)
    }
}

/// An attribute of a start tag, seen as its name and its value.
#[derive(Drop)]
pub struct WrittenAttribute<'t> {
    pub(crate) name: &'t str,
    pub(crate) value: &'t str,
}

impl<'t> Model for WrittenAttribute<'t> {
    ghost use Rattle.html_syntax.specs.Token.{Attribute};
    ghost use Rattle.html_tokens.specs.Tags.{read_name, read_value};

    ghost Value = { Attribute };

    ghost view = { λ a. record { name = read_name a.name.now; value = read_value a.value.now } };
}

impl<'t> WrittenAttribute<'t> {
    /// Returns the attribute's name.
    pub fn name(&self) -> WrittenName<'t>
        ensures { result ≡ self.now.name }
    {
        WrittenName { text: self.name }
    }

    /// Returns the attribute's value. It is borrowed, and no memory is taken, if it is written as it reads: without `&`, CR and U+0000.
    pub fn value(&self, alloc: Global) -> Result<CowStr<'t, Global>, Memory>
        ensures { IfOk result (λ value. chars (cow_str_bytes value) ≡ self.now.value) }
    {
        if is_plain(self.value) {
            Ok(CowStr::Borrowed(self.value))
        } else {
            Ok(CowStr::Owned(read_stretch(alloc, ReadAs::Value, self.value)?))
        }
    }
}

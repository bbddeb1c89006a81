//! A header: its fields, and the place of the body.
ghost use Rattle.std.specs.Prelude.{◌≡◌, ◌<◌, ◌≤◌, ◌+◌, ◌-◌, ◌==◌, length, slice_index_or, take, drop, IfSome, Some};
ghost use Rattle.std.specs.List.{slice_get};
ghost use Rattle.std.specs.Char.{to_ascii_lowercase};
ghost use Rattle.memchr.specs.Find.{IsFirstByte};
ghost use Rattle.header_words.specs.Places.{is_alike, is_alike_first};

use crate::lines::{colon_of, first_line};
use memchr::memchr2;
use std::marker::Model;

/// A field of a message. It lends the field's lines.
#[derive(Drop)]
pub struct Field<'a> {
    raw: &'a [u8],
}

impl<'a> Model for Field<'a> {
    ghost use Rattle.header_words.specs.Fields.{FieldValue};
    ghost use Rattle.header_words.specs.Places.{raw_field};

    ghost Value = { FieldValue };

    ghost view = { λ f. raw_field f.raw.now };
}

/// The fields of a message in order, and the place of its body. They lend the message's bytes, and keep the place and the first
/// letter of each field.
#[derive(Drop)]
pub struct Fields<'a> {
    bytes: &'a [u8],
    starts: Vec<usize>,
    letters: Vec<u8>,
    end: usize,
    body: usize,
}

impl<'a> Model for Fields<'a> {
    ghost use Rattle.std.specs.Prelude.{◌≡◌, ◌≤◌, length};
    ghost use Rattle.header_words.specs.Fields.{Header};
    ghost use Rattle.header_words.specs.Places.{header_at, letters_at, IsRising};

    ghost Value = { Header };

    ghost view = { λ f. header_at f.bytes.now f.starts.items f.end f.body };

    ghost invariant = { λ f. IsRising f.starts.items f.end × (f.end ≤ length f.bytes.now) × (f.letters.items ≡ letters_at f.bytes.now f.starts.items) };
}

impl<'a> Field<'a> {
    ghost use Rattle.header_words.specs.Places.{raw_field};
    ghost use Rattle.header_words.specs.Fields.{has_name};

    /// Returns the field of these bytes: its first line, and the lines before the next field.
    pub(crate) fn of(raw: &'a [u8]) -> Self
        ensures { result ≡ raw_field raw.now }
    {
        Field { raw }
    }

    /// Returns the bytes of the field.
    pub(crate) fn raw(&self) -> &'a [u8]
        ensures { raw_field result.now ≡ self.now }
    {
        self.raw
    }

    /// Returns the name as it is written.
    pub fn name(&self) -> &'a [u8]
        ensures { result.now ≡ self.now.name }
    {
        let (line, _) = first_line(self.raw);
        &line[..colon_of(line)]
    }

    /// Returns whether the field has this name, in either case.
    pub fn is_named(&self, name: &str) -> bool
        ensures { result ≡ has_name name.now self.now }
    {
        is_alike(self.raw, name.as_bytes()) && self.name().eq_ignore_ascii_case(name.as_bytes())
    }
}

/// Returns whether the first bytes of a field and of a name are the same letter, which rules out most fields without reading
/// their line.
fn is_alike(raw: &[u8], name: &[u8]) -> bool
    ensures { result ≡ is_alike raw.now name.now }
{
    match raw {
        [first, ..] => is_alike_first(*first, name),
        [] => true,
    }
}

fn is_alike_first(first: u8, name: &[u8]) -> bool
    ensures { result ≡ is_alike_first first name.now }
{
    match name {
        [letter, ..] => lower(first) == lower(*letter),
        [] => true,
    }
}

fn lower(byte: u8) -> u8
    ensures { result ≡ to_ascii_lowercase byte }
{
    if byte < 65 {
        byte
    } else if byte < 91 {
        byte + 32
    } else {
        byte
    }
}

/// Returns the position of the first letter that begins the name, in either case. Each letter begins an empty name. The first
/// letter is tested before the search, which costs more if fields of one letter come together.
fn alike_position(letters: &[u8], name: &[u8]) -> Option<usize>
    ensures { IsFirstByte (λ b. is_alike_first b name.now) letters.now result }
{
    match (letters, name) {
        ([next, ..], _) if is_alike_first(*next, name) => Some(0),
        (_, [letter, ..]) => memchr2(lower(*letter), letter.to_ascii_uppercase(), letters),
        _ => None,
    }
}

fn between(bytes: &[u8], start: usize, end: usize) -> &[u8]
    requires rising { start ≤ end }
    requires within { end ≤ length bytes.now }
    ensures { result.now ≡ take (end - start) (drop start bytes.now) }
{
    &bytes[start..end]
}

/// Returns the place of the field after this one, or the end.
fn next_start(starts: &[usize], index: usize, end: usize) -> usize
    requires { index < length starts.now }
    ensures { result ≡ slice_index_or starts.now (index + 1) end }
{
    match starts.get(index + 1) {
        Some(next) => *next,
        None => end,
    }
}

impl<'a> Fields<'a> {
    ghost use Rattle.header_words.specs.Fields.{first_of};
    ghost use Rattle.header_words.specs.Places.{header_at, letters_at, first_from, IsRising};

    /// Returns the fields that begin at these places with these letters.
    pub(crate) fn of(
        bytes: &'a [u8],
        starts: Vec<usize>,
        letters: Vec<u8>,
        end: usize,
        body: usize,
    ) -> Self
        requires rising { IsRising starts.items end }
        requires within { end ≤ length bytes.now }
        requires letters { letters.items ≡ letters_at bytes.now starts.items }
        ensures { result ≡ header_at bytes.now starts.items end body }
    {
        Fields {
            bytes,
            starts,
            letters,
            end,
            body,
        }
    }

    /// Returns the place of the body, in bytes from the message's beginning.
    pub fn body_at(&self) -> usize
        ensures { result ≡ self.now.body }
    {
        self.body
    }

    /// Returns how many fields there are.
    pub fn len(&self) -> usize
        ensures { result ≡ length self.now.fields }
    {
        self.starts.len()
    }

    /// Returns whether there is no field.
    pub fn is_empty(&self) -> bool
        ensures { result ≡ (length self.now.fields == 0) }
    {
        self.len() == 0
    }

    /// Returns the field of this number, from 0.
    pub fn get(&self, index: usize) -> Field<'a>
        requires { index < length self.now.fields }
        ensures { slice_get self.now.fields index ≡ Some result }
    {
        let start = self.starts[index];
        let end = next_start(&self.starts, index, self.end);
        Field::of(between(self.bytes, start, end))
    }

    /// Returns the number of the first field from `at` on that begins with the name's first letter, in either case. No field
    /// between has the name.
    fn next_alike(&self, name: &[u8], at: usize) -> Option<usize>
        requires { at ≤ length self.now.fields }
        ensures within { IfSome result (λ index. (at ≤ index) × (index < length self.now.fields)) }
        ensures skips { first_of name.now (drop at self.now.fields) ≡ first_from name.now self.now.fields result }
    {
        let skipped = alike_position(&self.letters[at..], name)?;
        Some(at + skipped)
    }

    /// Returns the first field of a name, in either case.
    pub fn first(&self, name: &str) -> Option<Field<'a>>
        ensures { result ≡ first_of name.now self.now.fields }
    {
        let mut at = 0;
        while at < self.len() {
            let index = self.next_alike(name.as_bytes(), at)?;
            let field = self.get(index);
            if field.is_named(name) {
                return Some(field);
            }
            at = index + 1;
        }
        None
    }
}

//! The fields of a request.
ghost use Rattle.std.specs.Prelude.{◌≡◌, ◌++◌, ◌∷◌, [], ℕ, List, IfOk, OnOk, drop, filter, map};
ghost use Rattle.std.specs.List.{list_any, zip};
ghost use Rattle.std.specs.Str.{bytes_eq};
ghost use Rattle.http_routes.specs.Fields.{KeepsLook, field_of, fields_of, found_seen, has_name, is_named, is_twice, look_in, occurs_with, parameter, request_fields, text_of};
ghost use Rattle.http_routes.specs.Routes.{Row, row_seen, texts_seen};
ghost use Rattle.http_routes.specs.declared.fields.Field.{Field};

use crate::table::Row;
use form_urlencoded::{decode, raw_pairs};
use mail_values::Text;
use std::alloc::{AllocError, Global};

/// A field of a request.
#[derive(Drop)]
pub struct Field {
    pub name: Text,
    pub value: Text,
}

/// How often a field occurs, and its value if it occurs once.
#[derive(Clone, Copy)]
pub enum Found<'f> {
    Never,
    Once(&'f str),
    Twice,
}

/// Returns how often a field occurs when it has occurred `found` often before.
fn found_with<'f>(found: Found<'f>, field: &'f Field, name: &str) -> Found<'f>
    ensures { found_seen result ≡ occurs_with (found_seen found.entry) name.now field.now }
{
    if field.name.as_str() != name {
        return found;
    }
    match found {
        Found::Never => Found::Once(field.value.as_str()),
        _ => Found::Twice,
    }
}

/// Returns how often a field occurs.
pub fn find<'f>(fields: &'f [Field], name: &str) -> Found<'f>
    ensures { found_seen result ≡ look_in fields.now name.now }
{
    let mut found = Found::Never;
    for field in fields {
        found = found_with(found, field, name);
    }
    found
}

/// Whether a name is one of some names.
fn has_name(names: &[&str], name: &str) -> bool
    ensures { result ≡ has_name (texts_seen names.now) name.now }
{
    let mut rest = names;
    while let [first, more @ ..] = rest {
        if *first == name {
            return true;
        }
        rest = more;
    }
    false
}

/// Whether a name occurs twice.
fn is_twice(fields: &[Field], name: &str) -> bool
    ensures { result ≡ is_twice (look_in fields.now name.now) }
{
    matches!(find(fields, name), Found::Twice)
}

/// Appends the words of a path as fields with the names of the parameters.
fn push_parameters(
    alloc: Global,
    fields: &mut Vec<Field>,
    names: &[&str],
    words: &[&str],
) -> Result<(), AllocError>
    ensures { OnOk result (fields.new.items ≡ fields.old.items ++ map parameter (zip (texts_seen names.now) (texts_seen words.now))) }
{
    let mut names_left = names;
    let mut words_left = words;
    'parameters: while let [name, more_names @ ..] = names_left {
        let [word, more_words @ ..] = words_left else {
            break;
        };
        fields.push(Field {
            name: Text::from_text(alloc, name)?,
            value: Text::from_text(alloc, word)?,
        })?;
        names_left = more_names;
        words_left = more_words;
    }
    Ok(())
}

/// Returns the text of a raw name or value.
#[tactic(auto, unfolding(crate::specs::Fields::text_of))]
fn text_of(alloc: Global, raw: &[u8]) -> Result<Text, AllocError>
    ensures { IfOk result (λ text. text ≡ text_of raw.now) }
{
    Ok(Text::from_string(decode(alloc, raw)?.into_owned(alloc)?))
}

/// Appends a raw pair as a field, if it has one of the names and hasn't occurred twice: what follows doesn't change that.
fn push_named(
    alloc: Global,
    fields: &mut Vec<Field>,
    names: &[&str],
    raw_name: &[u8],
    raw_value: &[u8],
) -> Result<(), AllocError>
    ensures { OnOk result (KeepsLook fields.new.items (fields.old.items ++ filter (is_named (texts_seen names.now)) (field_of (raw_name.now, raw_value.now) ∷ []))) }
{
    let name = text_of(alloc, raw_name)?;
    if !has_name(names, name.as_str()) {
        return Ok(());
    }
    if is_twice(fields, name.as_str()) {
        return Ok(());
    }
    let value = text_of(alloc, raw_value)?;
    fields.push(Field { name, value })?;
    Ok(())
}

/// Appends the fields of a form that have one of the names, each at most twice.
fn push_form(
    alloc: Global,
    fields: &mut Vec<Field>,
    names: &[&str],
    form: &[u8],
) -> Result<(), AllocError>
    ensures { OnOk result (KeepsLook fields.new.items (fields.old.items ++ filter (is_named (texts_seen names.now)) (fields_of form.now))) }
{
    let mut pairs = raw_pairs(form);
    'pairs: while let Some((name, value)) = pairs.next() {
        push_named(alloc, fields, names, name, value)?;
    }
    Ok(())
}

/// Returns the words of a path that are parameters.
fn parameters_of<'w, 'p>(words: &'w [&'p str]) -> &'w [&'p str]
    ensures { texts_seen result.now ≡ drop 2 (texts_seen words.now) }
{
    match words {
        [_, _, parameters @ ..] => parameters,
        _ => &[],
    }
}

/// Returns the fields of a request: the words of its path after the first, and the fields of its form that its row names.
pub fn request_fields(
    alloc: Global,
    row: &Row,
    words: &[&str],
    form: &[u8],
) -> Result<Vec<Field>, AllocError>
    ensures { IfOk result (λ fields. KeepsLook fields.items (request_fields (row_seen row.now) (texts_seen words.now) form.now)) }
{
    let mut fields = Vec::new(alloc);
    push_parameters(alloc, &mut fields, row.parameters, parameters_of(words))?;
    push_form(alloc, &mut fields, row.fields, form)?;
    Ok(fields)
}

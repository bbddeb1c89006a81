//! The readers of one field.
ghost use Rattle.std.specs.Prelude.{◌≡◌, Ok};
ghost use Rattle.std.specs.Option.{option_copied};
ghost use Rattle.http_routes.specs.Asks as spec;
ghost use Rattle.http_routes.specs.Fields.{look_in};
ghost use Rattle.http_routes.specs.Outcomes.{IsWrong, ReadsAs, or_wrong};

use crate::RouteFault;
use crate::fields::{Field, Found, find};
use crate::values::{
    parse_flag, parse_form, parse_how, parse_identity, parse_kept, parse_number, parse_page,
    parse_section, parse_yes, parse_yes_or_no, user_name, without_nul,
};
use mail_values::{Section, Text};
use site_asks::{Flag, How};
use std::alloc::Global;

/// The fault of a field.
fn wrong(alloc: Global, name: &str) -> RouteFault
    ensures { IsWrong name.now result }
{
    match Text::from_text(alloc, name) {
        Ok(name) => RouteFault::Field { name },
        Err(_) => RouteFault::Memory,
    }
}

/// Whether a field is missing.
pub fn is_missing(fields: &[Field], name: &str) -> bool
    ensures { result ≡ spec.is_missing (look_in fields.now name.now) }
{
    matches!(find(fields, name), Found::Never)
}

/// Returns a copy of a text.
fn copy(alloc: Global, text: &str) -> Result<Text, RouteFault>
    ensures { ReadsAs result (Ok text.now) }
{
    Ok(Text::from_text(alloc, text)?)
}

/// Reads a field that has any text.
pub fn text(alloc: Global, fields: &[Field], name: &str) -> Result<Text, RouteFault>
    ensures { ReadsAs result (spec.text_field name.now (look_in fields.now)) }
{
    match find(fields, name) {
        Found::Once(value) => copy(alloc, value),
        _ => Err(wrong(alloc, name)),
    }
}

/// Reads the identifiers that a draft answers, none if the field is missing.
pub fn refs(alloc: Global, fields: &[Field]) -> Result<Text, RouteFault>
    ensures { ReadsAs result (spec.refs_field (look_in fields.now)) }
{
    match find(fields, "refs") {
        Found::Never => copy(alloc, ""),
        Found::Once(value) => copy(alloc, value),
        Found::Twice => Err(wrong(alloc, "refs")),
    }
}

/// Returns what was read, or the fault of a field that doesn't read.
fn or_wrong<T: Drop>(alloc: Global, name: &str, read: Option<T>) -> Result<T, RouteFault>
    ensures { ReadsAs result (or_wrong name.now read) }
{
    match read {
        Some(value) => Ok(value),
        None => Err(wrong(alloc, name)),
    }
}

/// Reads a number of 32 bits.
pub fn number(alloc: Global, fields: &[Field], name: &str) -> Result<u32, RouteFault>
    ensures { ReadsAs result (spec.number_field name.now (look_in fields.now)) }
{
    match find(fields, name) {
        Found::Once(value) => or_wrong(alloc, name, parse_number(value)),
        _ => Err(wrong(alloc, name)),
    }
}

/// Reads the number of a page, 1 if the field is missing.
pub fn page(alloc: Global, fields: &[Field]) -> Result<u32, RouteFault>
    ensures { ReadsAs result (spec.page_field (look_in fields.now)) }
{
    match find(fields, "p") {
        Found::Never => Ok(1),
        Found::Once(value) => or_wrong(alloc, "p", parse_page(value)),
        Found::Twice => Err(wrong(alloc, "p")),
    }
}

/// Reads the section of a path.
pub fn section(alloc: Global, fields: &[Field]) -> Result<Section, RouteFault>
    ensures { ReadsAs result (spec.section_field (look_in fields.now)) }
{
    match find(fields, "s") {
        Found::Once(value) => or_wrong(alloc, "s", parse_section(value)),
        _ => Err(wrong(alloc, "s")),
    }
}

/// Reads whether remote images are asked for.
pub fn images(alloc: Global, fields: &[Field]) -> Result<bool, RouteFault>
    ensures { ReadsAs result (spec.images_field (look_in fields.now)) }
{
    match find(fields, "images") {
        Found::Never => Ok(false),
        Found::Once(value) => or_wrong(alloc, "images", parse_yes(value)),
        Found::Twice => Err(wrong(alloc, "images")),
    }
}

/// Reads the section of the part to show, if one is chosen.
pub fn part(alloc: Global, fields: &[Field]) -> Result<Option<Section>, RouteFault>
    ensures { ReadsAs result (spec.part_field (look_in fields.now)) }
{
    match find(fields, "part") {
        Found::Never => Ok(None),
        Found::Once(value) => or_wrong(alloc, "part", some_section(value)),
        Found::Twice => Err(wrong(alloc, "part")),
    }
}

/// Parses the section of a part that is chosen.
fn some_section(text: &str) -> Option<Option<Section>>
    ensures { result ≡ spec.some_section text.now }
{
    match parse_section(text) {
        Some(section) => Some(Some(section)),
        None => None,
    }
}

/// Reads the name of a flag.
pub fn flag(alloc: Global, fields: &[Field]) -> Result<Flag, RouteFault>
    ensures { ReadsAs result (spec.flag_field (look_in fields.now)) }
{
    match find(fields, "flag") {
        Found::Once(value) => or_wrong(alloc, "flag", parse_flag(value)),
        _ => Err(wrong(alloc, "flag")),
    }
}

/// Reads whether a flag is set or cleared.
pub fn on(alloc: Global, fields: &[Field]) -> Result<bool, RouteFault>
    ensures { ReadsAs result (spec.on_field (look_in fields.now)) }
{
    match find(fields, "on") {
        Found::Once(value) => or_wrong(alloc, "on", parse_yes_or_no(value)),
        _ => Err(wrong(alloc, "on")),
    }
}

/// Reads what a draft does with its message.
pub fn how(alloc: Global, fields: &[Field]) -> Result<How, RouteFault>
    ensures { ReadsAs result (spec.how_field (look_in fields.now)) }
{
    match find(fields, "how") {
        Found::Once(value) => or_wrong(alloc, "how", parse_how(value)),
        _ => Err(wrong(alloc, "how")),
    }
}

/// Reads the number of a form.
pub fn form(alloc: Global, fields: &[Field]) -> Result<u64, RouteFault>
    ensures { ReadsAs result (spec.form_field (look_in fields.now)) }
{
    match find(fields, "form") {
        Found::Once(value) => or_wrong(alloc, "form", parse_form(value)),
        _ => Err(wrong(alloc, "form")),
    }
}

/// Reads the number of the identity that a draft is sent as.
pub fn identity(alloc: Global, fields: &[Field]) -> Result<u8, RouteFault>
    ensures { ReadsAs result (spec.identity_field (look_in fields.now)) }
{
    match find(fields, "identity") {
        Found::Once(value) => or_wrong(alloc, "identity", parse_identity(value)),
        _ => Err(wrong(alloc, "identity")),
    }
}

/// Reads the number under which an identity is kept.
pub fn kept(alloc: Global, fields: &[Field]) -> Result<u8, RouteFault>
    ensures { ReadsAs result (spec.kept_field (look_in fields.now)) }
{
    match find(fields, "number") {
        Found::Once(value) => or_wrong(alloc, "number", parse_kept(value)),
        _ => Err(wrong(alloc, "number")),
    }
}

/// Returns a copy of a text that was read, or the fault of a field that doesn't read.
fn copy_or_wrong(alloc: Global, name: &str, read: Option<&str>) -> Result<Text, RouteFault>
    ensures { ReadsAs result (or_wrong name.now (option_copied read.entry)) }
{
    match read {
        Some(value) => copy(alloc, value),
        None => Err(wrong(alloc, name)),
    }
}

/// Reads the name of a user.
pub fn user(alloc: Global, fields: &[Field]) -> Result<Text, RouteFault>
    ensures { ReadsAs result (spec.user_field (look_in fields.now)) }
{
    match find(fields, "user") {
        Found::Once(value) => copy_or_wrong(alloc, "user", user_name(value)),
        _ => Err(wrong(alloc, "user")),
    }
}

/// Reads a password.
pub fn password(alloc: Global, fields: &[Field]) -> Result<Text, RouteFault>
    ensures { ReadsAs result (spec.password_field (look_in fields.now)) }
{
    match find(fields, "password") {
        Found::Once(value) => copy_or_wrong(alloc, "password", without_nul(value)),
        _ => Err(wrong(alloc, "password")),
    }
}

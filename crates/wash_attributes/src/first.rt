//! The first attribute of a name, read in place.
ghost use Rattle.std.specs.Prelude.{◌≡◌, true, chars, IfOk, MatchOption, None, Some};
ghost use Rattle.std.specs.Cow.{cow_str_bytes};
ghost use Rattle.std.specs.List.{list_all};
ghost use Rattle.html_tokens.specs.Tags.{is_word_char};
ghost use Rattle.wash_attributes.specs.FirstValues.{attribute_text, first_value};

use crate::Memory;
use html_tokens::{StartTag, WrittenAttribute};
use std::alloc::Global;
use std::borrow::CowStr;

/// Returns the first attribute of a tag that has the name, which is in lower case.
pub fn first_attribute<'t>(tag: &StartTag<'t>, name: &str) -> Option<WrittenAttribute<'t>>
    requires { list_all is_word_char name.now ≡ true }
    ensures { MatchOption result (first_value name.now tag.now.attributes ≡ None) (λ a. first_value name.now tag.now.attributes ≡ Some a.value) }
{
    let mut reader = tag.attributes();
    while let Some(attribute) = reader.next() {
        if attribute.name().reads_as(name) {
            return Some(attribute);
        }
    }
    None
}

/// Returns the value of the first attribute of a tag that has the name, which is in lower case. It is empty if none has it.
#[tactic(auto, unfolding(crate::specs::FirstValues::attribute_text))]
pub fn attribute_text<'t>(
    alloc: Global,
    tag: &StartTag<'t>,
    name: &str,
) -> Result<CowStr<'t, Global>, Memory>
    requires { list_all is_word_char name.now ≡ true }
    ensures { IfOk result (λ text. chars (cow_str_bytes text) ≡ attribute_text name.now tag.now.attributes) }
{
    match first_attribute(tag, name) {
        Some(attribute) => attribute.value(alloc),
        None => Ok(CowStr::Borrowed("")),
    }
}

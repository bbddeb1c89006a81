//! The attributes of a start tag.
ghost use Rattle.std.specs.Prelude.{◌≡◌, ◌++◌, [], ◌∷◌, true, false, chars, map, string_bytes, IfOk, OnOk, IsTrue};
ghost use Rattle.std.specs.List.{list_all};
ghost use Rattle.html_syntax.specs.Tokenizer.{has_name};
ghost use Rattle.html_syntax.specs.Token.{attribute_of};
ghost use Rattle.html_tokens.specs.Tags.{is_word_char};
ghost use Rattle.html_rules.specs.Tables.{common_attributes, kind_of};
ghost use Rattle.wash_attributes.specs.Attributes.{attribute_with, written_value_of_kind, kept_attributes as kept_of, with_style, link_protection, protect_link, washed_attributes};
ghost use Rattle.wash_attributes.specs.Addresses.{given_of};
ghost use Rattle.wash_attributes.specs.Washing.{given_in};
ghost use Rattle.wash_attributes.specs.Listed.{texts_seen, are_words};
ghost use Rattle.wash_attributes.specs.Keeping.{ReadsNext, with_attribute, kept_with, to_list};

use crate::Memory;
use crate::names::{is_among, kind_of, listed_attribute, own_attributes};
use crate::place::Place;
use crate::values::{is_empty, written_value};
use cid_parts::References;
use html_syntax::Attributes;
use html_tokens::{StartTag, WrittenAttribute};
use std::alloc::Global;
use std::marker::Model;

/// What the attributes of an element are washed with: what addresses of its message refer to, where the site has the message's parts,
/// whether remote pictures were requested, and what rules declare for the element.
#[derive(Clone, Copy)]
pub struct Washing<'r, 't, 'a, 'p, 'd> {
    pub references: &'r References<'t, 'a>,
    pub place: &'p Place,
    pub images: bool,
    pub declared: &'d str,
}

/// The attributes that are kept so far, as names and values, and the listed names that were read.
#[derive(Drop)]
struct Kept {
    pairs: Vec<(String, String)>,
    names: Vec<&'static str>,
}

impl Model for Kept {
    ghost use Rattle.std.specs.Prelude.{map};
    ghost use Rattle.html_syntax.specs.Token.{attribute_of};
    ghost use Rattle.wash_attributes.specs.Keeping.{KeptValue};
    ghost use Rattle.wash_attributes.specs.Listed.{texts_seen};

    ghost Value = { KeptValue };

    ghost view = { λ k. record { attributes = map attribute_of k.pairs.items; names = texts_seen k.names.items } };
}

/// Adds an attribute.
fn push_pair(
    alloc: Global,
    kept: &mut Vec<(String, String)>,
    name: &str,
    value: String,
) -> Result<(), Memory>
    ensures { OnOk result (map attribute_of kept.new.items ≡ map attribute_of kept.old.items ++ record { name = chars name.now; value = chars (string_bytes value) } ∷ []) }
{
    let name = String::from_str(alloc, name)?;
    kept.push((name, value))?;
    Ok(())
}

/// Adds an attribute if its value is of its kind.
fn push_attribute(
    alloc: Global,
    kept: &mut Vec<(String, String)>,
    name: &'static str,
    attribute: &WrittenAttribute<'_>,
    with: &Washing<'_, '_, '_, '_, '_>,
) -> Result<(), Memory>
    requires { list_all is_word_char name.now ≡ true }
    ensures { OnOk result (map attribute_of kept.new.items ≡ map attribute_of kept.old.items ++ to_list (attribute_with name.now (written_value_of_kind (given_in with.now) (kind_of name.now) attribute.now.value))) }
{
    let Some(kind) = kind_of(name) else {
        return Ok(());
    };
    let value = attribute.value(alloc)?;
    match written_value(alloc, kind, value.as_str(), with)? {
        Some(written) => push_pair(alloc, kept, name, written),
        None => Ok(()),
    }
}

impl Kept {
    fn new(alloc: Global) -> Self
        ensures attributes { result.attributes ≡ [] }
        ensures names { result.names ≡ [] }
    {
        Kept {
            pairs: Vec::new(alloc),
            names: Vec::new(alloc),
        }
    }

    /// Reads the attribute of a listed name that wasn't read before.
    fn keep(
        &mut self,
        alloc: Global,
        name: &'static str,
        attribute: &WrittenAttribute<'_>,
        with: &Washing<'_, '_, '_, '_, '_>,
    ) -> Result<(), Memory>
        requires word { list_all is_word_char name.now ≡ true }
        requires name { name.now ≡ attribute.now.name }
        ensures { OnOk result (self.new ≡ with_attribute (given_in with.now) self.old attribute.now) }
    {
        self.names.push(name)?;
        push_attribute(alloc, &mut self.pairs, name, attribute, with)
    }

    /// Reads the next attribute of a tag.
    fn read(
        &mut self,
        alloc: Global,
        own: &'static [&'static str],
        attribute: &WrittenAttribute<'_>,
        with: &Washing<'_, '_, '_, '_, '_>,
    ) -> Result<(), Memory>
        requires { are_words (texts_seen own.now) ≡ true }
        ensures { OnOk result (ReadsNext (given_in with.now) (common_attributes ++ texts_seen own.now) self.old attribute.now self.new) }
    {
        let Some(name) = listed_attribute(own, &attribute.name()) else {
            return Ok(());
        };
        if is_among(self.names.as_slice(), name) {
            return Ok(());
        }
        self.keep(alloc, name, attribute, with)
    }
}

/// Reads the attributes of a tag.
fn read_attributes(
    alloc: Global,
    own: &'static [&'static str],
    tag: &StartTag<'_>,
    with: &Washing<'_, '_, '_, '_, '_>,
) -> Result<Kept, Memory>
    requires { are_words (texts_seen own.now) ≡ true }
    ensures { IfOk result (λ kept. kept.attributes ≡ kept_with (given_in with.now) (common_attributes ++ texts_seen own.now) (record { attributes = []; names = [] }) tag.now.attributes) }
{
    let mut kept = Kept::new(alloc);
    let mut reader = tag.attributes();
    while let Some(attribute) = reader.next() {
        kept.read(alloc, own, &attribute, with)?;
    }
    Ok(kept)
}

/// Adds the style that rules declare, unless it is in the place of the element's own.
fn add_style(alloc: Global, attributes: &mut Attributes, declared: &str) -> Result<(), Memory>
    ensures { OnOk result (attributes.new ≡ with_style (chars declared.now) attributes.old) }
{
    if is_empty(declared) {
        return Ok(());
    }
    if attributes.contains("style") {
        return Ok(());
    }
    attributes.push(alloc, "style", declared)
}

/// Adds the attributes that open a link in a new window, if there is a link.
#[tactic(auto, unfolding(crate::specs::Attributes::link_protection))]
fn protect(alloc: Global, attributes: &mut Attributes) -> Result<(), Memory>
    ensures { OnOk result (attributes.new ≡ protect_link attributes.old) }
{
    if attributes.contains("href") {
        attributes.push(alloc, "rel", "noopener noreferrer")?;
        attributes.push(alloc, "target", "_blank")?;
    }
    Ok(())
}

/// Whether the tag has attributes, listed or not.
fn has_attributes(tag: &StartTag<'_>) -> bool
    ensures { result ≡ false → tag.now.attributes ≡ [] }
{
    match tag.attributes().next() {
        Some(_) => true,
        None => false,
    }
}

/// Returns the attributes of a washed start tag of an element. They have different names.
///
/// The tag's attributes are read in place: no name takes memory, and no value that is dropped unless it is decoded first. `declared` is
/// the style that rules declare for the element, `place` gives the addresses of the message's parts, and `images` tells whether remote
/// pictures were requested.
pub fn wash_attributes(
    alloc: Global,
    element: &str,
    tag: &StartTag<'_>,
    declared: &str,
    references: &References<'_, '_>,
    place: &Place,
    images: bool,
) -> Result<Attributes, Memory>
    ensures equals { IfOk result (λ washed. washed ≡ washed_attributes (given_of references.now place.now images) (chars declared.now) element.now tag.now.attributes) }
{
    let mut attributes = kept_attributes(
        alloc,
        element,
        tag,
        &Washing {
            references,
            place,
            images,
            declared,
        },
    )?;
    add_style(alloc, &mut attributes, declared)?;
    protect(alloc, &mut attributes)?;
    Ok(attributes)
}

/// Returns the attributes that are kept of a start tag of an element.
fn kept_attributes(
    alloc: Global,
    element: &str,
    tag: &StartTag<'_>,
    with: &Washing<'_, '_, '_, '_, '_>,
) -> Result<Attributes, Memory>
    ensures { IfOk result (λ kept. kept ≡ kept_of (given_in with.now) element.now tag.now.attributes) }
{
    if !has_attributes(tag) {
        return Ok(Attributes::new(alloc));
    }
    let Kept { pairs, .. } = read_attributes(alloc, own_attributes(element), tag, with)?;
    Ok(Attributes::from_pairs(pairs))
}

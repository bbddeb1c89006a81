//! The attributes of a start tag's token: of each name the first.
ghost use Rattle.std.specs.Prelude.{◌≡◌, List, [], chars, map, IfOk, OnOk};
ghost use Rattle.html_syntax.specs.Token.{attribute_of};
ghost use Rattle.html_syntax.specs.States.{has_name};
ghost use Rattle.html_tokens.specs.Tags.{add_attribute};
ghost use Rattle.html_tokens.specs.Attributes.{first_of_each, add_all};

use crate::Memory;
use crate::name_set::NameSet;
use crate::start_tag::AttributeReader;
use crate::written::WrittenAttribute;
use html_syntax::Attributes;
use std::alloc::Global;
use std::marker::Model;

/// Up to this number, a new name is compared with each name before it. A tag with more attributes has a set of their names.
const FEW: usize = 16;

/// Whether one of the attributes has the name.
fn is_among(pairs: &[(String, String)], name: &str) -> bool
    ensures { result ≡ has_name (chars name.now) (map attribute_of pairs.now) }
{
    for (known, _) in pairs {
        if known.as_str() == name {
            return true;
        }
    }
    false
}

/// Adds an attribute if its name is new.
fn keep(
    alloc: Global,
    pairs: &mut Vec<(String, String)>,
    attribute: &WrittenAttribute<'_>,
) -> Result<(), Memory>
    ensures { OnOk result (map attribute_of pairs.new.items ≡ add_attribute (map attribute_of pairs.old.items) attribute.now) }
{
    let name = attribute.name().to_string(alloc)?;
    if !is_among(pairs, name.as_str()) {
        let value = attribute.value(alloc)?.into_owned(alloc)?;
        pairs.push((name, value))?;
    }
    Ok(())
}

/// Returns the first attribute of each name. `expected` is a capacity hint.
pub fn attributes(
    alloc: Global,
    reader: AttributeReader<'_>,
    expected: usize,
) -> Result<Attributes, Memory>
    ensures { IfOk result (λ found. found ≡ first_of_each reader.entry) }
{
    let mut reader = reader;
    let mut pairs = Vec::with_capacity(alloc, expected.min(FEW))?;
    while pairs.len() < FEW {
        match reader.next() {
            Some(attribute) => keep(alloc, &mut pairs, &attribute)?,
            None => return Ok(Attributes::from_pairs(pairs)),
        }
    }
    more_attributes(alloc, pairs, reader)
}

/// The attributes of a tag so far, the first of each name, with the set of their names.
#[derive(Drop)]
struct AttributeList {
    pairs: Vec<(String, String)>,
    names: NameSet,
}

impl Model for AttributeList {
    ghost use Rattle.std.specs.Prelude.{List, map};
    ghost use Rattle.html_syntax.specs.Token.{Attribute, attribute_of};
    ghost use Rattle.html_tokens.specs.Kept.{HoldsNames};

    ghost Value = { List Attribute };

    ghost view = { λ a. map attribute_of a.pairs.items };

    ghost invariant = { λ a. HoldsNames a.names a.pairs.items };
}

impl AttributeList {
    /// Returns the attributes with the set of their names.
    fn of(alloc: Global, pairs: Vec<(String, String)>) -> Result<Self, Memory>
        ensures { IfOk result (λ list. list ≡ map attribute_of pairs.items) }
    {
        let mut names = NameSet::new(alloc);
        for (name, _) in &pairs {
            names.insert(alloc, name.as_str())?;
        }
        Ok(AttributeList { pairs, names })
    }

    /// Adds an attribute if its name is new.
    fn keep(self, alloc: Global, attribute: &WrittenAttribute<'_>) -> Result<Self, Memory>
        ensures { IfOk result (λ list. list ≡ add_attribute self attribute.now) }
    {
        let AttributeList {
            mut pairs,
            mut names,
        } = self;
        let name = attribute.name().to_string(alloc)?;
        let is_new = names.insert(alloc, name.as_str())?;
        if is_new {
            let value = attribute.value(alloc)?.into_owned(alloc)?;
            pairs.push((name, value))?;
        }
        Ok(AttributeList { pairs, names })
    }
}

/// Returns the attributes that were read, with those that are left.
fn more_attributes(
    alloc: Global,
    pairs: Vec<(String, String)>,
    reader: AttributeReader<'_>,
) -> Result<Attributes, Memory>
    ensures { IfOk result (λ found. found ≡ add_all (map attribute_of pairs.items) reader.entry) }
{
    let mut reader = reader;
    let mut list = AttributeList::of(alloc, pairs)?;
    while let Some(attribute) = reader.next() {
        list = list.keep(alloc, &attribute)?;
    }
    let AttributeList { pairs, .. } = list;
    Ok(Attributes::from_pairs(pairs))
}

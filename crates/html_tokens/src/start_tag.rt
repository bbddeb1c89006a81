//! Start tags as the text writes them. They borrow the text and take no memory.
ghost use Rattle.std.specs.Prelude.{◌≡◌, ◌∷◌, [], MatchOption};
ghost use Rattle.html_tokens.specs.Attributes.{attributes_in};

use crate::tags::{attribute, begins_attribute, gap_len};
use crate::written::{WrittenAttribute, WrittenName};
use std::marker::Model;

/// A start tag, seen as its name and all its attributes in order, also later ones of a name.
#[derive(Drop)]
pub struct StartTag<'t> {
    pub(crate) name: &'t str,
    pub(crate) rest: &'t str,
}

impl<'t> Model for StartTag<'t> {
    ghost use Rattle.html_tokens.specs.Tags.{read_name};
    ghost use Rattle.html_tokens.specs.Attributes.{WrittenTag, attributes_in};

    ghost Value = { WrittenTag };

    ghost view = { λ t. record { name = read_name t.name.now; attributes = attributes_in t.rest.now } };
}

impl<'t> StartTag<'t> {
    /// Returns the tag's name.
    pub fn name(&self) -> WrittenName<'t>
        ensures { result ≡ self.now.name }
    {
        WrittenName { text: self.name }
    }

    /// Returns a reader of the tag's attributes.
    pub fn attributes(&self) -> AttributeReader<'t>
        ensures { result ≡ self.now.attributes }
    {
        AttributeReader { rest: self.rest }
    }
}

/// Reads the attributes of a start tag one after the other, seen as the list of those that are left.
#[derive(Drop)]
pub struct AttributeReader<'t> {
    rest: &'t str,
}

impl<'t> Model for AttributeReader<'t> {
    ghost use Rattle.std.specs.Prelude.{List};
    ghost use Rattle.html_syntax.specs.Token.{Attribute};
    ghost use Rattle.html_tokens.specs.Attributes.{attributes_in};

    ghost Value = { List Attribute };

    ghost view = { λ r. attributes_in r.rest.now };
}

impl<'t> AttributeReader<'t> {
    /// Reads the next attribute. `None` if and only if none is left.
    pub fn next(&mut self) -> Option<WrittenAttribute<'t>>
        ensures { MatchOption result ((self.old ≡ []) × (self.new ≡ [])) (λ attribute. self.old ≡ attribute ∷ self.new) }
    {
        let text = &self.rest[gap_len(self.rest)..];
        if !begins_attribute(text) {
            return None;
        }
        let place = attribute(text);
        self.rest = &text[place.end..];
        Some(WrittenAttribute {
            name: &text[..place.name],
            value: &text[place.value..place.value_end],
        })
    }
}

//! The attributes of a start tag.
ghost use Rattle.std.specs.Prelude.{◌≡◌, ℕ, ◌<◌, ◌↔◌, List, [], ◌∷◌, ◌++◌, length, map, chars, encode_utf8_all, IsTrue, OnOk, OnErr};
ghost use Rattle.html_syntax.specs.Token.{name_at, value_at, attribute_of, Attribute};
ghost use Rattle.html_syntax.specs.States.{has_name};

use crate::Memory;
use std::alloc::Global;
use std::fmt;
use std::marker::Model;

/// The attributes of a start tag in order, seen as the list of their names and values. `push` keeps a second attribute of a name
/// too.
#[derive(Drop)]
pub struct Attributes {
    pairs: Vec<(String, String)>,
}

impl Model for Attributes {
    ghost use Rattle.std.specs.Prelude.{List, map};
    ghost use Rattle.html_syntax.specs.Token.{Attribute, attribute_of};

    ghost Value = { List Attribute };

    ghost view = { λ a. map attribute_of a.pairs.items };
}

impl Attributes {
    /// Returns no attributes.
    pub fn new(alloc: Global) -> Attributes
        ensures { result ≡ [] }
    {
        Attributes {
            pairs: Vec::new(alloc),
        }
    }

    /// Returns the attributes with these names and values.
    pub fn from_pairs(pairs: Vec<(String, String)>) -> Attributes
        ensures { result ≡ map attribute_of pairs.items }
    {
        Attributes { pairs }
    }

    /// Adds an attribute at the end.
    pub fn push(&mut self, alloc: Global, name: &str, value: &str) -> Result<(), Memory>
        ensures appended { OnOk result (self.new ≡ self.old ++ record { name = chars name.now; value = chars value.now } ∷ []) }
        ensures unchanged_on_err { OnErr result (self.new ≡ self.old) }
    {
        let name = String::from_str(alloc, name)?;
        let value = String::from_str(alloc, value)?;
        self.pairs.push((name, value))?;
        Ok(())
    }

    /// The number of attributes.
    pub fn len(&self) -> usize
        ensures { result ≡ length self.now }
    {
        self.pairs.len()
    }

    /// Whether there are no attributes.
    pub fn is_empty(&self) -> bool
        ensures { IsTrue result ↔ (self.now ≡ []) }
    {
        self.pairs.is_empty()
    }

    /// Whether one of the attributes has this name.
    pub fn contains(&self, name: &str) -> bool
        ensures { result ≡ has_name (chars name.now) self.now }
    {
        for (known, _) in &self.pairs {
            if known.as_str() == name {
                return true;
            }
        }
        false
    }

    /// The name of the attribute at an index from 0.
    pub fn name(&self, index: usize) -> &str
        requires { index < length self.now }
        ensures { result.now ≡ encode_utf8_all (name_at self.now index) }
    {
        self.pairs[index].0.as_str()
    }

    /// The value of the attribute at an index from 0, empty if the tag gives none.
    pub fn value(&self, index: usize) -> &str
        requires { index < length self.now }
        ensures { chars result.now ≡ value_at self.now index }
    {
        self.pairs[index].1.as_str()
    }
}

/// Writes each name and value in quotes, after a space: ` "href"="x"`.
impl fmt::Display for Attributes {
    fn fmt<W: fmt::Write>(&self, f: &mut fmt::Formatter<W>) -> fmt::Result {
        for (name, value) in &self.pairs {
            write!(f, " {name:?}={value:?}")?;
        }
        Ok(())
    }
}

//! The nodes of messages and of those that they refer to.
ghost use Rattle.std.specs.Prelude.{◌≡◌, ◌<◌, ◌≤◌, ℕ, List, [], ◌∷◌, ◌++◌, IfOk, OnOk, length, map, take, get_or};
ghost use Rattle.thread_places.specs.Messages.{Entry, Name, References, Numbering, nodes, add_id, number_of, number_ids, add_numbered, number_message, number_messages};
ghost use Rattle.thread_places.specs.Numbers.{HasNames, Known, Pending, IsNumbered, no_facts};

use crate::facts::Facts;
use crate::names::Names;
use mail_values::Bytes;
use std::alloc::{AllocError, Global};
use std::marker::Model;

/// A message: its node, and the nodes that it refers to.
#[derive(Drop)]
pub struct Numbered {
    pub references: Vec<usize>,
    pub node: usize,
}

impl Model for Numbered {
    ghost use Rattle.thread_places.specs.Messages.{Entry};

    ghost Value = { Entry };

    ghost view = { λ m. record { references = m.references.items; node = m.node } };
}

impl Names {
    fn number_reference(
        &mut self,
        alloc: Global,
        references: &[Bytes],
        i: usize,
        is_long: bool,
    ) -> Result<usize, AllocError>
        ghost known: { Known }
        requires names { HasNames known.names known.nodes self.old }
        requires inside { i < length references.now }
        ensures names { OnOk result (HasNames (add_id known.names (get_or references.now i [])) known.nodes self.new) }
        ensures number { IfOk result (λ number. number ≡ number_of (add_id known.names (get_or references.now i [])) (get_or references.now i [])) }
    {
        let id = references[i].as_slice();
        if is_long {
            // Most identifiers of a long list are new.
            self.add_likely_id(alloc, id)
        } else {
            self.add_id(alloc, id)
        }
    }

    /// Returns the numbers of the nodes that identifiers name.
    fn number_references(
        &mut self,
        alloc: Global,
        references: &[Bytes],
    ) -> Result<Vec<usize>, AllocError>
        ghost known: { Known }
        requires names { HasNames known.names known.nodes self.old }
        ensures names { OnOk result (HasNames (number_ids known.names references.now).names known.nodes self.new) }
        ensures numbers { IfOk result (λ numbers. numbers.items ≡ (number_ids known.names references.now).numbers) }
    {
        let is_long = references.len() > 1_000;
        let mut numbers = Vec::with_capacity(alloc, references.len())?;
        for i in 0..references.len() {
            numbers.push(self.number_reference(alloc, references, i, is_long)?)?;
        }
        Ok(numbers)
    }
}

/// Messages whose nodes are numbered.
#[derive(Drop)]
pub struct Numberer {
    pub names: Names,
    entries: Vec<Numbered>,
}

impl Numberer {
    /// Returns the messages.
    pub fn entries(&self) -> &[Numbered]
        ensures { result.now ≡ self.now.entries.items }
    {
        &self.entries
    }

    /// Numbers the nodes of a further message.
    pub fn add(&mut self, alloc: Global, facts: &Facts) -> Result<(), AllocError>
        ghost before: { Numbering }
        requires { IsNumbered before self.old }
        ensures { OnOk result (IsNumbered (number_message before facts.now) self.new) }
    {
        let references = self
            .names
            .number_references(alloc, facts.references.as_slice())?;
        self.add_entry(alloc, facts, references)
    }

    fn add_entry(
        &mut self,
        alloc: Global,
        facts: &Facts,
        references: Vec<usize>,
    ) -> Result<(), AllocError>
        ghost pending: { Pending }
        requires names { HasNames pending.references.names (nodes pending.messages) self.old.names }
        requires entries { self.old.entries.items ≡ pending.messages }
        requires references { references.items ≡ pending.references.numbers }
        ensures { OnOk result (IsNumbered (add_numbered pending.messages pending.references facts.now.id) self.new) }
    {
        let node = self.names.number_message(alloc, &facts.id)?;
        self.entries.push(Numbered { references, node })?;
        Ok(())
    }

    fn add_facts(&mut self, alloc: Global, facts: &[Facts], i: usize) -> Result<(), AllocError>
        ghost before: { Numbering }
        requires holds { IsNumbered before self.old }
        requires inside { i < length facts.now }
        ensures { OnOk result (IsNumbered (number_message before (get_or facts.now i no_facts)) self.new) }
    {
        self.add(alloc, &facts[i])
    }
}

/// Numbers the nodes of messages and of those that they refer to.
pub fn number_messages(alloc: Global, facts: &[Facts]) -> Result<Numberer, AllocError>
    ensures { IfOk result (λ numberer. IsNumbered (number_messages facts.now) numberer) }
{
    let mut numberer = Numberer {
        names: Names::new(alloc),
        entries: Vec::new(alloc),
    };
    for i in 0..facts.len() {
        numberer.add_facts(alloc, facts, i)?;
    }
    Ok(numberer)
}

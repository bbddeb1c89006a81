//! The numbers of the nodes that identifiers name.
ghost use Rattle.std.specs.Prelude.{◌≡◌, ◌<◌, ℕ, Some, None, List, ◌∷◌, [], ◌++◌, IfOk, OnOk, length, position, get_or, set, true, false};
ghost use Rattle.thread_places.specs.Messages.{Name, is_named, add_id, number_of, own_name, add_name, number_for};
ghost use Rattle.thread_places.specs.Numbers.{HasNames, Known};

use mail_values::Bytes;
use std::alloc::{AllocError, Global};
use std::collections::BTreeMap;

/// The numbers of nodes by their identifiers, and for each node whether it is a message's.
#[derive(Drop)]
pub struct Names {
    numbers: BTreeMap<Vec<u8>, usize>,
    taken: Vec<bool>,
}

impl Names {
    pub fn new(alloc: Global) -> Self
        ensures { HasNames [] [] result }
    {
        Names {
            numbers: BTreeMap::new(alloc),
            taken: Vec::new(alloc),
        }
    }

    /// Returns how many nodes there are.
    pub fn len(&self) -> usize
        ensures { result ≡ length self.now.taken.items }
    {
        self.taken.len()
    }

    /// Returns the number of the node that an identifier names.
    fn number(&self, id: &[u8]) -> Option<usize>
        ghost known: { Known }
        requires names { HasNames known.names known.nodes self.now }
        ensures { result ≡ position (is_named id.now) known.names }
    {
        self.numbers.get(id).copied()
    }

    /// Returns whether a node is a message's.
    fn is_taken(&self, node: usize) -> bool
        ensures { result ≡ get_or self.now.taken.items node false }
    {
        node < self.taken.len() && self.taken[node]
    }

    /// Numbers a node without an identifier.
    fn add_own(&mut self) -> Result<usize, AllocError>
        ghost known: { Known }
        requires names { HasNames known.names known.nodes self.old }
        ensures names { OnOk result (HasNames (known.names ++ None ∷ []) known.nodes self.new) }
        ensures number { IfOk result (λ number. number ≡ length known.names) }
        ensures inside { IfOk result (λ number. number < length self.new.taken.items) }
    {
        self.taken.push(false)?;
        Ok(self.taken.len() - 1)
    }

    /// Numbers a node with an identifier that names none.
    fn insert(&mut self, alloc: Global, id: &[u8]) -> Result<usize, AllocError>
        ghost known: { Known }
        requires names { HasNames known.names known.nodes self.old }
        requires absent { position (is_named id.now) known.names ≡ None }
        ensures names { OnOk result (HasNames (known.names ++ Some id.now ∷ []) known.nodes self.new) }
        ensures number { IfOk result (λ number. number ≡ length known.names) }
        ensures inside { IfOk result (λ number. number < length self.new.taken.items) }
    {
        let key = Vec::from_slice(alloc, id)?;
        let number = self.taken.len();
        self.numbers.insert(key, number)?;
        self.taken.push(false)?;
        Ok(number)
    }

    /// Returns the number of the node that an identifier names, which is new if there was none.
    pub fn add_id(&mut self, alloc: Global, id: &[u8]) -> Result<usize, AllocError>
        ghost known: { Known }
        requires names { HasNames known.names known.nodes self.old }
        ensures names { OnOk result (HasNames (add_id known.names id.now) known.nodes self.new) }
        ensures number { IfOk result (λ number. number ≡ number_of (add_id known.names id.now) id.now) }
    {
        match self.number(id) {
            Some(number) => Ok(number),
            None => self.insert(alloc, id),
        }
    }

    /// Returns what `add_id` does, by one search if the identifier is new.
    pub fn add_likely_id(&mut self, alloc: Global, id: &[u8]) -> Result<usize, AllocError>
        ghost known: { Known }
        requires names { HasNames known.names known.nodes self.old }
        ensures names { OnOk result (HasNames (add_id known.names id.now) known.nodes self.new) }
        ensures number { IfOk result (λ number. number ≡ number_of (add_id known.names id.now) id.now) }
    {
        let key = Vec::from_slice(alloc, id)?;
        let number = self.taken.len();
        if let Some(kept) = self.numbers.insert(key, number)? {
            let again = Vec::from_slice(alloc, id)?;
            let _ = self.numbers.insert(again, kept)?;
            return Ok(kept);
        }
        self.taken.push(false)?;
        Ok(number)
    }

    /// Returns the number of a message's node: that which its identifier names, unless that is another message's.
    pub fn number_message(&mut self, alloc: Global, id: &Option<Bytes>) -> Result<usize, AllocError>
        ghost known: { Known }
        requires names { HasNames known.names known.nodes self.old }
        ensures names { OnOk result (HasNames (add_name known.names (own_name known.names known.nodes id.now)) (known.nodes ++ number_for known.names (own_name known.names known.nodes id.now) ∷ []) self.new) }
        ensures number { IfOk result (λ number. number ≡ number_for known.names (own_name known.names known.nodes id.now)) }
    {
        let node = self.number_own(alloc, id)?;
        self.take(node);
        Ok(node)
    }

    fn number_own(&mut self, alloc: Global, id: &Option<Bytes>) -> Result<usize, AllocError>
        ghost known: { Known }
        requires names { HasNames known.names known.nodes self.old }
        ensures names { OnOk result (HasNames (add_name known.names (own_name known.names known.nodes id.now)) known.nodes self.new) }
        ensures number { IfOk result (λ number. number ≡ number_for known.names (own_name known.names known.nodes id.now)) }
        ensures inside { IfOk result (λ number. number < length self.new.taken.items) }
    {
        match id {
            None => self.add_own(),
            Some(id) => self.number_named(alloc, id.as_slice()),
        }
    }

    fn number_named(&mut self, alloc: Global, id: &[u8]) -> Result<usize, AllocError>
        ghost known: { Known }
        requires names { HasNames known.names known.nodes self.old }
        ensures names { OnOk result (HasNames (add_name known.names (own_name known.names known.nodes (Some id.now))) known.nodes self.new) }
        ensures number { IfOk result (λ number. number ≡ number_for known.names (own_name known.names known.nodes (Some id.now))) }
        ensures inside { IfOk result (λ number. number < length self.new.taken.items) }
    {
        match self.number(id) {
            Some(number) if self.is_taken(number) => self.add_own(),
            Some(number) => Ok(number),
            None => self.insert(alloc, id),
        }
    }

    /// Notes that a node is a message's.
    fn take(&mut self, node: usize)
        requires { node < length self.old.taken.items }
        ensures taken { self.new.taken.items ≡ set self.old.taken.items node true }
        ensures numbers { self.new.numbers ≡ self.old.numbers }
    {
        self.taken[node] = true;
    }
}

//! Trees of one subject are merged.
ghost use Rattle.std.specs.Prelude.{◌≡◌, ◌<◌, ◌+◌, ℕ, List, [], ◌∷◌, ◌++◌, IfOk, OnOk, length, map, fold, get_or, set, None, Some, true, ◌≢◌};
ghost use Rattle.thread_references.specs.Subjects.{Headings, Merging, is_dummy, subject_of, is_reply, goes_under, root_for, replaces, enter, put_under, merge, merge_with, merge_roots, folded_subject};
ghost use Rattle.thread_places.specs.Dates.{in_order};
ghost use Rattle.thread_references.specs.Counts.{IsMerging};

use caseless::default_case_fold_str;
use mail_values::{Bytes, Words};
use std::alloc::{AllocError, Global};
use std::collections::BTreeMap;
use std::marker::Model;
use thread_places::Facts;

/// What merging asks of the messages, in order of date: the subjects in folded case, and which are replies.
#[derive(Drop)]
pub struct MessageHeadings {
    subjects: Words,
    replies: Vec<bool>,
}

impl Model for MessageHeadings {
    ghost use Rattle.thread_references.specs.Subjects.{Headings};

    ghost Value = { Headings };

    ghost view = { λ h. record { subjects = h.subjects; replies = h.replies.items } };
}

impl MessageHeadings {
    /// Returns the headings of messages, in a given order.
    pub fn new(alloc: Global, facts: &[Facts], order: &[usize]) -> Result<Self, AllocError>
        ensures subjects { IfOk result (λ h. h.subjects ≡ in_order [] (map folded_subject facts.now) order.now) }
        ensures replies { IfOk result (λ h. h.replies ≡ in_order true (map (λ f. f.subject.reply) facts.now) order.now) }
    {
        let mut subjects = Words::new(alloc);
        let mut replies = Vec::with_capacity(alloc, order.len())?;
        for place in order {
            subjects.push(folded_at(alloc, facts, *place)?)?;
            replies.push(is_reply_at(facts, *place))?;
        }
        Ok(MessageHeadings { subjects, replies })
    }

    fn is_dummy(&self, root: usize) -> bool
        ensures { result ≡ is_dummy self.now root }
    {
        root >= self.subjects.as_slice().len()
    }

    fn subject(&self, root: usize) -> &[u8]
        ensures { result.now ≡ subject_of self.now root }
    {
        let subjects = self.subjects.as_slice();
        let message = if root < subjects.len() {
            root
        } else {
            root - subjects.len()
        };
        if message < subjects.len() {
            subjects[message].as_slice()
        } else {
            &[]
        }
    }

    fn is_reply(&self, root: usize) -> bool
        ensures { result ≡ is_reply self.now root }
    {
        !self.is_dummy(root) && (root >= self.replies.len() || self.replies[root])
    }

    /// Returns whether a root becomes a child of the one that the table has.
    fn goes_under(&self, root: usize, other: usize) -> bool
        ensures { result ≡ goes_under self.now root other }
    {
        self.is_dummy(other) || (self.is_reply(root) && !self.is_reply(other))
    }

    /// Returns whether a root takes the place of the one that the table has.
    #[tactic(auto, unfolding(crate::specs::Subjects::replaces))]
    fn replaces(&self, root: usize, kept: Option<usize>) -> bool
        ensures { result ≡ replaces self.now root kept }
    {
        match kept {
            None => true,
            Some(other) => !self.is_dummy(other)
                && (self.is_dummy(root) || (self.is_reply(other) && !self.is_reply(root))),
        }
    }
}

/// Returns the subject of a message in folded case.
fn folded_at(alloc: Global, facts: &[Facts], place: usize) -> Result<Bytes, AllocError>
    ensures { IfOk result (λ subject. subject ≡ get_or (map folded_subject facts.now) place []) }
{
    if place >= facts.len() {
        return Ok(Bytes::from_vec(Vec::new(alloc)));
    }
    let folded = default_case_fold_str(alloc, facts[place].subject.text.as_str())?;
    Ok(Bytes::from_vec(folded.into_bytes()))
}

fn is_reply_at(facts: &[Facts], place: usize) -> bool
    ensures { result ≡ get_or (map (λ f. f.subject.reply) facts.now) place true }
{
    place >= facts.len() || facts[place].subject.reply
}

/// The table of subjects, and the parents of messages and dummies.
#[derive(Drop)]
struct Merger {
    parents: Vec<Option<usize>>,
    table: BTreeMap<Vec<u8>, usize>,
}

impl Merger {
    #[tactic(auto, unfolding(crate::specs::Subjects::root_for))]
    fn new(alloc: Global, parents: Vec<Option<usize>>) -> Self
        ensures { IsMerging (record { parents = parents.items; table = [] }) result }
    {
        Merger {
            parents,
            table: BTreeMap::new(alloc),
        }
    }

    /// Returns the root that the table has for a subject.
    fn root_for(&self, subject: &[u8]) -> Option<usize>
        ghost merging: { Merging }
        requires { IsMerging merging self.now }
        ensures { result ≡ root_for merging.table subject.now }
    {
        self.table.get(subject).copied()
    }

    /// Enters a root into the table for a subject.
    fn set_root(&mut self, alloc: Global, subject: &[u8], root: usize) -> Result<(), AllocError>
        ghost merging: { Merging }
        requires { IsMerging merging self.old }
        ensures { OnOk result (IsMerging (record merging { table = (subject.now, root) ∷ merging.table }) self.new) }
    {
        let key = Vec::from_slice(alloc, subject)?;
        self.table.insert(key, root)?;
        Ok(())
    }

    /// Sets the parent of a node.
    fn put_under(&mut self, parent: usize, root: usize)
        ensures parents { self.new.parents.items ≡ set self.old.parents.items root (Some parent) }
        ensures table { self.new.table ≡ self.old.table }
    {
        if root < self.parents.len() {
            self.parents[root] = Some(parent);
        }
    }

    /// Enters a root into the table of subjects, unless the one that is there stays.
    fn enter(
        &mut self,
        alloc: Global,
        headings: &MessageHeadings,
        roots: &[usize],
        i: usize,
    ) -> Result<(), AllocError>
        ghost merging: { Merging }
        requires holds { IsMerging merging self.old }
        requires inside { i < length roots.now }
        ensures { OnOk result (IsMerging (enter headings.now merging (get_or roots.now i 0)) self.new) }
    {
        let root = roots[i];
        let text = headings.subject(root);
        if text.is_empty() {
            return Ok(());
        }
        if !headings.replaces(root, self.root_for(text)) {
            return Ok(());
        }
        self.set_root(alloc, text, root)
    }

    /// Merges a root with the one that the table has for its subject.
    fn merge(
        &mut self,
        alloc: Global,
        headings: &MessageHeadings,
        roots: &[usize],
        i: usize,
    ) -> Result<(), AllocError>
        ghost merging: { Merging }
        requires holds { IsMerging merging self.old }
        requires inside { i < length roots.now }
        ensures { OnOk result (IsMerging (merge headings.now merging (get_or roots.now i 0)) self.new) }
    {
        let root = roots[i];
        let subject = headings.subject(root);
        if subject.is_empty() {
            return Ok(());
        }
        let Some(other) = self.root_for(subject) else {
            return Ok(());
        };
        if other == root {
            return Ok(());
        }
        self.merge_with(alloc, headings, subject, root, other)
    }

    fn merge_with(
        &mut self,
        alloc: Global,
        headings: &MessageHeadings,
        subject: &[u8],
        root: usize,
        other: usize,
    ) -> Result<(), AllocError>
        ghost merging: { Merging }
        requires holds { IsMerging merging self.old }
        requires apart { other ≢ root }
        ensures { OnOk result (IsMerging (merge_with headings.now subject.now root merging (Some other)) self.new) }
    {
        if headings.goes_under(root, other) {
            self.put_under(other, root);
            return Ok(());
        }
        let dummy = headings.subjects.as_slice().len() + other;
        self.set_root(alloc, subject, dummy)?;
        self.put_under(dummy, other);
        self.put_under(dummy, root);
        Ok(())
    }

    fn enter_all(
        &mut self,
        alloc: Global,
        headings: &MessageHeadings,
        roots: &[usize],
    ) -> Result<(), AllocError>
        ghost merging: { Merging }
        requires { IsMerging merging self.old }
        ensures { OnOk result (IsMerging (fold (enter headings.now) merging roots.now) self.new) }
    {
        for i in 0..roots.len() {
            self.enter(alloc, headings, roots, i)?;
        }
        Ok(())
    }

    fn merge_all(
        &mut self,
        alloc: Global,
        headings: &MessageHeadings,
        roots: &[usize],
    ) -> Result<(), AllocError>
        ghost merging: { Merging }
        requires { IsMerging merging self.old }
        ensures { OnOk result (IsMerging (fold (merge headings.now) merging roots.now) self.new) }
    {
        for i in 0..roots.len() {
            self.merge(alloc, headings, roots, i)?;
        }
        Ok(())
    }

    fn merge_roots(
        &mut self,
        alloc: Global,
        headings: &MessageHeadings,
        roots: &[usize],
    ) -> Result<(), AllocError>
        ghost merging: { Merging }
        requires { IsMerging merging self.old }
        ensures { OnOk result (IsMerging (fold (merge headings.now) (fold (enter headings.now) merging roots.now) roots.now) self.new) }
    {
        self.enter_all(alloc, headings, roots)?;
        self.merge_all(alloc, headings, roots)
    }
}

/// Merges the roots that have one subject.
pub fn merge_roots(
    alloc: Global,
    headings: &MessageHeadings,
    roots: &[usize],
    parents: Vec<Option<usize>>,
) -> Result<Vec<Option<usize>>, AllocError>
    ensures { IfOk result (λ merged. merged.items ≡ merge_roots headings.now roots.now parents.items) }
{
    let mut merger = Merger::new(alloc, parents);
    merger.merge_roots(alloc, headings, roots)?;
    Ok(merger.parents)
}

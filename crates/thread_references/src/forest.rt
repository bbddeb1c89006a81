//! Threads of messages.
ghost use Rattle.std.specs.Prelude.{◌≡◌, ◌<◌, ◌≤◌, ◌+◌, ℕ, List, [], ◌∷◌, ◌++◌, IfOk, OnOk, OnErr, length, map, get_or, take, IsPermutation};
ghost use Rattle.std.specs.List.{All};
ghost use Rattle.thread_places.specs.Dates.{date_order, in_order};
ghost use Rattle.thread_references.specs.Subjects.{pruned_parents, parents_of};
ghost use Rattle.thread_references.specs.Listing.{flat_of, root_count, uids_of, Threaded};

use crate::listing::flat;
use crate::pruning::prune;
use crate::subjects::{MessageHeadings, merge_roots};
use crate::trees::{all_children, roots};
use std::alloc::{AllocError, Global};
use std::marker::Model;
use thread_places::{Facts, Linked, date_order};

/// Returns the parents of messages and dummies before trees are merged.
fn pruned_parents(
    alloc: Global,
    linked: &Linked,
    order: &[usize],
) -> Result<Vec<Option<usize>>, AllocError>
    requires order { order.now ≡ date_order linked.now }
    requires inside { All (λ place. place < length linked.now) order.now }
    ensures { IfOk result (λ parents. parents.items ≡ pruned_parents linked.now) }
{
    let found = linked.places(alloc, order)?;
    prune(alloc, found.node_count, &found.places)
}

/// Returns the parents of messages and dummies.
fn parents(
    alloc: Global,
    linked: &Linked,
    order: &[usize],
) -> Result<Vec<Option<usize>>, AllocError>
    requires order { order.now ≡ date_order linked.now }
    requires inside { All (λ place. place < length linked.now) order.now }
    ensures { IfOk result (λ parents. parents.items ≡ parents_of linked.now) }
{
    let pruned = pruned_parents(alloc, linked, order)?;
    let facts = linked.facts();
    let headings = MessageHeadings::new(alloc, facts, order)?;
    let children = all_children(alloc, facts.len(), &pruned)?;
    let roots = roots(alloc, facts.len(), &pruned, &children)?;
    merge_roots(alloc, &headings, &roots, pruned)
}

fn uid_at(facts: &[Facts], place: usize) -> u32
    ensures { result ≡ get_or (map (λ f. f.uid) facts.now) place 0 }
{
    if place < facts.len() {
        facts[place].uid
    } else {
        0
    }
}

/// Returns the UIDs of messages in a given order.
fn uids(alloc: Global, facts: &[Facts], order: &[usize]) -> Result<Vec<u32>, AllocError>
    ensures { IfOk result (λ uids. uids.items ≡ in_order 0 (map (λ f. f.uid) facts.now) order.now) }
{
    let mut uids = Vec::with_capacity(alloc, order.len())?;
    for place in order {
        uids.push(uid_at(facts, *place))?;
    }
    Ok(uids)
}

/// Trees of messages: the UIDs in order of date, the parents of messages and dummies, and how many roots there are.
#[derive(Drop)]
struct Trees {
    uids: Vec<u32>,
    parents: Vec<Option<usize>>,
    roots: usize,
}

impl Trees {
    /// Threads messages that are linked.
    fn new(alloc: Global, linked: &Linked) -> Result<Self, AllocError>
        ensures uids { IfOk result (λ trees. trees.uids.items ≡ uids_of linked.now) }
        ensures parents { IfOk result (λ trees. trees.parents.items ≡ parents_of linked.now) }
        ensures roots { IfOk result (λ trees. trees.roots ≡ root_count linked.now) }
    {
        let facts = linked.facts();
        let order = date_order(alloc, facts)?;
        let parents = parents(alloc, linked, &order)?;
        let children = all_children(alloc, facts.len(), &parents)?;
        let roots = roots(alloc, facts.len(), &parents, &children)?.len();
        let uids = uids(alloc, facts, &order)?;
        Ok(Trees {
            uids,
            parents,
            roots,
        })
    }
}

/// Links a further message, and threads all. After an error the first messages are as they were.
fn add_linked(alloc: Global, linked: &mut Linked, facts: Facts) -> Result<Trees, AllocError>
    ensures linked { OnOk result (linked.new ≡ linked.old ++ facts ∷ []) }
    ensures uids { IfOk result (λ trees. trees.uids.items ≡ uids_of linked.new) }
    ensures parents { IfOk result (λ trees. trees.parents.items ≡ parents_of linked.new) }
    ensures roots { IfOk result (λ trees. trees.roots ≡ root_count linked.new) }
    ensures kept_on_err { OnErr result (take (length linked.old) linked.new ≡ linked.old) }
{
    linked.add(alloc, facts)?;
    Trees::new(alloc, linked)
}

/// Links further messages. After an error the first ones are as they were.
fn link_all(alloc: Global, linked: &mut Linked, facts: &[Facts]) -> Result<(), AllocError>
    ensures linked { OnOk result (linked.new ≡ linked.old ++ facts.now) }
    ensures kept_on_err { OnErr result (take (length linked.old) linked.new ≡ linked.old) }
{
    for i in 0..facts.len() {
        linked.add(alloc, facts[i].copy(alloc)?)?;
    }
    Ok(())
}

/// Links further messages, and threads all. After an error the first messages are as they were.
fn add_all_linked(alloc: Global, linked: &mut Linked, facts: &[Facts]) -> Result<Trees, AllocError>
    ensures linked { OnOk result (linked.new ≡ linked.old ++ facts.now) }
    ensures uids { IfOk result (λ trees. trees.uids.items ≡ uids_of linked.new) }
    ensures parents { IfOk result (λ trees. trees.parents.items ≡ parents_of linked.new) }
    ensures roots { IfOk result (λ trees. trees.roots ≡ root_count linked.new) }
    ensures kept_on_err { OnErr result (take (length linked.old) linked.new ≡ linked.old) }
{
    link_all(alloc, linked, facts)?;
    Trees::new(alloc, linked)
}

/// Threads of messages, seen as the facts that they were made of.
#[derive(Drop)]
pub struct Forest {
    linked: Linked,
    trees: Trees,
    added: usize,
}

impl Model for Forest {
    ghost use Rattle.std.specs.Prelude.{◌≡◌, ◌≤◌, length};
    ghost use Rattle.thread_references.specs.Subjects.{parents_of};
    ghost use Rattle.thread_references.specs.Listing.{root_count, uids_of, Threaded};

    ghost Value = { Threaded };

    ghost view = { λ f. record { facts = f.linked; added = f.added } };

    ghost invariant = { λ f. (f.trees.uids.items ≡ uids_of f.linked) × (f.trees.parents.items ≡ parents_of f.linked) × (f.trees.roots ≡ root_count f.linked) × (f.added ≤ length f.linked) };
}

/// Threads messages, which come by UID.
pub fn threads(alloc: Global, facts: &[Facts]) -> Result<Forest, AllocError>
    ensures facts { IfOk result (λ forest. forest.facts ≡ facts.now) }
    ensures none_added { IfOk result (λ forest. forest.added ≡ 0) }
{
    let linked = Linked::new(alloc, facts)?;
    let trees = Trees::new(alloc, &linked)?;
    Ok(Forest {
        linked,
        trees,
        added: 0,
    })
}

impl Forest {
    /// Returns how many roots there are.
    pub fn roots(&self) -> usize
        ensures { result ≡ root_count self.now.facts }
    {
        self.trees.roots
    }

    /// Returns the UID and the depth of each message: roots from the last to the first, children in order of date, and no dummies.
    pub fn flat(&self, alloc: Global) -> Result<Vec<(u32, u32)>, AllocError>
        ensures equals { IfOk result (λ rows. rows.items ≡ flat_of self.now.facts) }
        ensures each_once { IfOk result (λ rows. IsPermutation (map (λ f. f.uid) self.now.facts) (map (λ r. r.0) rows.items)) }
    {
        flat(alloc, &self.trees.uids, &self.trees.parents)
    }

    /// Threads a further message, of a greater UID. After an error the forest is as it was.
    pub fn add(&mut self, alloc: Global, facts: Facts) -> Result<(), AllocError>
        ensures facts { OnOk result (self.new.facts ≡ self.old.facts ++ facts ∷ []) }
        ensures added { OnOk result (self.new.added ≡ self.old.added + 1) }
        ensures unchanged_on_err { OnErr result (self.new ≡ self.old) }
    {
        let count = self.linked.facts().len();
        match add_linked(alloc, &mut self.linked, facts) {
            Ok(trees) => {
                self.trees = trees;
                self.added += 1;
                Ok(())
            }
            Err(error) => {
                self.linked.truncate(count);
                Err(error)
            }
        }
    }

    /// Threads further messages, of ascending and greater UIDs. Beside what their references cost this costs as much as one `add`. After
    /// an error the forest is as it was.
    pub fn add_all(&mut self, alloc: Global, facts: &[Facts]) -> Result<(), AllocError>
        ensures facts { OnOk result (self.new.facts ≡ self.old.facts ++ facts.now) }
        ensures added { OnOk result (self.new.added ≡ self.old.added + length facts.now) }
        ensures unchanged_on_err { OnErr result (self.new ≡ self.old) }
    {
        let count = self.linked.facts().len();
        match add_all_linked(alloc, &mut self.linked, facts) {
            Ok(trees) => {
                self.trees = trees;
                self.added += facts.len();
                Ok(())
            }
            Err(error) => {
                self.linked.truncate(count);
                Err(error)
            }
        }
    }

    /// Returns the facts that the threads were made of.
    pub fn facts(&self) -> &[Facts]
        ensures { result.now ≡ self.now.facts }
    {
        self.linked.facts()
    }

    /// Returns how many messages were added since the threads were made.
    pub fn added(&self) -> usize
        ensures { result ≡ self.now.added }
    {
        self.added
    }
}

//! Pruning: dummies without children go, and others are replaced by their children.
ghost use Rattle.std.specs.Prelude.{◌≡◌, ◌<◌, ◌≤◌, ◌+◌, ℕ, [], IfOk, OnOk, length, map, get_or, set, take, position, count_by, None, Some, is_some, if◌then◌else◌};
ghost use Rattle.std.specs.List.{All};
ghost use Rattle.thread_references.specs.Trees.{is_topmost, pruned_parent, prune};
ghost use Rattle.thread_references.specs.Counts.{CountsTopmost};

use std::alloc::{AllocError, Global};
use thread_places::{Place, set_first};

/// For each node how many messages are left at the top of its tree, and which is the first.
#[derive(Drop)]
struct Topmost {
    counts: Vec<usize>,
    firsts: Vec<Option<usize>>,
}

impl Topmost {
    fn new(alloc: Global, node_count: usize) -> Result<Self, AllocError>
        ensures { IfOk result (λ topmost. CountsTopmost node_count [] topmost) }
    {
        Ok(Topmost {
            counts: vec![in alloc; 0; node_count]?,
            firsts: vec![in alloc; None; node_count]?,
        })
    }

    /// Counts a message that is left at the top of a node's tree.
    fn count(&mut self, node: usize, message: usize)
        requires counts { node < length self.old.counts.items }
        requires firsts { node < length self.old.firsts.items }
        requires room { get_or self.old.counts.items node 0 < 4294967295 }
        ensures counts { self.new.counts.items ≡ set self.old.counts.items node (get_or self.old.counts.items node 0 + 1) }
        ensures firsts { self.new.firsts.items ≡ (if is_some (get_or self.old.firsts.items node None) then self.old.firsts.items else set self.old.firsts.items node (Some message)) }
    {
        self.counts[node] += 1;
        set_first(&mut self.firsts, node, message);
    }

    fn count_at(&self, node: usize) -> usize
        requires { node < length self.now.counts.items }
        ensures { result ≡ get_or self.now.counts.items node 0 }
    {
        self.counts[node]
    }

    fn first_at(&self, node: usize) -> Option<usize>
        requires { node < length self.now.firsts.items }
        ensures { result ≡ get_or self.now.firsts.items node None }
    {
        self.firsts[node]
    }

    /// Counts a message if no message is above it.
    fn add(&mut self, places: &[Place], message: usize)
        requires inside { message < length places.now }
        requires counted { CountsTopmost (length self.old.counts.items) (take message places.now) self.old }
        requires tops { All (λ p. p.top < length self.old.counts.items) places.now }
        requires room { length places.now < 4294967295 }
        ensures counted { CountsTopmost (length self.old.counts.items) (take (message + 1) places.now) self.new }
    {
        let place = places[message];
        if !place.above.is_some() {
            self.count(place.top, message);
        }
    }

    /// Counts the messages that are left at the top of each tree.
    fn of(alloc: Global, node_count: usize, places: &[Place]) -> Result<Self, AllocError>
        requires tops { All (λ p. p.top < node_count) places.now }
        requires room { length places.now < 4294967295 }
        ensures { IfOk result (λ topmost. CountsTopmost node_count places.now topmost) }
    {
        let mut topmost = Topmost::new(alloc, node_count)?;
        for message in 0..places.len() {
            topmost.add(places, message);
        }
        Ok(topmost)
    }

    /// Returns the parent that a message has once dummies are pruned.
    fn parent(&self, places: &[Place], place: Place) -> Option<usize>
        requires counted { CountsTopmost (length self.now.counts.items) places.now self.now }
        requires top { place.top < length self.now.counts.items }
        requires room { length places.now < 4294967295 }
        ensures { result ≡ pruned_parent places.now place.top place.above }
    {
        if place.above.is_some() {
            return place.above;
        }
        if self.count_at(place.top) <= 1 {
            return None;
        }
        match self.first_at(place.top) {
            Some(first) => Some(places.len() + first),
            None => None,
        }
    }
}

/// Returns the parent of each message, and then of each dummy.
pub fn prune(
    alloc: Global,
    node_count: usize,
    places: &[Place],
) -> Result<Vec<Option<usize>>, AllocError>
    requires tops { All (λ p. p.top < node_count) places.now }
    requires room { length places.now < 4294967295 }
    ensures { IfOk result (λ parents. parents.items ≡ prune places.now) }
{
    let topmost = Topmost::of(alloc, node_count, places)?;
    let mut parents = Vec::with_capacity(alloc, 2 * places.len())?;
    for place in places {
        parents.push(topmost.parent(places, *place))?;
    }
    for more in 0..places.len() {
        parents.push(None)?;
    }
    Ok(parents)
}

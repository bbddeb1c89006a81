//! Trees of messages: the children of each node, and the roots.
ghost use Rattle.std.specs.Prelude.{◌≡◌, ◌<◌, ◌+◌, ℕ, List, [], ◌∷◌, ◌++◌, IfOk, OnOk, length, map, get_or, set, None, Some, if◌then◌else◌};
ghost use Rattle.std.specs.List.{range_with_len};
ghost use Rattle.thread_references.specs.Counts.{with_child};
ghost use Rattle.thread_references.specs.Trees.{parent_through, parent_at, all_children, is_first, roots_at, roots_of};

use std::alloc::{AllocError, Global};
use std::marker::Model;
use thread_places::entry;

/// The children of a node, seen as the list of their numbers.
#[derive(Drop)]
pub struct Children {
    nodes: Vec<usize>,
}

impl Model for Children {
    ghost use Rattle.std.specs.Prelude.{List, ℕ};

    ghost Value = { List ℕ };

    ghost view = { λ c. c.nodes.items };
}

impl Children {
    pub fn new(alloc: Global) -> Self
        ensures { result ≡ [] }
    {
        Children {
            nodes: Vec::new(alloc),
        }
    }

    pub fn as_slice(&self) -> &[usize]
        ensures { result.now ≡ self.now }
    {
        &self.nodes
    }

    pub fn push(&mut self, node: usize) -> Result<(), AllocError>
        ensures { OnOk result (self.new ≡ self.old ++ node ∷ []) }
    {
        self.nodes.push(node)?;
        Ok(())
    }
}

/// Returns the parent that a node has if dummies with a parent are replaced by their children.
#[tactic(auto, unfolding(crate::specs::Trees::parent_through, crate::specs::Trees::replaced_by))]
pub fn parent_through(
    message_count: usize,
    parents: &[Option<usize>],
    parent: Option<usize>,
) -> Option<usize>
    ensures { result ≡ parent_through message_count parents.now parent }
{
    let parent = parent?;
    if parent < message_count {
        return Some(parent);
    }
    match entry(parents, parent) {
        Some(above) => Some(above),
        None => Some(parent),
    }
}

/// Appends a child to those of a node.
#[tactic(auto, unfolding(crate::specs::Counts::with_child))]
fn add_child(
    children: &mut Vec<Children>,
    parent: Option<usize>,
    child: usize,
) -> Result<(), AllocError>
    ensures { OnOk result (children.new.items ≡ with_child children.old.items parent child) }
{
    if let Some(parent) = parent {
        if parent < children.len() {
            children[parent].push(child)?;
        }
    }
    Ok(())
}

fn no_children(alloc: Global, node_count: usize) -> Result<Vec<Children>, AllocError>
    ensures { IfOk result (λ children. children.items ≡ map (λ _. []) (range_with_len 0 node_count)) }
{
    let mut children = Vec::with_capacity(alloc, node_count)?;
    for node in 0..node_count {
        children.push(Children::new(alloc))?;
    }
    Ok(children)
}

/// Returns the children of each message and each dummy.
pub fn all_children(
    alloc: Global,
    message_count: usize,
    parents: &[Option<usize>],
) -> Result<Vec<Children>, AllocError>
    requires { message_count < 9223372036854775808 }
    ensures { IfOk result (λ children. children.items ≡ all_children message_count parents.now) }
{
    let mut children = no_children(alloc, message_count + message_count)?;
    for message in 0..message_count {
        let parent = parent_through(message_count, parents, entry(parents, message));
        add_child(&mut children, parent, message)?;
    }
    Ok(children)
}

/// Returns the children of a node, of which there are none past the last.
pub fn children_at(children: &[Children], node: usize) -> &[usize]
    ensures { result.now ≡ get_or children.now node [] }
{
    if node < children.len() {
        children[node].as_slice()
    } else {
        &[]
    }
}

#[tactic(auto, unfolding(crate::specs::Trees::is_first))]
fn is_first(node: usize, nodes: &[usize]) -> bool
    ensures { result ≡ is_first node nodes.now }
{
    match nodes {
        [first, ..] => *first == node,
        [] => false,
    }
}

/// Appends the root whose date is that of a message.
#[tactic(auto, unfolding(crate::specs::Trees::roots_at))]
fn push_root(
    roots: &mut Vec<usize>,
    message_count: usize,
    children: &[Children],
    message: usize,
    parent: Option<usize>,
) -> Result<(), AllocError>
    ensures { OnOk result (roots.new.items ≡ roots.old.items ++ roots_at message_count children.now message parent) }
{
    match parent {
        None => roots.push(message)?,
        Some(parent) => {
            if parent >= message_count && is_first(message, children_at(children, parent)) {
                roots.push(parent)?;
            }
        }
    }
    Ok(())
}

/// Returns the roots in order of date.
#[tactic(auto, unfolding(crate::specs::Trees::roots_of))]
pub fn roots(
    alloc: Global,
    message_count: usize,
    parents: &[Option<usize>],
    children: &[Children],
) -> Result<Vec<usize>, AllocError>
    requires { children.now ≡ all_children message_count parents.now }
    ensures { IfOk result (λ roots. roots.items ≡ roots_of message_count parents.now) }
{
    let mut roots = Vec::new(alloc);
    for message in 0..message_count {
        let parent = parent_through(message_count, parents, entry(parents, message));
        push_root(&mut roots, message_count, children, message, parent)?;
    }
    Ok(roots)
}

//! The list of the messages of some trees.
ghost use Rattle.std.specs.Prelude.{◌≡◌, ◌<◌, ◌+◌, ℕ, List, [], ◌∷◌, ◌++◌, IfOk, OnOk, length, map, get_or, reverse};
ghost use Rattle.thread_references.specs.Trees.{all_children, roots_of};
ghost use Rattle.thread_references.specs.Listing.{at_depth, rows_of, list_from, flat};

use crate::trees::{Children, all_children, children_at, roots};
use std::alloc::{AllocError, Global};

/// Puts nodes before those that wait, the first of them first.
fn wait_for(waiting: &mut Vec<(usize, u32)>, nodes: &[usize], depth: u32) -> Result<(), AllocError>
    ensures { OnOk result (waiting.new.items ≡ waiting.old.items ++ reverse (at_depth depth nodes.now)) }
{
    let mut at = nodes.len();
    while at > 0 {
        at -= 1;
        waiting.push((nodes[at], depth))?;
    }
    Ok(())
}

/// Appends a row if a node is a message.
fn push_row(
    rows: &mut Vec<(u32, u32)>,
    uids: &[u32],
    node: usize,
    depth: u32,
) -> Result<(), AllocError>
    ensures { OnOk result (rows.new.items ≡ rows.old.items ++ rows_of uids.now (node, depth)) }
{
    if node < uids.len() {
        rows.push((uids[node], depth))?;
    }
    Ok(())
}

/// Lists the messages of trees from some nodes on, the last of these first.
fn list_from(
    alloc: Global,
    uids: &[u32],
    children: &[Children],
    mut waiting: Vec<(usize, u32)>,
) -> Result<Vec<(u32, u32)>, AllocError>
    ensures { IfOk result (λ rows. rows.items ≡ list_from uids.now children.now (length uids.now + length uids.now) (reverse waiting.items)) }
{
    let mut rows = Vec::with_capacity(alloc, uids.len())?;
    for step in 0..uids.len() + uids.len() {
        let Some((node, depth)) = waiting.pop() else {
            return Ok(rows);
        };
        push_row(&mut rows, uids, node, depth)?;
        let Some(below) = depth.checked_add(1) else {
            return Err(AllocError);
        };
        wait_for(&mut waiting, children_at(children, node), below)?;
    }
    Ok(rows)
}

/// Returns UIDs and depths, roots from the last to the first.
pub fn flat(
    alloc: Global,
    uids: &[u32],
    parents: &[Option<usize>],
) -> Result<Vec<(u32, u32)>, AllocError>
    ensures { IfOk result (λ rows. rows.items ≡ flat uids.now parents.now) }
{
    let children = all_children(alloc, uids.len(), parents)?;
    let roots = roots(alloc, uids.len(), parents, &children)?;
    let mut waiting = Vec::with_capacity(alloc, roots.len())?;
    for root in &roots {
        waiting.push((*root, 0))?;
    }
    list_from(alloc, uids, &children, waiting)
}

//! Reads the tree of a message.
ghost use Rattle.std.specs.Prelude.{◌≡◌, ◌≤◌, length, All, IfOk};
ghost use Rattle.mime_tree.specs.Opening.{tree_of, IsPlaced};
ghost use Rattle.mime_tree.specs.Laws.{HasDistinctSections};

use crate::media::is_alternative;
use crate::opening::{message, parts_in};
use crate::parts::Tree;
use header_words::fields;
use std::alloc::{AllocError, Global};

/// Reads the tree of a message. Every list of bytes has one, so only memory can fail. Each part is a place of the message, and no
/// two have the same section.
#[tactic(auto, unfolding(crate::specs::Opening::tree_of))]
pub fn tree(alloc: Global, bytes: &[u8]) -> Result<Tree<'_>, AllocError>
    ensures equals { IfOk result (λ t. t ≡ tree_of bytes.now) }
    ensures few { IfOk result (λ t. length t.parts ≤ 1000) }
    ensures distinct { IfOk result (λ t. HasDistinctSections t.parts) }
    ensures placed { IfOk result (λ t. All (IsPlaced bytes.now) t.parts) }
{
    let header = fields(alloc, bytes)?;
    let message = message(alloc, bytes, &header)?;
    let alternative = is_alternative(&message.content);
    let parts = parts_in(alloc, bytes, message)?;
    Ok(Tree::new(header, alternative, parts))
}

//! Laws of the definitions, each the contract of a function that does nothing.
ghost use Rattle.std.specs.Prelude.{◌≡◌, ℕ, Bool, None};
ghost use Rattle.thread_references.specs.Rewriting.{Trees, parents_in, pruned_in, rewrite_top};

/// Pruning by its result is pruning by rewriting (RFC 5256, REFERENCES, step 3), for all trees: if each dummy below the top is replaced by
/// its children, and each dummy at the top too unless it has more than one, then each message's parent is the nearest message above it, or
/// if there is none, the dummy at the top if more than one message is left there.
pub fn pruning_is_rewriting()
    ensures { (is_message : ℕ → Bool) → (trees : Trees) → pruned_in is_message trees ≡ parents_in is_message None (rewrite_top is_message trees) }
{}

//! Laws of the definitions. Each is the contract of a function that does nothing.
ghost use Rattle.std.specs.Prelude.{List, ℕ};
ghost use Rattle.mime_tree.specs.Tree.{TreeValue};
ghost use Rattle.mime_tree.specs.Laws.{NothingWaits, OpensMessage, OuterLinesEndParts, GivesLeafToShow};

/// States that 2,001 steps are enough for every message: no node waits after them. Each step opens a multipart or a message, or
/// makes a node a leaf.
pub fn nothing_waits()
    ensures { (bytes : List ℕ) → NothingWaits bytes }
{}

/// States that no line of a part, however deep in a multipart, is a delimiter line of that multipart. So a delimiter line of an
/// outer multipart always ends the inner parts.
pub fn outer_lines_end_parts()
    ensures { (bytes : List ℕ) → OuterLinesEndParts bytes }
{}

/// States how a tree opens, without counting steps: the first node that waits is opened if it may be and the tree then has at most
/// 1,000 parts; else it is a leaf.
pub fn opens_in_tree_order()
    ensures { (bytes : List ℕ) → OpensMessage bytes }
{}

/// States which leaf is shown, without counting steps: one that counts, and each multipart around it chooses the child that the leaf
/// is in. An alternative chooses the child of its last leaf that counts, any other multipart that of its first.
pub fn multiparts_choose_a_child()
    ensures { (t : TreeValue) → GivesLeafToShow t }
{}

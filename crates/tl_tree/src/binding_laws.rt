//! Laws of scopes. The functions do nothing: their contracts are the laws.

ghost use Rattle.tl_tree.specs.Arena.{items_of};
ghost use Rattle.tl_tree.specs.ScopeLaws.{NodesStand, KnowsWhereNodesStand, BinderFinds, FindsBindersOfText, OnlyNamesHaveBinders};
ghost use Rattle.tl_tree.specs.ScopeLaws.{StatementsSeeBefore, BoundDetermines};

use crate::tree::Tree;

/// Where a node is said to stand in its tree, it stands: the root does, and what is within a node that stands somewhere.
pub fn nodes_stand(tree: &Tree)
    ensures { NodesStand (items_of tree.now) }
{}

/// In the tree of a text it is known of each node that stands somewhere: the root, and each part of a node that stands. So it stands at one
/// place only.
pub fn knows_where_nodes_stand(text: &str)
    ensures { KnowsWhereNodesStand text.now }
{}

/// What `binder` answers for a name that stands somewhere is the search of the scopes from there: the last of the names declared so far
/// that is equal to it, and where there is none, what it finds around the owner. There is no binder exactly where no owner around declares
/// the name.
pub fn binder_finds(tree: &Tree)
    ensures { BinderFinds (items_of tree.now) }
{}

/// In the tree of a text `binder` answers so for each name that stands somewhere, with nothing known of it before.
pub fn finds_binders_of_text(text: &str)
    ensures { FindsBindersOfText text.now }
{}

/// Only a name that stands somewhere has a binder, and finds it from there.
pub fn only_names_have_binders(tree: &Tree)
    ensures { OnlyNamesHaveBinders (items_of tree.now) }
{}

/// A statement stands in the scope of the names that its owner declares before its block, of what the statements before it declare, and of
/// what it declares itself exactly where it is a `local function`, a `local terra` or a `local struct`.
pub fn statements_see_before(tree: &Tree)
    ensures { StatementsSeeBefore (items_of tree.now) }
{}

/// Where two texts bind alike, each use of a local in one finds its declaration as that in the other does: by as many owners to go
/// outwards, at the same position, in the same node.
pub fn bound_determines_binders(tree: &Tree, other: &Tree)
    ensures { BoundDetermines (items_of tree.now) (items_of other.now) }
{}

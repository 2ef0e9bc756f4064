// What the nodes of a tree hold, for a reader that knows of which kind they are. A node of another kind has no names, no statements and the
// empty text.

ghost use Rattle.std.specs.Prelude.{◌≡◌};
ghost use Rattle.tl_tree.specs.Arena.{items_of};
ghost use Rattle.tl_tree.specs.Code.{name_at, path_method_of, path_names_at, place_at, place_of_piece, statements_at};
ghost use Rattle.tl_tree.specs.Nodes.{item_at};

use crate::node::{Node, Piece};
use crate::tree::Tree;
use tl_base::{NodeId, Place};

/// The method's name of a path.
pub fn path_method(tree: &Tree<'_>, path: NodeId) -> Option<NodeId>
    ensures { result ≡ path_method_of (item_at (items_of tree.now) path) }
{
    match tree.node(path) {
        Node::Piece(Piece::Path(_, method)) => *method,
        _ => None,
    }
}

/// The names of a path, without the method's.
pub fn path_names<'a>(tree: &'a Tree<'a>, path: NodeId) -> &'a [NodeId]
    ensures { result.now ≡ path_names_at (items_of tree.now) path }
{
    match tree.node(path) {
        Node::Piece(Piece::Path(names, _)) => names.as_slice(),
        _ => &[],
    }
}

/// The statements of a block.
pub fn block_statements<'a>(tree: &'a Tree<'a>, block: NodeId) -> &'a [NodeId]
    ensures { result.now ≡ statements_at (items_of tree.now) block }
{
    match tree.node(block) {
        Node::Piece(Piece::Block(statements)) => statements.as_slice(),
        _ => &[],
    }
}

/// The text of a name.
pub fn name<'a>(tree: &'a Tree<'a>, node: NodeId) -> &'a str
    ensures { result.now ≡ name_at (items_of tree.now) node }
{
    match tree.node(node) {
        Node::Name(_, _, text) => text,
        _ => "",
    }
}

/// The place of a node.
pub fn place(tree: &Tree<'_>, node: NodeId) -> Place
    ensures { result ≡ place_at (items_of tree.now) node }
{
    match tree.node(node) {
        Node::Name(place, _, _)
        | Node::Numeral(place, _)
        | Node::Literal(place, _)
        | Node::Expression(place, _)
        | Node::Statement(place, _)
        | Node::TerraExpression(place, _)
        | Node::TerraStatement(place, _) => *place,
        Node::Piece(piece) => piece_place(piece),
    }
}

/// The place of a piece that has one.
fn piece_place(piece: &Piece) -> Place
    ensures { result ≡ place_of_piece piece.now }
{
    match piece {
        Piece::TerraBody(place, _, _, _)
        | Piece::Parameter(place, _, _)
        | Piece::SpliceParameter(place, _)
        | Piece::Variable(place, _, _) => *place,
        _ => Place { line: 0, word: 0 },
    }
}

// What the nodes of a tree hold.

ghost use Rattle.std.specs.Prelude.{◌≡◌};
ghost use Rattle.tl_tree.specs.Arena.{items_of};
ghost use Rattle.tl_tree.specs.Code.{function_at, body_of};
ghost use Rattle.tl_tree.specs.Nodes.{item_of};

use tl_base::NodeId;
use tl_tree::code::path_method;
use tl_tree::{Node, Piece, Statement, Tree};

/// What a function has: whether it has an implicit `self`, its parameters, whether `...` is one more, and its block.
#[derive(Clone, Copy)]
pub struct Parts<'a> {
    pub method: bool,
    pub names: &'a [NodeId],
    pub variadic: bool,
    pub block: NodeId,
}

/// The parts of the function with this body.
fn body_parts<'a>(method: bool, node: &'a Node<'a>) -> Parts<'a>
    ensures method { result.method ≡ (body_of method (item_of node.now)).method }
    ensures names { result.names.now ≡ (body_of method (item_of node.now)).names }
    ensures variadic { result.variadic ≡ (body_of method (item_of node.now)).variadic }
    ensures block { result.block ≡ (body_of method (item_of node.now)).block }
{
    match node {
        Node::Piece(Piece::Body(names, variadic, block)) => Parts {
            method,
            names: names.as_slice(),
            variadic: *variadic,
            block: *block,
        },
        _ => Parts {
            method: false,
            names: &[],
            variadic: false,
            block: NodeId(0),
        },
    }
}

/// The parts of the function of a node.
pub fn function_parts<'a>(tree: &'a Tree<'a>, function: NodeId) -> Parts<'a>
    ensures method { result.method ≡ (function_at (items_of tree.now) function).method }
    ensures names { result.names.now ≡ (function_at (items_of tree.now) function).names }
    ensures variadic { result.variadic ≡ (function_at (items_of tree.now) function).variadic }
    ensures block { result.block ≡ (function_at (items_of tree.now) function).block }
{
    let node = tree.node(function);
    match node {
        Node::Statement(_, Statement::Function(path, body)) => {
            body_parts(path_method(tree, *path).is_some(), tree.node(*body))
        }
        _ => body_parts(false, node),
    }
}

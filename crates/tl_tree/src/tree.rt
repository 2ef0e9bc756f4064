// Trees.
ghost use Rattle.std.specs.Prelude.{◌≡◌};
ghost use Rattle.tl_tree.specs.Nodes.{item_of, absent_item};

use crate::node::{Expression, Node};
use tl_base::{NodeId, Place};

/// The tree of a text: its nodes in the order of the text, a node's children before it, so that the root is the last.
#[derive(Drop)]
pub struct Tree<'a> {
    nodes: Vec<Node<'a>>,
    /// The place of the end of the text.
    finish: Place,
    /// Stands for nodes that the tree has not.
    absent: Node<'a>,
    ghost absent_is: { item_of absent ≡ absent_item },
}

impl<'a> Tree<'a> {
    ghost use Rattle.std.specs.Prelude.{◌<◌, ◌≤◌, length, map};
    ghost use Rattle.tl_tree.specs.Nodes.{last_of, item_at};
    ghost use Rattle.tl_tree.specs.Arena.{items_of, end_of};

    /// The tree with these nodes, of a text that ends at this place.
    pub fn new(nodes: Vec<Node<'a>>, finish: Place) -> Tree<'a>
        ensures nodes { items_of result ≡ map item_of nodes.entry.items }
        ensures finish { end_of result ≡ finish }
    {
        Tree {
            nodes,
            finish,
            absent: Node::Expression(Place { line: 0, word: 0 }, Expression::Nil),
        }
    }

    /// The place of the end of the text: its line, and one more than the tokens that begin on it.
    pub fn finish(&self) -> Place
        ensures { result ≡ end_of self.now }
    {
        self.finish
    }

    /// The number of the root, which is the chunk's block.
    pub fn root(&self) -> NodeId
        ensures { result ≡ last_of (items_of self.now) }
    {
        NodeId(self.nodes.len().saturating_sub(1) as u64)
    }

    /// The node with this number; past the end of the tree `nil` at the place 0:0.
    pub fn node(&self, id: NodeId) -> &Node<'a>
        ensures { item_of result.now ≡ item_at (items_of self.now) id }
    {
        if id.0 < self.nodes.len() as u64 {
            &self.nodes[id.0 as usize]
        } else {
            &self.absent
        }
    }
}

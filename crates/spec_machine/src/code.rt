// What the nodes of a tree hold.

ghost use Rattle.std.specs.Prelude.{◌≡◌};
ghost use Rattle.tl_tree.specs.Arena.{items_of};
ghost use Rattle.tl_tree.specs.Code as kept;
ghost use Rattle.tl_tree.specs.Nodes.{item_at};
ghost use Rattle.spec_model.specs.Nodes as nodes;
ghost use Rattle.spec_machine.specs.Agreeing.{initial_in};

use tl_base::NodeId;
use tl_tree::{Node, Piece, TerraExpression, Tree};

/// The Lua code of an escape, in the place of a name.
pub fn escaped(tree: &Tree<'_>, node: NodeId) -> Option<NodeId>
    ensures { result ≡ nodes.escaped_at (items_of tree.now) node }
{
    match tree.node(node) {
        Node::TerraExpression(_, TerraExpression::Escape(code)) => Some(*code),
        _ => None,
    }
}

/// A name and its type, of a parameter, a variable or an entry.
#[derive(Clone, Copy)]
pub struct Typing {
    pub name: NodeId,
    pub of: Option<NodeId>,
}

/// The name and the type of a node.
pub fn typing_at(tree: &Tree<'_>, node: NodeId) -> Typing
    ensures name { result.name ≡ (nodes.typing_at (items_of tree.now) node).name }
    ensures of { result.of ≡ (nodes.typing_at (items_of tree.now) node).type }
{
    match tree.node(node) {
        Node::Piece(Piece::Parameter(_, name, of)) => Typing {
            name: *name,
            of: Some(*of),
        },
        Node::Piece(Piece::SpliceParameter(_, code)) => Typing {
            name: *code,
            of: None,
        },
        Node::Piece(Piece::Variable(_, name, of)) => Typing {
            name: *name,
            of: *of,
        },
        Node::Piece(Piece::Entry(name, of)) => Typing {
            name: *name,
            of: Some(*of),
        },
        _ => Typing {
            name: NodeId(0),
            of: None,
        },
    }
}

/// A Terra function's parameters, its result type and its block.
#[derive(Clone, Copy)]
pub struct TerraParts<'a> {
    pub parameters: &'a [NodeId],
    pub of: Option<NodeId>,
    pub block: NodeId,
}

/// The parts of a Terra function with this body.
pub fn terra_parts<'a>(tree: &'a Tree<'a>, body: NodeId) -> TerraParts<'a>
    ensures parameters { result.parameters.now ≡ (nodes.terra_parts_at (items_of tree.now) body).parameters }
    ensures of { result.of ≡ (nodes.terra_parts_at (items_of tree.now) body).result }
    ensures block { result.block ≡ (nodes.terra_parts_at (items_of tree.now) body).block }
{
    match tree.node(body) {
        Node::Piece(Piece::TerraBody(_, parameters, of, block)) => TerraParts {
            parameters: parameters.as_slice(),
            of: *of,
            block: *block,
        },
        _ => TerraParts {
            parameters: &[],
            of: None,
            block: NodeId(0),
        },
    }
}

/// A quote's block and its expression.
#[derive(Clone, Copy)]
pub struct QuotedParts {
    pub block: NodeId,
    pub value: Option<NodeId>,
}

/// The parts of a quote.
pub fn quoted_parts(tree: &Tree<'_>, quote: NodeId) -> QuotedParts
    ensures block { result.block ≡ (nodes.quoted_at (items_of tree.now) quote).block }
    ensures value { result.value ≡ (nodes.quoted_at (items_of tree.now) quote).value }
{
    match tree.node(quote) {
        Node::Piece(Piece::Quoted(block, value)) => QuotedParts {
            block: *block,
            value: *value,
        },
        _ => QuotedParts {
            block: NodeId(0),
            value: None,
        },
    }
}

/// The name and the value of an initialiser.
#[derive(Clone, Copy)]
pub struct Initial {
    pub name: NodeId,
    pub value: NodeId,
}

/// The name and the value of an initialiser that has a name.
pub fn initial_at(tree: &Tree<'_>, node: NodeId) -> Option<Initial>
    ensures { initial_in result ≡ nodes.initial_at (items_of tree.now) node }
{
    match tree.node(node) {
        Node::Piece(Piece::NamedField(name, value)) => Some(Initial {
            name: *name,
            value: *value,
        }),
        _ => None,
    }
}

/// Whether initialisers have names: the first one has.
pub fn are_named(tree: &Tree<'_>, initials: &[NodeId]) -> bool
    ensures { result ≡ nodes.are_named (items_of tree.now) initials.now }
{
    match initials.first() {
        Some(first) => initial_at(tree, *first).is_some(),
        None => false,
    }
}

/// The condition and the block of an arm.
pub fn arm_parts(tree: &Tree<'_>, node: NodeId) -> (NodeId, NodeId)
    ensures condition { result.0 ≡ kept.arm_condition (item_at (items_of tree.now) node) }
    ensures block { result.1 ≡ kept.arm_block (item_at (items_of tree.now) node) }
{
    match tree.node(node) {
        Node::Piece(Piece::Arm(condition, block)) => (*condition, *block),
        _ => (NodeId(0), NodeId(0)),
    }
}

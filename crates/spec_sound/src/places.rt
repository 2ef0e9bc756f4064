// That the trees of the code have places of a text. Each function does nothing but read the numbers of places.

ghost use Rattle.tl_tree.specs.Arena.{items_of};
ghost use Rattle.tl_tree.specs.Code.{place_of_piece};
ghost use Rattle.tl_tree.specs.Item as kept;
ghost use Rattle.tl_tree.specs.Nodes.{item_of};
ghost use Rattle.spec_sound.specs.Places.{IsSmall, IsSmallItem};
ghost use Rattle.spec_sound.specs.Sound.{word_of, ArePlaced};

use tl_base::{NodeId, Place};
use tl_tree::{Node, Piece, Statement, Tree};

/// The nodes of a tree have places of a text, as specialisation asks.
pub fn places_fit(tree: &Tree<'_>)
    ensures { ArePlaced (items_of tree.now) }
{
    let root = tree.root();
    'nodes: for number in 0..root.0 {
        node_fits(tree.node(NodeId(number)));
    }
    node_fits(tree.node(root));
}

/// The places of a node have numbers of 32 bits.
fn node_fits(node: &Node<'_>)
    ensures { IsSmallItem (item_of node.now) }
{
    match node {
        Node::Name(place, _, _)
        | Node::Numeral(place, _)
        | Node::Literal(place, _)
        | Node::Expression(place, _)
        | Node::TerraExpression(place, _)
        | Node::TerraStatement(place, _) => place_fits(*place),
        Node::Statement(place, statement) => {
            place_fits(*place);
            word_fits(*place, statement);
        }
        Node::Piece(piece) => piece_fits(piece),
    }
}

/// So has that of the word `terra` of a statement.
fn word_fits(place: Place, statement: &Statement)
    ensures { IsSmall (word_of (kept.Statement place statement.now)) }
{
    match statement {
        Statement::LocalTerra(word, _, _) | Statement::LocalDeclareTerra(word, _, _) => place_fits(
            *word,
        ),
        _ => place_fits(place),
    }
}

/// And that of a piece.
fn piece_fits(piece: &Piece)
    ensures { IsSmall (place_of_piece piece.now) }
{
    match piece {
        Piece::TerraBody(place, _, _, _)
        | Piece::Parameter(place, _, _)
        | Piece::SpliceParameter(place, _)
        | Piece::Variable(place, _, _) => place_fits(*place),
        _ => place_fits(Place { line: 0, word: 0 }),
    }
}

/// A place has numbers of 32 bits.
fn place_fits(place: Place)
    ensures { IsSmall place }
{
    let _line = place.line;
    let _word = place.word;
}

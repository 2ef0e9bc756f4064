// Reading of whole texts.
ghost use Rattle.std.specs.Prelude.{◌≡◌, ◌≤◌, length, Ok, Err};
ghost use Rattle.tl_base.specs.declared.place.Place.{Place};
ghost use Rattle.tl_lex.specs.declared.SyntaxKind.{SyntaxKind};
ghost use Rattle.tl_tree.specs.Tree as trees;
ghost use Rattle.tl_tree.specs.Tokens.{finish_of};
ghost use Rattle.tl_tree.specs.Texts.{Reads, Refuses};
ghost use Rattle.tl_parse.specs.Whole.{GivesTree, GivesRefusal, ComesOf};

use crate::error::SyntaxError;
use crate::parser::{BlockCode, Parser};
use std::alloc::Global;
use tl_lex::LONGEST_TEXT;
use tl_tree::{Context, Mode, Tree};

/// The levels of nesting of a text.
const LEVELS: u32 = 100;

/// The tree of a text of Lua and Terra code (Lua 5.1 manual, section 8, and the grammar of `tl_tree`), or the refusal
/// of its first token with
/// which no such text goes on.
///
/// A text has exactly one tree or exactly one refusal (`tl_tree::laws::one_answer_of_text`). That is the result, unless memory runs
/// out: the nodes are those of the tree, in their order, and `finish` is the place where the text ends.
pub fn parse<'a>(alloc: Global, text: &'a str) -> Result<Tree<'a>, SyntaxError>
    requires { length text.now ≤ LONGEST_TEXT }
    ensures tree { (tree : trees.Tree) → Reads text.now tree → GivesTree tree (finish_of text.now) result }
    ensures refused { (kind : SyntaxKind) (place : Place) → Refuses text.now kind place → GivesRefusal kind place result }
    ensures only { ComesOf text.now result }
{
    let mut parser = Parser::new(alloc, text);
    let context = Context {
        mode: Mode::Variadic,
        in_loop: false,
        emits: false,
    };
    read!(parser.block(BlockCode::Lua(context), LEVELS));
    if !parser.at_end() {
        return Err(parser.refusal());
    }
    let finish = parser.finish();
    Ok(Tree::new(parser.into_nodes(), finish))
}

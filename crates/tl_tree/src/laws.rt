//! Laws of the grammar. The functions do nothing: their contracts are the laws.

ghost use Rattle.tl_tree.specs.Laws.{HasOneAnswer, HasOneTree, HasOwnNumbers, IsChunk, SpellsTokens};
ghost use Rattle.tl_tree.specs.Kinds.{HasWellFormedTrees};
ghost use Rattle.tl_tree.specs.Children.{LaysChildrenFirst, IsLaidOutApart};
ghost use Rattle.tl_tree.specs.Texts.{HasOneTextAnswer, GoesOnUnrefused, GoesOnAsText};

/// A text has exactly one tree, or is refused at exactly one place for exactly one reason.
pub fn one_answer_of_text(text: &str)
    ensures { HasOneTextAnswer text.now }
{}

/// Each list of tokens has exactly one tree or exactly one refusal.
pub fn one_answer()
    ensures { HasOneAnswer IsChunk }
{}

/// A text has at most one tree.
pub fn one_tree(text: &str)
    ensures { HasOneTree IsChunk text.now }
{}

/// What goes on as a list of tokens goes on as a text: where some list of tokens that begins with the first tokens of
/// a text is read, so is a text with the same bytes up to the last of them, both with the limits aside. So the row of
/// unexpected tokens holds at a token exactly where no text with the same tokens up to it is read. Where no row holds
/// at the first tokens of a text, it goes on behind them too.
pub fn goes_on_as_text()
    ensures chunks { GoesOnAsText IsChunk }
    ensures unrefused_chunks { GoesOnUnrefused IsChunk }
{}

/// The tree of a text is a block of Lua code, in which each child is of the kind that its parent wants: an expression
/// where one stands, a name where one is declared, as a target of an assignment no call, and so on. A list stands
/// only where one is wanted.
pub fn well_formed_trees(text: &str)
    ensures { HasWellFormedTrees text.now }
{}

/// In the nodes that a well-formed block lays out, each child has a smaller number than its parent.
pub fn children_first()
    ensures { LaysChildrenFirst }
{}

/// Two well-formed blocks that lay out the same nodes are one: the nodes of a text's tree, as the code keeps them,
/// have no other tree.
pub fn laid_out_apart()
    ensures { IsLaidOutApart }
{}

/// Each symbol has a number of its own, but for those that break a rule of tokens. So a class of tokens, which goes
/// by these numbers, holds the tokens of its symbols and no others.
pub fn own_numbers()
    ensures { HasOwnNumbers }
{}

/// The reserved words and the signs by whose spelling a token has its symbol are those that the rules of tokens know.
pub fn spellings()
    ensures { SpellsTokens }
{}

// Tests of the next token.
ghost use Rattle.std.specs.Prelude.{◌≡◌, ◌<◌, true, false, [], ◌&&◌};
ghost use Rattle.tl_tree.specs.declared.symbol.Symbol.TheVariants as symbols;
ghost use Rattle.tl_tree.specs.LuaExpressions as lua;
ghost use Rattle.tl_tree.specs.TerraExpressions as terra;
ghost use Rattle.tl_tree.specs.Symbols.{is_bad, has};
ghost use Rattle.tl_tree.specs.Tokens.{among, is};
ghost use Rattle.tl_tree.specs.Grammar.{begins, blame};
ghost use Rattle.tl_parse.specs.Views.Parsing.{tokens_left, end_of, Refuses, HasNext};
ghost use Rattle.tl_parse.specs.Views.Using.{symbol_at};
ghost use Rattle.tl_parse.specs.Views.Ranks.{rank_at, is_ranked, is_of_rank};
ghost use Rattle.tl_parse.specs.Views.Expressions.{is_simple, simple_symbols, is_types, is_variadic};
ghost use Rattle.tl_parse.specs.Views.Statements.{first_place};
ghost use Rattle.tl_parse.specs.Views.Blocks.{goes_on, plain_statements};

use crate::error::SyntaxError;
use crate::parser::{BlockCode, Parser};
use crate::symbols::{
    NO_OPERATOR, has, is_prefix, is_simple, is_statement, is_suffix, number_of, rank_of,
};
use tl_base::Place;
use tl_lex::SyntaxKind;
use tl_tree::{Mode, Symbol};

static TERRA_SUFFIX: [Symbol; 5] = [
    Symbol::OpenParen,
    Symbol::OpenBracket,
    Symbol::Dot,
    Symbol::Colon,
    Symbol::OpenBrace,
];

static TERRA_STATEMENT: [Symbol; 13] = [
    Symbol::Name,
    Symbol::OpenParen,
    Symbol::OpenBracket,
    Symbol::At,
    Symbol::Do,
    Symbol::While,
    Symbol::Repeat,
    Symbol::If,
    Symbol::For,
    Symbol::Var,
    Symbol::Escape,
    Symbol::Return,
    Symbol::Break,
];

/// Why a token is refused with which the grammar does not go on.
fn blame(symbol: Symbol) -> SyntaxKind
    ensures { result ≡ blame symbol }
{
    match symbol {
        Symbol::Bad(kind) => kind,
        _ => SyntaxKind::Unexpected,
    }
}

fn is_types(mode: Mode) -> bool
    ensures { result ≡ is_types mode }
{
    match mode {
        Mode::Types => true,
        _ => false,
    }
}

fn is_variadic(mode: Mode) -> bool
    ensures { result ≡ is_variadic mode }
{
    match mode {
        Mode::Variadic => true,
        _ => false,
    }
}

impl<'a> Parser<'a> {
    /// Is the next token this one?
    #[tactic(auto, unfolding(crate::specs::Views::Parsing::tokens_left))]
    pub(crate) fn next_is(&self, symbol: Symbol) -> bool
        requires { is_bad symbol ≡ false }
        ensures { result ≡ begins (is symbol) (tokens_left self.now) }
    {
        !self.current.is_end && number_of(symbol) == number_of(self.current.symbol)
    }

    /// Is the next token one of these?
    #[tactic(auto, using(crate::proofs::Looking::next_is_among), unfolding(crate::specs::Views::Parsing::tokens_left))]
    pub(crate) fn next_is_among(&self, symbols: &[Symbol]) -> bool
        requires { has symbols.now 65 ≡ false }
        ensures { result ≡ begins (among symbols.now) (tokens_left self.now) }
    {
        !self.current.is_end && has(symbols, number_of(self.current.symbol))
    }

    /// The symbol of the next token, or of the end.
    #[tactic(auto, using(crate::proofs::Looking::next_symbol), unfolding(crate::specs::Views::Parsing::tokens_left))]
    #[inline(always)]
    pub(crate) fn next_symbol(&self) -> Symbol
        ensures { result ≡ symbol_at (tokens_left self.now) }
    {
        if self.current.is_end {
            Symbol::Finish
        } else {
            self.current.symbol
        }
    }

    /// The rank of the next token.
    #[tactic(auto, using(crate::proofs::Ranks::next_rank), unfolding(crate::specs::Views::Parsing::tokens_left))]
    #[inline(always)]
    pub(crate) fn next_rank(&self) -> u8
        ensures { result ≡ rank_at (tokens_left self.now) }
    {
        if self.current.is_end {
            NO_OPERATOR
        } else {
            rank_of(self.current.symbol)
        }
    }

    /// Has the next token a rank from this one on, before that one?
    #[inline(always)]
    pub(crate) fn next_is_ranked(&self, from: u8, end: u8) -> bool
        ensures { result ≡ is_ranked from end (tokens_left self.now) }
    {
        let rank = self.next_rank();
        from <= rank && rank < end
    }

    /// Is the next token an operator of this rank?
    #[tactic(auto, using(crate::proofs::Ranks::begins_of_rank))]
    pub(crate) fn next_is_of_rank(&self, rank: u8) -> bool
        requires { rank < 6 }
        ensures { result ≡ begins (is_of_rank rank) (tokens_left self.now) }
    {
        self.next_rank() == rank
    }

    /// Is there no next token?
    #[tactic(auto, using(crate::proofs::Looking::some_left), unfolding(crate::specs::Views::Parsing::tokens_left))]
    pub(crate) fn at_end(&self) -> bool
        ensures end { result ≡ true → tokens_left self.now ≡ [] }
        ensures more { result ≡ false → tokens_left self.now ≡ [] → ⊥ }
    {
        self.current.is_end
    }

    /// The place where the text ends, of which no token is left.
    #[tactic(auto, using(crate::proofs::Looking::finish_is))]
    pub(crate) fn finish(&self) -> Place
        requires { tokens_left self.now ≡ [] }
        ensures { result ≡ end_of self.now }
    {
        self.current.place
    }

    /// The refusal of the next token, where the grammar does not go on with it.
    #[tactic(auto, using(crate::proofs::Looking::blames, crate::proofs::Looking::end_blame), unfolding(crate::specs::Views::Parsing::tokens_left))]
    pub(crate) fn refusal(&self) -> SyntaxError
        ensures { Refuses self.now result }
    {
        let place = self.current.place;
        let kind = if self.current.is_end {
            SyntaxKind::Unexpected
        } else {
            blame(self.current.symbol)
        };
        SyntaxError::Refused { kind, place }
    }

    /// Does the next token follow a prefix expression of Terra code, and belong to it?
    #[tactic(auto, using(crate::proofs::TerraLooking::suffixes))]
    pub(crate) fn next_is_terra_suffix(&self) -> bool
        ensures { result ≡ begins (λ t. terra.is_terra_suffix t) (tokens_left self.now) }
    {
        if self.next_is_barred(Mode::Types) {
            return false;
        }
        self.next_is_among(&TERRA_SUFFIX)
    }

    /// Is the next token a `[` that is first on its line, in a type of Terra code?
    fn next_is_barred(&self, mode: Mode) -> bool
        ensures { result ≡ (is_types mode && (begins (is symbols.OpenBracket) (tokens_left self.now) && self.now.current.first_on_line)) }
    {
        is_types(mode) && self.next_is(Symbol::OpenBracket) && self.current.first_on_line
    }

    /// Does the next token follow a prefix expression, wherever that stands?
    #[tactic(auto, using(crate::proofs::Looking::next_is_among), unfolding(crate::specs::Views::Parsing::tokens_left))]
    #[inline(always)]
    fn next_is_any_suffix(&self) -> bool
        ensures { result ≡ begins (among lua.suffix_symbols) (tokens_left self.now) }
    {
        !self.current.is_end && is_suffix(self.current.symbol)
    }

    /// Does the next token follow a prefix expression, and belong to it?
    #[tactic(auto, using(crate::proofs::Looking::suffixes))]
    #[inline(always)]
    pub(crate) fn next_is_suffix(&self, mode: Mode) -> bool
        ensures { result ≡ begins (λ t. lua.is_suffix mode t) (tokens_left self.now) }
    {
        if self.next_is_barred(mode) {
            return false;
        }
        self.next_is_any_suffix()
    }

    /// Is the next token an operator before its operand?
    #[tactic(auto, using(crate::proofs::Looking::next_is_among), unfolding(crate::specs::Views::Parsing::tokens_left))]
    pub(crate) fn next_is_prefix(&self) -> bool
        ensures { result ≡ begins (among lua.prefix_symbols) (tokens_left self.now) }
    {
        !self.current.is_end && is_prefix(self.current.symbol)
    }

    /// Does the next token begin an operand that is no prefix expression, in all functions?
    #[tactic(auto, using(crate::proofs::Looking::next_is_among), unfolding(crate::specs::Views::Parsing::tokens_left))]
    fn next_is_plain_simple(&self) -> bool
        ensures { result ≡ begins (among simple_symbols) (tokens_left self.now) }
    {
        !self.current.is_end && is_simple(self.current.symbol)
    }

    /// Does the next token begin an operand that is no prefix expression?
    #[tactic(auto, using(crate::proofs::Looking::begins_varargs), unfolding(crate::specs::Views::Expressions::is_simple))]
    pub(crate) fn next_is_simple(&self, mode: Mode) -> bool
        ensures { result ≡ is_simple mode (tokens_left self.now) }
    {
        self.next_is_plain_simple() || (is_variadic(mode) && self.next_is(Symbol::Ellipsis))
    }

    /// The place of the next token.
    #[tactic(auto, using(crate::proofs::StatementTurns::next_place))]
    pub(crate) fn next_place(&self) -> Place
        requires { HasNext (tokens_left self.now) }
        ensures { result ≡ first_place (tokens_left self.now) }
    {
        self.current.place
    }

    /// Does the next token begin a statement, in all blocks of Lua code?
    #[tactic(auto, using(crate::proofs::Looking::next_is_among), unfolding(crate::specs::Views::Parsing::tokens_left))]
    fn next_is_statement(&self) -> bool
        ensures { result ≡ begins (among plain_statements) (tokens_left self.now) }
    {
        !self.current.is_end && is_statement(self.current.symbol)
    }

    /// May the next token begin one more statement of a block, which has ended or hasn't?
    #[tactic(auto, using(crate::proofs::Blocks::going_on))]
    pub(crate) fn next_goes_on(&self, block: BlockCode, ended: bool) -> bool
        ensures { result ≡ begins (λ t. goes_on block ended t) (tokens_left self.now) }
    {
        if ended {
            return false;
        }
        match block {
            BlockCode::Lua(context) => {
                if self.next_is(Symbol::Break) {
                    return context.in_loop;
                }
                if self.next_is(Symbol::Emit) {
                    return context.emits;
                }
                self.next_is_statement()
            }
            BlockCode::Terra => self.next_is_among(&TERRA_STATEMENT),
        }
    }
}

// The parser: the token before it, and the nodes that it made.
ghost use Rattle.std.specs.Prelude.{◌≡◌, ◌<◌, ◌≤◌, length, true, false, [], ◌∷◌, ◌++◌, map};
ghost use Rattle.std.specs.Prelude.{IfOk, IfErr};
ghost use Rattle.tl_tree.specs.Nodes.{item_of};
ghost use Rattle.tl_tree.specs.Forms as forms;
ghost use Rattle.tl_tree.specs.Numbers.{largest_terra};
ghost use Rattle.tl_parse.specs.Views.TerraExpressions.{terra_number_at};
ghost use Rattle.tl_lex.specs.Lexing.{answers_left};
ghost use Rattle.tl_tree.specs.Symbols.{is_bad, has};
ghost use Rattle.tl_tree.specs.Tokens.{tokens_in};
ghost use Rattle.tl_tree.specs.Grammar.{calls, chain_too_long};
ghost use Rattle.tl_parse.specs.Views.Using.{is_number, sign_at, open_at, sign_among_at, prefix_at, operator_at, raise_at};
ghost use Rattle.tl_parse.specs.Views.Using.{call_at, number_at, is_end, bar_of};
ghost use Rattle.tl_parse.specs.Views.Ranks.{ranked_at};

use crate::error::SyntaxError;
use crate::numerals::is_above;
use std::alloc::Global;
use tl_base::limits::LARGEST_NUMBER;
use tl_base::{NodeId, Place};
use tl_lex::{LONGEST_TEXT, LexError, Lexer, SyntaxKind, TokenKind};
use tl_tree::{
    BinaryOperator, Context, Expression, Mode, Node, NodeList, OperandKind, Symbol, TokenUse,
    symbol_of,
};

/// How many tokens may continue a chain.
pub(crate) const CHAIN: u32 = 1000;

/// The largest number of Terra code without a suffix.
const LARGEST_INT: u64 = 2_147_483_647;

/// The largest number with the suffix `LL`.
const LARGEST_LONG: u64 = 9_223_372_036_854_775_807;

static TERRA_NUMERAL: [Symbol; 3] = [
    Symbol::Numeral,
    Symbol::LongNumeral,
    Symbol::UnsignedNumeral,
];

/// A token as the grammar sees it, or the end.
#[derive(Clone, Copy)]
pub(crate) struct Next<'a> {
    pub(crate) symbol: Symbol,
    pub(crate) text: &'a str,
    pub(crate) place: Place,
    pub(crate) offset: u32,
    pub(crate) first_on_line: bool,
    pub(crate) is_end: bool,
}

/// An operand or a prefix expression: its node, how many more tokens may continue its chain, and what it is.
#[derive(Clone, Copy)]
pub(crate) struct Operand {
    pub(crate) node: NodeId,
    pub(crate) links: u32,
    pub(crate) kind: OperandKind,
}

/// The language of an expression.
#[derive(Clone, Copy)]
pub(crate) enum Code {
    Lua(Mode),
    Terra,
}

/// What a list with commas holds.
#[derive(Clone, Copy)]
pub(crate) enum Element {
    Expression(Code),
    Target(Mode),
    TerraVariable,
    TerraParameter,
}

/// The language of a block.
#[derive(Clone, Copy)]
pub(crate) enum BlockCode {
    Lua(Context),
    Terra,
}

/// Reads tokens from left to right, one ahead, and keeps the nodes that it made.
#[derive(Drop)]
pub(crate) struct Parser<'a> {
    lexer: Lexer<'a>,
    pub(crate) current: Next<'a>,
    nodes: Vec<Node<'a>>,
    alloc: Global,
    /// Where the next token is the end, that is where the text ends.
    ghost ends: { current.is_end ≡ true → current.place ≡ (tokens_in (answers_left lexer)).finish },
}

impl<'a> Next<'a> {
    ghost use Rattle.tl_parse.specs.Views.Looking.{IsNext};

    /// The answer of the lexer as a token.
    #[inline(always)]
    fn new(answer: Result<tl_lex::Token<'a>, LexError>) -> Next<'a>
        ensures { IsNext answer.entry result }
    {
        match answer {
            Ok(token) => Next {
                symbol: symbol_of(token.kind, token.text),
                text: token.text,
                place: token.place,
                offset: token.offset,
                first_on_line: token.first_on_line,
                is_end: is_end(token.kind),
            },
            Err(error) => Next {
                symbol: Symbol::Bad(error.kind),
                text: "",
                place: error.place,
                offset: 0,
                first_on_line: error.place.word == 1,
                is_end: false,
            },
        }
    }
}

fn is_spent(usage: TokenUse) -> bool
    ensures { result ≡ chain_too_long usage }
{
    match usage {
        TokenUse::Continues(links) | TokenUse::Calls(links) => links == 0,
        _ => false,
    }
}

fn calls(usage: TokenUse) -> bool
    ensures { result ≡ calls usage }
{
    match usage {
        TokenUse::Calls(_) => true,
        _ => false,
    }
}

/// Why the limits refuse a use of a token, if they do.
fn bar(opens: bool, levels: u32, usage: TokenUse, first_on_line: bool) -> Option<SyntaxKind>
    ensures { result ≡ bar_of opens levels usage first_on_line }
{
    if (opens && levels == 0) || is_spent(usage) {
        Some(SyntaxKind::TooDeep)
    } else if calls(usage) && first_on_line {
        Some(SyntaxKind::Ambiguous)
    } else {
        None
    }
}

fn is_end(kind: TokenKind) -> bool
    ensures { result ≡ is_end kind }
{
    match kind {
        TokenKind::End => true,
        _ => false,
    }
}

impl<'a> Parser<'a> {
    ghost use Rattle.tl_parse.specs.Views.Parsing.{tokens_left, items_of, Pushed, HasNext, Fails, TookToken, TookPlace, Closed};
    ghost use Rattle.tl_parse.specs.Views.Looking.{BeginsAt, Advanced};
    ghost use Rattle.tl_parse.specs.Views.Taking.{Uses, Barred};
    ghost use Rattle.tl_parse.specs.Views.Joining.{Joined};

    /// A parser before the first token of a text.
    #[tactic(auto, using(crate::proofs::Looking::begins_at))]
    pub(crate) fn new(alloc: Global, text: &'a str) -> Parser<'a>
        requires { length text.now ≤ LONGEST_TEXT }
        ensures { BeginsAt text.now result }
    {
        let mut lexer = Lexer::new(text);
        let current = Next::new(lexer.next_token());
        Parser {
            lexer,
            current,
            nodes: Vec::new(alloc),
            alloc,
        }
    }

    /// The nodes that it made.
    #[tactic(auto, unfolding(crate::specs::Views::Parsing::items_of))]
    pub(crate) fn into_nodes(self) -> Vec<Node<'a>>
        ensures { map item_of result.items ≡ items_of self.entry }
    {
        let Parser {
            lexer: _,
            current: _,
            nodes,
            alloc: _,
        } = self;
        nodes
    }

    /// Adds a node.
    #[inline(always)]
    pub(crate) fn push(&mut self, node: Node<'a>) -> Result<NodeId, SyntaxError>
        ensures ok { IfOk result (λ id. Pushed self.old self.new node.entry id) }
        ensures err { IfErr result (λ e. e ≡ SyntaxError.NoMemory) }
    {
        self.nodes.push(node)?;
        Ok(NodeId((self.nodes.len() - 1) as u64))
    }

    /// Adds a node, and gives it as an operand in a chain that so many tokens may continue.
    #[inline(always)]
    pub(crate) fn push_operand(
        &mut self,
        node: Node<'a>,
        links: u32,
        kind: OperandKind,
    ) -> Result<Operand, SyntaxError>
        ensures ok { IfOk result (λ r. Pushed self.old self.new node.entry r.node) }
        ensures links { IfOk result (λ r. r.links ≡ links) }
        ensures kind { IfOk result (λ r. r.kind ≡ kind) }
        ensures err { IfErr result (λ e. e ≡ SyntaxError.NoMemory) }
    {
        let node = read!(self.push(node));
        Ok(Operand { node, links, kind })
    }

    /// Passes over the next token.
    #[tactic(auto, using(crate::proofs::Looking::advanced))]
    #[inline(never)]
    fn pass(&mut self)
        requires { HasNext (tokens_left self.old) }
        ensures { Advanced self.old self.new self.old.current }
    {
        self.current = Next::new(self.lexer.next_token());
    }

    /// Takes the next token.
    #[inline(always)]
    fn next(&mut self) -> Next<'a>
        requires { HasNext (tokens_left self.old) }
        ensures { Advanced self.old self.new result }
    {
        let token = self.current;
        self.pass();
        token
    }

    /// Takes the next token, where the limits allow its use.
    #[tactic(auto, using(crate::proofs::Taking::advancing))]
    #[inline(always)]
    fn advance(
        &mut self,
        opens: bool,
        levels: u32,
        usage: TokenUse,
    ) -> Result<Next<'a>, SyntaxError>
        requires next { HasNext (tokens_left self.old) }
        requires sized { is_number usage ≡ false }
        ensures ok { IfOk result (λ t. Uses opens levels usage self.old self.new t) }
        ensures err { IfErr result (λ e. Barred opens levels usage self.old e) }
    {
        match bar(opens, levels, usage, self.current.first_on_line) {
            Some(kind) => Err(SyntaxError::Refused {
                kind,
                place: self.current.place,
            }),
            None => Ok(self.next()),
        }
    }

    /// Takes this token, which has no other use.
    pub(crate) fn take_token(&mut self, symbol: Symbol) -> Result<Next<'a>, SyntaxError>
        requires { is_bad symbol ≡ false }
        ensures ok { IfOk result (λ t. TookToken self.old self.new (sign_at symbol (tokens_left self.old)) t) }
        ensures err { IfErr result (λ e. Fails self.old (sign_at symbol (tokens_left self.old)) e) }
    {
        if self.next_is(symbol) {
            Ok(read!(self.advance(false, 0, TokenUse::Plain)))
        } else {
            Err(self.refusal())
        }
    }

    /// Takes this token, which has no other use, and gives its place.
    #[tactic(auto, using(crate::proofs::Taking::place_taken))]
    #[inline(always)]
    pub(crate) fn take(&mut self, symbol: Symbol) -> Result<Place, SyntaxError>
        requires { is_bad symbol ≡ false }
        ensures ok { IfOk result (λ place. TookPlace self.old self.new (sign_at symbol (tokens_left self.old)) place) }
        ensures err { IfErr result (λ e. Fails self.old (sign_at symbol (tokens_left self.old)) e) }
    {
        let token = read!(self.take_token(symbol));
        Ok(token.place)
    }

    /// Takes this token, which has no other use, and adds the node that it ends.
    #[tactic(auto, using(crate::proofs::Taking::closed))]
    #[inline(always)]
    pub(crate) fn close(&mut self, symbol: Symbol, node: Node<'a>) -> Result<NodeId, SyntaxError>
        requires { is_bad symbol ≡ false }
        ensures ok { IfOk result (λ id. Closed self.old self.new (sign_at symbol (tokens_left self.old)) node.entry id) }
        ensures err { IfErr result (λ e. Fails self.old (sign_at symbol (tokens_left self.old)) e) }
    {
        pass!(self.take(symbol));
        self.push(node)
    }

    /// The same of an operand in a chain that so many tokens may continue.
    #[inline(always)]
    pub(crate) fn close_operand(
        &mut self,
        symbol: Symbol,
        node: Node<'a>,
        links: u32,
        kind: OperandKind,
    ) -> Result<Operand, SyntaxError>
        requires { is_bad symbol ≡ false }
        ensures ok { IfOk result (λ r. Closed self.old self.new (sign_at symbol (tokens_left self.old)) node.entry r.node) }
        ensures links { IfOk result (λ r. r.links ≡ links) }
        ensures kind { IfOk result (λ r. r.kind ≡ kind) }
        ensures err { IfErr result (λ e. Fails self.old (sign_at symbol (tokens_left self.old)) e) }
    {
        let node = read!(self.close(symbol, node));
        Ok(Operand { node, links, kind })
    }

    /// Takes this token, which opens a level of nesting where so many are left, and gives its place.
    pub(crate) fn open(&mut self, symbol: Symbol, levels: u32) -> Result<Place, SyntaxError>
        requires { is_bad symbol ≡ false }
        ensures ok { IfOk result (λ place. TookPlace self.old self.new (open_at symbol levels (tokens_left self.old)) place) }
        ensures level { IfOk result (λ _. 0 < levels) }
        ensures err { IfErr result (λ e. Fails self.old (open_at symbol levels (tokens_left self.old)) e) }
    {
        if self.next_is(symbol) {
            let token = read!(self.advance(true, levels, TokenUse::Plain));
            Ok(token.place)
        } else {
            Err(self.refusal())
        }
    }

    /// Takes one of these tokens, which has no other use, and gives its place.
    #[tactic(auto, using(crate::proofs::Taking::taking_place), unfolding(crate::specs::Views::Using::sign_among_at))]
    pub(crate) fn take_among(&mut self, symbols: &[Symbol]) -> Result<Place, SyntaxError>
        requires { has symbols.now 65 ≡ false }
        ensures ok { IfOk result (λ place. TookPlace self.old self.new (sign_among_at symbols.now (tokens_left self.old)) place) }
        ensures err { IfErr result (λ e. Fails self.old (sign_among_at symbols.now (tokens_left self.old)) e) }
    {
        if self.next_is_among(symbols) {
            let token = read!(self.advance(false, 0, TokenUse::Plain));
            Ok(token.place)
        } else {
            Err(self.refusal())
        }
    }

    /// Takes one of these tokens, which opens a level of nesting where so many are left.
    #[tactic(auto, using(crate::proofs::Taking::taking, crate::proofs::Taking::level_left), unfolding(crate::specs::Views::Using::prefix_at))]
    pub(crate) fn open_among(
        &mut self,
        symbols: &[Symbol],
        levels: u32,
    ) -> Result<Next<'a>, SyntaxError>
        requires { has symbols.now 65 ≡ false }
        ensures ok { IfOk result (λ t. TookToken self.old self.new (prefix_at symbols.now levels (tokens_left self.old)) t) }
        ensures level { IfOk result (λ _. 0 < levels) }
        ensures err { IfErr result (λ e. Fails self.old (prefix_at symbols.now levels (tokens_left self.old)) e) }
    {
        if self.next_is_among(symbols) {
            Ok(read!(self.advance(true, levels, TokenUse::Plain)))
        } else {
            Err(self.refusal())
        }
    }

    /// Takes one of these tokens, which continues a chain that so many may continue.
    #[tactic(auto, using(crate::proofs::Taking::taking, crate::proofs::Taking::chain_left), unfolding(crate::specs::Views::Using::operator_at))]
    pub(crate) fn operator(
        &mut self,
        symbols: &[Symbol],
        links: u32,
    ) -> Result<Next<'a>, SyntaxError>
        requires { has symbols.now 65 ≡ false }
        ensures ok { IfOk result (λ t. TookToken self.old self.new (operator_at symbols.now links (tokens_left self.old)) t) }
        ensures chain { IfOk result (λ _. 0 < links) }
        ensures err { IfErr result (λ e. Fails self.old (operator_at symbols.now links (tokens_left self.old)) e) }
    {
        if self.next_is_among(symbols) {
            Ok(read!(self.advance(false, 0, TokenUse::Continues(links))))
        } else {
            Err(self.refusal())
        }
    }

    /// Takes the sign of a suffix, one of these, which continues a chain that so many may continue, and gives its place.
    #[tactic(auto, using(crate::proofs::Taking::place_taken))]
    #[inline(always)]
    pub(crate) fn suffix_sign(
        &mut self,
        symbols: &[Symbol],
        links: u32,
    ) -> Result<Place, SyntaxError>
        requires { has symbols.now 65 ≡ false }
        ensures ok { IfOk result (λ place. TookPlace self.old self.new (operator_at symbols.now links (tokens_left self.old)) place) }
        ensures chain { IfOk result (λ _. 0 < links) }
        ensures err { IfErr result (λ e. Fails self.old (operator_at symbols.now links (tokens_left self.old)) e) }
    {
        let token = read!(self.operator(symbols, links));
        Ok(token.place)
    }

    /// Takes an operator of this rank, which continues a chain that so many may continue.
    #[tactic(auto, using(crate::proofs::Taking::taking, crate::proofs::Taking::chain_left), unfolding(crate::specs::Views::Ranks::ranked_at))]
    pub(crate) fn ranked_operator(&mut self, rank: u8, links: u32) -> Result<Next<'a>, SyntaxError>
        requires { rank < 6 }
        ensures ok { IfOk result (λ t. TookToken self.old self.new (ranked_at rank links (tokens_left self.old)) t) }
        ensures chain { IfOk result (λ _. 0 < links) }
        ensures err { IfErr result (λ e. Fails self.old (ranked_at rank links (tokens_left self.old)) e) }
    {
        if self.next_is_of_rank(rank) {
            Ok(read!(self.advance(false, 0, TokenUse::Continues(links))))
        } else {
            Err(self.refusal())
        }
    }

    /// Takes this token, which opens a level and continues a chain.
    pub(crate) fn raise(
        &mut self,
        symbol: Symbol,
        levels: u32,
        links: u32,
    ) -> Result<Next<'a>, SyntaxError>
        requires { is_bad symbol ≡ false }
        ensures ok { IfOk result (λ t. TookToken self.old self.new (raise_at symbol levels links (tokens_left self.old)) t) }
        ensures level { IfOk result (λ _. 0 < levels) }
        ensures chain { IfOk result (λ _. 0 < links) }
        ensures err { IfErr result (λ e. Fails self.old (raise_at symbol levels links (tokens_left self.old)) e) }
    {
        if self.next_is(symbol) {
            Ok(read!(self.advance(true, levels, TokenUse::Continues(links))))
        } else {
            Err(self.refusal())
        }
    }

    /// Takes the bracket of a suffix, which opens a level and continues a chain, and gives its place.
    #[tactic(auto, using(crate::proofs::Taking::place_taken))]
    #[inline(always)]
    pub(crate) fn open_suffix(
        &mut self,
        symbol: Symbol,
        levels: u32,
        links: u32,
    ) -> Result<Place, SyntaxError>
        requires { is_bad symbol ≡ false }
        ensures ok { IfOk result (λ place. TookPlace self.old self.new (raise_at symbol levels links (tokens_left self.old)) place) }
        ensures level { IfOk result (λ _. 0 < levels) }
        ensures chain { IfOk result (λ _. 0 < links) }
        ensures err { IfErr result (λ e. Fails self.old (raise_at symbol levels links (tokens_left self.old)) e) }
    {
        let token = read!(self.raise(symbol, levels, links));
        Ok(token.place)
    }

    /// Takes the bracket that calls what is before it, and gives its place.
    #[tactic(auto, using(crate::proofs::Taking::calling), unfolding(crate::specs::Views::Using::call_at))]
    pub(crate) fn open_call(&mut self, levels: u32, links: u32) -> Result<Place, SyntaxError>
        ensures ok { IfOk result (λ place. TookPlace self.old self.new (call_at levels links (tokens_left self.old)) place) }
        ensures level { IfOk result (λ _. 0 < levels) }
        ensures chain { IfOk result (λ _. 0 < links) }
        ensures err { IfErr result (λ e. Fails self.old (call_at levels links (tokens_left self.old)) e) }
    {
        if self.next_is(Symbol::OpenParen) {
            let token = read!(self.advance(true, levels, TokenUse::Calls(links)));
            Ok(token.place)
        } else {
            Err(self.refusal())
        }
    }

    /// Takes a number of Lua code.
    #[tactic(auto, using(crate::proofs::Numbers::numbers), unfolding(crate::specs::Views::Using::number_at))]
    pub(crate) fn take_number(&mut self) -> Result<Next<'a>, SyntaxError>
        ensures ok { IfOk result (λ t. TookToken self.old self.new (number_at (tokens_left self.old)) t) }
        ensures err { IfErr result (λ e. Fails self.old (number_at (tokens_left self.old)) e) }
    {
        if !self.next_is(Symbol::Numeral) {
            return Err(self.refusal());
        }
        if is_above(self.current.text, LARGEST_NUMBER) {
            return Err(SyntaxError::Refused {
                kind: SyntaxKind::BadNumber,
                place: self.current.place,
            });
        }
        Ok(read!(self.advance(false, 0, TokenUse::Plain)))
    }

    /// Takes a number of Terra code.
    #[tactic(auto, using(crate::proofs::TerraNumbers::numbers), unfolding(crate::specs::Views::TerraExpressions::terra_number_at))]
    pub(crate) fn take_terra_number(&mut self) -> Result<Next<'a>, SyntaxError>
        ensures ok { IfOk result (λ t. TookToken self.old self.new (terra_number_at (tokens_left self.old)) t) }
        ensures err { IfErr result (λ e. Fails self.old (terra_number_at (tokens_left self.old)) e) }
    {
        if !self.next_is_among(&TERRA_NUMERAL) {
            return Err(self.refusal());
        }
        if is_above(self.current.text, largest_terra(self.current.symbol)) {
            return Err(SyntaxError::Refused {
                kind: SyntaxKind::BadNumber,
                place: self.current.place,
            });
        }
        Ok(read!(self.advance(false, 0, TokenUse::Plain)))
    }

    /// No nodes.
    pub(crate) fn no_nodes(&self) -> NodeList
        ensures { result ≡ [] }
    {
        NodeList::new(self.alloc)
    }

    /// A list of one node.
    pub(crate) fn one_node(&self, node: NodeId) -> Result<NodeList, SyntaxError>
        ensures ok { IfOk result (λ list. list ≡ node ∷ []) }
        ensures err { IfErr result (λ e. e ≡ SyntaxError.NoMemory) }
    {
        let mut list = NodeList::new(self.alloc);
        read!(add(&mut list, node));
        Ok(list)
    }

    /// Adds an operator with its operands, in a chain that so many tokens may continue.
    #[inline(always)]
    pub(crate) fn operation(
        &mut self,
        token: Next<'a>,
        a: Operand,
        right: NodeId,
        links: u32,
    ) -> Result<Operand, SyntaxError>
        ensures ok { IfOk result (λ r. Joined self.old self.new token.entry a right links r) }
        ensures err { IfErr result (λ e. e ≡ SyntaxError.NoMemory) }
    {
        self.push_operand(
            Node::Expression(
                token.place,
                Expression::Binary(binary_of(token.symbol), a.node, right),
            ),
            links,
            OperandKind::Other,
        )
    }
}

/// Adds a node to a list.
pub(crate) fn add(list: &mut NodeList, node: NodeId) -> Result<(), SyntaxError>
    ensures ok { IfOk result (λ _. list.new ≡ list.old ++ node ∷ []) }
    ensures err { IfErr result (λ e. e ≡ SyntaxError.NoMemory) }
{
    match list.push(node) {
        Ok(_) => Ok(()),
        Err(_) => Err(SyntaxError::NoMemory),
    }
}

/// The largest number that a numeral of Terra code may stand for.
fn largest_terra(symbol: Symbol) -> u64
    ensures { result ≡ largest_terra symbol }
{
    match symbol {
        Symbol::LongNumeral => LARGEST_LONG,
        Symbol::UnsignedNumeral => u64::MAX,
        _ => LARGEST_INT,
    }
}

/// The operator that a token is, between two operands.
pub(crate) fn binary_of(symbol: Symbol) -> BinaryOperator
    ensures { result ≡ forms.binary_of symbol }
{
    match symbol {
        Symbol::Or => BinaryOperator::Or,
        Symbol::And => BinaryOperator::And,
        Symbol::Less => BinaryOperator::Less,
        Symbol::Greater => BinaryOperator::Greater,
        Symbol::LessEqual => BinaryOperator::LessEqual,
        Symbol::GreaterEqual => BinaryOperator::GreaterEqual,
        Symbol::NotEqual => BinaryOperator::NotEqual,
        Symbol::DoubleEqual => BinaryOperator::Equal,
        Symbol::DoubleDot => BinaryOperator::Concatenate,
        Symbol::DoubleLess => BinaryOperator::ShiftLeft,
        Symbol::DoubleGreater => BinaryOperator::ShiftRight,
        Symbol::Plus => BinaryOperator::Add,
        Symbol::Minus => BinaryOperator::Subtract,
        Symbol::Star => BinaryOperator::Multiply,
        Symbol::Slash => BinaryOperator::Divide,
        Symbol::Percent => BinaryOperator::Modulo,
        Symbol::Caret => BinaryOperator::Power,
        _ => BinaryOperator::Arrow,
    }
}

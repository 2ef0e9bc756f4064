// Reading of Terra expressions.
ghost use Rattle.std.specs.Prelude.{◌≡◌, ◌<◌, ◌≤◌, ◌-◌, ℕ, length, true, false, IfOk, IfErr, [], ◌∷◌};
ghost use Rattle.tl_tree.specs.Symbols.{has, is_bad};
ghost use Rattle.tl_tree.specs.Tokens.{among};
ghost use Rattle.tl_tree.specs.Tree as parts;
ghost use Rattle.tl_tree.specs.Grammar.{begins};
ghost use Rattle.tl_tree.specs.TerraExpressions as terra;
ghost use Rattle.tl_parse.specs.Views.Parsing.{tokens_left, Fails, TookToken, TookTree, TookOperand, TookList};
ghost use Rattle.tl_parse.specs.Views.Parsing.{TookMaybe};
ghost use Rattle.tl_parse.specs.Views.Using.{part_at};
ghost use Rattle.tl_parse.specs.Views.Going.{TookOperation};
ghost use Rattle.tl_parse.specs.Views.TerraExpressions.{escape_at, terra_name_at, terra_paren_at, terra_base_at};
ghost use Rattle.tl_parse.specs.Views.TerraExpressions.{terra_call_suffix_at, terra_index_suffix_at};
ghost use Rattle.tl_parse.specs.Views.TerraExpressions.{terra_select_suffix_at, terra_method_suffix_at};
ghost use Rattle.tl_parse.specs.Views.TerraExpressions.{construct_suffix_at, terra_suffix_at, terra_applied_at};
ghost use Rattle.tl_parse.specs.Views.TerraExpressions.{terra_number_at, terra_number_tree_at, terra_constant_of, terra_constant_at};
ghost use Rattle.tl_parse.specs.Views.TerraExpressions.{terra_simple_at, terra_simple_symbols, terra_primary_at};
ghost use Rattle.tl_parse.specs.Views.TerraExpressions.{terra_prefixed_at, terra_exponent_at, terra_unary_at};
ghost use Rattle.tl_parse.specs.Views.TerraExpressions.{terra_symbols_of, terra_inner_at, terra_first_at};
ghost use Rattle.tl_parse.specs.Views.TerraExpressions.{terra_one_more_at, terra_binary_at};
ghost use Rattle.tl_parse.specs.Views.TerraExpressions.{named_initialiser_at};
ghost use Rattle.tl_parse.specs.Views.TerraExpressions.{initialiser_at, first_initialiser_at, next_initialiser_at};
ghost use Rattle.tl_parse.specs.Views.TerraExpressions.{initialisers_at};
ghost use Rattle.tl_parse.specs.Views.TerraGoing.{TerraJoined, TookTerraSuffix, TookInitialiser};

use crate::error::SyntaxError;
use crate::expressions::{is_name, unary_of};
use crate::parser::{CHAIN, Code, Next, Operand, Parser, add, binary_of};
use tl_base::NodeId;
use tl_tree::{Mode, Node, NodeList, OperandKind, Piece, Symbol, TerraExpression};

/// The precedences of the operators of Terra code, which all group to the left, from the highest.
#[derive(Clone, Copy, PartialEq, Eq)]
pub(crate) enum TerraPrecedence {
    Power,
    Product,
    Sum,
    Shift,
    Comparison,
    Conjunction,
    Disjunction,
}

static POWER: [Symbol; 1] = [Symbol::Caret];

static PRODUCT: [Symbol; 3] = [Symbol::Star, Symbol::Slash, Symbol::Percent];

static SUM: [Symbol; 2] = [Symbol::Plus, Symbol::Minus];

static SHIFT: [Symbol; 2] = [Symbol::DoubleLess, Symbol::DoubleGreater];

static COMPARISON: [Symbol; 6] = [
    Symbol::Less,
    Symbol::Greater,
    Symbol::LessEqual,
    Symbol::GreaterEqual,
    Symbol::NotEqual,
    Symbol::DoubleEqual,
];

static CONJUNCTION: [Symbol; 1] = [Symbol::And];

static DISJUNCTION: [Symbol; 1] = [Symbol::Or];

static PREFIX: [Symbol; 4] = [Symbol::Not, Symbol::Minus, Symbol::At, Symbol::Ampersand];

static SIMPLE: [Symbol; 7] = [
    Symbol::Numeral,
    Symbol::LongNumeral,
    Symbol::UnsignedNumeral,
    Symbol::Literal,
    Symbol::Nil,
    Symbol::False,
    Symbol::True,
];

static NUMERAL: [Symbol; 3] = [
    Symbol::Numeral,
    Symbol::LongNumeral,
    Symbol::UnsignedNumeral,
];

static SEPARATOR: [Symbol; 2] = [Symbol::Comma, Symbol::Semicolon];

static DOT: [Symbol; 1] = [Symbol::Dot];

static COLON: [Symbol; 1] = [Symbol::Colon];

/// The operators of a precedence.
fn terra_symbols_of(precedence: TerraPrecedence) -> &'static [Symbol]
    ensures symbols { result.now ≡ terra_symbols_of precedence }
    ensures good { has result.now 65 ≡ false }
{
    match precedence {
        TerraPrecedence::Power => &POWER,
        TerraPrecedence::Product => &PRODUCT,
        TerraPrecedence::Sum => &SUM,
        TerraPrecedence::Shift => &SHIFT,
        TerraPrecedence::Comparison => &COMPARISON,
        TerraPrecedence::Conjunction => &CONJUNCTION,
        TerraPrecedence::Disjunction => &DISJUNCTION,
    }
}

/// The expression that a word is.
fn terra_constant_of(symbol: Symbol) -> TerraExpression
    ensures { result ≡ terra_constant_of symbol }
{
    match symbol {
        Symbol::Nil => TerraExpression::Nil,
        Symbol::False => TerraExpression::False,
        _ => TerraExpression::True,
    }
}

impl<'a> Parser<'a> {
    /// Numeral, of Terra code
    #[tactic(auto, using(crate::proofs::Failing::failing), unfolding(crate::specs::Views::TerraExpressions::terra_number_tree_at))]
    fn terra_number(&mut self) -> Result<NodeId, SyntaxError>
        ensures ok { IfOk result (λ r. TookTree self.old self.new (terra_number_tree_at (tokens_left self.old)) r) }
        ensures err { IfErr result (λ e. Fails self.old (terra_number_tree_at (tokens_left self.old)) e) }
    {
        let token = read!(self.take_terra_number());
        self.push(Node::Numeral(token.place, token.text))
    }

    /// "nil" | "false" | "true"
    #[tactic(auto, using(crate::proofs::Constants::constants), unfolding(crate::specs::Views::TerraExpressions::terra_constant_at))]
    fn terra_constant(&mut self, symbol: Symbol) -> Result<NodeId, SyntaxError>
        requires { is_bad symbol ≡ false }
        ensures ok { IfOk result (λ r. TookTree self.old self.new (terra_constant_at symbol (tokens_left self.old)) r) }
        ensures err { IfErr result (λ e. Fails self.old (terra_constant_at symbol (tokens_left self.old)) e) }
    {
        let place = read!(self.take(symbol));
        self.push(Node::TerraExpression(place, terra_constant_of(symbol)))
    }

    /// "nil" | "false" | "true" | Numeral | Text
    #[tactic(auto, using(crate::proofs::Failing::failing), unfolding(crate::specs::Views::TerraExpressions::terra_simple_at))]
    fn terra_simple(&mut self) -> Result<NodeId, SyntaxError>
        ensures ok { IfOk result (λ r. TookTree self.old self.new (terra_simple_at (tokens_left self.old)) r) }
        ensures err { IfErr result (λ e. Fails self.old (terra_simple_at (tokens_left self.old)) e) }
    {
        if self.next_is_among(&NUMERAL) {
            return self.terra_number();
        }
        if self.next_is(Symbol::Literal) {
            return self.literal();
        }
        if self.next_is(Symbol::Nil) {
            return self.terra_constant(Symbol::Nil);
        }
        if self.next_is(Symbol::False) {
            return self.terra_constant(Symbol::False);
        }
        self.terra_constant(Symbol::True)
    }

    /// Adds an operator with its operands, in a chain that so many tokens may continue.
    fn terra_operation(
        &mut self,
        token: Next<'a>,
        a: Operand,
        right: NodeId,
        links: u32,
    ) -> Result<Operand, SyntaxError>
        ensures ok { IfOk result (λ r. TerraJoined self.old self.new token.entry a right links r) }
        ensures err { IfErr result (λ e. e ≡ SyntaxError.NoMemory) }
    {
        self.push_operand(
            Node::TerraExpression(
                token.place,
                TerraExpression::Binary(binary_of(token.symbol), a.node, right),
            ),
            links,
            OperandKind::Other,
        )
    }

    /// "[" exp "]", where an expression stands and where a name does
    #[cycle(parser)]
    #[tactic(auto, using(crate::proofs::Failing::failing), unfolding(crate::specs::Views::TerraExpressions::escape_at))]
    pub(crate) fn escape(&mut self, levels: u32) -> Result<NodeId, SyntaxError>
        ensures ok { IfOk result (λ r. TookTree self.old self.new (escape_at levels (tokens_left self.old)) r) }
        ensures err { IfErr result (λ e. Fails self.old (escape_at levels (tokens_left self.old)) e) }
    {
        let place = read!(self.open(Symbol::OpenBracket, levels));
        let code = read!(self.expression(Mode::Plain, levels - 1));
        self.close(
            Symbol::CloseBracket,
            Node::TerraExpression(place, TerraExpression::Escape(code)),
        )
    }

    /// tname = Name | "[" exp "]"
    #[cycle(parser)]
    #[tactic(auto, using(crate::proofs::Failing::failing), unfolding(crate::specs::Views::TerraExpressions::terra_name_at))]
    pub(crate) fn terra_name(&mut self, levels: u32) -> Result<NodeId, SyntaxError>
        ensures ok { IfOk result (λ r. TookTree self.old self.new (terra_name_at levels (tokens_left self.old)) r) }
        ensures err { IfErr result (λ e. Fails self.old (terra_name_at levels (tokens_left self.old)) e) }
    {
        if self.next_is(Symbol::OpenBracket) {
            return self.escape(levels);
        }
        self.name()
    }

    /// "(" texp ")"
    #[cycle(parser)]
    #[tactic(auto, using(crate::proofs::Failing::failing), unfolding(crate::specs::Views::TerraExpressions::terra_paren_at))]
    fn terra_paren(&mut self, levels: u32) -> Result<Operand, SyntaxError>
        ensures ok { IfOk result (λ r. TookOperand self.old self.new (terra_paren_at levels (tokens_left self.old)) r) }
        ensures err { IfErr result (λ e. Fails self.old (terra_paren_at levels (tokens_left self.old)) e) }
    {
        let place = read!(self.open(Symbol::OpenParen, levels));
        let inner = read!(self.terra_expression(levels - 1));
        self.close_operand(
            Symbol::CloseParen,
            Node::TerraExpression(place, TerraExpression::Paren(inner)),
            CHAIN,
            OperandKind::Other,
        )
    }

    /// Name | "[" exp "]" | "(" texp ")"
    #[cycle(parser)]
    #[tactic(auto, using(crate::proofs::Failing::failing), unfolding(crate::specs::Views::TerraExpressions::terra_base_at))]
    fn terra_base(&mut self, levels: u32) -> Result<Operand, SyntaxError>
        ensures ok { IfOk result (λ r. TookOperand self.old self.new (terra_base_at levels (tokens_left self.old)) r) }
        ensures err { IfErr result (λ e. Fails self.old (terra_base_at levels (tokens_left self.old)) e) }
    {
        if self.next_is(Symbol::OpenParen) {
            return self.terra_paren(levels);
        }
        if self.next_is(Symbol::OpenBracket) {
            let node = read!(self.escape(levels));
            return Ok(Operand {
                node,
                links: CHAIN,
                kind: OperandKind::Escape,
            });
        }
        let node = read!(self.name());
        Ok(Operand {
            node,
            links: CHAIN,
            kind: OperandKind::Name,
        })
    }

    /// "(" [texps] ")"
    #[cycle(parser)]
    #[tactic(auto, using(crate::proofs::Taking::shorter), unfolding(crate::specs::Views::TerraExpressions::terra_call_suffix_at))]
    fn terra_call_suffix(&mut self, levels: u32, a: Operand) -> Result<Operand, SyntaxError>
        ensures ok { IfOk result (λ r. TookTerraSuffix self.old self.new (terra_call_suffix_at levels a.links (tokens_left self.old)) a r) }
        ensures err { IfErr result (λ e. Fails self.old (terra_call_suffix_at levels a.links (tokens_left self.old)) e) }
    {
        let place = read!(self.open_call(levels, a.links));
        let arguments = read!(self.arguments(Code::Terra, levels - 1));
        self.close_operand(
            Symbol::CloseParen,
            Node::TerraExpression(place, TerraExpression::Call(a.node, arguments)),
            a.links - 1,
            OperandKind::Call,
        )
    }

    /// "[" texp "]"
    #[cycle(parser)]
    #[tactic(auto, using(crate::proofs::Taking::shorter), unfolding(crate::specs::Views::TerraExpressions::terra_index_suffix_at))]
    fn terra_index_suffix(&mut self, levels: u32, a: Operand) -> Result<Operand, SyntaxError>
        ensures ok { IfOk result (λ r. TookTerraSuffix self.old self.new (terra_index_suffix_at levels a.links (tokens_left self.old)) a r) }
        ensures err { IfErr result (λ e. Fails self.old (terra_index_suffix_at levels a.links (tokens_left self.old)) e) }
    {
        let place = read!(self.open_suffix(Symbol::OpenBracket, levels, a.links));
        let key = read!(self.terra_expression(levels - 1));
        self.close_operand(
            Symbol::CloseBracket,
            Node::TerraExpression(place, TerraExpression::Index(a.node, key)),
            a.links - 1,
            OperandKind::Variable,
        )
    }

    /// "." tname
    #[cycle(parser)]
    #[tactic(auto, using(crate::proofs::Taking::shorter), unfolding(crate::specs::Views::TerraExpressions::terra_select_suffix_at))]
    fn terra_select_suffix(&mut self, levels: u32, a: Operand) -> Result<Operand, SyntaxError>
        ensures ok { IfOk result (λ r.
            TookTerraSuffix self.old self.new (terra_select_suffix_at levels a.links (tokens_left self.old)) a r) }
        ensures err { IfErr result (λ e. Fails self.old (terra_select_suffix_at levels a.links (tokens_left self.old)) e) }
    {
        let place = read!(self.suffix_sign(&DOT, a.links));
        let name = read!(self.terra_name(levels));
        self.push_operand(
            Node::TerraExpression(place, TerraExpression::Select(a.node, name)),
            a.links - 1,
            OperandKind::Variable,
        )
    }

    /// ":" tname "(" [texps] ")"
    #[cycle(parser)]
    #[tactic(auto, using(crate::proofs::Taking::shorter), unfolding(crate::specs::Views::TerraExpressions::terra_method_suffix_at))]
    fn terra_method_suffix(&mut self, levels: u32, a: Operand) -> Result<Operand, SyntaxError>
        ensures ok { IfOk result (λ r.
            TookTerraSuffix self.old self.new (terra_method_suffix_at levels a.links (tokens_left self.old)) a r) }
        ensures err { IfErr result (λ e. Fails self.old (terra_method_suffix_at levels a.links (tokens_left self.old)) e) }
    {
        let place = read!(self.suffix_sign(&COLON, a.links));
        let name = read!(self.terra_name(levels));
        pass!(self.open(Symbol::OpenParen, levels));
        let arguments = read!(self.arguments(Code::Terra, levels - 1));
        self.close_operand(
            Symbol::CloseParen,
            Node::TerraExpression(place, TerraExpression::Method(a.node, name, arguments)),
            a.links - 1,
            OperandKind::Call,
        )
    }

    /// "{" [init {("," | ";") init} ["," | ";"]] "}"
    #[cycle(parser)]
    #[tactic(auto, using(crate::proofs::Taking::shorter), unfolding(crate::specs::Views::TerraExpressions::construct_suffix_at))]
    fn construct_suffix(&mut self, levels: u32, a: Operand) -> Result<Operand, SyntaxError>
        ensures ok { IfOk result (λ r. TookTerraSuffix self.old self.new (construct_suffix_at levels a.links (tokens_left self.old)) a r) }
        ensures err { IfErr result (λ e. Fails self.old (construct_suffix_at levels a.links (tokens_left self.old)) e) }
    {
        let place = read!(self.open_suffix(Symbol::OpenBrace, levels, a.links));
        let initialisers = read!(self.initialisers(levels - 1));
        self.close_operand(
            Symbol::CloseBrace,
            Node::TerraExpression(place, TerraExpression::Construct(a.node, initialisers)),
            a.links - 1,
            OperandKind::Other,
        )
    }

    /// "(" [texps] ")" | "[" texp "]" | "." tname | ":" tname "(" [texps] ")" | "{" .. "}"
    #[cycle(parser)]
    #[tactic(auto)]
    fn terra_suffix(&mut self, levels: u32, a: Operand) -> Result<Operand, SyntaxError>
        ensures ok { IfOk result (λ r. TookTerraSuffix self.old self.new (terra_suffix_at levels a.links (tokens_left self.old)) a r) }
        ensures err { IfErr result (λ e. Fails self.old (terra_suffix_at levels a.links (tokens_left self.old)) e) }
    {
        match self.next_symbol() {
            Symbol::OpenParen => self.terra_call_suffix(levels, a),
            Symbol::OpenBracket => self.terra_index_suffix(levels, a),
            Symbol::Dot => self.terra_select_suffix(levels, a),
            Symbol::Colon => self.terra_method_suffix(levels, a),
            _ => self.construct_suffix(levels, a),
        }
    }

    /// tsuf
    #[cycle(parser)]
    #[tactic(auto, using(crate::proofs::TerraTurns::suffixes), unfolding(crate::specs::Views::TerraExpressions::terra_applied_at))]
    pub(crate) fn terra_applied(&mut self, levels: u32) -> Result<Operand, SyntaxError>
        ensures ok { IfOk result (λ r. TookOperand self.old self.new (terra_applied_at levels (tokens_left self.old)) r) }
        ensures err { IfErr result (λ e. Fails self.old (terra_applied_at levels (tokens_left self.old)) e) }
    {
        let mut a = read!(self.terra_base(levels));
        'more: while self.next_is_terra_suffix() {
            a = read!(self.terra_suffix(levels, a));
        }
        Ok(a)
    }

    /// texp, without operators
    #[cycle(parser)]
    #[tactic(auto, using(crate::proofs::Failing::failing), unfolding(crate::specs::Views::TerraExpressions::terra_primary_at))]
    fn terra_primary(&mut self, levels: u32, links: u32) -> Result<Operand, SyntaxError>
        ensures ok { IfOk result (λ r. TookOperand self.old self.new (terra_primary_at levels links (tokens_left self.old)) r) }
        ensures err { IfErr result (λ e. Fails self.old (terra_primary_at levels links (tokens_left self.old)) e) }
    {
        if self.next_is_among(&SIMPLE) {
            let node = read!(self.terra_simple());
            return Ok(Operand {
                node,
                links,
                kind: OperandKind::Other,
            });
        }
        let a = read!(self.terra_applied(levels));
        Ok(Operand {
            node: a.node,
            links,
            kind: a.kind,
        })
    }

    /// operator texp
    #[cycle(parser)]
    #[tactic(auto, using(crate::proofs::Failing::failing), unfolding(crate::specs::Views::TerraExpressions::terra_prefixed_at))]
    fn terra_prefixed(&mut self, levels: u32, links: u32) -> Result<Operand, SyntaxError>
        ensures ok { IfOk result (λ r. TookOperand self.old self.new (terra_prefixed_at levels links (tokens_left self.old)) r) }
        ensures err { IfErr result (λ e. Fails self.old (terra_prefixed_at levels links (tokens_left self.old)) e) }
    {
        let token = read!(self.open_among(&PREFIX, levels));
        let operand = read!(self.terra_operand(levels - 1));
        self.push_operand(
            Node::TerraExpression(
                token.place,
                TerraExpression::Unary(unary_of(token.symbol), operand),
            ),
            links,
            OperandKind::Other,
        )
    }

    /// texp "^" texp: its right operand
    #[cycle(parser)]
    #[tactic(auto, using(crate::proofs::Failing::failing), unfolding(crate::specs::Views::TerraExpressions::terra_exponent_at))]
    fn terra_exponent(&mut self, levels: u32, links: u32) -> Result<Operand, SyntaxError>
        ensures ok { IfOk result (λ r. TookOperand self.old self.new (terra_exponent_at levels links (tokens_left self.old)) r) }
        ensures err { IfErr result (λ e. Fails self.old (terra_exponent_at levels links (tokens_left self.old)) e) }
    {
        if self.next_is_among(&PREFIX) {
            return self.terra_prefixed(levels, links);
        }
        self.terra_primary(levels, links)
    }

    /// operator texp | texp "^" texp
    #[cycle(parser)]
    #[tactic(auto, using(crate::proofs::Failing::failing), unfolding(crate::specs::Views::TerraExpressions::terra_unary_at))]
    #[inline(always)]
    fn terra_unary(&mut self, levels: u32, links: u32) -> Result<Operand, SyntaxError>
        ensures ok { IfOk result (λ r. TookOperand self.old self.new (terra_unary_at levels links (tokens_left self.old)) r) }
        ensures err { IfErr result (λ e. Fails self.old (terra_unary_at levels links (tokens_left self.old)) e) }
    {
        if self.next_is_among(&PREFIX) {
            return self.terra_prefixed(levels, links);
        }
        self.terra_binary(TerraPrecedence::Power, levels, links)
    }

    /// the right operand of a precedence
    #[cycle(parser)]
    #[tactic(auto, using(crate::proofs::TerraParts::inner))]
    fn terra_inner(
        &mut self,
        precedence: TerraPrecedence,
        levels: u32,
        links: u32,
    ) -> Result<Operand, SyntaxError>
        ensures ok { IfOk result (λ r. TookOperand self.old self.new (terra_inner_at levels precedence links (tokens_left self.old)) r) }
        ensures err { IfErr result (λ e. Fails self.old (terra_inner_at levels precedence links (tokens_left self.old)) e) }
    {
        match precedence {
            TerraPrecedence::Power => self.terra_exponent(levels, links),
            TerraPrecedence::Product => self.terra_unary(levels, links),
            TerraPrecedence::Sum => self.terra_binary(TerraPrecedence::Product, levels, links),
            TerraPrecedence::Shift => self.terra_binary(TerraPrecedence::Sum, levels, links),
            TerraPrecedence::Comparison => self.terra_binary(TerraPrecedence::Shift, levels, links),
            TerraPrecedence::Conjunction => self.terra_binary(
                TerraPrecedence::Comparison,
                levels,
                links,
            ),
            TerraPrecedence::Disjunction => self.terra_binary(
                TerraPrecedence::Conjunction,
                levels,
                links,
            ),
        }
    }

    /// the first operand of a precedence
    #[cycle(parser)]
    #[tactic(auto, using(crate::proofs::TerraParts::first), unfolding(crate::specs::Views::TerraExpressions::terra_first_at))]
    fn terra_first(
        &mut self,
        precedence: TerraPrecedence,
        levels: u32,
        links: u32,
    ) -> Result<Operand, SyntaxError>
        ensures ok { IfOk result (λ r. TookOperand self.old self.new (terra_first_at levels precedence links (tokens_left self.old)) r) }
        ensures err { IfErr result (λ e. Fails self.old (terra_first_at levels precedence links (tokens_left self.old)) e) }
    {
        match precedence {
            TerraPrecedence::Power => self.terra_primary(levels, links),
            _ => self.terra_inner(precedence, levels, links),
        }
    }

    /// operator texp, of a precedence
    #[cycle(parser)]
    #[tactic(auto, using(crate::proofs::Taking::shorter), unfolding(crate::specs::Views::TerraExpressions::terra_one_more_at))]
    #[inline(never)]
    fn terra_one_more(
        &mut self,
        precedence: TerraPrecedence,
        levels: u32,
        links: u32,
    ) -> Result<(Next<'a>, Operand), SyntaxError>
        ensures ok { IfOk result (λ r.
            TookOperation self.old self.new (terra_one_more_at levels precedence links (tokens_left self.old)) r.0 r.1) }
        ensures err { IfErr result (λ e. Fails self.old (terra_one_more_at levels precedence links (tokens_left self.old)) e) }
    {
        let token = read!(self.operator(terra_symbols_of(precedence), links));
        let operand = read!(self.terra_inner(precedence, levels, links - 1));
        Ok((token, operand))
    }

    /// texp {operator texp}, of a precedence
    #[cycle(parser)]
    #[tactic(auto, using(crate::proofs::TerraTurns::operations), unfolding(crate::specs::Views::TerraExpressions::terra_binary_at))]
    #[inline(always)]
    fn terra_binary(
        &mut self,
        precedence: TerraPrecedence,
        levels: u32,
        links: u32,
    ) -> Result<Operand, SyntaxError>
        ensures ok { IfOk result (λ r. TookOperand self.old self.new (terra_binary_at levels precedence links (tokens_left self.old)) r) }
        ensures err { IfErr result (λ e. Fails self.old (terra_binary_at levels precedence links (tokens_left self.old)) e) }
    {
        let symbols = terra_symbols_of(precedence);
        let mut a = read!(self.terra_first(precedence, levels, links));
        'more: while self.next_is_among(symbols) {
            let (token, b) = read!(self.terra_one_more(precedence, levels, a.links));
            a = read!(self.terra_operation(token, a, b.node, b.links));
        }
        Ok(a)
    }

    /// the operand of a prefix operator
    #[cycle(parser)]
    #[tactic(auto, using(crate::proofs::Failing::failing_same, crate::proofs::TerraParts::terra_operand_part))]
    fn terra_operand(&mut self, levels: u32) -> Result<NodeId, SyntaxError>
        ensures ok { IfOk result (λ r. TookTree self.old self.new (part_at levels parts.TerraOperand (tokens_left self.old)) r) }
        ensures err { IfErr result (λ e. Fails self.old (part_at levels parts.TerraOperand (tokens_left self.old)) e) }
    {
        let a = read!(self.terra_unary(levels, CHAIN));
        Ok(a.node)
    }

    /// texp
    #[cycle(parser)]
    #[tactic(auto, using(crate::proofs::Failing::failing_same, crate::proofs::TerraParts::terra_expression_part))]
    pub(crate) fn terra_expression(&mut self, levels: u32) -> Result<NodeId, SyntaxError>
        ensures ok { IfOk result (λ r. TookTree self.old self.new (part_at levels parts.TerraExpression (tokens_left self.old)) r) }
        ensures err { IfErr result (λ e. Fails self.old (part_at levels parts.TerraExpression (tokens_left self.old)) e) }
    {
        let a = read!(self.terra_binary(TerraPrecedence::Disjunction, levels, CHAIN));
        Ok(a.node)
    }

    /// init = Name "=" texp
    #[cycle(parser)]
    #[tactic(auto, using(crate::proofs::Failing::failing), unfolding(crate::specs::Views::TerraExpressions::named_initialiser_at))]
    fn named_initialiser(&mut self, levels: u32) -> Result<NodeId, SyntaxError>
        ensures ok { IfOk result (λ r. TookTree self.old self.new (named_initialiser_at levels (tokens_left self.old)) r) }
        ensures err { IfErr result (λ e. Fails self.old (named_initialiser_at levels (tokens_left self.old)) e) }
    {
        let name = read!(self.name());
        let value = read!(self.expression_behind(Symbol::Equal, Code::Terra, levels));
        self.push(Node::Piece(Piece::NamedField(name, value)))
    }

    /// init, where all are named or none is
    #[cycle(parser)]
    #[tactic(auto, using(crate::proofs::Failing::failing), unfolding(crate::specs::Views::TerraExpressions::initialiser_at))]
    fn initialiser(&mut self, named: bool, levels: u32) -> Result<NodeId, SyntaxError>
        ensures ok { IfOk result (λ r. TookTree self.old self.new (initialiser_at levels named (tokens_left self.old)) r) }
        ensures err { IfErr result (λ e. Fails self.old (initialiser_at levels named (tokens_left self.old)) e) }
    {
        if named {
            return self.named_initialiser(levels);
        }
        self.terra_expression(levels)
    }

    /// init, the first one, and whether it is named
    #[cycle(parser)]
    #[tactic(auto, using(crate::proofs::Failing::failing), unfolding(crate::specs::Views::TerraExpressions::first_initialiser_at))]
    fn first_initialiser(&mut self, levels: u32) -> Result<(NodeId, bool), SyntaxError>
        ensures ok { IfOk result (λ r. TookInitialiser self.old self.new (first_initialiser_at levels (tokens_left self.old)) r.0 r.1) }
        ensures err { IfErr result (λ e. Fails self.old (first_initialiser_at levels (tokens_left self.old)) e) }
    {
        let e = read!(self.terra_binary(TerraPrecedence::Disjunction, levels, CHAIN));
        if is_name(e.kind) {
            if self.next_is(Symbol::Equal) {
                let value = read!(self.expression_behind(Symbol::Equal, Code::Terra, levels));
                let node = read!(self.push(Node::Piece(Piece::NamedField(e.node, value))));
                return Ok((node, true));
            }
        }
        Ok((e.node, false))
    }

    /// ("," | ";") [init]
    #[cycle(parser)]
    #[tactic(auto, using(crate::proofs::Failing::failing), unfolding(crate::specs::Views::TerraExpressions::next_initialiser_at))]
    fn next_initialiser(&mut self, named: bool, levels: u32) -> Result<Option<NodeId>, SyntaxError>
        ensures ok { IfOk result (λ r. TookMaybe self.old self.new (next_initialiser_at levels named (tokens_left self.old)) r) }
        ensures err { IfErr result (λ e. Fails self.old (next_initialiser_at levels named (tokens_left self.old)) e) }
    {
        pass!(self.take_among(&SEPARATOR));
        if self.next_is(Symbol::CloseBrace) {
            return Ok(None);
        }
        let initialiser = read!(self.initialiser(named, levels));
        Ok(Some(initialiser))
    }

    /// [init {("," | ";") init} ["," | ";"]], up to a "}"
    #[cycle(parser)]
    #[tactic(auto, using(crate::proofs::TerraTurns::initialisers), unfolding(crate::specs::Views::TerraExpressions::initialisers_at))]
    fn initialisers(&mut self, levels: u32) -> Result<NodeList, SyntaxError>
        ensures ok { IfOk result (λ r. TookList self.old self.new (part_at levels parts.Initialisers (tokens_left self.old)) r) }
        ensures err { IfErr result (λ e. Fails self.old (part_at levels parts.Initialisers (tokens_left self.old)) e) }
    {
        if self.next_is(Symbol::CloseBrace) {
            return Ok(self.no_nodes());
        }
        let (first, named) = read!(self.first_initialiser(levels));
        let mut list = read!(self.one_node(first));
        'more: while self.next_is_among(&SEPARATOR) {
            if let Some(next) = read!(self.next_initialiser(named, levels)) {
                read!(add(&mut list, next));
            }
        }
        Ok(list)
    }
}

// Reading of Lua expressions (Lua 5.1 manual, section 2.5), and of what expressions of either language hold.
ghost use Rattle.std.specs.Prelude.{◌≡◌, ◌<◌, ◌≤◌, ◌-◌, ℕ, length, true, false, IfOk, IfErr, [], ◌∷◌};
ghost use Rattle.tl_tree.specs.Symbols.{has, is_bad};
ghost use Rattle.tl_tree.specs.Forms as forms;
ghost use Rattle.tl_tree.specs.LuaExpressions as lua;
ghost use Rattle.tl_tree.specs.Tokens.{among};
ghost use Rattle.tl_tree.specs.Tree as parts;
ghost use Rattle.tl_tree.specs.Grammar.{begins};
ghost use Rattle.tl_parse.specs.Views.Parsing.{tokens_left, Fails, TookToken, TookTree, TookOperand, TookList};
ghost use Rattle.tl_parse.specs.Views.Parsing.{TookMaybe, TookOption};
ghost use Rattle.tl_parse.specs.Views.Using.{part_at, number_at};
ghost use Rattle.tl_parse.specs.Views.Codes.{expression_in, expression_behind_at, optional_expression_at, arguments_in};
ghost use Rattle.tl_parse.specs.Views.Expressions.{name_at, arguments_at, paren_at};
ghost use Rattle.tl_parse.specs.Views.Expressions.{base_at, call_suffix_at, index_suffix_at, select_suffix_at};
ghost use Rattle.tl_parse.specs.Views.Expressions.{listed_arguments_at, method_arguments_at, method_suffix_at};
ghost use Rattle.tl_parse.specs.Views.Expressions.{table_suffix_at, literal_suffix_at, suffix_at, applied_at, prefixed_at, number_tree_at};
ghost use Rattle.tl_parse.specs.Views.Expressions.{literal_at, constant_of, constant_at, function_at, table_at, simple_at};
ghost use Rattle.tl_parse.specs.Views.Expressions.{is_simple, primary_at, power_at, unary_at};
ghost use Rattle.tl_parse.specs.Views.Expressions.{one_more_at, binary_at, chained_at, is_name, is_other};
ghost use Rattle.tl_parse.specs.Views.Expressions.{field_behind_at, keyed_field_at, field_at, next_field_at, fields_at};
ghost use Rattle.tl_parse.specs.Views.Expressions.{simple_symbols, separators};
ghost use Rattle.tl_parse.specs.Views.Going.{TookOperation, TookSuffix};

use crate::error::SyntaxError;
use crate::parser::{CHAIN, Code, Element, Next, Operand, Parser};
use crate::symbols::{CONCATENATION, rank_behind};
use tl_base::NodeId;
use tl_tree::{Expression, Mode, Node, NodeList, OperandKind, Symbol, UnaryOperator};

/// How many ranks the operators have that group to the left, and `..`.
const RANKS: u8 = 6;

static PREFIX: [Symbol; 4] = [Symbol::Not, Symbol::Hash, Symbol::Minus, Symbol::Ampersand];

static DOT: [Symbol; 1] = [Symbol::Dot];

static COLON: [Symbol; 1] = [Symbol::Colon];

static LITERAL: [Symbol; 1] = [Symbol::Literal];

/// The operator that a token is, before its operand.
pub(crate) fn unary_of(symbol: Symbol) -> UnaryOperator
    ensures { result ≡ forms.unary_of symbol }
{
    match symbol {
        Symbol::Not => UnaryOperator::Not,
        Symbol::Hash => UnaryOperator::Length,
        Symbol::Ampersand => UnaryOperator::Address,
        Symbol::At => UnaryOperator::Dereference,
        _ => UnaryOperator::Negate,
    }
}

/// The expression that a word or sign is.
fn constant_of(symbol: Symbol) -> Expression
    ensures { result ≡ constant_of symbol }
{
    match symbol {
        Symbol::Nil => Expression::Nil,
        Symbol::False => Expression::False,
        Symbol::True => Expression::True,
        _ => Expression::Varargs,
    }
}

pub(crate) fn is_name(kind: OperandKind) -> bool
    ensures { result ≡ is_name kind }
{
    match kind {
        OperandKind::Name => true,
        _ => false,
    }
}

fn is_other(kind: OperandKind) -> bool
    ensures { result ≡ is_other kind }
{
    match kind {
        OperandKind::Other => true,
        _ => false,
    }
}

impl<'a> Parser<'a> {
    /// Name
    #[tactic(auto, using(crate::proofs::Failing::failing), unfolding(crate::specs::Views::Expressions::name_at))]
    #[inline(always)]
    pub(crate) fn name(&mut self) -> Result<NodeId, SyntaxError>
        ensures ok { IfOk result (λ r. TookTree self.old self.new (name_at (tokens_left self.old)) r) }
        ensures err { IfErr result (λ e. Fails self.old (name_at (tokens_left self.old)) e) }
    {
        let token = read!(self.take_token(Symbol::Name));
        self.push(Node::Name(token.place, token.offset, token.text))
    }

    /// Numeral, of Lua code
    #[tactic(auto, using(crate::proofs::Failing::failing), unfolding(crate::specs::Views::Expressions::number_tree_at))]
    pub(crate) fn number(&mut self) -> Result<NodeId, SyntaxError>
        ensures ok { IfOk result (λ r. TookTree self.old self.new (number_tree_at (tokens_left self.old)) r) }
        ensures err { IfErr result (λ e. Fails self.old (number_tree_at (tokens_left self.old)) e) }
    {
        let token = read!(self.take_number());
        self.push(Node::Numeral(token.place, token.text))
    }

    /// Text
    #[tactic(auto, using(crate::proofs::Failing::failing), unfolding(crate::specs::Views::Expressions::literal_at))]
    pub(crate) fn literal(&mut self) -> Result<NodeId, SyntaxError>
        ensures ok { IfOk result (λ r. TookTree self.old self.new (literal_at (tokens_left self.old)) r) }
        ensures err { IfErr result (λ e. Fails self.old (literal_at (tokens_left self.old)) e) }
    {
        let token = read!(self.take_token(Symbol::Literal));
        self.push(Node::Literal(token.place, token.text))
    }

    /// "nil" | "false" | "true" | "..."
    #[tactic(auto, using(crate::proofs::Constants::constants), unfolding(crate::specs::Views::Expressions::constant_at))]
    fn constant(&mut self, symbol: Symbol) -> Result<NodeId, SyntaxError>
        requires { is_bad symbol ≡ false }
        ensures ok { IfOk result (λ r. TookTree self.old self.new (constant_at symbol (tokens_left self.old)) r) }
        ensures err { IfErr result (λ e. Fails self.old (constant_at symbol (tokens_left self.old)) e) }
    {
        let place = read!(self.take(symbol));
        self.push(Node::Expression(place, constant_of(symbol)))
    }

    /// exp
    #[cycle(parser)]
    #[tactic(auto, using(crate::proofs::Failing::failing_same, crate::proofs::Parts::expression_part))]
    pub(crate) fn expression(&mut self, mode: Mode, levels: u32) -> Result<NodeId, SyntaxError>
        ensures ok { IfOk result (λ r. TookTree self.old self.new (part_at levels (parts.Expression mode) (tokens_left self.old)) r) }
        ensures err { IfErr result (λ e. Fails self.old (part_at levels (parts.Expression mode) (tokens_left self.old)) e) }
    {
        let a = read!(self.chained(mode, levels));
        Ok(a.node)
    }

    /// exp, or texp
    #[cycle(parser)]
    #[tactic(auto)]
    pub(crate) fn expression_of(&mut self, code: Code, levels: u32) -> Result<NodeId, SyntaxError>
        ensures ok { IfOk result (λ r. TookTree self.old self.new (part_at levels (expression_in code) (tokens_left self.old)) r) }
        ensures err { IfErr result (λ e. Fails self.old (part_at levels (expression_in code) (tokens_left self.old)) e) }
    {
        match code {
            Code::Lua(mode) => self.expression(mode, levels),
            Code::Terra => self.terra_expression(levels),
        }
    }

    /// sign exp, or sign texp
    #[cycle(parser)]
    #[tactic(auto, using(crate::proofs::Failing::failing), unfolding(crate::specs::Views::Codes::expression_behind_at))]
    #[inline(always)]
    pub(crate) fn expression_behind(
        &mut self,
        symbol: Symbol,
        code: Code,
        levels: u32,
    ) -> Result<NodeId, SyntaxError>
        requires { is_bad symbol ≡ false }
        ensures ok { IfOk result (λ r. TookTree self.old self.new (expression_behind_at levels symbol code (tokens_left self.old)) r) }
        ensures err { IfErr result (λ e. Fails self.old (expression_behind_at levels symbol code (tokens_left self.old)) e) }
    {
        pass!(self.take(symbol));
        self.expression_of(code, levels)
    }

    /// [sign exp], or [sign texp]
    #[cycle(parser)]
    #[tactic(auto, using(crate::proofs::Failing::failing), unfolding(crate::specs::Views::Codes::optional_expression_at))]
    pub(crate) fn optional_expression(
        &mut self,
        symbol: Symbol,
        code: Code,
        levels: u32,
    ) -> Result<Option<NodeId>, SyntaxError>
        requires { is_bad symbol ≡ false }
        ensures ok { IfOk result (λ r. TookOption self.old self.new (optional_expression_at levels symbol code (tokens_left self.old)) r) }
        ensures err { IfErr result (λ e. Fails self.old (optional_expression_at levels symbol code (tokens_left self.old)) e) }
    {
        if self.next_is(symbol) {
            let expression = read!(self.expression_behind(symbol, code, levels));
            return Ok(Some(expression));
        }
        Ok(None)
    }

    /// exp = .. operator exp: the operand of a prefix operator, and the right operand of "^"
    #[cycle(parser)]
    #[tactic(auto, using(crate::proofs::Failing::failing_same, crate::proofs::Parts::operand_part))]
    fn operand(&mut self, mode: Mode, levels: u32) -> Result<NodeId, SyntaxError>
        ensures ok { IfOk result (λ r. TookTree self.old self.new (part_at levels (parts.Operand mode) (tokens_left self.old)) r) }
        ensures err { IfErr result (λ e. Fails self.old (part_at levels (parts.Operand mode) (tokens_left self.old)) e) }
    {
        let a = read!(self.unary(mode, levels, CHAIN));
        Ok(a.node)
    }

    /// exp = exp ".." exp: its right operand
    #[cycle(parser)]
    #[tactic(auto, using(crate::proofs::Failing::failing_same, crate::proofs::Parts::concatenation_part))]
    fn concatenated(&mut self, mode: Mode, levels: u32) -> Result<NodeId, SyntaxError>
        ensures ok { IfOk result (λ r. TookTree self.old self.new (part_at levels (parts.Concatenation mode) (tokens_left self.old)) r) }
        ensures err { IfErr result (λ e. Fails self.old (part_at levels (parts.Concatenation mode) (tokens_left self.old)) e) }
    {
        let a = read!(self.binary(CONCATENATION + 1, mode, levels, CHAIN));
        Ok(a.node)
    }

    /// [exps] or [texps], up to a ")"
    #[cycle(parser)]
    #[tactic(auto, using(crate::proofs::Parts::arguments), unfolding(crate::specs::Views::Expressions::arguments_at))]
    pub(crate) fn arguments(&mut self, code: Code, levels: u32) -> Result<NodeList, SyntaxError>
        ensures ok { IfOk result (λ r. TookList self.old self.new (part_at levels (arguments_in code) (tokens_left self.old)) r) }
        ensures err { IfErr result (λ e. Fails self.old (part_at levels (arguments_in code) (tokens_left self.old)) e) }
    {
        if self.next_is(Symbol::CloseParen) {
            return Ok(self.no_nodes());
        }
        self.elements(Element::Expression(code), levels)
    }

    /// "(" exp ")"
    #[cycle(parser)]
    #[tactic(auto, using(crate::proofs::Failing::failing), unfolding(crate::specs::Views::Expressions::paren_at))]
    fn paren(&mut self, mode: Mode, levels: u32) -> Result<Operand, SyntaxError>
        ensures ok { IfOk result (λ r. TookOperand self.old self.new (paren_at levels mode (tokens_left self.old)) r) }
        ensures err { IfErr result (λ e. Fails self.old (paren_at levels mode (tokens_left self.old)) e) }
    {
        let place = read!(self.open(Symbol::OpenParen, levels));
        let inner = read!(self.expression(mode, levels - 1));
        self.close_operand(
            Symbol::CloseParen,
            Node::Expression(place, Expression::Paren(inner)),
            CHAIN,
            OperandKind::Other,
        )
    }

    /// Name | "(" exp ")"
    #[cycle(parser)]
    #[tactic(auto, using(crate::proofs::Failing::failing), unfolding(crate::specs::Views::Expressions::base_at))]
    #[inline(always)]
    pub(crate) fn base(&mut self, mode: Mode, levels: u32) -> Result<Operand, SyntaxError>
        ensures ok { IfOk result (λ r. TookOperand self.old self.new (base_at levels mode (tokens_left self.old)) r) }
        ensures err { IfErr result (λ e. Fails self.old (base_at levels mode (tokens_left self.old)) e) }
    {
        if self.next_is(Symbol::OpenParen) {
            return self.paren(mode, levels);
        }
        let node = read!(self.name());
        Ok(Operand {
            node,
            links: CHAIN,
            kind: OperandKind::Name,
        })
    }

    /// args = "(" [exps] ")"
    #[cycle(parser)]
    #[tactic(auto, using(crate::proofs::Taking::shorter), unfolding(crate::specs::Views::Expressions::call_suffix_at))]
    fn call_suffix(&mut self, mode: Mode, levels: u32, a: Operand) -> Result<Operand, SyntaxError>
        ensures ok { IfOk result (λ r. TookSuffix self.old self.new (call_suffix_at levels mode a.links (tokens_left self.old)) a r) }
        ensures err { IfErr result (λ e. Fails self.old (call_suffix_at levels mode a.links (tokens_left self.old)) e) }
    {
        let place = read!(self.open_call(levels, a.links));
        let arguments = read!(self.arguments(Code::Lua(mode), levels - 1));
        self.close_operand(
            Symbol::CloseParen,
            Node::Expression(place, Expression::Call(a.node, arguments)),
            a.links - 1,
            OperandKind::Call,
        )
    }

    /// "[" exp "]"
    #[cycle(parser)]
    #[tactic(auto, using(crate::proofs::Taking::shorter), unfolding(crate::specs::Views::Expressions::index_suffix_at))]
    fn index_suffix(&mut self, mode: Mode, levels: u32, a: Operand) -> Result<Operand, SyntaxError>
        ensures ok { IfOk result (λ r. TookSuffix self.old self.new (index_suffix_at levels mode a.links (tokens_left self.old)) a r) }
        ensures err { IfErr result (λ e. Fails self.old (index_suffix_at levels mode a.links (tokens_left self.old)) e) }
    {
        let place = read!(self.open_suffix(Symbol::OpenBracket, levels, a.links));
        let key = read!(self.expression(mode, levels - 1));
        self.close_operand(
            Symbol::CloseBracket,
            Node::Expression(place, Expression::Index(a.node, key)),
            a.links - 1,
            OperandKind::Variable,
        )
    }

    /// "." Name
    #[tactic(auto, using(crate::proofs::Taking::shorter), unfolding(crate::specs::Views::Expressions::select_suffix_at))]
    fn select_suffix(&mut self, a: Operand) -> Result<Operand, SyntaxError>
        ensures ok { IfOk result (λ r. TookSuffix self.old self.new (select_suffix_at a.links (tokens_left self.old)) a r) }
        ensures err { IfErr result (λ e. Fails self.old (select_suffix_at a.links (tokens_left self.old)) e) }
    {
        let place = read!(self.suffix_sign(&DOT, a.links));
        let name = read!(self.name());
        self.push_operand(
            Node::Expression(place, Expression::Select(a.node, name)),
            a.links - 1,
            OperandKind::Variable,
        )
    }

    /// ":" Name args
    #[cycle(parser)]
    #[tactic(auto, using(crate::proofs::Taking::shorter), unfolding(crate::specs::Views::Expressions::method_suffix_at))]
    fn method_suffix(&mut self, mode: Mode, levels: u32, a: Operand) -> Result<Operand, SyntaxError>
        ensures ok { IfOk result (λ r. TookSuffix self.old self.new (method_suffix_at levels mode a.links (tokens_left self.old)) a r) }
        ensures err { IfErr result (λ e. Fails self.old (method_suffix_at levels mode a.links (tokens_left self.old)) e) }
    {
        let place = read!(self.suffix_sign(&COLON, a.links));
        let name = read!(self.name());
        let arguments = read!(self.method_arguments(mode, levels));
        self.push_operand(
            Node::Expression(place, Expression::Method(a.node, name, arguments)),
            a.links - 1,
            OperandKind::Call,
        )
    }

    /// args = table
    #[cycle(parser)]
    #[tactic(auto, using(crate::proofs::Taking::shorter), unfolding(crate::specs::Views::Expressions::table_suffix_at))]
    fn table_suffix(&mut self, mode: Mode, levels: u32, a: Operand) -> Result<Operand, SyntaxError>
        ensures ok { IfOk result (λ r. TookSuffix self.old self.new (table_suffix_at levels mode a.links (tokens_left self.old)) a r) }
        ensures err { IfErr result (λ e. Fails self.old (table_suffix_at levels mode a.links (tokens_left self.old)) e) }
    {
        let token = read!(self.raise(Symbol::OpenBrace, levels, a.links));
        let fields = read!(self.fields(mode, levels - 1));
        let table = read!(self.close(
            Symbol::CloseBrace,
            Node::Expression(token.place, Expression::Table(fields))
        ));
        let arguments = read!(self.one_node(table));
        let node = read!(self.push(Node::Expression(
            token.place,
            Expression::Call(a.node, arguments)
        )));
        Ok(Operand {
            node,
            links: a.links - 1,
            kind: OperandKind::Call,
        })
    }

    /// args = Text
    #[tactic(auto, using(crate::proofs::Taking::shorter), unfolding(crate::specs::Views::Expressions::literal_suffix_at))]
    fn literal_suffix(&mut self, a: Operand) -> Result<Operand, SyntaxError>
        ensures ok { IfOk result (λ r. TookSuffix self.old self.new (literal_suffix_at a.links (tokens_left self.old)) a r) }
        ensures err { IfErr result (λ e. Fails self.old (literal_suffix_at a.links (tokens_left self.old)) e) }
    {
        let token = read!(self.operator(&LITERAL, a.links));
        let text = read!(self.push(Node::Literal(token.place, token.text)));
        let arguments = read!(self.one_node(text));
        self.push_operand(
            Node::Expression(token.place, Expression::Call(a.node, arguments)),
            a.links - 1,
            OperandKind::Call,
        )
    }

    /// "(" [exps] ")"
    #[cycle(parser)]
    #[tactic(auto, using(crate::proofs::Failing::failing), unfolding(crate::specs::Views::Expressions::listed_arguments_at))]
    fn listed_arguments(&mut self, mode: Mode, levels: u32) -> Result<NodeList, SyntaxError>
        ensures ok { IfOk result (λ r. TookList self.old self.new (listed_arguments_at levels mode (tokens_left self.old)) r) }
        ensures err { IfErr result (λ e. Fails self.old (listed_arguments_at levels mode (tokens_left self.old)) e) }
    {
        pass!(self.open(Symbol::OpenParen, levels));
        let arguments = read!(self.arguments(Code::Lua(mode), levels - 1));
        pass!(self.take(Symbol::CloseParen));
        Ok(arguments)
    }

    /// args = "(" [exps] ")" | table | Text
    #[cycle(parser)]
    #[tactic(auto, using(crate::proofs::Failing::failing), unfolding(crate::specs::Views::Expressions::method_arguments_at))]
    fn method_arguments(&mut self, mode: Mode, levels: u32) -> Result<NodeList, SyntaxError>
        ensures ok { IfOk result (λ r. TookList self.old self.new (method_arguments_at levels mode (tokens_left self.old)) r) }
        ensures err { IfErr result (λ e. Fails self.old (method_arguments_at levels mode (tokens_left self.old)) e) }
    {
        if self.next_is(Symbol::OpenParen) {
            return self.listed_arguments(mode, levels);
        }
        if self.next_is(Symbol::OpenBrace) {
            let table = read!(self.table(mode, levels));
            return self.one_node(table);
        }
        let text = read!(self.literal());
        self.one_node(text)
    }

    /// args | "[" exp "]" | "." Name | ":" Name args
    #[cycle(parser)]
    #[tactic(auto)]
    pub(crate) fn suffix(
        &mut self,
        mode: Mode,
        levels: u32,
        a: Operand,
    ) -> Result<Operand, SyntaxError>
        ensures ok { IfOk result (λ r. TookSuffix self.old self.new (suffix_at levels mode a.links (tokens_left self.old)) a r) }
        ensures err { IfErr result (λ e. Fails self.old (suffix_at levels mode a.links (tokens_left self.old)) e) }
    {
        match self.next_symbol() {
            Symbol::OpenParen => self.call_suffix(mode, levels, a),
            Symbol::OpenBracket => self.index_suffix(mode, levels, a),
            Symbol::Dot => self.select_suffix(a),
            Symbol::Colon => self.method_suffix(mode, levels, a),
            Symbol::OpenBrace => self.table_suffix(mode, levels, a),
            _ => self.literal_suffix(a),
        }
    }

    /// prefix = var | call | "(" exp ")"; where it is to be `bare`, brackets alone are none
    #[cycle(parser)]
    #[tactic(auto, using(crate::proofs::Turns::suffixes), unfolding(crate::specs::Views::Expressions::applied_at))]
    pub(crate) fn applied(
        &mut self,
        mode: Mode,
        levels: u32,
        bare: bool,
    ) -> Result<Operand, SyntaxError>
        ensures ok { IfOk result (λ r. TookOperand self.old self.new (applied_at levels mode bare (tokens_left self.old)) r) }
        ensures err { IfErr result (λ e. Fails self.old (applied_at levels mode bare (tokens_left self.old)) e) }
    {
        let mut a = read!(self.base(mode, levels));
        if bare && is_other(a.kind) && !self.next_is_suffix(mode) {
            return Err(self.refusal());
        }
        'more: while self.next_is_suffix(mode) {
            a = read!(self.suffix(mode, levels, a));
        }
        Ok(a)
    }

    /// prefix, as an operand
    #[cycle(parser)]
    #[tactic(auto, using(crate::proofs::Failing::failing), unfolding(crate::specs::Views::Expressions::prefixed_at))]
    fn prefixed(&mut self, mode: Mode, levels: u32, links: u32) -> Result<Operand, SyntaxError>
        ensures ok { IfOk result (λ r. TookOperand self.old self.new (prefixed_at levels mode links (tokens_left self.old)) r) }
        ensures err { IfErr result (λ e. Fails self.old (prefixed_at levels mode links (tokens_left self.old)) e) }
    {
        let a = read!(self.applied(mode, levels, false));
        Ok(Operand {
            node: a.node,
            links,
            kind: a.kind,
        })
    }

    /// "function" body
    #[cycle(parser)]
    #[tactic(auto, using(crate::proofs::Failing::failing), unfolding(crate::specs::Views::Expressions::function_at))]
    fn function(&mut self, levels: u32) -> Result<NodeId, SyntaxError>
        ensures ok { IfOk result (λ r. TookTree self.old self.new (function_at levels (tokens_left self.old)) r) }
        ensures err { IfErr result (λ e. Fails self.old (function_at levels (tokens_left self.old)) e) }
    {
        let place = read!(self.take(Symbol::Function));
        let body = read!(self.function_body(levels));
        self.push(Node::Expression(place, Expression::Function(body)))
    }

    /// "nil" | "false" | "true" | Numeral | Text | "..." | "function" body | table | Terra code
    #[cycle(parser)]
    #[tactic(auto)]
    fn simple(&mut self, mode: Mode, levels: u32) -> Result<NodeId, SyntaxError>
        ensures ok { IfOk result (λ r. TookTree self.old self.new (simple_at levels mode (tokens_left self.old)) r) }
        ensures err { IfErr result (λ e. Fails self.old (simple_at levels mode (tokens_left self.old)) e) }
    {
        match self.next_symbol() {
            Symbol::Numeral => self.number(),
            Symbol::Literal => self.literal(),
            Symbol::Nil => self.constant(Symbol::Nil),
            Symbol::False => self.constant(Symbol::False),
            Symbol::True => self.constant(Symbol::True),
            Symbol::Ellipsis => self.constant(Symbol::Ellipsis),
            Symbol::Function => self.function(levels),
            Symbol::OpenBrace => self.table(mode, levels),
            _ => self.terra_code(mode, levels),
        }
    }

    /// exp, without operators
    #[cycle(parser)]
    #[tactic(auto, using(crate::proofs::Failing::failing), unfolding(crate::specs::Views::Expressions::primary_at))]
    fn primary(&mut self, mode: Mode, levels: u32, links: u32) -> Result<Operand, SyntaxError>
        ensures ok { IfOk result (λ r. TookOperand self.old self.new (primary_at levels mode links (tokens_left self.old)) r) }
        ensures err { IfErr result (λ e. Fails self.old (primary_at levels mode links (tokens_left self.old)) e) }
    {
        if self.next_is_simple(mode) {
            let node = read!(self.simple(mode, levels));
            return Ok(Operand {
                node,
                links,
                kind: OperandKind::Other,
            });
        }
        self.prefixed(mode, levels, links)
    }

    /// exp "^" exp
    #[cycle(parser)]
    #[tactic(auto, using(crate::proofs::Taking::shorter), unfolding(crate::specs::Views::Expressions::power_at))]
    fn power(&mut self, mode: Mode, levels: u32, links: u32) -> Result<Operand, SyntaxError>
        ensures ok { IfOk result (λ r. TookOperand self.old self.new (power_at levels mode links (tokens_left self.old)) r) }
        ensures err { IfErr result (λ e. Fails self.old (power_at levels mode links (tokens_left self.old)) e) }
    {
        let a = read!(self.primary(mode, levels, links));
        if self.next_is(Symbol::Caret) {
            let token = read!(self.raise(Symbol::Caret, levels, a.links));
            let right = read!(self.operand(mode, levels - 1));
            return self.operation(token, a, right, a.links - 1);
        }
        Ok(a)
    }

    /// operator exp
    #[cycle(parser)]
    #[tactic(auto, using(crate::proofs::Failing::failing), unfolding(crate::specs::Views::Expressions::unary_at))]
    fn unary(&mut self, mode: Mode, levels: u32, links: u32) -> Result<Operand, SyntaxError>
        ensures ok { IfOk result (λ r. TookOperand self.old self.new (unary_at levels mode links (tokens_left self.old)) r) }
        ensures err { IfErr result (λ e. Fails self.old (unary_at levels mode links (tokens_left self.old)) e) }
    {
        if self.next_is_prefix() {
            let token = read!(self.open_among(&PREFIX, levels));
            let operand = read!(self.operand(mode, levels - 1));
            return self.push_operand(
                Node::Expression(
                    token.place,
                    Expression::Unary(unary_of(token.symbol), operand),
                ),
                links,
                OperandKind::Other,
            );
        }
        self.power(mode, levels, links)
    }

    /// operator exp, of a rank
    #[cycle(parser)]
    #[tactic(auto, using(crate::proofs::Taking::shorter), unfolding(crate::specs::Views::Expressions::one_more_at))]
    #[inline(never)]
    fn one_more(
        &mut self,
        rank: u8,
        mode: Mode,
        levels: u32,
        links: u32,
    ) -> Result<(Next<'a>, Operand), SyntaxError>
        requires { rank < 6 }
        ensures ok { IfOk result (λ r. TookOperation self.old self.new (one_more_at levels rank mode links (tokens_left self.old)) r.0 r.1) }
        ensures err { IfErr result (λ e. Fails self.old (one_more_at levels rank mode links (tokens_left self.old)) e) }
    {
        if rank == CONCATENATION {
            let token = read!(self.raise(Symbol::DoubleDot, levels, links));
            let node = read!(self.concatenated(mode, levels - 1));
            let right = Operand {
                node,
                links: links - 1,
                kind: OperandKind::Other,
            };
            return Ok((token, right));
        }
        let token = read!(self.ranked_operator(rank, links));
        let operand = read!(self.binary(rank, mode, levels, links - 1));
        Ok((token, operand))
    }

    /// exp {operator exp}, of so many ranks. Where no operator follows the operand, no rank is looked at.
    #[cycle(parser)]
    #[inline(always)]
    fn binary(
        &mut self,
        ranks: u8,
        mode: Mode,
        levels: u32,
        links: u32,
    ) -> Result<Operand, SyntaxError>
        requires { ranks ≤ 6 }
        ensures ok { IfOk result (λ r. TookOperand self.old self.new (binary_at levels ranks mode links (tokens_left self.old)) r) }
        ensures err { IfErr result (λ e. Fails self.old (binary_at levels ranks mode links (tokens_left self.old)) e) }
    {
        let mut a = read!(self.unary(mode, levels, links));
        let mut from = 0;
        // An operator that binds more than the one before it stands in the right operand of that.
        'more: while self.next_is_ranked(from, ranks) {
            let rank = self.next_rank();
            let (token, b) = read!(self.one_more(rank, mode, levels, a.links));
            a = read!(self.operation(token, a, b.node, b.links));
            from = rank_behind(rank);
        }
        Ok(a)
    }

    /// exp {"->" exp}, with what it is
    #[cycle(parser)]
    #[tactic(auto, using(crate::proofs::Taking::shorter), unfolding(crate::specs::Views::Expressions::chained_at))]
    #[inline(always)]
    pub(crate) fn chained(&mut self, mode: Mode, levels: u32) -> Result<Operand, SyntaxError>
        ensures ok { IfOk result (λ r. TookOperand self.old self.new (chained_at levels mode (tokens_left self.old)) r) }
        ensures err { IfErr result (λ e. Fails self.old (chained_at levels mode (tokens_left self.old)) e) }
    {
        let a = read!(self.binary(RANKS, mode, levels, CHAIN));
        if self.next_is(Symbol::Arrow) {
            let token = read!(self.raise(Symbol::Arrow, levels, a.links));
            let right = read!(self.expression(mode, levels - 1));
            return self.operation(token, a, right, a.links - 1);
        }
        Ok(a)
    }
}

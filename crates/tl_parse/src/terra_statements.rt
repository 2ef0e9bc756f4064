// Reading of Terra statements, of the bodies of Terra functions and of quotes.
ghost use Rattle.std.specs.Prelude.{◌≡◌, length, true, false, IfOk, IfErr, [], ◌∷◌};
ghost use Rattle.tl_tree.specs.Tree as parts;
ghost use Rattle.tl_parse.specs.Views.Parsing.{tokens_left, HasNext, Fails, TookTree, TookOperand, TookList};
ghost use Rattle.tl_parse.specs.Views.Using.{part_at};
ghost use Rattle.tl_parse.specs.Views.Codes.{opened_terra_body_at};
ghost use Rattle.tl_parse.specs.Views.Statements.{is_call};
ghost use Rattle.tl_parse.specs.Views.TerraLines.{TookPlacedName};
ghost use Rattle.tl_parse.specs.Views.TerraStatements.{placed_name_at, terra_variable_at};
ghost use Rattle.tl_parse.specs.Views.TerraStatements.{terra_target_at};
ghost use Rattle.tl_parse.specs.Views.TerraStatements.{terra_simple_statement_at, is_escape};
ghost use Rattle.tl_parse.specs.Views.TerraStatements.{quoted_code_at};
ghost use Rattle.tl_parse.specs.Views.TerraStatements.{terra_for_at, terra_var_at, escape_block_at};
ghost use Rattle.tl_parse.specs.Views.TerraStatements.{terra_break_at, terra_statement_at};
ghost use Rattle.tl_parse.specs.Views.TerraStatements.{terra_parameter_at};
ghost use Rattle.tl_parse.specs.Views.TerraStatements.{terra_parameters_at};

use crate::error::SyntaxError;
use crate::parser::{BlockCode, CHAIN, Code, Element, Operand, Parser, add};
use crate::statements::is_call;
use tl_base::{NodeId, Place};
use tl_tree::{Context, Mode, Node, NodeList, OperandKind, Piece, Symbol, TerraStatement};

/// The types of Terra code.
const TYPES: Code = Code::Lua(Mode::Types);

/// The block of an `escape`.
const EMITTING: Context = Context {
    mode: Mode::Plain,
    in_loop: false,
    emits: true,
};

static ASSIGNMENT: [Symbol; 2] = [Symbol::Equal, Symbol::Comma];

fn is_escape(kind: OperandKind) -> bool
    ensures { result ≡ is_escape kind }
{
    match kind {
        OperandKind::Escape => true,
        _ => false,
    }
}

impl<'a> Parser<'a> {
    /// tname, with its place
    #[cycle(parser)]
    #[tactic(auto, using(crate::proofs::TerraStatementTurns::placed_names), unfolding(crate::specs::Views::TerraStatements::placed_name_at))]
    fn placed_name(&mut self, levels: u32) -> Result<(Place, NodeId), SyntaxError>
        ensures ok { IfOk result (λ r. TookPlacedName self.old self.new (placed_name_at levels (tokens_left self.old)) r.0 r.1) }
        ensures err { IfErr result (λ e. Fails self.old (placed_name_at levels (tokens_left self.old)) e) }
    {
        if self.next_is(Symbol::OpenBracket) {
            let place = self.next_place();
            let name = read!(self.escape(levels));
            return Ok((place, name));
        }
        let token = read!(self.take_token(Symbol::Name));
        let name = read!(self.push(Node::Name(token.place, token.offset, token.text)));
        Ok((token.place, name))
    }

    /// tvar = tname [":" exp]
    #[cycle(parser)]
    #[tactic(auto, using(crate::proofs::Failing::failing), unfolding(crate::specs::Views::TerraStatements::terra_variable_at))]
    pub(crate) fn terra_variable(&mut self, levels: u32) -> Result<NodeId, SyntaxError>
        ensures ok { IfOk result (λ r. TookTree self.old self.new (terra_variable_at levels (tokens_left self.old)) r) }
        ensures err { IfErr result (λ e. Fails self.old (terra_variable_at levels (tokens_left self.old)) e) }
    {
        let (place, name) = read!(self.placed_name(levels));
        let written = read!(self.optional_expression(Symbol::Colon, TYPES, levels));
        self.push(Node::Piece(Piece::Variable(place, name, written)))
    }

    /// the first texp of a statement that no word begins
    #[cycle(parser)]
    #[tactic(auto, using(crate::proofs::Failing::failing), unfolding(crate::specs::Views::TerraStatements::terra_target_at))]
    fn terra_target(&mut self, levels: u32) -> Result<Operand, SyntaxError>
        ensures ok { IfOk result (λ r. TookOperand self.old self.new (terra_target_at levels (tokens_left self.old)) r) }
        ensures err { IfErr result (λ e. Fails self.old (terra_target_at levels (tokens_left self.old)) e) }
    {
        if self.next_is(Symbol::At) {
            let node = read!(self.terra_expression(levels));
            return Ok(Operand {
                node,
                links: CHAIN,
                kind: OperandKind::Other,
            });
        }
        self.terra_applied(levels)
    }

    /// tstat = texp {"," texp} "=" texps | tcall | "[" exp "]"
    #[cycle(parser)]
    #[tactic(auto, using(crate::proofs::TerraStatementTurns::targets), unfolding(crate::specs::Views::TerraStatements::terra_simple_statement_at))]
    fn terra_simple_statement(&mut self, levels: u32) -> Result<NodeId, SyntaxError>
        requires { HasNext (tokens_left self.old) }
        ensures ok { IfOk result (λ r. TookTree self.old self.new (terra_simple_statement_at levels (tokens_left self.old)) r) }
        ensures err { IfErr result (λ e. Fails self.old (terra_simple_statement_at levels (tokens_left self.old)) e) }
    {
        let place = self.next_place();
        let first = read!(self.terra_target(levels));
        if is_call(first.kind) {
            return self.push(Node::TerraStatement(place, TerraStatement::Call(first.node)));
        }
        if is_escape(first.kind) && !self.next_is_among(&ASSIGNMENT) {
            return self.push(Node::TerraStatement(place, TerraStatement::Splice(first.node)));
        }
        let mut targets = read!(self.one_node(first.node));
        'more: while self.next_is(Symbol::Comma) {
            let next = read!(self.next_element(Element::Expression(Code::Terra), levels));
            read!(add(&mut targets, next));
        }
        let values = read!(self.expressions_behind(Symbol::Equal, Code::Terra, levels));
        self.push(Node::TerraStatement(place, TerraStatement::Assign(targets, values)))
    }

    /// tstat = "for" tname "=" texp "," texp ["," texp] "do" tblock "end"
    #[cycle(parser)]
    #[tactic(auto, using(crate::proofs::Failing::failing), unfolding(crate::specs::Views::TerraStatements::terra_for_at))]
    fn terra_for(&mut self, levels: u32) -> Result<NodeId, SyntaxError>
        ensures ok { IfOk result (λ r. TookTree self.old self.new (terra_for_at levels (tokens_left self.old)) r) }
        ensures err { IfErr result (λ e. Fails self.old (terra_for_at levels (tokens_left self.old)) e) }
    {
        let place = read!(self.take(Symbol::For));
        let name = read!(self.terra_name(levels));
        let r = read!(self.numeric(BlockCode::Terra, levels));
        self.push(Node::TerraStatement(
            place,
            TerraStatement::For(name, r.from, r.limit, r.step, r.block),
        ))
    }

    /// tstat = "var" tvar {"," tvar} ["=" texps]
    #[cycle(parser)]
    #[tactic(auto, using(crate::proofs::Failing::failing), unfolding(crate::specs::Views::TerraStatements::terra_var_at))]
    fn terra_var(&mut self, levels: u32) -> Result<NodeId, SyntaxError>
        ensures ok { IfOk result (λ r. TookTree self.old self.new (terra_var_at levels (tokens_left self.old)) r) }
        ensures err { IfErr result (λ e. Fails self.old (terra_var_at levels (tokens_left self.old)) e) }
    {
        let place = read!(self.take(Symbol::Var));
        let variables = read!(self.elements(Element::TerraVariable, levels));
        let values = read!(self.initial_values(Code::Terra, levels));
        self.push(Node::TerraStatement(place, TerraStatement::Var(variables, values)))
    }

    /// tstat = "escape" block "end"
    #[cycle(parser)]
    #[tactic(auto, using(crate::proofs::Failing::failing), unfolding(crate::specs::Views::TerraStatements::escape_block_at))]
    fn escape_block(&mut self, levels: u32) -> Result<NodeId, SyntaxError>
        ensures ok { IfOk result (λ r. TookTree self.old self.new (escape_block_at levels (tokens_left self.old)) r) }
        ensures err { IfErr result (λ e. Fails self.old (escape_block_at levels (tokens_left self.old)) e) }
    {
        let place = read!(self.open(Symbol::Escape, levels));
        let block = read!(self.block(BlockCode::Lua(EMITTING), levels - 1));
        self.close(
            Symbol::End,
            Node::TerraStatement(place, TerraStatement::Escape(block)),
        )
    }

    /// "break"
    #[tactic(auto, using(crate::proofs::Failing::failing), unfolding(crate::specs::Views::TerraStatements::terra_break_at))]
    fn terra_break(&mut self) -> Result<NodeId, SyntaxError>
        ensures ok { IfOk result (λ r. TookTree self.old self.new (terra_break_at (tokens_left self.old)) r) }
        ensures err { IfErr result (λ e. Fails self.old (terra_break_at (tokens_left self.old)) e) }
    {
        let place = read!(self.take(Symbol::Break));
        self.push(Node::TerraStatement(place, TerraStatement::Break))
    }

    /// tstat, "return" [texps] or "break"
    #[cycle(parser)]
    #[tactic(auto)]
    pub(crate) fn terra_statement(&mut self, levels: u32) -> Result<NodeId, SyntaxError>
        requires { HasNext (tokens_left self.old) }
        ensures ok { IfOk result (λ r. TookTree self.old self.new (terra_statement_at levels (tokens_left self.old)) r) }
        ensures err { IfErr result (λ e. Fails self.old (terra_statement_at levels (tokens_left self.old)) e) }
    {
        match self.next_symbol() {
            Symbol::Do => self.do_statement(BlockCode::Terra, levels),
            Symbol::While => self.while_statement(BlockCode::Terra, levels),
            Symbol::Repeat => self.repeat_statement(BlockCode::Terra, levels),
            Symbol::If => self.if_statement(BlockCode::Terra, levels),
            Symbol::For => self.terra_for(levels),
            Symbol::Var => self.terra_var(levels),
            Symbol::Escape => self.escape_block(levels),
            Symbol::Return => self.return_statement(BlockCode::Terra, levels),
            Symbol::Break => self.terra_break(),
            _ => self.terra_simple_statement(levels),
        }
    }

    /// param = Name ":" exp | "[" exp "]"
    #[cycle(parser)]
    #[tactic(auto, using(crate::proofs::Failing::failing), unfolding(crate::specs::Views::TerraStatements::terra_parameter_at))]
    pub(crate) fn terra_parameter(&mut self, levels: u32) -> Result<NodeId, SyntaxError>
        ensures ok { IfOk result (λ r. TookTree self.old self.new (terra_parameter_at levels (tokens_left self.old)) r) }
        ensures err { IfErr result (λ e. Fails self.old (terra_parameter_at levels (tokens_left self.old)) e) }
    {
        let is_spliced = self.next_is(Symbol::OpenBracket);
        let (place, name) = read!(self.placed_name(levels));
        if is_spliced {
            return self.push(Node::Piece(Piece::SpliceParameter(place, name)));
        }
        let written = read!(self.expression_behind(Symbol::Colon, TYPES, levels));
        self.push(Node::Piece(Piece::Parameter(place, name, written)))
    }

    /// [param {"," param}], up to a ")"
    #[cycle(parser)]
    #[tactic(auto, using(crate::proofs::Failing::failing), unfolding(crate::specs::Views::TerraStatements::terra_parameters_at))]
    fn terra_parameters(&mut self, levels: u32) -> Result<NodeList, SyntaxError>
        ensures ok { IfOk result (λ r. TookList self.old self.new (terra_parameters_at levels (tokens_left self.old)) r) }
        ensures err { IfErr result (λ e. Fails self.old (terra_parameters_at levels (tokens_left self.old)) e) }
    {
        if self.next_is(Symbol::CloseParen) {
            return Ok(self.no_nodes());
        }
        self.elements(Element::TerraParameter, levels)
    }

    /// tbody = "(" [param {"," param}] ")" [":" exp] tblock "end"
    #[cycle(parser)]
    #[tactic(auto, using(crate::proofs::TerraStatementParts::terra_body), unfolding(crate::specs::Views::TerraStatements::terra_function_body_at))]
    pub(crate) fn terra_function_body(&mut self, levels: u32) -> Result<NodeId, SyntaxError>
        ensures ok { IfOk result (λ r. TookTree self.old self.new (opened_terra_body_at levels (tokens_left self.old)) r) }
        ensures err { IfErr result (λ e. Fails self.old (opened_terra_body_at levels (tokens_left self.old)) e) }
    {
        let place = read!(self.open(Symbol::OpenParen, levels));
        let inner = levels - 1;
        let parameters = read!(self.terra_parameters(inner));
        pass!(self.take(Symbol::CloseParen));
        let written = read!(self.optional_expression(Symbol::Colon, TYPES, inner));
        let block = read!(self.block(BlockCode::Terra, inner));
        self.close(
            Symbol::End,
            Node::Piece(Piece::TerraBody(place, parameters, written, block)),
        )
    }

    /// tblock ["in" texp], behind "quote"
    #[cycle(parser)]
    #[tactic(auto, using(crate::proofs::TerraStatementParts::quoted_code), unfolding(crate::specs::Views::TerraStatements::quoted_code_at))]
    pub(crate) fn quoted_code(&mut self, levels: u32) -> Result<NodeId, SyntaxError>
        ensures ok { IfOk result (λ r. TookTree self.old self.new (part_at levels parts.QuotedCode (tokens_left self.old)) r) }
        ensures err { IfErr result (λ e. Fails self.old (part_at levels parts.QuotedCode (tokens_left self.old)) e) }
    {
        let block = read!(self.block(BlockCode::Terra, levels));
        let expression = read!(self.optional_expression(Symbol::In, Code::Terra, levels));
        self.push(Node::Piece(Piece::Quoted(block, expression)))
    }
}

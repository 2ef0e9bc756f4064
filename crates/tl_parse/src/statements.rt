// Reading of Lua statements and functions (Lua 5.1 manual, sections 2.4 and 2.5.9), and of the statements that both languages have.
ghost use Rattle.std.specs.Prelude.{◌≡◌, ◌<◌, ◌≤◌, ◌-◌, ℕ, length, true, false, IfOk, IfErr, [], ◌∷◌};
ghost use Rattle.tl_base.specs.declared.place.Place.{Place};
ghost use Rattle.tl_tree.specs.Symbols.{has, is_bad};
ghost use Rattle.tl_tree.specs.LuaStatements as lua;
ghost use Rattle.tl_tree.specs.Tree as parts;
ghost use Rattle.tl_tree.specs.Grammar.{begins};
ghost use Rattle.tl_tree.specs.Tokens.{among};
ghost use Rattle.tl_parse.specs.Views.Parsing.{tokens_left, Fails, HasNext, TookTree, TookList, TookOption, TookMaybe};
ghost use Rattle.tl_parse.specs.Views.Using.{part_at};
ghost use Rattle.tl_parse.specs.Views.Codes.{opened_body_at, code_of, statements_in, looped_code, first_symbols};
ghost use Rattle.tl_parse.specs.Views.Statements.{first_place, is_no_variable, variable_at, is_call};
ghost use Rattle.tl_parse.specs.Views.Statements.{call_or_assignment_at, do_at, loop_at, while_at, repeat_at};
ghost use Rattle.tl_parse.specs.Views.Statements.{arm_at, next_arm_at, arms_at, otherwise_at, if_at, numeric_at};
ghost use Rattle.tl_parse.specs.Views.Statements.{generic_at, for_at, function_statement_at, local_function_at};
ghost use Rattle.tl_parse.specs.Views.Statements.{initial_values_at, local_names_at, local_at, returned_values_at};
ghost use Rattle.tl_parse.specs.Views.Statements.{return_at, break_at, emit_at, statement_at};
ghost use Rattle.tl_parse.specs.Views.Statements.{parameter_at, next_parameter_at};
ghost use Rattle.tl_parse.specs.Views.Blocks.{next_statement_at};
ghost use Rattle.tl_parse.specs.Views.Statements.{parameters_at};
ghost use Rattle.tl_parse.specs.Views.Paths.{names_at, next_name_at, behind_sign_at, path_method_at, path_at};
ghost use Rattle.tl_parse.specs.Views.Going.{TookNumeric, TookGeneric, TookParameters, TookStatement};

use crate::error::SyntaxError;
use crate::parser::{BlockCode, Code, Element, Parser, add};
use tl_base::{NodeId, Place};
use tl_tree::{
    Context, Mode, Node, NodeList, OperandKind, Piece, Statement, Symbol, TerraStatement,
};

/// What a numeric `for` has behind its name.
#[derive(Clone, Copy)]
pub(crate) struct Numeric {
    pub(crate) from: NodeId,
    pub(crate) limit: NodeId,
    pub(crate) step: Option<NodeId>,
    pub(crate) block: NodeId,
}

static EXPRESSION: [Symbol; 18] = [
    Symbol::Name,
    Symbol::Numeral,
    Symbol::Literal,
    Symbol::Nil,
    Symbol::False,
    Symbol::True,
    Symbol::Ellipsis,
    Symbol::Function,
    Symbol::OpenParen,
    Symbol::OpenBrace,
    Symbol::Not,
    Symbol::Hash,
    Symbol::Minus,
    Symbol::Ampersand,
    Symbol::Terra,
    Symbol::Struct,
    Symbol::Quote,
    Symbol::Backtick,
];

static TERRA_EXPRESSION: [Symbol; 14] = [
    Symbol::Name,
    Symbol::Numeral,
    Symbol::LongNumeral,
    Symbol::UnsignedNumeral,
    Symbol::Literal,
    Symbol::Nil,
    Symbol::False,
    Symbol::True,
    Symbol::OpenParen,
    Symbol::OpenBracket,
    Symbol::Not,
    Symbol::Minus,
    Symbol::At,
    Symbol::Ampersand,
];

static DEFINITION: [Symbol; 2] = [Symbol::Terra, Symbol::Struct];

static LAST: [Symbol; 2] = [Symbol::Return, Symbol::Break];

/// Is it no variable?
fn is_no_variable(kind: OperandKind) -> bool
    ensures { result ≡ is_no_variable kind }
{
    match kind {
        OperandKind::Call => true,
        OperandKind::Other => true,
        _ => false,
    }
}

pub(crate) fn is_call(kind: OperandKind) -> bool
    ensures { result ≡ is_call kind }
{
    match kind {
        OperandKind::Call => true,
        _ => false,
    }
}

/// The context of the block of a loop.
fn looped(context: Context) -> Context
    ensures { result ≡ lua.looped context }
{
    Context {
        mode: context.mode,
        in_loop: true,
        emits: context.emits,
    }
}

/// The same in either language.
fn looped_code(block: BlockCode) -> BlockCode
    ensures { result ≡ looped_code block }
{
    match block {
        BlockCode::Lua(context) => BlockCode::Lua(looped(context)),
        BlockCode::Terra => BlockCode::Terra,
    }
}

/// The language of the expressions in a block.
fn code_of(block: BlockCode) -> Code
    ensures { result ≡ code_of block }
{
    match block {
        BlockCode::Lua(context) => Code::Lua(context.mode),
        BlockCode::Terra => Code::Terra,
    }
}

/// The tokens that begin an expression.
fn first_symbols(code: Code) -> &'static [Symbol]
    ensures symbols { result.now ≡ first_symbols code }
    ensures good { has result.now 65 ≡ false }
{
    match code {
        Code::Lua(_) => &EXPRESSION,
        Code::Terra => &TERRA_EXPRESSION,
    }
}

/// The context of the block of a function.
fn fresh(variadic: bool) -> Context
    ensures { result ≡ lua.fresh (lua.body_mode variadic) }
{
    if variadic {
        Context {
            mode: Mode::Variadic,
            in_loop: false,
            emits: false,
        }
    } else {
        Context {
            mode: Mode::Plain,
            in_loop: false,
            emits: false,
        }
    }
}

impl<'a> Parser<'a> {
    /// "," Name
    #[tactic(auto, using(crate::proofs::Failing::failing), unfolding(crate::specs::Views::Paths::next_name_at))]
    #[inline(always)]
    fn next_name(&mut self) -> Result<NodeId, SyntaxError>
        ensures ok { IfOk result (λ r. TookTree self.old self.new (next_name_at (tokens_left self.old)) r) }
        ensures err { IfErr result (λ e. Fails self.old (next_name_at (tokens_left self.old)) e) }
    {
        pass!(self.take(Symbol::Comma));
        self.name()
    }

    /// names = Name {"," Name}
    #[tactic(auto, using(crate::proofs::StatementTurns::names), unfolding(crate::specs::Views::Paths::names_at))]
    fn names(&mut self, levels: u32) -> Result<NodeList, SyntaxError>
        ensures ok { IfOk result (λ r. TookList self.old self.new (names_at levels (tokens_left self.old)) r) }
        ensures err { IfErr result (λ e. Fails self.old (names_at levels (tokens_left self.old)) e) }
    {
        let first = read!(self.name());
        let mut list = read!(self.one_node(first));
        'more: while self.next_is(Symbol::Comma) {
            let next = read!(self.next_name());
            read!(add(&mut list, next));
        }
        Ok(list)
    }

    /// "." Name, or ":" Name, with the place of the sign
    #[tactic(auto, using(crate::proofs::Failing::failing), unfolding(crate::specs::Views::Paths::behind_sign_at))]
    pub(crate) fn behind_sign(&mut self, symbol: Symbol) -> Result<NodeId, SyntaxError>
        requires { is_bad symbol ≡ false }
        ensures ok { IfOk result (λ r. TookTree self.old self.new (behind_sign_at symbol (tokens_left self.old)) r) }
        ensures err { IfErr result (λ e. Fails self.old (behind_sign_at symbol (tokens_left self.old)) e) }
    {
        let place = read!(self.take(symbol));
        let name = read!(self.take_token(Symbol::Name));
        self.push(Node::Name(place, name.offset, name.text))
    }

    /// [":" Name]
    #[tactic(auto, using(crate::proofs::Failing::failing), unfolding(crate::specs::Views::Paths::path_method_at))]
    fn path_method(&mut self) -> Result<Option<NodeId>, SyntaxError>
        ensures ok { IfOk result (λ r. TookOption self.old self.new (path_method_at (tokens_left self.old)) r) }
        ensures err { IfErr result (λ e. Fails self.old (path_method_at (tokens_left self.old)) e) }
    {
        if self.next_is(Symbol::Colon) {
            let name = read!(self.behind_sign(Symbol::Colon));
            return Ok(Some(name));
        }
        Ok(None)
    }

    /// path = Name {"." Name} [":" Name]
    #[tactic(auto, using(crate::proofs::StatementTurns::paths), unfolding(crate::specs::Views::Paths::path_at))]
    pub(crate) fn path(&mut self, levels: u32) -> Result<NodeId, SyntaxError>
        ensures ok { IfOk result (λ r. TookTree self.old self.new (path_at levels (tokens_left self.old)) r) }
        ensures err { IfErr result (λ e. Fails self.old (path_at levels (tokens_left self.old)) e) }
    {
        let first = read!(self.name());
        let mut list = read!(self.one_node(first));
        'more: while self.next_is(Symbol::Dot) {
            let next = read!(self.behind_sign(Symbol::Dot));
            read!(add(&mut list, next));
        }
        let method = read!(self.path_method());
        self.push(Node::Piece(Piece::Path(list, method)))
    }

    /// var = Name | prefix "[" exp "]" | prefix "." Name
    #[cycle(parser)]
    #[tactic(auto, using(crate::proofs::StatementTurns::variables), unfolding(crate::specs::Views::Statements::variable_at))]
    pub(crate) fn variable(&mut self, mode: Mode, levels: u32) -> Result<NodeId, SyntaxError>
        ensures ok { IfOk result (λ r. TookTree self.old self.new (variable_at levels mode (tokens_left self.old)) r) }
        ensures err { IfErr result (λ e. Fails self.old (variable_at levels mode (tokens_left self.old)) e) }
    {
        let a = read!(self.applied(mode, levels, false));
        if is_no_variable(a.kind) {
            return Err(self.refusal());
        }
        Ok(a.node)
    }

    /// stat = var {"," var} "=" exps | call
    #[cycle(parser)]
    #[tactic(auto, using(crate::proofs::Turns::elements), unfolding(crate::specs::Views::Statements::call_or_assignment_at))]
    fn call_or_assignment(&mut self, mode: Mode, levels: u32) -> Result<NodeId, SyntaxError>
        requires { HasNext (tokens_left self.old) }
        ensures ok { IfOk result (λ r. TookTree self.old self.new (call_or_assignment_at levels mode (tokens_left self.old)) r) }
        ensures err { IfErr result (λ e. Fails self.old (call_or_assignment_at levels mode (tokens_left self.old)) e) }
    {
        let place = self.next_place();
        let a = read!(self.applied(mode, levels, true));
        if is_call(a.kind) {
            return self.push(Node::Statement(place, Statement::Call(a.node)));
        }
        let mut targets = read!(self.one_node(a.node));
        'more: while self.next_is(Symbol::Comma) {
            let next = read!(self.next_element(Element::Target(mode), levels));
            read!(add(&mut targets, next));
        }
        let values = read!(self.expressions_behind(Symbol::Equal, Code::Lua(mode), levels));
        self.push(Node::Statement(place, Statement::Assign(targets, values)))
    }

    /// stat = "do" block "end", or tstat = "do" tblock "end"
    #[cycle(parser)]
    #[tactic(auto, using(crate::proofs::Failing::failing), unfolding(crate::specs::Views::Statements::do_at))]
    pub(crate) fn do_statement(
        &mut self,
        block: BlockCode,
        levels: u32,
    ) -> Result<NodeId, SyntaxError>
        ensures ok { IfOk result (λ r. TookTree self.old self.new (do_at levels block (tokens_left self.old)) r) }
        ensures err { IfErr result (λ e. Fails self.old (do_at levels block (tokens_left self.old)) e) }
    {
        let place = read!(self.open(Symbol::Do, levels));
        let body = read!(self.block(block, levels - 1));
        match block {
            BlockCode::Lua(_) => self.close(
                Symbol::End,
                Node::Statement(place, Statement::Do(body)),
            ),
            BlockCode::Terra => self.close(
                Symbol::End,
                Node::TerraStatement(place, TerraStatement::Do(body)),
            ),
        }
    }

    /// "do" block "end" or "do" tblock "end", of a loop
    #[cycle(parser)]
    #[tactic(auto, using(crate::proofs::Failing::failing), unfolding(crate::specs::Views::Statements::loop_at))]
    fn loop_block(&mut self, block: BlockCode, levels: u32) -> Result<NodeId, SyntaxError>
        ensures ok { IfOk result (λ r. TookTree self.old self.new (loop_at levels block (tokens_left self.old)) r) }
        ensures err { IfErr result (λ e. Fails self.old (loop_at levels block (tokens_left self.old)) e) }
    {
        pass!(self.open(Symbol::Do, levels));
        let body = read!(self.block(looped_code(block), levels - 1));
        pass!(self.take(Symbol::End));
        Ok(body)
    }

    /// stat = "while" exp "do" block "end", or tstat = "while" texp "do" tblock "end"
    #[cycle(parser)]
    #[tactic(auto, using(crate::proofs::Failing::failing), unfolding(crate::specs::Views::Statements::while_at))]
    pub(crate) fn while_statement(
        &mut self,
        block: BlockCode,
        levels: u32,
    ) -> Result<NodeId, SyntaxError>
        ensures ok { IfOk result (λ r. TookTree self.old self.new (while_at levels block (tokens_left self.old)) r) }
        ensures err { IfErr result (λ e. Fails self.old (while_at levels block (tokens_left self.old)) e) }
    {
        let place = read!(self.take(Symbol::While));
        let condition = read!(self.expression_of(code_of(block), levels));
        let body = read!(self.loop_block(block, levels));
        match block {
            BlockCode::Lua(_) => self.push(Node::Statement(
                place,
                Statement::While(condition, body),
            )),
            BlockCode::Terra => self.push(Node::TerraStatement(
                place,
                TerraStatement::While(condition, body),
            )),
        }
    }

    /// stat = "repeat" block "until" exp, or tstat = "repeat" tblock "until" texp
    #[cycle(parser)]
    #[tactic(auto, using(crate::proofs::Failing::failing), unfolding(crate::specs::Views::Statements::repeat_at))]
    pub(crate) fn repeat_statement(
        &mut self,
        block: BlockCode,
        levels: u32,
    ) -> Result<NodeId, SyntaxError>
        ensures ok { IfOk result (λ r. TookTree self.old self.new (repeat_at levels block (tokens_left self.old)) r) }
        ensures err { IfErr result (λ e. Fails self.old (repeat_at levels block (tokens_left self.old)) e) }
    {
        let place = read!(self.open(Symbol::Repeat, levels));
        let body = read!(self.block(looped_code(block), levels - 1));
        // The condition is read at the level of the statement.
        let condition = read!(self.expression_behind(Symbol::Until, code_of(block), levels));
        match block {
            BlockCode::Lua(_) => self.push(Node::Statement(
                place,
                Statement::Repeat(body, condition),
            )),
            BlockCode::Terra => self.push(Node::TerraStatement(
                place,
                TerraStatement::Repeat(body, condition),
            )),
        }
    }

    /// exp "then" block, or texp "then" tblock
    #[cycle(parser)]
    #[tactic(auto, using(crate::proofs::Failing::failing), unfolding(crate::specs::Views::Statements::arm_at))]
    fn arm(&mut self, block: BlockCode, levels: u32) -> Result<NodeId, SyntaxError>
        ensures ok { IfOk result (λ r. TookTree self.old self.new (arm_at levels block (tokens_left self.old)) r) }
        ensures err { IfErr result (λ e. Fails self.old (arm_at levels block (tokens_left self.old)) e) }
    {
        let condition = read!(self.expression_of(code_of(block), levels));
        pass!(self.open(Symbol::Then, levels));
        let body = read!(self.block(block, levels - 1));
        self.push(Node::Piece(Piece::Arm(condition, body)))
    }

    /// "elseif" exp "then" block, or "elseif" texp "then" tblock
    #[cycle(parser)]
    #[tactic(auto, using(crate::proofs::Failing::failing), unfolding(crate::specs::Views::Statements::next_arm_at))]
    fn next_arm(&mut self, block: BlockCode, levels: u32) -> Result<NodeId, SyntaxError>
        ensures ok { IfOk result (λ r. TookTree self.old self.new (next_arm_at levels block (tokens_left self.old)) r) }
        ensures err { IfErr result (λ e. Fails self.old (next_arm_at levels block (tokens_left self.old)) e) }
    {
        pass!(self.take(Symbol::Elseif));
        self.arm(block, levels)
    }

    /// exp "then" block {"elseif" exp "then" block}, or texp "then" tblock {"elseif" texp "then" tblock}
    #[cycle(parser)]
    #[tactic(auto, using(crate::proofs::TerraStatementTurns::arms), unfolding(crate::specs::Views::Statements::arms_at))]
    fn arms(&mut self, block: BlockCode, levels: u32) -> Result<NodeList, SyntaxError>
        ensures ok { IfOk result (λ r. TookList self.old self.new (arms_at levels block (tokens_left self.old)) r) }
        ensures err { IfErr result (λ e. Fails self.old (arms_at levels block (tokens_left self.old)) e) }
    {
        let first = read!(self.arm(block, levels));
        let mut list = read!(self.one_node(first));
        'more: while self.next_is(Symbol::Elseif) {
            let next = read!(self.next_arm(block, levels));
            read!(add(&mut list, next));
        }
        Ok(list)
    }

    /// ["else" block], or ["else" tblock]
    #[cycle(parser)]
    #[tactic(auto, using(crate::proofs::Failing::failing), unfolding(crate::specs::Views::Statements::otherwise_at))]
    fn otherwise(&mut self, block: BlockCode, levels: u32) -> Result<Option<NodeId>, SyntaxError>
        ensures ok { IfOk result (λ r. TookOption self.old self.new (otherwise_at levels block (tokens_left self.old)) r) }
        ensures err { IfErr result (λ e. Fails self.old (otherwise_at levels block (tokens_left self.old)) e) }
    {
        if self.next_is(Symbol::Else) {
            pass!(self.open(Symbol::Else, levels));
            let body = read!(self.block(block, levels - 1));
            return Ok(Some(body));
        }
        Ok(None)
    }

    /// stat = "if" exp "then" block {"elseif" exp "then" block} ["else" block] "end", or the same of texp and tblock
    #[cycle(parser)]
    #[tactic(auto, using(crate::proofs::Failing::failing), unfolding(crate::specs::Views::Statements::if_at))]
    pub(crate) fn if_statement(
        &mut self,
        block: BlockCode,
        levels: u32,
    ) -> Result<NodeId, SyntaxError>
        ensures ok { IfOk result (λ r. TookTree self.old self.new (if_at levels block (tokens_left self.old)) r) }
        ensures err { IfErr result (λ e. Fails self.old (if_at levels block (tokens_left self.old)) e) }
    {
        let place = read!(self.take(Symbol::If));
        let arms = read!(self.arms(block, levels));
        let otherwise = read!(self.otherwise(block, levels));
        match block {
            BlockCode::Lua(_) => self.close(
                Symbol::End,
                Node::Statement(place, Statement::If(arms, otherwise)),
            ),
            BlockCode::Terra => self.close(
                Symbol::End,
                Node::TerraStatement(place, TerraStatement::If(arms, otherwise)),
            ),
        }
    }

    /// "=" exp "," exp ["," exp] "do" block "end", or "=" texp .. "end", behind "for" and a name
    #[cycle(parser)]
    #[tactic(auto, using(crate::proofs::Failing::failing), unfolding(crate::specs::Views::Statements::numeric_at))]
    pub(crate) fn numeric(&mut self, block: BlockCode, levels: u32) -> Result<Numeric, SyntaxError>
        ensures ok { IfOk result (λ r. TookNumeric self.old self.new (numeric_at levels block (tokens_left self.old)) r) }
        ensures err { IfErr result (λ e. Fails self.old (numeric_at levels block (tokens_left self.old)) e) }
    {
        let code = code_of(block);
        let from = read!(self.expression_behind(Symbol::Equal, code, levels));
        let limit = read!(self.expression_behind(Symbol::Comma, code, levels));
        let step = read!(self.optional_expression(Symbol::Comma, code, levels));
        let body = read!(self.loop_block(block, levels));
        Ok(Numeric {
            from,
            limit,
            step,
            block: body,
        })
    }

    /// "in" exps "do" block "end", behind "for" names
    #[cycle(parser)]
    #[tactic(auto, using(crate::proofs::Failing::failing), unfolding(crate::specs::Views::Statements::generic_at))]
    fn generic(&mut self, context: Context, levels: u32) -> Result<(NodeList, NodeId), SyntaxError>
        ensures ok { IfOk result (λ r. TookGeneric self.old self.new (generic_at levels context (tokens_left self.old)) r.0 r.1) }
        ensures err { IfErr result (λ e. Fails self.old (generic_at levels context (tokens_left self.old)) e) }
    {
        let values = read!(self.expressions_behind(Symbol::In, Code::Lua(context.mode), levels));
        let block = read!(self.loop_block(BlockCode::Lua(context), levels));
        Ok((values, block))
    }

    /// stat = "for" Name "=" .. | "for" names "in" ..
    #[cycle(parser)]
    #[tactic(auto, using(crate::proofs::StatementTurns::names), unfolding(crate::specs::Views::Statements::for_at))]
    fn for_statement(&mut self, context: Context, levels: u32) -> Result<NodeId, SyntaxError>
        ensures ok { IfOk result (λ r. TookTree self.old self.new (for_at levels context (tokens_left self.old)) r) }
        ensures err { IfErr result (λ e. Fails self.old (for_at levels context (tokens_left self.old)) e) }
    {
        let place = read!(self.take(Symbol::For));
        let name = read!(self.name());
        if self.next_is(Symbol::Equal) {
            let r = read!(self.numeric(BlockCode::Lua(context), levels));
            return self.push(Node::Statement(
                place,
                Statement::NumericFor(name, r.from, r.limit, r.step, r.block),
            ));
        }
        let mut names = read!(self.one_node(name));
        'more: while self.next_is(Symbol::Comma) {
            let next = read!(self.next_name());
            read!(add(&mut names, next));
        }
        let (values, block) = read!(self.generic(context, levels));
        self.push(Node::Statement(place, Statement::GenericFor(names, values, block)))
    }

    /// stat = "function" path body
    #[cycle(parser)]
    #[tactic(auto, using(crate::proofs::Failing::failing), unfolding(crate::specs::Views::Statements::function_statement_at))]
    fn function_statement(&mut self, levels: u32) -> Result<NodeId, SyntaxError>
        ensures ok { IfOk result (λ r. TookTree self.old self.new (function_statement_at levels (tokens_left self.old)) r) }
        ensures err { IfErr result (λ e. Fails self.old (function_statement_at levels (tokens_left self.old)) e) }
    {
        let place = read!(self.take(Symbol::Function));
        let path = read!(self.path(levels));
        let body = read!(self.function_body(levels));
        self.push(Node::Statement(place, Statement::Function(path, body)))
    }

    /// stat = "local" "function" Name body, behind "local"
    #[cycle(parser)]
    #[tactic(auto, using(crate::proofs::Failing::failing), unfolding(crate::specs::Views::Statements::local_function_at))]
    fn local_function(&mut self, levels: u32, place: Place) -> Result<NodeId, SyntaxError>
        ensures ok { IfOk result (λ r. TookTree self.old self.new (local_function_at levels place (tokens_left self.old)) r) }
        ensures err { IfErr result (λ e. Fails self.old (local_function_at levels place (tokens_left self.old)) e) }
    {
        pass!(self.take(Symbol::Function));
        let name = read!(self.name());
        let body = read!(self.function_body(levels));
        self.push(Node::Statement(place, Statement::LocalFunction(name, body)))
    }

    /// ["=" exps], or ["=" texps]
    #[cycle(parser)]
    #[tactic(auto, using(crate::proofs::Failing::failing), unfolding(crate::specs::Views::Statements::initial_values_at))]
    pub(crate) fn initial_values(
        &mut self,
        code: Code,
        levels: u32,
    ) -> Result<NodeList, SyntaxError>
        ensures ok { IfOk result (λ r. TookList self.old self.new (initial_values_at levels code (tokens_left self.old)) r) }
        ensures err { IfErr result (λ e. Fails self.old (initial_values_at levels code (tokens_left self.old)) e) }
    {
        if self.next_is(Symbol::Equal) {
            return self.expressions_behind(Symbol::Equal, code, levels);
        }
        Ok(self.no_nodes())
    }

    /// stat = "local" names ["=" exps], behind "local"
    #[cycle(parser)]
    #[tactic(auto, using(crate::proofs::Failing::failing), unfolding(crate::specs::Views::Statements::local_names_at))]
    fn local_names(&mut self, mode: Mode, levels: u32, place: Place) -> Result<NodeId, SyntaxError>
        ensures ok { IfOk result (λ r. TookTree self.old self.new (local_names_at levels mode place (tokens_left self.old)) r) }
        ensures err { IfErr result (λ e. Fails self.old (local_names_at levels mode place (tokens_left self.old)) e) }
    {
        let names = read!(self.names(levels));
        let values = read!(self.initial_values(Code::Lua(mode), levels));
        self.push(Node::Statement(place, Statement::Local(names, values)))
    }

    /// stat = "local" ("function" .. | "terra" .. | "struct" .. | names ..)
    #[cycle(parser)]
    #[tactic(auto, using(crate::proofs::Failing::failing), unfolding(crate::specs::Views::Statements::local_at))]
    fn local_statement(&mut self, context: Context, levels: u32) -> Result<NodeId, SyntaxError>
        ensures ok { IfOk result (λ r. TookTree self.old self.new (local_at levels context (tokens_left self.old)) r) }
        ensures err { IfErr result (λ e. Fails self.old (local_at levels context (tokens_left self.old)) e) }
    {
        let place = read!(self.take(Symbol::Local));
        if self.next_is(Symbol::Function) {
            return self.local_function(levels, place);
        }
        if self.next_is_among(&DEFINITION) {
            return self.local_terra(context.mode, place, levels);
        }
        self.local_names(context.mode, levels, place)
    }

    /// [exps] or [texps], behind "return"
    #[cycle(parser)]
    #[tactic(auto, using(crate::proofs::Failing::failing), unfolding(crate::specs::Views::Statements::returned_values_at))]
    fn returned_values(&mut self, code: Code, levels: u32) -> Result<NodeList, SyntaxError>
        ensures ok { IfOk result (λ r. TookList self.old self.new (returned_values_at levels code (tokens_left self.old)) r) }
        ensures err { IfErr result (λ e. Fails self.old (returned_values_at levels code (tokens_left self.old)) e) }
    {
        if self.next_is_among(first_symbols(code)) {
            return self.elements(Element::Expression(code), levels);
        }
        Ok(self.no_nodes())
    }

    /// "return" [exps], or "return" [texps]
    #[cycle(parser)]
    #[tactic(auto, using(crate::proofs::Failing::failing), unfolding(crate::specs::Views::Statements::return_at))]
    pub(crate) fn return_statement(
        &mut self,
        block: BlockCode,
        levels: u32,
    ) -> Result<NodeId, SyntaxError>
        ensures ok { IfOk result (λ r. TookTree self.old self.new (return_at levels block (tokens_left self.old)) r) }
        ensures err { IfErr result (λ e. Fails self.old (return_at levels block (tokens_left self.old)) e) }
    {
        let place = read!(self.take(Symbol::Return));
        let values = read!(self.returned_values(code_of(block), levels));
        match block {
            BlockCode::Lua(_) => self.push(Node::Statement(place, Statement::Return(values))),
            BlockCode::Terra => self.push(Node::TerraStatement(
                place,
                TerraStatement::Return(values),
            )),
        }
    }

    /// "break"
    #[tactic(auto, using(crate::proofs::Failing::failing), unfolding(crate::specs::Views::Statements::break_at))]
    fn break_statement(&mut self) -> Result<NodeId, SyntaxError>
        ensures ok { IfOk result (λ r. TookTree self.old self.new (break_at (tokens_left self.old)) r) }
        ensures err { IfErr result (λ e. Fails self.old (break_at (tokens_left self.old)) e) }
    {
        let place = read!(self.take(Symbol::Break));
        self.push(Node::Statement(place, Statement::Break))
    }

    /// stat = "emit" exp
    #[cycle(parser)]
    #[tactic(auto, using(crate::proofs::Failing::failing), unfolding(crate::specs::Views::Statements::emit_at))]
    fn emit_statement(&mut self, mode: Mode, levels: u32) -> Result<NodeId, SyntaxError>
        ensures ok { IfOk result (λ r. TookTree self.old self.new (emit_at levels mode (tokens_left self.old)) r) }
        ensures err { IfErr result (λ e. Fails self.old (emit_at levels mode (tokens_left self.old)) e) }
    {
        let place = read!(self.take(Symbol::Emit));
        let value = read!(self.expression(mode, levels));
        self.push(Node::Statement(place, Statement::Emit(value)))
    }

    /// stat, "return" [exps] or "break"
    #[cycle(parser)]
    #[tactic(auto)]
    fn statement(&mut self, context: Context, levels: u32) -> Result<NodeId, SyntaxError>
        requires { HasNext (tokens_left self.old) }
        ensures ok { IfOk result (λ r. TookTree self.old self.new (statement_at levels context (tokens_left self.old)) r) }
        ensures err { IfErr result (λ e. Fails self.old (statement_at levels context (tokens_left self.old)) e) }
    {
        match self.next_symbol() {
            Symbol::Do => self.do_statement(BlockCode::Lua(context), levels),
            Symbol::While => self.while_statement(BlockCode::Lua(context), levels),
            Symbol::Repeat => self.repeat_statement(BlockCode::Lua(context), levels),
            Symbol::If => self.if_statement(BlockCode::Lua(context), levels),
            Symbol::For => self.for_statement(context, levels),
            Symbol::Function => self.function_statement(levels),
            Symbol::Local => self.local_statement(context, levels),
            Symbol::Return => self.return_statement(BlockCode::Lua(context), levels),
            Symbol::Break => self.break_statement(),
            Symbol::Emit => self.emit_statement(context.mode, levels),
            Symbol::Terra => self.define_terra(context.mode, levels),
            Symbol::Struct => self.define_struct(context.mode, levels),
            _ => self.call_or_assignment(context.mode, levels),
        }
    }

    /// stat [";"], or tstat [";"], and whether it ends its block
    #[cycle(parser)]
    #[tactic(auto, using(crate::proofs::Failing::failing), unfolding(crate::specs::Views::Blocks::next_statement_at))]
    fn next_statement(
        &mut self,
        block: BlockCode,
        levels: u32,
    ) -> Result<(NodeId, bool), SyntaxError>
        requires { HasNext (tokens_left self.old) }
        ensures ok { IfOk result (λ r. TookStatement self.old self.new (next_statement_at levels block (tokens_left self.old)) r.0 r.1) }
        ensures err { IfErr result (λ e. Fails self.old (next_statement_at levels block (tokens_left self.old)) e) }
    {
        let ends = self.next_is_among(&LAST);
        let node = match block {
            BlockCode::Lua(context) => read!(self.statement(context, levels)),
            BlockCode::Terra => read!(self.terra_statement(levels)),
        };
        if self.next_is(Symbol::Semicolon) {
            pass!(self.take(Symbol::Semicolon));
            return Ok((node, ends));
        }
        Ok((node, ends))
    }

    /// block = { stat [";"] } [ ("return" [exps] | "break") [";"] ], or tblock, the same of tstat and texps
    #[cycle(parser)]
    #[tactic(auto, using(crate::proofs::Blocks::blocks), unfolding(crate::specs::Views::Blocks::block_at))]
    pub(crate) fn block(&mut self, block: BlockCode, levels: u32) -> Result<NodeId, SyntaxError>
        ensures ok { IfOk result (λ r. TookTree self.old self.new (part_at levels (statements_in block) (tokens_left self.old)) r) }
        ensures err { IfErr result (λ e. Fails self.old (part_at levels (statements_in block) (tokens_left self.old)) e) }
    {
        let mut list = self.no_nodes();
        let mut ended = false;
        'more: while self.next_goes_on(block, ended) {
            let (node, ends) = read!(self.next_statement(block, levels));
            read!(add(&mut list, node));
            ended = ends;
        }
        self.push(Node::Piece(Piece::Block(list)))
    }

    /// Name | "..."
    #[tactic(auto, using(crate::proofs::Failing::failing), unfolding(crate::specs::Views::Statements::parameter_at))]
    fn parameter(&mut self) -> Result<Option<NodeId>, SyntaxError>
        ensures ok { IfOk result (λ r. TookMaybe self.old self.new (parameter_at (tokens_left self.old)) r) }
        ensures err { IfErr result (λ e. Fails self.old (parameter_at (tokens_left self.old)) e) }
    {
        if self.next_is(Symbol::Ellipsis) {
            pass!(self.take(Symbol::Ellipsis));
            return Ok(None);
        }
        let name = read!(self.name());
        Ok(Some(name))
    }

    /// "," (Name | "...")
    #[tactic(auto, using(crate::proofs::Failing::failing), unfolding(crate::specs::Views::Statements::next_parameter_at))]
    fn next_parameter(&mut self) -> Result<Option<NodeId>, SyntaxError>
        ensures ok { IfOk result (λ r. TookMaybe self.old self.new (next_parameter_at (tokens_left self.old)) r) }
        ensures err { IfErr result (λ e. Fails self.old (next_parameter_at (tokens_left self.old)) e) }
    {
        pass!(self.take(Symbol::Comma));
        self.parameter()
    }

    /// [names ["," "..."] | "..."], up to a ")"
    #[tactic(auto, using(crate::proofs::StatementTurns::parameters), unfolding(crate::specs::Views::Statements::parameters_at))]
    fn parameters(&mut self, levels: u32) -> Result<(NodeList, bool), SyntaxError>
        ensures ok { IfOk result (λ r. TookParameters self.old self.new (parameters_at levels (tokens_left self.old)) r.0 r.1) }
        ensures err { IfErr result (λ e. Fails self.old (parameters_at levels (tokens_left self.old)) e) }
    {
        let mut list = self.no_nodes();
        if self.next_is(Symbol::CloseParen) {
            return Ok((list, false));
        }
        match read!(self.parameter()) {
            Some(name) => read!(add(&mut list, name)),
            None => return Ok((list, true)),
        }
        'more: while self.next_is(Symbol::Comma) {
            match read!(self.next_parameter()) {
                Some(name) => read!(add(&mut list, name)),
                None => return Ok((list, true)),
            }
        }
        Ok((list, false))
    }

    /// body = "(" [names ["," "..."] | "..."] ")" block "end"
    #[cycle(parser)]
    #[tactic(auto, using(crate::proofs::StatementTurns::body), unfolding(crate::specs::Views::Statements::body_at))]
    pub(crate) fn function_body(&mut self, levels: u32) -> Result<NodeId, SyntaxError>
        ensures ok { IfOk result (λ r. TookTree self.old self.new (opened_body_at levels (tokens_left self.old)) r) }
        ensures err { IfErr result (λ e. Fails self.old (opened_body_at levels (tokens_left self.old)) e) }
    {
        pass!(self.open(Symbol::OpenParen, levels));
        let inner = levels - 1;
        let (names, variadic) = read!(self.parameters(inner));
        pass!(self.take(Symbol::CloseParen));
        let block = read!(self.block(BlockCode::Lua(fresh(variadic)), inner));
        self.close(
            Symbol::End,
            Node::Piece(Piece::Body(names, variadic, block)),
        )
    }
}

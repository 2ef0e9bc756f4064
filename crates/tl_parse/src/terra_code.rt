// Reading of the Terra code in Lua expressions.
ghost use Rattle.std.specs.Prelude.{◌≡◌, ◌<◌, ◌≤◌, ◌-◌, ℕ, length, true, false, IfOk, IfErr, [], ◌∷◌};
ghost use Rattle.tl_tree.specs.Tree as parts;
ghost use Rattle.tl_parse.specs.Views.Parsing.{tokens_left, Fails, TookTree, TookList};
ghost use Rattle.tl_parse.specs.Views.Using.{part_at};
ghost use Rattle.tl_parse.specs.Views.TerraCode.{terra_function_at, struct_body_at, struct_at, quote_at, backtick_at};
ghost use Rattle.tl_parse.specs.Views.TerraCode.{terra_code_at};
ghost use Rattle.tl_parse.specs.Views.Entries.{separator_at, entry_at};
ghost use Rattle.tl_parse.specs.Views.TerraGoing.{TookNothing};

use crate::error::SyntaxError;
use crate::parser::{Code, Parser, add};
use tl_base::NodeId;
use tl_tree::{Expression, Mode, Node, NodeList, Piece, Symbol};

static SEPARATOR: [Symbol; 2] = [Symbol::Comma, Symbol::Semicolon];

impl<'a> Parser<'a> {
    /// exp = "terra" tbody
    #[cycle(parser)]
    #[tactic(auto, using(crate::proofs::Failing::failing), unfolding(crate::specs::Views::TerraCode::terra_function_at))]
    fn terra_function(&mut self, levels: u32) -> Result<NodeId, SyntaxError>
        ensures ok { IfOk result (λ r. TookTree self.old self.new (terra_function_at levels (tokens_left self.old)) r) }
        ensures err { IfErr result (λ e. Fails self.old (terra_function_at levels (tokens_left self.old)) e) }
    {
        let place = read!(self.take(Symbol::Terra));
        let body = read!(self.terra_function_body(levels));
        self.push(Node::Expression(place, Expression::Terra(body)))
    }

    /// sbody = "{" {Name ":" exp ["," | ";"]} "}"
    #[cycle(parser)]
    #[tactic(auto, using(crate::proofs::Failing::failing), unfolding(crate::specs::Views::TerraCode::struct_body_at))]
    pub(crate) fn struct_body(&mut self, mode: Mode, levels: u32) -> Result<NodeList, SyntaxError>
        ensures ok { IfOk result (λ r. TookList self.old self.new (struct_body_at levels mode (tokens_left self.old)) r) }
        ensures err { IfErr result (λ e. Fails self.old (struct_body_at levels mode (tokens_left self.old)) e) }
    {
        pass!(self.open(Symbol::OpenBrace, levels));
        let entries = read!(self.entries(mode, levels - 1));
        pass!(self.take(Symbol::CloseBrace));
        Ok(entries)
    }

    /// exp = "struct" sbody
    #[cycle(parser)]
    #[tactic(auto, using(crate::proofs::Failing::failing), unfolding(crate::specs::Views::TerraCode::struct_at))]
    fn struct_type(&mut self, mode: Mode, levels: u32) -> Result<NodeId, SyntaxError>
        ensures ok { IfOk result (λ r. TookTree self.old self.new (struct_at levels mode (tokens_left self.old)) r) }
        ensures err { IfErr result (λ e. Fails self.old (struct_at levels mode (tokens_left self.old)) e) }
    {
        let place = read!(self.take(Symbol::Struct));
        let entries = read!(self.struct_body(mode, levels));
        self.push(Node::Expression(place, Expression::Struct(entries)))
    }

    /// exp = "quote" tblock ["in" texp] "end"
    #[cycle(parser)]
    #[tactic(auto, using(crate::proofs::Failing::failing), unfolding(crate::specs::Views::TerraCode::quote_at))]
    fn quote(&mut self, levels: u32) -> Result<NodeId, SyntaxError>
        ensures ok { IfOk result (λ r. TookTree self.old self.new (quote_at levels (tokens_left self.old)) r) }
        ensures err { IfErr result (λ e. Fails self.old (quote_at levels (tokens_left self.old)) e) }
    {
        let place = read!(self.open(Symbol::Quote, levels));
        let code = read!(self.quoted_code(levels - 1));
        self.close(
            Symbol::End,
            Node::Expression(place, Expression::Quote(code)),
        )
    }

    /// exp = "`" texp
    #[cycle(parser)]
    #[tactic(auto, using(crate::proofs::Failing::failing), unfolding(crate::specs::Views::TerraCode::backtick_at))]
    fn backtick(&mut self, levels: u32) -> Result<NodeId, SyntaxError>
        ensures ok { IfOk result (λ r. TookTree self.old self.new (backtick_at levels (tokens_left self.old)) r) }
        ensures err { IfErr result (λ e. Fails self.old (backtick_at levels (tokens_left self.old)) e) }
    {
        let place = read!(self.open(Symbol::Backtick, levels));
        let code = read!(self.terra_expression(levels - 1));
        self.push(Node::Expression(place, Expression::Backtick(code)))
    }

    /// "terra" tbody | "struct" sbody | "quote" .. "end" | "`" texp
    #[cycle(parser)]
    #[tactic(auto, using(crate::proofs::Failing::failing), unfolding(crate::specs::Views::TerraCode::terra_code_at))]
    pub(crate) fn terra_code(&mut self, mode: Mode, levels: u32) -> Result<NodeId, SyntaxError>
        ensures ok { IfOk result (λ r. TookTree self.old self.new (terra_code_at levels mode (tokens_left self.old)) r) }
        ensures err { IfErr result (λ e. Fails self.old (terra_code_at levels mode (tokens_left self.old)) e) }
    {
        if self.next_is(Symbol::Terra) {
            return self.terra_function(levels);
        }
        if self.next_is(Symbol::Struct) {
            return self.struct_type(mode, levels);
        }
        if self.next_is(Symbol::Quote) {
            return self.quote(levels);
        }
        self.backtick(levels)
    }

    /// ["," | ";"]
    #[tactic(auto, using(crate::proofs::Failing::failing), unfolding(crate::specs::Views::Entries::separator_at))]
    fn separator(&mut self) -> Result<(), SyntaxError>
        ensures ok { IfOk result (λ r. TookNothing self.old self.new (separator_at (tokens_left self.old))) }
        ensures err { IfErr result (λ e. Fails self.old (separator_at (tokens_left self.old)) e) }
    {
        if self.next_is_among(&SEPARATOR) {
            pass!(self.take_among(&SEPARATOR));
        }
        Ok(())
    }

    /// Name ":" exp ["," | ";"]
    #[cycle(parser)]
    #[tactic(auto, using(crate::proofs::Failing::failing), unfolding(crate::specs::Views::Entries::entry_at))]
    fn entry(&mut self, mode: Mode, levels: u32) -> Result<NodeId, SyntaxError>
        ensures ok { IfOk result (λ r. TookTree self.old self.new (entry_at levels mode (tokens_left self.old)) r) }
        ensures err { IfErr result (λ e. Fails self.old (entry_at levels mode (tokens_left self.old)) e) }
    {
        let name = read!(self.name());
        let value = read!(self.expression_behind(Symbol::Colon, Code::Lua(mode), levels));
        pass!(self.separator());
        self.push(Node::Piece(Piece::Entry(name, value)))
    }

    /// {Name ":" exp ["," | ";"]}, up to a "}"
    #[cycle(parser)]
    #[tactic(auto, using(crate::proofs::TerraTurns::entries))]
    fn entries(&mut self, mode: Mode, levels: u32) -> Result<NodeList, SyntaxError>
        ensures ok { IfOk result (λ r. TookList self.old self.new (part_at levels (parts.Entries mode) (tokens_left self.old)) r) }
        ensures err { IfErr result (λ e. Fails self.old (part_at levels (parts.Entries mode) (tokens_left self.old)) e) }
    {
        let mut list = self.no_nodes();
        'more: while self.next_is(Symbol::Name) {
            let next = read!(self.entry(mode, levels));
            read!(add(&mut list, next));
        }
        Ok(list)
    }
}

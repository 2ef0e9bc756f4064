// Reading of tables (Lua 5.1 manual, section 2.5.7).
ghost use Rattle.std.specs.Prelude.{◌≡◌, ◌<◌, ◌≤◌, ◌-◌, ℕ, length, true, false, IfOk, IfErr, [], ◌∷◌};
ghost use Rattle.tl_tree.specs.Tree as parts;
ghost use Rattle.tl_parse.specs.Views.Parsing.{tokens_left, Fails, TookTree, TookList, TookMaybe};
ghost use Rattle.tl_parse.specs.Views.Using.{part_at};
ghost use Rattle.tl_parse.specs.Views.Expressions.{table_at, keyed_field_at, field_at, next_field_at};

use crate::error::SyntaxError;
use crate::expressions::is_name;
use crate::parser::{Code, Parser, add};
use tl_base::NodeId;
use tl_tree::{Expression, Mode, Node, NodeList, Piece, Symbol};

static SEPARATOR: [Symbol; 2] = [Symbol::Comma, Symbol::Semicolon];

impl<'a> Parser<'a> {
    /// table = "{" [field {("," | ";") field} ["," | ";"]] "}"
    #[cycle(parser)]
    #[tactic(auto, using(crate::proofs::Failing::failing), unfolding(crate::specs::Views::Expressions::table_at))]
    pub(crate) fn table(&mut self, mode: Mode, levels: u32) -> Result<NodeId, SyntaxError>
        ensures ok { IfOk result (λ r. TookTree self.old self.new (table_at levels mode (tokens_left self.old)) r) }
        ensures err { IfErr result (λ e. Fails self.old (table_at levels mode (tokens_left self.old)) e) }
    {
        let place = read!(self.open(Symbol::OpenBrace, levels));
        let fields = read!(self.fields(mode, levels - 1));
        self.close(
            Symbol::CloseBrace,
            Node::Expression(place, Expression::Table(fields)),
        )
    }

    /// "[" exp "]" "=" exp
    #[cycle(parser)]
    #[tactic(auto, using(crate::proofs::Failing::failing), unfolding(crate::specs::Views::Expressions::keyed_field_at))]
    fn keyed_field(&mut self, mode: Mode, levels: u32) -> Result<NodeId, SyntaxError>
        ensures ok { IfOk result (λ r. TookTree self.old self.new (keyed_field_at levels mode (tokens_left self.old)) r) }
        ensures err { IfErr result (λ e. Fails self.old (keyed_field_at levels mode (tokens_left self.old)) e) }
    {
        pass!(self.open(Symbol::OpenBracket, levels));
        let key = read!(self.expression(mode, levels - 1));
        pass!(self.take(Symbol::CloseBracket));
        let value = read!(self.expression_behind(Symbol::Equal, Code::Lua(mode), levels));
        self.push(Node::Piece(Piece::KeyedField(key, value)))
    }

    /// field = "[" exp "]" "=" exp | Name "=" exp | exp
    #[cycle(parser)]
    #[tactic(auto, using(crate::proofs::Failing::failing), unfolding(crate::specs::Views::Expressions::field_at))]
    fn field(&mut self, mode: Mode, levels: u32) -> Result<NodeId, SyntaxError>
        ensures ok { IfOk result (λ r. TookTree self.old self.new (field_at levels mode (tokens_left self.old)) r) }
        ensures err { IfErr result (λ e. Fails self.old (field_at levels mode (tokens_left self.old)) e) }
    {
        if self.next_is(Symbol::OpenBracket) {
            return self.keyed_field(mode, levels);
        }
        let e = read!(self.chained(mode, levels));
        if is_name(e.kind) {
            if self.next_is(Symbol::Equal) {
                let value = read!(self.expression_behind(Symbol::Equal, Code::Lua(mode), levels));
                return self.push(Node::Piece(Piece::NamedField(e.node, value)));
            }
        }
        Ok(e.node)
    }

    /// ("," | ";") [field]
    #[cycle(parser)]
    #[tactic(auto, using(crate::proofs::Failing::failing), unfolding(crate::specs::Views::Expressions::next_field_at))]
    fn next_field(&mut self, mode: Mode, levels: u32) -> Result<Option<NodeId>, SyntaxError>
        ensures ok { IfOk result (λ r. TookMaybe self.old self.new (next_field_at levels mode (tokens_left self.old)) r) }
        ensures err { IfErr result (λ e. Fails self.old (next_field_at levels mode (tokens_left self.old)) e) }
    {
        pass!(self.take_among(&SEPARATOR));
        if self.next_is(Symbol::CloseBrace) {
            return Ok(None);
        }
        let field = read!(self.field(mode, levels));
        Ok(Some(field))
    }

    /// [field {("," | ";") field} ["," | ";"]], up to a "}"
    #[cycle(parser)]
    #[tactic(auto, using(crate::proofs::Turns::fields), unfolding(crate::specs::Views::Expressions::fields_at))]
    pub(crate) fn fields(&mut self, mode: Mode, levels: u32) -> Result<NodeList, SyntaxError>
        ensures ok { IfOk result (λ r. TookList self.old self.new (part_at levels (parts.Fields mode) (tokens_left self.old)) r) }
        ensures err { IfErr result (λ e. Fails self.old (part_at levels (parts.Fields mode) (tokens_left self.old)) e) }
    {
        if self.next_is(Symbol::CloseBrace) {
            return Ok(self.no_nodes());
        }
        let first = read!(self.field(mode, levels));
        let mut list = read!(self.one_node(first));
        'more: while self.next_is_among(&SEPARATOR) {
            if let Some(next) = read!(self.next_field(mode, levels)) {
                read!(add(&mut list, next));
            }
        }
        Ok(list)
    }
}

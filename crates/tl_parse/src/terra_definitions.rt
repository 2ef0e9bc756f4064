// Reading of the Lua statements that define Terra functions and types.
ghost use Rattle.std.specs.Prelude.{◌≡◌, length, true, false, IfOk, IfErr};
ghost use Rattle.tl_parse.specs.Views.Parsing.{tokens_left, Fails, TookTree};
ghost use Rattle.tl_parse.specs.Views.TerraDefinitions.{struct_path_at, define_terra_at, local_terra_function_at};
ghost use Rattle.tl_parse.specs.Views.TerraDefinitions.{local_struct_at, local_terra_at, define_struct_at};

use crate::error::SyntaxError;
use crate::parser::{Code, Parser, add};
use tl_base::{NodeId, Place};
use tl_tree::{Mode, Node, Piece, Statement, Symbol};

impl<'a> Parser<'a> {
    /// Name {"." Name}
    #[tactic(auto, using(crate::proofs::StatementTurns::paths), unfolding(crate::specs::Views::TerraDefinitions::struct_path_at))]
    fn struct_path(&mut self, levels: u32) -> Result<NodeId, SyntaxError>
        ensures ok { IfOk result (λ r. TookTree self.old self.new (struct_path_at levels (tokens_left self.old)) r) }
        ensures err { IfErr result (λ e. Fails self.old (struct_path_at levels (tokens_left self.old)) e) }
    {
        let first = read!(self.name());
        let mut names = read!(self.one_node(first));
        'more: while self.next_is(Symbol::Dot) {
            let next = read!(self.behind_sign(Symbol::Dot));
            read!(add(&mut names, next));
        }
        self.push(Node::Piece(Piece::Path(names, None)))
    }

    /// stat = "terra" path (tbody | "::" exp)
    #[cycle(parser)]
    #[tactic(auto, using(crate::proofs::Failing::failing), unfolding(crate::specs::Views::TerraDefinitions::define_terra_at))]
    pub(crate) fn define_terra(&mut self, mode: Mode, levels: u32) -> Result<NodeId, SyntaxError>
        ensures ok { IfOk result (λ r. TookTree self.old self.new (define_terra_at levels mode (tokens_left self.old)) r) }
        ensures err { IfErr result (λ e. Fails self.old (define_terra_at levels mode (tokens_left self.old)) e) }
    {
        let place = read!(self.take(Symbol::Terra));
        let path = read!(self.path(levels));
        if self.next_is(Symbol::DoubleColon) {
            let declared = read!(self.expression_behind(
                Symbol::DoubleColon,
                Code::Lua(mode),
                levels
            ));
            return self.push(Node::Statement(place, Statement::DeclareTerra(path, declared)));
        }
        let body = read!(self.terra_function_body(levels));
        self.push(Node::Statement(place, Statement::Terra(path, body)))
    }

    /// stat = "local" "terra" Name (tbody | "::" exp), behind "local" at this place
    #[cycle(parser)]
    #[tactic(auto, using(crate::proofs::Failing::failing), unfolding(crate::specs::Views::TerraDefinitions::local_terra_function_at))]
    fn local_terra_function(
        &mut self,
        mode: Mode,
        place: Place,
        levels: u32,
    ) -> Result<NodeId, SyntaxError>
        ensures ok { IfOk result (λ r. TookTree self.old self.new (local_terra_function_at levels mode place (tokens_left self.old)) r) }
        ensures err { IfErr result (λ e. Fails self.old (local_terra_function_at levels mode place (tokens_left self.old)) e) }
    {
        let start = read!(self.take(Symbol::Terra));
        let name = read!(self.name());
        if self.next_is(Symbol::DoubleColon) {
            let declared = read!(self.expression_behind(
                Symbol::DoubleColon,
                Code::Lua(mode),
                levels
            ));
            return self.push(Node::Statement(
                place,
                Statement::LocalDeclareTerra(start, name, declared),
            ));
        }
        let body = read!(self.terra_function_body(levels));
        self.push(Node::Statement(place, Statement::LocalTerra(start, name, body)))
    }

    /// stat = "local" "struct" Name sbody, behind "local" at this place
    #[cycle(parser)]
    #[tactic(auto, using(crate::proofs::Failing::failing), unfolding(crate::specs::Views::TerraDefinitions::local_struct_at))]
    fn local_struct(&mut self, mode: Mode, place: Place, levels: u32) -> Result<NodeId, SyntaxError>
        ensures ok { IfOk result (λ r. TookTree self.old self.new (local_struct_at levels mode place (tokens_left self.old)) r) }
        ensures err { IfErr result (λ e. Fails self.old (local_struct_at levels mode place (tokens_left self.old)) e) }
    {
        let start = read!(self.take(Symbol::Struct));
        let name = read!(self.name());
        let entries = read!(self.struct_body(mode, levels));
        self.push(Node::Statement(place, Statement::LocalStruct(start, name, entries)))
    }

    /// "terra" .. | "struct" .., behind "local" at this place
    #[cycle(parser)]
    #[tactic(auto, using(crate::proofs::Failing::failing), unfolding(crate::specs::Views::TerraDefinitions::local_terra_at))]
    pub(crate) fn local_terra(
        &mut self,
        mode: Mode,
        place: Place,
        levels: u32,
    ) -> Result<NodeId, SyntaxError>
        ensures ok { IfOk result (λ r. TookTree self.old self.new (local_terra_at levels mode place (tokens_left self.old)) r) }
        ensures err { IfErr result (λ e. Fails self.old (local_terra_at levels mode place (tokens_left self.old)) e) }
    {
        if self.next_is(Symbol::Struct) {
            return self.local_struct(mode, place, levels);
        }
        self.local_terra_function(mode, place, levels)
    }

    /// stat = "struct" Name {"." Name} sbody
    #[cycle(parser)]
    #[tactic(auto, using(crate::proofs::Failing::failing), unfolding(crate::specs::Views::TerraDefinitions::define_struct_at))]
    pub(crate) fn define_struct(&mut self, mode: Mode, levels: u32) -> Result<NodeId, SyntaxError>
        ensures ok { IfOk result (λ r. TookTree self.old self.new (define_struct_at levels mode (tokens_left self.old)) r) }
        ensures err { IfErr result (λ e. Fails self.old (define_struct_at levels mode (tokens_left self.old)) e) }
    {
        let place = read!(self.take(Symbol::Struct));
        let path = read!(self.struct_path(levels));
        let entries = read!(self.struct_body(mode, levels));
        self.push(Node::Statement(place, Statement::Struct(path, entries)))
    }
}

// Reading of lists with commas.
ghost use Rattle.std.specs.Prelude.{◌≡◌, false, IfOk, IfErr};
ghost use Rattle.tl_tree.specs.Symbols.{is_bad};
ghost use Rattle.tl_parse.specs.Views.Parsing.{tokens_left, Fails, TookTree, TookList};
ghost use Rattle.tl_parse.specs.Views.Lists.{element_at, next_element_at, elements_at, expressions_behind_at};

use crate::error::SyntaxError;
use crate::parser::{Code, Element, Parser, add};
use tl_base::NodeId;
use tl_tree::{NodeList, Symbol};

impl<'a> Parser<'a> {
    /// exp | texp | var | tvar | param
    #[cycle(parser)]
    #[tactic(auto, using(crate::proofs::Elements::element))]
    fn element(&mut self, kind: Element, levels: u32) -> Result<NodeId, SyntaxError>
        ensures ok { IfOk result (λ r. TookTree self.old self.new (element_at levels kind (tokens_left self.old)) r) }
        ensures err { IfErr result (λ e. Fails self.old (element_at levels kind (tokens_left self.old)) e) }
    {
        match kind {
            Element::Expression(code) => self.expression_of(code, levels),
            Element::Target(mode) => self.variable(mode, levels),
            Element::TerraVariable => self.terra_variable(levels),
            Element::TerraParameter => self.terra_parameter(levels),
        }
    }

    /// "," element
    #[cycle(parser)]
    #[tactic(auto, using(crate::proofs::Failing::failing), unfolding(crate::specs::Views::Lists::next_element_at))]
    #[inline(always)]
    pub(crate) fn next_element(&mut self, kind: Element, levels: u32) -> Result<NodeId, SyntaxError>
        ensures ok { IfOk result (λ r. TookTree self.old self.new (next_element_at levels kind (tokens_left self.old)) r) }
        ensures err { IfErr result (λ e. Fails self.old (next_element_at levels kind (tokens_left self.old)) e) }
    {
        pass!(self.take(Symbol::Comma));
        self.element(kind, levels)
    }

    /// element {"," element}
    #[cycle(parser)]
    #[tactic(auto, using(crate::proofs::Turns::elements), unfolding(crate::specs::Views::Lists::elements_at))]
    pub(crate) fn elements(&mut self, kind: Element, levels: u32) -> Result<NodeList, SyntaxError>
        ensures ok { IfOk result (λ r. TookList self.old self.new (elements_at levels kind (tokens_left self.old)) r) }
        ensures err { IfErr result (λ e. Fails self.old (elements_at levels kind (tokens_left self.old)) e) }
    {
        let first = read!(self.element(kind, levels));
        let mut list = read!(self.one_node(first));
        'more: while self.next_is(Symbol::Comma) {
            let next = read!(self.next_element(kind, levels));
            read!(add(&mut list, next));
        }
        Ok(list)
    }

    /// sign exps, or sign texps
    #[cycle(parser)]
    #[tactic(auto, using(crate::proofs::Failing::failing), unfolding(crate::specs::Views::Lists::expressions_behind_at))]
    #[inline(always)]
    pub(crate) fn expressions_behind(
        &mut self,
        symbol: Symbol,
        code: Code,
        levels: u32,
    ) -> Result<NodeList, SyntaxError>
        requires { is_bad symbol ≡ false }
        ensures ok { IfOk result (λ r. TookList self.old self.new (expressions_behind_at levels symbol code (tokens_left self.old)) r) }
        ensures err { IfErr result (λ e. Fails self.old (expressions_behind_at levels symbol code (tokens_left self.old)) e) }
    {
        pass!(self.take(symbol));
        self.elements(Element::Expression(code), levels)
    }
}

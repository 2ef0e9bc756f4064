// Typed quotes, where they are spliced.
//
// A symbol that a typed quote uses and doesn't declare itself must be in scope with the same type, so each node of the quote is gone
// through again. What the walk has ahead is a list of nodes, and of what is done with names, in the order of evaluation.

ghost use Rattle.std.specs.Prelude.{◌≡◌, ℕ, ◌-◌, true, List, [], ◌∷◌, ◌++◌, slice_get, IfOk, OnOk};
ghost use Rattle.terra_term.specs.Planted.{typed_at, typed_trees};
ghost use Rattle.terra_term.specs.Events as events;
ghost use Rattle.exotype.specs.World.{StageState};
ghost use Rattle.exotype.specs.Terms.{typed_size};
ghost use Rattle.check_model.specs.Expressions as models;
ghost use Rattle.check_model.specs.Typing as typings;
ghost use Rattle.check_expr.specs.Quoted.{names_ahead, ahead_names, part_names, expression_names, all_names, form_names, doing_names};
ghost use Rattle.check_expr.specs.Quoted.{item_names, own_in, wrong_from};
ghost use Rattle.check_expr.specs.Steps.{Does};

use crate::nodes::{is_place, refuse};
use crate::step::BodyStep;
use check_model::{Made, PartEnd, Site, Typing};
use exotype::World;
use std::alloc::Global;
use terra_term::{RefusalKind, Typed, TypedExpression, TypedName, TypedStatement};
use tl_base::{Budget, NoMemory, Place, Step, SymId, TermId, TypeId};

/// The type of texts and of `nil`, which is there from the begin.
const RAWSTRING: TypeId = TypeId(10);

/// A node that is to be gone through, among the nodes before a number, and whether it stands as a statement.
#[derive(Clone, Copy)]
pub struct Part {
    pub term: TermId,
    pub below: u64,
    pub is_statement: bool,
}

/// What a walk has ahead: a node, or what is done with names.
#[derive(Clone, Copy)]
pub enum Ahead {
    Part(Part),
    Opens,
    Closes,
    Declares(TypedName),
    Uses(Place, SymId, TypeId),
}

/// The symbols that were declared in the scopes that are open, the innermost last, and how many of them stood before each of these scopes.
#[derive(Drop)]
pub struct Scopes {
    pub declared: Vec<SymId>,
    pub marks: Vec<u64>,
}

impl Scopes {
    /// Nothing is declared.
    fn new(alloc: Global) -> Scopes
        ensures declared { result.declared.items ≡ [] }
        ensures marks { result.marks.items ≡ [] }
    {
        Scopes {
            declared: Vec::new(alloc),
            marks: Vec::new(alloc),
        }
    }

    /// Opens a scope.
    fn open(&mut self) -> Result<(), NoMemory>
        ensures { OnOk result ((w : typings.TypingState) (base : ℕ) (es : List events.Event) →
            wrong_from w base self.new es ≡ wrong_from w base self.old (events.Opens ∷ es)) }
    {
        self.marks.push(self.declared.len() as u64)?;
        Ok(())
    }

    /// Closes the innermost scope, whose declarations go.
    fn close(&mut self)
        ensures { (w : typings.TypingState) (base : ℕ) (es : List events.Event) →
            wrong_from w base self.new es ≡ wrong_from w base self.old (events.Closes ∷ es) }
    {
        match self.marks.pop() {
            Some(mark) => self.declared.truncate(mark as usize),
            None => self.declared.clear(),
        }
    }

    /// Declares a symbol in the innermost scope.
    fn declare(&mut self, name: TypedName) -> Result<(), NoMemory>
        ensures { OnOk result ((w : typings.TypingState) (base : ℕ) (es : List events.Event) →
            wrong_from w base self.new es ≡ wrong_from w base self.old (events.Declares name.symbol name.of ∷ es)) }
    {
        self.declared.push(name.symbol)?;
        Ok(())
    }

    /// Whether a symbol was declared.
    fn has(&self, symbol: SymId) -> bool
        ensures { result ≡ models.is_in symbol (own_in self.now) }
    {
        'declared: for declared in self.declared.as_slice() {
            if symbol.0 == declared.0 {
                return true;
            }
        }
        false
    }
}

/// Goes on with a typed quote in the place of its term, if what it uses is in scope.
pub fn typed_quote(
    typing: &Typing,
    budget: &mut Budget,
    source: TermId,
    made: TermId,
    site: Site,
) -> Result<BodyStep, NoMemory>
    ensures means { IfOk result (λ step.
        Does (models.typed_plan typing.now source made site) typing.now budget.old step typing.now budget.new) }
{
    let nodes = nodes_below(&typing.world, made);
    if !budget.pay(nodes) {
        return Ok(Step::Spent);
    }
    match first_wrong(typing, site.base, made)? {
        Some((kind, place)) => Ok(refuse(kind, place, site)),
        None => {
            let made = made_at(&typing.world, made, source);
            Ok(Step::Return(PartEnd::Made(made)))
        }
    }
}

/// How many nodes a typed term has below its own.
fn nodes_below(world: &World, made: TermId) -> u64
    ensures { result ≡ (typed_size world.now made).nodes - 1 }
{
    match world.store.size_of_typed(made) {
        Some(size) => u64::from(size.nodes.saturating_sub(1)),
        None => 0,
    }
}

/// The typed expression that a node is, for the term from which it was typed.
fn made_at(world: &World, id: TermId, source: TermId) -> Made
    ensures { result ≡ typings.made_at world.now id source }
{
    match world.store.typed(id) {
        Some(Typed::Expression(at, of, form)) => Made {
            id,
            source,
            at: *at,
            of: *of,
            is_place: is_place(form),
        },
        _ => Made {
            id,
            source,
            at: Place { line: 0, word: 0 },
            of: RAWSTRING,
            is_place: false,
        },
    }
}

/// The first use in a typed term that can't stand: why, and where.
fn first_wrong(
    typing: &Typing,
    base: u64,
    made: TermId,
) -> Result<Option<(RefusalKind, Place)>, NoMemory>
    ensures { IfOk result (λ wrong. wrong
        ≡ models.wrong_in typing.now base [] [] (events.events_of (typed_at (typed_trees typing.now.stage.store.typed) made))) }
{
    let alloc = typing.world.store.allocator();
    let mut scopes = Scopes::new(alloc);
    let mut ahead = Vec::new(alloc);
    parts_at(&typing.world, &mut ahead, made, false)?;
    // Each node of the typed term was paid for, and no budget has so many.
    'ahead: for _ in 0..u64::MAX {
        let Some(next) = ahead.pop() else {
            return Ok(None);
        };
        let wrong = go_on(typing, base, &mut scopes, &mut ahead, next)?;
        if wrong.is_some() {
            return Ok(wrong);
        }
    }
    Err(NoMemory)
}

/// Goes on with what is next: a node's parts come before what is ahead, and a use that can't stand is the first one.
fn go_on(
    typing: &Typing,
    base: u64,
    scopes: &mut Scopes,
    ahead: &mut Vec<Ahead>,
    next: Ahead,
) -> Result<Option<(RefusalKind, Place)>, NoMemory>
    ensures { IfOk result (λ wrong.
        models.first_wrong wrong (wrong_from typing.now base scopes.new (names_ahead typing.now.stage ahead.new.items))
        ≡ wrong_from typing.now base scopes.old
        (ahead_names typing.now.stage next ++ names_ahead typing.now.stage ahead.old.items)) }
{
    match next {
        Ahead::Part(part) => {
            go_through(&typing.world, ahead, part)?;
            Ok(None)
        }
        Ahead::Opens => {
            scopes.open()?;
            Ok(None)
        }
        Ahead::Closes => {
            scopes.close();
            Ok(None)
        }
        Ahead::Declares(name) => {
            scopes.declare(name)?;
            Ok(None)
        }
        Ahead::Uses(at, symbol, of) => {
            if scopes.has(symbol) {
                Ok(None)
            } else {
                Ok(wrong_use(typing.variable(base, symbol), of, at))
            }
        }
    }
}

/// Why a use of a variable can't stand, which is of this type where it is in scope, and where.
fn wrong_use(found: Option<TypeId>, of: TypeId, at: Place) -> Option<(RefusalKind, Place)>
    ensures { result ≡ models.wrong_use found of at }
{
    match found {
        None => Some((RefusalKind::OutOfScope, at)),
        Some(found) => {
            if found.0 == of.0 {
                None
            } else {
                Some((RefusalKind::Mismatch, at))
            }
        }
    }
}

/// Puts something before what is ahead.
fn put(ahead: &mut Vec<Ahead>, next: Ahead) -> Result<(), NoMemory>
    ensures { OnOk result ((w : StageState) →
        names_ahead w ahead.new.items ≡ ahead_names w next ++ names_ahead w ahead.old.items) }
{
    ahead.push(next)?;
    Ok(())
}

/// Puts an expression before what is ahead.
fn expression(ahead: &mut Vec<Ahead>, term: TermId, below: u64) -> Result<(), NoMemory>
    ensures { OnOk result ((w : StageState) →
        names_ahead w ahead.new.items ≡ expression_names w below term ++ names_ahead w ahead.old.items) }
{
    put(
        ahead,
        Ahead::Part(Part {
            term,
            below,
            is_statement: false,
        }),
    )?;
    Ok(())
}

/// Puts nodes before what is ahead.
fn all(
    ahead: &mut Vec<Ahead>,
    terms: &[TermId],
    below: u64,
    is_statement: bool,
) -> Result<(), NoMemory>
    ensures { OnOk result ((w : StageState) →
        names_ahead w ahead.new.items ≡ all_names is_statement w below terms.now ++ names_ahead w ahead.old.items) }
{
    let count = terms.len();
    'terms: for place in 0..count {
        let term = terms[count - 1 - place];
        ahead.push(Ahead::Part(Part {
            term,
            below,
            is_statement,
        }))?;
    }
    Ok(())
}

/// Puts the declarations of names before what is ahead.
fn declarations(ahead: &mut Vec<Ahead>, names: &[TypedName]) -> Result<(), NoMemory>
    ensures { OnOk result ((w : StageState) →
        names_ahead w ahead.new.items ≡ events.declares_all names.now ++ names_ahead w ahead.old.items) }
{
    let count = names.len();
    'names: for place in 0..count {
        let name = names[count - 1 - place];
        ahead.push(Ahead::Declares(name))?;
    }
    Ok(())
}

/// Puts a block in a scope of its own before what is ahead.
fn block(ahead: &mut Vec<Ahead>, terms: &[TermId], below: u64) -> Result<(), NoMemory>
    ensures { OnOk result ((w : StageState) →
        names_ahead w ahead.new.items ≡ events.scope (all_names true w below terms.now) ++ names_ahead w ahead.old.items) }
{
    put(ahead, Ahead::Closes)?;
    all(ahead, terms, below, true)?;
    put(ahead, Ahead::Opens)?;
    Ok(())
}

/// Puts a block, and an expression in its scope, before what is ahead.
fn block_with(
    ahead: &mut Vec<Ahead>,
    terms: &[TermId],
    last: TermId,
    below: u64,
) -> Result<(), NoMemory>
    ensures { OnOk result ((w : StageState) →
        names_ahead w ahead.new.items
        ≡ events.scope (all_names true w below terms.now ++ expression_names w below last) ++ names_ahead w ahead.old.items) }
{
    put(ahead, Ahead::Closes)?;
    expression(ahead, last, below)?;
    all(ahead, terms, below, true)?;
    put(ahead, Ahead::Opens)?;
    Ok(())
}

/// Puts the block of a loop in the scope of its variable before what is ahead.
fn block_of(
    ahead: &mut Vec<Ahead>,
    name: TypedName,
    terms: &[TermId],
    below: u64,
) -> Result<(), NoMemory>
    ensures { OnOk result ((w : StageState) →
        names_ahead w ahead.new.items
        ≡ events.scope (events.declares name ++ all_names true w below terms.now) ++ names_ahead w ahead.old.items) }
{
    put(ahead, Ahead::Closes)?;
    all(ahead, terms, below, true)?;
    put(ahead, Ahead::Declares(name))?;
    put(ahead, Ahead::Opens)?;
    Ok(())
}

/// Puts the parts of a node before what is ahead, if it is among the nodes that are meant.
fn go_through(world: &World, ahead: &mut Vec<Ahead>, part: Part) -> Result<(), NoMemory>
    ensures { OnOk result (
        names_ahead world.now ahead.new.items ≡ part_names world.now part ++ names_ahead world.now ahead.old.items) }
{
    if part.below <= part.term.0 {
        return Ok(());
    }
    parts_at(world, ahead, part.term, part.is_statement)?;
    Ok(())
}

/// Puts the parts of a node, as a statement or as an expression, before what is ahead.
fn parts_at(
    world: &World,
    ahead: &mut Vec<Ahead>,
    term: TermId,
    is_statement: bool,
) -> Result<(), NoMemory>
    ensures { OnOk result (
        names_ahead world.now ahead.new.items
        ≡ item_names is_statement (slice_get (typed_trees world.now.store.typed) term.0) ++ names_ahead world.now ahead.old.items) }
{
    match world.store.typed(term) {
        Some(Typed::Expression(at, of, form)) => {
            if is_statement {
                return Ok(());
            }
            parts_of_expression(ahead, *at, *of, form, term.0)?;
            Ok(())
        }
        Some(Typed::Statement(_, doing)) => {
            if !is_statement {
                return Ok(());
            }
            parts_of_statement(ahead, doing, term.0)?;
            Ok(())
        }
        Some(Typed::Function(_, _, _)) => Ok(()),
        None => Ok(()),
    }
}

/// Puts the parts of an expression before what is ahead: the first of them is the next.
fn parts_of_expression(
    ahead: &mut Vec<Ahead>,
    at: Place,
    of: TypeId,
    form: &TypedExpression,
    below: u64,
) -> Result<(), NoMemory>
    ensures { OnOk result ((w : StageState) →
        names_ahead w ahead.new.items ≡ form_names w at of below form.now ++ names_ahead w ahead.old.items) }
{
    match form {
        TypedExpression::Constant(_) => Ok(()),
        TypedExpression::Variable(symbol) => {
            put(ahead, Ahead::Uses(at, *symbol, of))?;
            Ok(())
        }
        TypedExpression::Global(_) => Ok(()),
        TypedExpression::Operate(_, operands) => {
            all(ahead, operands.as_slice(), below, false)?;
            Ok(())
        }
        TypedExpression::Both(first, second) => {
            two(ahead, *first, *second, below)?;
            Ok(())
        }
        TypedExpression::Either(first, second) => {
            two(ahead, *first, *second, below)?;
            Ok(())
        }
        TypedExpression::Dereference(pointer) => {
            expression(ahead, *pointer, below)?;
            Ok(())
        }
        TypedExpression::Select(_, object) => {
            expression(ahead, *object, below)?;
            Ok(())
        }
        TypedExpression::Follow(_, pointer) => {
            expression(ahead, *pointer, below)?;
            Ok(())
        }
        TypedExpression::Element(object, key) => {
            two(ahead, *object, *key, below)?;
            Ok(())
        }
        TypedExpression::Index(object, key) => {
            two(ahead, *object, *key, below)?;
            Ok(())
        }
        TypedExpression::Address(object) => {
            expression(ahead, *object, below)?;
            Ok(())
        }
        TypedExpression::Decay(object) => {
            expression(ahead, *object, below)?;
            Ok(())
        }
        TypedExpression::Let(terms, value) => {
            block_with(ahead, terms.as_slice(), *value, below)?;
            Ok(())
        }
    }
}

/// Puts two expressions before what is ahead.
fn two(ahead: &mut Vec<Ahead>, first: TermId, second: TermId, below: u64) -> Result<(), NoMemory>
    ensures { OnOk result ((w : StageState) →
        names_ahead w ahead.new.items
        ≡ expression_names w below first ++ (expression_names w below second ++ names_ahead w ahead.old.items)) }
{
    expression(ahead, second, below)?;
    expression(ahead, first, below)?;
    Ok(())
}

/// Puts the parts of a statement before what is ahead: the first of them is the next.
fn parts_of_statement(
    ahead: &mut Vec<Ahead>,
    doing: &TypedStatement,
    below: u64,
) -> Result<(), NoMemory>
    ensures { OnOk result ((w : StageState) (at : Place) →
        names_ahead w ahead.new.items ≡ doing_names w at below doing.now ++ names_ahead w ahead.old.items) }
{
    match doing {
        TypedStatement::Var(names, values) => {
            declarations(ahead, names.as_slice())?;
            all(ahead, values.as_slice(), below, false)?;
            Ok(())
        }
        TypedStatement::Assign(targets, values) => {
            all(ahead, targets.as_slice(), below, false)?;
            all(ahead, values.as_slice(), below, false)?;
            Ok(())
        }
        TypedStatement::If(test, terms, others) => match others {
            None => {
                block(ahead, terms.as_slice(), below)?;
                expression(ahead, *test, below)?;
                Ok(())
            }
            Some(others) => {
                block(ahead, others.as_slice(), below)?;
                block(ahead, terms.as_slice(), below)?;
                expression(ahead, *test, below)?;
                Ok(())
            }
        },
        TypedStatement::While(test, terms) => {
            block(ahead, terms.as_slice(), below)?;
            expression(ahead, *test, below)?;
            Ok(())
        }
        TypedStatement::Repeat(terms, test) => {
            block_with(ahead, terms.as_slice(), *test, below)?;
            Ok(())
        }
        TypedStatement::For(name, bounds, terms) => {
            block_of(ahead, *name, terms.as_slice(), below)?;
            all(ahead, bounds.as_slice(), below, false)?;
            Ok(())
        }
        TypedStatement::Do(terms) => {
            block(ahead, terms.as_slice(), below)?;
            Ok(())
        }
        TypedStatement::Break => Ok(()),
        TypedStatement::Return(value) => match value {
            Some(value) => {
                expression(ahead, *value, below)?;
                Ok(())
            }
            None => Ok(()),
        },
        TypedStatement::Perform(call) => {
            expression(ahead, *call, below)?;
            Ok(())
        }
    }
}

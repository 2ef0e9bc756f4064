// What typed nodes do with names, in the order of evaluation.

ghost use Rattle.std.specs.Prelude.{◌≡◌, ◌≤◌, ◌++◌, ◌∷◌, [], map, length, IfOk, OnOk};
ghost use Rattle.terra_term.specs.Events.{block_events, body_events, declares_all, declared_in, doing_events, events_of, list_events};
ghost use Rattle.terra_term.specs.Events.{operation_events, scope, takes};
ghost use Rattle.terra_meaning.specs.Meaning.{in_block, in_expression, in_list, in_statement};
ghost use Rattle.terra_eval.specs.Trees.{block_before, callable_tree, expression_before, expression_tree, list_before, statement_before};
ghost use Rattle.terra_eval.specs.Trees.{statement_tree};
ghost use Rattle.terra_eval.specs.Views.{event_of, events_in, mentions_of};

use crate::nodes::{Callable, expression, statement};
use std::alloc::Global;
use terra_term::{Constant, Operation, Store, TypedExpression, TypedName, TypedStatement};
use tl_base::{FnId, NoMemory, Place, SymId, TermId, TypeId};

/// What is done with a name.
#[derive(Clone, Copy)]
pub(crate) enum Event {
    Opens,
    Closes,
    Declares(SymId, TypeId),
    /// The address of a variable is taken.
    Takes(SymId),
    Uses(Place, SymId, TypeId),
    /// A function is called, or stands as a value.
    Mentions(Place, FnId),
}

fn put(events: &mut Vec<Event>, event: Event) -> Result<(), NoMemory>
    ensures { OnOk result (events_in events.new.items ≡ events_in events.old.items ++ event_of event ∷ []) }
{
    events.push(event)?;
    Ok(())
}

/// The events of an expression, behind others.
#[cycle(events)]
pub(crate) fn expression_events(
    store: &Store,
    below: u64,
    node: TermId,
    events: &mut Vec<Event>,
) -> Result<(), NoMemory>
    ensures { OnOk result (events_in events.new.items ≡ events_in events.old.items ++ events_of (expression_before store.now below node)) }
{
    match expression(store, below, node) {
        None => Ok(()),
        Some(e) => form_events(store, node.0, e.at, e.of, e.form, events),
    }
}

/// The events of an expression whose parts are before a number, behind others.
#[cycle(events)]
fn form_events(
    store: &Store,
    below: u64,
    at: Place,
    of: TypeId,
    form: &TypedExpression,
    events: &mut Vec<Event>,
) -> Result<(), NoMemory>
    ensures { OnOk result
        (events_in events.new.items ≡ events_in events.old.items ++ events_of (expression_tree store.now below at of form.now)) }
{
    match form {
        TypedExpression::Constant(constant) => constant_events(at, *constant, events),
        TypedExpression::Variable(x) => put(events, Event::Uses(at, *x, of)),
        TypedExpression::Global(_) => Ok(()),
        TypedExpression::Operate(operation, operands) => {
            operation_events(at, operation, events)?;
            list_events(store, below, operands.as_slice(), events)
        }
        TypedExpression::Both(a, b) => {
            expression_events(store, below, *a, events)?;
            expression_events(store, below, *b, events)
        }
        TypedExpression::Either(a, b) => {
            expression_events(store, below, *a, events)?;
            expression_events(store, below, *b, events)
        }
        TypedExpression::Dereference(p) => expression_events(store, below, *p, events),
        TypedExpression::Select(_, e) => expression_events(store, below, *e, events),
        TypedExpression::Follow(_, p) => expression_events(store, below, *p, events),
        TypedExpression::Element(a, i) => {
            expression_events(store, below, *a, events)?;
            expression_events(store, below, *i, events)
        }
        TypedExpression::Index(p, i) => {
            expression_events(store, below, *p, events)?;
            expression_events(store, below, *i, events)
        }
        TypedExpression::Address(e) => {
            takes(store, below, *e, events)?;
            expression_events(store, below, *e, events)
        }
        TypedExpression::Decay(a) => expression_events(store, below, *a, events),
        TypedExpression::Let(block, e) => {
            put(events, Event::Opens)?;
            block_events(store, below, block.as_slice(), events)?;
            expression_events(store, below, *e, events)?;
            put(events, Event::Closes)
        }
    }
}

fn constant_events(at: Place, constant: Constant, events: &mut Vec<Event>) -> Result<(), NoMemory>
    ensures { OnOk result (events_in events.new.items ≡ events_in events.old.items ++ mentions_of at constant) }
{
    match constant {
        Constant::FnValue(f) => put(events, Event::Mentions(at, f)),
        Constant::Number(_) => Ok(()),
        Constant::Truth(_) => Ok(()),
        Constant::Nil => Ok(()),
        Constant::Static(_) => Ok(()),
    }
}

fn operation_events(
    at: Place,
    operation: &Operation,
    events: &mut Vec<Event>,
) -> Result<(), NoMemory>
    ensures { OnOk result (events_in events.new.items ≡ events_in events.old.items ++ operation_events at operation.now) }
{
    match operation {
        Operation::Call(f) => put(events, Event::Mentions(at, *f)),
        Operation::Negate => Ok(()),
        Operation::Not => Ok(()),
        Operation::Binary(_) => Ok(()),
        Operation::StepForward => Ok(()),
        Operation::StepBack => Ok(()),
        Operation::Difference => Ok(()),
        Operation::Convert => Ok(()),
        Operation::Extract(_) => Ok(()),
        Operation::Primitive(_) => Ok(()),
        Operation::CallValue => Ok(()),
        Operation::Construct(_) => Ok(()),
    }
}

/// The taking of a place's address, where the place is a variable.
fn takes(store: &Store, below: u64, place: TermId, events: &mut Vec<Event>) -> Result<(), NoMemory>
    ensures { OnOk result (events_in events.new.items ≡ events_in events.old.items ++ takes (expression_before store.now below place)) }
{
    match expression(store, below, place) {
        None => Ok(()),
        Some(e) => match e.form {
            TypedExpression::Variable(x) => put(events, Event::Takes(*x)),
            TypedExpression::Constant(_) => Ok(()),
            TypedExpression::Global(_) => Ok(()),
            TypedExpression::Operate(_, _) => Ok(()),
            TypedExpression::Both(_, _) => Ok(()),
            TypedExpression::Either(_, _) => Ok(()),
            TypedExpression::Dereference(_) => Ok(()),
            TypedExpression::Select(_, _) => Ok(()),
            TypedExpression::Follow(_, _) => Ok(()),
            TypedExpression::Element(_, _) => Ok(()),
            TypedExpression::Index(_, _) => Ok(()),
            TypedExpression::Address(_) => Ok(()),
            TypedExpression::Decay(_) => Ok(()),
            TypedExpression::Let(_, _) => Ok(()),
        },
    }
}

/// The events of expressions, behind others.
#[cycle(events)]
pub(crate) fn list_events(
    store: &Store,
    below: u64,
    nodes: &[TermId],
    events: &mut Vec<Event>,
) -> Result<(), NoMemory>
    ensures { OnOk result (events_in events.new.items ≡ events_in events.old.items ++ list_events (list_before store.now below nodes.now)) }
{
    for node in nodes {
        expression_events(store, below, *node, events)?;
    }
    Ok(())
}

pub(crate) fn declare_all(names: &[TypedName], events: &mut Vec<Event>) -> Result<(), NoMemory>
    ensures { OnOk result (events_in events.new.items ≡ events_in events.old.items ++ declares_all names.now) }
{
    for name in names {
        put(events, Event::Declares(name.symbol, name.of))?;
    }
    Ok(())
}

/// The events of a statement, behind others.
#[cycle(events)]
pub(crate) fn statement_events(
    store: &Store,
    below: u64,
    node: TermId,
    events: &mut Vec<Event>,
) -> Result<(), NoMemory>
    ensures { OnOk result
        (events_in events.new.items ≡ events_in events.old.items ++ doing_events (statement_before store.now below node)) }
{
    match statement(store, below, node) {
        None => Ok(()),
        Some(s) => doing_events(store, node.0, s.at, s.doing, events),
    }
}

/// The events of a statement whose parts are before a number, behind others.
#[cycle(events)]
fn doing_events(
    store: &Store,
    below: u64,
    at: Place,
    doing: &TypedStatement,
    events: &mut Vec<Event>,
) -> Result<(), NoMemory>
    ensures { OnOk result
        (events_in events.new.items ≡ events_in events.old.items ++ doing_events (statement_tree store.now below at doing.now)) }
{
    match doing {
        TypedStatement::Var(names, values) => {
            list_events(store, below, values.as_slice(), events)?;
            declare_all(names.as_slice(), events)
        }
        TypedStatement::Assign(targets, values) => {
            list_events(store, below, values.as_slice(), events)?;
            list_events(store, below, targets.as_slice(), events)
        }
        TypedStatement::If(test, then_block, other) => {
            expression_events(store, below, *test, events)?;
            scope_events(store, below, then_block.as_slice(), events)?;
            match other {
                None => Ok(()),
                Some(else_block) => scope_events(store, below, else_block.as_slice(), events),
            }
        }
        TypedStatement::While(test, body) => {
            expression_events(store, below, *test, events)?;
            scope_events(store, below, body.as_slice(), events)
        }
        TypedStatement::Repeat(body, test) => {
            put(events, Event::Opens)?;
            block_events(store, below, body.as_slice(), events)?;
            expression_events(store, below, *test, events)?;
            put(events, Event::Closes)
        }
        TypedStatement::For(name, bounds, body) => {
            list_events(store, below, bounds.as_slice(), events)?;
            put(events, Event::Opens)?;
            put(events, Event::Declares(name.symbol, name.of))?;
            block_events(store, below, body.as_slice(), events)?;
            put(events, Event::Closes)
        }
        TypedStatement::Do(body) => scope_events(store, below, body.as_slice(), events),
        TypedStatement::Break => Ok(()),
        TypedStatement::Return(None) => Ok(()),
        TypedStatement::Return(Some(e)) => expression_events(store, below, *e, events),
        TypedStatement::Perform(e) => expression_events(store, below, *e, events),
    }
}

/// The events of statements in a scope of their own, behind others.
#[cycle(events)]
fn scope_events(
    store: &Store,
    below: u64,
    nodes: &[TermId],
    events: &mut Vec<Event>,
) -> Result<(), NoMemory>
    ensures { OnOk result
        (events_in events.new.items ≡ events_in events.old.items ++ scope (block_events (block_before store.now below nodes.now))) }
{
    put(events, Event::Opens)?;
    block_events(store, below, nodes, events)?;
    put(events, Event::Closes)
}

/// The events of statements, behind others.
#[cycle(events)]
pub(crate) fn block_events(
    store: &Store,
    below: u64,
    nodes: &[TermId],
    events: &mut Vec<Event>,
) -> Result<(), NoMemory>
    ensures { OnOk result
        (events_in events.new.items ≡ events_in events.old.items ++ block_events (block_before store.now below nodes.now)) }
{
    for node in nodes {
        statement_events(store, below, *node, events)?;
    }
    Ok(())
}

/// How many variables an event declares.
fn declares(event: &Event) -> u64
    ensures one { result ≤ 1 }
    ensures declared { result ≡ length (declared_in (event_of event.now ∷ [])) }
{
    match event {
        Event::Declares(_, _) => 1,
        Event::Opens => 0,
        Event::Closes => 0,
        Event::Takes(_) => 0,
        Event::Uses(_, _, _) => 0,
        Event::Mentions(_, _) => 0,
    }
}

/// How many variables events declare.
fn declarations(events: &[Event]) -> u64
    ensures { result ≡ length (declared_in (events_in events.now)) }
{
    let mut count: u64 = 0;
    for event in events {
        count += declares(event);
    }
    count
}

/// How many variables an expression declares.
pub(crate) fn in_expression(store: &Store, below: u64, node: TermId) -> Result<u64, NoMemory>
    ensures { IfOk result (λ n. n ≡ in_expression (expression_before store.now below node)) }
{
    let mut events = Vec::new(store.allocator());
    expression_events(store, below, node, &mut events)?;
    Ok(declarations(&events))
}

/// How many variables expressions declare.
pub(crate) fn in_list(store: &Store, below: u64, nodes: &[TermId]) -> Result<u64, NoMemory>
    ensures { IfOk result (λ n. n ≡ in_list (list_before store.now below nodes.now)) }
{
    let mut events = Vec::new(store.allocator());
    list_events(store, below, nodes, &mut events)?;
    Ok(declarations(&events))
}

/// How many variables a statement declares.
pub(crate) fn in_statement(store: &Store, below: u64, node: TermId) -> Result<u64, NoMemory>
    ensures { IfOk result (λ n. n ≡ in_statement (statement_before store.now below node)) }
{
    let mut events = Vec::new(store.allocator());
    statement_events(store, below, node, &mut events)?;
    Ok(declarations(&events))
}

/// How many variables statements declare.
pub(crate) fn in_block(store: &Store, below: u64, nodes: &[TermId]) -> Result<u64, NoMemory>
    ensures { IfOk result (λ n. n ≡ in_block (block_before store.now below nodes.now)) }
{
    let mut events = Vec::new(store.allocator());
    block_events(store, below, nodes, &mut events)?;
    Ok(declarations(&events))
}

/// The events of a function.
pub(crate) fn body_events(
    alloc: Global,
    store: &Store,
    k: &Callable<'_>,
) -> Result<Vec<Event>, NoMemory>
    ensures { IfOk result (λ events. events_in events.items ≡ body_events (callable_tree store.now k.now).body) }
{
    let mut events = Vec::new(alloc);
    declare_all(k.parameters, &mut events)?;
    block_events(store, k.node, k.body, &mut events)?;
    Ok(events)
}

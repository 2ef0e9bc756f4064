// The evaluator: the meaning of typed terms, run.

ghost use Rattle.std.specs.Prelude.{◌≡◌, ◌≤◌, suc};
ghost use Rattle.terra_meaning.specs.Running.{scoped};
ghost use Rattle.terra_meaning.specs.Meaning.{done_all, done_one, for_rounds, kept, meant, meant_all, operated, rounds};
ghost use Rattle.terra_eval.specs.Trees.{block_before, expression_before, list_before, statement_before};
ghost use Rattle.terra_eval.specs.Views.{GaveList, GaveValue, GaveWay, call_of, want_of};
ghost use Rattle.terra_eval.specs.Rounds.{counted_round, round_of};
ghost use Rattle.terra_eval.specs.Beginning.{called_from};

use crate::assigning::assign_all;
use crate::beginning::{Caller, begin, caller_of, given_back};
use crate::call::{Call, Wanted, Way};
use crate::declaring::{declare, declare_all};
use crate::looping::{Counting, Round, counting_of, runs, stepped, until};
use crate::nodes::{expression, statement, types_of};
use crate::numbering::{after_block, after_expression, after_list, after_statement, later};
use crate::operate::{behind, callee, constant, element, number_at, operate, type_at};
use crate::reaching::{reached, variable};
use crate::state::State;
use crate::stop::{Halt, Stop};
use crate::types::bytes_at;
use crate::value::Value;
use terra_term::{Operation, TypedExpression, TypedStatement};
use tl_base::{FnId, Place, TermId, TypeId};

/// What an expression gives: a node among those before a number. `from` is the number of the next declaration: how many of the
/// function's stand before this part, in the order of evaluation.
#[cycle(evaluate)]
fn evaluate_expression(
    call: &Call<'_>,
    want: Wanted,
    below: u64,
    node: TermId,
    from: u64,
    state: &mut State,
) -> Result<Value, Stop>
    ensures { GaveValue result state.new
        (meant (call_of call.now) (want_of want) (expression_before call.now.store.now below node) from state.old) }
{
    match expression(call.store, below, node) {
        None => Ok(Value::word(0)),
        Some(e) => match e.form {
            TypedExpression::Constant(k) => Ok(Value::word(constant(call.entries, *k))),
            TypedExpression::Variable(x) => variable(call, want, e.at, e.of, *x, state),
            TypedExpression::Global(address) => reached(call, want, e.at, e.of, *address, state),
            TypedExpression::Operate(operation, operands) => {
                let nodes = operands.as_slice();
                let values = evaluate_list(call, Wanted::Value, node.0, nodes, from, state)?;
                let types = types_of(call.store, node.0, nodes)?;
                evaluate_operation(call, e.at, e.of, operation, &types, &values, state)
            }
            TypedExpression::Both(a, b) => {
                let v = evaluate_expression(call, Wanted::Value, node.0, *a, from, state)?;
                if !v.is_true() {
                    return Ok(v);
                }
                let next = after_expression(call, node.0, *a, from)?;
                evaluate_expression(call, Wanted::Value, node.0, *b, next, state)
            }
            TypedExpression::Either(a, b) => {
                let v = evaluate_expression(call, Wanted::Value, node.0, *a, from, state)?;
                if v.is_true() {
                    return Ok(v);
                }
                let next = after_expression(call, node.0, *a, from)?;
                evaluate_expression(call, Wanted::Value, node.0, *b, next, state)
            }
            TypedExpression::Dereference(p) => {
                let v = evaluate_expression(call, Wanted::Value, node.0, *p, from, state)?;
                reached(call, want, e.at, e.of, v.number(), state)
            }
            TypedExpression::Select(offset, whole) => {
                let v = evaluate_expression(call, Wanted::Address, node.0, *whole, from, state)?;
                reached(
                    call,
                    want,
                    e.at,
                    e.of,
                    v.number().wrapping_add(*offset),
                    state,
                )
            }
            TypedExpression::Follow(offset, p) => {
                let v = evaluate_expression(call, Wanted::Value, node.0, *p, from, state)?;
                reached(
                    call,
                    want,
                    e.at,
                    e.of,
                    v.number().wrapping_add(*offset),
                    state,
                )
            }
            TypedExpression::Element(a, i) => {
                let v = evaluate_expression(call, Wanted::Address, node.0, *a, from, state)?;
                let next = after_expression(call, node.0, *a, from)?;
                let n = evaluate_expression(call, Wanted::Value, node.0, *i, next, state)?;
                let size = bytes_at(call.store.types(), e.of);
                reached(
                    call,
                    want,
                    e.at,
                    e.of,
                    element(v.number(), n.number(), size),
                    state,
                )
            }
            TypedExpression::Index(p, i) => {
                let v = evaluate_expression(call, Wanted::Value, node.0, *p, from, state)?;
                let next = after_expression(call, node.0, *p, from)?;
                let n = evaluate_expression(call, Wanted::Value, node.0, *i, next, state)?;
                let size = bytes_at(call.store.types(), e.of);
                reached(
                    call,
                    want,
                    e.at,
                    e.of,
                    element(v.number(), n.number(), size),
                    state,
                )
            }
            TypedExpression::Address(place) => {
                evaluate_expression(call, Wanted::Address, node.0, *place, from, state)
            }
            TypedExpression::Decay(a) => {
                evaluate_expression(call, Wanted::Address, node.0, *a, from, state)
            }
            TypedExpression::Let(block, value) => {
                let depth = state.depth();
                let nodes = block.as_slice();
                do_block(call, node.0, nodes, from, state)?;
                let next = after_block(call, node.0, nodes, from)?;
                let v = evaluate_expression(call, Wanted::Value, node.0, *value, next, state)?;
                state.leave(depth)?;
                Ok(v)
            }
        },
    }
}

/// What an operation gives, a call among them.
#[cycle(evaluate)]
fn evaluate_operation(
    call: &Call<'_>,
    at: Place,
    of: TypeId,
    operation: &Operation,
    types: &[TypeId],
    values: &[Value],
    state: &mut State,
) -> Result<Value, Stop>
    ensures { GaveValue result state.new (operated (call_of call.now) at of operation.now types.now values.now state.old) }
{
    match operation {
        Operation::Call(f) => {
            let caller = caller_of(call, state)?;
            enter(caller, *f, values, at, state)
        }
        Operation::CallValue => {
            let f = callee(call, at, type_at(types, 0), number_at(values, 0))?;
            let caller = caller_of(call, state)?;
            enter(caller, f, behind(values), at, state)
        }
        other => operate(call, at, of, other, types, values, state),
    }
}

/// What expressions give, from left to right.
#[cycle(evaluate)]
fn evaluate_list(
    call: &Call<'_>,
    want: Wanted,
    below: u64,
    nodes: &[TermId],
    from: u64,
    state: &mut State,
) -> Result<Vec<Value>, Stop>
    ensures { GaveList (λ vs. vs.items) result state.new
        (meant_all (call_of call.now) (want_of want) (list_before call.now.store.now below nodes.now) from state.old) }
{
    let mut values = Vec::new(call.store.allocator());
    let mut next = from;
    for node in nodes {
        let v = evaluate_expression(call, want, below, *node, next, state)?;
        values.push(v)?;
        next = after_expression(call, below, *node, next)?;
    }
    Ok(values)
}

/// What a statement does: a node among those before a number.
#[cycle(evaluate)]
fn do_statement(
    call: &Call<'_>,
    below: u64,
    node: TermId,
    from: u64,
    state: &mut State,
) -> Result<Way, Stop>
    ensures { GaveWay result state.new (done_one (call_of call.now) (statement_before call.now.store.now below node) from state.old) }
{
    match statement(call.store, below, node) {
        None => Ok(Way::Breaks),
        Some(s) => match s.doing {
            TypedStatement::Var(names, values) => {
                let nodes = values.as_slice();
                let given = evaluate_list(call, Wanted::Value, node.0, nodes, from, state)?;
                let next = after_list(call, node.0, nodes, from)?;
                declare_all(call, s.at, names.as_slice(), &given, next, state)?;
                Ok(Way::GoesOn)
            }
            TypedStatement::Assign(targets, values) => {
                let nodes = values.as_slice();
                let given = evaluate_list(call, Wanted::Value, node.0, nodes, from, state)?;
                let next = after_list(call, node.0, nodes, from)?;
                let nodes = targets.as_slice();
                let places = evaluate_list(call, Wanted::Address, node.0, nodes, next, state)?;
                assign_all(call, node.0, nodes, &places, &given, state)?;
                Ok(Way::GoesOn)
            }
            TypedStatement::If(test, then_block, None) => {
                let v = evaluate_expression(call, Wanted::Value, node.0, *test, from, state)?;
                if !v.is_true() {
                    return Ok(Way::GoesOn);
                }
                let next = after_expression(call, node.0, *test, from)?;
                do_scope(call, node.0, then_block.as_slice(), next, state)
            }
            TypedStatement::If(test, then_block, Some(else_block)) => {
                let v = evaluate_expression(call, Wanted::Value, node.0, *test, from, state)?;
                let next = after_expression(call, node.0, *test, from)?;
                if v.is_true() {
                    return do_scope(call, node.0, then_block.as_slice(), next, state);
                }
                let next = after_block(call, node.0, then_block.as_slice(), next)?;
                do_scope(call, node.0, else_block.as_slice(), next, state)
            }
            TypedStatement::While(test, body) => {
                let round = Round::While(*test, body);
                do_rounds(call, node.0, round, from, state)
            }
            TypedStatement::Repeat(body, test) => {
                let round = Round::Repeat(body, *test);
                do_rounds(call, node.0, round, from, state)
            }
            TypedStatement::For(name, bounds, body) => {
                let nodes = bounds.as_slice();
                let given = evaluate_list(call, Wanted::Value, node.0, nodes, from, state)?;
                let next = after_list(call, node.0, nodes, from)?;
                let counting = counting_of(call.store.types(), s.at, *name, body, &given);
                do_counting(call, node.0, counting, next, state)
            }
            TypedStatement::Do(body) => do_scope(call, node.0, body.as_slice(), from, state),
            TypedStatement::Break => Ok(Way::Breaks),
            TypedStatement::Return(None) => Ok(Way::GivesBack(Value::word(0))),
            TypedStatement::Return(Some(value)) => {
                let v = evaluate_expression(call, Wanted::Value, node.0, *value, from, state)?;
                Ok(Way::GivesBack(v))
            }
            TypedStatement::Perform(e) => {
                evaluate_expression(call, Wanted::Value, node.0, *e, from, state)?;
                Ok(Way::GoesOn)
            }
        },
    }
}

/// Statements in a scope of their own.
#[cycle(evaluate)]
fn do_scope(
    call: &Call<'_>,
    below: u64,
    nodes: &[TermId],
    from: u64,
    state: &mut State,
) -> Result<Way, Stop>
    ensures { GaveWay result state.new
        (scoped state.old (done_all (call_of call.now) (block_before call.now.store.now below nodes.now) from state.old)) }
{
    let depth = state.depth();
    let way = do_block(call, below, nodes, from, state)?;
    state.leave(depth)?;
    Ok(way)
}

/// Statements, one after the other.
#[cycle(evaluate)]
fn do_block(
    call: &Call<'_>,
    below: u64,
    nodes: &[TermId],
    from: u64,
    state: &mut State,
) -> Result<Way, Stop>
    ensures { GaveWay result state.new (done_all (call_of call.now) (block_before call.now.store.now below nodes.now) from state.old) }
{
    let mut next = from;
    for node in nodes {
        match do_statement(call, below, *node, next, state)? {
            Way::GoesOn => {}
            way => return Ok(way),
        }
        next = after_statement(call, below, *node, next)?;
    }
    Ok(Way::GoesOn)
}

/// A round of a loop.
#[cycle(evaluate)]
fn do_round(
    call: &Call<'_>,
    below: u64,
    round: Round<'_>,
    from: u64,
    state: &mut State,
) -> Result<Way, Stop>
    ensures { GaveWay result state.new (round_of (call_of call.now) call.now.store.now below round.entry from state.old) }
{
    match round {
        Round::While(test, body) => {
            let v = evaluate_expression(call, Wanted::Value, below, test, from, state)?;
            if !v.is_true() {
                return Ok(Way::Breaks);
            }
            let next = after_expression(call, below, test, from)?;
            do_scope(call, below, body.as_slice(), next, state)
        }
        Round::Repeat(body, test) => {
            let depth = state.depth();
            let nodes = body.as_slice();
            match do_block(call, below, nodes, from, state)? {
                Way::GoesOn => {
                    let next = after_block(call, below, nodes, from)?;
                    let v = evaluate_expression(call, Wanted::Value, below, test, next, state)?;
                    state.leave(depth)?;
                    Ok(until(&v))
                }
                way => {
                    state.leave(depth)?;
                    Ok(way)
                }
            }
        }
        Round::Count(counting, i) => {
            let depth = state.depth();
            let v = Value::word(i);
            declare(call, counting.at, counting.name, Some(&v), from, state)?;
            let next = later(from, 1)?;
            let way = do_block(call, below, counting.body.as_slice(), next, state)?;
            state.leave(depth)?;
            Ok(way)
        }
    }
}

/// A loop: rounds until one breaks or gives back; one that goes on counts.
#[cycle(evaluate)]
fn do_rounds(
    call: &Call<'_>,
    below: u64,
    round: Round<'_>,
    from: u64,
    state: &mut State,
) -> Result<Way, Stop>
    ensures { GaveWay result state.new
        (rounds (suc call.now.turns) (round_of (call_of call.now) call.now.store.now below round.entry from) state.old) }
{
    let mut turns = call.turns;
    loop {
        match do_round(call, below, round, from, state)? {
            Way::GoesOn => state.count()?,
            Way::Breaks => return Ok(Way::GoesOn),
            Way::GivesBack(v) => return Ok(Way::GivesBack(v)),
        }
        if turns == 0 {
            return Err(Stop::Halted(Halt::More));
        }
        turns -= 1;
    }
}

/// A `for`, whose variable's declaration has a number.
#[cycle(evaluate)]
fn do_counting(
    call: &Call<'_>,
    below: u64,
    counting: Counting<'_>,
    from: u64,
    state: &mut State,
) -> Result<Way, Stop>
    requires { counting.width.bits ≤ 64 }
    ensures { GaveWay result state.new
        (for_rounds (suc call.now.turns) counting.entry.width counting.entry.limit counting.entry.step
        (counted_round (call_of call.now) call.now.store.now below counting.entry from) counting.entry.start state.old) }
{
    let mut i = counting.start;
    let mut turns = call.turns;
    while runs(counting.width, i, counting.limit, counting.step) {
        match do_round(call, below, Round::Count(counting, i), from, state)? {
            Way::GoesOn => state.count()?,
            Way::Breaks => return Ok(Way::GoesOn),
            Way::GivesBack(v) => return Ok(Way::GivesBack(v)),
        }
        if turns == 0 {
            return Err(Stop::Halted(Halt::More));
        }
        turns -= 1;
        i = stepped(&counting, i);
    }
    Ok(Way::GoesOn)
}

/// A function, with its parameters; the caller's variables are there again behind it.
#[cycle(evaluate)]
pub(crate) fn enter(
    caller: Caller<'_>,
    f: FnId,
    arguments: &[Value],
    at: Place,
    state: &mut State,
) -> Result<Value, Stop>
    ensures { GaveValue result state.new (kept state.old.variables (called_from caller.entry f arguments.now at state.old)) }
{
    let begun = begin(caller, f, at, state)?;
    let call = Call {
        store: caller.store,
        entries: caller.entries,
        homes: &begun.homes,
        base: begun.base,
        depth: caller.depth,
        turns: caller.turns,
    };
    let k = begun.k;
    let variables = state.begin_call();
    declare_all(&call, k.at, k.parameters, arguments, 0, state)?;
    let way = do_block(&call, k.node, k.body, k.parameters.len() as u64, state)?;
    state.end_call(variables);
    given_back(k, way)
}

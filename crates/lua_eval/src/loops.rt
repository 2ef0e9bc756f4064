// Loops (Lua 5.1 manual, sections 2.4.4 and 2.4.5).

ghost use Rattle.std.specs.Prelude.{◌≡◌, ℕ, pos, ◌+ℤ◌, IfOk, OnOk};
ghost use Rattle.tl_tree.specs.Arena.{items_of};
ghost use Rattle.tl_base.specs.Plan.{Give};
ghost use Rattle.tl_tree.specs.Code.{Items, statements_at};
ghost use Rattle.lua_value.specs.Numbers.{number_from};
ghost use Rattle.lua_table.specs.LuaState.{LuaState};
ghost use Rattle.lua_table.specs.Keeping.{KeepsHeap};
ghost use Rattle.tl_tree.specs.Nodes.{item_at};
ghost use Rattle.lua_ops.specs.Outcomes.{operand};
ghost use Rattle.lua_model.specs.Plans.{within, value_of, statements};
ghost use Rattle.lua_eval.specs.Numbers.{number_in, numbers_in};
ghost use Rattle.lua_model.specs.Loops as plans;
ghost use Rattle.lua_eval.specs.Frames.{first_count, next_turn, with_loop};
ghost use Rattle.lua_eval.specs.Slots.{ArePaths};
ghost use Rattle.lua_eval.specs.Steps.{Goes, Does};

use crate::calls::call;
use crate::cells::{declare, declare_all};
use crate::frame::{AllFrame, LoopFrame, LuaFrame, OneFrame, TurnFrame};
use crate::raise::{LuaStep, raise};
use crate::values::{split_values, two};
use crate::waiting::proceed;
use lua_model::{Caller, End, Job, Loop, Scope};
use lua_ops::{Fault, operand};
use lua_table::Heap;
use lua_value::{Number, Value, Values};
use tl_base::{Budget, EnvId, NoMemory, NodeId, Place, Step};
use tl_rename::Slots;
use tl_tree::code::block_statements;
use tl_tree::{Node, Statement, Tree};

/// A scope in another environment.
pub fn within(scope: Scope, env: EnvId) -> Scope
    ensures { result ≡ within scope env }
{
    Scope { env, ..scope }
}

/// Calls the iterator of a generic `for`.
pub fn list_next<'a>(
    tree: &'a Tree<'a>,
    frames: &mut Vec<LuaFrame<'a>>,
    heap: &mut Heap,
    budget: &mut Budget,
    node: NodeId,
    names: &'a [NodeId],
    place: Place,
    scope: Scope,
    function: Value,
    state: Value,
    control: Value,
    out: Values,
) -> Result<LuaStep, NoMemory>
    ensures means { IfOk result (λ step.
        Goes (items_of tree.now) frames.old.items
        (plans.list_next (items_of tree.now) node names.now place scope function state control out)
        heap.old budget.old frames.new.items step heap.new budget.new) }
    ensures kept { OnOk result (KeepsHeap heap.old heap.new) }
{
    let args = two(heap.allocator(), state.copy(), control)?;
    let callee = function.copy();
    frames.push(LuaFrame::All(AllFrame::Listed(node, names, scope, function, state, out)))?;
    let step = call(
        tree,
        frames,
        heap,
        budget,
        Caller::ByNode,
        callee,
        args,
        place,
        scope.call,
    )?;
    Ok(step)
}

/// Goes on with the values of an iterator.
pub fn listed(
    heap: &mut Heap,
    node: NodeId,
    names: &[NodeId],
    scope: Scope,
    function: Value,
    state: Value,
    values: &[Value],
    out: Values,
) -> Result<LuaStep, NoMemory>
    ensures means { IfOk result (λ step. (items : Items) (left : ℕ) →
        Does items (plans.listed node names.now scope function state values.now out) heap.old left step heap.new left) }
    ensures kept { OnOk result (KeepsHeap heap.old heap.new) }
{
    let (control, _) = split_values(values);
    if control.is_nil() {
        return Ok(Step::Return(End::Fell(out)));
    }
    let env = heap.new_env(node, Some(scope.env))?;
    declare_all(heap, names.len(), env, values)?;
    let turn = Loop::Listed(env, function, state, control);
    Ok(Step::Enter(Job::Turn(node, scope, turn, out)))
}

/// The number that a value is in arithmetic, or the fault of a `for` whose part it is.
fn number(heap: &Heap, value: Value, missing: Fault) -> Result<Number, Fault>
    ensures { result ≡ number_in (operand heap.now value) missing }
{
    match operand(heap, &value) {
        Ok(number) => Ok(number),
        Err(Fault::Arithmetic(_)) => Err(missing),
        Err(fault) => Err(fault),
    }
}

/// The numbers of a `for`, in their order, or the first fault.
fn numbers(
    heap: &Heap,
    first: Value,
    limit: Value,
    step: Value,
) -> Result<(Number, Number, Number), Fault>
    ensures { result ≡ numbers_in (operand heap.now first) (operand heap.now limit) (operand heap.now step) }
{
    let first = number(heap, first, Fault::ForInitial)?;
    let limit = number(heap, limit, Fault::ForLimit)?;
    let step = number(heap, step, Fault::ForStep)?;
    Ok((first, limit, step))
}

/// Begins the first turn of a numeric `for`, where there is one.
pub fn first_count(
    heap: &mut Heap,
    budget: &mut Budget,
    node: NodeId,
    first: Value,
    limit: Value,
    step: Value,
    place: Place,
    scope: Scope,
) -> Result<LuaStep, NoMemory>
    ensures means { IfOk result (λ next. (items : Items) →
        Does items (first_count node first limit step place scope) heap.old budget.old next heap.new budget.new) }
    ensures kept { OnOk result (KeepsHeap heap.old heap.new) }
{
    match numbers(heap, first, limit, step) {
        Ok(all) => {
            let out = Values::new(heap.allocator());
            Ok(count(node, scope, all.0, all.1, all.2, out))
        }
        Err(fault) => {
            let step = raise(heap, budget, place, fault)?;
            Ok(step)
        }
    }
}

/// Holds where a numeric `for` has a turn with this number: a step above zero runs up to the limit, and any other one down
/// to it.
pub fn runs(at: Number, limit: Number, step: Number) -> bool
    ensures { result ≡ plans.runs at limit step }
{
    if step.get() > 0 {
        at.get() <= limit.get()
    } else {
        limit.get() <= at.get()
    }
}

/// Begins a turn of a numeric `for`, unless its variable is past the limit.
fn count(
    node: NodeId,
    scope: Scope,
    at: Number,
    limit: Number,
    step: Number,
    out: Values,
) -> LuaStep
    ensures { (items : Items) (s : LuaState) (left : ℕ) →
        Does items (plans.count node scope at limit step out) s left result s left }
{
    if runs(at, limit, step) {
        Step::Enter(Job::Turn(node, scope, Loop::Counted(at, limit, step), out))
    } else {
        Step::Return(End::Fell(out))
    }
}

#[tactic(auto, using(tl_base::proofs::Steps::pushes))]
/// Goes on with a loop that waited for one value.
pub fn with_loop<'a>(
    frames: &mut Vec<LuaFrame<'a>>,
    heap: &mut Heap,
    budget: &mut Budget,
    frame: LoopFrame,
    value: Value,
) -> Result<LuaStep, NoMemory>
    ensures means { IfOk result (λ step. (items : Items) →
        Goes items frames.old.items (with_loop frame value) heap.old budget.old frames.new.items step heap.new budget.new) }
    ensures kept { OnOk result (KeepsHeap heap.old heap.new) }
{
    match frame {
        LoopFrame::While(node, scope, out) => {
            if value.is_true() {
                Ok(Step::Enter(Job::Turn(node, scope, Loop::While, out)))
            } else {
                Ok(Step::Return(End::Fell(out)))
            }
        }
        LoopFrame::Repeat(node, scope, out) => {
            if value.is_true() {
                Ok(Step::Return(End::Fell(out)))
            } else {
                Ok(Step::Enter(Job::Turn(node, scope, Loop::Repeat, out)))
            }
        }
        LoopFrame::Initial(node, limit, step, place, scope) => {
            frames.push(LuaFrame::One(OneFrame::Loop(LoopFrame::Limit(
                node, value, step, place, scope,
            ))))?;
            Ok(Step::Enter(Job::Expression(limit, scope)))
        }
        LoopFrame::Limit(node, first, step, place, scope) => {
            let next = with_limit(frames, heap, budget, node, first, value, step, place, scope)?;
            Ok(next)
        }
        LoopFrame::Step(node, first, limit, place, scope) => {
            let step = first_count(heap, budget, node, first, limit, value, place, scope)?;
            Ok(step)
        }
    }
}

#[tactic(auto, using(tl_base::proofs::Steps::pushes))]
/// Evaluates the step of a numeric `for`, which is 1 where there is none.
fn with_limit<'a>(
    frames: &mut Vec<LuaFrame<'a>>,
    heap: &mut Heap,
    budget: &mut Budget,
    node: NodeId,
    first: Value,
    limit: Value,
    step: Option<NodeId>,
    place: Place,
    scope: Scope,
) -> Result<LuaStep, NoMemory>
    ensures means { IfOk result (λ next. (items : Items) →
        Goes items frames.old.items (plans.step_plan step scope (λ c. first_count node first limit c place scope))
        heap.old budget.old frames.new.items next heap.new budget.new) }
    ensures kept { OnOk result (KeepsHeap heap.old heap.new) }
{
    match step {
        Some(step) => {
            frames.push(LuaFrame::One(OneFrame::Loop(LoopFrame::Step(
                node, first, limit, place, scope,
            ))))?;
            Ok(Step::Enter(Job::Expression(step, scope)))
        }
        None => {
            let next = first_count(heap, budget, node, first, limit, one(), place, scope)?;
            Ok(next)
        }
    }
}

/// The number 1.
fn one() -> Value
    ensures { result ≡ Value.Number (pos 1) }
{
    match Number::new(1) {
        Some(one) => Value::Number(one),
        None => Value::Nil,
    }
}

#[tactic(auto, using(tl_base::proofs::Steps::pushes))]
/// Tests the condition of a loop.
fn test<'a>(
    frames: &mut Vec<LuaFrame<'a>>,
    frame: LoopFrame,
    condition: NodeId,
    scope: Scope,
) -> Result<LuaStep, NoMemory>
    ensures means { IfOk result (λ step. (items : Items) (s : LuaState) (left : ℕ) →
        Goes items frames.old.items (value_of condition scope (λ v. with_loop frame v)) s left
        frames.new.items step s left) }
{
    frames.push(LuaFrame::One(OneFrame::Loop(frame)))?;
    Ok(Step::Enter(Job::Expression(condition, scope)))
}

/// Tests the condition of a `while`.
pub fn while_test<'a>(
    frames: &mut Vec<LuaFrame<'a>>,
    node: NodeId,
    condition: NodeId,
    scope: Scope,
    out: Values,
) -> Result<LuaStep, NoMemory>
    ensures means { IfOk result (λ step. (items : Items) (s : LuaState) (left : ℕ) →
        Goes items frames.old.items (plans.while_test node condition scope out) s left frames.new.items step s left) }
{
    let step = test(frames, LoopFrame::While(node, scope, out), condition, scope)?;
    Ok(step)
}

#[tactic(auto, using(tl_base::proofs::Steps::pushes))]
/// Tests the condition of a `repeat`, in the scope of its block.
fn repeat_test<'a>(
    frames: &mut Vec<LuaFrame<'a>>,
    node: NodeId,
    condition: NodeId,
    scope: Scope,
    inner: Scope,
    out: Values,
) -> Result<LuaStep, NoMemory>
    ensures means { IfOk result (λ step. (items : Items) (s : LuaState) (left : ℕ) →
        Goes items frames.old.items (plans.repeat_test node condition scope inner out) s left
        frames.new.items step s left) }
{
    let step = test(
        frames,
        LoopFrame::Repeat(node, scope, out),
        condition,
        inner,
    )?;
    Ok(step)
}

#[tactic(auto, using(tl_base::proofs::Steps::pushes))]
/// Goes on behind a turn.
pub fn next_turn<'a>(
    tree: &'a Tree<'a>,
    frames: &mut Vec<LuaFrame<'a>>,
    heap: &mut Heap,
    budget: &mut Budget,
    node: NodeId,
    scope: Scope,
    frame: &TurnFrame<'a>,
    out: Values,
) -> Result<LuaStep, NoMemory>
    ensures means { IfOk result (λ step.
        Goes (items_of tree.now) frames.old.items (next_turn (items_of tree.now) node scope frame.now out)
        heap.old budget.old frames.new.items step heap.new budget.new) }
    ensures kept { OnOk result (KeepsHeap heap.old heap.new) }
{
    match frame {
        TurnFrame::While(condition) => { while_test(frames, node, *condition, scope, out) }
        TurnFrame::Repeat(condition, inner) => {
            repeat_test(frames, node, *condition, scope, *inner, out)
        }
        TurnFrame::Counted(at, limit, step) => {
            let next = following(at, step);
            Ok(count_from(node, scope, next, *limit, *step, out))
        }
        TurnFrame::Listed(names, place, function, state, control) => {
            let function = function.copy();
            let state = state.copy();
            let control = control.copy();
            list_next(
                tree, frames, heap, budget, node, names, *place, scope, function, state, control,
                out,
            )
        }
    }
}

/// The next number of a `for`, or `None` where it is out of the profile.
pub fn following(at: &Number, step: &Number) -> Option<Number>
    ensures { result ≡ number_from (at.now +ℤ step.now) }
{
    Number::new(at.get() + step.get())
}

/// Begins the next turn of a numeric `for`. A number out of the profile is past every limit.
fn count_from(
    node: NodeId,
    scope: Scope,
    at: Option<Number>,
    limit: Number,
    step: Number,
    out: Values,
) -> LuaStep
    ensures { (items : Items) (s : LuaState) (left : ℕ) →
        Does items (plans.count_from node scope at limit step out) s left result s left }
{
    match at {
        Some(at) => count(node, scope, at, limit, step, out),
        None => Step::Return(End::Fell(out)),
    }
}

#[tactic(auto, using(tl_base::proofs::Steps::pushes))]
/// Does a turn of the loop that a statement is, and all later ones.
pub fn turn<'a>(
    tree: &'a Tree<'a>,
    slots: &Slots,
    frames: &mut Vec<LuaFrame<'a>>,
    heap: &mut Heap,
    budget: &mut Budget,
    node: NodeId,
    scope: Scope,
    turn: Loop,
    out: Values,
) -> Result<LuaStep, NoMemory>
    requires { ArePaths (items_of tree.now) slots.now }
    ensures means { IfOk result (λ step.
        Goes (items_of tree.now) frames.old.items
        (plans.turn_plan (items_of tree.now) (item_at (items_of tree.now) node) node scope turn out)
        heap.old budget.old frames.new.items step heap.new budget.new) }
    ensures kept { OnOk result (KeepsHeap heap.old heap.new) }
{
    match tree.node(node) {
        Node::Statement(place, statement) => {
            turn_of(
                tree, slots, frames, heap, budget, statement, node, *place, scope, turn, out,
            )
        }
        _ => Ok(Step::Return(End::Fell(out))),
    }
}

#[tactic(auto, using(tl_base::proofs::Steps::pushes))]
fn turn_of<'a>(
    tree: &'a Tree<'a>,
    slots: &Slots,
    frames: &mut Vec<LuaFrame<'a>>,
    heap: &mut Heap,
    budget: &mut Budget,
    statement: &'a Statement,
    node: NodeId,
    place: Place,
    scope: Scope,
    turn: Loop,
    out: Values,
) -> Result<LuaStep, NoMemory>
    requires { ArePaths (items_of tree.now) slots.now }
    ensures means { IfOk result (λ step.
        Goes (items_of tree.now) frames.old.items
        (plans.turn_of (items_of tree.now) statement.now node place scope turn out)
        heap.old budget.old frames.new.items step heap.new budget.new) }
    ensures kept { OnOk result (KeepsHeap heap.old heap.new) }
{
    match turn {
        Loop::While => {
            while_turn(
                tree, slots, frames, heap, budget, statement, node, scope, out,
            )
        }
        Loop::Repeat => {
            repeat_turn(
                tree, slots, frames, heap, budget, statement, node, scope, out,
            )
        }
        Loop::Counted(at, limit, by) => {
            numeric_turn(
                tree, slots, frames, heap, budget, statement, node, scope, at, limit, by, out,
            )
        }
        Loop::Listed(env, function, state, control) => {
            generic_turn(
                tree, slots, frames, heap, budget, statement, node, place, scope, env, function,
                state, control, out,
            )
        }
    }
}

#[tactic(auto, using(tl_base::proofs::Steps::pushes))]
fn generic_turn<'a>(
    tree: &'a Tree<'a>,
    slots: &Slots,
    frames: &mut Vec<LuaFrame<'a>>,
    heap: &mut Heap,
    budget: &mut Budget,
    statement: &'a Statement,
    node: NodeId,
    place: Place,
    scope: Scope,
    env: EnvId,
    function: Value,
    state: Value,
    control: Value,
    out: Values,
) -> Result<LuaStep, NoMemory>
    requires { ArePaths (items_of tree.now) slots.now }
    ensures means { IfOk result (λ step.
        Goes (items_of tree.now) frames.old.items
        (plans.generic_turn (items_of tree.now) statement.now node place scope env function state control out)
        heap.old budget.old frames.new.items step heap.new budget.new) }
    ensures kept { OnOk result (KeepsHeap heap.old heap.new) }
{
    match statement {
        Statement::GenericFor(names, _, block) => {
            let next = TurnFrame::Listed(names.as_slice(), place, function, state, control);
            frames.push(LuaFrame::Turn(node, scope, next))?;
            turn_block(
                tree,
                slots,
                frames,
                heap,
                budget,
                *block,
                within(scope, env),
                out,
            )
        }
        _ => Ok(Step::Return(End::Fell(out))),
    }
}

#[tactic(auto, using(tl_base::proofs::Steps::pushes))]
fn while_turn<'a>(
    tree: &'a Tree<'a>,
    slots: &Slots,
    frames: &mut Vec<LuaFrame<'a>>,
    heap: &mut Heap,
    budget: &mut Budget,
    statement: &'a Statement,
    node: NodeId,
    scope: Scope,
    out: Values,
) -> Result<LuaStep, NoMemory>
    requires { ArePaths (items_of tree.now) slots.now }
    ensures means { IfOk result (λ step.
        Goes (items_of tree.now) frames.old.items
        (plans.while_turn (items_of tree.now) statement.now node scope out)
        heap.old budget.old frames.new.items step heap.new budget.new) }
    ensures kept { OnOk result (KeepsHeap heap.old heap.new) }
{
    match statement {
        Statement::While(condition, block) => {
            let env = heap.new_env(*block, Some(scope.env))?;
            frames.push(LuaFrame::Turn(node, scope, TurnFrame::While(*condition)))?;
            turn_block(
                tree,
                slots,
                frames,
                heap,
                budget,
                *block,
                within(scope, env),
                out,
            )
        }
        _ => Ok(Step::Return(End::Fell(out))),
    }
}

#[tactic(auto, using(tl_base::proofs::Steps::pushes))]
fn repeat_turn<'a>(
    tree: &'a Tree<'a>,
    slots: &Slots,
    frames: &mut Vec<LuaFrame<'a>>,
    heap: &mut Heap,
    budget: &mut Budget,
    statement: &'a Statement,
    node: NodeId,
    scope: Scope,
    out: Values,
) -> Result<LuaStep, NoMemory>
    requires { ArePaths (items_of tree.now) slots.now }
    ensures means { IfOk result (λ step.
        Goes (items_of tree.now) frames.old.items
        (plans.repeat_turn (items_of tree.now) statement.now node scope out)
        heap.old budget.old frames.new.items step heap.new budget.new) }
    ensures kept { OnOk result (KeepsHeap heap.old heap.new) }
{
    match statement {
        Statement::Repeat(block, condition) => {
            let env = heap.new_env(node, Some(scope.env))?;
            let inner = within(scope, env);
            frames.push(LuaFrame::Turn(node, scope, TurnFrame::Repeat(*condition, inner)))?;
            turn_block(tree, slots, frames, heap, budget, *block, inner, out)
        }
        _ => Ok(Step::Return(End::Fell(out))),
    }
}

#[tactic(auto, using(tl_base::proofs::Steps::pushes))]
fn numeric_turn<'a>(
    tree: &'a Tree<'a>,
    slots: &Slots,
    frames: &mut Vec<LuaFrame<'a>>,
    heap: &mut Heap,
    budget: &mut Budget,
    statement: &'a Statement,
    node: NodeId,
    scope: Scope,
    at: Number,
    limit: Number,
    by: Number,
    out: Values,
) -> Result<LuaStep, NoMemory>
    requires { ArePaths (items_of tree.now) slots.now }
    ensures means { IfOk result (λ step.
        Goes (items_of tree.now) frames.old.items
        (plans.numeric_turn (items_of tree.now) statement.now node scope at limit by out)
        heap.old budget.old frames.new.items step heap.new budget.new) }
    ensures kept { OnOk result (KeepsHeap heap.old heap.new) }
{
    match statement {
        Statement::NumericFor(_, _, _, _, block) => {
            let env = heap.new_env(node, Some(scope.env))?;
            declare(heap, env, Value::Number(at))?;
            frames.push(LuaFrame::Turn(node, scope, TurnFrame::Counted(at, limit, by)))?;
            turn_block(
                tree,
                slots,
                frames,
                heap,
                budget,
                *block,
                within(scope, env),
                out,
            )
        }
        _ => Ok(Step::Return(End::Fell(out))),
    }
}

/// Executes a block in a turn, of which so much was emitted before.
fn turn_block<'a>(
    tree: &'a Tree<'a>,
    slots: &Slots,
    frames: &mut Vec<LuaFrame<'a>>,
    heap: &mut Heap,
    budget: &mut Budget,
    block: NodeId,
    inner: Scope,
    out: Values,
) -> Result<LuaStep, NoMemory>
    requires { ArePaths (items_of tree.now) slots.now }
    ensures means { IfOk result (λ step.
        Goes (items_of tree.now) frames.old.items
        (statements (statements_at (items_of tree.now) block) inner out Give)
        heap.old budget.old frames.new.items step heap.new budget.new) }
    ensures kept { OnOk result (KeepsHeap heap.old heap.new) }
{
    let list = block_statements(tree, block);
    proceed(tree, slots, frames, heap, budget, list, inner, out)
}

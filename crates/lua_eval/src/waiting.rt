// Statements that are executed at once, as far as that is possible, with the calls that they make.

ghost use Rattle.std.specs.Prelude.{◌≡◌, ◌≤◌, ℕ, List, [], ◌∷◌, true, IfSome, IfNone, IfOk, OnOk};
ghost use Rattle.tl_tree.specs.Arena.{items_of};
ghost use Rattle.tl_tree.specs.Code.{Items};
ghost use Rattle.tl_base.specs.Plan.{Give, Do};
ghost use Rattle.tl_base.specs.declared.ids.NodeId as ids;
ghost use Rattle.tl_base.specs.declared.place.Place as places;
ghost use Rattle.lua_value.specs.declared.value.Value as value_types;
ghost use Rattle.lua_table.specs.LuaState.{LuaState};
ghost use Rattle.lua_table.specs.Keeping.{KeepsHeap};
ghost use Rattle.lua_model.specs.declared.scope.Scope as scopes;
ghost use Rattle.lua_model.specs.declared.end.End as ends;
ghost use Rattle.lua_model.specs.declared.end.End.TheVariants.{Fell, Returned};
ghost use Rattle.lua_model.specs.declared.job.Job.TheVariants as jobs;
ghost use Rattle.lua_model.specs.Plans as model;
ghost use Rattle.lua_model.specs.Plans.{LuaPlan, fell};
ghost use Rattle.lua_model.specs.Assignments.{assign_plan};
ghost use Rattle.lua_model.specs.Statements.{local_plan, statement_of};
ghost use Rattle.lua_eval.specs.AtOnce.{Becomes};
ghost use Rattle.lua_eval.specs.Called.{called_plan};
ghost use Rattle.lua_eval.specs.Running.{halt_plan};
ghost use Rattle.lua_eval.specs.Slots.{ArePaths};
ghost use Rattle.lua_eval.specs.Steps.{Goes, Does};
ghost use Rattle.lua_eval.specs.Waits.{waited};
ghost use Rattle.lua_eval.specs.Waiting.{wait_plan, waited_state, passed_plan, stop_plan};

use crate::calling::{Called, call_of, inside_on};
use crate::cells::{declare_all, set_local};
use crate::direct::{Spot, aim};
use crate::frame::{AllFrame, LuaFrame, Wait};
use crate::lists::nth;
use crate::raise::LuaStep;
use crate::running::{Halt, go_on, run};
use crate::statements::statement;
use crate::storing::only;
use crate::values::one;
use lua_model::{End, Scope};
use lua_table::Heap;
use lua_value::{Value, Values};
use tl_base::{Budget, NoMemory, NodeId, Step};
use tl_rename::Slots;
use tl_tree::{Node, Statement, Tree};

/// The expression that a statement evaluates, what it does with the values, and the units that are left before.
#[derive(Clone, Copy)]
struct Begun<'a> {
    node: NodeId,
    wait: Wait<'a>,
    left: u64,
}

/// Begins a statement with so many units that evaluates one expression and does no more than a `Wait`.
fn begin_statement<'a>(
    tree: &'a Tree<'a>,
    slots: &Slots,
    heap: &mut Heap,
    statement: &'a Statement,
    scope: &Scope,
    left: u64,
) -> Option<Begun<'a>>
    requires { ArePaths (items_of tree.now) slots.now }
    ensures passes { IfSome result (λ begun. (n : ids.NodeId) (place : places.Place) →
        Becomes (items_of tree.now) (statement_of (items_of tree.now) statement.now n place scope.now) heap.old left
        (Do (jobs.Expression begun.node scope.now) (λ r. wait_plan begun.wait scope.now r Give)) heap.old begun.left) }
    ensures within { IfSome result (λ begun. begun.left ≤ left) }
    ensures same { heap.new ≡ heap.old }
{
    match statement {
        Statement::Call(call) => Some(Begun {
            node: *call,
            wait: Wait::Nothing,
            left,
        }),
        Statement::Local(names, values) => {
            let names = names.as_slice();
            let values = values.as_slice();
            declaring(names, values, left)
        }
        Statement::Assign(targets, values) => {
            let targets = targets.as_slice();
            let values = values.as_slice();
            storing(tree, slots, heap, targets, values, scope, left)
        }
        _ => None,
    }
}

/// Begins the declaration of locals by one expression.
fn declaring<'a>(names: &'a [NodeId], values: &[NodeId], left: u64) -> Option<Begun<'a>>
    ensures passes { IfSome result (λ begun. (items : Items) (scope : scopes.Scope) (s : LuaState) →
        Becomes items (local_plan names.now values.now scope) s left
        (Do (jobs.Expression begun.node scope) (λ r. wait_plan begun.wait scope r Give)) s begun.left) }
    ensures within { IfSome result (λ begun. begun.left ≤ left) }
{
    match only(values) {
        Some(node) => Some(Begun {
            node,
            wait: Wait::Local(names),
            left,
        }),
        None => None,
    }
}

/// Begins an assignment of one expression to a local.
fn storing<'a>(
    tree: &'a Tree<'a>,
    slots: &Slots,
    heap: &mut Heap,
    targets: &[NodeId],
    values: &[NodeId],
    scope: &Scope,
    left: u64,
) -> Option<Begun<'a>>
    requires { ArePaths (items_of tree.now) slots.now }
    ensures passes { IfSome result (λ begun.
        Becomes (items_of tree.now) (assign_plan (items_of tree.now) targets.now values.now scope.now) heap.old left
        (Do (jobs.Expression begun.node scope.now) (λ r. wait_plan begun.wait scope.now r Give)) heap.old begun.left) }
    ensures within { IfSome result (λ begun. begun.left ≤ left) }
    ensures same { heap.new ≡ heap.old }
{
    let target = only(targets)?;
    let node = only(values)?;
    let aimed = aim(tree, slots, heap, target, scope, left)?;
    match aimed.spot {
        Spot::Local(depth, position) => Some(Begun {
            node,
            wait: Wait::Store(depth, position),
            left: aimed.left,
        }),
        Spot::Field(_, _) => None,
    }
}

/// Does what a statement does with the values of its call.
fn take(heap: &mut Heap, scope: &Scope, wait: Wait<'_>, values: &[Value]) -> Result<(), NoMemory>
    ensures ok { OnOk result (heap.new ≡ waited_state wait.entry scope.now values.now heap.old) }
    ensures kept { OnOk result (KeepsHeap heap.old heap.new) }
{
    match wait {
        Wait::Nothing => Ok(()),
        Wait::Local(names) => declare_all(heap, names.len(), scope.env, values),
        Wait::Store(depth, position) => {
            set_local(heap, scope.env, depth, position, nth(values, 0));
            Ok(())
        }
    }
}

/// Goes on with a statement that waited for the values of its call.
pub fn take_all(
    heap: &mut Heap,
    scope: &Scope,
    wait: Wait<'_>,
    values: &[Value],
) -> Result<LuaStep, NoMemory>
    ensures means { IfOk result (λ step. (items : Items) (left : ℕ) →
        Does items (waited wait.entry scope.now values.now fell) heap.old left step heap.new left) }
    ensures kept { OnOk result (KeepsHeap heap.old heap.new) }
{
    take(heap, scope, wait, values)?;
    Ok(Step::Return(End::Fell(Values::new(heap.allocator()))))
}

/// What is left of a statement that makes a call.
#[derive(Clone, Copy)]
enum Passed<'a> {
    /// Nothing.
    Done,
    /// These statements of the function, in this scope, and what is done with the values of the call.
    Inside(Halt<'a>, Scope, Wait<'a>),
}

/// Goes on with a call at once that gave this value, where nothing of it is left.
fn pass<'a>(
    heap: &mut Heap,
    scope: &Scope,
    wait: Wait<'a>,
    called: Called<'a>,
    given: Value,
) -> Result<Passed<'a>, NoMemory>
    ensures passes { IfOk result (λ passed. (items : Items) (left : ℕ) (go : ends.End → LuaPlan) →
        Becomes items (called_plan called.entry given (λ r. wait_plan wait.entry scope.now r go)) heap.old left
        (passed_plan passed scope.now go) heap.new left) }
    ensures kept { OnOk result (KeepsHeap heap.old heap.new) }
{
    match called {
        Called::Nothing => {
            take(heap, scope, wait, &[])?;
            Ok(Passed::Done)
        }
        Called::Gave => {
            take(heap, scope, wait, &[given])?;
            Ok(Passed::Done)
        }
        Called::Inside(halt, inner) => Ok(Passed::Inside(halt, inner, wait)),
    }
}

/// Executes a statement that makes a call at once with so many units, as far as that is possible, and pays for it.
fn passed_by<'a>(
    tree: &'a Tree<'a>,
    slots: &Slots,
    heap: &mut Heap,
    budget: &mut Budget,
    statement: &'a Statement,
    scope: &Scope,
    left: u64,
) -> Result<Option<Passed<'a>>, NoMemory>
    requires slots { ArePaths (items_of tree.now) slots.now }
    requires units { left ≤ budget.old }
    ensures passes { IfOk result (λ r. IfSome r (λ passed. (n : ids.NodeId) (place : places.Place) →
        Becomes (items_of tree.now) (statement_of (items_of tree.now) statement.now n place scope.now) heap.old left
        (passed_plan passed scope.now Give) heap.new budget.new)) }
    ensures heap { IfOk result (λ r. IfNone r (heap.new ≡ heap.old)) }
    ensures budget { IfOk result (λ r. IfNone r (budget.new ≡ budget.old)) }
    ensures kept { OnOk result (KeepsHeap heap.old heap.new) }
{
    let Some(begun) = begin_statement(tree, slots, heap, statement, scope, left) else {
        return Ok(None);
    };
    let mut given = Value::Nil;
    let called = call_of(
        tree, slots, heap, budget, begun.node, scope, begun.left, &mut given,
    )?;
    match called {
        None => Ok(None),
        Some(done) => {
            let passed = pass(heap, scope, begun.wait, done, given)?;
            Ok(Some(passed))
        }
    }
}

/// Executes a statement at once, as far as that is possible, and pays for it, where it makes a call.
fn pass_statement<'a>(
    tree: &'a Tree<'a>,
    slots: &Slots,
    heap: &mut Heap,
    budget: &mut Budget,
    node: NodeId,
    scope: &Scope,
) -> Result<Option<Passed<'a>>, NoMemory>
    requires { ArePaths (items_of tree.now) slots.now }
    ensures passes { IfOk result (λ r. IfSome r (λ passed. (go : ends.End → LuaPlan) →
        Becomes (items_of tree.now) (Do (jobs.Statement node scope.now) go) heap.old budget.old
        (passed_plan passed scope.now go) heap.new budget.new)) }
    ensures heap { IfOk result (λ r. IfNone r (heap.new ≡ heap.old)) }
    ensures budget { IfOk result (λ r. IfNone r (budget.new ≡ budget.old)) }
    ensures kept { OnOk result (KeepsHeap heap.old heap.new) }
{
    let units = budget.left();
    if units == 0 {
        return Ok(None);
    }
    match tree.node(node) {
        Node::Statement(_, statement) => {
            let passed = passed_by(tree, slots, heap, budget, statement, scope, units - 1)?;
            Ok(passed)
        }
        _ => Ok(None),
    }
}

/// What is left of statements, of which some were executed at once with the calls that they make.
#[derive(Clone, Copy)]
pub enum Stop<'a> {
    /// What is left of them alone.
    Plain(Halt<'a>),
    /// Statements of a function that is called, in this scope, what is done with its values, and the statements behind.
    Calling(Halt<'a>, Scope, Wait<'a>, &'a [NodeId]),
}

/// Holds where nothing is left of statements.
pub fn ended(stop: &Stop<'_>) -> bool
    ensures { result ≡ true → (scope : scopes.Scope) (out : List value_types.Value) (go : ends.End → LuaPlan) →
        stop_plan stop.now scope out go ≡ go (Fell out) }
{
    match stop {
        Stop::Plain(halt) => crate::running::ended(halt),
        Stop::Calling(_, _, _, _) => false,
    }
}

/// The first of statements, of which this is left, and those behind it.
fn next_of<'a>(halt: &Halt<'a>) -> Option<(NodeId, &'a [NodeId])>
    ensures { IfSome result (λ next. (scope : scopes.Scope) (out : List value_types.Value) (go : ends.End → LuaPlan) →
        halt_plan halt.now scope out go ≡ model.statements (next.0 ∷ next.1.now) scope out go) }
{
    match halt {
        Halt::At(list) => match list.split_first() {
            Some((first, behind)) => Some((*first, behind)),
            None => None,
        },
        Halt::Within(_, _, _) => None,
    }
}

/// Executes statements at once with the calls that they make, as far as that is possible, and pays for them.
pub fn run_calls<'a>(
    tree: &'a Tree<'a>,
    slots: &Slots,
    heap: &mut Heap,
    budget: &mut Budget,
    list: &'a [NodeId],
    scope: &Scope,
) -> Result<Stop<'a>, NoMemory>
    requires { ArePaths (items_of tree.now) slots.now }
    ensures passes { IfOk result (λ stop. (out : List value_types.Value) (go : ends.End → LuaPlan) →
        Becomes (items_of tree.now) (model.statements list.now scope.now out go) heap.old budget.old
        (stop_plan stop scope.now out go) heap.new budget.new) }
    ensures kept { OnOk result (KeepsHeap heap.old heap.new) }
{
    let mut rest = list;
    'calls: for _ in 0..list.len() {
        let halt = run(tree, slots, heap, budget, rest, scope)?;
        match next_of(&halt) {
            None => return Ok(Stop::Plain(halt)),
            Some((first, behind)) => {
                let done = pass_statement(tree, slots, heap, budget, first, scope)?;
                match done {
                    None => return Ok(Stop::Plain(halt)),
                    Some(left) => match left {
                        Passed::Done => rest = behind,
                        Passed::Inside(inside, inner, wait) => {
                            return Ok(Stop::Calling(inside, inner, wait, behind));
                        }
                    },
                }
            }
        }
    }
    Ok(Stop::Plain(Halt::At(rest)))
}

#[tactic(auto, using(tl_base::proofs::Steps::pushes))]
/// Goes on with what is left of statements, of which so much was emitted before.
pub fn stop_on<'a>(
    frames: &mut Vec<LuaFrame<'a>>,
    heap: &Heap,
    stop: Stop<'a>,
    scope: Scope,
    out: Values,
) -> Result<LuaStep, NoMemory>
    ensures means { IfOk result (λ step. (items : Items) (s : LuaState) (left : ℕ) →
        Goes items frames.old.items (stop_plan stop.entry scope out Give) s left frames.new.items step s left) }
{
    match stop {
        Stop::Plain(halt) => go_on(frames, heap, halt, scope, out),
        Stop::Calling(inside, inner, wait, behind) => {
            frames.push(LuaFrame::Block(behind, scope, out))?;
            frames.push(LuaFrame::All(AllFrame::Wait(wait, scope)))?;
            inside_on(frames, heap, inside, inner)
        }
    }
}

/// The value that statements return at once, of which this is left.
fn ending<'a>(
    tree: &'a Tree<'a>,
    slots: &Slots,
    heap: &mut Heap,
    budget: &mut Budget,
    stop: &Stop<'a>,
    scope: &Scope,
) -> Result<Option<Value>, NoMemory>
    requires { ArePaths (items_of tree.now) slots.now }
    ensures found { IfOk result (λ r. IfSome r (λ value. (out : List value_types.Value) (go : ends.End → LuaPlan) →
        Becomes (items_of tree.now) (stop_plan stop.now scope.now out go) heap.old budget.old
        (go (Returned (value ∷ []) out)) heap.new budget.new)) }
    ensures heap { IfOk result (λ r. IfNone r (heap.new ≡ heap.old)) }
    ensures budget { IfOk result (λ r. IfNone r (budget.new ≡ budget.old)) }
    ensures kept { OnOk result (KeepsHeap heap.old heap.new) }
{
    match stop {
        Stop::Plain(halt) => crate::running::ending(tree, slots, heap, budget, halt, scope),
        Stop::Calling(_, _, _, _) => Ok(None),
    }
}

/// Executes statements in their order, of which so much was emitted before: at once, as far as that is possible.
pub fn proceed<'a>(
    tree: &'a Tree<'a>,
    slots: &Slots,
    frames: &mut Vec<LuaFrame<'a>>,
    heap: &mut Heap,
    budget: &mut Budget,
    list: &'a [NodeId],
    scope: Scope,
    out: Values,
) -> Result<LuaStep, NoMemory>
    requires { ArePaths (items_of tree.now) slots.now }
    ensures means { IfOk result (λ step.
        Goes (items_of tree.now) frames.old.items (model.statements list.now scope out Give) heap.old budget.old
        frames.new.items step heap.new budget.new) }
    ensures kept { OnOk result (KeepsHeap heap.old heap.new) }
{
    let stop = run_calls(tree, slots, heap, budget, list, &scope)?;
    let given = ending(tree, slots, heap, budget, &stop, &scope)?;
    match given {
        Some(value) => {
            let values = one(heap.allocator(), value)?;
            Ok(Step::Return(End::Returned(values, out)))
        }
        None => begin_left(tree, slots, frames, heap, budget, stop, scope, out),
    }
}

/// Begins what is left of statements, of which so much was emitted before.
pub fn begin_left<'a>(
    tree: &'a Tree<'a>,
    slots: &Slots,
    frames: &mut Vec<LuaFrame<'a>>,
    heap: &mut Heap,
    budget: &mut Budget,
    stop: Stop<'a>,
    scope: Scope,
    out: Values,
) -> Result<LuaStep, NoMemory>
    requires { ArePaths (items_of tree.now) slots.now }
    ensures means { IfOk result (λ step.
        Goes (items_of tree.now) frames.old.items (stop_plan stop.entry scope out Give) heap.old budget.old
        frames.new.items step heap.new budget.new) }
    ensures kept { OnOk result (KeepsHeap heap.old heap.new) }
{
    match stop {
        Stop::Plain(halt) => match halt {
            Halt::At(list) => begin_statements(tree, slots, frames, heap, budget, list, scope, out),
            Halt::Within(_, _, _) => go_on(frames, heap, halt, scope, out),
        },
        Stop::Calling(_, _, _, _) => stop_on(frames, heap, stop, scope, out),
    }
}

/// Begins statements, of which so much was emitted before.
fn begin_statements<'a>(
    tree: &'a Tree<'a>,
    slots: &Slots,
    frames: &mut Vec<LuaFrame<'a>>,
    heap: &mut Heap,
    budget: &mut Budget,
    list: &'a [NodeId],
    scope: Scope,
    out: Values,
) -> Result<LuaStep, NoMemory>
    requires { ArePaths (items_of tree.now) slots.now }
    ensures means { IfOk result (λ step.
        Goes (items_of tree.now) frames.old.items (model.statements list.now scope out Give) heap.old budget.old
        frames.new.items step heap.new budget.new) }
    ensures kept { OnOk result (KeepsHeap heap.old heap.new) }
{
    match list.split_first() {
        None => Ok(Step::Return(End::Fell(out))),
        Some((first, rest)) => {
            frames.push(LuaFrame::Block(rest, scope, out))?;
            if !budget.pay(1) {
                return Ok(Step::Spent);
            }
            statement(tree, slots, frames, heap, budget, *first, scope)
        }
    }
}

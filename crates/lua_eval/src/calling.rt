// Calls of functions of Lua code that are executed at once, as far as their statements are.

ghost use Rattle.std.specs.Prelude.{◌≡◌, ◌≤◌, ◌<◌, ℕ, List, [], IfSome, IfNone, IfOk, OnOk};
ghost use Rattle.tl_tree.specs.Arena.{items_of};
ghost use Rattle.tl_tree.specs.Code.{Items};
ghost use Rattle.tl_base.specs.Plan.{Give, Do};
ghost use Rattle.tl_base.specs.declared.ids.NodeId as ids;
ghost use Rattle.tl_base.specs.declared.place.Place as places;
ghost use Rattle.lua_value.specs.declared.value.Value as value_types;
ghost use Rattle.lua_table.specs.LuaState.{LuaState};
ghost use Rattle.lua_table.specs.Keeping.{KeepsHeap};
ghost use Rattle.lua_model.specs.declared.end.End as ends;
ghost use Rattle.lua_model.specs.declared.job.Job.TheVariants as jobs;
ghost use Rattle.lua_model.specs.Calls as plans;
ghost use Rattle.lua_model.specs.Expressions.{call_plan, expression_plan};
ghost use Rattle.lua_model.specs.Plans.{LuaPlan, statements, values_of};
ghost use Rattle.lua_eval.specs.AtOnce.{Becomes};
ghost use Rattle.lua_eval.specs.Called.{called_plan, inside_plan};
ghost use Rattle.lua_eval.specs.Slots.{ArePaths};
ghost use Rattle.lua_eval.specs.Steps.{Goes};

use crate::calls::{enter_call, may_call};
use crate::code::function_parts;
use crate::frame::LuaFrame;
use crate::quick::{Depth, Quick, spend};
use crate::raise::LuaStep;
use crate::running::{Halt, ended, ending, go_on, run};
use crate::values::one;
use lua_model::{End, Scope};
use lua_table::Heap;
use lua_value::{Value, Values};
use tl_base::{Budget, ClosureId, NoMemory, NodeId, Place, Step};
use tl_rename::Slots;
use tl_tree::code::block_statements;
use tl_tree::{Expression, Node, Tree};

/// What is left of a call, of which some was done at once. A value that it gave stands beside it, since what borrows the tree
/// holds no value.
#[derive(Clone, Copy)]
pub enum Called<'a> {
    /// Nothing is left: it gave no values.
    Nothing,
    /// Nothing is left: it gave the value beside it.
    Gave,
    /// These statements of the function are left, in this scope.
    Inside(Halt<'a>, Scope),
}

/// Executes the statements of a function that is called, at once as far as that is possible, and pays for them.
fn execute<'a>(
    tree: &'a Tree<'a>,
    slots: &Slots,
    heap: &mut Heap,
    budget: &mut Budget,
    list: &'a [NodeId],
    scope: Scope,
    given: &mut Value,
) -> Result<Called<'a>, NoMemory>
    requires { ArePaths (items_of tree.now) slots.now }
    ensures passes { IfOk result (λ called. (go : ends.End → LuaPlan) →
        Becomes (items_of tree.now) (statements list.now scope [] (λ r. plans.leave (plans.returned r) go)) heap.old budget.old
        (called_plan called given.new go) heap.new budget.new) }
    ensures kept { OnOk result (KeepsHeap heap.old heap.new) }
{
    let halt = run(tree, slots, heap, budget, list, &scope)?;
    if ended(&halt) {
        heap.end_call();
        return Ok(Called::Nothing);
    }
    let found = ending(tree, slots, heap, budget, &halt, &scope)?;
    match found {
        Some(value) => {
            heap.end_call();
            *given = value;
            Ok(Called::Gave)
        }
        None => Ok(Called::Inside(halt, scope)),
    }
}

/// Calls a function of Lua code, where one more call may be in progress, and executes its statements at once, as far as that
/// is possible.
#[inline(always)]
pub fn call_at_once<'a>(
    tree: &'a Tree<'a>,
    slots: &Slots,
    heap: &mut Heap,
    budget: &mut Budget,
    closure: ClosureId,
    args: &[Value],
    place: Place,
    given: &mut Value,
) -> Result<Called<'a>, NoMemory>
    requires slots { ArePaths (items_of tree.now) slots.now }
    requires few { heap.old.calls < 200 }
    ensures passes { IfOk result (λ called. (go : ends.End → LuaPlan) →
        Becomes (items_of tree.now) (plans.call_closure (items_of tree.now) closure args.now place go) heap.old budget.old
        (called_plan called given.new go) heap.new budget.new) }
    ensures kept { OnOk result (KeepsHeap heap.old heap.new) }
{
    let code = heap.closure(closure);
    let parts = function_parts(tree, code.function);
    heap.begin_call();
    let scope = enter_call(heap, &code, &parts, args, place)?;
    let list = block_statements(tree, parts.block);
    execute(tree, slots, heap, budget, list, scope, given)
}

#[tactic(auto, using(tl_base::proofs::Steps::pushes))]
/// Goes on with what is left of a call, with the value that it gave.
pub fn called_on<'a>(
    frames: &mut Vec<LuaFrame<'a>>,
    heap: &Heap,
    called: Called<'a>,
    given: Value,
) -> Result<LuaStep, NoMemory>
    ensures means { IfOk result (λ step. (items : Items) (s : LuaState) (left : ℕ) →
        Goes items frames.old.items (called_plan called.entry given Give) s left frames.new.items step s left) }
{
    match called {
        Called::Nothing => Ok(Step::Return(End::Many(Values::new(heap.allocator())))),
        Called::Gave => {
            let values = one(heap.allocator(), given)?;
            Ok(Step::Return(End::Many(values)))
        }
        Called::Inside(halt, scope) => inside_on(frames, heap, halt, scope),
    }
}

/// Goes on with the statements of a call that are left.
pub fn inside_on<'a>(
    frames: &mut Vec<LuaFrame<'a>>,
    heap: &Heap,
    halt: Halt<'a>,
    scope: Scope,
) -> Result<LuaStep, NoMemory>
    ensures means { IfOk result (λ step. (items : Items) (s : LuaState) (left : ℕ) →
        Goes items frames.old.items (inside_plan halt.entry scope Give) s left frames.new.items step s left) }
{
    frames.push(LuaFrame::Function)?;
    let none = Values::new(heap.allocator());
    go_on(frames, heap, halt, scope, none)
}

/// Evaluates expressions in their order at once, with so many units, behind values. It gives the units that are left.
pub fn find_all<'a>(
    tree: &'a Tree<'a>,
    slots: &Slots,
    heap: &mut Heap,
    nodes: &[NodeId],
    scope: &Scope,
    left: u64,
    values: &mut Values,
) -> Result<Option<u64>, NoMemory>
    requires { ArePaths (items_of tree.now) slots.now }
    ensures passes { IfOk result (λ r. IfSome r (λ units. (go : List value_types.Value → LuaPlan) →
        Becomes (items_of tree.now) (values_of nodes.now scope.now values.old go) heap.old left
        (go values.new) heap.old units)) }
    ensures within { IfOk result (λ r. IfSome r (λ units. units ≤ left)) }
    ensures same { heap.new ≡ heap.old }
{
    let mut rest = nodes;
    let mut units = left;
    'values: for _ in 0..nodes.len() {
        match rest.split_first() {
            None => return Ok(Some(units)),
            Some((first, behind)) => match Quick::find(tree, slots, heap, *first, scope, units) {
                None => return Ok(None),
                Some(found) => {
                    values.push(found.value)?;
                    units = found.left;
                    rest = behind;
                }
            },
        }
    }
    if rest.is_empty() {
        Ok(Some(units))
    } else {
        Ok(None)
    }
}

/// A function of Lua code with the arguments of a call, and the units that are left behind their evaluation.
#[derive(Drop)]
struct Prepared {
    closure: ClosureId,
    args: Values,
    left: u64,
}

/// The function of Lua code that a value is.
fn closure_of(value: Value) -> Option<ClosureId>
    ensures { IfSome result (λ closure. value ≡ Value.Closure closure) }
{
    match value {
        Value::Closure(closure) => Some(closure),
        _ => None,
    }
}

/// Evaluates the function and the arguments of a call at once, with so many units.
fn prepare<'a>(
    tree: &'a Tree<'a>,
    slots: &Slots,
    heap: &mut Heap,
    function: NodeId,
    arguments: &[NodeId],
    scope: &Scope,
    left: u64,
) -> Result<Option<Prepared>, NoMemory>
    requires { ArePaths (items_of tree.now) slots.now }
    ensures passes { IfOk result (λ r. IfSome r (λ prepared. (place : places.Place) →
        Becomes (items_of tree.now) (call_plan (items_of tree.now) function arguments.now place scope.now) heap.old left
        (plans.call_closure (items_of tree.now) prepared.closure prepared.args place Give) heap.old prepared.left)) }
    ensures within { IfOk result (λ r. IfSome r (λ prepared. prepared.left ≤ left)) }
    ensures same { heap.new ≡ heap.old }
{
    let Some(found) = Quick::find(tree, slots, heap, function, scope, left) else {
        return Ok(None);
    };
    let Some(closure) = closure_of(found.value) else {
        return Ok(None);
    };
    let mut args = Values::new(heap.allocator());
    let units = find_all(tree, slots, heap, arguments, scope, found.left, &mut args)?;
    match units {
        Some(left) => Ok(Some(Prepared {
            closure,
            args,
            left,
        })),
        None => Ok(None),
    }
}

/// Calls at once with so many units, and pays for it, where the function is one of Lua code and that is possible.
fn call_by<'a>(
    tree: &'a Tree<'a>,
    slots: &Slots,
    heap: &mut Heap,
    budget: &mut Budget,
    function: NodeId,
    arguments: &[NodeId],
    place: Place,
    scope: &Scope,
    left: u64,
    given: &mut Value,
) -> Result<Option<Called<'a>>, NoMemory>
    requires slots { ArePaths (items_of tree.now) slots.now }
    requires units { left ≤ budget.old }
    ensures passes { IfOk result (λ r. IfSome r (λ called.
        Becomes (items_of tree.now) (call_plan (items_of tree.now) function arguments.now place scope.now) heap.old left
        (called_plan called given.new Give) heap.new budget.new)) }
    ensures heap { IfOk result (λ r. IfNone r (heap.new ≡ heap.old)) }
    ensures budget { IfOk result (λ r. IfNone r (budget.new ≡ budget.old)) }
    ensures kept { OnOk result (KeepsHeap heap.old heap.new) }
{
    let ready = prepare(tree, slots, heap, function, arguments, scope, left)?;
    match ready {
        None => Ok(None),
        Some(prepared) => {
            if may_call(heap) {
                spend(budget, prepared.left);
                let args = prepared.args.as_slice();
                let called = call_at_once(
                    tree,
                    slots,
                    heap,
                    budget,
                    prepared.closure,
                    args,
                    place,
                    given,
                )?;
                Ok(Some(called))
            } else {
                Ok(None)
            }
        }
    }
}

/// Evaluates an expression at once with so many units, and pays for it, where it is the call of a function of Lua code and
/// that is possible.
fn call_in<'a>(
    tree: &'a Tree<'a>,
    slots: &Slots,
    heap: &mut Heap,
    budget: &mut Budget,
    expression: &'a Expression,
    place: Place,
    scope: &Scope,
    left: u64,
    given: &mut Value,
) -> Result<Option<Called<'a>>, NoMemory>
    requires slots { ArePaths (items_of tree.now) slots.now }
    requires units { left ≤ budget.old }
    ensures passes { IfOk result (λ r. IfSome r (λ called. (n : ids.NodeId) →
        Becomes (items_of tree.now) (expression_plan (items_of tree.now) expression.now n place scope.now) heap.old left
        (called_plan called given.new Give) heap.new budget.new)) }
    ensures heap { IfOk result (λ r. IfNone r (heap.new ≡ heap.old)) }
    ensures budget { IfOk result (λ r. IfNone r (budget.new ≡ budget.old)) }
    ensures kept { OnOk result (KeepsHeap heap.old heap.new) }
{
    match expression {
        Expression::Call(function, arguments) => {
            let arguments = arguments.as_slice();
            let called = call_by(
                tree, slots, heap, budget, *function, arguments, place, scope, left, given,
            )?;
            Ok(called)
        }
        _ => Ok(None),
    }
}

/// Evaluates the expression that a node is at once with so many units, and pays for it, where it is the call of a function of
/// Lua code and that is possible.
#[inline(always)]
pub fn call_of<'a>(
    tree: &'a Tree<'a>,
    slots: &Slots,
    heap: &mut Heap,
    budget: &mut Budget,
    node: NodeId,
    scope: &Scope,
    left: u64,
    given: &mut Value,
) -> Result<Option<Called<'a>>, NoMemory>
    requires slots { ArePaths (items_of tree.now) slots.now }
    requires units { left ≤ budget.old }
    ensures passes { IfOk result (λ r. IfSome r (λ called. (go : ends.End → LuaPlan) →
        Becomes (items_of tree.now) (Do (jobs.Expression node scope.now) go) heap.old left
        (called_plan called given.new go) heap.new budget.new)) }
    ensures heap { IfOk result (λ r. IfNone r (heap.new ≡ heap.old)) }
    ensures budget { IfOk result (λ r. IfNone r (budget.new ≡ budget.old)) }
    ensures kept { OnOk result (KeepsHeap heap.old heap.new) }
{
    if left == 0 {
        return Ok(None);
    }
    match tree.node(node) {
        Node::Expression(place, expression) => {
            let called = call_in(
                tree,
                slots,
                heap,
                budget,
                expression,
                *place,
                scope,
                left - 1,
                given,
            )?;
            Ok(called)
        }
        _ => Ok(None),
    }
}

// Calls (Lua 5.1 manual, section 2.5.8).

ghost use Rattle.std.specs.Prelude.{◌≡◌, ◌+◌, ◌<◌, ℕ, [], ◌∷◌, length, nat_lt, drop, codes, if◌then◌else◌, IfOk, OnOk};
ghost use Rattle.tl_tree.specs.Arena.{items_of};
ghost use Rattle.tl_tree.specs.Code.{Items};
ghost use Rattle.lua_value.specs.Values.{kind_of};
ghost use Rattle.lua_table.specs.LuaState.{LuaState};
ghost use Rattle.lua_table.specs.Keeping.{KeepsHeap};
ghost use Rattle.lua_table.specs.Metatables.{handler_at};
ghost use Rattle.lua_model.specs.Plans.{statements, raise};
ghost use Rattle.std.specs.Bool.{OnTrue};
ghost use Rattle.lua_model.specs.Calls.{most_calls, call, call_closure, call_library, call_handler};
ghost use Rattle.lua_eval.specs.Calls.{entered_state, entered_scope, call_fault};
ghost use Rattle.lua_eval.specs.Slots.{ArePaths};
ghost use Rattle.lua_eval.specs.Steps.{Goes};
ghost use Rattle.tl_base.specs.Plan.{Give};

use crate::calling::{call_at_once, called_on};
use crate::cells::{declare_all, with_cells};
use crate::code::{Parts, function_parts};
use crate::frame::LuaFrame;
use crate::raise::{LuaStep, raise};
use crate::values::with_first;
use lua_model::{Caller, End, Job, LuaQuestion, Scope};
use lua_ops::{Fault, handler_of};
use lua_table::{Closure, Heap, LibCall};
use lua_value::{Kind, Value, Values};
use tl_base::limits::MAX_LUA_CALLS;
use tl_base::{Budget, ClosureId, NoMemory, NodeId, Place, Step};
use tl_rename::Slots;
use tl_tree::Tree;
use tl_tree::code::block_statements;

/// Holds where one more call may be in progress.
pub fn may_call(heap: &Heap) -> bool
    ensures same { result ≡ nat_lt heap.now.calls most_calls }
    ensures few { OnTrue result (heap.now.calls < MAX_LUA_CALLS) }
{
    heap.calls() < MAX_LUA_CALLS
}

#[tactic(auto, using(tl_base::proofs::Steps::pushes))]
/// Executes statements in their order, of which so much was emitted before.
pub fn statements<'a>(
    frames: &mut Vec<LuaFrame<'a>>,
    list: &'a [NodeId],
    scope: Scope,
    out: Values,
) -> Result<LuaStep, NoMemory>
    ensures means { IfOk result (λ step. (items : Items) (s : LuaState) (left : ℕ) →
        Goes items frames.old.items (statements list.now scope out Give) s left frames.new.items step s left) }
{
    match list.split_first() {
        None => Ok(Step::Return(End::Fell(out))),
        Some((first, rest)) => {
            frames.push(LuaFrame::Block(rest, scope, out))?;
            Ok(Step::Enter(Job::Statement(*first, scope)))
        }
    }
}

#[tactic(auto, using(tl_base::proofs::Steps::pushes))]
/// Calls a function of the library.
pub fn call_library<'a>(
    frames: &mut Vec<LuaFrame<'a>>,
    heap: &mut Heap,
    budget: &mut Budget,
    call: LibCall,
) -> Result<LuaStep, NoMemory>
    ensures means { IfOk result (λ step. (items : Items) →
        Goes items frames.old.items (call_library call.function call.args call.place call.outer Give)
        heap.old budget.old frames.new.items step heap.new budget.new) }
    ensures kept { OnOk result (KeepsHeap heap.old heap.new) }
{
    if may_call(heap) {
        heap.begin_call();
        frames.push(LuaFrame::Library)?;
        Ok(Step::Stop(LuaQuestion::Library(call)))
    } else {
        let step = raise(heap, budget, call.place, Fault::StackOverflow)?;
        Ok(step)
    }
}

/// How many declarations a function has before its block.
fn parameter_count(parts: &Parts<'_>) -> usize
    ensures { result ≡ if parts.now.method then length parts.now.names.now + 1 else length parts.now.names.now }
{
    if parts.method {
        parts.names.len() + 1
    } else {
        parts.names.len()
    }
}

/// Calls a function of Lua code.
pub fn call_closure<'a>(
    tree: &'a Tree<'a>,
    frames: &mut Vec<LuaFrame<'a>>,
    heap: &mut Heap,
    budget: &mut Budget,
    closure: ClosureId,
    args: Values,
    place: Place,
) -> Result<LuaStep, NoMemory>
    ensures means { IfOk result (λ step.
        Goes (items_of tree.now) frames.old.items (call_closure (items_of tree.now) closure args place Give)
        heap.old budget.old frames.new.items step heap.new budget.new) }
    ensures kept { OnOk result (KeepsHeap heap.old heap.new) }
{
    if may_call(heap) {
        let code = heap.closure(closure);
        let parts = function_parts(tree, code.function);
        heap.begin_call();
        let scope = enter_call(heap, &code, &parts, args.as_slice(), place)?;
        frames.push(LuaFrame::Function)?;
        let none = Values::new(heap.allocator());
        let entered = statements(frames, block_statements(tree, parts.block), scope, none)?;
        Ok(entered)
    } else {
        let step = raise(heap, budget, place, Fault::StackOverflow)?;
        Ok(step)
    }
}

/// Calls a function of Lua code, and executes its statements at once, as far as that is possible.
pub fn enter_closure<'a>(
    tree: &'a Tree<'a>,
    slots: &Slots,
    frames: &mut Vec<LuaFrame<'a>>,
    heap: &mut Heap,
    budget: &mut Budget,
    closure: ClosureId,
    args: Values,
    place: Place,
) -> Result<LuaStep, NoMemory>
    requires { ArePaths (items_of tree.now) slots.now }
    ensures means { IfOk result (λ step.
        Goes (items_of tree.now) frames.old.items (call_closure (items_of tree.now) closure args place Give)
        heap.old budget.old frames.new.items step heap.new budget.new) }
    ensures kept { OnOk result (KeepsHeap heap.old heap.new) }
{
    if may_call(heap) {
        let args = args.as_slice();
        let mut given = Value::Nil;
        let called = call_at_once(tree, slots, heap, budget, closure, args, place, &mut given)?;
        called_on(frames, heap, called, given)
    } else {
        let step = raise(heap, budget, place, Fault::StackOverflow)?;
        Ok(step)
    }
}

/// Makes the environment of a call in progress, with the parameters, and puts the values of `...` into cells.
#[tactic(auto, using(lua_table::proofs::Keeping::keeps_env, lua_table::proofs::Keeping::keeps_then))]
#[inline(always)]
pub fn enter_call(
    heap: &mut Heap,
    code: &Closure,
    parts: &Parts<'_>,
    args: &[Value],
    place: Place,
) -> Result<Scope, NoMemory>
    ensures scope { IfOk result (λ scope. scope ≡ entered_scope parts.now.method parts.now.names.now parts.now.variadic
        code.now args.now place heap.old) }
    ensures heap { OnOk result (heap.new ≡ entered_state parts.now.method parts.now.names.now parts.now.variadic
        code.now args.now heap.old) }
    ensures kept { OnOk result (KeepsHeap heap.old heap.new) }
{
    let count = parameter_count(parts);
    let env = heap.new_env(code.function, Some(code.env))?;
    declare_all(heap, count, env, args)?;
    let extra = heap.next_cell();
    let more = extras(args, parts.variadic, count);
    with_cells(heap, more)?;
    Ok(Scope {
        env,
        extra,
        count: more.len() as u64,
        call: Some(place),
    })
}

/// The values of `...`.
fn extras(values: &[Value], variadic: bool, count: usize) -> &[Value]
    ensures { result.now ≡ if variadic then drop count values.now else [] }
{
    if variadic && count <= values.len() {
        &values[count..]
    } else {
        &[]
    }
}

#[tactic(auto, using(tl_base::proofs::Steps::pushes))]
/// Calls the handler of a table, which must be a function.
fn call_handler<'a>(
    frames: &mut Vec<LuaFrame<'a>>,
    heap: &mut Heap,
    budget: &mut Budget,
    handler: Value,
    args: Values,
    place: Place,
    outer: Option<Place>,
) -> Result<LuaStep, NoMemory>
    ensures means { IfOk result (λ step. (items : Items) →
        Goes items frames.old.items
        (call_handler handler args place outer Give (raise place (Fault.Call Kind.Table)))
        heap.old budget.old frames.new.items step heap.new budget.new) }
    ensures kept { OnOk result (KeepsHeap heap.old heap.new) }
{
    match handler {
        Value::Closure(closure) => Ok(Step::Enter(Job::Callback(closure, args, place))),
        Value::Library(function) => {
            let call = LibCall {
                function,
                args,
                place,
                outer,
            };
            let step = call_library(frames, heap, budget, call)?;
            Ok(step)
        }
        _ => {
            let step = raise(heap, budget, place, Fault::Call(Kind::Table))?;
            Ok(step)
        }
    }
}

/// What the call of a value raises that is no function of the source or the library and no table. Lua code can't call Terra's
/// primitives.
fn call_fault(function: &Value) -> Fault
    ensures { result ≡ call_fault function.now }
{
    match function {
        Value::Primitive(_) => Fault::CallsTerra,
        _ => Fault::Call(function.kind()),
    }
}

#[tactic(auto, using(tl_base::proofs::Steps::pushes))]
/// Calls a value.
pub fn call<'a>(
    tree: &'a Tree<'a>,
    frames: &mut Vec<LuaFrame<'a>>,
    heap: &mut Heap,
    budget: &mut Budget,
    by: Caller,
    function: Value,
    args: Values,
    place: Place,
    outer: Option<Place>,
) -> Result<LuaStep, NoMemory>
    ensures means { IfOk result (λ step.
        Goes (items_of tree.now) frames.old.items (call (items_of tree.now) by function args place outer Give)
        heap.old budget.old frames.new.items step heap.new budget.new) }
    ensures kept { OnOk result (KeepsHeap heap.old heap.new) }
{
    match function {
        Value::Closure(closure) => match by {
            Caller::ByNode => {
                let step = call_closure(tree, frames, heap, budget, closure, args, place)?;
                Ok(step)
            }
            Caller::ByOther => Ok(Step::Enter(Job::Callback(closure, args, place))),
        },
        Value::Library(function) => {
            let call = LibCall {
                function,
                args,
                place,
                outer,
            };
            let step = call_library(frames, heap, budget, call)?;
            Ok(step)
        }
        Value::Table(_) => {
            let handler = handler_of(heap, &function, "__call");
            let args = with_first(heap.allocator(), function, args.as_slice())?;
            let step = call_handler(frames, heap, budget, handler, args, place, outer)?;
            Ok(step)
        }
        Value::TerraFunction(function) => {
            Ok(Step::Stop(LuaQuestion::Terra(function, args, place)))
        }
        _ => {
            let step = raise(heap, budget, place, call_fault(&function))?;
            Ok(step)
        }
    }
}

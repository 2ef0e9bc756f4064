// What is called, with the object of a method, evaluated in front of its arguments (Lua 5.1 manual, section 2.5.8), and
// operands that may be calls.

ghost use Rattle.std.specs.Prelude.{◌≡◌, IfOk, IfSome, IfNone, OnOk};
ghost use Rattle.tl_base.specs.Plan.{Do, Give};
ghost use Rattle.lua_model.specs.declared.job.Job.TheVariants as jobs;
ghost use Rattle.lua_model.specs.declared.end.End.TheVariants.{One};
ghost use Rattle.lua_eval.specs.AtOnce.{EndsAtOnce};
ghost use Rattle.tl_tree.specs.Arena.{items_of};
ghost use Rattle.lua_table.specs.Keeping.{KeepsHeap};
ghost use Rattle.lua_eval.specs.Slots.{ArePaths};
ghost use Rattle.lua_eval.specs.Frames.{with_call};
ghost use Rattle.lua_eval.specs.CallPlans.{call_plan, method_call, method_plan};
ghost use Rattle.lua_eval.specs.Steps.{Goes};
ghost use Rattle.lua_eval.specs.declared.frame.LuaFrame.{LuaFrame};

use crate::fields::read_named;
use crate::frame::{CallFrame, LuaFrame, OneFrame, Then};
use crate::lists::list;
use crate::quick::{at_once, named_field, spend};
use crate::raise::LuaStep;
use crate::values::one;
use lua_model::{Job, Scope};
use lua_table::Heap;
use lua_value::{Value, Values};
use tl_base::{Budget, NoMemory, NodeId, Place, Step};
use tl_rename::Slots;
use tl_tree::code::name;
use tl_tree::{Expression, Node, Tree};

#[tactic(auto, using(tl_base::proofs::Steps::pushes))]
/// Evaluates the function of a call, at once where that is possible, and goes on with the arguments.
pub fn evaluate_call<'a>(
    tree: &'a Tree<'a>,
    slots: &Slots,
    frames: &mut Vec<LuaFrame<'a>>,
    heap: &mut Heap,
    budget: &mut Budget,
    function: NodeId,
    arguments: &'a [NodeId],
    place: Place,
    scope: Scope,
) -> Result<LuaStep, NoMemory>
    requires { ArePaths (items_of tree.now) slots.now }
    ensures means { IfOk result (λ step.
        Goes (items_of tree.now) frames.old.items
        (call_plan (items_of tree.now) function arguments.now place scope)
        heap.old budget.old frames.new.items step heap.new budget.new) }
    ensures kept { OnOk result (KeepsHeap heap.old heap.new) }
{
    match at_once(tree, slots, heap, budget, function, &scope) {
        Some(value) => {
            let none = Values::new(heap.allocator());
            let then = Then::Call(value, place);
            list(
                tree, slots, frames, heap, budget, arguments, scope, none, then,
            )
        }
        None => {
            let frame = CallFrame::Function(arguments, place, scope);
            frames.push(LuaFrame::One(OneFrame::Call(frame)))?;
            Ok(Step::Enter(Job::Expression(function, scope)))
        }
    }
}

#[tactic(auto, using(tl_base::proofs::Steps::pushes))]
/// Evaluates the object of the call of a method, at once where that is possible, and goes on with the method.
pub fn evaluate_method<'a>(
    tree: &'a Tree<'a>,
    slots: &Slots,
    frames: &mut Vec<LuaFrame<'a>>,
    heap: &mut Heap,
    budget: &mut Budget,
    object: NodeId,
    method: NodeId,
    arguments: &'a [NodeId],
    place: Place,
    scope: Scope,
) -> Result<LuaStep, NoMemory>
    requires { ArePaths (items_of tree.now) slots.now }
    ensures means { IfOk result (λ step.
        Goes (items_of tree.now) frames.old.items
        (method_plan (items_of tree.now) object method arguments.now place scope)
        heap.old budget.old frames.new.items step heap.new budget.new) }
    ensures kept { OnOk result (KeepsHeap heap.old heap.new) }
{
    match operand_at_once(tree, slots, heap, budget, object, &scope) {
        Some(value) => with_object(
            tree, slots, frames, heap, budget, method, arguments, place, scope, value,
        ),
        None => {
            let frame = CallFrame::Method(method, arguments, place, scope);
            frames.push(LuaFrame::One(OneFrame::Call(frame)))?;
            Ok(Step::Enter(Job::Expression(object, scope)))
        }
    }
}

/// Goes on with the call of a method of an object: at once with its arguments, where the object has the method itself.
fn with_object<'a>(
    tree: &'a Tree<'a>,
    slots: &Slots,
    frames: &mut Vec<LuaFrame<'a>>,
    heap: &mut Heap,
    budget: &mut Budget,
    method: NodeId,
    arguments: &'a [NodeId],
    place: Place,
    scope: Scope,
    object: Value,
) -> Result<LuaStep, NoMemory>
    requires { ArePaths (items_of tree.now) slots.now }
    ensures means { IfOk result (λ step.
        Goes (items_of tree.now) frames.old.items
        (method_call (items_of tree.now) object method arguments.now place scope)
        heap.old budget.old frames.new.items step heap.new budget.new) }
    ensures kept { OnOk result (KeepsHeap heap.old heap.new) }
{
    let text = name(tree, method).as_bytes();
    match named_field(heap, object.copy(), text, budget.left()) {
        Some(found) => {
            spend(budget, found.left);
            let function = found.value;
            let first = one(heap.allocator(), object)?;
            let then = Then::Call(function, place);
            list(
                tree, slots, frames, heap, budget, arguments, scope, first, then,
            )
        }
        None => find_method(
            tree, frames, heap, budget, method, arguments, place, scope, object,
        ),
    }
}

/// Looks for the method of an object, with a frame for the call.
fn find_method<'a>(
    tree: &'a Tree<'a>,
    frames: &mut Vec<LuaFrame<'a>>,
    heap: &mut Heap,
    budget: &mut Budget,
    method: NodeId,
    arguments: &'a [NodeId],
    place: Place,
    scope: Scope,
    object: Value,
) -> Result<LuaStep, NoMemory>
    ensures means { IfOk result (λ step.
        Goes (items_of tree.now) frames.old.items
        (method_call (items_of tree.now) object method arguments.now place scope)
        heap.old budget.old frames.new.items step heap.new budget.new) }
    ensures kept { OnOk result (KeepsHeap heap.old heap.new) }
{
    let frame = CallFrame::MethodOf(object.copy(), arguments, place, scope);
    frames.push(LuaFrame::One(OneFrame::Call(frame)))?;
    read_named(
        frames,
        heap,
        budget,
        object,
        name(tree, method).as_bytes(),
        place,
        scope.call,
    )
}

/// Evaluates an operand that isn't evaluated at once: a call is begun, and what else it is is entered.
pub fn operand<'a>(
    tree: &'a Tree<'a>,
    slots: &Slots,
    frames: &mut Vec<LuaFrame<'a>>,
    heap: &mut Heap,
    budget: &mut Budget,
    node: NodeId,
    scope: Scope,
) -> Result<LuaStep, NoMemory>
    requires { ArePaths (items_of tree.now) slots.now }
    ensures means { IfOk result (λ step.
        Goes (items_of tree.now) frames.old.items (Do (jobs.Expression node scope) Give)
        heap.old budget.old frames.new.items step heap.new budget.new) }
    ensures kept { OnOk result (KeepsHeap heap.old heap.new) }
{
    match tree.node(node) {
        Node::Expression(place, expression) => match expression {
            Expression::Call(function, arguments) => {
                if !budget.pay(1) {
                    return Ok(Step::Spent);
                }
                evaluate_call(
                    tree,
                    slots,
                    frames,
                    heap,
                    budget,
                    *function,
                    arguments.as_slice(),
                    *place,
                    scope,
                )
            }
            Expression::Method(object, name, arguments) => {
                if !budget.pay(1) {
                    return Ok(Step::Spent);
                }
                evaluate_method(
                    tree,
                    slots,
                    frames,
                    heap,
                    budget,
                    *object,
                    *name,
                    arguments.as_slice(),
                    *place,
                    scope,
                )
            }
            _ => Ok(Step::Enter(Job::Expression(node, scope))),
        },
        _ => Ok(Step::Enter(Job::Expression(node, scope))),
    }
}

/// Whether a node is a call.
fn is_call(node: &Node<'_>) -> bool {
    match node {
        Node::Expression(_, Expression::Call(_, _)) => true,
        _ => false,
    }
}

/// Evaluates an operand at once, where that is possible. A call never is.
pub fn operand_at_once<'a>(
    tree: &'a Tree<'a>,
    slots: &Slots,
    heap: &mut Heap,
    budget: &mut Budget,
    node: NodeId,
    scope: &Scope,
) -> Option<Value>
    requires { ArePaths (items_of tree.now) slots.now }
    ensures found { IfSome result (λ value.
        EndsAtOnce (items_of tree.now) (jobs.Expression node scope.now) (One value) heap.old budget.old heap.old budget.new) }
    ensures none { IfNone result (budget.new ≡ budget.old) }
    ensures same { heap.new ≡ heap.old }
{
    if is_call(tree.node(node)) {
        return None;
    }
    at_once(tree, slots, heap, budget, node, scope)
}

#[tactic(auto, using(tl_base::proofs::Steps::pushes))]
/// Goes on with a call that waited for one value.
pub fn with_call<'a>(
    tree: &'a Tree<'a>,
    slots: &Slots,
    frames: &mut Vec<LuaFrame<'a>>,
    heap: &mut Heap,
    budget: &mut Budget,
    frame: &CallFrame<'a>,
    value: Value,
) -> Result<LuaStep, NoMemory>
    requires { ArePaths (items_of tree.now) slots.now }
    ensures means { IfOk result (λ step.
        Goes (items_of tree.now) frames.old.items (with_call (items_of tree.now) frame.now value)
        heap.old budget.old frames.new.items step heap.new budget.new) }
    ensures kept { OnOk result (KeepsHeap heap.old heap.new) }
{
    match frame {
        CallFrame::Function(arguments, place, scope) => {
            let none = Values::new(heap.allocator());
            let then = Then::Call(value, *place);
            list(
                tree, slots, frames, heap, budget, *arguments, *scope, none, then,
            )
        }
        CallFrame::Method(node, arguments, place, scope) => {
            find_method(
                tree, frames, heap, budget, *node, *arguments, *place, *scope, value,
            )
        }
        CallFrame::MethodOf(object, arguments, place, scope) => {
            let first = one(heap.allocator(), object.copy())?;
            let then = Then::Call(value, *place);
            list(
                tree, slots, frames, heap, budget, *arguments, *scope, first, then,
            )
        }
    }
}

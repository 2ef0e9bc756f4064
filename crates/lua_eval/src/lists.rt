// Lists of expressions, and what is done with their values.

ghost use Rattle.std.specs.Prelude.{◌≡◌, [], ◌∷◌, ℕ, List, IfOk, OnOk};
ghost use Rattle.tl_base.specs.Plan.{Do};
ghost use Rattle.tl_tree.specs.Arena.{items_of};
ghost use Rattle.tl_tree.specs.Code.{Items};
ghost use Rattle.lua_table.specs.LuaState.{LuaState};
ghost use Rattle.lua_table.specs.Keeping.{KeepsHeap};
ghost use Rattle.lua_table.specs.Cells.{nth_value};
ghost use Rattle.lua_model.specs.Loops as plans;
ghost use Rattle.lua_eval.specs.Slots.{ArePaths};
ghost use Rattle.lua_eval.specs.Frames.{after, list_plan, then_plan};
ghost use Rattle.lua_value.specs.declared.value.Value as value_types;
ghost use Rattle.lua_model.specs.Plans.{LuaPlan, values_of};
ghost use Rattle.lua_eval.specs.AtOnce.{Becomes};
ghost use Rattle.lua_eval.specs.Steps.{Goes};

use crate::assignments::stores;
use crate::calls::{call, enter_closure};
use crate::cells::declare_all;
use crate::frame::{AllFrame, ListFrame, LuaFrame, OneFrame, Then};
use crate::loops::list_next;
use crate::quick::at_once;
use crate::raise::LuaStep;
use lua_model::{Caller, End, Job, Scope};
use lua_table::Heap;
use lua_value::{Value, Values};
use tl_base::{Budget, NoMemory, NodeId, Place, Step};
use tl_rename::Slots;
use tl_tree::Tree;

/// A value of a list, or nil.
pub fn nth(values: &[Value], at: usize) -> Value
    ensures { result ≡ nth_value values.now at }
{
    match values.get(at) {
        Some(value) => *value,
        None => Value::Nil,
    }
}

#[tactic(auto, using(tl_base::proofs::Steps::pushes))]
/// Evaluates expressions in their order behind values, and does that with all values.
pub fn list<'a>(
    tree: &'a Tree<'a>,
    slots: &Slots,
    frames: &mut Vec<LuaFrame<'a>>,
    heap: &mut Heap,
    budget: &mut Budget,
    nodes: &'a [NodeId],
    scope: Scope,
    values: Values,
    then: Then<'a>,
) -> Result<LuaStep, NoMemory>
    requires { ArePaths (items_of tree.now) slots.now }
    ensures means { IfOk result (λ step.
        Goes (items_of tree.now) frames.old.items (list_plan (items_of tree.now) nodes.now scope values then.entry)
        heap.old budget.old frames.new.items step heap.new budget.new) }
    ensures kept { OnOk result (KeepsHeap heap.old heap.new) }
{
    let mut values = values;
    let rest = values_at_once(tree, slots, heap, budget, nodes, &scope, &mut values)?;
    match rest.split_first() {
        None => { with_list(tree, slots, frames, heap, budget, scope, values, then) }
        Some((first, behind)) => {
            let frame = ListFrame {
                rest: behind,
                scope,
                values,
                then,
            };
            item(frames, *first, frame)
        }
    }
}

/// Evaluates expressions in their order at once, behind values, and pays for them. It gives those that are left, of which
/// the first isn't evaluated at once.
pub fn values_at_once<'a>(
    tree: &'a Tree<'a>,
    slots: &Slots,
    heap: &mut Heap,
    budget: &mut Budget,
    nodes: &'a [NodeId],
    scope: &Scope,
    values: &mut Values,
) -> Result<&'a [NodeId], NoMemory>
    requires { ArePaths (items_of tree.now) slots.now }
    ensures passes { IfOk result (λ rest. (go : List value_types.Value → LuaPlan) →
        Becomes (items_of tree.now) (values_of nodes.now scope.now values.old go) heap.old budget.old
        (values_of rest.now scope.now values.new go) heap.old budget.new) }
    ensures same { heap.new ≡ heap.old }
{
    let mut rest = nodes;
    'values: for _ in 0..nodes.len() {
        match rest.split_first() {
            None => return Ok(rest),
            Some((first, behind)) => match at_once(tree, slots, heap, budget, *first, scope) {
                None => return Ok(rest),
                Some(value) => {
                    values.push(value)?;
                    rest = behind;
                }
            },
        }
    }
    Ok(rest)
}

/// Enters a job below a frame, which goes on with its end.
pub fn enter_below<'a>(
    frames: &mut Vec<LuaFrame<'a>>,
    frame: LuaFrame<'a>,
    job: Job,
) -> Result<LuaStep, NoMemory>
    ensures means { IfOk result (λ step. (items : Items) (s : LuaState) (left : ℕ) →
        Goes items frames.old.items (Do job (after items frame.entry)) s left frames.new.items step s left) }
{
    frames.push(frame)?;
    Ok(Step::Enter(job))
}

/// Enters an expression of a list, with those behind it in its frame.
fn item<'a>(
    frames: &mut Vec<LuaFrame<'a>>,
    node: NodeId,
    frame: ListFrame<'a>,
) -> Result<LuaStep, NoMemory>
    ensures means { IfOk result (λ step. (items : Items) (s : LuaState) (left : ℕ) →
        Goes items frames.old.items
        (list_plan items (node ∷ frame.entry.rest.now) frame.entry.scope frame.entry.values frame.entry.then)
        s left frames.new.items step s left) }
{
    let job = Job::Expression(node, frame.scope);
    // The last one gives all its values, and any other one gives one.
    if frame.rest.is_empty() {
        let last = enter_below(frames, LuaFrame::All(AllFrame::Last(frame)), job)?;
        return Ok(last);
    }
    let entered = enter_below(frames, LuaFrame::One(OneFrame::Item(frame)), job)?;
    Ok(entered)
}

#[tactic(auto, using(tl_base::proofs::Steps::pushes))]
/// Does what is to be done with the values of a list.
pub fn with_list<'a>(
    tree: &'a Tree<'a>,
    slots: &Slots,
    frames: &mut Vec<LuaFrame<'a>>,
    heap: &mut Heap,
    budget: &mut Budget,
    scope: Scope,
    values: Values,
    then: Then<'a>,
) -> Result<LuaStep, NoMemory>
    requires { ArePaths (items_of tree.now) slots.now }
    ensures means { IfOk result (λ step.
        Goes (items_of tree.now) frames.old.items (then_plan (items_of tree.now) then.entry scope values)
        heap.old budget.old frames.new.items step heap.new budget.new) }
    ensures kept { OnOk result (KeepsHeap heap.old heap.new) }
{
    match then {
        Then::Call(function, place) => match function {
            Value::Closure(closure) => enter_closure(
                tree, slots, frames, heap, budget, closure, values, place,
            ),
            _ => call(
                tree,
                frames,
                heap,
                budget,
                Caller::ByNode,
                function,
                values,
                place,
                scope.call,
            ),
        },
        Then::Return => Ok(Step::Return(End::Returned(values, Values::new(heap.allocator())))),
        Then::Local(names) => {
            declare_all(heap, names.len(), scope.env, values.as_slice())?;
            Ok(Step::Return(End::Fell(Values::new(heap.allocator()))))
        }
        Then::Assign(targets, held) => {
            let left = targets.len() as u64;
            stores(
                tree, slots, frames, heap, budget, targets, scope, held, values, left,
            )
        }
        Then::Listed(node, names, place) => {
            let values = values.as_slice();
            first_listed(
                tree, frames, heap, budget, node, names, place, scope, values,
            )
        }
    }
}

/// Begins the turns of a generic `for`, given the values of its expressions.
fn first_listed<'a>(
    tree: &'a Tree<'a>,
    frames: &mut Vec<LuaFrame<'a>>,
    heap: &mut Heap,
    budget: &mut Budget,
    node: NodeId,
    names: &'a [NodeId],
    place: Place,
    scope: Scope,
    values: &[Value],
) -> Result<LuaStep, NoMemory>
    ensures means { IfOk result (λ step.
        Goes (items_of tree.now) frames.old.items
        (plans.list_next (items_of tree.now) node names.now place scope
        (nth_value values.now 0) (nth_value values.now 1) (nth_value values.now 2) [])
        heap.old budget.old frames.new.items step heap.new budget.new) }
    ensures kept { OnOk result (KeepsHeap heap.old heap.new) }
{
    let function = nth(values, 0);
    let state = nth(values, 1);
    let control = nth(values, 2);
    let none = Values::new(heap.allocator());
    let step = list_next(
        tree, frames, heap, budget, node, names, place, scope, function, state, control, none,
    )?;
    Ok(step)
}

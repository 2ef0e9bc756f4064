// Assignments, and what defines functions (Lua 5.1 manual, sections 2.4.3 and 2.5.9).

ghost use Rattle.std.specs.Prelude.{◌≡◌, ℕ, ◌+◌, ◌*◌, [], ◌∷◌, ◌++◌, IfOk, OnOk};
ghost use Rattle.tl_tree.specs.Arena.{items_of};
ghost use Rattle.tl_tree.specs.Nodes.{item_at};
ghost use Rattle.tl_tree.specs.Code.{Items, if_any, name_at, node_in};
ghost use Rattle.tl_tree.specs.Scopes.{binder};
ghost use Rattle.lua_table.specs.LuaState.{LuaState};
ghost use Rattle.lua_table.specs.Keeping.{KeepsHeap};
ghost use Rattle.lua_model.specs.Plans.{fell, with_text_of};
ghost use Rattle.lua_model.specs.Assignments as plans;
ghost use Rattle.lua_table.specs.Cells.{nth_value};
ghost use Rattle.lua_eval.specs.Slots.{ArePaths};
ghost use Rattle.lua_eval.specs.Paths.{is_end};
ghost use Rattle.lua_eval.specs.Stores.{store_by_path};
ghost use Rattle.lua_eval.specs.Frames.{targets_plan, define_name, with_target};
ghost use Rattle.lua_eval.specs.Steps.{Goes, Does};

use crate::cells::set_local;
use crate::direct::targets_at_once;
use crate::expressions::begin_list;
use crate::fields::{GLOBALS, read_named, store, store_named};
use crate::frame::{AllFrame, LuaFrame, OneFrame, TargetFrame, Then};
use crate::lists::nth;
use crate::raise::{LuaStep, text_value};
use crate::values::two;
use lua_model::{End, Job, Scope};
use lua_table::{Closure, Heap};
use lua_value::{Value, Values};
use tl_base::{Budget, NoMemory, NodeId, Place, Step};
use tl_rename::Slots;
use tl_tree::code::{name, place};
use tl_tree::{Node, Tree};

#[tactic(auto, using(tl_base::proofs::Steps::pushes))]
/// Evaluates the targets that are left of an assignment, then the right sides, and then stores.
pub fn targets<'a>(
    tree: &'a Tree<'a>,
    slots: &Slots,
    frames: &mut Vec<LuaFrame<'a>>,
    heap: &mut Heap,
    budget: &mut Budget,
    rest: &'a [NodeId],
    all: &'a [NodeId],
    values: &'a [NodeId],
    scope: Scope,
    held: Values,
) -> Result<LuaStep, NoMemory>
    requires { ArePaths (items_of tree.now) slots.now }
    ensures means { IfOk result (λ step.
        Goes (items_of tree.now) frames.old.items
        (targets_plan (items_of tree.now) rest.now all.now values.now scope held)
        heap.old budget.old frames.new.items step heap.new budget.new) }
    ensures kept { OnOk result (KeepsHeap heap.old heap.new) }
{
    let mut held = held;
    let rest = targets_at_once(tree, slots, heap, budget, rest, &scope, &mut held)?;
    match rest.split_first() {
        Some((first, behind)) => {
            let entered = enter_target(frames, *first, behind, all, values, scope, held)?;
            Ok(entered)
        }
        None => {
            let none = Values::new(heap.allocator());
            let then = Then::Assign(all, held);
            let step = begin_list(tree, slots, frames, heap, budget, values, scope, none, then)?;
            Ok(step)
        }
    }
}

#[tactic(auto, using(tl_base::proofs::Steps::pushes))]
/// Evaluates the target of an assignment, and then those behind it.
fn enter_target<'a>(
    frames: &mut Vec<LuaFrame<'a>>,
    first: NodeId,
    rest: &'a [NodeId],
    all: &'a [NodeId],
    values: &'a [NodeId],
    scope: Scope,
    held: Values,
) -> Result<LuaStep, NoMemory>
    ensures means { IfOk result (λ step. (items : Items) (s : LuaState) (left : ℕ) →
        Goes items frames.old.items (targets_plan items (first ∷ rest.now) all.now values.now scope held) s left
        frames.new.items step s left) }
{
    frames.push(LuaFrame::All(AllFrame::Target(rest, all, values, scope, held)))?;
    Ok(Step::Enter(Job::Target(first, scope)))
}

#[tactic(auto, using(tl_base::proofs::Steps::pushes))]
/// Stores in the first so many targets, from the last of them to the first.
pub fn stores<'a>(
    tree: &'a Tree<'a>,
    slots: &Slots,
    frames: &mut Vec<LuaFrame<'a>>,
    heap: &mut Heap,
    budget: &mut Budget,
    targets: &'a [NodeId],
    scope: Scope,
    held: Values,
    values: Values,
    left: u64,
) -> Result<LuaStep, NoMemory>
    requires { ArePaths (items_of tree.now) slots.now }
    ensures means { IfOk result (λ step.
        Goes (items_of tree.now) frames.old.items
        (plans.stores (items_of tree.now) targets.now scope held values left)
        heap.old budget.old frames.new.items step heap.new budget.new) }
    ensures kept { OnOk result (KeepsHeap heap.old heap.new) }
{
    if left == 0 {
        return Ok(Step::Return(End::Fell(Values::new(heap.allocator()))));
    }
    if left == 1 {
        let last = last_store(
            tree, slots, frames, heap, budget, targets, scope, &held, &values,
        )?;
        return Ok(last);
    }
    let at = (left - 1) as usize;
    let target = node_in(targets, at);
    let value = nth(values.as_slice(), at);
    let pair = held_at(held.as_slice(), at);
    frames.push(LuaFrame::All(AllFrame::Stores(targets, scope, held, values, left - 1)))?;
    let step = store_target(
        tree, slots, frames, heap, budget, target, scope, pair.0, pair.1, value,
    )?;
    Ok(step)
}

/// Stores in the first target, behind which nothing waits.
fn last_store<'a>(
    tree: &'a Tree<'a>,
    slots: &Slots,
    frames: &mut Vec<LuaFrame<'a>>,
    heap: &mut Heap,
    budget: &mut Budget,
    targets: &[NodeId],
    scope: Scope,
    held: &Values,
    values: &Values,
) -> Result<LuaStep, NoMemory>
    requires { ArePaths (items_of tree.now) slots.now }
    ensures means { IfOk result (λ step.
        Goes (items_of tree.now) frames.old.items (plans.stores (items_of tree.now) targets.now scope held.now values.now 1)
        heap.old budget.old frames.new.items step heap.new budget.new) }
    ensures kept { OnOk result (KeepsHeap heap.old heap.new) }
{
    let target = node_in(targets, 0);
    let value = nth(values.as_slice(), 0);
    let pair = held_at(held.as_slice(), 0);
    let step = store_target(
        tree, slots, frames, heap, budget, target, scope, pair.0, pair.1, value,
    )?;
    Ok(step)
}

/// A node of a list, or the first of the tree.
fn node_in(nodes: &[NodeId], at: usize) -> NodeId
    ensures { result ≡ node_in nodes.now at }
{
    match nodes.get(at) {
        Some(node) => *node,
        None => NodeId(0),
    }
}

/// The object and the key of a target.
#[tactic(auto, using(std::proofs::lemmas::List::get_or_past))]
fn held_at(held: &[Value], at: usize) -> (Value, Value)
    ensures object { result.0 ≡ nth_value held.now (2 * at) }
    ensures key { result.1 ≡ nth_value held.now (2 * at + 1) }
{
    if at >= held.len() {
        return (Value::Nil, Value::Nil);
    }
    (nth(held, 2 * at), nth(held, 2 * at + 1))
}

#[tactic(auto, using(tl_base::proofs::Steps::pushes))]
/// Stores a value in a target with this object and this key.
fn store_target<'a>(
    tree: &'a Tree<'a>,
    slots: &Slots,
    frames: &mut Vec<LuaFrame<'a>>,
    heap: &mut Heap,
    budget: &mut Budget,
    target: NodeId,
    scope: Scope,
    object: Value,
    key: Value,
    value: Value,
) -> Result<LuaStep, NoMemory>
    requires { ArePaths (items_of tree.now) slots.now }
    ensures means { IfOk result (λ step.
        Goes (items_of tree.now) frames.old.items
        (plans.store_target (items_of tree.now) (item_at (items_of tree.now) target) target scope object key value fell)
        heap.old budget.old frames.new.items step heap.new budget.new) }
    ensures kept { OnOk result (KeepsHeap heap.old heap.new) }
{
    match tree.node(target) {
        Node::Name(place, _, text) => {
            let step = store_name(
                tree, slots, frames, heap, budget, target, text, value, *place, scope,
            )?;
            Ok(step)
        }
        Node::Expression(place, _) => {
            let step = store(frames, heap, budget, object, key, value, *place, scope.call)?;
            Ok(step)
        }
        _ => Ok(Step::Return(End::Fell(Values::new(heap.allocator())))),
    }
}

/// Stores a value in the name that a node is.
fn store_name<'a>(
    tree: &'a Tree<'a>,
    slots: &Slots,
    frames: &mut Vec<LuaFrame<'a>>,
    heap: &mut Heap,
    budget: &mut Budget,
    target: NodeId,
    text: &str,
    value: Value,
    place: Place,
    scope: Scope,
) -> Result<LuaStep, NoMemory>
    requires { ArePaths (items_of tree.now) slots.now }
    ensures means { IfOk result (λ step.
        Goes (items_of tree.now) frames.old.items
        (plans.store_name (binder (items_of tree.now) target) text.now place scope value fell)
        heap.old budget.old frames.new.items step heap.new budget.new) }
    ensures kept { OnOk result (KeepsHeap heap.old heap.new) }
{
    let found = slots.path(target);
    let step = store_by_path(frames, heap, budget, found, text, value, place, scope)?;
    Ok(step)
}

/// Stores a value in a local at this path, or in a field of the globals where there is none.
fn store_by_path<'a>(
    frames: &mut Vec<LuaFrame<'a>>,
    heap: &mut Heap,
    budget: &mut Budget,
    path: Option<(u32, u32)>,
    text: &str,
    value: Value,
    place: Place,
    scope: Scope,
) -> Result<LuaStep, NoMemory>
    ensures means { IfOk result (λ step. (items : Items) →
        Goes items frames.old.items (store_by_path path text.now place scope value fell)
        heap.old budget.old frames.new.items step heap.new budget.new) }
    ensures kept { OnOk result (KeepsHeap heap.old heap.new) }
{
    match path {
        Some((depth, position)) => {
            set_local(heap, scope.env, depth, position, value);
            Ok(Step::Return(End::Fell(Values::new(heap.allocator()))))
        }
        None => {
            let globals = Value::Table(GLOBALS);
            let step = store_named(
                frames,
                heap,
                budget,
                globals,
                text.as_bytes(),
                value,
                place,
                scope.call,
            )?;
            Ok(step)
        }
    }
}

/// Stores the function of a node under a name alone.
pub fn define_name<'a>(
    tree: &'a Tree<'a>,
    slots: &Slots,
    frames: &mut Vec<LuaFrame<'a>>,
    heap: &mut Heap,
    budget: &mut Budget,
    target: NodeId,
    function: NodeId,
    scope: Scope,
) -> Result<LuaStep, NoMemory>
    requires { ArePaths (items_of tree.now) slots.now }
    ensures means { IfOk result (λ step.
        Goes (items_of tree.now) frames.old.items (define_name (items_of tree.now) target function scope)
        heap.old budget.old frames.new.items step heap.new budget.new) }
    ensures kept { OnOk result (KeepsHeap heap.old heap.new) }
{
    let made = heap.new_closure(Closure {
        function,
        env: scope.env,
    })?;
    let value = Value::Closure(made);
    let step = store_target(
        tree,
        slots,
        frames,
        heap,
        budget,
        target,
        scope,
        Value::Nil,
        Value::Nil,
        value,
    )?;
    Ok(step)
}

/// Holds where nothing is left of a path.
#[tactic(auto, using(crate::proofs::Listing::end_after, crate::proofs::Listing::end_of))]
fn is_end(rest: &[NodeId], method: Option<NodeId>) -> bool
    ensures { result ≡ is_end (rest.now ++ if_any method) }
{
    match method {
        Some(_) => false,
        None => rest.is_empty(),
    }
}

#[tactic(auto, using(tl_base::proofs::Steps::pushes))]
/// Goes on in a path, of which an object was read, and the names and the method are behind it.
pub fn define_in<'a>(
    tree: &'a Tree<'a>,
    frames: &mut Vec<LuaFrame<'a>>,
    heap: &mut Heap,
    budget: &mut Budget,
    rest: &'a [NodeId],
    method: Option<NodeId>,
    function: NodeId,
    scope: Scope,
    object: Value,
) -> Result<LuaStep, NoMemory>
    ensures means { IfOk result (λ step.
        Goes (items_of tree.now) frames.old.items
        (plans.define_in (items_of tree.now) (rest.now ++ if_any method) function scope object)
        heap.old budget.old frames.new.items step heap.new budget.new) }
    ensures kept { OnOk result (KeepsHeap heap.old heap.new) }
{
    match rest.split_first() {
        None => {
            let step = define_method(tree, frames, heap, budget, method, function, scope, object)?;
            Ok(step)
        }
        Some((first, rest)) => {
            let step = define_next(
                tree, frames, heap, budget, *first, rest, method, function, scope, object,
            )?;
            Ok(step)
        }
    }
}

#[tactic(auto, using(tl_base::proofs::Steps::pushes))]
/// Goes on in a path, of which the method alone is left, or nothing.
fn define_method<'a>(
    tree: &'a Tree<'a>,
    frames: &mut Vec<LuaFrame<'a>>,
    heap: &mut Heap,
    budget: &mut Budget,
    method: Option<NodeId>,
    function: NodeId,
    scope: Scope,
    object: Value,
) -> Result<LuaStep, NoMemory>
    ensures means { IfOk result (λ step.
        Goes (items_of tree.now) frames.old.items
        (plans.define_in (items_of tree.now) (if_any method) function scope object)
        heap.old budget.old frames.new.items step heap.new budget.new) }
    ensures kept { OnOk result (KeepsHeap heap.old heap.new) }
{
    match method {
        Some(last) => {
            let step = define_last(tree, frames, heap, budget, last, function, scope, object)?;
            Ok(step)
        }
        None => Ok(Step::Return(End::Fell(Values::new(heap.allocator())))),
    }
}

/// Goes on in a path at a name, which is the last one or is read.
fn define_next<'a>(
    tree: &'a Tree<'a>,
    frames: &mut Vec<LuaFrame<'a>>,
    heap: &mut Heap,
    budget: &mut Budget,
    first: NodeId,
    rest: &'a [NodeId],
    method: Option<NodeId>,
    function: NodeId,
    scope: Scope,
    object: Value,
) -> Result<LuaStep, NoMemory>
    ensures means { IfOk result (λ step.
        Goes (items_of tree.now) frames.old.items
        (plans.define_in (items_of tree.now) (first ∷ (rest.now ++ if_any method)) function scope object)
        heap.old budget.old frames.new.items step heap.new budget.new) }
    ensures kept { OnOk result (KeepsHeap heap.old heap.new) }
{
    if is_end(rest, method) {
        let step = define_last(tree, frames, heap, budget, first, function, scope, object)?;
        return Ok(step);
    }
    frames.push(LuaFrame::One(OneFrame::Target(TargetFrame::Path(rest, method, function, scope))))?;
    let place = place(tree, first);
    let text = name(tree, first);
    let found = read_named(
        frames,
        heap,
        budget,
        object,
        text.as_bytes(),
        place,
        scope.call,
    )?;
    Ok(found)
}

/// Stores the function of a node under the last name of a path.
fn define_last<'a>(
    tree: &'a Tree<'a>,
    frames: &mut Vec<LuaFrame<'a>>,
    heap: &mut Heap,
    budget: &mut Budget,
    last: NodeId,
    function: NodeId,
    scope: Scope,
    object: Value,
) -> Result<LuaStep, NoMemory>
    ensures means { IfOk result (λ step.
        Goes (items_of tree.now) frames.old.items
        (plans.define_in (items_of tree.now) (last ∷ []) function scope object)
        heap.old budget.old frames.new.items step heap.new budget.new) }
    ensures kept { OnOk result (KeepsHeap heap.old heap.new) }
{
    let made = heap.new_closure(Closure {
        function,
        env: scope.env,
    })?;
    let place = place(tree, last);
    let value = Value::Closure(made);
    let step = store_named(
        frames,
        heap,
        budget,
        object,
        name(tree, last).as_bytes(),
        value,
        place,
        scope.call,
    )?;
    Ok(step)
}

#[tactic(auto, using(tl_base::proofs::Steps::pushes))]
/// Defines the function of a node under a path.
pub fn define<'a>(
    frames: &mut Vec<LuaFrame<'a>>,
    heap: &Heap,
    names: &'a [NodeId],
    method: Option<NodeId>,
    function: NodeId,
    scope: Scope,
) -> Result<LuaStep, NoMemory>
    ensures means { IfOk result (λ step. (items : Items) (s : LuaState) (left : ℕ) →
        Goes items frames.old.items (plans.define items (names.now ++ if_any method) function scope) s left
        frames.new.items step s left) }
{
    match names.split_first() {
        None => {
            let step = define_alone(frames, heap, method, function, scope)?;
            Ok(step)
        }
        Some((first, rest)) => {
            let step = define_from(frames, *first, rest, method, function, scope)?;
            Ok(step)
        }
    }
}

#[tactic(auto, using(tl_base::proofs::Steps::pushes))]
/// Defines a function under a path that has a method's name alone, or nothing.
fn define_alone<'a>(
    frames: &mut Vec<LuaFrame<'a>>,
    heap: &Heap,
    method: Option<NodeId>,
    function: NodeId,
    scope: Scope,
) -> Result<LuaStep, NoMemory>
    ensures means { IfOk result (λ step. (items : Items) (s : LuaState) (left : ℕ) →
        Goes items frames.old.items (plans.define items (if_any method) function scope) s left
        frames.new.items step s left) }
{
    match method {
        Some(last) => {
            let step = define_first(frames, last, function, scope)?;
            Ok(step)
        }
        None => Ok(Step::Return(End::Fell(Values::new(heap.allocator())))),
    }
}

/// Defines a function under a path from its first name on.
fn define_from<'a>(
    frames: &mut Vec<LuaFrame<'a>>,
    first: NodeId,
    rest: &'a [NodeId],
    method: Option<NodeId>,
    function: NodeId,
    scope: Scope,
) -> Result<LuaStep, NoMemory>
    ensures means { IfOk result (λ step. (items : Items) (s : LuaState) (left : ℕ) →
        Goes items frames.old.items (plans.define items (first ∷ (rest.now ++ if_any method)) function scope) s left
        frames.new.items step s left) }
{
    if is_end(rest, method) {
        let step = define_first(frames, first, function, scope)?;
        return Ok(step);
    }
    frames.push(LuaFrame::One(OneFrame::Target(TargetFrame::Path(rest, method, function, scope))))?;
    Ok(Step::Enter(Job::Expression(first, scope)))
}

/// Begins to define a function under a name alone.
fn define_first<'a>(
    frames: &mut Vec<LuaFrame<'a>>,
    first: NodeId,
    function: NodeId,
    scope: Scope,
) -> Result<LuaStep, NoMemory>
    ensures means { IfOk result (λ step. (items : Items) (s : LuaState) (left : ℕ) →
        Goes items frames.old.items (plans.define items (first ∷ []) function scope) s left
        frames.new.items step s left) }
{
    frames.push(LuaFrame::All(AllFrame::Name(first, function, scope)))?;
    Ok(Step::Enter(Job::Target(first, scope)))
}

/// Gives the object and the key of a target.
pub fn held(heap: &Heap, object: Value, key: Value) -> Result<LuaStep, NoMemory>
    ensures means { IfOk result (λ step. (items : Items) (s : LuaState) (left : ℕ) →
        Does items (plans.held object key) s left step s left) }
{
    let values = two(heap.allocator(), object, key)?;
    Ok(Step::Return(End::Many(values)))
}

/// Gives the object and the key of a target that is a selection of a name.
fn held_under<'a>(
    tree: &'a Tree<'a>,
    heap: &mut Heap,
    node: NodeId,
    object: Value,
) -> Result<LuaStep, NoMemory>
    ensures means { IfOk result (λ step. (left : ℕ) →
        Does (items_of tree.now) (with_text_of (name_at (items_of tree.now) node) (λ key. plans.held object key))
        heap.old left step heap.new left) }
    ensures kept { OnOk result (KeepsHeap heap.old heap.new) }
{
    let text = name(tree, node);
    let key = text_value(heap, text.as_bytes())?;
    let step = held(heap, object, key)?;
    Ok(step)
}

#[tactic(auto, using(tl_base::proofs::Steps::pushes))]
/// Goes on with a target, of which something was evaluated.
pub fn with_target<'a>(
    tree: &'a Tree<'a>,
    frames: &mut Vec<LuaFrame<'a>>,
    heap: &mut Heap,
    budget: &mut Budget,
    frame: &TargetFrame<'a>,
    value: Value,
) -> Result<LuaStep, NoMemory>
    ensures means { IfOk result (λ step.
        Goes (items_of tree.now) frames.old.items (with_target (items_of tree.now) frame.now value)
        heap.old budget.old frames.new.items step heap.new budget.new) }
    ensures kept { OnOk result (KeepsHeap heap.old heap.new) }
{
    match frame {
        TargetFrame::Object(key, scope) => {
            frames.push(LuaFrame::One(OneFrame::Target(TargetFrame::Key(value))))?;
            Ok(Step::Enter(Job::Expression(*key, *scope)))
        }
        TargetFrame::Key(object) => {
            let step = held(heap, object.copy(), value)?;
            Ok(step)
        }
        TargetFrame::Select(node) => {
            let step = held_under(tree, heap, *node, value)?;
            Ok(step)
        }
        TargetFrame::Path(rest, method, function, scope) => {
            let step = define_in(
                tree, frames, heap, budget, rest, *method, *function, *scope, value,
            )?;
            Ok(step)
        }
    }
}

// Assignments that are executed at once.

ghost use Rattle.std.specs.Prelude.{◌≡◌, ◌≤◌, [], ◌∷◌, true, false, IfSome, IfOk, OnOk};
ghost use Rattle.tl_tree.specs.Arena.{items_of};
ghost use Rattle.lua_table.specs.Keeping.{KeepsHeap};
ghost use Rattle.lua_model.specs.Assignments as plans;
ghost use Rattle.lua_model.specs.Plans.{fell};
ghost use Rattle.lua_eval.specs.AtOnce.{Becomes};
ghost use Rattle.lua_eval.specs.Slots.{ArePaths};
ghost use Rattle.lua_eval.specs.Storing.{HasKey, IsBare, put_in, put_both, field_takes, takes};

use crate::cells::set_local;
use crate::direct::{Spot, aim};
use crate::quick::{Depth, Quick, spend};
use lua_model::Scope;
use lua_table::Heap;
use lua_value::Value;
use tl_base::{Budget, NoMemory, NodeId, TableId};
use tl_rename::Slots;
use tl_tree::Tree;

/// Holds where a store under a key of a table asks no handler. It may also be false where none is asked.
fn takes_field(heap: &Heap, table: TableId, key: Value) -> bool
    ensures { result ≡ true → field_takes heap.now table key ≡ true }
{
    match heap.metatable(table) {
        None => true,
        Some(_) => !heap.get(table, key).is_nil(),
    }
}

/// Holds where a store in a spot asks no handler. It may also be false where none is asked.
fn takes(heap: &Heap, spot: Spot) -> bool
    ensures { result ≡ true → takes heap.now spot ≡ true }
{
    match spot {
        Spot::Local(_, _) => true,
        Spot::Field(table, key) => takes_field(heap, table, key),
    }
}

/// Stores a value in a spot.
#[inline(always)]
fn put(heap: &mut Heap, scope: &Scope, spot: Spot, value: Value) -> Result<(), NoMemory>
    requires { HasKey spot }
    ensures ok { OnOk result (heap.new ≡ put_in heap.old scope.now spot value) }
    ensures kept { OnOk result (KeepsHeap heap.old heap.new) }
{
    match spot {
        Spot::Local(depth, position) => {
            set_local(heap, scope.env, depth, position, value);
            Ok(())
        }
        Spot::Field(table, key) => {
            heap.store(table, key, value)?;
            Ok(())
        }
    }
}

/// What an assignment stores and where, and the units that are left.
#[derive(Clone, Copy)]
struct Ready {
    spot: Spot,
    value: Value,
    left: u64,
}

/// Evaluates the target and the value of an assignment with so many units, where the store asks no handler.
fn prepare<'a>(
    tree: &'a Tree<'a>,
    slots: &Slots,
    heap: &mut Heap,
    target: NodeId,
    value: NodeId,
    scope: &Scope,
    left: u64,
) -> Option<Ready>
    requires { ArePaths (items_of tree.now) slots.now }
    ensures passes { IfSome result (λ ready.
        Becomes (items_of tree.now) (plans.assign_plan (items_of tree.now) (target ∷ []) (value ∷ []) scope.now) heap.old left
        fell (put_in heap.old scope.now ready.spot ready.value) ready.left) }
    ensures keyed { IfSome result (λ ready. HasKey ready.spot) }
    ensures within { IfSome result (λ ready. ready.left ≤ left) }
    ensures same { heap.new ≡ heap.old }
{
    let aimed = aim(tree, slots, heap, target, scope, left)?;
    let found = Quick::find(tree, slots, heap, value, scope, aimed.left)?;
    if takes(heap, aimed.spot) {
        Some(Ready {
            spot: aimed.spot,
            value: found.value,
            left: found.left,
        })
    } else {
        None
    }
}

/// Executes an assignment of one value to one target at once, with so many units, and pays for it, where that is possible.
fn assign_at_once<'a>(
    tree: &'a Tree<'a>,
    slots: &Slots,
    heap: &mut Heap,
    budget: &mut Budget,
    target: NodeId,
    value: NodeId,
    scope: &Scope,
    left: u64,
) -> Result<bool, NoMemory>
    requires slots { ArePaths (items_of tree.now) slots.now }
    requires units { left ≤ budget.old }
    ensures done { IfOk result (λ done. done ≡ true →
        Becomes (items_of tree.now) (plans.assign_plan (items_of tree.now) (target ∷ []) (value ∷ []) scope.now)
        heap.old left fell heap.new budget.new) }
    ensures heap { IfOk result (λ done. done ≡ false → heap.new ≡ heap.old) }
    ensures budget { IfOk result (λ done. done ≡ false → budget.new ≡ budget.old) }
    ensures kept { OnOk result (KeepsHeap heap.old heap.new) }
{
    match prepare(tree, slots, heap, target, value, scope, left) {
        Some(ready) => {
            spend(budget, ready.left);
            put(heap, scope, ready.spot, ready.value)?;
            Ok(true)
        }
        None => Ok(false),
    }
}

/// Holds where a store in a spot asks no handler, whatever is stored before it. It may also be false where none is asked.
fn is_bare(heap: &Heap, spot: Spot) -> bool
    ensures { result ≡ true → IsBare heap.now spot }
{
    match spot {
        Spot::Local(_, _) => true,
        Spot::Field(table, _) => match heap.metatable(table) {
            None => true,
            Some(_) => false,
        },
    }
}

/// Holds where stores in two spots ask no handlers. It may also be false where none is asked.
fn are_bare(heap: &Heap, first: Spot, second: Spot) -> bool
    ensures first { result ≡ true → IsBare heap.now first }
    ensures second { result ≡ true → IsBare heap.now second }
{
    if is_bare(heap, first) {
        is_bare(heap, second)
    } else {
        false
    }
}

/// What an assignment of two values to two targets stores and where, and the units that are left.
#[derive(Clone, Copy)]
struct Pair {
    first: Spot,
    second: Spot,
    one: Value,
    other: Value,
    left: u64,
}

/// Evaluates the targets and the values of an assignment with so many units, where the stores ask no handler.
fn prepare_pair<'a>(
    tree: &'a Tree<'a>,
    slots: &Slots,
    heap: &mut Heap,
    targets: (NodeId, NodeId),
    values: (NodeId, NodeId),
    scope: &Scope,
    left: u64,
) -> Option<Pair>
    requires { ArePaths (items_of tree.now) slots.now }
    ensures passes { IfSome result (λ pair.
        Becomes (items_of tree.now)
        (plans.assign_plan (items_of tree.now) (targets.0 ∷ targets.1 ∷ []) (values.0 ∷ values.1 ∷ []) scope.now) heap.old left
        fell (put_both heap.old scope.now pair.first pair.one pair.second pair.other) pair.left) }
    ensures first { IfSome result (λ pair. HasKey pair.first) }
    ensures second { IfSome result (λ pair. HasKey pair.second) }
    ensures within { IfSome result (λ pair. pair.left ≤ left) }
    ensures same { heap.new ≡ heap.old }
{
    let first = aim(tree, slots, heap, targets.0, scope, left)?;
    let second = aim(tree, slots, heap, targets.1, scope, first.left)?;
    let one = Quick::find(tree, slots, heap, values.0, scope, second.left)?;
    let other = Quick::find(tree, slots, heap, values.1, scope, one.left)?;
    if are_bare(heap, first.spot, second.spot) {
        Some(Pair {
            first: first.spot,
            second: second.spot,
            one: one.value,
            other: other.value,
            left: other.left,
        })
    } else {
        None
    }
}

/// Stores two values, the last one first.
fn put_pair(heap: &mut Heap, scope: &Scope, pair: &Pair) -> Result<(), NoMemory>
    requires first { HasKey pair.now.first }
    requires second { HasKey pair.now.second }
    ensures ok { OnOk result (heap.new ≡
        put_both heap.old scope.now pair.now.first pair.now.one pair.now.second pair.now.other) }
    ensures kept { OnOk result (KeepsHeap heap.old heap.new) }
{
    put(heap, scope, pair.second, pair.other)?;
    put(heap, scope, pair.first, pair.one)?;
    Ok(())
}

/// Executes an assignment of two values to two targets at once, with so many units, and pays for it, where that is possible.
fn assign_pair<'a>(
    tree: &'a Tree<'a>,
    slots: &Slots,
    heap: &mut Heap,
    budget: &mut Budget,
    targets: (NodeId, NodeId),
    values: (NodeId, NodeId),
    scope: &Scope,
    left: u64,
) -> Result<bool, NoMemory>
    requires slots { ArePaths (items_of tree.now) slots.now }
    requires units { left ≤ budget.old }
    ensures done { IfOk result (λ done. done ≡ true →
        Becomes (items_of tree.now)
        (plans.assign_plan (items_of tree.now) (targets.0 ∷ targets.1 ∷ []) (values.0 ∷ values.1 ∷ []) scope.now)
        heap.old left fell heap.new budget.new) }
    ensures heap { IfOk result (λ done. done ≡ false → heap.new ≡ heap.old) }
    ensures budget { IfOk result (λ done. done ≡ false → budget.new ≡ budget.old) }
    ensures kept { OnOk result (KeepsHeap heap.old heap.new) }
{
    match prepare_pair(tree, slots, heap, targets, values, scope, left) {
        Some(pair) => {
            spend(budget, pair.left);
            put_pair(heap, scope, &pair)?;
            Ok(true)
        }
        None => Ok(false),
    }
}

/// The only node of a list.
pub fn only(nodes: &[NodeId]) -> Option<NodeId>
    ensures { IfSome result (λ node. nodes.now ≡ node ∷ []) }
{
    match nodes.split_first() {
        Some((first, rest)) => { if rest.is_empty() { Some(*first) } else { None } }
        None => None,
    }
}

/// The nodes of a list of two.
fn both_of(nodes: &[NodeId]) -> Option<(NodeId, NodeId)>
    ensures { IfSome result (λ both. nodes.now ≡ both.0 ∷ both.1 ∷ []) }
{
    match nodes.split_first() {
        Some((first, rest)) => match only(rest) {
            Some(second) => Some((*first, second)),
            None => None,
        },
        None => None,
    }
}

/// Executes an assignment at once, with so many units, and pays for it, where that is possible: it has two targets and two
/// values.
fn pair_at_once<'a>(
    tree: &'a Tree<'a>,
    slots: &Slots,
    heap: &mut Heap,
    budget: &mut Budget,
    targets: &[NodeId],
    values: &[NodeId],
    scope: &Scope,
    left: u64,
) -> Result<bool, NoMemory>
    requires slots { ArePaths (items_of tree.now) slots.now }
    requires units { left ≤ budget.old }
    ensures done { IfOk result (λ done. done ≡ true →
        Becomes (items_of tree.now) (plans.assign_plan (items_of tree.now) targets.now values.now scope.now)
        heap.old left fell heap.new budget.new) }
    ensures heap { IfOk result (λ done. done ≡ false → heap.new ≡ heap.old) }
    ensures budget { IfOk result (λ done. done ≡ false → budget.new ≡ budget.old) }
    ensures kept { OnOk result (KeepsHeap heap.old heap.new) }
{
    let Some(targets) = both_of(targets) else {
        return Ok(false);
    };
    let Some(values) = both_of(values) else {
        return Ok(false);
    };
    let done = assign_pair(tree, slots, heap, budget, targets, values, scope, left)?;
    Ok(done)
}

/// Executes an assignment at once, with so many units, and pays for it, where that is possible: it has one target and one
/// value, or two of each.
pub fn assignment_at_once<'a>(
    tree: &'a Tree<'a>,
    slots: &Slots,
    heap: &mut Heap,
    budget: &mut Budget,
    targets: &[NodeId],
    values: &[NodeId],
    scope: &Scope,
    left: u64,
) -> Result<bool, NoMemory>
    requires slots { ArePaths (items_of tree.now) slots.now }
    requires units { left ≤ budget.old }
    ensures done { IfOk result (λ done. done ≡ true →
        Becomes (items_of tree.now) (plans.assign_plan (items_of tree.now) targets.now values.now scope.now)
        heap.old left fell heap.new budget.new) }
    ensures heap { IfOk result (λ done. done ≡ false → heap.new ≡ heap.old) }
    ensures budget { IfOk result (λ done. done ≡ false → budget.new ≡ budget.old) }
    ensures kept { OnOk result (KeepsHeap heap.old heap.new) }
{
    let Some(target) = only(targets) else {
        return pair_at_once(tree, slots, heap, budget, targets, values, scope, left);
    };
    let Some(value) = only(values) else {
        return Ok(false);
    };
    let done = assign_at_once(tree, slots, heap, budget, target, value, scope, left)?;
    Ok(done)
}

// Targets of assignments that are evaluated at once.

ghost use Rattle.std.specs.Prelude.{◌≡◌, ℕ, List, [], ◌∷◌, ◌++◌, IfSome, IfNone, IfOk, OnOk};
ghost use Rattle.tl_tree.specs.Arena.{items_of};
ghost use Rattle.tl_tree.specs.Code.{Items, name_at};
ghost use Rattle.tl_base.specs.declared.machine.Step.TheVariants.{Return};
ghost use Rattle.lua_model.specs.declared.end.End.TheVariants.{Many};
ghost use Rattle.lua_model.specs.declared.job.Job.TheVariants as jobs;
ghost use Rattle.lua_model.specs.Assignments as plans;
ghost use Rattle.lua_model.specs.Plans.{LuaPlan, value_of, with_text_of};
ghost use Rattle.lua_value.specs.declared.value.Value as value_types;
ghost use Rattle.lua_eval.specs.Slots.{ArePaths};
ghost use Rattle.lua_eval.specs.Steps.{Goes};
ghost use Rattle.lua_eval.specs.AtOnce.{EndsAtOnce, Becomes};
ghost use Rattle.lua_eval.specs.Spots.{held_in};
ghost use Rattle.lua_eval.specs.Storing.{StoresIn, IsField};

use crate::quick::{Depth, Quick, spend};
use lua_model::Scope;
use lua_table::Heap;
use lua_value::{Value, Values};
use tl_base::{Budget, NoMemory, NodeId, TableId, Text};
use tl_rename::Slots;
use tl_tree::code::name;
use tl_tree::{Expression, Node, Tree};

/// Where an assignment stores.
#[derive(Clone, Copy)]
pub enum Spot {
    /// A local: how many environments outwards, and at which position there.
    Local(u32, u32),
    /// A field of a table, under a key that isn't nil.
    Field(TableId, Value),
}

/// Where an assignment stores, and the units that are left behind the evaluation of its target.
#[derive(Clone, Copy)]
pub struct Aimed {
    pub spot: Spot,
    pub left: u64,
}

/// Evaluates a target at once, with so many units: a local, or a field of a table.
#[inline(always)]
pub fn aim<'a>(
    tree: &'a Tree<'a>,
    slots: &Slots,
    heap: &mut Heap,
    node: NodeId,
    scope: &Scope,
    left: u64,
) -> Option<Aimed>
    requires { ArePaths (items_of tree.now) slots.now }
    ensures found { IfSome result (λ aimed.
        EndsAtOnce (items_of tree.now) (jobs.Target node scope.now) (Many (held_in aimed.spot)) heap.old left
        heap.old aimed.left) }
    ensures at { IfSome result (λ aimed. StoresIn (items_of tree.now) node scope.now aimed.spot) }
    ensures same { heap.new ≡ heap.old }
{
    if left == 0 {
        return None;
    }
    match tree.node(node) {
        Node::Name(_, _, _) => match slots.path(node) {
            Some((depth, position)) => Some(Aimed {
                spot: Spot::Local(depth, position),
                left: left - 1,
            }),
            None => None,
        },
        Node::Expression(_, expression) => aim_in(tree, slots, heap, expression, scope, left - 1),
        _ => None,
    }
}

/// Evaluates a target that is an expression, whose unit is paid.
fn aim_in<'a>(
    tree: &'a Tree<'a>,
    slots: &Slots,
    heap: &mut Heap,
    expression: &'a Expression,
    scope: &Scope,
    left: u64,
) -> Option<Aimed>
    requires { ArePaths (items_of tree.now) slots.now }
    ensures found { IfSome result (λ aimed.
        Goes (items_of tree.now) [] (plans.target_of (items_of tree.now) expression.now scope.now) heap.old left
        [] (Return (Many (held_in aimed.spot))) heap.old aimed.left) }
    ensures field { IfSome result (λ aimed. IsField aimed.spot) }
    ensures same { heap.new ≡ heap.old }
{
    match expression {
        Expression::Index(object, key) => aim_at(tree, slots, heap, *object, *key, scope, left),
        Expression::Select(object, key) => {
            aim_named(tree, slots, heap, *object, *key, scope, left)
        }
        _ => None,
    }
}

/// Evaluates the object and the key of a target.
fn aim_at<'a>(
    tree: &'a Tree<'a>,
    slots: &Slots,
    heap: &mut Heap,
    object: NodeId,
    key: NodeId,
    scope: &Scope,
    left: u64,
) -> Option<Aimed>
    requires { ArePaths (items_of tree.now) slots.now }
    ensures found { IfSome result (λ aimed.
        Goes (items_of tree.now) [] (value_of object scope.now (λ o. value_of key scope.now (λ k. plans.held o k))) heap.old left
        [] (Return (Many (held_in aimed.spot))) heap.old aimed.left) }
    ensures field { IfSome result (λ aimed. IsField aimed.spot) }
    ensures same { heap.new ≡ heap.old }
{
    let object = Quick::find(tree, slots, heap, object, scope, left)?;
    let key = Quick::find(tree, slots, heap, key, scope, object.left)?;
    match spot_of(object.value, key.value) {
        Some(spot) => Some(Aimed {
            spot,
            left: key.left,
        }),
        None => None,
    }
}

/// The field of a table under a key, which isn't nil.
fn spot_of(object: Value, key: Value) -> Option<Spot>
    ensures held { IfSome result (λ spot. held_in spot ≡ object ∷ key ∷ []) }
    ensures field { IfSome result (λ spot. IsField spot) }
{
    match object {
        Value::Table(table) => {
            if key.is_nil() {
                None
            } else {
                Some(Spot::Field(table, key))
            }
        }
        _ => None,
    }
}

/// Evaluates the object of a target, which is a field under a name.
fn aim_named<'a>(
    tree: &'a Tree<'a>,
    slots: &Slots,
    heap: &mut Heap,
    object: NodeId,
    key: NodeId,
    scope: &Scope,
    left: u64,
) -> Option<Aimed>
    requires { ArePaths (items_of tree.now) slots.now }
    ensures found { IfSome result (λ aimed.
        Goes (items_of tree.now) []
        (value_of object scope.now (λ o. with_text_of (name_at (items_of tree.now) key) (λ k. plans.held o k))) heap.old left
        [] (Return (Many (held_in aimed.spot))) heap.old aimed.left) }
    ensures field { IfSome result (λ aimed. IsField aimed.spot) }
    ensures same { heap.new ≡ heap.old }
{
    let object = Quick::find(tree, slots, heap, object, scope, left)?;
    match named_spot(heap, object.value, name(tree, key).as_bytes()) {
        Some(spot) => Some(Aimed {
            spot,
            left: object.left,
        }),
        None => None,
    }
}

/// The field of a table under a name, whose text the heap has.
fn named_spot(heap: &Heap, object: Value, name: &[u8]) -> Option<Spot>
    ensures found { IfSome result (λ spot. (items : Items) (left : ℕ) →
        Goes items [] (with_text_of name.now (λ k. plans.held object k)) heap.now left
        [] (Return (Many (held_in spot))) heap.now left) }
    ensures field { IfSome result (λ spot. IsField spot) }
{
    if name.len() > Text::MAX_LEN {
        return None;
    }
    match heap.find(name) {
        Some(text) => spot_of(object, Value::Text(text)),
        None => None,
    }
}

/// The object and the key of a target, which of a local are nil.
#[derive(Clone, Copy)]
pub struct Held {
    pub object: Value,
    pub key: Value,
}

/// The object and the key of a spot.
fn held_of(spot: Spot) -> Held
    ensures { result.object ∷ result.key ∷ [] ≡ held_in spot }
{
    match spot {
        Spot::Local(_, _) => Held {
            object: Value::Nil,
            key: Value::Nil,
        },
        Spot::Field(table, key) => Held {
            object: Value::Table(table),
            key,
        },
    }
}

#[tactic(auto, using(crate::proofs::AtOnce::never_gains))]
/// Evaluates a target at once and pays for it, where that is possible.
fn held_at_once<'a>(
    tree: &'a Tree<'a>,
    slots: &Slots,
    heap: &mut Heap,
    budget: &mut Budget,
    node: NodeId,
    scope: &Scope,
) -> Option<Held>
    requires { ArePaths (items_of tree.now) slots.now }
    ensures found { IfSome result (λ held.
        EndsAtOnce (items_of tree.now) (jobs.Target node scope.now) (Many (held.object ∷ held.key ∷ []))
        heap.old budget.old heap.old budget.new) }
    ensures none { IfNone result (budget.new ≡ budget.old) }
    ensures same { heap.new ≡ heap.old }
{
    match aim(tree, slots, heap, node, scope, budget.left()) {
        Some(aimed) => {
            spend(budget, aimed.left);
            Some(held_of(aimed.spot))
        }
        None => None,
    }
}

/// Puts an object and a key behind values.
fn push_held(values: &mut Values, held: Held) -> Result<(), NoMemory>
    ensures ok { OnOk result (values.new ≡ values.old ++ held.object ∷ held.key ∷ []) }
{
    values.push(held.object)?;
    values.push(held.key)?;
    Ok(())
}

/// Evaluates targets in their order at once, behind the objects and keys of others, and pays for them. It gives those that
/// are left, of which the first isn't evaluated at once.
pub fn targets_at_once<'a>(
    tree: &'a Tree<'a>,
    slots: &Slots,
    heap: &mut Heap,
    budget: &mut Budget,
    nodes: &'a [NodeId],
    scope: &Scope,
    held: &mut Values,
) -> Result<&'a [NodeId], NoMemory>
    requires { ArePaths (items_of tree.now) slots.now }
    ensures passes { IfOk result (λ rest. (go : List value_types.Value → LuaPlan) →
        Becomes (items_of tree.now) (plans.targets nodes.now scope.now held.old go) heap.old budget.old
        (plans.targets rest.now scope.now held.new go) heap.old budget.new) }
    ensures same { heap.new ≡ heap.old }
{
    let mut rest = nodes;
    'targets: for _ in 0..nodes.len() {
        match rest.split_first() {
            None => return Ok(rest),
            Some((first, behind)) => match held_at_once(tree, slots, heap, budget, *first, scope) {
                None => return Ok(rest),
                Some(pair) => {
                    push_held(held, pair)?;
                    rest = behind;
                }
            },
        }
    }
    Ok(rest)
}

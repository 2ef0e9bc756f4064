// Turns of a numeric `for` that are done at once, as far as their statements are.

ghost use Rattle.std.specs.Prelude.{◌≡◌, ℤ, List, ◌+ℤ◌, true, IfSome, IfOk, OnOk};
ghost use Rattle.tl_tree.specs.Arena.{items_of};
ghost use Rattle.tl_tree.specs.Nodes.{item_at};
ghost use Rattle.tl_base.specs.declared.ids.NodeId as ids;
ghost use Rattle.lua_value.specs.Numbers.{number_from};
ghost use Rattle.lua_value.specs.declared.value.Value as value_types;
ghost use Rattle.lua_table.specs.Keeping.{KeepsHeap};
ghost use Rattle.lua_model.specs.declared.scope.Scope as scopes;
ghost use Rattle.lua_model.specs.Loops as plans;
ghost use Rattle.lua_eval.specs.AtOnce.{Becomes};
ghost use Rattle.lua_eval.specs.Slots.{ArePaths};
ghost use Rattle.lua_eval.specs.Steps.{Goes};
ghost use Rattle.lua_eval.specs.Turns.{counted_plan, turned_plan, IsCounted, IsBlock};

use crate::cells::declare;
use crate::frame::{LuaFrame, TurnFrame};
use crate::loops::{following, runs, turn, within};
use crate::quick::spend;
use crate::raise::LuaStep;
use crate::waiting::{Stop, begin_left, ended, run_calls};
use lua_model::{End, Job, Loop, Scope};
use lua_table::Heap;
use lua_value::{Number, Value, Values};
use tl_base::{Budget, EnvId, NoMemory, NodeId, Step};
use tl_rename::Slots;
use tl_tree::code::block_statements;
use tl_tree::{Node, Statement, Tree};

/// The block of a numeric `for`.
pub fn counted_block(tree: &Tree<'_>, node: NodeId) -> Option<NodeId>
    ensures { IfSome result (λ block. IsCounted (items_of tree.now) node block) }
{
    match tree.node(node) {
        Node::Statement(_, statement) => block_in(statement),
        _ => None,
    }
}

/// The block of a statement that is a numeric `for`.
fn block_in(statement: &Statement) -> Option<NodeId>
    ensures { IfSome result (λ block. IsBlock statement.now block) }
{
    match statement {
        Statement::NumericFor(_, _, _, _, block) => Some(*block),
        _ => None,
    }
}

/// Where the turns of a numeric `for` stop that are done at once. The number of the turn stands beside it, since what borrows
/// the tree holds no number.
#[derive(Clone, Copy)]
pub enum Turned<'a> {
    /// The loop is over.
    Over,
    /// The turn with the number beside it is next.
    Before,
    /// This is left of the statements of the turn with the number beside it, in this environment.
    Inside(Stop<'a>, EnvId),
}

/// Holds where a turn is next.
fn is_before(turned: &Turned<'_>) -> bool
    ensures { result ≡ true → turned.now ≡ Turned.Before }
{
    match turned {
        Turned::Before => true,
        _ => false,
    }
}

/// What comes behind a whole turn with this number, which becomes that of the next one.
fn behind<'a>(at: &mut Number, limit: Number, by: Number) -> Turned<'a>
    ensures { (n : ids.NodeId) (scope : scopes.Scope) (out : List value_types.Value) →
        plans.count_from n scope (number_from (at.old +ℤ by)) limit by out ≡ turned_plan result at.new n scope limit by out }
{
    match following(at, &by) {
        Some(next) => {
            if runs(next, limit, by) {
                *at = next;
                Turned::Before
            } else {
                Turned::Over
            }
        }
        None => Turned::Over,
    }
}

/// Does a turn at once, as far as its statements are. Where it is done, its number becomes that of the next one.
#[inline(always)]
fn do_turn<'a>(
    tree: &'a Tree<'a>,
    slots: &Slots,
    heap: &mut Heap,
    budget: &mut Budget,
    block: NodeId,
    node: NodeId,
    scope: &Scope,
    at: &mut Number,
    limit: Number,
    by: Number,
) -> Result<Turned<'a>, NoMemory>
    requires { ArePaths (items_of tree.now) slots.now }
    ensures passes { IfOk result (λ turned. (out : List value_types.Value) →
        Becomes (items_of tree.now) (counted_plan (items_of tree.now) block node scope.now at.old limit by out) heap.old budget.old
        (turned_plan turned at.new node scope.now limit by out) heap.new budget.new) }
    ensures kept { OnOk result (KeepsHeap heap.old heap.new) }
{
    let env = heap.new_env(node, Some(scope.env))?;
    declare(heap, env, Value::Number(*at))?;
    let inner = within(*scope, env);
    let list = block_statements(tree, block);
    let stop = run_calls(tree, slots, heap, budget, list, &inner)?;
    if ended(&stop) {
        return Ok(behind(at, limit, by));
    }
    Ok(Turned::Inside(stop, env))
}

/// Does turns at once, from the one with this number on, which is paid for.
fn turns<'a>(
    tree: &'a Tree<'a>,
    slots: &Slots,
    heap: &mut Heap,
    budget: &mut Budget,
    block: NodeId,
    node: NodeId,
    scope: &Scope,
    at: &mut Number,
    limit: Number,
    by: Number,
) -> Result<Turned<'a>, NoMemory>
    requires slots { ArePaths (items_of tree.now) slots.now }
    requires counted { IsCounted (items_of tree.now) node block }
    ensures passes { IfOk result (λ turned. (out : List value_types.Value) →
        Becomes (items_of tree.now) (counted_plan (items_of tree.now) block node scope.now at.old limit by out) heap.old budget.old
        (turned_plan turned at.new node scope.now limit by out) heap.new budget.new) }
    ensures kept { OnOk result (KeepsHeap heap.old heap.new) }
{
    'turns: for _ in 0..budget.left() {
        let turned = do_turn(tree, slots, heap, budget, block, node, scope, at, limit, by)?;
        if !is_before(&turned) {
            return Ok(turned);
        }
        let units = budget.left();
        if units == 0 {
            return Ok(turned);
        }
        spend(budget, units - 1);
    }
    let last = do_turn(tree, slots, heap, budget, block, node, scope, at, limit, by)?;
    Ok(last)
}

/// Does the turns of a numeric `for`, from the one with this number on, which is paid for.
pub fn counted<'a>(
    tree: &'a Tree<'a>,
    slots: &Slots,
    frames: &mut Vec<LuaFrame<'a>>,
    heap: &mut Heap,
    budget: &mut Budget,
    block: NodeId,
    node: NodeId,
    scope: Scope,
    first: Number,
    limit: Number,
    by: Number,
    out: Values,
) -> Result<LuaStep, NoMemory>
    requires slots { ArePaths (items_of tree.now) slots.now }
    requires counted { IsCounted (items_of tree.now) node block }
    ensures means { IfOk result (λ step.
        Goes (items_of tree.now) frames.old.items (counted_plan (items_of tree.now) block node scope first limit by out)
        heap.old budget.old frames.new.items step heap.new budget.new) }
    ensures kept { OnOk result (KeepsHeap heap.old heap.new) }
{
    let mut at = first;
    let turned = turns(
        tree, slots, heap, budget, block, node, &scope, &mut at, limit, by,
    )?;
    turn_on(
        tree, slots, frames, heap, budget, turned, at, node, scope, limit, by, out,
    )
}

#[tactic(auto, using(tl_base::proofs::Steps::pushes))]
/// Goes on where turns stopped.
fn turn_on<'a>(
    tree: &'a Tree<'a>,
    slots: &Slots,
    frames: &mut Vec<LuaFrame<'a>>,
    heap: &mut Heap,
    budget: &mut Budget,
    turned: Turned<'a>,
    at: Number,
    node: NodeId,
    scope: Scope,
    limit: Number,
    by: Number,
    out: Values,
) -> Result<LuaStep, NoMemory>
    requires { ArePaths (items_of tree.now) slots.now }
    ensures means { IfOk result (λ step.
        Goes (items_of tree.now) frames.old.items (turned_plan turned.entry at node scope limit by out) heap.old budget.old
        frames.new.items step heap.new budget.new) }
    ensures kept { OnOk result (KeepsHeap heap.old heap.new) }
{
    match turned {
        Turned::Over => Ok(Step::Return(End::Fell(out))),
        Turned::Before => Ok(Step::Enter(Job::Turn(
            node,
            scope,
            Loop::Counted(at, limit, by),
            out,
        ))),
        Turned::Inside(stop, env) => {
            frames.push(LuaFrame::Turn(node, scope, TurnFrame::Counted(at, limit, by)))?;
            begin_left(
                tree,
                slots,
                frames,
                heap,
                budget,
                stop,
                within(scope, env),
                out,
            )
        }
    }
}

#[tactic(auto, using(tl_base::proofs::Steps::pushes))]
/// Does a turn of the loop that a statement is, and all later ones: those of a numeric `for` at once, as far as that is
/// possible.
pub fn begin_turn<'a>(
    tree: &'a Tree<'a>,
    slots: &Slots,
    frames: &mut Vec<LuaFrame<'a>>,
    heap: &mut Heap,
    budget: &mut Budget,
    node: NodeId,
    scope: Scope,
    kind: Loop,
    out: Values,
) -> Result<LuaStep, NoMemory>
    requires { ArePaths (items_of tree.now) slots.now }
    ensures means { IfOk result (λ step.
        Goes (items_of tree.now) frames.old.items
        (plans.turn_plan (items_of tree.now) (item_at (items_of tree.now) node) node scope kind out)
        heap.old budget.old frames.new.items step heap.new budget.new) }
    ensures kept { OnOk result (KeepsHeap heap.old heap.new) }
{
    match kind {
        Loop::Counted(at, limit, by) => match counted_block(tree, node) {
            Some(block) => {
                counted(
                    tree, slots, frames, heap, budget, block, node, scope, at, limit, by, out,
                )
            }
            None => { turn(tree, slots, frames, heap, budget, node, scope, kind, out) }
        },
        _ => { turn(tree, slots, frames, heap, budget, node, scope, kind, out) }
    }
}

// Statements that are executed at once: assignments, and what of an `if` is executed so.

ghost use Rattle.std.specs.Prelude.{◌≡◌, ◌≤◌, ◌-◌, ℕ, List, [], ◌∷◌, true, false, Option, IfSome, IfNone, IfOk, OnOk};
ghost use Rattle.tl_tree.specs.Arena.{items_of};
ghost use Rattle.tl_tree.specs.Code.{Items};
ghost use Rattle.tl_base.specs.Plan.{Give, Do};
ghost use Rattle.tl_base.specs.declared.place.Place as places;
ghost use Rattle.tl_base.specs.declared.ids.NodeId as ids;
ghost use Rattle.lua_table.specs.LuaState.{LuaState};
ghost use Rattle.lua_table.specs.Keeping.{KeepsHeap};
ghost use Rattle.lua_value.specs.declared.value.Value as value_types;
ghost use Rattle.lua_model.specs.declared.end.End as ends;
ghost use Rattle.lua_model.specs.declared.end.End.TheVariants.{Fell, One, Returned};
ghost use Rattle.lua_model.specs.declared.job.Job.TheVariants as jobs;
ghost use Rattle.lua_model.specs.declared.scope.Scope as scopes;
ghost use Rattle.lua_model.specs.Plans.{LuaPlan, fell};
ghost use Rattle.lua_model.specs.Plans as model;
ghost use Rattle.lua_model.specs.Statements as plans;
ghost use Rattle.lua_eval.specs.AtOnce.{EndsAtOnce, Becomes};
ghost use Rattle.lua_eval.specs.Running.{entered_plan, halt_plan, IsReturn, MakesFunction, Returns};
ghost use Rattle.lua_eval.specs.Slots.{ArePaths};
ghost use Rattle.lua_eval.specs.Steps.{Goes};

use crate::calling::find_all;
use crate::calls::statements;
use crate::cells::declare_all;
use crate::frame::LuaFrame;
use crate::loops::within;
use crate::quick::{Depth, Quick, spend};
use crate::raise::LuaStep;
use crate::statements::arm;
use crate::storing::{assignment_at_once, only};
use lua_model::{End, Scope};
use lua_table::{Closure, Heap};
use lua_value::{Value, Values};
use tl_base::{Budget, EnvId, NoMemory, NodeId};
use tl_rename::Slots;
use tl_tree::code::block_statements;
use tl_tree::{Expression, Node, Statement, Tree};

/// Executes an assignment at once and pays for it, where the statement is one and that is possible.
#[inline(always)]
fn assigned<'a>(
    tree: &'a Tree<'a>,
    slots: &Slots,
    heap: &mut Heap,
    budget: &mut Budget,
    node: NodeId,
    scope: &Scope,
) -> Result<bool, NoMemory>
    requires { ArePaths (items_of tree.now) slots.now }
    ensures done { IfOk result (λ done. done ≡ true →
        EndsAtOnce (items_of tree.now) (jobs.Statement node scope.now) (Fell []) heap.old budget.old heap.new budget.new) }
    ensures heap { IfOk result (λ done. done ≡ false → heap.new ≡ heap.old) }
    ensures budget { IfOk result (λ done. done ≡ false → budget.new ≡ budget.old) }
    ensures kept { OnOk result (KeepsHeap heap.old heap.new) }
{
    let units = budget.left();
    if units == 0 {
        return Ok(false);
    }
    match tree.node(node) {
        Node::Statement(_, statement) => {
            let done = assigned_by(tree, slots, heap, budget, statement, scope, units - 1)?;
            Ok(done)
        }
        _ => Ok(false),
    }
}

/// Executes an assignment at once with so many units and pays for it, where the statement is one and that is possible.
fn assigned_by<'a>(
    tree: &'a Tree<'a>,
    slots: &Slots,
    heap: &mut Heap,
    budget: &mut Budget,
    statement: &'a Statement,
    scope: &Scope,
    left: u64,
) -> Result<bool, NoMemory>
    requires slots { ArePaths (items_of tree.now) slots.now }
    requires units { left ≤ budget.old }
    ensures done { IfOk result (λ done. done ≡ true → (n : ids.NodeId) (place : places.Place) →
        Becomes (items_of tree.now) (plans.statement_of (items_of tree.now) statement.now n place scope.now)
        heap.old left fell heap.new budget.new) }
    ensures heap { IfOk result (λ done. done ≡ false → heap.new ≡ heap.old) }
    ensures budget { IfOk result (λ done. done ≡ false → budget.new ≡ budget.old) }
    ensures kept { OnOk result (KeepsHeap heap.old heap.new) }
{
    match statement {
        Statement::Assign(targets, values) => {
            let targets = targets.as_slice();
            let values = values.as_slice();
            let done = assignment_at_once(tree, slots, heap, budget, targets, values, scope, left)?;
            Ok(done)
        }
        Statement::Local(names, values) => {
            let names = names.as_slice();
            let values = values.as_slice();
            let done = local_at_once(tree, slots, heap, budget, names, values, scope, left)?;
            Ok(done)
        }
        _ => Ok(false),
    }
}

/// Declares locals at once with so many units, and pays for it, where that is possible.
#[inline(never)]
fn local_at_once<'a>(
    tree: &'a Tree<'a>,
    slots: &Slots,
    heap: &mut Heap,
    budget: &mut Budget,
    names: &[NodeId],
    values: &[NodeId],
    scope: &Scope,
    left: u64,
) -> Result<bool, NoMemory>
    requires slots { ArePaths (items_of tree.now) slots.now }
    requires units { left ≤ budget.old }
    ensures done { IfOk result (λ done. done ≡ true →
        Becomes (items_of tree.now) (plans.local_plan names.now values.now scope.now) heap.old left fell heap.new budget.new) }
    ensures heap { IfOk result (λ done. done ≡ false → heap.new ≡ heap.old) }
    ensures budget { IfOk result (λ done. done ≡ false → budget.new ≡ budget.old) }
    ensures kept { OnOk result (KeepsHeap heap.old heap.new) }
{
    match only(values) {
        Some(value) => one_local(tree, slots, heap, budget, names, value, scope, left),
        None => all_locals(tree, slots, heap, budget, names, values, scope, left),
    }
}

/// Declares locals of which the first has this value, at once with so many units, and pays for it, where that is possible.
fn one_local<'a>(
    tree: &'a Tree<'a>,
    slots: &Slots,
    heap: &mut Heap,
    budget: &mut Budget,
    names: &[NodeId],
    value: NodeId,
    scope: &Scope,
    left: u64,
) -> Result<bool, NoMemory>
    requires slots { ArePaths (items_of tree.now) slots.now }
    requires units { left ≤ budget.old }
    ensures done { IfOk result (λ done. done ≡ true →
        Becomes (items_of tree.now) (plans.local_plan names.now (value ∷ []) scope.now) heap.old left fell heap.new budget.new) }
    ensures heap { IfOk result (λ done. done ≡ false → heap.new ≡ heap.old) }
    ensures budget { IfOk result (λ done. done ≡ false → budget.new ≡ budget.old) }
    ensures kept { OnOk result (KeepsHeap heap.old heap.new) }
{
    match Quick::find(tree, slots, heap, value, scope, left) {
        None => Ok(false),
        Some(found) => {
            spend(budget, found.left);
            declare_all(heap, names.len(), scope.env, &[found.value])?;
            Ok(true)
        }
    }
}

/// Declares locals of these values, at once with so many units, and pays for it, where that is possible.
fn all_locals<'a>(
    tree: &'a Tree<'a>,
    slots: &Slots,
    heap: &mut Heap,
    budget: &mut Budget,
    names: &[NodeId],
    values: &[NodeId],
    scope: &Scope,
    left: u64,
) -> Result<bool, NoMemory>
    requires slots { ArePaths (items_of tree.now) slots.now }
    requires units { left ≤ budget.old }
    ensures done { IfOk result (λ done. done ≡ true →
        Becomes (items_of tree.now) (plans.local_plan names.now values.now scope.now) heap.old left fell heap.new budget.new) }
    ensures heap { IfOk result (λ done. done ≡ false → heap.new ≡ heap.old) }
    ensures budget { IfOk result (λ done. done ≡ false → budget.new ≡ budget.old) }
    ensures kept { OnOk result (KeepsHeap heap.old heap.new) }
{
    let mut found = Values::new(heap.allocator());
    let units = find_all(tree, slots, heap, values, scope, left, &mut found)?;
    match units {
        None => Ok(false),
        Some(units) => {
            spend(budget, units);
            declare_all(heap, names.len(), scope.env, found.as_slice())?;
            Ok(true)
        }
    }
}

/// Executes the assignments with which statements begin at once, as far as that is possible, and pays for them. It gives the
/// statements that are left.
fn flat<'a>(
    tree: &'a Tree<'a>,
    slots: &Slots,
    heap: &mut Heap,
    budget: &mut Budget,
    list: &'a [NodeId],
    scope: &Scope,
) -> Result<&'a [NodeId], NoMemory>
    requires { ArePaths (items_of tree.now) slots.now }
    ensures passes { IfOk result (λ rest. (out : List value_types.Value) (go : ends.End → LuaPlan) →
        Becomes (items_of tree.now) (model.statements list.now scope.now out go) heap.old budget.old
        (model.statements rest.now scope.now out go) heap.new budget.new) }
    ensures kept { OnOk result (KeepsHeap heap.old heap.new) }
{
    let mut rest = list;
    'flat: for _ in 0..list.len() {
        match rest.split_first() {
            None => return Ok(rest),
            Some((first, behind)) => {
                if !assigned(tree, slots, heap, budget, *first, scope)? {
                    return Ok(rest);
                }
                rest = behind;
            }
        }
    }
    Ok(rest)
}

/// The block that an `if` executes, where there is one, and the units that are left behind its conditions.
#[derive(Clone, Copy)]
struct Opened {
    block: Option<NodeId>,
    left: u64,
}

/// Evaluates the conditions of an `if` at once, up to the first that is true, with so many units.
fn find_block<'a>(
    tree: &'a Tree<'a>,
    slots: &Slots,
    heap: &mut Heap,
    list: &'a [NodeId],
    otherwise: Option<NodeId>,
    scope: &Scope,
    left: u64,
) -> Option<Opened>
    requires { ArePaths (items_of tree.now) slots.now }
    ensures passes { IfSome result (λ opened.
        Becomes (items_of tree.now) (plans.arms_plan (items_of tree.now) list.now otherwise scope.now) heap.old left
        (plans.otherwise_plan (items_of tree.now) opened.block scope.now) heap.old opened.left) }
    ensures within { IfSome result (λ opened. opened.left ≤ left) }
    ensures same { heap.new ≡ heap.old }
{
    let mut rest = list;
    let mut units = left;
    'arms: for _ in 0..list.len() {
        match rest.split_first() {
            None => {
                return Some(Opened {
                    block: otherwise,
                    left: units,
                });
            }
            Some((first, behind)) => {
                let (condition, block) = arm(tree, *first);
                match Quick::find(tree, slots, heap, condition, scope, units) {
                    None => return None,
                    Some(found) => {
                        if found.value.is_true() {
                            return Some(Opened {
                                block: Some(block),
                                left: found.left,
                            });
                        }
                        units = found.left;
                        rest = behind;
                    }
                }
            }
        }
    }
    if rest.is_empty() {
        Some(Opened {
            block: otherwise,
            left: units,
        })
    } else {
        None
    }
}

/// What is left of a statement: these statements of its block, in this environment.
#[derive(Clone, Copy)]
struct Entered<'a> {
    list: &'a [NodeId],
    env: EnvId,
}

/// Executes an `if` at once with so many units, and of its block what is executed so, and pays for it, where that is
/// possible.
fn enter_arm<'a>(
    tree: &'a Tree<'a>,
    slots: &Slots,
    heap: &mut Heap,
    budget: &mut Budget,
    list: &'a [NodeId],
    otherwise: Option<NodeId>,
    scope: &Scope,
    left: u64,
) -> Result<Option<Entered<'a>>, NoMemory>
    requires slots { ArePaths (items_of tree.now) slots.now }
    requires units { left ≤ budget.old }
    ensures passes { IfOk result (λ r. IfSome r (λ entered.
        Becomes (items_of tree.now) (plans.arms_plan (items_of tree.now) list.now otherwise scope.now) heap.old left
        (entered_plan entered scope.now Give) heap.new budget.new)) }
    ensures heap { IfOk result (λ r. IfNone r (heap.new ≡ heap.old)) }
    ensures budget { IfOk result (λ r. IfNone r (budget.new ≡ budget.old)) }
    ensures kept { OnOk result (KeepsHeap heap.old heap.new) }
{
    match find_block(tree, slots, heap, list, otherwise, scope, left) {
        None => Ok(None),
        Some(opened) => {
            spend(budget, opened.left);
            let entered = enter_block(tree, slots, heap, budget, opened.block, scope)?;
            Ok(Some(entered))
        }
    }
}

/// Enters a block, where there is one, and executes of it at once what is executed so.
fn enter_block<'a>(
    tree: &'a Tree<'a>,
    slots: &Slots,
    heap: &mut Heap,
    budget: &mut Budget,
    block: Option<NodeId>,
    scope: &Scope,
) -> Result<Entered<'a>, NoMemory>
    requires { ArePaths (items_of tree.now) slots.now }
    ensures passes { IfOk result (λ entered.
        Becomes (items_of tree.now) (plans.otherwise_plan (items_of tree.now) block scope.now) heap.old budget.old
        (entered_plan entered scope.now Give) heap.new budget.new) }
    ensures kept { OnOk result (KeepsHeap heap.old heap.new) }
{
    match block {
        None => Ok(Entered {
            list: &[],
            env: scope.env,
        }),
        Some(node) => {
            let env = heap.new_env(node, Some(scope.env))?;
            let inner = within(*scope, env);
            let list = block_statements(tree, node);
            let list = flat(tree, slots, heap, budget, list, &inner)?;
            Ok(Entered { list, env })
        }
    }
}

/// Executes an `if` at once, and of its block what is executed so, and pays for it, where the statement is one and that is
/// possible.
#[inline(never)]
fn chosen<'a>(
    tree: &'a Tree<'a>,
    slots: &Slots,
    heap: &mut Heap,
    budget: &mut Budget,
    node: NodeId,
    scope: &Scope,
) -> Result<Option<Entered<'a>>, NoMemory>
    requires { ArePaths (items_of tree.now) slots.now }
    ensures passes { IfOk result (λ r. IfSome r (λ entered. (go : ends.End → LuaPlan) →
        Becomes (items_of tree.now) (Do (jobs.Statement node scope.now) go) heap.old budget.old
        (entered_plan entered scope.now go) heap.new budget.new)) }
    ensures heap { IfOk result (λ r. IfNone r (heap.new ≡ heap.old)) }
    ensures budget { IfOk result (λ r. IfNone r (budget.new ≡ budget.old)) }
    ensures kept { OnOk result (KeepsHeap heap.old heap.new) }
{
    let units = budget.left();
    if units == 0 {
        return Ok(None);
    }
    match tree.node(node) {
        Node::Statement(_, statement) => {
            let entered = chosen_by(tree, slots, heap, budget, statement, scope, units - 1)?;
            Ok(entered)
        }
        _ => Ok(None),
    }
}

/// Executes an `if` at once with so many units, and of its block what is executed so, and pays for it, where the statement
/// is one and that is possible.
fn chosen_by<'a>(
    tree: &'a Tree<'a>,
    slots: &Slots,
    heap: &mut Heap,
    budget: &mut Budget,
    statement: &'a Statement,
    scope: &Scope,
    left: u64,
) -> Result<Option<Entered<'a>>, NoMemory>
    requires slots { ArePaths (items_of tree.now) slots.now }
    requires units { left ≤ budget.old }
    ensures passes { IfOk result (λ r. IfSome r (λ entered. (n : ids.NodeId) (place : places.Place) →
        Becomes (items_of tree.now) (plans.statement_of (items_of tree.now) statement.now n place scope.now) heap.old left
        (entered_plan entered scope.now Give) heap.new budget.new)) }
    ensures heap { IfOk result (λ r. IfNone r (heap.new ≡ heap.old)) }
    ensures budget { IfOk result (λ r. IfNone r (budget.new ≡ budget.old)) }
    ensures kept { OnOk result (KeepsHeap heap.old heap.new) }
{
    match statement {
        Statement::If(list, otherwise) => {
            let list = list.as_slice();
            let entered = enter_arm(tree, slots, heap, budget, list, *otherwise, scope, left)?;
            Ok(entered)
        }
        _ => Ok(None),
    }
}

/// What is left of statements, of which some were executed at once.
#[derive(Clone, Copy)]
pub enum Halt<'a> {
    /// These statements.
    At(&'a [NodeId]),
    /// Statements of a block inside in this environment, and those behind it.
    Within(&'a [NodeId], EnvId, &'a [NodeId]),
}

/// Holds where nothing is left of statements.
pub fn ended(halt: &Halt<'_>) -> bool
    ensures { result ≡ true → (scope : scopes.Scope) (out : List value_types.Value) (go : ends.End → LuaPlan) →
        halt_plan halt.now scope out go ≡ go (Fell out) }
{
    match halt {
        Halt::At(list) => list.is_empty(),
        Halt::Within(_, _, _) => false,
    }
}

/// Executes statements at once, as far as that is possible, and pays for them.
pub fn run<'a>(
    tree: &'a Tree<'a>,
    slots: &Slots,
    heap: &mut Heap,
    budget: &mut Budget,
    list: &'a [NodeId],
    scope: &Scope,
) -> Result<Halt<'a>, NoMemory>
    requires { ArePaths (items_of tree.now) slots.now }
    ensures passes { IfOk result (λ halt. (out : List value_types.Value) (go : ends.End → LuaPlan) →
        Becomes (items_of tree.now) (model.statements list.now scope.now out go) heap.old budget.old
        (halt_plan halt scope.now out go) heap.new budget.new) }
    ensures kept { OnOk result (KeepsHeap heap.old heap.new) }
{
    let mut rest = list;
    'ifs: for _ in 0..list.len() {
        let left = flat(tree, slots, heap, budget, rest, scope)?;
        match left.split_first() {
            None => return Ok(Halt::At(left)),
            Some((first, behind)) => {
                let entered = chosen(tree, slots, heap, budget, *first, scope)?;
                match entered {
                    None => return Ok(Halt::At(left)),
                    Some(inside) => {
                        if !inside.list.is_empty() {
                            return Ok(Halt::Within(inside.list, inside.env, behind));
                        }
                        rest = behind;
                    }
                }
            }
        }
    }
    Ok(Halt::At(rest))
}

#[tactic(auto, using(tl_base::proofs::Steps::pushes))]
/// Goes on with what is left of statements, of which so much was emitted before.
pub fn go_on<'a>(
    frames: &mut Vec<LuaFrame<'a>>,
    heap: &Heap,
    halt: Halt<'a>,
    scope: Scope,
    out: Values,
) -> Result<LuaStep, NoMemory>
    ensures means { IfOk result (λ step. (items : Items) (s : LuaState) (left : ℕ) →
        Goes items frames.old.items (halt_plan halt.entry scope out Give) s left frames.new.items step s left) }
{
    match halt {
        Halt::At(list) => { statements(frames, list, scope, out) }
        Halt::Within(inside, env, behind) => {
            frames.push(LuaFrame::Block(behind, scope, out))?;
            let none = Values::new(heap.allocator());
            statements(frames, inside, within(scope, env), none)
        }
    }
}

/// The expression of a `return` that has one.
fn returned_node(tree: &Tree<'_>, node: NodeId) -> Option<NodeId>
    ensures { IfSome result (λ value. IsReturn (items_of tree.now) node value) }
{
    match tree.node(node) {
        Node::Statement(_, statement) => returned_in(statement),
        _ => None,
    }
}

/// The expression of a statement that is a `return` with one.
fn returned_in(statement: &Statement) -> Option<NodeId>
    ensures { IfSome result (λ value. Returns statement.now value) }
{
    match statement {
        Statement::Return(values) => only(values.as_slice()),
        _ => None,
    }
}

/// The body of a function that a node makes.
fn made_function(tree: &Tree<'_>, node: NodeId) -> Option<NodeId>
    ensures { IfSome result (λ body. MakesFunction (items_of tree.now) node body) }
{
    match tree.node(node) {
        Node::Expression(_, expression) => function_in(expression),
        _ => None,
    }
}

/// The body of a function that an expression makes.
fn function_in(expression: &Expression) -> Option<NodeId>
    ensures { IfSome result (λ body. expression.now ≡ Expression.Function body) }
{
    match expression {
        Expression::Function(body) => Some(*body),
        _ => None,
    }
}

/// Evaluates an expression at once with so many units, and pays for it, where that is possible. A function is made, too.
fn result_at_once<'a>(
    tree: &'a Tree<'a>,
    slots: &Slots,
    heap: &mut Heap,
    budget: &mut Budget,
    node: NodeId,
    scope: &Scope,
    left: u64,
) -> Result<Option<Value>, NoMemory>
    requires slots { ArePaths (items_of tree.now) slots.now }
    requires units { left ≤ budget.old }
    ensures found { IfOk result (λ r. IfSome r (λ value.
        EndsAtOnce (items_of tree.now) (jobs.Expression node scope.now) (One value) heap.old left heap.new budget.new)) }
    ensures heap { IfOk result (λ r. IfNone r (heap.new ≡ heap.old)) }
    ensures budget { IfOk result (λ r. IfNone r (budget.new ≡ budget.old)) }
    ensures kept { OnOk result (KeepsHeap heap.old heap.new) }
{
    match Quick::find(tree, slots, heap, node, scope, left) {
        Some(found) => {
            spend(budget, found.left);
            Ok(Some(found.value))
        }
        None => function_at_once(tree, heap, budget, node, scope, left),
    }
}

/// Makes a function at once with so many units, and pays for it, where the node is one.
fn function_at_once<'a>(
    tree: &'a Tree<'a>,
    heap: &mut Heap,
    budget: &mut Budget,
    node: NodeId,
    scope: &Scope,
    left: u64,
) -> Result<Option<Value>, NoMemory>
    requires { left ≤ budget.old }
    ensures found { IfOk result (λ r. IfSome r (λ value.
        EndsAtOnce (items_of tree.now) (jobs.Expression node scope.now) (One value) heap.old left heap.new budget.new)) }
    ensures heap { IfOk result (λ r. IfNone r (heap.new ≡ heap.old)) }
    ensures budget { IfOk result (λ r. IfNone r (budget.new ≡ budget.old)) }
    ensures kept { OnOk result (KeepsHeap heap.old heap.new) }
{
    if left == 0 {
        return Ok(None);
    }
    match made_function(tree, node) {
        Some(function) => {
            spend(budget, left - 1);
            let env = scope.env;
            let made = heap.new_closure(Closure { function, env })?;
            Ok(Some(Value::Closure(made)))
        }
        None => Ok(None),
    }
}

/// Evaluates the one value that a `return` gives at once and pays for it, where the statement is one and that is possible.
fn returned<'a>(
    tree: &'a Tree<'a>,
    slots: &Slots,
    heap: &mut Heap,
    budget: &mut Budget,
    node: NodeId,
    scope: &Scope,
) -> Result<Option<Value>, NoMemory>
    requires { ArePaths (items_of tree.now) slots.now }
    ensures found { IfOk result (λ r. IfSome r (λ value.
        EndsAtOnce (items_of tree.now) (jobs.Statement node scope.now) (Returned (value ∷ []) []) heap.old budget.old
        heap.new budget.new)) }
    ensures heap { IfOk result (λ r. IfNone r (heap.new ≡ heap.old)) }
    ensures budget { IfOk result (λ r. IfNone r (budget.new ≡ budget.old)) }
    ensures kept { OnOk result (KeepsHeap heap.old heap.new) }
{
    let units = budget.left();
    if units == 0 {
        return Ok(None);
    }
    match returned_node(tree, node) {
        Some(value) => result_at_once(tree, slots, heap, budget, value, scope, units - 1),
        None => Ok(None),
    }
}

/// The value that statements return at once, where the first of them does.
fn first_returned<'a>(
    tree: &'a Tree<'a>,
    slots: &Slots,
    heap: &mut Heap,
    budget: &mut Budget,
    list: &'a [NodeId],
    scope: &Scope,
) -> Result<Option<Value>, NoMemory>
    requires { ArePaths (items_of tree.now) slots.now }
    ensures found { IfOk result (λ r. IfSome r (λ value. (out : List value_types.Value) (go : ends.End → LuaPlan) →
        Becomes (items_of tree.now) (model.statements list.now scope.now out go) heap.old budget.old
        (go (Returned (value ∷ []) out)) heap.new budget.new)) }
    ensures heap { IfOk result (λ r. IfNone r (heap.new ≡ heap.old)) }
    ensures budget { IfOk result (λ r. IfNone r (budget.new ≡ budget.old)) }
    ensures kept { OnOk result (KeepsHeap heap.old heap.new) }
{
    match list.split_first() {
        Some((first, _)) => returned(tree, slots, heap, budget, *first, scope),
        None => Ok(None),
    }
}

/// The value that statements return at once, of which this is left.
pub fn ending<'a>(
    tree: &'a Tree<'a>,
    slots: &Slots,
    heap: &mut Heap,
    budget: &mut Budget,
    halt: &Halt<'a>,
    scope: &Scope,
) -> Result<Option<Value>, NoMemory>
    requires { ArePaths (items_of tree.now) slots.now }
    ensures found { IfOk result (λ r. IfSome r (λ value. (out : List value_types.Value) (go : ends.End → LuaPlan) →
        Becomes (items_of tree.now) (halt_plan halt.now scope.now out go) heap.old budget.old
        (go (Returned (value ∷ []) out)) heap.new budget.new)) }
    ensures heap { IfOk result (λ r. IfNone r (heap.new ≡ heap.old)) }
    ensures budget { IfOk result (λ r. IfNone r (budget.new ≡ budget.old)) }
    ensures kept { OnOk result (KeepsHeap heap.old heap.new) }
{
    match halt {
        Halt::At(list) => first_returned(tree, slots, heap, budget, list, scope),
        Halt::Within(list, env, _) => {
            let inner = within(*scope, *env);
            first_returned(tree, slots, heap, budget, list, &inner)
        }
    }
}

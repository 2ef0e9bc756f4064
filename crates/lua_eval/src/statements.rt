// Statements (Lua 5.1 manual, section 2.4).

ghost use Rattle.std.specs.Prelude.{◌≡◌, ℕ, [], IfOk, OnOk};
ghost use Rattle.tl_tree.specs.Arena.{items_of};
ghost use Rattle.tl_tree.specs.Nodes.{item_at};
ghost use Rattle.tl_base.specs.Plan.{Give};
ghost use Rattle.tl_tree.specs.Code.{Items, path_at, arm_condition, arm_block};
ghost use Rattle.lua_table.specs.LuaState.{LuaState};
ghost use Rattle.lua_table.specs.Keeping.{KeepsHeap};
ghost use Rattle.lua_model.specs.Plans.{values_of};
ghost use Rattle.lua_model.specs.Assignments.{assign_plan, define, target_of, target_plan};
ghost use Rattle.lua_model.specs.Loops.{generic_plan};
ghost use Rattle.lua_model.specs.Loops as loop_plans;
ghost use Rattle.lua_model.specs.declared.end.End.TheVariants.{Returned};
ghost use Rattle.lua_model.specs.Statements as plans;
ghost use Rattle.lua_eval.specs.Frames.{with_statement};
ghost use Rattle.lua_eval.specs.Slots.{ArePaths};
ghost use Rattle.lua_eval.specs.Steps.{Goes, Does};
ghost use Rattle.lua_eval.specs.AtOnce.{Becomes};
ghost use Rattle.lua_eval.specs.Choices.{choice_plan};

use crate::assignments::{define, held, targets};
use crate::calls::statements;
use crate::cells::declare;
use crate::expressions::begin_list;
use crate::frame::{AllFrame, LoopFrame, LuaFrame, OneFrame, StatementFrame, TargetFrame, Then};
use crate::loops::{while_test, within};
use crate::quick::at_once;
use crate::raise::LuaStep;
use crate::values::one;
use lua_model::{End, Job, Loop, LuaQuestion, Scope};
use lua_table::{Closure, Heap};
use lua_value::{Value, Values};
use tl_base::{Budget, NoMemory, NodeId, Place, Step};
use tl_rename::Slots;
use tl_tree::code::{block_statements, path_method, path_names};
use tl_tree::{Expression, Node, NodeList, Piece, Statement, Tree};

/// Executes a block as a statement of its own.
pub fn block<'a>(
    tree: &'a Tree<'a>,
    frames: &mut Vec<LuaFrame<'a>>,
    heap: &mut Heap,
    block: NodeId,
    scope: Scope,
) -> Result<LuaStep, NoMemory>
    ensures means { IfOk result (λ step. (left : ℕ) →
        Goes (items_of tree.now) frames.old.items (plans.block_plan (items_of tree.now) block scope Give)
        heap.old left frames.new.items step heap.new left) }
    ensures kept { OnOk result (KeepsHeap heap.old heap.new) }
{
    let env = heap.new_env(block, Some(scope.env))?;
    let none = Values::new(heap.allocator());
    let step = statements(
        frames,
        block_statements(tree, block),
        within(scope, env),
        none,
    )?;
    Ok(step)
}

#[tactic(auto, using(tl_base::proofs::Steps::pushes))]
/// Goes on with the arms of an `if` that are left.
fn arms<'a>(
    tree: &'a Tree<'a>,
    frames: &mut Vec<LuaFrame<'a>>,
    heap: &mut Heap,
    rest: &'a [NodeId],
    otherwise: Option<NodeId>,
    scope: Scope,
) -> Result<LuaStep, NoMemory>
    ensures means { IfOk result (λ step. (left : ℕ) →
        Goes (items_of tree.now) frames.old.items (plans.arms_plan (items_of tree.now) rest.now otherwise scope)
        heap.old left frames.new.items step heap.new left) }
    ensures kept { OnOk result (KeepsHeap heap.old heap.new) }
{
    match rest.split_first() {
        None => {
            let step = otherwise_block(tree, frames, heap, otherwise, scope)?;
            Ok(step)
        }
        Some((first, rest)) => {
            let (condition, node) = arm(tree, *first);
            let frame = StatementFrame::Arm(node, rest, otherwise, scope);
            frames.push(LuaFrame::One(OneFrame::Statement(frame)))?;
            Ok(Step::Enter(Job::Expression(condition, scope)))
        }
    }
}

#[tactic(auto, using(tl_base::proofs::Steps::pushes))]
/// Executes the block behind `else`, where there is one.
fn otherwise_block<'a>(
    tree: &'a Tree<'a>,
    frames: &mut Vec<LuaFrame<'a>>,
    heap: &mut Heap,
    otherwise: Option<NodeId>,
    scope: Scope,
) -> Result<LuaStep, NoMemory>
    ensures means { IfOk result (λ step. (left : ℕ) →
        Goes (items_of tree.now) frames.old.items (plans.otherwise_plan (items_of tree.now) otherwise scope)
        heap.old left frames.new.items step heap.new left) }
    ensures kept { OnOk result (KeepsHeap heap.old heap.new) }
{
    match otherwise {
        Some(node) => {
            let step = block(tree, frames, heap, node, scope)?;
            Ok(step)
        }
        None => Ok(Step::Return(End::Fell(Values::new(heap.allocator())))),
    }
}

/// The condition and the block of an arm.
pub fn arm(tree: &Tree<'_>, node: NodeId) -> (NodeId, NodeId)
    ensures condition { result.0 ≡ arm_condition (item_at (items_of tree.now) node) }
    ensures block { result.1 ≡ arm_block (item_at (items_of tree.now) node) }
{
    match tree.node(node) {
        Node::Piece(Piece::Arm(condition, block)) => (*condition, *block),
        _ => (NodeId(0), NodeId(0)),
    }
}

#[tactic(auto, using(tl_base::proofs::Steps::pushes))]
/// Goes on with a statement that waited for one value.
pub fn with_statement<'a>(
    tree: &'a Tree<'a>,
    frames: &mut Vec<LuaFrame<'a>>,
    heap: &mut Heap,
    frame: StatementFrame<'a>,
    value: Value,
) -> Result<LuaStep, NoMemory>
    ensures means { IfOk result (λ step. (left : ℕ) →
        Goes (items_of tree.now) frames.old.items (with_statement (items_of tree.now) frame.entry value)
        heap.old left frames.new.items step heap.new left) }
    ensures kept { OnOk result (KeepsHeap heap.old heap.new) }
{
    match frame {
        StatementFrame::Emit => {
            let out = one(heap.allocator(), value)?;
            Ok(Step::Return(End::Fell(out)))
        }
        StatementFrame::Arm(node, rest, otherwise, scope) => {
            if value.is_true() {
                let step = block(tree, frames, heap, node, scope)?;
                Ok(step)
            } else {
                let step = arms(tree, frames, heap, rest, otherwise, scope)?;
                Ok(step)
            }
        }
    }
}

#[tactic(auto, using(tl_base::proofs::Steps::pushes))]
/// Executes the statement that a node is.
pub fn statement<'a>(
    tree: &'a Tree<'a>,
    slots: &Slots,
    frames: &mut Vec<LuaFrame<'a>>,
    heap: &mut Heap,
    budget: &mut Budget,
    node: NodeId,
    scope: Scope,
) -> Result<LuaStep, NoMemory>
    requires { ArePaths (items_of tree.now) slots.now }
    ensures means { IfOk result (λ step.
        Goes (items_of tree.now) frames.old.items
        (plans.statement_plan (items_of tree.now) (item_at (items_of tree.now) node) node scope)
        heap.old budget.old frames.new.items step heap.new budget.new) }
    ensures kept { OnOk result (KeepsHeap heap.old heap.new) }
{
    match tree.node(node) {
        Node::Statement(place, statement) => {
            execute(
                tree, slots, frames, heap, budget, statement, node, *place, scope,
            )
        }
        _ => Ok(Step::Return(End::Fell(Values::new(heap.allocator())))),
    }
}

#[tactic(auto, using(tl_base::proofs::Steps::pushes))]
fn execute<'a>(
    tree: &'a Tree<'a>,
    slots: &Slots,
    frames: &mut Vec<LuaFrame<'a>>,
    heap: &mut Heap,
    budget: &mut Budget,
    statement: &'a Statement,
    node: NodeId,
    place: Place,
    scope: Scope,
) -> Result<LuaStep, NoMemory>
    requires { ArePaths (items_of tree.now) slots.now }
    ensures means { IfOk result (λ step.
        Goes (items_of tree.now) frames.old.items
        (plans.statement_of (items_of tree.now) statement.now node place scope)
        heap.old budget.old frames.new.items step heap.new budget.new) }
    ensures kept { OnOk result (KeepsHeap heap.old heap.new) }
{
    match statement {
        Statement::Assign(all, values) => {
            assign(tree, slots, frames, heap, budget, all, values, scope)
        }
        Statement::Call(call) => {
            frames.push(LuaFrame::All(AllFrame::Done))?;
            Ok(Step::Enter(Job::Expression(*call, scope)))
        }
        Statement::Do(inner) => { block(tree, frames, heap, *inner, scope) }
        Statement::While(condition, _) => { while_first(frames, heap, node, *condition, scope) }
        Statement::Repeat(_, _) => {
            let none = Values::new(heap.allocator());
            Ok(Step::Enter(Job::Turn(node, scope, Loop::Repeat, none)))
        }
        Statement::If(list, otherwise) => {
            first_arm(tree, slots, frames, heap, budget, list, *otherwise, scope)
        }
        Statement::NumericFor(_, first, limit, step, _) => {
            let frame = LoopFrame::Initial(node, *limit, *step, place, scope);
            frames.push(LuaFrame::One(OneFrame::Loop(frame)))?;
            Ok(Step::Enter(Job::Expression(*first, scope)))
        }
        Statement::GenericFor(names, values, _) => {
            generic_for(
                tree, slots, frames, heap, budget, node, names, values, place, scope,
            )
        }
        Statement::Function(path, _) => { define_at(tree, frames, heap, *path, node, scope) }
        Statement::LocalFunction(_, body) => { local_function(heap, *body, scope) }
        Statement::Local(names, values) => {
            locals(tree, slots, frames, heap, budget, names, values, scope)
        }
        Statement::Emit(value) => {
            frames.push(LuaFrame::One(OneFrame::Statement(StatementFrame::Emit)))?;
            Ok(Step::Enter(Job::Expression(*value, scope)))
        }
        Statement::Return(values) => {
            return_values(tree, slots, frames, heap, budget, values, scope)
        }
        Statement::Break => Ok(Step::Return(End::Broke(Values::new(heap.allocator())))),
        Statement::Terra(_, _)
        | Statement::DeclareTerra(_, _)
        | Statement::LocalTerra(_, _, _)
        | Statement::LocalDeclareTerra(_, _, _)
        | Statement::Struct(_, _)
        | Statement::LocalStruct(_, _, _) => {
            frames.push(LuaFrame::All(AllFrame::Done))?;
            Ok(Step::Stop(LuaQuestion::Specialise(node, scope.env)))
        }
    }
}

/// Begins a `while`, before which nothing was emitted.
fn while_first<'a>(
    frames: &mut Vec<LuaFrame<'a>>,
    heap: &Heap,
    node: NodeId,
    condition: NodeId,
    scope: Scope,
) -> Result<LuaStep, NoMemory>
    ensures means { IfOk result (λ step. (items : Items) (s : LuaState) (left : ℕ) →
        Goes items frames.old.items (loop_plans.while_test node condition scope []) s left
        frames.new.items step s left) }
{
    let none = Values::new(heap.allocator());
    let step = while_test(frames, node, condition, scope, none)?;
    Ok(step)
}

/// What is left of an `if`.
#[derive(Clone, Copy)]
pub enum Choice<'a> {
    /// The block of an arm whose condition is true.
    Block(NodeId),
    /// These arms, and the block behind `else`.
    Arms(&'a [NodeId]),
}

/// Evaluates the conditions of an `if` at once, up to the first that is true or isn't evaluated at once, and pays for them.
fn choose<'a>(
    tree: &'a Tree<'a>,
    slots: &Slots,
    heap: &mut Heap,
    budget: &mut Budget,
    list: &'a [NodeId],
    otherwise: Option<NodeId>,
    scope: &Scope,
) -> Choice<'a>
    requires { ArePaths (items_of tree.now) slots.now }
    ensures passes { Becomes (items_of tree.now) (plans.arms_plan (items_of tree.now) list.now otherwise scope.now) heap.old budget.old
        (choice_plan (items_of tree.now) result otherwise scope.now) heap.old budget.new }
    ensures same { heap.new ≡ heap.old }
{
    let mut rest = list;
    'arms: for _ in 0..list.len() {
        match rest.split_first() {
            None => return Choice::Arms(rest),
            Some((first, behind)) => {
                let (condition, block) = arm(tree, *first);
                match at_once(tree, slots, heap, budget, condition, scope) {
                    None => return Choice::Arms(rest),
                    Some(value) => {
                        if value.is_true() {
                            return Choice::Block(block);
                        }
                        rest = behind;
                    }
                }
            }
        }
    }
    Choice::Arms(rest)
}

/// Begins with the arms of an `if`.
fn first_arm<'a>(
    tree: &'a Tree<'a>,
    slots: &Slots,
    frames: &mut Vec<LuaFrame<'a>>,
    heap: &mut Heap,
    budget: &mut Budget,
    list: &'a NodeList,
    otherwise: Option<NodeId>,
    scope: Scope,
) -> Result<LuaStep, NoMemory>
    requires { ArePaths (items_of tree.now) slots.now }
    ensures means { IfOk result (λ step.
        Goes (items_of tree.now) frames.old.items (plans.arms_plan (items_of tree.now) list.now otherwise scope)
        heap.old budget.old frames.new.items step heap.new budget.new) }
    ensures kept { OnOk result (KeepsHeap heap.old heap.new) }
{
    let list = list.as_slice();
    match choose(tree, slots, heap, budget, list, otherwise, &scope) {
        Choice::Block(node) => { block(tree, frames, heap, node, scope) }
        Choice::Arms(rest) => { arms(tree, frames, heap, rest, otherwise, scope) }
    }
}

/// An assignment: its targets, then its expressions, then the stores.
fn assign<'a>(
    tree: &'a Tree<'a>,
    slots: &Slots,
    frames: &mut Vec<LuaFrame<'a>>,
    heap: &mut Heap,
    budget: &mut Budget,
    all: &'a NodeList,
    values: &'a NodeList,
    scope: Scope,
) -> Result<LuaStep, NoMemory>
    requires { ArePaths (items_of tree.now) slots.now }
    ensures means { IfOk result (λ step.
        Goes (items_of tree.now) frames.old.items (assign_plan (items_of tree.now) all.now values.now scope)
        heap.old budget.old frames.new.items step heap.new budget.new) }
    ensures kept { OnOk result (KeepsHeap heap.old heap.new) }
{
    let none = Values::new(heap.allocator());
    let all = all.as_slice();
    let values = values.as_slice();
    targets(
        tree, slots, frames, heap, budget, all, all, values, scope, none,
    )
}

/// A generic `for`: the values of its expressions, and then the first call of the iterator.
fn generic_for<'a>(
    tree: &'a Tree<'a>,
    slots: &Slots,
    frames: &mut Vec<LuaFrame<'a>>,
    heap: &mut Heap,
    budget: &mut Budget,
    node: NodeId,
    names: &'a NodeList,
    values: &'a NodeList,
    place: Place,
    scope: Scope,
) -> Result<LuaStep, NoMemory>
    requires { ArePaths (items_of tree.now) slots.now }
    ensures means { IfOk result (λ step.
        Goes (items_of tree.now) frames.old.items
        (generic_plan (items_of tree.now) node names.now values.now place scope)
        heap.old budget.old frames.new.items step heap.new budget.new) }
    ensures kept { OnOk result (KeepsHeap heap.old heap.new) }
{
    let none = Values::new(heap.allocator());
    let names = names.as_slice();
    let values = values.as_slice();
    let then = Then::Listed(node, names, place);
    let step = begin_list(tree, slots, frames, heap, budget, values, scope, none, then)?;
    Ok(step)
}

/// Defines a function under a path.
fn define_at<'a>(
    tree: &'a Tree<'a>,
    frames: &mut Vec<LuaFrame<'a>>,
    heap: &Heap,
    path: NodeId,
    function: NodeId,
    scope: Scope,
) -> Result<LuaStep, NoMemory>
    ensures means { IfOk result (λ step. (s : LuaState) (left : ℕ) →
        Goes (items_of tree.now) frames.old.items
        (define (items_of tree.now) (path_at (items_of tree.now) path) function scope) s left
        frames.new.items step s left) }
{
    let names = path_names(tree, path);
    let method = path_method(tree, path);
    let step = define(frames, heap, names, method, function, scope)?;
    Ok(step)
}

/// Declares a local with a function, which sees it.
fn local_function(heap: &mut Heap, body: NodeId, scope: Scope) -> Result<LuaStep, NoMemory>
    ensures means { IfOk result (λ step. (items : Items) (left : ℕ) →
        Does items (plans.local_function_plan body scope) heap.old left step heap.new left) }
    ensures kept { OnOk result (KeepsHeap heap.old heap.new) }
{
    let made = heap.new_closure(Closure {
        function: body,
        env: scope.env,
    })?;
    declare(heap, scope.env, Value::Closure(made))?;
    Ok(Step::Return(End::Fell(Values::new(heap.allocator()))))
}

/// Declares locals, behind their expressions.
fn locals<'a>(
    tree: &'a Tree<'a>,
    slots: &Slots,
    frames: &mut Vec<LuaFrame<'a>>,
    heap: &mut Heap,
    budget: &mut Budget,
    names: &'a NodeList,
    values: &'a NodeList,
    scope: Scope,
) -> Result<LuaStep, NoMemory>
    requires { ArePaths (items_of tree.now) slots.now }
    ensures means { IfOk result (λ step.
        Goes (items_of tree.now) frames.old.items (plans.local_plan names.now values.now scope)
        heap.old budget.old frames.new.items step heap.new budget.new) }
    ensures kept { OnOk result (KeepsHeap heap.old heap.new) }
{
    let none = Values::new(heap.allocator());
    let names = names.as_slice();
    let values = values.as_slice();
    let then = Then::Local(names);
    let step = begin_list(tree, slots, frames, heap, budget, values, scope, none, then)?;
    Ok(step)
}

/// Returns the values of expressions.
fn return_values<'a>(
    tree: &'a Tree<'a>,
    slots: &Slots,
    frames: &mut Vec<LuaFrame<'a>>,
    heap: &mut Heap,
    budget: &mut Budget,
    values: &'a NodeList,
    scope: Scope,
) -> Result<LuaStep, NoMemory>
    requires { ArePaths (items_of tree.now) slots.now }
    ensures means { IfOk result (λ step.
        Goes (items_of tree.now) frames.old.items
        (values_of values.now scope [] (λ vs. Give (Returned vs [])))
        heap.old budget.old frames.new.items step heap.new budget.new) }
    ensures kept { OnOk result (KeepsHeap heap.old heap.new) }
{
    let none = Values::new(heap.allocator());
    let values = values.as_slice();
    let then = Then::Return;
    begin_list(tree, slots, frames, heap, budget, values, scope, none, then)
}

#[tactic(auto, using(tl_base::proofs::Steps::pushes))]
/// Evaluates the object and the key of the target that a node is.
pub fn target<'a>(
    tree: &'a Tree<'a>,
    frames: &mut Vec<LuaFrame<'a>>,
    heap: &Heap,
    node: NodeId,
    scope: Scope,
) -> Result<LuaStep, NoMemory>
    ensures means { IfOk result (λ step. (s : LuaState) (left : ℕ) →
        Goes (items_of tree.now) frames.old.items
        (target_plan (items_of tree.now) (item_at (items_of tree.now) node) scope) s left
        frames.new.items step s left) }
{
    match tree.node(node) {
        Node::Expression(_, expression) => {
            let step = target_of(frames, heap, expression, scope)?;
            Ok(step)
        }
        _ => {
            let step = held(heap, Value::Nil, Value::Nil)?;
            Ok(step)
        }
    }
}

#[tactic(auto, using(tl_base::proofs::Steps::pushes))]
/// Evaluates the object and the key of a target that is an expression.
fn target_of<'a>(
    frames: &mut Vec<LuaFrame<'a>>,
    heap: &Heap,
    expression: &Expression,
    scope: Scope,
) -> Result<LuaStep, NoMemory>
    ensures means { IfOk result (λ step. (items : Items) (s : LuaState) (left : ℕ) →
        Goes items frames.old.items (target_of items expression.now scope) s left frames.new.items step s left) }
{
    match expression {
        Expression::Index(object, key) => {
            frames.push(LuaFrame::One(OneFrame::Target(TargetFrame::Object(*key, scope))))?;
            Ok(Step::Enter(Job::Expression(*object, scope)))
        }
        Expression::Select(object, name) => {
            frames.push(LuaFrame::One(OneFrame::Target(TargetFrame::Select(*name))))?;
            Ok(Step::Enter(Job::Expression(*object, scope)))
        }
        _ => {
            let step = held(heap, Value::Nil, Value::Nil)?;
            Ok(step)
        }
    }
}

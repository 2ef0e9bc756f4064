// Expressions (Lua 5.1 manual, section 2.5).

ghost use Rattle.std.specs.Prelude.{◌≡◌, ℕ, [], ◌∷◌, ◌++◌, IfOk, OnOk};
ghost use Rattle.tl_base.specs.Plan.{Do, Give};
ghost use Rattle.lua_model.specs.declared.job.Job.TheVariants as jobs;
ghost use Rattle.tl_tree.specs.Arena.{items_of};
ghost use Rattle.tl_tree.specs.Code.{Items};
ghost use Rattle.tl_tree.specs.Nodes.{item_at};
ghost use Rattle.lua_table.specs.Keeping.{KeepsHeap};
ghost use Rattle.tl_tree.specs.Numbers.{value_of};
ghost use Rattle.lua_model.specs.Plans.{whole};
ghost use Rattle.lua_model.specs.Plans as model;
ghost use Rattle.lua_model.specs.Expressions as plans;
ghost use Rattle.lua_model.specs.Operators as of_operators;
ghost use Rattle.lua_eval.specs.Slots.{ArePaths};
ghost use Rattle.lua_eval.specs.Frames.{after, list_plan, with_left, with_value};
ghost use Rattle.lua_eval.specs.CallPlans.{item_plan};
ghost use Rattle.lua_eval.specs.Steps.{Goes};
ghost use Rattle.lua_model.specs.declared.end.End.{End};
ghost use Rattle.lua_eval.specs.declared.frame.LuaFrame.{LuaFrame};

use crate::callees::{evaluate_call, evaluate_method, operand, operand_at_once};
use crate::calling::{Called, call_of, inside_on};
use crate::cells::values_from;
use crate::fields::{GLOBALS, read, read_named};
use crate::frame::{AllFrame, CallFrame, ListFrame, LuaFrame, OneFrame, Then, ValueFrame};
use crate::lists::{list, values_at_once, with_list};
use crate::operators::{operate, operate_one, whole};
use crate::raise::{LuaStep, text_value};
use crate::tables::{fields, fields_left};
use crate::values::one;
use lua_model::{End, Job, LuaQuestion, Scope};
use lua_table::cells::local;
use lua_table::{Closure, Heap};
use lua_value::{Value, Values};
use tl_base::{Budget, NoMemory, NodeId, Place, Step};
use tl_lex::literal_value;
use tl_rename::Slots;
use tl_tree::code::name;
use tl_tree::{BinaryOperator, Expression, Node, Tree, numeral_value};

#[tactic(auto, using(tl_base::proofs::Steps::pushes))]
/// Evaluates the expression that a node is.
pub fn node<'a>(
    tree: &'a Tree<'a>,
    slots: &Slots,
    frames: &mut Vec<LuaFrame<'a>>,
    heap: &mut Heap,
    budget: &mut Budget,
    node: NodeId,
    scope: Scope,
) -> Result<LuaStep, NoMemory>
    requires { ArePaths (items_of tree.now) slots.now }
    ensures means { IfOk result (λ step.
        Goes (items_of tree.now) frames.old.items
        (plans.node_plan (items_of tree.now) (item_at (items_of tree.now) node) node scope)
        heap.old budget.old frames.new.items step heap.new budget.new) }
    ensures kept { OnOk result (KeepsHeap heap.old heap.new) }
{
    match tree.node(node) {
        Node::Name(place, _, text) => match slots.path(node) {
            Some((depth, position)) => {
                let value = local(heap, scope.env, depth, position);
                Ok(Step::Return(End::One(value)))
            }
            None => {
                let globals = Value::Table(GLOBALS);
                read_named(
                    frames,
                    heap,
                    budget,
                    globals,
                    text.as_bytes(),
                    *place,
                    scope.call,
                )
            }
        },
        Node::Numeral(_, text) => Ok(Step::Return(End::One(numeral(text)))),
        Node::Literal(_, text) => {
            let bytes = literal_value(heap.allocator(), text)?;
            let value = text_value(heap, &bytes)?;
            Ok(Step::Return(End::One(value)))
        }
        Node::Expression(place, expression) => {
            evaluate_further(
                tree, slots, frames, heap, budget, expression, node, *place, scope,
            )
        }
        Node::Statement(_, _) => Ok(Step::Return(End::One(Value::Nil))),
        Node::TerraExpression(_, _) => Ok(Step::Return(End::One(Value::Nil))),
        Node::TerraStatement(_, _) => Ok(Step::Return(End::One(Value::Nil))),
        Node::Piece(_) => Ok(Step::Return(End::One(Value::Nil))),
    }
}

/// The value of a numeral.
#[tactic(auto, using(crate::proofs::Numbering::unfit_is_nil, crate::proofs::Numbering::fit_is_whole))]
#[inline(always)]
pub fn numeral(text: &str) -> Value
    ensures { result ≡ whole (value_of text.now) }
{
    match numeral_value(text) {
        Some(number) => whole(number),
        None => Value::Nil,
    }
}

/// Evaluates an expression that isn't evaluated at once.
fn evaluate_further<'a>(
    tree: &'a Tree<'a>,
    slots: &Slots,
    frames: &mut Vec<LuaFrame<'a>>,
    heap: &mut Heap,
    budget: &mut Budget,
    expression: &'a Expression,
    node: NodeId,
    place: Place,
    scope: Scope,
) -> Result<LuaStep, NoMemory>
    requires { ArePaths (items_of tree.now) slots.now }
    ensures means { IfOk result (λ step.
        Goes (items_of tree.now) frames.old.items
        (plans.expression_plan (items_of tree.now) expression.now node place scope)
        heap.old budget.old frames.new.items step heap.new budget.new) }
    ensures kept { OnOk result (KeepsHeap heap.old heap.new) }
{
    match expression {
        Expression::Call(function, arguments) => {
            evaluate_call(
                tree,
                slots,
                frames,
                heap,
                budget,
                *function,
                arguments.as_slice(),
                place,
                scope,
            )
        }
        Expression::Binary(op, left, right) => evaluate_binary(
            tree, slots, frames, heap, budget, *op, *left, *right, place, scope,
        ),
        Expression::Method(object, name, arguments) => {
            evaluate_method(
                tree,
                slots,
                frames,
                heap,
                budget,
                *object,
                *name,
                arguments.as_slice(),
                place,
                scope,
            )
        }
        Expression::Paren(inner) => {
            frames.push(LuaFrame::One(OneFrame::Value(ValueFrame::First)))?;
            inside(tree, slots, frames, heap, budget, *inner, scope)
        }
        Expression::Table(list) => {
            let table = heap.new_table()?;
            fields(
                tree,
                slots,
                frames,
                heap,
                budget,
                list.as_slice(),
                table,
                1,
                place,
                scope,
            )
        }
        _ => { evaluate(tree, frames, heap, expression, node, place, scope) }
    }
}

#[tactic(auto, using(tl_base::proofs::Steps::pushes))]
/// Evaluates the left operand of an operator, at once where that is possible, and goes on with the right one.
fn evaluate_binary<'a>(
    tree: &'a Tree<'a>,
    slots: &Slots,
    frames: &mut Vec<LuaFrame<'a>>,
    heap: &mut Heap,
    budget: &mut Budget,
    op: BinaryOperator,
    left: NodeId,
    right: NodeId,
    place: Place,
    scope: Scope,
) -> Result<LuaStep, NoMemory>
    requires { ArePaths (items_of tree.now) slots.now }
    ensures means { IfOk result (λ step.
        Goes (items_of tree.now) frames.old.items
        (of_operators.binary_plan (items_of tree.now) op left right place scope)
        heap.old budget.old frames.new.items step heap.new budget.new) }
    ensures kept { OnOk result (KeepsHeap heap.old heap.new) }
{
    match operand_at_once(tree, slots, heap, budget, left, &scope) {
        Some(value) => with_left(
            tree, slots, frames, heap, budget, op, right, place, scope, value,
        ),
        None => call_left(
            tree, slots, frames, heap, budget, op, left, right, place, scope,
        ),
    }
}

/// Calls the left operand of an operator at once, where it is a call and that is possible, and goes on with the right one.
fn call_left<'a>(
    tree: &'a Tree<'a>,
    slots: &Slots,
    frames: &mut Vec<LuaFrame<'a>>,
    heap: &mut Heap,
    budget: &mut Budget,
    op: BinaryOperator,
    left: NodeId,
    right: NodeId,
    place: Place,
    scope: Scope,
) -> Result<LuaStep, NoMemory>
    requires { ArePaths (items_of tree.now) slots.now }
    ensures means { IfOk result (λ step.
        Goes (items_of tree.now) frames.old.items (of_operators.binary_plan (items_of tree.now) op left right place scope)
        heap.old budget.old frames.new.items step heap.new budget.new) }
    ensures kept { OnOk result (KeepsHeap heap.old heap.new) }
{
    let mut given = Value::Nil;
    let units = budget.left();
    let called = call_of(tree, slots, heap, budget, left, &scope, units, &mut given)?;
    match called {
        None => {
            let frame = ValueFrame::Left(op, right, place, scope);
            frames.push(LuaFrame::One(OneFrame::Value(frame)))?;
            operand(tree, slots, frames, heap, budget, left, scope)
        }
        Some(Called::Nothing) => with_left(
            tree,
            slots,
            frames,
            heap,
            budget,
            op,
            right,
            place,
            scope,
            Value::Nil,
        ),
        Some(Called::Gave) => with_left(
            tree, slots, frames, heap, budget, op, right, place, scope, given,
        ),
        Some(Called::Inside(halt, inner)) => {
            let frame = ValueFrame::Left(op, right, place, scope);
            frames.push(LuaFrame::One(OneFrame::Value(frame)))?;
            inside_on(frames, heap, halt, inner)
        }
    }
}

/// Evaluates expressions in their order behind values, and does that with all values, as a statement does: the first that
/// isn't evaluated at once is begun.
pub fn begin_list<'a>(
    tree: &'a Tree<'a>,
    slots: &Slots,
    frames: &mut Vec<LuaFrame<'a>>,
    heap: &mut Heap,
    budget: &mut Budget,
    nodes: &'a [NodeId],
    scope: Scope,
    values: Values,
    then: Then<'a>,
) -> Result<LuaStep, NoMemory>
    requires { ArePaths (items_of tree.now) slots.now }
    ensures means { IfOk result (λ step.
        Goes (items_of tree.now) frames.old.items (list_plan (items_of tree.now) nodes.now scope values then.entry)
        heap.old budget.old frames.new.items step heap.new budget.new) }
    ensures kept { OnOk result (KeepsHeap heap.old heap.new) }
{
    let mut values = values;
    let rest = values_at_once(tree, slots, heap, budget, nodes, &scope, &mut values)?;
    match rest.split_first() {
        None => with_list(tree, slots, frames, heap, budget, scope, values, then),
        Some((first, behind)) => {
            let frame = ListFrame {
                rest: behind,
                scope,
                values,
                then,
            };
            push_item(frames, frame)?;
            inside(tree, slots, frames, heap, budget, *first, scope)
        }
    }
}

/// Waits for an expression of a list: for all values of the last one, and for one value of any other.
fn push_item<'a>(frames: &mut Vec<LuaFrame<'a>>, frame: ListFrame<'a>) -> Result<(), NoMemory>
    ensures { OnOk result ((pushed : LuaFrame) × (frames.new.items ≡ frames.old.items ++ pushed ∷ [])
        × ((items : Items) (r : End) → after items pushed r
        ≡ item_plan items frame.entry.rest.now frame.entry.scope frame.entry.values frame.entry.then r)) }
{
    if frame.rest.is_empty() {
        frames.push(LuaFrame::All(AllFrame::Last(frame)))?;
    } else {
        frames.push(LuaFrame::One(OneFrame::Item(frame)))?;
    }
    Ok(())
}

/// Evaluates an expression in parentheses that isn't evaluated at once: an operator over two operands is begun, and what
/// else it is is evaluated as an operand.
pub fn inside<'a>(
    tree: &'a Tree<'a>,
    slots: &Slots,
    frames: &mut Vec<LuaFrame<'a>>,
    heap: &mut Heap,
    budget: &mut Budget,
    node: NodeId,
    scope: Scope,
) -> Result<LuaStep, NoMemory>
    requires { ArePaths (items_of tree.now) slots.now }
    ensures means { IfOk result (λ step.
        Goes (items_of tree.now) frames.old.items (Do (jobs.Expression node scope) Give)
        heap.old budget.old frames.new.items step heap.new budget.new) }
    ensures kept { OnOk result (KeepsHeap heap.old heap.new) }
{
    match tree.node(node) {
        Node::Expression(place, expression) => match expression {
            Expression::Binary(op, left, right) => {
                if !budget.pay(1) {
                    return Ok(Step::Spent);
                }
                evaluate_binary(
                    tree, slots, frames, heap, budget, *op, *left, *right, *place, scope,
                )
            }
            _ => operand(tree, slots, frames, heap, budget, node, scope),
        },
        _ => operand(tree, slots, frames, heap, budget, node, scope),
    }
}

#[tactic(auto, using(tl_base::proofs::Steps::pushes))]
/// Evaluates an expression that is no name, number or text.
fn evaluate<'a>(
    tree: &'a Tree<'a>,
    frames: &mut Vec<LuaFrame<'a>>,
    heap: &mut Heap,
    expression: &'a Expression,
    node: NodeId,
    place: Place,
    scope: Scope,
) -> Result<LuaStep, NoMemory>
    ensures means { IfOk result (λ step. (left : ℕ) →
        Goes (items_of tree.now) frames.old.items
        (plans.expression_plan (items_of tree.now) expression.now node place scope)
        heap.old left frames.new.items step heap.new left) }
    ensures kept { OnOk result (KeepsHeap heap.old heap.new) }
{
    match expression {
        Expression::Nil => Ok(Step::Return(End::One(Value::Nil))),
        Expression::False => Ok(Step::Return(End::One(Value::Boolean(false)))),
        Expression::True => Ok(Step::Return(End::One(Value::Boolean(true)))),
        Expression::Varargs => {
            let values = values_from(heap, scope.extra, scope.count)?;
            Ok(Step::Return(End::Many(values)))
        }
        Expression::Function(body) => {
            let made = heap.new_closure(Closure {
                function: *body,
                env: scope.env,
            })?;
            Ok(Step::Return(End::One(Value::Closure(made))))
        }
        Expression::Table(list) => {
            let table = heap.new_table()?;
            fields_left(tree, frames, list.as_slice(), table, 1, place, scope)
        }
        Expression::Binary(op, left, right) => {
            let frame = ValueFrame::Left(*op, *right, place, scope);
            frames.push(LuaFrame::One(OneFrame::Value(frame)))?;
            Ok(Step::Enter(Job::Expression(*left, scope)))
        }
        Expression::Unary(op, operand) => {
            let frame = ValueFrame::Unary(*op, place, scope.call);
            frames.push(LuaFrame::One(OneFrame::Value(frame)))?;
            Ok(Step::Enter(Job::Expression(*operand, scope)))
        }
        Expression::Paren(inner) => {
            frames.push(LuaFrame::One(OneFrame::Value(ValueFrame::First)))?;
            Ok(Step::Enter(Job::Expression(*inner, scope)))
        }
        Expression::Index(object, key) => {
            let frame = ValueFrame::Object(*key, place, scope);
            frames.push(LuaFrame::One(OneFrame::Value(frame)))?;
            Ok(Step::Enter(Job::Expression(*object, scope)))
        }
        Expression::Select(object, name) => {
            let frame = ValueFrame::Select(*name, place, scope.call);
            frames.push(LuaFrame::One(OneFrame::Value(frame)))?;
            Ok(Step::Enter(Job::Expression(*object, scope)))
        }
        Expression::Call(function, arguments) => {
            let frame = CallFrame::Function(arguments.as_slice(), place, scope);
            frames.push(LuaFrame::One(OneFrame::Call(frame)))?;
            Ok(Step::Enter(Job::Expression(*function, scope)))
        }
        Expression::Method(object, name, arguments) => {
            let frame = CallFrame::Method(*name, arguments.as_slice(), place, scope);
            frames.push(LuaFrame::One(OneFrame::Call(frame)))?;
            Ok(Step::Enter(Job::Expression(*object, scope)))
        }
        Expression::Terra(_)
        | Expression::Struct(_)
        | Expression::Quote(_)
        | Expression::Backtick(_) => {
            frames.push(LuaFrame::One(OneFrame::Value(ValueFrame::First)))?;
            Ok(Step::Stop(LuaQuestion::Specialise(node, scope.env)))
        }
    }
}

#[tactic(auto, using(tl_base::proofs::Steps::pushes))]
/// Goes on with the left operand of an operator.
fn with_left<'a>(
    tree: &'a Tree<'a>,
    slots: &Slots,
    frames: &mut Vec<LuaFrame<'a>>,
    heap: &mut Heap,
    budget: &mut Budget,
    op: BinaryOperator,
    right: NodeId,
    place: Place,
    scope: Scope,
    value: Value,
) -> Result<LuaStep, NoMemory>
    requires { ArePaths (items_of tree.now) slots.now }
    ensures means { IfOk result (λ step.
        Goes (items_of tree.now) frames.old.items (with_left (items_of tree.now) op right place scope value)
        heap.old budget.old frames.new.items step heap.new budget.new) }
    ensures kept { OnOk result (KeepsHeap heap.old heap.new) }
{
    match op {
        BinaryOperator::And => {
            if !value.is_true() {
                return Ok(Step::Return(End::One(value)));
            }
            frames.push(LuaFrame::One(OneFrame::Value(ValueFrame::First)))?;
            Ok(Step::Enter(Job::Expression(right, scope)))
        }
        BinaryOperator::Or => {
            if value.is_true() {
                return Ok(Step::Return(End::One(value)));
            }
            frames.push(LuaFrame::One(OneFrame::Value(ValueFrame::First)))?;
            Ok(Step::Enter(Job::Expression(right, scope)))
        }
        _ => evaluate_right(
            tree, slots, frames, heap, budget, op, right, place, scope, value,
        ),
    }
}

#[tactic(auto, using(tl_base::proofs::Steps::pushes))]
/// Evaluates the right operand of an operator, at once where that is possible, and goes on with both.
fn evaluate_right<'a>(
    tree: &'a Tree<'a>,
    slots: &Slots,
    frames: &mut Vec<LuaFrame<'a>>,
    heap: &mut Heap,
    budget: &mut Budget,
    op: BinaryOperator,
    right: NodeId,
    place: Place,
    scope: Scope,
    value: Value,
) -> Result<LuaStep, NoMemory>
    requires { ArePaths (items_of tree.now) slots.now }
    ensures means { IfOk result (λ step.
        Goes (items_of tree.now) frames.old.items
        (model.value_of right scope (λ b. of_operators.operate (items_of tree.now) op value b place scope.call))
        heap.old budget.old frames.new.items step heap.new budget.new) }
    ensures kept { OnOk result (KeepsHeap heap.old heap.new) }
{
    match operand_at_once(tree, slots, heap, budget, right, &scope) {
        Some(other) => operate(
            tree, frames, heap, budget, op, value, other, place, scope.call,
        ),
        None => call_right(
            tree, slots, frames, heap, budget, op, right, place, scope, value,
        ),
    }
}

/// Calls the right operand of an operator at once, where it is a call and that is possible, and goes on with both.
fn call_right<'a>(
    tree: &'a Tree<'a>,
    slots: &Slots,
    frames: &mut Vec<LuaFrame<'a>>,
    heap: &mut Heap,
    budget: &mut Budget,
    op: BinaryOperator,
    right: NodeId,
    place: Place,
    scope: Scope,
    value: Value,
) -> Result<LuaStep, NoMemory>
    requires { ArePaths (items_of tree.now) slots.now }
    ensures means { IfOk result (λ step.
        Goes (items_of tree.now) frames.old.items
        (model.value_of right scope (λ b. of_operators.operate (items_of tree.now) op value b place scope.call))
        heap.old budget.old frames.new.items step heap.new budget.new) }
    ensures kept { OnOk result (KeepsHeap heap.old heap.new) }
{
    let mut given = Value::Nil;
    let units = budget.left();
    let called = call_of(tree, slots, heap, budget, right, &scope, units, &mut given)?;
    match called {
        None => {
            let frame = ValueFrame::Right(op, value, place, scope.call);
            frames.push(LuaFrame::One(OneFrame::Value(frame)))?;
            operand(tree, slots, frames, heap, budget, right, scope)
        }
        Some(Called::Nothing) => operate(
            tree,
            frames,
            heap,
            budget,
            op,
            value,
            Value::Nil,
            place,
            scope.call,
        ),
        Some(Called::Gave) => operate(
            tree, frames, heap, budget, op, value, given, place, scope.call,
        ),
        Some(Called::Inside(halt, inner)) => {
            let frame = ValueFrame::Right(op, value, place, scope.call);
            frames.push(LuaFrame::One(OneFrame::Value(frame)))?;
            inside_on(frames, heap, halt, inner)
        }
    }
}

#[tactic(auto, using(tl_base::proofs::Steps::pushes))]
/// Goes on with an expression that waited for one value.
pub fn with_value<'a>(
    tree: &'a Tree<'a>,
    slots: &Slots,
    frames: &mut Vec<LuaFrame<'a>>,
    heap: &mut Heap,
    budget: &mut Budget,
    frame: ValueFrame,
    value: Value,
) -> Result<LuaStep, NoMemory>
    requires { ArePaths (items_of tree.now) slots.now }
    ensures means { IfOk result (λ step.
        Goes (items_of tree.now) frames.old.items (with_value (items_of tree.now) frame value)
        heap.old budget.old frames.new.items step heap.new budget.new) }
    ensures kept { OnOk result (KeepsHeap heap.old heap.new) }
{
    match frame {
        ValueFrame::First => Ok(Step::Return(End::One(value))),
        ValueFrame::Alone => {
            let values = one(heap.allocator(), value)?;
            Ok(Step::Return(End::Many(values)))
        }
        ValueFrame::Left(op, right, place, scope) => {
            with_left(
                tree, slots, frames, heap, budget, op, right, place, scope, value,
            )
        }
        ValueFrame::Right(op, left, place, outer) => {
            operate(tree, frames, heap, budget, op, left, value, place, outer)
        }
        ValueFrame::Unary(op, place, outer) => {
            operate_one(tree, frames, heap, budget, op, value, place, outer)
        }
        ValueFrame::Answer(handler) => {
            let truth = value.is_true() != handler.negated;
            Ok(Step::Return(End::One(Value::Boolean(truth))))
        }
        ValueFrame::Object(key, place, scope) => {
            let frame = ValueFrame::Key(value, place, scope.call);
            frames.push(LuaFrame::One(OneFrame::Value(frame)))?;
            Ok(Step::Enter(Job::Expression(key, scope)))
        }
        ValueFrame::Key(object, place, outer) => {
            read(frames, heap, budget, object, value, place, outer)
        }
        ValueFrame::Select(node, place, outer) => {
            read_named(
                frames,
                heap,
                budget,
                value,
                name(tree, node).as_bytes(),
                place,
                outer,
            )
        }
    }
}

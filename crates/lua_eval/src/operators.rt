// Operators (Lua 5.1 manual, sections 2.5.1 to 2.5.5).

ghost use Rattle.std.specs.Prelude.{◌≡◌, ℕ, List, [], ◌∷◌, IfOk, OnOk};
ghost use Rattle.tl_tree.specs.Arena.{items_of};
ghost use Rattle.lua_table.specs.Keeping.{KeepsHeap};
ghost use Rattle.lua_model.specs.Operators as plans;
ghost use Rattle.lua_model.specs.Plans.{whole, give, on_one};
ghost use Rattle.lua_model.specs.Calls.{call, ask_library};
ghost use Rattle.lua_table.specs.LuaState.{LuaState};
ghost use Rattle.lua_eval.specs.Frames.{with_value};
ghost use Rattle.lua_eval.specs.Steps.{Goes, Does};
ghost use Rattle.tl_tree.specs.Code.{Items};
ghost use Rattle.lua_eval.specs.Operands.{operands_in, operation_of, operate_by};

use crate::calls::call;
use crate::frame::{LuaFrame, OneFrame, ValueFrame};
use crate::raise::{LuaStep, raise};
use crate::values::{one, two};
use lua_model::{Caller, End, LuaQuestion};
use lua_ops::{Arithmetic, Comparison, Fault, Handler, Outcome};
use lua_table::{Heap, LibCall, text_units};
use lua_value::{LibFn, Number, Value, Values};
use tl_base::limits::LARGEST_NUMBER;
use tl_base::{Budget, NoMemory, Place, Step};
use tl_tree::{BinaryOperator, Tree, UnaryOperator};

/// A number from 0 up, where it is in the profile.
pub fn whole(number: u64) -> Value
    ensures { result ≡ whole number }
{
    if number > LARGEST_NUMBER {
        return Value::Nil;
    }
    match Number::new(number as i64) {
        Some(number) => Value::Number(number),
        None => Value::Nil,
    }
}

/// The operands with which a handler is called.
#[tactic(auto, using(crate::proofs::Operands::alone_either))]
fn operands(heap: &Heap, handler: &Handler, a: Value, b: Option<Value>) -> Result<Values, NoMemory>
    ensures { IfOk result (λ values. values ≡ plans.operands_of handler.now (operands_in a b)) }
{
    match b {
        None => {
            let values = one(heap.allocator(), a)?;
            Ok(values)
        }
        Some(b) => {
            if handler.swapped {
                let values = two(heap.allocator(), b, a)?;
                Ok(values)
            } else {
                let values = two(heap.allocator(), a, b)?;
                Ok(values)
            }
        }
    }
}

/// Calls the handler of an operator, whose operands these are, below a frame that takes its answer.
fn handle<'a>(
    tree: &'a Tree<'a>,
    frames: &mut Vec<LuaFrame<'a>>,
    heap: &mut Heap,
    budget: &mut Budget,
    frame: ValueFrame,
    function: Value,
    args: Values,
    place: Place,
    outer: Option<Place>,
) -> Result<LuaStep, NoMemory>
    ensures means { IfOk result (λ step.
        Goes (items_of tree.now) frames.old.items
        (call (items_of tree.now) Caller.ByOther function args place outer
        (λ r. on_one r (λ v. with_value (items_of tree.now) frame v)))
        heap.old budget.old frames.new.items step heap.new budget.new) }
    ensures kept { OnOk result (KeepsHeap heap.old heap.new) }
{
    frames.push(LuaFrame::One(OneFrame::Value(frame)))?;
    let step = call(
        tree,
        frames,
        heap,
        budget,
        Caller::ByOther,
        function,
        args,
        place,
        outer,
    )?;
    Ok(step)
}

#[tactic(auto, using(tl_base::proofs::Steps::pushes))]
/// Goes on with what an operator gives: its result, the first value of its handler's answer, or its fault.
fn settle<'a>(
    tree: &'a Tree<'a>,
    frames: &mut Vec<LuaFrame<'a>>,
    heap: &mut Heap,
    budget: &mut Budget,
    outcome: Outcome,
    a: Value,
    b: Option<Value>,
    place: Place,
    outer: Option<Place>,
) -> Result<LuaStep, NoMemory>
    ensures means { IfOk result (λ step.
        Goes (items_of tree.now) frames.old.items (plans.settle (items_of tree.now) outcome (operands_in a b) place outer)
        heap.old budget.old frames.new.items step heap.new budget.new) }
    ensures kept { OnOk result (KeepsHeap heap.old heap.new) }
{
    match outcome {
        Outcome::Value(value) => Ok(Step::Return(End::One(value))),
        Outcome::Raise(fault) => {
            let step = raise(heap, budget, place, fault)?;
            Ok(step)
        }
        Outcome::Meta(handler) => {
            let args = operands(heap, &handler, a, b)?;
            let called = handle(
                tree,
                frames,
                heap,
                budget,
                ValueFrame::First,
                handler.function,
                args,
                place,
                outer,
            )?;
            Ok(called)
        }
    }
}

/// What an operator of arithmetic gives.
fn arith<'a>(
    tree: &'a Tree<'a>,
    frames: &mut Vec<LuaFrame<'a>>,
    heap: &mut Heap,
    budget: &mut Budget,
    op: Arithmetic,
    a: Value,
    b: Value,
    place: Place,
    outer: Option<Place>,
) -> Result<LuaStep, NoMemory>
    ensures means { IfOk result (λ step.
        Goes (items_of tree.now) frames.old.items (plans.arith (items_of tree.now) op a b place outer)
        heap.old budget.old frames.new.items step heap.new budget.new) }
    ensures kept { OnOk result (KeepsHeap heap.old heap.new) }
{
    let first = a.copy();
    let second = b.copy();
    // A `?` gets no proof where the value holds a handler, here and below.
    match lua_ops::arith::arith(heap, op, first, second) {
        Ok(outcome) => {
            let step = settle(
                tree,
                frames,
                heap,
                budget,
                outcome,
                a,
                Some(b),
                place,
                outer,
            )?;
            Ok(step)
        }
        Err(lack) => Err(lack),
    }
}

/// What unary minus gives.
fn minus<'a>(
    tree: &'a Tree<'a>,
    frames: &mut Vec<LuaFrame<'a>>,
    heap: &mut Heap,
    budget: &mut Budget,
    a: Value,
    place: Place,
    outer: Option<Place>,
) -> Result<LuaStep, NoMemory>
    ensures means { IfOk result (λ step.
        Goes (items_of tree.now) frames.old.items (plans.minus (items_of tree.now) a place outer)
        heap.old budget.old frames.new.items step heap.new budget.new) }
    ensures kept { OnOk result (KeepsHeap heap.old heap.new) }
{
    let first = a.copy();
    match lua_ops::arith::arith(heap, Arithmetic::Minus, first, Value::Nil) {
        Ok(outcome) => {
            let step = settle(tree, frames, heap, budget, outcome, a, None, place, outer)?;
            Ok(step)
        }
        Err(lack) => Err(lack),
    }
}

/// The length of a text; of any other value it is 0.
fn text_length(heap: &Heap, value: &Value) -> usize
    ensures { result ≡ plans.text_length heap.now value.now }
{
    match value {
        Value::Text(text) => heap.text(*text).len(),
        _ => 0,
    }
}

#[tactic(auto, using(tl_base::proofs::Steps::payments))]
/// What `..` gives. The text that it makes is paid for.
fn concat<'a>(
    tree: &'a Tree<'a>,
    frames: &mut Vec<LuaFrame<'a>>,
    heap: &mut Heap,
    budget: &mut Budget,
    a: Value,
    b: Value,
    place: Place,
    outer: Option<Place>,
) -> Result<LuaStep, NoMemory>
    ensures means { IfOk result (λ step.
        Goes (items_of tree.now) frames.old.items (plans.concat (items_of tree.now) a b place outer)
        heap.old budget.old frames.new.items step heap.new budget.new) }
    ensures kept { OnOk result (KeepsHeap heap.old heap.new) }
{
    let first = a.copy();
    let second = b.copy();
    match lua_ops::concat::concat(heap, first, second) {
        Ok(outcome) => {
            let step = joined(tree, frames, heap, budget, outcome, a, b, place, outer)?;
            Ok(step)
        }
        Err(lack) => Err(lack),
    }
}

#[tactic(auto, using(tl_base::proofs::Steps::payments))]
/// Goes on with what `..` gives.
fn joined<'a>(
    tree: &'a Tree<'a>,
    frames: &mut Vec<LuaFrame<'a>>,
    heap: &mut Heap,
    budget: &mut Budget,
    outcome: Outcome,
    a: Value,
    b: Value,
    place: Place,
    outer: Option<Place>,
) -> Result<LuaStep, NoMemory>
    ensures means { IfOk result (λ step.
        Goes (items_of tree.now) frames.old.items (plans.joined (items_of tree.now) outcome (a ∷ b ∷ []) place outer)
        heap.old budget.old frames.new.items step heap.new budget.new) }
    ensures kept { OnOk result (KeepsHeap heap.old heap.new) }
{
    match outcome {
        Outcome::Value(value) => {
            if !budget.pay(text_units(text_length(heap, &value))) {
                return Ok(Step::Spent);
            }
            Ok(Step::Return(End::One(value)))
        }
        Outcome::Raise(_) | Outcome::Meta(_) => {
            let step = settle(
                tree,
                frames,
                heap,
                budget,
                outcome,
                a,
                Some(b),
                place,
                outer,
            )?;
            Ok(step)
        }
    }
}

/// What a comparison gives.
fn compare<'a>(
    tree: &'a Tree<'a>,
    frames: &mut Vec<LuaFrame<'a>>,
    heap: &mut Heap,
    budget: &mut Budget,
    op: Comparison,
    a: Value,
    b: Value,
    place: Place,
    outer: Option<Place>,
) -> Result<LuaStep, NoMemory>
    ensures means { IfOk result (λ step.
        Goes (items_of tree.now) frames.old.items (plans.compare (items_of tree.now) op a b place outer)
        heap.old budget.old frames.new.items step heap.new budget.new) }
    ensures kept { OnOk result (KeepsHeap heap.old heap.new) }
{
    let first = a.copy();
    let second = b.copy();
    match lua_ops::compare::compare(heap, op, first, second) {
        Ok(outcome) => {
            let step = compared(tree, frames, heap, budget, outcome, a, b, place, outer)?;
            Ok(step)
        }
        Err(lack) => Err(lack),
    }
}

#[tactic(auto, using(tl_base::proofs::Steps::pushes))]
/// Goes on with what a comparison gives.
fn compared<'a>(
    tree: &'a Tree<'a>,
    frames: &mut Vec<LuaFrame<'a>>,
    heap: &mut Heap,
    budget: &mut Budget,
    outcome: Outcome,
    a: Value,
    b: Value,
    place: Place,
    outer: Option<Place>,
) -> Result<LuaStep, NoMemory>
    ensures means { IfOk result (λ step.
        Goes (items_of tree.now) frames.old.items (plans.compared (items_of tree.now) outcome (a ∷ b ∷ []) place outer)
        heap.old budget.old frames.new.items step heap.new budget.new) }
    ensures kept { OnOk result (KeepsHeap heap.old heap.new) }
{
    match outcome {
        Outcome::Value(_) | Outcome::Raise(_) => {
            let step = settle(
                tree,
                frames,
                heap,
                budget,
                outcome,
                a,
                Some(b),
                place,
                outer,
            )?;
            Ok(step)
        }
        Outcome::Meta(handler) => {
            let args = operands(heap, &handler, a, Some(b))?;
            let function = handler.function.copy();
            let frame = ValueFrame::Answer(handler);
            let called = handle(
                tree, frames, heap, budget, frame, function, args, place, outer,
            )?;
            Ok(called)
        }
    }
}

#[tactic(auto, using(tl_base::proofs::Steps::pushes))]
/// Asks a function of the library that the language itself calls, and takes one value.
fn ask<'a>(
    frames: &mut Vec<LuaFrame<'a>>,
    function: LibFn,
    args: Values,
    place: Place,
    outer: Option<Place>,
) -> Result<LuaStep, NoMemory>
    ensures means { IfOk result (λ step. (items : Items) (s : LuaState) (left : ℕ) →
        Goes items frames.old.items (ask_library function args place outer (λ r. on_one r give))
        s left frames.new.items step s left) }
{
    frames.push(LuaFrame::One(OneFrame::Value(ValueFrame::First)))?;
    Ok(Step::Stop(LuaQuestion::Library(LibCall {
        function,
        args,
        place,
        outer,
    })))
}

/// What an operator does with its two operands.
#[derive(Clone, Copy)]
pub enum Operation {
    Calculates(Arithmetic),
    Compares(Comparison),
    /// It makes a text of both.
    Joins,
    /// It asks for the type of the functions from one type to another.
    MakesType,
    /// It is no operator of Lua code.
    Nothing,
}

/// What an operator does with its two operands.
pub fn operation_of(op: BinaryOperator) -> Operation
    ensures { result ≡ operation_of op }
{
    match op {
        BinaryOperator::Arrow => Operation::MakesType,
        BinaryOperator::Less => Operation::Compares(Comparison::Less),
        BinaryOperator::Greater => Operation::Compares(Comparison::Greater),
        BinaryOperator::LessEqual => Operation::Compares(Comparison::LessEqual),
        BinaryOperator::GreaterEqual => Operation::Compares(Comparison::GreaterEqual),
        BinaryOperator::NotEqual => Operation::Compares(Comparison::NotEqual),
        BinaryOperator::Equal => Operation::Compares(Comparison::Equal),
        BinaryOperator::Concatenate => Operation::Joins,
        BinaryOperator::Add => Operation::Calculates(Arithmetic::Add),
        BinaryOperator::Subtract => Operation::Calculates(Arithmetic::Subtract),
        BinaryOperator::Multiply => Operation::Calculates(Arithmetic::Multiply),
        BinaryOperator::Divide => Operation::Calculates(Arithmetic::Divide),
        BinaryOperator::Modulo => Operation::Calculates(Arithmetic::Remainder),
        BinaryOperator::Power => Operation::Calculates(Arithmetic::Power),
        BinaryOperator::Or
        | BinaryOperator::And
        | BinaryOperator::ShiftLeft
        | BinaryOperator::ShiftRight => { Operation::Nothing }
    }
}

/// What an operator between two values gives.
pub fn operate<'a>(
    tree: &'a Tree<'a>,
    frames: &mut Vec<LuaFrame<'a>>,
    heap: &mut Heap,
    budget: &mut Budget,
    op: BinaryOperator,
    a: Value,
    b: Value,
    place: Place,
    outer: Option<Place>,
) -> Result<LuaStep, NoMemory>
    ensures means { IfOk result (λ step.
        Goes (items_of tree.now) frames.old.items (plans.operate (items_of tree.now) op a b place outer)
        heap.old budget.old frames.new.items step heap.new budget.new) }
    ensures kept { OnOk result (KeepsHeap heap.old heap.new) }
{
    let step = operate_by(
        tree,
        frames,
        heap,
        budget,
        operation_of(op),
        a,
        b,
        place,
        outer,
    )?;
    Ok(step)
}

#[tactic(auto, using(tl_base::proofs::Steps::pushes))]
fn operate_by<'a>(
    tree: &'a Tree<'a>,
    frames: &mut Vec<LuaFrame<'a>>,
    heap: &mut Heap,
    budget: &mut Budget,
    operation: Operation,
    a: Value,
    b: Value,
    place: Place,
    outer: Option<Place>,
) -> Result<LuaStep, NoMemory>
    ensures means { IfOk result (λ step.
        Goes (items_of tree.now) frames.old.items (operate_by (items_of tree.now) operation a b place outer)
        heap.old budget.old frames.new.items step heap.new budget.new) }
    ensures kept { OnOk result (KeepsHeap heap.old heap.new) }
{
    match operation {
        Operation::Calculates(op) => {
            let step = arith(tree, frames, heap, budget, op, a, b, place, outer)?;
            Ok(step)
        }
        Operation::Compares(op) => {
            let step = compare(tree, frames, heap, budget, op, a, b, place, outer)?;
            Ok(step)
        }
        Operation::Joins => {
            let step = concat(tree, frames, heap, budget, a, b, place, outer)?;
            Ok(step)
        }
        Operation::MakesType => {
            let args = two(heap.allocator(), a, b)?;
            let step = ask(frames, LibFn::FunctionType, args, place, outer)?;
            Ok(step)
        }
        Operation::Nothing => Ok(Step::Return(End::One(Value::Nil))),
    }
}

#[tactic(auto, using(tl_base::proofs::Steps::pushes))]
/// What an operator before one value gives.
pub fn operate_one<'a>(
    tree: &'a Tree<'a>,
    frames: &mut Vec<LuaFrame<'a>>,
    heap: &mut Heap,
    budget: &mut Budget,
    op: UnaryOperator,
    a: Value,
    place: Place,
    outer: Option<Place>,
) -> Result<LuaStep, NoMemory>
    ensures means { IfOk result (λ step.
        Goes (items_of tree.now) frames.old.items (plans.unary_at (items_of tree.now) op a place outer)
        heap.old budget.old frames.new.items step heap.new budget.new) }
    ensures kept { OnOk result (KeepsHeap heap.old heap.new) }
{
    match op {
        UnaryOperator::Not => Ok(Step::Return(End::One(Value::Boolean(!a.is_true())))),
        UnaryOperator::Length => {
            let step = length(heap, budget, a, place)?;
            Ok(step)
        }
        UnaryOperator::Negate => {
            let step = minus(tree, frames, heap, budget, a, place, outer)?;
            Ok(step)
        }
        UnaryOperator::Address => {
            let args = one(heap.allocator(), a)?;
            let step = ask(frames, LibFn::PointerType, args, place, outer)?;
            Ok(step)
        }
        // This is no operator of Lua code.
        UnaryOperator::Dereference => Ok(Step::Return(End::One(Value::Nil))),
    }
}

/// The length of a text or a table.
fn length(
    heap: &mut Heap,
    budget: &mut Budget,
    value: Value,
    place: Place,
) -> Result<LuaStep, NoMemory>
    ensures means { IfOk result (λ step. (items : Items) →
        Does items (plans.length_plan value place) heap.old budget.old step heap.new budget.new) }
    ensures kept { OnOk result (KeepsHeap heap.old heap.new) }
{
    match value {
        Value::Text(text) => {
            let length = heap.text(text).len() as u64;
            Ok(Step::Return(End::One(whole(length))))
        }
        Value::Table(table) => {
            let border = heap.border(table);
            Ok(Step::Return(End::One(whole(border))))
        }
        _ => {
            let step = raise(heap, budget, place, Fault::Length(value.kind()))?;
            Ok(step)
        }
    }
}

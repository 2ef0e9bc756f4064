// What stands in a value under a key, and stores (Lua 5.1 manual, sections 2.2 and 2.8).

ghost use Rattle.std.specs.Prelude.{◌≡◌, ℕ, IfOk, OnOk};
ghost use Rattle.tl_tree.specs.Code.{Items};
ghost use Rattle.lua_value.specs.Values.{kind_of};
ghost use Rattle.lua_table.specs.Keeping.{KeepsHeap};
ghost use Rattle.lua_model.specs.Plans.{give, fell, on_one, on_all, with_text_of};
ghost use Rattle.lua_model.specs.Calls.{call_library};
ghost use Rattle.lua_model.specs.Fields.{read, read_table, read_by, read_terra, type_function};
ghost use Rattle.lua_model.specs.Fields.{store, store_table, store_by, store_raw};
ghost use Rattle.lua_eval.specs.Reads.{source_of};
ghost use Rattle.lua_eval.specs.Steps.{Goes, Does};

use crate::calls::call_library;
use crate::frame::{AllFrame, LuaFrame, OneFrame, ValueFrame};
use crate::raise::{LuaStep, raise, text_value};
use crate::values::{three, two};
use lua_model::{End, Job, LuaQuestion};
use lua_ops::{Fault, handler_of};
use lua_table::{Heap, LibCall};
use lua_value::{LibFn, Value, Values};
use tl_base::{Budget, NoMemory, Place, Step, TableId};

/// The opening table of functions on texts.
pub const TEXT_FUNCTIONS: TableId = TableId(1);

/// The opening table of globals.
pub const GLOBALS: TableId = TableId(0);

/// Calls a function of the library, and takes one value.
fn value_by_library<'a>(
    frames: &mut Vec<LuaFrame<'a>>,
    heap: &mut Heap,
    budget: &mut Budget,
    call: LibCall,
) -> Result<LuaStep, NoMemory>
    ensures means { IfOk result (λ step. (items : Items) →
        Goes items frames.old.items
        (call_library call.function call.args call.place call.outer (λ r. on_one r give))
        heap.old budget.old frames.new.items step heap.new budget.new) }
    ensures kept { OnOk result (KeepsHeap heap.old heap.new) }
{
    frames.push(LuaFrame::One(OneFrame::Value(ValueFrame::First)))?;
    let step = call_library(frames, heap, budget, call)?;
    Ok(step)
}

/// Calls a function of the library, and drops its values.
fn done_by_library<'a>(
    frames: &mut Vec<LuaFrame<'a>>,
    heap: &mut Heap,
    budget: &mut Budget,
    call: LibCall,
) -> Result<LuaStep, NoMemory>
    ensures means { IfOk result (λ step. (items : Items) →
        Goes items frames.old.items
        (call_library call.function call.args call.place call.outer (λ r. on_all r (λ vs. fell)))
        heap.old budget.old frames.new.items step heap.new budget.new) }
    ensures kept { OnOk result (KeepsHeap heap.old heap.new) }
{
    frames.push(LuaFrame::All(AllFrame::Done))?;
    let step = call_library(frames, heap, budget, call)?;
    Ok(step)
}

#[tactic(auto, using(tl_base::proofs::Steps::pushes))]
/// Reads what a handler says, where the raw value of a table is absent.
fn read_by<'a>(
    frames: &mut Vec<LuaFrame<'a>>,
    heap: &mut Heap,
    budget: &mut Budget,
    handler: Value,
    table: TableId,
    key: Value,
    place: Place,
    outer: Option<Place>,
) -> Result<LuaStep, NoMemory>
    ensures means { IfOk result (λ step. (items : Items) →
        Goes items frames.old.items (read_by handler table key place outer give)
        heap.old budget.old frames.new.items step heap.new budget.new) }
    ensures kept { OnOk result (KeepsHeap heap.old heap.new) }
{
    match handler {
        Value::Nil => Ok(Step::Return(End::One(Value::Nil))),
        Value::Closure(closure) => {
            let args = two(heap.allocator(), Value::Table(table), key)?;
            frames.push(LuaFrame::One(OneFrame::Value(ValueFrame::First)))?;
            Ok(Step::Enter(Job::Callback(closure, args, place)))
        }
        Value::Library(function) => {
            let args = two(heap.allocator(), Value::Table(table), key)?;
            let call = LibCall {
                function,
                args,
                place,
                outer,
            };
            let step = value_by_library(frames, heap, budget, call)?;
            Ok(step)
        }
        _ => {
            frames.push(LuaFrame::One(OneFrame::Value(ValueFrame::First)))?;
            Ok(Step::Enter(Job::Read(handler, key, place, outer)))
        }
    }
}

#[tactic(auto, using(tl_base::proofs::Steps::pushes))]
fn read_table<'a>(
    frames: &mut Vec<LuaFrame<'a>>,
    heap: &mut Heap,
    budget: &mut Budget,
    table: TableId,
    key: Value,
    place: Place,
    outer: Option<Place>,
) -> Result<LuaStep, NoMemory>
    ensures means { IfOk result (λ step. (items : Items) →
        Goes items frames.old.items (read_table table key place outer give)
        heap.old budget.old frames.new.items step heap.new budget.new) }
    ensures kept { OnOk result (KeepsHeap heap.old heap.new) }
{
    let value = heap.get(table, key.copy());
    if !value.is_nil() {
        return Ok(Step::Return(End::One(value)));
    }
    let handler = handler_of(heap, &Value::Table(table), "__index");
    let step = read_by(frames, heap, budget, handler, table, key, place, outer)?;
    Ok(step)
}

#[tactic(auto, using(tl_base::proofs::Steps::pushes))]
/// Asks for a field of a Terra value, which is no call in progress.
fn read_terra<'a>(
    frames: &mut Vec<LuaFrame<'a>>,
    heap: &Heap,
    function: LibFn,
    object: Value,
    key: Value,
    place: Place,
    outer: Option<Place>,
) -> Result<LuaStep, NoMemory>
    ensures means { IfOk result (λ step. (items : Items) (left : ℕ) →
        Goes items frames.old.items (read_terra function object key place outer give)
        heap.now left frames.new.items step heap.now left) }
{
    let args = two(heap.allocator(), object, key)?;
    frames.push(LuaFrame::One(OneFrame::Value(ValueFrame::First)))?;
    Ok(Step::Stop(LuaQuestion::Library(LibCall {
        function,
        args,
        place,
        outer,
    })))
}

/// The function of the library that a key of a type asks for.
fn type_function(key: &Value) -> LibFn
    ensures { result ≡ type_function key.now }
{
    match key {
        Value::Number(_) => LibFn::ArrayType,
        _ => LibFn::Field,
    }
}

/// What a value is read from.
#[derive(Clone, Copy)]
pub enum Source {
    /// A table.
    Table(TableId),
    /// Terra, by a function of the library.
    Terra(LibFn),
    /// It can't be read.
    Nothing,
}

/// What a value is read from under a key.
fn source_of(object: &Value, key: &Value) -> Source
    ensures { result ≡ source_of object.now key.now }
{
    match object {
        Value::Table(table) => Source::Table(*table),
        Value::Text(_) => Source::Table(TEXT_FUNCTIONS),
        Value::TerraType(_) => Source::Terra(type_function(key)),
        Value::TerraFunction(_)
        | Value::Primitive(_)
        | Value::Quote(_)
        | Value::Symbol(_)
        | Value::Macro(_)
        | Value::Global(_)
        | Value::Constant(_) => Source::Terra(LibFn::Field),
        Value::Nil | Value::Boolean(_) | Value::Number(_) | Value::Closure(_) | Value::Library(_) =>
            Source::Nothing,
    }
}

#[tactic(auto, using(tl_base::proofs::Steps::pushes))]
/// Reads a key of a value.
pub fn read<'a>(
    frames: &mut Vec<LuaFrame<'a>>,
    heap: &mut Heap,
    budget: &mut Budget,
    object: Value,
    key: Value,
    place: Place,
    outer: Option<Place>,
) -> Result<LuaStep, NoMemory>
    ensures means { IfOk result (λ step. (items : Items) →
        Goes items frames.old.items (read object key place outer give)
        heap.old budget.old frames.new.items step heap.new budget.new) }
    ensures kept { OnOk result (KeepsHeap heap.old heap.new) }
{
    let source = source_of(&object, &key);
    match source {
        Source::Table(table) => {
            let step = read_table(frames, heap, budget, table, key, place, outer)?;
            Ok(step)
        }
        Source::Terra(function) => {
            let step = read_terra(frames, heap, function, object, key, place, outer)?;
            Ok(step)
        }
        Source::Nothing => {
            let step = raise(heap, budget, place, Fault::Index(object.kind()))?;
            Ok(step)
        }
    }
}

/// A raw store; nil is no key.
pub fn store_raw(
    heap: &mut Heap,
    budget: &mut Budget,
    table: TableId,
    key: Value,
    value: Value,
    place: Place,
) -> Result<LuaStep, NoMemory>
    ensures means { IfOk result (λ step. (items : Items) →
        Does items (store_raw table key value place fell) heap.old budget.old step heap.new budget.new) }
    ensures kept { OnOk result (KeepsHeap heap.old heap.new) }
{
    if key.is_nil() {
        let step = raise(heap, budget, place, Fault::NilKey)?;
        return Ok(step);
    }
    heap.store(table, key, value)?;
    Ok(Step::Return(End::Fell(Values::new(heap.allocator()))))
}

#[tactic(auto, using(tl_base::proofs::Steps::pushes))]
/// Stores as a handler says, where the raw value of a table is absent.
fn store_by<'a>(
    frames: &mut Vec<LuaFrame<'a>>,
    heap: &mut Heap,
    budget: &mut Budget,
    handler: Value,
    table: TableId,
    key: Value,
    value: Value,
    place: Place,
    outer: Option<Place>,
) -> Result<LuaStep, NoMemory>
    ensures means { IfOk result (λ step. (items : Items) →
        Goes items frames.old.items (store_by handler table key value place outer fell)
        heap.old budget.old frames.new.items step heap.new budget.new) }
    ensures kept { OnOk result (KeepsHeap heap.old heap.new) }
{
    match handler {
        Value::Nil => {
            let step = store_raw(heap, budget, table, key, value, place)?;
            Ok(step)
        }
        Value::Closure(closure) => {
            let args = three(heap.allocator(), Value::Table(table), key, value)?;
            frames.push(LuaFrame::All(AllFrame::Done))?;
            Ok(Step::Enter(Job::Callback(closure, args, place)))
        }
        Value::Library(function) => {
            let args = three(heap.allocator(), Value::Table(table), key, value)?;
            let call = LibCall {
                function,
                args,
                place,
                outer,
            };
            let step = done_by_library(frames, heap, budget, call)?;
            Ok(step)
        }
        _ => {
            frames.push(LuaFrame::All(AllFrame::Done))?;
            Ok(Step::Enter(Job::Store(handler, key, value, place, outer)))
        }
    }
}

#[tactic(auto, using(tl_base::proofs::Steps::pushes))]
fn store_table<'a>(
    frames: &mut Vec<LuaFrame<'a>>,
    heap: &mut Heap,
    budget: &mut Budget,
    table: TableId,
    key: Value,
    value: Value,
    place: Place,
    outer: Option<Place>,
) -> Result<LuaStep, NoMemory>
    ensures means { IfOk result (λ step. (items : Items) →
        Goes items frames.old.items (store_table table key value place outer fell)
        heap.old budget.old frames.new.items step heap.new budget.new) }
    ensures kept { OnOk result (KeepsHeap heap.old heap.new) }
{
    if heap.get(table, key.copy()).is_nil() {
        let handler = handler_of(heap, &Value::Table(table), "__newindex");
        let step = store_by(
            frames, heap, budget, handler, table, key, value, place, outer,
        )?;
        Ok(step)
    } else {
        let step = store_raw(heap, budget, table, key, value, place)?;
        Ok(step)
    }
}

#[tactic(auto, using(tl_base::proofs::Steps::pushes))]
/// Stores a value under a key of a value. Tables alone take stores.
pub fn store<'a>(
    frames: &mut Vec<LuaFrame<'a>>,
    heap: &mut Heap,
    budget: &mut Budget,
    object: Value,
    key: Value,
    value: Value,
    place: Place,
    outer: Option<Place>,
) -> Result<LuaStep, NoMemory>
    ensures means { IfOk result (λ step. (items : Items) →
        Goes items frames.old.items (store object key value place outer fell)
        heap.old budget.old frames.new.items step heap.new budget.new) }
    ensures kept { OnOk result (KeepsHeap heap.old heap.new) }
{
    match object {
        Value::Table(table) => {
            let step = store_table(frames, heap, budget, table, key, value, place, outer)?;
            Ok(step)
        }
        _ => {
            let step = raise(heap, budget, place, Fault::Index(object.kind()))?;
            Ok(step)
        }
    }
}

/// Reads under a name.
pub fn read_named<'a>(
    frames: &mut Vec<LuaFrame<'a>>,
    heap: &mut Heap,
    budget: &mut Budget,
    object: Value,
    name: &[u8],
    place: Place,
    outer: Option<Place>,
) -> Result<LuaStep, NoMemory>
    ensures means { IfOk result (λ step. (items : Items) →
        Goes items frames.old.items (with_text_of name.now (λ key. read object key place outer give))
        heap.old budget.old frames.new.items step heap.new budget.new) }
    ensures kept { OnOk result (KeepsHeap heap.old heap.new) }
{
    let key = text_value(heap, name)?;
    let step = read(frames, heap, budget, object, key, place, outer)?;
    Ok(step)
}

/// Stores under a name.
pub fn store_named<'a>(
    frames: &mut Vec<LuaFrame<'a>>,
    heap: &mut Heap,
    budget: &mut Budget,
    object: Value,
    name: &[u8],
    value: Value,
    place: Place,
    outer: Option<Place>,
) -> Result<LuaStep, NoMemory>
    ensures means { IfOk result (λ step. (items : Items) →
        Goes items frames.old.items (with_text_of name.now (λ key. store object key value place outer fell))
        heap.old budget.old frames.new.items step heap.new budget.new) }
    ensures kept { OnOk result (KeepsHeap heap.old heap.new) }
{
    let key = text_value(heap, name)?;
    let step = store(frames, heap, budget, object, key, value, place, outer)?;
    Ok(step)
}

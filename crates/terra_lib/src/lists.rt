// Lists, which are tables with the metatable of lists.

ghost use Rattle.std.specs.Prelude.{◌≡◌, ◌≤◌, pos, IfOk, OnOk};
ghost use Rattle.tl_base.specs.Layer.{state};
ghost use Rattle.lua_table.specs.Heap.{next_table, table_at};
ghost use Rattle.lua_table.specs.Keeping.{KeepsHeap};
ghost use Rattle.spec_model.specs.Plans.{values_in};
ghost use Rattle.terra_lib.specs.Answers.{turned};
ghost use Rattle.terra_lib.specs.Keeping.{KeepsWorld};
ghost use Rattle.terra_lib.specs.Lists.{newlist_turned, insert_turned, insertall_turned, map_turned, mapping, map_turn, map_heap, as_list};
ghost use Rattle.terra_lib.specs.Lists.{with_list};
ghost use Rattle.terra_lib.specs.Lists.{appended, all_appended, end_of};

use crate::answers::{bad_argument, give_nothing, give_one};
use exotype::World;
use lua_base::{argument, has_argument, table_in};
use lua_table::{Back, Heap, LibNext, LibTurn};
use lua_value::{LibFn, Number, Value, Values};
use tl_base::{Budget, NoMemory, Place, TableId};

/// The metatable of lists, which is made as the sixth table.
pub const LIST_METHODS: TableId = TableId(5);

/// Gives a table, or a new one, as a list.
pub fn new_list(
    world: &mut World,
    budget: &mut Budget,
    args: &[Value],
    place: Place,
) -> Result<LibTurn, NoMemory>
    ensures does { IfOk result (λ turn.
        turned turn (state world.new budget.new) ≡ newlist_turned (state world.old budget.old) args.now place) }
    ensures kept { OnOk result (KeepsWorld world.old world.new) }
    ensures paid { OnOk result (budget.new ≤ budget.old) }
{
    match argument(args, 0) {
        Value::Nil => {
            let list = make_list(&mut world.heap)?;
            give_one(&world.heap, Value::Table(list))
        }
        Value::Table(table) => {
            become_list(&mut world.heap, table);
            give_one(&world.heap, Value::Table(table))
        }
        _ => bad_argument(world, budget, place, 1, LibFn::NewList),
    }
}

/// A new list.
fn make_list(heap: &mut Heap) -> Result<TableId, NoMemory>
    ensures list { IfOk result (λ list. list ≡ next_table heap.old) }
    ensures heap { OnOk result (heap.new ≡ with_list heap.old) }
    ensures kept { OnOk result (KeepsHeap heap.old heap.new) }
{
    let list = heap.new_table()?;
    become_list(heap, list);
    Ok(list)
}

fn become_list(heap: &mut Heap, table: TableId)
    ensures heap { heap.new ≡ as_list heap.old table }
    ensures kept { KeepsHeap heap.old heap.new }
{
    heap.set_metatable(table, Some(LIST_METHODS));
}

/// Puts a value behind the end of a list. It pays nothing.
pub fn insert(
    world: &mut World,
    budget: &mut Budget,
    args: &[Value],
    place: Place,
) -> Result<LibTurn, NoMemory>
    ensures does { IfOk result (λ turn.
        turned turn (state world.new budget.new) ≡ insert_turned (state world.old budget.old) args.now place) }
    ensures kept { OnOk result (KeepsWorld world.old world.new) }
    ensures paid { OnOk result (budget.new ≤ budget.old) }
{
    let Some(table) = table_in(argument(args, 0)) else {
        return bad_argument(world, budget, place, 1, LibFn::Insert);
    };
    if !has_argument(args, 1) {
        return bad_argument(world, budget, place, 2, LibFn::Insert);
    }
    append(&mut world.heap, table, argument(args, 1))?;
    Ok(give_nothing(&world.heap))
}

/// Puts a value behind the end of a table's list. A list of more values than there are numbers doesn't fit into memory.
fn append(heap: &mut Heap, table: TableId, value: Value) -> Result<(), NoMemory>
    ensures heap { OnOk result (heap.new ≡ appended heap.old table value) }
    ensures kept { OnOk result (KeepsHeap heap.old heap.new) }
{
    let behind = heap.border(table).checked_add(1).ok_or(NoMemory)?;
    let key = key(behind)?;
    heap.store(table, Value::Number(key), value)
}

/// A number as a key.
fn key(place: u64) -> Result<Number, NoMemory>
    ensures { IfOk result (λ number. number ≡ pos place) }
{
    match i64::try_from(place) {
        Ok(place) => Number::new(place).ok_or(NoMemory),
        Err(_) => Err(NoMemory),
    }
}

/// Puts the values of another list behind the end of a list. Each of them is paid for before the first one is put.
pub fn insert_all(
    world: &mut World,
    budget: &mut Budget,
    args: &[Value],
    place: Place,
) -> Result<LibTurn, NoMemory>
    ensures does { IfOk result (λ turn.
        turned turn (state world.new budget.new) ≡ insertall_turned (state world.old budget.old) args.now place) }
    ensures kept { OnOk result (KeepsWorld world.old world.new) }
    ensures paid { OnOk result (budget.new ≤ budget.old) }
{
    let Some(table) = table_in(argument(args, 0)) else {
        return bad_argument(world, budget, place, 1, LibFn::InsertAll);
    };
    let Some(source) = table_in(argument(args, 1)) else {
        return bad_argument(world, budget, place, 2, LibFn::InsertAll);
    };
    if !budget.pay(world.heap.border(source)) {
        return Ok(LibTurn::Spent);
    }
    let values = values_in(&world.heap, source)?;
    append_all(&mut world.heap, table, values.as_slice())?;
    Ok(give_nothing(&world.heap))
}

/// Puts values behind the end of a table's list, one after the other.
fn append_all(heap: &mut Heap, table: TableId, values: &[Value]) -> Result<(), NoMemory>
    ensures { OnOk result (heap.new ≡ all_appended heap.old table values.now) }
{
    for value in values {
        append(heap, table, *value)?;
    }
    Ok(())
}

/// The values of a table's list, up to its end.
pub fn values_in(heap: &Heap, table: TableId) -> Result<Values, NoMemory>
    ensures { IfOk result (λ values. values ≡ values_in (table_at heap.now table)) }
{
    let mut values = Values::new(heap.allocator());
    for index in 0..heap.border(table) {
        let key = key(index + 1)?;
        values.push(heap.get(table, Value::Number(key)))?;
    }
    Ok(values)
}

/// Gives a new list of what a function gives for each value of a list, as long as that is at the begin. Each value is paid for before the
/// first call.
pub fn map(
    world: &mut World,
    budget: &mut Budget,
    args: &[Value],
    place: Place,
) -> Result<LibTurn, NoMemory>
    ensures does { IfOk result (λ turn.
        turned turn (state world.new budget.new) ≡ map_turned (state world.old budget.old) args.now place) }
    ensures kept { OnOk result (KeepsWorld world.old world.new) }
    ensures paid { OnOk result (budget.new ≤ budget.old) }
{
    let Some(source) = table_in(argument(args, 0)) else {
        return bad_argument(world, budget, place, 1, LibFn::Map);
    };
    if !has_argument(args, 1) {
        return bad_argument(world, budget, place, 2, LibFn::Map);
    }
    let count = world.heap.border(source);
    if !budget.pay(count) {
        return Ok(LibTurn::Spent);
    }
    let list = make_list(&mut world.heap)?;
    let function = argument(args, 1);
    map_from(&world.heap, source, count, list, &function, 1)
}

/// Calls the function of `map` on the value of a number, where there is one more, and gives the new list else.
fn map_from(
    heap: &Heap,
    source: TableId,
    count: u64,
    list: TableId,
    function: &Value,
    at: u64,
) -> Result<LibTurn, NoMemory>
    ensures { IfOk result (λ turn. turn ≡ mapping heap.now source count list function.now at) }
{
    if count < at {
        return give_one(heap, Value::Table(list));
    }
    let key = key(at)?;
    let mut args = Values::new(heap.allocator());
    args.push(heap.get(source, Value::Number(key)))?;
    Ok(LibTurn::CallBack {
        function: *function,
        args,
        next: LibNext::Map {
            source,
            count,
            result: list,
            function: *function,
            at,
        },
    })
}

/// Goes on with `map` behind a call of its function: puts the first value that it gave into the new list, or raises what it raised.
pub fn map_back(
    heap: &mut Heap,
    source: TableId,
    count: u64,
    list: TableId,
    function: Value,
    at: u64,
    answer: Back,
) -> Result<LibTurn, NoMemory>
    ensures turn { IfOk result (λ turn. turn ≡ map_turn heap.new source count list function at answer) }
    ensures heap { OnOk result (heap.new ≡ map_heap heap.old list at answer) }
    ensures kept { OnOk result (KeepsHeap heap.old heap.new) }
{
    match answer {
        Back::Values(values) => {
            let key = key(at)?;
            heap.store(list, Value::Number(key), argument(values.as_slice(), 0))?;
            let next = at.checked_add(1).ok_or(NoMemory)?;
            map_from(heap, source, count, list, &function, next)
        }
        Back::Raised(value, place) => Ok(LibTurn::Raise(value, place)),
    }
}

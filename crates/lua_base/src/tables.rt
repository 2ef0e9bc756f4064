// The functions that work on tables (Lua 5.1 manual, section 5.1).

ghost use Rattle.std.specs.Prelude.{◌≡◌, ◌≤◌, unsigned_abs, IfOk, OnOk};
ghost use Rattle.tl_base.specs.Layer.{state};
ghost use Rattle.lua_table.specs.Heap.{table_at};
ghost use Rattle.lua_table.specs.Keeping.{KeepsHeap};
ghost use Rattle.lua_base.specs.Calls.{turned};
ghost use Rattle.lua_base.specs.Tables.{metatable_of, value_under, values_from, counted, getmetatable_turned, given_metatable};
ghost use Rattle.lua_base.specs.Tables.{setmetatable_turned, rawequal_turned, rawget_turned, stored_raw, rawset_turned, found, next_turned};
ghost use Rattle.lua_base.specs.Tables.{pairs_turned, ipairs_turned, step_from, ipairs_next_turned, unpacked, unpack_to, unpack_turned};

use crate::answers::{bad_argument, give, raise};
use crate::arguments::{argument, has_argument, number_in, number_or, table_in};
use lua_table::{Heap, LibTurn, Next};
use lua_value::{LibFn, Number, Value, Values};
use tl_base::{Budget, NoMemory, Place, TableId};

/// The most values that `unpack` gives.
const MOST_RESULTS: u128 = 4_096;

/// A size that no number has.
const TOO_LARGE: i128 = 1_000_000_000_000_000;

/// The metatable of a value, and nil where it has none. Tables alone have one.
fn metatable_of(heap: &Heap, value: Value) -> Value
    ensures { result ≡ metatable_of heap.now value }
{
    match value {
        Value::Table(table) => match heap.metatable(table) {
            Some(metatable) => Value::Table(metatable),
            None => Value::Nil,
        },
        _ => Value::Nil,
    }
}

/// `getmetatable` gives the metatable of a value.
pub fn get_metatable(
    heap: &mut Heap,
    budget: &mut Budget,
    args: &[Value],
    place: Place,
) -> Result<LibTurn, NoMemory>
    ensures does { IfOk result (λ turn.
        turned turn (state heap.new budget.new) ≡ getmetatable_turned (state heap.old budget.old) args.now place) }
    ensures kept { OnOk result (KeepsHeap heap.old heap.new) }
    ensures paid { OnOk result (budget.new ≤ budget.old) }
{
    if !has_argument(args, 0) {
        return bad_argument(heap, budget, place, 1, LibFn::GetMetatable);
    }
    let metatable = metatable_of(heap, argument(args, 0));
    give(heap, &[metatable])
}

/// `setmetatable` gives a table a metatable, or takes it away, and gives the table.
pub fn set_metatable(
    heap: &mut Heap,
    budget: &mut Budget,
    args: &[Value],
    place: Place,
) -> Result<LibTurn, NoMemory>
    ensures does { IfOk result (λ turn.
        turned turn (state heap.new budget.new) ≡ setmetatable_turned (state heap.old budget.old) args.now place) }
    ensures kept { OnOk result (KeepsHeap heap.old heap.new) }
    ensures paid { OnOk result (budget.new ≤ budget.old) }
{
    let Some(table) = table_in(argument(args, 0)) else {
        return bad_argument(heap, budget, place, 1, LibFn::SetMetatable);
    };
    if !has_argument(args, 1) {
        return bad_argument(heap, budget, place, 2, LibFn::SetMetatable);
    }
    with_metatable(heap, budget, table, argument(args, 1), place)
}

/// Gives a table a metatable, or takes it away with nil.
fn with_metatable(
    heap: &mut Heap,
    budget: &mut Budget,
    table: TableId,
    metatable: Value,
    place: Place,
) -> Result<LibTurn, NoMemory>
    ensures does { IfOk result (λ turn.
        turned turn (state heap.new budget.new) ≡ given_metatable (state heap.old budget.old) table metatable place) }
    ensures kept { OnOk result (KeepsHeap heap.old heap.new) }
    ensures paid { OnOk result (budget.new ≤ budget.old) }
{
    match metatable {
        Value::Nil => {
            heap.set_metatable(table, None);
            give(heap, &[Value::Table(table)])
        }
        Value::Table(metatable) => {
            heap.set_metatable(table, Some(metatable));
            give(heap, &[Value::Table(table)])
        }
        _ => bad_argument(heap, budget, place, 2, LibFn::SetMetatable),
    }
}

/// `rawequal` tells whether two values are the same.
pub fn raw_equal(
    heap: &mut Heap,
    budget: &mut Budget,
    args: &[Value],
    place: Place,
) -> Result<LibTurn, NoMemory>
    ensures does { IfOk result (λ turn.
        turned turn (state heap.new budget.new) ≡ rawequal_turned (state heap.old budget.old) args.now place) }
    ensures kept { OnOk result (KeepsHeap heap.old heap.new) }
    ensures paid { OnOk result (budget.new ≤ budget.old) }
{
    if !has_argument(args, 0) {
        return bad_argument(heap, budget, place, 1, LibFn::RawEqual);
    }
    if !has_argument(args, 1) {
        return bad_argument(heap, budget, place, 2, LibFn::RawEqual);
    }
    let same = argument(args, 0).same(&argument(args, 1));
    give(heap, &[Value::Boolean(same)])
}

/// `rawget` gives the value under a key of a table.
pub fn raw_get(
    heap: &mut Heap,
    budget: &mut Budget,
    args: &[Value],
    place: Place,
) -> Result<LibTurn, NoMemory>
    ensures does { IfOk result (λ turn.
        turned turn (state heap.new budget.new) ≡ rawget_turned (state heap.old budget.old) args.now place) }
    ensures kept { OnOk result (KeepsHeap heap.old heap.new) }
    ensures paid { OnOk result (budget.new ≤ budget.old) }
{
    let Some(table) = table_in(argument(args, 0)) else {
        return bad_argument(heap, budget, place, 1, LibFn::RawGet);
    };
    if !has_argument(args, 1) {
        return bad_argument(heap, budget, place, 2, LibFn::RawGet);
    }
    let value = heap.get(table, argument(args, 1));
    give(heap, &[value])
}

/// `rawset` puts a value under a key of a table, and gives the table.
pub fn raw_set(
    heap: &mut Heap,
    budget: &mut Budget,
    args: &[Value],
    place: Place,
) -> Result<LibTurn, NoMemory>
    ensures does { IfOk result (λ turn.
        turned turn (state heap.new budget.new) ≡ rawset_turned (state heap.old budget.old) args.now place) }
    ensures kept { OnOk result (KeepsHeap heap.old heap.new) }
    ensures paid { OnOk result (budget.new ≤ budget.old) }
{
    let Some(table) = table_in(argument(args, 0)) else {
        return bad_argument(heap, budget, place, 1, LibFn::RawSet);
    };
    if !has_argument(args, 1) {
        return bad_argument(heap, budget, place, 2, LibFn::RawSet);
    }
    if !has_argument(args, 2) {
        return bad_argument(heap, budget, place, 3, LibFn::RawSet);
    }
    store_raw(
        heap,
        budget,
        table,
        argument(args, 1),
        argument(args, 2),
        place,
    )
}

/// Puts a value under a key of a table.
fn store_raw(
    heap: &mut Heap,
    budget: &mut Budget,
    table: TableId,
    key: Value,
    value: Value,
    place: Place,
) -> Result<LibTurn, NoMemory>
    ensures does { IfOk result (λ turn.
        turned turn (state heap.new budget.new) ≡ stored_raw (state heap.old budget.old) table key value place) }
    ensures kept { OnOk result (KeepsHeap heap.old heap.new) }
    ensures paid { OnOk result (budget.new ≤ budget.old) }
{
    if key.is_nil() {
        return raise(heap, budget, place, b"table index is nil");
    }
    heap.store(table, key, value)?;
    give(heap, &[Value::Table(table)])
}

/// `next` gives the entry after that of a key, and the first one for nil. Where none follows it gives nil.
pub fn next(
    heap: &mut Heap,
    budget: &mut Budget,
    args: &[Value],
    place: Place,
) -> Result<LibTurn, NoMemory>
    ensures does { IfOk result (λ turn.
        turned turn (state heap.new budget.new) ≡ next_turned (state heap.old budget.old) args.now place) }
    ensures kept { OnOk result (KeepsHeap heap.old heap.new) }
    ensures paid { OnOk result (budget.new ≤ budget.old) }
{
    let Some(table) = table_in(argument(args, 0)) else {
        return bad_argument(heap, budget, place, 1, LibFn::Next);
    };
    match heap.next(table, argument(args, 1)) {
        Next::Entry(key, value) => give(heap, &[key, value]),
        Next::Last => give(heap, &[Value::Nil]),
        Next::NoKey => raise(heap, budget, place, b"invalid key to 'next'"),
    }
}

/// `pairs` gives `next`, a table and nil.
pub fn pairs(
    heap: &mut Heap,
    budget: &mut Budget,
    args: &[Value],
    place: Place,
) -> Result<LibTurn, NoMemory>
    ensures does { IfOk result (λ turn.
        turned turn (state heap.new budget.new) ≡ pairs_turned (state heap.old budget.old) args.now place) }
    ensures kept { OnOk result (KeepsHeap heap.old heap.new) }
    ensures paid { OnOk result (budget.new ≤ budget.old) }
{
    let Some(table) = table_in(argument(args, 0)) else {
        return bad_argument(heap, budget, place, 1, LibFn::Pairs);
    };
    give(
        heap,
        &[Value::Library(LibFn::Next), Value::Table(table), Value::Nil],
    )
}

/// `ipairs` gives the function that goes to the next number, a table and 0.
pub fn ipairs(
    heap: &mut Heap,
    budget: &mut Budget,
    args: &[Value],
    place: Place,
) -> Result<LibTurn, NoMemory>
    ensures does { IfOk result (λ turn.
        turned turn (state heap.new budget.new) ≡ ipairs_turned (state heap.old budget.old) args.now place) }
    ensures kept { OnOk result (KeepsHeap heap.old heap.new) }
    ensures paid { OnOk result (budget.new ≤ budget.old) }
{
    let Some(table) = table_in(argument(args, 0)) else {
        return bad_argument(heap, budget, place, 1, LibFn::Ipairs);
    };
    let zero = match Number::new(0) {
        Some(zero) => Value::Number(zero),
        None => Value::Nil,
    };
    give(
        heap,
        &[Value::Library(LibFn::IpairsNext), Value::Table(table), zero],
    )
}

/// How many numbers there are from one to another.
fn counted(first: i128, last: i128) -> u128
    requires first { unsigned_abs first ≤ 18446744073709551615 }
    requires last { unsigned_abs last ≤ 18446744073709551615 }
    ensures { result ≡ counted first last }
{
    if first <= last {
        (last - first + 1) as u128
    } else {
        0
    }
}

/// The value under a whole number of a table. None stands under one that is out of the profile.
fn value_under(heap: &Heap, table: TableId, number: i128) -> Value
    ensures { result ≡ value_under (table_at heap.now table) number }
{
    if number < -TOO_LARGE || number > TOO_LARGE {
        return Value::Nil;
    }
    match Number::new(number as i64) {
        Some(number) => heap.get(table, Value::Number(number)),
        None => Value::Nil,
    }
}

/// The function that `ipairs` gives goes to the next number, and gives it and the value under it. Where this is nil it gives nothing.
pub fn ipairs_next(
    heap: &mut Heap,
    budget: &mut Budget,
    args: &[Value],
    place: Place,
) -> Result<LibTurn, NoMemory>
    ensures does { IfOk result (λ turn.
        turned turn (state heap.new budget.new) ≡ ipairs_next_turned (state heap.old budget.old) args.now place) }
    ensures kept { OnOk result (KeepsHeap heap.old heap.new) }
    ensures paid { OnOk result (budget.new ≤ budget.old) }
{
    let Some(table) = table_in(argument(args, 0)) else {
        return bad_argument(heap, budget, place, 1, LibFn::IpairsNext);
    };
    let number = number_in(heap, argument(args, 1));
    step_from(heap, budget, table, place, number)
}

/// Goes from a number to the next one.
fn step_from(
    heap: &mut Heap,
    budget: &mut Budget,
    table: TableId,
    place: Place,
    number: Option<Number>,
) -> Result<LibTurn, NoMemory>
    ensures does { IfOk result (λ turn.
        turned turn (state heap.new budget.new) ≡ step_from (state heap.old budget.old) table place number) }
    ensures kept { OnOk result (KeepsHeap heap.old heap.new) }
    ensures paid { OnOk result (budget.new ≤ budget.old) }
{
    let Some(number) = number else {
        return bad_argument(heap, budget, place, 2, LibFn::IpairsNext);
    };
    let Some(next) = Number::new(number.get() + 1) else {
        return give(heap, &[]);
    };
    let value = heap.get(table, Value::Number(next));
    if value.is_nil() {
        give(heap, &[])
    } else {
        give(heap, &[Value::Number(next), value])
    }
}

/// `unpack` gives the values under the numbers from its second argument, or 1, to its third one, or the table's border.
pub fn unpack(
    heap: &mut Heap,
    budget: &mut Budget,
    args: &[Value],
    place: Place,
) -> Result<LibTurn, NoMemory>
    ensures does { IfOk result (λ turn.
        turned turn (state heap.new budget.new) ≡ unpack_turned (state heap.old budget.old) args.now place) }
    ensures kept { OnOk result (KeepsHeap heap.old heap.new) }
    ensures paid { OnOk result (budget.new ≤ budget.old) }
{
    let Some(table) = table_in(argument(args, 0)) else {
        return bad_argument(heap, budget, place, 1, LibFn::Unpack);
    };
    let Some(first) = number_or(heap, argument(args, 1), 1) else {
        return bad_argument(heap, budget, place, 2, LibFn::Unpack);
    };
    let border = i128::from(heap.border(table));
    let Some(last) = number_or(heap, argument(args, 2), border) else {
        return bad_argument(heap, budget, place, 3, LibFn::Unpack);
    };
    unpack_from(heap, budget, table, place, first, counted(first, last))
}

/// Gives so many values from a number on, each of which is paid for.
fn unpack_from(
    heap: &mut Heap,
    budget: &mut Budget,
    table: TableId,
    place: Place,
    first: i128,
    count: u128,
) -> Result<LibTurn, NoMemory>
    requires { unsigned_abs first ≤ 18446744073709551615 }
    ensures does { IfOk result (λ turn.
        turned turn (state heap.new budget.new) ≡ unpacked (state heap.old budget.old) table place first count) }
    ensures kept { OnOk result (KeepsHeap heap.old heap.new) }
    ensures paid { OnOk result (budget.new ≤ budget.old) }
{
    if count > MOST_RESULTS {
        return raise(heap, budget, place, b"too many results");
    }
    let count = count as u64;
    if !budget.pay(count) {
        return Ok(LibTurn::Spent);
    }
    let values = values_from(heap, table, first, count)?;
    Ok(LibTurn::Values(values))
}

/// So many values of a table, from a number on.
fn values_from(heap: &Heap, table: TableId, first: i128, count: u64) -> Result<Values, NoMemory>
    requires first { unsigned_abs first ≤ 18446744073709551615 }
    requires few { count ≤ 4096 }
    ensures { IfOk result (λ values. values ≡ values_from (table_at heap.now table) first count) }
{
    let mut values = Values::new(heap.allocator());
    for step in 0..count {
        values.push(value_under(heap, table, first + i128::from(step)))?;
    }
    Ok(values)
}

// The functions on tables.

ghost use Rattle.std.specs.Prelude.{◌≡◌, ◌+◌, ◌*◌, ◌≤◌, pos, ◌+ℤ◌, ◌≤ℤ◌, [], ◌++◌, length, IfOk, OnOk};
ghost use Rattle.std.specs.Int.{int_gap};
ghost use Rattle.tl_base.specs.Layer.{state};
ghost use Rattle.lua_value.specs.Numbers.{IsInProfile, largest_size};
ghost use Rattle.lua_value.specs.declared.value.Value.TheVariants as values;
ghost use Rattle.lua_table.specs.Keeping.{KeepsHeap};
ghost use Rattle.lua_base.specs.Calls.{turned};
ghost use Rattle.lua_textlib.specs.Tables.{concat_turned, insert_turned, remove_turned, inserted, removed, joined, joined_step};
ghost use Rattle.lua_textlib.specs.Tables.{joined_value, grew, shifted_up, shifted_down, end_of, held, with_held, count_between};

use crate::answers::{give_nothing, give_value, make_or, push_within};
use crate::arguments::{number, number_or, text_in, text_or_empty};
use crate::refusal::Refusal;
use lua_base::{argument, bad_argument, number_in, table_in};
use lua_table::{Heap, LibTurn};
use lua_value::{LibFn, Number, Value};
use tl_base::{Budget, Bytes, NoMemory, Place, TableId};

/// Gives the text of a table's values from a number to another one, or of its list, with a separator between them, or nothing. Each value
/// is paid for before it is read, and the text before it is made.
pub fn concat(
    heap: &mut Heap,
    budget: &mut Budget,
    args: &[Value],
    place: Place,
) -> Result<LibTurn, NoMemory>
    ensures does { IfOk result (λ turn.
        turned turn (state heap.new budget.new) ≡ concat_turned (state heap.old budget.old) args.now place) }
    ensures kept { OnOk result (KeepsHeap heap.old heap.new) }
    ensures paid { OnOk result (budget.new ≤ budget.old) }
{
    let Some(table) = table_in(argument(args, 0)) else {
        return bad_argument(heap, budget, place, 1, LibFn::Concat);
    };
    let Some(separator) = text_or_empty(heap, argument(args, 1))? else {
        return bad_argument(heap, budget, place, 2, LibFn::Concat);
    };
    let Some(first) = number_or(heap, argument(args, 2), number(1)) else {
        return bad_argument(heap, budget, place, 3, LibFn::Concat);
    };
    let Some(last) = number_or(heap, argument(args, 3), end_of(heap, table)?) else {
        return bad_argument(heap, budget, place, 4, LibFn::Concat);
    };
    let made = joined(heap, budget, table, separator.bytes(heap), first, last)?;
    make_or(heap, budget, made, place, LibFn::Concat)
}

/// The end of a table's list. A list of more values than there are numbers doesn't fit into memory.
fn end_of(heap: &Heap, table: TableId) -> Result<Number, NoMemory>
    ensures { IfOk result (λ end. end ≡ pos (end_of heap.now table)) }
{
    number_or_no_memory(heap.border(table))
}

/// The number behind the end of a table's list.
fn behind_end(heap: &Heap, table: TableId) -> Result<Number, NoMemory>
    ensures { IfOk result (λ end. end ≡ pos (end_of heap.now table + 1)) }
{
    number_or_no_memory(heap.border(table).checked_add(1).ok_or(NoMemory)?)
}

fn number_or_no_memory(size: u64) -> Result<Number, NoMemory>
    ensures { IfOk result (λ number. number ≡ pos size) }
{
    match i64::try_from(size) {
        Ok(size) => Number::new(size).ok_or(NoMemory),
        Err(_) => Err(NoMemory),
    }
}

/// The text of a table's values from a number to another one, or what ends it.
fn joined(
    heap: &Heap,
    budget: &mut Budget,
    table: TableId,
    separator: &[u8],
    first: Number,
    last: Number,
) -> Result<Result<Bytes, Refusal>, NoMemory>
    ensures does { IfOk result (λ made. record { made = made; left = budget.new } ≡
        joined heap.now table separator.now [] first (count_between first last) [] budget.old) }
    ensures paid { OnOk result (budget.new ≤ budget.old) }
{
    let mut made = Bytes::new(heap.allocator());
    let mut before: &[u8] = &[];
    for index in 0..count_between(first, last) {
        let at = first.get() + index as i64;
        if let Some(refusal) = join_value(heap, budget, table, before, at, &mut made)? {
            return Ok(Err(refusal));
        }
        before = separator;
    }
    Ok(Ok(made))
}

/// Pays for the value under a number, and puts it behind a text that is being made, with what stands before it.
fn join_value(
    heap: &Heap,
    budget: &mut Budget,
    table: TableId,
    before: &[u8],
    at: i64,
    made: &mut Bytes,
) -> Result<Option<Refusal>, NoMemory>
    requires { IsInProfile at }
    ensures does { IfOk result (λ refusal. record { made = grew refusal made.new; left = budget.new } ≡
        joined_step heap.now table before.now at made.old budget.old) }
    ensures paid { OnOk result (budget.new ≤ budget.old) }
{
    if !budget.pay(1) {
        return Ok(Some(Refusal::Spent));
    }
    push_value(heap, made, before, heap.get(table, key(at)))
}

/// Puts a value of a table behind a text that is being made, with what stands before it.
fn push_value(
    heap: &Heap,
    made: &mut Bytes,
    before: &[u8],
    value: Value,
) -> Result<Option<Refusal>, NoMemory>
    ensures { IfOk result (λ refusal. grew refusal made.new ≡ joined_value heap.now made.old before.now value) }
{
    let Some(piece) = text_in(heap, value)? else {
        return Ok(Some(Refusal::BadArgument(1)));
    };
    if push_within(made, before)? && push_within(made, piece.bytes(heap))? {
        Ok(None)
    } else {
        Ok(Some(Refusal::TooLong))
    }
}

/// How many whole numbers there are from one to another one, which is among them.
fn count_between(first: Number, last: Number) -> u64
    ensures count { result ≡ count_between first last }
    ensures within { result ≤ 2 * largest_size + 1 }
{
    if first.get() <= last.get() {
        gap(first, last) + 1
    } else {
        0
    }
}

/// How far a number is above another one, and 0 where it is below it.
fn gap(from: Number, to: Number) -> u64
    ensures gap { result ≡ int_gap from to }
    ensures within { result ≤ 2 * largest_size }
{
    if from.get() < to.get() {
        (to.get() - from.get()) as u64
    } else {
        0
    }
}

/// A number as a key.
fn key(value: i64) -> Value
    requires { IsInProfile value }
    ensures { result ≡ values.Number value }
{
    Value::Number(number(value))
}

/// Puts a value behind the end of a list, or under a number, for which the values from there on make way.
pub fn insert(
    heap: &mut Heap,
    budget: &mut Budget,
    args: &[Value],
    place: Place,
) -> Result<LibTurn, NoMemory>
    ensures does { IfOk result (λ turn.
        turned turn (state heap.new budget.new) ≡ insert_turned (state heap.old budget.old) args.now place) }
    ensures kept { OnOk result (KeepsHeap heap.old heap.new) }
    ensures paid { OnOk result (budget.new ≤ budget.old) }
{
    let Some(table) = table_in(argument(args, 0)) else {
        return bad_argument(heap, budget, place, 1, LibFn::TableInsert);
    };
    if args.len() < 2 {
        return bad_argument(heap, budget, place, 2, LibFn::TableInsert);
    }
    let end = behind_end(heap, table)?;
    if args.len() == 2 {
        return insert_at(heap, budget, table, end, end, argument(args, 1));
    }
    let Some(at) = number_in(heap, argument(args, 1)) else {
        return bad_argument(heap, budget, place, 2, LibFn::TableInsert);
    };
    if args.len() > 3 {
        return bad_argument(heap, budget, place, 4, LibFn::TableInsert);
    }
    insert_at(heap, budget, table, at, end, argument(args, 2))
}

/// Puts a value under a number, behind the shift of those from there to the end. Each of these is paid for before the first one is moved.
fn insert_at(
    heap: &mut Heap,
    budget: &mut Budget,
    table: TableId,
    at: Number,
    end: Number,
    value: Value,
) -> Result<LibTurn, NoMemory>
    requires { end ≡ pos (end_of heap.old table + 1) }
    ensures does { IfOk result (λ turn.
        turned turn (state heap.new budget.new) ≡ inserted (state heap.old budget.old) table at value) }
    ensures kept { OnOk result (KeepsHeap heap.old heap.new) }
    ensures paid { OnOk result (budget.new ≤ budget.old) }
{
    let shift = gap(at, end);
    if !budget.pay(shift + 1) {
        return Ok(LibTurn::Spent);
    }
    make_way(heap, table, at, shift, value)?;
    Ok(give_nothing(heap))
}

/// Puts a value under a number, from which so many values are moved.
fn make_way(
    heap: &mut Heap,
    table: TableId,
    at: Number,
    shift: u64,
    value: Value,
) -> Result<(), NoMemory>
    requires { (at +ℤ pos shift) ≤ℤ pos largest_size }
    ensures does { OnOk result (heap.new ≡ with_held (shifted_up heap.old table at shift) table at value) }
    ensures kept { OnOk result (KeepsHeap heap.old heap.new) }
{
    shift_up(heap, table, at, shift)?;
    heap.store(table, Value::Number(at), value)?;
    Ok(())
}

/// Moves so many values, from a number on, each to the next number, the last one first.
fn shift_up(heap: &mut Heap, table: TableId, at: Number, shift: u64) -> Result<(), NoMemory>
    requires { (at +ℤ pos shift) ≤ℤ pos largest_size }
    ensures does { OnOk result (heap.new ≡ shifted_up heap.old table at shift) }
    ensures kept { OnOk result (KeepsHeap heap.old heap.new) }
{
    for index in 0..shift {
        let to = at.get() + (shift - index) as i64;
        move_value(heap, table, to - 1, to)?;
    }
    Ok(())
}

/// Puts the value under a number under another one.
fn move_value(heap: &mut Heap, table: TableId, from: i64, to: i64) -> Result<(), NoMemory>
    requires from { IsInProfile from }
    requires to { IsInProfile to }
    ensures does { OnOk result (heap.new ≡ with_held heap.old table to (held heap.old table from)) }
    ensures kept { OnOk result (KeepsHeap heap.old heap.new) }
{
    let value = heap.get(table, key(from));
    heap.store(table, key(to), value)
}

/// Takes the value under a number of a list out, or the last one, and gives it. Outside of the list it does nothing.
pub fn remove(
    heap: &mut Heap,
    budget: &mut Budget,
    args: &[Value],
    place: Place,
) -> Result<LibTurn, NoMemory>
    ensures does { IfOk result (λ turn.
        turned turn (state heap.new budget.new) ≡ remove_turned (state heap.old budget.old) args.now place) }
    ensures kept { OnOk result (KeepsHeap heap.old heap.new) }
    ensures paid { OnOk result (budget.new ≤ budget.old) }
{
    let Some(table) = table_in(argument(args, 0)) else {
        return bad_argument(heap, budget, place, 1, LibFn::Remove);
    };
    let end = end_of(heap, table)?;
    let Some(at) = number_or(heap, argument(args, 1), end) else {
        return bad_argument(heap, budget, place, 2, LibFn::Remove);
    };
    if 1 <= at.get() && at.get() <= end.get() {
        remove_at(heap, budget, table, at, end)
    } else {
        Ok(give_nothing(heap))
    }
}

/// Takes a value out: those behind it are shifted, and the end is emptied. Each of these is paid for before the first one is moved.
fn remove_at(
    heap: &mut Heap,
    budget: &mut Budget,
    table: TableId,
    at: Number,
    end: Number,
) -> Result<LibTurn, NoMemory>
    requires end { end ≡ pos (end_of heap.old table) }
    requires at { at ≤ℤ end }
    ensures does { IfOk result (λ turn.
        turned turn (state heap.new budget.new) ≡ removed (state heap.old budget.old) table at) }
    ensures kept { OnOk result (KeepsHeap heap.old heap.new) }
    ensures paid { OnOk result (budget.new ≤ budget.old) }
{
    let behind = gap(at, end);
    if !budget.pay(behind + 1) {
        return Ok(LibTurn::Spent);
    }
    let value = heap.get(table, Value::Number(at));
    close_up(heap, table, at, end, behind)?;
    give_value(heap, value)
}

/// Moves the values behind a number of a list, which are so many, to it, and empties the end.
fn close_up(
    heap: &mut Heap,
    table: TableId,
    at: Number,
    end: Number,
    shift: u64,
) -> Result<(), NoMemory>
    requires { (at +ℤ pos shift) ≤ℤ pos largest_size }
    ensures does { OnOk result (heap.new ≡ with_held (shifted_down heap.old table at shift) table end values.Nil) }
    ensures kept { OnOk result (KeepsHeap heap.old heap.new) }
{
    shift_down(heap, table, at, shift)?;
    heap.store(table, Value::Number(end), Value::Nil)?;
    Ok(())
}

/// Moves so many values behind a number, each to the number before, the first one first.
fn shift_down(heap: &mut Heap, table: TableId, at: Number, shift: u64) -> Result<(), NoMemory>
    requires { (at +ℤ pos shift) ≤ℤ pos largest_size }
    ensures does { OnOk result (heap.new ≡ shifted_down heap.old table at shift) }
    ensures kept { OnOk result (KeepsHeap heap.old heap.new) }
{
    for index in 0..shift {
        let to = at.get() + index as i64;
        move_value(heap, table, to + 1, to)?;
    }
    Ok(())
}

// The functions on texts, `format` aside.

ghost use Rattle.std.specs.Prelude.{◌≡◌, ◌≤◌, ◌*◌, [], length, map, pos, IfOk, OnOk};
ghost use Rattle.lua_value.specs.Numbers.{largest_size};
ghost use Rattle.tl_base.specs.Layer.{state};
ghost use Rattle.lua_table.specs.Keeping.{KeepsHeap};
ghost use Rattle.lua_base.specs.Calls.{turned};
ghost use Rattle.lua_textlib.specs.Texts.{len_turned, sub_turned, byte_turned, rep_turned, char_turned, place_of, part, number_of_byte};
ghost use Rattle.lua_textlib.specs.Texts.{repeated, times, byte_from, chars_from};
ghost use Rattle.lua_base.specs.Arguments.{number_in};
ghost use Rattle.lua_textlib.specs.Arguments.{bytes_in};
ghost use Rattle.lua_textlib.specs.Answers.{making};

use crate::answers::{give_text, give_value, make_or, raise_too_long};
use crate::arguments::{Piece, number, number_or, text_in};
use crate::refusal::Refusal;
use lua_base::{argument, bad_argument, number_in};
use lua_table::{Heap, LibTurn, text_units};
use lua_value::{LibFn, Number, Value, Values};
use std::alloc::Global;
use tl_base::{Budget, Bytes, NoMemory, Place, Text};

/// Gives how many bytes a text has.
pub fn len(
    heap: &mut Heap,
    budget: &mut Budget,
    args: &[Value],
    place: Place,
) -> Result<LibTurn, NoMemory>
    ensures does { IfOk result (λ turn.
        turned turn (state heap.new budget.new) ≡ len_turned (state heap.old budget.old) args.now place) }
    ensures kept { OnOk result (KeepsHeap heap.old heap.new) }
    ensures paid { OnOk result (budget.new ≤ budget.old) }
{
    let Some(text) = text_in(heap, argument(args, 0))? else {
        return bad_argument(heap, budget, place, 1, LibFn::Len);
    };
    let size = size_of(text.bytes(heap));
    give_value(heap, Value::Number(size))
}

/// How many bytes there are, as a number.
fn size_of(bytes: &[u8]) -> Number
    requires { length bytes.now ≤ Text.MAX_LEN }
    ensures { result ≡ pos (length bytes.now) }
{
    number(bytes.len() as i64)
}

/// Gives the part of a text from a place on, to another place or to the end.
pub fn sub(
    heap: &mut Heap,
    budget: &mut Budget,
    args: &[Value],
    place: Place,
) -> Result<LibTurn, NoMemory>
    ensures does { IfOk result (λ turn.
        turned turn (state heap.new budget.new) ≡ sub_turned (state heap.old budget.old) args.now place) }
    ensures kept { OnOk result (KeepsHeap heap.old heap.new) }
    ensures paid { OnOk result (budget.new ≤ budget.old) }
{
    let Some(text) = text_in(heap, argument(args, 0))? else {
        return bad_argument(heap, budget, place, 1, LibFn::Sub);
    };
    let Some(first) = number_in(heap, argument(args, 1)) else {
        return bad_argument(heap, budget, place, 2, LibFn::Sub);
    };
    let Some(last) = number_or(heap, argument(args, 2), number(-1)) else {
        return bad_argument(heap, budget, place, 3, LibFn::Sub);
    };
    let part = part(text.bytes(heap), first, last);
    if !budget.pay(text_units(part.len())) {
        return Ok(LibTurn::Spent);
    }
    let made = part.to_vec(heap.allocator())?;
    give_text(heap, &made)
}

/// Gives the bytes of a part of a text as numbers: from a place, or from the begin, to another place, or this one alone.
pub fn byte(
    heap: &mut Heap,
    budget: &mut Budget,
    args: &[Value],
    place: Place,
) -> Result<LibTurn, NoMemory>
    ensures does { IfOk result (λ turn.
        turned turn (state heap.new budget.new) ≡ byte_turned (state heap.old budget.old) args.now place) }
    ensures kept { OnOk result (KeepsHeap heap.old heap.new) }
    ensures paid { OnOk result (budget.new ≤ budget.old) }
{
    let Some(text) = text_in(heap, argument(args, 0))? else {
        return bad_argument(heap, budget, place, 1, LibFn::Byte);
    };
    let Some(first) = number_or(heap, argument(args, 1), number(1)) else {
        return bad_argument(heap, budget, place, 2, LibFn::Byte);
    };
    let there = place_number(text.bytes(heap), first);
    let Some(last) = number_or(heap, argument(args, 2), there) else {
        return bad_argument(heap, budget, place, 3, LibFn::Byte);
    };
    let values = byte_values(heap, part(text.bytes(heap), first, last))?;
    Ok(LibTurn::Values(values))
}

/// Bytes as numbers.
fn byte_values(heap: &Heap, bytes: &[u8]) -> Result<Values, NoMemory>
    ensures { IfOk result (λ values. values ≡ map number_of_byte bytes.now) }
{
    let mut values = Values::new(heap.allocator());
    for byte in bytes {
        values.push(Value::Number(number(i64::from(*byte))))?;
    }
    Ok(values)
}

/// The bytes of a text from one place to another one, which is among them, as far as they are there.
fn part(bytes: &[u8], first: Number, last: Number) -> &[u8]
    requires { length bytes.now ≤ Text.MAX_LEN }
    ensures part { result.now ≡ part bytes.now first last }
    ensures within { length result.now ≤ Text.MAX_LEN }
{
    let from = place_of(bytes.len(), first).saturating_sub(1);
    let to = place_of(bytes.len(), last).min(bytes.len());
    if from < to { &bytes[from..to] } else { &[] }
}

/// The place in a text of so many bytes that a number names: from 1 on, or from the end where it is negative, which is 0 before the begin.
fn place_of(size: usize, number: Number) -> usize
    requires { size ≤ Text.MAX_LEN }
    ensures place { result ≡ place_of size number }
    ensures within { result ≤ largest_size }
{
    let number = number.get();
    if number >= 0 {
        number as usize
    } else {
        (size + 1).saturating_sub(number.unsigned_abs() as usize)
    }
}

/// The place that a number names, as a number.
fn place_number(bytes: &[u8], first: Number) -> Number
    requires { length bytes.now ≤ Text.MAX_LEN }
    ensures { result ≡ pos (place_of (length bytes.now) first) }
{
    number(place_of(bytes.len(), first) as i64)
}

/// Gives a text so many times. It is paid for before it is made.
pub fn rep(
    heap: &mut Heap,
    budget: &mut Budget,
    args: &[Value],
    place: Place,
) -> Result<LibTurn, NoMemory>
    ensures does { IfOk result (λ turn.
        turned turn (state heap.new budget.new) ≡ rep_turned (state heap.old budget.old) args.now place) }
    ensures kept { OnOk result (KeepsHeap heap.old heap.new) }
    ensures paid { OnOk result (budget.new ≤ budget.old) }
{
    let Some(text) = text_in(heap, argument(args, 0))? else {
        return bad_argument(heap, budget, place, 1, LibFn::Rep);
    };
    let Some(count) = number_in(heap, argument(args, 1)) else {
        return bad_argument(heap, budget, place, 2, LibFn::Rep);
    };
    repeat(heap, budget, &text, times(count), place)
}

#[tactic(auto, using(crate::proofs::Repeats::made_long, crate::proofs::Repeats::made_paid, crate::proofs::Repeats::repeated_length))]
/// Pays for a text so many times, and gives it.
fn repeat(
    heap: &mut Heap,
    budget: &mut Budget,
    text: &Piece,
    times: usize,
    place: Place,
) -> Result<LibTurn, NoMemory>
    requires { times ≤ largest_size }
    ensures does { IfOk result (λ turn. turned turn (state heap.new budget.new) ≡
        making (state heap.old budget.old) (repeated times (bytes_in heap.old text.now)) place) }
    ensures kept { OnOk result (KeepsHeap heap.old heap.new) }
    ensures paid { OnOk result (budget.new ≤ budget.old) }
{
    let size = text.bytes(heap).len() * times;
    if size > Text::MAX_LEN {
        return raise_too_long(heap, budget, place);
    }
    if !budget.pay(text_units(size)) {
        return Ok(LibTurn::Spent);
    }
    let made = repeated(heap.allocator(), text.bytes(heap), times)?;
    give_text(heap, &made)
}

/// How often a number says, which is not at all where it is negative.
fn times(number: Number) -> usize
    ensures times { result ≡ times number }
    ensures within { result ≤ largest_size }
{
    let number = number.get();
    if number > 0 { number as usize } else { 0 }
}

#[tactic(auto, using(crate::proofs::Repeats::repeated_more))]
/// Bytes so many times.
fn repeated(alloc: Global, bytes: &[u8], times: usize) -> Result<Vec<u8>, NoMemory>
    requires { length bytes.now * times ≤ Text.MAX_LEN }
    ensures { IfOk result (λ made. made.items ≡ repeated times bytes.now) }
{
    let mut made = Vec::with_capacity(alloc, bytes.len() * times)?;
    for _turn in 0..turns(bytes, times) {
        made.extend_from_slice(bytes)?;
    }
    Ok(made)
}

#[tactic(auto, using(crate::proofs::Repeats::repeated_nothing))]
/// How often bytes are put behind each other. No bytes are the same any number of times, and a loop over these would not end soon.
fn turns(bytes: &[u8], times: usize) -> usize
    ensures { repeated result bytes.now ≡ repeated times bytes.now }
{
    if bytes.is_empty() { 0 } else { times }
}

/// Gives the text of the bytes that the arguments are.
pub fn char(
    heap: &mut Heap,
    budget: &mut Budget,
    args: &[Value],
    place: Place,
) -> Result<LibTurn, NoMemory>
    ensures does { IfOk result (λ turn.
        turned turn (state heap.new budget.new) ≡ char_turned (state heap.old budget.old) args.now place) }
    ensures kept { OnOk result (KeepsHeap heap.old heap.new) }
    ensures paid { OnOk result (budget.new ≤ budget.old) }
{
    let made = chars(heap, args)?;
    make_or(heap, budget, made, place, LibFn::Char)
}

/// The bytes that arguments are, or the position of the first one that is none.
fn chars(heap: &Heap, args: &[Value]) -> Result<Result<Bytes, Refusal>, NoMemory>
    ensures { IfOk result (λ made. made ≡ chars_from heap.now [] 1 args.now) }
{
    let mut made = Bytes::new(heap.allocator());
    for (index, value) in args.iter().enumerate() {
        let Some(byte) = byte_in(heap, *value) else {
            return Ok(Err(Refusal::BadArgument(index + 1)));
        };
        made.push_all(&[byte])?;
    }
    Ok(Ok(made))
}

/// The byte that a value is as a number.
fn byte_in(heap: &Heap, value: Value) -> Option<u8>
    ensures { result ≡ byte_from (number_in heap.now value) }
{
    let number = number_in(heap, value)?;
    u8::try_from(number.get()).ok()
}

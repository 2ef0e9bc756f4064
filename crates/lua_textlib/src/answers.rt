// What the functions answer.

ghost use Rattle.std.specs.Prelude.{◌≡◌, ◌≤◌, [], ◌∷◌, ◌++◌, length, nat_le, codes, IfOk, OnOk, Ok, Err, if◌then◌else◌};
ghost use Rattle.std.specs.String.{string_bytes};
ghost use Rattle.tl_base.specs.Layer.{state};
ghost use Rattle.lua_value.specs.declared.value.Value.TheVariants as values;
ghost use Rattle.lua_table.specs.Heap.{interned_id, with_text};
ghost use Rattle.lua_table.specs.Keeping.{KeepsHeap};
ghost use Rattle.lua_base.specs.Calls.{turned, bad_argument};
ghost use Rattle.lua_textlib.specs.Answers.{one_value, too_long, making, making_or};

use crate::refusal::Refusal;
use lua_base::{bad_argument, raise};
use lua_table::{Heap, LibTurn, text_units};
use lua_value::{LibFn, Value, Values};
use std::alloc::Global;
use tl_base::{Budget, Bytes, NoMemory, Place, Text};

/// Gives no value.
pub fn give_nothing(heap: &Heap) -> LibTurn
    ensures { result ≡ LibTurn.Values [] }
{
    LibTurn::Values(Values::new(heap.allocator()))
}

/// Gives one value.
pub fn give_value(heap: &Heap, value: Value) -> Result<LibTurn, NoMemory>
    ensures { IfOk result (λ turn. turn ≡ one_value value) }
{
    let mut values = Values::new(heap.allocator());
    values.push(value)?;
    Ok(LibTurn::Values(values))
}

/// Gives the text of these bytes, which is paid for already.
pub fn give_text(heap: &mut Heap, bytes: &[u8]) -> Result<LibTurn, NoMemory>
    requires { length bytes.now ≤ Text.MAX_LEN }
    ensures turn { IfOk result (λ turn. turn ≡ one_value (values.Text (interned_id heap.old bytes.now))) }
    ensures heap { OnOk result (heap.new ≡ with_text heap.old bytes.now) }
    ensures kept { OnOk result (KeepsHeap heap.old heap.new) }
{
    let text = heap.intern(bytes)?;
    give_value(heap, Value::Text(text))
}

/// Pays for the text of these bytes and gives it, or raises that it is too long.
pub fn make(
    heap: &mut Heap,
    budget: &mut Budget,
    bytes: &[u8],
    place: Place,
) -> Result<LibTurn, NoMemory>
    ensures does { IfOk result (λ turn.
        turned turn (state heap.new budget.new) ≡ making (state heap.old budget.old) bytes.now place) }
    ensures kept { OnOk result (KeepsHeap heap.old heap.new) }
    ensures paid { OnOk result (budget.new ≤ budget.old) }
{
    if bytes.len() > Text::MAX_LEN {
        return raise_too_long(heap, budget, place);
    }
    if !budget.pay(text_units(bytes.len())) {
        return Ok(LibTurn::Spent);
    }
    give_text(heap, bytes)
}

/// Raises that a text is too long, with the place of the call before it.
pub fn raise_too_long(
    heap: &mut Heap,
    budget: &mut Budget,
    place: Place,
) -> Result<LibTurn, NoMemory>
    ensures does { IfOk result (λ turn.
        turned turn (state heap.new budget.new) ≡ too_long (state heap.old budget.old) place) }
    ensures kept { OnOk result (KeepsHeap heap.old heap.new) }
    ensures paid { OnOk result (budget.new ≤ budget.old) }
{
    raise(heap, budget, place, b"text too long")
}

/// Answers with a text that was made step by step, or with what ended it before.
pub fn make_or(
    heap: &mut Heap,
    budget: &mut Budget,
    made: Result<Bytes, Refusal>,
    place: Place,
    function: LibFn,
) -> Result<LibTurn, NoMemory>
    ensures does { IfOk result (λ turn.
        turned turn (state heap.new budget.new) ≡ making_or (state heap.old budget.old) made place function) }
    ensures kept { OnOk result (KeepsHeap heap.old heap.new) }
    ensures paid { OnOk result (budget.new ≤ budget.old) }
{
    match made {
        Ok(text) => make(heap, budget, text.as_slice(), place),
        Err(Refusal::BadArgument(position)) => {
            raise_bad_argument(heap, budget, position, place, function)
        }
        Err(Refusal::TooLong) => raise_too_long(heap, budget, place),
        Err(Refusal::Spent) => Ok(LibTurn::Spent),
    }
}

/// Raises that the argument of a position isn't of its form. So many arguments that a position has more than 32 bits don't fit into memory.
fn raise_bad_argument(
    heap: &mut Heap,
    budget: &mut Budget,
    position: usize,
    place: Place,
    function: LibFn,
) -> Result<LibTurn, NoMemory>
    ensures does { IfOk result (λ turn.
        turned turn (state heap.new budget.new) ≡ bad_argument (state heap.old budget.old) place position function) }
    ensures kept { OnOk result (KeepsHeap heap.old heap.new) }
    ensures paid { OnOk result (budget.new ≤ budget.old) }
{
    match u32::try_from(position) {
        Ok(position) => bad_argument(heap, budget, place, position, function),
        Err(_) => Err(NoMemory),
    }
}

/// Puts bytes behind a text that is being made, unless it becomes too long by them. Whether it does not.
pub fn push_within(made: &mut Bytes, more: &[u8]) -> Result<bool, NoMemory>
    ensures fits { IfOk result (λ fits. fits ≡ nat_le (length (made.old ++ more.now)) Text.MAX_LEN) }
    ensures made { IfOk result (λ fits. made.new ≡ (if fits then made.old ++ more.now else made.old)) }
{
    if made.as_slice().len() > Text::MAX_LEN || more.len() > Text::MAX_LEN - made.as_slice().len() {
        return Ok(false);
    }
    made.push_all(more)?;
    Ok(true)
}

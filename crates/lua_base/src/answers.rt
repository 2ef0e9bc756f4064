// What functions of the library answer, and what they pay.

ghost use Rattle.std.specs.Prelude.{◌≡◌, [], ◌∷◌, ◌≤◌, ◌+◌, IfOk, OnOk, length};
ghost use Rattle.std.specs.String.{string_bytes};
ghost use Rattle.tl_base.specs.Layer.{state};
ghost use Rattle.lua_table.specs.Keeping.{KeepsHeap};
ghost use Rattle.lua_base.specs.Calls.{turned, gives, making, raised, with_made, bad_argument, bad_argument_text};

use lua_ops::placed;
use lua_table::{Heap, LibTurn, text_units};
use lua_value::{LibFn, Value, Values};
use std::alloc::Global;
use tl_base::{Budget, NoMemory, Place, Text};

/// Gives values, for nothing.
pub fn give(heap: &Heap, values: &[Value]) -> Result<LibTurn, NoMemory>
    ensures { IfOk result (λ turn. turn ≡ LibTurn.Values values.now) }
{
    Ok(LibTurn::Values(Values::from_slice(heap.allocator(), values)?))
}

#[tactic(auto, using(crate::proofs::Making::too_long, crate::proofs::Making::short_enough))]
/// Gives the text of these bytes, which is paid for. That it is too long is raised, with the place of the call before it.
pub fn give_text(
    heap: &mut Heap,
    budget: &mut Budget,
    place: Place,
    bytes: &[u8],
) -> Result<LibTurn, NoMemory>
    ensures does { IfOk result (λ turn. turned turn (state heap.new budget.new)
        ≡ making (state heap.old budget.old) place bytes.now (λ made. LibTurn.Values (made ∷ []))) }
    ensures kept { OnOk result (KeepsHeap heap.old heap.new) }
    ensures paid { OnOk result (budget.new ≤ budget.old) }
{
    if bytes.len() > Text::MAX_LEN {
        return raise(heap, budget, place, b"text too long");
    }
    if !budget.pay(text_units(bytes.len())) {
        return Ok(LibTurn::Spent);
    }
    let made = Value::Text(heap.intern(bytes)?);
    give(heap, &[made])
}

#[tactic(auto, using(crate::proofs::Making::too_long, crate::proofs::Making::short_enough))]
/// Raises the text of these bytes, which is paid for. That it is too long is raised in place of it, with the place of the call before
/// that.
pub fn raise_text(
    heap: &mut Heap,
    budget: &mut Budget,
    place: Place,
    bytes: &[u8],
) -> Result<LibTurn, NoMemory>
    ensures does { IfOk result (λ turn. turned turn (state heap.new budget.new)
        ≡ making (state heap.old budget.old) place bytes.now (λ made. LibTurn.Raise made place)) }
    ensures kept { OnOk result (KeepsHeap heap.old heap.new) }
    ensures paid { OnOk result (budget.new ≤ budget.old) }
{
    if bytes.len() > Text::MAX_LEN {
        return raise(heap, budget, place, b"text too long");
    }
    raise_short(heap, budget, place, bytes)
}

/// Raises a text, with the place of the call before it, which is paid for.
pub fn raise(
    heap: &mut Heap,
    budget: &mut Budget,
    place: Place,
    text: &[u8],
) -> Result<LibTurn, NoMemory>
    requires { length text.now ≤ 1000 }
    ensures does { IfOk result (λ turn.
        turned turn (state heap.new budget.new) ≡ raised (state heap.old budget.old) place text.now) }
    ensures kept { OnOk result (KeepsHeap heap.old heap.new) }
    ensures paid { OnOk result (budget.new ≤ budget.old) }
{
    let whole = placed(heap.allocator(), place, text)?;
    raise_short(heap, budget, place, whole.as_slice())
}

/// Raises that an argument isn't of its form, with the place of the call before the text, which is paid for.
pub fn bad_argument(
    heap: &mut Heap,
    budget: &mut Budget,
    place: Place,
    position: u32,
    function: LibFn,
) -> Result<LibTurn, NoMemory>
    ensures does { IfOk result (λ turn.
        turned turn (state heap.new budget.new) ≡ bad_argument (state heap.old budget.old) place position function) }
    ensures kept { OnOk result (KeepsHeap heap.old heap.new) }
    ensures paid { OnOk result (budget.new ≤ budget.old) }
{
    let text = bad_argument_text(heap.allocator(), place.line, place.word, position, function)?;
    raise_short(heap, budget, place, text.as_bytes())
}

/// Raises a text of a length that texts have, which is paid for.
fn raise_short(
    heap: &mut Heap,
    budget: &mut Budget,
    place: Place,
    bytes: &[u8],
) -> Result<LibTurn, NoMemory>
    requires { length bytes.now ≤ Text.MAX_LEN }
    ensures does { IfOk result (λ turn. turned turn (state heap.new budget.new)
        ≡ with_made (state heap.old budget.old) bytes.now (λ made. LibTurn.Raise made place)) }
    ensures kept { OnOk result (KeepsHeap heap.old heap.new) }
    ensures paid { OnOk result (budget.new ≤ budget.old) }
{
    if !budget.pay(text_units(bytes.len())) {
        return Ok(LibTurn::Spent);
    }
    let made = heap.intern(bytes)?;
    Ok(LibTurn::Raise(Value::Text(made), place))
}

/// The text of an argument that isn't of its form, with the place of the call before it.
fn bad_argument_text(
    alloc: Global,
    line: u32,
    word: u32,
    position: u32,
    function: LibFn,
) -> Result<String, NoMemory>
    ensures text { IfOk result (λ text. string_bytes text ≡ bad_argument_text line word position function) }
    ensures short { IfOk result (λ text. length (string_bytes text) ≤ Text.MAX_LEN) }
{
    let name = function.name();
    Ok(format!(in alloc; "{line}:{word}: bad argument {position} to {name}")?)
}

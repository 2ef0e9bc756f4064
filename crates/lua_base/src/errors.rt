// The functions that raise errors, and the one that catches them (Lua 5.1 manual, section 5.1).

ghost use Rattle.std.specs.Prelude.{ℕ, ◌≡◌, ◌≤◌, IfOk, OnOk};
ghost use Rattle.tl_base.specs.Layer.{state};
ghost use Rattle.lua_table.specs.Keeping.{KeepsHeap};
ghost use Rattle.lua_base.specs.Calls.{turned};
ghost use Rattle.lua_base.specs.Errors.{assert_turned, assertion_failed, error_turned, error_at, raised_with, pcall_turned, pcall_back};

use crate::answers::{bad_argument, give, raise_text};
use crate::arguments::{argument, number_or};
use lua_ops::placed;
use lua_table::{Back, Heap, LibNext, LibTurn};
use lua_value::{LibFn, Value, Values};
use tl_base::{Budget, NoMemory, Place};

/// `assert` gives its arguments where the first one counts as true, and raises else.
pub fn assert_that(
    heap: &mut Heap,
    budget: &mut Budget,
    args: &[Value],
    place: Place,
) -> Result<LibTurn, NoMemory>
    ensures does { IfOk result (λ turn.
        turned turn (state heap.new budget.new) ≡ assert_turned (state heap.old budget.old) args.now place) }
    ensures kept { OnOk result (KeepsHeap heap.old heap.new) }
    ensures paid { OnOk result (budget.new ≤ budget.old) }
{
    let Some((first, others)) = args.split_first() else {
        return bad_argument(heap, budget, place, 1, LibFn::Assert);
    };
    if first.is_true() {
        give(heap, args)
    } else {
        assertion_failed(heap, budget, argument(others, 0), place)
    }
}

/// Raises the message of an assertion that doesn't hold: a text, or a number as a text, without a place.
fn assertion_failed(
    heap: &mut Heap,
    budget: &mut Budget,
    message: Value,
    place: Place,
) -> Result<LibTurn, NoMemory>
    ensures does { IfOk result (λ turn.
        turned turn (state heap.new budget.new) ≡ assertion_failed (state heap.old budget.old) message place) }
    ensures kept { OnOk result (KeepsHeap heap.old heap.new) }
    ensures paid { OnOk result (budget.new ≤ budget.old) }
{
    match message {
        Value::Nil => raise_text(heap, budget, place, b"assertion failed!"),
        Value::Text(_) => Ok(LibTurn::Raise(message, place)),
        Value::Number(number) => {
            let number = number.get();
            let text = format!(in heap.allocator(); "{number}")?;
            raise_text(heap, budget, place, text.as_bytes())
        }
        _ => bad_argument(heap, budget, place, 2, LibFn::Assert),
    }
}

/// `error` raises its first argument. A text gets the place of the call before it at level 1, which is that of a call without a level,
/// and the place of the call of the function that calls `error` at level 2, where it was called. At level 0 it gets none.
pub fn error(
    heap: &mut Heap,
    budget: &mut Budget,
    args: &[Value],
    place: Place,
    outer: Option<Place>,
) -> Result<LibTurn, NoMemory>
    ensures does { IfOk result (λ turn.
        turned turn (state heap.new budget.new) ≡ error_turned (state heap.old budget.old) args.now place outer) }
    ensures kept { OnOk result (KeepsHeap heap.old heap.new) }
    ensures paid { OnOk result (budget.new ≤ budget.old) }
{
    let value = argument(args, 0);
    let level = number_or(heap, argument(args, 1), 1);
    error_at(heap, budget, value, place, outer, level)
}

fn error_at(
    heap: &mut Heap,
    budget: &mut Budget,
    value: Value,
    place: Place,
    outer: Option<Place>,
    level: Option<i128>,
) -> Result<LibTurn, NoMemory>
    ensures does { IfOk result (λ turn.
        turned turn (state heap.new budget.new) ≡ error_at (state heap.old budget.old) value place outer level) }
    ensures kept { OnOk result (KeepsHeap heap.old heap.new) }
    ensures paid { OnOk result (budget.new ≤ budget.old) }
{
    let Some(level) = level else {
        return bad_argument(heap, budget, place, 2, LibFn::Error);
    };
    if level == 0 {
        raise_with(heap, budget, value, place, None)
    } else if level == 1 {
        raise_with(heap, budget, value, place, Some(place))
    } else if level == 2 {
        raise_with(heap, budget, value, place, outer)
    } else {
        bad_argument(heap, budget, place, 2, LibFn::Error)
    }
}

/// Raises a value at a call. A text gets a place before it, where there is one to put there.
fn raise_with(
    heap: &mut Heap,
    budget: &mut Budget,
    value: Value,
    place: Place,
    at: Option<Place>,
) -> Result<LibTurn, NoMemory>
    ensures does { IfOk result (λ turn.
        turned turn (state heap.new budget.new) ≡ raised_with (state heap.old budget.old) value place at) }
    ensures kept { OnOk result (KeepsHeap heap.old heap.new) }
    ensures paid { OnOk result (budget.new ≤ budget.old) }
{
    match value {
        Value::Text(id) => match at {
            Some(at) => {
                let text = placed(heap.allocator(), at, heap.text(id))?;
                raise_text(heap, budget, place, text.as_slice())
            }
            None => Ok(LibTurn::Raise(value, place)),
        },
        _ => Ok(LibTurn::Raise(value, place)),
    }
}

/// `pcall` calls its first argument with the others.
pub fn pcall(
    heap: &mut Heap,
    budget: &mut Budget,
    args: &[Value],
    place: Place,
) -> Result<LibTurn, NoMemory>
    ensures does { IfOk result (λ turn.
        turned turn (state heap.new budget.new) ≡ pcall_turned (state heap.old budget.old) args.now place) }
    ensures kept { OnOk result (KeepsHeap heap.old heap.new) }
    ensures paid { OnOk result (budget.new ≤ budget.old) }
{
    let Some((function, others)) = args.split_first() else {
        return bad_argument(heap, budget, place, 1, LibFn::Pcall);
    };
    let args = Values::from_slice(heap.allocator(), others)?;
    Ok(LibTurn::CallBack {
        function: *function,
        args,
        next: LibNext::Pcall,
    })
}

/// `pcall` gives true and the values of the call, or false and the value that was raised.
pub fn pcall_back(heap: &Heap, answer: Back) -> Result<LibTurn, NoMemory>
    ensures { IfOk result (λ turn. (units : ℕ) →
        turned turn (state heap.now units) ≡ pcall_back (state heap.now units) answer) }
{
    match answer {
        Back::Values(values) => {
            let mut all = Values::new(heap.allocator());
            all.push(Value::Boolean(true))?;
            all.push_all(values.as_slice())?;
            Ok(LibTurn::Values(all))
        }
        Back::Raised(value, _) => give(heap, &[Value::Boolean(false), value]),
    }
}

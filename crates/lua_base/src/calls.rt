// Calls of the basic functions, and how those that asked go on.

ghost use Rattle.std.specs.Prelude.{◌≡◌, ◌≤◌, IfOk, OnOk};
ghost use Rattle.tl_base.specs.Layer.{state};
ghost use Rattle.lua_table.specs.Keeping.{KeepsHeap};
ghost use Rattle.lua_base.specs.Basic.{called, backed};
ghost use Rattle.lua_base.specs.Calls.{turned};

use crate::answers::give;
use crate::errors::{assert_that, error, pcall, pcall_back};
use crate::printing::{print, print_back, select, to_number, to_string, to_string_back, type_of};
use crate::tables::{
    get_metatable, ipairs, ipairs_next, next, pairs, raw_equal, raw_get, raw_set, set_metatable,
    unpack,
};
use lua_table::{Back, Heap, LibCall, LibNext, LibTurn};
use lua_value::LibFn;
use tl_base::{Budget, NoMemory};

/// Begins a call of a function of the library, which pays for the texts that it makes, for what it prints and for the values that it
/// moves. Nothing is done where a payment is larger than what is left. A function that is no basic function gives no values.
pub fn call(heap: &mut Heap, call: &LibCall, budget: &mut Budget) -> Result<LibTurn, NoMemory>
    ensures does { IfOk result (λ turn.
        turned turn (state heap.new budget.new) ≡ called (state heap.old budget.old) call.now) }
    ensures kept { OnOk result (KeepsHeap heap.old heap.new) }
    ensures paid { OnOk result (budget.new ≤ budget.old) }
{
    let args = call.args.as_slice();
    match call.function {
        LibFn::Assert => assert_that(heap, budget, args, call.place),
        LibFn::Error => error(heap, budget, args, call.place, call.outer),
        LibFn::GetMetatable => get_metatable(heap, budget, args, call.place),
        LibFn::Ipairs => ipairs(heap, budget, args, call.place),
        LibFn::IpairsNext => ipairs_next(heap, budget, args, call.place),
        LibFn::Next => next(heap, budget, args, call.place),
        LibFn::Pairs => pairs(heap, budget, args, call.place),
        LibFn::Pcall => pcall(heap, budget, args, call.place),
        LibFn::Print => print(heap, budget, args),
        LibFn::RawEqual => raw_equal(heap, budget, args, call.place),
        LibFn::RawGet => raw_get(heap, budget, args, call.place),
        LibFn::RawSet => raw_set(heap, budget, args, call.place),
        LibFn::Select => select(heap, budget, args, call.place),
        LibFn::SetMetatable => set_metatable(heap, budget, args, call.place),
        LibFn::ToNumber => to_number(heap, budget, args, call.place),
        LibFn::ToString => to_string(heap, budget, args, call.place),
        LibFn::Type => type_of(heap, budget, args, call.place),
        LibFn::Unpack => unpack(heap, budget, args, call.place),
        _ => give(heap, &[]),
    }
}

/// Goes on with a basic function that asked, with what it is answered. One that is no basic function gives no values.
pub fn back(
    heap: &mut Heap,
    next: LibNext,
    answer: Back,
    budget: &mut Budget,
) -> Result<LibTurn, NoMemory>
    ensures does { IfOk result (λ turn.
        turned turn (state heap.new budget.new) ≡ backed (state heap.old budget.old) next answer) }
    ensures kept { OnOk result (KeepsHeap heap.old heap.new) }
    ensures paid { OnOk result (budget.new ≤ budget.old) }
{
    match next {
        LibNext::Pcall => pcall_back(heap, answer),
        LibNext::ToString => to_string_back(heap, budget, answer),
        LibNext::Print {
            written,
            args,
            from,
        } => print_back(heap, budget, written, args, from, answer),
        LibNext::Map { .. } => give(heap, &[]),
    }
}

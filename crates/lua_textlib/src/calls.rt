// Which function is called.

ghost use Rattle.std.specs.Prelude.{◌≡◌, IfOk, OnOk, ◌≤◌};
ghost use Rattle.tl_base.specs.Layer.{state};
ghost use Rattle.lua_table.specs.Keeping.{KeepsHeap};
ghost use Rattle.lua_base.specs.Calls.{turned};
ghost use Rattle.lua_textlib.specs.Calls.{called};

use crate::answers::give_nothing;
use crate::formatting::format;
use crate::tables::{concat, insert, remove};
use crate::texts::{byte, char, len, rep, sub};
use lua_table::{Heap, LibCall, LibTurn};
use lua_value::LibFn;
use tl_base::{Budget, NoMemory};

/// Calls a function on texts or on tables (Lua 5.1 manual, sections 5.4 and 5.5), which pays for the text that it makes and for each value
/// that it moves. Nothing more is done where a payment is larger than what is left. A function that is not of this crate gives no values.
pub fn call(heap: &mut Heap, call: &LibCall, budget: &mut Budget) -> Result<LibTurn, NoMemory>
    ensures does { IfOk result (λ turn.
        turned turn (state heap.new budget.new) ≡ called (state heap.old budget.old) call.now) }
    ensures kept { OnOk result (KeepsHeap heap.old heap.new) }
    ensures paid { OnOk result (budget.new ≤ budget.old) }
{
    let args = call.args.as_slice();
    let place = call.place;
    match call.function {
        LibFn::Byte => byte(heap, budget, args, place),
        LibFn::Char => char(heap, budget, args, place),
        LibFn::Format => format(heap, budget, args, place),
        LibFn::Len => len(heap, budget, args, place),
        LibFn::Rep => rep(heap, budget, args, place),
        LibFn::Sub => sub(heap, budget, args, place),
        LibFn::Concat => concat(heap, budget, args, place),
        LibFn::TableInsert => insert(heap, budget, args, place),
        LibFn::Remove => remove(heap, budget, args, place),
        _ => Ok(give_nothing(heap)),
    }
}

// Which function is called, and how one goes on with an answer.

ghost use Rattle.std.specs.Prelude.{◌≡◌, ◌≤◌, IfOk, OnOk};
ghost use Rattle.tl_base.specs.Layer.{state};
ghost use Rattle.check_library.specs.Answers.{asked};
ghost use Rattle.check_library.specs.Calls.{asks, called, backed};
ghost use Rattle.check_library.specs.Keeping.{KeepsAsked};

use crate::answers::give_nothing;
use crate::ask::{AskNext, AskTurn};
use crate::checks::{compile, compile_back, get_type, get_type_back};
use crate::exports::{export_back, save_object};
use crate::layouts::{global, global_back, offset, offset_back, size, size_back};
use check_model::CheckAnswer;
use exotype::World;
use lua_table::LibCall;
use lua_value::LibFn;
use tl_base::{Budget, NoMemory, Place};

/// Whether a function of the library may ask for a check or a layout.
pub fn asks(function: LibFn) -> bool
    ensures { result ≡ asks function }
{
    match function {
        LibFn::Global => true,
        LibFn::SizeOf => true,
        LibFn::OffsetOf => true,
        LibFn::Compile => true,
        LibFn::GetType => true,
        LibFn::SaveObj => true,
        _ => false,
    }
}

/// Begins a call of a function that may ask for a check or a layout: it ends, or asks. It pays for the texts of errors that it raises, and
/// for nothing else. Any other function gives no values.
pub fn call(world: &mut World, call: &LibCall, budget: &mut Budget) -> Result<AskTurn, NoMemory>
    ensures does { IfOk result (λ turn.
        asked turn (state world.new budget.new) ≡ called (state world.old budget.old) call.now) }
    ensures kept { OnOk result (KeepsAsked world.old world.new) }
    ensures paid { OnOk result (budget.new ≤ budget.old) }
{
    let args = call.args.as_slice();
    let place = call.place;
    match call.function {
        LibFn::Global => global(world, budget, args, place),
        LibFn::SizeOf => size(world, budget, args, place),
        LibFn::OffsetOf => offset(world, budget, args, place),
        LibFn::Compile => compile(world, budget, args, place),
        LibFn::GetType => get_type(world, budget, args, place),
        LibFn::SaveObj => save_object(world, budget, args, place),
        _ => Ok(give_nothing(world)),
    }
}

/// Goes on with the answer to a question, at the place of the call, or of the end of the text for the exports there: the function ends, or
/// asks again. Of answers, `NoLayout` says that a layout is refused, and `Refused` that a check is; any other says that it was done.
pub fn back(
    world: &mut World,
    next: AskNext,
    answer: CheckAnswer,
    place: Place,
    budget: &mut Budget,
) -> Result<AskTurn, NoMemory>
    ensures does { IfOk result (λ turn.
        asked turn (state world.new budget.new) ≡ backed (state world.old budget.old) next answer place) }
    ensures kept { OnOk result (KeepsAsked world.old world.new) }
    ensures paid { OnOk result (budget.new ≤ budget.old) }
{
    match next {
        AskNext::SizeOf(of) => size_back(world, budget, of, answer, place),
        AskNext::OffsetOf(of, name) => offset_back(world, budget, of, name, answer, place),
        AskNext::Global(of, bits) => global_back(world, budget, of, bits, answer, place),
        AskNext::Compile => compile_back(world, budget, answer, place),
        AskNext::GetType(f) => get_type_back(world, budget, f, answer, place),
        AskNext::Export(next) => export_back(world, budget, next, answer, place),
    }
}

// Which function is called, and how one goes on that called a function.

ghost use Rattle.std.specs.Prelude.{◌≡◌, ◌≤◌, IfOk, OnOk};
ghost use Rattle.tl_base.specs.Layer.{state};
ghost use Rattle.terra_lib.specs.Answers.{turned};
ghost use Rattle.terra_lib.specs.Keeping.{KeepsWorld};
ghost use Rattle.terra_lib.specs.Calls.{called, backed, told};

use crate::answers::give_nothing;
use crate::fields::{array_type, field, function_type, pointer_type};
use crate::lists::{insert, insert_all, map, map_back, new_list};
use crate::symbols::{constant, make_macro, symbol};
use crate::types::{array, is_defined, new_struct, pointer, test};
use exotype::World;
use lua_base::argument;
use lua_table::{Back, LibCall, LibNext, LibTurn};
use lua_value::{LibFn, Value};
use tl_base::{Budget, NoMemory, Place};

/// Begins a call of a function of Terra's library, which pays for the texts of errors that it raises and for the values that it moves. No
/// value is moved where the payment is larger than what is left. A function that is not of Terra's library gives no values, and so does
/// one that needs a check or a layout, which `check_library` calls.
pub fn call(world: &mut World, call: &LibCall, budget: &mut Budget) -> Result<LibTurn, NoMemory>
    ensures does { IfOk result (λ turn.
        turned turn (state world.new budget.new) ≡ called (state world.old budget.old) call.now) }
    ensures kept { OnOk result (KeepsWorld world.old world.new) }
    ensures paid { OnOk result (budget.new ≤ budget.old) }
{
    let args = call.args.as_slice();
    let place = call.place;
    match call.function {
        LibFn::Symbol => symbol(world, budget, args, place),
        LibFn::Macro => make_macro(world, budget, args, place),
        LibFn::Constant => constant(world, budget, args, place),
        LibFn::NewList => new_list(world, budget, args, place),
        LibFn::Insert => insert(world, budget, args, place),
        LibFn::InsertAll => insert_all(world, budget, args, place),
        LibFn::Map => map(world, budget, args, place),
        LibFn::NewStruct => new_struct(world, place),
        LibFn::Pointer => pointer(world, budget, args, place),
        LibFn::Array => array(world, budget, args, place),
        function => tell(world, budget, function, args, place),
    }
}

/// The functions that tell of types and functions, and those that the language itself calls.
fn tell(
    world: &mut World,
    budget: &mut Budget,
    function: LibFn,
    args: &[Value],
    place: Place,
) -> Result<LibTurn, NoMemory>
    ensures does { IfOk result (λ turn.
        turned turn (state world.new budget.new) ≡ told (state world.old budget.old) function args.now place) }
    ensures kept { OnOk result (KeepsWorld world.old world.new) }
    ensures paid { OnOk result (budget.new ≤ budget.old) }
{
    match function {
        LibFn::IsDefined => is_defined(world, budget, args, place),
        LibFn::IsIntegral => test(world, budget, function, args, place),
        LibFn::IsLogical => test(world, budget, function, args, place),
        LibFn::IsPointer => test(world, budget, function, args, place),
        LibFn::IsArray => test(world, budget, function, args, place),
        LibFn::IsStruct => test(world, budget, function, args, place),
        LibFn::Field => field(world, args),
        LibFn::PointerType => pointer_type(world, budget, argument(args, 0), place),
        LibFn::ArrayType => array_type(world, budget, argument(args, 0), argument(args, 1), place),
        LibFn::FunctionType => {
            function_type(world, budget, argument(args, 0), argument(args, 1), place)
        }
        _ => Ok(give_nothing(&world.heap)),
    }
}

/// Goes on with a function that called a function, with what that gave or raised. One that isn't of Terra's library gives no values.
pub fn back(
    world: &mut World,
    next: LibNext,
    answer: Back,
    budget: &mut Budget,
) -> Result<LibTurn, NoMemory>
    ensures does { IfOk result (λ turn.
        turned turn (state world.new budget.new) ≡ backed (state world.old budget.old) next answer) }
    ensures kept { OnOk result (KeepsWorld world.old world.new) }
    ensures paid { OnOk result (budget.new ≤ budget.old) }
{
    match next {
        LibNext::Map {
            source,
            count,
            result,
            function,
            at,
        } => map_back(&mut world.heap, source, count, result, function, at, answer),
        LibNext::Pcall => Ok(give_nothing(&world.heap)),
        LibNext::ToString => Ok(give_nothing(&world.heap)),
        LibNext::Print {
            written: _written,
            args: _args,
            ..
        } => Ok(give_nothing(&world.heap)),
    }
}

// What functions of the library answer, and what they pay.

ghost use Rattle.std.specs.Prelude.{◌≡◌, ◌≤◌, [], ◌∷◌, length, IfOk, OnOk};
ghost use Rattle.tl_base.specs.Layer.{state};
ghost use Rattle.exotype.specs.Faults.{fault_text};
ghost use Rattle.terra_lib.specs.Answers.{turned, bad_argument, raised, type_in};
ghost use Rattle.terra_lib.specs.Keeping.{KeepsWorld};

use exotype::{Fault, World};
use lua_table::{Heap, LibTurn};
use lua_value::{LibFn, Value, Values};
use tl_base::{Budget, NoMemory, Place, TypeId};

/// Gives no value.
pub fn give_nothing(heap: &Heap) -> LibTurn
    ensures { result ≡ LibTurn.Values [] }
{
    LibTurn::Values(Values::new(heap.allocator()))
}

/// Gives one value.
pub fn give_one(heap: &Heap, value: Value) -> Result<LibTurn, NoMemory>
    ensures { IfOk result (λ turn. turn ≡ LibTurn.Values (value ∷ [])) }
{
    lua_base::give(heap, &[value])
}

/// Raises that the argument of a position isn't of its form, with the place of the call before the text, which is paid for.
pub fn bad_argument(
    world: &mut World,
    budget: &mut Budget,
    place: Place,
    position: u32,
    function: LibFn,
) -> Result<LibTurn, NoMemory>
    ensures does { IfOk result (λ turn.
        turned turn (state world.new budget.new) ≡ bad_argument (state world.old budget.old) place position function) }
    ensures kept { OnOk result (KeepsWorld world.old world.new) }
    ensures paid { OnOk result (budget.new ≤ budget.old) }
{
    lua_base::bad_argument(&mut world.heap, budget, place, position, function)
}

/// Raises a fault, with the place of the call before its text, which is paid for.
pub fn raise(
    world: &mut World,
    budget: &mut Budget,
    place: Place,
    fault: Fault,
) -> Result<LibTurn, NoMemory>
    requires { length (fault_text fault) ≤ 1000 }
    ensures does { IfOk result (λ turn.
        turned turn (state world.new budget.new) ≡ raised (state world.old budget.old) place fault) }
    ensures kept { OnOk result (KeepsWorld world.old world.new) }
    ensures paid { OnOk result (budget.new ≤ budget.old) }
{
    let text = fault.text(world.heap.allocator())?;
    lua_base::raise(&mut world.heap, budget, place, text.as_bytes())
}

/// The type that an argument is.
pub fn type_in(value: Value) -> Option<TypeId>
    ensures { result ≡ type_in value }
{
    match value {
        Value::TerraType(of) => Some(of),
        _ => None,
    }
}

// The answers to what asks for the text of a type.

ghost use Rattle.std.specs.Prelude.{◌≡◌, ◌≤◌, List, true, IfOk, OnOk};
ghost use Rattle.tl_base.specs.Layer.{Given, given, state, seen, OnAsk};
ghost use Rattle.exotype.specs.World.{StageState};
ghost use Rattle.terra_lib.specs.Answers.{turned};
ghost use Rattle.stage_library.specs.Keeping.{KeepsStaging};
ghost use Rattle.stage_library.specs.Types.{type_asked, type_turned, text_turned, is_end};

use crate::tasks::Task;
use exotype::World;
use lua_model::{LuaAnswer, LuaEnd};
use lua_table::LibTurn;
use lua_value::{Value, Values};
use stage_text::type_text;
use tl_base::{Budget, NoMemory, Place, Text, Turn, TypeId};

/// Gives the text of a type, for which the function pays that asked. One that is longer than texts can be is raised as that, at the place
/// of the call of that function.
pub fn give_type_text(
    world: &mut World,
    budget: &mut Budget,
    of: TypeId,
    place: Place,
) -> Result<Turn<Task, LuaEnd>, NoMemory>
    ensures turn { IfOk result (λ turn. (answer : LuaAnswer) (later : List (Given StageState LuaAnswer)) →
        type_asked of place (given answer world.old budget.old) later ≡ seen turn (state world.new budget.new)) }
    ensures ends { IfOk result (λ turn. OnAsk turn (λ _. ⊥)) }
    ensures kept { OnOk result (KeepsStaging world.old world.new) }
    ensures paid { OnOk result (budget.new ≤ budget.old) }
{
    match turn_of(world, budget, of, place)? {
        LibTurn::Values(values) => Ok(Turn::End(LuaEnd::Done(values))),
        LibTurn::Raise(value, place) => Ok(Turn::End(LuaEnd::Raised(value, place))),
        LibTurn::Spent => Ok(Turn::Spent),
        _ => unreachable!(),
    }
}

/// The answer with the text of a type.
fn turn_of(
    world: &mut World,
    budget: &mut Budget,
    of: TypeId,
    place: Place,
) -> Result<LibTurn, NoMemory>
    ensures does { IfOk result (λ turn.
        turned turn (state world.new budget.new) ≡ type_turned (state world.old budget.old) of place) }
    ensures ends { IfOk result (λ turn. is_end turn ≡ true) }
    ensures kept { OnOk result (KeepsStaging world.old world.new) }
    ensures paid { OnOk result (budget.new ≤ budget.old) }
{
    let text = type_text(world.heap.allocator(), world.store.types(), of)?;
    give_text(world, budget, text, place)
}

/// The answer with a text, or with that it would be too long.
fn give_text(
    world: &mut World,
    budget: &mut Budget,
    text: Option<Text>,
    place: Place,
) -> Result<LibTurn, NoMemory>
    ensures does { IfOk result (λ turn.
        turned turn (state world.new budget.new) ≡ text_turned (state world.old budget.old) place text) }
    ensures ends { IfOk result (λ turn. is_end turn ≡ true) }
    ensures kept { OnOk result (KeepsStaging world.old world.new) }
    ensures paid { OnOk result (budget.new ≤ budget.old) }
{
    match text {
        Some(text) => {
            let id = world.heap.intern(text.bytes())?;
            let mut values = Values::new(world.heap.allocator());
            values.push(Value::Text(id))?;
            Ok(LibTurn::Values(values))
        }
        None => lua_base::raise(&mut world.heap, budget, place, b"text too long"),
    }
}

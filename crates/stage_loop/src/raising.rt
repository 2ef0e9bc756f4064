// How calls of Terra functions end.

ghost use Rattle.std.specs.Prelude.{◌≡◌, ◌≤◌, length, IfOk, OnOk};
ghost use Rattle.std.specs.String.{string_bytes};
ghost use Rattle.tl_base.specs.Layer.{State, state, seen, OnAsk};
ghost use Rattle.lua_base.specs.Calls as base;
ghost use Rattle.check_library.specs.Answers.{refused};
ghost use Rattle.stage_library.specs.Keeping.{KeepsStaging};
ghost use Rattle.stage_model.specs.Stage.{StagingState};
ghost use Rattle.stage_model.specs.Calls.{shown, said, raised, bad_argument_text, kind_text, fault_text, given_if, with_output};
ghost use Rattle.terra_lib.specs.Answers.{turned, on_heap};
ghost use Rattle.stage_loop.specs.Layers.{Keeps};

use crate::world::Staging;
use check_library::answers::raise_refusal;
use exotype::World;
use lua_table::{Heap, LibTurn};
use lua_value::Values;
use stage_check::{Asked, JobEnd};
use std::alloc::Global;
use terra_term::RefusalKind;
use terra_words::FaultKind;
use tl_base::{Budget, NoMemory, Place, Turn};

/// What shows of what the library answers, which neither calls a function of Lua nor asks for a text.
fn turn_of(heap: &Heap, turn: LibTurn) -> Turn<Asked, JobEnd>
    ensures seen { (s : State StagingState) → seen result s ≡ shown turn s }
    ensures ends { OnAsk result (λ _. ⊥) }
{
    match turn {
        LibTurn::Values(values) => Turn::End(JobEnd::Values(values)),
        LibTurn::Raise(value, place) => Turn::End(JobEnd::Raised(value, place)),
        LibTurn::Spent => Turn::Spent,
        _ => Turn::End(JobEnd::Values(Values::new(heap.allocator()))),
    }
}

/// Raises a text in a world, with a place before it, which is paid for.
fn raise_in(
    world: &mut World,
    budget: &mut Budget,
    place: Place,
    text: &[u8],
) -> Result<LibTurn, NoMemory>
    requires { length text.now ≤ 1000 }
    ensures does { IfOk result (λ turn. turned turn (state world.new budget.new)
        ≡ on_heap (state world.old budget.old) (λ h. base.raised h place text.now)) }
    ensures kept { OnOk result (KeepsStaging world.old world.new) }
    ensures paid { OnOk result (budget.new ≤ budget.old) }
{
    lua_base::raise(&mut world.heap, budget, place, text)
}

/// Raises a refusal in a world, as a text with the refusal's own place, which is paid for.
fn refuse_in(
    world: &mut World,
    budget: &mut Budget,
    kind: RefusalKind,
    own: Place,
    place: Place,
) -> Result<LibTurn, NoMemory>
    ensures does { IfOk result (λ turn.
        turned turn (state world.new budget.new) ≡ refused (state world.old budget.old) kind own place) }
    ensures kept { OnOk result (KeepsStaging world.old world.new) }
    ensures paid { OnOk result (budget.new ≤ budget.old) }
{
    raise_refusal(world, budget, kind, own, place)
}

/// Raises a text, with the place of the call before it, which is paid for.
pub fn raise(
    staging: &mut Staging,
    budget: &mut Budget,
    place: Place,
    text: &[u8],
) -> Result<Turn<Asked, JobEnd>, NoMemory>
    requires { length text.now ≤ 1000 }
    ensures turn { IfOk result (λ turn.
        raised text.now place (state staging.old budget.old) ≡ seen turn (state staging.new budget.new)) }
    ensures ends { IfOk result (λ turn. OnAsk turn (λ _. ⊥)) }
    ensures kept { OnOk result (Keeps staging.old staging.new) }
    ensures paid { OnOk result (budget.new ≤ budget.old) }
{
    let turn = raise_in(&mut staging.typing.world, budget, place, text)?;
    Ok(turn_of(&staging.typing.world.heap, turn))
}

/// Raises a refusal, as `compile` does.
pub fn refuse(
    staging: &mut Staging,
    budget: &mut Budget,
    kind: RefusalKind,
    own: Place,
    place: Place,
) -> Result<Turn<Asked, JobEnd>, NoMemory>
    ensures turn { IfOk result (λ turn. said (state staging.old budget.old) (λ t. refused t kind own place) ≡ seen turn (state staging.new budget.new)) }
    ensures ends { IfOk result (λ turn. OnAsk turn (λ _. ⊥)) }
    ensures kept { OnOk result (Keeps staging.old staging.new) }
    ensures paid { OnOk result (budget.new ≤ budget.old) }
{
    let turn = refuse_in(&mut staging.typing.world, budget, kind, own, place)?;
    Ok(turn_of(&staging.typing.world.heap, turn))
}

/// Raises that the argument at a position doesn't suit.
pub fn raise_bad_argument(
    staging: &mut Staging,
    budget: &mut Budget,
    place: Place,
    position: usize,
) -> Result<Turn<Asked, JobEnd>, NoMemory>
    ensures turn { IfOk result (λ turn. raised (bad_argument_text position) place (state staging.old budget.old) ≡ seen turn (state staging.new budget.new)) }
    ensures ends { IfOk result (λ turn. OnAsk turn (λ _. ⊥)) }
    ensures kept { OnOk result (Keeps staging.old staging.new) }
    ensures paid { OnOk result (budget.new ≤ budget.old) }
{
    let text = bad_argument_text(staging.typing.world.heap.allocator(), position)?;
    raise(staging, budget, place, text.as_bytes())
}

/// Raises a fault of a run, with its own place in the text.
pub fn raise_fault(
    staging: &mut Staging,
    budget: &mut Budget,
    place: Place,
    kind: FaultKind,
    own: Place,
) -> Result<Turn<Asked, JobEnd>, NoMemory>
    ensures turn { IfOk result (λ turn. raised (fault_text kind own) place (state staging.old budget.old) ≡ seen turn (state staging.new budget.new)) }
    ensures ends { IfOk result (λ turn. OnAsk turn (λ _. ⊥)) }
    ensures kept { OnOk result (Keeps staging.old staging.new) }
    ensures paid { OnOk result (budget.new ≤ budget.old) }
{
    let text = fault_text(
        staging.typing.world.heap.allocator(),
        kind,
        own.line,
        own.word,
    )?;
    raise(staging, budget, place, text.as_bytes())
}

/// Gives what a run returned, or raises that it is outside the profile.
pub fn give(
    staging: &mut Staging,
    budget: &mut Budget,
    place: Place,
    values: Option<Values>,
) -> Result<Turn<Asked, JobEnd>, NoMemory>
    ensures turn { IfOk result (λ turn. given_if values place (state staging.old budget.old) ≡ seen turn (state staging.new budget.new)) }
    ensures ends { IfOk result (λ turn. OnAsk turn (λ _. ⊥)) }
    ensures kept { OnOk result (Keeps staging.old staging.new) }
    ensures paid { OnOk result (budget.new ≤ budget.old) }
{
    match values {
        Some(values) => Ok(Turn::End(JobEnd::Values(values))),
        None => raise(staging, budget, place, b"result out of profile"),
    }
}

/// Puts what a run printed behind what was printed before.
pub fn print(world: &mut World, output: &[u8]) -> Result<(), NoMemory>
    ensures ok { OnOk result (world.new ≡ with_output world.old output.now) }
    ensures kept { OnOk result (KeepsStaging world.old world.new) }
{
    world.heap.print(output)
}

// ---- texts

/// The name of a fault.
fn kind_name(kind: FaultKind) -> &'static str
    ensures { result.now ≡ kind_text kind }
{
    match kind {
        FaultKind::BadAddress => "BadAddress",
        FaultKind::DivZero => "DivZero",
        FaultKind::StackFull => "StackFull",
        FaultKind::CallDepth => "CallDepth",
        FaultKind::NoReturn => "NoReturn",
        FaultKind::BadCall => "BadCall",
    }
}

/// The text of a fault, with its place.
fn fault_text(alloc: Global, kind: FaultKind, line: u32, word: u32) -> Result<String, NoMemory>
    ensures text { IfOk result (λ text. string_bytes text ≡ fault_text kind (record { line = line; word = word })) }
    ensures short { IfOk result (λ text. length (string_bytes text) ≤ 1000) }
{
    let name = kind_name(kind);
    Ok(format!(in alloc; "fault {name} at {line}:{word}")?)
}

/// The text of an argument that doesn't suit.
fn bad_argument_text(alloc: Global, position: usize) -> Result<String, NoMemory>
    ensures { IfOk result (λ text. string_bytes text ≡ bad_argument_text position) }
{
    Ok(format!(in alloc; "bad argument {position} to Terra call")?)
}

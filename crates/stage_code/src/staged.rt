// The layers: Lua code, the specialisation of Terra code, and the functions of the library.

ghost use Rattle.std.specs.Prelude.{◌≡◌, ◌≤◌, List, [], ◌∷◌, false, IfOk, OnOk};
ghost use Rattle.tl_base.specs.Layer.{State, state, given, at, seen, OnAsk, UnlessAsk};
ghost use Rattle.stage_form.specs.Within.{given_part, within};
ghost use Rattle.tl_tree.specs.Arena.{items_of};
ghost use Rattle.lua_eval.specs.Frames.{is_go};
ghost use Rattle.lua_eval.specs.Rest.{lua_rest, LuaFits};
ghost use Rattle.lua_eval.specs.Slots.{ArePaths};
ghost use Rattle.exotype.specs.World.{StageState};
ghost use Rattle.spec_machine.specs.Rest.{spec_rest, SpecFits};
ghost use Rattle.stage_library.specs.Keeping.{KeepsStaging};
ghost use Rattle.stage_library.specs.Library.{library_rest};
ghost use Rattle.stage_library.specs.Types.{type_asked};
ghost use Rattle.stage_code.specs.Layers.{lua_asks, spec_asks, spec_answer, spec_end, lua_fitting, spec_fitting, library_fitting};
ghost use Rattle.stage_code.specs.Layers.{turn_within, task_meaning, staged_rest, StageGiven, StagedFits};

use crate::asked::Asked;
use exotype::World;
use lua_eval::Lua;
use lua_model::{LuaAnswer, LuaEnd, LuaJob, LuaQuestion};
use lua_value::Values;
use spec_machine::Spec;
use spec_model::{SpecAnswer, SpecEnd, SpecQuestion};
use stage_library::{Library, Task, give_type_text};
use std::alloc::Global;
use tl_base::{Budget, Layer, NoMemory, Place, Turn, TypeId};
use tl_rename::Slots;
use tl_tree::Tree;

/// What a question of Lua code is in the stage.
fn lua_asks(question: LuaQuestion) -> Asked
    ensures { result ≡ lua_asks question }
{
    match question {
        LuaQuestion::Library(call) => Asked::Task(Task::Library(call)),
        LuaQuestion::Specialise(node, env) => Asked::Task(Task::Specialise(node, env)),
        LuaQuestion::Terra(function, args, place) => Asked::Terra(function, args, place),
    }
}

/// The task that a question of the specialisation of Terra code is.
fn spec_asks(question: SpecQuestion) -> Task
    ensures { result ≡ spec_asks question }
{
    match question {
        SpecQuestion::Eval(node, env) => Task::Evaluate(LuaJob::Expr(node, env)),
        SpecQuestion::Emitted(node, env) => Task::Evaluate(LuaJob::Emitted(node, env)),
        SpecQuestion::Index(value, text, place) => {
            Task::Evaluate(LuaJob::Index(value, text, place))
        }
    }
}

/// An answer of the stage for the specialisation of Terra code.
fn spec_answer(answer: LuaAnswer) -> SpecAnswer
    ensures { result ≡ spec_answer answer }
{
    match answer {
        LuaAnswer::Go => SpecAnswer::Go,
        LuaAnswer::Values(values) => SpecAnswer::Values(values),
        LuaAnswer::Raise(value, place) => SpecAnswer::Raise(value, place),
    }
}

/// The end of the specialisation of Terra code in the stage.
fn spec_end(alloc: Global, end: SpecEnd) -> Result<LuaEnd, NoMemory>
    ensures { IfOk result (λ it. it ≡ spec_end end) }
{
    match end {
        SpecEnd::Done(value) => {
            let mut values = Values::new(alloc);
            values.push(value)?;
            Ok(LuaEnd::Done(values))
        }
        SpecEnd::Raised(value, place) => Ok(LuaEnd::Raised(value, place)),
    }
}

/// Where Lua code stops, as that is in the stage.
fn lua_turn(turn: Turn<LuaQuestion, LuaEnd>) -> Turn<Asked, LuaEnd>
    ensures { result ≡ turn_within lua_fitting turn }
{
    match turn {
        Turn::End(end) => Turn::End(end),
        Turn::Ask(question) => Turn::Ask(lua_asks(question)),
        Turn::Spent => Turn::Spent,
    }
}

/// Where the specialisation of Terra code stops, as that is in the stage.
fn spec_turn(
    alloc: Global,
    turn: Turn<SpecQuestion, SpecEnd>,
) -> Result<Turn<Asked, LuaEnd>, NoMemory>
    ensures { IfOk result (λ it. it ≡ turn_within spec_fitting turn) }
{
    match turn {
        Turn::End(end) => {
            let end = spec_end(alloc, end)?;
            Ok(Turn::End(end))
        }
        Turn::Ask(question) => Ok(Turn::Ask(Asked::Task(spec_asks(question)))),
        Turn::Spent => Ok(Turn::Spent),
    }
}

/// Where what asks for tasks alone stops, as that is in the stage.
fn library_turn(turn: Turn<Task, LuaEnd>) -> Turn<Asked, LuaEnd>
    ensures { result ≡ turn_within library_fitting turn }
{
    match turn {
        Turn::End(end) => Turn::End(end),
        Turn::Ask(task) => Turn::Ask(Asked::Task(task)),
        Turn::Spent => Turn::Spent,
    }
}

/// Goes on with Lua code, to where it stops next.
fn resume_lua(
    lua: &mut Lua<'_>,
    world: &mut World,
    budget: &mut Budget,
    answer: LuaAnswer,
) -> Result<Turn<Asked, LuaEnd>, NoMemory>
    requires { LuaFits lua.old (given_part lua_fitting (given answer world.old budget.old)) }
    ensures turn { IfOk result (λ turn. within lua_fitting (lua_rest lua.old) (given answer world.old budget.old) []
        ≡ seen turn (state world.new budget.new)) }
    ensures reads_no_more { IfOk result (λ turn. UnlessAsk turn ((later : List StageGiven) →
        within lua_fitting (lua_rest lua.old) (given answer world.old budget.old) later
        ≡ seen turn (state world.new budget.new))) }
    ensures goes_on { IfOk result (λ turn. OnAsk turn (λ _. (next : StageGiven) (later : List StageGiven) →
        within lua_fitting (lua_rest lua.old) (given answer world.old budget.old) (next ∷ later)
        ≡ within lua_fitting (lua_rest lua.new) next later)) }
    ensures fits_next { IfOk result (λ turn. OnAsk turn (λ _. (next : StageGiven) →
        is_go next.answer ≡ false → LuaFits lua.new (given_part lua_fitting next))) }
    ensures kept { OnOk result (KeepsStaging world.old world.new) }
    ensures paid { OnOk result (budget.new ≤ budget.old) }
{
    let turn = lua.resume(&mut world.heap, budget, answer)?;
    Ok(lua_turn(turn))
}

/// Goes on with the specialisation of Terra code, to where it stops next.
fn resume_spec(
    spec: &mut Spec<'_>,
    world: &mut World,
    budget: &mut Budget,
    answer: LuaAnswer,
) -> Result<Turn<Asked, LuaEnd>, NoMemory>
    requires { SpecFits spec.old (given_part spec_fitting (given answer world.old budget.old)) }
    ensures turn { IfOk result (λ turn. within spec_fitting (spec_rest spec.old) (given answer world.old budget.old) []
        ≡ seen turn (state world.new budget.new)) }
    ensures reads_no_more { IfOk result (λ turn. UnlessAsk turn ((later : List StageGiven) →
        within spec_fitting (spec_rest spec.old) (given answer world.old budget.old) later
        ≡ seen turn (state world.new budget.new))) }
    ensures goes_on { IfOk result (λ turn. OnAsk turn (λ _. (next : StageGiven) (later : List StageGiven) →
        within spec_fitting (spec_rest spec.old) (given answer world.old budget.old) (next ∷ later)
        ≡ within spec_fitting (spec_rest spec.new) next later)) }
    ensures fits_next { IfOk result (λ turn. OnAsk turn (λ _. (next : StageGiven) →
        is_go next.answer ≡ false → SpecFits spec.new (given_part spec_fitting next))) }
    ensures kept { OnOk result (KeepsStaging world.old world.new) }
    ensures paid { OnOk result (budget.new ≤ budget.old) }
{
    let stopped = spec.resume(world, budget, spec_answer(answer))?;
    let turn = spec_turn(world.heap.allocator(), stopped)?;
    Ok(turn)
}

/// Goes on with a call of a function of the library, to where it stops next.
fn resume_library(
    library: &mut Library,
    world: &mut World,
    budget: &mut Budget,
    answer: LuaAnswer,
) -> Result<Turn<Asked, LuaEnd>, NoMemory>
    ensures turn { IfOk result (λ turn. within library_fitting (library_rest library.old) (given answer world.old budget.old) []
        ≡ seen turn (state world.new budget.new)) }
    ensures reads_no_more { IfOk result (λ turn. UnlessAsk turn ((later : List StageGiven) →
        within library_fitting (library_rest library.old) (given answer world.old budget.old) later
        ≡ seen turn (state world.new budget.new))) }
    ensures goes_on { IfOk result (λ turn. OnAsk turn (λ _. (next : StageGiven) (later : List StageGiven) →
        within library_fitting (library_rest library.old) (given answer world.old budget.old) (next ∷ later)
        ≡ within library_fitting (library_rest library.new) next later)) }
    ensures kept { OnOk result (KeepsStaging world.old world.new) }
    ensures paid { OnOk result (budget.new ≤ budget.old) }
{
    let turn = library.resume(world, budget, answer)?;
    Ok(library_turn(turn))
}

/// Gives the text of a type, whatever begins that.
fn resume_type_text(
    world: &mut World,
    budget: &mut Budget,
    of: TypeId,
    place: Place,
    answer: LuaAnswer,
) -> Result<Turn<Asked, LuaEnd>, NoMemory>
    ensures turn { IfOk result (λ turn. within library_fitting (type_asked of place) (given answer world.old budget.old) []
        ≡ seen turn (state world.new budget.new)) }
    ensures reads_no_more { IfOk result (λ turn. UnlessAsk turn ((later : List StageGiven) →
        within library_fitting (type_asked of place) (given answer world.old budget.old) later
        ≡ seen turn (state world.new budget.new))) }
    ensures ends { IfOk result (λ turn. OnAsk turn (λ _. ⊥)) }
    ensures kept { OnOk result (KeepsStaging world.old world.new) }
    ensures paid { OnOk result (budget.new ≤ budget.old) }
{
    let turn = give_type_text(world, budget, of, place)?;
    Ok(library_turn(turn))
}

/// A layer of the stage, which is to begin, or is suspended.
#[derive(Drop)]
pub enum Staged<'a> {
    Lua(Lua<'a>),
    Spec(Spec<'a>),
    Library(Library),
    /// It gives the text of a type.
    TypeText(TypeId, Place),
}

impl Layer for Staged<'_> {
    type World = World;

    type Question = Asked;

    type Answer = LuaAnswer;

    type End = LuaEnd;

    ghost rest = { staged_rest };

    ghost fits = { StagedFits };

    ghost follows = { λ question s next. is_go next.answer ≡ false };

    ghost keeps = { KeepsStaging };

    fn resume(
        &mut self,
        world: &mut World,
        budget: &mut Budget,
        answer: LuaAnswer,
    ) -> Result<Turn<Asked, LuaEnd>, NoMemory> {
        match self {
            Staged::Lua(lua) => resume_lua(lua, world, budget, answer),
            Staged::Spec(spec) => resume_spec(spec, world, budget, answer),
            Staged::Library(library) => resume_library(library, world, budget, answer),
            Staged::TypeText(of, place) => resume_type_text(world, budget, *of, *place, answer),
        }
    }
}

/// What begins these layers, over a tree whose uses of locals have these slots.
#[derive(Drop)]
pub struct TerraStage<'a> {
    tree: &'a Tree<'a>,
    slots: &'a Slots,
    ghost resolved: { ArePaths (items_of tree.now) slots.now },
}

impl<'a> TerraStage<'a> {
    /// What begins layers over a tree, with the slots that `tl_rename::resolve` gives for it.
    pub fn new(tree: &'a Tree<'a>, slots: &'a Slots) -> TerraStage<'a>
        requires { ArePaths (items_of tree.now) slots.now }
        ensures { result.tree.now ≡ tree.now }
    {
        TerraStage { tree, slots }
    }

    /// The layer of a task, which is to begin.
    pub fn start(&self, alloc: Global, task: Task) -> Staged<'a>
        ensures means { (first : StageGiven) (later : List StageGiven) →
            staged_rest result first later ≡ task_meaning (items_of self.now.tree.now) task first later }
        ensures fits { (s : State StageState) → StagedFits result (at LuaAnswer.Go s) }
    {
        match task {
            Task::Evaluate(job) => Staged::Lua(Lua::start(alloc, self.tree, self.slots, job)),
            Task::Specialise(node, env) => {
                Staged::Spec(Spec::start(alloc, self.tree, self.slots, node, env))
            }
            Task::Library(call) => Staged::Library(Library::new(call)),
            Task::TypeText(of, place) => Staged::TypeText(of, place),
        }
    }
}

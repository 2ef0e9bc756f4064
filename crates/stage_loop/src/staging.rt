// The staging of a source, and its outcome.

ghost use Rattle.std.specs.Prelude.{ℕ, ◌≡◌, ◌≤◌, ◌%◌, [], length, IfOk, OnOk, Some};
ghost use Rattle.tl_base.specs.Layer.{state};
ghost use Rattle.tl_base.specs.declared.limits.TheConstants.Limits.{MAX_BUDGET, MAX_MEMORY, MEMORY_UNIT, MIN_MEMORY};
ghost use Rattle.stage_form.specs.Stage.{final_of};
ghost use Rattle.tl_tree.specs.Arena.{items_of, end_of as finish_of};
ghost use Rattle.spec_model.specs.Making.{is_undefined};
ghost use Rattle.check_sound.specs.Sound.{IsSound};
ghost use Rattle.stage_form.specs.Holding.{OnEnds};
ghost use Rattle.stage_model.specs.Staging.{ending, begun, after_check, by_mode, checks};
ghost use Rattle.stage_model.specs.Staging.{checked_final, gave_values, line_of, lines_in, raised_text, end_in, outcome, outcome_from};
ghost use Rattle.stage_loop.specs.Layers.{Keeps};
ghost use Rattle.stage_loop.specs.Runs.{AreSteps, IsMemory};

use crate::runs::{Runs, Steps};
use crate::staged::Stagings;
use crate::world::Staging;
use check_model::Typing;
use exotype::World;
use lua_model::LuaJob;
use lua_table::Heap;
use lua_value::{Value, Values};
use spec_sound::places_fit;
use stage_check::{Asked, Job, JobEnd};
use stage_form::{Outcome as Came, run};
use stage_library::Task;
use stage_model::{CheckLine, End, Mode};
use std::alloc::Global;
use terra_term::FunctionState;
use terra_types::Types;
use tl_base::{Budget, Bytes, FnId, NoMemory, Place};
use tl_rename::resolve;
use tl_tree::Tree;

/// What a staging comes to: the end, the checks that were made in order where all functions were to be checked and units lacked for none,
/// what the staging worked in and the units that are left then; and for each run of a Terra function that Lua code called the number of
/// steps that its image took.
#[derive(Drop)]
pub struct Outcome {
    pub end: End,
    pub checks: Vec<CheckLine>,
    pub staging: Box<Staging>,
    pub left: u64,
    pub steps: Steps,
}

/// Stages a source with so many units, for a program with so many bytes of memory: its chunk is evaluated over the opening
/// globals, and where it ends without an error, its exports are made, or its functions are checked.
pub fn stage(
    alloc: Global,
    tree: &Tree<'_>,
    units: u64,
    memory: u64,
    mode: Mode,
) -> Result<Outcome, NoMemory>
    requires units { units ≤ MAX_BUDGET }
    requires least { MIN_MEMORY ≤ memory }
    requires most { memory ≤ MAX_MEMORY }
    requires whole { memory % MEMORY_UNIT ≡ 0 }
    ensures means { IfOk result (λ it. (n : ℕ) × (outcome (items_of tree.now) (finish_of tree.now) mode n units memory
        ≡ Some (ending it.end it.checks.items (state it.staging.value it.left)))) }
    ensures steps { IfOk result (λ it. AreSteps memory it.staging.value.runs it.steps) }
    ensures paid { IfOk result (λ it. it.left ≤ units) }
{
    let slots = resolve(alloc, tree)?;
    places_fit(tree);
    let staging = open(alloc, memory)?;
    let stages = Stagings::new(&*tree, &slots);
    let outcome = stage_from(alloc, &stages, staging, units, mode, tree.finish())?;
    Ok(outcome)
}

/// Stages a source that begins so.
fn stage_from(
    alloc: Global,
    stages: &Stagings<'_>,
    mut staging: Box<Staging>,
    units: u64,
    mode: Mode,
    place: Place,
) -> Result<Outcome, NoMemory>
    requires { IsSound staging.value.typing.stage }
    ensures means { IfOk result (λ it. (n : ℕ)
        × (outcome_from (items_of stages.now.inner.inner.tree.now) place mode n (state staging.value units)
        ≡ Some (ending it.end it.checks.items (state it.staging.value it.left)))) }
    ensures steps { IfOk result (λ it. AreSteps staging.value.typing.stage.memory it.staging.value.runs it.steps) }
    ensures paid { IfOk result (λ it. it.left ≤ units) }
{
    let mut budget = Budget::new(units);
    let mut lines = Vec::new(alloc);
    let chunk = run(
        alloc,
        stages,
        Asked::Job(Job::Stage(Task::Evaluate(LuaJob::Chunk))),
        &mut *staging,
        &mut budget,
    )?;
    let came = behind_chunk(
        alloc,
        stages,
        &mut *staging,
        &mut budget,
        chunk,
        &mut lines,
        mode,
        place,
    )?;
    settle(&mut lines, &came);
    let end = end_of(&staging, &came)?;
    let steps = staging.steps(alloc)?;
    Ok(Outcome {
        end,
        checks: lines,
        staging,
        left: budget.left(),
        steps,
    })
}

/// What a staging works in at the begin of a source.
fn open(alloc: Global, memory: u64) -> Result<Box<Staging>, NoMemory>
    requires { IsMemory memory }
    ensures { IfOk result (λ staging. staging.value ≡ begun memory) }
{
    let mut world = World::new(alloc, Types::new(alloc)?, memory);
    world.heap = terra_lib::opening(alloc)?;
    let typing = Typing::new(alloc, world);
    let runs = Runs::new(alloc, memory);
    Ok(Box::new(alloc, Staging { typing, runs })?)
}

/// Goes on behind a chunk, as the mode says.
fn behind_chunk(
    alloc: Global,
    stages: &Stagings<'_>,
    staging: &mut Staging,
    budget: &mut Budget,
    chunk: Came<JobEnd>,
    lines: &mut Vec<CheckLine>,
    mode: Mode,
    place: Place,
) -> Result<Came<JobEnd>, NoMemory>
    requires sound { OnEnds chunk (λ _. IsSound staging.old.typing.stage) }
    requires none { lines.old.items ≡ [] }
    ensures means { IfOk result (λ it. (n : ℕ) × (
        after_check (Some (final_of chunk (state staging.old budget.old)))
        (by_mode mode (items_of stages.now.inner.inner.tree.now) n place)
        ≡ Some (checked_final lines.new.items (final_of it (state staging.new budget.new))))) }
    ensures kept { OnOk result (Keeps staging.old staging.new) }
    ensures paid { OnOk result (budget.new ≤ budget.old) }
{
    if !gave_values(&chunk) {
        return Ok(chunk);
    }
    match mode {
        Mode::Exports => {
            let it = run(
                alloc,
                stages,
                Asked::Job(Job::Export(place)),
                staging,
                budget,
            )?;
            Ok(it)
        }
        Mode::CheckAll => {
            let it = check_all(alloc, stages, staging, budget, lines)?;
            Ok(it)
        }
    }
}

/// Whether a chunk ended without an error.
fn gave_values(chunk: &Came<JobEnd>) -> bool
    ensures { result ≡ gave_values chunk.now }
{
    match chunk {
        Came::Ends(JobEnd::Values(_)) => true,
        _ => false,
    }
}

/// Checks each function that is defined when its number comes, in order of number.
fn check_all(
    alloc: Global,
    stages: &Stagings<'_>,
    staging: &mut Staging,
    budget: &mut Budget,
    lines: &mut Vec<CheckLine>,
) -> Result<Came<JobEnd>, NoMemory>
    requires sound { IsSound staging.old.typing.stage }
    requires none { lines.old.items ≡ [] }
    ensures means { IfOk result (λ it. (n : ℕ) × (
        checks (items_of stages.now.inner.inner.tree.now) n 0 [] (state staging.old budget.old)
        ≡ Some (checked_final lines.new.items (final_of it (state staging.new budget.new))))) }
    ensures kept { OnOk result (Keeps staging.old staging.new) }
    ensures paid { OnOk result (budget.new ≤ budget.old) }
{
    for number in 0..u64::MAX {
        let f = FnId(number);
        if number >= count(staging) {
            return Ok(Came::Ends(JobEnd::Values(Values::new(alloc))));
        }
        if is_undefined(staging, f) {
            continue;
        }
        match run(alloc, stages, Asked::Job(Job::Check(f)), staging, budget)? {
            Came::Spent => return Ok(Came::Spent),
            Came::Ends(end) => lines.push(line_of(f, &end))?,
        }
    }
    Err(NoMemory)
}

/// How many functions there are.
fn count(staging: &Staging) -> u64
    ensures { result ≡ length staging.now.typing.stage.store.functions }
{
    staging.typing.world.store.function_count()
}

/// Whether a function is not defined.
fn is_undefined(staging: &Staging, f: FnId) -> bool
    ensures { result ≡ is_undefined staging.now.typing.stage f }
{
    match staging.typing.world.store.state(f) {
        FunctionState::Undefined => true,
        _ => false,
    }
}

/// No check counts where units lacked.
fn settle(lines: &mut Vec<CheckLine>, came: &Came<JobEnd>)
    ensures { lines.new.items ≡ lines_in came.now lines.old.items }
{
    if let Came::Spent = came {
        lines.clear();
    }
}

/// What a check came to.
fn line_of(function: FnId, end: &JobEnd) -> CheckLine
    ensures { result ≡ line_of function end.now }
{
    CheckLine {
        function,
        refusal: match end {
            JobEnd::Refused(refusal) => Some(*refusal),
            _ => None,
        },
    }
}

/// How a staging ended.
fn end_of(staging: &Staging, came: &Came<JobEnd>) -> Result<End, NoMemory>
    ensures { IfOk result (λ end. end ≡ end_in staging.now.typing.stage.heap came.now) }
{
    match came {
        Came::Spent => Ok(End::Spent),
        Came::Ends(JobEnd::Raised(value, place)) => {
            let text = raised_text(&staging.typing.world.heap, *value)?;
            Ok(End::Raised {
                text,
                place: *place,
            })
        }
        Came::Ends(_) => Ok(End::Done),
    }
}

/// The text of an error: that of a text or a number, and one in place of any other value's.
fn raised_text(heap: &Heap, value: Value) -> Result<Bytes, NoMemory>
    ensures { IfOk result (λ text. text ≡ raised_text heap.now value) }
{
    match value {
        Value::Text(id) => Bytes::from_slice(heap.allocator(), heap.text(id)),
        Value::Number(number) => {
            let number = number.get();
            let written = format!(in heap.allocator(); "{number}")?;
            Bytes::from_slice(heap.allocator(), written.as_bytes())
        }
        _ => Bytes::from_slice(heap.allocator(), b"(error object is not a string)"),
    }
}

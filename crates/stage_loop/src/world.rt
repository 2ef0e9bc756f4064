// What a staging works in.

ghost use Rattle.std.specs.Prelude.{◌≡◌, IfOk, OnOk};
ghost use Rattle.std.specs.Prelude.{List as ListOf};
ghost use Rattle.terra_term.specs.declared.lists.TypedName.{TypedName};
ghost use Rattle.stage_library.specs.Keeping.{KeepsStaging};
ghost use Rattle.stage_loop.specs.Calls.{HasRun, MayRun, staged};
ghost use Rattle.stage_loop.specs.Layers.{Keeps};
ghost use Rattle.stage_loop.specs.Runs.{AreSteps};

use crate::raising::print;
use crate::running::{RunEnd, run_counted};
use crate::runs::{Runs, Steps};
use check_model::Typing;
use exotype::World;
use std::alloc::Global;
use std::marker::Model;
use tl_base::limits::MAX_UNITS;
use tl_base::{FnId, List, NoMemory};

/// What a staging works in: what bodies are typed in, and the runs of the Terra functions that Lua code called.
#[derive(Drop)]
pub struct Staging {
    pub typing: Typing,
    pub runs: Runs,
}

impl Model for Staging {
    ghost use Rattle.stage_model.specs.Stage.{StagingState};

    ghost Value = { StagingState };

    ghost view = { λ s. record { typing = s.typing; runs = s.runs.list } };
}

impl Staging {
    /// The world.
    pub fn world(&self) -> &World
        ensures { result.now ≡ self.now.typing.stage }
    {
        &self.typing.world
    }

    /// The numbers of steps that the images of the runs took, one for each run.
    pub fn steps(&self, alloc: Global) -> Result<Steps, NoMemory>
        ensures { IfOk result (λ steps. AreSteps self.now.typing.stage.memory self.now.runs steps) }
    {
        steps_in(alloc, self.world(), &self.runs)
    }

    /// Runs a Terra function on words, with so many units. The run joins the others, and what it printed joins what was printed before.
    pub fn run(&mut self, f: FnId, words: &List<u64>, units: u64) -> Result<RunEnd, NoMemory>
        requires { MayRun self.old.typing.stage f words.now }
        ensures ran { IfOk result (λ end. HasRun self.old self.new f words.now units end) }
        ensures kept { OnOk result (Keeps self.old self.new) }
    {
        run_in(&mut self.typing.world, &mut self.runs, f, words, units)
    }
}

/// The numbers of steps of the runs in a world.
fn steps_in(alloc: Global, world: &World, runs: &Runs) -> Result<Steps, NoMemory>
    ensures { IfOk result (λ steps. AreSteps world.now.memory runs.now.list steps) }
{
    if runs.memory() != world.memory() {
        // The world of a staging keeps the memory of its program.
        return Err(NoMemory);
    }
    runs.steps(alloc)
}

/// Runs a Terra function on words in a world, with so many units. The run joins the others, and what it printed joins what was printed before.
fn run_in(
    world: &mut World,
    runs: &mut Runs,
    f: FnId,
    words: &List<u64>,
    units: u64,
) -> Result<RunEnd, NoMemory>
    requires { MayRun world.old f words.now }
    ensures ran { IfOk result (λ end. (variables : ListOf TypedName) →
        HasRun (staged world.old variables runs.old.list) (staged world.new variables runs.new.list) f words.now units end) }
    ensures kept { OnOk result (KeepsStaging world.old world.new) }
{
    if units > MAX_UNITS || runs.memory() != world.memory() {
        // No staging begins with so many, and its world keeps the memory of its program.
        return Err(NoMemory);
    }
    let ran = run_counted(world.store.allocator(), world, f, words, units)?;
    runs.add(&world.store, f, words, units, ran.steps)?;
    print(world, ran.output.as_slice())?;
    Ok(ran.end)
}

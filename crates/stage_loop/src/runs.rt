// Runs of Terra functions that Lua code called.

ghost use Rattle.std.specs.Prelude.{◌≡◌, ◌++◌, ◌∷◌, [], IfOk, OnOk, map, take};
ghost use Rattle.stage_loop.specs.Kept.{KeptRuns, run_of, steps_of};
ghost use Rattle.stage_loop.specs.Runs.{IsMemory, Took, AreSteps};

use std::alloc::Global;
use std::marker::Model;
use std::snapshot::Snapshot;
use terra_term::Store;
use tl_base::{FnId, List, NoMemory};

/// Numbers of steps, one for each run.
pub type Steps = List<u64>;

/// A run: the function that was called, how many units there were, and how many steps its image took. The arguments, and the store at that
/// time, are kept for clauses alone, and take no memory.
#[derive(Drop)]
pub struct Run {
    pub function: FnId,
    pub units: u64,
    pub steps: u64,
    pub arguments: Snapshot<List<u64>>,
    pub store: Snapshot<Store>,
}

/// The runs of a staging in their order, for a program with so many bytes of memory.
#[derive(Drop)]
pub struct Runs {
    memory: u64,
    runs: Vec<Run>,
}

impl Model for Runs {
    ghost use Rattle.std.specs.Prelude.{map};
    ghost use Rattle.stage_loop.specs.Kept.{KeptRuns, run_of, steps_of};
    ghost use Rattle.stage_loop.specs.Runs.{IsMemory, AreSteps};

    ghost Value = { KeptRuns };

    ghost view = { λ r. record { memory = r.memory; list = map run_of r.runs.items } };

    ghost invariant = { λ r. IsMemory r.memory × AreSteps r.memory (map run_of r.runs.items) (map steps_of r.runs.items) };
}

impl Runs {
    /// No runs.
    pub fn new(alloc: Global, memory: u64) -> Runs
        requires { IsMemory memory }
        ensures { result ≡ record { memory = memory; list = [] } }
    {
        Runs {
            memory,
            runs: Vec::new(alloc),
        }
    }

    /// The memory of the program, in bytes.
    pub fn memory(&self) -> u64
        ensures is { result ≡ self.now.memory }
        ensures whole { IsMemory result }
    {
        self.memory
    }

    /// Puts a run behind the others: of a function with these arguments in a store, with so many units, whose image took so many steps.
    #[tactic(auto, using(crate::proofs::Adding::added))]
    pub fn add(
        &mut self,
        store: &Store,
        function: FnId,
        arguments: &List<u64>,
        units: u64,
        steps: u64,
    ) -> Result<(), NoMemory>
        requires { Took self.old.memory
            (record { store = store.now; function = function; arguments = arguments.now; units = units }) steps }
        ensures { OnOk result (self.new ≡ record {
          memory = self.old.memory;
          list = self.old.list
              ++ record { store = store.now; function = function; arguments = arguments.now; units = units } ∷ [];
        }) }
    {
        self.runs.push(Run {
            function,
            units,
            steps,
            arguments: Snapshot::of(arguments),
            store: Snapshot::of(store),
        })?;
        Ok(())
    }

    /// The numbers of steps, one for each run.
    pub fn steps(&self, alloc: Global) -> Result<Steps, NoMemory>
        ensures { IfOk result (λ steps. AreSteps self.now.memory self.now.list steps) }
    {
        steps_in(alloc, &self.runs)
    }
}

/// The numbers of steps of these runs.
fn steps_in(alloc: Global, runs: &[Run]) -> Result<Steps, NoMemory>
    ensures { IfOk result (λ steps. steps ≡ map steps_of runs.now) }
{
    let mut steps = Steps::new(alloc);
    for run in runs {
        steps.push(run.steps)?;
    }
    Ok(steps)
}

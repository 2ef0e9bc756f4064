// A check, as a layer.

ghost use Rattle.std.specs.Prelude.{◌≡◌, List, false};
ghost use Rattle.check_model.specs.Checks.{check, CheckGiven};

use crate::check_steps::CheckSteps;
use check_model::{CheckAnswer, CheckEnd, CheckQuestion};
use exotype::World;
use std::alloc::Global;
use tl_base::{Budget, FnId, Layer, NoMemory, Suspended, Turn};

/// A check of a function and of all that it reaches, which suspends itself to ask for bodies.
#[derive(Drop)]
pub struct Check {
    machine: Suspended<CheckSteps>,
}

impl Check {
    ghost use Rattle.check_flow.specs.Rest.{check_rest, CheckFits};

    /// What is to check a function, and is to begin with `Go`.
    ///
    /// - `means`: what remains of it is what `check_model` says that a check of the function means.
    /// - `fits`: `Go` is what it begins with.
    pub fn start(alloc: Global, f: FnId) -> Check
        ensures means { (first : CheckGiven) (later : List CheckGiven) → check_rest result first later ≡ check f first later }
        ensures fits { (first : CheckGiven) → first.answer ≡ CheckAnswer.Go → CheckFits result first }
    {
        Check {
            machine: Suspended::start(alloc, CheckSteps { alloc }, f),
        }
    }
}

impl Layer for Check {
    ghost use Rattle.check_flow.specs.CheckFrames.{is_go};
    ghost use Rattle.check_flow.specs.Rest.{check_rest, CheckFits};

    type World = World;

    type Question = CheckQuestion;

    type Answer = CheckAnswer;

    type End = CheckEnd;

    ghost rest = { check_rest };

    ghost fits = { CheckFits };

    ghost follows = { λ question s next. is_go next.answer ≡ false };

    ghost keeps = { λ old new. new ≡ old };

    fn resume(
        &mut self,
        world: &mut World,
        budget: &mut Budget,
        answer: CheckAnswer,
    ) -> Result<Turn<CheckQuestion, CheckEnd>, NoMemory> {
        self.machine.resume(world, budget, answer)
    }
}

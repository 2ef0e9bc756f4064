// A layer that asks for the task below it, for which nothing is paid.

ghost use Rattle.std.specs.Prelude.{List, true, false, ◌≡◌};
ghost use Rattle.layer_examples.specs.Kept.{KeepsWorld};
ghost use Rattle.layer_examples.specs.Nest.{nest_rules};

use crate::end::{Answer, End, Flow, close, reply};
use crate::world::World;
use std::alloc::Global;
use tl_base::{Budget, Layer, Machine, NoMemory, Step, Suspended, Turn};

/// What is done in the innermost task: a loop, and a turn of it, which leaves it.
#[derive(Drop)]
pub enum NestJob {
    Loop,
    Turn,
}

/// What waits for the end above it.
#[derive(Drop)]
pub enum NestFrame {
    /// The question for the task below.
    Caught,
    /// The loop, for its turn.
    Turned,
}

type NestStep = Step<NestJob, Flow, u64>;

// The steps of nested tasks.
#[derive(Drop)]
struct Nests;

impl Machine for Nests {
    ghost use Rattle.layer_examples.specs.Kept.{keeps_world_self, keeps_world_on};
    ghost use Rattle.layer_examples.specs.Ends.{is_go};

    type World = World;

    type Task = u64;

    type Job = NestJob;

    type Frame = NestFrame;

    type Question = u64;

    type Answer = Answer;

    type Return = Flow;

    type End = End;

    ghost rules = { λ nests. nest_rules };

    ghost keeps = { KeepsWorld };

    ghost is_go = { is_go };

    ghost keeps_self = { keeps_world_self };

    ghost keeps_on = { keeps_world_on };

    #[tactic(auto, using(tl_base::proofs::Steps::pushes))]
    fn open(
        &self,
        frames: &mut Vec<NestFrame>,
        _world: &mut World,
        _budget: &mut Budget,
        depth: u64,
    ) -> Result<NestStep, NoMemory> {
        if depth == 0 {
            return Ok(Step::Enter(NestJob::Loop));
        }
        frames.push(NestFrame::Caught)?;
        Ok(Step::Stop(depth - 1))
    }

    #[tactic(auto, using(tl_base::proofs::Steps::pushes))]
    fn begin(
        &self,
        frames: &mut Vec<NestFrame>,
        _world: &mut World,
        _budget: &mut Budget,
        job: NestJob,
    ) -> Result<NestStep, NoMemory> {
        match job {
            NestJob::Loop => {
                frames.push(NestFrame::Turned)?;
                Ok(Step::Enter(NestJob::Turn))
            }
            NestJob::Turn => Ok(Step::Return(Flow::Left)),
        }
    }

    #[tactic(auto, using(tl_base::proofs::Steps::pushes))]
    fn go_on(
        &self,
        _frames: &mut Vec<NestFrame>,
        _world: &mut World,
        _budget: &mut Budget,
        frame: NestFrame,
        end: Flow,
    ) -> Result<NestStep, NoMemory> {
        match frame {
            NestFrame::Caught => match end {
                Flow::Value(value) => Ok(Step::Return(Flow::Value(value.saturating_add(1)))),
                Flow::Thrown(error) => Ok(Step::Return(Flow::Value(error))),
                Flow::Left => Ok(Step::Return(Flow::Left)),
            },
            NestFrame::Turned => match end {
                Flow::Value(_) => Ok(Step::Enter(NestJob::Loop)),
                Flow::Thrown(error) => Ok(Step::Return(Flow::Thrown(error))),
                Flow::Left => Ok(Step::Return(Flow::Value(0))),
            },
        }
    }

    fn reply(&self, answer: Answer) -> Flow {
        reply(answer)
    }

    fn close(&self, end: Flow) -> End {
        close(end)
    }
}

/// A task that suspends itself to ask for the task below it.
#[derive(Drop)]
pub struct Nest {
    machine: Suspended<Nests>,
}

impl Nest {
    ghost use Rattle.layer_examples.specs.Ends.{WorldGiven};
    ghost use Rattle.layer_examples.specs.Nest.{nest};
    ghost use Rattle.layer_examples.specs.Rest.{nest_rest, NestFits};

    /// A task that is to begin with `Go`, with so many below it.
    pub fn start(alloc: Global, depth: u64) -> Nest
        ensures means { (first : WorldGiven) (later : List WorldGiven) →
            nest_rest result first later ≡ nest depth first later }
        ensures fits { (first : WorldGiven) → first.answer ≡ Answer.Go → NestFits result first }
    {
        Nest {
            machine: Suspended::start(alloc, Nests, depth),
        }
    }
}

impl Layer for Nest {
    ghost use Rattle.layer_examples.specs.Ends.{is_go};
    ghost use Rattle.layer_examples.specs.Rest.{nest_rest, NestFits};

    type World = World;

    type Question = u64;

    type Answer = Answer;

    type End = End;

    ghost rest = { nest_rest };

    ghost fits = { NestFits };

    ghost follows = { λ question s next. is_go next.answer ≡ false };

    ghost keeps = { KeepsWorld };

    fn resume(
        &mut self,
        world: &mut World,
        budget: &mut Budget,
        answer: Answer,
    ) -> Result<Turn<u64, End>, NoMemory> {
        self.machine.resume(world, budget, answer)
    }
}

// A layer that asks one question for each number of a list in the world, for which nothing is paid.

ghost use Rattle.std.specs.Prelude.{List, true, false, ◌≡◌, drop, IfOk, OnOk};
ghost use Rattle.tl_base.specs.Machine.{GoesOnFree};
ghost use Rattle.layer_examples.specs.Kept.{KeepsWorld};
ghost use Rattle.layer_examples.specs.Total.{total_of, total_rules};

use crate::end::{Answer, End, Flow, close, reply};
use crate::world::World;
use std::alloc::Global;
use tl_base::{Budget, Layer, Machine, NoMemory, Step, Suspended, Turn};

/// What totals look up: it is borrowed, as the tree of a source is.
#[derive(Drop)]
pub struct Table {
    /// A larger number is asked for as this one.
    pub largest: u64,
}

/// There is no job in a total. What stands for one is entered by no step, and would leave the total at once. (It is no empty enum, since a
/// call of `begin` has to be possible.)
#[derive(Drop)]
pub struct NoJob;

/// A total that waits for an answer, and goes on with the numbers from `at` on.
#[derive(Drop)]
pub struct TotalFrame {
    pub numbers: Vec<u64>,
    pub at: usize,
    pub sum: u64,
}

type TotalStep = Step<NoJob, Flow, u64>;

// Goes on with the numbers from `at` on: asks for the first of them, or ends.
#[tactic(auto, using(tl_base::proofs::Steps::pushes, crate::proofs::Numbers::total_next, crate::proofs::Numbers::total_end))]
fn next_number(
    table: &Table,
    frames: &mut Vec<TotalFrame>,
    world: &mut World,
    numbers: Vec<u64>,
    at: usize,
    sum: u64,
) -> Result<TotalStep, NoMemory>
    ensures means { IfOk result (λ step.
        GoesOnFree (total_rules table.now) frames.old.items (total_of table.now (drop at numbers.items) sum) world.old
        frames.new.items step world.new) }
    ensures kept { OnOk result (KeepsWorld world.old world.new) }
{
    if at < numbers.len() {
        let question = numbers[at].min(table.largest);
        frames.push(TotalFrame {
            numbers,
            at: at + 1,
            sum,
        })?;
        return Ok(Step::Stop(question));
    }
    world.totals = world.totals.saturating_add(1);
    Ok(Step::Return(Flow::Value(sum)))
}

// The steps of totals.
#[derive(Drop)]
struct Totals<'a> {
    table: &'a Table,
}

impl Machine for Totals<'_> {
    ghost use Rattle.layer_examples.specs.Kept.{keeps_world_self, keeps_world_on};
    ghost use Rattle.layer_examples.specs.Ends.{is_go};

    type World = World;

    type Task = u64;

    type Job = NoJob;

    type Frame = TotalFrame;

    type Question = u64;

    type Answer = Answer;

    type Return = Flow;

    type End = End;

    ghost rules = { λ totals. total_rules totals.table.now };

    ghost keeps = { KeepsWorld };

    ghost is_go = { is_go };

    ghost keeps_self = { keeps_world_self };

    ghost keeps_on = { keeps_world_on };

    fn open(
        &self,
        frames: &mut Vec<TotalFrame>,
        world: &mut World,
        _budget: &mut Budget,
        from: u64,
    ) -> Result<TotalStep, NoMemory> {
        let numbers = world.numbers.clone()?;
        let step = next_number(self.table, frames, world, numbers, 0, from)?;
        Ok(step)
    }

    fn begin(
        &self,
        _frames: &mut Vec<TotalFrame>,
        _world: &mut World,
        _budget: &mut Budget,
        _job: NoJob,
    ) -> Result<TotalStep, NoMemory> {
        Ok(Step::Return(Flow::Left))
    }

    fn go_on(
        &self,
        frames: &mut Vec<TotalFrame>,
        world: &mut World,
        _budget: &mut Budget,
        frame: TotalFrame,
        end: Flow,
    ) -> Result<TotalStep, NoMemory> {
        match end {
            Flow::Value(value) => {
                let TotalFrame { numbers, at, sum } = frame;
                let sum = sum.saturating_add(value);
                let step = next_number(self.table, frames, world, numbers, at, sum)?;
                Ok(step)
            }
            Flow::Thrown(error) => Ok(Step::Return(Flow::Thrown(error))),
            Flow::Left => Ok(Step::Return(Flow::Left)),
        }
    }

    fn reply(&self, answer: Answer) -> Flow {
        reply(answer)
    }

    fn close(&self, end: Flow) -> End {
        close(end)
    }
}

/// A total that suspends itself to ask about numbers.
#[derive(Drop)]
pub struct Total<'a> {
    machine: Suspended<Totals<'a>>,
}

impl<'a> Total<'a> {
    ghost use Rattle.layer_examples.specs.Ends.{WorldGiven};
    ghost use Rattle.layer_examples.specs.Total.{total};
    ghost use Rattle.layer_examples.specs.Rest.{total_rest, TotalFits};

    /// A total that is to begin with `Go`, and counts from a number.
    pub fn start(alloc: Global, table: &'a Table, from: u64) -> Total<'a>
        ensures means { (first : WorldGiven) (later : List WorldGiven) →
            total_rest result first later ≡ total table.now from first later }
        ensures fits { (first : WorldGiven) → first.answer ≡ Answer.Go → TotalFits result first }
    {
        Total {
            machine: Suspended::start(alloc, Totals { table }, from),
        }
    }
}

impl Layer for Total<'_> {
    ghost use Rattle.layer_examples.specs.Ends.{is_go};
    ghost use Rattle.layer_examples.specs.Rest.{total_rest, TotalFits};

    type World = World;

    type Question = u64;

    type Answer = Answer;

    type End = End;

    ghost rest = { total_rest };

    ghost fits = { TotalFits };

    ghost follows = { λ question s next. is_go next.answer ≡ false };

    ghost keeps = { KeepsWorld };

    fn resume(
        &mut self,
        world: &mut World,
        budget: &mut Budget,
        answer: Answer,
    ) -> Result<Turn<u64, End>, NoMemory> {
        self.machine.resume(world, budget, answer)
    }
}

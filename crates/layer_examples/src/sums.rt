// A layer that asks for numbers and adds them. It pays inside a step, and its world is a part of the stage's.

ghost use Rattle.std.specs.Prelude.{List, true, false, ◌≡◌, ◌≤◌};
ghost use Rattle.layer_examples.specs.Sums.{sum_rules};

use std::alloc::Global;
use tl_base::{Budget, Layer, Machine, NoMemory, Step, Suspended, Turn};

/// What is to be done.
#[derive(Drop)]
pub enum SumJob {
    /// To ask for one number, which costs two units more, and for another in place of a zero.
    One,
    /// To ask for so many numbers other than zero, and to add them.
    Many(u64),
}

/// What waits for the end of the job above it.
#[derive(Drop)]
pub enum SumFrame {
    /// A sum that waits for its first number, with the count of its others.
    First(u64),
    /// A sum that has this first number, and waits for the sum of its others.
    Others(u64),
    /// The question for one number, which is asked again at a zero.
    Again,
}

/// What begins a sum, and what answers its questions.
#[derive(Clone, Copy)]
pub enum SumAnswer {
    Go,
    Number(u64),
}

/// How a sum ends: by its value, or by `Full`, where it stays at the largest of 64 bits.
#[derive(Clone, Copy, PartialEq, Eq)]
pub enum SumEnd {
    Sum(u64),
    Full,
}

/// The steps of sums. A task is how many numbers are to be added. The world is the count of numbers that were given; a
/// question is that count.
#[derive(Drop)]
struct Sums;

impl Machine for Sums {
    ghost use Rattle.std.proofs.Math.Nat.{le_refl, le_trans};
    ghost use Rattle.layer_examples.specs.Sums.{is_go};

    type World = u64;

    type Task = u64;

    type Job = SumJob;

    type Frame = SumFrame;

    type Question = u64;

    type Answer = SumAnswer;

    type Return = u64;

    type End = SumEnd;

    ghost rules = { λ sums. sum_rules };

    // The count never falls.
    ghost keeps = { λ old new. old ≤ new };

    ghost is_go = { is_go };

    ghost keeps_self = { λ w. le_refl w };

    ghost keeps_on = { λ u v w first second. le_trans first second };

    #[tactic(auto, using(tl_base::proofs::Steps::pushes))]
    fn open(
        &self,
        _frames: &mut Vec<SumFrame>,
        _count: &mut u64,
        _budget: &mut Budget,
        task: u64,
    ) -> Result<Step<SumJob, u64, u64>, NoMemory> {
        Ok(Step::Enter(SumJob::Many(task)))
    }

    #[tactic(auto, using(tl_base::proofs::Steps::pushes))]
    fn begin(
        &self,
        frames: &mut Vec<SumFrame>,
        count: &mut u64,
        budget: &mut Budget,
        job: SumJob,
    ) -> Result<Step<SumJob, u64, u64>, NoMemory> {
        match job {
            SumJob::One => {
                if !budget.pay(2) {
                    return Ok(Step::Spent);
                }
                frames.push(SumFrame::Again)?;
                Ok(Step::Stop(*count))
            }
            SumJob::Many(numbers) => {
                if numbers == 0 {
                    return Ok(Step::Return(0));
                }
                frames.push(SumFrame::First(numbers - 1))?;
                Ok(Step::Enter(SumJob::One))
            }
        }
    }

    #[tactic(auto, using(tl_base::proofs::Steps::pushes))]
    fn go_on(
        &self,
        frames: &mut Vec<SumFrame>,
        count: &mut u64,
        _budget: &mut Budget,
        frame: SumFrame,
        end: u64,
    ) -> Result<Step<SumJob, u64, u64>, NoMemory> {
        match frame {
            SumFrame::First(others) => {
                *count = count.saturating_add(1);
                frames.push(SumFrame::Others(end))?;
                Ok(Step::Enter(SumJob::Many(others)))
            }
            SumFrame::Others(first) => Ok(Step::Return(first.saturating_add(end))),
            SumFrame::Again => {
                if end == 0 {
                    return Ok(Step::Enter(SumJob::One));
                }
                Ok(Step::Return(end))
            }
        }
    }

    fn reply(&self, answer: SumAnswer) -> u64 {
        match answer {
            SumAnswer::Go => 0,
            SumAnswer::Number(number) => number,
        }
    }

    fn close(&self, end: u64) -> SumEnd {
        if end == u64::MAX {
            SumEnd::Full
        } else {
            SumEnd::Sum(end)
        }
    }
}

/// A sum that suspends itself to ask for numbers.
#[derive(Drop)]
pub struct Sum {
    machine: Suspended<Sums>,
}

impl Sum {
    ghost use Rattle.layer_examples.specs.Sums.{SumGiven, sum};
    ghost use Rattle.layer_examples.specs.Rest.{sum_rest, SumFits};

    /// A sum of so many numbers, which is to begin with `Go`.
    pub fn start(alloc: Global, numbers: u64) -> Sum
        ensures means { (first : SumGiven) (later : List SumGiven) →
            sum_rest result first later ≡ sum numbers first later }
        ensures fits { (first : SumGiven) → first.answer ≡ SumAnswer.Go → SumFits result first }
    {
        Sum {
            machine: Suspended::start(alloc, Sums, numbers),
        }
    }
}

impl Layer for Sum {
    ghost use Rattle.layer_examples.specs.Sums.{is_go};
    ghost use Rattle.layer_examples.specs.Rest.{sum_rest, SumFits};

    type World = u64;

    type Question = u64;

    type Answer = SumAnswer;

    type End = SumEnd;

    ghost rest = { sum_rest };

    ghost fits = { SumFits };

    ghost follows = { λ question s next. is_go next.answer ≡ false };

    // The count never falls.
    ghost keeps = { λ old new. old ≤ new };

    fn resume(
        &mut self,
        count: &mut u64,
        budget: &mut Budget,
        answer: SumAnswer,
    ) -> Result<Turn<u64, SumEnd>, NoMemory> {
        self.machine.resume(count, budget, answer)
    }
}

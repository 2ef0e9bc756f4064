// The layers as one stage: what each asks names another, and its end is the answer.

ghost use Rattle.std.specs.Prelude.{List, true, false, ◌≡◌};
ghost use Rattle.layer_examples.specs.Staged.{total_question, sum_question, sum_answer, sum_end};

use crate::end::{Answer, End};
use crate::nest::Nest;
use crate::sums::{Sum, SumAnswer, SumEnd};
use crate::total::{Table, Total};
use crate::world::World;
use stage_form::Stages;
use std::alloc::Global;
use tl_base::{Budget, Layer, NoMemory, Turn};

/// What a layer is asked to do.
#[derive(Clone, Copy)]
pub enum Task {
    /// To add what the world's numbers come to, from a number on.
    SumUp(u64),
    /// To nest so many tasks.
    Descend(u64),
    /// To add so many numbers, which are asked for.
    Add(u64),
    /// To raise an error.
    Fail(u64),
}

// A total asks for each number so many nested tasks, and for a zero that it be raised.
fn total_task(number: u64) -> Task
    ensures { result ≡ total_question number }
{
    if number == 0 {
        Task::Fail(0)
    } else {
        Task::Descend(number)
    }
}

// A sum asks for its first number one nested task, for the second two, and so on.
fn sum_task(count: u64) -> Task
    ensures { result ≡ sum_question count }
{
    Task::Descend(count.saturating_add(1))
}

// What an answer of the stage is for a sum: an error counts as the number that was raised.
fn answer_for_sum(answer: Answer) -> SumAnswer
    ensures { result ≡ sum_answer answer }
{
    match answer {
        Answer::Go => SumAnswer::Go,
        Answer::Done(number) | Answer::Raise(number) => SumAnswer::Number(number),
    }
}

// What the end of a sum is in the stage.
fn end_of_sum(end: SumEnd) -> End
    ensures { result ≡ sum_end end }
{
    match end {
        SumEnd::Sum(number) => End::Done(number),
        SumEnd::Full => End::Raised(0),
    }
}

/// A layer of the stage, which is to begin, or is suspended.
#[derive(Drop)]
pub enum Staged<'a> {
    Total(Total<'a>),
    Nest(Nest),
    Sum(Sum),
    /// It ends at once.
    Failing(u64),
}

impl Layer for Staged<'_> {
    ghost use Rattle.layer_examples.specs.Ends.{is_go};
    ghost use Rattle.layer_examples.specs.Kept.{KeepsWorld};
    ghost use Rattle.layer_examples.specs.Staged.{staged_rest, StagedFits};

    type World = World;

    type Question = Task;

    type Answer = Answer;

    type End = End;

    ghost rest = { staged_rest };

    ghost fits = { StagedFits };

    ghost follows = { λ question s next. is_go next.answer ≡ false };

    ghost keeps = { KeepsWorld };

    fn resume(
        &mut self,
        world: &mut World,
        budget: &mut Budget,
        answer: Answer,
    ) -> Result<Turn<Task, End>, NoMemory> {
        match self {
            Staged::Total(total) => match total.resume(world, budget, answer)? {
                Turn::End(end) => Ok(Turn::End(end)),
                Turn::Ask(number) => Ok(Turn::Ask(total_task(number))),
                Turn::Spent => Ok(Turn::Spent),
            },
            Staged::Nest(nest) => match nest.resume(world, budget, answer)? {
                Turn::End(end) => Ok(Turn::End(end)),
                Turn::Ask(depth) => Ok(Turn::Ask(Task::Descend(depth))),
                Turn::Spent => Ok(Turn::Spent),
            },
            Staged::Sum(sum) => {
                match sum.resume(&mut world.given, budget, answer_for_sum(answer))? {
                    Turn::End(end) => Ok(Turn::End(end_of_sum(end))),
                    Turn::Ask(count) => Ok(Turn::Ask(sum_task(count))),
                    Turn::Spent => Ok(Turn::Spent),
                }
            }
            Staged::Failing(error) => Ok(Turn::End(End::Raised(*error))),
        }
    }
}

/// The stage of these layers, over a table.
#[derive(Clone, Copy)]
pub struct Examples<'a> {
    pub table: &'a Table,
}

impl<'a> Stages for Examples<'a> {
    ghost use Rattle.layer_examples.specs.Kept.{keeps_world_self, keeps_world_on};
    ghost use Rattle.layer_examples.specs.Staged.{example_stage, ends_follow};
    ghost use Rattle.stage_form.proofs.Unowed.{nothing_held};

    type World = World;

    type Question = Task;

    type Answer = Answer;

    type End = End;

    type Staged = Staged<'a>;

    ghost stage = { λ stages. example_stage stages.table.now };

    ghost begins = { λ stages question w. Unit {0} };

    ghost leaves = { λ stages question w end v. Unit {0} };

    ghost layers_hold = { λ stages. nothing_held (example_stage stages.table.now) };

    ghost ends_follow = { λ stages question asked now end kept paid left. ends_follow end };

    ghost keeps_self = { keeps_world_self };

    ghost keeps_on = { keeps_world_on };

    fn start(&self, alloc: Global, question: Task) -> Staged<'a> {
        match question {
            Task::SumUp(from) => Staged::Total(Total::start(alloc, self.table, from)),
            Task::Descend(depth) => Staged::Nest(Nest::start(alloc, depth)),
            Task::Add(numbers) => Staged::Sum(Sum::start(alloc, numbers)),
            Task::Fail(error) => Staged::Failing(error),
        }
    }

    fn go(&self) -> Answer {
        Answer::Go
    }

    fn answer(&self, end: End) -> Answer {
        match end {
            End::Done(value) => Answer::Done(value),
            End::Raised(error) => Answer::Raise(error),
        }
    }
}

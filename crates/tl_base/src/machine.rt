// The machine that each layer is: frames over the rules of a language.
//
// A layer writes its meaning as a table of plans, one for each kind of job, without frames (`specs/Plan.antt`). Its
// machine has a frame for each place at which a plan waits, and says how each frame goes on (`specs/Machine.antt`).
// `open`, `begin` and `go_on` are its steps; what is proved of them is that each does what the plan says. The loop, the
// payment before each job, questions and answers are here, once for all layers. The crate `layer_examples` has small
// ones.

ghost use Rattle.std.specs.Prelude.{List, [], ◌∷◌, Bool, true, false, ◌≡◌, IfOk, OnOk};
ghost use Rattle.tl_base.specs.Layer.{State, state, Given, seen, OnAsk, UnlessAsk};
ghost use Rattle.tl_base.specs.Plan.{Give, shown};
ghost use Rattle.tl_base.specs.Machine.{Rules, GoesOn, plug, plan_run, meant, woken};

use crate::budget::Budget;
use crate::layer::Layer;
use crate::memory::NoMemory;
use crate::turn::Turn;
use std::alloc::Global;
use std::mem;

/// What a machine does next.
#[derive(Drop)]
pub enum Step<J, R, Q> {
    /// To pay one unit and begin a job.
    Enter(J),
    /// To go on with the last frame, given an end; without a frame that is the end of all.
    Return(R),
    /// To ask, and to wait for the answer.
    Stop(Q),
    /// To stop before a payment above what is left.
    Spent,
}

/// What a machine waits for: to begin, or for the answer to its question.
#[derive(Drop)]
pub enum Waiting<T> {
    Begin(T),
    Asked,
}

/// The steps of a language: how its tasks and its jobs begin, and how its frames go on.
///
/// A task is what the layer as a whole does, and beginning it costs nothing; a job is done inside, and its unit is paid
/// for it. A step pays what its plan pays by [`Budget::pay`], and answers [`Step::Spent`] where that is false. It may
/// push any number of frames.
pub trait Machine {
    /// What a step reads and changes beside the budget.
    type World;

    /// What a layer is begun with.
    type Task: Drop;

    /// What a language does.
    type Job: Drop;

    /// What waits for the end of the job above it, or for the answer to a question.
    type Frame: Drop;

    /// What is asked.
    type Question: Drop;

    /// What begins, and what answers a question.
    type Answer: Drop;

    /// How a job ends: its value, or why it was left.
    type Return: Drop;

    /// How a task ends.
    type End;

    /// The language: the plan of each task and of each job, how each frame goes on, and the ends that an answer and a
    /// task have.
    ghost rules: { Self → Rules Self.Task Self.Job Self.World Self.Question Self.Answer Self.Return Self.End Self.Frame };

    /// What each step keeps of the world.
    ghost keeps: { Self.World → Self.World → Type 0 };

    /// Tells the answer that begins from those to questions.
    ghost is_go: { Self.Answer → Bool };

    /// Begins a task, for which nothing is paid.
    ///
    /// `means`: with every list of answers to come, the frames and the task's first plan before the step do what the
    /// frames and the step do after it.
    fn open(
        &self,
        frames: &mut Vec<Self::Frame>,
        world: &mut Self::World,
        budget: &mut Budget,
        task: Self::Task,
    ) -> Result<Step<Self::Job, Self::Return, Self::Question>, NoMemory>
        ensures means { IfOk result (λ step.
            GoesOn (rules self.now) frames.old.items ((rules self.now).first task) (state world.old budget.old)
            frames.new.items step (state world.new budget.new)) }
        ensures kept { OnOk result (keeps world.old world.new) };

    /// Begins a job, whose unit is paid. Its clauses are those of `open`, with the job's plan.
    fn begin(
        &self,
        frames: &mut Vec<Self::Frame>,
        world: &mut Self::World,
        budget: &mut Budget,
        job: Self::Job,
    ) -> Result<Step<Self::Job, Self::Return, Self::Question>, NoMemory>
        ensures means { IfOk result (λ step.
            GoesOn (rules self.now) frames.old.items ((rules self.now).plan job) (state world.old budget.old)
            frames.new.items step (state world.new budget.new)) }
        ensures kept { OnOk result (keeps world.old world.new) };

    /// Goes on with a frame, which is off the others, given the end that it waited for. Its clauses are those of
    /// `open`, with the plan with which the frame goes on.
    fn go_on(
        &self,
        frames: &mut Vec<Self::Frame>,
        world: &mut Self::World,
        budget: &mut Budget,
        frame: Self::Frame,
        end: Self::Return,
    ) -> Result<Step<Self::Job, Self::Return, Self::Question>, NoMemory>
        ensures means { IfOk result (λ step.
            GoesOn (rules self.now) frames.old.items ((rules self.now).after frame end) (state world.old budget.old)
            frames.new.items step (state world.new budget.new)) }
        ensures kept { OnOk result (keeps world.old world.new) };

    /// The end that the answer to a question gives.
    fn reply(&self, answer: Self::Answer) -> Self::Return
        ensures { result ≡ (rules self.now).reply answer };

    /// The end of the task that the end of its first plan is.
    fn close(&self, end: Self::Return) -> Self::End
        ensures { result ≡ (rules self.now).close end };

    /// What did nothing kept the world.
    ghost keeps_self: { (w : Self.World) → keeps w w };

    /// What was kept by one step and by the next was kept by both.
    ghost keeps_on: { (u v w : Self.World) → keeps u v → keeps v w → keeps u w };
}

// Goes on to where the machine stops next. A step may push any number of frames without paying, so no measure in units
// falls at each turn. The turns are counted, and behind the last of them, to which no machine comes, stands the one
// answer that is free.
fn drive<M: Machine>(
    machine: &M,
    frames: &mut Vec<M::Frame>,
    world: &mut M::World,
    budget: &mut Budget,
    first: Step<M::Job, M::Return, M::Question>,
) -> Result<Turn<M::Question, M::End>, NoMemory>
    ensures turn { IfOk result (λ turn.
        shown (M.rules machine.now).close (plug (M.rules machine.now) frames.old.items
        (meant (M.rules machine.now) first (state world.old budget.old) []))
        ≡ seen turn (state world.new budget.new)) }
    ensures reads_no_more { IfOk result (λ turn. UnlessAsk turn ((later : List (Given M.World M.Answer)) →
        shown (M.rules machine.now).close (plug (M.rules machine.now) frames.old.items
        (meant (M.rules machine.now) first (state world.old budget.old) later))
        ≡ seen turn (state world.new budget.new))) }
    ensures goes_on { IfOk result (λ turn. OnAsk turn (λ _.
        (next : Given M.World M.Answer) (later : List (Given M.World M.Answer)) →
        plug (M.rules machine.now) frames.old.items
        (meant (M.rules machine.now) first (state world.old budget.old) (next ∷ later))
        ≡ plug (M.rules machine.now) frames.new.items
        (plan_run (M.rules machine.now) (woken (M.rules machine.now) Waiting.Asked next.answer) next.state later))) }
    ensures kept { OnOk result (M.keeps world.old world.new) }
{
    let mut step = first;
    for _ in 0..u64::MAX {
        match step {
            Step::Spent => return Ok(Turn::Spent),
            Step::Stop(question) => return Ok(Turn::Ask(question)),
            Step::Return(end) => match frames.pop() {
                None => return Ok(Turn::End(machine.close(end))),
                Some(frame) => {
                    step = machine.go_on(frames, world, budget, frame, end)?;
                    continue;
                }
            },
            Step::Enter(job) => {
                if !budget.pay(1) {
                    return Ok(Turn::Spent);
                }
                step = machine.begin(frames, world, budget, job)?;
            }
        }
    }
    Err(NoMemory)
}

/// A machine that is suspended, or that is to begin: what each layer is.
#[derive(Drop)]
pub struct Suspended<M: Machine> {
    machine: M,
    frames: Vec<M::Frame>,
    waiting: Waiting<M::Task>,
}

impl<M: Machine> Suspended<M> {
    ghost use Rattle.tl_base.specs.Machine.{meaning_of};

    /// A machine that is to begin a task, with the answer that begins. What remains to be done is then the task's
    /// meaning, for that answer and every list of answers behind it.
    pub fn start(alloc: Global, machine: M, task: M::Task) -> Suspended<M>
        ensures means { (first : Given M.World M.Answer) (later : List (Given M.World M.Answer)) →
            ⟦<Suspended<M> as Layer>⟧.rest result first later ≡ meaning_of (M.rules machine) task first later }
        ensures fits { (first : Given M.World M.Answer) →
            M.is_go first.answer ≡ true → ⟦<Suspended<M> as Layer>⟧.fits result first }
    {
        Suspended {
            machine,
            frames: Vec::new(alloc),
            waiting: Waiting::Begin(task),
        }
    }
}

// The step with which a machine goes on.
fn wake<M: Machine>(
    machine: &M,
    frames: &mut Vec<M::Frame>,
    world: &mut M::World,
    budget: &mut Budget,
    waiting: Waiting<M::Task>,
    answer: M::Answer,
) -> Result<Step<M::Job, M::Return, M::Question>, NoMemory>
    ensures means { IfOk result (λ step.
        GoesOn (M.rules machine.now) frames.old.items (woken (M.rules machine.now) waiting answer)
        (state world.old budget.old) frames.new.items step (state world.new budget.new)) }
    ensures kept { OnOk result (M.keeps world.old world.new) }
{
    match waiting {
        Waiting::Begin(task) => machine.open(frames, world, budget, task),
        Waiting::Asked => Ok(Step::Return(machine.reply(answer))),
    }
}

impl<M: Machine> Layer for Suspended<M> {
    ghost use Rattle.tl_base.specs.Machine.{rest_of, fits_waiting};

    type World = M::World;

    type Question = M::Question;

    type Answer = M::Answer;

    type End = M::End;

    ghost rest = { λ layer next later. rest_of (M.rules layer.machine) layer.frames.items layer.waiting next later };

    ghost fits = { λ layer next. fits_waiting M.is_go layer.waiting next.answer ≡ true };

    ghost follows = { λ question s next. M.is_go next.answer ≡ false };

    ghost keeps = { M.keeps };

    fn resume(
        &mut self,
        world: &mut M::World,
        budget: &mut Budget,
        answer: M::Answer,
    ) -> Result<Turn<M::Question, M::End>, NoMemory> {
        let waiting = mem::replace(&mut self.waiting, Waiting::Asked);
        let step = wake(
            &self.machine,
            &mut self.frames,
            world,
            budget,
            waiting,
            answer,
        )?;
        let turn = drive(&self.machine, &mut self.frames, world, budget, step)?;
        Ok(turn)
    }
}

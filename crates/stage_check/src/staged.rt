// The layers as one.

ghost use Rattle.std.specs.Prelude.{◌≡◌, ◌≤◌, List, [], ◌∷◌, false, IfOk, OnOk};
ghost use Rattle.tl_base.specs.Layer.{State, given, at, state, seen, OnAsk, UnlessAsk};
ghost use Rattle.stage_form.specs.Within.{given_part, within};
ghost use Rattle.tl_tree.specs.Arena.{items_of};
ghost use Rattle.lua_eval.specs.Slots.{ArePaths};
ghost use Rattle.stage_code.specs.Layers.{staged_rest, StagedFits, turn_within};
ghost use Rattle.check_expr.specs.Frames.{is_go};
ghost use Rattle.check_expr.specs.Rest.{body_rest, BodyFits};
ghost use Rattle.check_flow.specs.Rest.{check_rest, CheckFits, layout_rest, LayoutFits};
ghost use Rattle.stage_check.specs.Asking.{asking_rest};
ghost use Rattle.stage_check.specs.Results.{result_rest, ResultFits};
ghost use Rattle.stage_check.specs.Keeping.{KeepsChecking};
ghost use Rattle.stage_check.specs.Layers as models;
ghost use Rattle.stage_check.specs.Layers.{JobGiven, stage_fitting, asking_fitting, check_fitting};
ghost use Rattle.stage_check.specs.Layers.{body_fitting, result_fitting, layout_fitting, rest, Fits, job_meaning};
ghost use Rattle.check_model.specs.Typing.{TypingState};

use crate::asking::{Asker, Asking};
use crate::jobs::{Asked, Job, JobEnd};
use crate::results::ResultOf;
use check_expr::Body;
use check_flow::{Check, Layout};
use check_library::asks;
use check_model::{
    BodyEnd, BodyQuestion, CheckAnswer, CheckEnd, CheckQuestion, LayoutEnd, LayoutQuestion, Typing,
};
use lua_model::{LuaAnswer, LuaEnd, LuaJob};
use lua_value::Values;
use stage_code::{Asked as TaskAsked, Staged as WithoutChecks, TerraStage};
use stage_library::Task;
use std::alloc::Global;
use tl_base::{Budget, Layer, NoMemory, Turn};
use tl_rename::Slots;
use tl_tree::Tree;

// ---- what needs no check and no layout by itself

/// A task as a job.
fn job_of(task: Task) -> Job
    ensures { result ≡ models.job_of task }
{
    match task {
        Task::Library(call) => {
            if asks(call.function) {
                Job::Call(call)
            } else {
                Job::Stage(Task::Library(call))
            }
        }
        task => Job::Stage(task),
    }
}

/// An answer of the stage for Lua code, for the specialisation of Terra code and for the library.
fn lua_answer(typing: &Typing, answer: CheckAnswer) -> LuaAnswer
    ensures { result ≡ models.lua_answer answer }
{
    match answer {
        CheckAnswer::Go => LuaAnswer::Go,
        CheckAnswer::Values(values) => LuaAnswer::Values(values),
        CheckAnswer::Raise(value, place) => LuaAnswer::Raise(value, place),
        _ => LuaAnswer::Values(Values::new(typing.world.heap.allocator())),
    }
}

/// The end of such a layer.
fn lua_end(end: LuaEnd) -> JobEnd
    ensures { result ≡ models.lua_end end }
{
    match end {
        LuaEnd::Done(values) => JobEnd::Values(values),
        LuaEnd::Raised(value, place) => JobEnd::Raised(value, place),
    }
}

/// What such a layer asks for.
fn stage_asks(asked: TaskAsked) -> Asked
    ensures { result ≡ models.stage_asks asked }
{
    match asked {
        TaskAsked::Task(task) => Asked::Job(job_of(task)),
        TaskAsked::Terra(function, args, place) => Asked::Terra(function, args, place),
    }
}

/// Where such a layer stops.
fn stage_turn(turn: Turn<TaskAsked, LuaEnd>) -> Turn<Asked, JobEnd>
    ensures { result ≡ turn_within stage_fitting turn }
{
    match turn {
        Turn::End(end) => Turn::End(lua_end(end)),
        Turn::Ask(asked) => Turn::Ask(stage_asks(asked)),
        Turn::Spent => Turn::Spent,
    }
}

/// Goes on with such a layer, to where it stops next.
fn resume_stage(
    staged: &mut WithoutChecks<'_>,
    typing: &mut Typing,
    budget: &mut Budget,
    answer: CheckAnswer,
) -> Result<Turn<Asked, JobEnd>, NoMemory>
    requires { StagedFits staged.old (given_part stage_fitting (given answer typing.old budget.old)) }
    ensures turn { IfOk result (λ turn. within stage_fitting (staged_rest staged.old) (given answer typing.old budget.old) []
        ≡ seen turn (state typing.new budget.new)) }
    ensures reads_no_more { IfOk result (λ turn. UnlessAsk turn ((later : List JobGiven) →
        within stage_fitting (staged_rest staged.old) (given answer typing.old budget.old) later
        ≡ seen turn (state typing.new budget.new))) }
    ensures goes_on { IfOk result (λ turn. OnAsk turn (λ _. (next : JobGiven) (later : List JobGiven) →
        within stage_fitting (staged_rest staged.old) (given answer typing.old budget.old) (next ∷ later)
        ≡ within stage_fitting (staged_rest staged.new) next later)) }
    ensures fits_next { IfOk result (λ turn. OnAsk turn (λ _. (next : JobGiven) →
        is_go next.answer ≡ false → StagedFits staged.new (given_part stage_fitting next))) }
    ensures kept { OnOk result (KeepsChecking typing.old typing.new) }
    ensures paid { OnOk result (budget.new ≤ budget.old) }
{
    let answer = lua_answer(typing, answer);
    let turn = staged.resume(&mut typing.world, budget, answer)?;
    Ok(stage_turn(turn))
}

/// Where what asks in the library stops.
pub fn asking_turn(turn: Turn<Job, JobEnd>) -> Turn<Asked, JobEnd>
    ensures { result ≡ turn_within asking_fitting turn }
{
    match turn {
        Turn::End(end) => Turn::End(end),
        Turn::Ask(job) => Turn::Ask(Asked::Job(job)),
        Turn::Spent => Turn::Spent,
    }
}

/// Goes on with what asks in the library, to where it stops next.
fn resume_asking(
    asking: &mut Asking,
    typing: &mut Typing,
    budget: &mut Budget,
    answer: CheckAnswer,
) -> Result<Turn<Asked, JobEnd>, NoMemory>
    ensures turn { IfOk result (λ turn. within asking_fitting (asking_rest asking.old) (given answer typing.old budget.old) []
        ≡ seen turn (state typing.new budget.new)) }
    ensures reads_no_more { IfOk result (λ turn. UnlessAsk turn ((later : List JobGiven) →
        within asking_fitting (asking_rest asking.old) (given answer typing.old budget.old) later
        ≡ seen turn (state typing.new budget.new))) }
    ensures goes_on { IfOk result (λ turn. OnAsk turn (λ _. (next : JobGiven) (later : List JobGiven) →
        within asking_fitting (asking_rest asking.old) (given answer typing.old budget.old) (next ∷ later)
        ≡ within asking_fitting (asking_rest asking.new) next later)) }
    ensures kept { OnOk result (KeepsChecking typing.old typing.new) }
    ensures paid { OnOk result (budget.new ≤ budget.old) }
{
    let turn = asking.resume(&mut typing.world, budget, answer)?;
    Ok(asking_turn(turn))
}

// ---- bodies, checks and layouts

/// The job that a question of the typing of a body is.
fn body_asks(question: BodyQuestion) -> Job
    ensures { result ≡ models.body_asks question }
{
    match question {
        BodyQuestion::CallLua(function, args, at) => {
            Job::Stage(Task::Evaluate(LuaJob::Call(function, args, at)))
        }
        BodyQuestion::ResultOf(f) => Job::Result(f),
        BodyQuestion::LayoutOf(of, at) => Job::Layout(of, at),
    }
}

/// Where the typing of a body stops.
fn body_turn(turn: Turn<BodyQuestion, BodyEnd>) -> Turn<Asked, JobEnd>
    ensures { result ≡ turn_within body_fitting turn }
{
    match turn {
        Turn::End(BodyEnd::Typed(_)) => Turn::End(JobEnd::Done),
        Turn::End(BodyEnd::Refused(refusal)) => Turn::End(JobEnd::Refused(refusal)),
        Turn::Ask(question) => Turn::Ask(Asked::Job(body_asks(question))),
        Turn::Spent => Turn::Spent,
    }
}

/// Where the finding of a result type stops.
fn result_turn(turn: Turn<BodyQuestion, JobEnd>) -> Turn<Asked, JobEnd>
    ensures { result ≡ turn_within result_fitting turn }
{
    match turn {
        Turn::End(end) => Turn::End(end),
        Turn::Ask(question) => Turn::Ask(Asked::Job(body_asks(question))),
        Turn::Spent => Turn::Spent,
    }
}

/// Where a check stops.
fn check_turn(turn: Turn<CheckQuestion, CheckEnd>) -> Turn<Asked, JobEnd>
    ensures { result ≡ turn_within check_fitting turn }
{
    match turn {
        Turn::End(CheckEnd::Done) => Turn::End(JobEnd::Done),
        Turn::End(CheckEnd::Refused(refusal)) => Turn::End(JobEnd::Refused(refusal)),
        Turn::Ask(CheckQuestion::Body(f)) => Turn::Ask(Asked::Job(Job::Body(f))),
        Turn::Spent => Turn::Spent,
    }
}

/// The job that a question of a layout is.
fn layout_asks(question: LayoutQuestion) -> Job
    ensures { result ≡ models.layout_asks question }
{
    match question {
        LayoutQuestion::CallLua(function, args, at) => {
            Job::Stage(Task::Evaluate(LuaJob::Call(function, args, at)))
        }
        LayoutQuestion::LayoutOf(of, at) => Job::Layout(of, at),
    }
}

/// Where a layout stops.
fn layout_turn(turn: Turn<LayoutQuestion, LayoutEnd>) -> Turn<Asked, JobEnd>
    ensures { result ≡ turn_within layout_fitting turn }
{
    match turn {
        Turn::End(LayoutEnd::Done) => Turn::End(JobEnd::Done),
        Turn::End(LayoutEnd::Refused(kind)) => Turn::End(JobEnd::NoLayout(kind)),
        Turn::Ask(question) => Turn::Ask(Asked::Job(layout_asks(question))),
        Turn::Spent => Turn::Spent,
    }
}

/// Goes on with a check, to where it stops next.
fn resume_check(
    check: &mut Check,
    typing: &mut Typing,
    budget: &mut Budget,
    answer: CheckAnswer,
) -> Result<Turn<Asked, JobEnd>, NoMemory>
    requires { CheckFits check.old (given_part check_fitting (given answer typing.old budget.old)) }
    ensures turn { IfOk result (λ turn. within check_fitting (check_rest check.old) (given answer typing.old budget.old) []
        ≡ seen turn (state typing.new budget.new)) }
    ensures reads_no_more { IfOk result (λ turn. UnlessAsk turn ((later : List JobGiven) →
        within check_fitting (check_rest check.old) (given answer typing.old budget.old) later
        ≡ seen turn (state typing.new budget.new))) }
    ensures goes_on { IfOk result (λ turn. OnAsk turn (λ _. (next : JobGiven) (later : List JobGiven) →
        within check_fitting (check_rest check.old) (given answer typing.old budget.old) (next ∷ later)
        ≡ within check_fitting (check_rest check.new) next later)) }
    ensures fits_next { IfOk result (λ turn. OnAsk turn (λ _. (next : JobGiven) →
        is_go next.answer ≡ false → CheckFits check.new (given_part check_fitting next))) }
    ensures kept { OnOk result (KeepsChecking typing.old typing.new) }
    ensures paid { OnOk result (budget.new ≤ budget.old) }
{
    let turn = check.resume(&mut typing.world, budget, answer)?;
    Ok(check_turn(turn))
}

/// Goes on with the typing of a body, to where it stops next.
fn resume_body(
    body: &mut Body,
    typing: &mut Typing,
    budget: &mut Budget,
    answer: CheckAnswer,
) -> Result<Turn<Asked, JobEnd>, NoMemory>
    requires { BodyFits body.old (given_part body_fitting (given answer typing.old budget.old)) }
    ensures turn { IfOk result (λ turn. within body_fitting (body_rest body.old) (given answer typing.old budget.old) []
        ≡ seen turn (state typing.new budget.new)) }
    ensures reads_no_more { IfOk result (λ turn. UnlessAsk turn ((later : List JobGiven) →
        within body_fitting (body_rest body.old) (given answer typing.old budget.old) later
        ≡ seen turn (state typing.new budget.new))) }
    ensures goes_on { IfOk result (λ turn. OnAsk turn (λ _. (next : JobGiven) (later : List JobGiven) →
        within body_fitting (body_rest body.old) (given answer typing.old budget.old) (next ∷ later)
        ≡ within body_fitting (body_rest body.new) next later)) }
    ensures fits_next { IfOk result (λ turn. OnAsk turn (λ _. (next : JobGiven) →
        is_go next.answer ≡ false → BodyFits body.new (given_part body_fitting next))) }
    ensures kept { OnOk result (KeepsChecking typing.old typing.new) }
    ensures paid { OnOk result (budget.new ≤ budget.old) }
{
    let turn = body.resume(typing, budget, answer)?;
    Ok(body_turn(turn))
}

/// Goes on with the finding of a result type, to where it stops next.
fn resume_result(
    finding: &mut ResultOf,
    typing: &mut Typing,
    budget: &mut Budget,
    answer: CheckAnswer,
) -> Result<Turn<Asked, JobEnd>, NoMemory>
    requires { ResultFits finding.old (given_part result_fitting (given answer typing.old budget.old)) }
    ensures turn { IfOk result (λ turn. within result_fitting (result_rest finding.old) (given answer typing.old budget.old) []
        ≡ seen turn (state typing.new budget.new)) }
    ensures reads_no_more { IfOk result (λ turn. UnlessAsk turn ((later : List JobGiven) →
        within result_fitting (result_rest finding.old) (given answer typing.old budget.old) later
        ≡ seen turn (state typing.new budget.new))) }
    ensures goes_on { IfOk result (λ turn. OnAsk turn (λ _. (next : JobGiven) (later : List JobGiven) →
        within result_fitting (result_rest finding.old) (given answer typing.old budget.old) (next ∷ later)
        ≡ within result_fitting (result_rest finding.new) next later)) }
    ensures fits_next { IfOk result (λ turn. OnAsk turn (λ _. (next : JobGiven) →
        is_go next.answer ≡ false → ResultFits finding.new (given_part result_fitting next))) }
    ensures kept { OnOk result (KeepsChecking typing.old typing.new) }
    ensures paid { OnOk result (budget.new ≤ budget.old) }
{
    let turn = finding.resume(typing, budget, answer)?;
    Ok(result_turn(turn))
}

/// Goes on with a layout, to where it stops next.
fn resume_layout(
    layout: &mut Layout,
    typing: &mut Typing,
    budget: &mut Budget,
    answer: CheckAnswer,
) -> Result<Turn<Asked, JobEnd>, NoMemory>
    requires { LayoutFits layout.old (given_part layout_fitting (given answer typing.old budget.old)) }
    ensures turn { IfOk result (λ turn. within layout_fitting (layout_rest layout.old) (given answer typing.old budget.old) []
        ≡ seen turn (state typing.new budget.new)) }
    ensures reads_no_more { IfOk result (λ turn. UnlessAsk turn ((later : List JobGiven) →
        within layout_fitting (layout_rest layout.old) (given answer typing.old budget.old) later
        ≡ seen turn (state typing.new budget.new))) }
    ensures goes_on { IfOk result (λ turn. OnAsk turn (λ _. (next : JobGiven) (later : List JobGiven) →
        within layout_fitting (layout_rest layout.old) (given answer typing.old budget.old) (next ∷ later)
        ≡ within layout_fitting (layout_rest layout.new) next later)) }
    ensures fits_next { IfOk result (λ turn. OnAsk turn (λ _. (next : JobGiven) →
        is_go next.answer ≡ false → LayoutFits layout.new (given_part layout_fitting next))) }
    ensures kept { OnOk result (KeepsChecking typing.old typing.new) }
    ensures paid { OnOk result (budget.new ≤ budget.old) }
{
    let turn = layout.resume(&mut typing.world, budget, answer)?;
    Ok(layout_turn(turn))
}

// ---- the layers

/// A layer of the stage, which is to begin, or is suspended.
#[derive(Drop)]
pub enum Staged<'a> {
    /// What needs no check and no layout by itself.
    Stage(WithoutChecks<'a>),
    Asking(Asking),
    Check(Check),
    Body(Body),
    Result(ResultOf),
    Layout(Layout),
}

impl Layer for Staged<'_> {
    type World = Typing;

    type Question = Asked;

    type Answer = CheckAnswer;

    type End = JobEnd;

    ghost rest = { rest };

    ghost fits = { Fits };

    ghost follows = { λ question s next. is_go next.answer ≡ false };

    ghost keeps = { KeepsChecking };

    fn resume(
        &mut self,
        typing: &mut Typing,
        budget: &mut Budget,
        answer: CheckAnswer,
    ) -> Result<Turn<Asked, JobEnd>, NoMemory> {
        match self {
            Staged::Stage(staged) => resume_stage(staged, typing, budget, answer),
            Staged::Asking(asking) => resume_asking(asking, typing, budget, answer),
            Staged::Check(check) => resume_check(check, typing, budget, answer),
            Staged::Body(body) => resume_body(body, typing, budget, answer),
            Staged::Result(result) => resume_result(result, typing, budget, answer),
            Staged::Layout(layout) => resume_layout(layout, typing, budget, answer),
        }
    }
}

/// What begins these layers, over a tree whose uses of locals have these slots.
#[derive(Drop)]
pub struct CheckStage<'a> {
    inner: TerraStage<'a>,
}

impl<'a> CheckStage<'a> {
    /// What begins layers over a tree, with the slots that `tl_rename::resolve` gives for it.
    pub fn new(tree: &'a Tree<'a>, slots: &'a Slots) -> CheckStage<'a>
        requires { ArePaths (items_of tree.now) slots.now }
        ensures { result.inner.tree.now ≡ tree.now }
    {
        CheckStage {
            inner: TerraStage::new(tree, slots),
        }
    }

    /// The layer of a job, which is to begin.
    pub fn start(&self, alloc: Global, job: Job) -> Staged<'a>
        ensures means { (first : JobGiven) (later : List JobGiven) →
            rest result first later ≡ job_meaning (items_of self.now.inner.tree.now) job first later }
        ensures fits { (s : State TypingState) → Fits result (at CheckAnswer.Go s) }
    {
        match job {
            Job::Stage(task) => Staged::Stage(self.inner.start(alloc, task)),
            Job::Call(call) => Staged::Asking(Asking::new(Asker::Call(call))),
            Job::Export(place) => Staged::Asking(Asking::new(Asker::Export(place))),
            Job::Check(f) => Staged::Check(Check::start(alloc, f)),
            Job::Body(f) => Staged::Body(Body::start(alloc, f)),
            Job::Result(f) => Staged::Result(ResultOf::Begins(f)),
            Job::Layout(of, at) => Staged::Layout(Layout::start(alloc, of, at)),
        }
    }
}

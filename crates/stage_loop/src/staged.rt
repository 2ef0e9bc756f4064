// The layers of a staging as one stage.

ghost use Rattle.std.specs.Prelude.{◌≡◌, ◌≤◌, List, [], ◌∷◌, false, IfOk, OnOk};
ghost use Rattle.tl_base.specs.Layer.{given, state, seen, OnAsk, UnlessAsk};
ghost use Rattle.stage_form.specs.Within.{given_part, within};
ghost use Rattle.tl_tree.specs.Arena.{items_of};
ghost use Rattle.lua_eval.specs.Slots.{ArePaths};
ghost use Rattle.spec_sound.specs.Sound.{ArePlaced};
ghost use Rattle.check_expr.specs.Frames.{is_go};
ghost use Rattle.stage_check.specs.Layers.{rest as job_rest, Fits as JobFits};
ghost use Rattle.stage_model.specs.Stage.{checking_fitting};
ghost use Rattle.stage_loop.specs.Layers.{StagingGiven, Keeps};

use crate::calling::Calling;
use crate::world::Staging;
use check_model::CheckAnswer;
use stage_check::jobs::answer_of;
use stage_check::{Asked, CheckStage, JobEnd, Staged as JobLayer};
use stage_form::Stages;
use std::alloc::Global;
use tl_base::{Budget, Layer, NoMemory, Turn};
use tl_rename::Slots;
use tl_tree::Tree;

/// Goes on with the layer of a job, to where it stops next.
fn resume_job(
    layer: &mut JobLayer<'_>,
    staging: &mut Staging,
    budget: &mut Budget,
    answer: CheckAnswer,
) -> Result<Turn<Asked, JobEnd>, NoMemory>
    requires { JobFits layer.old (given_part checking_fitting (given answer staging.old budget.old)) }
    ensures turn { IfOk result (λ turn. within checking_fitting (job_rest layer.old) (given answer staging.old budget.old) []
        ≡ seen turn (state staging.new budget.new)) }
    ensures reads_no_more { IfOk result (λ turn. UnlessAsk turn ((later : List StagingGiven) →
        within checking_fitting (job_rest layer.old) (given answer staging.old budget.old) later
        ≡ seen turn (state staging.new budget.new))) }
    ensures goes_on { IfOk result (λ turn. OnAsk turn (λ _. (next : StagingGiven) (later : List StagingGiven) →
        within checking_fitting (job_rest layer.old) (given answer staging.old budget.old) (next ∷ later)
        ≡ within checking_fitting (job_rest layer.new) next later)) }
    ensures fits_next { IfOk result (λ turn. OnAsk turn (λ _. (next : StagingGiven) →
        is_go next.answer ≡ false → JobFits layer.new (given_part checking_fitting next))) }
    ensures kept { OnOk result (Keeps staging.old staging.new) }
    ensures paid { OnOk result (budget.new ≤ budget.old) }
{
    let turn = layer.resume(&mut staging.typing, budget, answer)?;
    Ok(turn)
}

/// A layer of the stage, which is to begin, or is suspended.
#[derive(Drop)]
pub enum Layered<'a> {
    /// What does a job.
    Job(JobLayer<'a>),
    /// What calls a Terra function.
    Calling(Calling),
}

impl Layer for Layered<'_> {
    ghost use Rattle.stage_loop.specs.Layers.{rest, Fits, Follows};

    type World = Staging;

    type Question = Asked;

    type Answer = CheckAnswer;

    type End = JobEnd;

    ghost rest = { rest };

    ghost fits = { Fits };

    ghost follows = { Follows };

    ghost keeps = { Keeps };

    fn resume(
        &mut self,
        staging: &mut Staging,
        budget: &mut Budget,
        answer: CheckAnswer,
    ) -> Result<Turn<Asked, JobEnd>, NoMemory> {
        match self {
            Layered::Job(layer) => resume_job(layer, staging, budget, answer),
            Layered::Calling(calling) => calling.resume(staging, budget, answer),
        }
    }
}

/// The stage of these layers, over a tree whose uses of locals have these slots, and whose nodes have places of a text.
#[derive(Drop)]
pub struct Stagings<'a> {
    inner: CheckStage<'a>,
    ghost placed: { ArePlaced (items_of inner.inner.tree.now) },
}

impl<'a> Stagings<'a> {
    /// The stage over a tree, with the slots that `tl_rename::resolve` gives for it.
    pub fn new(tree: &'a Tree<'a>, slots: &'a Slots) -> Stagings<'a>
        requires paths { ArePaths (items_of tree.now) slots.now }
        requires places { ArePlaced (items_of tree.now) }
        ensures { result.inner.inner.tree.now ≡ tree.now }
    {
        Stagings {
            inner: CheckStage::new(tree, slots),
        }
    }
}

impl<'a> Stages for Stagings<'a> {
    ghost use Rattle.std.specs.Prelude.{refl};
    ghost use Rattle.stage_library.proofs.Keeping.{keeps_itself, keeps_then};
    ghost use Rattle.stage_check.specs.Layers.{ends_follow};
    ghost use Rattle.stage_model.specs.Stage.{stage};
    ghost use Rattle.stage_sound.specs.Jobs.{Begun, Left};
    ghost use Rattle.stage_sound.proofs.Promises.{stages_hold_sound};

    type World = Staging;

    type Question = Asked;

    type Answer = CheckAnswer;

    type End = JobEnd;

    type Staged = Layered<'a>;

    ghost stage = { λ stages. stage (items_of stages.inner.inner.tree.now) };

    ghost begins = { λ stages question w. Begun question w };

    ghost leaves = { λ stages question w end v. Left question w end v };

    ghost layers_hold = { λ stages. stages_hold_sound (items_of stages.inner.inner.tree.now) stages.placed };

    ghost ends_follow = { λ stages question asked now end kept paid left. (ends_follow end, end, (refl, left)) };

    ghost keeps_self = { λ w. keeps_itself w.typing.stage };

    ghost keeps_on = { λ u v w. keeps_then u.typing.stage v.typing.stage w.typing.stage };

    fn start(&self, alloc: Global, asked: Asked) -> Layered<'a> {
        match asked {
            Asked::Job(job) => Layered::Job(self.inner.start(alloc, job)),
            Asked::Terra(f, arguments, place) => {
                Layered::Calling(Calling::new(f, arguments, place))
            }
        }
    }

    fn go(&self) -> CheckAnswer {
        CheckAnswer::Go
    }

    fn answer(&self, end: JobEnd) -> CheckAnswer {
        answer_of(end)
    }
}

// Layers that ask one another.

ghost use Rattle.std.specs.Prelude.{◌≡◌, ◌≤◌, List};
ghost use Rattle.tl_base.specs.Layer.{State, Given, at};
ghost use Rattle.stage_form.specs.Stage.{Stage};
ghost use Rattle.stage_form.specs.Holding.{LayersHold};

use std::alloc::Global;
use tl_base::Layer;

/// A stage: layers whose every question names a layer of the same stage, whose end is the answer.
///
/// `Staged` is one enum of all its layers, whose worlds, questions, answers and ends are those of the stage. A further
/// layer adds an arm to it, and to `start`. Where an answer takes more than an end, as a look at the world or a write,
/// a small layer of its own stands between the two that ask and answer.
pub trait Stages {
    /// What the layers read and change beside the budget.
    type World;

    /// What is asked, which names a layer.
    type Question: Drop;

    /// What begins a layer, and what answers a question.
    type Answer: Drop;

    /// How a layer ends.
    type End: Drop;

    /// A layer that is to begin, or that is suspended.
    type Staged: Layer<
        World = Self::World,
        Question = Self::Question,
        Answer = Self::Answer,
        End = Self::End,
    >
        + Drop;

    /// The meaning of each question's layer, the answer with which each layer begins, and the answer that each end is.
    ghost stage: { Self → Stage Self.World Self.Question Self.Answer Self.End };

    /// What a question demands of the world in which it is asked, and what its layer leaves there with an end, seen from that world.
    ghost begins: { Self → Self.Question → Self.World → Type 0 };

    ghost leaves: { Self → Self.Question → Self.World → Self.End → Self.World → Type 0 };

    /// Each layer that begins as its question demands asks so, and leaves what it should, if its questions' layers do.
    ghost layers_hold: { (stages : Self) → LayersHold (stage stages) (begins stages) (leaves stages) };

    /// The layer that a question names, which is to begin.
    fn start(&self, alloc: Global, question: Self::Question) -> Self::Staged
        ensures means { (first : Given Self.World Self.Answer) (later : List (Given Self.World Self.Answer)) →
            Self.Staged.rest result first later ≡ (stage self.now).meaning question first later }
        ensures fits { (s : State Self.World) → begins self.now question s.world → Self.Staged.fits result (at (stage self.now).go s) };

    /// The answer with which each layer begins.
    fn go(&self) -> Self::Answer
        ensures { result ≡ (stage self.now).go };

    /// The answer that an end is for the layer that asked.
    fn answer(&self, end: Self::End) -> Self::Answer
        ensures { result ≡ (stage self.now).answer_of end };

    /// Each end may follow each question, in a world that kept what the turns since keep, with a budget that hasn't
    /// risen.
    ghost ends_follow: { (stages : Self) (question : Self.Question) (asked now : State Self.World) (end : Self.End) →
        Self.Staged.keeps asked.world now.world → now.left ≤ asked.left → leaves stages question asked.world end now.world →
        Self.Staged.follows question asked (at ((stage stages).answer_of end) now) };

    /// What did nothing kept the world.
    ghost keeps_self: { (w : Self.World) → Self.Staged.keeps w w };

    /// What was kept by one turn and by the next was kept by both.
    ghost keeps_on: { (u v w : Self.World) → Self.Staged.keeps u v → Self.Staged.keeps v w → Self.Staged.keeps u w };
}

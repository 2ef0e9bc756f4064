// A machine that suspends itself with a question, and goes on with the answer.

ghost use Rattle.std.specs.Prelude.{◌≡◌, List, [], ◌∷◌, IfOk, OnOk, ◌≤◌};
ghost use Rattle.tl_base.specs.Layer.{State, state, Given, given, Meaning, seen, OnAsk, UnlessAsk};

use crate::budget::Budget;
use crate::memory::NoMemory;
use crate::turn::Turn;

/// A machine that suspends itself.
///
/// It begins with the answer that begins (`Go`), and stops at its end, at a question, or before a payment above what is
/// left. At a question it waits for one answer, and goes on with it. Its laws are the clauses of [`Layer::resume`].
pub trait Layer {
    /// What a turn reads and changes beside the budget.
    type World;

    /// What is asked.
    type Question;

    /// What begins, and what answers a question.
    type Answer;

    /// How it ends.
    type End;

    /// What remains to be done: what shows outside, given the next answer and the answers after it, each with the state
    /// in which it is given.
    ghost rest: { Self → Meaning Self.World Self.Question Self.Answer Self.End };

    /// Holds of the answers with which it can go on.
    ghost fits: { Self → Given Self.World Self.Answer → Type 0 };

    /// Holds of the answers that may follow a question that was asked in that state.
    ghost follows: { Self.Question → State Self.World → Given Self.World Self.Answer → Type 0 };

    /// What each turn keeps of the world.
    ghost keeps: { Self.World → Self.World → Type 0 };

    /// Goes on with an answer, to where it stops next.
    ///
    /// The answer fits: the first one begins, and each later one follows the question that was asked last. No clause
    /// says that an answer fits after an end, `Spent` or `NoMemory`: the layer is of no more use then.
    ///
    /// - `turn`: where it stops, with the state there, is what remained, given this answer alone.
    /// - `reads_no_more`: an end, or a payment above what is left, is what remained, given this answer and any others
    ///   behind it: no one reads those.
    /// - `goes_on`: at a question, what remained, given this answer and any others behind it, is what remains, given
    ///   the others.
    /// - `fits_next`: an answer that follows the question fits.
    /// - `kept`, `paid`: the world keeps what each turn keeps, and the budget doesn't rise.
    fn resume(
        &mut self,
        world: &mut Self::World,
        budget: &mut Budget,
        answer: Self::Answer,
    ) -> Result<Turn<Self::Question, Self::End>, NoMemory>
        requires { fits self.old (given answer world.old budget.old) }
        ensures turn { IfOk result (λ turn.
            rest self.old (given answer world.old budget.old) [] ≡ seen turn (state world.new budget.new)) }
        ensures reads_no_more { IfOk result (λ turn. UnlessAsk turn ((later : List (Given Self.World Self.Answer)) →
            rest self.old (given answer world.old budget.old) later ≡ seen turn (state world.new budget.new))) }
        ensures goes_on { IfOk result (λ turn. OnAsk turn (λ _.
            (next : Given Self.World Self.Answer) (later : List (Given Self.World Self.Answer)) →
            rest self.old (given answer world.old budget.old) (next ∷ later) ≡ rest self.new next later)) }
        ensures fits_next { IfOk result (λ turn. OnAsk turn (λ question.
            (next : Given Self.World Self.Answer) →
            follows question (state world.new budget.new) next → fits self.new next)) }
        ensures kept { OnOk result (keeps world.old world.new) }
        ensures paid { OnOk result (budget.new ≤ budget.old) };
}

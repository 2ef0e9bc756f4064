// The typing of a body, as a layer.

ghost use Rattle.std.specs.Prelude.{◌≡◌, List, false};
ghost use Rattle.check_model.specs.Bodies.{body, BodyGiven};
ghost use Rattle.check_expr.specs.Keeping.{KeepsTyping};

use crate::machine::Steps;
use check_model::{BodyEnd, BodyQuestion, CheckAnswer, Typing};
use std::alloc::Global;
use tl_base::{Budget, FnId, Layer, NoMemory, Suspended, Turn};

/// The typing of a function's body, which suspends itself to ask for layouts and for the result types of other functions.
#[derive(Drop)]
pub struct Body {
    machine: Suspended<Steps>,
}

impl Body {
    ghost use Rattle.check_expr.specs.Rest.{body_rest, BodyFits};

    /// What is to type the body of a function that is defined, and is to begin with `Go`.
    ///
    /// - `means`: what remains of it is what `check_model` says that typing the body means.
    /// - `fits`: `Go` is what it begins with.
    pub fn start(alloc: Global, f: FnId) -> Body
        ensures means { (first : BodyGiven) (later : List BodyGiven) → body_rest result first later ≡ body f first later }
        ensures fits { (first : BodyGiven) → first.answer ≡ CheckAnswer.Go → BodyFits result first }
    {
        Body {
            machine: Suspended::start(alloc, Steps {}, f),
        }
    }
}

impl Layer for Body {
    ghost use Rattle.check_expr.specs.Frames.{is_go};
    ghost use Rattle.check_expr.specs.Rest.{body_rest, BodyFits};

    type World = Typing;

    type Question = BodyQuestion;

    type Answer = CheckAnswer;

    type End = BodyEnd;

    ghost rest = { body_rest };

    ghost fits = { BodyFits };

    ghost follows = { λ question s next. is_go next.answer ≡ false };

    ghost keeps = { KeepsTyping };

    fn resume(
        &mut self,
        world: &mut Typing,
        budget: &mut Budget,
        answer: CheckAnswer,
    ) -> Result<Turn<BodyQuestion, BodyEnd>, NoMemory> {
        self.machine.resume(world, budget, answer)
    }
}

// The result type of a function, as a layer.

ghost use Rattle.std.specs.Prelude.{ℕ, ◌≡◌, ◌≤◌, List, [], ◌∷◌, slice_get, unwrap_or, false, IfOk, OnOk};
ghost use Rattle.tl_base.specs.Layer.{state, Given, given, seen, OnAsk, UnlessAsk};
ghost use Rattle.terra_types.specs.Opening.{unit};
ghost use Rattle.terra_term.specs.Held.{state_of, refusal_in};
ghost use Rattle.check_expr.specs.Frames.{is_go};
ghost use Rattle.check_expr.specs.Keeping.{KeepsTyping};
ghost use Rattle.check_expr.specs.Rest.{body_rest, BodyFits};
ghost use Rattle.check_model.specs.Calls.{found_in};
ghost use Rattle.check_model.specs.Typing.{TypingState};
ghost use Rattle.stage_check.specs.Results.{result_seen, result_rest, ResultFits};

use crate::jobs::JobEnd;
use check_expr::Body;
use check_model::{BodyEnd, BodyQuestion, CheckAnswer, Typing};
use terra_term::{FunctionState, Refusal, Typed};
use tl_base::{Budget, FnId, Layer, NoMemory, TermId, Turn, TypeId};

/// The type of what returns nothing.
const UNIT: TypeId = TypeId(9);

/// What finds the result type of a function.
#[derive(Drop)]
pub enum ResultOf {
    /// It is to begin.
    Begins(FnId),
    /// The body is being typed.
    Types(Body),
}

impl ResultOf {
    /// Goes on with an answer, to where it stops next.
    pub fn resume(
        &mut self,
        typing: &mut Typing,
        budget: &mut Budget,
        answer: CheckAnswer,
    ) -> Result<Turn<BodyQuestion, JobEnd>, NoMemory>
        requires { ResultFits self.old (given answer typing.old budget.old) }
        ensures turn { IfOk result (λ turn.
            result_rest self.old (given answer typing.old budget.old) [] ≡ seen turn (state typing.new budget.new)) }
        ensures reads_no_more { IfOk result (λ turn. UnlessAsk turn ((later : List (Given TypingState CheckAnswer)) →
            result_rest self.old (given answer typing.old budget.old) later ≡ seen turn (state typing.new budget.new))) }
        ensures goes_on { IfOk result (λ turn. OnAsk turn (λ _.
            (next : Given TypingState CheckAnswer) (later : List (Given TypingState CheckAnswer)) →
            result_rest self.old (given answer typing.old budget.old) (next ∷ later) ≡ result_rest self.new next later)) }
        ensures fits_next { IfOk result (λ turn. OnAsk turn (λ _. (next : Given TypingState CheckAnswer) →
            is_go next.answer ≡ false → ResultFits self.new next)) }
        ensures kept { OnOk result (KeepsTyping typing.old typing.new) }
        ensures paid { OnOk result (budget.new ≤ budget.old) }
    {
        match self {
            ResultOf::Types(body) => types(body, typing, budget, answer),
            ResultOf::Begins(f) => {
                let f = *f;
                match refusal_of(typing, f) {
                    Some(refusal) => Ok(Turn::End(JobEnd::Refused(refusal))),
                    None => {
                        let mut body = Body::start(typing.world.heap.allocator(), f);
                        let turn = types(&mut body, typing, budget, answer)?;
                        *self = ResultOf::Types(body);
                        Ok(turn)
                    }
                }
            }
        }
    }
}

/// The refusal of a function, if it was refused.
fn refusal_of(typing: &Typing, f: FnId) -> Option<Refusal>
    ensures { result ≡ refusal_in (state_of typing.now.stage.store f) }
{
    match typing.world.store.state(f) {
        FunctionState::Refused(_, refusal) => Some(refusal),
        _ => None,
    }
}

/// Goes on with the typing of a body.
fn types(
    body: &mut Body,
    typing: &mut Typing,
    budget: &mut Budget,
    answer: CheckAnswer,
) -> Result<Turn<BodyQuestion, JobEnd>, NoMemory>
    requires { BodyFits body.old (given answer typing.old budget.old) }
    ensures turn { IfOk result (λ turn.
        result_seen (body_rest body.old (given answer typing.old budget.old) []) ≡ seen turn (state typing.new budget.new)) }
    ensures reads_no_more { IfOk result (λ turn. UnlessAsk turn ((later : List (Given TypingState CheckAnswer)) →
        result_seen (body_rest body.old (given answer typing.old budget.old) later) ≡ seen turn (state typing.new budget.new))) }
    ensures goes_on { IfOk result (λ turn. OnAsk turn (λ _.
        (next : Given TypingState CheckAnswer) (later : List (Given TypingState CheckAnswer)) →
        result_seen (body_rest body.old (given answer typing.old budget.old) (next ∷ later))
        ≡ result_seen (body_rest body.new next later))) }
    ensures fits_next { IfOk result (λ turn. OnAsk turn (λ _. (next : Given TypingState CheckAnswer) →
        is_go next.answer ≡ false → BodyFits body.new next)) }
    ensures kept { OnOk result (KeepsTyping typing.old typing.new) }
    ensures paid { OnOk result (budget.new ≤ budget.old) }
{
    let turn = body.resume(typing, budget, answer)?;
    Ok(turn_of(typing, turn))
}

/// Where the typing of a body stops, with the result type at its end.
fn turn_of(typing: &Typing, turn: Turn<BodyQuestion, BodyEnd>) -> Turn<BodyQuestion, JobEnd>
    ensures { (left : ℕ) → seen result (state typing.now left) ≡ result_seen (seen turn (state typing.now left)) }
{
    match turn {
        Turn::Spent => Turn::Spent,
        Turn::Ask(question) => Turn::Ask(question),
        Turn::End(BodyEnd::Refused(refusal)) => Turn::End(JobEnd::Refused(refusal)),
        Turn::End(BodyEnd::Typed(made)) => Turn::End(JobEnd::Result(found_type(typing, made))),
    }
}

/// The result type of a function's typed term.
fn found_type(typing: &Typing, made: TermId) -> TypeId
    ensures { result ≡ unwrap_or (found_in (slice_get typing.now.stage.store.typed made.0)) unit }
{
    match typing.world.store.typed(made) {
        Some(Typed::Function(_, of, _)) => *of,
        _ => UNIT,
    }
}

// What asks Lua, and what its answers give.

ghost use Rattle.std.specs.Prelude.{◌≡◌, ℕ, [], ◌∷◌, IfOk, OnOk};
ghost use Rattle.lua_table.specs.Cells.{first_value};
ghost use Rattle.tl_base.specs.Plan.{AskFor};
ghost use Rattle.check_model.specs.Plans as plans;
ghost use Rattle.check_model.specs.Plans.{give};
ghost use Rattle.check_model.specs.Typing.{TypingState};
ghost use Rattle.check_expr.specs.Asking.{value_in, Splices};
ghost use Rattle.check_expr.specs.Frames as waiting;
ghost use Rattle.check_expr.specs.Frames.{asked_then, given_then, raised_then, on_answer, quotes_from};
ghost use Rattle.check_expr.specs.Keeping.{KeepsTyping};
ghost use Rattle.check_expr.specs.Steps.{Goes, Does};

use crate::frame::{AskedThen, BodyFrame, MadeFrame, QuotesFrame};
use crate::methods::{given_method, settle_method};
use crate::nodes::{new_quote, refuse, term_of};
use crate::step::BodyStep;
use check_model::{BodyJob, BodyQuestion, CheckAnswer, Made, Operand, PartEnd, Site, Typing};
use exotype::{Became, Known};
use lua_value::{Value, Values};
use terra_term::RefusalKind;
use tl_base::{Budget, List, NoMemory, Place, Step, TermId};

/// Two values.
pub fn two_values(typing: &Typing, first: Value, second: Value) -> Result<Values, NoMemory>
    ensures { IfOk result (λ list. list ≡ first ∷ second ∷ []) }
{
    let mut values = List::new(typing.world.store.allocator());
    values.push(first)?;
    values.push(second)?;
    Ok(values)
}

/// Asks for the call of a value with these arguments, for a node at this place.
pub fn ask(
    frames: &mut Vec<BodyFrame>,
    handler: Value,
    arguments: Values,
    at: Place,
    then: AskedThen,
) -> Result<BodyStep, NoMemory>
    ensures means { IfOk result (λ step. (w : TypingState) (left : ℕ) →
        Goes frames.old.items (AskFor (BodyQuestion.CallLua handler arguments at) (λ a. asked_then then a))
        w left frames.new.items step w left) }
{
    frames.push(BodyFrame::Asked(then))?;
    Ok(Step::Stop(BodyQuestion::CallLua(handler, arguments, at)))
}

/// Types the operands that are left, and calls the value with typed quotes of them. An operand that is typed already goes on by the
/// same frame as one that isn't.
pub fn quotes_left(frames: &mut Vec<BodyFrame>, frame: QuotesFrame) -> Result<BodyStep, NoMemory>
    ensures means { IfOk result (λ step. (w : TypingState) (left : ℕ) →
        Goes frames.old.items (quotes_from frame frame.values) w left frames.new.items step w left) }
{
    let mut frame = frame;
    let site = frame.site;
    match frame.operands.take() {
        None => {
            let then = AskedThen::InPlace(frame.at, site);
            ask(frames, frame.handler, frame.values, frame.at, then)
        }
        Some(operand) => {
            frames.push(BodyFrame::Made(MadeFrame::Quoted(frame)))?;
            match operand {
                Operand::Untyped(term) => Ok(Step::Enter(BodyJob::Expression(term, site))),
                Operand::Typed(made) => Ok(Step::Return(PartEnd::Made(made))),
            }
        }
    }
}

/// Goes on with the operands behind one that is typed.
pub fn quoted(
    frames: &mut Vec<BodyFrame>,
    typing: &mut Typing,
    frame: QuotesFrame,
    made: Made,
) -> Result<BodyStep, NoMemory>
    ensures means { IfOk result (λ step. (left : ℕ) →
        Goes frames.old.items (waiting.with_made (MadeFrame.Quoted frame) made) typing.old left frames.new.items step typing.new left) }
    ensures kept { OnOk result (KeepsTyping typing.old typing.new) }
{
    let mut frame = frame;
    let value = new_quote(typing, made)?;
    frame.values.push(value)?;
    quotes_left(frames, frame)
}

/// What comes of a value that is to be a term.
#[derive(Drop)]
pub enum Spliced {
    /// It is this term.
    Term(TermId),
    /// It is none, or its nodes can't be paid: this is what the machine does next.
    Ended(BodyStep),
}

/// Makes a value a term, and pays for the nodes of a quote's term.
pub fn splice(
    typing: &mut Typing,
    budget: &mut Budget,
    value: Value,
    at: Place,
    site: Site,
) -> Result<Spliced, NoMemory>
    ensures means { IfOk result (λ spliced. Splices value at site typing.old budget.old spliced typing.new budget.new) }
    ensures kept { OnOk result (KeepsTyping typing.old typing.new) }
{
    let nodes = typing.world.spliced_nodes(value.copy());
    if !budget.pay(nodes) {
        return Ok(Spliced::Ended(Step::Spent));
    }
    let became = term_of(typing, value, at)?;
    match became {
        Became::Term(term) => Ok(Spliced::Term(term)),
        Became::Refused(_) => Ok(Spliced::Ended(refuse(RefusalKind::NotConstant, at, site))),
    }
}

/// Types a value in the place of the node that asked for it.
fn in_place(
    typing: &mut Typing,
    budget: &mut Budget,
    value: Value,
    at: Place,
    site: Site,
) -> Result<BodyStep, NoMemory>
    ensures means { IfOk result (λ step.
        Does (plans.in_place value at site give) typing.old budget.old step typing.new budget.new) }
    ensures kept { OnOk result (KeepsTyping typing.old typing.new) }
{
    let spliced = splice(typing, budget, value, at, site)?;
    match spliced {
        Spliced::Term(term) => Ok(Step::Enter(BodyJob::Expression(term, site))),
        Spliced::Ended(step) => Ok(step),
    }
}

/// What Lua code gave: the first value. Where it raised there is none.
fn given(answer: CheckAnswer) -> Option<Value>
    ensures { result ≡ value_in answer }
{
    match answer {
        CheckAnswer::Values(values) => Some(first_of(values.as_slice())),
        _ => None,
    }
}

/// The first of some values, and nil of none.
fn first_of(values: &[Value]) -> Value
    ensures { result ≡ first_value values.now }
{
    match values.first() {
        Some(value) => *value,
        None => Value::Nil,
    }
}

/// Goes on with what asked Lua, given how the asking ended.
pub fn after_asked(
    frames: &mut Vec<BodyFrame>,
    typing: &mut Typing,
    budget: &mut Budget,
    then: AskedThen,
    end: PartEnd,
) -> Result<BodyStep, NoMemory>
    ensures means { IfOk result (λ step.
        Goes frames.old.items (on_answer end (λ a. asked_then then a))
        typing.old budget.old frames.new.items step typing.new budget.new) }
    ensures kept { OnOk result (KeepsTyping typing.old typing.new) }
{
    match end {
        PartEnd::Answered(answer) => after_answer(frames, typing, budget, then, answer),
        end => Ok(Step::Return(end)),
    }
}

/// Goes on with what asked Lua, given the answer.
fn after_answer(
    frames: &mut Vec<BodyFrame>,
    typing: &mut Typing,
    budget: &mut Budget,
    then: AskedThen,
    answer: CheckAnswer,
) -> Result<BodyStep, NoMemory>
    ensures means { IfOk result (λ step.
        Goes frames.old.items (asked_then then answer) typing.old budget.old frames.new.items step typing.new budget.new) }
    ensures kept { OnOk result (KeepsTyping typing.old typing.new) }
{
    match given(answer) {
        Some(value) => with_value(frames, typing, budget, then, value),
        None => after_raise(typing, then),
    }
}

/// Goes on with the value that Lua code gave.
fn with_value(
    frames: &mut Vec<BodyFrame>,
    typing: &mut Typing,
    budget: &mut Budget,
    then: AskedThen,
    value: Value,
) -> Result<BodyStep, NoMemory>
    ensures means { IfOk result (λ step.
        Goes frames.old.items (given_then then value) typing.old budget.old frames.new.items step typing.new budget.new) }
    ensures kept { OnOk result (KeepsTyping typing.old typing.new) }
{
    match then {
        AskedThen::InPlace(at, site) => in_place(typing, budget, value, at, site),
        AskedThen::Cast(to, at, site) => {
            frames.push(BodyFrame::Made(MadeFrame::OfType(to, at, site)))?;
            in_place(typing, budget, value, at, site)
        }
        AskedThen::Method(of, name, object, arguments, node) => {
            given_method(
                frames, typing, budget, of, name, value, object, arguments, node,
            )
        }
    }
}

/// Refuses the node for which Lua code was called that raised.
fn after_raise(typing: &mut Typing, then: AskedThen) -> Result<BodyStep, NoMemory>
    ensures means { IfOk result (λ step. (left : ℕ) →
        Does (raised_then then) typing.old left step typing.new left) }
    ensures kept { OnOk result (KeepsTyping typing.old typing.new) }
{
    match then {
        AskedThen::InPlace(at, site) => Ok(refuse(RefusalKind::CallbackRaised, at, site)),
        AskedThen::Cast(_, at, site) => Ok(refuse(RefusalKind::CallbackRaised, at, site)),
        AskedThen::Method(of, name, _, _, node) => {
            let known = Known::Refused(RefusalKind::CallbackRaised);
            settle_method(typing, of, name, known);
            Ok(refuse(RefusalKind::CallbackRaised, node.at, node.site))
        }
    }
}

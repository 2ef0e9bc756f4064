// Layouts that nodes need, and values.

ghost use Rattle.std.specs.Prelude.{◌≡◌, ℕ, List, IfOk, OnOk};
ghost use Rattle.check_model.specs.Plans as plans;
ghost use Rattle.check_model.specs.Plans.{give};
ghost use Rattle.check_expr.specs.Frames.{laid_then, on_answer};
ghost use Rattle.check_expr.specs.Keeping.{KeepsTyping};
ghost use Rattle.check_expr.specs.Steps.{Goes};

use crate::constructing::construct;
use crate::entries::with_entry;
use crate::frame::{BodyFrame, LaidThen};
use crate::functions::with_parameter;
use crate::nodes::{gives, refuse};
use crate::operators::difference;
use crate::reading::{bytes, is_aggregate, is_too_wide};
use crate::step::{BodyStep, Node};
use crate::variables::with_name;
use check_model::{BodyQuestion, CheckAnswer, Made, PartEnd, Site, Typing};
use terra_term::{Constant, RefusalKind, TypedExpression};
use tl_base::{Budget, NoMemory, Place, Step, TypeId};

/// The type of sizes, which is there from the begin.
const UINT64: TypeId = TypeId(7);

/// Asks for the layout of a type, which a node at this place needs.
pub fn lay_out(
    frames: &mut Vec<BodyFrame>,
    typing: &Typing,
    of: TypeId,
    at: Place,
    site: Site,
    then: LaidThen,
) -> Result<BodyStep, NoMemory>
    ensures means { IfOk result (λ step. (left : ℕ) →
        Goes frames.old.items (plans.laid_out of at site (laid_then then site)) typing.now left frames.new.items step typing.now left) }
{
    frames.push(BodyFrame::Laid(at, site, then))?;
    if is_aggregate(&typing.world, of) {
        Ok(Step::Stop(BodyQuestion::LayoutOf(of, at)))
    } else {
        Ok(Step::Return(PartEnd::Answered(CheckAnswer::Done)))
    }
}

/// Uses an expression as a value.
pub fn as_value(
    frames: &mut Vec<BodyFrame>,
    typing: &Typing,
    made: Made,
    site: Site,
) -> Result<BodyStep, NoMemory>
    ensures means { IfOk result (λ step. (left : ℕ) →
        Goes frames.old.items (plans.as_value made site (give made)) typing.now left frames.new.items step typing.now left) }
{
    if is_aggregate(&typing.world, made.of) {
        frames.push(BodyFrame::Laid(made.at, site, LaidThen::Value(made)))?;
        Ok(Step::Stop(BodyQuestion::LayoutOf(made.of, made.at)))
    } else {
        Ok(Step::Return(PartEnd::Made(made)))
    }
}

/// Goes on with what needed a layout, given how the asking for it ended.
pub fn after_layout(
    frames: &mut Vec<BodyFrame>,
    typing: &mut Typing,
    budget: &mut Budget,
    at: Place,
    site: Site,
    then: LaidThen,
    end: PartEnd,
) -> Result<BodyStep, NoMemory>
    ensures means { IfOk result (λ step.
        Goes frames.old.items (on_answer end (λ a. plans.on_layout a at site (laid_then then site)))
        typing.old budget.old frames.new.items step typing.new budget.new) }
    ensures kept { OnOk result (KeepsTyping typing.old typing.new) }
{
    match end {
        PartEnd::Answered(answer) => after_answer(frames, typing, budget, at, site, then, answer),
        end => Ok(Step::Return(end)),
    }
}

/// Goes on with what needed a layout, given the answer.
fn after_answer(
    frames: &mut Vec<BodyFrame>,
    typing: &mut Typing,
    budget: &mut Budget,
    at: Place,
    site: Site,
    then: LaidThen,
    answer: CheckAnswer,
) -> Result<BodyStep, NoMemory>
    ensures means { IfOk result (λ step.
        Goes frames.old.items (plans.on_layout answer at site (laid_then then site))
        typing.old budget.old frames.new.items step typing.new budget.new) }
    ensures kept { OnOk result (KeepsTyping typing.old typing.new) }
{
    match answer {
        CheckAnswer::NoLayout(kind) => Ok(refuse(kind, at, site)),
        _ => with_layout(frames, typing, budget, site, then),
    }
}

/// What is done once a layout is settled.
fn with_layout(
    frames: &mut Vec<BodyFrame>,
    typing: &mut Typing,
    budget: &mut Budget,
    site: Site,
    then: LaidThen,
) -> Result<BodyStep, NoMemory>
    ensures means { IfOk result (λ step.
        Goes frames.old.items (laid_then then site) typing.old budget.old frames.new.items step typing.new budget.new) }
    ensures kept { OnOk result (KeepsTyping typing.old typing.new) }
{
    match then {
        LaidThen::Value(made) => Ok(value_if_narrow(typing, made, site)),
        LaidThen::Makes(of, form, node) => gives(typing, node.source, node.at, of, form),
        LaidThen::Difference(of, left, right, node) => difference(typing, of, left, right, node),
        LaidThen::Size(of, node) => size(typing, of, node),
        LaidThen::Entry(of, object, field, node) => {
            with_entry(frames, typing, of, object, field, node)
        }
        LaidThen::New(of, values, node) => construct(frames, typing, of, values, node),
        LaidThen::Name(name, frame) => with_name(frames, typing, budget, name, frame),
        LaidThen::Parameter(name, frame) => with_parameter(frames, typing, budget, name, frame),
    }
}

/// A value, unless it is too wide.
fn value_if_narrow(typing: &Typing, made: Made, site: Site) -> BodyStep
    ensures means { (left : ℕ) → (fs : List BodyFrame) →
        Goes fs (laid_then (LaidThen.Value made) site) typing.now left fs result typing.now left }
{
    if is_too_wide(&typing.world, made.of) {
        refuse(RefusalKind::TooWide, made.at, site)
    } else {
        Step::Return(PartEnd::Made(made))
    }
}

/// The size of a type.
fn size(typing: &mut Typing, of: TypeId, node: Node) -> Result<BodyStep, NoMemory>
    ensures means { IfOk result (λ step. (left : ℕ) → (fs : List BodyFrame) →
        Goes fs (laid_then (LaidThen.Size of node) node.site) typing.old left fs step typing.new left) }
    ensures kept { OnOk result (KeepsTyping typing.old typing.new) }
{
    let size = bytes(&typing.world, of);
    let form = TypedExpression::Constant(Constant::Number(size));
    gives(typing, node.source, node.at, UINT64, form)
}

// Blocks, and what is done with their statements.

ghost use Rattle.std.specs.Prelude.{◌≡◌, ℕ, [], ◌∷◌, ◌++◌, Some, IfOk, OnOk};
ghost use Rattle.check_model.specs.Expressions as expressions;
ghost use Rattle.check_model.specs.Plans as plans;
ghost use Rattle.check_model.specs.Statements as models;
ghost use Rattle.check_expr.specs.Frames as waiting;
ghost use Rattle.check_expr.specs.Keeping.{KeepsTyping};
ghost use Rattle.check_expr.specs.Steps.{Goes, Does};

use crate::frame::{BlockFrame, BlockThen, BodyFrame, DoingFrame, MadeFrame};
use crate::functions::function;
use crate::nodes::states;
use crate::step::BodyStep;
use check_model::rest::Rest;
use check_model::{BodyJob, Made, PartEnd, Site, Typing};
use terra_term::{TermList, TypedStatement};
use tl_base::{List, NoMemory, Place, Step, TermId, TypeId};

/// Types the statements of a block, and does that with them.
pub fn block(
    frames: &mut Vec<BodyFrame>,
    typing: &mut Typing,
    statements: Rest<TermId>,
    site: Site,
    then: BlockThen,
) -> Result<BodyStep, NoMemory>
    ensures means { IfOk result (λ step. (left : ℕ) →
        Goes frames.old.items
        (expressions.statements statements site [] (λ ids last. waiting.block_then then ids last))
        typing.old left frames.new.items step typing.new left) }
    ensures kept { OnOk result (KeepsTyping typing.old typing.new) }
{
    let ids = List::new(typing.world.store.allocator());
    let frame = BlockFrame {
        rest: statements,
        ids,
        then,
        site,
    };
    statements_left(frames, typing, frame)
}

/// Types the statements of a block that are left.
fn statements_left(
    frames: &mut Vec<BodyFrame>,
    typing: &mut Typing,
    frame: BlockFrame,
) -> Result<BodyStep, NoMemory>
    ensures means { IfOk result (λ step. (left : ℕ) →
        Goes frames.old.items (waiting.block_from frame frame.site.result frame.ids)
        typing.old left frames.new.items step typing.new left) }
    ensures kept { OnOk result (KeepsTyping typing.old typing.new) }
{
    let mut frame = frame;
    match frame.rest.take() {
        Some(statement) => {
            let site = frame.site;
            frames.push(BodyFrame::Block(frame))?;
            Ok(Step::Enter(BodyJob::Statement(statement, site)))
        }
        None => {
            let BlockFrame {
                ids,
                then,
                site,
                ..
            } = frame;
            with_statements(frames, typing, then, ids, site.result)
        }
    }
}

/// Goes on with a block, given how a statement of it ended.
pub fn after_statement(
    frames: &mut Vec<BodyFrame>,
    typing: &mut Typing,
    frame: BlockFrame,
    end: PartEnd,
) -> Result<BodyStep, NoMemory>
    ensures means { IfOk result (λ step. (left : ℕ) →
        Goes frames.old.items
        (plans.on_stated end (λ id found. waiting.block_from frame found (frame.ids ++ id ∷ [])))
        typing.old left frames.new.items step typing.new left) }
    ensures kept { OnOk result (KeepsTyping typing.old typing.new) }
{
    match end {
        PartEnd::Stated(id, found) => {
            let mut frame = frame;
            frame.ids.push(id)?;
            frame.site.result = found;
            statements_left(frames, typing, frame)
        }
        end => Ok(Step::Return(end)),
    }
}

/// What is done with the statements of a block.
fn with_statements(
    frames: &mut Vec<BodyFrame>,
    typing: &mut Typing,
    then: BlockThen,
    ids: List<TermId>,
    found: Option<TypeId>,
) -> Result<BodyStep, NoMemory>
    ensures means { IfOk result (λ step. (left : ℕ) →
        Goes frames.old.items (waiting.block_then then ids found)
        typing.old left frames.new.items step typing.new left) }
    ensures kept { OnOk result (KeepsTyping typing.old typing.new) }
{
    match then {
        BlockThen::Do(count, at) => {
            typing.leave(count);
            let list = TermList::from_list(ids)?;
            states(typing, at, TypedStatement::Do(list), found)
        }
        BlockThen::Then(count, test, more, at, site) => {
            typing.leave(count);
            with_else(frames, typing, test, ids, more, at, site, found)
        }
        BlockThen::Else(count, test, before, at) => {
            typing.leave(count);
            let first = TermList::from_list(before)?;
            let others = TermList::from_list(ids)?;
            let form = TypedStatement::If(test.id, first, Some(others));
            states(typing, at, form, found)
        }
        BlockThen::While(count, test, at) => {
            typing.leave(count);
            let list = TermList::from_list(ids)?;
            let form = TypedStatement::While(test.id, list);
            states(typing, at, form, found)
        }
        BlockThen::Repeat(count, test, at, site) => {
            let frame = DoingFrame::Repeat(count, ids, found, at, site);
            frames.push(BodyFrame::Doing(frame))?;
            Ok(Step::Enter(BodyJob::Expression(test, site)))
        }
        BlockThen::For(count, name, bounds, at) => {
            typing.leave(count);
            let limits = TermList::from_list(bounds)?;
            let list = TermList::from_list(ids)?;
            let form = TypedStatement::For(name, limits, list);
            states(typing, at, form, found)
        }
        BlockThen::Let(count, value, node) => {
            frames.push(BodyFrame::Made(MadeFrame::Let(count, ids, node)))?;
            Ok(Step::Enter(BodyJob::Expression(value, node.site)))
        }
        BlockThen::Function(names, at, site) => function(typing, names, found, ids, at, site),
    }
}

/// Goes on with an `if` behind its first block.
fn with_else(
    frames: &mut Vec<BodyFrame>,
    typing: &mut Typing,
    test: Made,
    ids: List<TermId>,
    more: Option<Rest<TermId>>,
    at: Place,
    site: Site,
    found: Option<TypeId>,
) -> Result<BodyStep, NoMemory>
    ensures means { IfOk result (λ step. (left : ℕ) →
        Goes frames.old.items (models.else_plan more test ids found at site)
        typing.old left frames.new.items step typing.new left) }
    ensures kept { OnOk result (KeepsTyping typing.old typing.new) }
{
    match more {
        None => {
            let first = TermList::from_list(ids)?;
            let none: Option<TermList> = None;
            let form = TypedStatement::If(test.id, first, none);
            states(typing, at, form, found)
        }
        Some(statements) => {
            let site = Site {
                result: found,
                ..site
            };
            else_block(frames, typing, test, ids, statements, at, site)
        }
    }
}

/// Types the block behind `else`.
fn else_block(
    frames: &mut Vec<BodyFrame>,
    typing: &mut Typing,
    test: Made,
    ids: List<TermId>,
    statements: Rest<TermId>,
    at: Place,
    site: Site,
) -> Result<BodyStep, NoMemory>
    ensures means { IfOk result (λ step. (left : ℕ) →
        Goes frames.old.items (models.else_plan (Some statements) test ids site.result at site)
        typing.old left frames.new.items step typing.new left) }
    ensures kept { OnOk result (KeepsTyping typing.old typing.new) }
{
    let count = typing.count();
    let mut rest = statements;
    let others = List::new(typing.world.store.allocator());
    match rest.take() {
        Some(statement) => {
            let frame = BlockFrame {
                rest,
                ids: others,
                then: BlockThen::Else(count, test, ids, at),
                site,
            };
            frames.push(BodyFrame::Block(frame))?;
            Ok(Step::Enter(BodyJob::Statement(statement, site)))
        }
        None => {
            typing.leave(count);
            let first = TermList::from_list(ids)?;
            let list = TermList::from_list(others)?;
            let form = TypedStatement::If(test.id, first, Some(list));
            states(typing, at, form, site.result)
        }
    }
}

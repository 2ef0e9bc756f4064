// The functions that a typed function mentions, in the order of evaluation.

ghost use Rattle.std.specs.Prelude.{◌≡◌, ℕ, ◌++◌, slice_get, OnOk};
ghost use Rattle.terra_term.specs.Planted.{typed_trees};
ghost use Rattle.check_model.specs.Checks.{with_mentions, mentions_at, mentions_of};
ghost use Rattle.exotype.specs.World.{StageState};
ghost use Rattle.check_flow.specs.Parts.{parts_mentions, part_mentions, expression_mentions, all_mentions, form_mentions, doing_mentions};
ghost use Rattle.check_flow.specs.Parts.{own_mention};

use crate::reaching::reach;
use check_model::ReachedList;
use exotype::World;
use terra_term::{Constant, FunctionState, Operation, Typed, TypedExpression, TypedStatement};
use tl_base::{FnId, NoMemory, Place, TermId};

/// A node that is to be gone through, among the nodes before a number, and whether it stands as a statement.
#[derive(Clone, Copy)]
pub struct Part {
    pub term: TermId,
    pub below: u64,
    pub is_statement: bool,
}

/// What is to be gone through, the next one last.
type Parts = Vec<Part>;

/// Puts an expression before what is to be gone through.
fn expression(parts: &mut Parts, term: TermId, below: u64) -> Result<(), NoMemory>
    ensures { OnOk result ((w : StageState) →
        parts_mentions w parts.new.items ≡ expression_mentions w below term ++ parts_mentions w parts.old.items) }
{
    parts.push(Part {
        term,
        below,
        is_statement: false,
    })?;
    Ok(())
}

/// Puts nodes before what is to be gone through.
fn all(parts: &mut Parts, terms: &[TermId], below: u64, is_statement: bool) -> Result<(), NoMemory>
    ensures { OnOk result ((w : StageState) →
        parts_mentions w parts.new.items ≡ all_mentions is_statement w below terms.now ++ parts_mentions w parts.old.items) }
{
    let count = terms.len();
    'terms: for place in 0..count {
        let term = terms[count - 1 - place];
        parts.push(Part {
            term,
            below,
            is_statement,
        })?;
    }
    Ok(())
}

/// Puts what a function mentions behind the queue.
pub fn reach_mentions(world: &World, queue: &mut ReachedList, f: FnId) -> Result<(), NoMemory>
    ensures { OnOk result (queue.new ≡ with_mentions queue.old f (mentions_at world.now f)) }
{
    let mut parts = Vec::new(world.store.allocator());
    statements_of(world, &mut parts, f)?;
    // Each part is a node of the typed term, and no memory has so many.
    'parts: for _ in 0..u64::MAX {
        let Some(part) = parts.pop() else {
            return Ok(());
        };
        go_through(world, queue, &mut parts, part, f)?;
    }
    Err(NoMemory)
}

/// Puts the statements of a function's typed term before what is to be gone through.
fn statements_of(world: &World, parts: &mut Parts, f: FnId) -> Result<(), NoMemory>
    ensures { OnOk result (
        parts_mentions world.now parts.new.items ≡ mentions_at world.now f ++ parts_mentions world.now parts.old.items) }
{
    match world.store.function(f) {
        Some(function) => match function.state {
            FunctionState::Typed(_, made) => {
                body_of(world, parts, made)?;
                Ok(())
            }
            _ => Ok(()),
        },
        None => Ok(()),
    }
}

/// Puts the statements of a typed term before what is to be gone through.
fn body_of(world: &World, parts: &mut Parts, made: TermId) -> Result<(), NoMemory>
    ensures { OnOk result (
        parts_mentions world.now parts.new.items
        ≡ mentions_of (slice_get (typed_trees world.now.store.typed) made.0) ++ parts_mentions world.now parts.old.items) }
{
    match world.store.typed(made) {
        Some(Typed::Function(_, _, body)) => {
            all(parts, body.as_slice(), made.0, true)?;
            Ok(())
        }
        Some(Typed::Expression(_, _, _)) => Ok(()),
        Some(Typed::Statement(_, _)) => Ok(()),
        None => Ok(()),
    }
}

/// Goes through a node: what it mentions comes behind the queue, and its parts before what is to be gone through.
fn go_through(
    world: &World,
    queue: &mut ReachedList,
    parts: &mut Parts,
    part: Part,
    by: FnId,
) -> Result<(), NoMemory>
    ensures { OnOk result (
        with_mentions queue.new by (parts_mentions world.now parts.new.items)
        ≡ with_mentions queue.old by (part_mentions world.now part ++ parts_mentions world.now parts.old.items)) }
{
    if part.below <= part.term.0 {
        return Ok(());
    }
    let below = part.term.0;
    match world.store.typed(part.term) {
        Some(Typed::Expression(at, _, form)) => {
            if part.is_statement {
                return Ok(());
            }
            mention(queue, form, *at, by)?;
            parts_of_expression(parts, form, below)?;
            Ok(())
        }
        Some(Typed::Statement(_, doing)) => {
            if !part.is_statement {
                return Ok(());
            }
            parts_of_statement(parts, doing, below)?;
            Ok(())
        }
        Some(Typed::Function(_, _, _)) => Ok(()),
        None => Ok(()),
    }
}

/// Puts the function that an expression itself mentions behind the queue.
fn mention(
    queue: &mut ReachedList,
    form: &TypedExpression,
    at: Place,
    by: FnId,
) -> Result<(), NoMemory>
    ensures { OnOk result (queue.new ≡ with_mentions queue.old by (own_mention at form.now)) }
{
    match form {
        TypedExpression::Operate(Operation::Call(f), _) => {
            reach(queue, *f, at, by)?;
            Ok(())
        }
        TypedExpression::Constant(Constant::FnValue(f)) => {
            reach(queue, *f, at, by)?;
            Ok(())
        }
        _ => Ok(()),
    }
}

/// Puts the parts of an expression before what is to be gone through: the first of them is the next.
fn parts_of_expression(
    parts: &mut Parts,
    form: &TypedExpression,
    below: u64,
) -> Result<(), NoMemory>
    ensures { OnOk result ((w : StageState) (at : Place) →
        own_mention at form.now ++ parts_mentions w parts.new.items
        ≡ form_mentions w at below form.now ++ parts_mentions w parts.old.items) }
{
    match form {
        TypedExpression::Constant(_) => Ok(()),
        TypedExpression::Variable(_) => Ok(()),
        TypedExpression::Global(_) => Ok(()),
        TypedExpression::Operate(_, operands) => {
            all(parts, operands.as_slice(), below, false)?;
            Ok(())
        }
        TypedExpression::Both(first, second) => {
            two(parts, *first, *second, below)?;
            Ok(())
        }
        TypedExpression::Either(first, second) => {
            two(parts, *first, *second, below)?;
            Ok(())
        }
        TypedExpression::Dereference(pointer) => {
            expression(parts, *pointer, below)?;
            Ok(())
        }
        TypedExpression::Select(_, object) => {
            expression(parts, *object, below)?;
            Ok(())
        }
        TypedExpression::Follow(_, pointer) => {
            expression(parts, *pointer, below)?;
            Ok(())
        }
        TypedExpression::Element(object, key) => {
            two(parts, *object, *key, below)?;
            Ok(())
        }
        TypedExpression::Index(object, key) => {
            two(parts, *object, *key, below)?;
            Ok(())
        }
        TypedExpression::Address(object) => {
            expression(parts, *object, below)?;
            Ok(())
        }
        TypedExpression::Decay(object) => {
            expression(parts, *object, below)?;
            Ok(())
        }
        TypedExpression::Let(block, value) => {
            expression(parts, *value, below)?;
            all(parts, block.as_slice(), below, true)?;
            Ok(())
        }
    }
}

/// Puts two expressions before what is to be gone through.
fn two(parts: &mut Parts, first: TermId, second: TermId, below: u64) -> Result<(), NoMemory>
    ensures { OnOk result ((w : StageState) →
        parts_mentions w parts.new.items
        ≡ expression_mentions w below first ++ expression_mentions w below second ++ parts_mentions w parts.old.items) }
{
    expression(parts, second, below)?;
    expression(parts, first, below)?;
    Ok(())
}

/// Puts the parts of a statement before what is to be gone through: the first of them is the next.
fn parts_of_statement(parts: &mut Parts, doing: &TypedStatement, below: u64) -> Result<(), NoMemory>
    ensures { OnOk result ((w : StageState) →
        parts_mentions w parts.new.items ≡ doing_mentions w below doing.now ++ parts_mentions w parts.old.items) }
{
    match doing {
        TypedStatement::Var(_, values) => {
            all(parts, values.as_slice(), below, false)?;
            Ok(())
        }
        TypedStatement::Assign(targets, values) => {
            all(parts, targets.as_slice(), below, false)?;
            all(parts, values.as_slice(), below, false)?;
            Ok(())
        }
        TypedStatement::If(test, block, others) => match others {
            None => {
                all(parts, block.as_slice(), below, true)?;
                expression(parts, *test, below)?;
                Ok(())
            }
            Some(others) => {
                all(parts, others.as_slice(), below, true)?;
                all(parts, block.as_slice(), below, true)?;
                expression(parts, *test, below)?;
                Ok(())
            }
        },
        TypedStatement::While(test, block) => {
            all(parts, block.as_slice(), below, true)?;
            expression(parts, *test, below)?;
            Ok(())
        }
        TypedStatement::Repeat(block, test) => {
            expression(parts, *test, below)?;
            all(parts, block.as_slice(), below, true)?;
            Ok(())
        }
        TypedStatement::For(_, bounds, block) => {
            all(parts, block.as_slice(), below, true)?;
            all(parts, bounds.as_slice(), below, false)?;
            Ok(())
        }
        TypedStatement::Do(block) => {
            all(parts, block.as_slice(), below, true)?;
            Ok(())
        }
        TypedStatement::Break => Ok(()),
        TypedStatement::Return(value) => match value {
            Some(value) => {
                expression(parts, *value, below)?;
                Ok(())
            }
            None => Ok(()),
        },
        TypedStatement::Perform(call) => {
            expression(parts, *call, below)?;
            Ok(())
        }
    }
}

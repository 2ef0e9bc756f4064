// The test of a `for`.

ghost use Rattle.std.specs.Prelude.{◌≡◌, map};
ghost use Rattle.tac_lower.specs.Lowering.{counted_on, counting, either_way, is_one, runs, step_in, with_step};
ghost use Rattle.tac_lower.specs.Items.{does};
ghost use Rattle.tac_lower.specs.Pieces.{rest};
ghost use Rattle.tac_lower.specs.Data.{counting_of, result_of};
ghost use Rattle.tac_lower.specs.Works.{Gave};

use crate::emit::compute;
use crate::number::whole_word;
use crate::value::{Value, word_at};
use crate::work::Work;
use tac_form::{Instruction, Number, Operand};
use terra_words::BinaryOperator;
use tl_base::NoMemory;

/// A `for`: its numbers, and what holds its value, its limit and its step.
#[derive(Clone, Copy)]
pub(crate) struct Counting {
    pub(crate) number: Number,
    pub(crate) value: u64,
    pub(crate) limit: Operand,
    pub(crate) step: Operand,
}

/// The `for` of these bounds, whose value is in a temporary.
pub(crate) fn counting_with(number: Number, bounds: &[Value], value: u64) -> Counting
    ensures { counting_of result ≡ counting number (map result_of bounds.now) value }
{
    Counting {
        number,
        value,
        limit: word_at(bounds, 1),
        step: step_in(bounds),
    }
}

/// The step: what stands behind the start and the limit; 1 where nothing does.
fn step_in(bounds: &[Value]) -> Operand
    ensures { result ≡ step_in (rest (rest (map result_of bounds.now))) }
{
    match bounds.get(2) {
        Some(v) => v.word(),
        None => Operand::Constant(1),
    }
}

fn is_one(step: Operand) -> bool
    ensures { result ≡ is_one step }
{
    match step {
        Operand::Constant(step) => step == 1,
        Operand::Temp(_) => false,
    }
}

/// Whether a `for` goes on to its value: below its limit for a step above zero, above it for one below zero.
pub(crate) fn runs(k: Counting, work: &mut Work) -> Result<Value, NoMemory>
    ensures { Gave result_of result work.old work.new (runs (counting_of k) work.old.used) }
{
    let value = Operand::Temp(k.value);
    let below = compute(BinaryOperator::Less, k.number, value, k.limit, work)?;
    if is_one(k.step) {
        return Ok(below);
    }
    with_step(k, below.word(), work)
}

fn with_step(k: Counting, below: Operand, work: &mut Work) -> Result<Value, NoMemory>
    ensures { Gave result_of result work.old work.new (with_step (counting_of k) below work.old.used) }
{
    let zero = Operand::Constant(0);
    let moves = compute(BinaryOperator::NotEqual, whole_word(), k.step, zero, work)?;
    if k.number.signed {
        return either_way(k, below, work);
    }
    compute(BinaryOperator::And, whole_word(), below, moves.word(), work)
}

/// A step that may be below zero.
fn either_way(k: Counting, below: Operand, work: &mut Work) -> Result<Value, NoMemory>
    ensures { Gave result_of result work.old work.new (either_way (counting_of k) below work.old.used) }
{
    let zero = Operand::Constant(0);
    let value = Operand::Temp(k.value);
    let above = compute(BinaryOperator::Less, k.number, k.limit, value, work)?;
    let falls = compute(BinaryOperator::Less, k.number, k.step, zero, work)?;
    let rises = compute(BinaryOperator::Greater, k.number, k.step, zero, work)?;
    let word = whole_word();
    let falling = compute(BinaryOperator::And, word, falls.word(), above.word(), work)?;
    let rising = compute(BinaryOperator::And, word, rises.word(), below, work)?;
    compute(
        BinaryOperator::Or,
        word,
        falling.word(),
        rising.word(),
        work,
    )
}

/// The value of a `for` goes on.
pub(crate) fn counted_on(k: Counting) -> Instruction
    ensures { does result ≡ counted_on (counting_of k) }
{
    let value = Operand::Temp(k.value);
    Instruction::Compute(k.value, BinaryOperator::Add, k.number, value, k.step)
}

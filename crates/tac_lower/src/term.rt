// The code of terms.

ghost use Rattle.std.specs.Prelude.{◌≡◌, suc, map};
ghost use Rattle.terra_meaning.specs.Meaning.{in_block, in_expression, in_list, in_statement};
ghost use Rattle.terra_eval.specs.Trees.{block_before, expression_before, list_before, statement_before};
ghost use Rattle.tac_lower.specs.Data.{result_of, target_of, want_of};
ghost use Rattle.tac_lower.specs.Pieces.{taken};
ghost use Rattle.tac_lower.specs.Lowering.{opposite};
ghost use Rattle.tac_lower.specs.Works.{Declared, Gave, Passed, itself};
ghost use Rattle.tac_lower.specs.Views.{all_of, both_tree, choice_tree, either_tree, for_of, if_tree, one_at, one_of, piece_at, piece_of};
ghost use Rattle.tac_lower.specs.Views.{pieces_of, repeat_tree, target_at, targets_of, while_tree};

use crate::around::Around;
use crate::assigning::{assigned_all, held_target};
use crate::counting::{counted_on, counting_with, runs};
use crate::emit::{compute, located};
use crate::item::Ending;
use crate::number::{number_of, whole_word};
use crate::operation::operation;
use crate::place::{element, entry, reached, variable};
use crate::scope::{declare, declare_all};
use crate::value::{NO_WORD, Target, Value, Wanted, word_at};
use crate::work::Work;
use tac_form::{Instruction, Operand};
use terra_eval::nodes::{expression, statement, types_of};
use terra_eval::operate::constant;
use terra_eval::types::bytes_at;
use terra_term::{TypedExpression, TypedName, TypedStatement};
use terra_words::BinaryOperator;
use tl_base::{NoMemory, Place, TermId};

/// The code of an expression: a node among those before a number.
#[cycle(lower)]
fn lower_expression(
    around: &Around<'_>,
    want: Wanted,
    below: u64,
    node: TermId,
    work: &mut Work,
) -> Result<Value, NoMemory>
    ensures { Passed result_of result work.old work.new (piece_of around.now (want_of want) below node work.old)
        (in_expression (expression_before around.now.store.now below node)) }
{
    let types = around.types();
    match expression(around.store, below, node) {
        None => Ok(Value::Word(Operand::Constant(0))),
        Some(e) => match e.form {
            TypedExpression::Constant(k) => {
                let word = constant(around.entries, *k);
                Ok(Value::Word(Operand::Constant(word)))
            }
            TypedExpression::Variable(x) => {
                variable(types, want, e.at, e.of, work.holder(*x), work)
            }
            TypedExpression::Global(address) => {
                let v = Value::Word(Operand::Constant(*address));
                reached(types, want, e.at, e.of, v, work)
            }
            TypedExpression::Operate(done, operands) => {
                let nodes = operands.as_slice();
                let values = lower_list(around, node.0, nodes, work)?;
                let operands = types_of(around.store, node.0, nodes)?;
                operation(around, e.at, e.of, done, &operands, &values, work)
            }
            TypedExpression::Both(a, b) => lower_both(around, node.0, *a, *b, work),
            TypedExpression::Either(a, b) => lower_either(around, node.0, *a, *b, work),
            TypedExpression::Dereference(p) => {
                let v = lower_expression(around, Wanted::Value, node.0, *p, work)?;
                let v = Value::Word(v.word());
                reached(types, want, e.at, e.of, v, work)
            }
            TypedExpression::Select(offset, whole) => {
                let v = lower_expression(around, Wanted::Address, node.0, *whole, work)?;
                let v = entry(*offset, v, work)?;
                reached(types, want, e.at, e.of, v, work)
            }
            TypedExpression::Follow(offset, p) => {
                let v = lower_expression(around, Wanted::Value, node.0, *p, work)?;
                let v = entry(*offset, Value::Word(v.word()), work)?;
                reached(types, want, e.at, e.of, v, work)
            }
            TypedExpression::Element(a, i) => {
                let v = lower_expression(around, Wanted::Address, node.0, *a, work)?;
                let array = located(v, work)?;
                let n = lower_expression(around, Wanted::Value, node.0, *i, work)?;
                let v = element(bytes_at(types, e.of), array.word(), n.word(), work)?;
                reached(types, want, e.at, e.of, v, work)
            }
            TypedExpression::Index(p, i) => {
                let v = lower_expression(around, Wanted::Value, node.0, *p, work)?;
                let n = lower_expression(around, Wanted::Value, node.0, *i, work)?;
                let v = element(bytes_at(types, e.of), v.word(), n.word(), work)?;
                reached(types, want, e.at, e.of, v, work)
            }
            TypedExpression::Address(place) => {
                let v = lower_expression(around, Wanted::Address, node.0, *place, work)?;
                located(v, work)
            }
            TypedExpression::Decay(a) => {
                let v = lower_expression(around, Wanted::Address, node.0, *a, work)?;
                located(v, work)
            }
            TypedExpression::Let(block, value) => {
                let depth = work.depth();
                lower_block(around, node.0, block.as_slice(), work)?;
                let v = lower_expression(around, Wanted::Value, node.0, *value, work)?;
                work.leave(depth)?;
                Ok(v)
            }
        },
    }
}

/// `and` of bools: the first goes to a temporary, and the second to the same one where the first is true.
#[cycle(lower)]
fn lower_both(
    around: &Around<'_>,
    below: u64,
    a: TermId,
    b: TermId,
    work: &mut Work,
) -> Result<Value, NoMemory>
    ensures { Passed result_of result work.old work.new (piece_at around.now (both_tree around.now below a b) work.old)
        (in_expression (both_tree around.now below a b)) }
{
    let t = work.temp()?;
    let first = lower_expression(around, Wanted::Value, below, a, work)?;
    work.put(Instruction::Copy(t, first.word()))?;
    let mark = work.mark();
    work.end(Ending::Tests(Operand::Temp(t), 0))?;
    let second = lower_expression(around, Wanted::Value, below, b, work)?;
    work.put(Instruction::Copy(t, second.word()))?;
    work.end(Ending::Skips(0))?;
    work.close(mark);
    Ok(Value::Word(Operand::Temp(t)))
}

/// `or` of bools: the first goes to a temporary, and the second to the same one where the first is false.
#[cycle(lower)]
fn lower_either(
    around: &Around<'_>,
    below: u64,
    a: TermId,
    b: TermId,
    work: &mut Work,
) -> Result<Value, NoMemory>
    ensures { Passed result_of result work.old work.new (piece_at around.now (either_tree around.now below a b) work.old)
        (in_expression (either_tree around.now below a b)) }
{
    let t = work.temp()?;
    let first = lower_expression(around, Wanted::Value, below, a, work)?;
    work.put(Instruction::Copy(t, first.word()))?;
    let test = opposite(Operand::Temp(t), work)?;
    let mark = work.mark();
    work.end(Ending::Tests(test, 0))?;
    let second = lower_expression(around, Wanted::Value, below, b, work)?;
    work.put(Instruction::Copy(t, second.word()))?;
    work.end(Ending::Skips(0))?;
    work.close(mark);
    Ok(Value::Word(Operand::Temp(t)))
}

/// The opposite of a bool.
fn opposite(a: Operand, work: &mut Work) -> Result<Operand, NoMemory>
    ensures { Gave itself result work.old work.new (opposite a work.old.used) }
{
    let v = compute(
        BinaryOperator::Xor,
        whole_word(),
        a,
        Operand::Constant(1),
        work,
    )?;
    Ok(v.word())
}

/// The code of expressions, from left to right.
#[cycle(lower)]
fn lower_list(
    around: &Around<'_>,
    below: u64,
    nodes: &[TermId],
    work: &mut Work,
) -> Result<Vec<Value>, NoMemory>
    ensures { Passed (λ vs. map result_of vs.items) result work.old work.new (pieces_of around.now below nodes.now work.old)
        (in_list (list_before around.now.store.now below nodes.now)) }
{
    let mut values = Vec::new(work.allocator());
    for node in nodes {
        let v = lower_expression(around, Wanted::Value, below, *node, work)?;
        values.push(v)?;
    }
    Ok(values)
}

/// The code of a target of an assignment.
#[cycle(lower)]
fn lower_target(
    around: &Around<'_>,
    below: u64,
    node: TermId,
    work: &mut Work,
) -> Result<Target, NoMemory>
    ensures { Passed target_of result work.old work.new (target_at around.now below node work.old)
        (in_expression (expression_before around.now.store.now below node)) }
{
    if let Some(t) = held_target(around.store, below, node, work) {
        return Ok(Target::Temp(t));
    }
    let place = lower_expression(around, Wanted::Address, below, node, work)?;
    Ok(Target::Place(place))
}

/// The code of the targets of an assignment, from left to right.
#[cycle(lower)]
fn lower_targets(
    around: &Around<'_>,
    below: u64,
    nodes: &[TermId],
    work: &mut Work,
) -> Result<Vec<Target>, NoMemory>
    ensures { Passed (λ ps. map target_of ps.items) result work.old work.new (targets_of around.now below nodes.now work.old)
        (in_list (list_before around.now.store.now below nodes.now)) }
{
    let mut targets = Vec::new(work.allocator());
    for node in nodes {
        let target = lower_target(around, below, *node, work)?;
        targets.push(target)?;
    }
    Ok(targets)
}

/// The code of a statement: a node among those before a number.
#[cycle(lower)]
fn lower_statement(
    around: &Around<'_>,
    below: u64,
    node: TermId,
    work: &mut Work,
) -> Result<(), NoMemory>
    ensures { Declared result work.old work.new (one_of around.now below node work.old)
        (in_statement (statement_before around.now.store.now below node)) }
{
    match statement(around.store, below, node) {
        None => work.end(Ending::Leaves),
        Some(s) => match s.doing {
            TypedStatement::Var(names, values) => {
                let values = lower_list(around, node.0, values.as_slice(), work)?;
                declare_all(around, s.at, names.as_slice(), &values, work)
            }
            TypedStatement::Assign(targets, values) => {
                let values = lower_list(around, node.0, values.as_slice(), work)?;
                let nodes = targets.as_slice();
                let places = lower_targets(around, node.0, nodes, work)?;
                assigned_all(around.store, node.0, nodes, &places, &values, work)
            }
            TypedStatement::If(test, then_block, None) => {
                lower_if(around, node.0, *test, then_block.as_slice(), work)
            }
            TypedStatement::If(test, then_block, Some(else_block)) => lower_choice(
                around,
                node.0,
                *test,
                then_block.as_slice(),
                else_block.as_slice(),
                work,
            ),
            TypedStatement::While(test, body) => {
                lower_while(around, node.0, *test, body.as_slice(), work)
            }
            TypedStatement::Repeat(body, test) => {
                lower_repeat(around, node.0, body.as_slice(), *test, work)
            }
            TypedStatement::For(name, bounds, body) => {
                let values = lower_list(around, node.0, bounds.as_slice(), work)?;
                lower_for(around, node.0, s.at, *name, &values, body.as_slice(), work)
            }
            TypedStatement::Do(body) => lower_scope(around, node.0, body.as_slice(), work),
            TypedStatement::Break => work.end(Ending::Leaves),
            TypedStatement::Return(None) => work.end(Ending::Gives(NO_WORD.part())),
            TypedStatement::Return(Some(value)) => {
                let v = lower_expression(around, Wanted::Value, node.0, *value, work)?;
                work.end(Ending::Gives(v.part()))
            }
            TypedStatement::Perform(e) => {
                lower_expression(around, Wanted::Value, node.0, *e, work)?;
                Ok(())
            }
        },
    }
}

/// The code of statements, one after the other.
#[cycle(lower)]
fn lower_block(
    around: &Around<'_>,
    below: u64,
    nodes: &[TermId],
    work: &mut Work,
) -> Result<(), NoMemory>
    ensures { Declared result work.old work.new (all_of around.now below nodes.now work.old)
        (in_block (block_before around.now.store.now below nodes.now)) }
{
    for node in nodes {
        lower_statement(around, below, *node, work)?;
    }
    Ok(())
}

/// The code of statements in a scope of their own.
#[cycle(lower)]
fn lower_scope(
    around: &Around<'_>,
    below: u64,
    nodes: &[TermId],
    work: &mut Work,
) -> Result<(), NoMemory>
    ensures { Declared result work.old work.new (taken (λ inner. work.old.scope) (all_of around.now below nodes.now work.old))
        (in_block (block_before around.now.store.now below nodes.now)) }
{
    let depth = work.depth();
    lower_block(around, below, nodes, work)?;
    work.leave(depth)?;
    Ok(())
}

/// A test, and a block where it holds.
#[cycle(lower)]
fn lower_if(
    around: &Around<'_>,
    below: u64,
    test: TermId,
    block: &[TermId],
    work: &mut Work,
) -> Result<(), NoMemory>
    ensures { Declared result work.old work.new (one_at around.now (if_tree around.now below test block.now) work.old)
        (in_statement (if_tree around.now below test block.now)) }
{
    let v = lower_expression(around, Wanted::Value, below, test, work)?;
    let mark = work.mark();
    work.end(Ending::Tests(v.word(), 0))?;
    lower_scope(around, below, block, work)?;
    work.end(Ending::Skips(0))?;
    work.close(mark);
    Ok(())
}

/// A test, a block where it holds, and one where it doesn't.
#[cycle(lower)]
fn lower_choice(
    around: &Around<'_>,
    below: u64,
    test: TermId,
    block: &[TermId],
    other: &[TermId],
    work: &mut Work,
) -> Result<(), NoMemory>
    ensures { Declared result work.old work.new (one_at around.now (choice_tree around.now below test block.now other.now) work.old)
        (in_statement (choice_tree around.now below test block.now other.now)) }
{
    let v = lower_expression(around, Wanted::Value, below, test, work)?;
    let tested = work.mark();
    work.end(Ending::Tests(v.word(), 0))?;
    lower_scope(around, below, block, work)?;
    let done = work.mark();
    work.end(Ending::Skips(0))?;
    work.close(tested);
    lower_scope(around, below, other, work)?;
    work.end(Ending::Skips(0))?;
    work.close(done);
    Ok(())
}

/// A loop with its test before its body.
#[cycle(lower)]
fn lower_while(
    around: &Around<'_>,
    below: u64,
    test: TermId,
    body: &[TermId],
    work: &mut Work,
) -> Result<(), NoMemory>
    ensures { Declared result work.old work.new (one_at around.now (while_tree around.now below test body.now) work.old)
        (in_statement (while_tree around.now below test body.now)) }
{
    work.end(Ending::Skips(0))?;
    let start = work.mark();
    let v = lower_expression(around, Wanted::Value, below, test, work)?;
    let tested = work.mark();
    work.end(Ending::Tests(v.word(), 0))?;
    lower_scope(around, below, body, work)?;
    work.go_back(start)?;
    work.close(tested);
    work.close_loop(start);
    Ok(())
}

/// A loop with its test behind its body, which sees the body's variables.
#[cycle(lower)]
fn lower_repeat(
    around: &Around<'_>,
    below: u64,
    body: &[TermId],
    test: TermId,
    work: &mut Work,
) -> Result<(), NoMemory>
    ensures { Declared result work.old work.new (one_at around.now (repeat_tree around.now below body.now test) work.old)
        (in_statement (repeat_tree around.now below body.now test)) }
{
    work.end(Ending::Skips(0))?;
    let start = work.mark();
    let depth = work.depth();
    lower_block(around, below, body, work)?;
    let v = lower_expression(around, Wanted::Value, below, test, work)?;
    work.leave(depth)?;
    work.go_back_unless(v.word(), start)?;
    work.close_loop(start);
    Ok(())
}

/// A `for` whose bounds were evaluated.
#[cycle(lower)]
fn lower_for(
    around: &Around<'_>,
    below: u64,
    at: Place,
    name: TypedName,
    bounds: &[Value],
    body: &[TermId],
    work: &mut Work,
) -> Result<(), NoMemory>
    ensures { Declared result work.old work.new (for_of around.now below at name (map result_of bounds.now) body.now work.old)
        (suc (in_block (block_before around.now.store.now below body.now))) }
{
    let value = work.temp()?;
    work.put(Instruction::Copy(value, word_at(bounds, 0)))?;
    work.end(Ending::Skips(0))?;
    let start = work.mark();
    let k = counting_with(number_of(around.types(), name.of), bounds, value);
    let test = runs(k, work)?;
    let tested = work.mark();
    work.end(Ending::Tests(test.word(), 0))?;
    let depth = work.depth();
    let v = Value::Word(Operand::Temp(value));
    declare(around, at, name, Some(v), work)?;
    lower_block(around, below, body, work)?;
    work.leave(depth)?;
    work.put(counted_on(k))?;
    work.go_back(start)?;
    work.close(tested);
    work.close_loop(start);
    Ok(())
}

/// The code of a function's body, whose parameters are in scope.
pub(crate) fn lower_body(
    around: &Around<'_>,
    below: u64,
    nodes: &[TermId],
    work: &mut Work,
) -> Result<(), NoMemory>
    ensures { Declared result work.old work.new (all_of around.now below nodes.now work.old)
        (in_block (block_before around.now.store.now below nodes.now)) }
{
    lower_block(around, below, nodes, work)
}

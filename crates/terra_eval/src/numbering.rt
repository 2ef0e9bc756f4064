// The numbers of declarations, in the order of evaluation.

ghost use Rattle.std.specs.Prelude.{◌≡◌, ◌+◌, IfOk};
ghost use Rattle.terra_meaning.specs.Meaning as meanings;
ghost use Rattle.terra_eval.specs.Trees.{block_before, expression_before, list_before, statement_before};

use crate::call::Call;
use crate::events::{in_block, in_expression, in_list, in_statement};
use tl_base::{NoMemory, TermId};

/// The number of the declaration behind so many others. No store holds more than 64 bits count.
pub(crate) fn later(from: u64, declared: u64) -> Result<u64, NoMemory>
    ensures { IfOk result (λ next. next ≡ from + declared) }
{
    from.checked_add(declared).ok_or(NoMemory)
}

/// The number of the declaration behind those of an expression.
pub(crate) fn after_expression(
    call: &Call<'_>,
    below: u64,
    node: TermId,
    from: u64,
) -> Result<u64, NoMemory>
    ensures { IfOk result (λ next. next ≡ from + meanings.in_expression (expression_before call.now.store.now below node)) }
{
    later(from, in_expression(call.store, below, node)?)
}

/// The number of the declaration behind those of expressions.
pub(crate) fn after_list(
    call: &Call<'_>,
    below: u64,
    nodes: &[TermId],
    from: u64,
) -> Result<u64, NoMemory>
    ensures { IfOk result (λ next. next ≡ from + meanings.in_list (list_before call.now.store.now below nodes.now)) }
{
    later(from, in_list(call.store, below, nodes)?)
}

/// The number of the declaration behind those of a statement.
pub(crate) fn after_statement(
    call: &Call<'_>,
    below: u64,
    node: TermId,
    from: u64,
) -> Result<u64, NoMemory>
    ensures { IfOk result (λ next. next ≡ from + meanings.in_statement (statement_before call.now.store.now below node)) }
{
    later(from, in_statement(call.store, below, node)?)
}

/// The number of the declaration behind those of statements.
pub(crate) fn after_block(
    call: &Call<'_>,
    below: u64,
    nodes: &[TermId],
    from: u64,
) -> Result<u64, NoMemory>
    ensures { IfOk result (λ next. next ≡ from + meanings.in_block (block_before call.now.store.now below nodes.now)) }
{
    later(from, in_block(call.store, below, nodes)?)
}

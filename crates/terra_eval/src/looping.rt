// What loops do in each of their rounds.

ghost use Rattle.std.specs.Prelude.{◌≡◌, ◌≤◌, ◌+◌, if◌then◌else◌};
ghost use Rattle.terra_words.specs.Runs.{is_true, number, value_at};
ghost use Rattle.terra_words.specs.Words.{wrapped};
ghost use Rattle.terra_meaning.specs.Values.{width_of};
ghost use Rattle.terra_meaning.specs.Meaning as meanings;
ghost use Rattle.terra_eval.specs.Views.{way_of};

use crate::call::Way;
use crate::operate::number_at;
use crate::types::width_of;
use crate::value::Value;
use terra_term::{TermList, TypedName};
use terra_types::Types;
use terra_words::Width;
use tl_base::{Place, TermId};
use word_ops::{is_less, is_negative, wrap};

/// What a loop does in a round: a test before a block, or behind it, or a block with a value of its variable.
#[derive(Clone, Copy)]
pub(crate) enum Round<'a> {
    While(TermId, &'a TermList),
    Repeat(&'a TermList, TermId),
    Count(Counting<'a>, u64),
}

/// A `for`: its place, its variable, its block, and its width, start, limit and step.
#[derive(Clone, Copy)]
pub(crate) struct Counting<'a> {
    pub(crate) at: Place,
    pub(crate) name: TypedName,
    pub(crate) body: &'a TermList,
    pub(crate) width: Width,
    pub(crate) start: u64,
    pub(crate) limit: u64,
    pub(crate) step: u64,
}

/// The `for` with these bounds.
pub(crate) fn counting_of<'a>(
    types: &Types,
    at: Place,
    name: TypedName,
    body: &'a TermList,
    bounds: &[Value],
) -> Counting<'a>
    ensures place { result.at ≡ at }
    ensures variable { result.name ≡ name }
    ensures block { result.body.now ≡ body.now }
    ensures width { result.width ≡ width_of types.now name.of }
    ensures fits { result.width.bits ≤ 64 }
    ensures start { result.start ≡ number (value_at bounds.now 0) }
    ensures limit { result.limit ≡ number (value_at bounds.now 1) }
    ensures step { result.step ≡ meanings.step_of (meanings.behind (meanings.behind bounds.now)) }
{
    Counting {
        at,
        name,
        body,
        width: width_of(types, name.of),
        start: number_at(bounds, 0),
        limit: number_at(bounds, 1),
        step: step_of(bounds),
    }
}

/// The next value of the variable of a `for`.
pub(crate) fn stepped(counting: &Counting<'_>, i: u64) -> u64
    requires { counting.now.width.bits ≤ 64 }
    ensures { result ≡ wrapped counting.now.width (i + counting.now.step) }
{
    wrap(counting.width, u128::from(i) + u128::from(counting.step))
}

/// Where a loop is left that goes on until a value is true.
pub(crate) fn until(v: &Value) -> Way
    ensures { way_of result ≡ (if is_true v.now then meanings.breaks else meanings.goes_on) }
{
    if v.is_true() {
        Way::Breaks
    } else {
        Way::GoesOn
    }
}

/// Whether a `for` goes on to a value: below its limit for a step above zero, above it for one below zero.
pub(crate) fn runs(width: Width, i: u64, limit: u64, step: u64) -> bool
    ensures { result ≡ meanings.runs width i limit step }
{
    if step == 0 {
        return false;
    }
    if width.signed && is_negative(step) {
        is_less(width, limit, i)
    } else {
        is_less(width, i, limit)
    }
}

/// The step of a `for`: what stands behind its start and its limit; 1 where nothing does.
fn step_of(bounds: &[Value]) -> u64
    ensures { result ≡ meanings.step_of (meanings.behind (meanings.behind bounds.now)) }
{
    match bounds.get(2) {
        Some(v) => v.number(),
        None => 1,
    }
}

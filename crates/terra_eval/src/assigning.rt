// Assignments.

ghost use Rattle.std.specs.Prelude.{◌≡◌};
ghost use Rattle.terra_words.specs.Runs.{value_at, word};
ghost use Rattle.terra_meaning.specs.Meaning as meanings;
ghost use Rattle.terra_meaning.specs.Meaning.{assigned_all};
ghost use Rattle.terra_eval.specs.Trees.{expression_before, list_before};
ghost use Rattle.terra_eval.specs.Views.{GaveUnit};

use crate::call::Call;
use crate::memory::store as store_value;
use crate::nodes::expression;
use crate::operate::number_at;
use crate::state::{Held, State};
use crate::stop::Stop;
use crate::value::Value;
use terra_term::TypedExpression;
use tl_base::{Place, TermId, TypeId};

/// A value goes to a place that was reached by its address, or to a variable that has none. What isn't there stands for nil.
fn assign(
    call: &Call<'_>,
    below: u64,
    target: TermId,
    address: u64,
    v: &Value,
    state: &mut State,
) -> Result<(), Stop>
    ensures { GaveUnit result state.new
        (meanings.assigned call.now.store.now.types (expression_before call.now.store.now below target) (word address) v.now state.old) }
{
    match expression(call.store, below, target) {
        None => place_value(call, NOWHERE, RAWSTRING, address, v, state),
        Some(e) => match e.form {
            TypedExpression::Variable(x) => match state.find(*x) {
                Some(Held::Word(_)) => {
                    state.set(*x, v.number());
                    Ok(())
                }
                Some(Held::At(_)) => place_value(call, e.at, e.of, address, v, state),
                None => place_value(call, e.at, e.of, address, v, state),
            },
            TypedExpression::Constant(_) => place_value(call, e.at, e.of, address, v, state),
            TypedExpression::Global(_) => place_value(call, e.at, e.of, address, v, state),
            TypedExpression::Operate(_, _) => place_value(call, e.at, e.of, address, v, state),
            TypedExpression::Both(_, _) => place_value(call, e.at, e.of, address, v, state),
            TypedExpression::Either(_, _) => place_value(call, e.at, e.of, address, v, state),
            TypedExpression::Dereference(_) => place_value(call, e.at, e.of, address, v, state),
            TypedExpression::Select(_, _) => place_value(call, e.at, e.of, address, v, state),
            TypedExpression::Follow(_, _) => place_value(call, e.at, e.of, address, v, state),
            TypedExpression::Element(_, _) => place_value(call, e.at, e.of, address, v, state),
            TypedExpression::Index(_, _) => place_value(call, e.at, e.of, address, v, state),
            TypedExpression::Address(_) => place_value(call, e.at, e.of, address, v, state),
            TypedExpression::Decay(_) => place_value(call, e.at, e.of, address, v, state),
            TypedExpression::Let(_, _) => place_value(call, e.at, e.of, address, v, state),
        },
    }
}

/// A value of a type is stored at an address.
fn place_value(
    call: &Call<'_>,
    at: Place,
    of: TypeId,
    address: u64,
    v: &Value,
    state: &mut State,
) -> Result<(), Stop>
    ensures { GaveUnit result state.new (meanings.stored call.now.store.now.types at of address v.now state.old) }
{
    store_value(
        call.store.allocator(),
        call.store.types(),
        at,
        of,
        address,
        v,
        state,
    )
}

/// The place of what isn't there.
const NOWHERE: Place = Place { line: 0, word: 0 };

/// The type of texts, which nil has that stands for what isn't there.
const RAWSTRING: TypeId = TypeId(10);

/// The value at a position; zero past the end.
fn value_or<'a>(values: &'a [Value], i: usize, zero: &'a Value) -> &'a Value
    requires { zero.now ≡ word 0 }
    ensures { result.now ≡ value_at values.now i }
{
    match values.get(i) {
        Some(v) => v,
        None => zero,
    }
}

/// Values go to places, each to the one of its position.
pub(crate) fn assign_all(
    call: &Call<'_>,
    below: u64,
    targets: &[TermId],
    places: &[Value],
    values: &[Value],
    state: &mut State,
) -> Result<(), Stop>
    ensures { GaveUnit result state.new
        (assigned_all call.now.store.now.types (list_before call.now.store.now below targets.now) places.now values.now state.old) }
{
    let zero = Value::word(0);
    for (i, target) in targets.iter().enumerate() {
        let v = value_or(values, i, &zero);
        assign(call, below, *target, number_at(places, i), v, state)?;
    }
    Ok(())
}

// Declarations.

ghost use Rattle.std.specs.Prelude.{◌≡◌, map, slice_get, MatchOption};
ghost use Rattle.std.specs.Option.{option_copied};
ghost use Rattle.terra_words.specs.Runs.{number};
ghost use Rattle.terra_meaning.specs.Frames as frames;
ghost use Rattle.terra_meaning.specs.Frames.{home_at};
ghost use Rattle.terra_meaning.specs.Meaning as meanings;
ghost use Rattle.terra_meaning.specs.Meaning.{declared_all};
ghost use Rattle.terra_eval.specs.Views.{GaveUnit, call_of, home_of};

use crate::call::Call;
use crate::frame::Home;
use crate::memory::store as store_value;
use crate::numbering::later;
use crate::state::{Held, State};
use crate::stop::Stop;
use crate::value::Value;
use terra_term::TypedName;
use tl_base::{NoMemory, Place};

/// The home of a declaration; past the last, a value alone.
fn home_at(homes: &[Home], number: u64) -> Home
    ensures { home_of result ≡ home_at (map home_of homes.now) number }
{
    match homes.get(number as usize) {
        Some(home) => *home,
        None => Home::ByValue,
    }
}

/// The word of a value; zero for none.
fn word_of(v: Option<&Value>) -> u64
    ensures { MatchOption v.entry (result ≡ 0) (λ v. result ≡ number v.now) }
{
    match v {
        Some(v) => v.number(),
        None => 0,
    }
}

/// The variable of a declaration, with its value or without. An unplaced one without a value is zero, and a placed one holds the
/// bytes that are there.
pub(crate) fn declare(
    call: &Call<'_>,
    at: Place,
    name: TypedName,
    v: Option<&Value>,
    number: u64,
    state: &mut State,
) -> Result<(), Stop>
    ensures { GaveUnit result state.new (meanings.declared (call_of call.now) at name (option_copied v.entry) number state.old) }
{
    match home_at(call.homes, number) {
        Home::ByValue => {
            let word = word_of(v);
            state.declare(name.symbol, Held::Word(word))?;
            Ok(())
        }
        Home::InFrame(offset) => declare_placed(call, at, name, v, offset, state),
    }
}

/// The variable of a declaration at an offset of the frame.
fn declare_placed(
    call: &Call<'_>,
    at: Place,
    name: TypedName,
    v: Option<&Value>,
    offset: u64,
    state: &mut State,
) -> Result<(), Stop>
    ensures { GaveUnit result state.new
        (meanings.declared_at (call_of call.now) at name (option_copied v.entry) (frames.in_frame offset) state.old) }
{
    let address = call.base.checked_add(offset).ok_or(NoMemory)?;
    match v {
        None => {
            state.declare(name.symbol, Held::At(address))?;
            Ok(())
        }
        Some(v) => {
            store_value(
                call.store.allocator(),
                call.store.types(),
                at,
                name.of,
                address,
                v,
                state,
            )?;
            state.declare(name.symbol, Held::At(address))?;
            Ok(())
        }
    }
}

/// The value at a position, if there is one.
fn given(values: &[Value], i: usize) -> Option<&Value>
    ensures { option_copied result ≡ slice_get values.now i }
{
    values.get(i)
}

/// The variables of declarations, from one on.
pub(crate) fn declare_all(
    call: &Call<'_>,
    at: Place,
    names: &[TypedName],
    values: &[Value],
    from: u64,
    state: &mut State,
) -> Result<(), Stop>
    ensures { GaveUnit result state.new (declared_all (call_of call.now) at names.now values.now from state.old) }
{
    let mut number = from;
    for (i, name) in names.iter().enumerate() {
        declare(call, at, *name, given(values, i), number, state)?;
        number = later(number, 1)?;
    }
    Ok(())
}

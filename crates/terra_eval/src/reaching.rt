// Places that are reached by their addresses.

ghost use Rattle.terra_meaning.specs.Running.{found};
ghost use Rattle.terra_meaning.specs.Meaning as meanings;
ghost use Rattle.terra_eval.specs.Views.{GaveValue, want_of};

use crate::call::{Call, Wanted};
use crate::memory::load;
use crate::state::{Held, State};
use crate::stop::{Halt, Stop};
use crate::value::Value;
use tl_base::{Place, SymId, TypeId};

/// A place was reached by its address.
pub(crate) fn reached(
    call: &Call<'_>,
    want: Wanted,
    at: Place,
    of: TypeId,
    address: u64,
    state: &State,
) -> Result<Value, Stop>
    ensures { GaveValue result state.now (meanings.reached call.now.store.now.types (want_of want) at of address state.now) }
{
    match want {
        Wanted::Value => load(
            call.store.allocator(),
            call.store.types(),
            at,
            of,
            address,
            state,
        ),
        Wanted::Address => Ok(Value::word(address)),
    }
}

/// A variable was named.
pub(crate) fn variable(
    call: &Call<'_>,
    want: Wanted,
    at: Place,
    of: TypeId,
    x: SymId,
    state: &State,
) -> Result<Value, Stop>
    ensures { GaveValue result state.now (meanings.variable call.now.store.now.types (want_of want) at of (found x state.now) state.now) }
{
    match state.find(x) {
        None => Err(Stop::Halted(Halt::Stuck)),
        Some(Held::Word(value)) => Ok(Value::word(value)),
        Some(Held::At(address)) => reached(call, want, at, of, address, state),
    }
}

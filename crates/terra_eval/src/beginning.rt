// How functions begin and end.

ghost use Rattle.std.specs.Prelude.{◌≡◌, ◌+◌, ◌<◌, List, nat_lt, suc, length, IfOk};
ghost use Rattle.terra_words.specs.Runs.{Value};
ghost use Rattle.terra_term.specs.Held as stores;
ghost use Rattle.terra_term.specs.Stores.{contents_of};
ghost use Rattle.terra_meaning.specs.Running.{State};
ghost use Rattle.terra_meaning.specs.Meaning as meanings;
ghost use Rattle.terra_meaning.specs.Meaning.{apply, body_run, kept};
ghost use Rattle.terra_eval.specs.Trees.{callable_tree};
ghost use Rattle.terra_eval.specs.Views.{Called, GaveValue, call_of, way_of};
ghost use Rattle.terra_eval.specs.Beginning.{call_in, called_from};

use crate::call::{Call, Way};
use crate::frame::{Frame, Home, frame_of};
use crate::nodes::{Callable, callable_of};
use crate::state::State;
use crate::stop::{Halt, Stop};
use crate::value::Value;
use terra_term::Store;
use terra_words::FaultKind;
use tl_base::limits::MAX_CALLS;
use tl_base::{FnId, NoMemory, Place, TypeId};

/// Where a function begins: the store, the functions that stand as values, a number that is at least the count, how many callers
/// there are, and where their frames end.
#[derive(Clone, Copy)]
pub(crate) struct Caller<'a> {
    pub(crate) store: &'a Store,
    pub(crate) entries: &'a [FnId],
    pub(crate) turns: u64,
    pub(crate) depth: u64,
    pub(crate) top: u64,
}

/// A function that has begun: what is to run, the homes of its declarations, and the address of its frame.
#[derive(Drop)]
pub(crate) struct Begun<'a> {
    pub(crate) k: Callable<'a>,
    pub(crate) homes: Vec<Home>,
    pub(crate) base: u64,
}

/// A call counts, and its function has one caller more.
pub(crate) fn caller_of<'a>(call: &Call<'a>, state: &mut State) -> Result<Caller<'a>, Stop>
    ensures called { (f : FnId) (vs : List Value) (at : Place) →
        Called result state.new ((call_of call.now).call f vs at state.old)
        (λ c. kept state.new.variables (called_from c f vs at state.new)) }
    ensures store { IfOk result (λ c. c.store.now ≡ call.now.store.now) }
    ensures fewer { IfOk result (λ c. c.turns < call.now.turns) }
{
    state.count()?;
    if call.turns == 0 {
        return Err(Stop::Halted(Halt::More));
    }
    let depth = call.depth.checked_add(1).ok_or(NoMemory)?;
    Ok(Caller {
        store: call.store,
        entries: call.entries,
        turns: call.turns - 1,
        depth,
        top: call.base,
    })
}

/// Whether a frame of a size that ends at an address goes below a limit.
fn overflows(top: u64, limit: u64, size: u64) -> bool
    ensures { result ≡ nat_lt top (limit + size) }
{
    if top < limit {
        return true;
    }
    top - limit < size
}

/// A function begins: depth is tested, then the data stack. Its frame lies directly below those of its callers.
pub(crate) fn begin<'a>(
    caller: Caller<'a>,
    f: FnId,
    at: Place,
    state: &State,
) -> Result<Begun<'a>, Stop>
    ensures body { (vs : List Value) → Called result state.now (called_from caller.entry f vs at state.now)
        (λ b. body_run (call_in caller.entry b) (callable_tree caller.entry.store.now b.k) vs state.now) }
    ensures before { IfOk result (λ b. b.k.node < length caller.entry.store.now.typed) }
{
    let Some(k) = callable_of(caller.store, f) else {
        return Err(Stop::Halted(Halt::Stuck));
    };
    if caller.depth >= MAX_CALLS {
        return Err(Stop::fault(FaultKind::CallDepth, at));
    }
    let Frame { homes, size } = frame_of(caller.store.allocator(), caller.store, &k)?;
    if overflows(caller.top, state.heap_limit(), size) {
        return Err(Stop::fault(FaultKind::StackFull, at));
    }
    let base = caller.top - size;
    Ok(Begun { k, homes, base })
}

/// What a function gives whose body has ended so.
pub(crate) fn given_back(k: Callable<'_>, way: Way) -> Result<Value, Stop>
    ensures { (store : stores.Held) (s : State) → GaveValue result s (meanings.given_back (callable_tree store k.entry) (way_of way) s) }
{
    match way {
        Way::GivesBack(v) => Ok(v),
        Way::GoesOn => no_value(k),
        Way::Breaks => no_value(k),
    }
}

/// A body that ends gives nothing, which is a fault where a result is due.
fn no_value(k: Callable<'_>) -> Result<Value, Stop>
    ensures { (store : stores.Held) (s : State) →
        GaveValue result s (meanings.given_back (callable_tree store k.entry) meanings.goes_on s) }
{
    if k.result.0 == UNIT.0 {
        Ok(Value::word(0))
    } else {
        Err(Stop::fault(FaultKind::NoReturn, k.at))
    }
}

const UNIT: TypeId = TypeId(9);

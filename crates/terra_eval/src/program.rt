// Runs of whole programs.

ghost use Rattle.std.specs.Prelude.{◌≡◌, ◌-◌, ◌/◌, ◌≤◌, ◌++◌, List, length, replicate, IfOk, OnOk};
ghost use Rattle.terra_memory.specs.Region.{IsMemorySize};
ghost use Rattle.terra_term.specs.Stores.{callable_of, contents_of, static_bytes};
ghost use Rattle.terra_words.specs.Runs as runs;
ghost use Rattle.terra_meaning.specs.Running.{Got, State, Variable};
ghost use Rattle.terra_meaning.specs.Meaning.{kept, meaning, place_in, run_of};
ghost use Rattle.terra_eval.specs.Views.{GaveValue, run_view};

use crate::beginning::Caller;
use crate::evaluator::enter;
use crate::nodes::callable_of;
use crate::state;
use crate::stop::{End, Halt, Run, Stop};
use crate::value::Value;
use terra_memory::Region;
use terra_term::Store;
use tl_base::limits::REGION_ADDRESS;
use tl_base::{FnId, NoMemory, Place};

/// Zeros behind bytes, so many that there are at least `size` bytes.
fn fill(bytes: &mut Vec<u8>, size: usize) -> Result<(), NoMemory>
    ensures { OnOk result (bytes.new.items ≡ bytes.old.items ++ replicate (size - length bytes.old.items) 0) }
{
    if bytes.len() < size {
        bytes.resize(size, 0)?;
    }
    Ok(())
}

/// The bytes with which the region begins: the statics at their addresses, with zeros between them.
pub fn static_bytes(store: &Store) -> Result<Vec<u8>, NoMemory>
    ensures { IfOk result (λ bytes. bytes.items ≡ static_bytes (contents_of store.now)) }
{
    let mut bytes = Vec::new(store.allocator());
    let held = store.statics();
    for s in held {
        fill(
            &mut bytes,
            s.address.saturating_sub(REGION_ADDRESS) as usize,
        )?;
        bytes.extend_from_slice(s.bytes.as_slice())?;
    }
    Ok(bytes)
}

/// The place of a function that can be called; line 0, word 0 where it can't.
fn place_of(store: &Store, f: FnId) -> Place
    ensures { result ≡ place_in (callable_of (contents_of store.now) f) }
{
    match callable_of(store, f) {
        Some(k) => k.at,
        None => Place { line: 0, word: 0 },
    }
}

/// The run of an entry that gave this, with the output.
fn ended(given: Result<Value, Stop>, out: Vec<u8>) -> Result<Run, NoMemory>
    ensures { (variables : List Variable) (got : Got runs.Value) (s : State) → s.out ≡ out.items →
        GaveValue given s (kept variables got) → IfOk result (λ run. run_view run ≡ run_of got) }
{
    match given {
        Ok(v) => Ok(Run::Over(End::Returned(v), out)),
        Err(Stop::Halted(Halt::Fault(kind, at))) => Ok(Run::Over(End::Fault(kind, at), out)),
        Err(Stop::Halted(Halt::Stuck)) => Ok(Run::Over(End::Stuck, out)),
        Err(Stop::Halted(Halt::More)) => Ok(Run::More(out)),
        Err(Stop::NoMemory) => Err(NoMemory),
    }
}

/// The run of a function as the entry, in a region of `memory` bytes, at the count `n`. The functions that stand as values are
/// `entries`, in order. The memory is a multiple of 1,024 from 65,536 to 67,108,864, and the statics are at most half of it.
pub fn evaluate(
    store: &Store,
    entries: &[FnId],
    memory: u64,
    n: u64,
    f: FnId,
    arguments: &[Value],
) -> Result<Run, NoMemory>
    requires sized { IsMemorySize memory }
    requires half { length (static_bytes (contents_of store.now)) ≤ memory / 2 }
    ensures { IfOk result (λ run. run_view run ≡ meaning (contents_of store.now) entries.now memory n f arguments.now) }
{
    let alloc = store.allocator();
    let statics = static_bytes(store)?;
    let region = Region::new(alloc, memory, &statics)?;
    let mut state = state::State::new(alloc, region, n);
    let at = place_of(store, f);
    let caller = Caller {
        store,
        entries,
        turns: n,
        depth: 0,
        top: state.end_address(),
    };
    let given = enter(caller, f, arguments, at, &mut state);
    ended(given, state.into_out())
}

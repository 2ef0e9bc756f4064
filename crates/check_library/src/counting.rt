// The typed nodes of exports with all that they reach.

ghost use Rattle.std.specs.Prelude.{◌≡◌, ◌≤◌, [], length, drop, slice_get, IfOk, OnOk, option_map};
ghost use Rattle.check_library.specs.Counting.{nothing, with_function, with_functions, mentioned, gone_through, with_reached};
ghost use Rattle.check_library.specs.Counting.{one_at, nodes_of, summed, count_function, count_exports, count_with, numbered};

use check_flow::mentions::reach_mentions;
use check_model::ReachedList;
use exotype::World;
use indexmap::IndexSet;
use std::alloc::Global;
use std::marker::Model;
use terra_term::{Export, FunctionState};
use tl_base::limits::MAX_COMPILED_NODES;
use tl_base::{FnId, NoMemory};

/// What was counted of the exports: how many of them, the functions that they reach, in the order in which these were first reached, and
/// the typed nodes of these, which are at most 131,072. Each function counts once. Contracts see the list of the functions' numbers.
#[derive(Drop)]
pub struct Counted {
    exports: usize,
    functions: IndexSet<u64>,
    nodes: u64,
}

impl Model for Counted {
    ghost use Rattle.std.specs.Prelude.{◌≤◌};
    ghost use Rattle.tl_base.specs.declared.limits.TheConstants.{MAX_COMPILED_NODES};
    ghost use Rattle.check_library.specs.Counting.{CountedState};

    ghost Value = { CountedState };

    ghost view = { λ c. record { exports = c.exports; functions = c.functions.keys; nodes = c.nodes } };

    ghost invariant = { λ c. c.nodes ≤ MAX_COMPILED_NODES };
}

impl Counted {
    /// Nothing was counted yet.
    pub fn new(alloc: Global) -> Counted
        ensures { result ≡ nothing }
    {
        Counted {
            exports: 0,
            functions: IndexSet::new(alloc),
            nodes: 0,
        }
    }

    /// Counts the exports of the world that weren't counted yet, and behind them one of a function. The function that takes the typed
    /// nodes past the most that there may be, if one does: the nodes then are those before it.
    pub fn count_with(&mut self, world: &World, f: FnId) -> Result<Option<FnId>, NoMemory>
        ensures { IfOk result (λ passing. record { counted = self.new; passing = option_map (λ f. f.0) passing }
            ≡ count_with world.now self.old f) }
    {
        let exports = world.exports.as_slice();
        let left = match exports.get(self.exports..) {
            Some(left) => left,
            None => &[],
        };
        match self.count_exports(world, left)? {
            Some(passing) => Ok(Some(passing)),
            None => self.count_function(world, f),
        }
    }

    /// Counts exports.
    #[tactic(auto, using(crate::proofs::Walking::count_next, crate::proofs::Walking::count_stop, crate::proofs::Walking::count_end))]
    fn count_exports(&mut self, world: &World, exports: &[Export]) -> Result<Option<FnId>, NoMemory>
        ensures { IfOk result (λ passing. record { counted = self.new; passing = option_map (λ f. f.0) passing }
            ≡ count_exports world.now self.old exports.now) }
    {
        'each: for export in exports.iter() {
            if let Some(passing) = self.count_function(world, export.function)? {
                return Ok(Some(passing));
            }
        }
        Ok(None)
    }

    /// Counts an export of a function. The function that takes the typed nodes past the most that there may be, if one does.
    pub fn count_function(&mut self, world: &World, f: FnId) -> Result<Option<FnId>, NoMemory>
        ensures { IfOk result (λ passing. record { counted = self.new; passing = option_map (λ f. f.0) passing }
            ≡ count_function world.now self.old f) }
    {
        let before = self.functions.len();
        reach(world, &mut self.functions, f)?;
        let Some(exports) = self.exports.checked_add(1) else {
            // No memory has so many exports.
            return Err(NoMemory);
        };
        self.exports = exports;
        let (nodes, passing) = sum(world, self.nodes, self.functions.as_slice(), before);
        self.nodes = nodes;
        Ok(passing)
    }
}

/// Puts a function behind others, unless it is among them.
fn put(functions: &mut IndexSet<u64>, f: u64) -> Result<(), NoMemory>
    ensures { OnOk result (functions.new.keys ≡ with_function functions.old.keys f) }
{
    functions.insert_full(f)?;
    Ok(())
}

/// Puts functions behind others, those that are new.
#[tactic(auto, using(crate::proofs::Walking::put_next, crate::proofs::Walking::put_end))]
fn put_all(functions: &mut IndexSet<u64>, reached: &ReachedList) -> Result<(), NoMemory>
    ensures { OnOk result (functions.new.keys ≡ with_functions functions.old.keys reached.now) }
{
    'each: for place in 0..reached.len() {
        put_at(functions, reached, place)?;
    }
    Ok(())
}

/// Puts the function at a place behind others, if it is new.
fn put_at(functions: &mut IndexSet<u64>, reached: &ReachedList, place: u64) -> Result<(), NoMemory>
    ensures { OnOk result (functions.new.keys ≡ with_functions functions.old.keys (one_at (slice_get reached.now place))) }
{
    match reached.get(place) {
        Some(one) => put(functions, one.function.0),
        None => Ok(()),
    }
}

/// Puts what a function mentions behind others, where it is new.
fn put_mentioned(world: &World, functions: &mut IndexSet<u64>, f: u64) -> Result<(), NoMemory>
    ensures { OnOk result (functions.new.keys ≡ with_functions functions.old.keys (mentioned world.now f)) }
{
    let mut reached = ReachedList::new(world.store.allocator());
    reach_mentions(world, &mut reached, FnId(f))?;
    put_all(functions, &reached)
}

/// Puts a function and what it reaches behind others, where that is new.
fn reach(world: &World, functions: &mut IndexSet<u64>, f: FnId) -> Result<(), NoMemory>
    ensures { OnOk result (functions.new.keys ≡ with_reached world.now functions.old.keys f.0) }
{
    let first = functions.len();
    put(functions, f.0)?;
    go_through(world, functions, world.store.function_count(), first)
}

/// Goes through functions from a place on, in so many steps at most: what each one mentions comes behind the others, where it is new.
#[tactic(auto, using(crate::proofs::Walking::through_next, crate::proofs::Walking::through_end, crate::proofs::Walking::through_stop))]
fn go_through(
    world: &World,
    functions: &mut IndexSet<u64>,
    steps: u64,
    first: usize,
) -> Result<(), NoMemory>
    ensures { OnOk result (functions.new.keys ≡ gone_through world.now steps first functions.old.keys) }
{
    let mut place = first;
    'each: for _ in 0..steps {
        let Some(f) = number_at(functions, place) else {
            return Ok(());
        };
        put_mentioned(world, functions, f)?;
        let Some(next) = place.checked_add(1) else {
            // No memory has so many functions.
            return Err(NoMemory);
        };
        place = next;
    }
    Ok(())
}

/// The number of the function at a place.
fn number_at(functions: &IndexSet<u64>, place: usize) -> Option<u64>
    ensures { result ≡ slice_get functions.now.keys place }
{
    match functions.get_index(place) {
        Some(f) => Some(*f),
        None => None,
    }
}

/// The typed nodes of a function.
fn nodes_of(world: &World, f: u64) -> u64
    ensures { result ≡ nodes_of world.now f }
{
    match world.store.state(FnId(f)) {
        FunctionState::Typed(_, made) => match world.store.size_of_typed(made) {
            Some(size) => u64::from(size.nodes),
            None => 1,
        },
        _ => 0,
    }
}

/// Adds the typed nodes of functions from a place on, up to the most that there may be. The sum, and the function that would pass that, if
/// one does.
#[tactic(auto, using(crate::proofs::Walking::sum_next, crate::proofs::Walking::sum_stop, crate::proofs::Walking::sum_end))]
fn sum(world: &World, nodes: u64, functions: &[u64], first: usize) -> (u64, Option<FnId>)
    requires { nodes ≤ MAX_COMPILED_NODES }
    ensures sum { record { nodes = result.0; passing = option_map (λ f. f.0) result.1 }
        ≡ summed world.now nodes (drop first functions.now) }
    ensures within { result.0 ≤ MAX_COMPILED_NODES }
{
    let mut sum = nodes;
    'each: for place in first..functions.len() {
        let f = functions[place];
        let more = nodes_of(world, f);
        if MAX_COMPILED_NODES - sum < more {
            return (sum, Some(FnId(f)));
        }
        sum += more;
    }
    (sum, None)
}

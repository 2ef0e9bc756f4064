// Which assignments are right: at each place each temporary in use has a home, and no two share one.

ghost use Rattle.std.specs.Prelude.{◌≡◌, ◌+◌, ◌^◌, ◌<◌, ◌↔◌, true, length, IfOk, IsTrue};
ghost use Rattle.std.specs.List.{list_all};
ghost use Rattle.tac_form.specs.Graph.{graph_of};
ghost use Rattle.reg_alloc.specs.Right.{IsRight};
ghost use Rattle.reg_alloc.specs.Homes.{home_number, Takes, TakesIf, IsRightSet, IsBlockRight, AreBlocksRight, all_below, write_below};
ghost use Rattle.reg_alloc.specs.Homes.{step_below, steps_below, block_below, are_below};

use crate::assignment::{Assignment, Home};
use std::alloc::Global;
use tac_form::{FlowBlock, Step, Tac, TempList};
use tac_live::{TempSet, flow_graph, live_at_begins, live_at_exit};
use tl_base::NoMemory;

/// The first of the registers that calls keep and that hold temporaries, the last, and how many they are.
pub const FIRST: u64 = 18;

const LAST: u64 = 27;

pub const KEPT: usize = 10;

/// The number of a home among all: the slots, and behind them the registers.
fn number_of(home: Option<Home>, slots: usize) -> Option<usize>
    requires { slots < 2 ^ 63 }
    ensures { result ≡ home_number slots home }
{
    match home {
        Some(Home::Register(x)) if FIRST <= x && x <= LAST => Some(slots + (x - FIRST) as usize),
        Some(Home::Slot(s)) if (s as usize) < slots => Some(s as usize),
        _ => None,
    }
}

/// Takes a home, and says whether there was one and it was free.
fn take(taken: &mut TempSet, home: Option<Home>, slots: usize) -> bool
    requires few { slots < 2 ^ 63 }
    requires long { length taken.old ≡ slots + 10 }
    ensures { Takes slots home taken.old taken.new result }
{
    match number_of(home, slots) {
        None => false,
        Some(n) => {
            if taken.contains(n) {
                false
            } else {
                taken.insert(n);
                true
            }
        }
    }
}

/// Takes a home if its temporary is in use, and says whether it was free.
fn take_if(used: bool, taken: &mut TempSet, home: Option<Home>, slots: usize) -> bool
    requires few { slots < 2 ^ 63 }
    requires long { length taken.old ≡ slots + 10 }
    ensures { TakesIf used slots home taken.old taken.new result }
{
    if used { take(taken, home, slots) } else { true }
}

/// Whether each temporary of a set has a home, and no two share one.
fn is_right_set(alloc: Global, homes: &[Option<Home>], set: &[bool]) -> Result<bool, NoMemory>
    requires { length set.now ≡ length homes.now }
    ensures { IfOk result (λ right. (right ≡ true) ↔ IsRightSet homes.now set.now) }
{
    let slots = homes.len();
    let mut taken = TempSet::empty(alloc, slots + KEPT)?;
    for t in 0..set.len() {
        if !take_if(set[t], &mut taken, homes[t], slots) {
            return Ok(false);
        }
    }
    Ok(true)
}

/// Whether the homes are right at each place of a block.
fn is_right_block(
    alloc: Global,
    homes: &[Option<Home>],
    block: &FlowBlock,
    rows: &[TempList],
) -> Result<bool, NoMemory>
    ensures { IfOk result (λ right. (right ≡ true) ↔ IsBlockRight homes.now rows.now block.now) }
{
    let mut live = live_at_exit(alloc, block, rows, homes.len())?;
    let steps = block.steps.as_slice();
    let mut at = steps.len();
    while at > 0 {
        at -= 1;
        live.mark_written(steps[at].write);
        if !is_right_set(alloc, homes, live.as_slice())? {
            return Ok(false);
        }
        live.step_back(&steps[at]);
    }
    is_right_set(alloc, homes, live.as_slice())
}

fn are_right_blocks(
    alloc: Global,
    homes: &[Option<Home>],
    graph: &[FlowBlock],
    rows: &[TempList],
) -> Result<bool, NoMemory>
    ensures { IfOk result (λ right. (right ≡ true) ↔ AreBlocksRight homes.now rows.now graph.now (length graph.now)) }
{
    for block in graph {
        if !is_right_block(alloc, homes, block, rows)? {
            return Ok(false);
        }
    }
    Ok(true)
}

fn are_temps_below(temps: &[u64], count: usize) -> bool
    ensures { result ≡ all_below count temps.now }
{
    temps.iter().all(|t| (*t as usize) < count)
}

fn is_write_below(write: Option<u64>, count: usize) -> bool
    ensures { result ≡ write_below count write }
{
    match write {
        Some(t) => (t as usize) < count,
        None => true,
    }
}

fn is_step_below(step: &Step, count: usize) -> bool
    ensures { result ≡ step_below count step.now }
{
    if is_write_below(step.write, count) {
        are_temps_below(step.reads.as_slice(), count)
    } else {
        false
    }
}

fn are_steps_below(steps: &[Step], count: usize) -> bool
    ensures { result ≡ steps_below count steps.now }
{
    steps.iter().all(|s| is_step_below(s, count))
}

fn is_block_below(block: &FlowBlock, count: usize) -> bool
    ensures { result ≡ block_below count block.now }
{
    if are_steps_below(block.steps.as_slice(), count) {
        are_temps_below(block.reads.as_slice(), count)
    } else {
        false
    }
}

/// Whether all temporaries that a graph reads or writes have numbers below this.
pub fn is_graph_below(graph: &[FlowBlock], count: usize) -> bool
    ensures { result ≡ are_below count graph.now }
{
    graph.iter().all(|b| is_block_below(b, count))
}

/// Whether an assignment is right for code: exactly where each temporary that is ever in use has a register from x18
/// to x27 or a slot, and no two that are in use at one place share it.
///
/// It takes time in the order of places by homes, and memory of the order of the code, of the homes, and of what is live where
/// blocks begin.
pub fn check_assignment(alloc: Global, tac: &Tac, assignment: &Assignment) -> Result<bool, NoMemory>
    ensures { IfOk result (λ right. IsTrue right ↔ IsRight tac.now assignment.now) }
{
    let homes = assignment.as_slice();
    let graph = flow_graph(alloc, tac)?;
    if !is_graph_below(&graph, homes.len()) {
        return Ok(false);
    }
    let rows = live_at_begins(alloc, &graph, homes.len())?;
    are_right_blocks(alloc, homes, &graph, &rows)
}

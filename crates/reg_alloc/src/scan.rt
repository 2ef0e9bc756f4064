// An assignment for code, by a linear scan: intervals of temporaries, in the order in which they begin, get a register
// that is free from there on. Where none is, the one of eleven intervals that ends last has a slot.

ghost use Rattle.std.specs.Prelude.{◌≡◌, ◌+◌, ◌<◌, ◌≤◌, ℕ, true, length, replicate, slice_set, IfOk, IsTrue, MatchOption};
ghost use Rattle.tac_form.specs.Fits.{is_within};
ghost use Rattle.tac_form.specs.Graph.{graph_of};
ghost use Rattle.reg_alloc.specs.Right.{IsRight};
ghost use Rattle.reg_alloc.specs.Homes.{are_below};
ghost use Rattle.reg_alloc.specs.Intervals.{HasSlot, IsCrowded};
ghost use Rattle.reg_alloc.specs.Noted.{span_at, IsOrdered};
ghost use Rattle.reg_alloc.specs.Scans.{holder_at, is_free, last_of, scan_of, held, AllBusy, Begins, BeginsIf, AreHomes};

use crate::assignment::{Assignment, Home};
use crate::check::{FIRST, KEPT, is_graph_below};
use crate::intervals::find_intervals;
use crate::spans::Span;
use std::alloc::Global;
use tac_form::{FlowBlock, Tac};
use tac_live::flow_graph;
use tl_base::NoMemory;

/// Numbers of temporaries from here on leave no room for a list of homes.
const TOO_MANY: usize = 1 << 40;

/// The temporary that got a register last, and the place at which its interval ends.
#[derive(Clone, Copy)]
struct Holder {
    temp: usize,
    last: usize,
}

/// Whether a register is free from a place on.
fn is_free(holder: Option<Holder>, place: usize) -> bool
    ensures { result ≡ is_free holder place }
{
    match holder {
        None => true,
        Some(holder) => holder.last < place,
    }
}

/// The first register that is free from a place on, counted from x18.
fn free_register(holders: &[Option<Holder>], place: usize) -> Option<usize>
    ensures { MatchOption result (AllBusy holders.now place) (λ r. (r < length holders.now) × (is_free (holder_at holders.now r) place ≡ true)) }
{
    for r in 0..holders.len() {
        if is_free(holders[r], place) {
            return Some(r);
        }
    }
    None
}

/// The place up to which a register is held.
fn last_of(holder: Option<Holder>) -> usize
    ensures { result ≡ last_of holder }
{
    match holder {
        None => 0,
        Some(holder) => holder.last,
    }
}

/// The register whose holder's interval ends last, counted from x18.
fn latest(holders: &[Option<Holder>]) -> usize
    requires { 0 < length holders.now }
    ensures there { result < length holders.now }
    ensures last { (r : ℕ) → r < length holders.now → last_of (holder_at holders.now r) ≤ last_of (holder_at holders.now result) }
{
    let mut best = 0;
    for r in 0..holders.len() {
        if last_of(holders[r]) > last_of(holders[best]) {
            best = r;
        }
    }
    best
}

fn give(homes: &mut [Option<Home>], t: usize, home: Home)
    ensures { homes.new ≡ slice_set homes.old t (Some home) }
{
    if t < homes.len() {
        homes[t] = Some(home);
    }
}

/// A temporary gets a register up to a place.
fn hold(
    homes: &mut [Option<Home>],
    holders: &mut [Option<Holder>],
    r: usize,
    temp: usize,
    last: usize,
)
    requires ten { length holders.old ≡ 10 }
    requires there { r < length holders.old }
    ensures { (s : ℕ) → scan_of homes.new holders.new s ≡ held r temp last (scan_of homes.old holders.old s) }
{
    give(homes, temp, Home::Register(FIRST + r as u64));
    holders[r] = Some(Holder { temp, last });
}

/// A temporary whose interval begins, where no register is free, gets the one whose holder ends last, if that ends later, and the
/// holder the next slot. Else it gets the slot itself.
fn spill(
    homes: &mut [Option<Home>],
    holders: &mut [Option<Holder>],
    slot: usize,
    temp: usize,
    span: Span,
)
    requires ten { length holders.old ≡ 10 }
    requires busy { AllBusy holders.old span.first }
    ensures { Begins (scan_of homes.old holders.old slot) temp span (scan_of homes.new holders.new (slot + 1)) }
{
    let r = latest(holders);
    match holders[r] {
        Some(holder) if holder.last > span.last => {
            give(homes, holder.temp, Home::Slot(slot as u64));
            hold(homes, holders, r, temp, span.last);
        }
        _ => give(homes, temp, Home::Slot(slot as u64)),
    }
}

/// A temporary whose interval begins gets a home. The answer is how many slots were given.
fn begin(
    homes: &mut [Option<Home>],
    holders: &mut [Option<Holder>],
    slots: usize,
    temp: usize,
    span: Span,
) -> usize
    requires ten { length holders.old ≡ 10 }
    requires slots { slots ≤ length homes.old }
    ensures { Begins (scan_of homes.old holders.old slots) temp span (scan_of homes.new holders.new result) }
{
    match free_register(holders, span.first) {
        Some(r) => {
            hold(homes, holders, r, temp, span.last);
            slots
        }
        None => {
            spill(homes, holders, slots, temp, span);
            slots + 1
        }
    }
}

/// The same for a temporary that has an interval.
fn begin_if(
    homes: &mut [Option<Home>],
    holders: &mut [Option<Holder>],
    slots: usize,
    temp: usize,
    span: Option<Span>,
) -> usize
    requires ten { length holders.old ≡ 10 }
    requires slots { slots ≤ length homes.old }
    ensures { BeginsIf (scan_of homes.old holders.old slots) temp span (scan_of homes.new holders.new result) }
{
    match span {
        Some(span) => begin(homes, holders, slots, temp, span),
        None => slots,
    }
}

fn span_of(spans: &[Option<Span>], t: usize) -> Option<Span>
    ensures { result ≡ span_at spans.now t }
{
    if t < spans.len() { spans[t] } else { None }
}

fn no_homes(alloc: Global, count: usize) -> Result<Vec<Option<Home>>, NoMemory>
    ensures { IfOk result (λ homes. homes.items ≡ replicate count None) }
{
    Ok(vec![in alloc; None; count]?)
}

fn no_holders(alloc: Global) -> Result<Vec<Option<Holder>>, NoMemory>
    ensures { IfOk result (λ holders. holders.items ≡ replicate 10 None) }
{
    Ok(vec![in alloc; None; KEPT]?)
}

/// Homes for intervals, in the order in which they begin.
fn scan(
    alloc: Global,
    spans: &[Option<Span>],
    order: &[usize],
) -> Result<Vec<Option<Home>>, NoMemory>
    requires { IsOrdered spans.now order.now }
    ensures { IfOk result (λ homes. AreHomes spans.now homes.items) }
{
    let mut homes = no_homes(alloc, spans.len())?;
    let mut holders = no_holders(alloc)?;
    let mut slots = 0;
    for t in order {
        let span = span_of(spans, *t);
        slots = begin_if(&mut homes, &mut holders, slots, *t, span);
    }
    Ok(homes)
}

/// A number above those of all temporaries: that of the code itself, or else the next power of two that serves.
fn room_for(graph: &[FlowBlock], temps: u64) -> Result<usize, NoMemory>
    ensures serves { IfOk result (λ count. are_below count graph.now ≡ true) }
    ensures few { are_below temps graph.now ≡ true → IfOk result (λ count. count ≤ temps) }
{
    let mut count = temps as usize;
    'grow: while !is_graph_below(graph, count) {
        if count >= TOO_MANY {
            return Err(NoMemory);
        }
        count = 2 * count + 1;
    }
    Ok(count)
}

/// A right assignment for code, with slots only where more than ten intervals contain one place.
///
/// It takes memory of the order of the code, and time of the order of the code and, over all temporaries, of the blocks at whose
/// begin they are live.
pub fn assign(alloc: Global, tac: &Tac) -> Result<Assignment, NoMemory>
    ensures right { IfOk result (λ assignment. IsRight tac.now assignment) }
    // No more homes than temporaries, where the code names none but its own.
    ensures few { IsTrue (is_within tac.now) → IfOk result (λ assignment. length assignment ≤ tac.now.temps) }
    ensures slots { IfOk result (λ assignment. HasSlot assignment → IsCrowded (graph_of tac.now)) }
{
    let graph = flow_graph(alloc, tac)?;
    let count = room_for(&graph, tac.temps)?;
    let found = find_intervals(alloc, &graph, count)?;
    Ok(Assignment::from_vec(scan(alloc, &found.spans, &found.order)?))
}

// From which place to which temporaries are in use: what steps and exits read and write, where blocks begin at which they are
// live, and before the exits that lead to these. A temporary is in use first and last at one of these places.

ghost use Rattle.std.specs.Prelude.{◌≡◌, [], ◌+◌, ◌<◌, ◌≤◌, ◌^◌, length, slice_get, slice_index_or, replicate, IfOk, OnOk};
ghost use Rattle.tac_live.specs.Flows.{AreFlows};
ghost use Rattle.reg_alloc.specs.Noted.{widened, noted, all_noted, write_noted, step_noted, steps_noted, noted_at, all_noted_at, live_noted, span_at};
ghost use Rattle.reg_alloc.specs.Noted.{ArePlaces, HasUses, HasSpans};

use crate::numbers::Places;
use std::alloc::Global;
use tac_form::{FlowBlock, Step};
use tac_live::groups::no_marks;
use tac_live::{Flow, flow_of, live_blocks};
use tl_base::{List, NoMemory};

/// From which place to which a temporary is in use, by their numbers in the order of the code.
#[derive(Clone, Copy)]
pub struct Span {
    pub first: usize,
    pub last: usize,
}

/// An interval with a place more.
fn widened(span: Option<Span>, place: usize) -> Span
    ensures { result ≡ widened span place }
{
    match span {
        Some(span) => Span {
            first: if place < span.first {
                place
            } else {
                span.first
            },
            last: if span.last < place { place } else { span.last },
        },
        None => Span {
            first: place,
            last: place,
        },
    }
}

/// Notes that a temporary is in use at a place.
fn note(spans: &mut Vec<Option<Span>>, t: usize, place: usize)
    ensures { spans.new.items ≡ noted t place spans.old.items }
{
    if t < spans.len() {
        spans[t] = Some(widened(spans[t], place));
    }
}

fn note_all(spans: &mut Vec<Option<Span>>, temps: &[u64], place: usize)
    ensures { spans.new.items ≡ all_noted temps.now place spans.old.items }
{
    for t in temps {
        note(spans, *t as usize, place);
    }
}

fn note_written(spans: &mut Vec<Option<Span>>, write: Option<u64>, place: usize)
    ensures { spans.new.items ≡ write_noted write place spans.old.items }
{
    match write {
        Some(t) => note(spans, t as usize, place),
        None => {}
    }
}

/// What a step reads is in use before it, and what it writes behind it.
fn note_step(spans: &mut Vec<Option<Span>>, step: &Step, place: usize)
    requires { place < 2 ^ 63 }
    ensures { spans.new.items ≡ step_noted step.now place spans.old.items }
{
    note_all(spans, step.reads.as_slice(), place);
    note_written(spans, step.write, place + 1);
}

fn note_steps(spans: &mut Vec<Option<Span>>, steps: &[Step], place: usize)
    requires { place + length steps.now < 2 ^ 63 }
    ensures { spans.new.items ≡ steps_noted steps.now place spans.old.items }
{
    let mut at = place;
    for step in steps {
        note_step(spans, step, at);
        at += 1;
    }
}

/// Notes what a block that begins at a place reads and writes.
fn note_block(spans: &mut Vec<Option<Span>>, block: &FlowBlock, place: usize)
    requires { place + length block.now.steps < 2 ^ 63 }
    ensures { spans.new.items ≡ all_noted block.now.reads (place + length block.now.steps) (steps_noted block.now.steps place spans.old.items) }
{
    let steps = block.steps.as_slice();
    note_steps(spans, steps, place);
    note_all(spans, block.reads.as_slice(), place + steps.len());
}

fn no_spans(alloc: Global, count: usize) -> Result<Vec<Option<Span>>, NoMemory>
    ensures { IfOk result (λ spans. spans.items ≡ replicate count None) }
{
    Ok(vec![in alloc; None; count]?)
}

/// Notes what all blocks read and write.
fn uses_of(
    alloc: Global,
    graph: &[FlowBlock],
    places: &Places,
    count: usize,
) -> Result<Vec<Option<Span>>, NoMemory>
    requires { ArePlaces graph.now places.now.begins.items places.now.exits.items places.now.count }
    ensures { IfOk result (λ spans. HasUses graph.now count (length graph.now) spans.items) }
{
    let mut spans = no_spans(alloc, count)?;
    for (b, block) in graph.iter().enumerate() {
        note_block(&mut spans, block, places.begins[b]);
    }
    Ok(spans)
}

/// Notes that a temporary is in use at the place of a block.
fn note_at(spans: &mut Vec<Option<Span>>, t: usize, places: &[usize], b: usize)
    ensures { spans.new.items ≡ noted_at (slice_get places.now b) t spans.old.items }
{
    if b < places.len() {
        note(spans, t, places[b]);
    }
}

fn note_all_at(spans: &mut Vec<Option<Span>>, t: usize, places: &[usize], blocks: &[usize])
    ensures { spans.new.items ≡ all_noted_at blocks.now t places.now spans.old.items }
{
    for b in blocks {
        note_at(spans, t, places, *b);
    }
}

/// Notes that a temporary is in use before the exits that lead to a block.
fn note_before(
    spans: &mut Vec<Option<Span>>,
    t: usize,
    exits: &[usize],
    before: &[List<usize>],
    b: usize,
)
    ensures { spans.new.items ≡ all_noted_at (slice_index_or before.now b []) t exits.now spans.old.items }
{
    if b < before.len() {
        note_all_at(spans, t, exits, before[b].as_slice());
    }
}

/// Notes that a temporary is live where blocks begin, and before the exits that lead to them.
fn note_live(
    spans: &mut Vec<Option<Span>>,
    t: usize,
    begins: &[usize],
    exits: &[usize],
    before: &[List<usize>],
    found: &[usize],
)
    ensures { spans.new.items ≡ live_noted found.now t begins.now exits.now before.now spans.old.items }
{
    for b in found {
        note_at(spans, t, begins, *b);
        note_before(spans, t, exits, before, *b);
    }
}

/// Notes where each of so many temporaries is live at the begin of a block. The turn of a temporary is the number behind its own,
/// so marks begin with that of no turn.
fn note_temps(
    alloc: Global,
    spans: &mut Vec<Option<Span>>,
    graph: &[FlowBlock],
    places: &Places,
    flow: &Flow,
    count: usize,
) -> Result<(), NoMemory>
    requires places { ArePlaces graph.now places.now.begins.items places.now.exits.items places.now.count }
    requires flow { AreFlows graph.now count flow.now.exposed.items flow.now.writers.items flow.now.before.items }
    requires uses { HasUses graph.now count (length graph.now) spans.old.items }
    ensures { OnOk result (HasSpans graph.now count spans.new.items) }
{
    let mut marks = no_marks(alloc, graph.len())?;
    let mut stops = no_marks(alloc, graph.len())?;
    for t in 0..count {
        let found = live_blocks(
            alloc,
            &mut marks,
            &mut stops,
            flow.exposed[t].as_slice(),
            flow.writers[t].as_slice(),
            &flow.before,
            t + 1,
        )?;
        note_live(
            spans,
            t,
            &places.begins,
            &places.exits,
            &flow.before,
            &found,
        );
    }
    Ok(())
}

/// The intervals of so many temporaries.
pub fn spans_of(
    alloc: Global,
    graph: &[FlowBlock],
    places: &Places,
    count: usize,
) -> Result<Vec<Option<Span>>, NoMemory>
    requires { ArePlaces graph.now places.now.begins.items places.now.exits.items places.now.count }
    ensures { IfOk result (λ spans. HasSpans graph.now count spans.items) }
{
    let flow = flow_of(alloc, graph, count)?;
    let mut spans = uses_of(alloc, graph, places, count)?;
    note_temps(alloc, &mut spans, graph, places, &flow, count)?;
    Ok(spans)
}

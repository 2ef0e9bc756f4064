// What a search for the blocks at whose begin one temporary is live goes by: from which blocks a block is reached,
// which blocks read the temporary before they write it, and which write it.

ghost use Rattle.std.specs.Prelude.{◌≡◌, ◌+◌, length, IfOk, OnOk};
ghost use Rattle.tac_live.specs.Flows.{is_marked, seen, write_marked, exposed_unless, all_exposed, step_exposed, steps_exposed, block_exposed};
ghost use Rattle.tac_live.specs.Flows.{write_put, steps_put, exposes, writes, leads, AreGrouped, AreFlows};

use crate::groups::{is_marked, mark, no_groups, no_marks, put, put_all};
use std::alloc::Global;
use tac_form::{FlowBlock, Step};
use tl_base::{List, NoMemory};

/// Blocks by temporaries, and blocks by blocks: those that read a temporary before they write it, those that write it, and
/// those from which a block is reached.
#[derive(Drop)]
pub struct Flow {
    pub exposed: Vec<List<usize>>,
    pub writers: Vec<List<usize>>,
    pub before: Vec<List<usize>>,
}

fn mark_written(marks: &mut Vec<usize>, write: Option<u64>, turn: usize)
    ensures { marks.new.items ≡ write_marked write turn marks.old.items }
{
    match write {
        Some(t) => mark(marks, t as usize, turn),
        None => {}
    }
}

/// A block reads a temporary that it has not written.
fn expose(
    marks: &[usize],
    groups: &mut Vec<List<usize>>,
    t: usize,
    b: usize,
    turn: usize,
) -> Result<(), NoMemory>
    ensures { OnOk result (groups.new.items ≡ exposed_unless (is_marked marks.now t turn) t b groups.old.items) }
{
    if is_marked(marks, t, turn) {
        Ok(())
    } else {
        put(groups, t, b)
    }
}

fn expose_all(
    marks: &[usize],
    groups: &mut Vec<List<usize>>,
    temps: &[u64],
    b: usize,
    turn: usize,
) -> Result<(), NoMemory>
    ensures { OnOk result (groups.new.items ≡ all_exposed temps.now b turn marks.now groups.old.items) }
{
    for t in temps {
        expose(marks, groups, *t as usize, b, turn)?;
    }
    Ok(())
}

fn expose_step(
    marks: &mut Vec<usize>,
    groups: &mut Vec<List<usize>>,
    step: &Step,
    b: usize,
    turn: usize,
) -> Result<(), NoMemory>
    ensures { OnOk result (seen marks.new.items groups.new.items ≡ step_exposed step.now b turn (seen marks.old.items groups.old.items)) }
{
    expose_all(marks, groups, step.reads.as_slice(), b, turn)?;
    mark_written(marks, step.write, turn);
    Ok(())
}

fn expose_steps(
    marks: &mut Vec<usize>,
    groups: &mut Vec<List<usize>>,
    steps: &[Step],
    b: usize,
    turn: usize,
) -> Result<(), NoMemory>
    ensures { OnOk result (seen marks.new.items groups.new.items ≡ steps_exposed steps.now b turn (seen marks.old.items groups.old.items)) }
{
    for step in steps {
        expose_step(marks, groups, step, b, turn)?;
    }
    Ok(())
}

fn expose_block(
    marks: &mut Vec<usize>,
    groups: &mut Vec<List<usize>>,
    block: &FlowBlock,
    b: usize,
    turn: usize,
) -> Result<(), NoMemory>
    ensures { OnOk result (seen marks.new.items groups.new.items ≡ block_exposed block.now b turn (seen marks.old.items groups.old.items)) }
{
    expose_steps(marks, groups, block.steps.as_slice(), b, turn)?;
    expose_all(marks, groups, block.reads.as_slice(), b, turn)
}

/// The blocks that read each of so many temporaries before they write it. A mark says in which block a temporary was last
/// written.
fn exposed(alloc: Global, graph: &[FlowBlock], count: usize) -> Result<Vec<List<usize>>, NoMemory>
    ensures { IfOk result (λ groups. AreGrouped graph.now count exposes groups.items) }
{
    let mut groups = no_groups(alloc, count)?;
    let mut marks = no_marks(alloc, count)?;
    for (b, block) in graph.iter().enumerate() {
        expose_block(&mut marks, &mut groups, block, b, b + 1)?;
    }
    Ok(groups)
}

fn put_written(groups: &mut Vec<List<usize>>, write: Option<u64>, b: usize) -> Result<(), NoMemory>
    ensures { OnOk result (groups.new.items ≡ write_put write b groups.old.items) }
{
    match write {
        Some(t) => put(groups, t as usize, b),
        None => Ok(()),
    }
}

fn put_steps(groups: &mut Vec<List<usize>>, steps: &[Step], b: usize) -> Result<(), NoMemory>
    ensures { OnOk result (groups.new.items ≡ steps_put steps.now b groups.old.items) }
{
    for step in steps {
        put_written(groups, step.write, b)?;
    }
    Ok(())
}

/// The blocks that write each of so many temporaries.
fn writers(alloc: Global, graph: &[FlowBlock], count: usize) -> Result<Vec<List<usize>>, NoMemory>
    ensures { IfOk result (λ groups. AreGrouped graph.now count writes groups.items) }
{
    let mut groups = no_groups(alloc, count)?;
    for (b, block) in graph.iter().enumerate() {
        put_steps(&mut groups, block.steps.as_slice(), b)?;
    }
    Ok(groups)
}

/// The blocks from which each is reached.
fn before(alloc: Global, graph: &[FlowBlock]) -> Result<Vec<List<usize>>, NoMemory>
    ensures { IfOk result (λ groups. AreGrouped graph.now (length graph.now) leads groups.items) }
{
    let mut groups = no_groups(alloc, graph.len())?;
    for (b, block) in graph.iter().enumerate() {
        put_all(&mut groups, block.next.as_slice(), b)?;
    }
    Ok(groups)
}

/// All that for so many temporaries, in time and memory of the order of the code.
pub fn flow_of(alloc: Global, graph: &[FlowBlock], count: usize) -> Result<Flow, NoMemory>
    ensures { IfOk result (λ flow. AreFlows graph.now count flow.exposed.items flow.writers.items flow.before.items) }
{
    Ok(Flow {
        exposed: exposed(alloc, graph, count)?,
        writers: writers(alloc, graph, count)?,
        before: before(alloc, graph)?,
    })
}

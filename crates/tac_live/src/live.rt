// Which temporaries are live where each block begins, and before its exit.

ghost use Rattle.std.specs.Prelude.{◌≡◌, [], ◌||◌, length, replicate, IfOk, OnOk};
ghost use Rattle.tac_form.specs.Live.{before_exit};
ghost use Rattle.tac_live.specs.Flows.{put, all_put};
ghost use Rattle.tac_live.specs.Rows.{in_rows, AreLiveRows};
ghost use Rattle.tac_live.specs.Sets.{at, IsSet};

use crate::flow::flow_of;
use crate::groups::no_marks;
use crate::marks::TempSet;
use crate::reach::live_blocks;
use std::alloc::Global;
use tac_form::{FlowBlock, TempList};
use tl_base::NoMemory;

/// So many rows with nothing in them.
fn no_rows(alloc: Global, count: usize) -> Result<Vec<TempList>, NoMemory>
    ensures { IfOk result (λ rows. rows.items ≡ replicate count []) }
{
    let mut rows = Vec::new(alloc);
    for _ in 0..count {
        rows.push(TempList::new(alloc))?;
    }
    Ok(rows)
}

/// Puts a temporary into the row of a block, if there is that row.
fn put_temp(rows: &mut Vec<TempList>, b: usize, t: u64) -> Result<(), NoMemory>
    ensures { OnOk result (rows.new.items ≡ put b t rows.old.items) }
{
    if b < rows.len() {
        rows[b].push(t)?;
    }
    Ok(())
}

/// Puts a temporary into the rows of several blocks.
fn put_live(rows: &mut Vec<TempList>, blocks: &[usize], t: u64) -> Result<(), NoMemory>
    ensures { OnOk result (rows.new.items ≡ all_put blocks.now t rows.old.items) }
{
    for b in blocks {
        put_temp(rows, *b, t)?;
    }
    Ok(())
}

/// The temporaries below a number that are live where each block begins, those of a block in rising order.
///
/// It takes time and memory of the order of the code and of what it finds: a temporary that no block reads before it
/// writes it takes no room.
pub fn live_at_begins(
    alloc: Global,
    graph: &[FlowBlock],
    count: usize,
) -> Result<Vec<TempList>, NoMemory>
    ensures { IfOk result (λ rows. AreLiveRows graph.now count rows.items) }
{
    let flow = flow_of(alloc, graph, count)?;
    let mut rows = no_rows(alloc, graph.len())?;
    let mut marks = no_marks(alloc, graph.len())?;
    let mut stops = no_marks(alloc, graph.len())?;
    for t in 0..count {
        let found = live_blocks(
            alloc,
            &mut marks,
            &mut stops,
            flow.exposed[t].as_slice(),
            flow.writers[t].as_slice(),
            &flow.before,
            t + 1,
        )?;
        put_live(&mut rows, &found, t as u64)?;
    }
    Ok(rows)
}

/// Puts in what is live where a block begins.
fn join_block(live: &mut TempSet, rows: &[TempList], block: u64)
    ensures { IsSet live.new (length live.old) (λ t. at live.old t || in_rows rows.now block t) }
{
    if (block as usize) < rows.len() {
        live.mark_all(rows[block as usize].as_slice());
    }
}

/// What is live before a block's exit, of so many temporaries, by what is live where blocks begin.
pub fn live_at_exit(
    alloc: Global,
    block: &FlowBlock,
    rows: &[TempList],
    count: usize,
) -> Result<TempSet, NoMemory>
    ensures { IfOk result (λ live. IsSet live count (λ t. before_exit block.now (λ c. in_rows rows.now c t) t)) }
{
    let mut live = TempSet::empty(alloc, count)?;
    live.mark_all(block.reads.as_slice());
    for next in block.next.as_slice() {
        join_block(&mut live, rows, *next);
    }
    Ok(live)
}

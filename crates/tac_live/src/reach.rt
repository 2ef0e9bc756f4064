// The blocks at whose begin one temporary is live, by a search backward from those that read it before they write it.
// It goes over a block that does not write the temporary, if that is live where a block behind begins.

ghost use Rattle.std.specs.Prelude.{◌≡◌, ◌+◌, [], length, slice_index_or, IfOk, OnOk};
ghost use Rattle.tac_live.specs.Flows.{AreBelow};
ghost use Rattle.tac_live.specs.Reach.{search, reached, all_reached, FindsLive};

use crate::groups::{is_marked, mark_all};
use std::alloc::Global;
use tl_base::{List, NoMemory};

/// Finds a block, if it was not found in this turn.
fn reach(
    marks: &mut Vec<usize>,
    found: &mut Vec<usize>,
    b: usize,
    turn: usize,
) -> Result<(), NoMemory>
    ensures { OnOk result (search marks.new.items found.new.items ≡ reached b turn (search marks.old.items found.old.items)) }
{
    if b < marks.len() && marks[b] != turn {
        found.push(b)?;
        marks[b] = turn;
    }
    Ok(())
}

/// Finds those of several blocks that do not stop the search.
fn reach_all(
    marks: &mut Vec<usize>,
    found: &mut Vec<usize>,
    stops: &[usize],
    blocks: &[usize],
    turn: usize,
) -> Result<(), NoMemory>
    ensures { OnOk result (search marks.new.items found.new.items ≡ all_reached stops.now blocks.now turn (search marks.old.items found.old.items)) }
{
    for b in blocks {
        if !is_marked(stops, *b, turn) {
            reach(marks, found, *b, turn)?;
        }
    }
    Ok(())
}

/// The same for those from which a block is reached.
fn reach_before(
    marks: &mut Vec<usize>,
    found: &mut Vec<usize>,
    stops: &[usize],
    before: &[List<usize>],
    b: usize,
    turn: usize,
) -> Result<(), NoMemory>
    ensures { OnOk result (search marks.new.items found.new.items
        ≡ all_reached stops.now (slice_index_or before.now b []) turn (search marks.old.items found.old.items)) }
{
    if b < before.len() {
        reach_all(marks, found, stops, before[b].as_slice(), turn)
    } else {
        Ok(())
    }
}

/// The blocks at whose begin a temporary is live, by those that read it before they write it, those that write it, and those
/// from which each is reached. Those that were found and whose turn has not come wait behind one another in the list itself.
pub fn live_blocks(
    alloc: Global,
    marks: &mut Vec<usize>,
    stops: &mut Vec<usize>,
    exposed: &[usize],
    writers: &[usize],
    before: &[List<usize>],
    turn: usize,
) -> Result<Vec<usize>, NoMemory>
    requires marks { AreBelow marks.old.items (length before.now) turn }
    requires stops { AreBelow stops.old.items (length before.now) turn }
    ensures marks { OnOk result (AreBelow marks.new.items (length before.now) (turn + 1)) }
    ensures stops { OnOk result (AreBelow stops.new.items (length before.now) (turn + 1)) }
    ensures live { IfOk result (λ found. FindsLive exposed.now writers.now before.now found.items) }
{
    let mut found = Vec::new(alloc);
    reach_all(marks, &mut found, stops, exposed, turn)?;
    mark_all(stops, writers, turn);
    let mut i = 0;
    while i < found.len() {
        let b = found[i];
        reach_before(marks, &mut found, stops, before, b, turn)?;
        i += 1;
    }
    Ok(found)
}

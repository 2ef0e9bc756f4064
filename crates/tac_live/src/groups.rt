// Groups of numbers, a list for each of the numbers below one, and marks, which need no clearing between the turns that
// set them.

ghost use Rattle.std.specs.Prelude.{◌≡◌, [], replicate, slice_set, IfOk, OnOk};
ghost use Rattle.tac_live.specs.Flows.{put, all_put, is_marked, all_marked};

use std::alloc::Global;
use tl_base::{List, NoMemory};

/// So many groups with nothing in them.
pub fn no_groups(alloc: Global, count: usize) -> Result<Vec<List<usize>>, NoMemory>
    ensures { IfOk result (λ groups. groups.items ≡ replicate count []) }
{
    let mut groups = Vec::new(alloc);
    for _ in 0..count {
        groups.push(List::new(alloc))?;
    }
    Ok(groups)
}

/// Puts a number into a group, if there is that group.
pub fn put(groups: &mut Vec<List<usize>>, k: usize, x: usize) -> Result<(), NoMemory>
    ensures { OnOk result (groups.new.items ≡ put k x groups.old.items) }
{
    if k < groups.len() {
        groups[k].push(x)?;
    }
    Ok(())
}

/// Puts a number into several groups.
pub fn put_all(groups: &mut Vec<List<usize>>, ks: &[u64], x: usize) -> Result<(), NoMemory>
    ensures { OnOk result (groups.new.items ≡ all_put ks.now x groups.old.items) }
{
    for k in ks {
        put(groups, *k as usize, x)?;
    }
    Ok(())
}

/// So many marks, which no turn set.
pub fn no_marks(alloc: Global, count: usize) -> Result<Vec<usize>, NoMemory>
    ensures { IfOk result (λ marks. marks.items ≡ replicate count 0) }
{
    Ok(vec![in alloc; 0; count]?)
}

/// Whether the mark of a number is that of a turn.
pub fn is_marked(marks: &[usize], k: usize, turn: usize) -> bool
    ensures { result ≡ is_marked marks.now k turn }
{
    if k < marks.len() {
        marks[k] == turn
    } else {
        false
    }
}

/// Sets the mark of a number, if it has one.
pub fn mark(marks: &mut Vec<usize>, k: usize, turn: usize)
    ensures { marks.new.items ≡ slice_set marks.old.items k turn }
{
    if k < marks.len() {
        marks[k] = turn;
    }
}

/// Sets the marks of several numbers.
pub fn mark_all(marks: &mut Vec<usize>, ks: &[usize], turn: usize)
    ensures { marks.new.items ≡ all_marked ks.now turn marks.old.items }
{
    for k in ks {
        mark(marks, *k, turn);
    }
}

// Locals and their cells.

ghost use Rattle.std.specs.Prelude.{◌≡◌, ◌+◌, IfOk, OnOk};
ghost use Rattle.lua_table.specs.Heap.{cell_at};
ghost use Rattle.lua_table.specs.Keeping.{KeepsHeap};
ghost use Rattle.lua_table.specs.Cells.{declare, declare_all, values_from, with_cells, with_local};

use crate::values::split_values;
use lua_table::Heap;
use lua_table::cells::local_cell;
use lua_value::{Value, Values};
use tl_base::{CellId, EnvId, NoMemory};

/// Sets a local.
pub fn set_local(heap: &mut Heap, env: EnvId, depth: u32, position: u32, value: Value)
    ensures { heap.new ≡ with_local heap.old env depth position value }
{
    let cell = local_cell(heap, env, depth, position);
    heap.set_cell(cell, value);
}

/// Declares a local with a value.
#[inline(always)]
pub fn declare(heap: &mut Heap, env: EnvId, value: Value) -> Result<(), NoMemory>
    ensures ok { OnOk result (heap.new ≡ declare env value heap.old) }
    ensures kept { OnOk result (KeepsHeap heap.old heap.new) }
{
    let cell = heap.new_cell(value)?;
    heap.declare(env, cell)?;
    Ok(())
}

/// Declares so many locals with these values, and nil where there are no more.
#[tactic(auto, using(crate::proofs::Declaring::declare_next, lua_table::proofs::Keeping::keeps_then))]
pub fn declare_all(
    heap: &mut Heap,
    count: usize,
    env: EnvId,
    values: &[Value],
) -> Result<(), NoMemory>
    ensures ok { OnOk result (heap.new ≡ declare_all count env values.now heap.old) }
    ensures kept { OnOk result (KeepsHeap heap.old heap.new) }
{
    let mut rest = values;
    'names: for _ in 0..count {
        let (value, others) = split_values(rest);
        declare(heap, env, value)?;
        rest = others;
    }
    Ok(())
}

/// Puts values into fresh cells.
#[tactic(auto, using(crate::proofs::Declaring::cells_end))]
pub fn with_cells(heap: &mut Heap, values: &[Value]) -> Result<(), NoMemory>
    ensures ok { OnOk result (heap.new ≡ with_cells values.now heap.old) }
    ensures kept { OnOk result (KeepsHeap heap.old heap.new) }
{
    'values: for value in values {
        heap.new_cell(*value)?;
    }
    Ok(())
}

/// What the cell holds that is so many behind another.
#[tactic(auto, using(crate::proofs::Declaring::past_cells))]
fn cell_behind(heap: &Heap, cell: CellId, more: u64) -> Value
    ensures { result ≡ cell_at heap.now (record { 0 = cell.0 + more }) }
{
    // Past the last cell there are none.
    let end = heap.next_cell();
    if end.0.saturating_sub(more) <= cell.0 {
        return Value::Nil;
    }
    heap.cell(CellId(cell.0 + more))
}

/// What so many cells hold, from one on.
#[tactic(auto, using(crate::proofs::Declaring::values_more))]
pub fn values_from(heap: &Heap, cell: CellId, count: u64) -> Result<Values, NoMemory>
    ensures { IfOk result (λ values. values ≡ values_from heap.now cell count) }
{
    let mut values = Values::new(heap.allocator());
    'cells: for i in 0..count {
        values.push(cell_behind(heap, cell, i))?;
    }
    Ok(values)
}

// Locals and their cells.

ghost use Rattle.std.specs.Prelude.{◌≡◌};
ghost use Rattle.lua_table.specs.Cells.{env_out, local_cell, local_value};

use crate::heap::Heap;
use lua_value::Value;
use tl_base::{CellId, EnvId};

/// The environment so many steps outwards.
#[tactic(auto, using(crate::proofs::Locals::out_next))]
fn env_out(heap: &Heap, env: EnvId, depth: u32) -> EnvId
    ensures { result ≡ env_out heap.now env depth }
{
    let mut env = env;
    let mut left = depth;
    'steps: while left > 0 {
        if let Some(outer) = heap.outer(env) {
            env = outer;
        }
        left -= 1;
    }
    env
}

/// The cell at a position of the environment so many steps outwards. Where there is none it is the next one.
#[inline(always)]
pub fn local_cell(heap: &Heap, env: EnvId, depth: u32, position: u32) -> CellId
    ensures { result ≡ local_cell heap.now env depth position }
{
    let env = env_out(heap, env, depth);
    match heap.declared(env).get(position as usize) {
        Some(cell) => *cell,
        None => heap.next_cell(),
    }
}

/// The value of a local.
#[inline(always)]
pub fn local(heap: &Heap, env: EnvId, depth: u32, position: u32) -> Value
    ensures { result ≡ local_value heap.now env depth position }
{
    heap.cell(local_cell(heap, env, depth, position))
}

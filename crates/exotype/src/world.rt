// The world of a staging.

ghost use Rattle.std.specs.Prelude.{◌≡◌, ◌≤◌, IfOk};
ghost use Rattle.tl_base.specs.declared.limits.TheConstants.Limits.{MAX_MEMORY};
ghost use Rattle.exotype.specs.World.{opening};

use crate::exports::Exports;
use crate::kept::Kept;
use lua_table::Heap;
use std::alloc::Global;
use std::marker::Model;
use terra_term::Store;
use terra_types::Types;
use tl_base::{Bytes, NoMemory};

/// What a staging has made so far: Lua's heap, Terra's store, what is kept of types, and the exports; with the bytes of memory
/// that a run of its program has, which are at most 67,108,864.
///
/// Contracts see each part as its lists. Nothing that was made is taken away. After a `NoMemory` of a call that makes more than one
/// thing, some of them may be there: a staging ends with it.
#[derive(Drop)]
pub struct World {
    pub heap: Heap,
    pub store: Store,
    pub kept: Kept,
    pub exports: Exports,
    memory: u64,
}

impl Model for World {
    ghost use Rattle.std.specs.Prelude.{◌≤◌};
    ghost use Rattle.tl_base.specs.declared.limits.TheConstants.Limits.{MAX_MEMORY};
    ghost use Rattle.exotype.specs.World.{StageState};

    ghost Value = { StageState };

    ghost view = { λ w. record { heap = w.heap; store = w.store; kept = w.kept; exports = w.exports; memory = w.memory } };

    ghost invariant = { λ w. w.memory ≤ MAX_MEMORY };
}

impl World {
    /// A world with nothing in it but these types, whose program will have so many bytes of memory.
    pub fn new(alloc: Global, types: Types, memory: u64) -> World
        requires { memory ≤ MAX_MEMORY }
        ensures { result ≡ opening types memory }
    {
        World {
            heap: Heap::new(alloc),
            store: Store::new(alloc, types),
            kept: Kept::new(alloc),
            exports: Exports::new(alloc),
            memory,
        }
    }

    /// The bytes of memory that a run has.
    pub fn memory(&self) -> u64
        ensures same { result ≡ self.now.memory }
        ensures within { result ≤ MAX_MEMORY }
    {
        self.memory
    }

    /// What the staging printed.
    pub fn printed(&self) -> Result<Bytes, NoMemory>
        ensures { IfOk result (λ text. text ≡ self.now.heap.printed) }
    {
        Bytes::from_slice(self.heap.allocator(), self.heap.printed())
    }
}

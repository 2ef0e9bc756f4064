// What runs print to.

ghost use Rattle.std.specs.Prelude.{◌≡◌, ◌<◌, ◌≤◌, [], length, take, Ok, Some, IfOk, OnErr};
ghost use Rattle.tl_base.specs.Outside.{IsRisen, with_back};

use std::alloc::Global;
use tl_base::{Bytes, Failed, NoMemory, Sink};

/// A sink that grows: it takes all bytes for which there is memory, and counts a fault where there is none.
#[derive(Drop)]
pub struct Growing {
    bytes: Bytes,
    faults: u64,
}

impl Growing {
    /// A sink that took nothing.
    pub fn new(alloc: Global) -> Growing
        ensures { result.bytes ≡ [] }
    {
        Growing {
            bytes: Bytes::new(alloc),
            faults: 0,
        }
    }

    /// The bytes that it took.
    pub fn into_bytes(self) -> Bytes
        ensures { result ≡ self.bytes }
    {
        self.bytes
    }
}

impl Sink for Growing {
    ghost taken = { λ s. Some s.bytes };

    ghost faults = { λ s. s.faults };

    fn write(&mut self, piece: &[u8]) -> Result<usize, Failed> {
        match self.bytes.push_all(piece) {
            Ok(()) => Ok(piece.len()),
            Err(NoMemory) => {
                self.faults = self.faults.saturating_add(1);
                Err(Failed)
            }
        }
    }
}

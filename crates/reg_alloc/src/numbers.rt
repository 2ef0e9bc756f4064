// The numbers of places, where blocks begin and end.

ghost use Rattle.std.specs.Prelude.{◌≡◌, ◌+◌, ◌<◌, ◌^◌, length, IfOk};
ghost use Rattle.reg_alloc.specs.Noted.{ArePlaces};

use std::alloc::Global;
use tac_form::FlowBlock;
use tl_base::NoMemory;

/// No memory has code of so many places.
const TOO_MANY: usize = 1 << 62;

/// The numbers of the first and the last place of each block, and how many places there are.
#[derive(Drop)]
pub struct Places {
    pub begins: Vec<usize>,
    pub exits: Vec<usize>,
    pub count: usize,
}

/// The number of a block's last place, by that of its first.
fn exit_number(place: usize, steps: usize) -> Result<usize, NoMemory>
    ensures number { IfOk result (λ last. last ≡ place + steps) }
    ensures small { IfOk result (λ last. last < 2 ^ 63) }
{
    if place < TOO_MANY && steps < TOO_MANY {
        Ok(place + steps)
    } else {
        Err(NoMemory)
    }
}

pub fn places_of(alloc: Global, graph: &[FlowBlock]) -> Result<Places, NoMemory>
    ensures { IfOk result (λ places. ArePlaces graph.now places.begins.items places.exits.items places.count) }
{
    let mut begins = Vec::new(alloc);
    let mut exits = Vec::new(alloc);
    let mut count = 0;
    for block in graph {
        let last = exit_number(count, block.steps.len())?;
        begins.push(count)?;
        exits.push(last)?;
        count = last + 1;
    }
    Ok(Places {
        begins,
        exits,
        count,
    })
}

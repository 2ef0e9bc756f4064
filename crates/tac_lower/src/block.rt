// Blocks from code in a line.

ghost use Rattle.std.specs.Prelude.{◌≡◌, map, length, IfOk};
ghost use Rattle.tac_lower.specs.Items.{backward, blocks_of, exit_of, onward};
ghost use Rattle.tac_lower.specs.Data.{ending_of, item_of};

use crate::item::{Ending, Item};
use std::alloc::Global;
use std::mem;
use tac_form::{Block, Edge, Exit, InstructionList};
use tl_base::NoMemory;

/// The way to a later block.
fn onward(block: u64) -> Edge
    ensures { result ≡ onward block }
{
    Edge {
        block,
        counts: false,
    }
}

/// The way back, after which a loop goes on.
fn backward(block: u64) -> Edge
    ensures { result ≡ backward block }
{
    Edge {
        block,
        counts: true,
    }
}

/// The exit of a block that ends so.
fn exit_of(n: u64, ending: Ending) -> Result<Exit, NoMemory>
    ensures { IfOk result (λ e. e ≡ exit_of 0 n (ending_of ending)) }
{
    let next = n.checked_add(1).ok_or(NoMemory)?;
    match ending {
        Ending::Skips(k) => {
            let to = next.checked_add(k).ok_or(NoMemory)?;
            Ok(Exit::Jump(onward(to)))
        }
        Ending::Tests(a, k) => {
            let to = next.checked_add(k).ok_or(NoMemory)?;
            Ok(Exit::Branch(a, onward(next), onward(to)))
        }
        Ending::Repeats(k) => Ok(Exit::Jump(backward(n.saturating_sub(k)))),
        Ending::RepeatsUnless(a, k) => {
            let back = backward(n.saturating_sub(k));
            Ok(Exit::Branch(a, onward(next), back))
        }
        Ending::Leaves => Ok(Exit::Jump(onward(0))),
        Ending::Gives(v) => Ok(Exit::Return(v)),
        Ending::Fails(kind, at) => Ok(Exit::Fail(kind, at)),
    }
}

/// The blocks of a function's code.
pub(crate) fn blocks_of(alloc: Global, items: Vec<Item>) -> Result<Vec<Block>, NoMemory>
    ensures { IfOk result (λ bs. bs.items ≡ blocks_of (map item_of items.items)) }
{
    let mut blocks = Vec::new(alloc);
    let mut code = Vec::new(alloc);
    for item in items {
        match item {
            Item::Does(instruction) => code.push(instruction)?,
            Item::Ends(ending) => {
                let exit = exit_of(blocks.len() as u64, ending)?;
                let ended = mem::replace(&mut code, Vec::new(alloc));
                let instructions = InstructionList::from_vec(ended);
                blocks.push(Block { instructions, exit })?;
            }
        }
    }
    Ok(blocks)
}

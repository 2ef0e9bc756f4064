// Code without the blocks that no way leads to.

ghost use Rattle.std.specs.Prelude.{◌≡◌, ◌<◌, ◌≤◌, ◌^◌, if◌then◌else◌, [], OnOk, IfOk};
ghost use Rattle.tac_copies.specs.Kept.{is_among, reached_numbers, with_ahead, with_back, with_backs, with_next, with_one, with_one_if};
ghost use Rattle.tac_copies.specs.Reached.{is_reached, passed, passed_where, reached_blocks, reached_code, up_to_last};

use crate::copied::{copied_block, with_blocks};
use indexmap::IndexSet;
use std::alloc::Global;
use std::marker::Model;
use tac_form::{Block, Edge, Exit, InstructionList, Tac};
use tl_base::NoMemory;

/// Code without the blocks that no way leads to: those behind the last one that is reached go, and the others only go on to the next.
#[tactic(auto, unfolding(crate::specs::Reached::reached_code))]
pub fn reached(alloc: Global, code: &Tac) -> Result<Tac, NoMemory>
    ensures { IfOk result (λ made. made ≡ reached_code code.now) }
{
    let reached = BlockNumbers::of(alloc, code)?;
    let blocks = reached_blocks(alloc, &reached, code.blocks.as_slice())?;
    with_blocks(alloc, code, blocks)
}

fn reached_blocks(
    alloc: Global,
    reached: &BlockNumbers,
    blocks: &[Block],
) -> Result<Vec<Block>, NoMemory>
    ensures { IfOk result (λ made. made.items ≡ reached_blocks (is_among reached.now) blocks.now) }
{
    let count = reached.up_to_last(blocks.len());
    passed_where(alloc, reached, &blocks[..count])
}

/// The blocks, of which those that aren't reached only go on to the next.
#[tactic(auto, using(crate::proofs::ReachedNumbers::passed_next))]
fn passed_where(
    alloc: Global,
    reached: &BlockNumbers,
    blocks: &[Block],
) -> Result<Vec<Block>, NoMemory>
    ensures { IfOk result (λ made. made.items ≡ passed_where (is_among reached.now) 0 blocks.now) }
{
    let mut made = Vec::new(alloc);
    for (at, block) in blocks.iter().enumerate() {
        made.push(passed_unless(alloc, reached, at, block)?)?;
    }
    Ok(made)
}

/// A block that is reached, or else one that only goes on to the next.
fn passed_unless(
    alloc: Global,
    reached: &BlockNumbers,
    at: usize,
    block: &Block,
) -> Result<Block, NoMemory>
    requires { at < 2 ^ 63 }
    ensures { IfOk result (λ made. made ≡ (if is_among reached.now at then block.now else passed at)) }
{
    if reached.has(at as u64) {
        copied_block(alloc, block)
    } else {
        Ok(passed(alloc, at as u64))
    }
}

/// A block that only goes on to the next.
fn passed(alloc: Global, at: u64) -> Block
    requires { at < 2 ^ 63 }
    ensures { result ≡ passed at }
{
    Block {
        instructions: InstructionList::from_vec(Vec::new(alloc)),
        exit: Exit::Jump(Edge {
            block: at + 1,
            counts: false,
        }),
    }
}

/// The numbers of blocks that are reached. Contracts see the list.
#[derive(Drop)]
pub(crate) struct BlockNumbers {
    blocks: IndexSet<u64>,
}

impl Model for BlockNumbers {
    ghost use Rattle.std.specs.Prelude.{ℕ, List};

    ghost Value = { List ℕ };

    ghost view = { λ r. r.blocks.keys };
}

impl BlockNumbers {
    /// Those of code: the first, those to which a block leads back, and those to which an earlier one leads that is reached.
    #[tactic(auto, using(crate::proofs::ReachedNumbers::all_numbers))]
    fn of(alloc: Global, code: &Tac) -> Result<BlockNumbers, NoMemory>
        ensures { IfOk result (λ reached. is_among reached ≡ is_reached code.now) }
    {
        let mut reached = BlockNumbers::none(alloc);
        reached.put(0)?;
        reached.put_backs(code.blocks.as_slice())?;
        reached.put_ahead(code.blocks.as_slice())?;
        Ok(reached)
    }

    pub(crate) fn none(alloc: Global) -> BlockNumbers
        ensures { result ≡ [] }
    {
        BlockNumbers {
            blocks: IndexSet::new(alloc),
        }
    }

    /// With those to which a block leads back.
    #[tactic(auto, using(crate::proofs::ReachedNumbers::backs_next))]
    fn put_backs(&mut self, blocks: &[Block]) -> Result<(), NoMemory>
        ensures { OnOk result (self.new ≡ with_backs 0 self.old blocks.now) }
    {
        for (from, block) in blocks.iter().enumerate() {
            self.put_back(from as u64, block.exit)?;
        }
        Ok(())
    }

    /// With those to which an exit leads back.
    fn put_back(&mut self, from: u64, exit: Exit) -> Result<(), NoMemory>
        ensures { OnOk result (self.new ≡ with_back from self.old exit) }
    {
        match exit {
            Exit::Jump(edge) => self.put_if(edge.block <= from, edge.block),
            Exit::Branch(_, edge, other) => {
                self.put_if(edge.block <= from, edge.block)?;
                self.put_if(other.block <= from, other.block)
            }
            _ => Ok(()),
        }
    }

    /// With those to which each block leads that is reached, one after the other.
    #[tactic(auto, using(crate::proofs::ReachedNumbers::ahead_next))]
    fn put_ahead(&mut self, blocks: &[Block]) -> Result<(), NoMemory>
        ensures { OnOk result (self.new ≡ with_ahead 0 self.old blocks.now) }
    {
        for (from, block) in blocks.iter().enumerate() {
            self.put_next_if_reached(from as u64, block.exit)?;
        }
        Ok(())
    }

    fn put_next_if_reached(&mut self, from: u64, exit: Exit) -> Result<(), NoMemory>
        ensures { OnOk result (self.new ≡ (if is_among self.old from then with_next self.old exit else self.old)) }
    {
        if self.has(from) {
            self.put_next(exit)
        } else {
            Ok(())
        }
    }

    /// With all to which an exit leads.
    fn put_next(&mut self, exit: Exit) -> Result<(), NoMemory>
        ensures { OnOk result (self.new ≡ with_next self.old exit) }
    {
        match exit {
            Exit::Jump(edge) => self.put(edge.block),
            Exit::Branch(_, edge, other) => {
                self.put(edge.block)?;
                self.put(other.block)
            }
            _ => Ok(()),
        }
    }

    pub(crate) fn put_if(&mut self, reached: bool, block: u64) -> Result<(), NoMemory>
        ensures { OnOk result (self.new ≡ with_one_if reached self.old block) }
    {
        if reached { self.put(block) } else { Ok(()) }
    }

    fn put(&mut self, block: u64) -> Result<(), NoMemory>
        ensures { OnOk result (self.new ≡ with_one self.old block) }
    {
        self.blocks.insert(block)?;
        Ok(())
    }

    pub(crate) fn has(&self, block: u64) -> bool
        ensures { result ≡ is_among self.now block }
    {
        self.blocks.contains(&block)
    }

    /// How many of so many blocks there are up to the last that is reached.
    #[tactic(auto, using(crate::proofs::ReachedBlocks::last_next))]
    fn up_to_last(&self, count: usize) -> usize
        ensures last { result ≡ up_to_last (is_among self.now) count }
        ensures most { result ≤ count }
    {
        let mut last = 0;
        for at in 0..count {
            if self.has(at as u64) {
                last = at + 1;
            }
        }
        last
    }
}

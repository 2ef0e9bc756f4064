// The temporaries that code reads.

ghost use Rattle.std.specs.Prelude.{◌≡◌, ◌++◌, OnOk, IfOk};
ghost use Rattle.tac_copies.specs.Kept.{instructions_reads, block_reads, blocks_reads, code_reads};

use std::alloc::Global;
use tac_form::reads::{push_exit_reads, push_instruction_reads};
use tac_form::{Block, Instruction, Tac};
use tl_base::NoMemory;

/// The temporaries that code reads, one for each operand, in its order.
pub(crate) fn code_reads(alloc: Global, code: &Tac) -> Result<Vec<u64>, NoMemory>
    ensures { IfOk result (λ reads. reads.items ≡ code_reads code.now) }
{
    let mut reads = Vec::new(alloc);
    push_blocks(&mut reads, code.blocks.as_slice())?;
    Ok(reads)
}

fn push_blocks(reads: &mut Vec<u64>, blocks: &[Block]) -> Result<(), NoMemory>
    ensures { OnOk result (reads.new.items ≡ reads.old.items ++ blocks_reads blocks.now) }
{
    for block in blocks {
        push_block(reads, block)?;
    }
    Ok(())
}

fn push_block(reads: &mut Vec<u64>, block: &Block) -> Result<(), NoMemory>
    ensures { OnOk result (reads.new.items ≡ reads.old.items ++ block_reads block.now) }
{
    push_instructions(reads, block.instructions.as_slice())?;
    push_exit_reads(reads, block.exit)
}

fn push_instructions(reads: &mut Vec<u64>, instructions: &[Instruction]) -> Result<(), NoMemory>
    ensures { OnOk result (reads.new.items ≡ reads.old.items ++ instructions_reads instructions.now) }
{
    for instruction in instructions {
        push_instruction_reads(reads, instruction)?;
    }
    Ok(())
}

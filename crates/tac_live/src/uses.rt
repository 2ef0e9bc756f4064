// The flow graph is made from the code.

ghost use Rattle.std.specs.Prelude.{◌≡◌, IfOk};
ghost use Rattle.tac_form.specs.Graph.{destination_write, instruction_write};
ghost use Rattle.tac_form.specs.Graph.{exit_reads, exit_next, step_of, steps_of, block_of, graph_of};

use std::alloc::Global;
use tac_form::reads::{push_exit_reads, push_instruction_reads};
use tac_form::{Block, Destination, Exit, FlowBlock, Instruction, Step, StepList, Tac, TempList};
use tl_base::NoMemory;

fn written_by_call(to: Destination) -> Option<u64>
    ensures { result ≡ destination_write to }
{
    match to {
        Destination::Temp(t) => Some(t),
        Destination::Area(_) => None,
        Destination::Nothing => None,
    }
}

fn written_by(instruction: &Instruction) -> Option<u64>
    ensures { result ≡ instruction_write instruction.now }
{
    match instruction {
        Instruction::Compute(d, _, _, _, _) => Some(*d),
        Instruction::Copy(d, _) => Some(*d),
        Instruction::Locate(d, _) => Some(*d),
        Instruction::Load(d, _, _) => Some(*d),
        Instruction::Call(to, _, _, _) => written_by_call(*to),
        Instruction::CallValue(to, _, _, _, _) => written_by_call(*to),
        Instruction::Alloc(d, _) => Some(*d),
        Instruction::TestDivisor(_, _) => None,
        Instruction::Store(_, _, _) => None,
        Instruction::Move(_, _, _) => None,
        Instruction::Clear(_, _) => None,
        Instruction::PutByte(_) => None,
        Instruction::Write(_, _, _) => None,
    }
}

fn step(alloc: Global, instruction: &Instruction) -> Result<Step, NoMemory>
    ensures { IfOk result (λ s. s ≡ step_of instruction.now) }
{
    let mut reads = Vec::new(alloc);
    push_instruction_reads(&mut reads, instruction)?;
    Ok(Step {
        reads: TempList::from_vec(reads),
        write: written_by(instruction),
    })
}

fn steps(alloc: Global, instructions: &[Instruction]) -> Result<StepList, NoMemory>
    ensures { IfOk result (λ s. s ≡ steps_of instructions.now) }
{
    let mut steps = Vec::new(alloc);
    for instruction in instructions {
        steps.push(step(alloc, instruction)?)?;
    }
    Ok(StepList::from_vec(steps))
}

fn reads_at_exit(alloc: Global, exit: Exit) -> Result<TempList, NoMemory>
    ensures { IfOk result (λ l. l ≡ exit_reads exit) }
{
    let mut reads = Vec::new(alloc);
    push_exit_reads(&mut reads, exit)?;
    Ok(TempList::from_vec(reads))
}

fn blocks_after(alloc: Global, exit: Exit) -> Result<TempList, NoMemory>
    ensures { IfOk result (λ l. l ≡ exit_next exit) }
{
    let mut next = Vec::new(alloc);
    match exit {
        Exit::Jump(edge) => next.push(edge.block)?,
        Exit::Branch(_, edge, other) => {
            next.push(edge.block)?;
            next.push(other.block)?;
        }
        Exit::Return(_) => {}
        Exit::Fail(_, _) => {}
    }
    Ok(TempList::from_vec(next))
}

fn flow_block(alloc: Global, block: &Block) -> Result<FlowBlock, NoMemory>
    ensures { IfOk result (λ b. b ≡ block_of block.now) }
{
    Ok(FlowBlock {
        steps: steps(alloc, block.instructions.as_slice())?,
        reads: reads_at_exit(alloc, block.exit)?,
        next: blocks_after(alloc, block.exit)?,
    })
}

/// The flow graph of code, block by block.
pub fn flow_graph(alloc: Global, code: &Tac) -> Result<Vec<FlowBlock>, NoMemory>
    ensures { IfOk result (λ g. g.items ≡ graph_of code.now) }
{
    let mut graph = Vec::new(alloc);
    for block in code.blocks.as_slice() {
        graph.push(flow_block(alloc, block)?)?;
    }
    Ok(graph)
}

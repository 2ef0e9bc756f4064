// Parts of code that stay as they are.

ghost use Rattle.std.specs.Prelude.{◌≡◌, IfOk};

use crate::named::{Names, named_in};
use std::alloc::Global;
use tac_form::{
    Block, BlockList, Destination, DestinationList, Instruction, InstructionList, Signature,
    SizeList, Tac, TypeIds,
};
use tl_base::{NoMemory, TypeId};

/// The same code, with other blocks.
pub(crate) fn with_blocks(alloc: Global, code: &Tac, blocks: Vec<Block>) -> Result<Tac, NoMemory>
    ensures { IfOk result (λ made. made ≡ record code.now { blocks = blocks.items }) }
{
    let parameters = copied_destinations(alloc, code.parameters.as_slice())?;
    with_parameters(alloc, code, parameters, blocks)
}

/// The same code, with other blocks and parameters that go elsewhere.
pub(crate) fn with_parameters(
    alloc: Global,
    code: &Tac,
    parameters: Vec<Destination>,
    blocks: Vec<Block>,
) -> Result<Tac, NoMemory>
    ensures { IfOk result (λ made. made ≡ record code.now { parameters = parameters.items; blocks = blocks.items }) }
{
    Ok(Tac {
        nodes: code.nodes,
        signature: copied_signature(alloc, &code.signature)?,
        place: code.place,
        counts: code.counts,
        frame: code.frame,
        temps: code.temps,
        areas: copied_sizes(alloc, code.areas.as_slice())?,
        parameters: DestinationList::from_vec(parameters),
        blocks: BlockList::from_vec(blocks),
    })
}

pub(crate) fn copied_signature(alloc: Global, signature: &Signature) -> Result<Signature, NoMemory>
    ensures { IfOk result (λ made. made ≡ signature.now) }
{
    Ok(Signature {
        params: copied_types(alloc, signature.params.as_slice())?,
        result: signature.result,
    })
}

fn copied_types(alloc: Global, types: &[TypeId]) -> Result<TypeIds, NoMemory>
    ensures { IfOk result (λ made. made ≡ types.now) }
{
    let mut items = Vec::new(alloc);
    items.extend_from_slice(types)?;
    Ok(TypeIds::from_vec(items))
}

fn copied_sizes(alloc: Global, sizes: &[u64]) -> Result<SizeList, NoMemory>
    ensures { IfOk result (λ made. made ≡ sizes.now) }
{
    let mut items = Vec::new(alloc);
    items.extend_from_slice(sizes)?;
    Ok(SizeList::from_vec(items))
}

pub(crate) fn copied_destinations(
    alloc: Global,
    destinations: &[Destination],
) -> Result<Vec<Destination>, NoMemory>
    ensures { IfOk result (λ made. made.items ≡ destinations.now) }
{
    let mut items = Vec::new(alloc);
    items.extend_from_slice(destinations)?;
    Ok(items)
}

pub(crate) fn copied_block(alloc: Global, block: &Block) -> Result<Block, NoMemory>
    ensures { IfOk result (λ made. made ≡ block.now) }
{
    let instructions = copied_instructions(alloc, block.instructions.as_slice())?;
    Ok(Block {
        instructions: InstructionList::from_vec(instructions),
        exit: block.exit,
    })
}

pub(crate) fn copied_instructions(
    alloc: Global,
    instructions: &[Instruction],
) -> Result<Vec<Instruction>, NoMemory>
    ensures { IfOk result (λ made. made.items ≡ instructions.now) }
{
    let mut made = Vec::new(alloc);
    for instruction in instructions {
        made.push(copied_instruction(alloc, instruction)?)?;
    }
    Ok(made)
}

fn copied_instruction(alloc: Global, instruction: &Instruction) -> Result<Instruction, NoMemory>
    ensures { IfOk result (λ made. made ≡ instruction.now) }
{
    let own = Names::new(alloc);
    let copied = named_in(alloc, &own, instruction)?;
    Ok(copied)
}

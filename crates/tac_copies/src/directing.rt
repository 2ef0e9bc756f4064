// Results that go at once to where the next instruction copies them.

ghost use Rattle.std.specs.Prelude.{◌≡◌, IfOk, map};
ghost use Rattle.tac_copies.specs.Directed.{directed, directed_all, directed_block, directed_code, makes};
ghost use Rattle.tac_copies.specs.Kept.{copied_to, told_once};

use crate::copied::with_blocks;
use crate::named::{Names, named_in};
use crate::read_once::ReadOnce;
use std::alloc::Global;
use tac_form::{Block, Instruction, InstructionList, Operand, Tac};
use tl_base::NoMemory;

/// Code that puts a result at once to where the next instruction copies it, where nothing else reads the temporary between.
#[tactic(auto, unfolding(crate::specs::Directed::directed_code))]
pub fn directed(alloc: Global, code: &Tac) -> Result<Tac, NoMemory>
    ensures { IfOk result (λ made. made ≡ directed_code code.now) }
{
    let once = ReadOnce::of(alloc, code)?;
    let blocks = directed_blocks(alloc, &once, code.blocks.as_slice())?;
    with_blocks(alloc, code, blocks)
}

fn directed_blocks(alloc: Global, once: &ReadOnce, blocks: &[Block]) -> Result<Vec<Block>, NoMemory>
    ensures { IfOk result (λ made. made.items ≡ map (directed_block (told_once once.now)) blocks.now) }
{
    let mut made = Vec::new(alloc);
    for block in blocks {
        made.push(directed_block(alloc, once, block)?)?;
    }
    Ok(made)
}

fn directed_block(alloc: Global, once: &ReadOnce, block: &Block) -> Result<Block, NoMemory>
    ensures { IfOk result (λ made. made ≡ directed_block (told_once once.now) block.now) }
{
    Ok(Block {
        instructions: directed_all(alloc, once, block.instructions.as_slice())?,
        exit: block.exit,
    })
}

fn directed_all(
    alloc: Global,
    once: &ReadOnce,
    instructions: &[Instruction],
) -> Result<InstructionList, NoMemory>
    ensures { IfOk result (λ made. made ≡ directed_all (told_once once.now) instructions.now) }
{
    let own = Names::new(alloc);
    let mut made = Vec::new(alloc);
    let mut at = 0;
    while at < instructions.len() {
        let instruction = named_in(alloc, &own, &instructions[at])?;
        match copied_to(once, &instruction, &instructions[at + 1..]) {
            Some(x) => {
                made.push(redirected(x, instruction))?;
                at += 2;
            }
            None => {
                made.push(instruction)?;
                at += 1;
            }
        }
    }
    Ok(InstructionList::from_vec(made))
}

/// Where the first of the instructions behind copies the result, if that is read there alone.
fn copied_to(once: &ReadOnce, instruction: &Instruction, behind: &[Instruction]) -> Option<u64>
    ensures { result ≡ copied_to (told_once once.now) instruction.now behind.now }
{
    match behind.first() {
        Some(Instruction::Copy(x, Operand::Temp(t))) if makes(*t, instruction) && once.has(*t) => {
            Some(*x)
        }
        _ => None,
    }
}

/// Whether the instruction works out a word and puts it to the temporary.
fn makes(t: u64, instruction: &Instruction) -> bool
    ensures { result ≡ makes t instruction.now }
{
    match instruction {
        Instruction::Compute(d, _, _, _, _) => *d == t,
        Instruction::Locate(d, _) => *d == t,
        Instruction::Load(d, _, _) => *d == t,
        Instruction::Alloc(d, _) => *d == t,
        _ => false,
    }
}

/// The same instruction, with its word put to another temporary.
fn redirected(x: u64, instruction: Instruction) -> Instruction
    ensures { result ≡ directed x instruction }
{
    match instruction {
        Instruction::Compute(_, op, form, a, b) => Instruction::Compute(x, op, form, a, b),
        Instruction::Locate(_, offset) => Instruction::Locate(x, offset),
        Instruction::Load(_, form, spot) => Instruction::Load(x, form, spot),
        Instruction::Alloc(_, a) => Instruction::Alloc(x, a),
        other => other,
    }
}

// What is copied is read where it was copied from.

ghost use Rattle.std.specs.Prelude.{◌≡◌, IfOk, map};
ghost use Rattle.tac_copies.specs.Kept.{gone, told_once};
ghost use Rattle.tac_copies.specs.Shortened.{few, goes, reads_first, shortened_block, shortened_code};
ghost use Rattle.tac_form.specs.Graph.{operand_reads, spot_reads, part_reads, parts_reads, instruction_reads, instruction_write};
ghost use Rattle.tac_form.specs.Graph.{exit_reads};
ghost use Rattle.tac_form.specs.Live.{has, is_written};

use crate::copied::with_blocks;
use crate::named::{Names, named_exit, named_in};
use crate::read_once::ReadOnce;
use std::alloc::Global;
use tac_form::{
    Address, Block, Destination, Exit, Instruction, InstructionList, Operand, Part, Spot, Tac,
};
use tl_base::NoMemory;

/// How many instructions behind a copy are looked at.
const FEW: usize = 16;

/// Code that reads what is copied where it was copied from: a copy goes whose temporary is read once, shortly behind it, before either
/// temporary is written.
#[tactic(auto, unfolding(crate::specs::Shortened::shortened_code))]
pub fn shortened(alloc: Global, code: &Tac) -> Result<Tac, NoMemory>
    ensures { IfOk result (λ made. made ≡ shortened_code code.now) }
{
    let once = ReadOnce::of(alloc, code)?;
    let blocks = shortened_blocks(alloc, &once, code.blocks.as_slice())?;
    with_blocks(alloc, code, blocks)
}

fn shortened_blocks(
    alloc: Global,
    once: &ReadOnce,
    blocks: &[Block],
) -> Result<Vec<Block>, NoMemory>
    ensures { IfOk result (λ made. made.items ≡ map (shortened_block (told_once once.now)) blocks.now) }
{
    let mut made = Vec::new(alloc);
    for block in blocks {
        made.push(shortened_block(alloc, once, block)?)?;
    }
    Ok(made)
}

fn shortened_block(alloc: Global, once: &ReadOnce, block: &Block) -> Result<Block, NoMemory>
    ensures { IfOk result (λ made. made ≡ shortened_block (told_once once.now) block.now) }
{
    let instructions = block.instructions.as_slice();
    let mut names = Names::new(alloc);
    let mut made = Vec::new(alloc);
    for (at, instruction) in instructions.iter().enumerate() {
        let instruction = named_in(alloc, &names, instruction)?;
        match gone(once, &instruction, &instructions[at + 1..], block.exit) {
            Some((t, s)) => names.put(t, s)?,
            None => made.push(instruction)?,
        }
    }
    Ok(Block {
        instructions: InstructionList::from_vec(made),
        exit: named_exit(&names, block.exit),
    })
}

/// The temporaries of an instruction that is a copy that goes, with those behind it.
fn gone(
    once: &ReadOnce,
    instruction: &Instruction,
    behind: &[Instruction],
    exit: Exit,
) -> Option<(u64, u64)>
    ensures { result ≡ gone (told_once once.now) instruction.now behind.now exit }
{
    match instruction {
        Instruction::Copy(t, Operand::Temp(s)) if goes(once, *t, *s, behind, exit) => Some((
            *t, *s,
        )),
        _ => None,
    }
}

/// Whether a copy goes, by its temporaries.
fn goes(once: &ReadOnce, t: u64, s: u64, behind: &[Instruction], exit: Exit) -> bool
    ensures { result ≡ goes (told_once once.now) t s behind.now exit }
{
    once.has(t) && t != s && reads_first(t, s, behind, exit)
}

/// Whether t is read by one of the first few instructions, or by the exit behind them, before t or s is written.
fn reads_first(t: u64, s: u64, instructions: &[Instruction], exit: Exit) -> bool
    ensures { result ≡ reads_first few t s instructions.now exit }
{
    for (at, instruction) in instructions.iter().enumerate() {
        if at == FEW {
            return false;
        }
        if reads(instruction, t) {
            return true;
        }
        if writes(instruction, t) || writes(instruction, s) {
            return false;
        }
    }
    exit_reads(exit, t)
}

/// Whether the instruction reads the temporary.
pub(crate) fn reads(instruction: &Instruction, t: u64) -> bool
    ensures { result ≡ has (instruction_reads instruction.now) t }
{
    match instruction {
        Instruction::Compute(_, _, _, a, b) => operand_reads(*a, t) || operand_reads(*b, t),
        Instruction::TestDivisor(_, a) => operand_reads(*a, t),
        Instruction::Copy(_, a) => operand_reads(*a, t),
        Instruction::Locate(_, _) => false,
        Instruction::Load(_, _, spot) => spot_reads(*spot, t),
        Instruction::Store(spot, _, a) => spot_reads(*spot, t) || operand_reads(*a, t),
        Instruction::Move(to, from, _) => spot_reads(*to, t) || spot_reads(*from, t),
        Instruction::Clear(_, _) => false,
        Instruction::Call(_, _, _, arguments) => parts_read(arguments.as_slice(), t),
        Instruction::CallValue(_, _, _, a, arguments) => {
            operand_reads(*a, t) || parts_read(arguments.as_slice(), t)
        }
        Instruction::PutByte(a) => operand_reads(*a, t),
        Instruction::Write(_, a, b) => operand_reads(*a, t) || operand_reads(*b, t),
        Instruction::Alloc(_, a) => operand_reads(*a, t),
    }
}

/// Whether the instruction writes the temporary.
pub(crate) fn writes(instruction: &Instruction, t: u64) -> bool
    ensures { result ≡ is_written (instruction_write instruction.now) t }
{
    match instruction {
        Instruction::Compute(d, _, _, _, _) => *d == t,
        Instruction::Copy(d, _) => *d == t,
        Instruction::Locate(d, _) => *d == t,
        Instruction::Load(d, _, _) => *d == t,
        Instruction::Call(Destination::Temp(d), _, _, _) => *d == t,
        Instruction::CallValue(Destination::Temp(d), _, _, _, _) => *d == t,
        Instruction::Alloc(d, _) => *d == t,
        _ => false,
    }
}

pub(crate) fn exit_reads(exit: Exit, t: u64) -> bool
    ensures { result ≡ has (exit_reads exit) t }
{
    match exit {
        Exit::Jump(_) => false,
        Exit::Branch(a, _, _) => operand_reads(a, t),
        Exit::Return(part) => part_reads(part, t),
        Exit::Fail(_, _) => false,
    }
}

fn parts_read(parts: &[Part], t: u64) -> bool
    ensures { result ≡ has (parts_reads parts.now) t }
{
    for part in parts {
        if part_reads(*part, t) {
            return true;
        }
    }
    false
}

fn part_reads(part: Part, t: u64) -> bool
    ensures { result ≡ has (part_reads part) t }
{
    match part {
        Part::Word(a) => operand_reads(a, t),
        Part::Area(_) => false,
    }
}

fn spot_reads(spot: Spot, t: u64) -> bool
    ensures { result ≡ has (spot_reads spot) t }
{
    match spot {
        Spot::Region(_, Address::Word(a)) => operand_reads(a, t),
        Spot::Region(_, Address::Frame(_)) => false,
        Spot::Area(_, _) => false,
    }
}

fn operand_reads(operand: Operand, t: u64) -> bool
    ensures { result ≡ has (operand_reads operand) t }
{
    match operand {
        Operand::Temp(u) => u == t,
        Operand::Constant(_) => false,
    }
}

// Parameters that go at once to the temporaries of their variables.

ghost use Rattle.std.specs.Prelude.{◌≡◌, ◌||◌, ◌∷◌, ◌++◌, OnOk, IfOk, map};
ghost use Rattle.std.specs.List.{list_any};
ghost use Rattle.tac_copies.specs.Kept.{is_among, needed_numbers, next_pair, standing, taken_pair};
ghost use Rattle.tac_copies.specs.Reached.{leads_to};
ghost use Rattle.tac_copies.specs.Taken.{block_reads, goes_instead, is_needed, may_go, reads, taken_code};
ghost use Rattle.tac_form.specs.Fits.{goes_to};
ghost use Rattle.tac_form.specs.Graph.{exit_next};
ghost use Rattle.tac_form.specs.Live.{has};

use crate::copied::{
    copied_block, copied_destinations, copied_instructions, with_blocks, with_parameters,
};
use crate::reaching::BlockNumbers;
use crate::shortening::{exit_reads, reads, writes};
use std::alloc::Global;
use tac_form::{Block, Destination, Exit, Instruction, InstructionList, Operand, Tac};
use tl_base::NoMemory;

/// How many parameters are taken so at most.
const MOST_TAKEN: usize = 8;

/// Code whose parameters go at once to the temporaries to which its first instructions copy them, where nothing else reads them.
#[tactic(auto, using(crate::proofs::TakenSteps::whole_taken, crate::proofs::TakenSteps::empty_taken))]
pub fn taken(alloc: Global, code: &Tac) -> Result<Tac, NoMemory>
    ensures { IfOk result (λ made. made ≡ taken_code code.now) }
{
    match code.blocks.as_slice().split_first() {
        Some((first, rest)) => taken_of(alloc, code, first, rest),
        None => Ok(with_blocks(alloc, code, Vec::new(alloc))?),
    }
}

/// That of code with these blocks, the first one and those behind it.
#[tactic(auto, using(crate::proofs::TakenSteps::parameters_begin))]
fn taken_of(alloc: Global, code: &Tac, first: &Block, rest: &[Block]) -> Result<Tac, NoMemory>
    ensures { IfOk result (λ made. made ≡ taken_code (record code.now { blocks = first.now ∷ rest.now })) }
{
    let instructions = first.instructions.as_slice();
    let mut parameters = copied_destinations(alloc, code.parameters.as_slice())?;
    let mut taken = 0;
    'parameters: while let Some((p, v)) = next_pair(
        alloc,
        taken,
        &parameters,
        &instructions[taken..],
        first.exit,
        rest,
    )? {
        parameters = all_instead(alloc, p, v, &parameters)?;
        taken += 1;
    }
    standing(
        alloc,
        code,
        parameters,
        &instructions[taken..],
        first.exit,
        rest,
    )
}

/// Code with other parameters and other blocks, by the first.
fn standing(
    alloc: Global,
    code: &Tac,
    parameters: Vec<Destination>,
    instructions: &[Instruction],
    exit: Exit,
    rest: &[Block],
) -> Result<Tac, NoMemory>
    ensures { IfOk result (λ made. made ≡ standing code.now parameters.items instructions.now exit rest.now) }
{
    let mut blocks = Vec::new(alloc);
    blocks.push(Block {
        instructions: InstructionList::from_vec(copied_instructions(alloc, instructions)?),
        exit,
    })?;
    push_copies(alloc, &mut blocks, rest)?;
    with_parameters(alloc, code, parameters, blocks)
}

/// Puts copies of blocks behind others.
#[tactic(auto, using(crate::proofs::TakenSteps::copies_next))]
fn push_copies(alloc: Global, blocks: &mut Vec<Block>, copied: &[Block]) -> Result<(), NoMemory>
    ensures { OnOk result (blocks.new.items ≡ blocks.old.items ++ copied.now) }
{
    for block in copied {
        blocks.push(copied_block(alloc, block)?)?;
    }
    Ok(())
}

/// The parameter that is taken next behind so many others.
fn next_pair(
    alloc: Global,
    taken: usize,
    parameters: &[Destination],
    instructions: &[Instruction],
    exit: Exit,
    rest: &[Block],
) -> Result<Option<(u64, u64)>, NoMemory>
    ensures { IfOk result (λ pair. pair ≡ next_pair taken parameters.now instructions.now exit rest.now) }
{
    if taken < MOST_TAKEN {
        taken_pair(alloc, parameters, instructions, exit, rest)
    } else {
        Ok(None)
    }
}

/// The parameter that goes at once to the temporary to which the first instruction copies it, with that.
fn taken_pair(
    alloc: Global,
    parameters: &[Destination],
    instructions: &[Instruction],
    exit: Exit,
    rest: &[Block],
) -> Result<Option<(u64, u64)>, NoMemory>
    ensures { IfOk result (λ pair. pair ≡ taken_pair parameters.now instructions.now exit rest.now) }
{
    match instructions.split_first() {
        Some((Instruction::Copy(v, Operand::Temp(p)), behind)) => {
            let goes = may_go(alloc, parameters, *p, *v, behind, exit, rest)?;
            Ok(if goes { Some((*p, *v)) } else { None })
        }
        _ => Ok(None),
    }
}

/// Whether a parameter p may go to v, where these instructions, exit and blocks are behind the copy with which the code begins.
#[tactic(auto, using(crate::proofs::TakenSteps::all_needed))]
fn may_go(
    alloc: Global,
    parameters: &[Destination],
    p: u64,
    v: u64,
    instructions: &[Instruction],
    exit: Exit,
    rest: &[Block],
) -> Result<bool, NoMemory>
    ensures { IfOk result (λ goes. goes ≡ may_go parameters.now p v instructions.now exit rest.now) }
{
    if receives(parameters, p)
        && !receives(parameters, v)
        && !reads_behind(p, instructions, exit, rest)
        && !leads_to_first(exit, rest)
    {
        let needed = needed_numbers(alloc, v, rest)?;
        Ok(is_needed(v, instructions, exit, &needed))
    } else {
        Ok(false)
    }
}

/// Whether a parameter goes to the temporary.
fn receives(parameters: &[Destination], t: u64) -> bool
    ensures { result ≡ list_any (goes_to t) parameters.now }
{
    for parameter in parameters {
        if goes_to(t, *parameter) {
            return true;
        }
    }
    false
}

fn goes_to(t: u64, parameter: Destination) -> bool
    ensures { result ≡ goes_to t parameter }
{
    match parameter {
        Destination::Temp(d) => d == t,
        Destination::Area(_) => false,
        Destination::Nothing => false,
    }
}

/// Whether the temporary is read by instructions, by the exit behind them or in blocks.
fn reads_behind(t: u64, instructions: &[Instruction], exit: Exit, rest: &[Block]) -> bool
    ensures { result ≡ (reads t instructions.now exit || list_any (block_reads t) rest.now) }
{
    block_reads(t, instructions, exit) || blocks_read(t, rest)
}

fn blocks_read(t: u64, blocks: &[Block]) -> bool
    ensures { result ≡ list_any (block_reads t) blocks.now }
{
    for block in blocks {
        if block_reads(t, block.instructions.as_slice(), block.exit) {
            return true;
        }
    }
    false
}

fn block_reads(t: u64, instructions: &[Instruction], exit: Exit) -> bool
    ensures { result ≡ reads t instructions.now exit }
{
    for instruction in instructions {
        if reads(instruction, t) {
            return true;
        }
    }
    exit_reads(exit, t)
}

/// Whether the exit or a block leads to the first block.
fn leads_to_first(exit: Exit, rest: &[Block]) -> bool
    ensures { result ≡ (has (exit_next exit) 0 || list_any (λ b. leads_to b 0) rest.now) }
{
    exit_leads_to_first(exit) || any_leads_to_first(rest)
}

fn any_leads_to_first(blocks: &[Block]) -> bool
    ensures { result ≡ list_any (λ b. leads_to b 0) blocks.now }
{
    for block in blocks {
        if exit_leads_to_first(block.exit) {
            return true;
        }
    }
    false
}

fn exit_leads_to_first(exit: Exit) -> bool
    ensures { result ≡ has (exit_next exit) 0 }
{
    match exit {
        Exit::Jump(edge) => edge.block == 0,
        Exit::Branch(_, edge, other) => edge.block == 0 || other.block == 0,
        _ => false,
    }
}

/// The numbers of blocks, of those from 1 on, from whose beginning on a way ahead leads to a read of the temporary with no write between.
#[tactic(auto, using(crate::proofs::TakenSteps::needed_next))]
fn needed_numbers(alloc: Global, t: u64, blocks: &[Block]) -> Result<BlockNumbers, NoMemory>
    ensures { IfOk result (λ needed. needed ≡ needed_numbers t 1 blocks.now) }
{
    let mut needed = BlockNumbers::none(alloc);
    let mut at = blocks.len();
    while at > 0 {
        let block = &blocks[at - 1];
        let here = is_needed(t, block.instructions.as_slice(), block.exit, &needed);
        needed.put_if(here, at as u64)?;
        at -= 1;
    }
    Ok(needed)
}

/// Whether the temporary is read before it is written: by instructions, by the exit behind them, or on from a block to which that leads.
fn is_needed(t: u64, instructions: &[Instruction], exit: Exit, behind: &BlockNumbers) -> bool
    ensures { result ≡ is_needed t instructions.now exit (is_among behind.now) }
{
    for instruction in instructions {
        if reads(instruction, t) {
            return true;
        }
        if writes(instruction, t) {
            return false;
        }
    }
    exit_reads(exit, t) || leads_among(exit, behind)
}

/// Whether the exit leads to one of the blocks.
fn leads_among(exit: Exit, blocks: &BlockNumbers) -> bool
    ensures { result ≡ list_any (is_among blocks.now) (exit_next exit) }
{
    match exit {
        Exit::Jump(edge) => blocks.has(edge.block),
        Exit::Branch(_, edge, other) => blocks.has(edge.block) || blocks.has(other.block),
        _ => false,
    }
}

/// Where parameters go, with v in place of p.
fn all_instead(
    alloc: Global,
    p: u64,
    v: u64,
    parameters: &[Destination],
) -> Result<Vec<Destination>, NoMemory>
    ensures { IfOk result (λ made. made.items ≡ map (goes_instead p v) parameters.now) }
{
    let mut made = Vec::new(alloc);
    for parameter in parameters {
        made.push(goes_instead(p, v, *parameter))?;
    }
    Ok(made)
}

fn goes_instead(p: u64, v: u64, parameter: Destination) -> Destination
    ensures { result ≡ goes_instead p v parameter }
{
    match parameter {
        Destination::Temp(t) => Destination::Temp(if t == p { v } else { t }),
        Destination::Area(n) => Destination::Area(n),
        Destination::Nothing => Destination::Nothing,
    }
}

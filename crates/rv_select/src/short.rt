// How many words a function's code has at most, by its weight.

ghost use Rattle.std.specs.Prelude.{◌≡◌, ◌*◌, ◌+◌, ◌-◌, ◌^◌, ◌≤◌, length, sum_by};
ghost use Rattle.rv_select.specs.Places.{is_near, is_short};
ghost use Rattle.tac_form.specs.Weights.{block_words, edge_words, exit_words, reached, received, words_of};

use tac_form::{Address, Block, Destination, Edge, Exit, Instruction, Spot, Tac};

/// The words of code that is no longer near, and no longer short.
const NEAR: u64 = 1000;

const SHORT: u64 = 1 << 17;

/// The words of an operand.
const OPERAND: u64 = 8;

/// Whether a function's code has, by its weight, fewer words than 1,000.
#[tactic(auto, unfolding(crate::specs::Places::is_near))]
pub(crate) fn is_near(tac: &Tac) -> bool
    ensures { result ≡ is_near tac.now }
{
    let rest = less_parameters(NEAR - 79, tac.parameters.as_slice());
    less_blocks(rest, tac.blocks.as_slice()) > 0
}

/// Whether a function's code has, by its weight, fewer words than 2 ^ 17.
#[tactic(auto, unfolding(crate::specs::Places::is_short))]
pub(crate) fn is_short(tac: &Tac) -> bool
    ensures { result ≡ is_short tac.now }
{
    let rest = less_parameters(SHORT - 79, tac.parameters.as_slice());
    less_blocks(rest, tac.blocks.as_slice()) > 0
}

/// What is left of a number behind the words that take parameters, or 0.
fn less_parameters(most: u64, parameters: &[Destination]) -> u64
    requires { most ≤ 2 ^ 17 }
    ensures { result ≡ most - sum_by received parameters.now }
{
    let mut rest = most;
    for parameter in parameters {
        rest = rest.saturating_sub(received(*parameter));
    }
    rest
}

/// What is left of it behind the words of blocks.
fn less_blocks(most: u64, blocks: &[Block]) -> u64
    requires { most ≤ 2 ^ 17 }
    ensures { result ≡ most - sum_by block_words blocks.now }
{
    let mut rest = most;
    for block in blocks {
        rest = less_block(rest, block);
    }
    rest
}

fn less_block(most: u64, block: &Block) -> u64
    requires { most ≤ 2 ^ 17 }
    ensures { result ≡ most - block_words block.now }
{
    let rest = less_instructions(most, block.instructions.as_slice());
    rest.saturating_sub(exit_words(&block.exit))
}

fn less_instructions(most: u64, instructions: &[Instruction]) -> u64
    requires { most ≤ 2 ^ 17 }
    ensures { result ≡ most - sum_by words_of instructions.now }
{
    let mut rest = most;
    for instruction in instructions {
        rest = less_instruction(rest, instruction);
    }
    rest
}

fn less_instruction(most: u64, instruction: &Instruction) -> u64
    requires { most ≤ 2 ^ 17 }
    ensures { result ≡ most - words_of instruction.now }
{
    match instruction {
        Instruction::Compute(_, _, _, _, _) => most.saturating_sub(OPERAND + OPERAND + 4 + 3),
        Instruction::TestDivisor(_, _) => most.saturating_sub(OPERAND + 1 + 11),
        Instruction::Copy(_, _) => most.saturating_sub(OPERAND + 3),
        Instruction::Locate(_, _) => most.saturating_sub(12),
        Instruction::Load(_, _, spot) => most.saturating_sub(reached(*spot) + 2 + 3),
        Instruction::Store(spot, _, _) => most.saturating_sub(reached(*spot) + OPERAND + 1),
        Instruction::Move(to, from, _) => {
            most.saturating_sub(reached(*to) + reached(*from) + 36)
        }
        Instruction::Clear(_, _) => most.saturating_sub(19),
        Instruction::Call(to, _, _, arguments) => {
            less_call(most, 20, arguments.as_slice().len() as u64, received(*to))
        }
        Instruction::CallValue(to, _, _, _, arguments) => less_call(
            most,
            43 + OPERAND + 6,
            arguments.as_slice().len() as u64,
            received(*to),
        ),
        Instruction::PutByte(_) => most.saturating_sub(11),
        Instruction::Write(_, _, _) => most.saturating_sub(OPERAND + OPERAND + 8 + 11 + 5),
        Instruction::Alloc(_, _) => most.saturating_sub(OPERAND + 18 + 3),
    }
}

/// A call passes so many parts, eleven words each.
fn less_call(most: u64, before: u64, parts: u64, behind: u64) -> u64
    requires most { most ≤ 2 ^ 17 }
    requires before { before ≤ 64 }
    requires behind { behind ≤ 64 }
    ensures { result ≡ most - (before + 11 * parts + 2 + behind) }
{
    if parts >= most {
        return 0;
    }
    most.saturating_sub(before + 11 * parts + 2 + behind)
}

fn exit_words(exit: &Exit) -> u64
    ensures { result ≡ exit_words exit.now }
{
    match exit {
        Exit::Jump(edge) => edge_words(*edge),
        Exit::Branch(_, first, second) => OPERAND + 1 + edge_words(*first) + edge_words(*second),
        Exit::Return(_) => 10,
        Exit::Fail(_, _) => 11,
    }
}

fn edge_words(edge: Edge) -> u64
    ensures words { result ≡ edge_words edge }
    ensures few { result ≤ 5 }
{
    if edge.counts { 5 } else { 2 }
}

fn received(to: Destination) -> u64
    ensures words { result ≡ received to }
    ensures few { result ≤ 42 }
{
    match to {
        Destination::Temp(_) => 6,
        Destination::Area(_) => 42,
        Destination::Nothing => 0,
    }
}

fn reached(spot: Spot) -> u64
    ensures words { result ≡ reached spot }
    ensures few { result ≤ 24 }
{
    match spot {
        Spot::Region(_, Address::Word(_)) => OPERAND + 5 + 11,
        Spot::Region(_, Address::Frame(_)) => 9,
        Spot::Area(_, _) => 3,
    }
}

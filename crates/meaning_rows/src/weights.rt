// How many words machine code may take, as `Weights` of tac_form's specs has them.

ghost use Rattle.std.specs.Prelude.{◌≤◌};

use tac_form::{Address, Block, Destination, Edge, Exit, Instruction, Spot, Tac};

/// What takes an operand or a constant, works out an operator, puts a register into its home, ends the run, takes a
/// count, follows an edge, is more of a call, copies an area, and tests the depth.
const OPERAND: u64 = 8;

const OPERATOR: u64 = 4;

const PLACED: u64 = 3;

const FAILED: u64 = 11;

const ONE_COUNT: u64 = 3;

const JUMPED: u64 = 2;

const COUNTED: u64 = 3 + ONE_COUNT;

const COPIED: u64 = 36;

const DEEP: u64 = 6;

/// What enters a function and leaves it.
const ENTERED: u64 = 17 + 36 + 26;

/// How many words the code of a function may take.
pub fn code_words(code: &Tac) -> u64 {
    let mut words = ENTERED;
    for to in code.parameters.as_slice() {
        words = words.saturating_add(received(to));
    }
    for block in code.blocks.as_slice() {
        words = words.saturating_add(block_words(block));
    }
    words
}

fn block_words(block: &Block) -> u64 {
    let mut words = exit_words(&block.exit);
    for i in block.instructions.as_slice() {
        words = words.saturating_add(words_of(i));
    }
    words
}

fn received(to: &Destination) -> u64 {
    match to {
        Destination::Temp(_) => PLACED + PLACED,
        Destination::Area(_) => PLACED + PLACED + COPIED,
        Destination::Nothing => 0,
    }
}

fn reached(spot: &Spot) -> u64 {
    match spot {
        Spot::Region(_, Address::Word(_)) => OPERAND + 5 + FAILED,
        Spot::Region(_, Address::Frame(_)) => 9,
        Spot::Area(_, _) => PLACED,
    }
}

fn passed(count: usize, to: &Destination) -> u64 {
    (OPERAND + PLACED)
        .saturating_mul(count as u64)
        .saturating_add(received(to))
}

fn words_of(i: &Instruction) -> u64 {
    match i {
        Instruction::Compute(_, _, _, _, _) => OPERAND + OPERAND + OPERATOR + PLACED,
        Instruction::TestDivisor(_, _) => OPERAND + 1 + FAILED,
        Instruction::Copy(_, _) => OPERAND + PLACED,
        Instruction::Locate(_, _) => 9 + PLACED,
        Instruction::Load(_, _, from) => reached(from).saturating_add(2 + PLACED),
        Instruction::Store(to, _, _) => reached(to).saturating_add(OPERAND + 1),
        Instruction::Move(to, from, _) => reached(to)
            .saturating_add(reached(from))
            .saturating_add(COPIED),
        Instruction::Clear(_, _) => PLACED + 16,
        Instruction::Call(to, _, _, parts) => {
            passed(parts.as_slice().len(), to).saturating_add(COUNTED + OPERAND + DEEP + JUMPED)
        }
        Instruction::CallValue(to, _, _, _, parts) => passed(
            parts.as_slice().len(),
            to,
        ).saturating_add(COUNTED + OPERAND + 18 + FAILED + OPERAND + DEEP + JUMPED),
        Instruction::PutByte(_) => PLACED + 8,
        Instruction::Write(_, _, _) => OPERAND + OPERAND + 8 + FAILED + 5,
        Instruction::Alloc(_, _) => OPERAND + 18 + PLACED,
    }
}

fn edge_words(edge: Edge) -> u64
    ensures { result ≤ 5 }
{
    if edge.counts {
        JUMPED + ONE_COUNT
    } else {
        JUMPED
    }
}

fn exit_words(exit: &Exit) -> u64 {
    match exit {
        Exit::Jump(edge) => edge_words(*edge),
        Exit::Branch(_, edge, other) => OPERAND + 1 + edge_words(*edge) + edge_words(*other),
        Exit::Return(_) => OPERAND + JUMPED,
        Exit::Fail(_, _) => FAILED,
    }
}

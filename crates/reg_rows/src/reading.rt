// What the words of a row stand for.

use reg_alloc::{Assignment, Home};
use std::alloc::Global;
use tac_form::{
    Address, Block, BlockList, Destination, DestinationList, Edge, Exit, Instruction,
    InstructionList, Number, Operand, Part, PartList, Signature, Size, SizeList, Spot, Tac,
    TypeIds,
};
use terra_words::{BinaryOperator, FaultKind};
use tl_base::{FnId, NoMemory, Place, TypeId};

const HERE: Place = Place { line: 1, word: 1 };

const INT: Number = Number {
    signed: true,
    size: Size::Four,
};

/// The homes that the first word writes: `A` to `J` for x18 to x27, `y` for x17 and `z` for x28, a digit for a slot.
pub fn homes_of(alloc: Global, words: &[&str]) -> Result<Assignment, NoMemory> {
    let mut homes = Vec::new(alloc);
    if let Some(word) = words.get(0) {
        for letter in word.as_bytes() {
            homes.push(home_of(*letter))?;
        }
    }
    Ok(Assignment::from_vec(homes))
}

fn home_of(letter: u8) -> Option<Home> {
    match letter {
        b'A'..=b'J' => Some(Home::Register(u64::from(letter - b'A') + 18)),
        b'y' => Some(Home::Register(17)),
        b'z' => Some(Home::Register(28)),
        b'0'..=b'9' => Some(Home::Slot(u64::from(letter - b'0'))),
        _ => None,
    }
}

/// The code that the other words write.
pub fn code_of(alloc: Global, words: &[&str]) -> Result<Tac, NoMemory> {
    let mut blocks = Vec::new(alloc);
    let mut instructions = Vec::new(alloc);
    for word in words.iter().skip(1) {
        let letters = word.as_bytes();
        if let Some(exit) = exit_of(letters) {
            blocks.push(Block {
                instructions: InstructionList::from_vec(instructions),
                exit,
            })?;
            instructions = Vec::new(alloc);
        } else {
            instructions.push(instruction_of(alloc, letters)?)?;
        }
    }
    let nothing = InstructionList::from_vec(instructions);
    blocks.push(Block {
        instructions: nothing,
        exit: Exit::Fail(FaultKind::NoReturn, HERE),
    })?;
    Ok(Tac {
        nodes: 1,
        signature: signature(alloc),
        place: HERE,
        counts: false,
        frame: 0,
        temps: 2,
        areas: SizeList::from_vec(Vec::new(alloc)),
        parameters: DestinationList::from_vec(Vec::new(alloc)),
        blocks: BlockList::from_vec(blocks),
    })
}

fn signature(alloc: Global) -> Signature {
    Signature {
        params: TypeIds::from_vec(Vec::new(alloc)),
        result: TypeId(0),
    }
}

/// The digit at a place of a word.
fn digit(letters: &[u8], place: usize) -> u64 {
    match letters.get(place) {
        Some(letter) if *letter >= b'0' => u64::from(*letter - b'0'),
        _ => 0,
    }
}

fn temp(letters: &[u8], place: usize) -> Operand {
    Operand::Temp(digit(letters, place))
}

fn edge(letters: &[u8], place: usize) -> Edge {
    Edge {
        block: digit(letters, place),
        counts: true,
    }
}

fn spot(letters: &[u8], place: usize) -> Spot {
    Spot::Region(HERE, Address::Word(temp(letters, place)))
}

/// The exit that a word writes, if it does: `j` jumps, `b` branches, `r` returns a temporary, `f` fails.
fn exit_of(letters: &[u8]) -> Option<Exit> {
    match letters.get(0) {
        Some(b'j') => Some(Exit::Jump(edge(letters, 1))),
        Some(b'b') => Some(Exit::Branch(temp(letters, 1), edge(letters, 2), edge(letters, 3))),
        Some(b'r') => Some(Exit::Return(Part::Word(temp(letters, 1)))),
        Some(b'f') => Some(Exit::Fail(FaultKind::NoReturn, HERE)),
        _ => None,
    }
}

/// The instruction that a word writes, by its first letter.
fn instruction_of(alloc: Global, letters: &[u8]) -> Result<Instruction, NoMemory> {
    let to = digit(letters, 1);
    Ok(match letters.get(0) {
        Some(b'c') => Instruction::Compute(
            to,
            BinaryOperator::Add,
            INT,
            temp(letters, 2),
            temp(letters, 3),
        ),
        Some(b'y') => Instruction::Copy(to, temp(letters, 2)),
        Some(b'k') => Instruction::Copy(to, Operand::Constant(to)),
        Some(b'l') => Instruction::Load(to, INT, spot(letters, 2)),
        Some(b's') => Instruction::Store(spot(letters, 1), Size::Four, temp(letters, 2)),
        Some(b'm') => Instruction::Move(spot(letters, 1), spot(letters, 2), 4),
        Some(b't') => Instruction::TestDivisor(HERE, temp(letters, 1)),
        Some(b'a') => Instruction::Alloc(to, temp(letters, 2)),
        Some(b'o') => Instruction::Locate(to, 0),
        Some(b'w') => Instruction::Write(HERE, temp(letters, 1), temp(letters, 2)),
        Some(b'g') => {
            let mut arguments = Vec::new(alloc);
            arguments.push(Part::Word(temp(letters, 2)))?;
            arguments.push(Part::Word(temp(letters, 3)))?;
            Instruction::Call(
                Destination::Temp(to),
                HERE,
                FnId(0),
                PartList::from_vec(arguments),
            )
        }
        _ => Instruction::PutByte(temp(letters, 1)),
    })
}

// The temporaries that code reads.

ghost use Rattle.std.specs.Prelude.{◌≡◌, ◌++◌, OnOk};
ghost use Rattle.tac_form.specs.Graph.{operand_reads, address_reads, spot_reads, part_reads, parts_reads, instruction_reads, exit_reads};

use crate::tac::{Address, Exit, Instruction, Operand, Part, Spot};
use tl_base::NoMemory;

/// Puts the temporaries that an instruction reads behind others, one for each operand, in its order.
pub fn push_instruction_reads(
    reads: &mut Vec<u64>,
    instruction: &Instruction,
) -> Result<(), NoMemory>
    ensures { OnOk result (reads.new.items ≡ reads.old.items ++ instruction_reads instruction.now) }
{
    match instruction {
        Instruction::Compute(_, _, _, a, b) => {
            push_operand(reads, *a)?;
            push_operand(reads, *b)
        }
        Instruction::TestDivisor(_, a) => push_operand(reads, *a),
        Instruction::Copy(_, a) => push_operand(reads, *a),
        Instruction::Locate(_, _) => Ok(()),
        Instruction::Load(_, _, spot) => push_spot(reads, *spot),
        Instruction::Store(spot, _, a) => {
            push_spot(reads, *spot)?;
            push_operand(reads, *a)
        }
        Instruction::Move(to, from, _) => {
            push_spot(reads, *to)?;
            push_spot(reads, *from)
        }
        Instruction::Clear(_, _) => Ok(()),
        Instruction::Call(_, _, _, arguments) => push_parts(reads, arguments.as_slice()),
        Instruction::CallValue(_, _, _, a, arguments) => {
            push_operand(reads, *a)?;
            push_parts(reads, arguments.as_slice())
        }
        Instruction::PutByte(a) => push_operand(reads, *a),
        Instruction::Write(_, a, b) => {
            push_operand(reads, *a)?;
            push_operand(reads, *b)
        }
        Instruction::Alloc(_, a) => push_operand(reads, *a),
    }
}

/// Puts the temporaries that an exit reads behind others.
pub fn push_exit_reads(reads: &mut Vec<u64>, exit: Exit) -> Result<(), NoMemory>
    ensures { OnOk result (reads.new.items ≡ reads.old.items ++ exit_reads exit) }
{
    match exit {
        Exit::Jump(_) => Ok(()),
        Exit::Branch(a, _, _) => push_operand(reads, a),
        Exit::Return(part) => push_part(reads, part),
        Exit::Fail(_, _) => Ok(()),
    }
}

fn push_parts(reads: &mut Vec<u64>, parts: &[Part]) -> Result<(), NoMemory>
    ensures { OnOk result (reads.new.items ≡ reads.old.items ++ parts_reads parts.now) }
{
    for part in parts {
        push_part(reads, *part)?;
    }
    Ok(())
}

fn push_part(reads: &mut Vec<u64>, part: Part) -> Result<(), NoMemory>
    ensures { OnOk result (reads.new.items ≡ reads.old.items ++ part_reads part) }
{
    match part {
        Part::Word(operand) => push_operand(reads, operand),
        Part::Area(_) => Ok(()),
    }
}

fn push_spot(reads: &mut Vec<u64>, spot: Spot) -> Result<(), NoMemory>
    ensures { OnOk result (reads.new.items ≡ reads.old.items ++ spot_reads spot) }
{
    match spot {
        Spot::Region(_, address) => push_address(reads, address),
        Spot::Area(_, _) => Ok(()),
    }
}

fn push_address(reads: &mut Vec<u64>, address: Address) -> Result<(), NoMemory>
    ensures { OnOk result (reads.new.items ≡ reads.old.items ++ address_reads address) }
{
    match address {
        Address::Word(operand) => push_operand(reads, operand),
        Address::Frame(_) => Ok(()),
    }
}

fn push_operand(reads: &mut Vec<u64>, operand: Operand) -> Result<(), NoMemory>
    ensures { OnOk result (reads.new.items ≡ reads.old.items ++ operand_reads operand) }
{
    match operand {
        Operand::Temp(t) => {
            reads.push(t)?;
            Ok(())
        }
        Operand::Constant(_) => Ok(()),
    }
}

// The words of instructions of three-address code.

ghost use Rattle.std.specs.Prelude.{◌≡◌, ◌++◌, map, IsTrue, OnOk};
ghost use Rattle.rv_isa.specs.Table.{word_of};
ghost use Rattle.rv_select.specs.Places.{with_homes};
ghost use Rattle.rv_select.specs.Shapes.{copied, has_shape, held_after, located, put_at, shape_of};

use crate::accessing::{push_cleared, push_loaded, push_located, push_stored};
use crate::computing::push_computed;
use crate::emit::{in_register, push_put, push_put_zero};
use crate::failing::push_divisor_test;
use crate::moving::push_bytes_moved;
use crate::outputs::{push_allocated, push_byte_put, push_range_written};
use crate::reading::{is_zero, push_brought, push_first, result_in};
use reg_alloc::Home;
use tac_form::{Destination, Instruction, Operand};
use tl_base::NoMemory;

/// The words of an instruction, where T0 may hold the word of a temporary.
pub fn push_instruction(
    code: &mut Vec<u32>,
    homes: &[Option<Home>],
    held: Option<u64>,
    instruction: &Instruction,
) -> Result<(), NoMemory>
    requires { IsTrue (has_shape instruction.now) }
    ensures { OnOk result (code.new.items ≡ code.old.items ++ map word_of (shape_of (with_homes homes.now) held instruction.now)) }
{
    match instruction {
        Instruction::Compute(temp, operator, form, a, b) => {
            push_computed(code, homes, held, *temp, *operator, *form, *a, *b)
        }
        Instruction::TestDivisor(at, a) => push_divisor_test(code, homes, held, *at, *a),
        Instruction::Copy(temp, a) => push_copied(code, homes, held, *temp, *a),
        Instruction::Locate(temp, offset) => push_address(code, homes, *temp, *offset),
        Instruction::Load(temp, form, spot) => push_loaded(code, homes, held, *temp, *form, *spot),
        Instruction::Store(spot, size, a) => push_stored(code, homes, held, *spot, *size, *a),
        Instruction::Move(to, from, size) => push_bytes_moved(code, homes, held, *to, *from, *size),
        Instruction::Clear(area, size) => push_cleared(code, homes, *area, *size),
        Instruction::PutByte(a) => push_byte_put(code, homes, held, *a),
        Instruction::Write(at, a, b) => push_range_written(code, homes, *at, *a, *b),
        Instruction::Alloc(temp, a) => push_allocated(code, homes, held, *temp, *a),
        _ => Ok(()),
    }
}

/// The temporary whose word an instruction leaves in T0.
pub fn held_after(instruction: &Instruction) -> Option<u64>
    ensures { result ≡ held_after instruction.now }
{
    match instruction {
        Instruction::Compute(temp, _, _, _, _)
        | Instruction::Locate(temp, _)
        | Instruction::Load(temp, _, _)
        | Instruction::Alloc(temp, _)
        | Instruction::Call(Destination::Temp(temp), _, _, _) => Some(*temp),
        Instruction::Copy(temp, a) if !is_zero(*a) => Some(*temp),
        _ => None,
    }
}

fn push_address(
    code: &mut Vec<u32>,
    homes: &[Option<Home>],
    temp: u64,
    offset: u64,
) -> Result<(), NoMemory>
    ensures { OnOk result (code.new.items ≡ code.old.items ++ map word_of (located offset ++ put_at (with_homes homes.now) temp)) }
{
    push_located(code, offset)?;
    push_put(code, homes, temp)
}

fn push_copied(
    code: &mut Vec<u32>,
    homes: &[Option<Home>],
    held: Option<u64>,
    temp: u64,
    a: Operand,
) -> Result<(), NoMemory>
    ensures { OnOk result (code.new.items ≡ code.old.items ++ map word_of (copied (with_homes homes.now) held temp a)) }
{
    if is_zero(a) {
        return push_put_zero(code, homes, temp);
    }
    if in_register(homes, temp) {
        return push_brought(code, homes, held, result_in(homes, temp), a);
    }
    push_first(code, homes, held, a)?;
    push_put(code, homes, temp)
}

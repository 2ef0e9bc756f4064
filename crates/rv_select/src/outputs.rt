// The words of instructions that write to the output, and of those that take bytes of the heap.

ghost use Rattle.std.specs.Prelude.{◌≡◌, [], ◌∷◌, ◌++◌, map, OnOk};
ghost use Rattle.rv_isa.specs.Table.{word_of};
ghost use Rattle.rv_select.specs.Places.{with_homes};
ghost use Rattle.rv_select.specs.Shapes.{allocated, byte_put, byte_stored, byte_taken, byte_written, bytes_given, heap_aligned};
ghost use Rattle.rv_select.specs.Shapes.{limit_found, range_call, range_tested, range_written, taken, write_call, x11, x12};

use crate::emit::{
    X0, X2, X4, X5, X6, X7, X10, X11, X17, push_constant, push_moved, push_put, push_taken, put,
};
use crate::failing::{failed_words, push_branch_over, push_small};
use crate::operands::{immediate, offset, upper};
use crate::reading::{push_first, push_first_temp};
use reg_alloc::Home;
use rv_isa::{
    BranchCondition, Immediate, ImmediateOp, Instr, LoadOp, Register, RegisterOp, ShiftCount,
    ShiftOp, StoreOp,
};
use tac_form::Operand;
use terra_words::FaultKind;
use tl_base::limits::REGION_ADDRESS;
use tl_base::{NoMemory, Place};

/// The end of the heap.
const X3: Register = Register { number: 3 };

const X12: Register = Register { number: 12 };

/// The number of the machine's call that writes bytes.
const WRITE_CALL: u64 = 64;

/// One byte goes to the output.
pub(crate) fn push_byte_put(
    code: &mut Vec<u32>,
    homes: &[Option<Home>],
    held: Option<u64>,
    a: Operand,
) -> Result<(), NoMemory>
    ensures { OnOk result (code.new.items ≡ code.old.items ++ map word_of (byte_put (with_homes homes.now) held a)) }
{
    push_byte_taken(code, homes, held, a)?;
    push_byte_written(code)
}

/// x5 gets an operand whose low byte alone matters.
fn push_byte_taken(
    code: &mut Vec<u32>,
    homes: &[Option<Home>],
    held: Option<u64>,
    a: Operand,
) -> Result<(), NoMemory>
    ensures { OnOk result (code.new.items ≡ code.old.items ++ map word_of (byte_taken (with_homes homes.now) held a)) }
{
    match a {
        Operand::Temp(temp) => push_first_temp(code, homes, held, temp),
        Operand::Constant(number) => push_constant(code, X5, number % 256),
    }
}

/// The byte in x5 is written from the frame's first word, which x6 keeps meanwhile.
fn push_byte_written(code: &mut Vec<u32>) -> Result<(), NoMemory>
    ensures { OnOk result (code.new.items ≡ code.old.items ++ map word_of byte_written) }
{
    push_byte_stored(code)?;
    push_moved(code, X11, X2)?;
    push_small(code, X12, 1)?;
    push_write_call(code)?;
    put(
        code,
        Instr::Store {
            op: StoreOp::Sd,
            rs1: X2,
            rs2: X6,
            offset: Immediate { value: 0 },
        },
    )
}

/// x6 gets the frame's first word, whose first byte becomes that in x5.
fn push_byte_stored(code: &mut Vec<u32>) -> Result<(), NoMemory>
    ensures { OnOk result (code.new.items ≡ code.old.items ++ map word_of byte_stored) }
{
    put(
        code,
        Instr::Load {
            op: LoadOp::Ld,
            rd: X6,
            rs1: X2,
            offset: Immediate { value: 0 },
        },
    )?;
    put(
        code,
        Instr::Store {
            op: StoreOp::Sb,
            rs1: X2,
            rs2: X5,
            offset: Immediate { value: 0 },
        },
    )
}

/// The call that writes x12 bytes from x11 on.
fn push_write_call(code: &mut Vec<u32>) -> Result<(), NoMemory>
    ensures { OnOk result (code.new.items ≡ code.old.items ++ map word_of write_call) }
{
    push_small(code, X10, 1)?;
    push_small(code, X17, WRITE_CALL)?;
    put(code, Instr::Ecall)
}

/// Bytes of the region go to the output.
pub(crate) fn push_range_written(
    code: &mut Vec<u32>,
    homes: &[Option<Home>],
    at: Place,
    a: Operand,
    b: Operand,
) -> Result<(), NoMemory>
    ensures { OnOk result (code.new.items ≡ code.old.items ++ map word_of (range_written (with_homes homes.now) at a b)) }
{
    push_start(code, homes, a)?;
    push_count(code, homes, b)?;
    push_range_call(code, at)
}

/// x11 gets an operand.
fn push_start(code: &mut Vec<u32>, homes: &[Option<Home>], a: Operand) -> Result<(), NoMemory>
    ensures { OnOk result (code.new.items ≡ code.old.items ++ map word_of (taken (with_homes homes.now) x11 a)) }
{
    push_taken(code, homes, X11, a)
}

/// x12 gets an operand.
fn push_count(code: &mut Vec<u32>, homes: &[Option<Home>], b: Operand) -> Result<(), NoMemory>
    ensures { OnOk result (code.new.items ≡ code.old.items ++ map word_of (taken (with_homes homes.now) x12 b)) }
{
    push_taken(code, homes, X12, b)
}

/// The x12 bytes from x11 on go to the output, if they are bytes of the region. No bytes lie anywhere.
#[tactic(auto, using(crate::proofs::Ranges::call_words))]
fn push_range_call(code: &mut Vec<u32>, at: Place) -> Result<(), NoMemory>
    ensures { OnOk result (code.new.items ≡ code.old.items ++ map word_of (range_call at)) }
{
    put(
        code,
        Instr::Branch {
            condition: BranchCondition::Eq,
            rs1: X12,
            rs2: X0,
            offset: offset(4 * (failed_words(FaultKind::BadAddress, at) + 9)),
        },
    )?;
    push_range_test(code, at)?;
    push_write_call(code)
}

/// The run fails unless x12 bytes from x11 on lie in the region.
fn push_range_test(code: &mut Vec<u32>, at: Place) -> Result<(), NoMemory>
    ensures { OnOk result (code.new.items ≡ code.old.items ++ map word_of (range_tested at)) }
{
    put(
        code,
        Instr::Lui {
            rd: X7,
            imm: upper(REGION_ADDRESS),
        },
    )?;
    put(
        code,
        Instr::Branch {
            condition: BranchCondition::Ltu,
            rs1: X11,
            rs2: X7,
            offset: offset(16),
        },
    )?;
    put(
        code,
        Instr::Branch {
            condition: BranchCondition::Ltu,
            rs1: X4,
            rs2: X11,
            offset: offset(12),
        },
    )?;
    put(
        code,
        Instr::RegisterRegister {
            op: RegisterOp::Sub,
            rd: X7,
            rs1: X4,
            rs2: X11,
        },
    )?;
    push_branch_over(
        code,
        BranchCondition::Geu,
        X7,
        X12,
        FaultKind::BadAddress,
        at,
    )
}

/// A temporary gets the address of bytes of the heap, or zero where fewer are left.
pub(crate) fn push_allocated(
    code: &mut Vec<u32>,
    homes: &[Option<Home>],
    held: Option<u64>,
    temp: u64,
    a: Operand,
) -> Result<(), NoMemory>
    ensures { OnOk result (code.new.items ≡ code.old.items ++ map word_of (allocated (with_homes homes.now) held temp a)) }
{
    push_first(code, homes, held, a)?;
    push_heap_aligned(code)?;
    push_limit_found(code)?;
    push_bytes_given(code)?;
    push_put(code, homes, temp)
}

/// x6 gets the next multiple of 16 from the end of the heap on.
fn push_heap_aligned(code: &mut Vec<u32>) -> Result<(), NoMemory>
    ensures { OnOk result (code.new.items ≡ code.old.items ++ map word_of heap_aligned) }
{
    put(
        code,
        Instr::RegisterImmediate {
            op: ImmediateOp::Addi,
            rd: X6,
            rs1: X3,
            imm: immediate(15),
        },
    )?;
    put(
        code,
        Instr::Shift {
            op: ShiftOp::Srli,
            rd: X6,
            rs1: X6,
            count: ShiftCount { count: 4 },
        },
    )?;
    put(
        code,
        Instr::Shift {
            op: ShiftOp::Slli,
            rd: X6,
            rs1: X6,
            count: ShiftCount { count: 4 },
        },
    )
}

/// x7 gets the address at which the last quarter of the region begins.
pub(crate) fn push_limit_found(code: &mut Vec<u32>) -> Result<(), NoMemory>
    ensures { OnOk result (code.new.items ≡ code.old.items ++ map word_of limit_found) }
{
    put(
        code,
        Instr::Lui {
            rd: X7,
            imm: upper(REGION_ADDRESS),
        },
    )?;
    put(
        code,
        Instr::RegisterRegister {
            op: RegisterOp::Sub,
            rd: X7,
            rs1: X4,
            rs2: X7,
        },
    )?;
    put(
        code,
        Instr::Shift {
            op: ShiftOp::Srli,
            rd: X7,
            rs1: X7,
            count: ShiftCount { count: 2 },
        },
    )?;
    put(
        code,
        Instr::RegisterRegister {
            op: RegisterOp::Sub,
            rd: X7,
            rs1: X4,
            rs2: X7,
        },
    )
}

/// x5 gets the address in x6 if as many bytes as it says are left up to x7, and x3 the address behind them; and else zero.
fn push_bytes_given(code: &mut Vec<u32>) -> Result<(), NoMemory>
    ensures { OnOk result (code.new.items ≡ code.old.items ++ map word_of bytes_given) }
{
    put(
        code,
        Instr::RegisterRegister {
            op: RegisterOp::Sub,
            rd: X7,
            rs1: X7,
            rs2: X6,
        },
    )?;
    put(
        code,
        Instr::Branch {
            condition: BranchCondition::Ltu,
            rs1: X7,
            rs2: X5,
            offset: offset(16),
        },
    )?;
    put(
        code,
        Instr::RegisterRegister {
            op: RegisterOp::Add,
            rd: X3,
            rs1: X6,
            rs2: X5,
        },
    )?;
    push_moved(code, X5, X6)?;
    put(
        code,
        Instr::Branch {
            condition: BranchCondition::Eq,
            rs1: X0,
            rs2: X0,
            offset: offset(8),
        },
    )?;
    push_moved(code, X5, X0)
}

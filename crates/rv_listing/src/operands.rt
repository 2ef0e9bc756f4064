// Instructions from an operation and the numbers of a text. Each function gives what has these numbers, and where
// nothing has them it gives anything: what is made is written and compared with the line.

ghost use Rattle.std.specs.Prelude.{◌≡◌, ◌≤◌, ◌<◌, ◌^◌, ℤ, unsigned_abs};
ghost use Rattle.rv_isa.specs.declared.instr.Instr.{Instr};
ghost use Rattle.rv_isa.specs.declared.operand.Register.{Register};
ghost use Rattle.rv_isa.specs.declared.operand.Immediate.{Immediate};
ghost use Rattle.rv_isa.specs.declared.operand.UpperImmediate.{UpperImmediate};
ghost use Rattle.rv_isa.specs.declared.operand.BranchOffset.{BranchOffset};
ghost use Rattle.rv_isa.specs.declared.operand.JumpOffset.{JumpOffset};
ghost use Rattle.rv_isa.specs.declared.operand.ShiftCount.{ShiftCount};
ghost use Rattle.rv_isa.specs.declared.operand.WordShiftCount.{WordShiftCount};
ghost use Rattle.rv_isa.specs.declared.operand.FenceFields.{FenceFields};
ghost use Rattle.rv_listing.specs.Texts.{operands_of, fence_value};
ghost use Rattle.rv_listing.specs.Reading.{number_of, operation_of, scan_all, scan_start, Fills};

use crate::names::Operation;
use crate::scan::{Number, Scan};
use rv_isa::{
    BranchOffset, FenceFields, Immediate, Instr, JumpOffset, Register, ShiftCount, UpperImmediate,
    WordShiftCount,
};

/// The instruction of an operation whose operands have these numbers, where there is one.
pub(crate) fn filled(operation: Operation, s: Scan) -> Instr
    ensures filled { (i : Instr) → operation_of i ≡ operation → Fills i s → result ≡ i }
    ensures operation { operation_of result ≡ operation }
{
    match operation {
        Operation::Lui => Instr::Lui {
            rd: register(s.second),
            imm: upper(s.third),
        },
        Operation::Auipc => Instr::Auipc {
            rd: register(s.second),
            imm: upper(s.third),
        },
        Operation::Jal => Instr::Jal {
            rd: register(s.second),
            offset: jump_offset(s.third),
        },
        Operation::Jalr => Instr::Jalr {
            rd: register(s.first),
            rs1: register(s.third),
            offset: immediate(s.second),
        },
        Operation::Branch(condition) => Instr::Branch {
            condition,
            rs1: register(s.first),
            rs2: register(s.second),
            offset: branch_offset(s.third),
        },
        Operation::Load(op) => Instr::Load {
            op,
            rd: register(s.first),
            rs1: register(s.third),
            offset: immediate(s.second),
        },
        Operation::Store(op) => Instr::Store {
            op,
            rs1: register(s.third),
            rs2: register(s.first),
            offset: immediate(s.second),
        },
        Operation::RegisterImmediate(op) => Instr::RegisterImmediate {
            op,
            rd: register(s.first),
            rs1: register(s.second),
            imm: immediate(s.third),
        },
        Operation::Shift(op) => Instr::Shift {
            op,
            rd: register(s.first),
            rs1: register(s.second),
            count: shift_count(s.third),
        },
        Operation::Addiw => Instr::Addiw {
            rd: register(s.first),
            rs1: register(s.second),
            imm: immediate(s.third),
        },
        Operation::ShiftWord(op) => Instr::ShiftWord {
            op,
            rd: register(s.first),
            rs1: register(s.second),
            count: word_shift_count(s.third),
        },
        Operation::RegisterRegister(op) => Instr::RegisterRegister {
            op,
            rd: register(s.first),
            rs1: register(s.second),
            rs2: register(s.third),
        },
        Operation::RegisterRegisterWord(op) => Instr::RegisterRegisterWord {
            op,
            rd: register(s.first),
            rs1: register(s.second),
            rs2: register(s.third),
        },
        Operation::Fence => Instr::Fence {
            rd: register(s.first),
            rs1: register(s.second),
            fields: fence_fields(s.third),
        },
        Operation::Ecall => Instr::Ecall,
        Operation::Ebreak => Instr::Ebreak,
    }
}

fn register(n: Number) -> Register
    ensures { (a : Register) → n.size ≡ a.number → result ≡ a }
{
    Register {
        number: (n.size % 32) as u8,
    }
}

fn upper(n: Number) -> UpperImmediate
    ensures { (a : UpperImmediate) → n.size ≡ a.value → result ≡ a }
{
    UpperImmediate {
        value: (n.size % (1 << 20)) as u32,
    }
}

fn shift_count(n: Number) -> ShiftCount
    ensures { (a : ShiftCount) → n.size ≡ a.count → result ≡ a }
{
    ShiftCount {
        count: (n.size % 64) as u8,
    }
}

fn word_shift_count(n: Number) -> WordShiftCount
    ensures { (a : WordShiftCount) → n.size ≡ a.count → result ≡ a }
{
    WordShiftCount {
        count: (n.size % 32) as u8,
    }
}

fn immediate(n: Number) -> Immediate
    ensures { (a : Immediate) → n ≡ number_of a.value → result ≡ a }
{
    let value = signed(n);
    if (-2048..=2047).contains(&value) {
        Immediate {
            value: value as i16,
        }
    } else {
        Immediate { value: 0 }
    }
}

fn branch_offset(n: Number) -> BranchOffset
    ensures { (a : BranchOffset) → n ≡ number_of a.bytes → result ≡ a }
{
    let bytes = signed(n);
    if (-4096..=4094).contains(&bytes) && bytes.unsigned_abs() % 2 == 0 {
        BranchOffset {
            bytes: bytes as i16,
        }
    } else {
        BranchOffset { bytes: 0 }
    }
}

fn jump_offset(n: Number) -> JumpOffset
    ensures { (a : JumpOffset) → n ≡ number_of a.bytes → result ≡ a }
{
    let bytes = signed(n);
    if (-1048576..=1048574).contains(&bytes) && bytes.unsigned_abs() % 2 == 0 {
        JumpOffset { bytes }
    } else {
        JumpOffset { bytes: 0 }
    }
}

fn fence_fields(n: Number) -> FenceFields
    ensures { (a : FenceFields) → n ≡ number_of (fence_value a) → result ≡ a }
{
    FenceFields {
        bits: fence_bits(signed(n)),
    }
}

fn fence_bits(value: i32) -> u16
    requires { unsigned_abs value < 2 ^ 21 }
    ensures bits { (a : FenceFields) → value ≡ fence_value a → result ≡ a.bits }
    ensures within { result < 2 ^ 12 }
{
    let bits = if value < 0 { value + 4096 } else { value };
    if (0..4096).contains(&bits) {
        bits as u16
    } else {
        0
    }
}

// The number, or, where it is larger than any operand, another.
fn signed(n: Number) -> i32
    ensures number { (z : ℤ) → unsigned_abs z < 2 ^ 21 → n ≡ number_of z → result ≡ z }
    ensures small { unsigned_abs result < 2 ^ 21 }
{
    let size = (n.size & 0x1f_ffff) as i32;
    if n.negative { -size } else { size }
}

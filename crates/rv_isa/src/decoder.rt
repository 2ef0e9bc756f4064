// From words to instructions: by the opcode, and then by the funct fields.

ghost use Rattle.std.specs.Prelude.{◌≡◌, ◌≢◌, ◌↔◌, ◌+◌, ◌*◌, ◌^◌, IsNone};
ghost use Rattle.rv_isa.specs.Finds.{Finds};
ghost use Rattle.rv_isa.specs.Formats.{bits, twos_complement};
ghost use Rattle.rv_isa.specs.Table.{word_of};
ghost use Rattle.rv_isa.specs.declared.instr.Instr.{Instr};
ghost use Rattle.rv_isa.specs.declared.opcode.TheConstants.{JALR, BRANCH, LOAD, STORE, OP_IMM, OP_IMM_32, OP, OP_32, MISC_MEM, SYSTEM};

use crate::field::field;
use crate::instr::Instr;
use crate::opcode;
use crate::operand::{
    BranchOffset, FenceFields, Immediate, JumpOffset, Register, ShiftCount, UpperImmediate,
    WordShiftCount,
};
use crate::operation::{
    BranchCondition, ImmediateOp, LoadOp, RegisterOp, RegisterWordOp, ShiftOp, StoreOp,
};

/// The instruction of a word, or None where the word is no instruction of RV64IM.
pub fn decode(w: u32) -> Option<Instr>
    ensures found { Finds word_of w result }

    // The same with nothing left open: which words give this instruction, and which none.
    ensures some { (i : Instr) → (result ≡ Some i) ↔ (word_of i ≡ w) }
    ensures none { IsNone result ↔ ((i : Instr) → word_of i ≢ w) }
{
    match field(w, 6, 0) {
        opcode::LUI => Some(Instr::Lui {
            rd: rd(w),
            imm: upper_immediate(w),
        }),
        opcode::AUIPC => Some(Instr::Auipc {
            rd: rd(w),
            imm: upper_immediate(w),
        }),
        opcode::JAL => Some(Instr::Jal {
            rd: rd(w),
            offset: jump_offset(w),
        }),
        opcode::JALR => decode_jalr(w),
        opcode::BRANCH => decode_branch(w),
        opcode::LOAD => decode_load(w),
        opcode::STORE => decode_store(w),
        opcode::OP_IMM => decode_op_imm(w),
        opcode::OP_IMM_32 => decode_op_imm_32(w),
        opcode::OP => decode_op(w),
        opcode::OP_32 => decode_op_32(w),
        opcode::MISC_MEM => decode_misc_mem(w),
        opcode::SYSTEM => decode_system(w),
        _ => None,
    }
}

fn decode_jalr(w: u32) -> Option<Instr>
    requires { bits 6 0 w ≡ JALR }
    ensures { Finds word_of w result }
{
    match field(w, 14, 12) {
        0b000 => Some(Instr::Jalr {
            rd: rd(w),
            rs1: rs1(w),
            offset: immediate(w),
        }),
        _ => None,
    }
}

fn decode_branch(w: u32) -> Option<Instr>
    requires { bits 6 0 w ≡ BRANCH }
    ensures { Finds word_of w result }
{
    let condition = BranchCondition::from_funct3(field(w, 14, 12))?;
    Some(Instr::Branch {
        condition,
        rs1: rs1(w),
        rs2: rs2(w),
        offset: branch_offset(w),
    })
}

fn decode_load(w: u32) -> Option<Instr>
    requires { bits 6 0 w ≡ LOAD }
    ensures { Finds word_of w result }
{
    let op = LoadOp::from_funct3(field(w, 14, 12))?;
    Some(Instr::Load {
        op,
        rd: rd(w),
        rs1: rs1(w),
        offset: immediate(w),
    })
}

fn decode_store(w: u32) -> Option<Instr>
    requires { bits 6 0 w ≡ STORE }
    ensures { Finds word_of w result }
{
    let op = StoreOp::from_funct3(field(w, 14, 12))?;
    Some(Instr::Store {
        op,
        rs1: rs1(w),
        rs2: rs2(w),
        offset: store_offset(w),
    })
}

fn decode_op_imm(w: u32) -> Option<Instr>
    requires { bits 6 0 w ≡ OP_IMM }
    ensures { Finds word_of w result }
{
    match ImmediateOp::from_funct3(field(w, 14, 12)) {
        Some(op) => Some(Instr::RegisterImmediate {
            op,
            rd: rd(w),
            rs1: rs1(w),
            imm: immediate(w),
        }),
        None => {
            let op = ShiftOp::from_functs(field(w, 31, 26), field(w, 14, 12))?;
            Some(Instr::Shift {
                op,
                rd: rd(w),
                rs1: rs1(w),
                count: shift_count(w),
            })
        }
    }
}

fn decode_op_imm_32(w: u32) -> Option<Instr>
    requires { bits 6 0 w ≡ OP_IMM_32 }
    ensures { Finds word_of w result }
{
    match field(w, 14, 12) {
        0b000 => Some(Instr::Addiw {
            rd: rd(w),
            rs1: rs1(w),
            imm: immediate(w),
        }),
        funct3 => {
            let op = ShiftOp::from_word_functs(field(w, 31, 25), funct3)?;
            Some(Instr::ShiftWord {
                op,
                rd: rd(w),
                rs1: rs1(w),
                count: word_shift_count(w),
            })
        }
    }
}

fn decode_op(w: u32) -> Option<Instr>
    requires { bits 6 0 w ≡ OP }
    ensures { Finds word_of w result }
{
    let op = RegisterOp::from_functs(field(w, 31, 25), field(w, 14, 12))?;
    Some(Instr::RegisterRegister {
        op,
        rd: rd(w),
        rs1: rs1(w),
        rs2: rs2(w),
    })
}

fn decode_op_32(w: u32) -> Option<Instr>
    requires { bits 6 0 w ≡ OP_32 }
    ensures { Finds word_of w result }
{
    let op = RegisterWordOp::from_functs(field(w, 31, 25), field(w, 14, 12))?;
    Some(Instr::RegisterRegisterWord {
        op,
        rd: rd(w),
        rs1: rs1(w),
        rs2: rs2(w),
    })
}

fn decode_misc_mem(w: u32) -> Option<Instr>
    requires { bits 6 0 w ≡ MISC_MEM }
    ensures { Finds word_of w result }
{
    match field(w, 14, 12) {
        0b000 => Some(Instr::Fence {
            rd: rd(w),
            rs1: rs1(w),
            fields: fence_fields(w),
        }),
        _ => None,
    }
}

// All other fields of ECALL and EBREAK are fixed.
fn decode_system(w: u32) -> Option<Instr>
    requires { bits 6 0 w ≡ SYSTEM }
    ensures { Finds word_of w result }
{
    match field(w, 31, 7) {
        0 => Some(Instr::Ecall),
        0x2000 => Some(Instr::Ebreak),
        _ => None,
    }
}

fn rd(w: u32) -> Register
    ensures { result.number ≡ bits 11 7 w }
{
    Register {
        number: field(w, 11, 7) as u8,
    }
}

fn rs1(w: u32) -> Register
    ensures { result.number ≡ bits 19 15 w }
{
    Register {
        number: field(w, 19, 15) as u8,
    }
}

fn rs2(w: u32) -> Register
    ensures { result.number ≡ bits 24 20 w }
{
    Register {
        number: field(w, 24, 20) as u8,
    }
}

fn immediate(w: u32) -> Immediate
    ensures { twos_complement 12 result.value ≡ bits 31 20 w }
{
    Immediate::from_bits(field(w, 31, 20))
}

fn store_offset(w: u32) -> Immediate
    ensures { twos_complement 12 result.value ≡ bits 31 25 w * 2 ^ 5 + bits 11 7 w }
{
    Immediate::from_bits(field(w, 31, 25) << 5 | field(w, 11, 7))
}

fn branch_offset(w: u32) -> BranchOffset
    ensures { twos_complement 13 result.bytes
        ≡ bits 31 31 w * 2 ^ 12 + bits 7 7 w * 2 ^ 11 + bits 30 25 w * 2 ^ 5 + bits 11 8 w * 2 }
{
    let bits = field(w, 31, 31) << 12
        | field(w, 7, 7) << 11
        | field(w, 30, 25) << 5
        | field(w, 11, 8) << 1;
    BranchOffset::from_bits(bits)
}

fn upper_immediate(w: u32) -> UpperImmediate
    ensures { result.value ≡ bits 31 12 w }
{
    UpperImmediate {
        value: field(w, 31, 12),
    }
}

fn jump_offset(w: u32) -> JumpOffset
    ensures { twos_complement 21 result.bytes
        ≡ bits 31 31 w * 2 ^ 20 + bits 19 12 w * 2 ^ 12 + bits 20 20 w * 2 ^ 11 + bits 30 21 w * 2 }
{
    let bits = field(w, 31, 31) << 20
        | field(w, 19, 12) << 12
        | field(w, 20, 20) << 11
        | field(w, 30, 21) << 1;
    JumpOffset::from_bits(bits)
}

fn shift_count(w: u32) -> ShiftCount
    ensures { result.count ≡ bits 25 20 w }
{
    ShiftCount {
        count: field(w, 25, 20) as u8,
    }
}

fn word_shift_count(w: u32) -> WordShiftCount
    ensures { result.count ≡ bits 24 20 w }
{
    WordShiftCount {
        count: field(w, 24, 20) as u8,
    }
}

fn fence_fields(w: u32) -> FenceFields
    ensures { result.bits ≡ bits 31 20 w }
{
    FenceFields {
        bits: field(w, 31, 20) as u16,
    }
}

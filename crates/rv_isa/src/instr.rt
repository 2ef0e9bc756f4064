// What an instruction is.

use crate::operand::{
    BranchOffset, FenceFields, Immediate, JumpOffset, Register, ShiftCount, UpperImmediate,
    WordShiftCount,
};
use crate::operation::{
    BranchCondition, ImmediateOp, LoadOp, RegisterOp, RegisterWordOp, ShiftOp, StoreOp,
};

/// An instruction of RV64IM. Every value has a word, and no two have the same.
#[derive(Clone, Copy, PartialEq, Eq)]
pub enum Instr {
    /// LUI: rd is the immediate over twelve zeros, extended by its sign.
    Lui {
        rd: Register,
        imm: UpperImmediate,
    },
    /// AUIPC: the same, added to the address of the instruction.
    Auipc {
        rd: Register,
        imm: UpperImmediate,
    },
    /// JAL: jumps by the offset, with the address of the next instruction in rd.
    Jal {
        rd: Register,
        offset: JumpOffset,
    },
    /// JALR: jumps to rs1 plus the offset, with the address of the next instruction in rd.
    Jalr {
        rd: Register,
        rs1: Register,
        offset: Immediate,
    },
    /// BEQ to BGEU: jumps by the offset if the condition holds of rs1 and rs2.
    Branch {
        condition: BranchCondition,
        rs1: Register,
        rs2: Register,
        offset: BranchOffset,
    },
    /// LB to LWU: rd is what stands at rs1 plus the offset.
    Load {
        op: LoadOp,
        rd: Register,
        rs1: Register,
        offset: Immediate,
    },
    /// SB to SD: writes rs2 at rs1 plus the offset.
    Store {
        op: StoreOp,
        rs1: Register,
        rs2: Register,
        offset: Immediate,
    },
    /// ADDI to ANDI.
    RegisterImmediate {
        op: ImmediateOp,
        rd: Register,
        rs1: Register,
        imm: Immediate,
    },
    /// SLLI, SRLI and SRAI.
    Shift {
        op: ShiftOp,
        rd: Register,
        rs1: Register,
        count: ShiftCount,
    },
    /// ADDIW, the one operation of 32 bits with an immediate that is no shift.
    Addiw {
        rd: Register,
        rs1: Register,
        imm: Immediate,
    },
    /// SLLIW, SRLIW and SRAIW.
    ShiftWord {
        op: ShiftOp,
        rd: Register,
        rs1: Register,
        count: WordShiftCount,
    },
    /// ADD to AND, and MUL to REMU.
    RegisterRegister {
        op: RegisterOp,
        rd: Register,
        rs1: Register,
        rs2: Register,
    },
    /// ADDW to SRAW, and MULW to REMUW.
    RegisterRegisterWord {
        op: RegisterWordOp,
        rd: Register,
        rs1: Register,
        rs2: Register,
    },
    /// FENCE. The manual keeps rd and rs1 for finer fences, and has software write zeros; here they are kept as they stand.
    Fence {
        rd: Register,
        rs1: Register,
        fields: FenceFields,
    },
    /// ECALL.
    Ecall,
    /// EBREAK.
    Ebreak,
}

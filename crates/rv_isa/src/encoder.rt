// From instructions to words.

ghost use Rattle.std.specs.Prelude.{◌≡◌, ◌+◌, ◌*◌, ◌<◌, ◌^◌};
ghost use Rattle.rv_isa.specs.Formats.{r_type, i_type, s_type, b_type, u_type, j_type, twos_complement};
ghost use Rattle.rv_isa.specs.Table.{word_of};
ghost use Rattle.rv_isa.specs.declared.instr.Instr;

use crate::field::field;
use crate::instr::Instr;
use crate::opcode;
use crate::operand::{
    BranchOffset, FenceFields, Immediate, JumpOffset, Register, ShiftCount, WordShiftCount,
};
use crate::operation::{
    BranchCondition, ImmediateOp, LoadOp, RegisterOp, RegisterWordOp, ShiftOp, StoreOp,
};

/// The word of an instruction. RISC-V Unprivileged ISA, chapter "RV32/64G Instruction Set Listings".
pub fn encode(i: Instr) -> u32
    ensures { result ≡ word_of i }
{
    match i {
        Instr::Lui { rd, imm } => u_word(imm.value, rd, opcode::LUI),
        Instr::Auipc { rd, imm } => u_word(imm.value, rd, opcode::AUIPC),
        Instr::Jal { rd, offset } => j_word(offset, rd, opcode::JAL),
        Instr::Jalr { rd, rs1, offset } => i_word(offset.bits(), rs1, 0b000, rd, opcode::JALR),
        Instr::Branch {
            condition,
            rs1,
            rs2,
            offset,
        } => encode_branch(condition, rs1, rs2, offset),
        Instr::Load {
            op,
            rd,
            rs1,
            offset,
        } => encode_load(op, rd, rs1, offset),
        Instr::Store {
            op,
            rs1,
            rs2,
            offset,
        } => encode_store(op, rs1, rs2, offset),
        Instr::RegisterImmediate { op, rd, rs1, imm } => encode_op_imm(op, rd, rs1, imm),
        Instr::Shift { op, rd, rs1, count } => encode_shift(op, rd, rs1, count),
        Instr::Addiw { rd, rs1, imm } => i_word(imm.bits(), rs1, 0b000, rd, opcode::OP_IMM_32),
        Instr::ShiftWord { op, rd, rs1, count } => encode_shift_word(op, rd, rs1, count),
        Instr::RegisterRegister { op, rd, rs1, rs2 } => encode_op(op, rd, rs1, rs2),
        Instr::RegisterRegisterWord { op, rd, rs1, rs2 } => encode_op_32(op, rd, rs1, rs2),
        Instr::Fence { rd, rs1, fields } => encode_fence(rd, rs1, fields),
        Instr::Ecall => i_word(0, Register::ZERO, 0b000, Register::ZERO, opcode::SYSTEM),
        Instr::Ebreak => i_word(1, Register::ZERO, 0b000, Register::ZERO, opcode::SYSTEM),
    }
}

fn encode_branch(
    condition: BranchCondition,
    rs1: Register,
    rs2: Register,
    offset: BranchOffset,
) -> u32
    ensures { result ≡ word_of (Instr.Branch condition rs1 rs2 offset) }
{
    b_word(offset, rs2, rs1, condition.funct3(), opcode::BRANCH)
}

fn encode_load(op: LoadOp, rd: Register, rs1: Register, offset: Immediate) -> u32
    ensures { result ≡ word_of (Instr.Load op rd rs1 offset) }
{
    i_word(offset.bits(), rs1, op.funct3(), rd, opcode::LOAD)
}

fn encode_store(op: StoreOp, rs1: Register, rs2: Register, offset: Immediate) -> u32
    ensures { result ≡ word_of (Instr.Store op rs1 rs2 offset) }
{
    s_word(offset, rs2, rs1, op.funct3(), opcode::STORE)
}

fn encode_op_imm(op: ImmediateOp, rd: Register, rs1: Register, imm: Immediate) -> u32
    ensures { result ≡ word_of (Instr.RegisterImmediate op rd rs1 imm) }
{
    i_word(imm.bits(), rs1, op.funct3(), rd, opcode::OP_IMM)
}

fn encode_shift(op: ShiftOp, rd: Register, rs1: Register, count: ShiftCount) -> u32
    ensures { result ≡ word_of (Instr.Shift op rd rs1 count) }
{
    let upper = op.funct6() << 6 | u32::from(count.count);
    i_word(upper, rs1, op.funct3(), rd, opcode::OP_IMM)
}

fn encode_shift_word(op: ShiftOp, rd: Register, rs1: Register, count: WordShiftCount) -> u32
    ensures { result ≡ word_of (Instr.ShiftWord op rd rs1 count) }
{
    r_word(
        op.word_funct7(),
        count.count,
        rs1,
        op.funct3(),
        rd,
        opcode::OP_IMM_32,
    )
}

fn encode_op(op: RegisterOp, rd: Register, rs1: Register, rs2: Register) -> u32
    ensures { result ≡ word_of (Instr.RegisterRegister op rd rs1 rs2) }
{
    r_word(op.funct7(), rs2.number, rs1, op.funct3(), rd, opcode::OP)
}

fn encode_op_32(op: RegisterWordOp, rd: Register, rs1: Register, rs2: Register) -> u32
    ensures { result ≡ word_of (Instr.RegisterRegisterWord op rd rs1 rs2) }
{
    r_word(op.funct7(), rs2.number, rs1, op.funct3(), rd, opcode::OP_32)
}

fn encode_fence(rd: Register, rs1: Register, fields: FenceFields) -> u32
    ensures { result ≡ word_of (Instr.Fence rd rs1 fields) }
{
    i_word(u32::from(fields.bits), rs1, 0b000, rd, opcode::MISC_MEM)
}

// The fields from rs1 down, which all formats but those of a twenty-bit immediate share: what stands in the place of imm[11:0],
// rs1, funct3, what stands in the place of rd, and the opcode.
fn compose(upper: u32, rs1: u32, funct3: u32, lower: u32, opcode: u32) -> u32
    requires upper { upper < 2 ^ 12 }
    requires rs1 { rs1 < 2 ^ 5 }
    requires funct3 { funct3 < 2 ^ 3 }
    requires lower { lower < 2 ^ 5 }
    requires opcode { opcode < 2 ^ 7 }
    ensures { result ≡ i_type upper rs1 funct3 lower opcode }
{
    upper << 20 | rs1 << 15 | funct3 << 12 | lower << 7 | opcode
}

fn i_word(imm: u32, rs1: Register, funct3: u32, rd: Register, opcode: u32) -> u32
    requires imm { imm < 2 ^ 12 }
    requires funct3 { funct3 < 2 ^ 3 }
    requires opcode { opcode < 2 ^ 7 }
    ensures { result ≡ i_type imm rs1.number funct3 rd.number opcode }
{
    compose(
        imm,
        u32::from(rs1.number),
        funct3,
        u32::from(rd.number),
        opcode,
    )
}

// The count of a shift may stand in the place of rs2.
fn r_word(funct7: u32, rs2: u8, rs1: Register, funct3: u32, rd: Register, opcode: u32) -> u32
    requires funct7 { funct7 < 2 ^ 7 }
    requires rs2 { rs2 < 2 ^ 5 }
    requires funct3 { funct3 < 2 ^ 3 }
    requires opcode { opcode < 2 ^ 7 }
    ensures { result ≡ r_type funct7 rs2 rs1.number funct3 rd.number opcode }
{
    let upper = funct7 << 5 | u32::from(rs2);
    compose(
        upper,
        u32::from(rs1.number),
        funct3,
        u32::from(rd.number),
        opcode,
    )
}

fn s_word(imm: Immediate, rs2: Register, rs1: Register, funct3: u32, opcode: u32) -> u32
    requires funct3 { funct3 < 2 ^ 3 }
    requires opcode { opcode < 2 ^ 7 }
    ensures { result ≡ s_type (twos_complement 12 imm.value) rs2.number rs1.number funct3 opcode }
{
    let imm = imm.bits();
    let upper = field(imm, 11, 5) << 5 | u32::from(rs2.number);
    compose(
        upper,
        u32::from(rs1.number),
        funct3,
        field(imm, 4, 0),
        opcode,
    )
}

fn b_word(offset: BranchOffset, rs2: Register, rs1: Register, funct3: u32, opcode: u32) -> u32
    requires funct3 { funct3 < 2 ^ 3 }
    requires opcode { opcode < 2 ^ 7 }
    ensures { result ≡ b_type (twos_complement 13 offset.bytes) rs2.number rs1.number funct3 opcode }
{
    let imm = offset.bits();
    let upper = field(imm, 12, 12) << 11 | field(imm, 10, 5) << 5 | u32::from(rs2.number);
    let lower = field(imm, 4, 1) << 1 | field(imm, 11, 11);
    compose(upper, u32::from(rs1.number), funct3, lower, opcode)
}

fn u_word(imm: u32, rd: Register, opcode: u32) -> u32
    requires imm { imm < 2 ^ 20 }
    requires opcode { opcode < 2 ^ 7 }
    ensures { result ≡ u_type imm rd.number opcode }
{
    imm << 12 | u32::from(rd.number) << 7 | opcode
}

fn j_word(offset: JumpOffset, rd: Register, opcode: u32) -> u32
    requires opcode { opcode < 2 ^ 7 }
    ensures { result ≡ j_type (twos_complement 21 offset.bytes) rd.number opcode }
{
    let imm = offset.bits();
    let upper = field(imm, 20, 20) << 19
        | field(imm, 10, 1) << 9
        | field(imm, 11, 11) << 8
        | field(imm, 19, 12);
    u_word(upper, rd, opcode)
}

// Words of text as the machine keeps them.

ghost use Rattle.std.specs.Prelude.{◌≡◌, Some};
ghost use Rattle.rv_isa.specs.declared.instr.Instr.TheVariants.{Branch, Load, Store, RegisterRegister};
ghost use Rattle.rv_machine.specs.Decoded.{found_of};

use rv_isa::{
    BranchCondition, BranchOffset, FenceFields, Immediate, ImmediateOp, Instr, JumpOffset, LoadOp,
    Register, RegisterOp, RegisterWordOp, ShiftCount, ShiftOp, StoreOp, UpperImmediate,
    WordShiftCount,
};

/// A word of text, decoded. The commonest instructions have a variant of their own, so that a quiet step asks only once which one it
/// is to carry out; and no variant holds an [`Instr`], so that a word takes eight bytes and its place is found by one multiplication.
#[derive(Clone, Copy, PartialEq, Eq)]
pub enum Decoded {
    /// The word is no instruction.
    Illegal,
    /// LUI.
    LoadUpper {
        rd: Register,
        imm: UpperImmediate,
    },
    /// JAL.
    Jump {
        rd: Register,
        offset: JumpOffset,
    },
    /// JALR.
    JumpRegister {
        rd: Register,
        rs1: Register,
        offset: Immediate,
    },
    /// BEQ.
    BranchEqual {
        rs1: Register,
        rs2: Register,
        offset: BranchOffset,
    },
    /// BNE.
    BranchNotEqual {
        rs1: Register,
        rs2: Register,
        offset: BranchOffset,
    },
    /// ADDI.
    AddImmediate {
        rd: Register,
        rs1: Register,
        imm: Immediate,
    },
    /// SLLI.
    ShiftLeft {
        rd: Register,
        rs1: Register,
        count: ShiftCount,
    },
    /// ADD.
    Add {
        rd: Register,
        rs1: Register,
        rs2: Register,
    },
    /// SUB.
    Subtract {
        rd: Register,
        rs1: Register,
        rs2: Register,
    },
    /// XOR.
    Xor {
        rd: Register,
        rs1: Register,
        rs2: Register,
    },
    /// MUL.
    Multiply {
        rd: Register,
        rs1: Register,
        rs2: Register,
    },
    /// LBU.
    LoadByte {
        rd: Register,
        rs1: Register,
        offset: Immediate,
    },
    /// LW.
    LoadWord {
        rd: Register,
        rs1: Register,
        offset: Immediate,
    },
    /// LD.
    LoadDouble {
        rd: Register,
        rs1: Register,
        offset: Immediate,
    },
    /// SB.
    StoreByte {
        rs1: Register,
        rs2: Register,
        offset: Immediate,
    },
    /// SW.
    StoreWord {
        rs1: Register,
        rs2: Register,
        offset: Immediate,
    },
    /// SD.
    StoreDouble {
        rs1: Register,
        rs2: Register,
        offset: Immediate,
    },
    /// AUIPC.
    AddUpper {
        rd: Register,
        imm: UpperImmediate,
    },
    /// BLT, BGE, BLTU and BGEU.
    Branch {
        condition: BranchCondition,
        rs1: Register,
        rs2: Register,
        offset: BranchOffset,
    },
    /// LB, LH, LHU and LWU.
    Load {
        op: LoadOp,
        rd: Register,
        rs1: Register,
        offset: Immediate,
    },
    /// SH.
    Store {
        op: StoreOp,
        rs1: Register,
        rs2: Register,
        offset: Immediate,
    },
    /// SLTI to ANDI.
    RegisterImmediate {
        op: ImmediateOp,
        rd: Register,
        rs1: Register,
        imm: Immediate,
    },
    /// SRLI and SRAI.
    Shift {
        op: ShiftOp,
        rd: Register,
        rs1: Register,
        count: ShiftCount,
    },
    /// ADDIW.
    AddImmediateWord {
        rd: Register,
        rs1: Register,
        imm: Immediate,
    },
    /// SLLIW, SRLIW and SRAIW.
    ShiftWord {
        op: ShiftOp,
        rd: Register,
        rs1: Register,
        count: WordShiftCount,
    },
    /// The operations on two registers that have no variant above.
    Registers {
        op: RegisterOp,
        rd: Register,
        rs1: Register,
        rs2: Register,
    },
    /// ADDW to SRAW, and MULW to REMUW.
    RegistersWord {
        op: RegisterWordOp,
        rd: Register,
        rs1: Register,
        rs2: Register,
    },
    /// FENCE.
    Fence {
        rd: Register,
        rs1: Register,
        fields: FenceFields,
    },
    /// ECALL.
    Call,
    /// EBREAK.
    Break,
}

impl Decoded {
    /// The word that was found to be this instruction, or none.
    pub(crate) fn new(found: Option<Instr>) -> Decoded
        ensures { found_of result ≡ found }
    {
        match found {
            Some(instr) => instruction(instr),
            None => Decoded::Illegal,
        }
    }

    /// The instruction that the word was found to be, or none.
    pub(crate) fn found(self) -> Option<Instr>
        ensures { result ≡ found_of self }
    {
        match self {
            Decoded::Illegal => None,
            Decoded::LoadUpper { rd, imm } => Some(Instr::Lui { rd, imm }),
            Decoded::Jump { rd, offset } => Some(Instr::Jal { rd, offset }),
            Decoded::JumpRegister { rd, rs1, offset } => Some(Instr::Jalr { rd, rs1, offset }),
            Decoded::BranchEqual { rs1, rs2, offset } => Some(Instr::Branch {
                condition: BranchCondition::Eq,
                rs1,
                rs2,
                offset,
            }),
            Decoded::BranchNotEqual { rs1, rs2, offset } => Some(Instr::Branch {
                condition: BranchCondition::Ne,
                rs1,
                rs2,
                offset,
            }),
            Decoded::AddImmediate { rd, rs1, imm } => Some(Instr::RegisterImmediate {
                op: ImmediateOp::Addi,
                rd,
                rs1,
                imm,
            }),
            Decoded::ShiftLeft { rd, rs1, count } => Some(Instr::Shift {
                op: ShiftOp::Slli,
                rd,
                rs1,
                count,
            }),
            Decoded::Add { rd, rs1, rs2 } => Some(of_registers(RegisterOp::Add, rd, rs1, rs2)),
            Decoded::Subtract { rd, rs1, rs2 } => Some(of_registers(RegisterOp::Sub, rd, rs1, rs2)),
            Decoded::Xor { rd, rs1, rs2 } => Some(of_registers(RegisterOp::Xor, rd, rs1, rs2)),
            Decoded::Multiply { rd, rs1, rs2 } => Some(of_registers(RegisterOp::Mul, rd, rs1, rs2)),
            Decoded::LoadByte { rd, rs1, offset } => Some(of_load(LoadOp::Lbu, rd, rs1, offset)),
            Decoded::LoadWord { rd, rs1, offset } => Some(of_load(LoadOp::Lw, rd, rs1, offset)),
            Decoded::LoadDouble { rd, rs1, offset } => Some(of_load(LoadOp::Ld, rd, rs1, offset)),
            Decoded::StoreByte { rs1, rs2, offset } => Some(of_store(
                StoreOp::Sb,
                rs1,
                rs2,
                offset,
            )),
            Decoded::StoreWord { rs1, rs2, offset } => Some(of_store(
                StoreOp::Sw,
                rs1,
                rs2,
                offset,
            )),
            Decoded::StoreDouble { rs1, rs2, offset } => {
                Some(of_store(StoreOp::Sd, rs1, rs2, offset))
            }
            Decoded::AddUpper { rd, imm } => Some(Instr::Auipc { rd, imm }),
            Decoded::Branch {
                condition,
                rs1,
                rs2,
                offset,
            } => Some(Instr::Branch {
                condition,
                rs1,
                rs2,
                offset,
            }),
            Decoded::Load {
                op,
                rd,
                rs1,
                offset,
            } => Some(of_load(op, rd, rs1, offset)),
            Decoded::Store {
                op,
                rs1,
                rs2,
                offset,
            } => Some(of_store(op, rs1, rs2, offset)),
            Decoded::RegisterImmediate { op, rd, rs1, imm } => Some(Instr::RegisterImmediate {
                op,
                rd,
                rs1,
                imm,
            }),
            Decoded::Shift { op, rd, rs1, count } => Some(Instr::Shift { op, rd, rs1, count }),
            Decoded::AddImmediateWord { rd, rs1, imm } => Some(Instr::Addiw { rd, rs1, imm }),
            Decoded::ShiftWord { op, rd, rs1, count } => Some(Instr::ShiftWord {
                op,
                rd,
                rs1,
                count,
            }),
            Decoded::Registers { op, rd, rs1, rs2 } => Some(of_registers(op, rd, rs1, rs2)),
            Decoded::RegistersWord { op, rd, rs1, rs2 } => Some(Instr::RegisterRegisterWord {
                op,
                rd,
                rs1,
                rs2,
            }),
            Decoded::Fence { rd, rs1, fields } => Some(Instr::Fence { rd, rs1, fields }),
            Decoded::Call => Some(Instr::Ecall),
            Decoded::Break => Some(Instr::Ebreak),
        }
    }
}

// An instruction on two registers.
fn of_registers(op: RegisterOp, rd: Register, rs1: Register, rs2: Register) -> Instr
    ensures { result ≡ RegisterRegister op rd rs1 rs2 }
{
    Instr::RegisterRegister { op, rd, rs1, rs2 }
}

// A load.
fn of_load(op: LoadOp, rd: Register, rs1: Register, offset: Immediate) -> Instr
    ensures { result ≡ Load op rd rs1 offset }
{
    Instr::Load {
        op,
        rd,
        rs1,
        offset,
    }
}

// A store.
fn of_store(op: StoreOp, rs1: Register, rs2: Register, offset: Immediate) -> Instr
    ensures { result ≡ Store op rs1 rs2 offset }
{
    Instr::Store {
        op,
        rs1,
        rs2,
        offset,
    }
}

// The word of an instruction.
fn instruction(instr: Instr) -> Decoded
    ensures { found_of result ≡ Some instr }
{
    match instr {
        Instr::Lui { rd, imm } => Decoded::LoadUpper { rd, imm },
        Instr::Jal { rd, offset } => Decoded::Jump { rd, offset },
        Instr::Jalr { rd, rs1, offset } => Decoded::JumpRegister { rd, rs1, offset },
        Instr::Branch {
            condition,
            rs1,
            rs2,
            offset,
        } => branch(condition, rs1, rs2, offset),
        Instr::RegisterImmediate {
            op: ImmediateOp::Addi,
            rd,
            rs1,
            imm,
        } => Decoded::AddImmediate { rd, rs1, imm },
        Instr::Shift {
            op: ShiftOp::Slli,
            rd,
            rs1,
            count,
        } => Decoded::ShiftLeft { rd, rs1, count },
        Instr::RegisterRegister { op, rd, rs1, rs2 } => registers(op, rd, rs1, rs2),
        Instr::Load {
            op,
            rd,
            rs1,
            offset,
        } => load(op, rd, rs1, offset),
        Instr::Store {
            op,
            rs1,
            rs2,
            offset,
        } => store(op, rs1, rs2, offset),
        Instr::Auipc { rd, imm } => Decoded::AddUpper { rd, imm },
        Instr::RegisterImmediate { op, rd, rs1, imm } => Decoded::RegisterImmediate {
            op,
            rd,
            rs1,
            imm,
        },
        Instr::Shift { op, rd, rs1, count } => Decoded::Shift { op, rd, rs1, count },
        Instr::Addiw { rd, rs1, imm } => Decoded::AddImmediateWord { rd, rs1, imm },
        Instr::ShiftWord { op, rd, rs1, count } => Decoded::ShiftWord { op, rd, rs1, count },
        Instr::RegisterRegisterWord { op, rd, rs1, rs2 } => Decoded::RegistersWord {
            op,
            rd,
            rs1,
            rs2,
        },
        Instr::Fence { rd, rs1, fields } => Decoded::Fence { rd, rs1, fields },
        Instr::Ecall => Decoded::Call,
        Instr::Ebreak => Decoded::Break,
    }
}

// The word of a branch.
fn branch(condition: BranchCondition, rs1: Register, rs2: Register, offset: BranchOffset) -> Decoded
    ensures { found_of result ≡ Some (Branch condition rs1 rs2 offset) }
{
    match condition {
        BranchCondition::Eq => Decoded::BranchEqual { rs1, rs2, offset },
        BranchCondition::Ne => Decoded::BranchNotEqual { rs1, rs2, offset },
        _ => Decoded::Branch {
            condition,
            rs1,
            rs2,
            offset,
        },
    }
}

// The word of an instruction on two registers.
fn registers(op: RegisterOp, rd: Register, rs1: Register, rs2: Register) -> Decoded
    ensures { found_of result ≡ Some (RegisterRegister op rd rs1 rs2) }
{
    match op {
        RegisterOp::Add => Decoded::Add { rd, rs1, rs2 },
        RegisterOp::Sub => Decoded::Subtract { rd, rs1, rs2 },
        RegisterOp::Xor => Decoded::Xor { rd, rs1, rs2 },
        RegisterOp::Mul => Decoded::Multiply { rd, rs1, rs2 },
        _ => Decoded::Registers { op, rd, rs1, rs2 },
    }
}

// The word of a load.
fn load(op: LoadOp, rd: Register, rs1: Register, offset: Immediate) -> Decoded
    ensures { found_of result ≡ Some (Load op rd rs1 offset) }
{
    match op {
        LoadOp::Lbu => Decoded::LoadByte { rd, rs1, offset },
        LoadOp::Lw => Decoded::LoadWord { rd, rs1, offset },
        LoadOp::Ld => Decoded::LoadDouble { rd, rs1, offset },
        _ => Decoded::Load {
            op,
            rd,
            rs1,
            offset,
        },
    }
}

// The word of a store.
fn store(op: StoreOp, rs1: Register, rs2: Register, offset: Immediate) -> Decoded
    ensures { found_of result ≡ Some (Store op rs1 rs2 offset) }
{
    match op {
        StoreOp::Sb => Decoded::StoreByte { rs1, rs2, offset },
        StoreOp::Sw => Decoded::StoreWord { rs1, rs2, offset },
        StoreOp::Sd => Decoded::StoreDouble { rs1, rs2, offset },
        _ => Decoded::Store {
            op,
            rs1,
            rs2,
            offset,
        },
    }
}

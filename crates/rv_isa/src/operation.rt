// The operations that share a format and an opcode, by the manual's names.

ghost use Rattle.std.specs.Prelude.{◌≡◌};
ghost use Rattle.rv_isa.specs.Finds.{Finds, FindsBoth};

/// When a branch is taken: BEQ, BNE, BLT, BGE, BLTU and BGEU.
#[derive(Clone, Copy, PartialEq, Eq)]
pub enum BranchCondition {
    Eq,
    Ne,
    Lt,
    Ge,
    Ltu,
    Geu,
}

impl BranchCondition {
    ghost use Rattle.rv_isa.specs.Rows.{branch_funct3};

    pub(crate) fn funct3(self) -> u32
        ensures { result ≡ branch_funct3 self }
    {
        match self {
            BranchCondition::Eq => 0b000,
            BranchCondition::Ne => 0b001,
            BranchCondition::Lt => 0b100,
            BranchCondition::Ge => 0b101,
            BranchCondition::Ltu => 0b110,
            BranchCondition::Geu => 0b111,
        }
    }

    pub(crate) fn from_funct3(funct3: u32) -> Option<BranchCondition>
        ensures { Finds branch_funct3 funct3 result }
    {
        match funct3 {
            0b000 => Some(BranchCondition::Eq),
            0b001 => Some(BranchCondition::Ne),
            0b100 => Some(BranchCondition::Lt),
            0b101 => Some(BranchCondition::Ge),
            0b110 => Some(BranchCondition::Ltu),
            0b111 => Some(BranchCondition::Geu),
            _ => None,
        }
    }
}

/// What a load reads: 1, 2, 4 or 8 bytes, extended by the sign or, with a last `u`, by zeros.
#[derive(Clone, Copy, PartialEq, Eq)]
pub enum LoadOp {
    Lb,
    Lh,
    Lw,
    Ld,
    Lbu,
    Lhu,
    Lwu,
}

impl LoadOp {
    ghost use Rattle.rv_isa.specs.Rows.{load_funct3};

    pub(crate) fn funct3(self) -> u32
        ensures { result ≡ load_funct3 self }
    {
        match self {
            LoadOp::Lb => 0b000,
            LoadOp::Lh => 0b001,
            LoadOp::Lw => 0b010,
            LoadOp::Ld => 0b011,
            LoadOp::Lbu => 0b100,
            LoadOp::Lhu => 0b101,
            LoadOp::Lwu => 0b110,
        }
    }

    pub(crate) fn from_funct3(funct3: u32) -> Option<LoadOp>
        ensures { Finds load_funct3 funct3 result }
    {
        match funct3 {
            0b000 => Some(LoadOp::Lb),
            0b001 => Some(LoadOp::Lh),
            0b010 => Some(LoadOp::Lw),
            0b011 => Some(LoadOp::Ld),
            0b100 => Some(LoadOp::Lbu),
            0b101 => Some(LoadOp::Lhu),
            0b110 => Some(LoadOp::Lwu),
            _ => None,
        }
    }
}

/// What a store writes: the low 1, 2, 4 or 8 bytes.
#[derive(Clone, Copy, PartialEq, Eq)]
pub enum StoreOp {
    Sb,
    Sh,
    Sw,
    Sd,
}

impl StoreOp {
    ghost use Rattle.rv_isa.specs.Rows.{store_funct3};

    pub(crate) fn funct3(self) -> u32
        ensures { result ≡ store_funct3 self }
    {
        match self {
            StoreOp::Sb => 0b000,
            StoreOp::Sh => 0b001,
            StoreOp::Sw => 0b010,
            StoreOp::Sd => 0b011,
        }
    }

    pub(crate) fn from_funct3(funct3: u32) -> Option<StoreOp>
        ensures { Finds store_funct3 funct3 result }
    {
        match funct3 {
            0b000 => Some(StoreOp::Sb),
            0b001 => Some(StoreOp::Sh),
            0b010 => Some(StoreOp::Sw),
            0b011 => Some(StoreOp::Sd),
            _ => None,
        }
    }
}

/// An operation on a register and an immediate of twelve bits.
#[derive(Clone, Copy, PartialEq, Eq)]
pub enum ImmediateOp {
    Addi,
    Slti,
    Sltiu,
    Xori,
    Ori,
    Andi,
}

impl ImmediateOp {
    ghost use Rattle.rv_isa.specs.Rows.{immediate_funct3};

    pub(crate) fn funct3(self) -> u32
        ensures { result ≡ immediate_funct3 self }
    {
        match self {
            ImmediateOp::Addi => 0b000,
            ImmediateOp::Slti => 0b010,
            ImmediateOp::Sltiu => 0b011,
            ImmediateOp::Xori => 0b100,
            ImmediateOp::Ori => 0b110,
            ImmediateOp::Andi => 0b111,
        }
    }

    pub(crate) fn from_funct3(funct3: u32) -> Option<ImmediateOp>
        ensures { Finds immediate_funct3 funct3 result }
    {
        match funct3 {
            0b000 => Some(ImmediateOp::Addi),
            0b010 => Some(ImmediateOp::Slti),
            0b011 => Some(ImmediateOp::Sltiu),
            0b100 => Some(ImmediateOp::Xori),
            0b110 => Some(ImmediateOp::Ori),
            0b111 => Some(ImmediateOp::Andi),
            _ => None,
        }
    }
}

/// A shift by a count that stands in the instruction. The same three shift 64 bits and, as SLLIW, SRLIW and SRAIW, 32 bits.
#[derive(Clone, Copy, PartialEq, Eq)]
pub enum ShiftOp {
    Slli,
    Srli,
    Srai,
}

impl ShiftOp {
    ghost use Rattle.rv_isa.specs.Rows.{shift_funct6, shift_word_funct7, shift_funct3};

    pub(crate) fn funct6(self) -> u32
        ensures { result ≡ shift_funct6 self }
    {
        match self {
            ShiftOp::Slli => 0b000000,
            ShiftOp::Srli => 0b000000,
            ShiftOp::Srai => 0b010000,
        }
    }

    pub(crate) fn word_funct7(self) -> u32
        ensures { result ≡ shift_word_funct7 self }
    {
        match self {
            ShiftOp::Slli => 0b000_0000,
            ShiftOp::Srli => 0b000_0000,
            ShiftOp::Srai => 0b010_0000,
        }
    }

    pub(crate) fn funct3(self) -> u32
        ensures { result ≡ shift_funct3 self }
    {
        match self {
            ShiftOp::Slli => 0b001,
            ShiftOp::Srli => 0b101,
            ShiftOp::Srai => 0b101,
        }
    }

    pub(crate) fn from_functs(funct6: u32, funct3: u32) -> Option<ShiftOp>
        ensures { FindsBoth shift_funct6 shift_funct3 funct6 funct3 result }
    {
        match (funct6, funct3) {
            (0b000000, 0b001) => Some(ShiftOp::Slli),
            (0b000000, 0b101) => Some(ShiftOp::Srli),
            (0b010000, 0b101) => Some(ShiftOp::Srai),
            _ => None,
        }
    }

    pub(crate) fn from_word_functs(funct7: u32, funct3: u32) -> Option<ShiftOp>
        ensures { FindsBoth shift_word_funct7 shift_funct3 funct7 funct3 result }
    {
        match (funct7, funct3) {
            (0b000_0000, 0b001) => Some(ShiftOp::Slli),
            (0b000_0000, 0b101) => Some(ShiftOp::Srli),
            (0b010_0000, 0b101) => Some(ShiftOp::Srai),
            _ => None,
        }
    }
}

/// An operation on two registers, of RV64I and, from `Mul` on, of the extension M.
#[derive(Clone, Copy, PartialEq, Eq)]
pub enum RegisterOp {
    Add,
    Sub,
    Sll,
    Slt,
    Sltu,
    Xor,
    Srl,
    Sra,
    Or,
    And,
    Mul,
    Mulh,
    Mulhsu,
    Mulhu,
    Div,
    Divu,
    Rem,
    Remu,
}

impl RegisterOp {
    ghost use Rattle.rv_isa.specs.Rows.{register_funct7, register_funct3};

    pub(crate) fn funct7(self) -> u32
        ensures { result ≡ register_funct7 self }
    {
        match self {
            RegisterOp::Add => 0b000_0000,
            RegisterOp::Sub => 0b010_0000,
            RegisterOp::Sll => 0b000_0000,
            RegisterOp::Slt => 0b000_0000,
            RegisterOp::Sltu => 0b000_0000,
            RegisterOp::Xor => 0b000_0000,
            RegisterOp::Srl => 0b000_0000,
            RegisterOp::Sra => 0b010_0000,
            RegisterOp::Or => 0b000_0000,
            RegisterOp::And => 0b000_0000,
            RegisterOp::Mul => 0b000_0001,
            RegisterOp::Mulh => 0b000_0001,
            RegisterOp::Mulhsu => 0b000_0001,
            RegisterOp::Mulhu => 0b000_0001,
            RegisterOp::Div => 0b000_0001,
            RegisterOp::Divu => 0b000_0001,
            RegisterOp::Rem => 0b000_0001,
            RegisterOp::Remu => 0b000_0001,
        }
    }

    pub(crate) fn funct3(self) -> u32
        ensures { result ≡ register_funct3 self }
    {
        match self {
            RegisterOp::Add => 0b000,
            RegisterOp::Sub => 0b000,
            RegisterOp::Sll => 0b001,
            RegisterOp::Slt => 0b010,
            RegisterOp::Sltu => 0b011,
            RegisterOp::Xor => 0b100,
            RegisterOp::Srl => 0b101,
            RegisterOp::Sra => 0b101,
            RegisterOp::Or => 0b110,
            RegisterOp::And => 0b111,
            RegisterOp::Mul => 0b000,
            RegisterOp::Mulh => 0b001,
            RegisterOp::Mulhsu => 0b010,
            RegisterOp::Mulhu => 0b011,
            RegisterOp::Div => 0b100,
            RegisterOp::Divu => 0b101,
            RegisterOp::Rem => 0b110,
            RegisterOp::Remu => 0b111,
        }
    }

    pub(crate) fn from_functs(funct7: u32, funct3: u32) -> Option<RegisterOp>
        ensures { FindsBoth register_funct7 register_funct3 funct7 funct3 result }
    {
        match (funct7, funct3) {
            (0b000_0000, 0b000) => Some(RegisterOp::Add),
            (0b010_0000, 0b000) => Some(RegisterOp::Sub),
            (0b000_0000, 0b001) => Some(RegisterOp::Sll),
            (0b000_0000, 0b010) => Some(RegisterOp::Slt),
            (0b000_0000, 0b011) => Some(RegisterOp::Sltu),
            (0b000_0000, 0b100) => Some(RegisterOp::Xor),
            (0b000_0000, 0b101) => Some(RegisterOp::Srl),
            (0b010_0000, 0b101) => Some(RegisterOp::Sra),
            (0b000_0000, 0b110) => Some(RegisterOp::Or),
            (0b000_0000, 0b111) => Some(RegisterOp::And),
            (0b000_0001, 0b000) => Some(RegisterOp::Mul),
            (0b000_0001, 0b001) => Some(RegisterOp::Mulh),
            (0b000_0001, 0b010) => Some(RegisterOp::Mulhsu),
            (0b000_0001, 0b011) => Some(RegisterOp::Mulhu),
            (0b000_0001, 0b100) => Some(RegisterOp::Div),
            (0b000_0001, 0b101) => Some(RegisterOp::Divu),
            (0b000_0001, 0b110) => Some(RegisterOp::Rem),
            (0b000_0001, 0b111) => Some(RegisterOp::Remu),
            _ => None,
        }
    }
}

/// An operation on the low 32 bits of two registers, of RV64I and, from `Mulw` on, of the extension M.
#[derive(Clone, Copy, PartialEq, Eq)]
pub enum RegisterWordOp {
    Addw,
    Subw,
    Sllw,
    Srlw,
    Sraw,
    Mulw,
    Divw,
    Divuw,
    Remw,
    Remuw,
}

impl RegisterWordOp {
    ghost use Rattle.rv_isa.specs.Rows.{register_word_funct7, register_word_funct3};

    pub(crate) fn funct7(self) -> u32
        ensures { result ≡ register_word_funct7 self }
    {
        match self {
            RegisterWordOp::Addw => 0b000_0000,
            RegisterWordOp::Subw => 0b010_0000,
            RegisterWordOp::Sllw => 0b000_0000,
            RegisterWordOp::Srlw => 0b000_0000,
            RegisterWordOp::Sraw => 0b010_0000,
            RegisterWordOp::Mulw => 0b000_0001,
            RegisterWordOp::Divw => 0b000_0001,
            RegisterWordOp::Divuw => 0b000_0001,
            RegisterWordOp::Remw => 0b000_0001,
            RegisterWordOp::Remuw => 0b000_0001,
        }
    }

    pub(crate) fn funct3(self) -> u32
        ensures { result ≡ register_word_funct3 self }
    {
        match self {
            RegisterWordOp::Addw => 0b000,
            RegisterWordOp::Subw => 0b000,
            RegisterWordOp::Sllw => 0b001,
            RegisterWordOp::Srlw => 0b101,
            RegisterWordOp::Sraw => 0b101,
            RegisterWordOp::Mulw => 0b000,
            RegisterWordOp::Divw => 0b100,
            RegisterWordOp::Divuw => 0b101,
            RegisterWordOp::Remw => 0b110,
            RegisterWordOp::Remuw => 0b111,
        }
    }

    pub(crate) fn from_functs(funct7: u32, funct3: u32) -> Option<RegisterWordOp>
        ensures { FindsBoth register_word_funct7 register_word_funct3 funct7 funct3 result }
    {
        match (funct7, funct3) {
            (0b000_0000, 0b000) => Some(RegisterWordOp::Addw),
            (0b010_0000, 0b000) => Some(RegisterWordOp::Subw),
            (0b000_0000, 0b001) => Some(RegisterWordOp::Sllw),
            (0b000_0000, 0b101) => Some(RegisterWordOp::Srlw),
            (0b010_0000, 0b101) => Some(RegisterWordOp::Sraw),
            (0b000_0001, 0b000) => Some(RegisterWordOp::Mulw),
            (0b000_0001, 0b100) => Some(RegisterWordOp::Divw),
            (0b000_0001, 0b101) => Some(RegisterWordOp::Divuw),
            (0b000_0001, 0b110) => Some(RegisterWordOp::Remw),
            (0b000_0001, 0b111) => Some(RegisterWordOp::Remuw),
            _ => None,
        }
    }
}

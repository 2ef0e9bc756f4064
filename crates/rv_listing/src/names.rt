// Operations: what an instruction is but for its operands, and their names.

ghost use Rattle.std.specs.Prelude.{◌≡◌, ◌≤◌, length};
ghost use Rattle.rv_listing.specs.Texts.{branch_name, load_name, store_name, immediate_name, shift_name};
ghost use Rattle.rv_listing.specs.Texts.{shift_word_name, register_name, register_word_name};
ghost use Rattle.rv_listing.specs.Reading.{operation_of, operation_name, operation_named, first_named};

use rv_isa::{
    BranchCondition, ImmediateOp, Instr, LoadOp, RegisterOp, RegisterWordOp, ShiftOp, StoreOp,
};

pub(crate) fn branch_name(condition: BranchCondition) -> &'static [u8]
    ensures name { result.now ≡ branch_name condition }
    ensures short { length result.now ≤ 6 }
{
    match condition {
        BranchCondition::Eq => b"beq",
        BranchCondition::Ne => b"bne",
        BranchCondition::Lt => b"blt",
        BranchCondition::Ge => b"bge",
        BranchCondition::Ltu => b"bltu",
        BranchCondition::Geu => b"bgeu",
    }
}

pub(crate) fn load_name(op: LoadOp) -> &'static [u8]
    ensures name { result.now ≡ load_name op }
    ensures short { length result.now ≤ 6 }
{
    match op {
        LoadOp::Lb => b"lb",
        LoadOp::Lh => b"lh",
        LoadOp::Lw => b"lw",
        LoadOp::Ld => b"ld",
        LoadOp::Lbu => b"lbu",
        LoadOp::Lhu => b"lhu",
        LoadOp::Lwu => b"lwu",
    }
}

pub(crate) fn store_name(op: StoreOp) -> &'static [u8]
    ensures name { result.now ≡ store_name op }
    ensures short { length result.now ≤ 6 }
{
    match op {
        StoreOp::Sb => b"sb",
        StoreOp::Sh => b"sh",
        StoreOp::Sw => b"sw",
        StoreOp::Sd => b"sd",
    }
}

pub(crate) fn immediate_name(op: ImmediateOp) -> &'static [u8]
    ensures name { result.now ≡ immediate_name op }
    ensures short { length result.now ≤ 6 }
{
    match op {
        ImmediateOp::Addi => b"addi",
        ImmediateOp::Slti => b"slti",
        ImmediateOp::Sltiu => b"sltiu",
        ImmediateOp::Xori => b"xori",
        ImmediateOp::Ori => b"ori",
        ImmediateOp::Andi => b"andi",
    }
}

pub(crate) fn shift_name(op: ShiftOp) -> &'static [u8]
    ensures name { result.now ≡ shift_name op }
    ensures short { length result.now ≤ 6 }
{
    match op {
        ShiftOp::Slli => b"slli",
        ShiftOp::Srli => b"srli",
        ShiftOp::Srai => b"srai",
    }
}

pub(crate) fn shift_word_name(op: ShiftOp) -> &'static [u8]
    ensures name { result.now ≡ shift_word_name op }
    ensures short { length result.now ≤ 6 }
{
    match op {
        ShiftOp::Slli => b"slliw",
        ShiftOp::Srli => b"srliw",
        ShiftOp::Srai => b"sraiw",
    }
}

pub(crate) fn register_name(op: RegisterOp) -> &'static [u8]
    ensures name { result.now ≡ register_name op }
    ensures short { length result.now ≤ 6 }
{
    match op {
        RegisterOp::Add => b"add",
        RegisterOp::Sub => b"sub",
        RegisterOp::Sll => b"sll",
        RegisterOp::Slt => b"slt",
        RegisterOp::Sltu => b"sltu",
        RegisterOp::Xor => b"xor",
        RegisterOp::Srl => b"srl",
        RegisterOp::Sra => b"sra",
        RegisterOp::Or => b"or",
        RegisterOp::And => b"and",
        RegisterOp::Mul => b"mul",
        RegisterOp::Mulh => b"mulh",
        RegisterOp::Mulhsu => b"mulhsu",
        RegisterOp::Mulhu => b"mulhu",
        RegisterOp::Div => b"div",
        RegisterOp::Divu => b"divu",
        RegisterOp::Rem => b"rem",
        RegisterOp::Remu => b"remu",
    }
}

pub(crate) fn register_word_name(op: RegisterWordOp) -> &'static [u8]
    ensures name { result.now ≡ register_word_name op }
    ensures short { length result.now ≤ 6 }
{
    match op {
        RegisterWordOp::Addw => b"addw",
        RegisterWordOp::Subw => b"subw",
        RegisterWordOp::Sllw => b"sllw",
        RegisterWordOp::Srlw => b"srlw",
        RegisterWordOp::Sraw => b"sraw",
        RegisterWordOp::Mulw => b"mulw",
        RegisterWordOp::Divw => b"divw",
        RegisterWordOp::Divuw => b"divuw",
        RegisterWordOp::Remw => b"remw",
        RegisterWordOp::Remuw => b"remuw",
    }
}

/// What an instruction is but for its operands.
#[derive(Clone, Copy)]
pub(crate) enum Operation {
    Lui,
    Auipc,
    Jal,
    Jalr,
    Branch(BranchCondition),
    Load(LoadOp),
    Store(StoreOp),
    RegisterImmediate(ImmediateOp),
    Shift(ShiftOp),
    Addiw,
    ShiftWord(ShiftOp),
    RegisterRegister(RegisterOp),
    RegisterRegisterWord(RegisterWordOp),
    Fence,
    Ecall,
    Ebreak,
}

/// All of them.
const OPERATIONS: [Operation; 65] = [
    Operation::Lui,
    Operation::Auipc,
    Operation::Jal,
    Operation::Jalr,
    Operation::Branch(BranchCondition::Eq),
    Operation::Branch(BranchCondition::Ne),
    Operation::Branch(BranchCondition::Lt),
    Operation::Branch(BranchCondition::Ge),
    Operation::Branch(BranchCondition::Ltu),
    Operation::Branch(BranchCondition::Geu),
    Operation::Load(LoadOp::Lb),
    Operation::Load(LoadOp::Lh),
    Operation::Load(LoadOp::Lw),
    Operation::Load(LoadOp::Ld),
    Operation::Load(LoadOp::Lbu),
    Operation::Load(LoadOp::Lhu),
    Operation::Load(LoadOp::Lwu),
    Operation::Store(StoreOp::Sb),
    Operation::Store(StoreOp::Sh),
    Operation::Store(StoreOp::Sw),
    Operation::Store(StoreOp::Sd),
    Operation::RegisterImmediate(ImmediateOp::Addi),
    Operation::RegisterImmediate(ImmediateOp::Slti),
    Operation::RegisterImmediate(ImmediateOp::Sltiu),
    Operation::RegisterImmediate(ImmediateOp::Xori),
    Operation::RegisterImmediate(ImmediateOp::Ori),
    Operation::RegisterImmediate(ImmediateOp::Andi),
    Operation::Shift(ShiftOp::Slli),
    Operation::Shift(ShiftOp::Srli),
    Operation::Shift(ShiftOp::Srai),
    Operation::Addiw,
    Operation::ShiftWord(ShiftOp::Slli),
    Operation::ShiftWord(ShiftOp::Srli),
    Operation::ShiftWord(ShiftOp::Srai),
    Operation::RegisterRegister(RegisterOp::Add),
    Operation::RegisterRegister(RegisterOp::Sub),
    Operation::RegisterRegister(RegisterOp::Sll),
    Operation::RegisterRegister(RegisterOp::Slt),
    Operation::RegisterRegister(RegisterOp::Sltu),
    Operation::RegisterRegister(RegisterOp::Xor),
    Operation::RegisterRegister(RegisterOp::Srl),
    Operation::RegisterRegister(RegisterOp::Sra),
    Operation::RegisterRegister(RegisterOp::Or),
    Operation::RegisterRegister(RegisterOp::And),
    Operation::RegisterRegister(RegisterOp::Mul),
    Operation::RegisterRegister(RegisterOp::Mulh),
    Operation::RegisterRegister(RegisterOp::Mulhsu),
    Operation::RegisterRegister(RegisterOp::Mulhu),
    Operation::RegisterRegister(RegisterOp::Div),
    Operation::RegisterRegister(RegisterOp::Divu),
    Operation::RegisterRegister(RegisterOp::Rem),
    Operation::RegisterRegister(RegisterOp::Remu),
    Operation::RegisterRegisterWord(RegisterWordOp::Addw),
    Operation::RegisterRegisterWord(RegisterWordOp::Subw),
    Operation::RegisterRegisterWord(RegisterWordOp::Sllw),
    Operation::RegisterRegisterWord(RegisterWordOp::Srlw),
    Operation::RegisterRegisterWord(RegisterWordOp::Sraw),
    Operation::RegisterRegisterWord(RegisterWordOp::Mulw),
    Operation::RegisterRegisterWord(RegisterWordOp::Divw),
    Operation::RegisterRegisterWord(RegisterWordOp::Divuw),
    Operation::RegisterRegisterWord(RegisterWordOp::Remw),
    Operation::RegisterRegisterWord(RegisterWordOp::Remuw),
    Operation::Fence,
    Operation::Ecall,
    Operation::Ebreak,
];

impl Operation {
    /// The operation of an instruction.
    pub(crate) fn of(i: Instr) -> Operation
        ensures { result ≡ operation_of i }
    {
        match i {
            Instr::Lui { .. } => Operation::Lui,
            Instr::Auipc { .. } => Operation::Auipc,
            Instr::Jal { .. } => Operation::Jal,
            Instr::Jalr { .. } => Operation::Jalr,
            Instr::Branch { condition, .. } => Operation::Branch(condition),
            Instr::Load { op, .. } => Operation::Load(op),
            Instr::Store { op, .. } => Operation::Store(op),
            Instr::RegisterImmediate { op, .. } => Operation::RegisterImmediate(op),
            Instr::Shift { op, .. } => Operation::Shift(op),
            Instr::Addiw { .. } => Operation::Addiw,
            Instr::ShiftWord { op, .. } => Operation::ShiftWord(op),
            Instr::RegisterRegister { op, .. } => Operation::RegisterRegister(op),
            Instr::RegisterRegisterWord { op, .. } => Operation::RegisterRegisterWord(op),
            Instr::Fence { .. } => Operation::Fence,
            Instr::Ecall => Operation::Ecall,
            Instr::Ebreak => Operation::Ebreak,
        }
    }

    /// The name, as it stands in texts.
    pub(crate) fn name(self) -> &'static [u8]
        ensures name { result.now ≡ operation_name self }
        ensures short { length result.now ≤ 6 }
    {
        match self {
            Operation::Lui => b"lui",
            Operation::Auipc => b"auipc",
            Operation::Jal => b"jal",
            Operation::Jalr => b"jalr",
            Operation::Branch(condition) => branch_name(condition),
            Operation::Load(op) => load_name(op),
            Operation::Store(op) => store_name(op),
            Operation::RegisterImmediate(op) => immediate_name(op),
            Operation::Shift(op) => shift_name(op),
            Operation::Addiw => b"addiw",
            Operation::ShiftWord(op) => shift_word_name(op),
            Operation::RegisterRegister(op) => register_name(op),
            Operation::RegisterRegisterWord(op) => register_word_name(op),
            Operation::Fence => b"fence",
            Operation::Ecall => b"ecall",
            Operation::Ebreak => b"ebreak",
        }
    }

    /// The operation of this name.
    pub(crate) fn named(name: &[u8]) -> Option<Operation>
        ensures { result ≡ operation_named name.now }
    {
        first_named(&OPERATIONS, name)
    }
}

// The first operation of this name.
fn first_named(operations: &[Operation], name: &[u8]) -> Option<Operation>
    ensures { result ≡ first_named operations.now name.now }
{
    for operation in operations {
        if operation.name() == name {
            return Some(*operation);
        }
    }
    None
}

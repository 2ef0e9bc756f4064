// Rows of words: the instruction, as the assembler writes it, and its word again.

use crate::words::word_of;
use row_words::word_at;
use rv_isa::{
    BranchCondition, FenceFields, ImmediateOp, Instr, LoadOp, RegisterOp, RegisterWordOp, ShiftOp,
    StoreOp, decode, encode,
};
use std::alloc::Global;
use tl_base::NoMemory;

/// `word WORD`: the word of its instruction, and the instruction.
pub fn answer(alloc: Global, words: &[&str]) -> Result<String, NoMemory> {
    match decode(word_of(word_at(words, 1))) {
        Some(instr) => {
            let word = encode(instr);
            let text = text_of(alloc, instr)?;
            Ok(format!(in alloc; "{word:08x} {text}")?)
        }
        None => Ok(String::from_str(alloc, "none")?),
    }
}

/// An instruction as the assembler writes it, without its aliases.
fn text_of(alloc: Global, instr: Instr) -> Result<String, NoMemory> {
    match instr {
        Instr::Lui { rd, imm } => upper(alloc, "lui", rd.number, imm.value),
        Instr::Auipc { rd, imm } => upper(alloc, "auipc", rd.number, imm.value),
        Instr::Jal { rd, offset } => jump(alloc, rd.number, offset.bytes),
        Instr::Branch {
            condition,
            rs1,
            rs2,
            offset,
        } => {
            branch(
                alloc,
                branch_name(condition),
                rs1.number,
                rs2.number,
                offset.bytes,
            )
        }
        Instr::Jalr { rd, rs1, offset } => {
            access(alloc, "jalr", rd.number, offset.value, rs1.number)
        }
        Instr::Load {
            op,
            rd,
            rs1,
            offset,
        } => { access(alloc, load_name(op), rd.number, offset.value, rs1.number) }
        Instr::Store {
            op,
            rs1,
            rs2,
            offset,
        } => { access(alloc, store_name(op), rs2.number, offset.value, rs1.number) }
        _ => computing_text(alloc, instr),
    }
}

/// An instruction that computes, a fence or a call.
fn computing_text(alloc: Global, instr: Instr) -> Result<String, NoMemory> {
    match instr {
        Instr::RegisterImmediate { op, rd, rs1, imm } => {
            immediate(alloc, immediate_name(op), rd.number, rs1.number, imm.value)
        }
        Instr::Addiw { rd, rs1, imm } => immediate(
            alloc, "addiw", rd.number, rs1.number, imm.value,
        ),
        Instr::Shift { op, rd, rs1, count } => {
            immediate(
                alloc,
                shift_name(op),
                rd.number,
                rs1.number,
                i16::from(count.count),
            )
        }
        Instr::ShiftWord { op, rd, rs1, count } => {
            immediate(
                alloc,
                word_shift_name(op),
                rd.number,
                rs1.number,
                i16::from(count.count),
            )
        }
        Instr::RegisterRegister { op, rd, rs1, rs2 } => {
            registers(alloc, register_name(op), rd.number, rs1.number, rs2.number)
        }
        Instr::RegisterRegisterWord { op, rd, rs1, rs2 } => {
            registers(
                alloc,
                register_word_name(op),
                rd.number,
                rs1.number,
                rs2.number,
            )
        }
        Instr::Fence { rd, rs1, fields } => fence(alloc, rd.number, rs1.number, fields),
        Instr::Ebreak => Ok(String::from_str(alloc, "ebreak")?),
        _ => Ok(String::from_str(alloc, "ecall")?),
    }
}

fn upper(alloc: Global, name: &str, rd: u8, imm: u32) -> Result<String, NoMemory> {
    Ok(format!(in alloc; "{name} x{rd}, {imm}")?)
}

fn jump(alloc: Global, rd: u8, bytes: i32) -> Result<String, NoMemory> {
    Ok(format!(in alloc; "jal x{rd}, .{bytes:+}")?)
}

fn branch(alloc: Global, name: &str, rs1: u8, rs2: u8, bytes: i16) -> Result<String, NoMemory> {
    Ok(format!(in alloc; "{name} x{rs1}, x{rs2}, .{bytes:+}")?)
}

fn access(
    alloc: Global,
    name: &str,
    register: u8,
    offset: i16,
    base: u8,
) -> Result<String, NoMemory> {
    Ok(format!(in alloc; "{name} x{register}, {offset}(x{base})")?)
}

fn immediate(alloc: Global, name: &str, rd: u8, rs1: u8, imm: i16) -> Result<String, NoMemory> {
    Ok(format!(in alloc; "{name} x{rd}, x{rs1}, {imm}")?)
}

fn registers(alloc: Global, name: &str, rd: u8, rs1: u8, rs2: u8) -> Result<String, NoMemory> {
    Ok(format!(in alloc; "{name} x{rd}, x{rs1}, x{rs2}")?)
}

/// A fence with its fields as one number, and its registers where they aren't x0.
fn fence(alloc: Global, rd: u8, rs1: u8, fields: FenceFields) -> Result<String, NoMemory> {
    let bits = fields.bits;
    if rd == 0 && rs1 == 0 {
        return Ok(format!(in alloc; "fence {bits}")?);
    }
    Ok(format!(in alloc; "fence {bits} x{rd} x{rs1}")?)
}

fn branch_name(condition: BranchCondition) -> &'static str {
    match condition {
        BranchCondition::Eq => "beq",
        BranchCondition::Ne => "bne",
        BranchCondition::Lt => "blt",
        BranchCondition::Ge => "bge",
        BranchCondition::Ltu => "bltu",
        BranchCondition::Geu => "bgeu",
    }
}

fn load_name(op: LoadOp) -> &'static str {
    match op {
        LoadOp::Lb => "lb",
        LoadOp::Lh => "lh",
        LoadOp::Lw => "lw",
        LoadOp::Ld => "ld",
        LoadOp::Lbu => "lbu",
        LoadOp::Lhu => "lhu",
        LoadOp::Lwu => "lwu",
    }
}

fn store_name(op: StoreOp) -> &'static str {
    match op {
        StoreOp::Sb => "sb",
        StoreOp::Sh => "sh",
        StoreOp::Sw => "sw",
        StoreOp::Sd => "sd",
    }
}

fn immediate_name(op: ImmediateOp) -> &'static str {
    match op {
        ImmediateOp::Addi => "addi",
        ImmediateOp::Slti => "slti",
        ImmediateOp::Sltiu => "sltiu",
        ImmediateOp::Xori => "xori",
        ImmediateOp::Ori => "ori",
        ImmediateOp::Andi => "andi",
    }
}

fn shift_name(op: ShiftOp) -> &'static str {
    match op {
        ShiftOp::Slli => "slli",
        ShiftOp::Srli => "srli",
        ShiftOp::Srai => "srai",
    }
}

fn word_shift_name(op: ShiftOp) -> &'static str {
    match op {
        ShiftOp::Slli => "slliw",
        ShiftOp::Srli => "srliw",
        ShiftOp::Srai => "sraiw",
    }
}

fn register_name(op: RegisterOp) -> &'static str {
    match op {
        RegisterOp::Add => "add",
        RegisterOp::Sub => "sub",
        RegisterOp::Sll => "sll",
        RegisterOp::Slt => "slt",
        RegisterOp::Sltu => "sltu",
        RegisterOp::Xor => "xor",
        RegisterOp::Srl => "srl",
        RegisterOp::Sra => "sra",
        RegisterOp::Or => "or",
        RegisterOp::And => "and",
        RegisterOp::Mul => "mul",
        RegisterOp::Mulh => "mulh",
        RegisterOp::Mulhsu => "mulhsu",
        RegisterOp::Mulhu => "mulhu",
        RegisterOp::Div => "div",
        RegisterOp::Divu => "divu",
        RegisterOp::Rem => "rem",
        RegisterOp::Remu => "remu",
    }
}

fn register_word_name(op: RegisterWordOp) -> &'static str {
    match op {
        RegisterWordOp::Addw => "addw",
        RegisterWordOp::Subw => "subw",
        RegisterWordOp::Sllw => "sllw",
        RegisterWordOp::Srlw => "srlw",
        RegisterWordOp::Sraw => "sraw",
        RegisterWordOp::Mulw => "mulw",
        RegisterWordOp::Divw => "divw",
        RegisterWordOp::Divuw => "divuw",
        RegisterWordOp::Remw => "remw",
        RegisterWordOp::Remuw => "remuw",
    }
}

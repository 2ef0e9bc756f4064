// Texts, written to a line that takes no memory.

ghost use Rattle.std.specs.Prelude.{◌≡◌, ◌++◌, ◌+◌, ◌≤◌, ◌<◌, ℕ, List, length, decimal, IfOk};
ghost use Rattle.std.specs.Fmt.{signed_decimal};
ghost use Rattle.arrayvec.specs.ArrayVec.{array_vec_len};
ghost use Rattle.rv_isa.specs.Table.{word_of};
ghost use Rattle.rv_isa.specs.Finds.{Finds};
ghost use Rattle.rv_listing.specs.Texts.{register_text, one_register, two_registers, based, operands_of, instr_text};
ghost use Rattle.rv_listing.specs.Texts.{hex_digit, hex8, text_in, fence_value, IsWordText};

use crate::names::Operation;
use arrayvec::ArrayVec;
use itoa::Buffer;
use rv_isa::{FenceFields, Instr, Register, decode};
use std::alloc::Global;
use tl_base::{Bytes, NoMemory};

/// How many bytes a line has room for.
pub(crate) const ROOM: usize = 128;

/// A line that is written without taking memory.
pub(crate) type Line = ArrayVec<u8, 128>;

/// The text of a word. Its one error is want of memory.
pub fn word_text(alloc: Global, word: u32) -> Result<Bytes, NoMemory>
    ensures { IfOk result (λ text. IsWordText word text) }
{
    let mut line = Line::new();
    put_word(&mut line, word);
    Bytes::from_slice(alloc, line.as_slice())
}

/// Writes the text of a word.
pub(crate) fn put_word(line: &mut Line, word: u32)
    requires { array_vec_len line.old ≤ 64 }
    ensures short { array_vec_len line.new ≤ array_vec_len line.old + 40 }
    ensures text { (text : List ℕ) × IsWordText word text × (line.new.items ≡ line.old.items ++ text) }
{
    match decode(word) {
        Some(i) => put_instr(line, i),
        None => {
            put(line, b"word 0x");
            put(line, &hexadecimal(u64::from(word)));
        }
    }
}

/// Writes the text of an instruction.
fn put_instr(line: &mut Line, i: Instr)
    requires { array_vec_len line.old ≤ 64 }
    ensures short { array_vec_len line.new ≤ array_vec_len line.old + 40 }
    ensures text { line.new.items ≡ line.old.items ++ instr_text i }
{
    put(line, Operation::of(i).name());
    put_operands(line, i);
}

fn put_operands(line: &mut Line, i: Instr)
    requires { array_vec_len line.old ≤ 70 }
    ensures short { array_vec_len line.new ≤ array_vec_len line.old + 34 }
    ensures text { line.new.items ≡ line.old.items ++ operands_of i }
{
    match i {
        Instr::Lui { rd, imm } => put_upper(line, rd, imm.value),
        Instr::Auipc { rd, imm } => put_upper(line, rd, imm.value),
        Instr::Jal { rd, offset } => put_jump(line, rd, offset.bytes),
        Instr::Jalr { rd, rs1, offset } => put_based(line, rd, offset.value, rs1),
        Instr::Branch {
            rs1,
            rs2,
            offset,
            ..
        } => put_two_signed(line, rs1, rs2, offset.bytes),
        Instr::Load {
            rd,
            rs1,
            offset,
            ..
        } => put_based(line, rd, offset.value, rs1),
        Instr::Store {
            rs1,
            rs2,
            offset,
            ..
        } => put_based(line, rs2, offset.value, rs1),
        Instr::RegisterImmediate { rd, rs1, imm, .. } => put_two_signed(line, rd, rs1, imm.value),
        Instr::Shift { rd, rs1, count, .. } => put_two_count(line, rd, rs1, count.count),
        Instr::Addiw { rd, rs1, imm } => put_two_signed(line, rd, rs1, imm.value),
        Instr::ShiftWord { rd, rs1, count, .. } => put_two_count(line, rd, rs1, count.count),
        Instr::RegisterRegister { rd, rs1, rs2, .. } => put_three(line, rd, rs1, rs2),
        Instr::RegisterRegisterWord { rd, rs1, rs2, .. } => put_three(line, rd, rs1, rs2),
        Instr::Fence { rd, rs1, fields } => put_two_signed(line, rd, rs1, fence_value(fields)),
        Instr::Ecall | Instr::Ebreak => {}
    }
}

// The upper twelve bits of FENCE as a signed number.
fn fence_value(fields: FenceFields) -> i16
    ensures { result ≡ fence_value fields }
{
    let bits = fields.bits as i16;
    if bits < 2048 { bits } else { bits - 4096 }
}

fn put_upper(line: &mut Line, rd: Register, value: u32)
    requires room { array_vec_len line.old ≤ 70 }
    ensures short { array_vec_len line.new ≤ array_vec_len line.old + 17 }
    ensures text { line.new.items ≡ line.old.items ++ one_register rd (decimal value) }
{
    put(line, b" ");
    put_register(line, rd);
    put(line, b", ");
    let mut buffer = Buffer::new();
    put(line, buffer.format(value).as_bytes());
}

fn put_jump(line: &mut Line, rd: Register, bytes: i32)
    requires room { array_vec_len line.old ≤ 70 }
    ensures short { array_vec_len line.new ≤ array_vec_len line.old + 18 }
    ensures text { line.new.items ≡ line.old.items ++ one_register rd (signed_decimal bytes) }
{
    put(line, b" ");
    put_register(line, rd);
    put(line, b", ");
    let mut buffer = Buffer::new();
    put(line, buffer.format(bytes).as_bytes());
}

// Two registers, and what comes before a third operand.
fn put_two(line: &mut Line, first: Register, second: Register)
    requires room { array_vec_len line.old ≤ 70 }
    ensures short { array_vec_len line.new ≤ array_vec_len line.old + 13 }
    ensures text { (last : List ℕ) → line.new.items ++ last ≡ line.old.items ++ two_registers first second last }
{
    put(line, b" ");
    put_register(line, first);
    put(line, b", ");
    put_register(line, second);
    put(line, b", ");
}

fn put_three(line: &mut Line, first: Register, second: Register, third: Register)
    requires room { array_vec_len line.old ≤ 70 }
    ensures short { array_vec_len line.new ≤ array_vec_len line.old + 17 }
    ensures text { line.new.items ≡ line.old.items ++ two_registers first second (register_text third) }
{
    put_two(line, first, second);
    put_register(line, third);
}

fn put_two_signed(line: &mut Line, first: Register, second: Register, value: i16)
    requires room { array_vec_len line.old ≤ 70 }
    ensures short { array_vec_len line.new ≤ array_vec_len line.old + 19 }
    ensures text { line.new.items ≡ line.old.items ++ two_registers first second (signed_decimal value) }
{
    put_two(line, first, second);
    let mut buffer = Buffer::new();
    put(line, buffer.format(value).as_bytes());
}

fn put_two_count(line: &mut Line, first: Register, second: Register, count: u8)
    requires room { array_vec_len line.old ≤ 70 }
    ensures short { array_vec_len line.new ≤ array_vec_len line.old + 16 }
    ensures text { line.new.items ≡ line.old.items ++ two_registers first second (decimal count) }
{
    put_two(line, first, second);
    let mut buffer = Buffer::new();
    put(line, buffer.format(count).as_bytes());
}

fn put_based(line: &mut Line, first: Register, offset: i16, base: Register)
    requires room { array_vec_len line.old ≤ 70 }
    ensures short { array_vec_len line.new ≤ array_vec_len line.old + 19 }
    ensures text { line.new.items ≡ line.old.items ++ based first offset base }
{
    put(line, b" ");
    put_register(line, first);
    put(line, b", ");
    let mut buffer = Buffer::new();
    put(line, buffer.format(offset).as_bytes());
    put(line, b"(");
    put_register(line, base);
    put(line, b")");
}

fn put_register(line: &mut Line, register: Register)
    requires room { array_vec_len line.old ≤ 120 }
    ensures short { array_vec_len line.new ≤ array_vec_len line.old + 4 }
    ensures text { line.new.items ≡ line.old.items ++ register_text register }
{
    put(line, b"x");
    let mut buffer = Buffer::new();
    put(line, buffer.format(register.number).as_bytes());
}

/// The low 32 bits of a number in eight hexadecimal digits.
#[tactic(auto, unfolding(crate::specs::Texts::hex8))]
pub(crate) fn hexadecimal(n: u64) -> [u8; 8]
    ensures { result ≡ hex8 n }
{
    [
        hex_digit(n >> 28 & 15),
        hex_digit(n >> 24 & 15),
        hex_digit(n >> 20 & 15),
        hex_digit(n >> 16 & 15),
        hex_digit(n >> 12 & 15),
        hex_digit(n >> 8 & 15),
        hex_digit(n >> 4 & 15),
        hex_digit(n & 15),
    ]
}

fn hex_digit(digit: u64) -> u8
    requires { digit < 16 }
    ensures { result ≡ hex_digit digit }
{
    if digit < 10 {
        b'0' + digit as u8
    } else {
        b'a' - 10 + digit as u8
    }
}

/// Writes bytes for which there is room.
pub(crate) fn put(line: &mut Line, bytes: &[u8])
    requires { array_vec_len line.old + length bytes.now ≤ 128 }
    ensures text { line.new.items ≡ line.old.items ++ bytes.now }
    ensures len { array_vec_len line.new ≡ array_vec_len line.old + length bytes.now }
{
    // It fails only where there is no room.
    let _ = line.try_extend_from_slice(bytes);
}

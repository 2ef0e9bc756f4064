//! The instructions of RV64IM, and the word of each.
//!
//! An [`Instr`] is an instruction of the base RV64I or of the extension M, with its operands: registers by number, immediates as the
//! signed numbers that they stand for, jump and branch offsets in bytes, counts of shifts. The operands' types have exactly the
//! values that their fields can spell, so every `Instr` has a word. [`encode`] gives the word, and [`decode`] the instruction of a
//! word, or None exactly where no instruction has this word.
//!
//! The table itself is `word_of` in `specs/Table.antt`: the RISC-V Unprivileged ISA's listing of RV32I, RV64I, RV32M and RV64M, each
//! instruction by its format (`specs/Formats.antt`) and its row (`specs/Rows.antt`). Both functions cite it, and
//! [`table_goes_both_ways`] says that no two instructions have the same word. The code does not read the table row by row: it takes a
//! word apart by its opcode and then by its funct fields.
//!
//! Left out, and None to `decode`: the extensions A, F, D and C (a word of 16 bits is none of ours), FENCE.I, the CSR instructions,
//! and the privileged ones. ECALL and EBREAK have no operands: any other bit set makes the word no instruction. FENCE keeps all
//! its fields, the reserved ones too, since the manual has an implementation take them as an ordinary fence. Hints, as ADDI with
//! x0 as rd, are instructions like any other.
#![tactic(auto)]

pub mod decoder;
pub mod encoder;
mod field;
pub mod instr;
pub mod law;
mod opcode;
pub mod operand;
pub mod operation;

pub use decoder::decode;
pub use encoder::encode;
pub use instr::Instr;
pub use law::table_goes_both_ways;
pub use operand::{
    BranchOffset, FenceFields, Immediate, JumpOffset, Register, ShiftCount, UpperImmediate,
    WordShiftCount,
};
pub use operation::{
    BranchCondition, ImmediateOp, LoadOp, RegisterOp, RegisterWordOp, ShiftOp, StoreOp,
};

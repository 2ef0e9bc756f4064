//! Texts of instructions, and words read from them.
//!
//! A word has one text: that of its instruction, as `addi x10, x0, 5`, or, where it is none, `word 0x` and eight
//! hexadecimal digits. [`word_text`] writes it, and [`read_line`] reads it: it gives a word exactly where the line is
//! the text of this word, so no second spelling is taken. `specs/Texts.antt` has the texts, `specs/Assembly.antt`
//! says which lines are bad and why.
//!
//! [`assemble`] reads a source of such lines, [`listing`] writes the words of an image with their texts, and
//! [`TraceLine`] is a line of a trace: the number of a step, its address, the text of its word, and the register that
//! it wrote (`specs/Listing.antt`, `specs/Trace.antt`).
//!
//! [`read_line`] reads loosely and then compares: it takes the operation from the name and the last three numbers of
//! the line, writes the text of the word that they make, and looks whether it is the line.
#![tactic(auto)]

pub mod assembly;
mod listings;
mod names;
mod operands;
mod printing;
pub mod reading;
mod scan;
mod trace;

pub use assembly::{AsmFault, AsmKind, assemble, one_answer, texts_assemble};
pub use listings::{listing, loaded_texts_are_short, one_listing};
pub use printing::word_text;
pub use reading::{AsmError, read_line};
pub use trace::{TraceLine, other_registers_stay, register_written};

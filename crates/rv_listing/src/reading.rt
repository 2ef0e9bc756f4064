// Lines read as words.

ghost use Rattle.std.specs.Prelude.{◌≡◌, ◌<◌, ◌≤◌, ◌^◌, ◌+◌, ℕ, Ok, IfOk, IfErr, OnOk, drop, length, min};
ghost use Rattle.rv_isa.specs.declared.instr.Instr.{Instr};
ghost use Rattle.rv_listing.specs.Texts.{IsWordText};
ghost use Rattle.rv_listing.specs.Assembly.{name_in, IsName, IsText, IsBad};
ghost use Rattle.rv_listing.specs.Reading.{hex_all, hex_byte};

use crate::names::Operation;
use crate::operands::filled;
use crate::printing::{Line, put_word};
use crate::scan::numbers_of;
use rv_isa::encode;

/// Why a line is no text of a word.
#[derive(Clone, Copy)]
pub enum AsmError {
    /// What stands before the first space, or before the end, is neither the name of an instruction nor `word`.
    BadName,
    /// It is one of these, and no word has this text.
    BadOperands,
}

/// The word of a text: `Ok` exactly where the line is the text of a word, which is then this word. It takes no memory.
pub fn read_line(line: &[u8]) -> Result<u32, AsmError>
    ensures text { IfOk result (λ w. IsWordText w line.now) }
    ensures small { IfOk result (λ w. w < 2 ^ 32) }
    ensures ok { (w : ℕ) → w < 2 ^ 32 → IsWordText w line.now → result ≡ Ok w }
    ensures bad { IfErr result (λ e. IsBad e line.now) }
{
    let word = candidate(line)?;
    let mut text = Line::new();
    put_word(&mut text, word);
    if text.as_slice() == line {
        Ok(word)
    } else {
        Err(AsmError::BadOperands)
    }
}

// The only word that can have this text.
fn candidate(line: &[u8]) -> Result<u32, AsmError>
    ensures only { (w : ℕ) → w < 2 ^ 32 → IsWordText w line.now → result ≡ Ok w }
    ensures small { IfOk result (λ w. w < 2 ^ 32) }
    ensures named { OnOk result (IsName (name_in line.now)) }
    ensures bad { IfErr result (λ e. IsBad e line.now) }
{
    let at = name_length(line);
    let name = &line[..at];
    let operands = &line[at..];
    if name == b"word".as_slice() {
        return Ok(hex_number(operands));
    }
    let Some(operation) = Operation::named(name) else {
        return Err(AsmError::BadName);
    };
    Ok(encode(filled(operation, numbers_of(operands))))
}

// How many bytes stand before the first space, or before the end.
fn name_length(line: &[u8]) -> usize
    ensures length { result ≡ length (name_in line.now) }
    ensures within { result ≤ length line.now }
{
    for (i, byte) in line.iter().enumerate() {
        if *byte == b' ' {
            return i;
        }
    }
    line.len()
}

// The number that the hexadecimal digits of a text write, the last eight of them. All other bytes are passed over.
fn hex_number(bytes: &[u8]) -> u32
    ensures { result ≡ hex_all 0 bytes.now }
{
    let mut number = 0;
    for byte in bytes {
        number = hex_byte(number, *byte);
    }
    number
}

#[tactic(auto, unfolding(crate::specs::Reading::hex_byte))]
fn hex_byte(number: u32, byte: u8) -> u32
    ensures { result ≡ hex_byte number byte }
{
    match byte {
        b'0'..=b'9' => (number & 0xfff_ffff) * 16 + u32::from(byte - b'0'),
        b'a'..=b'f' => (number & 0xfff_ffff) * 16 + u32::from(byte - b'a' + 10),
        _ => number,
    }
}

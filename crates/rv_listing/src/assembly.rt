// Sources of lines, read as words.

ghost use Rattle.std.specs.Prelude.{◌≡◌, ◌<◌, ◌≤◌, ◌+◌, ℕ, List, [], length, drop, IfOk, IfErr};
ghost use Rattle.rv_listing.specs.Assembly.{lines_of, IsFault, IsRefused, IsFirstBad, Assembles};
ghost use Rattle.rv_listing.specs.Assembly.{TextsAssemble, OneAnswer};
ghost use Rattle.rv_listing.specs.Reading.{line_length};
ghost use Rattle.rv_listing.specs.declared.assembly.AsmFault.TheVariants as faults;

use crate::reading::{AsmError, read_line};
use std::alloc::{AllocFailed, Global};
use tl_base::{List, NoMemory};

/// What is wrong with a source.
#[derive(Clone, Copy)]
pub enum AsmKind {
    /// It has no bytes.
    Empty,
    /// The first bad line begins neither with the name of an instruction nor with `word`.
    BadName,
    /// It begins with one of these, and no word has this text.
    BadOperands,
}

/// Why a source gives no words.
#[derive(Clone, Copy)]
pub enum AsmFault {
    /// The first bad line, counted from 1. A source of no bytes is refused at line 0.
    Refused { kind: AsmKind, line: u64 },
    /// Memory was not found.
    NoMemory,
}

impl From<NoMemory> for AsmFault {
    ghost from_gives = { λ _ e. e ≡ faults.NoMemory };

    fn from(_e: NoMemory) -> AsmFault {
        AsmFault::NoMemory
    }
}

impl<T: Drop> From<AllocFailed<T>> for AsmFault {
    ghost from_gives = { λ _ e. e ≡ faults.NoMemory };

    fn from(_e: AllocFailed<T>) -> AsmFault {
        AsmFault::NoMemory
    }
}

/// The words of a source, a text of a word in each line. The last line may do without its LF. `Ok` exactly where the
/// source has bytes and each line is the text of a word; else the fault says which line is the first that isn't, and
/// why.
pub fn assemble(alloc: Global, source: &[u8]) -> Result<List<u32>, AsmFault>
    ensures words { IfOk result (λ words. Assembles source.now words) }
    ensures all { (words : List ℕ) → Assembles source.now words → IfOk result (λ got. got ≡ words) }
    ensures fault { IfErr result (λ fault. IsFault source.now fault) }
    ensures count { IfOk result (λ words. 0 < length words × length words ≤ length source.now) }
{
    if source.is_empty() {
        return Err(AsmFault::Refused {
            kind: AsmKind::Empty,
            line: 0,
        });
    }
    let mut words = Vec::new(alloc);
    let mut left = source;
    let mut line = 0;
    while !left.is_empty() {
        line += 1;
        let end = line_length(left);
        match read_line(&left[..end]) {
            Ok(word) => words.push(word)?,
            Err(error) => {
                return Err(AsmFault::Refused {
                    kind: kind_of(error),
                    line,
                });
            }
        }
        left = behind_line(left, end);
    }
    Ok(List::from_vec(words))
}

/// The law of listings: the texts of words, each with its LF, are a source of these words.
pub fn texts_assemble()
    ensures { TextsAssemble }
{}

/// The law of answers: a source has one, its words or one fault.
pub fn one_answer()
    ensures { (text : List ℕ) → OneAnswer text }
{}

fn kind_of(error: AsmError) -> AsmKind
    ensures { (source : List ℕ) (number : ℕ) →
        IsFirstBad (lines_of source) error number → IsRefused source result number }
{
    match error {
        AsmError::BadName => AsmKind::BadName,
        AsmError::BadOperands => AsmKind::BadOperands,
    }
}

// How many bytes stand before the first LF, or before the end.
fn line_length(source: &[u8]) -> usize
    ensures length { result ≡ line_length source.now }
    ensures within { result ≤ length source.now }
{
    for (i, byte) in source.iter().enumerate() {
        if *byte == b'\n' {
            return i;
        }
    }
    source.len()
}

// What stands behind the line of so many bytes and its LF.
fn behind_line(source: &[u8], end: usize) -> &[u8]
    requires { end ≤ length source.now }
    ensures { result.now ≡ drop (end + 1) source.now }
{
    if end < source.len() {
        &source[end + 1..]
    } else {
        &[]
    }
}

//! Applies operators to words as the rows of standard input say, one row a line, and writes each row with what came
//! out. A row is an operator, whether its width has a sign, the bits of the width, and its operands. `stdin` and
//! `stdout` are written by `bench/word_rows`, by the rules of C's integers with wrapping.
#![tactic(auto)]

ghost use Rattle.std.specs.Prelude.{◌≤◌};

use row_words::{number_at, operator_of, word_at};
use std::alloc::Global;
use terra_words::{BinaryOperator, Width};
use tl_base::NoMemory;
use word_ops::{apply, complement, negate, wrap};

fn main(rt: HostRuntime) -> anyhow::Result<()> {
    let alloc = rt.alloc();
    for line in rt.lines(alloc) {
        let line = line?;
        let row = line.as_str();
        let words: Vec<&str> = row.split_whitespace().collect(alloc)?;
        let answer = answer(alloc, &words)?;
        println!(rt; "{row} = {answer}")?;
    }
    Ok(())
}

/// A width of at most 64 bits.
fn width_in(words: &[&str]) -> Width
    ensures { result.bits ≤ 64 }
{
    Width {
        signed: word_at(words, 1) == "signed",
        bits: number_at(words, 2).min(64),
    }
}

/// What comes of a row.
fn answer(alloc: Global, words: &[&str]) -> Result<String, NoMemory> {
    let width = width_in(words);
    let x = number_at(words, 3);
    let y = number_at(words, 4);
    let operator = match word_at(words, 0) {
        "negate" => return shown(alloc, negate(width, x)),
        "complement" => return shown(alloc, complement(width, x)),
        "wrap" => return shown(alloc, wrap(width, u128::from(x))),
        "/" => return divided(alloc, BinaryOperator::Divide, width, x, y),
        "%" => return divided(alloc, BinaryOperator::Modulo, width, x, y),
        word => operator_of(word),
    };
    match operator {
        BinaryOperator::Divide => shown(alloc, 0),
        BinaryOperator::Modulo => shown(alloc, 0),
        plain => shown(alloc, apply(width, plain, x, y)),
    }
}

fn divided(
    alloc: Global,
    operator: BinaryOperator,
    width: Width,
    x: u64,
    y: u64,
) -> Result<String, NoMemory>
    requires { width.bits ≤ 64 }
{
    if y == 0 {
        return Ok(String::from_str(alloc, "fault")?);
    }
    shown(alloc, apply(width, operator, x, y))
}

fn shown(alloc: Global, word: u64) -> Result<String, NoMemory> {
    Ok(format!(in alloc; "{word}")?)
}

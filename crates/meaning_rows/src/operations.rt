// The rows that add operations: `NAME COUNT TYPE ..`, behind so many operands.

use crate::building::Work;
use lua_value::Primitive;
use row_words::{number_at, operator_of, short_count_at, word_at};
use terra_term::{OffsetList, Operation, TypedExpression};
use tl_base::{FnId, NoMemory, TypeId};

/// An operation.
pub fn operation(work: &mut Work, word: &str, words: &[&str]) -> Result<bool, NoMemory> {
    let n = number_at(words, 3);
    let operation = match word {
        "neg" => Operation::Negate,
        "not" => Operation::Not,
        "binary" => Operation::Binary(operator_of(word_at(words, 3))),
        "forward" => Operation::StepForward,
        "back" => Operation::StepBack,
        "difference" => Operation::Difference,
        "convert" => Operation::Convert,
        "extract" => Operation::Extract(n),
        "call" => Operation::Call(FnId(n)),
        "callvalue" => Operation::CallValue,
        "putbyte" => Operation::Primitive(Primitive::PutByte),
        "write" => Operation::Primitive(Primitive::Write),
        "alloc" => Operation::Primitive(Primitive::Alloc),
        "construct" => Operation::Construct(offsets(work, words)?),
        _ => return Ok(false),
    };
    let operands = work.take(short_count_at(words, 1))?;
    work.put(
        TypeId(number_at(words, 2)),
        TypedExpression::Operate(operation, operands),
    )
}

fn offsets(work: &Work, words: &[&str]) -> Result<OffsetList, NoMemory> {
    let mut offsets = Vec::new(work.store.allocator());
    for place in 3..words.len() {
        offsets.push(number_at(words, place))?;
    }
    OffsetList::from_vec(offsets)
}

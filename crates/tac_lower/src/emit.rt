// Code without terms in it: words, addresses and memory.

ghost use Rattle.std.specs.Prelude.{◌≡◌};
ghost use Rattle.tac_lower.specs.Pieces.{compute, copied, destination, known, loaded, loaded_area, loaded_bit, loaded_word, located};
ghost use Rattle.tac_lower.specs.Pieces.{placed, stored, stored_part};
ghost use Rattle.tac_lower.specs.Parts.{placed_word};
ghost use Rattle.tac_lower.specs.Data.{result_of};
ghost use Rattle.tac_lower.specs.Works.{Gave, Put, itself};

use crate::number::{is_bool, number_of, whole_word};
use crate::value::{NO_WORD, Value};
use crate::work::Work;
use tac_form::{Destination, Instruction, Number, Operand, Spot};
use terra_eval::types::{bytes_at, is_aggregate};
use terra_types::Types;
use terra_words::BinaryOperator;
use tl_base::{NoMemory, TypeId};

/// Where a value of a type goes: a temporary or an area of its own.
pub(crate) fn destination(
    types: &Types,
    of: TypeId,
    work: &mut Work,
) -> Result<Destination, NoMemory>
    ensures { Gave itself result work.old work.new (destination types.now of work.old.used) }
{
    if is_aggregate(types, of) {
        let n = work.area(bytes_at(types, of))?;
        return Ok(Destination::Area(n));
    }
    let t = work.temp()?;
    Ok(Destination::Temp(t))
}

/// What an operator gives of two words.
pub(crate) fn compute(
    operator: BinaryOperator,
    number: Number,
    a: Operand,
    b: Operand,
    work: &mut Work,
) -> Result<Value, NoMemory>
    ensures { Gave result_of result work.old work.new (compute operator number a b work.old.used) }
{
    let t = work.temp()?;
    work.put(Instruction::Compute(t, operator, number, a, b))?;
    Ok(Value::Word(Operand::Temp(t)))
}

/// A word in a temporary of its own, which later code doesn't change.
pub(crate) fn copied(a: Operand, work: &mut Work) -> Result<Value, NoMemory>
    ensures { Gave result_of result work.old work.new (copied a work.old.used) }
{
    let t = work.temp()?;
    work.put(Instruction::Copy(t, a))?;
    Ok(Value::Word(Operand::Temp(t)))
}

/// An address as a word.
pub(crate) fn located(v: Value, work: &mut Work) -> Result<Value, NoMemory>
    ensures { Gave result_of result work.old work.new (located (result_of v) work.old.used) }
{
    match v {
        Value::Word(_) => Ok(v),
        Value::Area(_) => Ok(v),
        Value::Offset(offset) => {
            let t = work.temp()?;
            work.put(Instruction::Locate(t, offset))?;
            Ok(Value::Word(Operand::Temp(t)))
        }
    }
}

/// The value of a type at a spot. A type of no bytes is read nowhere.
pub(crate) fn loaded(
    types: &Types,
    of: TypeId,
    from: Spot,
    work: &mut Work,
) -> Result<Value, NoMemory>
    ensures { Gave result_of result work.old work.new (loaded types.now of from work.old.used) }
{
    let size = bytes_at(types, of);
    if is_aggregate(types, of) {
        return loaded_area(size, from, work);
    }
    if size == 0 {
        return Ok(NO_WORD);
    }
    loaded_word(types, of, from, work)
}

fn loaded_area(size: u64, from: Spot, work: &mut Work) -> Result<Value, NoMemory>
    ensures { Gave result_of result work.old work.new (loaded_area size from work.old.used) }
{
    let n = work.area(size)?;
    if size != 0 {
        work.put(Instruction::Move(Spot::Area(n, 0), from, size))?;
    }
    Ok(Value::Area(n))
}

fn loaded_word(types: &Types, of: TypeId, from: Spot, work: &mut Work) -> Result<Value, NoMemory>
    ensures { Gave result_of result work.old work.new (loaded_word types.now of from work.old.used) }
{
    let t = work.temp()?;
    work.put(Instruction::Load(t, number_of(types, of), from))?;
    loaded_bit(is_bool(types, of), Value::Word(Operand::Temp(t)), work)
}

/// Of a bool bit 0 counts.
fn loaded_bit(bool: bool, v: Value, work: &mut Work) -> Result<Value, NoMemory>
    ensures { Gave result_of result work.old work.new (loaded_bit bool (result_of v) work.old.used) }
{
    if bool {
        return compute(
            BinaryOperator::And,
            whole_word(),
            v.word(),
            Operand::Constant(1),
            work,
        );
    }
    Ok(v)
}

/// A value of a type goes to a spot. One of no bytes is stored nowhere.
pub(crate) fn stored(
    types: &Types,
    of: TypeId,
    to: Spot,
    v: Value,
    work: &mut Work,
) -> Result<(), NoMemory>
    ensures { Put result work.old work.new (stored types.now of to (result_of v) work.old.used) }
{
    if bytes_at(types, of) == 0 {
        return Ok(());
    }
    stored_part(types, of, to, v, work)
}

fn stored_part(
    types: &Types,
    of: TypeId,
    to: Spot,
    v: Value,
    work: &mut Work,
) -> Result<(), NoMemory>
    ensures { Put result work.old work.new (stored_part types.now of to (result_of v) work.old.used) }
{
    match v {
        Value::Area(n) => work.put(Instruction::Move(to, Spot::Area(n, 0), bytes_at(types, of))),
        Value::Word(a) => work.put(Instruction::Store(to, number_of(types, of).size, a)),
        Value::Offset(_) => work.put(Instruction::Store(
            to,
            number_of(types, of).size,
            Operand::Constant(0),
        )),
    }
}

/// A value goes to a variable. A word of no bytes is stored nowhere, and read all the same.
pub(crate) fn placed(
    types: &Types,
    of: TypeId,
    to: Spot,
    v: Value,
    work: &mut Work,
) -> Result<(), NoMemory>
    ensures { Put result work.old work.new (placed types.now of to (result_of v) work.old.used) }
{
    match v {
        Value::Area(_) => stored(types, of, to, v, work),
        Value::Word(_) => placed_word(types, of, to, v, work),
        Value::Offset(_) => placed_word(types, of, to, v, work),
    }
}

fn placed_word(
    types: &Types,
    of: TypeId,
    to: Spot,
    v: Value,
    work: &mut Work,
) -> Result<(), NoMemory>
    ensures { Put result work.old work.new (placed_word types.now of to (result_of v) work.old.used) }
{
    if bytes_at(types, of) == 0 {
        copied(v.word(), work)?;
        return Ok(());
    }
    stored(types, of, to, v, work)
}

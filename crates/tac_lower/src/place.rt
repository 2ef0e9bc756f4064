// Places that are reached by their addresses.

ghost use Rattle.std.specs.Prelude.{◌≡◌, option_map};
ghost use Rattle.tac_lower.specs.Lowering.{element, entry, reached, variable};
ghost use Rattle.tac_lower.specs.Data.{held_of, result_of, want_of};
ghost use Rattle.tac_lower.specs.Works.{Gave};

use crate::emit::{compute, copied, loaded};
use crate::number::whole_word;
use crate::value::{Holder, NO_WORD, Value, Wanted};
use crate::work::Work;
use tac_form::{Operand, Spot};
use terra_types::Types;
use terra_words::BinaryOperator;
use tl_base::{NoMemory, Place, TypeId};

/// A place was reached by its address.
pub(crate) fn reached(
    types: &Types,
    want: Wanted,
    at: Place,
    of: TypeId,
    v: Value,
    work: &mut Work,
) -> Result<Value, NoMemory>
    ensures { Gave result_of result work.old work.new (reached types.now (want_of want) at of (result_of v) work.old.used) }
{
    match want {
        Wanted::Value => loaded(types, of, Spot::Region(at, v.address()), work),
        Wanted::Address => Ok(v),
    }
}

/// A variable was named.
pub(crate) fn variable(
    types: &Types,
    want: Wanted,
    at: Place,
    of: TypeId,
    holder: Option<Holder>,
    work: &mut Work,
) -> Result<Value, NoMemory>
    ensures { Gave result_of result work.old work.new (variable types.now (want_of want) at of (option_map held_of holder) work.old.used) }
{
    match holder {
        None => Ok(NO_WORD),
        Some(Holder::Temp(t)) => copied(Operand::Temp(t), work),
        Some(Holder::Offset(offset)) => reached(types, want, at, of, Value::Offset(offset), work),
    }
}

/// The entry at an offset of what lies at an address. One of a variable lies in the frame too.
pub(crate) fn entry(offset: u64, v: Value, work: &mut Work) -> Result<Value, NoMemory>
    ensures { Gave result_of result work.old work.new (entry offset (result_of v) work.old.used) }
{
    match v {
        Value::Offset(at) => {
            let moved = at.checked_add(offset).ok_or(NoMemory)?;
            Ok(Value::Offset(moved))
        }
        Value::Word(a) => entry_behind(offset, a, work),
        Value::Area(_) => entry_behind(offset, Operand::Constant(0), work),
    }
}

fn entry_behind(offset: u64, a: Operand, work: &mut Work) -> Result<Value, NoMemory>
    ensures { Gave result_of result work.old work.new (entry offset (result_of (Value.Word a)) work.old.used) }
{
    if offset == 0 {
        return Ok(Value::Word(a));
    }
    compute(
        BinaryOperator::Add,
        whole_word(),
        a,
        Operand::Constant(offset),
        work,
    )
}

/// An element behind an address.
pub(crate) fn element(
    size: u64,
    from: Operand,
    index: Operand,
    work: &mut Work,
) -> Result<Value, NoMemory>
    ensures { Gave result_of result work.old work.new (element size from index work.old.used) }
{
    let size = Operand::Constant(size);
    let distance = compute(BinaryOperator::Multiply, whole_word(), index, size, work)?;
    compute(
        BinaryOperator::Add,
        whole_word(),
        from,
        distance.word(),
        work,
    )
}

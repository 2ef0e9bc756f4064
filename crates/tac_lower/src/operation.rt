// Operations on operands that were evaluated.

ghost use Rattle.std.specs.Prelude.{◌≡◌, map, IfOk};
ghost use Rattle.terra_words.specs.Words.{divides};
ghost use Rattle.terra_meaning.specs.Values.{form_at};
ghost use Rattle.terra_meaning.specs.Meaning.{type_at};
ghost use Rattle.tac_lower.specs.Lowering.{binary, construct, constructed, cut, difference, extracted, fitted, form_of, operation};
ghost use Rattle.tac_lower.specs.Lowering.{primitive, signature_in, stays_within, step, turned_over};
ghost use Rattle.tac_lower.specs.Data.{result_of};
ghost use Rattle.tac_lower.specs.Works.{Gave, Put};
ghost use Rattle.tac_lower.specs.Parts.{called, called_value, converted, negated, no_signature};
ghost use Rattle.tac_lower.specs.Views.{around_of};

use crate::around::Around;
use crate::emit::{compute, destination, loaded, stored};
use crate::number::{long, number_of, whole_word, width_of};
use crate::value::{NO_WORD, Value, behind, given, parts, value_at, word_at};
use crate::work::Work;
use lua_value::Primitive;
use std::alloc::{AllocError, Global};
use tac_form::{
    Destination, Instruction, Number, Operand, PartList, Signature, Size, Spot, TypeIds,
};
use terra_eval::types::{bytes_at, target_of};
use terra_term::Operation;
use terra_types::{TypeForm, Types};
use terra_words::BinaryOperator;
use tl_base::{FnId, NoMemory, Place, TypeId};
use word_ops::wrap;

const BOOLEAN: TypeId = TypeId(8);

/// What an operation gives of operands of these types.
pub(crate) fn operation(
    around: &Around<'_>,
    at: Place,
    of: TypeId,
    done: &Operation,
    operands: &[TypeId],
    values: &[Value],
    work: &mut Work,
) -> Result<Value, NoMemory>
    ensures { Gave result_of result work.old work.new
        (operation (around_of around.now) at of done.now operands.now (map result_of values.now) work.old.used) }
{
    let types = around.types();
    let first = type_at(operands, 0);
    let x = word_at(values, 0);
    let y = word_at(values, 1);
    match done {
        Operation::Negate => {
            let zero = Operand::Constant(0);
            compute(
                BinaryOperator::Subtract,
                number_of(types, of),
                zero,
                x,
                work,
            )
        }
        Operation::Not => not(types, of, x, work),
        Operation::Binary(operator) => {
            binary(at, number_of(types, first), *operator, x, y, work)
        }
        Operation::StepForward => {
            let size = bytes_at(types, target_of(types, of));
            step(size, BinaryOperator::Add, x, y, work)
        }
        Operation::StepBack => {
            let size = bytes_at(types, target_of(types, of));
            step(size, BinaryOperator::Subtract, x, y, work)
        }
        Operation::Difference => {
            let size = bytes_at(types, target_of(types, first));
            difference(size, x, y, work)
        }
        Operation::Convert => converted(types, of, x, work),
        Operation::Extract(offset) => extracted(types, of, *offset, value_at(values, 0), work),
        Operation::Call(f) => call(types, at, of, *f, values, work),
        Operation::Primitive(p) => primitive(at, *p, values, work),
        Operation::CallValue => call_value(types, at, of, first, values, work),
        Operation::Construct(offsets) => {
            let size = bytes_at(types, of);
            construct(types, size, offsets.as_slice(), operands, values, work)
        }
    }
}

/// The type at a position; unit past the end.
fn type_at(types: &[TypeId], i: usize) -> TypeId
    ensures { result ≡ type_at types.now i }
{
    match types.get(i) {
        Some(t) => *t,
        None => TypeId(9),
    }
}

/// The opposite of a bool, or all bits turned over.
fn not(types: &Types, of: TypeId, x: Operand, work: &mut Work) -> Result<Value, NoMemory>
    ensures { Gave result_of result work.old work.new (negated types.now of x work.old.used) }
{
    if of.0 == BOOLEAN.0 {
        return compute(
            BinaryOperator::Xor,
            whole_word(),
            x,
            Operand::Constant(1),
            work,
        );
    }
    turned_over(number_of(types, of), x, work)
}

/// All bits of a word turned over. With a sign those above the form's are copies of it as before, and none is cut.
fn turned_over(number: Number, x: Operand, work: &mut Work) -> Result<Value, NoMemory>
    ensures { Gave result_of result work.old work.new (turned_over number x work.old.used) }
{
    let form = if number.signed { long(true) } else { number };
    let ones = Operand::Constant(u64::MAX);
    compute(BinaryOperator::Xor, form, x, ones, work)
}

/// A word as one of a type. A bool is true where the word isn't zero.
fn converted(types: &Types, of: TypeId, x: Operand, work: &mut Work) -> Result<Value, NoMemory>
    ensures { Gave result_of result work.old work.new (converted types.now of x work.old.used) }
{
    let zero = Operand::Constant(0);
    if of.0 == BOOLEAN.0 {
        return compute(BinaryOperator::NotEqual, whole_word(), x, zero, work);
    }
    fitted(number_of(types, of), x, work)
}

/// A word as one of a form: one of eight bytes stays as it is.
fn fitted(number: Number, x: Operand, work: &mut Work) -> Result<Value, NoMemory>
    ensures { Gave result_of result work.old work.new (fitted number x work.old.used) }
{
    match number.size {
        Size::Eight => Ok(Value::Word(x)),
        Size::One => cut(number, x, work),
        Size::Two => cut(number, x, work),
        Size::Four => cut(number, x, work),
    }
}

/// A word as one of a form of fewer bytes. A constant's is a constant.
fn cut(number: Number, x: Operand, work: &mut Work) -> Result<Value, NoMemory>
    ensures { Gave result_of result work.old work.new (cut number x work.old.used) }
{
    match x {
        Operand::Constant(word) => {
            let fitted = wrap(width_of(number), u128::from(word));
            Ok(Value::Word(Operand::Constant(fitted)))
        }
        Operand::Temp(_) => compute(BinaryOperator::Add, number, x, Operand::Constant(0), work),
    }
}

fn divides(operator: BinaryOperator) -> bool
    ensures { result ≡ divides operator }
{
    matches!(operator, BinaryOperator::Divide | BinaryOperator::Modulo)
}

/// Whether an operator of 64 bits leaves a word of the form, of such words. The least number divided by -1 is none, and a shift takes
/// the same count where it is below the bits.
fn stays_within(operator: BinaryOperator, number: Number, y: Operand) -> bool
    ensures { result ≡ stays_within operator number y }
{
    match operator {
        BinaryOperator::And | BinaryOperator::Or | BinaryOperator::Xor => true,
        BinaryOperator::Modulo => true,
        BinaryOperator::Divide => !number.signed,
        BinaryOperator::ShiftRight => match y {
            Operand::Constant(count) => count < width_of(number).bits,
            Operand::Temp(_) => false,
        },
        _ => false,
    }
}

/// The form that an operator is taken at: one of 64 bits where it may be, since nothing is cut off there.
fn form_of(operator: BinaryOperator, number: Number, y: Operand) -> Number
    ensures { result ≡ form_of operator number y }
{
    if stays_within(operator, number, y) {
        return long(number.signed);
    }
    number
}

/// An operator on two words. The divisor is tested behind both.
fn binary(
    at: Place,
    number: Number,
    operator: BinaryOperator,
    x: Operand,
    y: Operand,
    work: &mut Work,
) -> Result<Value, NoMemory>
    ensures { Gave result_of result work.old work.new (binary at number operator x y work.old.used) }
{
    if divides(operator) {
        work.put(Instruction::TestDivisor(at, y))?;
    }
    compute(operator, form_of(operator, number, y), x, y, work)
}

/// A pointer moved by so many elements of a size.
fn step(
    size: u64,
    operator: BinaryOperator,
    x: Operand,
    y: Operand,
    work: &mut Work,
) -> Result<Value, NoMemory>
    ensures { Gave result_of result work.old work.new (step size operator x y work.old.used) }
{
    let size = Operand::Constant(size);
    let distance = compute(BinaryOperator::Multiply, whole_word(), y, size, work)?;
    compute(operator, whole_word(), x, distance.word(), work)
}

/// How many elements of a size lie between two pointers.
fn difference(size: u64, x: Operand, y: Operand, work: &mut Work) -> Result<Value, NoMemory>
    ensures { Gave result_of result work.old work.new (difference size x y work.old.used) }
{
    let apart = compute(BinaryOperator::Subtract, long(true), x, y, work)?;
    let size = Operand::Constant(size);
    compute(BinaryOperator::Divide, long(true), apart.word(), size, work)
}

/// The entry at an offset of an aggregate that is no place.
fn extracted(
    types: &Types,
    of: TypeId,
    offset: u64,
    whole: Value,
    work: &mut Work,
) -> Result<Value, NoMemory>
    ensures { Gave result_of result work.old work.new (extracted types.now of offset (result_of whole) work.old.used) }
{
    match whole {
        Value::Area(n) => loaded(types, of, Spot::Area(n, offset), work),
        Value::Word(_) => Ok(NO_WORD),
        Value::Offset(_) => Ok(NO_WORD),
    }
}

/// A struct of a size: zeros, and its entries at their offsets.
fn construct(
    types: &Types,
    size: u64,
    offsets: &[u64],
    operands: &[TypeId],
    values: &[Value],
    work: &mut Work,
) -> Result<Value, NoMemory>
    ensures { Gave result_of result work.old work.new
        (construct types.now size offsets.now operands.now (map result_of values.now) work.old.used) }
{
    let n = work.area(size)?;
    work.put(Instruction::Clear(n, size))?;
    constructed(types, n, offsets, operands, values, work)?;
    Ok(Value::Area(n))
}

/// The entries of a struct go to their offsets in an area.
fn constructed(
    types: &Types,
    n: u64,
    offsets: &[u64],
    operands: &[TypeId],
    values: &[Value],
    work: &mut Work,
) -> Result<(), NoMemory>
    ensures { Put result work.old work.new (constructed types.now n offsets.now operands.now (map result_of values.now) work.old.used) }
{
    let count = offsets.len().min(operands.len()).min(values.len());
    for i in 0..count {
        let to = Spot::Area(n, offsets[i]);
        stored(types, operands[i], to, values[i], work)?;
    }
    Ok(())
}

fn primitive(
    at: Place,
    done: Primitive,
    values: &[Value],
    work: &mut Work,
) -> Result<Value, NoMemory>
    ensures { Gave result_of result work.old work.new (primitive at done (map result_of values.now) work.old.used) }
{
    let x = word_at(values, 0);
    match done {
        Primitive::PutByte => {
            work.put(Instruction::PutByte(x))?;
            Ok(NO_WORD)
        }
        Primitive::Write => {
            work.put(Instruction::Write(at, x, word_at(values, 1)))?;
            Ok(NO_WORD)
        }
        Primitive::Alloc => {
            let t = work.temp()?;
            work.put(Instruction::Alloc(t, x))?;
            Ok(Value::Word(Operand::Temp(t)))
        }
    }
}

fn call(
    types: &Types,
    at: Place,
    of: TypeId,
    f: FnId,
    values: &[Value],
    work: &mut Work,
) -> Result<Value, NoMemory>
    ensures { Gave result_of result work.old work.new (called types.now at of f (map result_of values.now) work.old.used) }
{
    let arguments = PartList::from_vec(parts(work.allocator(), values)?);
    let to = destination(types, of, work)?;
    work.put(Instruction::Call(to, at, f, arguments))?;
    Ok(given(to))
}

/// A call of the first value, of a function type, with the others.
fn call_value(
    types: &Types,
    at: Place,
    of: TypeId,
    callee: TypeId,
    values: &[Value],
    work: &mut Work,
) -> Result<Value, NoMemory>
    ensures { Gave result_of result work.old work.new (called_value types.now at of callee (map result_of values.now) work.old.used) }
{
    let alloc = work.allocator();
    let signature = signature_of(alloc, types, callee)?;
    let arguments = PartList::from_vec(parts(alloc, behind(values))?);
    let to = destination(types, of, work)?;
    let f = word_at(values, 0);
    work.put(Instruction::CallValue(to, at, signature, f, arguments))?;
    Ok(given(to))
}

/// The signature of a function type; none for any other.
fn signature_of(alloc: Global, types: &Types, of: TypeId) -> Result<Signature, AllocError>
    ensures { IfOk result (λ s. s ≡ signature_in (form_at types.now of)) }
{
    match types.form(of) {
        Some(TypeForm::Function(params, result)) => {
            let mut copy = Vec::new(alloc);
            copy.extend_from_slice(params.as_slice())?;
            Ok(Signature {
                params: TypeIds::from_vec(copy),
                result: *result,
            })
        }
        Some(TypeForm::Integer(_)) => Ok(no_signature(alloc)),
        Some(TypeForm::Bool) => Ok(no_signature(alloc)),
        Some(TypeForm::Unit) => Ok(no_signature(alloc)),
        Some(TypeForm::Pointer(_)) => Ok(no_signature(alloc)),
        Some(TypeForm::Array(_, _)) => Ok(no_signature(alloc)),
        Some(TypeForm::Struct(_, _, _)) => Ok(no_signature(alloc)),
        None => Ok(no_signature(alloc)),
    }
}

fn no_signature(alloc: Global) -> Signature
    ensures { result ≡ no_signature }
{
    Signature {
        params: TypeIds::from_vec(Vec::new(alloc)),
        result: TypeId(0),
    }
}

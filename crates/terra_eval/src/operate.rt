// Operations on values, but for calls.

ghost use Rattle.std.specs.Prelude.{◌≡◌, ◌≤◌, ◌*◌, List, replicate, IfOk};
ghost use Rattle.terra_memory.specs.Numbers.{part};
ghost use Rattle.terra_words.specs.Words.{divides, moved};
ghost use Rattle.terra_words.specs.Runs.{Value, bytes, bytes_in, number, value_at};
ghost use Rattle.terra_term.specs.Stores.{callable_of, contents_of};
ghost use Rattle.terra_meaning.specs.Values.{bytes_at, decoded, form_at};
ghost use Rattle.terra_meaning.specs.Running.{State};
ghost use Rattle.terra_meaning.specs.Meaning as meanings;
ghost use Rattle.terra_meaning.specs.Meaning.{behind, constructed, converted, negation, operated, type_at};
ghost use Rattle.terra_eval.specs.Views.{Called, GaveJust, GaveValue, call_of};

use crate::call::Call;
use crate::memory::{decode, encode, overwritten, part};
use crate::state::State;
use crate::stop::{Halt, Stop};
use crate::types::{bytes_at, target_of, width_of};
use crate::value::Value;
use lua_value::Primitive;
use std::alloc::{AllocError, Global};
use terra_term::{Constant, Operation, TypedName};
use terra_types::{TypeForm, Types};
use terra_words::{BinaryOperator, FaultKind, Width};
use tl_base::{FnId, Place, TypeId};
use word_ops::{apply, complement, is_negative, negate, wrap};

const LONG: Width = Width {
    signed: true,
    bits: 64,
};

const BOOLEAN: TypeId = TypeId(8);

/// A constant's word. A function as a value is its position among the entries, from 1.
pub fn constant(entries: &[FnId], constant: Constant) -> u64
    ensures { result ≡ meanings.constant entries.now constant }
{
    match constant {
        Constant::Number(bits) => bits,
        Constant::Truth(b) => u64::from(b),
        Constant::Nil => 0,
        Constant::Static(address) => address,
        Constant::FnValue(f) => position_of(f, entries),
    }
}

fn position_of(f: FnId, entries: &[FnId]) -> u64
    ensures { result ≡ meanings.position_of f entries.now 1 }
{
    let mut position = 1;
    for entry in entries {
        if f.0 == entry.0 {
            return position;
        }
        position += 1;
    }
    0
}

/// The word of the value at a position.
pub(crate) fn number_at(values: &[Value], i: usize) -> u64
    ensures { result ≡ number (value_at values.now i) }
{
    match values.get(i) {
        Some(v) => v.number(),
        None => 0,
    }
}

/// The values but for the first.
pub(crate) fn behind(values: &[Value]) -> &[Value]
    ensures { result.now ≡ behind values.now }
{
    if values.is_empty() {
        return &[];
    }
    &values[1..]
}

/// An address moved by so many elements of a size.
pub(crate) fn element(address: u64, i: u64, size: u64) -> u64
    ensures { result ≡ moved address (i * size) }
{
    address.wrapping_add(i.wrapping_mul(size))
}

/// The type at a position; unit past the end.
pub(crate) fn type_at(types: &[TypeId], i: usize) -> TypeId
    ensures { result ≡ type_at types.now i }
{
    match types.get(i) {
        Some(t) => *t,
        None => TypeId(9),
    }
}

/// An operation on operands of these types and values. A call is none, and finds no memory here.
pub(crate) fn operate(
    call: &Call<'_>,
    at: Place,
    of: TypeId,
    operation: &Operation,
    operands: &[TypeId],
    values: &[Value],
    state: &mut State,
) -> Result<Value, Stop>
    ensures { GaveValue result state.new (operated (call_of call.now) at of operation.now operands.now values.now state.old) }
{
    let alloc = call.store.allocator();
    let types = call.store.types();
    let x = number_at(values, 0);
    let y = number_at(values, 1);
    match operation {
        Operation::Negate => Ok(Value::word(negate(width_of(types, of), x))),
        Operation::Not => Ok(Value::word(negation(types, of, x))),
        Operation::Binary(operator) => binary(
            at,
            width_of(types, type_at(operands, 0)),
            *operator,
            x,
            y,
        ),
        Operation::StepForward => {
            let size = bytes_at(types, target_of(types, of));
            Ok(Value::word(element(x, y, size)))
        }
        Operation::StepBack => {
            let size = bytes_at(types, target_of(types, of));
            Ok(Value::word(x.wrapping_sub(y.wrapping_mul(size))))
        }
        Operation::Difference => {
            let apart = apply(LONG, BinaryOperator::Subtract, x, y);
            in_elements(
                apart,
                bytes_at(types, target_of(types, type_at(operands, 0))),
            )
        }
        Operation::Convert => Ok(Value::word(converted(types, of, x))),
        Operation::Extract(offset) => extract(alloc, types, of, *offset, values),
        Operation::Construct(offsets) => {
            construct(alloc, types, of, offsets.as_slice(), operands, values)
        }
        Operation::Primitive(primitive) => perform(at, *primitive, x, y, state),
        Operation::Call(_) => Err(Stop::NoMemory),
        Operation::CallValue => Err(Stop::NoMemory),
    }
}

fn binary(at: Place, width: Width, operator: BinaryOperator, x: u64, y: u64) -> Result<Value, Stop>
    requires { width.bits ≤ 64 }
    ensures { (s : State) → GaveValue result s (meanings.binary at width operator x y s) }
{
    if divides(operator) && y == 0 {
        return Err(Stop::fault(FaultKind::DivZero, at));
    }
    Ok(Value::word(apply(width, operator, x, y)))
}

fn divides(operator: BinaryOperator) -> bool
    ensures { result ≡ divides operator }
{
    matches!(operator, BinaryOperator::Divide | BinaryOperator::Modulo)
}

fn negation(types: &Types, of: TypeId, x: u64) -> u64
    ensures { result ≡ negation types.now of x }
{
    if of.0 == BOOLEAN.0 {
        1_u64.saturating_sub(x)
    } else {
        complement(width_of(types, of), x)
    }
}

fn converted(types: &Types, to: TypeId, x: u64) -> u64
    ensures { result ≡ converted types.now to x }
{
    if to.0 == BOOLEAN.0 {
        u64::from(0 < x)
    } else {
        wrap(width_of(types, to), u128::from(x))
    }
}

/// A distance in bytes, in elements of a size.
fn in_elements(apart: u64, size: u64) -> Result<Value, Stop>
    ensures { (s : State) → GaveValue result s (meanings.in_elements apart size s) }
{
    if size == 0 {
        return Err(Stop::Halted(Halt::Stuck));
    }
    Ok(Value::word(apply(LONG, BinaryOperator::Divide, apart, size)))
}

fn extract(
    alloc: Global,
    types: &Types,
    of: TypeId,
    offset: u64,
    values: &[Value],
) -> Result<Value, Stop>
    ensures { GaveJust result (decoded types.now of (part (bytes_in (value_at values.now 0)) offset (bytes_at types.now of))) }
{
    let whole = first_bytes(values);
    decode(alloc, types, of, part(whole, offset, bytes_at(types, of)))
}

/// The bytes of the first value; none where it is a word.
fn first_bytes(values: &[Value]) -> &[u8]
    ensures { result.now ≡ bytes_in (value_at values.now 0) }
{
    match values.get(0) {
        Some(v) => v.as_bytes(),
        None => &[],
    }
}

fn zeros(alloc: Global, count: usize) -> Result<Vec<u8>, AllocError>
    ensures { IfOk result (λ bs. bs.items ≡ replicate count 0) }
{
    let mut bytes = Vec::new(alloc);
    bytes.resize(count, 0)?;
    Ok(bytes)
}

/// A struct: its entries at their offsets, and zeros.
fn construct(
    alloc: Global,
    types: &Types,
    of: TypeId,
    offsets: &[u64],
    operands: &[TypeId],
    values: &[Value],
) -> Result<Value, Stop>
    ensures { GaveJust result (bytes (constructed types.now (replicate (bytes_at types.now of) 0) offsets.now operands.now values.now)) }
{
    let mut all = zeros(alloc, bytes_at(types, of) as usize)?;
    let count = offsets.len().min(operands.len()).min(values.len());
    for i in 0..count {
        let entry = encode(alloc, types, operands[i], &values[i])?;
        all = overwritten(alloc, &all, offsets[i], &entry)?;
    }
    Ok(Value::from_bytes(all))
}

fn perform(
    at: Place,
    primitive: Primitive,
    x: u64,
    y: u64,
    state: &mut State,
) -> Result<Value, Stop>
    ensures { (vs : List Value) → x ≡ number (value_at vs 0) → y ≡ number (value_at vs 1) →
        GaveValue result state.new (meanings.primitive at primitive vs state.old) }
{
    match primitive {
        Primitive::PutByte => {
            state.print(&[(x % 256) as u8])?;
            Ok(Value::word(0))
        }
        Primitive::Write => {
            if is_negative(y) || !state.print_range(x, y)? {
                return Err(Stop::fault(FaultKind::BadAddress, at));
            }
            Ok(Value::word(0))
        }
        Primitive::Alloc => Ok(Value::word(state.alloc(x))),
    }
}

/// The function that a call of a function value of a type calls.
pub(crate) fn callee(call: &Call<'_>, at: Place, of: TypeId, value: u64) -> Result<FnId, Stop>
    ensures { (vs : List Value) (s : State) → Called result s
        (meanings.called_value (call_of call.now) at (form_at call.now.store.now.types of) (meanings.entry call.now.entries.now value) vs s)
        (λ f. (call_of call.now).call f vs at s) }
{
    let fault = Stop::fault(FaultKind::BadCall, at);
    if value == 0 || value > call.entries.len() as u64 {
        return Err(fault);
    }
    let f = call.entries[(value - 1) as usize];
    if has_type(call, of, f) {
        Ok(f)
    } else {
        Err(fault)
    }
}

/// Whether a function has exactly a type.
fn has_type(call: &Call<'_>, of: TypeId, f: FnId) -> bool
    ensures { result ≡ meanings.has_type (form_at call.now.store.now.types of) (callable_of (contents_of call.now.store.now) f) }
{
    let Some(k) = crate::nodes::callable_of(call.store, f) else {
        return false;
    };
    match call.store.types().form(of) {
        Some(TypeForm::Function(params, result)) => {
            same_types(params.as_slice(), k.parameters) && result.0 == k.result.0
        }
        _ => false,
    }
}

fn same_types(types: &[TypeId], names: &[TypedName]) -> bool
    ensures { result ≡ meanings.same_types types.now names.now }
{
    if types.len() != names.len() {
        return false;
    }
    for i in 0..types.len() {
        if types[i].0 != names[i].of.0 {
            return false;
        }
    }
    true
}

// What Lua code and Terra functions give one another, as words.

ghost use Rattle.std.specs.Prelude.{◌≡◌, ◌&&◌, nat_le, length, [], ◌∷◌, Some, IfOk};
ghost use Rattle.lua_value.specs.Numbers.{number_from};
ghost use Rattle.terra_term.specs.Stores.{callable_of, contents_of};
ghost use Rattle.terra_types.specs.Sizes.{form_at};
ghost use Rattle.stage_model.specs.Words.{is_word, is_word_or_unit, are_words, least, most, word_of, taken, number_of, values_of};
ghost use Rattle.stage_loop.specs.Calls.{passed_of, passed_to};

use exotype::World;
use lua_value::{Number, Value, Values};
use std::alloc::Global;
use terra_eval::nodes::callable_of;
use terra_term::TypedName;
use terra_types::{Integer, TypeForm, Types};
use tl_base::limits::{LARGEST_NUMBER, MAX_PARAMETERS};
use tl_base::{FnId, List, NoMemory, TypeId};

/// What a call by Lua code passes to a Terra function.
#[derive(Drop)]
pub enum Passed {
    /// Nothing: Lua code can't call the function.
    NotCallable,
    /// Arguments of which this position, from 1 on, is the least that is missing, one too many, or not of its parameter's type.
    Bad(usize),
    /// The words of all arguments.
    Words(List<u64>),
}

// ---- which functions may be called

/// Whether a type's values are numbers or truths for Lua code.
fn is_word(types: &Types, of: TypeId) -> bool
    ensures { result ≡ is_word (form_at types.now of) }
{
    match types.form(of) {
        Some(TypeForm::Integer(_)) => true,
        Some(TypeForm::Bool) => true,
        Some(TypeForm::Unit) => false,
        Some(TypeForm::Pointer(_)) => false,
        Some(TypeForm::Array(_, _)) => false,
        Some(TypeForm::Function(_, _)) => false,
        Some(TypeForm::Struct(_, _, _)) => false,
        None => false,
    }
}

/// Whether a type's values are so, or there are none.
fn is_word_or_unit(types: &Types, of: TypeId) -> bool
    ensures { result ≡ is_word_or_unit (form_at types.now of) }
{
    match types.form(of) {
        Some(TypeForm::Integer(_)) => true,
        Some(TypeForm::Bool) => true,
        Some(TypeForm::Unit) => true,
        Some(TypeForm::Pointer(_)) => false,
        Some(TypeForm::Array(_, _)) => false,
        Some(TypeForm::Function(_, _)) => false,
        Some(TypeForm::Struct(_, _, _)) => false,
        None => true,
    }
}

/// Whether all parameters are so.
fn are_words(types: &Types, parameters: &[TypedName]) -> bool
    ensures { result ≡ are_words types.now parameters.now }
{
    for parameter in parameters {
        if !is_word(types, parameter.of) {
            return false;
        }
    }
    true
}

/// Whether Lua code may call a function of these parameters and this result.
fn is_callable(types: &Types, parameters: &[TypedName], of: TypeId) -> bool
    ensures { result ≡ (nat_le (length parameters.now) MAX_PARAMETERS && are_words types.now parameters.now
        && is_word_or_unit (form_at types.now of)) }
{
    parameters.len() <= MAX_PARAMETERS && are_words(types, parameters) && is_word_or_unit(types, of)
}

// ---- arguments

/// The least number of an integer type.
fn least(integer: Integer) -> i128
    ensures { result ≡ least integer }
{
    match integer {
        Integer::Int8 => -0x80,
        Integer::Int16 => -0x8000,
        Integer::Int32 => -0x8000_0000,
        Integer::Int64 => -0x8000_0000_0000_0000,
        Integer::Uint8 | Integer::Uint16 | Integer::Uint32 | Integer::Uint64 => 0,
    }
}

/// The greatest number of an integer type.
fn most(integer: Integer) -> i128
    ensures { result ≡ most integer }
{
    match integer {
        Integer::Int8 => 0x7f,
        Integer::Int16 => 0x7fff,
        Integer::Int32 => 0x7fff_ffff,
        Integer::Int64 => 0x7fff_ffff_ffff_ffff,
        Integer::Uint8 => 0xff,
        Integer::Uint16 => 0xffff,
        Integer::Uint32 => 0xffff_ffff,
        Integer::Uint64 => 0xffff_ffff_ffff_ffff,
    }
}

/// The word of a number that an integer type has.
fn integer_word(integer: Integer, number: Number) -> Option<u64>
    ensures { result ≡ word_of (TypeForm.Integer integer) (Value.Number number) }
{
    let number = number.get();
    let wide = i128::from(number);
    if least(integer) <= wide && wide <= most(integer) {
        Some(number.cast_unsigned())
    } else {
        None
    }
}

/// The word of an argument of a parameter's type.
fn word_of(types: &Types, of: TypeId, value: Value) -> Option<u64>
    ensures { result ≡ word_of (form_at types.now of) value }
{
    match types.form(of) {
        Some(TypeForm::Integer(integer)) => number_word(*integer, value),
        Some(TypeForm::Bool) => truth_word(value),
        Some(TypeForm::Unit) => None,
        Some(TypeForm::Pointer(_)) => None,
        Some(TypeForm::Array(_, _)) => None,
        Some(TypeForm::Function(_, _)) => None,
        Some(TypeForm::Struct(_, _, _)) => None,
        None => None,
    }
}

/// The word of an argument of an integer type.
fn number_word(integer: Integer, value: Value) -> Option<u64>
    ensures { result ≡ word_of (TypeForm.Integer integer) value }
{
    match value {
        Value::Number(number) => integer_word(integer, number),
        _ => None,
    }
}

/// The word of an argument of type bool.
fn truth_word(value: Value) -> Option<u64>
    ensures { result ≡ word_of TypeForm.Bool value }
{
    match value {
        Value::Boolean(truth) => Some(u64::from(truth)),
        _ => None,
    }
}

/// The words of arguments for at most eight parameters.
fn take(
    alloc: Global,
    types: &Types,
    parameters: &[TypedName],
    values: &[Value],
) -> Result<Passed, NoMemory>
    ensures { IfOk result (λ it. it ≡ passed_of (taken types.now 1 parameters.now values.now)) }
{
    let mut words = List::new(alloc);
    for place in 0..parameters.len() {
        if place >= values.len() {
            return Ok(Passed::Bad(place + 1));
        }
        match word_of(types, parameters[place].of, values[place]) {
            Some(word) => words.push(word)?,
            None => return Ok(Passed::Bad(place + 1)),
        }
    }
    if values.len() > parameters.len() {
        return Ok(Passed::Bad(parameters.len() + 1));
    }
    Ok(Passed::Words(words))
}

/// What a call by Lua code with these arguments passes to a function that is typed.
pub fn passed_to(world: &World, f: FnId, arguments: &Values) -> Result<Passed, NoMemory>
    ensures { IfOk result (λ it.
        it ≡ passed_to world.now.store.types (callable_of (contents_of world.now.store) f) arguments.now) }
{
    let store = &world.store;
    let Some(function) = callable_of(store, f) else {
        return Ok(Passed::NotCallable);
    };
    let types = store.types();
    if is_callable(types, function.parameters, function.result) {
        take(
            store.allocator(),
            types,
            function.parameters,
            arguments.as_slice(),
        )
    } else {
        Ok(Passed::NotCallable)
    }
}

// ---- results

/// The number of a word of an integer type, where it is in the profile.
fn number_of(integer: Integer, word: u64) -> Option<Number>
    ensures { result ≡ number_from (number_of integer word) }
{
    if integer.is_signed() {
        Number::new(word.cast_signed())
    } else if word <= LARGEST_NUMBER {
        Number::new(word as i64)
    } else {
        None
    }
}

/// One value.
fn one(alloc: Global, value: Value) -> Result<Option<Values>, NoMemory>
    ensures { IfOk result (λ values. values ≡ Some (value ∷ [])) }
{
    Ok(Some(Values::from_slice(alloc, &[value])?))
}

/// What Lua code is given for a word of a type: a number of the profile, a truth, or nothing; none where the number is outside the profile.
pub fn values_of(
    alloc: Global,
    types: &Types,
    of: TypeId,
    word: u64,
) -> Result<Option<Values>, NoMemory>
    ensures { IfOk result (λ values. values ≡ values_of (form_at types.now of) word) }
{
    match types.form(of) {
        Some(TypeForm::Integer(integer)) => match number_of(*integer, word) {
            Some(number) => one(alloc, Value::Number(number)),
            None => Ok(None),
        },
        Some(TypeForm::Bool) => one(alloc, Value::Boolean(word != 0)),
        Some(TypeForm::Unit) => Ok(Some(Values::new(alloc))),
        Some(TypeForm::Pointer(_)) => Ok(Some(Values::new(alloc))),
        Some(TypeForm::Array(_, _)) => Ok(Some(Values::new(alloc))),
        Some(TypeForm::Function(_, _)) => Ok(Some(Values::new(alloc))),
        Some(TypeForm::Struct(_, _, _)) => Ok(Some(Values::new(alloc))),
        None => Ok(Some(Values::new(alloc))),
    }
}

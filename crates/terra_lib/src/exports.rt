// What may be exported, and what an export leaves.

ghost use Rattle.std.specs.Prelude.{◌≡◌, ◌==◌, not, IfOk, OnOk, slice_get};
ghost use Rattle.std.specs.List.{list_all};
ghost use Rattle.std.specs.Option.{option_copied};
ghost use Rattle.lua_table.specs.Heap.{text_at};
ghost use Rattle.terra_lib.specs.Exports.{is_free, is_name, is_used, are_scalars, all_scalar, may_be_exported, takes_scalars, gives_scalar};
ghost use Rattle.terra_lib.specs.Exports.{is_unit, is_text, parameters_in, result_in, term_of_function, with_exported};

use crate::symbols::is_scalar;
use crate::types::is_undefined;
use exotype::World;
use lua_value::Value;
use terra_term::{Export, Parameter, Term};
use terra_types::{TypeForm, Types};
use tl_base::limits::{MAX_NAME_BYTES, MAX_PARAMETERS};
use tl_base::{FnId, Limits, NoMemory, Text, TextId, TypeId};

/// How many exports there may be: as many as the largest budget buys.
const MOST_EXPORTS: usize = Limits::MAX_BUDGET as usize;

/// Whether a value is a text.
pub fn is_text(value: Value) -> bool
    ensures { result ≡ is_text value }
{
    matches!(value, Value::Text(_))
}

/// Exports a function under a text.
pub fn export(world: &mut World, key: TextId, function: FnId) -> Result<(), NoMemory>
    ensures { OnOk result (world.new ≡ with_exported world.old key function) }
{
    let name = name_of(world, key)?;
    world.exports.push(Export { name, function })
}

/// The bytes of a text, as a name.
fn name_of(world: &World, key: TextId) -> Result<Text, NoMemory>
    ensures { IfOk result (λ name. name ≡ text_at world.now.heap key) }
{
    match Text::new(world.heap.allocator(), world.heap.text(key))? {
        Some(name) => Ok(name),
        None => unreachable!(),
    }
}

/// Whether a value is a function that is defined, and has at most eight parameters, all scalar.
pub fn may_be_exported(world: &World, value: &Value) -> bool
    ensures { result ≡ may_be_exported world.now value.now }
{
    match value {
        Value::TerraFunction(f) => !is_undefined(world, *f) && takes_scalars(world, *f),
        _ => false,
    }
}

/// Whether a name may be that of a new export.
pub fn is_free(world: &World, name: &[u8]) -> bool
    ensures { result ≡ is_free world.now name.now }
{
    is_name(name)
        && !is_used(world.exports.as_slice(), name)
        && world.exports.as_slice().len() < MOST_EXPORTS
}

/// Whether a text has 1 to 255 bytes, and no zero byte.
fn is_name(name: &[u8]) -> bool
    ensures { result ≡ is_name name.now }
{
    1 <= name.len() && name.len() <= MAX_NAME_BYTES && has_no_zero(name)
}

fn has_no_zero(name: &[u8]) -> bool
    ensures { result ≡ list_all (λ b. not (b == 0)) name.now }
{
    name.iter().all(|byte| *byte != 0)
}

fn is_used(exports: &[Export], name: &[u8]) -> bool
    ensures { result ≡ is_used exports.now name.now }
{
    exports.iter().any(|export| export.name.bytes() == name)
}

/// Whether a function has at most eight parameters, all scalar. One that isn't defined has none.
pub fn takes_scalars(world: &World, f: FnId) -> bool
    ensures { result ≡ takes_scalars world.now (parameters_in (term_of_function world.now f)) }
{
    match term_of_function(world, f) {
        Some(Term::Function(params, _, _)) => {
            are_scalars(world.store.types(), params.as_slice())
        }
        _ => true,
    }
}

/// Whether parameters are at most eight, all scalar.
fn are_scalars(types: &Types, params: &[Parameter]) -> bool
    ensures { result ≡ are_scalars types.now params.now }
{
    params.len() <= MAX_PARAMETERS && all_scalar(types, params)
}

/// Whether the types of all these parameters, which are at most eight, are scalar.
fn all_scalar(types: &Types, params: &[Parameter]) -> bool
    ensures { result ≡ all_scalar types.now params.now }
{
    match params {
        [] => true,
        [param, rest @ ..] => is_scalar(types, param.of) && all_scalar(types, rest),
    }
}

/// Whether the result that is written of a function is scalar or unit. One that isn't written is found by a check.
pub fn gives_scalar(world: &World, f: FnId) -> bool
    ensures { result ≡ gives_scalar world.now (result_in (term_of_function world.now f)) }
{
    match term_of_function(world, f) {
        Some(Term::Function(_, Some(of), _)) => {
            let types = world.store.types();
            is_scalar(types, *of) || is_unit(types, *of)
        }
        _ => true,
    }
}

/// Whether a type is the unit type.
pub fn is_unit(types: &Types, of: TypeId) -> bool
    ensures { result ≡ is_unit (slice_get types.now of.0) }
{
    matches!(types.form(of), Some(TypeForm::Unit))
}

/// The term of a function, once it is defined.
fn term_of_function(world: &World, f: FnId) -> Option<&Term>
    ensures { option_copied result ≡ term_of_function world.now f }
{
    match world.store.state(f).term() {
        Some(term) => world.store.term(term),
        None => None,
    }
}

// Lists of values.

ghost use Rattle.std.specs.Prelude.{◌≡◌, [], ◌∷◌, IfOk};
ghost use Rattle.lua_table.specs.Cells.{first_value, further_values};

use lua_value::{Value, Values};
use std::alloc::Global;
use tl_base::NoMemory;

/// The first value, or nil, and those behind it.
pub fn split_values(values: &[Value]) -> (Value, &[Value])
    ensures first { result.0 ≡ first_value values.now }
    ensures rest { result.1.now ≡ further_values values.now }
{
    match values.split_first() {
        Some((first, rest)) => (*first, rest),
        None => (Value::Nil, values),
    }
}

/// One value.
pub fn one(alloc: Global, value: Value) -> Result<Values, NoMemory>
    ensures { IfOk result (λ values. values ≡ value ∷ []) }
{
    let mut values = Values::new(alloc);
    values.push(value)?;
    Ok(values)
}

/// Two values.
pub fn two(alloc: Global, first: Value, second: Value) -> Result<Values, NoMemory>
    ensures { IfOk result (λ values. values ≡ first ∷ second ∷ []) }
{
    let mut values = Values::new(alloc);
    values.push(first)?;
    values.push(second)?;
    Ok(values)
}

/// Three values.
pub fn three(alloc: Global, first: Value, second: Value, third: Value) -> Result<Values, NoMemory>
    ensures { IfOk result (λ values. values ≡ first ∷ second ∷ third ∷ []) }
{
    let mut values = Values::new(alloc);
    values.push(first)?;
    values.push(second)?;
    values.push(third)?;
    Ok(values)
}

/// Puts a value before others.
pub fn with_first(alloc: Global, value: Value, values: &[Value]) -> Result<Values, NoMemory>
    ensures { IfOk result (λ all. all ≡ value ∷ values.now) }
{
    let mut all = one(alloc, value)?;
    all.push_all(values)?;
    Ok(all)
}

// What the language itself calls where Lua code works on a Terra value: fields, `&T`, `T[n]` and `A -> R`.

ghost use Rattle.std.specs.Prelude.{◌≡◌, ◌≤◌, [], ◌∷◌, IfOk, OnOk, slice_get, option_map};
ghost use Rattle.tl_base.specs.Layer.{state};
ghost use Rattle.lua_value.specs.declared.value.Value.TheVariants as values;
ghost use Rattle.lua_base.specs.Arguments.{argument};
ghost use Rattle.lua_model.specs.Plans.{whole};
ghost use Rattle.exotype.specs.Types.{function_id, with_function};
ghost use Rattle.spec_model.specs.Making.{symbol_type};
ghost use Rattle.terra_lib.specs.Answers.{turned};
ghost use Rattle.terra_lib.specs.Keeping.{KeepsWorld};
ghost use Rattle.terra_lib.specs.Fields.{Fields, field_in, type_methods, shape_methods, struct_methods, function_methods, state_methods};
ghost use Rattle.terra_lib.specs.Fields.{metamethods_field, quote_methods, struct_fields, type_fields, type_or_nil, fields_of};
ghost use Rattle.terra_lib.specs.Fields.{field_under, pointer_type, array_type, types_in, parameters_in, result_of, result_if, result_in};
ghost use Rattle.terra_lib.specs.Fields.{function_of, function_type};

use crate::answers::{give_one, raise};
use crate::lists::values_in;
use crate::types::{count_in, give_array, give_pointer};
use exotype::{Fault, StructTables, World};
use lua_base::argument;
use lua_table::LibTurn;
use lua_value::{LibFn, Number, Value};
use std::alloc::Global;
use terra_types::TypeForm;
use tl_base::{Budget, NoMemory, Place, SymId, TypeId};

/// The unit type, which is there from the begin.
const UNIT: TypeId = TypeId(9);

/// Gives what stands under a key in a Terra value, and nil where nothing does.
pub fn field(world: &World, args: &[Value]) -> Result<LibTurn, NoMemory>
    ensures { IfOk result (λ turn.
        turn ≡ LibTurn.Values (field_under world.now (argument args.now 0) (argument args.now 1) ∷ [])) }
{
    let value = match argument(args, 1) {
        Value::Text(key) => field_of(world, argument(args, 0), world.heap.text(key)),
        _ => Value::Nil,
    };
    give_one(&world.heap, value)
}

/// The field of a Terra value under a name.
fn field_of(world: &World, object: Value, name: &[u8]) -> Value
    ensures { result ≡ field_in (fields_of world.now object) name.now }
{
    match object {
        Value::TerraType(of) => type_field(world, of, name),
        Value::TerraFunction(_) => function_method(name),
        Value::Primitive(_) => function_method(name),
        Value::Quote(_) => quote_method(name),
        Value::Symbol(symbol) => symbol_field(world, symbol, name),
        _ => Value::Nil,
    }
}

fn type_field(world: &World, of: TypeId, name: &[u8]) -> Value
    ensures { result ≡ field_in (type_fields world.now of (slice_get world.now.store.types of.0)) name.now }
{
    match world.store.types().form(of) {
        Some(TypeForm::Pointer(to)) => {
            if name == b"type".as_slice() {
                Value::TerraType(*to)
            } else {
                type_method(name)
            }
        }
        Some(TypeForm::Array(element, count)) => {
            if name == b"type".as_slice() {
                Value::TerraType(*element)
            } else if name == b"N".as_slice() {
                whole(*count)
            } else {
                type_method(name)
            }
        }
        Some(TypeForm::Struct(_, _, _)) => struct_field(world.struct_tables(of), name),
        _ => type_method(name),
    }
}

/// The value of a number from 0 up, and nil where it is out of the profile.
pub fn whole(number: u64) -> Value
    ensures { result ≡ whole number }
{
    let number = match i64::try_from(number) {
        Ok(number) => Number::new(number),
        Err(_) => None,
    };
    match number {
        Some(number) => Value::Number(number),
        None => Value::Nil,
    }
}

#[tactic(auto, unfolding(crate::specs::Fields::struct_fields))]
fn struct_field(tables: StructTables, name: &[u8]) -> Value
    ensures { result ≡ field_in (struct_fields tables) name.now }
{
    if name == b"entries".as_slice() {
        Value::Table(tables.entries)
    } else if name == b"methods".as_slice() {
        Value::Table(tables.methods)
    } else {
        metamethods_field(tables, name)
    }
}

#[tactic(auto, unfolding(crate::specs::Fields::metamethods_field))]
fn metamethods_field(tables: StructTables, name: &[u8]) -> Value
    ensures { result ≡ field_in (metamethods_field tables) name.now }
{
    if name == b"metamethods".as_slice() {
        Value::Table(tables.metamethods)
    } else {
        type_method(name)
    }
}

#[tactic(auto, unfolding(crate::specs::Fields::type_methods))]
/// The method of every type under a name.
fn type_method(name: &[u8]) -> Value
    ensures { result ≡ field_in type_methods name.now }
{
    if name == b"isintegral".as_slice() {
        Value::Library(LibFn::IsIntegral)
    } else if name == b"islogical".as_slice() {
        Value::Library(LibFn::IsLogical)
    } else {
        shape_method(name)
    }
}

#[tactic(auto, unfolding(crate::specs::Fields::shape_methods))]
fn shape_method(name: &[u8]) -> Value
    ensures { result ≡ field_in shape_methods name.now }
{
    if name == b"ispointer".as_slice() {
        Value::Library(LibFn::IsPointer)
    } else if name == b"isarray".as_slice() {
        Value::Library(LibFn::IsArray)
    } else {
        struct_method(name)
    }
}

#[tactic(auto, unfolding(crate::specs::Fields::struct_methods))]
fn struct_method(name: &[u8]) -> Value
    ensures { result ≡ field_in struct_methods name.now }
{
    if name == b"isstruct".as_slice() {
        Value::Library(LibFn::IsStruct)
    } else {
        Value::Nil
    }
}

#[tactic(auto, unfolding(crate::specs::Fields::function_methods))]
/// The method of every Terra function under a name.
fn function_method(name: &[u8]) -> Value
    ensures { result ≡ field_in function_methods name.now }
{
    if name == b"compile".as_slice() {
        Value::Library(LibFn::Compile)
    } else if name == b"gettype".as_slice() {
        Value::Library(LibFn::GetType)
    } else {
        state_method(name)
    }
}

#[tactic(auto, unfolding(crate::specs::Fields::state_methods))]
fn state_method(name: &[u8]) -> Value
    ensures { result ≡ field_in state_methods name.now }
{
    if name == b"isdefined".as_slice() {
        Value::Library(LibFn::IsDefined)
    } else {
        Value::Nil
    }
}

fn quote_method(name: &[u8]) -> Value
    ensures { result ≡ field_in quote_methods name.now }
{
    if name == b"gettype".as_slice() {
        Value::Library(LibFn::GetType)
    } else {
        Value::Nil
    }
}

fn symbol_field(world: &World, symbol: SymId, name: &[u8]) -> Value
    ensures { result ≡ field_in (fields_of world.now (values.Symbol symbol)) name.now }
{
    if name == b"type".as_slice() {
        symbol_type(world, symbol)
    } else {
        Value::Nil
    }
}

/// The type of a symbol, and nil where it has none.
fn symbol_type(world: &World, symbol: SymId) -> Value
    ensures { result ≡ type_or_nil (symbol_type world.now symbol) }
{
    let of = match world.store.symbol(symbol) {
        Some(symbol) => symbol.of,
        None => None,
    };
    match of {
        Some(of) => Value::TerraType(of),
        None => Value::Nil,
    }
}

/// `&T`.
pub fn pointer_type(
    world: &mut World,
    budget: &mut Budget,
    of: Value,
    place: Place,
) -> Result<LibTurn, NoMemory>
    ensures does { IfOk result (λ turn.
        turned turn (state world.new budget.new) ≡ pointer_type (state world.old budget.old) of place) }
    ensures kept { OnOk result (KeepsWorld world.old world.new) }
    ensures paid { OnOk result (budget.new ≤ budget.old) }
{
    match of {
        Value::TerraType(of) => give_pointer(world, of),
        _ => raise(world, budget, place, Fault::NotAType),
    }
}

/// `T[n]`, of a number from 0 up.
pub fn array_type(
    world: &mut World,
    budget: &mut Budget,
    of: Value,
    count: Value,
    place: Place,
) -> Result<LibTurn, NoMemory>
    ensures does { IfOk result (λ turn.
        turned turn (state world.new budget.new) ≡ array_type (state world.old budget.old) of count place) }
    ensures kept { OnOk result (KeepsWorld world.old world.new) }
    ensures paid { OnOk result (budget.new ≤ budget.old) }
{
    match of {
        Value::TerraType(of) => match count {
            Value::Number(number) => match count_in(Some(number)) {
                Some(count) => give_array(world, budget, of, count, place),
                None => raise(world, budget, place, Fault::NotAType),
            },
            _ => raise(world, budget, place, Fault::NotAType),
        },
        _ => raise(world, budget, place, Fault::NotAType),
    }
}

/// `A -> R`, where A is a type or a table of types, and R a type or a table of at most one type.
pub fn function_type(
    world: &mut World,
    budget: &mut Budget,
    params: Value,
    of: Value,
    place: Place,
) -> Result<LibTurn, NoMemory>
    ensures does { IfOk result (λ turn.
        turned turn (state world.new budget.new) ≡ function_type (state world.old budget.old) params of place) }
    ensures kept { OnOk result (KeepsWorld world.old world.new) }
    ensures paid { OnOk result (budget.new ≤ budget.old) }
{
    let Some(params) = parameters_in(world, params)? else {
        return raise(world, budget, place, Fault::NotAType);
    };
    let Some(of) = result_in(world, of)? else {
        return raise(world, budget, place, Fault::NotAType);
    };
    give_function(world, params.as_slice(), of)
}

fn give_function(world: &mut World, params: &[TypeId], of: TypeId) -> Result<LibTurn, NoMemory>
    ensures turn { IfOk result (λ turn. turn ≡ LibTurn.Values (values.TerraType (function_id world.old params.now of) ∷ [])) }
    ensures world { OnOk result (world.new ≡ with_function world.old params.now of) }
    ensures kept { OnOk result (KeepsWorld world.old world.new) }
{
    let function = world.function_of(params, of)?;
    give_one(&world.heap, Value::TerraType(function))
}

/// The parameters of a function type: a type, or a table of types.
fn parameters_in(world: &World, value: Value) -> Result<Option<Vec<TypeId>>, NoMemory>
    ensures { IfOk result (λ types. option_map (λ ts. ts.items) types ≡ parameters_in world.now value) }
{
    let alloc = world.heap.allocator();
    match value {
        Value::TerraType(of) => Ok(Some(Vec::from_slice(alloc, &[of])?)),
        Value::Table(table) => {
            let values = values_in(&world.heap, table)?;
            types_in(alloc, values.as_slice())
        }
        _ => Ok(None),
    }
}

/// The types that values are, where all are types.
fn types_in(alloc: Global, values: &[Value]) -> Result<Option<Vec<TypeId>>, NoMemory>
    ensures { IfOk result (λ types. option_map (λ ts. ts.items) types ≡ types_in values.now) }
{
    let mut types = Vec::new(alloc);
    for value in values {
        match value {
            Value::TerraType(of) => types.push(*of)?,
            _ => return Ok(None),
        }
    }
    Ok(Some(types))
}

/// The result of a function type: a type, or a table of at most one type, where no type is the unit type.
fn result_in(world: &World, value: Value) -> Result<Option<TypeId>, NoMemory>
    ensures { IfOk result (λ of. of ≡ result_in world.now value) }
{
    match parameters_in(world, value)? {
        Some(types) => Ok(one_result(types.as_slice())),
        None => Ok(None),
    }
}

fn one_result(types: &[TypeId]) -> Option<TypeId>
    ensures { result ≡ result_of types.now }
{
    match types {
        [] => Some(UNIT),
        [of] => Some(*of),
        _ => None,
    }
}

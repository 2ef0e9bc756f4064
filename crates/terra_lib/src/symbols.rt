// Symbols, macros and constants.

ghost use Rattle.std.specs.Prelude.{◌≡◌, ◌≤◌, [], ◌∷◌, Some, IfOk, OnOk, slice_get};
ghost use Rattle.tl_base.specs.Layer.{state};
ghost use Rattle.tl_base.specs.declared.ids.TypeId.{TypeId};
ghost use Rattle.lua_value.specs.declared.value.Value.TheVariants as values;
ghost use Rattle.lua_table.specs.Heap.{next_macro, with_macro};
ghost use Rattle.terra_types.specs.declared.types.TypeForm.TheVariants as forms;
ghost use Rattle.terra_term.specs.Held as stores;
ghost use Rattle.exotype.specs.World.{with_heap};
ghost use Rattle.spec_model.specs.Making.{next_symbol, with_symbol};
ghost use Rattle.terra_lib.specs.Answers.{turned};
ghost use Rattle.terra_lib.specs.Keeping.{KeepsWorld};
ghost use Rattle.terra_lib.specs.Symbols.{symbol_turned, macro_turned, constant_turned, in_range, scalar_bits, is_scalar, with_constant};

use crate::answers::{bad_argument, give_one, type_in};
use exotype::World;
use exotype::types::is_type;
use lua_base::argument;
use lua_table::LibTurn;
use lua_value::{LibFn, Value};
use terra_term::TerraConstant;
use terra_types::{Integer, TypeForm, Types};
use tl_base::{Budget, ClosureId, NoMemory, Place, TypeId};

/// Gives a new symbol, with a type or without.
pub fn symbol(
    world: &mut World,
    budget: &mut Budget,
    args: &[Value],
    place: Place,
) -> Result<LibTurn, NoMemory>
    ensures does { IfOk result (λ turn.
        turned turn (state world.new budget.new) ≡ symbol_turned (state world.old budget.old) args.now place) }
    ensures kept { OnOk result (KeepsWorld world.old world.new) }
    ensures paid { OnOk result (budget.new ≤ budget.old) }
{
    match argument(args, 0) {
        Value::Nil => new_symbol(world, None),
        Value::TerraType(of) => {
            if is_type(world.store.types(), of) {
                new_symbol(world, Some(of))
            } else {
                bad_argument(world, budget, place, 1, LibFn::Symbol)
            }
        }
        _ => bad_argument(world, budget, place, 1, LibFn::Symbol),
    }
}

fn new_symbol(world: &mut World, of: Option<TypeId>) -> Result<LibTurn, NoMemory>
    ensures turn { IfOk result (λ turn. turn ≡ LibTurn.Values (values.Symbol (next_symbol world.old) ∷ [])) }
    ensures world { OnOk result (world.new ≡ with_symbol world.old of) }
    ensures kept { OnOk result (KeepsWorld world.old world.new) }
{
    let symbol = world.store.new_symbol(of)?;
    give_one(&world.heap, Value::Symbol(symbol))
}

/// Gives a new macro over a function of Lua code.
pub fn make_macro(
    world: &mut World,
    budget: &mut Budget,
    args: &[Value],
    place: Place,
) -> Result<LibTurn, NoMemory>
    ensures does { IfOk result (λ turn.
        turned turn (state world.new budget.new) ≡ macro_turned (state world.old budget.old) args.now place) }
    ensures kept { OnOk result (KeepsWorld world.old world.new) }
    ensures paid { OnOk result (budget.new ≤ budget.old) }
{
    match argument(args, 0) {
        Value::Closure(function) => new_macro(world, function),
        _ => bad_argument(world, budget, place, 1, LibFn::Macro),
    }
}

fn new_macro(world: &mut World, function: ClosureId) -> Result<LibTurn, NoMemory>
    ensures turn { IfOk result (λ turn. turn ≡ LibTurn.Values (values.Macro (next_macro world.old.heap) ∷ [])) }
    ensures world { OnOk result (world.new ≡ with_heap world.old (with_macro world.old.heap function)) }
    ensures kept { OnOk result (KeepsWorld world.old world.new) }
{
    let id = world.heap.new_macro(function)?;
    give_one(&world.heap, Value::Macro(id))
}

/// Gives a new constant of a scalar type: of a number in an integer type's range, of a boolean for bool, and for a pointer of a number from
/// 0 up.
pub fn constant(
    world: &mut World,
    budget: &mut Budget,
    args: &[Value],
    place: Place,
) -> Result<LibTurn, NoMemory>
    ensures does { IfOk result (λ turn.
        turned turn (state world.new budget.new) ≡ constant_turned (state world.old budget.old) args.now place) }
    ensures kept { OnOk result (KeepsWorld world.old world.new) }
    ensures paid { OnOk result (budget.new ≤ budget.old) }
{
    let Some(of) = type_in(argument(args, 0)) else {
        return bad_argument(world, budget, place, 1, LibFn::Constant);
    };
    if !is_scalar(world.store.types(), of) {
        return bad_argument(world, budget, place, 1, LibFn::Constant);
    }
    let Some(bits) = scalar_bits(world.store.types(), of, argument(args, 1)) else {
        return bad_argument(world, budget, place, 2, LibFn::Constant);
    };
    new_constant(world, of, bits)
}

fn new_constant(world: &mut World, of: TypeId, value: u64) -> Result<LibTurn, NoMemory>
    ensures turn { IfOk result (λ turn.
        turn ≡ LibTurn.Values (values.Constant (stores.next_constant world.old.store) ∷ [])) }
    ensures world { OnOk result (world.new ≡ with_constant world.old of value) }
    ensures kept { OnOk result (KeepsWorld world.old world.new) }
{
    let constant = world.store.new_constant(TerraConstant { of, value })?;
    give_one(&world.heap, Value::Constant(constant))
}

/// Whether a type is an integer type, bool or a pointer.
pub fn is_scalar(types: &Types, of: TypeId) -> bool
    ensures { result ≡ is_scalar (slice_get types.now of.0) }
{
    match types.form(of) {
        Some(TypeForm::Integer(_)) => true,
        Some(TypeForm::Bool) => true,
        Some(TypeForm::Pointer(_)) => true,
        _ => false,
    }
}

/// The 64 bits of a value as one of a scalar type, where it is one.
pub fn scalar_bits(types: &Types, of: TypeId, value: Value) -> Option<u64>
    ensures { result ≡ scalar_bits (slice_get types.now of.0) value }
{
    match types.form(of) {
        Some(TypeForm::Integer(integer)) => integer_bits(*integer, value),
        Some(TypeForm::Bool) => truth_bits(value),
        Some(TypeForm::Pointer(_)) => pointer_bits(value),
        _ => None,
    }
}

fn integer_bits(integer: Integer, value: Value) -> Option<u64>
    ensures { result ≡ scalar_bits (Some (forms.Integer integer)) value }
{
    match value {
        Value::Number(number) => {
            let number = number.get();
            if in_range(integer, i128::from(number)) {
                Some(number.cast_unsigned())
            } else {
                None
            }
        }
        _ => None,
    }
}

fn truth_bits(value: Value) -> Option<u64>
    ensures { result ≡ scalar_bits (Some forms.Bool) value }
{
    match value {
        Value::Boolean(truth) => Some(u64::from(truth)),
        _ => None,
    }
}

fn pointer_bits(value: Value) -> Option<u64>
    ensures { (t : TypeId) → result ≡ scalar_bits (Some (forms.Pointer t)) value }
{
    match value {
        Value::Number(number) => {
            let number = number.get();
            if in_range(Integer::Uint64, i128::from(number)) {
                Some(number.cast_unsigned())
            } else {
                None
            }
        }
        _ => None,
    }
}

/// Whether a number is one of an integer type.
fn in_range(integer: Integer, number: i128) -> bool
    ensures { result ≡ in_range integer number }
{
    match integer {
        Integer::Int8 => -128 <= number && number <= 127,
        Integer::Int16 => -32_768 <= number && number <= 32_767,
        Integer::Int32 => -2_147_483_648 <= number && number <= 2_147_483_647,
        Integer::Int64 => {
            -9_223_372_036_854_775_808 <= number && number <= 9_223_372_036_854_775_807
        }
        Integer::Uint8 => 0 <= number && number <= 255,
        Integer::Uint16 => 0 <= number && number <= 65_535,
        Integer::Uint32 => 0 <= number && number <= 4_294_967_295,
        Integer::Uint64 => 0 <= number && number <= 18_446_744_073_709_551_615,
    }
}

// Checks, and the types of functions.

ghost use Rattle.std.specs.Prelude.{◌≡◌, ◌≤◌, IfOk, OnOk, slice_get};
ghost use Rattle.tl_base.specs.Layer.{state};
ghost use Rattle.check_model.specs.Calls.{parameters_of, result_of};
ghost use Rattle.check_library.specs.Answers.{asked, said};
ghost use Rattle.check_library.specs.Checks.{compile_asked, compile_backed, gettype_asked, gettype_backed, type_or};
ghost use Rattle.check_library.specs.Checks.{function_of, primitive_type, expression_type, quote_type};
ghost use Rattle.check_library.specs.Keeping.{KeepsAsked};

use crate::answers::{bad_argument, give_nothing, give_one, raise, refuse};
use crate::ask::{AskNext, AskTurn};
use check_expr::known::{parameter_types, result_type};
use check_model::{CheckAnswer, KnownResult};
use exotype::{Fault, World};
use lua_base::argument;
use lua_value::{LibFn, Primitive, Value};
use terra_term::{Quote, Typed};
use tl_base::{Budget, FnId, NoMemory, Place, QuoteId, TermId, TypeId};

/// The type of signed numbers of 64 bits, which is there from the begin.
const INT64: TypeId = TypeId(3);

/// The type of bytes.
const UINT8: TypeId = TypeId(4);

/// The unit type.
const UNIT: TypeId = TypeId(9);

/// `compile` asks for the check of a function of the source. A primitive needs none.
pub fn compile(
    world: &mut World,
    budget: &mut Budget,
    args: &[Value],
    place: Place,
) -> Result<AskTurn, NoMemory>
    ensures does { IfOk result (λ turn.
        asked turn (state world.new budget.new) ≡ compile_asked (state world.old budget.old) args.now place) }
    ensures kept { OnOk result (KeepsAsked world.old world.new) }
    ensures paid { OnOk result (budget.new ≤ budget.old) }
{
    match argument(args, 0) {
        Value::TerraFunction(function) => Ok(AskTurn::Check {
            function,
            next: AskNext::Compile,
        }),
        Value::Primitive(_) => Ok(give_nothing(world)),
        _ => bad_argument(world, budget, place, 1, LibFn::Compile),
    }
}

/// `compile` gives nothing, or raises the refusal.
pub fn compile_back(
    world: &mut World,
    budget: &mut Budget,
    answer: CheckAnswer,
    place: Place,
) -> Result<AskTurn, NoMemory>
    ensures does { IfOk result (λ turn.
        asked turn (state world.new budget.new) ≡ compile_backed (state world.old budget.old) answer place) }
    ensures kept { OnOk result (KeepsAsked world.old world.new) }
    ensures paid { OnOk result (budget.new ≤ budget.old) }
{
    if let CheckAnswer::Refused(refusal) = answer {
        return refuse(world, budget, refusal.kind, refusal.place, place);
    }
    Ok(give_nothing(world))
}

/// `gettype` gives the type of a function, where it is known, and asks for the check of one whose type isn't. It gives the type of a typed
/// quote; no other has one.
pub fn get_type(
    world: &mut World,
    budget: &mut Budget,
    args: &[Value],
    place: Place,
) -> Result<AskTurn, NoMemory>
    ensures does { IfOk result (λ turn.
        asked turn (state world.new budget.new) ≡ gettype_asked (state world.old budget.old) args.now place) }
    ensures kept { OnOk result (KeepsAsked world.old world.new) }
    ensures paid { OnOk result (budget.new ≤ budget.old) }
{
    match argument(args, 0) {
        Value::TerraFunction(f) => {
            let other = AskTurn::Check {
                function: f,
                next: AskNext::GetType(f),
            };
            give_type_or(world, budget, f, other)
        }
        Value::Primitive(primitive) => give_primitive_type(world, budget, primitive),
        Value::Quote(quote) => match quote_type(world, quote) {
            Some(of) => give_one(world, Value::TerraType(of)),
            None => raise(world, budget, place, Fault::QuoteWithoutType),
        },
        _ => bad_argument(world, budget, place, 1, LibFn::GetType),
    }
}

/// `gettype` gives the type that the check found, or raises the refusal.
pub fn get_type_back(
    world: &mut World,
    budget: &mut Budget,
    f: FnId,
    answer: CheckAnswer,
    place: Place,
) -> Result<AskTurn, NoMemory>
    ensures does { IfOk result (λ turn.
        asked turn (state world.new budget.new) ≡ gettype_backed (state world.old budget.old) f answer place) }
    ensures kept { OnOk result (KeepsAsked world.old world.new) }
    ensures paid { OnOk result (budget.new ≤ budget.old) }
{
    match answer {
        CheckAnswer::Refused(refusal) => {
            refuse(world, budget, refusal.kind, refusal.place, place)
        }
        _ => {
            let other = give_nothing(world);
            give_type_or(world, budget, f, other)
        }
    }
}

/// Gives the type of a function, where it is known, and does something else where it isn't. This pays nothing.
fn give_type_or(
    world: &mut World,
    budget: &Budget,
    f: FnId,
    other: AskTurn,
) -> Result<AskTurn, NoMemory>
    ensures does { IfOk result (λ turn. asked turn (state world.new budget.now)
        ≡ type_or (state world.old budget.now) f (asked other (state world.old budget.now))) }
    ensures kept { OnOk result (KeepsAsked world.old world.new) }
{
    match parameter_types(world, f)? {
        Some(params) => match result_type(world, f) {
            KnownResult::Is(of) => give_function_type(world, budget, params.as_slice(), of),
            _ => Ok(other),
        },
        None => Ok(other),
    }
}

/// Gives the type of functions of these parameters and this result.
fn give_function_type(
    world: &mut World,
    budget: &Budget,
    params: &[TypeId],
    of: TypeId,
) -> Result<AskTurn, NoMemory>
    ensures does { IfOk result (λ turn. asked turn (state world.new budget.now)
        ≡ said (function_of (state world.old budget.now) params.now of)) }
    ensures kept { OnOk result (KeepsAsked world.old world.new) }
{
    let function = world.function_of(params, of)?;
    give_one(world, Value::TerraType(function))
}

/// Gives the type of a primitive.
fn give_primitive_type(
    world: &mut World,
    budget: &Budget,
    primitive: Primitive,
) -> Result<AskTurn, NoMemory>
    ensures does { IfOk result (λ turn. asked turn (state world.new budget.now)
        ≡ said (primitive_type (state world.old budget.now) primitive)) }
    ensures kept { OnOk result (KeepsAsked world.old world.new) }
{
    match primitive {
        Primitive::PutByte => give_function_type(world, budget, &[UINT8], UNIT),
        Primitive::Write => {
            let bytes = world.pointer_to(UINT8)?;
            give_function_type(world, budget, &[bytes, INT64], UNIT)
        }
        Primitive::Alloc => {
            let bytes = world.pointer_to(UINT8)?;
            give_function_type(world, budget, &[INT64], bytes)
        }
    }
}

/// The type of a typed quote; no other has one.
fn quote_type(world: &World, quote: QuoteId) -> Option<TypeId>
    ensures { result ≡ quote_type world.now (slice_get world.now.store.quotes quote.0) }
{
    match world.store.quote(quote) {
        Some(Quote::Typed(_, made)) => expression_type(world, *made),
        _ => None,
    }
}

/// The type of a typed expression.
fn expression_type(world: &World, made: TermId) -> Option<TypeId>
    ensures { result ≡ expression_type (slice_get world.now.store.typed made.0) }
{
    match world.store.typed(made) {
        Some(Typed::Expression(_, of, _)) => Some(*of),
        _ => None,
    }
}

// Sizes, offsets and globals.

ghost use Rattle.std.specs.Prelude.{◌≡◌, ◌≤◌, ◌<◌, ◌+◌, ◌^◌, length, IfOk, OnOk};
ghost use Rattle.tl_base.specs.Layer.{state};
ghost use Rattle.terra_types.specs.Layouts.{offset_of};
ghost use Rattle.terra_term.specs.Held.{placed_global, has_room, statics_end};
ghost use Rattle.check_model.specs.Typing.{bytes_in};
ghost use Rattle.check_library.specs.Answers.{asked, said};
ghost use Rattle.check_library.specs.Keeping.{KeepsAsked};
ghost use Rattle.check_library.specs.Layouts.{place_within, struct_place, struct_in, name_in, type_there, initial_bits, first_bytes};
ghost use Rattle.check_library.specs.Layouts.{sizeof_asked, sizeof_backed, offsetof_asked, offsetof_backed, offset_turned};
ghost use Rattle.check_library.specs.Layouts.{global_asked, global_backed, global_turned, with_global_in};

use crate::answers::{bad_argument, give_one, raise, refuse};
use crate::ask::{AskNext, AskTurn};
use check_model::CheckAnswer;
use exotype::types::is_type;
use exotype::{Fault, World};
use lua_base::argument;
use lua_value::{LibFn, Value};
use std::alloc::Global;
use terra_lib::answers::type_in;
use terra_lib::fields::whole;
use terra_lib::symbols::scalar_bits;
use terra_term::Static;
use terra_types::{TypeForm, Types};
use tl_base::limits::REGION_ADDRESS;
use tl_base::{Budget, Bytes, GlobalId, NoMemory, Place, TextId, TypeId};

/// The place of what has none in the text.
const NOWHERE: Place = Place { line: 0, word: 0 };

/// Where a struct was made, or the struct among the elements of an array.
#[tactic(auto, using(crate::proofs::Walking::within_next))]
fn struct_place(types: &Types, of: TypeId) -> Place
    ensures { result ≡ place_within (length types.now) types.now of }
{
    let mut of = of;
    let mut steps = types.len();
    'arrays: while 0 < steps {
        match types.form(of) {
            Some(TypeForm::Array(element, _)) => of = *element,
            Some(TypeForm::Struct(_, place, _)) => return *place,
            _ => return NOWHERE,
        }
        steps -= 1;
    }
    NOWHERE
}

/// The bytes of a type whose layout is settled.
fn bytes_of(world: &World, of: TypeId) -> u64
    ensures { result ≡ bytes_in world.now of }
{
    match world.store.types().size_of(of) {
        Some(size) => size,
        None => 0,
    }
}

/// `sizeof` asks for the layout of a type.
pub fn size(
    world: &mut World,
    budget: &mut Budget,
    args: &[Value],
    place: Place,
) -> Result<AskTurn, NoMemory>
    ensures does { IfOk result (λ turn.
        asked turn (state world.new budget.new) ≡ sizeof_asked (state world.old budget.old) args.now place) }
    ensures kept { OnOk result (KeepsAsked world.old world.new) }
    ensures paid { OnOk result (budget.new ≤ budget.old) }
{
    match type_in(argument(args, 0)) {
        Some(of) => Ok(AskTurn::Layout {
            of,
            next: AskNext::SizeOf(of),
        }),
        None => bad_argument(world, budget, place, 1, LibFn::SizeOf),
    }
}

/// `sizeof` gives the bytes of the type, or raises why it has no layout.
pub fn size_back(
    world: &mut World,
    budget: &mut Budget,
    of: TypeId,
    answer: CheckAnswer,
    place: Place,
) -> Result<AskTurn, NoMemory>
    ensures does { IfOk result (λ turn.
        asked turn (state world.new budget.new) ≡ sizeof_backed (state world.old budget.old) of answer place) }
    ensures kept { OnOk result (KeepsAsked world.old world.new) }
    ensures paid { OnOk result (budget.new ≤ budget.old) }
{
    if let CheckAnswer::NoLayout(kind) = answer {
        let own = struct_place(world.store.types(), of);
        return refuse(world, budget, kind, own, place);
    }
    give_one(world, whole(bytes_of(world, of)))
}

/// The struct that an argument is.
fn struct_in(world: &World, value: Value) -> Option<TypeId>
    ensures { result ≡ struct_in world.now value }
{
    match type_in(value) {
        Some(of) => { if world.is_struct(of) { Some(of) } else { None } }
        None => None,
    }
}

/// The name that an argument is.
fn name_in(value: Value) -> Option<TextId>
    ensures { result ≡ name_in value }
{
    match value {
        Value::Text(name) => Some(name),
        _ => None,
    }
}

/// `offsetof` asks for the layout of a struct.
pub fn offset(
    world: &mut World,
    budget: &mut Budget,
    args: &[Value],
    place: Place,
) -> Result<AskTurn, NoMemory>
    ensures does { IfOk result (λ turn.
        asked turn (state world.new budget.new) ≡ offsetof_asked (state world.old budget.old) args.now place) }
    ensures kept { OnOk result (KeepsAsked world.old world.new) }
    ensures paid { OnOk result (budget.new ≤ budget.old) }
{
    let Some(of) = struct_in(world, argument(args, 0)) else {
        return bad_argument(world, budget, place, 1, LibFn::OffsetOf);
    };
    match name_in(argument(args, 1)) {
        Some(name) => Ok(AskTurn::Layout {
            of,
            next: AskNext::OffsetOf(of, name),
        }),
        None => bad_argument(world, budget, place, 2, LibFn::OffsetOf),
    }
}

/// `offsetof` gives the offset of the field, or raises that there is none, or why the struct has no layout.
pub fn offset_back(
    world: &mut World,
    budget: &mut Budget,
    of: TypeId,
    name: TextId,
    answer: CheckAnswer,
    place: Place,
) -> Result<AskTurn, NoMemory>
    ensures does { IfOk result (λ turn.
        asked turn (state world.new budget.new) ≡ offsetof_backed (state world.old budget.old) of name answer place) }
    ensures kept { OnOk result (KeepsAsked world.old world.new) }
    ensures paid { OnOk result (budget.new ≤ budget.old) }
{
    match answer {
        CheckAnswer::NoLayout(kind) => {
            let own = struct_place(world.store.types(), of);
            refuse(world, budget, kind, own, place)
        }
        _ => give_offset(world, budget, of, name, place),
    }
}

/// Gives the offset of a field, or raises that there is none.
fn give_offset(
    world: &mut World,
    budget: &mut Budget,
    of: TypeId,
    name: TextId,
    place: Place,
) -> Result<AskTurn, NoMemory>
    ensures does { IfOk result (λ turn. asked turn (state world.new budget.new)
        ≡ said (offset_turned (state world.old budget.old) (offset_of world.old.store.types of name) place)) }
    ensures kept { OnOk result (KeepsAsked world.old world.new) }
    ensures paid { OnOk result (budget.new ≤ budget.old) }
{
    match world.store.types().offset_of(of, name) {
        Some(offset) => give_one(world, whole(offset)),
        None => bad_argument(world, budget, place, 2, LibFn::OffsetOf),
    }
}

/// The bits with which a global begins.
fn initial_bits(world: &World, of: TypeId, value: Value) -> Option<u64>
    ensures { result ≡ initial_bits world.now of value }
{
    match value {
        Value::Nil => Some(0),
        value => scalar_bits(world.store.types(), of, value),
    }
}

/// The type that an argument is, where there is one.
fn type_there(world: &World, value: Value) -> Option<TypeId>
    ensures { result ≡ type_there world.now value }
{
    match type_in(value) {
        Some(of) => {
            if is_type(world.store.types(), of) {
                Some(of)
            } else {
                None
            }
        }
        None => None,
    }
}

/// `global` asks for the layout of its type.
pub fn global(
    world: &mut World,
    budget: &mut Budget,
    args: &[Value],
    place: Place,
) -> Result<AskTurn, NoMemory>
    ensures does { IfOk result (λ turn.
        asked turn (state world.new budget.new) ≡ global_asked (state world.old budget.old) args.now place) }
    ensures kept { OnOk result (KeepsAsked world.old world.new) }
    ensures paid { OnOk result (budget.new ≤ budget.old) }
{
    let Some(of) = type_there(world, argument(args, 0)) else {
        return bad_argument(world, budget, place, 1, LibFn::Global);
    };
    match initial_bits(world, of, argument(args, 1)) {
        Some(bits) => Ok(AskTurn::Layout {
            of,
            next: AskNext::Global(of, bits),
        }),
        None => bad_argument(world, budget, place, 2, LibFn::Global),
    }
}

/// `global` gives a new global, or raises that statics are full, or why the type has no layout.
pub fn global_back(
    world: &mut World,
    budget: &mut Budget,
    of: TypeId,
    bits: u64,
    answer: CheckAnswer,
    place: Place,
) -> Result<AskTurn, NoMemory>
    ensures does { IfOk result (λ turn.
        asked turn (state world.new budget.new) ≡ global_backed (state world.old budget.old) of bits answer place) }
    ensures kept { OnOk result (KeepsAsked world.old world.new) }
    ensures paid { OnOk result (budget.new ≤ budget.old) }
{
    match answer {
        CheckAnswer::NoLayout(kind) => {
            let own = struct_place(world.store.types(), of);
            refuse(world, budget, kind, own, place)
        }
        _ => place_global(world, budget, of, bits, place),
    }
}

/// Gives a new global of a type whose layout is settled, or raises that statics are full, in which case no bytes are made.
fn place_global(
    world: &mut World,
    budget: &mut Budget,
    of: TypeId,
    bits: u64,
    place: Place,
) -> Result<AskTurn, NoMemory>
    ensures does { IfOk result (λ turn. asked turn (state world.new budget.new)
        ≡ said (global_turned (state world.old budget.old) of (first_bytes (bytes_in world.old of) bits) place)) }
    ensures kept { OnOk result (KeepsAsked world.old world.new) }
    ensures paid { OnOk result (budget.new ≤ budget.old) }
{
    let size = bytes_of(world, of);
    if has_room(world, size) {
        let bytes = first_bytes(world.heap.allocator(), size, bits)?;
        return give_global(world, budget, of, bytes, place);
    }
    raise(world, budget, place, Fault::StaticsFull)
}

/// Whether there is room for one more static of so many bytes.
fn has_room(world: &World, size: u64) -> bool
    ensures { result ≡ has_room world.now.memory world.now.store.statics size }
{
    let next = (statics_end(world.store.statics()) + 15) / 16 * 16;
    next + u128::from(size) <= u128::from(REGION_ADDRESS + world.memory() / 2)
}

/// The first address behind all statics.
#[tactic(auto, using(crate::proofs::Room::end_of_last, crate::proofs::Room::end_of_none))]
fn statics_end(statics: &[Static]) -> u128
    ensures end { result ≡ statics_end statics.now }
    ensures within { result < 2 ^ 65 }
{
    match statics.last() {
        Some(last) => sum(last.address, last.bytes.as_slice().len() as u64),
        None => u128::from(REGION_ADDRESS),
    }
}

/// The sum of two numbers, which may be one of 65 bits.
fn sum(a: u64, b: u64) -> u128
    ensures sum { result ≡ a + b }
    ensures within { result < 2 ^ 65 }
{
    u128::from(a) + u128::from(b)
}

/// So many bytes of a number, the lowest first.
#[tactic(auto, using(crate::proofs::Walking::bytes_next, crate::proofs::Walking::bytes_end))]
fn first_bytes(alloc: Global, count: u64, number: u64) -> Result<Bytes, NoMemory>
    ensures { IfOk result (λ bytes. bytes ≡ first_bytes count number) }
{
    let mut bytes = Vec::new(alloc);
    let mut left = number;
    'each: for _ in 0..count {
        bytes.push((left % 256) as u8)?;
        left /= 256;
    }
    Ok(Bytes::from_vec(bytes))
}

/// Gives a new global that begins with these bytes, or raises that statics are full.
fn give_global(
    world: &mut World,
    budget: &mut Budget,
    of: TypeId,
    bytes: Bytes,
    place: Place,
) -> Result<AskTurn, NoMemory>
    ensures does { IfOk result (λ turn. asked turn (state world.new budget.new)
        ≡ said (global_turned (state world.old budget.old) of bytes place)) }
    ensures kept { OnOk result (KeepsAsked world.old world.new) }
    ensures paid { OnOk result (budget.new ≤ budget.old) }
{
    match new_global(world, of, bytes)? {
        Some(global) => give_one(world, Value::Global(global)),
        None => raise(world, budget, place, Fault::StaticsFull),
    }
}

/// Makes a global that begins with these bytes, where there is room for them.
fn new_global(world: &mut World, of: TypeId, bytes: Bytes) -> Result<Option<GlobalId>, NoMemory>
    ensures id { IfOk result (λ id. id ≡ placed_global world.old.store world.old.memory bytes) }
    ensures ok { OnOk result (world.new ≡ with_global_in world.old of bytes) }
{
    let memory = world.memory();
    world.store.new_global(of, bytes, memory)
}

// The entries of a table in their order, with the tests before and after each check.

ghost use Rattle.std.specs.Prelude.{◌≡◌, ◌≤◌, ◌++◌, slice_get, IfOk, OnOk};
ghost use Rattle.tl_base.specs.Layer.{state};
ghost use Rattle.lua_table.specs.Heap.{table_at};
ghost use Rattle.terra_lib.specs.Answers as library;
ghost use Rattle.terra_lib.specs.Exports.{gives_scalar, marked};
ghost use Rattle.check_model.specs.Calls.{declared_params, declared_result, result_of};
ghost use Rattle.check_model.specs.Typing.{function_at};
ghost use Rattle.check_library.specs.Answers.{asked, said};
ghost use Rattle.check_library.specs.Exports.{fate_by, fate_of_function, fate_of, fate_after, found_result, next_of, fared, exported};
ghost use Rattle.check_library.specs.Exports.{raised_at, are_scalar_types, all_scalar_types, declared_as, takes_known, gives_known};
ghost use Rattle.check_library.specs.Exports.{place_of_function, checked, export_backed, saveobj_asked, taken, taken_at};
ghost use Rattle.check_library.specs.Exports.{table_exported, chunk_ended, too_large, added};
ghost use Rattle.check_library.specs.Keeping.{KeepsAsked};

use crate::answers::{bad_argument, give_nothing, raise, refuse};
use crate::ask::{AskNext, AskTurn, ExportNext};
use crate::counting::Counted;
use check_expr::known::result_type;
use check_model::{CheckAnswer, KnownResult, Rest};
use exotype::{Fault, World};
use lua_base::{argument, table_in};
use lua_value::{LibFn, Value};
use terra_lib::exports::{
    export, gives_scalar, is_free, is_text, is_unit, may_be_exported, takes_scalars,
};
use terra_lib::symbols::is_scalar;
use terra_lib::types::is_undefined;
use terra_term::RefusalKind;
use terra_types::{TypeForm, Types};
use tl_base::limits::MAX_PARAMETERS;
use tl_base::{Budget, FnId, List, NoMemory, Place, TableId, TextId, TypeId};

/// How an entry of a table fares.
#[derive(Clone, Copy, PartialEq, Eq)]
pub enum Fate {
    /// The function is exported under the text.
    Exported(TextId, FnId),
    /// It can't be exported.
    Refused,
    /// It is left out.
    LeftOut,
}

/// The table of globals, which is made first.
const GLOBALS: TableId = TableId(0);

/// The place of what has none in the text.
const NOWHERE: Place = Place { line: 0, word: 0 };

/// How a function fares whose name and parameters allow an export.
fn fate_by(at_end: bool, gives: bool, key: TextId, f: FnId) -> Fate
    ensures { result ≡ fate_by at_end gives key f }
{
    if gives {
        Fate::Exported(key, f)
    } else if at_end {
        Fate::LeftOut
    } else {
        Fate::Refused
    }
}

/// What a function was declared as.
fn declared_as(world: &World, f: FnId) -> Option<TypeId>
    ensures { result ≡ declared_as (function_at world.now f) }
{
    match world.store.function(f) {
        Some(function) => function.declared,
        None => None,
    }
}

/// Whether all these types are scalar.
fn all_scalar_types(types: &Types, all: &[TypeId]) -> bool
    ensures { result ≡ all_scalar_types types.now all.now }
{
    match all {
        [] => true,
        [first, rest @ ..] => is_scalar(types, *first) && all_scalar_types(types, rest),
    }
}

/// Whether a declaration names at most eight parameters, all scalar; what is declared as nothing may have any.
fn takes_declared(world: &World, declared: Option<TypeId>) -> bool
    ensures { result ≡ are_scalar_types world.now.store.types (declared_params world.now.store.types declared) }
{
    let types = world.store.types();
    match declared {
        None => true,
        Some(of) => match types.form(of) {
            Some(TypeForm::Function(parameters, _)) => {
                parameters.as_slice().len() <= MAX_PARAMETERS
                    && all_scalar_types(types, parameters.as_slice())
            }
            _ => true,
        },
    }
}

/// Whether a declaration names no aggregate as the result.
fn gives_declared(world: &World, declared: Option<TypeId>) -> bool
    ensures { result ≡ gives_scalar world.now (declared_result world.now.store.types declared) }
{
    let types = world.store.types();
    match declared {
        None => true,
        Some(of) => match types.form(of) {
            Some(TypeForm::Function(_, result)) => {
                is_scalar(types, *result) || is_unit(types, *result)
            }
            _ => true,
        },
    }
}

/// Whether a function has at most eight parameters, all scalar, as far as they are known.
fn takes_known(world: &World, f: FnId) -> bool
    ensures { result ≡ takes_known world.now f }
{
    if is_undefined(world, f) {
        takes_declared(world, declared_as(world, f))
    } else {
        takes_scalars(world, f)
    }
}

/// Whether no aggregate is written as the result of a function.
fn gives_known(world: &World, f: FnId) -> bool
    ensures { result ≡ gives_known world.now f }
{
    if is_undefined(world, f) {
        gives_declared(world, declared_as(world, f))
    } else {
        gives_scalar(world, f)
    }
}

/// How a function fares under a name before its check: whether it may be exported, if the check allows it.
fn fate_of_function(world: &World, at_end: bool, key: TextId, f: FnId) -> Fate
    ensures { result ≡ fate_of_function world.now at_end key f }
{
    if !is_free(world, world.heap.text(key)) || !takes_known(world, f) {
        return Fate::Refused;
    }
    fate_by(at_end, gives_known(world, f), key, f)
}

/// How an entry fares before a check.
fn fate_of(world: &World, at_end: bool, key: Value, value: Value) -> Fate
    ensures { result ≡ fate_of world.now at_end key value }
{
    match value {
        Value::Nil => Fate::LeftOut,
        Value::TerraFunction(f) => match key {
            Value::Text(name) => fate_of_function(world, at_end, name, f),
            _ => Fate::Refused,
        },
        _ => Fate::Refused,
    }
}

/// Whether no aggregate is known as the result of a function.
fn gives_found(world: &World, f: FnId) -> bool
    ensures { result ≡ gives_scalar world.now (found_result (result_of world.now f)) }
{
    match result_type(world, f) {
        KnownResult::Is(of) => {
            let types = world.store.types();
            is_scalar(types, of) || is_unit(types, of)
        }
        _ => true,
    }
}

/// How a function fares under a name after its check.
fn fate_after(world: &World, at_end: bool, key: TextId, f: FnId) -> Fate
    ensures { result ≡ fate_after world.now at_end key f }
{
    if !is_free(world, world.heap.text(key)) || !may_be_exported(world, &Value::TerraFunction(f)) {
        return Fate::Refused;
    }
    fate_by(at_end, gives_found(world, f), key, f)
}

/// How the first entry fares that isn't left out, which is taken with those before it; where all are left out, none is left.
#[tactic(auto, using(crate::proofs::Walking::next_on))]
fn next_of(world: &World, at_end: bool, rest: &mut Rest<(Value, Value)>) -> Fate
    ensures { record { fate = result; rest = rest.new } ≡ next_of world.now at_end rest.old }
{
    'entries: while let Some((key, value)) = rest.take() {
        match fate_of(world, at_end, key, value) {
            Fate::Exported(name, f) => return Fate::Exported(name, f),
            Fate::Refused => return Fate::Refused,
            Fate::LeftOut => {}
        }
    }
    *rest = Rest::from_vec(Vec::new(world.heap.allocator()));
    Fate::LeftOut
}

/// Goes on with entries: asks for the check of the first function that may be exported, or ends.
fn go_on(
    world: &mut World,
    budget: &mut Budget,
    at_end: bool,
    counted: Counted,
    rest: Rest<(Value, Value)>,
    place: Place,
) -> Result<AskTurn, NoMemory>
    ensures does { IfOk result (λ turn.
        asked turn (state world.new budget.new) ≡ exported (state world.old budget.old) at_end counted rest place) }
    ensures kept { OnOk result (KeepsAsked world.old world.new) }
    ensures paid { OnOk result (budget.new ≤ budget.old) }
{
    let mut rest = rest;
    match next_of(world, at_end, &mut rest) {
        Fate::Exported(key, function) => Ok(AskTurn::Check {
            function,
            next: AskNext::Export(ExportNext {
                at_end,
                counted,
                key,
                function,
                rest,
            }),
        }),
        Fate::Refused => raise(world, budget, place, Fault::BadExport),
        Fate::LeftOut => Ok(give_nothing(world)),
    }
}

/// The place at which a refusal is raised.
fn raised_at(at_end: bool, own: Place, place: Place) -> Place
    ensures { result ≡ raised_at at_end own place }
{
    if at_end { own } else { place }
}

/// The place of a function.
pub fn place_of_function(world: &World, f: FnId) -> Place
    ensures { result ≡ place_of_function world.now f }
{
    match world.store.function(f) {
        Some(function) => function.place,
        None => NOWHERE,
    }
}

/// An export goes on behind its check.
pub fn export_back(
    world: &mut World,
    budget: &mut Budget,
    next: ExportNext,
    answer: CheckAnswer,
    place: Place,
) -> Result<AskTurn, NoMemory>
    ensures does { IfOk result (λ turn.
        asked turn (state world.new budget.new) ≡ export_backed (state world.old budget.old) next answer place) }
    ensures kept { OnOk result (KeepsAsked world.old world.new) }
    ensures paid { OnOk result (budget.new ≤ budget.old) }
{
    match answer {
        CheckAnswer::Refused(refusal) => {
            let at = raised_at(next.at_end, refusal.place, place);
            refuse(world, budget, refusal.kind, refusal.place, at)
        }
        _ => export_checked(world, budget, next, place),
    }
}

/// A function whose check isn't refused is exported, unless its name was used meanwhile, its result is an aggregate, or it reaches too
/// much.
fn export_checked(
    world: &mut World,
    budget: &mut Budget,
    next: ExportNext,
    place: Place,
) -> Result<AskTurn, NoMemory>
    ensures does { IfOk result (λ turn. asked turn (state world.new budget.new)
        ≡ checked (state world.old budget.old) next (fate_after world.old next.at_end next.key next.function) place) }
    ensures kept { OnOk result (KeepsAsked world.old world.new) }
    ensures paid { OnOk result (budget.new ≤ budget.old) }
{
    match fate_after(world, next.at_end, next.key, next.function) {
        Fate::Exported(_, _) => export_counted(world, budget, next, place),
        Fate::Refused => raise(world, budget, place, Fault::BadExport),
        Fate::LeftOut => {
            let ExportNext {
                at_end,
                counted,
                rest,
                ..
            } = next;
            go_on(world, budget, at_end, counted, rest, place)
        }
    }
}

/// A function is counted with all that it reaches, and exported, unless that is too much.
fn export_counted(
    world: &mut World,
    budget: &mut Budget,
    next: ExportNext,
    place: Place,
) -> Result<AskTurn, NoMemory>
    ensures does { IfOk result (λ turn. asked turn (state world.new budget.new)
        ≡ added (state world.old budget.old) next place) }
    ensures kept { OnOk result (KeepsAsked world.old world.new) }
    ensures paid { OnOk result (budget.new ≤ budget.old) }
{
    let ExportNext {
        at_end,
        mut counted,
        key,
        function,
        rest,
    } = next;
    match counted.count_with(world, function)? {
        Some(passing) => refuse_too_large(world, budget, at_end, passing, place),
        None => {
            export(world, key, function)?;
            go_on(world, budget, at_end, counted, rest, place)
        }
    }
}

/// Exports are refused that reach too much, at the function that passes the most typed nodes that they may have.
fn refuse_too_large(
    world: &mut World,
    budget: &mut Budget,
    at_end: bool,
    passing: FnId,
    place: Place,
) -> Result<AskTurn, NoMemory>
    ensures does { IfOk result (λ turn.
        asked turn (state world.new budget.new) ≡ too_large (state world.old budget.old) at_end passing place) }
    ensures kept { OnOk result (KeepsAsked world.old world.new) }
    ensures paid { OnOk result (budget.new ≤ budget.old) }
{
    let own = place_of_function(world, passing);
    let at = raised_at(at_end, own, place);
    refuse(world, budget, RefusalKind::TooLarge, own, at)
}

/// The entries that are taken of a table, in its order.
#[tactic(auto, using(crate::proofs::Walking::taken_next, crate::proofs::Walking::taken_end))]
fn entries_of(world: &World, at_end: bool, table: TableId) -> Result<Rest<(Value, Value)>, NoMemory>
    ensures { IfOk result (λ entries. entries ≡ taken world.now at_end (table_at world.now.heap table)) }
{
    let mut entries = List::new(world.heap.allocator());
    'each: for place in 0..world.heap.entry_count(table) {
        take_entry(world, at_end, &mut entries, table, place)?;
    }
    Ok(Rest::from_list(entries))
}

/// Puts the entry of a table at a place behind others, if it is taken.
fn take_entry(
    world: &World,
    at_end: bool,
    entries: &mut List<(Value, Value)>,
    table: TableId,
    place: usize,
) -> Result<(), NoMemory>
    ensures { OnOk result (entries.new
        ≡ entries.old ++ taken_at world.now at_end (slice_get (table_at world.now.heap table) place)) }
{
    match world.heap.entry(table, place) {
        Some((key, value)) => {
            if at_end && !may_be_exported(world, &value) {
                return Ok(());
            }
            entries.push((key, value))
        }
        None => Ok(()),
    }
}

/// Exports the entries of a table that it has now. From now on `saveobj` counts as called.
fn export_table(
    world: &mut World,
    budget: &mut Budget,
    at_end: bool,
    table: TableId,
    place: Place,
) -> Result<AskTurn, NoMemory>
    ensures does { IfOk result (λ turn.
        asked turn (state world.new budget.new) ≡ table_exported (state world.old budget.old) at_end table place) }
    ensures kept { OnOk result (KeepsAsked world.old world.new) }
    ensures paid { OnOk result (budget.new ≤ budget.old) }
{
    let entries = entries_of(world, at_end, table)?;
    let counted = Counted::new(world.heap.allocator());
    world.exports.save();
    go_on(world, budget, at_end, counted, entries, place)
}

/// `saveobj` counts as called, and raises that the argument of a position isn't of its form.
fn save_nothing(
    world: &mut World,
    budget: &mut Budget,
    place: Place,
    position: u32,
) -> Result<AskTurn, NoMemory>
    ensures does { IfOk result (λ turn. asked turn (state world.new budget.new)
        ≡ said (library.bad_argument (state (marked world.old) budget.old) place position LibFn.SaveObj)) }
    ensures kept { OnOk result (KeepsAsked world.old world.new) }
    ensures paid { OnOk result (budget.new ≤ budget.old) }
{
    world.exports.save();
    bad_argument(world, budget, place, position, LibFn::SaveObj)
}

/// `saveobj` exports the entries that a table has when it is called: functions of the source that are checked without a refusal, under
/// texts of 1 to 255 bytes without a zero byte that no export has yet, with at most eight parameters, all scalar, and a scalar or unit
/// result, and with all that exports reach at most 131,072 typed nodes. It counts as called whatever comes of it.
pub fn save_object(
    world: &mut World,
    budget: &mut Budget,
    args: &[Value],
    place: Place,
) -> Result<AskTurn, NoMemory>
    ensures does { IfOk result (λ turn.
        asked turn (state world.new budget.new) ≡ saveobj_asked (state world.old budget.old) args.now place) }
    ensures kept { OnOk result (KeepsAsked world.old world.new) }
    ensures paid { OnOk result (budget.new ≤ budget.old) }
{
    if !is_text(argument(args, 0)) {
        return save_nothing(world, budget, place, 1);
    }
    match table_in(argument(args, 1)) {
        Some(table) => export_table(world, budget, false, table, place),
        None => save_nothing(world, budget, place, 2),
    }
}

/// The end of the chunk: where `saveobj` was never called, the global functions that may be exported are. A refusal is raised at its own
/// place, and that an entry can't be exported at the place that is given, which is that of the end of the text.
pub fn end_of_chunk(
    world: &mut World,
    budget: &mut Budget,
    place: Place,
) -> Result<AskTurn, NoMemory>
    ensures does { IfOk result (λ turn.
        asked turn (state world.new budget.new) ≡ chunk_ended (state world.old budget.old) place) }
    ensures kept { OnOk result (KeepsAsked world.old world.new) }
    ensures paid { OnOk result (budget.new ≤ budget.old) }
{
    if world.exports.is_saved() {
        return Ok(give_nothing(world));
    }
    export_table(world, budget, true, GLOBALS, place)
}

// What is written of a staging: texts alone, for a caller that has no use for the world.

ghost use Rattle.std.specs.Prelude.{◌≡◌, ◌≤◌, ◌%◌, ◌++◌, Some, IfOk, OnOk};
ghost use Rattle.tl_base.specs.declared.limits.TheConstants.Limits.{MAX_BUDGET, MAX_MEMORY, MEMORY_UNIT, MIN_MEMORY};
ghost use Rattle.tl_tree.specs.Arena.{items_of, end_of as finish_of};
ghost use Rattle.stage_text.specs.Terms.{terms_text};
ghost use Rattle.check_model.specs.Typing.{function_at};
ghost use Rattle.check_model.specs.Calls.{result_of};
ghost use Rattle.stage_model.specs.Texts.{AreChecks, AreTerms, number_text, place_text, placed, type_if_known, function_type};
ghost use Rattle.stage_model.specs.Texts.{refusal_text, verdict, check_text, checks_text};

use crate::staging::{Outcome, stage};
use check_expr::known::{parameter_types, result_type};
use check_library::answers::kind_name;
use check_model::KnownResult;
use exotype::World;
use stage_model::{CheckLine, Mode, Written};
use stage_text::{push_function_type, terms_text};
use std::alloc::Global;
use terra_term::Refusal;
use tl_base::{Bytes, FnId, NoMemory, Place, TypeId};
use tl_tree::Tree;

/// Stages a source as [`stage`] does, checks each function that is defined, and writes a line for each check that was made:
/// `function N at L:W: ok TYPE` or `function N at L:W: refused KIND at L:W in function M`. No check is told of a staging that failed.
pub fn stage_checks(
    alloc: Global,
    tree: &Tree<'_>,
    units: u64,
    memory: u64,
) -> Result<Written, NoMemory>
    requires units { units ≤ MAX_BUDGET }
    requires least { MIN_MEMORY ≤ memory }
    requires most { memory ≤ MAX_MEMORY }
    requires whole { memory % MEMORY_UNIT ≡ 0 }
    ensures { IfOk result (λ it. AreChecks (items_of tree.now) (finish_of tree.now) units memory it) }
{
    let outcome = stage(alloc, tree, units, memory, Mode::CheckAll)?;
    let checks = checks_of(outcome)?;
    Ok(checks)
}

/// Stages a source as [`stage`] does, makes its exports, and writes a line for each export with the lines of the exported terms. They are
/// written after each end: those of a staging that failed are the ones that were exported until then.
pub fn stage_terms(
    alloc: Global,
    tree: &Tree<'_>,
    units: u64,
    memory: u64,
) -> Result<Written, NoMemory>
    requires units { units ≤ MAX_BUDGET }
    requires least { MIN_MEMORY ≤ memory }
    requires most { memory ≤ MAX_MEMORY }
    requires whole { memory % MEMORY_UNIT ≡ 0 }
    ensures { IfOk result (λ it. AreTerms (items_of tree.now) (finish_of tree.now) units memory it) }
{
    let outcome = stage(alloc, tree, units, memory, Mode::Exports)?;
    let terms = terms_of(outcome)?;
    Ok(terms)
}

/// What is written of an outcome with checks.
fn checks_of(outcome: Outcome) -> Result<Written, NoMemory>
    ensures printed { IfOk result (λ it. it.printed ≡ outcome.staging.value.typing.stage.heap.printed) }
    ensures end { IfOk result (λ it. it.end ≡ outcome.end) }
    ensures lines { IfOk result (λ it. it.lines ≡ checks_text outcome.staging.value.typing.stage outcome.checks.items) }
{
    let world = outcome.staging.world();
    let printed = world.printed()?;
    let lines = check_lines(world, &outcome.checks)?;
    Ok(Written {
        printed,
        end: outcome.end,
        lines,
    })
}

/// What is written of an outcome with exports.
fn terms_of(outcome: Outcome) -> Result<Written, NoMemory>
    ensures printed { IfOk result (λ it. it.printed ≡ outcome.staging.value.typing.stage.heap.printed) }
    ensures end { IfOk result (λ it. it.end ≡ outcome.end) }
    ensures lines { IfOk result (λ it. it.lines
        ≡ terms_text outcome.staging.value.typing.stage.store outcome.staging.value.typing.stage.exports.list) }
{
    let world = outcome.staging.world();
    let printed = world.printed()?;
    let lines = export_lines(world)?;
    Ok(Written {
        printed,
        end: outcome.end,
        lines,
    })
}

/// The lines of the exports, and of their terms.
fn export_lines(world: &World) -> Result<Bytes, NoMemory>
    ensures { IfOk result (λ text. text ≡ terms_text world.now.store world.now.exports.list) }
{
    let lines = terms_text(&world.store, world.exports.as_slice())?;
    Ok(lines)
}

/// The lines of checks.
fn check_lines(world: &World, checks: &[CheckLine]) -> Result<Bytes, NoMemory>
    ensures { IfOk result (λ text. text ≡ checks_text world.now checks.now) }
{
    let mut out = Bytes::new(world.heap.allocator());
    for check in checks {
        push_check(world, &mut out, *check)?;
    }
    Ok(out)
}

/// Writes the line of a check.
fn push_check(world: &World, out: &mut Bytes, check: CheckLine) -> Result<(), NoMemory>
    ensures { OnOk result (out.new ≡ out.old ++ check_text world.now check) }
{
    let alloc = world.heap.allocator();
    out.push_all(b"function ")?;
    push_number(alloc, out, check.function)?;
    push_placed(world, out, check.function)?;
    out.push_all(b": ")?;
    push_verdict(world, out, check.function, check.refusal)?;
    out.push_all(b"\n")
}

/// Writes the number of a function.
fn push_number(alloc: Global, out: &mut Bytes, f: FnId) -> Result<(), NoMemory>
    ensures { OnOk result (out.new ≡ out.old ++ number_text f) }
{
    let number = u128::from(f.0) + 1;
    let text = format!(in alloc; "{number}")?;
    out.push_all(text.as_bytes())
}

/// Writes a place.
fn push_place(alloc: Global, out: &mut Bytes, place: Place) -> Result<(), NoMemory>
    ensures { OnOk result (out.new ≡ out.old ++ place_text place) }
{
    let line = place.line;
    let word = place.word;
    let text = format!(in alloc; "{line}:{word}")?;
    out.push_all(text.as_bytes())
}

/// Writes where a function is.
fn push_placed(world: &World, out: &mut Bytes, f: FnId) -> Result<(), NoMemory>
    ensures { OnOk result (out.new ≡ out.old ++ placed (function_at world.now f)) }
{
    match world.store.function(f) {
        None => Ok(()),
        Some(function) => {
            out.push_all(b" at ")?;
            push_place(world.heap.allocator(), out, function.place)
        }
    }
}

/// Writes what a check came to.
fn push_verdict(
    world: &World,
    out: &mut Bytes,
    f: FnId,
    refusal: Option<Refusal>,
) -> Result<(), NoMemory>
    ensures { OnOk result (out.new ≡ out.old ++ verdict world.now f refusal) }
{
    match refusal {
        None => {
            out.push_all(b"ok ")?;
            push_type(world, out, f)
        }
        Some(refusal) => push_refusal(world.heap.allocator(), out, refusal),
    }
}

/// Writes a refusal.
fn push_refusal(alloc: Global, out: &mut Bytes, refusal: Refusal) -> Result<(), NoMemory>
    ensures { OnOk result (out.new ≡ out.old ++ refusal_text refusal) }
{
    out.push_all(b"refused ")?;
    out.push_all(kind_name(refusal.kind).as_bytes())?;
    out.push_all(b" at ")?;
    push_place(alloc, out, refusal.place)?;
    out.push_all(b" in function ")?;
    push_number(alloc, out, refusal.function)
}

/// Writes the type of a function, where it is known.
fn push_type(world: &World, out: &mut Bytes, f: FnId) -> Result<(), NoMemory>
    ensures { OnOk result (out.new ≡ out.old ++ function_type world.now f) }
{
    match parameter_types(world, f)? {
        None => Ok(()),
        Some(parameters) => push_type_with(world, out, parameters.as_slice(), f),
    }
}

/// Writes the type of a function of these parameters, where its result is known.
fn push_type_with(
    world: &World,
    out: &mut Bytes,
    parameters: &[TypeId],
    f: FnId,
) -> Result<(), NoMemory>
    ensures { OnOk result (out.new
        ≡ out.old ++ type_if_known world.now.store.types (Some parameters.now) (result_of world.now f)) }
{
    match result_type(world, f) {
        KnownResult::Is(of) => {
            let alloc = world.heap.allocator();
            push_function_type(alloc, world.store.types(), out, parameters, of)
        }
        KnownResult::NotYet | KnownResult::BeingTyped => Ok(()),
    }
}

// The staging of a source, and the image of its exports.

ghost use Rattle.std.specs.Prelude.{ℕ, ◌≡◌, ◌<◌, ◌-◌, ◌^◌, IfOk, slice_index};
ghost use Rattle.tl_base.specs.Limits.{IsLimits};
ghost use Rattle.tl_tree.specs.Arena.{items_of, end_of as finish_of};
ghost use Rattle.terra_term.specs.Stores.{contents_of};
ghost use Rattle.stage_model.specs.declared.staging.End.TheVariants as ends;
ghost use Rattle.stage_image.specs.Emitted.{AreBytes, CanCompile, HaveBytes, IsEmitted, IsImageOf, IsMade, counted, defined_count};
ghost use Rattle.stage_image.specs.Emitted.{is_defined};

use back_end::compile;
use elf_image::Image;
use exotype::World;
use spec_sound::places_fit;
use stage_loop::stage;
use stage_model::{End, Mode};
use std::alloc::Global;
use terra_term::{Export, FunctionState, Store};
use tl_base::{Bytes, FnId, Limits, NoMemory, Place};
use tl_tree::Tree;

/// What a staging is for a caller that runs or writes the image of its exports.
#[derive(Drop)]
pub struct Emitted {
    /// What was printed.
    pub printed: Bytes,
    /// How many functions are defined at the end.
    pub functions: u64,
    pub end: Made,
}

/// How a staging ends, with the image of its exports where it is done.
#[derive(Drop)]
pub enum Made {
    Image(Image),
    /// By an error: its text, and the place of what raised it.
    Raised { text: Bytes, place: Place },
    /// Before a payment above what was left of the budget.
    Spent,
    /// It is done, and no memory was found to compile its exports.
    Unmade,
}

/// Stages a source with so many units, for a program with so many bytes of memory, makes its exports at the end of the chunk, and
/// compiles them where that is done.
pub fn stage_exports(alloc: Global, tree: &Tree<'_>, limits: Limits) -> Result<Emitted, NoMemory>
    requires { IsLimits limits }
    ensures { IfOk result (λ it. IsEmitted (items_of tree.now) (finish_of tree.now) limits it) }
{
    places_fit(tree);
    let outcome = stage(alloc, tree, limits.budget, limits.memory, Mode::Exports)?;
    let end = outcome.end;
    let emitted = emitted_of(alloc, outcome.staging.world(), end, limits)?;
    Ok(emitted)
}

/// What a staging comes to that left this world.
fn emitted_of(alloc: Global, world: &World, end: End, limits: Limits) -> Result<Emitted, NoMemory>
    requires { end ≡ ends.Done → CanCompile (contents_of world.now.store) world.now.exports.list limits }
    ensures printed { IfOk result (λ it. it.printed ≡ world.now.heap.printed) }
    ensures functions { IfOk result (λ it. it.functions ≡ defined_count world.now.store) }
    ensures end { IfOk result (λ it. IsMade world.now limits.memory end it.end) }
{
    let printed = world.printed()?;
    let functions = defined_count(&world.store);
    let made = made_of(alloc, world, end, limits);
    Ok(Emitted {
        printed,
        functions,
        end: made,
    })
}

/// How many functions of a store are defined.
fn defined_count(store: &Store) -> u64
    ensures { result ≡ defined_count store.now }
{
    let mut count = 0;
    for number in 0..store.function_count() {
        count = counted(store, FnId(number), count);
    }
    count
}

/// A count with one function more, if that is defined.
fn counted(store: &Store, f: FnId, count: u64) -> u64
    requires { count < 2 ^ 64 - 1 }
    ensures { result ≡ counted store.now f count }
{
    if is_defined(store, f) {
        count + 1
    } else {
        count
    }
}

/// Whether a function is defined.
fn is_defined(store: &Store, f: FnId) -> bool
    ensures { result ≡ is_defined store.now f }
{
    match store.state(f) {
        FunctionState::Undefined => false,
        _ => true,
    }
}

/// How a staging ended, with the image of its exports where it is done.
fn made_of(alloc: Global, world: &World, end: End, limits: Limits) -> Made
    requires { end ≡ ends.Done → CanCompile (contents_of world.now.store) world.now.exports.list limits }
    ensures { IsMade world.now limits.memory end result }
{
    match end {
        End::Done => compiled(alloc, &world.store, world.exports.as_slice(), limits),
        End::Raised { text, place } => Made::Raised { text, place },
        End::Spent => Made::Spent,
    }
}

/// The image of exports, where memory is found.
fn compiled(alloc: Global, store: &Store, exports: &[Export], limits: Limits) -> Made
    requires { CanCompile (contents_of store.now) exports.now limits }
    ensures { IsImageOf (contents_of store.now) exports.now limits.memory result }
{
    names_are_bytes(exports);
    match compile(alloc, store, exports, limits) {
        Ok(image) => Made::Image(image),
        Err(NoMemory) => Made::Unmade,
    }
}

/// The bytes of names have 8 bits.
fn names_are_bytes(exports: &[Export])
    ensures { HaveBytes exports.now }
{
    for export in exports {
        name_is_bytes(export);
    }
}

/// So have those of a name.
fn name_is_bytes(export: &Export)
    ensures { AreBytes export.now.name }
{
    are_bytes(export.name.bytes());
}

/// Bytes have 8 bits.
fn are_bytes(bytes: &[u8])
    ensures { (k : ℕ) → slice_index bytes.now k < 2 ^ 8 }
{}

// Runs of images of Terra functions.

ghost use Rattle.std.specs.Prelude.{◌≡◌, ◌≢◌, ℕ, ◌+◌, ◌*◌, ◌≤◌, [], ◌∷◌, length, IfOk, Some, None};
ghost use Rattle.std.specs.Prelude.{List as ListOf};
ghost use Rattle.tl_base.specs.declared.limits.TheConstants.{MAX_COMPILED_NODES, MAX_UNITS};
ghost use Rattle.elf_image.specs.declared.image.Symbol.{Symbol};
ghost use Rattle.elf_image.specs.Lawful.{IsLawful};
ghost use Rattle.terra_term.specs.Stores.{Callable, callable_of, contents_of};
ghost use Rattle.back_end.specs.Units.{IsCompiledCounted};
ghost use Rattle.stage_loop.specs.Runs.{IsMemory, Took};
ghost use Rattle.stage_loop.specs.Calls.{MayRun, EndsAs};
ghost use Rattle.stage_loop.specs.Machines.{HasRun, fault_kind, place_of, end_seen};

use crate::sink::Growing;
use crate::words::values_of;
use back_end::compile_counted;
use elf_image::Image;
use exotype::World;
use export_count::one_counts_right;
use lua_value::Values;
use ready_image::{faults_have_places, ready_exports_compile};
use rv_machine::{Machine, Stop, images_have_runs, runs_take_steps};
use std::alloc::Global;
use terra_eval::nodes::callable_of;
use terra_eval::types::width_of;
use terra_term::Store;
use terra_types::Types;
use terra_words::FaultKind;
use tl_base::limits::MAX_UNITS;
use tl_base::{Bytes, FnId, Limits, List, NoMemory, Place, TypeId};
use word_ops::wrap;

/// How a run of a Terra function ends.
#[derive(Drop)]
pub enum RunEnd {
    /// It returns. Lua code is given these values, if the result is in the profile, and so many units are left.
    Returned(Option<Values>, u64),
    /// It faults at a place of the source, and so many units are left.
    Fault(FaultKind, Place, u64),
    /// It would need more units than there are.
    Broken,
}

/// A run: how it ended, how many steps the image took, and what it printed.
#[derive(Drop)]
pub struct Ran {
    pub end: RunEnd,
    pub steps: u64,
    pub output: Bytes,
}

/// A run of the machine: why it stopped, the units that x9 has then, its steps, and what it printed.
#[derive(Drop)]
pub struct MachineRan {
    pub stop: Stop,
    pub left: u64,
    pub steps: u64,
    pub output: Bytes,
}

/// Runs an image from an address, for at most so many steps. This takes all the memory of the run.
fn run_machine(
    alloc: Global,
    image: &Image,
    address: u64,
    arguments: &[u64],
    steps: u64,
) -> Result<MachineRan, NoMemory>
    requires lawful { IsLawful image.now }
    requires few { length arguments.now ≤ 8 }
    ensures { IfOk result (λ it. HasRun image.now address arguments.now steps it) }
{
    images_have_runs();
    runs_take_steps();
    let mut out = Growing::new(alloc);
    let mut machine = Machine::load(alloc, image)?;
    machine.start(address, arguments);
    match machine.run(steps, &mut out) {
        // The sink found no memory.
        Stop::WriteFault => Err(NoMemory),
        stop => Ok(MachineRan {
            stop,
            left: machine.register(9),
            steps: machine.steps(),
            output: out.into_bytes(),
        }),
    }
}

/// An image of a function, whose code counts so many units.
fn image_of(alloc: Global, world: &World, f: FnId, units: u64) -> Result<Image, NoMemory>
    requires memory { IsMemory world.now.memory }
    requires may { (words : ListOf ℕ) × MayRun world.now f words }
    requires units { units ≤ MAX_UNITS }
    ensures is { IfOk result (λ image. IsCompiledCounted (contents_of world.now.store) world.now.memory f units image) }
    ensures short { IfOk result (λ image. length image.text ≤ 250 * MAX_COMPILED_NODES + 16) }
{
    one_counts_right();
    ready_exports_compile();
    // What is compiled has no budget but these units.
    let limits = Limits {
        budget: 1,
        memory: world.memory(),
    };
    compile_counted(alloc, &world.store, f, units, limits)
}

/// The kind of a fault by its number, which is from 1 to 6.
fn fault_kind(number: u64) -> FaultKind
    ensures { result ≡ fault_kind number }
{
    match number {
        1 => FaultKind::BadAddress,
        2 => FaultKind::DivZero,
        3 => FaultKind::StackFull,
        4 => FaultKind::CallDepth,
        5 => FaultKind::NoReturn,
        _ => FaultKind::BadCall,
    }
}

/// The place of a fault: the line in the upper half of its word, and the number of the token on it in the lower.
fn place_of(number: u64) -> Place
    ensures { result ≡ place_of number }
{
    Place {
        line: (number / (1 << 32)) as u32,
        word: (number % (1 << 32)) as u32,
    }
}

/// What a stop comes to for a function with this result type, with what x9 has then.
fn end_of(
    alloc: Global,
    types: &Types,
    of: TypeId,
    stop: Stop,
    left: u64,
) -> Result<RunEnd, NoMemory>
    ensures { IfOk result (λ end. end ≡ end_seen types.now of stop left) }
{
    match stop {
        Stop::Returned(word) => {
            let word = wrap(width_of(types, of), u128::from(word));
            Ok(RunEnd::Returned(values_of(alloc, types, of, word)?, left))
        }
        Stop::TerraFault { kind, place } => {
            Ok(RunEnd::Fault(fault_kind(kind), place_of(place), left))
        }
        // A run of so many steps that doesn't return or fault needs more units.
        Stop::MachineFault { .. } | Stop::Unfinished | Stop::WriteFault => Ok(RunEnd::Broken),
    }
}

/// The address of the one export of an image.
fn entry_of(image: &Image) -> u64
    requires { (symbol : Symbol) × (image.now.exports ≡ symbol ∷ []) }
    ensures { (symbol : Symbol) → image.now.exports ≡ symbol ∷ [] → result ≡ symbol.address }
{
    match image.exports.as_slice().first() {
        Some(symbol) => symbol.address,
        None => unreachable!(),
    }
}

/// The result type of a function that is typed.
fn result_of(store: &Store, f: FnId) -> TypeId
    requires { callable_of (contents_of store.now) f ≢ None }
    ensures { (k : Callable) → callable_of (contents_of store.now) f ≡ Some k → result ≡ k.body.result }
{
    match callable_of(store, f) {
        Some(function) => function.result,
        None => unreachable!(),
    }
}

/// Runs an image on words from its one export, for as many steps as code may take that counts so many units.
fn run_export(
    alloc: Global,
    image: &Image,
    words: &List<u64>,
    units: u64,
) -> Result<MachineRan, NoMemory>
    requires lawful { IsLawful image.now }
    requires one { (symbol : Symbol) × (image.now.exports ≡ symbol ∷ []) }
    requires short { length image.now.text ≤ 250 * MAX_COMPILED_NODES + 16 }
    requires units { units ≤ MAX_UNITS }
    requires few { length words.now ≤ 8 }
    ensures { IfOk result (λ it. (symbol : Symbol) → image.now.exports ≡ symbol ∷ [] →
        HasRun image.now symbol.address words.now ((units + 1) * length image.now.text) it) }
{
    let most = (units + 1) * image.text.len() as u64;
    run_machine(alloc, image, entry_of(image), words.as_slice(), most)
}

/// How a run of a function that is typed ended.
fn end_in(alloc: Global, world: &World, f: FnId, stop: Stop, left: u64) -> Result<RunEnd, NoMemory>
    requires { callable_of (contents_of world.now.store) f ≢ None }
    ensures { IfOk result (λ end. (k : Callable) → callable_of (contents_of world.now.store) f ≡ Some k →
        end ≡ end_seen world.now.store.types k.body.result stop left) }
{
    let of = result_of(&world.store, f);
    end_of(alloc, world.store.types(), of, stop, left)
}

/// Runs a Terra function on words, with so many units: an image of it runs, whose code counts.
pub fn run_counted(
    alloc: Global,
    world: &World,
    f: FnId,
    words: &List<u64>,
    units: u64,
) -> Result<Ran, NoMemory>
    requires memory { IsMemory world.now.memory }
    requires may { MayRun world.now f words.now }
    requires units { units ≤ MAX_UNITS }
    ensures took { IfOk result (λ ran. Took world.now.memory
        (record { store = world.now.store; function = f; arguments = words.now; units = units }) ran.steps) }
    ensures ends { IfOk result (λ ran. (k : Callable) → callable_of (contents_of world.now.store) f ≡ Some k →
        EndsAs world.now f k.body words.now units ran.output ran.end) }
{
    one_counts_right();
    ready_exports_compile();
    faults_have_places();
    let image = image_of(alloc, world, f, units)?;
    let ran = run_export(alloc, &image, words, units)?;
    Ok(Ran {
        end: end_in(alloc, world, f, ran.stop, ran.left)?,
        steps: ran.steps,
        output: ran.output,
    })
}

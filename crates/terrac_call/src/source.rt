// The commands that stage a source: from its bytes to the work that it comes to.

ghost use Rattle.std.specs.Prelude.{◌≡◌, IfOk, string_bytes};
ghost use Rattle.tl_tree.specs.Arena.{items_of, end_of as finish_of};
ghost use Rattle.tl_base.specs.Limits.{IsLimits};
ghost use Rattle.terra_term.specs.Stores.{contents_of};
ghost use Rattle.stage_model.specs.Staging.{Ending};
ghost use Rattle.elf_image.specs.Calls.{symbol_named};
ghost use Rattle.elf_image.specs.Lawful.{IsLawful};
ghost use Rattle.elf_image.specs.Written as files;
ghost use Rattle.back_end.specs.Compiled.{IsCompiled};
ghost use Rattle.stage_image.specs.Emitted.{IsMade, defined_count};
ghost use Rattle.terrac_call.specs.Words.{text_of};
ghost use Rattle.terrac_call.specs.Ranges.{IsLawfulTask};
ghost use Rattle.terrac_call.specs.Due.{Due as DueOf, given, after};
ghost use Rattle.terrac_call.specs.Staged.{Compiles, IsDone, IsRestDue, IsRestOwed, IsSourceOwed, IsTreeOwed, bytes_of, limits_of, told};
ghost use Rattle.terrac_call.specs.Exec.{IsCallDue};
ghost use Rattle.terrac_call.specs.Run.{front_of, manner_of};
ghost use Rattle.terrac_call.specs.MadeView.{IsLawfulMade};
ghost use Rattle.terrac_call.specs.EndView.{due_of_end};
ghost use Rattle.terrac_call.specs.DueView.{due_of_rest, due_of_work, shown_due, told_to};
ghost use Rattle.terrac_call.specs.JobView.{shown_asking, shown_call, shown_task};

use crate::due::{Due, Line, Rest, Stream, Work};
use crate::exec::{Manner, call_image};
use crate::lines::{no_memory_due, raised_due, spent_due, syntax_due};
use crate::parsing::{Parsed, parse_source};
use crate::status::Status;
use crate::words::{Asking, Limits, Task};
use elf_image::{Image, write};
use gen_source::generate;
use spec_sound::places_fit;
use stage_image::{Emitted, Made, stage_exports};
use stage_loop::{stage_checks, stage_terms};
use stage_model::{End, Written};
use std::alloc::Global;
use tl_base::{Bytes, Limits as StagingLimits, NoMemory};
use tl_tree::Tree;

/// The work for a task on the bytes that were read, or on a source that is generated.
pub(crate) fn stage(alloc: Global, task: &Task<'_>, bytes: &[u8]) -> Result<Work, NoMemory>
    requires { IsLawfulTask (shown_task task.now) }
    ensures { IfOk result (λ work. IsSourceOwed (shown_task task.now) (text_of (shown_task task.now) bytes.now) (due_of_work work)) }
{
    match task.generated() {
        Some(count) => {
            let text = generate(alloc, count)?;
            stage_source(alloc, task, text.as_bytes())
        }
        None => stage_source(alloc, task, bytes),
    }
}

/// The work for a task on the bytes of a source.
fn stage_source(alloc: Global, task: &Task<'_>, bytes: &[u8]) -> Result<Work, NoMemory>
    requires { IsLawfulTask (shown_task task.now) }
    ensures { IfOk result (λ work. IsSourceOwed (shown_task task.now) bytes.now (due_of_work work)) }
{
    let parsed = parse_source(alloc, bytes)?;
    match parsed {
        Parsed::Refused(kind, place) => {
            let due = syntax_due(alloc, kind, place)?;
            Ok(Work::of(alloc, Rest::Due(due)))
        }
        Parsed::Tree(tree) => stage_tree(alloc, task, &tree),
    }
}

/// The work for a task on the tree of a source.
fn stage_tree(alloc: Global, task: &Task<'_>, tree: &Tree<'_>) -> Result<Work, NoMemory>
    requires { IsLawfulTask (shown_task task.now) }
    ensures { IfOk result (λ work. IsTreeOwed (shown_task task.now) (items_of tree.now) (finish_of tree.now) (due_of_work work)) }
{
    places_fit(tree);
    let limits = limits_of(task);
    match task {
        Task::Check(_) => {
            let written = stage_checks(alloc, tree, limits.budget, limits.memory)?;
            written_work(alloc, written)
        }
        Task::Terms(_) => {
            let written = stage_terms(alloc, tree, limits.budget, limits.memory)?;
            written_work(alloc, written)
        }
        Task::Emit(_) | Task::Run(_) => {
            let emitted = stage_exports(alloc, tree, limits)?;
            Ok(emitted_work(alloc, task, emitted))
        }
    }
}

/// The limits of a task.
fn limits_of(task: &Task<'_>) -> StagingLimits
    requires { IsLawfulTask (shown_task task.now) }
    ensures limits { IsLimits result }
    ensures budget { result.budget ≡ (limits_of (shown_task task.now)).budget }
    ensures memory { result.memory ≡ bytes_of (limits_of (shown_task task.now)).memory }
{
    let Limits { budget, memory } = match task {
        Task::Check(limits) | Task::Terms(limits) | Task::Emit(limits) => *limits,
        Task::Run(asking) => asking.running.limits,
    };
    StagingLimits {
        budget,
        memory: memory * StagingLimits::MEMORY_UNIT,
    }
}

/// The work for lines of a staging.
fn written_work(alloc: Global, written: Written) -> Result<Work, NoMemory>
    ensures { IfOk result (λ work. due_of_work work ≡ after written.printed (due_of_end written.end written.lines)) }
{
    let Written {
        printed,
        end,
        lines,
    } = written;
    let due = end_due(alloc, end, lines)?;
    Ok(Work {
        printed,
        to: Stream::Out,
        rest: Rest::Due(due),
    })
}

/// What a staging that ends so owes behind what was printed, with these lines where it is done.
fn end_due(alloc: Global, end: End, lines: Bytes) -> Result<Due, NoMemory>
    ensures { IfOk result (λ due. shown_due due ≡ due_of_end end lines) }
{
    match end {
        End::Done => Ok(Due {
            status: Status::Ok,
            line: Line::Bytes(lines),
        }),
        End::Raised { text, place } => raised_due(alloc, text, place),
        End::Spent => Ok(spent_due()),
    }
}

/// The work for a staging whose exports were compiled. Where memory runs out from here on, what was printed is told before the line.
fn emitted_work(alloc: Global, task: &Task<'_>, emitted: Emitted) -> Work
    requires made { IsLawfulMade emitted.end }
    requires compiles { Compiles (shown_task task.now) }
    ensures { (it : Ending) → emitted.functions ≡ defined_count it.left.world.typing.stage.store
        → IsMade it.left.world.typing.stage (bytes_of (limits_of (shown_task task.now)).memory) it.end emitted.end
        → (rest : DueOf) × IsRestOwed (shown_task task.now) it rest × (due_of_work result ≡ told (shown_task task.now) emitted.printed rest) }
{
    let Emitted {
        printed,
        functions,
        end,
    } = emitted;
    Work {
        printed,
        to: stream_of(task),
        rest: made_or_no_memory(alloc, task, functions, end),
    }
}

/// Where what a staging prints goes.
fn stream_of(task: &Task<'_>) -> Stream
    ensures { told_to result ≡ told (shown_task task.now) }
{
    match task {
        Task::Emit(_) => Stream::Notes,
        _ => Stream::Out,
    }
}

/// What is due for a staging that ended so, or the line that says that memory ran out.
fn made_or_no_memory(alloc: Global, task: &Task<'_>, functions: u64, end: Made) -> Rest
    requires made { IsLawfulMade end }
    requires compiles { Compiles (shown_task task.now) }
    ensures { (it : Ending) → functions ≡ defined_count it.left.world.typing.stage.store
        → IsMade it.left.world.typing.stage (bytes_of (limits_of (shown_task task.now)).memory) it.end end
        → IsRestOwed (shown_task task.now) it (due_of_rest result) }
{
    match made(alloc, task, functions, end) {
        Ok(rest) => rest,
        Err(NoMemory) => Rest::Due(no_memory_due()),
    }
}

/// What is due behind what was printed, for a staging that ended so.
fn made(alloc: Global, task: &Task<'_>, functions: u64, end: Made) -> Result<Rest, NoMemory>
    requires made { IsLawfulMade end }
    requires compiles { Compiles (shown_task task.now) }
    ensures { IfOk result (λ rest. (it : Ending) → functions ≡ defined_count it.left.world.typing.stage.store
        → IsMade it.left.world.typing.stage (bytes_of (limits_of (shown_task task.now)).memory) it.end end
        → IsRestDue (shown_task task.now) it (due_of_rest rest)) }
{
    match end {
        Made::Image(image) => image_rest(alloc, task, functions, &image),
        Made::Raised { text, place } => {
            let due = raised_due(alloc, text, place)?;
            Ok(Rest::Due(due))
        }
        Made::Spent => Ok(Rest::Due(spent_due())),
        Made::Unmade => Err(NoMemory),
    }
}

/// What is due for the image of the exports: its file, or a call.
fn image_rest(
    alloc: Global,
    task: &Task<'_>,
    functions: u64,
    image: &Image,
) -> Result<Rest, NoMemory>
    requires lawful { IsLawful image.now }
    requires compiles { Compiles (shown_task task.now) }
    ensures { IfOk result (λ rest. (it : Ending) → functions ≡ defined_count it.left.world.typing.stage.store
        → IsCompiled (contents_of it.left.world.typing.stage.store) (bytes_of (limits_of (shown_task task.now)).memory)
        it.left.world.typing.stage.exports.list image.now
        → IsDone (shown_task task.now) it (due_of_rest rest)) }
{
    match task {
        Task::Check(_) | Task::Terms(_) => unreachable!(),
        Task::Emit(_) => {
            let due = file_due(alloc, image)?;
            Ok(Rest::Due(due))
        }
        Task::Run(asking) => call_exported(alloc, asking, functions, image),
    }
}

/// The file of an image.
fn file_due(alloc: Global, image: &Image) -> Result<Due, NoMemory>
    requires { IsLawful image.now }
    ensures { IfOk result (λ due. shown_due due ≡ given (files.bytes_of image.now)) }
{
    let file = write(alloc, image)?;
    Ok(Due {
        status: Status::Ok,
        line: Line::Bytes(Bytes::from_vec(file)),
    })
}

/// What is due for a call of what a source exports, of which so many functions are defined.
fn call_exported(
    alloc: Global,
    asking: &Asking<'_>,
    functions: u64,
    image: &Image,
) -> Result<Rest, NoMemory>
    requires { IsLawful image.now }
    ensures { IfOk result (λ rest.
        IsCallDue image.now (shown_call asking.now.call) (manner_of (shown_asking asking.now) functions)
        (symbol_named (shown_call asking.now.call).entry image.now.exports) (due_of_rest rest)) }
{
    let front = front_of(alloc, asking.generated, functions)?;
    let manner = Manner {
        steps: asking.running.steps,
        front: front.as_str(),
        shows: asking.running.shows,
        traced: false,
    };
    call_image(alloc, &asking.call, &manner, image)
}

/// What stands before the line of a result.
fn front_of(alloc: Global, generated: Option<u64>, functions: u64) -> Result<String, NoMemory>
    ensures { IfOk result (λ text. string_bytes text ≡ front_of generated functions) }
{
    match generated {
        None => Ok(String::new(alloc)),
        Some(count) => Ok(format!(in alloc; "gen {count} functions {functions} ")?),
    }
}

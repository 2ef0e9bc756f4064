// What is due to the caller, and the work that a job comes to.

ghost use Rattle.std.specs.Prelude.{◌≡◌, ◌≢◌, ◌+◌, ◌≤◌, [], length, string_bytes, vec_capacity};
ghost use Rattle.rv_machine.specs.Shown.{program_of};
ghost use Rattle.terrac_call.specs.Tracing.{IsTextOf, IsTextOf-prop, words_in};
ghost use Rattle.terrac_call.specs.declared.status.Status.TheVariants as statuses;
ghost use Rattle.terrac_call.specs.declared.due.TheConstants.{LONGEST_END};

use crate::status::Status;
use rv_machine::Machine;
use tl_base::Bytes;

/// How many bytes the line of a run's end has at most, beside what stands before the result.
pub(crate) const LONGEST_END: usize = 64;

/// A line, with its line end; or the file of an image.
#[derive(Drop)]
pub(crate) enum Line {
    Fixed(&'static str),
    Made(String),
    /// One that may be no UTF-8.
    Bytes(Bytes),
}

/// The status that is due and its line: the result for [`Status::Ok`], if there is one, and the line on `notes` for every other. That of a
/// write that failed is due to no job.
#[derive(Drop)]
pub(crate) struct Due {
    pub status: Status,
    pub line: Line,
    ghost other: { status ≢ statuses.WriteFault },
}

/// One of the two sinks.
#[derive(Clone, Copy, Drop)]
pub(crate) enum Stream {
    Out,
    Notes,
}

/// What a job comes to, before anything of it is written. All memory that it takes was found.
#[derive(Drop)]
pub(crate) struct Work {
    /// What its staging printed, which goes first; nothing where it has none.
    pub printed: Bytes,
    /// Where that goes.
    pub to: Stream,
    pub rest: Rest,
}

/// What is due behind what was printed.
#[derive(Drop)]
pub(crate) enum Rest {
    Due(Due),
    /// What a run writes, and the line of its end.
    Run(Ready),
}

/// A machine that stands at the begin of a run.
#[derive(Drop)]
pub(crate) struct Ready {
    pub machine: Machine,
    /// How many instructions are executed at most.
    pub steps: u64,
    /// The file of the image where that is shown, and nothing else.
    pub file: Vec<u8>,
    /// What stands before the line of the result, on that line.
    pub front: String,
    /// The code of the result's type.
    pub code: u8,
    /// The words of the text, where the run is traced.
    pub words: Option<Vec<u32>>,
    /// Room for the line of each end.
    pub line: Vec<u8>,
    ghost empty: { (line.items ≡ []) },
    ghost text: { IsTextOf (words_in words) (program_of machine) } by { IsTextOf-prop (words_in words) (program_of machine) },
    ghost room: { length (string_bytes front) + LONGEST_END ≤ vec_capacity line },
}

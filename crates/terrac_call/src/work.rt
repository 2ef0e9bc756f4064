// From the words and the source to the work that they come to. Nothing is written here.

ghost use Rattle.std.specs.Prelude.{◌≡◌, ◌≢◌, ◌⊎◌, ◌<◌, ℕ, Option, Err, IfOk, OnErr, map, string_bytes};
ghost use Rattle.tl_base.specs.Outside.{IsRisen};
ghost use Rattle.terrac_call.specs.Words.{asked_of, AreTaken, Named, NamesJob, Refused};
ghost use Rattle.terrac_call.specs.Ranges.{IsLawfulJob};
ghost use Rattle.terrac_call.specs.JobView.{shown_job, shown_making};
ghost use Rattle.terrac_call.specs.Answer.{Owed, IsOwed};
ghost use Rattle.terrac_call.specs.Reading.{TookAtMost, most_of_making, most_read};
ghost use Rattle.terrac_call.specs.DueView.{due_of_rest, due_of_work};
ghost use Rattle.terrac_call.specs.declared.status.Status.TheVariants as statuses;
ghost use Rattle.terrac_call.specs.declared.reading.ReadError.TheVariants as errors;

use crate::due::{Rest, Stream, Work};
use crate::exec::exec;
use crate::lines::{bare_usage_due, no_memory_due, read_fault_due, usage_due};
use crate::making::make;
use crate::reading::{ReadError, read_source};
use crate::source::stage;
use crate::words::{Asked, Job, Making, asked_of};
use elf_image::LONGEST_IMAGE;
use std::alloc::Global;
use tl_base::{Bytes, NoMemory, Source};
use tl_lex::LONGEST_TEXT;

impl Work {
    /// Work behind which nothing was printed.
    pub(crate) fn of(alloc: Global, rest: Rest) -> Work
        ensures { due_of_work result ≡ due_of_rest rest }
    {
        Work {
            printed: Bytes::new(alloc),
            to: Stream::Out,
            rest,
        }
    }
}

/// What the words and the source come to.
pub(crate) fn work<S: Source>(alloc: Global, words: &[String], source: &mut S) -> Work
    ensures owed { Owed (asked_of (map string_bytes words.now)) (S.left source.old) (IsRisen (S.faults source.old) (S.faults source.new))
        (due_of_work result) }
    ensures rose { S.faults source.old < S.faults source.new → (due_of_work result).status ≡ statuses.ReadFault }
    ensures taken { AreTaken (map string_bytes words.now) →
        (asked_of (map string_bytes words.now) ≢ Refused) ⊎ ((due_of_work result).status ≡ statuses.NoMemory) }
    ensures untouched { (NamesJob (asked_of (map string_bytes words.now)) → ⊥) → source.new ≡ source.old }
    ensures bound { TookAtMost (most_read (asked_of (map string_bytes words.now))) (S.left source.old) (S.left source.new) }
{
    match work_asked(alloc, words, source) {
        Ok(work) => work,
        Err(ReadError::Unread) => Work::of(alloc, Rest::Due(read_fault_due())),
        Err(ReadError::NoMemory) => Work::of(alloc, Rest::Due(no_memory_due())),
    }
}

/// The work for the words, with what may cut it off.
fn work_asked<S: Source>(alloc: Global, words: &[String], source: &mut S) -> Result<Work, ReadError>
    ensures owed { IfOk result (λ work. Owed (asked_of (map string_bytes words.now)) (S.left source.old)
        (IsRisen (S.faults source.old) (S.faults source.new)) (due_of_work work)) }
    ensures unread { result ≡ Err errors.Unread →
        NamesJob (asked_of (map string_bytes words.now)) × IsRisen (S.faults source.old) (S.faults source.new) }
    ensures quiet { result ≢ Err errors.Unread → S.faults source.new ≡ S.faults source.old }
    ensures taken { AreTaken (map string_bytes words.now) → IfOk result (λ work. asked_of (map string_bytes words.now) ≢ Refused) }
    ensures untouched { (NamesJob (asked_of (map string_bytes words.now)) → ⊥) → source.new ≡ source.old }
    ensures bound { TookAtMost (most_read (asked_of (map string_bytes words.now))) (S.left source.old) (S.left source.new) }
{
    match asked_of(alloc, words)? {
        Asked::Unlawful => Ok(Work::of(alloc, Rest::Due(bare_usage_due()))),
        Asked::Refused(text) => Ok(Work::of(alloc, Rest::Due(usage_due(text)))),
        Asked::Job(job) => read_and_work(alloc, &job, source),
    }
}

/// The work for a job, with the read that it takes.
fn read_and_work<S: Source>(alloc: Global, job: &Job<'_>, source: &mut S) -> Result<Work, ReadError>
    requires { IsLawfulJob (shown_job job.now) }
    ensures owed { IfOk result (λ work. Owed (Named (shown_job job.now)) (S.left source.old)
        (IsRisen (S.faults source.old) (S.faults source.new)) (due_of_work work)) }
    ensures unread { result ≡ Err errors.Unread → IsRisen (S.faults source.old) (S.faults source.new) }
    ensures quiet { result ≢ Err errors.Unread → S.faults source.new ≡ S.faults source.old }
    ensures bound { TookAtMost (most_read (Named (shown_job job.now))) (S.left source.old) (S.left source.new) }
{
    let bytes = read_source(alloc, source, most_read(job))?;
    let work = job_work(alloc, job, &bytes)?;
    Ok(work)
}

/// How many bytes are read for a job at most: one more than its source or image may have; and none for a generated source.
fn most_read(job: &Job<'_>) -> usize
    ensures { result ≡ most_read (Named (shown_job job.now)) }
{
    match job {
        Job::Make(what) => most_of_making(*what),
        Job::Stage(task) => match task.generated() {
            None => LONGEST_TEXT + 1,
            Some(_) => 0,
        },
        Job::Exec(_, _) => LONGEST_IMAGE + 1,
    }
}

fn most_of_making(what: Making<'_>) -> usize
    ensures { result ≡ most_of_making (shown_making what.entry) }
{
    match what {
        Making::ListImage => LONGEST_IMAGE + 1,
        _ => LONGEST_TEXT + 1,
    }
}

/// The work for a job on these bytes.
fn job_work(alloc: Global, job: &Job<'_>, bytes: &[u8]) -> Result<Work, NoMemory>
    requires { IsLawfulJob (shown_job job.now) }
    ensures { IfOk result (λ work. IsOwed (Named (shown_job job.now)) bytes.now (due_of_work work)) }
{
    match job {
        Job::Make(what) => {
            let due = make(alloc, *what, bytes)?;
            Ok(Work::of(alloc, Rest::Due(due)))
        }
        Job::Stage(task) => stage(alloc, task, bytes),
        Job::Exec(call, stepping) => {
            let rest = exec(alloc, call, *stepping, bytes)?;
            Ok(Work::of(alloc, rest))
        }
    }
}

// What is due goes out. No memory is asked for from here on.

ghost use Rattle.std.specs.Prelude.{◌≡◌, ◌≢◌, ◌<◌};
ghost use Rattle.rv_machine.specs.declared.stops.Stop.TheVariants as stops;
ghost use Rattle.rv_machine.specs.Machine.{run_of};
ghost use Rattle.rv_machine.specs.Shown.{program_of, state_of};
ghost use Rattle.terrac_call.specs.Delivery.{Delivered, IsSaid};
ghost use Rattle.terrac_call.specs.DueView.{due_of_ready, due_of_rest, due_of_run, due_of_work, due_with, shown_due};
ghost use Rattle.terrac_call.specs.Tracing.{IsTextOf, TookAll, TookPart, words_in, written_of};
ghost use Rattle.terrac_call.specs.declared.status.Status.TheVariants as statuses;

use crate::due::{Due, Ready, Rest, Stream, Work};
use crate::ends::stop_due;
use crate::status::Status;
use crate::tracing::trace;
use crate::writing::write_piece;
use rv_machine::{Machine, Stop};
use tl_base::{Failed, Sink};

/// Writes what work comes to, what a staging printed before the rest, and answers its status.
pub(crate) fn carry_out<K: Sink, N: Sink>(work: Work, out: &mut K, notes: &mut N) -> Status
    ensures { Delivered (due_of_work work) result (K.taken out.old) (K.taken out.new) (N.taken notes.old) (N.taken notes.new)
        (K.faults out.old) (K.faults out.new) (N.faults notes.old) (N.faults notes.new) (out.new ≡ out.old) (notes.new ≡ notes.old) }
{
    let Work { printed, to, rest } = work;
    match to {
        Stream::Out => match write_piece(out, printed.as_slice()) {
            Ok(()) => finish(rest, out, notes),
            Err(Failed) => write_fault(notes),
        },
        Stream::Notes => match write_piece(notes, printed.as_slice()) {
            Ok(()) => finish(rest, out, notes),
            Err(Failed) => write_fault(notes),
        },
    }
}

/// Writes what is due behind what was printed.
fn finish<K: Sink, N: Sink>(rest: Rest, out: &mut K, notes: &mut N) -> Status
    ensures { Delivered (due_of_rest rest) result (K.taken out.old) (K.taken out.new) (N.taken notes.old) (N.taken notes.new)
        (K.faults out.old) (K.faults out.new) (N.faults notes.old) (N.faults notes.new) (out.new ≡ out.old) (notes.new ≡ notes.old) }
{
    match rest {
        Rest::Due(due) => deliver(due, out, notes),
        Rest::Run(ready) => match write_piece(notes, &ready.file) {
            Ok(()) => run(ready, out, notes),
            Err(Failed) => write_fault(notes),
        },
    }
}

/// Runs a machine, and writes the line of its end behind what its program writes, or behind the lines of its steps.
fn run<K: Sink, N: Sink>(ready: Ready, out: &mut K, notes: &mut N) -> Status
    ensures { Delivered (due_of_run ready) result (K.taken out.old) (K.taken out.new) (N.taken notes.old) (N.taken notes.new)
        (K.faults out.old) (K.faults out.new) (N.faults notes.old) (N.faults notes.new) (out.new ≡ out.old) (notes.new ≡ notes.old) }
{
    let Ready {
        mut machine,
        steps,
        file: _,
        front,
        code,
        words,
        line,
    } = ready;
    let stop = run_machine(&mut machine, &words, steps, out);
    match stop {
        Stop::WriteFault => write_fault(notes),
        _ => deliver(stop_due(front.as_str(), code, stop, line), out, notes),
    }
}

/// Runs a machine, whose program writes to `out`, or which is traced there.
fn run_machine<K: Sink>(
    machine: &mut Machine,
    words: &Option<Vec<u32>>,
    steps: u64,
    out: &mut K,
) -> Stop
    requires { IsTextOf (words_in words.now) (program_of machine.old) }
    ensures whole { result ≢ stops.WriteFault →
        TookAll (written_of (words_in words.now) (program_of machine.old) (state_of machine.old) steps)
        (K.taken out.old) (K.taken out.new) (K.faults out.old) (K.faults out.new) (out.new ≡ out.old) }
    ensures ended { result ≢ stops.WriteFault →
        (run_of (program_of machine.old) (state_of machine.old) steps).stop ≡ result }
    ensures cut_off { result ≡ stops.WriteFault →
        TookPart (written_of (words_in words.now) (program_of machine.old) (state_of machine.old) steps)
        (K.taken out.old) (K.taken out.new) (K.faults out.old) (K.faults out.new) }
{
    match words {
        None => machine.run(steps, out),
        Some(words) => trace(machine, words, steps, out),
    }
}

/// Writes what is due, and answers its status. Where a write fails, the line `write fault` is tried once, and the status takes the
/// place of the one that was due.
pub(crate) fn deliver<K: Sink, N: Sink>(due: Due, out: &mut K, notes: &mut N) -> Status
    ensures { Delivered (shown_due due) result (K.taken out.old) (K.taken out.new) (N.taken notes.old) (N.taken notes.new)
        (K.faults out.old) (K.faults out.new) (N.faults notes.old) (N.faults notes.new) (out.new ≡ out.old) (notes.new ≡ notes.old) }
{
    let Due { status, line } = due;
    match status {
        Status::Ok => deliver_result(line.as_bytes(), out, notes),
        status => deliver_refusal(status, line.as_bytes(), out, notes),
    }
}

/// Writes the result line to `out`, if there is one.
fn deliver_result<K: Sink, N: Sink>(line: &[u8], out: &mut K, notes: &mut N) -> Status
    ensures { Delivered (due_with statuses.Ok line.now) result (K.taken out.old) (K.taken out.new) (N.taken notes.old) (N.taken notes.new)
        (K.faults out.old) (K.faults out.new) (N.faults notes.old) (N.faults notes.new) (out.new ≡ out.old) (notes.new ≡ notes.old) }
{
    match write_piece(out, line) {
        Ok(()) => Status::Ok,
        Err(Failed) => write_fault(notes),
    }
}

/// Writes the line of a refusal to `notes`. `out` stays as it is.
fn deliver_refusal<K: Sink, N: Sink>(
    status: Status,
    line: &[u8],
    out: &mut K,
    notes: &mut N,
) -> Status
    requires refusal { status ≢ statuses.Ok }
    requires other { status ≢ statuses.WriteFault }
    ensures { Delivered (due_with status line.now) result (K.taken out.old) (K.taken out.new) (N.taken notes.old) (N.taken notes.new)
        (K.faults out.old) (K.faults out.new) (N.faults notes.old) (N.faults notes.new) (out.new ≡ out.old) (notes.new ≡ notes.old) }
{
    match write_piece(notes, line) {
        Ok(()) => status,
        Err(Failed) => write_fault(notes),
    }
}

/// Tries the line `write fault`, once.
fn write_fault<N: Sink>(notes: &mut N) -> Status
    ensures status { result ≡ statuses.WriteFault }
    ensures said { IsSaid (N.taken notes.old) (N.taken notes.new) (N.faults notes.old) (N.faults notes.new) }
{
    match write_piece(notes, b"write fault\n") {
        Ok(()) | Err(Failed) => Status::WriteFault,
    }
}

// A run that is traced: a line for each step that fetched a word goes out, in place of what the program writes. No memory is
// asked for.

ghost use Rattle.std.specs.Prelude.{◌≡◌, ◌≢◌, ◌≤◌};
ghost use Rattle.rv_machine.specs.declared.stops.Stop.TheVariants as stops;
ghost use Rattle.rv_machine.specs.Machine.{run_of};
ghost use Rattle.rv_machine.specs.Program.{IsProgram};
ghost use Rattle.rv_machine.specs.Shown.{program_of, state_of};
ghost use Rattle.terrac_call.specs.Tracing.{Ended, Fetched, TookAll, TookPart, change_behind, goes_on, lines_of};

use crate::writing::write_piece;
use rv_listing::{TraceLine, register_written};
use rv_machine::{Machine, Stop};
use tl_base::limits::TEXT_ADDRESS;
use tl_base::{Failed, Sink};

/// A sink that takes all and keeps nothing: where a program writes whose run is traced.
#[derive(Drop)]
struct Nowhere;

impl Sink for Nowhere {
    ghost use Rattle.std.specs.Prelude.{None};

    ghost taken = { λ _. None };

    ghost faults = { λ _. 0 };

    fn write(&mut self, piece: &[u8]) -> Result<usize, Failed> {
        Ok(piece.len())
    }
}

/// Runs a machine, whose text has these words, and writes the line of each step.
pub(crate) fn trace<K: Sink>(machine: &mut Machine, words: &[u32], steps: u64, out: &mut K) -> Stop
    requires { IsProgram words.now (program_of machine.old) }
    ensures whole { result ≢ stops.WriteFault →
        TookAll (lines_of (program_of machine.old) words.now (state_of machine.old) 1 steps)
        (K.taken out.old) (K.taken out.new) (K.faults out.old) (K.faults out.new) (out.new ≡ out.old) }
    ensures ended { result ≢ stops.WriteFault →
        (run_of (program_of machine.old) (state_of machine.old) steps).stop ≡ result }
    ensures cut_off { result ≡ stops.WriteFault →
        TookPart (lines_of (program_of machine.old) words.now (state_of machine.old) 1 steps)
        (K.taken out.old) (K.taken out.new) (K.faults out.old) (K.faults out.new) }
{
    let mut line = TraceLine::new();
    let mut left = steps;
    'turns: while left > 0 {
        match trace_step(machine, words, steps - left + 1, &mut line, out) {
            Stop::Unfinished => left -= 1,
            stop => return stop,
        }
    }
    run_unheard(machine, 0)
}

/// Takes one step, and writes its line where it fetched a word.
fn trace_step<K: Sink>(
    machine: &mut Machine,
    words: &[u32],
    number: u64,
    line: &mut TraceLine,
    out: &mut K,
) -> Stop
    requires { IsProgram words.now (program_of machine.old) }
    ensures whole { result ≢ stops.WriteFault →
        TookAll (lines_of (program_of machine.old) words.now (state_of machine.old) number 1)
        (K.taken out.old) (K.taken out.new) (K.faults out.old) (K.faults out.new) (out.new ≡ out.old) }
    ensures ended { result ≢ stops.WriteFault →
        Ended (run_of (program_of machine.old) (state_of machine.old) 1) result (state_of machine.new) }
    ensures cut_off { result ≡ stops.WriteFault →
        TookPart (lines_of (program_of machine.old) words.now (state_of machine.old) number 1)
        (K.taken out.old) (K.taken out.new) (K.faults out.old) (K.faults out.new) }
    ensures program { program_of machine.new ≡ program_of machine.old }
{
    let address = machine.pc();
    let Some(word) = word_at(words, address) else {
        return run_unheard(machine, 1);
    };
    let register = register_written(word, machine.register(17));
    let stop = run_unheard(machine, 1);
    line.write(
        number,
        address,
        word,
        change_behind(machine, stop, register),
    );
    match write_piece(out, line.bytes()) {
        Ok(()) => stop,
        Err(Failed) => Stop::WriteFault,
    }
}

/// Runs a machine whose program is heard nowhere.
fn run_unheard(machine: &mut Machine, steps: u64) -> Stop
    ensures ended { Ended (run_of (program_of machine.old) (state_of machine.old) steps) result (state_of machine.new) }
    ensures heard { result ≢ stops.WriteFault }
    ensures program { program_of machine.new ≡ program_of machine.old }
{
    machine.run(steps, &mut Nowhere)
}

/// The word of text at an address, if there is one.
fn word_at(words: &[u32], address: u64) -> Option<u32>
    ensures { Fetched words.now address result }
{
    if address < TEXT_ADDRESS || address % 4 != 0 {
        return None;
    }
    let place = ((address - TEXT_ADDRESS) / 4) as usize;
    if place < words.len() {
        Some(words[place])
    } else {
        None
    }
}

/// What a step changed behind which a machine stands, and which stopped so: this register, where it isn't x0. A step that ends
/// the run by a fault changes nothing.
fn change_behind(machine: &Machine, stop: Stop, register: u32) -> Option<(u32, u64)>
    requires { register ≤ 31 }
    ensures { result ≡ change_behind stop (state_of machine.now) register }
{
    if goes_on(stop) && register != 0 {
        Some((register, machine.register(register)))
    } else {
        None
    }
}

/// Whether a run that stopped so ended by no fault.
fn goes_on(stop: Stop) -> bool
    ensures { result ≡ goes_on stop }
{
    match stop {
        Stop::Returned(_) | Stop::Unfinished => true,
        Stop::MachineFault { .. } | Stop::TerraFault { .. } | Stop::WriteFault => false,
    }
}

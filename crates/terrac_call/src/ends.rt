// The line of a run's end, written where room was made for it before the run began, so that no memory is asked for.

ghost use Rattle.std.specs.Prelude.{◌≡◌, ◌≢◌, ◌+◌, ◌%◌, ◌≤◌, [], ◌++◌, length, codes, vec_len, vec_capacity, if◌then◌else◌};
ghost use Rattle.std.specs.Fmt.{decimal};
ghost use Rattle.elf_image.specs.Calls.{number_text, result_text, span};
ghost use Rattle.rv_machine.specs.declared.stops.Stop.TheVariants as stops;
ghost use Rattle.terrac_call.specs.Due.{due_of_result};
ghost use Rattle.terrac_call.specs.Exec.{due_of_fault, due_of_machine_fault, due_of_stop, fault_kind, place_of};
ghost use Rattle.terrac_call.specs.Statuses.{fault_text, machine_fault_text};
ghost use Rattle.terrac_call.specs.DueView.{shown_due};

use crate::due::{Due, LONGEST_END, Line};
use crate::lines::unfinished_due;
use crate::status::{FaultKind, Status};
use elf_image::word_above;
use itoa::Buffer;
use rv_machine::{MachineKind, Stop};
use tl_base::{Bytes, Place};

/// What is due where a run stops so, behind its output.
pub(crate) fn stop_due(front: &str, code: u8, stop: Stop, line: Vec<u8>) -> Due
    requires other { stop ≢ stops.WriteFault }
    requires empty { (line.items ≡ []) }
    requires room { length front.now + LONGEST_END ≤ vec_capacity line }
    ensures { shown_due result ≡ due_of_stop front.now code stop }
{
    match stop {
        Stop::Returned(word) => result_due(front, code, word, line),
        Stop::TerraFault { kind, place } => fault_due(fault_kind(kind), place_of(place), line),
        Stop::MachineFault { kind, pc } => machine_fault_due(kind, pc, line),
        Stop::Unfinished => unfinished_due(),
        Stop::WriteFault => unreachable!(),
    }
}

/// The result line of a word, whose type has this code, with a text before it on that line.
fn result_due(front: &str, code: u8, word: u64, mut line: Vec<u8>) -> Due
    requires empty { (line.items ≡ []) }
    requires room { length front.now + LONGEST_END ≤ vec_capacity line }
    ensures { shown_due result ≡ due_of_result front.now code word }
{
    put(&mut line, front.as_bytes());
    put(&mut line, b"result ");
    put_result(&mut line, code, word);
    put(&mut line, b"\n");
    Due {
        status: Status::Ok,
        line: Line::Bytes(Bytes::from_vec(line)),
    }
}

/// The end of a run by a fault of the program.
fn fault_due(kind: FaultKind, place: Place, mut line: Vec<u8>) -> Due
    requires empty { (line.items ≡ []) }
    requires room { LONGEST_END ≤ vec_capacity line }
    ensures { shown_due result ≡ due_of_fault kind place }
{
    put(&mut line, b"fault ");
    put(&mut line, fault_text(kind).as_bytes());
    put(&mut line, b" at ");
    put_number(&mut line, u64::from(place.line));
    put(&mut line, b":");
    put_number(&mut line, u64::from(place.word));
    put(&mut line, b"\n");
    Due {
        status: Status::Fault { kind, place },
        line: Line::Bytes(Bytes::from_vec(line)),
    }
}

/// The end of a run by a fault of the machine.
fn machine_fault_due(kind: MachineKind, pc: u64, mut line: Vec<u8>) -> Due
    requires empty { (line.items ≡ []) }
    requires room { LONGEST_END ≤ vec_capacity line }
    ensures { shown_due result ≡ due_of_machine_fault kind pc }
{
    put(&mut line, b"machine fault ");
    put(&mut line, machine_fault_text(kind).as_bytes());
    put(&mut line, b" at ");
    put_number(&mut line, pc);
    put(&mut line, b"\n");
    Due {
        status: Status::MachineFault { kind, pc },
        line: Line::Bytes(Bytes::from_vec(line)),
    }
}

fn fault_text(kind: FaultKind) -> &'static str
    ensures text { result.now ≡ fault_text kind }
    ensures short { length result.now ≤ 10 }
{
    match kind {
        FaultKind::BadAddress => "BadAddress",
        FaultKind::DivZero => "DivZero",
        FaultKind::StackFull => "StackFull",
        FaultKind::CallDepth => "CallDepth",
        FaultKind::NoReturn => "NoReturn",
        FaultKind::BadCall => "BadCall",
    }
}

fn machine_fault_text(kind: MachineKind) -> &'static str
    ensures text { result.now ≡ machine_fault_text kind }
    ensures short { length result.now ≤ 11 }
{
    match kind {
        MachineKind::IllegalWord => "IllegalWord",
        MachineKind::BadFetch => "BadFetch",
        MachineKind::BadAccess => "BadAccess",
        MachineKind::BadCall => "BadCall",
        MachineKind::Break => "Break",
    }
}

/// The kind of a fault by its number, which is from 1 to 6.
fn fault_kind(number: u64) -> FaultKind
    ensures { result ≡ fault_kind number }
{
    match number {
        1 => FaultKind::BadAddress,
        2 => FaultKind::DivZero,
        3 => FaultKind::StackFull,
        4 => FaultKind::CallDepth,
        5 => FaultKind::NoReturn,
        _ => FaultKind::BadCall,
    }
}

/// The place of a fault: the line in the upper half of its word, and the number of the token in the lower.
fn place_of(place: u64) -> Place
    ensures { result ≡ place_of place }
{
    Place {
        line: (place / (1 << 32)) as u32,
        word: (place % (1 << 32)) as u32,
    }
}

/// Puts the text of a result that stands in a word.
fn put_result(line: &mut Vec<u8>, code: u8, word: u64)
    requires room { vec_len line.old + 21 ≤ vec_capacity line.old }
    ensures items { line.new.items ≡ line.old.items ++ result_text code word }
    ensures len { vec_len line.new ≤ vec_len line.old + 21 }
    ensures capacity { vec_capacity line.old ≤ vec_capacity line.new }
{
    match code {
        0 => put(line, b"none"),
        9 => put(line, bool_text(word % 2 == 1).as_bytes()),
        _ => put_value(line, code, low_bits(code, word)),
    }
}

fn bool_text(truth: bool) -> &'static str
    ensures text { result.now ≡ (if truth then codes "true" else codes "false") }
    ensures short { length result.now ≤ 5 }
{
    if truth { "true" } else { "false" }
}

/// Puts a number of a type, by its low bits.
fn put_value(line: &mut Vec<u8>, code: u8, low: u64)
    requires low { low + 1 ≤ span code }
    requires room { vec_len line.old + 21 ≤ vec_capacity line.old }
    ensures items { line.new.items ≡ line.old.items ++ number_text code low }
    ensures len { vec_len line.new ≤ vec_len line.old + 21 }
    ensures capacity { vec_capacity line.old ≤ vec_capacity line.new }
{
    match word_above(code, low) {
        Some(number) => put_number(line, number),
        None => {
            put(line, b"-");
            put_number(line, mask(code) - low + 1);
        }
    }
}

/// The greatest word of a type's bits.
fn mask(code: u8) -> u64
    ensures { result + 1 ≡ span code }
{
    match code {
        1 | 5 => 0xff,
        2 | 6 => 0xffff,
        3 | 7 => 0xffff_ffff,
        _ => u64::MAX,
    }
}

/// The low bits of a word that a type has.
fn low_bits(code: u8, word: u64) -> u64
    ensures { result ≡ word % span code }
{
    match mask(code) {
        u64::MAX => word,
        mask => word % (mask + 1),
    }
}

/// Puts a number in decimal.
fn put_number(line: &mut Vec<u8>, number: u64)
    requires room { vec_len line.old + 20 ≤ vec_capacity line.old }
    ensures items { line.new.items ≡ line.old.items ++ decimal number }
    ensures len { vec_len line.new ≤ vec_len line.old + 20 }
    ensures capacity { vec_capacity line.old ≤ vec_capacity line.new }
{
    let mut digits = Buffer::new();
    put(line, digits.format(number).as_bytes());
}

/// Puts a text, for which there is room.
fn put(line: &mut Vec<u8>, text: &[u8])
    requires room { vec_len line.old + length text.now ≤ vec_capacity line.old }
    ensures items { line.new.items ≡ line.old.items ++ text.now }
    ensures len { vec_len line.new ≡ vec_len line.old + length text.now }
    ensures capacity { vec_capacity line.old ≤ vec_capacity line.new }
{
    let _ = line.extend_from_slice(text);
}

// `format`.

ghost use Rattle.std.specs.Prelude.{◌≡◌, ◌+◌, ◌^◌, ◌<◌, ◌≤◌, IfOk, OnOk};
ghost use Rattle.tl_base.specs.Layer.{state};
ghost use Rattle.lua_table.specs.Keeping.{KeepsHeap};
ghost use Rattle.lua_base.specs.Calls.{turned};
ghost use Rattle.lua_textlib.specs.Formats.{format_turned, formatted, formatted_byte, directed, numbered, worded, put, begun, stepped};

use crate::answers::{make_or, push_within};
use crate::arguments::{decimal, text_in};
use crate::refusal::Refusal;
use lua_base::{argument, bad_argument, number_in};
use lua_table::{Heap, LibTurn};
use lua_value::{LibFn, Value};
use tl_base::{Budget, Bytes, NoMemory, Place};

/// What is made of the bytes of a format that are read so far.
#[derive(Drop)]
pub struct Formatting {
    pub made: Bytes,
    /// The byte before was a `%` that begins a directive.
    pub directive: bool,
    /// The argument that the next directive reads, from 0.
    pub next: usize,
}

/// Gives the text that the first argument says of the others (Lua 5.1 manual, section 5.4). It knows `%d`, `%s` and `%%`.
pub fn format(
    heap: &mut Heap,
    budget: &mut Budget,
    args: &[Value],
    place: Place,
) -> Result<LibTurn, NoMemory>
    ensures does { IfOk result (λ turn.
        turned turn (state heap.new budget.new) ≡ format_turned (state heap.old budget.old) args.now place) }
    ensures kept { OnOk result (KeepsHeap heap.old heap.new) }
    ensures paid { OnOk result (budget.new ≤ budget.old) }
{
    let Some(text) = text_in(heap, argument(args, 0))? else {
        return bad_argument(heap, budget, place, 1, LibFn::Format);
    };
    let made = formatted(heap, args, text.bytes(heap))?;
    make_or(heap, budget, made, place, LibFn::Format)
}

/// What the bytes of a format make of the arguments.
fn formatted(heap: &Heap, args: &[Value], format: &[u8]) -> Result<Result<Bytes, Refusal>, NoMemory>
    ensures { IfOk result (λ made. made ≡ formatted heap.now args.now begun format.now) }
{
    let mut formatting = Formatting {
        made: Bytes::new(heap.allocator()),
        directive: false,
        next: 1,
    };
    for byte in format {
        if let Some(refusal) = format_byte(heap, args, &mut formatting, *byte)? {
            return Ok(Err(refusal));
        }
    }
    if formatting.directive {
        return Ok(Err(Refusal::BadArgument(1)));
    }
    Ok(Ok(formatting.made))
}

/// Goes on with a byte of the format.
fn format_byte(
    heap: &Heap,
    args: &[Value],
    formatting: &mut Formatting,
    byte: u8,
) -> Result<Option<Refusal>, NoMemory>
    requires { formatting.old.next < 2 ^ 63 }
    ensures does { IfOk result (λ refusal.
        stepped refusal formatting.new ≡ formatted_byte heap.now args.now formatting.old byte) }
    ensures next { OnOk result (formatting.new.next ≤ formatting.old.next + 1) }
{
    if formatting.directive {
        direct(heap, args, formatting, byte)
    } else if byte == b'%' {
        formatting.directive = true;
        Ok(None)
    } else {
        put(formatting, &[byte], formatting.next)
    }
}

/// Does what a directive says, whose byte behind the `%` this is.
fn direct(
    heap: &Heap,
    args: &[Value],
    formatting: &mut Formatting,
    byte: u8,
) -> Result<Option<Refusal>, NoMemory>
    requires { formatting.old.next < 2 ^ 63 }
    ensures does { IfOk result (λ refusal.
        stepped refusal formatting.new ≡ directed heap.now args.now formatting.old.made formatting.old.next byte) }
    ensures next { OnOk result (formatting.new.next ≤ formatting.old.next + 1) }
{
    match byte {
        b'%' => put(formatting, b"%", formatting.next),
        b'd' => put_number(heap, formatting, argument(args, formatting.next)),
        b's' => put_text(heap, formatting, argument(args, formatting.next)),
        _ => Ok(Some(Refusal::BadArgument(1))),
    }
}

/// Puts an argument as a number.
fn put_number(
    heap: &Heap,
    formatting: &mut Formatting,
    value: Value,
) -> Result<Option<Refusal>, NoMemory>
    requires { formatting.old.next < 2 ^ 63 }
    ensures does { IfOk result (λ refusal.
        stepped refusal formatting.new ≡ numbered heap.now formatting.old.made formatting.old.next value) }
    ensures next { OnOk result (formatting.new.next ≤ formatting.old.next + 1) }
{
    match number_in(heap, value) {
        Some(number) => {
            let text = decimal(heap, number)?;
            put(formatting, text.bytes(), formatting.next + 1)
        }
        None => Ok(Some(Refusal::BadArgument(formatting.next + 1))),
    }
}

/// Puts an argument as a text.
fn put_text(
    heap: &Heap,
    formatting: &mut Formatting,
    value: Value,
) -> Result<Option<Refusal>, NoMemory>
    requires { formatting.old.next < 2 ^ 63 }
    ensures does { IfOk result (λ refusal.
        stepped refusal formatting.new ≡ worded heap.now formatting.old.made formatting.old.next value) }
    ensures next { OnOk result (formatting.new.next ≤ formatting.old.next + 1) }
{
    match text_in(heap, value)? {
        Some(text) => put(formatting, text.bytes(heap), formatting.next + 1),
        None => Ok(Some(Refusal::BadArgument(formatting.next + 1))),
    }
}

/// Puts bytes behind what is made. A directive is over by that, and the next one reads this argument.
fn put(formatting: &mut Formatting, more: &[u8], next: usize) -> Result<Option<Refusal>, NoMemory>
    ensures does { IfOk result (λ refusal. stepped refusal formatting.new ≡ put formatting.old.made next more.now) }
    ensures next { OnOk result (formatting.new.next ≡ next) }
{
    formatting.directive = false;
    formatting.next = next;
    if push_within(&mut formatting.made, more)? {
        Ok(None)
    } else {
        Ok(Some(Refusal::TooLong))
    }
}

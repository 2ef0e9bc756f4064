// The functions that tell what values are, and that write them (Lua 5.1 manual, section 5.1).

ghost use Rattle.std.specs.Prelude.{ℕ, ◌≡◌, ◌≤◌, ◌++◌, IfOk, OnOk, drop, codes};
ghost use Rattle.tl_base.specs.Layer.{state};
ghost use Rattle.lua_table.specs.Keeping.{KeepsHeap};
ghost use Rattle.lua_base.specs.Calls.{turned};
ghost use Rattle.lua_base.specs.Texts.{value_text};
ghost use Rattle.lua_base.specs.Printing.{type_in, bytes_of, type_turned, printed, tab_before, print_rest, text_unless, asked_or_printed};
ghost use Rattle.lua_base.specs.Printing.{print_turned, print_back, text_made, tostring_turned, given_paid, tostring_back, read_number};
ghost use Rattle.lua_base.specs.Printing.{number_of, tonumber_turned, count_of, selected, is_count, select_turned};

use crate::answers::{bad_argument, give, give_text, raise};
use crate::arguments::{argument, number_in};
use crate::texts::push_text;
use lua_ops::{Numeral, read_numeral};
use lua_table::{Back, Heap, LibNext, LibTurn, text_units};
use lua_value::{LibFn, Number, Value, Values};
use tl_base::{Budget, Bytes, NoMemory, Place, TypeId};

/// `type` gives the name of a value's kind, which is a text that is made.
pub fn type_of(
    heap: &mut Heap,
    budget: &mut Budget,
    args: &[Value],
    place: Place,
) -> Result<LibTurn, NoMemory>
    ensures does { IfOk result (λ turn.
        turned turn (state heap.new budget.new) ≡ type_turned (state heap.old budget.old) args.now place) }
    ensures kept { OnOk result (KeepsHeap heap.old heap.new) }
    ensures paid { OnOk result (budget.new ≤ budget.old) }
{
    let Some(value) = args.first() else {
        return bad_argument(heap, budget, place, 1, LibFn::Type);
    };
    let name = value.kind().name().as_bytes();
    if !budget.pay(text_units(name.len())) {
        return Ok(LibTurn::Spent);
    }
    let made = Value::Text(heap.intern(name)?);
    give(heap, &[made])
}

/// The type that a value is. Its text is asked for.
fn type_in(value: &Value) -> Option<TypeId>
    ensures { result ≡ type_in value.now }
{
    match value {
        Value::TerraType(id) => Some(*id),
        _ => None,
    }
}

/// The bytes of a text. Of what is none there are none.
fn bytes_of<'a>(heap: &'a Heap, value: &Value) -> &'a [u8]
    ensures { result.now ≡ bytes_of heap.now value.now }
{
    match value {
        Value::Text(id) => heap.text(*id),
        _ => &[],
    }
}

/// `print` writes the texts of its arguments in a line, with tabs between them, and gives nothing.
pub fn print(heap: &mut Heap, budget: &mut Budget, args: &[Value]) -> Result<LibTurn, NoMemory>
    ensures does { IfOk result (λ turn.
        turned turn (state heap.new budget.new) ≡ print_turned (state heap.old budget.old) args.now) }
    ensures kept { OnOk result (KeepsHeap heap.old heap.new) }
    ensures paid { OnOk result (budget.new ≤ budget.old) }
{
    let line = Bytes::new(heap.allocator());
    print_from(heap, budget, line, args, 0)
}

/// Goes on with a line of which so much is written, from the argument of a number on. A type is asked about.
fn print_from(
    heap: &mut Heap,
    budget: &mut Budget,
    mut line: Bytes,
    args: &[Value],
    from: usize,
) -> Result<LibTurn, NoMemory>
    ensures does { IfOk result (λ turn. turned turn (state heap.new budget.new)
        ≡ print_rest (state heap.old budget.old) line args.now from (drop from args.now)) }
    ensures kept { OnOk result (KeepsHeap heap.old heap.new) }
    ensures paid { OnOk result (budget.new ≤ budget.old) }
{
    match push_texts(heap, &mut line, args, from)? {
        Some((at, of)) => {
            let args = Values::from_slice(heap.allocator(), args)?;
            Ok(LibTurn::TypeText {
                of,
                next: LibNext::Print {
                    written: line,
                    args,
                    from: at as u64,
                },
            })
        }
        None => print_line(heap, budget, line),
    }
}

/// Puts the texts of arguments behind a line, from a number on, up to the first type. Gives the number and the type.
fn push_texts(
    heap: &Heap,
    line: &mut Bytes,
    args: &[Value],
    from: usize,
) -> Result<Option<(usize, TypeId)>, NoMemory>
    ensures { IfOk result (λ asked. (units : ℕ) →
        print_rest (state heap.now units) line.old args.now from (drop from args.now)
        ≡ asked_or_printed (state heap.now units) line.new args.now asked) }
{
    for at in from..args.len() {
        if let Some(of) = push_argument(heap, line, args[at], at)? {
            return Ok(Some((at, of)));
        }
    }
    Ok(None)
}

/// Puts the text of the argument of a number behind a line, with a tab before it unless it is the first one. Of a type it puts the tab
/// alone, and gives the type.
fn push_argument(
    heap: &Heap,
    line: &mut Bytes,
    value: Value,
    at: usize,
) -> Result<Option<TypeId>, NoMemory>
    ensures which { IfOk result (λ of. of ≡ type_in value) }
    ensures line { IfOk result (λ of. line.new ≡ line.old ++ tab_before at ++ text_unless of (value_text heap.now value)) }
{
    if at > 0 {
        line.push_all(b"\t")?;
    }
    if let Some(of) = type_in(&value) {
        return Ok(Some(of));
    }
    push_text(heap, line, value)?;
    Ok(None)
}

/// Ends a line, and prints it. It is paid for before.
fn print_line(heap: &mut Heap, budget: &mut Budget, mut line: Bytes) -> Result<LibTurn, NoMemory>
    ensures does { IfOk result (λ turn. turned turn (state heap.new budget.new)
        ≡ printed (state heap.old budget.old) (line ++ codes "\n")) }
    ensures kept { OnOk result (KeepsHeap heap.old heap.new) }
    ensures paid { OnOk result (budget.new ≤ budget.old) }
{
    line.push_all(b"\n")?;
    if !budget.pay(text_units(line.as_slice().len())) {
        return Ok(LibTurn::Spent);
    }
    heap.print(line.as_slice())?;
    give(heap, &[])
}

#[tactic(auto, using(crate::proofs::Past::nothing_past))]
/// `print` goes on with the text of the type that is the argument of a number.
pub fn print_back(
    heap: &mut Heap,
    budget: &mut Budget,
    written: Bytes,
    args: Values,
    from: u64,
    answer: Back,
) -> Result<LibTurn, NoMemory>
    ensures does { IfOk result (λ turn. turned turn (state heap.new budget.new)
        ≡ print_back (state heap.old budget.old) written args from answer) }
    ensures kept { OnOk result (KeepsHeap heap.old heap.new) }
    ensures paid { OnOk result (budget.new ≤ budget.old) }
{
    let mut line = written;
    match answer {
        Back::Values(values) => {
            line.push_all(bytes_of(heap, &argument(values.as_slice(), 0)))?;
            let from = from as usize;
            if from < args.as_slice().len() {
                print_from(heap, budget, line, args.as_slice(), from + 1)
            } else {
                print_line(heap, budget, line)
            }
        }
        Back::Raised(value, place) => Ok(LibTurn::Raise(value, place)),
    }
}

/// `tostring` gives the text of a value.
pub fn to_string(
    heap: &mut Heap,
    budget: &mut Budget,
    args: &[Value],
    place: Place,
) -> Result<LibTurn, NoMemory>
    ensures does { IfOk result (λ turn.
        turned turn (state heap.new budget.new) ≡ tostring_turned (state heap.old budget.old) args.now place) }
    ensures kept { OnOk result (KeepsHeap heap.old heap.new) }
    ensures paid { OnOk result (budget.new ≤ budget.old) }
{
    match args.first() {
        Some(value) => text_of(heap, budget, *value, place),
        None => bad_argument(heap, budget, place, 1, LibFn::ToString),
    }
}

/// Gives the text of a value, which is made where the value is no text. That of a type is asked for.
fn text_of(
    heap: &mut Heap,
    budget: &mut Budget,
    value: Value,
    place: Place,
) -> Result<LibTurn, NoMemory>
    ensures does { IfOk result (λ turn.
        turned turn (state heap.new budget.new) ≡ text_made (state heap.old budget.old) value place) }
    ensures kept { OnOk result (KeepsHeap heap.old heap.new) }
    ensures paid { OnOk result (budget.new ≤ budget.old) }
{
    match value {
        Value::Text(_) => give(heap, &[value]),
        Value::TerraType(of) => Ok(LibTurn::TypeText {
            of,
            next: LibNext::ToString,
        }),
        _ => {
            let mut text = Bytes::new(heap.allocator());
            push_text(heap, &mut text, value)?;
            give_text(heap, budget, place, text.as_slice())
        }
    }
}

/// `tostring` gives the text of a type, which is paid for.
pub fn to_string_back(
    heap: &mut Heap,
    budget: &mut Budget,
    answer: Back,
) -> Result<LibTurn, NoMemory>
    ensures does { IfOk result (λ turn.
        turned turn (state heap.new budget.new) ≡ tostring_back (state heap.old budget.old) answer) }
    ensures kept { OnOk result (KeepsHeap heap.old heap.new) }
    ensures paid { OnOk result (budget.new ≤ budget.old) }
{
    match answer {
        Back::Values(values) => give_paid(heap, budget, argument(values.as_slice(), 0)),
        Back::Raised(value, place) => Ok(LibTurn::Raise(value, place)),
    }
}

/// Gives a text that was made elsewhere, which is paid for.
fn give_paid(heap: &mut Heap, budget: &mut Budget, text: Value) -> Result<LibTurn, NoMemory>
    ensures does { IfOk result (λ turn.
        turned turn (state heap.new budget.new) ≡ given_paid (state heap.old budget.old) text) }
    ensures kept { OnOk result (KeepsHeap heap.old heap.new) }
    ensures paid { OnOk result (budget.new ≤ budget.old) }
{
    if !budget.pay(text_units(bytes_of(heap, &text).len())) {
        return Ok(LibTurn::Spent);
    }
    give(heap, &[text])
}

/// `tonumber` gives the number that a value is, and nil where it is none.
pub fn to_number(
    heap: &mut Heap,
    budget: &mut Budget,
    args: &[Value],
    place: Place,
) -> Result<LibTurn, NoMemory>
    ensures does { IfOk result (λ turn.
        turned turn (state heap.new budget.new) ≡ tonumber_turned (state heap.old budget.old) args.now place) }
    ensures kept { OnOk result (KeepsHeap heap.old heap.new) }
    ensures paid { OnOk result (budget.new ≤ budget.old) }
{
    match args.first() {
        Some(value) => number_of(heap, budget, *value, place),
        None => bad_argument(heap, budget, place, 1, LibFn::ToNumber),
    }
}

/// Gives the number that a value is, and nil where it is none. A text stands for one as in arithmetic.
fn number_of(
    heap: &mut Heap,
    budget: &mut Budget,
    value: Value,
    place: Place,
) -> Result<LibTurn, NoMemory>
    ensures does { IfOk result (λ turn.
        turned turn (state heap.new budget.new) ≡ number_of (state heap.old budget.old) value place) }
    ensures kept { OnOk result (KeepsHeap heap.old heap.new) }
    ensures paid { OnOk result (budget.new ≤ budget.old) }
{
    match value {
        Value::Number(_) => give(heap, &[value]),
        Value::Text(id) => match read_numeral(heap.text(id)) {
            Numeral::Number(number) => give(heap, &[Value::Number(number)]),
            Numeral::OutOfProfile => raise(heap, budget, place, b"number out of profile"),
            Numeral::NoNumber => give(heap, &[Value::Nil]),
        },
        _ => give(heap, &[Value::Nil]),
    }
}

/// `select` gives the arguments behind its first one from a number on, or how many there are.
pub fn select(
    heap: &mut Heap,
    budget: &mut Budget,
    args: &[Value],
    place: Place,
) -> Result<LibTurn, NoMemory>
    ensures does { IfOk result (λ turn.
        turned turn (state heap.new budget.new) ≡ select_turned (state heap.old budget.old) args.now place) }
    ensures kept { OnOk result (KeepsHeap heap.old heap.new) }
    ensures paid { OnOk result (budget.new ≤ budget.old) }
{
    let Some((first, others)) = args.split_first() else {
        return bad_argument(heap, budget, place, 1, LibFn::Select);
    };
    if is_count(heap, *first) {
        return give(heap, &[count_of(others)]);
    }
    let number = number_in(heap, *first);
    select_from(heap, budget, others, place, number)
}

/// Tells whether a value is the text `#`.
fn is_count(heap: &Heap, value: Value) -> bool
    ensures { result ≡ is_count heap.now value }
{
    match value {
        Value::Text(id) => heap.text(id) == b"#".as_slice(),
        _ => false,
    }
}

/// So many values there are.
fn count_of(values: &[Value]) -> Value
    ensures { result ≡ count_of values.now }
{
    match Number::new(values.len() as i64) {
        Some(count) => Value::Number(count),
        None => Value::Nil,
    }
}

/// Gives the values from a number on, of which the first one's is 1.
fn select_from(
    heap: &mut Heap,
    budget: &mut Budget,
    values: &[Value],
    place: Place,
    number: Option<Number>,
) -> Result<LibTurn, NoMemory>
    ensures does { IfOk result (λ turn. turned turn (state heap.new budget.new)
        ≡ selected (state heap.old budget.old) values.now place number) }
    ensures kept { OnOk result (KeepsHeap heap.old heap.new) }
    ensures paid { OnOk result (budget.new ≤ budget.old) }
{
    let Some(number) = number else {
        return bad_argument(heap, budget, place, 1, LibFn::Select);
    };
    let number = number.get();
    if number < 1 {
        return bad_argument(heap, budget, place, 1, LibFn::Select);
    }
    let skipped = values.len().min(number as usize - 1);
    give(heap, &values[skipped..])
}

// Rows of operators, numerals and faults.

use crate::show::{push_word, show};
use crate::words::{bytes_of, kind_at, value_at};
use lua_ops::arith::{arith, unless_handled};
use lua_ops::compare::compare;
use lua_ops::concat::concat;
use lua_ops::{Arithmetic, Comparison, Fault, Handler, Numeral, Outcome, numeral_of, read_numeral};
use lua_table::Heap;
use lua_value::Value;
use row_words::word_at;
use tl_base::NoMemory;

/// What comes of a row of operators, and `None` where it is none.
pub fn answer(heap: &mut Heap, word: &str, words: &[&str]) -> Result<Option<String>, NoMemory> {
    match word {
        "numeral" => Ok(Some(show_numeral(heap, words)?)),
        "fault" => Ok(Some(fault_at(words, 1).text(heap.allocator())?)),
        "unless" => {
            let handler = value_at(heap, words, 1)?;
            let outcome = unless_handled(handler, fault_at(words, 2));
            Ok(Some(show_outcome(heap, &outcome)?))
        }
        _ => operate(heap, word, words),
    }
}

/// What an operator gives at the values of a row, and `None` where the word is none.
fn operate(heap: &mut Heap, word: &str, words: &[&str]) -> Result<Option<String>, NoMemory> {
    let a = value_at(heap, words, 1)?;
    let b = value_at(heap, words, 2)?;
    if let Some(operator) = arithmetic_of(word) {
        Ok(Some(calculate(heap, operator, a, b)?))
    } else if let Some(operator) = comparison_of(word) {
        Ok(Some(relate(heap, operator, a, b)?))
    } else if word == ".." {
        Ok(Some(join(heap, a, b)?))
    } else {
        Ok(None)
    }
}

fn calculate(
    heap: &mut Heap,
    operator: Arithmetic,
    a: Value,
    b: Value,
) -> Result<String, NoMemory> {
    let outcome = arith(heap, operator, a, b);
    show_result(heap, &outcome)
}

fn relate(heap: &mut Heap, operator: Comparison, a: Value, b: Value) -> Result<String, NoMemory> {
    let outcome = compare(heap, operator, a, b);
    show_result(heap, &outcome)
}

fn join(heap: &mut Heap, a: Value, b: Value) -> Result<String, NoMemory> {
    let outcome = concat(heap, a, b);
    show_result(heap, &outcome)
}

// By reference, since rattle can't prove a function that takes an owned `Outcome` out of a `Result` without naming `Handler`.
fn show_result(heap: &Heap, outcome: &Result<Outcome, NoMemory>) -> Result<String, NoMemory> {
    match outcome {
        Ok(outcome) => show_outcome(heap, outcome),
        Err(_) => Ok(String::from_str(heap.allocator(), "no memory")?),
    }
}

fn arithmetic_of(word: &str) -> Option<Arithmetic> {
    match word {
        "+" => Some(Arithmetic::Add),
        "-" => Some(Arithmetic::Subtract),
        "*" => Some(Arithmetic::Multiply),
        "/" => Some(Arithmetic::Divide),
        "%" => Some(Arithmetic::Remainder),
        "^" => Some(Arithmetic::Power),
        "minus" => Some(Arithmetic::Minus),
        _ => None,
    }
}

fn comparison_of(word: &str) -> Option<Comparison> {
    match word {
        "==" => Some(Comparison::Equal),
        "~=" => Some(Comparison::NotEqual),
        "<" => Some(Comparison::Less),
        "<=" => Some(Comparison::LessEqual),
        ">" => Some(Comparison::Greater),
        ">=" => Some(Comparison::GreaterEqual),
        _ => None,
    }
}

fn show_outcome(heap: &Heap, outcome: &Outcome) -> Result<String, NoMemory> {
    match outcome {
        Outcome::Value(value) => show(heap, value),
        Outcome::Meta(handler) => show_handler(heap, handler),
        Outcome::Raise(fault) => {
            let text = fault.text(heap.allocator())?;
            let text = text.as_str();
            Ok(format!(in heap.allocator(); "raises {text}")?)
        }
    }
}

fn show_handler(heap: &Heap, handler: &Handler) -> Result<String, NoMemory> {
    let mut text = String::from_str(heap.allocator(), "calls")?;
    let function = show(heap, &handler.function)?;
    push_word(&mut text, function.as_str())?;
    if handler.swapped {
        push_word(&mut text, "swapped")?;
    }
    if handler.negated {
        push_word(&mut text, "negated")?;
    }
    Ok(text)
}

/// What a text is in arithmetic, by both calls.
fn show_numeral(heap: &Heap, words: &[&str]) -> Result<String, NoMemory> {
    let alloc = heap.allocator();
    let bytes = bytes_of(heap, word_at(words, 1))?;
    let numeral = read_numeral(&bytes);
    let number = numeral_of(&bytes);
    match (&numeral, &number) {
        (Numeral::Number(a), Some(b)) if a == b => show(heap, &Value::Number(*a)),
        (Numeral::OutOfProfile, None) => Ok(String::from_str(alloc, "out of profile")?),
        (Numeral::NoNumber, None) => Ok(String::from_str(alloc, "no number")?),
        _ => Ok(String::from_str(alloc, "the calls differ")?),
    }
}

/// The fault that a word of a row names, with the kinds that the two words behind it name.
fn fault_at(words: &[&str], place: usize) -> Fault {
    let kind = kind_at(words, place.saturating_add(1));
    match word_at(words, place) {
        "profile" => Fault::OutOfProfile,
        "long" => Fault::TextTooLong,
        "arithmetic" => Fault::Arithmetic(kind),
        "concatenate" => Fault::Concatenate(kind),
        "two" => Fault::CompareTwo(kind),
        "compare" => Fault::Compare(kind, kind_at(words, place.saturating_add(2))),
        "call" => Fault::Call(kind),
        "index" => Fault::Index(kind),
        "length" => Fault::Length(kind),
        "nil_key" => Fault::NilKey,
        "initial" => Fault::ForInitial,
        "limit" => Fault::ForLimit,
        "step" => Fault::ForStep,
        "overflow" => Fault::StackOverflow,
        _ => Fault::CallsTerra,
    }
}

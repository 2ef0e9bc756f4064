// The rows that run functions, by the plain evaluator and by the three-address code.

use crate::building::Work;
use crate::machine::{self, Program};
use crate::weights::code_words;
use row_words::{escaped, number_at};
use std::alloc::Global;
use tac_lower::lower;
use terra_eval::{End, Run, Value, evaluate, static_bytes};
use terra_memory::Region;
use terra_words::FaultKind;
use tl_base::{FnId, Limits, NoMemory};

/// What runs a function, or shows its code.
pub fn row(work: &mut Work, word: &str, words: &[&str]) -> Result<Option<String>, NoMemory> {
    let f = FnId(number_at(words, 1));
    match word {
        "lower" => lowered(work, f),
        "weigh" => weighed(work, f),
        _ => run_row(work, word, words),
    }
}

/// What runs a function.
fn run_row(work: &mut Work, word: &str, words: &[&str]) -> Result<Option<String>, NoMemory> {
    let alloc = work.store.allocator();
    if !lower_all(work)? {
        return said(alloc, "a function has no code");
    }
    match word {
        "run" => run(work, words),
        "counts" => counts(work, words),
        "each" => each(work, words),
        "pairs" => pairs(work, words),
        _ => said(alloc, "no such row"),
    }
}

fn said(alloc: Global, text: &str) -> Result<Option<String>, NoMemory> {
    Ok(Some(String::from_str(alloc, text)?))
}

/// The code of functions that have none yet. False where one has no code.
fn lower_all(work: &mut Work) -> Result<bool, NoMemory> {
    let from = work.codes.len() as u64;
    for f in from..work.store.function_count() {
        match lower(&work.store, &work.entries, FnId(f))? {
            Some(code) => work.codes.push(code)?,
            None => return Ok(false),
        }
    }
    Ok(true)
}

/// `lower FUNCTION`: how many blocks and temporaries its code has
fn lowered(work: &Work, f: FnId) -> Result<Option<String>, NoMemory> {
    let alloc = work.store.allocator();
    match lower(&work.store, &work.entries, f)? {
        Some(code) => {
            let blocks = code.blocks.as_slice().len();
            let temps = code.temps;
            Ok(Some(format!(in alloc; "{blocks} blocks, {temps} temporaries")?))
        }
        None => said(alloc, "no code"),
    }
}

/// `weigh FUNCTION`: how many words its code may take, and its typed nodes
fn weighed(work: &Work, f: FnId) -> Result<Option<String>, NoMemory> {
    let alloc = work.store.allocator();
    match lower(&work.store, &work.entries, f)? {
        Some(code) => {
            let words = code_words(&code);
            let nodes = code.nodes;
            Ok(Some(format!(in alloc; "{words} words, {nodes} nodes")?))
        }
        None => said(alloc, "no code"),
    }
}

/// `run FUNCTION MEMORY COUNT ARGUMENT..`
fn run(work: &Work, words: &[&str]) -> Result<Option<String>, NoMemory> {
    let mut arguments = Vec::new(work.store.allocator());
    for place in 4..words.len() {
        arguments.push(Value::word(number_at(words, place)))?;
    }
    Ok(Some(answer(work, words, number_at(words, 3), &arguments)?))
}

/// `counts FUNCTION MEMORY MOST ARGUMENT..`: the answers at each count up to the most, each with the first count
/// that gives it
fn counts(work: &Work, words: &[&str]) -> Result<Option<String>, NoMemory> {
    let alloc = work.store.allocator();
    let mut arguments = Vec::new(alloc);
    for place in 4..words.len() {
        arguments.push(Value::word(number_at(words, place)))?;
    }
    let mut text = String::new(alloc);
    let mut last = String::new(alloc);
    for n in 0..number_at(words, 3).saturating_add(1) {
        let next = answer(work, words, n, &arguments)?;
        if next.as_str() != last.as_str() {
            let part = format!(in alloc; "{n}: {next}")?;
            add(&mut text, part.as_str())?;
        }
        last = next;
    }
    Ok(Some(text))
}

/// `each FUNCTION MEMORY COUNT ARGUMENT..`: the answers for each argument
fn each(work: &Work, words: &[&str]) -> Result<Option<String>, NoMemory> {
    let alloc = work.store.allocator();
    let mut text = String::new(alloc);
    for place in 4..words.len() {
        let arguments = vec![in alloc; Value::word(number_at(words, place))]?;
        add_answer(work, words, &arguments, &mut text)?;
    }
    Ok(Some(text))
}

/// `pairs FUNCTION MEMORY COUNT ARGUMENT..`: the answers for each two of the arguments
fn pairs(work: &Work, words: &[&str]) -> Result<Option<String>, NoMemory> {
    let alloc = work.store.allocator();
    let mut text = String::new(alloc);
    for place in 4..words.len() {
        for other in 4..words.len() {
            let first = Value::word(number_at(words, place));
            let second = Value::word(number_at(words, other));
            let arguments = vec![in alloc; first, second]?;
            add_answer(work, words, &arguments, &mut text)?;
        }
    }
    Ok(Some(text))
}

/// The answer at the row's count, shortened.
fn add_answer(
    work: &Work,
    words: &[&str],
    arguments: &[Value],
    text: &mut String,
) -> Result<(), NoMemory> {
    let answer = answer(work, words, number_at(words, 3), arguments)?;
    add(text, without_output(without_returned(answer.as_str())))
}

/// Of a value that is returned the value alone.
fn without_returned<'a>(answer: &'a str) -> &'a str {
    match answer.strip_prefix("returned ") {
        Some(rest) => rest,
        None => answer,
    }
}

/// Without an output that is empty.
fn without_output<'a>(answer: &'a str) -> &'a str {
    match answer.strip_suffix(" []") {
        Some(rest) => rest,
        None => answer,
    }
}

/// Puts a part behind others.
fn add(text: &mut String, part: &str) -> Result<(), NoMemory> {
    if !text.is_empty() {
        text.push_str("; ")?;
    }
    text.push_str(part)?;
    Ok(())
}

/// What the plain evaluator gives, and what the code gives where that is something else.
fn answer(work: &Work, words: &[&str], n: u64, arguments: &[Value]) -> Result<String, NoMemory> {
    let alloc = work.store.allocator();
    let memory = number_at(words, 2);
    if memory % Limits::MEMORY_UNIT != 0
        || memory < Limits::MIN_MEMORY
        || memory > Limits::MAX_MEMORY
    {
        return Ok(String::from_str(alloc, "bad memory")?);
    }
    let statics = static_bytes(&work.store)?;
    if statics.len() as u64 > memory / 2 {
        return Ok(String::from_str(alloc, "bad statics")?);
    }
    let f = FnId(number_at(words, 1));
    let run = evaluate(&work.store, &work.entries, memory, n, f, arguments)?;
    let region = Region::new(alloc, memory, &statics)?;
    compared(work, &run, region, n, f, arguments)
}

/// What the plain evaluator gave, and what the code gives in a fresh region where that is something else.
fn compared(
    work: &Work,
    evaluated: &Run,
    region: Region,
    n: u64,
    f: FnId,
    arguments: &[Value],
) -> Result<String, NoMemory> {
    let alloc = work.store.allocator();
    let wanted = run_text(alloc, evaluated)?;
    let run = machine::run(alloc, &program_of(work), region, n, f, arguments)?;
    let coded = run_text(alloc, &run)?;
    if wanted.as_str() == coded.as_str() {
        return Ok(wanted);
    }
    Ok(format!(in alloc; "{wanted}, but the code gives {coded}")?)
}

fn program_of<'a>(work: &'a Work) -> Program<'a> {
    Program {
        codes: &work.codes,
        entries: &work.entries,
    }
}

fn run_text(alloc: Global, run: &Run) -> Result<String, NoMemory> {
    match run {
        Run::More(out) => {
            let out = escaped(alloc, out, b' ')?;
            Ok(format!(in alloc; "more [{out}]")?)
        }
        Run::Over(end, out) => {
            let end = end_text(alloc, end)?;
            let out = escaped(alloc, out, b' ')?;
            Ok(format!(in alloc; "{end} [{out}]")?)
        }
    }
}

fn end_text(alloc: Global, end: &End) -> Result<String, NoMemory> {
    match end {
        End::Returned(v) => {
            if v.as_bytes().is_empty() {
                let word = v.number();
                return Ok(format!(in alloc; "returned {word}")?);
            }
            let bytes = escaped(alloc, v.as_bytes(), b' ')?;
            Ok(format!(in alloc; "returned bytes {bytes}")?)
        }
        End::Fault(kind, at) => {
            let kind = kind_text(*kind);
            let (line, word) = (at.line, at.word);
            Ok(format!(in alloc; "{kind} at {line}:{word}")?)
        }
        End::Stuck => Ok(String::from_str(alloc, "stuck")?),
    }
}

fn kind_text(kind: FaultKind) -> &'static str {
    match kind {
        FaultKind::BadAddress => "BadAddress",
        FaultKind::DivZero => "DivZero",
        FaultKind::StackFull => "StackFull",
        FaultKind::CallDepth => "CallDepth",
        FaultKind::NoReturn => "NoReturn",
        FaultKind::BadCall => "BadCall",
    }
}

// The rows that add statements and functions.

use crate::building::{HERE, Work};
use row_words::{number_at, short_count_at, word_at};
use std::alloc::Global;
use terra_term::{LoopName, Parameter, ParameterList, Statement, Term, VarName, VarNameList};
use tl_base::{NoMemory, SymId, TypeId};

/// A statement, or a function.
pub fn statement(work: &mut Work, word: &str, words: &[&str]) -> Result<Option<String>, NoMemory> {
    match word {
        "declare" | "var" => declaration(work, word, words),
        "set" => assignment(work, words),
        "if" | "ifelse" => choice(work, word, words),
        "while" | "repeat" => guarded(work, word, words),
        "for" => counting(work, words),
        "do" => {
            let block = work.take(short_count_at(words, 1))?;
            work.put(Term::Statement(HERE, Statement::Do(block)))
        }
        "break" => work.put(Term::Statement(HERE, Statement::Break)),
        "return" => {
            let values = work.take(short_count_at(words, 1))?;
            work.put(Term::Statement(HERE, Statement::Return(values)))
        }
        "perform" => {
            let a = work.pop();
            work.put(Term::Statement(HERE, Statement::Perform(a)))
        }
        "fn" => function(work, words),
        _ => Ok(None),
    }
}

/// `SYMBOL` or `SYMBOL:TYPE`
fn name_of(word: &str) -> VarName {
    let (symbol, of) = match word.split_once(':') {
        Some((symbol, of)) => (symbol, Some(TypeId(of.parse::<u64>().unwrap_or(0)))),
        None => (word, None),
    };
    VarName {
        symbol: SymId(symbol.parse::<u64>().unwrap_or(0)),
        of,
        place: HERE,
    }
}

fn names_from(alloc: Global, words: &[&str], from: usize) -> Result<Vec<VarName>, NoMemory> {
    let mut names = Vec::new(alloc);
    for place in from..words.len() {
        names.push(name_of(word_at(words, place)))?;
    }
    Ok(names)
}

/// `declare NAME..`, or `var COUNT NAME..` with as many values
fn declaration(work: &mut Work, word: &str, words: &[&str]) -> Result<Option<String>, NoMemory> {
    let alloc = work.store.allocator();
    if word == "declare" {
        let names = VarNameList::from_vec(names_from(alloc, words, 1)?)?;
        return work.put(Term::Statement(HERE, Statement::Var(names, None)));
    }
    let names = VarNameList::from_vec(names_from(alloc, words, 2)?)?;
    let values = work.take(short_count_at(words, 1))?;
    work.put(Term::Statement(HERE, Statement::Var(names, Some(values))))
}

/// `set TARGETS VALUES`
fn assignment(work: &mut Work, words: &[&str]) -> Result<Option<String>, NoMemory> {
    let values = work.take(short_count_at(words, 2))?;
    let targets = work.take(short_count_at(words, 1))?;
    work.put(Term::Statement(HERE, Statement::Assign(targets, values)))
}

/// `if COUNT`, or `ifelse COUNT COUNT`, behind the condition and the blocks
fn choice(work: &mut Work, word: &str, words: &[&str]) -> Result<Option<String>, NoMemory> {
    let other = if word == "ifelse" {
        Some(work.take(short_count_at(words, 2))?)
    } else {
        None
    };
    let block = work.take(short_count_at(words, 1))?;
    let test = work.pop();
    work.put(Term::Statement(HERE, Statement::If(test, block, other)))
}

fn guarded(work: &mut Work, word: &str, words: &[&str]) -> Result<Option<String>, NoMemory> {
    if word == "while" {
        let block = work.take(short_count_at(words, 1))?;
        let test = work.pop();
        return work.put(Term::Statement(HERE, Statement::While(test, block)));
    }
    let test = work.pop();
    let block = work.take(short_count_at(words, 1))?;
    work.put(Term::Statement(HERE, Statement::Repeat(block, test)))
}

/// `for NAME BOUNDS COUNT`
fn counting(work: &mut Work, words: &[&str]) -> Result<Option<String>, NoMemory> {
    let block = work.take(short_count_at(words, 3))?;
    let bounds = work.take(short_count_at(words, 2))?;
    let name = LoopName::new(work.store.allocator(), name_of(word_at(words, 1)))?;
    work.put(Term::Statement(HERE, Statement::For(name, bounds, block)))
}

/// `fn COUNT RESULT NAME:TYPE..`, with `?` for a result that isn't written
fn function(work: &mut Work, words: &[&str]) -> Result<Option<String>, NoMemory> {
    let alloc = work.store.allocator();
    let mut parameters = Vec::new(alloc);
    for place in 3..words.len() {
        let name = name_of(word_at(words, place));
        let of = name.of.unwrap_or(TypeId(0));
        parameters.push(Parameter {
            symbol: name.symbol,
            of,
            place: HERE,
        })?;
    }
    let of = match word_at(words, 2) {
        "?" => None,
        _ => Some(TypeId(number_at(words, 2))),
    };
    let body = work.take(short_count_at(words, 1))?;
    let parameters = ParameterList::from_vec(parameters)?;
    work.put(Term::Function(parameters, of, body))
}

// The rows that add statements.

use crate::building::Work;
use row_words::{short_count_at, word_at};
use std::alloc::Global;
use terra_term::{TypedName, TypedNameList, TypedStatement};
use tl_base::{NoMemory, SymId, TypeId};

/// A statement.
pub fn statement(work: &mut Work, word: &str, words: &[&str]) -> Result<bool, NoMemory> {
    match word {
        "var" => {
            let names = names_from(work.store.allocator(), words, 2)?;
            let values = work.take(short_count_at(words, 1))?;
            work.put_statement(TypedStatement::Var(names, values))
        }
        "set" => {
            let values = work.take(short_count_at(words, 2))?;
            let targets = work.take(short_count_at(words, 1))?;
            work.put_statement(TypedStatement::Assign(targets, values))
        }
        "if" | "ifelse" => choice(work, word, words),
        "while" | "repeat" => guarded(work, word, words),
        "for" => counting(work, words),
        "do" => {
            let block = work.take(short_count_at(words, 1))?;
            work.put_statement(TypedStatement::Do(block))
        }
        "break" => work.put_statement(TypedStatement::Break),
        "finish" => work.put_statement(TypedStatement::Return(None)),
        "return" => {
            let e = work.pop();
            work.put_statement(TypedStatement::Return(Some(e)))
        }
        "perform" => {
            let e = work.pop();
            work.put_statement(TypedStatement::Perform(e))
        }
        _ => Ok(false),
    }
}

/// `SYMBOL:TYPE`
fn name_of(word: &str) -> TypedName {
    let (symbol, of) = match word.split_once(':') {
        Some((symbol, of)) => (symbol, of),
        None => (word, "0"),
    };
    TypedName {
        symbol: SymId(symbol.parse::<u64>().unwrap_or(0)),
        of: TypeId(of.parse::<u64>().unwrap_or(0)),
    }
}

/// The names that stand in a row from a word on.
pub fn names_from(alloc: Global, words: &[&str], from: usize) -> Result<TypedNameList, NoMemory> {
    let mut names = Vec::new(alloc);
    for place in from..words.len() {
        names.push(name_of(word_at(words, place)))?;
    }
    TypedNameList::from_vec(names)
}

/// `if COUNT`, or `ifelse COUNT COUNT`, behind the condition and the blocks
fn choice(work: &mut Work, word: &str, words: &[&str]) -> Result<bool, NoMemory> {
    let other = if word == "ifelse" {
        Some(work.take(short_count_at(words, 2))?)
    } else {
        None
    };
    let block = work.take(short_count_at(words, 1))?;
    let test = work.pop();
    work.put_statement(TypedStatement::If(test, block, other))
}

fn guarded(work: &mut Work, word: &str, words: &[&str]) -> Result<bool, NoMemory> {
    if word == "while" {
        let block = work.take(short_count_at(words, 1))?;
        let test = work.pop();
        return work.put_statement(TypedStatement::While(test, block));
    }
    let test = work.pop();
    let block = work.take(short_count_at(words, 1))?;
    work.put_statement(TypedStatement::Repeat(block, test))
}

/// `for NAME BOUNDS COUNT`
fn counting(work: &mut Work, words: &[&str]) -> Result<bool, NoMemory> {
    let block = work.take(short_count_at(words, 3))?;
    let bounds = work.take(short_count_at(words, 2))?;
    let name = name_of(word_at(words, 1));
    work.put_statement(TypedStatement::For(name, bounds, block))
}

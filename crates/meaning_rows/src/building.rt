// The rows that add expressions.

use row_words::{number_at, short_count_at};
use tac_form::Tac;
use terra_term::{Constant, Store, TermList, Typed, TypedExpression, TypedStatement};
use tl_base::{FnId, NoMemory, Place, SymId, TermId, TypeId};

/// A store, the nodes that are no parts yet, and the functions that stand as values.
#[derive(Drop)]
pub struct Work {
    pub store: Store,
    pub stack: Vec<TermId>,
    pub entries: Vec<FnId>,
    pub nodes: u32,
    /// The code of the first functions.
    pub codes: Vec<Tac>,
}

impl Work {
    /// The last node; one that isn't there where there is none.
    pub fn pop(&mut self) -> TermId {
        self.stack.pop().unwrap_or(TermId(u64::MAX))
    }

    /// The last nodes, in their order.
    pub fn take(&mut self, count: usize) -> Result<TermList, NoMemory> {
        let from = self.stack.len().saturating_sub(count);
        let items = self.stack.split_off(from)?;
        TermList::from_vec(items)
    }

    /// The place of the next node: its number, counted from 1.
    fn next_place(&mut self) -> Place {
        self.nodes = self.nodes.saturating_add(1);
        Place {
            line: 1,
            word: self.nodes,
        }
    }

    /// A new expression of a type.
    pub fn put(&mut self, of: TypeId, form: TypedExpression) -> Result<bool, NoMemory> {
        let at = self.next_place();
        let id = self.store.new_typed(Typed::Expression(at, of, form))?;
        self.stack.push(id)?;
        Ok(true)
    }

    /// A new statement.
    pub fn put_statement(&mut self, doing: TypedStatement) -> Result<bool, NoMemory> {
        let at = self.next_place();
        let id = self.store.new_typed(Typed::Statement(at, doing))?;
        self.stack.push(id)?;
        Ok(true)
    }
}

const BOOLEAN: TypeId = TypeId(8);

/// An expression that is no operation.
pub fn expression(work: &mut Work, word: &str, words: &[&str]) -> Result<bool, NoMemory> {
    let n = number_at(words, 1);
    let of = TypeId(number_at(words, 2));
    match word {
        "number" => work.put(of, TypedExpression::Constant(Constant::Number(n))),
        "true" => work.put(BOOLEAN, TypedExpression::Constant(Constant::Truth(true))),
        "false" => work.put(BOOLEAN, TypedExpression::Constant(Constant::Truth(false))),
        "nil" => work.put(TypeId(n), TypedExpression::Constant(Constant::Nil)),
        "static" => work.put(of, TypedExpression::Constant(Constant::Static(n))),
        "fnvalue" => work.put(of, TypedExpression::Constant(Constant::FnValue(FnId(n)))),
        "variable" => work.put(of, TypedExpression::Variable(SymId(n))),
        "global" => work.put(of, TypedExpression::Global(n)),
        "both" | "either" => short_circuit(work, word),
        "let" => {
            let value = work.pop();
            let block = work.take(short_count_at(words, 1))?;
            work.put(of, TypedExpression::Let(block, value))
        }
        _ => place(work, word, n, of),
    }
}

fn short_circuit(work: &mut Work, word: &str) -> Result<bool, NoMemory> {
    let b = work.pop();
    let a = work.pop();
    if word == "both" {
        work.put(BOOLEAN, TypedExpression::Both(a, b))
    } else {
        work.put(BOOLEAN, TypedExpression::Either(a, b))
    }
}

/// A place by its parts, or the address of one. The type stands last.
fn place(work: &mut Work, word: &str, n: u64, of: TypeId) -> Result<bool, NoMemory> {
    match word {
        "deref" => {
            let p = work.pop();
            work.put(TypeId(n), TypedExpression::Dereference(p))
        }
        "select" => {
            let e = work.pop();
            work.put(of, TypedExpression::Select(n, e))
        }
        "follow" => {
            let p = work.pop();
            work.put(of, TypedExpression::Follow(n, p))
        }
        "element" => {
            let i = work.pop();
            let a = work.pop();
            work.put(TypeId(n), TypedExpression::Element(a, i))
        }
        "index" => {
            let i = work.pop();
            let p = work.pop();
            work.put(TypeId(n), TypedExpression::Index(p, i))
        }
        "address" => {
            let e = work.pop();
            work.put(TypeId(n), TypedExpression::Address(e))
        }
        "decay" => {
            let a = work.pop();
            work.put(TypeId(n), TypedExpression::Decay(a))
        }
        _ => Ok(false),
    }
}

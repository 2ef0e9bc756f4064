// The rows on functions, quotes, statics and names.

ghost use Rattle.std.specs.Prelude.{◌≤◌};

use crate::building::{HERE, Work, size_text};
use row_words::{escaped, hexadecimal_bytes, number_at, short_count_at, word_at};
use std::alloc::Global;
use terra_term::{
    Constant, FunctionState, Quote, Refusal, RefusalKind, Standing, TerraConstant, Typed,
    TypedExpression, term_text,
};
use terra_types::Types;
use tl_base::{
    Bytes, ConstantId, FnId, GlobalId, Limits, NoMemory, SymId, TermId, Text, TextId, TypeId,
};

/// A row that adds no node.
pub fn row(work: &mut Work, word: &str, words: &[&str]) -> Result<Option<String>, NoMemory> {
    let alloc = work.store.allocator();
    let answer = match word {
        "new_symbol" => symbol(work, words)?,
        "new_function" => declared(work)?,
        "define" | "begin" | "finish" | "refuse" => changed(work, word, FnId(number_at(words, 1)))?,
        "standing" => standing(work, FnId(number_at(words, 1)))?,
        "text" => {
            let text = term_text(&work.store, FnId(number_at(words, 1)))?;
            escaped(alloc, text.as_slice(), b' ')?
        }
        "length" => {
            let text = term_text(&work.store, FnId(number_at(words, 1)))?;
            let length = text.as_slice().len();
            format!(in alloc; "{length}")?
        }
        "typed" => return typed(work, words),
        "quote" => quoted(work)?,
        "new_constant" => constant(work, words)?,
        "new_text" => text_static(work, words)?,
        "new_global" => global(work, words)?,
        "keep" => kept(work, words)?,
        "pointer" | "array" | "struct" => new_type(work, word, words)?,
        "function_type" => function_type(work, words)?,
        "held" => held(work, words)?,
        "chain" => return chain(work, words),
        "double" => return doubled(work, words),
        _ => return Ok(None),
    };
    Ok(Some(answer))
}

fn symbol(work: &mut Work, words: &[&str]) -> Result<String, NoMemory> {
    let alloc = work.store.allocator();
    let of = match word_at(words, 1) {
        "" => None,
        _ => Some(TypeId(number_at(words, 1))),
    };
    let id = work.store.new_symbol(of)?;
    let number = id.0;
    let there = work.store.symbol(SymId(number)).is_some();
    Ok(format!(in alloc; "{number} {there}")?)
}

fn declared(work: &mut Work) -> Result<String, NoMemory> {
    let alloc = work.store.allocator();
    let number = work.store.declare(None, HERE)?.0;
    let count = work.store.function_count();
    let there = work.store.function(FnId(number)).is_some();
    Ok(format!(in alloc; "{number} {count} {there}")?)
}

/// A function comes further, where it may: one that is undefined by the last node.
fn changed(work: &mut Work, word: &str, f: FnId) -> Result<String, NoMemory> {
    match word {
        "define" => {
            let term = work.pop();
            if let FunctionState::Undefined = work.store.state(f) {
                work.store.define(f, term, HERE)?;
            }
        }
        "begin" => {
            if let Standing::Defined = work.store.standing(f) {
                work.store.begin_typing(f);
            }
        }
        "finish" => {
            if let Standing::Typing = work.store.standing(f) {
                work.store.finish_typing(f, TermId(0));
            }
        }
        _ => refused(work, f),
    }
    standing(work, f)
}

/// A function whose body is being typed is refused.
fn refused(work: &mut Work, f: FnId) {
    let refusal = Refusal {
        kind: RefusalKind::Mismatch,
        place: HERE,
        function: f,
    };
    if let Standing::Typing = work.store.standing(f) {
        work.store.refuse(f, refusal);
    }
}

fn standing(work: &Work, f: FnId) -> Result<String, NoMemory> {
    let alloc = work.store.allocator();
    let text = match work.store.standing(f) {
        Standing::Undefined => "undefined",
        Standing::Defined => "defined",
        Standing::Typing => "typing",
        Standing::Typed => "typed",
        Standing::Refused(_) => "refused",
    };
    Ok(String::from_str(alloc, text)?)
}

/// `typed nil`, or `typed @` of the last one
fn typed(work: &mut Work, words: &[&str]) -> Result<Option<String>, NoMemory> {
    let form = match word_at(words, 1) {
        "@" => TypedExpression::Dereference(work.typed.pop().unwrap_or(TermId(u64::MAX))),
        _ => TypedExpression::Constant(Constant::Nil),
    };
    let id = work
        .store
        .new_typed(Typed::Expression(HERE, TypeId(10), form))?;
    work.typed.push(id)?;
    let size = work.store.size_of_typed(id);
    size_text(&work.store, size)
}

/// A typed quote of the last node and a new typed node over the last typed one.
fn quoted(work: &mut Work) -> Result<String, NoMemory> {
    let alloc = work.store.allocator();
    let source = work.pop();
    let form = TypedExpression::Address(work.typed.pop().unwrap_or(TermId(u64::MAX)));
    let made = work
        .store
        .new_typed(Typed::Expression(HERE, TypeId(10), form))?;
    let number = work.store.new_quote(Quote::Typed(source, made))?.0;
    let there = work.store.typed(made).is_some();
    Ok(format!(in alloc; "{number} {there}")?)
}

fn constant(work: &mut Work, words: &[&str]) -> Result<String, NoMemory> {
    let alloc = work.store.allocator();
    let value = number_at(words, 2);
    let of = TypeId(number_at(words, 1));
    let id = work.store.new_constant(TerraConstant { of, value })?;
    match work.store.constant(ConstantId(id.0)) {
        Some(constant) => Ok(format!(in alloc; "{} {}", id.0, constant.value)?),
        None => Ok(String::from_str(alloc, "none")?),
    }
}

/// The memory that a row names, in bytes.
fn memory_at(words: &[&str], place: usize) -> u64
    ensures { result ≤ Limits.MAX_MEMORY }
{
    let memory = number_at(words, place);
    if memory <= Limits::MAX_MEMORY {
        memory
    } else {
        Limits::MAX_MEMORY
    }
}

fn address_text(alloc: Global, address: Option<u64>) -> Result<String, NoMemory> {
    match address {
        Some(address) => Ok(format!(in alloc; "{address}")?),
        None => Ok(String::from_str(alloc, "full")?),
    }
}

/// `new_text MEMORY HEX`
fn text_static(work: &mut Work, words: &[&str]) -> Result<String, NoMemory> {
    let alloc = work.store.allocator();
    let bytes = hexadecimal_bytes(alloc, word_at(words, 2))?;
    let address = work.store.text_static(&bytes, memory_at(words, 1))?;
    address_text(alloc, address)
}

/// `new_global MEMORY HEX`
fn global(work: &mut Work, words: &[&str]) -> Result<String, NoMemory> {
    let alloc = work.store.allocator();
    let bytes = Bytes::from_vec(hexadecimal_bytes(alloc, word_at(words, 2))?);
    let id = work
        .store
        .new_global(TypeId(2), bytes, memory_at(words, 1))?;
    let address = match id {
        Some(id) => work
            .store
            .global(GlobalId(id.0))
            .map(|global| global.address),
        None => None,
    };
    address_text(alloc, address)
}

/// `keep NUMBER HEX`
fn kept(work: &mut Work, words: &[&str]) -> Result<String, NoMemory> {
    let alloc = work.store.allocator();
    let name = TextId(number_at(words, 1));
    let bytes = hexadecimal_bytes(alloc, word_at(words, 2))?;
    if let Some(text) = Text::new(alloc, &bytes)? {
        work.store.keep_name(name, text)?;
    }
    escaped(alloc, work.store.name(name), b' ')
}

/// `pointer TYPE`, `array TYPE COUNT` of a type that is there, or `struct`
fn new_type(work: &mut Work, word: &str, words: &[&str]) -> Result<String, NoMemory> {
    let alloc = work.store.allocator();
    let of = TypeId(number_at(words, 1));
    let count = number_at(words, 2);
    let id = make_type(work.store.types_mut(), word, of, count)?;
    let number = id.0;
    Ok(format!(in alloc; "{number}")?)
}

fn make_type(types: &mut Types, word: &str, of: TypeId, count: u64) -> Result<TypeId, NoMemory> {
    if word == "struct" {
        return types.new_struct(HERE);
    }
    if of.0 >= types.len() {
        return Ok(of);
    }
    match word {
        "pointer" => types.pointer_to(of),
        _ => types.array_of(of, count),
    }
}

/// `function_type RESULT PARAMETER..` with at most two parameters, of types that are there
fn function_type(work: &mut Work, words: &[&str]) -> Result<String, NoMemory> {
    let alloc = work.store.allocator();
    let returns = TypeId(number_at(words, 1));
    let first = TypeId(number_at(words, 2));
    let second = TypeId(number_at(words, 3));
    let id = make_function_type(work.store.types_mut(), returns, first, second, words.len())?;
    let number = id.0;
    Ok(format!(in alloc; "{number}")?)
}

fn make_function_type(
    types: &mut Types,
    returns: TypeId,
    first: TypeId,
    second: TypeId,
    words: usize,
) -> Result<TypeId, NoMemory> {
    let count = types.len();
    if returns.0 >= count || first.0 >= count || second.0 >= count {
        return Ok(returns);
    }
    match words {
        2 => types.function_of(&[], returns),
        3 => types.function_of(&[first], returns),
        _ => types.function_of(&[first, second], returns),
    }
}

/// `held NODE`: how many types and statics there are, and whether the node is there
fn held(work: &Work, words: &[&str]) -> Result<String, NoMemory> {
    let alloc = work.store.allocator();
    let types = work.store.types().len();
    let statics = work.store.statics().len();
    let there = work.store.term(TermId(number_at(words, 1))).is_some();
    Ok(format!(in alloc; "{types} {statics} {there}")?)
}

/// `chain COUNT`: so many negations of the last node
fn chain(work: &mut Work, words: &[&str]) -> Result<Option<String>, NoMemory> {
    let mut last = None;
    for _ in 0..short_count_at(words, 1) {
        last = crate::building::node(work, "neg", words)?;
    }
    Ok(last)
}

/// `double COUNT`: so many sums of the last node and itself, which no function has
fn doubled(work: &mut Work, words: &[&str]) -> Result<Option<String>, NoMemory> {
    let mut last = crate::building::leaf(work, "nil", words)?;
    for _ in 0..short_count_at(words, 1) {
        let node = work.pop();
        work.stack.push(node)?;
        work.stack.push(node)?;
        last = crate::building::node(work, "binary", words)?;
    }
    work.pop();
    Ok(last)
}

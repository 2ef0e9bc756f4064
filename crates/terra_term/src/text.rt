// The text of a function's term.
//
// Terms nest deeper than a stack reaches: a typed quote is written as the term from which it came, and that one's levels are
// bounded by no limit. So the pieces that are still to be written stand in a list, and a part is replaced by its own pieces.

ghost use Rattle.std.specs.Prelude.{◌≡◌, ◌++◌, ◌∷◌, [], ◌+◌, slice_get, take, decimal, IfOk, OnOk};
ghost use Rattle.std.specs.Option.{option_copied};
ghost use Rattle.terra_types.specs.Sizes.{is_signed};
ghost use Rattle.terra_term.specs.Pieces.{piece_text, text_in, statement_pieces};
ghost use Rattle.terra_term.specs.TermText as texts;
ghost use Rattle.terra_term.specs.TermText.{text_of, statement_text, type_text, number_digits, has_sign};
ghost use Rattle.terra_term.specs.Planted.{trees, term_at, statement_at};

use crate::piece::{
    Piece, Word, text_of_binary, text_of_integer, text_of_primitive, text_of_unary,
};
use crate::pieces::{
    pieces_of_definition, pieces_of_expression, pieces_of_statement, pieces_of_type,
};
use crate::store::Store;
use crate::term::{Statement, Term};
use std::alloc::Global;
use std::collections::VecDeque;
use terra_types::{Integer, TypeForm};
use tl_base::{Bytes, FnId, NoMemory, TermId, TypeId};

/// The text of a function's term, as `terrac terms` writes it; nothing where the function isn't defined.
pub fn term_text(store: &Store, f: FnId) -> Result<Bytes, NoMemory>
    ensures { IfOk result (λ text. text ≡ texts.term_text store.now f) }
{
    let alloc = store.allocator();
    let Some(term) = store.state(f).term() else {
        return Ok(Bytes::new(alloc));
    };
    match store.term(term) {
        Some(Term::Function(parameters, of, body)) => {
            let pieces = pieces_of_definition(
                alloc,
                f,
                term.0,
                parameters.as_slice(),
                *of,
                body.as_slice(),
            )?;
            write(store, pieces)
        }
        Some(Term::Expression(_, _)) => Ok(Bytes::new(alloc)),
        Some(Term::Statement(_, _)) => Ok(Bytes::new(alloc)),
        None => Ok(Bytes::new(alloc)),
    }
}

/// The text of pieces.
fn write(store: &Store, pieces: Vec<Piece>) -> Result<Bytes, NoMemory>
    ensures { IfOk result (λ text. text ≡ text_in store.now pieces.items) }
{
    let mut out = Bytes::new(store.allocator());
    let mut work = VecDeque::new(store.allocator());
    prepend(&mut work, pieces)?;
    // Each step writes a byte or leaves fewer nodes to be written, so no text that memory holds has so many steps.
    for _ in 0..u64::MAX {
        let Some(piece) = work.pop_front() else {
            return Ok(out);
        };
        step(store, &mut out, &mut work, piece)?;
    }
    Err(NoMemory)
}

/// Puts pieces before those that are still to be written.
fn prepend(work: &mut VecDeque<Piece>, pieces: Vec<Piece>) -> Result<(), NoMemory>
    ensures { OnOk result (work.new.items ≡ pieces.items ++ work.old.items) }
{
    let mut left = pieces;
    while let Some(piece) = left.pop() {
        work.push_front(piece)?;
    }
    Ok(())
}

/// Writes a piece, or replaces a part by its own pieces.
fn step(
    store: &Store,
    out: &mut Bytes,
    work: &mut VecDeque<Piece>,
    piece: Piece,
) -> Result<(), NoMemory>
    ensures { OnOk result
        (out.new ++ text_in store.now work.new.items ≡ (out.old ++ piece_text store.now piece) ++ text_in store.now work.old.items) }
{
    match piece {
        Piece::Expression(term, below) => {
            let pieces = pieces_of_part(store, term, below)?;
            prepend(work, pieces)
        }
        Piece::Statement(term, below) => {
            let pieces = pieces_of_doing(store, term, below)?;
            prepend(work, pieces)
        }
        Piece::Type(of) => {
            let pieces = pieces_of_type_id(store, of)?;
            prepend(work, pieces)
        }
        Piece::TypeBefore(of, below) => {
            if of.0 < below {
                let pieces = pieces_of_type_id(store, of)?;
                return prepend(work, pieces);
            }
            Ok(())
        }
        Piece::Word(word) => out.push_all(word.text()),
        Piece::Unary(operator) => out.push_all(text_of_unary(operator)),
        Piece::Binary(operator) => out.push_all(text_of_binary(operator)),
        Piece::Primitive(primitive) => out.push_all(text_of_primitive(primitive)),
        Piece::Integer(integer) => out.push_all(text_of_integer(integer)),
        Piece::Symbol(symbol) => {
            out.push_all(b"$")?;
            push_next(store.allocator(), out, symbol.0)
        }
        Piece::Function(f) => {
            out.push_all(b"f")?;
            push_next(store.allocator(), out, f.0)
        }
        Piece::Macro(id) => push_next(store.allocator(), out, id.0),
        Piece::Decimal(number) => push_decimal(store.allocator(), out, number),
        Piece::Number(bits, of) => push_number(store, out, bits, of),
        Piece::Name(name) => out.push_all(store.name(name)),
    }
}

/// The pieces of a part that stands as an expression, among the nodes before a number.
fn pieces_of_part(store: &Store, term: TermId, below: u64) -> Result<Vec<Piece>, NoMemory>
    ensures { IfOk result (λ v. text_in store.now v.items ≡ text_of store.now (term_at (take below (trees store.now.terms)) term)) }
{
    match node_before(store, term, below) {
        Some(Term::Expression(_, expression)) => pieces_of_expression(store, term.0, expression),
        Some(Term::Statement(_, _)) => word_alone(store, Word::Nil),
        Some(Term::Function(_, _, _)) => word_alone(store, Word::Nil),
        None => word_alone(store, Word::Nil),
    }
}

/// The pieces of a part that stands as a statement, among the nodes before a number.
fn pieces_of_doing(store: &Store, term: TermId, below: u64) -> Result<Vec<Piece>, NoMemory>
    ensures { IfOk result (λ v.
        text_in store.now v.items ≡ statement_text store.now (statement_at (take below (trees store.now.terms)) term)) }
{
    match node_before(store, term, below) {
        Some(Term::Statement(_, statement)) => pieces_of_statement(
            store.allocator(),
            term.0,
            statement,
        ),
        Some(Term::Expression(_, _)) => no_statement(store),
        Some(Term::Function(_, _, _)) => no_statement(store),
        None => no_statement(store),
    }
}

/// A node before a number; `None` exactly where it is none of them.
fn node_before(store: &Store, term: TermId, below: u64) -> Option<&Term>
    ensures { option_copied result ≡ slice_get (take below store.now.terms) term.0 }
{
    if term.0 < below {
        store.term(term)
    } else {
        None
    }
}

/// A word as a text of its own.
fn word_alone(store: &Store, word: Word) -> Result<Vec<Piece>, NoMemory>
    ensures { IfOk result (λ v. v.items ≡ Piece.Word word ∷ []) }
{
    Ok([Piece::Word(word)].to_vec(store.allocator())?)
}

/// What stands for a statement that isn't there: a break.
fn no_statement(store: &Store) -> Result<Vec<Piece>, NoMemory>
    ensures { IfOk result (λ v. v.items ≡ statement_pieces 0 Statement.Break) }
{
    pieces_of_statement(store.allocator(), 0, &Statement::Break)
}

/// The pieces of a type's text.
fn pieces_of_type_id(store: &Store, of: TypeId) -> Result<Vec<Piece>, NoMemory>
    ensures { IfOk result (λ v. text_in store.now v.items ≡ type_text store.now.types of) }
{
    let alloc = store.allocator();
    match store.types().form(of) {
        Some(form) => pieces_of_type(alloc, of.0, form),
        None => Ok(Vec::new(alloc)),
    }
}

/// Writes a number in decimal.
fn push_decimal(alloc: Global, out: &mut Bytes, number: u64) -> Result<(), NoMemory>
    ensures { OnOk result (out.new ≡ out.old ++ decimal number) }
{
    let text = format!(in alloc; "{number}")?;
    out.push_all(text.as_bytes())
}

/// Writes the number that follows an id's, as ids count from 0 and texts from 1.
fn push_next(alloc: Global, out: &mut Bytes, id: u64) -> Result<(), NoMemory>
    ensures { OnOk result (out.new ≡ out.old ++ decimal (id + 1)) }
{
    let number = u128::from(id) + 1;
    let text = format!(in alloc; "{number}")?;
    out.push_all(text.as_bytes())
}

/// Writes a word of 64 bits as the number that it is at a type.
fn push_number(store: &Store, out: &mut Bytes, bits: u64, of: TypeId) -> Result<(), NoMemory>
    ensures { OnOk result (out.new ≡ out.old ++ number_digits store.now.types bits of) }
{
    let alloc = store.allocator();
    if has_sign(store, of) && bits >= 1 << 63 {
        out.push_all(b"-")?;
        push_decimal(alloc, out, u64::MAX - bits + 1)
    } else {
        push_decimal(alloc, out, bits)
    }
}

/// Whether a type is an integer type with a sign.
fn has_sign(store: &Store, of: TypeId) -> bool
    ensures { result ≡ has_sign store.now.types of }
{
    match store.types().form(of) {
        Some(TypeForm::Integer(integer)) => is_signed_integer(*integer),
        _ => false,
    }
}

/// Whether an integer type has a sign.
fn is_signed_integer(integer: Integer) -> bool
    ensures { result ≡ is_signed integer }
{
    match integer {
        Integer::Int8 | Integer::Int16 | Integer::Int32 | Integer::Int64 => true,
        Integer::Uint8 | Integer::Uint16 | Integer::Uint32 | Integer::Uint64 => false,
    }
}

// The texts of types.
//
// Types nest deeper than a stack reaches, and the text of one may be far longer than a text can be. So the parts that are still to be
// written stand in a list, in which a type is replaced by its own parts, and the writing ends once a text would be too long.

ghost use Rattle.std.specs.Prelude.{◌≡◌, ◌++◌, [], ◌∷◌, codes, decimal, IfOk, OnOk};
ghost use Rattle.tl_base.specs.Text.{text_of};
ghost use Rattle.terra_term.specs.TermText.{type_text, type_texts, type_made};
ghost use Rattle.stage_text.specs.Types.{part_text, text_in, type_parts, listed_types, comma_types};

use std::alloc::Global;
use std::collections::VecDeque;
use terra_term::text_of_integer;
use terra_types::{Integer, TypeForm, Types};
use tl_base::{Bytes, NoMemory, Text, TypeId};

/// What is still to be written of a text.
#[derive(Clone, Copy)]
pub enum Part {
    Integer(Integer),
    Bool,
    Unit,
    /// What stands before the type to which a pointer points.
    Pointer,
    /// The number of an array's elements, in brackets.
    Count(u64),
    /// What stands before the parameters of a function type.
    Open,
    Comma,
    /// What stands between the parameters of a function type and its result.
    Arrow,
    Struct(u64),
    /// A type among those before a number.
    OfType(TypeId, u64),
}

/// The text of a type; `None` exactly where it is longer than texts can be.
pub fn type_text(alloc: Global, types: &Types, of: TypeId) -> Result<Option<Text>, NoMemory>
    ensures { IfOk result (λ text. text ≡ text_of (type_text types.now of)) }
{
    let mut out = Bytes::new(alloc);
    let mut work = VecDeque::new(alloc);
    put_type(alloc, types, &mut work, of)?;
    // Each step writes a byte or leaves a type before another one, so no text of that length has so many steps.
    for _ in 0..u64::MAX {
        if out.as_slice().len() > Text::MAX_LEN {
            return Ok(None);
        }
        let Some(part) = work.pop_front() else {
            return Text::new(alloc, out.as_slice());
        };
        step(alloc, types, &mut out, &mut work, part)?;
    }
    Err(NoMemory)
}

/// Writes the type of functions of these parameters and this result, whether it is there or not.
pub fn push_function_type(
    alloc: Global,
    types: &Types,
    out: &mut Bytes,
    parameters: &[TypeId],
    of: TypeId,
) -> Result<(), NoMemory>
    ensures { OnOk result (out.new
        ≡ out.old ++ type_made (type_texts types.now) (TypeForm.Function parameters.now of)) }
{
    let parts = parts_of_function(alloc, types.len(), parameters, of)?;
    push_parts(alloc, types, out, parts)
}

/// Writes parts, however long they are.
fn push_parts(
    alloc: Global,
    types: &Types,
    out: &mut Bytes,
    parts: Vec<Part>,
) -> Result<(), NoMemory>
    ensures { OnOk result (out.new ≡ out.old ++ text_in types.now parts.items) }
{
    let mut work = VecDeque::new(alloc);
    prepend(&mut work, parts)?;
    // Memory runs out before that many bytes are written.
    for _ in 0..u64::MAX {
        let Some(part) = work.pop_front() else {
            return Ok(());
        };
        step(alloc, types, out, &mut work, part)?;
    }
    Err(NoMemory)
}

/// Writes a part, or replaces a type by its own parts.
fn step(
    alloc: Global,
    types: &Types,
    out: &mut Bytes,
    work: &mut VecDeque<Part>,
    part: Part,
) -> Result<(), NoMemory>
    ensures { OnOk result (out.new ++ text_in types.now work.new.items
        ≡ (out.old ++ part_text types.now part) ++ text_in types.now work.old.items) }
{
    match part {
        Part::OfType(of, below) => {
            if of.0 < below {
                return put_type(alloc, types, work, of);
            }
            Ok(())
        }
        Part::Integer(integer) => out.push_all(text_of_integer(integer)),
        Part::Bool => out.push_all(b"bool"),
        Part::Unit => out.push_all(b"{}"),
        Part::Pointer => out.push_all(b"&"),
        Part::Count(count) => push_count(alloc, out, count),
        Part::Open => out.push_all(b"{"),
        Part::Comma => out.push_all(b", "),
        Part::Arrow => out.push_all(b"} -> "),
        Part::Struct(number) => push_struct(alloc, out, number),
    }
}

fn push_count(alloc: Global, out: &mut Bytes, count: u64) -> Result<(), NoMemory>
    ensures { OnOk result (out.new ≡ out.old ++ (codes "[" ++ decimal count ++ codes "]")) }
{
    let text = format!(in alloc; "[{count}]")?;
    out.push_all(text.as_bytes())
}

fn push_struct(alloc: Global, out: &mut Bytes, number: u64) -> Result<(), NoMemory>
    ensures { OnOk result (out.new ≡ out.old ++ (codes "struct " ++ decimal number)) }
{
    let text = format!(in alloc; "struct {number}")?;
    out.push_all(text.as_bytes())
}

/// Puts the parts of a type before those that are still to be written.
fn put_type(
    alloc: Global,
    types: &Types,
    work: &mut VecDeque<Part>,
    of: TypeId,
) -> Result<(), NoMemory>
    ensures { OnOk result (text_in types.now work.new.items ≡ type_text types.now of ++ text_in types.now work.old.items) }
{
    match types.form(of) {
        Some(form) => {
            let parts = parts_of(alloc, of.0, form)?;
            prepend(work, parts)
        }
        None => Ok(()),
    }
}

/// Puts parts before those that are still to be written.
fn prepend(work: &mut VecDeque<Part>, parts: Vec<Part>) -> Result<(), NoMemory>
    ensures { OnOk result (work.new.items ≡ parts.items ++ work.old.items) }
{
    let mut left = parts;
    while let Some(part) = left.pop() {
        work.push_front(part)?;
    }
    Ok(())
}

/// The parts of a type that is made of types before a number.
fn parts_of(alloc: Global, below: u64, form: &TypeForm) -> Result<Vec<Part>, NoMemory>
    ensures { IfOk result (λ v. v.items ≡ type_parts below form.now) }
{
    match form {
        TypeForm::Integer(integer) => list(alloc, &[Part::Integer(*integer)]),
        TypeForm::Bool => list(alloc, &[Part::Bool]),
        TypeForm::Unit => list(alloc, &[Part::Unit]),
        TypeForm::Pointer(of) => list(alloc, &[Part::Pointer, Part::OfType(*of, below)]),
        TypeForm::Array(of, count) => {
            list(alloc, &[Part::OfType(*of, below), Part::Count(*count)])
        }
        TypeForm::Function(parameters, of) => {
            parts_of_function(alloc, below, parameters.as_slice(), *of)
        }
        TypeForm::Struct(number, _, _) => list(alloc, &[Part::Struct(*number)]),
    }
}

fn list(alloc: Global, parts: &[Part]) -> Result<Vec<Part>, NoMemory>
    ensures { IfOk result (λ v. v.items ≡ parts.now) }
{
    Ok(Vec::from_slice(alloc, parts)?)
}

fn parts_of_function(
    alloc: Global,
    below: u64,
    parameters: &[TypeId],
    of: TypeId,
) -> Result<Vec<Part>, NoMemory>
    ensures { IfOk result (λ v. v.items ≡ Part.Open ∷ listed_types below parameters.now ++ Part.Arrow ∷ Part.OfType of below ∷ []) }
{
    let mut parts = list(alloc, &[Part::Open])?;
    push_types(&mut parts, below, parameters)?;
    parts.extend_from_slice(&[Part::Arrow, Part::OfType(of, below)])?;
    Ok(parts)
}

/// Puts types behind other parts, with commas between.
fn push_types(parts: &mut Vec<Part>, below: u64, types: &[TypeId]) -> Result<(), NoMemory>
    ensures { OnOk result (parts.new.items ≡ parts.old.items ++ listed_types below types.now) }
{
    match types {
        [] => Ok(()),
        [first, rest @ ..] => {
            parts.push(Part::OfType(*first, below))?;
            push_comma_types(parts, below, rest)
        }
    }
}

/// Puts types behind other parts, with a comma before each.
fn push_comma_types(parts: &mut Vec<Part>, below: u64, types: &[TypeId]) -> Result<(), NoMemory>
    ensures { OnOk result (parts.new.items ≡ parts.old.items ++ comma_types below types.now) }
{
    for of in types {
        parts.push(Part::Comma)?;
        parts.push(Part::OfType(*of, below))?;
    }
    Ok(())
}

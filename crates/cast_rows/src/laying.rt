// The rows that ask for what a type is and how it is laid out.

use crate::words::type_at;
use row_words::number_at;
use std::alloc::Global;
use terra_types::{Layout, TypeForm, Types};
use tl_base::{NoMemory, TextId, TypeId};

/// A row that asks for a size, an alignment, an offset or a form.
pub fn row(
    alloc: Global,
    types: &Types,
    word: &str,
    words: &[&str],
) -> Result<Option<String>, NoMemory> {
    let of = type_at(words, 1);
    let number = match word {
        "size" => types.size_of(of),
        "align" => types.align_of(of),
        "offset" => types.offset_of(of, TextId(number_at(words, 2))),
        "form" => return Ok(Some(form_text(alloc, types, of)?)),
        _ => return Ok(None),
    };
    Ok(Some(number_text(alloc, number)?))
}

fn number_text(alloc: Global, number: Option<u64>) -> Result<String, NoMemory> {
    match number {
        Some(number) => Ok(format!(in alloc; "{number}")?),
        None => Ok(String::from_str(alloc, "none")?),
    }
}

/// What a type is, and the entries of a struct by their order.
fn form_text(alloc: Global, types: &Types, of: TypeId) -> Result<String, NoMemory> {
    match types.form(of) {
        None => Ok(String::from_str(alloc, "none")?),
        Some(TypeForm::Integer(integer)) => {
            let bytes = integer.bytes();
            let signed = integer.is_signed();
            Ok(format!(in alloc; "integer {bytes} {signed}")?)
        }
        Some(TypeForm::Bool) => Ok(String::from_str(alloc, "bool")?),
        Some(TypeForm::Unit) => Ok(String::from_str(alloc, "unit")?),
        Some(TypeForm::Pointer(to)) => {
            let to = to.0;
            Ok(format!(in alloc; "pointer {to}")?)
        }
        Some(TypeForm::Array(element, count)) => {
            let element = element.0;
            Ok(format!(in alloc; "array {element} {count}")?)
        }
        Some(TypeForm::Function(parameters, returns)) => {
            let count = parameters.as_slice().len();
            let returns = returns.0;
            Ok(format!(in alloc; "function {returns} {count}")?)
        }
        Some(TypeForm::Struct(number, _, layout)) => struct_text(alloc, *number, layout),
    }
}

fn struct_text(alloc: Global, number: u64, layout: &Option<Layout>) -> Result<String, NoMemory> {
    let Some(layout) = layout else {
        return Ok(format!(in alloc; "struct {number}")?);
    };
    let size = layout.size;
    let align = layout.align;
    let mut text = format!(in alloc; "struct {number} {size} {align}")?;
    for place in 0..layout.entries.len() {
        if let Some(laid) = layout.entries.get(place) {
            let field = laid.field.0;
            let offset = laid.offset;
            let of = laid.of.0;
            let entry = format!(in alloc; " {field}:{of}@{offset}")?;
            text.push_str(entry.as_str())?;
        }
    }
    Ok(text)
}

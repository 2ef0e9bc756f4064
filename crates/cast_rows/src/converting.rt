// The rows that convert between types.

use crate::words::type_at;
use check_cast::{Conv, explicit, implicit, meet};
use std::alloc::Global;
use terra_types::Types;
use tl_base::{NoMemory, TypeId};

/// A row that shows how a type converts to each type, or where it meets each.
pub fn row(
    alloc: Global,
    types: &Types,
    word: &str,
    words: &[&str],
) -> Result<Option<String>, NoMemory> {
    let of = type_at(words, 1);
    let mut text = String::new(alloc);
    for id in 0..types.len() {
        let letter = match word {
            "implicit" => letter(implicit(types, of, TypeId(id))),
            "explicit" => letter(explicit(types, of, TypeId(id))),
            "meet" => digit(meet(types, of, TypeId(id))),
            _ => return Ok(None),
        };
        text.push(letter)?;
    }
    Ok(Some(text))
}

/// The letter of a conversion.
fn letter(conversion: Conv) -> char {
    match conversion {
        Conv::Same => 'S',
        Conv::Integer => 'I',
        Conv::Array => 'A',
        Conv::ToBool => 'B',
        Conv::FromBool => 'F',
        Conv::Pointer => 'P',
        Conv::ToInteger => 'N',
        Conv::ToPointer => 'T',
        Conv::No => '.',
    }
}

/// The digit of the type at which two types meet.
fn digit(met: Option<TypeId>) -> char {
    match met {
        Some(TypeId(0)) => '0',
        Some(TypeId(1)) => '1',
        Some(TypeId(2)) => '2',
        Some(TypeId(3)) => '3',
        Some(TypeId(4)) => '4',
        Some(TypeId(5)) => '5',
        Some(TypeId(6)) => '6',
        Some(TypeId(7)) => '7',
        Some(_) => '?',
        None => '.',
    }
}

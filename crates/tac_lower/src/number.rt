// How words of types stand in memory.

ghost use Rattle.std.specs.Prelude.{◌≡◌, ◌≤◌};
ghost use Rattle.tac_form.specs.Flow.{width_of};
ghost use Rattle.tac_lower.specs.Pieces.{integer_number, is_bool, long, number_of, whole_word};

use tac_form::{Number, Size};
use terra_types::{Integer, TypeForm, Types};
use terra_words::Width;
use tl_base::TypeId;

/// Addresses, and words as a whole.
pub(crate) fn whole_word() -> Number
    ensures { result ≡ whole_word }
{
    long(false)
}

/// Numbers of 64 bits.
pub(crate) fn long(signed: bool) -> Number
    ensures { result ≡ long signed }
{
    Number {
        signed,
        size: Size::Eight,
    }
}

/// The width of the words of a form, which has at most 64 bits.
pub(crate) fn width_of(number: Number) -> Width
    ensures width { result ≡ width_of number }
    ensures within { result.bits ≤ 64 }
{
    let bits = match number.size {
        Size::One => 8,
        Size::Two => 16,
        Size::Four => 32,
        Size::Eight => 64,
    };
    Width {
        signed: number.signed,
        bits,
    }
}

/// How words of a type stand in memory. A bool is a byte; types without words are taken for addresses.
pub(crate) fn number_of(types: &Types, of: TypeId) -> Number
    ensures { result ≡ number_of types.now of }
{
    match types.form(of) {
        Some(TypeForm::Integer(integer)) => integer_number(*integer),
        Some(TypeForm::Bool) => Number {
            signed: false,
            size: Size::One,
        },
        Some(TypeForm::Unit) => whole_word(),
        Some(TypeForm::Pointer(_)) => whole_word(),
        Some(TypeForm::Array(_, _)) => whole_word(),
        Some(TypeForm::Function(_, _)) => whole_word(),
        Some(TypeForm::Struct(_, _, _)) => whole_word(),
        None => whole_word(),
    }
}

/// Whether a type is the one of bools.
pub(crate) fn is_bool(types: &Types, of: TypeId) -> bool
    ensures { result ≡ is_bool types.now of }
{
    match types.form(of) {
        Some(TypeForm::Bool) => true,
        Some(TypeForm::Integer(_)) => false,
        Some(TypeForm::Unit) => false,
        Some(TypeForm::Pointer(_)) => false,
        Some(TypeForm::Array(_, _)) => false,
        Some(TypeForm::Function(_, _)) => false,
        Some(TypeForm::Struct(_, _, _)) => false,
        None => false,
    }
}

fn integer_number(of: Integer) -> Number
    ensures { result ≡ integer_number of }
{
    let (signed, size) = match of {
        Integer::Int8 => (true, Size::One),
        Integer::Int16 => (true, Size::Two),
        Integer::Int32 => (true, Size::Four),
        Integer::Int64 => (true, Size::Eight),
        Integer::Uint8 => (false, Size::One),
        Integer::Uint16 => (false, Size::Two),
        Integer::Uint32 => (false, Size::Four),
        Integer::Uint64 => (false, Size::Eight),
    };
    Number { signed, size }
}

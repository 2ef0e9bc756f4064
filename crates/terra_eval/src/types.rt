// What running code needs of types.

ghost use Rattle.std.specs.Prelude.{◌≡◌, ◌≤◌, unwrap_or};
ghost use Rattle.terra_types.specs.Sizes.{align_of};
ghost use Rattle.terra_meaning.specs.Values.{bytes_at, is_aggregate, target_of, width_of};
ghost use Rattle.terra_words.specs.Words.{address_width};

use terra_types::{TypeForm, Types};
use terra_words::Width;
use tl_base::TypeId;

/// How many bytes a type has; none where it has no size.
pub fn bytes_at(types: &Types, t: TypeId) -> u64
    ensures { result ≡ bytes_at types.now t }
{
    types.size_of(t).unwrap_or(0)
}

/// What addresses of a type are multiples of; one where it has no size.
pub fn align_at(types: &Types, t: TypeId) -> u64
    ensures { result ≡ unwrap_or (align_of types.now t) 1 }
{
    types.align_of(t).unwrap_or(1)
}

/// Whether a type's values are arrays or structs.
pub fn is_aggregate(types: &Types, t: TypeId) -> bool
    ensures { result ≡ is_aggregate types.now t }
{
    match types.form(t) {
        Some(TypeForm::Array(_, _)) => true,
        Some(TypeForm::Struct(_, _, _)) => true,
        Some(TypeForm::Integer(_)) => false,
        Some(TypeForm::Bool) => false,
        Some(TypeForm::Unit) => false,
        Some(TypeForm::Pointer(_)) => false,
        Some(TypeForm::Function(_, _)) => false,
        None => false,
    }
}

/// The width of a type's words.
pub fn width_of(types: &Types, t: TypeId) -> Width
    ensures width { result ≡ width_of types.now t }
    ensures fits { result.bits ≤ 64 }
{
    match types.form(t) {
        Some(TypeForm::Integer(integer)) => Width {
            signed: integer.is_signed(),
            bits: 8 * integer.bytes(),
        },
        Some(TypeForm::Bool) => Width {
            signed: false,
            bits: 1,
        },
        Some(TypeForm::Unit) => Width {
            signed: false,
            bits: 0,
        },
        Some(TypeForm::Pointer(_)) => address_width(),
        Some(TypeForm::Array(_, _)) => address_width(),
        Some(TypeForm::Function(_, _)) => address_width(),
        Some(TypeForm::Struct(_, _, _)) => address_width(),
        None => Width {
            signed: false,
            bits: 0,
        },
    }
}

fn address_width() -> Width
    ensures { result ≡ address_width }
{
    Width {
        signed: false,
        bits: 64,
    }
}

/// The type to which a pointer points.
pub fn target_of(types: &Types, t: TypeId) -> TypeId
    ensures { result ≡ target_of types.now t }
{
    match types.form(t) {
        Some(TypeForm::Pointer(target)) => *target,
        Some(TypeForm::Integer(_)) => TypeId(0),
        Some(TypeForm::Bool) => TypeId(0),
        Some(TypeForm::Unit) => TypeId(0),
        Some(TypeForm::Array(_, _)) => TypeId(0),
        Some(TypeForm::Function(_, _)) => TypeId(0),
        Some(TypeForm::Struct(_, _, _)) => TypeId(0),
        None => TypeId(0),
    }
}

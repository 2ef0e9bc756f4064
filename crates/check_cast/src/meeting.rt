// Where two integer types meet.

ghost use Rattle.std.specs.Prelude.{◌≡◌};
ghost use Rattle.check_cast.specs.Conversions.{meet as meet_rule, meeting};
ghost use Rattle.terra_types.specs.Sizes.{bytes_of, is_signed};

use terra_types::{Integer, TypeForm, Types};
use tl_base::TypeId;

/// The type at which two integer types meet: the wider one, and at equal widths the unsigned one. `None` where one of them is no
/// integer type.
pub fn meet(types: &Types, a: TypeId, b: TypeId) -> Option<TypeId>
    ensures { result ≡ meet_rule types.now a b }
{
    match types.form(a) {
        Some(TypeForm::Integer(left)) => match types.form(b) {
            Some(TypeForm::Integer(right)) => Some(wider(a, *left, b, *right)),
            _ => None,
        },
        _ => None,
    }
}

/// The wider of two integer types, and at equal widths the unsigned one.
fn wider(a: TypeId, left: Integer, b: TypeId, right: Integer) -> TypeId
    ensures { result ≡ meeting a left b right }
{
    if left.bytes() < right.bytes() {
        b
    } else if right.bytes() < left.bytes() || !left.is_signed() {
        a
    } else {
        b
    }
}

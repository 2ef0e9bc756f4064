// What is kept of an array, so that its size is read without a walk over the arrays in it.
//
// The elements of an array may be structs without a layout when the array is made, so its size isn't known then. What is kept
// tells it from the size of the innermost elements, once that is known.

ghost use Rattle.std.specs.Prelude.{◌≡◌};
ghost use Rattle.terra_types.specs.Elements.{elements_of};

use tl_base::TypeId;

/// The elements of an array, those of arrays in it counted one by one. Numbers end at the last one of 64 bits.
#[derive(Clone, Copy)]
pub struct Elements {
    /// What they are: no array.
    pub of: TypeId,
    /// How many there are.
    pub count: u64,
    /// How many there are in the largest of the nested arrays, since an array that has none may be over one that is too large.
    pub largest: u64,
}

/// The elements of an array of so many of a type, which may be an array itself.
pub(crate) fn nested_elements(of: TypeId, number: u64, inner: Option<Elements>) -> Elements
    ensures { result ≡ elements_of of number inner }
{
    match inner {
        None => Elements {
            of,
            count: number,
            largest: number,
        },
        Some(inner) => {
            let count = number.saturating_mul(inner.count);
            Elements {
                of: inner.of,
                count,
                largest: count.max(inner.largest),
            }
        }
    }
}

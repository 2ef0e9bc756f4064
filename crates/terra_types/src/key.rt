// What tells a type from all others, by which it is found.

use crate::types::Integer;
use tl_base::TypeId;

/// What a type is made of, or a struct's number. Two types are one exactly where their keys are equal.
#[derive(Drop, PartialEq, Eq, Hash)]
pub enum TypeKey {
    Integer(Integer),
    Bool,
    Unit,
    Pointer(TypeId),
    Array(TypeId, u64),
    Function(Vec<TypeId>, TypeId),
    Struct(u64),
}

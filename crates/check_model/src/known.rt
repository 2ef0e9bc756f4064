// What is known of the result type of a function.

use tl_base::TypeId;

/// What is known of the result type of a function.
#[derive(Clone, Copy, PartialEq, Eq)]
pub enum KnownResult {
    /// It is written, declared, or found.
    Is(TypeId),
    NotYet,
    /// It isn't known, and the body is being typed.
    BeingTyped,
}

// Where a node of a body is typed.

use tl_base::{FnId, TypeId};

/// Where a node of a body is typed: the function, how many variables stand before its own, whether a loop is around it, whether it is
/// among the statements of a `let`, and the result type, where that is written or was found.
#[derive(Clone, Copy, PartialEq, Eq)]
pub struct Site {
    pub function: FnId,
    pub base: u64,
    pub in_loop: bool,
    pub in_let: bool,
    pub result: Option<TypeId>,
}

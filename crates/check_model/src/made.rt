// What an expression was typed as.

use tl_base::{Place, TermId, TypeId};

/// A typed expression: its node, the term from which it was typed, its place in the text, its type, and whether it is a place.
#[derive(Clone, Copy, PartialEq, Eq)]
pub struct Made {
    pub id: TermId,
    pub source: TermId,
    pub at: Place,
    pub of: TypeId,
    pub is_place: bool,
}

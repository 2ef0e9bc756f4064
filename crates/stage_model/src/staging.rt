// How a staging goes on behind its chunk, and how it ends.

use terra_term::Refusal;
use tl_base::{Bytes, FnId, Place};

/// How a staging goes on behind the chunk.
#[derive(Clone, Copy, PartialEq, Eq)]
pub enum Mode {
    /// It makes the exports at the end of the chunk.
    Exports,
    /// It makes no exports there, and checks each function that is defined.
    CheckAll,
}

/// What a check came to.
#[derive(Clone, Copy, PartialEq, Eq)]
pub struct CheckLine {
    pub function: FnId,
    /// `None` where it has no refusal.
    pub refusal: Option<Refusal>,
}

/// How a staging ends.
#[derive(Drop)]
pub enum End {
    Done,
    /// By an error: its text, and the place of what raised it.
    Raised { text: Bytes, place: Place },
    /// Before a payment above what was left of the budget.
    Spent,
}

// How typing ends.

use crate::made::Made;
use crate::question::CheckAnswer;
use terra_term::{Refusal, RefusalKind};
use tl_base::{TermId, TypeId};

/// How a part of a body ends.
#[derive(Drop)]
pub enum PartEnd {
    /// By a typed expression.
    Made(Made),
    /// By a typed statement, or the function's typed term, with the result type behind it, where that is written or was found.
    Stated(TermId, Option<TypeId>),
    /// By a refusal.
    Refused(Refusal),
    /// By the answer to a question, for what asked: no plan of a job ends so.
    Answered(CheckAnswer),
}

/// How a body ends.
#[derive(Clone, Copy, PartialEq, Eq)]
pub enum BodyEnd {
    Typed(TermId),
    Refused(Refusal),
}

/// How a check ends.
#[derive(Clone, Copy, PartialEq, Eq)]
pub enum CheckEnd {
    Done,
    Refused(Refusal),
}

/// How a layout ends.
#[derive(Clone, Copy, PartialEq, Eq)]
pub enum LayoutEnd {
    Done,
    Refused(RefusalKind),
}

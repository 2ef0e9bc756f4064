// What a Lua value becomes in Terra code.

use crate::fault::Fault;
use tl_base::TermId;

/// What a value becomes where one term is wanted: a term, or the error that is raised in its place.
#[derive(Clone, Copy, PartialEq, Eq)]
pub enum Became {
    Term(TermId),
    Refused(Fault),
}

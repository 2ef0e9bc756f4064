// A call in progress.

use crate::frame::Home;
use crate::value::Value;
use terra_term::Store;
use tl_base::FnId;

/// A call in progress: the store, the functions that stand as values, the homes of the function's declarations, the address of the
/// frame, how many callers there are, and a number that is at least the count.
#[derive(Clone, Copy)]
pub(crate) struct Call<'a> {
    pub(crate) store: &'a Store,
    pub(crate) entries: &'a [FnId],
    pub(crate) homes: &'a [Home],
    pub(crate) base: u64,
    pub(crate) depth: u64,
    pub(crate) turns: u64,
}

/// What is asked of an expression: its value, or the address of the place that it is.
#[derive(Clone, Copy)]
pub(crate) enum Wanted {
    Value,
    Address,
}

/// How a statement ends: it goes on, leaves the loop, or gives the function's value.
#[derive(Drop)]
pub(crate) enum Way {
    GoesOn,
    Breaks,
    GivesBack(Value),
}

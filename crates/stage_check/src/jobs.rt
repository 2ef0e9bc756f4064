// What a layer is asked to do, what it asks, and how it ends.

ghost use Rattle.std.specs.Prelude.{◌≡◌};
ghost use Rattle.stage_check.specs.Layers.{answer_of};

use check_model::CheckAnswer;
use lua_table::LibCall;
use lua_value::{Value, Values};
use stage_library::Task;
use terra_term::{Refusal, RefusalKind};
use tl_base::{FnId, Place, TypeId};

/// What a layer is asked to do.
#[derive(Drop)]
pub enum Job {
    /// What needs no check and no layout by itself: Lua code, the specialisation of Terra code, and most of the library.
    Stage(Task),
    /// To call a function of the library that asks for checks or for a layout.
    Call(LibCall),
    /// To make the exports at the end of the chunk, at the place of the end of the text.
    Export(Place),
    /// To check a function with all that it reaches.
    Check(FnId),
    /// To type the body of a function that is defined.
    Body(FnId),
    /// To find the result type of a function by typing its body.
    Result(FnId),
    /// To settle the layout of a type, for a node or a call at a place.
    Layout(TypeId, Place),
}

/// What a layer asks.
#[derive(Drop)]
pub enum Asked {
    /// For a job of these layers.
    Job(Job),
    /// For a call of a Terra function with these arguments, at the place of the call by Lua code.
    Terra(FnId, Values, Place),
}

/// How a layer ends.
#[derive(Drop)]
pub enum JobEnd {
    /// Lua code gave these values.
    Values(Values),
    /// Lua code raised this value, at this place.
    Raised(Value, Place),
    /// A function has this result type.
    Result(TypeId),
    /// A function is refused.
    Refused(Refusal),
    /// A check is done, a body is typed, or a layout is settled.
    Done,
    /// A layout is refused.
    NoLayout(RefusalKind),
}

/// An end as the answer to the layer that asked.
pub fn answer_of(end: JobEnd) -> CheckAnswer
    ensures { result ≡ answer_of end }
{
    match end {
        JobEnd::Values(values) => CheckAnswer::Values(values),
        JobEnd::Raised(value, place) => CheckAnswer::Raise(value, place),
        JobEnd::Result(of) => CheckAnswer::Result(of),
        JobEnd::Refused(refusal) => CheckAnswer::Refused(refusal),
        JobEnd::Done => CheckAnswer::Done,
        JobEnd::NoLayout(kind) => CheckAnswer::NoLayout(kind),
    }
}

// What is asked on the way.

use lua_value::{Value, Values};
use terra_term::{Refusal, RefusalKind};
use tl_base::{FnId, Place, TypeId};

/// What the typing of a body asks.
#[derive(Drop)]
pub enum BodyQuestion {
    /// To call a value of Lua with these arguments, for a node at this place.
    CallLua(Value, Values, Place),
    /// For the result type of a function that has none yet.
    ResultOf(FnId),
    /// To settle the layout of a type, for a node at this place.
    LayoutOf(TypeId, Place),
}

/// What a check asks.
#[derive(Clone, Copy, PartialEq, Eq)]
pub enum CheckQuestion {
    /// To type the body of a function that is defined.
    Body(FnId),
}

/// What a layout asks.
#[derive(Drop)]
pub enum LayoutQuestion {
    /// To call a value of Lua with these arguments, for a node or a call at this place.
    CallLua(Value, Values, Place),
    /// To settle the layout of a type, for a node or a call at this place.
    LayoutOf(TypeId, Place),
}

/// What begins each of the three, and what answers their questions.
#[derive(Drop)]
pub enum CheckAnswer {
    Go,
    /// What a call gave.
    Values(Values),
    /// A call raised this value, at this place.
    Raise(Value, Place),
    /// A function's result type.
    Result(TypeId),
    /// A function is refused.
    Refused(Refusal),
    /// A body is typed, or a layout is settled.
    Done,
    /// A layout is refused.
    NoLayout(RefusalKind),
}

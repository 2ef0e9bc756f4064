// How it ends.

use lua_value::{Value, Values};
use tl_base::Place;

/// How what is done inside ends.
#[derive(Drop)]
pub enum End {
    /// By the value of an expression.
    One(Value),
    /// By the values of a call or of `...`, or by those of a target.
    Many(Values),
    /// A statement ended, and the next one follows. It emitted these values.
    Fell(Values),
    /// `break` ended it. It emitted these values.
    Broke(Values),
    /// `return` ended it, with the values that are returned. It emitted the second ones.
    Returned(Values, Values),
    /// By an error: the value that was raised, and the place of what raised it.
    Raised(Value, Place),
}

/// How what was asked for ends.
#[derive(Drop)]
pub enum LuaEnd {
    /// With these values: those of a call, the one of an expression, or those that were emitted.
    Done(Values),
    /// By an error: the value that was raised, and the place of what raised it.
    Raised(Value, Place),
}

// What a layer asks.

use lua_value::Values;
use stage_library::Task;
use tl_base::{FnId, Place};

/// What a layer asks.
#[derive(Drop)]
pub enum Asked {
    /// For a task of these layers.
    Task(Task),
    /// For a call of a Terra function with these arguments, at the place of the call by Lua code.
    Terra(FnId, Values, Place),
}

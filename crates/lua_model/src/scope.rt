// Where Lua code is evaluated.

use tl_base::{CellId, EnvId, Place};

/// Where a piece of Lua code is evaluated: the environment of the block around it, the values of `...`, and the place
/// of the call of the function around it.
///
/// The values of `...` stand in `count` cells from `extra` on, which belong to no environment. The chunk, and Lua code
/// in Terra code outside of functions in it, were not called.
#[derive(Clone, Copy)]
pub struct Scope {
    pub env: EnvId,
    pub extra: CellId,
    pub count: u64,
    pub call: Option<Place>,
}

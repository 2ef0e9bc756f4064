// What a layer of the stage is asked to do.

use lua_model::LuaJob;
use lua_table::LibCall;
use tl_base::{EnvId, NodeId, Place, TypeId};

/// What a layer is asked to do.
#[derive(Drop)]
pub enum Task {
    /// To evaluate Lua code.
    Evaluate(LuaJob),
    /// To specialise the Terra code of a node in an environment.
    Specialise(NodeId, EnvId),
    /// To call a function of the library.
    Library(LibCall),
    /// To give the text of a type, at the place of the call of the function that asks.
    TypeText(TypeId, Place),
}

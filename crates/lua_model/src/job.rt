// What is to be done.

use crate::scope::Scope;
use lua_value::{Number, Value, Values};
use tl_base::{ClosureId, EnvId, NodeId, Place, TextId};

/// What the evaluation of Lua code is asked to do. It pays for what it does, and nothing for being asked.
#[derive(Drop)]
pub enum LuaJob {
    /// The whole source.
    Chunk,
    /// The call of a value with arguments, at a place, by a function of the library or by what works on Terra code.
    Call(Value, Values, Place),
    /// One value of an expression of Lua code in Terra code.
    Expr(NodeId, EnvId),
    /// The values that the statements of an `escape` emit. The node is their block.
    Emitted(NodeId, EnvId),
    /// What stands under a text in a value, for a selection at a place in Terra code.
    Index(Value, TextId, Place),
}

/// A loop that begins a turn, with what its turns hand on.
#[derive(Clone, Copy)]
pub enum Loop {
    While,
    Repeat,
    /// A numeric `for`: the value of its variable, the limit and the step.
    Counted(Number, Number, Number),
    /// A generic `for`: the environment that has its variables, the iterator, its state, and the control variable.
    Listed(EnvId, Value, Value, Value),
}

/// Who calls a value: a node of Lua code, which has paid, or a function of the library, an event or Terra code.
#[derive(Clone, Copy)]
pub enum Caller {
    ByNode,
    ByOther,
}

/// What pays one unit before it is done. All else is part of one of these.
#[derive(Drop)]
pub enum Job {
    /// An expression is evaluated.
    Expression(NodeId, Scope),
    /// A statement is executed.
    Statement(NodeId, Scope),
    /// The object and the key of a target of an assignment are evaluated; a name has none. The name of a function that
    /// is defined under it alone is such a target too.
    Target(NodeId, Scope),
    /// A turn of the loop that the node is, and all later ones. These values were emitted in the turns before.
    Turn(NodeId, Scope, Loop, Values),
    /// A function of Lua code is called by a function of the library, by a metatable's event, or from Terra code.
    Callback(ClosureId, Values, Place),
    /// A further object, to which `__index` leads, is read under a key, for a node at this place in a function that was
    /// called there.
    Read(Value, Value, Place, Option<Place>),
    /// A value is stored under a key of a further object, to which `__newindex` leads: the object, the key and the
    /// value.
    Store(Value, Value, Value, Place, Option<Place>),
}

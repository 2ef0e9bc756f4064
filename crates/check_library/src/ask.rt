// What functions answer or ask, and what waits for the answer.

use crate::counting::Counted;
use check_model::Rest;
use lua_table::LibTurn;
use lua_value::Value;
use tl_base::{FnId, TextId, TypeId};

/// What a function answers when it is called, and when it goes on.
#[derive(Drop)]
pub enum AskTurn {
    /// It ends: it gives values, raises one, or has a payment that is larger than what is left of the budget.
    Turn(LibTurn),
    /// It asks for the check of a Terra function.
    Check { function: FnId, next: AskNext },
    /// It asks for the layout of a type, at the place of its call.
    Layout { of: TypeId, next: AskNext },
}

/// What a function still has to do once it is answered.
#[derive(Drop)]
pub enum AskNext {
    /// `sizeof`: the bytes of the type.
    SizeOf(TypeId),
    /// `offsetof`: the offset of the struct's field of that name.
    OffsetOf(TypeId, TextId),
    /// `global`: a global of the type, which begins with the lowest of these bits.
    Global(TypeId, u64),
    /// `compile`: nothing.
    Compile,
    /// `gettype`: the type of the function.
    GetType(FnId),
    /// `saveobj`, and the end of the chunk: the export of the function.
    Export(ExportNext),
}

/// An export that waits for a check: whether it is one of those at the end of the chunk, what was counted of the exports before it, its
/// name and its function, and the entries behind it.
#[derive(Drop)]
pub struct ExportNext {
    pub at_end: bool,
    pub counted: Counted,
    pub key: TextId,
    pub function: FnId,
    pub rest: Rest<(Value, Value)>,
}

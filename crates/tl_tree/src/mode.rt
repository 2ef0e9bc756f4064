// How code is read.

/// How Lua code is read.
#[derive(Clone, Copy, PartialEq, Eq)]
pub enum Mode {
    /// In a function without `...`, and in an escape.
    Plain,
    /// In a function with `...` and in the chunk, where `...` is an expression (Lua 5.1 manual, section 2.5.9).
    Variadic,
    /// As a type in Terra code, where a `[` that is first on its line continues no expression.
    Types,
}

/// Where a block of Lua code stands.
#[derive(Clone, Copy, PartialEq, Eq)]
pub struct Context {
    /// How its expressions are read.
    pub mode: Mode,
    /// It stands in a loop of its function, so that `break` may end it (Lua 5.1 manual, section 2.4.4).
    pub in_loop: bool,
    /// It stands in the block of an `escape`, outside of functions in it, so that `emit` is a statement.
    pub emits: bool,
}

/// What a token does besides opening a level of nesting.
#[derive(Clone, Copy, PartialEq, Eq)]
pub enum TokenUse {
    Plain,
    /// It continues a chain, which so many tokens may continue.
    Continues(u32),
    /// It opens the brackets of a call behind a whole prefix expression, and continues a chain.
    Calls(u32),
    /// It stands for a number of Lua code.
    LuaNumber,
    /// It stands for a number of Terra code.
    TerraNumber,
}

/// What an expression is, as far as what may follow depends on it.
#[derive(Clone, Copy, PartialEq, Eq)]
pub enum OperandKind {
    /// A name alone.
    Name,
    /// An index or a selection.
    Variable,
    /// A call or a method call.
    Call,
    /// Lua code in Terra code, `[e]` alone.
    Escape,
    /// All others.
    Other,
}

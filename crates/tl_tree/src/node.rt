// The nodes of trees.

use tl_base::{List, NodeId, Place};

/// The operators between two operands of Lua and Terra code (Lua 5.1 manual, section 2.5).
#[derive(Clone, Copy, PartialEq, Eq)]
pub enum BinaryOperator {
    /// `->`, from the types of parameters to a type of results.
    Arrow,
    Or,
    And,
    Less,
    Greater,
    LessEqual,
    GreaterEqual,
    NotEqual,
    Equal,
    Concatenate,
    ShiftLeft,
    ShiftRight,
    Add,
    Subtract,
    Multiply,
    Divide,
    Modulo,
    Power,
}

/// The operators before one operand.
#[derive(Clone, Copy, PartialEq, Eq)]
pub enum UnaryOperator {
    Not,
    /// `#`
    Length,
    Negate,
    /// `&`, a pointer type in Lua code and an address in Terra code.
    Address,
    /// `@`
    Dereference,
}

/// Numbers of nodes in the order of the text.
pub type NodeList = List<NodeId>;

/// An expression of Lua code that is no name, number or text (Lua 5.1 manual, section 2.5).
#[derive(Drop)]
pub enum Expression {
    Nil,
    False,
    True,
    /// `...`
    Varargs,
    /// The function with this body.
    Function(NodeId),
    /// Fields: expressions, and `Piece::NamedField` and `Piece::KeyedField`.
    Table(NodeList),
    Binary(BinaryOperator, NodeId, NodeId),
    Unary(UnaryOperator, NodeId),
    /// An expression in brackets, which has one value.
    Paren(NodeId),
    /// `object[key]`
    Index(NodeId, NodeId),
    /// `object.name`
    Select(NodeId, NodeId),
    /// A function and its arguments.
    Call(NodeId, NodeList),
    /// `object:name(arguments)`
    Method(NodeId, NodeId, NodeList),
    /// `terra` with this body.
    Terra(NodeId),
    /// `struct` with these entries.
    Struct(NodeList),
    /// `quote .. end` with this `Piece::Quoted`.
    Quote(NodeId),
    /// A Terra expression behind a backtick.
    Backtick(NodeId),
}

/// A statement of Lua code (Lua 5.1 manual, section 2.4).
#[derive(Drop)]
pub enum Statement {
    /// The targets and the expressions.
    Assign(NodeList, NodeList),
    /// A call.
    Call(NodeId),
    Do(NodeId),
    /// The condition and the block.
    While(NodeId, NodeId),
    /// The block and the condition.
    Repeat(NodeId, NodeId),
    /// `Piece::Arm`s, and the block behind `else`.
    If(NodeList, Option<NodeId>),
    /// The name, the first value, the limit, the step and the block.
    NumericFor(NodeId, NodeId, NodeId, Option<NodeId>, NodeId),
    /// The names, the expressions and the block.
    GenericFor(NodeList, NodeList, NodeId),
    /// `function` with a `Piece::Path` and a `Piece::Body`.
    Function(NodeId, NodeId),
    /// `local function` with a name and a `Piece::Body`.
    LocalFunction(NodeId, NodeId),
    /// The names and the expressions.
    Local(NodeList, NodeList),
    /// `terra` with a `Piece::Path` and a `Piece::TerraBody`.
    Terra(NodeId, NodeId),
    /// `terra` with a `Piece::Path`, `::` and a type.
    DeclareTerra(NodeId, NodeId),
    /// `local terra` with the place of `terra`, a name and a `Piece::TerraBody`.
    LocalTerra(Place, NodeId, NodeId),
    /// `local terra` with the place of `terra`, a name, `::` and a type.
    LocalDeclareTerra(Place, NodeId, NodeId),
    /// `struct` with a `Piece::Path` and `Piece::Entry`s.
    Struct(NodeId, NodeList),
    /// `local struct` with the place of `struct`, a name and `Piece::Entry`s.
    LocalStruct(Place, NodeId, NodeList),
    Emit(NodeId),
    Return(NodeList),
    Break,
}

/// An expression of Terra code that is no name, number or text.
#[derive(Drop)]
pub enum TerraExpression {
    Nil,
    False,
    True,
    Binary(BinaryOperator, NodeId, NodeId),
    Unary(UnaryOperator, NodeId),
    Paren(NodeId),
    /// `[e]` with Lua code, as an expression or as a name.
    Escape(NodeId),
    /// `object[key]`
    Index(NodeId, NodeId),
    /// `object.name`
    Select(NodeId, NodeId),
    /// A function and its arguments.
    Call(NodeId, NodeList),
    /// `object:name(arguments)`
    Method(NodeId, NodeId, NodeList),
    /// A type and its initialisers: all expressions, or all `Piece::NamedField`s.
    Construct(NodeId, NodeList),
}

/// A statement of Terra code.
#[derive(Drop)]
pub enum TerraStatement {
    /// The targets and the expressions.
    Assign(NodeList, NodeList),
    /// A call.
    Call(NodeId),
    /// `[e]` with Lua code.
    Splice(NodeId),
    Do(NodeId),
    /// The condition and the block.
    While(NodeId, NodeId),
    /// The block and the condition.
    Repeat(NodeId, NodeId),
    /// `Piece::Arm`s, and the block behind `else`.
    If(NodeList, Option<NodeId>),
    /// The name, the first value, the limit, the step and the block.
    For(NodeId, NodeId, NodeId, Option<NodeId>, NodeId),
    /// `var` with `Piece::Variable`s and expressions.
    Var(NodeList, NodeList),
    /// `escape` with a block of Lua code.
    Escape(NodeId),
    Return(NodeList),
    Break,
}

/// What a node has within it that is no expression and no statement.
#[derive(Drop)]
pub enum Piece {
    /// The statements of a block, of Lua or of Terra code.
    Block(NodeList),
    /// A condition and its block.
    Arm(NodeId, NodeId),
    /// The parameters of a Lua function, whether `...` is one more, and its block.
    Body(NodeList, bool, NodeId),
    /// A first name and the names behind it, each of these with the place of its `.`, and the method's name with that
    /// of its `:`.
    Path(NodeList, Option<NodeId>),
    /// `name = value`
    NamedField(NodeId, NodeId),
    /// `[key] = value`
    KeyedField(NodeId, NodeId),
    /// `name : type` of a struct.
    Entry(NodeId, NodeId),
    /// The block of a quote, and its expression.
    Quoted(NodeId, Option<NodeId>),
    /// The parameters of a Terra function, its result type and its block, with the place of its `(`.
    TerraBody(Place, NodeList, Option<NodeId>, NodeId),
    /// `name : type` of a Terra function, with the place of the name.
    Parameter(Place, NodeId, NodeId),
    /// `[e]` as a parameter of a Terra function, with the place of its `[`.
    SpliceParameter(Place, NodeId),
    /// A name that `var` declares, and its type, with the place of the name.
    Variable(Place, NodeId, Option<NodeId>),
}

/// A node of a tree. Texts are slices of the source.
#[derive(Drop)]
pub enum Node<'a> {
    /// A name: an expression where one stands, and else what is declared, selected or called. Between its place and
    /// its text is the offset of its token, in bytes of the source.
    Name(Place, u32, &'a str),
    Numeral(Place, &'a str),
    /// A text in quotes or in long brackets.
    Literal(Place, &'a str),
    Expression(Place, Expression),
    Statement(Place, Statement),
    TerraExpression(Place, TerraExpression),
    TerraStatement(Place, TerraStatement),
    Piece(Piece),
}

// What waits for the end of what is done above it: a frame for each place at which a plan waits.

use lua_model::Scope;
use lua_ops::Handler;
use lua_value::{Number, Value, Values};
use tl_base::{NodeId, Place, TableId};
use tl_tree::{BinaryOperator, UnaryOperator};

/// A frame. How it goes on with an end is `after`, of `specs/Frames`. An error passes through all but the last four.
#[derive(Drop)]
pub enum LuaFrame<'a> {
    /// It goes on with one value.
    One(OneFrame<'a>),
    /// It goes on with all values.
    All(AllFrame<'a>),
    /// The end of a function of the library.
    Library,
    /// The end of the block of a function of Lua code.
    Function,
    /// The block of a turn of a loop.
    Turn(NodeId, Scope, TurnFrame<'a>),
    /// A statement of a block, with those behind it and what was emitted before it.
    Block(&'a [NodeId], Scope, Values),
}

/// What waits for one value.
#[derive(Drop)]
pub enum OneFrame<'a> {
    Value(ValueFrame),
    /// An expression in a list with others behind it.
    Item(ListFrame<'a>),
    Call(CallFrame<'a>),
    Field(TableFrame<'a>, FieldFrame),
    Target(TargetFrame<'a>),
    Loop(LoopFrame),
    Statement(StatementFrame<'a>),
}

/// What waits for all values.
#[derive(Drop)]
pub enum AllFrame<'a> {
    /// The last expression of a list; no node is behind it.
    Last(ListFrame<'a>),
    /// The last field of a constructor, which has no key.
    LastField(TableFrame<'a>),
    /// A target, with those behind it, all of them, the expressions, and the objects and keys before it.
    Target(&'a [NodeId], &'a [NodeId], &'a [NodeId], Scope, Values),
    /// A store, with all targets, their objects and keys, the values, and how many stores are left.
    Stores(&'a [NodeId], Scope, Values, Values, u64),
    /// The name under which a function is defined, with the node of the function.
    Name(NodeId, NodeId, Scope),
    /// The values of an iterator: the loop, its names, the iterator, its state, and what was emitted.
    Listed(NodeId, &'a [NodeId], Scope, Value, Value, Values),
    /// Values that are dropped.
    Done,
    /// The values of the call that a statement makes.
    Wait(Wait<'a>, Scope),
}

/// What a statement does with the values of the call that it makes.
#[derive(Clone, Copy)]
pub enum Wait<'a> {
    /// They are dropped.
    Nothing,
    /// They are those of these locals.
    Local(&'a [NodeId]),
    /// The first one is stored in a local: how many environments outwards, and at which position there.
    Store(u32, u32),
}

/// What an expression waits for.
#[derive(Clone, Copy)]
pub enum ValueFrame {
    /// To give it, and no others.
    First,
    /// To give it as a list of values.
    Alone,
    /// The left operand of an operator, with the right one.
    Left(BinaryOperator, NodeId, Place, Scope),
    /// The right operand, with the left one's value.
    Right(BinaryOperator, Value, Place, Option<Place>),
    Unary(UnaryOperator, Place, Option<Place>),
    /// The answer of a comparison's handler.
    Answer(Handler),
    /// The object of an index, with the key.
    Object(NodeId, Place, Scope),
    /// The key, with the object.
    Key(Value, Place, Option<Place>),
    /// The object of a selection, with the name.
    Select(NodeId, Place, Option<Place>),
}

/// An expression in a list, with the nodes behind it and the values before it.
#[derive(Drop)]
pub struct ListFrame<'a> {
    pub rest: &'a [NodeId],
    pub scope: Scope,
    pub values: Values,
    pub then: Then<'a>,
}

/// What is done with the values of a list.
#[derive(Drop)]
pub enum Then<'a> {
    /// The function is called with them.
    Call(Value, Place),
    Return,
    /// They are those of locals.
    Local(&'a [NodeId]),
    /// They are stored in targets, of which these are the objects and keys.
    Assign(&'a [NodeId], Values),
    /// They are the iterator, the state and the first control variable of a `for`.
    Listed(NodeId, &'a [NodeId], Place),
}

/// What a call waits for.
#[derive(Drop)]
pub enum CallFrame<'a> {
    /// The function, with the arguments.
    Function(&'a [NodeId], Place, Scope),
    /// The object of a method call, with the name and the arguments.
    Method(NodeId, &'a [NodeId], Place, Scope),
    /// The method, with its object and the arguments.
    MethodOf(Value, &'a [NodeId], Place, Scope),
}

/// A field of a constructor, with the table, the number that the next field without a key takes, and the fields behind
/// it.
#[derive(Clone, Copy)]
pub struct TableFrame<'a> {
    pub table: TableId,
    pub next: u64,
    pub rest: &'a [NodeId],
    pub place: Place,
    pub scope: Scope,
}

/// What a field waits for.
#[derive(Clone, Copy)]
pub enum FieldFrame {
    /// The value of a field without a key, which has others behind it.
    Next,
    /// The value of a field with this name.
    Named(NodeId),
    /// The key, with the value's node.
    Key(NodeId),
    /// The value under this key.
    Under(Value),
}

/// What a target or a path waits for.
#[derive(Drop)]
pub enum TargetFrame<'a> {
    /// The object of a target, with the key.
    Object(NodeId, Scope),
    /// The key, with the object.
    Key(Value),
    /// The object of a target that is a selection, with the name.
    Select(NodeId),
    /// An object in a path, with the names and the method behind it, and the node of the function.
    Path(&'a [NodeId], Option<NodeId>, NodeId, Scope),
}

/// What a loop waits for.
#[derive(Drop)]
pub enum LoopFrame {
    /// The condition of a `while`.
    While(NodeId, Scope, Values),
    /// The condition of a `repeat`.
    Repeat(NodeId, Scope, Values),
    /// The first expression of a numeric `for`, with the limit and the step.
    Initial(NodeId, NodeId, Option<NodeId>, Place, Scope),
    /// The limit, with the first value and the step.
    Limit(NodeId, Value, Option<NodeId>, Place, Scope),
    /// The step, with the first value and the limit.
    Step(NodeId, Value, Value, Place, Scope),
}

/// How a loop goes on behind a turn.
#[derive(Drop)]
pub enum TurnFrame<'a> {
    /// By the condition.
    While(NodeId),
    /// By the condition, in the scope of the block.
    Repeat(NodeId, Scope),
    /// By the next number: the variable, the limit and the step.
    Counted(Number, Number, Number),
    /// By the iterator: the names, the place, the iterator, its state and the control variable.
    Listed(&'a [NodeId], Place, Value, Value, Value),
}

/// What a statement waits for.
#[derive(Drop)]
pub enum StatementFrame<'a> {
    /// The value that is emitted.
    Emit,
    /// The condition of an arm, with its block, the arms behind it and the block behind `else`.
    Arm(NodeId, &'a [NodeId], Option<NodeId>, Scope),
}

// What waits for the end of what is done above it: a frame for each place at which a plan waits.

use spec_model::{Drawn, Target, Wanted};
use tl_base::{EnvId, FnId, List, NodeId, Place, SymId, TableId, TermId, TextId, TypeId};
use tl_tree::{BinaryOperator, UnaryOperator};

/// A frame. How it goes on with an end is `after`, of `specs/Frames`.
#[derive(Drop)]
pub enum SpecFrame<'a> {
    /// It goes on with one term.
    Term(TermFrame<'a>),
    /// It goes on with the terms of an expression in a list position.
    Terms(TermsFrame<'a>),
    /// It goes on with the statements of a statement.
    Block(BlockFrame<'a>),
    /// What stands before a `.`, with the name behind it.
    Select(NodeId, Place, EnvId),
    /// What stands before the initialisers of a constructor.
    Construct(ConstructFrame<'a>),
    /// The value that answers a question.
    Value(ValueFrame<'a>),
    /// What the statements of an `escape` at this place emit.
    Emitted(Place),
    /// It goes on whatever ended.
    Next(NextFrame<'a>),
}

/// What waits for one term.
#[derive(Drop)]
pub enum TermFrame<'a> {
    /// The left operand of an operator, with the right one.
    Left(BinaryOperator, NodeId, Place, EnvId),
    /// The right operand, with the left one's term.
    Right(BinaryOperator, TermId, Place),
    Unary(UnaryOperator, Place),
    /// What stands in brackets.
    Paren,
    /// The object of an index, with the key.
    Object(NodeId, Place, EnvId),
    /// The key, with the object.
    Key(TermId, Place),
    /// What is called, with the arguments.
    Callee(&'a [NodeId], Place, EnvId),
    /// The object of a method call, with the name and the arguments.
    Method(NodeId, &'a [NodeId], Place, EnvId),
    /// The value of a named initialiser.
    Initial(InitialFrame<'a>),
    /// What stands behind a backtick.
    Backtick(Place),
    /// The expression of a quote, with its statements.
    Quoted(List<TermId>, Place),
    /// A bound of a `for`, with those behind it, and the bounds before it.
    Bound(Option<NodeId>, Option<NodeId>, List<TermId>, ForFrame),
    /// A call as a statement.
    Perform(Place),
    /// The condition of a `while`, with its block.
    While(NodeId, Place, EnvId),
    /// The condition of a `repeat`, with its statements.
    Repeat(List<TermId>, Place),
    /// The condition of an arm, with its block.
    Arm(NodeId, ArmsFrame<'a>),
}

/// An initialiser with a name, with those behind it, and the names and terms before it.
#[derive(Drop)]
pub struct InitialFrame<'a> {
    pub name: NodeId,
    pub rest: &'a [NodeId],
    pub names: List<TextId>,
    pub terms: List<TermId>,
    pub made: NewFrame,
}

/// What a constructor makes: of which type, where, and in which environment.
#[derive(Clone, Copy)]
pub struct NewFrame {
    pub of: TypeId,
    pub place: Place,
    pub env: EnvId,
}

/// A `for`: its node, its symbol where an escape gave one, the place of its name, its block, its place and its
/// environment.
#[derive(Clone, Copy)]
pub struct ForFrame {
    pub node: NodeId,
    pub symbol: Option<SymId>,
    pub at: Place,
    pub block: NodeId,
    pub place: Place,
    pub env: EnvId,
}

/// An arm of an `if` that is done but for what comes behind its `else`: its place, its condition and its statements.
#[derive(Drop)]
pub struct Arm {
    pub place: Place,
    pub test: TermId,
    pub statements: List<TermId>,
}

/// An `if` at one of its arms: the arms behind it and the block behind `else`, the arm's place, the environment, and
/// the arms before it.
#[derive(Drop)]
pub struct ArmsFrame<'a> {
    pub rest: &'a [NodeId],
    pub otherwise: Option<NodeId>,
    pub place: Place,
    pub env: EnvId,
    pub arms: List<Arm>,
}

/// An expression in a list position, with the nodes behind it and the terms before it.
#[derive(Drop)]
pub struct TermsFrame<'a> {
    pub rest: &'a [NodeId],
    pub env: EnvId,
    pub terms: List<TermId>,
    pub then: TermsThen<'a>,
}

/// What is done with the terms of a list.
#[derive(Drop)]
pub enum TermsThen<'a> {
    /// This is called with them.
    Call(TermId, Place),
    /// A method of this object is called with them.
    Method(TermId, TextId, Place),
    /// They are a constructor's initialisers.
    Positional(TypeId, Place),
    /// They are the targets of an assignment, whose values are these nodes.
    Targets(&'a [NodeId], Place),
    /// They are the values of an assignment to these targets.
    Assign(List<TermId>, Place),
    Return(Place),
    /// They are the values of a `var`.
    Var(List<Wanted>, Place),
}

/// A statement of a block, with the statements behind it and the terms before it.
#[derive(Drop)]
pub struct BlockFrame<'a> {
    pub rest: &'a [NodeId],
    pub env: EnvId,
    pub terms: List<TermId>,
    pub then: BlockThen<'a>,
}

/// What is done with the statements of a block.
#[derive(Drop)]
pub enum BlockThen<'a> {
    Do(Place),
    /// They are a `while`'s, with its condition.
    While(TermId, Place),
    /// They are a `repeat`'s, whose condition is this node.
    Repeat(NodeId, Place),
    /// They are a `for`'s: the symbol, its place and the bounds.
    For(SymId, Place, List<TermId>, Place),
    /// They are a quote's, with the node of its expression.
    Quoted(Option<NodeId>, Place),
    /// They are an arm's, with its condition.
    Arm(TermId, ArmsFrame<'a>),
    /// They stand behind `else`: the last arm, and those before it.
    Else(Arm, List<Arm>),
    /// They are the body of a function: the parameters and the result type.
    Body(Definition, List<Drawn>, Option<TypeId>),
}

/// A function that is being defined: its number, the node of its body, the owner of its environment, its place, the
/// environment around it, and whether the definition gives it as a value.
#[derive(Clone, Copy)]
pub struct Definition {
    pub function: FnId,
    pub body: NodeId,
    pub owner: NodeId,
    pub place: Place,
    pub env: EnvId,
    pub anonymous: bool,
}

/// What stands before a constructor's initialisers: its place, the initialisers, and the constructor's place.
#[derive(Clone, Copy)]
pub struct ConstructFrame<'a> {
    pub at: Place,
    pub initials: &'a [NodeId],
    pub place: Place,
    pub env: EnvId,
}

/// What waits for a value.
#[derive(Drop)]
pub enum ValueFrame<'a> {
    /// It is found at this place.
    Found(Place),
    /// It is a name behind `.` or `:`, at this place.
    Member(Place, MemberThen<'a>),
    /// It joins a block.
    Splice(Place),
    /// It stands in the place of a declared name of a `var`, which is that of the node.
    Symbols(NodeId, VarFrame<'a>),
    /// It is the type of a variable, whose node and the type's these are, with the symbols in its name's place.
    VarType(NodeId, NodeId, Option<List<SymId>>, VarFrame<'a>),
    /// It stands in the place of a `for`'s name, with the bounds.
    ForName(NodeId, NodeId, Option<NodeId>, ForFrame),
    /// It stands in a parameter's place.
    Spliced(NodeId, ParameterFrame<'a>),
    /// It is the type of a parameter, whose node and the type's these are.
    ParameterType(NodeId, NodeId, ParameterFrame<'a>),
    /// It is the result type of a function, which this node is.
    Result(NodeId, Definition, List<Drawn>),
    /// It is the type of a declared function: the type's node, and where the function is stored.
    Declared(NodeId, Target, Place),
    /// It is an object in a path, with the names behind it.
    Path(PathFrame<'a>),
    /// It is the type of an entry, whose node and the type's these are.
    EntryType(NodeId, NodeId, EntryFrame<'a>),
}

/// What a name behind `.` or `:` is for.
#[derive(Clone, Copy)]
pub enum MemberThen<'a> {
    /// It is read from a table.
    Table(TableId, Place),
    /// It is selected from a term.
    Select(TermId, Place),
    /// It is the method of an object, with the arguments.
    Method(TermId, &'a [NodeId], Place, EnvId),
}

/// A `var`: the variables that are left, the nodes of its values, its place, the environment, and what stands in the
/// place of the variables before.
#[derive(Drop)]
pub struct VarFrame<'a> {
    pub rest: &'a [NodeId],
    pub values: &'a [NodeId],
    pub place: Place,
    pub env: EnvId,
    pub wanted: List<Wanted>,
}

/// A function's parameters: those that are left, and those before.
#[derive(Drop)]
pub struct ParameterFrame<'a> {
    pub definition: Definition,
    pub rest: &'a [NodeId],
    pub drawn: List<Drawn>,
}

/// The names of a path that are left, the method's name, and what is done at the path's end.
#[derive(Clone, Copy)]
pub struct PathFrame<'a> {
    pub rest: &'a [NodeId],
    pub method: Option<NodeId>,
    pub then: TargetThen<'a>,
    pub place: Place,
    pub env: EnvId,
}

/// What is defined under a path.
#[derive(Clone, Copy)]
pub enum TargetThen<'a> {
    /// The function with this body, by this statement.
    Terra(NodeId, NodeId),
    /// A function of this type is declared.
    Declare(NodeId),
    /// The struct with these entries.
    Struct(&'a [NodeId]),
}

/// The entries of a struct: those that are left, the struct, the number of the next one, the environment, and whether
/// the struct is given as a value.
#[derive(Clone, Copy)]
pub struct EntryFrame<'a> {
    pub rest: &'a [NodeId],
    pub of: TypeId,
    pub number: u64,
    pub env: EnvId,
    pub anonymous: bool,
}

/// What goes on whatever ended: a list whose last item needed nothing.
#[derive(Drop)]
pub enum NextFrame<'a> {
    Var(VarFrame<'a>),
    Parameters(ParameterFrame<'a>),
    Entries(EntryFrame<'a>),
    /// The name in it is that of no initialiser.
    Initials(InitialFrame<'a>),
}

// The typed nodes of a store, as the trees that they make. The parts of a node stand before it.

ghost use Rattle.std.specs.Prelude.{◌≡◌, ◌<◌, IfOk, IfSome, MatchOption, length, take, option_map, slice_get};
ghost use Rattle.std.specs.Option.{option_copied};
ghost use Rattle.terra_term.specs.Held.{typed_in};
ghost use Rattle.terra_term.specs.TypedTerms.{type_of};
ghost use Rattle.terra_term.specs.Planted.{absent_typed};
ghost use Rattle.terra_term.specs.Stores.{callable_of, contents_of};
ghost use Rattle.terra_meaning.specs.Meaning.{types_of};
ghost use Rattle.terra_eval.specs.Trees.{absent_statement, callable_tree, expression_before, expression_tree, list_before};
ghost use Rattle.terra_eval.specs.Trees.{statement_before, statement_tree};

use std::alloc::AllocError;
use terra_term::{FunctionState, Store, Typed, TypedExpression, TypedName, TypedStatement};
use tl_base::{FnId, Place, TermId, TypeId};

/// A node that stands as an expression.
#[derive(Clone, Copy)]
pub struct ExpressionNode<'a> {
    pub at: Place,
    pub of: TypeId,
    pub form: &'a TypedExpression,
}

/// A node that stands as a statement.
#[derive(Clone, Copy)]
pub struct StatementNode<'a> {
    pub at: Place,
    pub doing: &'a TypedStatement,
}

/// A function that can be called: its place, and the number, the parameters, the result and the body of its typed term.
#[derive(Clone, Copy)]
pub struct Callable<'a> {
    pub at: Place,
    pub node: u64,
    pub parameters: &'a [TypedName],
    pub result: TypeId,
    pub body: &'a [TermId],
}

/// A node before a number; `None` exactly where it is none of them.
fn node_before(store: &Store, below: u64, node: TermId) -> Option<&Typed>
    ensures before { IfSome result (λ _. node.0 < below) }
    ensures node { option_copied result ≡ slice_get (take below store.now.typed) node.0 }
{
    if node.0 < below {
        store.typed(node)
    } else {
        None
    }
}

/// The expression of a node among those before a number; none where it is no expression, and stands for nil.
pub fn expression(store: &Store, below: u64, node: TermId) -> Option<ExpressionNode<'_>>
    ensures before { IfSome result (λ _. node.0 < below) }
    ensures tree { MatchOption result (expression_before store.now below node ≡ absent_typed)
        (λ e. expression_before store.now below node ≡ expression_tree store.now node.0 e.at e.of e.form.now) }
{
    match node_before(store, below, node) {
        Some(Typed::Expression(at, of, form)) => Some(ExpressionNode {
            at: *at,
            of: *of,
            form,
        }),
        Some(Typed::Statement(_, _)) => None,
        Some(Typed::Function(_, _, _)) => None,
        None => None,
    }
}

/// The statement of a node among those before a number; none where it is no statement, and stands for a break.
pub fn statement(store: &Store, below: u64, node: TermId) -> Option<StatementNode<'_>>
    ensures before { IfSome result (λ _. node.0 < below) }
    ensures tree { MatchOption result (statement_before store.now below node ≡ absent_statement)
        (λ s. statement_before store.now below node ≡ statement_tree store.now node.0 s.at s.doing.now) }
{
    match node_before(store, below, node) {
        Some(Typed::Statement(at, doing)) => Some(StatementNode { at: *at, doing }),
        Some(Typed::Expression(_, _, _)) => None,
        Some(Typed::Function(_, _, _)) => None,
        None => None,
    }
}

/// The type of an expression.
pub fn type_of(store: &Store, below: u64, node: TermId) -> TypeId
    ensures { result ≡ type_of (expression_before store.now below node) }
{
    match expression(store, below, node) {
        Some(found) => found.of,
        None => RAWSTRING,
    }
}

/// The type of texts, which nil has that stands for what isn't there.
const RAWSTRING: TypeId = TypeId(10);

/// The types of expressions.
pub fn types_of(store: &Store, below: u64, nodes: &[TermId]) -> Result<Vec<TypeId>, AllocError>
    ensures { IfOk result (λ ts. ts.items ≡ types_of (list_before store.now below nodes.now)) }
{
    let mut types = Vec::new(store.allocator());
    for node in nodes {
        types.push(type_of(store, below, *node))?;
    }
    Ok(types)
}

/// A function that can be called; none where the function isn't typed.
pub fn callable_of(store: &Store, f: FnId) -> Option<Callable<'_>>
    ensures before { IfSome result (λ k. k.node < length store.now.typed) }
    ensures callable { option_map (callable_tree store.now) result ≡ callable_of (contents_of store.now) f }
{
    let function = store.function(f)?;
    let node = typed_of(function.state)?;
    match store.typed(node) {
        Some(Typed::Function(parameters, result, body)) => Some(Callable {
            at: function.place,
            node: node.0,
            parameters: parameters.as_slice(),
            result: *result,
            body: body.as_slice(),
        }),
        Some(Typed::Expression(_, _, _)) => None,
        Some(Typed::Statement(_, _)) => None,
        None => None,
    }
}

/// The typed term of a function that has come so far.
fn typed_of(state: FunctionState) -> Option<TermId>
    ensures { result ≡ typed_in state }
{
    match state {
        FunctionState::Typed(_, made) => Some(made),
        FunctionState::Undefined => None,
        FunctionState::Defined(_) => None,
        FunctionState::Typing(_) => None,
        FunctionState::Refused(_, _) => None,
    }
}

// The size of a node, by the kept sizes of its parts.

ghost use Rattle.std.specs.Prelude.{◌≡◌, length};
ghost use Rattle.terra_term.specs.Sizes.{callee_size};
ghost use Rattle.terra_term.specs.Sizing.{around, beside, block_at, doing, expression_at, form, list_at, named, of_function, statement_at};
ghost use Rattle.terra_term.specs.Sizing.{term_sized, typed_doing, typed_form, typed_sized};

use crate::operators::Operation;
use crate::size::{Size, SizedNode};
use crate::term::{Expression, Initialiser, Statement, Term};
use crate::typed::{Typed, TypedExpression, TypedStatement};
use tl_base::TermId;

/// The size of an expression; that of nil where there is none of that id.
fn expression_size(before: &[SizedNode], t: TermId) -> Size
    ensures { result ≡ expression_at before.now t }
{
    match before.get(t.0 as usize) {
        Some(SizedNode::Expression { levels, nodes }) => Size {
            nodes: *nodes,
            levels: *levels,
        },
        _ => Size::leaf(),
    }
}

/// The size of a statement; that of a break where there is none of that id.
fn statement_size(before: &[SizedNode], t: TermId) -> Size
    ensures { result ≡ statement_at before.now t }
{
    match before.get(t.0 as usize) {
        Some(SizedNode::Statement { levels, nodes }) => Size {
            nodes: *nodes,
            levels: *levels,
        },
        _ => Size::leaf(),
    }
}

/// The size of expressions side by side.
fn list_size(before: &[SizedNode], list: &[TermId]) -> Size
    ensures { result ≡ list_at before.now list.now }
{
    let mut size = Size::none();
    let mut left = list.len();
    while left > 0 {
        left -= 1;
        size = expression_size(before, list[left]).joined(size);
    }
    size
}

/// The size of statements side by side.
fn block_size(before: &[SizedNode], block: &[TermId]) -> Size
    ensures { result ≡ block_at before.now block.now }
{
    let mut size = Size::none();
    let mut left = block.len();
    while left > 0 {
        left -= 1;
        size = statement_size(before, block[left]).joined(size);
    }
    size
}

/// The size of a node with two expressions.
fn pair_size(before: &[SizedNode], a: TermId, b: TermId) -> Size
    ensures { result ≡ around (beside (expression_at before.now a) (expression_at before.now b)) }
{
    let first = expression_size(before, a);
    first.joined(expression_size(before, b)).above()
}

/// The size of a node with an expression, and expressions behind it.
fn call_size(before: &[SizedNode], a: TermId, list: &[TermId]) -> Size
    ensures { result ≡ around (beside (expression_at before.now a) (list_at before.now list.now)) }
{
    let first = expression_size(before, a);
    first.joined(list_size(before, list)).above()
}

/// The size of a node with an expression and a block.
fn guarded_size(before: &[SizedNode], a: TermId, block: &[TermId]) -> Size
    ensures { result ≡ around (beside (expression_at before.now a) (block_at before.now block.now)) }
{
    let first = expression_size(before, a);
    first.joined(block_size(before, block)).above()
}

/// The size of a node with a block, and an expression behind it.
fn ended_size(before: &[SizedNode], block: &[TermId], a: TermId) -> Size
    ensures { result ≡ around (beside (block_at before.now block.now) (expression_at before.now a)) }
{
    let first = block_size(before, block);
    first.joined(expression_size(before, a)).above()
}

/// The size of an `if` with an `else`.
fn choice_size(before: &[SizedNode], a: TermId, block: &[TermId], other: &[TermId]) -> Size
    ensures { result
        ≡ around (beside (beside (expression_at before.now a) (block_at before.now block.now)) (block_at before.now other.now)) }
{
    let first = expression_size(before, a).joined(block_size(before, block));
    first.joined(block_size(before, other)).above()
}

/// The size of a node with two lists of expressions.
fn lists_size(before: &[SizedNode], targets: &[TermId], values: &[TermId]) -> Size
    ensures { result ≡ around (beside (list_at before.now targets.now) (list_at before.now values.now)) }
{
    let first = list_size(before, targets);
    first.joined(list_size(before, values)).above()
}

/// The size of a `for`.
fn loop_size(before: &[SizedNode], bounds: &[TermId], block: &[TermId]) -> Size
    ensures { result ≡ around (beside (list_at before.now bounds.now) (block_at before.now block.now)) }
{
    let first = list_size(before, bounds);
    first.joined(block_size(before, block)).above()
}

/// The size of a `var` with values.
fn var_size(before: &[SizedNode], names: usize, values: &[TermId]) -> Size
    ensures { result ≡ around (beside (named names) (list_at before.now values.now)) }
{
    let first = Size::of_names(names);
    first.joined(list_size(before, values)).above()
}

/// The size of a function.
fn function_size(before: &[SizedNode], parameters: usize, body: &[TermId]) -> SizedNode
    ensures { result ≡ of_function (around (beside (named parameters) (block_at before.now body.now))) }
{
    let first = Size::of_names(parameters);
    SizedNode::function(first.joined(block_size(before, body)).above())
}

/// The size of a callee that isn't evaluated.
fn callee_size_of(operation: &Operation) -> Size
    ensures { result ≡ callee_size operation.now }
{
    match operation {
        Operation::Call(_) | Operation::Primitive(_) => Size::leaf(),
        _ => Size::none(),
    }
}

/// The size of a typed expression.
fn typed_expression_size(before: &[SizedNode], x: &TypedExpression) -> Size
    ensures { result ≡ typed_form before.now x.now }
{
    match x {
        TypedExpression::Constant(_) | TypedExpression::Variable(_) | TypedExpression::Global(_) =>
            { Size::leaf() }
        TypedExpression::Operate(operation, list) => {
            let first = callee_size_of(operation);
            first.joined(list_size(before, list.as_slice())).above()
        }
        TypedExpression::Both(a, b)
        | TypedExpression::Either(a, b)
        | TypedExpression::Element(a, b)
        | TypedExpression::Index(a, b) => pair_size(before, *a, *b),
        TypedExpression::Dereference(a)
        | TypedExpression::Select(_, a)
        | TypedExpression::Follow(_, a)
        | TypedExpression::Address(a)
        | TypedExpression::Decay(a) => expression_size(before, *a).above(),
        TypedExpression::Let(block, a) => ended_size(before, block.as_slice(), *a),
    }
}

/// The size of a typed statement.
fn typed_statement_size(before: &[SizedNode], x: &TypedStatement) -> Size
    ensures { result ≡ typed_doing before.now x.now }
{
    match x {
        TypedStatement::Var(names, values) => {
            var_size(before, names.as_slice().len(), values.as_slice())
        }
        TypedStatement::Assign(targets, values) => {
            lists_size(before, targets.as_slice(), values.as_slice())
        }
        TypedStatement::If(test, block, other) => match other {
            Some(other) => choice_size(before, *test, block.as_slice(), other.as_slice()),
            None => guarded_size(before, *test, block.as_slice()),
        },
        TypedStatement::While(test, block) => guarded_size(before, *test, block.as_slice()),
        TypedStatement::Repeat(block, test) => ended_size(before, block.as_slice(), *test),
        TypedStatement::For(_, bounds, block) => {
            loop_size(before, bounds.as_slice(), block.as_slice())
        }
        TypedStatement::Do(block) => block_size(before, block.as_slice()).above(),
        TypedStatement::Break => Size::leaf(),
        TypedStatement::Return(value) => match value {
            Some(value) => expression_size(before, *value).above(),
            None => Size::leaf(),
        },
        TypedStatement::Perform(a) => expression_size(before, *a).above(),
    }
}

/// The size of a typed node.
pub(crate) fn size_typed(before: &[SizedNode], node: &Typed) -> SizedNode
    ensures { result ≡ typed_sized before.now node.now }
{
    match node {
        Typed::Expression(_, _, x) => SizedNode::expression(typed_expression_size(before, x)),
        Typed::Statement(_, x) => SizedNode::statement(typed_statement_size(before, x)),
        Typed::Function(parameters, _, body) => {
            function_size(before, parameters.as_slice().len(), body.as_slice())
        }
    }
}

/// The size of a specialised expression, beside the typed terms.
fn term_expression_size(made: &[SizedNode], before: &[SizedNode], x: &Expression) -> Size
    ensures { result ≡ form made.now before.now x.now }
{
    match x {
        Expression::Unary(_, a) | Expression::Select(a, _) => expression_size(before, *a).above(),
        Expression::Binary(_, a, b) | Expression::Index(a, b) => pair_size(before, *a, *b),
        Expression::Call(a, list) | Expression::Method(a, _, list) => {
            call_size(before, *a, list.as_slice())
        }
        Expression::New(_, entries) => match entries {
            Initialiser::Positional(list) => list_size(before, list.as_slice()).above(),
            Initialiser::Named(_, list) => list_size(before, list.as_slice()).above(),
        },
        Expression::Let(block, a) => ended_size(before, block.as_slice(), *a),
        Expression::Typed(_, typed) => expression_size(made, *typed),
        _ => Size::leaf(),
    }
}

/// The size of a specialised statement.
fn term_statement_size(before: &[SizedNode], x: &Statement) -> Size
    ensures { result ≡ doing before.now x.now }
{
    match x {
        Statement::Var(names, values) => {
            let count = names.as_slice().len();
            match values {
                Some(values) => var_size(before, count, values.as_slice()),
                None => Size::of_names(count).above(),
            }
        }
        Statement::Assign(targets, values) => {
            lists_size(before, targets.as_slice(), values.as_slice())
        }
        Statement::If(test, block, other) => match other {
            Some(other) => choice_size(before, *test, block.as_slice(), other.as_slice()),
            None => guarded_size(before, *test, block.as_slice()),
        },
        Statement::While(test, block) => guarded_size(before, *test, block.as_slice()),
        Statement::Repeat(block, test) => ended_size(before, block.as_slice(), *test),
        Statement::For(_, bounds, block) => {
            loop_size(before, bounds.as_slice(), block.as_slice())
        }
        Statement::Do(block) => block_size(before, block.as_slice()).above(),
        Statement::Break => Size::leaf(),
        Statement::Return(values) => list_size(before, values.as_slice()).above(),
        Statement::Perform(a) => expression_size(before, *a).above(),
    }
}

/// The size of a specialised node, beside the typed terms.
pub(crate) fn size_term(made: &[SizedNode], before: &[SizedNode], node: &Term) -> SizedNode
    ensures { result ≡ term_sized made.now before.now node.now }
{
    match node {
        Term::Expression(_, x) => SizedNode::expression(term_expression_size(made, before, x)),
        Term::Statement(_, x) => SizedNode::statement(term_statement_size(before, x)),
        Term::Function(parameters, _, body) => {
            function_size(before, parameters.as_slice().len(), body.as_slice())
        }
    }
}

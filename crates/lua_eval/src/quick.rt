// Expressions that are evaluated at once: without a frame, and without a change of the heap. They call nothing and raise
// nothing.

ghost use Rattle.std.specs.Prelude.{◌≡◌, ◌≤◌, ℕ, [], codes, IfSome, IfNone, Option};
ghost use Rattle.tl_tree.specs.Arena.{items_of};
ghost use Rattle.tl_tree.specs.Code.{Items, name_at};
ghost use Rattle.tl_tree.specs.Nodes.{item_at};
ghost use Rattle.tl_lex.specs.Values.{value_of as literal_value};
ghost use Rattle.tl_base.specs.declared.machine.Step.TheVariants.{Return};
ghost use Rattle.lua_model.specs.declared.end.End.TheVariants.{One};
ghost use Rattle.lua_model.specs.declared.job.Job.TheVariants as jobs;
ghost use Rattle.lua_model.specs.declared.scope.Scope as scopes;
ghost use Rattle.tl_base.specs.declared.place.Place as places;
ghost use Rattle.tl_base.specs.declared.ids.NodeId as ids;
ghost use Rattle.lua_model.specs.Plans.{value_of, with_text_of, give};
ghost use Rattle.lua_model.specs.Fields.{read, read_by};
ghost use Rattle.lua_model.specs.Operators as plans;
ghost use Rattle.lua_model.specs.Expressions.{node_plan, expression_plan, index_plan, select_plan};
ghost use Rattle.lua_table.specs.LuaState.{LuaState};
ghost use Rattle.lua_table.specs.Metatables.{handler_at};
ghost use Rattle.lua_eval.specs.Slots.{ArePaths};
ghost use Rattle.lua_eval.specs.Steps.{Goes};
ghost use Rattle.lua_eval.specs.AtOnce.{EndsAtOnce};

use crate::expressions::numeral;
use crate::operators::{Operation, operation_of, whole};
use lua_model::Scope;
use lua_ops::{Arithmetic, Outcome, handler_of};
use lua_table::Heap;
use lua_table::cells::local;
use lua_value::Value;
use tl_base::{Budget, NodeId, TableId, Text};
use tl_lex::literal_value;
use tl_rename::Slots;
use tl_tree::code::name;
use tl_tree::{BinaryOperator, Expression, Node, Tree, UnaryOperator};

/// A value, and the units that are left behind its evaluation.
#[derive(Clone, Copy)]
pub struct Found {
    pub value: Value,
    pub left: u64,
}

/// How deep expressions are that are evaluated at once.
pub trait Depth {
    /// Evaluates an expression at once, of no greater depth, with so many units.
    fn find<'a>(
        tree: &'a Tree<'a>,
        slots: &Slots,
        heap: &mut Heap,
        node: NodeId,
        scope: &Scope,
        left: u64,
    ) -> Option<Found>
        requires { ArePaths (items_of tree.now) slots.now }
        ensures found { IfSome result (λ found.
            EndsAtOnce (items_of tree.now) (jobs.Expression node scope.now) (One found.value) heap.old left heap.old found.left) }
        ensures same { heap.new ≡ heap.old };
}

/// A local, a number, a text that was made before, nil, `true` or `false`.
pub struct Leaf;

impl Depth for Leaf {
    #[inline(always)]
    fn find<'a>(
        tree: &'a Tree<'a>,
        slots: &Slots,
        heap: &mut Heap,
        node: NodeId,
        scope: &Scope,
        left: u64,
    ) -> Option<Found> {
        if left == 0 {
            return None;
        }
        match leaf_value(tree, slots, heap, node, scope) {
            Some(value) => Some(Found {
                value,
                left: left - 1,
            }),
            None => None,
        }
    }
}

/// The value of a leaf.
#[inline(always)]
fn leaf_value<'a>(
    tree: &'a Tree<'a>,
    slots: &Slots,
    heap: &Heap,
    node: NodeId,
    scope: &Scope,
) -> Option<Value>
    requires { ArePaths (items_of tree.now) slots.now }
    ensures { IfSome result (λ value. (left : ℕ) →
        Goes (items_of tree.now) [] (node_plan (items_of tree.now) (item_at (items_of tree.now) node) node scope.now)
        heap.now left [] (Return (One value)) heap.now left) }
{
    match tree.node(node) {
        Node::Name(_, _, _) => match slots.path(node) {
            Some((depth, position)) => Some(local(heap, scope.env, depth, position)),
            None => None,
        },
        Node::Numeral(_, text) => Some(numeral(text)),
        Node::Literal(_, text) => literal(heap, text),
        Node::Expression(_, expression) => constant(expression),
        _ => None,
    }
}

/// The value of a literal, where its text was made before.
fn literal(heap: &Heap, text: &str) -> Option<Value>
    ensures { IfSome result (λ value. (items : Items) (left : ℕ) →
        Goes items [] (with_text_of (literal_value text.now) give) heap.now left [] (Return (One value)) heap.now left) }
{
    match literal_value(heap.allocator(), text) {
        Ok(bytes) => known_text(heap, &bytes),
        Err(_) => None,
    }
}

/// The text of bytes, where it was made before.
fn known_text(heap: &Heap, bytes: &[u8]) -> Option<Value>
    ensures { IfSome result (λ value. (items : Items) (left : ℕ) →
        Goes items [] (with_text_of bytes.now give) heap.now left [] (Return (One value)) heap.now left) }
{
    if bytes.len() > Text::MAX_LEN {
        return None;
    }
    match heap.find(bytes) {
        Some(text) => Some(Value::Text(text)),
        None => None,
    }
}

/// The value of nil, `true` or `false`.
#[inline]
fn constant(expression: &Expression) -> Option<Value>
    ensures { IfSome result (λ value. (items : Items) (n : ids.NodeId) (place : places.Place) (scope : scopes.Scope)
        (s : LuaState) (left : ℕ) →
        Goes items [] (expression_plan items expression.now n place scope) s left [] (Return (One value)) s left) }
{
    match expression {
        Expression::Nil => Some(Value::Nil),
        Expression::False => Some(Value::Boolean(false)),
        Expression::True => Some(Value::Boolean(true)),
        _ => None,
    }
}

/// What is made of expressions of a depth: an operator over them, a field of one of them, or one in parentheses.
pub struct Over<D> {
    inner: D,
}

/// The depth of the expressions that are evaluated at once.
pub type Quick = Over<Inner>;

/// The depth of what stands in an expression that is evaluated at once.
pub type Inner = Over<Over<Over<Leaf>>>;

impl<D: Depth> Depth for Over<D> {
    fn find<'a>(
        tree: &'a Tree<'a>,
        slots: &Slots,
        heap: &mut Heap,
        node: NodeId,
        scope: &Scope,
        left: u64,
    ) -> Option<Found> {
        if left == 0 {
            return None;
        }
        match tree.node(node) {
            Node::Expression(_, expression) => {
                compound::<D>(tree, slots, heap, expression, scope, left - 1)
            }
            _ => Leaf::find(tree, slots, heap, node, scope, left),
        }
    }
}

/// Evaluates an expression that is no name, number or text, whose unit is paid.
fn compound<'a, D: Depth>(
    tree: &'a Tree<'a>,
    slots: &Slots,
    heap: &mut Heap,
    expression: &'a Expression,
    scope: &Scope,
    left: u64,
) -> Option<Found>
    requires { ArePaths (items_of tree.now) slots.now }
    ensures found { IfSome result (λ found. (n : ids.NodeId) (place : places.Place) →
        Goes (items_of tree.now) [] (expression_plan (items_of tree.now) expression.now n place scope.now)
        heap.old left [] (Return (One found.value)) heap.old found.left) }
    ensures same { heap.new ≡ heap.old }
{
    match expression {
        Expression::Binary(op, a, b) => { binary::<D>(tree, slots, heap, *op, *a, *b, scope, left) }
        Expression::Unary(op, a) => unary::<D>(tree, slots, heap, *op, *a, scope, left),
        Expression::Paren(inner) => D::find(tree, slots, heap, *inner, scope, left),
        Expression::Index(object, key) => {
            index::<D>(tree, slots, heap, *object, *key, scope, left)
        }
        Expression::Select(object, key) => {
            select::<D>(tree, slots, heap, *object, *key, scope, left)
        }
        _ => match constant(expression) {
            Some(value) => Some(Found { value, left }),
            None => None,
        },
    }
}

/// Evaluates both operands of an operator, and gives its result. `and` and `or` are none of these.
fn binary<'a, D: Depth>(
    tree: &'a Tree<'a>,
    slots: &Slots,
    heap: &mut Heap,
    op: BinaryOperator,
    a: NodeId,
    b: NodeId,
    scope: &Scope,
    left: u64,
) -> Option<Found>
    requires { ArePaths (items_of tree.now) slots.now }
    ensures found { IfSome result (λ found. (place : places.Place) →
        Goes (items_of tree.now) [] (plans.binary_plan (items_of tree.now) op a b place scope.now)
        heap.old left [] (Return (One found.value)) heap.old found.left) }
    ensures same { heap.new ≡ heap.old }
{
    match op {
        BinaryOperator::And | BinaryOperator::Or => None,
        _ => both::<D>(tree, slots, heap, op, a, b, scope, left),
    }
}

/// Evaluates two operands, and gives the result of an operator between them.
fn both<'a, D: Depth>(
    tree: &'a Tree<'a>,
    slots: &Slots,
    heap: &mut Heap,
    op: BinaryOperator,
    a: NodeId,
    b: NodeId,
    scope: &Scope,
    left: u64,
) -> Option<Found>
    requires { ArePaths (items_of tree.now) slots.now }
    ensures found { IfSome result (λ found. (place : places.Place) →
        Goes (items_of tree.now) [] (value_of a scope.now (λ v. value_of b scope.now (λ w.
        plans.operate (items_of tree.now) op v w place scope.now.call)))
        heap.old left [] (Return (One found.value)) heap.old found.left) }
    ensures same { heap.new ≡ heap.old }
{
    let first = D::find(tree, slots, heap, a, scope, left)?;
    let second = D::find(tree, slots, heap, b, scope, first.left)?;
    match calculate(heap, op, first.value, second.value) {
        Some(value) => Some(Found {
            value,
            left: second.left,
        }),
        None => None,
    }
}

/// The result of an operator between two values, where it is no handler's answer.
#[inline(always)]
fn calculate(heap: &mut Heap, op: BinaryOperator, a: Value, b: Value) -> Option<Value>
    ensures value { IfSome result (λ value. (items : Items) (place : places.Place) (outer : Option places.Place) (left : ℕ) →
        Goes items [] (plans.operate items op a b place outer) heap.old left [] (Return (One value)) heap.old left) }
    ensures same { heap.new ≡ heap.old }
{
    match operation_of(op) {
        Operation::Calculates(op) => match lua_ops::arith::arith(heap, op, a, b) {
            Ok(outcome) => result_of(outcome),
            Err(_) => None,
        },
        Operation::Compares(op) => match lua_ops::compare::compare(heap, op, a, b) {
            Ok(outcome) => result_of(outcome),
            Err(_) => None,
        },
        _ => None,
    }
}

/// The result of an operator, where it is no handler's answer and no fault.
fn result_of(outcome: Outcome) -> Option<Value>
    ensures { IfSome result (λ value. outcome ≡ Outcome.Value value) }
{
    match outcome {
        Outcome::Value(value) => Some(value),
        _ => None,
    }
}

/// Evaluates the operand of an operator, and gives its result.
fn unary<'a, D: Depth>(
    tree: &'a Tree<'a>,
    slots: &Slots,
    heap: &mut Heap,
    op: UnaryOperator,
    a: NodeId,
    scope: &Scope,
    left: u64,
) -> Option<Found>
    requires { ArePaths (items_of tree.now) slots.now }
    ensures found { IfSome result (λ found. (place : places.Place) →
        Goes (items_of tree.now) [] (plans.unary_plan (items_of tree.now) op a place scope.now)
        heap.old left [] (Return (One found.value)) heap.old found.left) }
    ensures same { heap.new ≡ heap.old }
{
    let found = D::find(tree, slots, heap, a, scope, left)?;
    match calculate_one(heap, op, found.value) {
        Some(value) => Some(Found {
            value,
            left: found.left,
        }),
        None => None,
    }
}

/// The result of an operator before a value, where it is no handler's answer.
fn calculate_one(heap: &mut Heap, op: UnaryOperator, a: Value) -> Option<Value>
    ensures value { IfSome result (λ value. (items : Items) (place : places.Place) (outer : Option places.Place) (left : ℕ) →
        Goes items [] (plans.unary_at items op a place outer) heap.old left [] (Return (One value)) heap.old left) }
    ensures same { heap.new ≡ heap.old }
{
    match op {
        UnaryOperator::Not => Some(Value::Boolean(!a.is_true())),
        UnaryOperator::Length => length_of(heap, a),
        UnaryOperator::Negate => match lua_ops::arith::arith(
            heap,
            Arithmetic::Minus,
            a,
            Value::Nil,
        ) {
            Ok(outcome) => result_of(outcome),
            Err(_) => None,
        },
        _ => None,
    }
}

/// The length of a text or a table.
fn length_of(heap: &Heap, value: Value) -> Option<Value>
    ensures { IfSome result (λ length. (items : Items) (place : places.Place) (left : ℕ) →
        Goes items [] (plans.length_plan value place) heap.now left [] (Return (One length)) heap.now left) }
{
    match value {
        Value::Text(text) => Some(whole(heap.text(text).len() as u64)),
        Value::Table(table) => Some(whole(heap.border(table))),
        _ => None,
    }
}

/// Evaluates an object and a key, and gives what stands there.
fn index<'a, D: Depth>(
    tree: &'a Tree<'a>,
    slots: &Slots,
    heap: &mut Heap,
    object: NodeId,
    key: NodeId,
    scope: &Scope,
    left: u64,
) -> Option<Found>
    requires { ArePaths (items_of tree.now) slots.now }
    ensures found { IfSome result (λ found. (place : places.Place) →
        Goes (items_of tree.now) [] (index_plan object key place scope.now)
        heap.old left [] (Return (One found.value)) heap.old found.left) }
    ensures same { heap.new ≡ heap.old }
{
    let object = D::find(tree, slots, heap, object, scope, left)?;
    let key = D::find(tree, slots, heap, key, scope, object.left)?;
    field(heap, object.value, key.value, key.left)
}

/// Evaluates an object, and gives what stands there under a name.
fn select<'a, D: Depth>(
    tree: &'a Tree<'a>,
    slots: &Slots,
    heap: &mut Heap,
    object: NodeId,
    key: NodeId,
    scope: &Scope,
    left: u64,
) -> Option<Found>
    requires { ArePaths (items_of tree.now) slots.now }
    ensures found { IfSome result (λ found. (place : places.Place) →
        Goes (items_of tree.now) [] (select_plan (items_of tree.now) object key place scope.now)
        heap.old left [] (Return (One found.value)) heap.old found.left) }
    ensures same { heap.new ≡ heap.old }
{
    let object = D::find(tree, slots, heap, object, scope, left)?;
    let name = name(tree, key).as_bytes();
    named_field(heap, object.value, name, object.left)
}

/// What an object gives under a name at once with so many units.
#[inline(always)]
pub fn named_field(heap: &Heap, object: Value, name: &[u8], left: u64) -> Option<Found>
    ensures { IfSome result (λ found. (items : Items) (place : places.Place) (outer : Option places.Place) →
        Goes items [] (with_text_of name.now (λ key. read object key place outer give))
        heap.now left [] (Return (One found.value)) heap.now found.left) }
{
    if name.len() > Text::MAX_LEN {
        return None;
    }
    match heap.find(name) {
        Some(text) => field(heap, object, Value::Text(text), left),
        None => None,
    }
}

/// What an object gives under a key at once with so many units: what a table has there, or else the one that it says to read.
#[inline(always)]
fn field(heap: &Heap, object: Value, key: Value, left: u64) -> Option<Found>
    ensures { IfSome result (λ found. (items : Items) (place : places.Place) (outer : Option places.Place) →
        Goes items [] (read object key place outer give) heap.now left [] (Return (One found.value)) heap.now found.left) }
{
    match object {
        Value::Table(table) => {
            let value = heap.get(table, key.copy());
            if value.is_nil() {
                inherited(heap, table, key, left)
            } else {
                Some(Found { value, left })
            }
        }
        _ => None,
    }
}

/// What the table that another one says to read has under a key that is absent there, where that isn't nil.
#[inline(never)]
fn inherited(heap: &Heap, table: TableId, key: Value, left: u64) -> Option<Found>
    ensures { IfSome result (λ found. (items : Items) (place : places.Place) (outer : Option places.Place) →
        Goes items [] (read_by (handler_at heap.now table (codes "__index")) table key place outer give)
        heap.now left [] (Return (One found.value)) heap.now found.left) }
{
    if left == 0 {
        return None;
    }
    match handler_of(heap, &Value::Table(table), "__index") {
        Value::Table(parent) => {
            let value = heap.get(parent, key);
            if value.is_nil() {
                None
            } else {
                Some(Found {
                    value,
                    left: left - 1,
                })
            }
        }
        _ => None,
    }
}

/// Pays down to so many units.
pub fn spend(budget: &mut Budget, left: u64)
    requires { left ≤ budget.old }
    ensures { budget.new ≡ left }
{
    let units = budget.left() - left;
    budget.pay(units);
}

#[tactic(auto, using(crate::proofs::AtOnce::never_gains))]
/// Evaluates an expression at once and pays for it, where that is possible.
pub fn at_once<'a>(
    tree: &'a Tree<'a>,
    slots: &Slots,
    heap: &mut Heap,
    budget: &mut Budget,
    node: NodeId,
    scope: &Scope,
) -> Option<Value>
    requires { ArePaths (items_of tree.now) slots.now }
    ensures found { IfSome result (λ value.
        EndsAtOnce (items_of tree.now) (jobs.Expression node scope.now) (One value) heap.old budget.old heap.old budget.new) }
    ensures none { IfNone result (budget.new ≡ budget.old) }
    ensures same { heap.new ≡ heap.old }
{
    match Quick::find(tree, slots, heap, node, scope, budget.left()) {
        Some(found) => {
            spend(budget, found.left);
            Some(found.value)
        }
        None => None,
    }
}

// Constructors of tables (Lua 5.1 manual, section 2.5.7).

ghost use Rattle.std.specs.Prelude.{◌≡◌, ◌+◌, ℕ, List, ◌∷◌, true, false, IfOk, IfSome, IfNone, OnOk};
ghost use Rattle.tl_base.specs.declared.ids.NodeId as ids;
ghost use Rattle.tl_tree.specs.Arena.{items_of};
ghost use Rattle.lua_table.specs.LuaState.{LuaState};
ghost use Rattle.lua_table.specs.Keeping.{KeepsHeap};
ghost use Rattle.lua_model.specs.Fields.{store_raw};
ghost use Rattle.lua_model.specs.Plans.{LuaPlan, value_of, with_text_of};
ghost use Rattle.lua_model.specs.Tables as plans;
ghost use Rattle.tl_tree.specs.Code.{Items, name_at};
ghost use Rattle.tl_tree.specs.Nodes.{item_of};
ghost use Rattle.lua_eval.specs.Fields.{kind_of_field, field_by};
ghost use Rattle.lua_eval.specs.Frames.{fields_from, with_field};
ghost use Rattle.tl_base.specs.declared.place.Place as places;
ghost use Rattle.lua_eval.specs.AtOnce.{Becomes};
ghost use Rattle.lua_eval.specs.Slots.{ArePaths};
ghost use Rattle.lua_eval.specs.Steps.{Goes};

use crate::frame::{AllFrame, FieldFrame, LuaFrame, OneFrame, TableFrame};
use crate::lists::enter_below;
use crate::operators::whole;
use crate::quick::at_once;
use crate::raise::{LuaStep, raise, text_value};
use lua_model::{End, Job, Scope};
use lua_ops::Fault;
use lua_table::Heap;
use lua_value::Value;
use tl_base::{Budget, NoMemory, NodeId, Place, Step, TableId, Text};
use tl_rename::Slots;
use tl_tree::code::name;
use tl_tree::{Node, Piece, Tree};

#[tactic(auto, using(crate::proofs::Numbering::stored_next, crate::proofs::Numbering::full_is_within))]
/// Stores values under the numbers from one on, as far as these are in the profile.
pub fn store_values(
    heap: &mut Heap,
    table: TableId,
    from: u64,
    values: &[Value],
) -> Result<(), NoMemory>
    ensures ok { OnOk result (heap.new ≡ plans.with_values table from values.now heap.old) }
    ensures kept { OnOk result (KeepsHeap heap.old heap.new) }
{
    let mut at = from;
    'values: for value in values {
        let key = whole(at);
        // From here on all numbers are out of the profile.
        if key.is_nil() {
            return Ok(());
        }
        heap.store(table, key, *value)?;
        at += 1;
    }
    Ok(())
}

/// What a field is.
#[derive(Clone, Copy)]
pub enum FieldKind {
    /// With a name and a value.
    Named(NodeId, NodeId),
    /// With a key and a value.
    Keyed(NodeId, NodeId),
    /// A value alone.
    Listed,
}

/// What the field is that a node is.
fn field_kind(node: &Node<'_>) -> FieldKind
    ensures { result ≡ kind_of_field (item_of node.now) }
{
    match node {
        Node::Piece(Piece::NamedField(name, value)) => FieldKind::Named(*name, *value),
        Node::Piece(Piece::KeyedField(key, value)) => FieldKind::Keyed(*key, *value),
        _ => FieldKind::Listed,
    }
}

/// Fields that are left, and the number of the next one without a key.
#[derive(Clone, Copy)]
struct Remaining<'a> {
    rest: &'a [NodeId],
    next: u64,
}

/// Evaluates and stores the fields that are left.
pub fn fields<'a>(
    tree: &'a Tree<'a>,
    slots: &Slots,
    frames: &mut Vec<LuaFrame<'a>>,
    heap: &mut Heap,
    budget: &mut Budget,
    rest: &'a [NodeId],
    table: TableId,
    next: u64,
    place: Place,
    scope: Scope,
) -> Result<LuaStep, NoMemory>
    requires { ArePaths (items_of tree.now) slots.now }
    ensures means { IfOk result (λ step.
        Goes (items_of tree.now) frames.old.items
        (plans.fields (items_of tree.now) rest.now table next place scope)
        heap.old budget.old frames.new.items step heap.new budget.new) }
    ensures kept { OnOk result (KeepsHeap heap.old heap.new) }
{
    let fields = Remaining { rest, next };
    let left = fields_at_once(tree, slots, heap, budget, fields, table, &scope)?;
    fields_left(tree, frames, left.rest, table, left.next, place, scope)
}

/// Evaluates and stores fields at once, as far as that is possible, and pays for them. It gives those that are left.
fn fields_at_once<'a>(
    tree: &'a Tree<'a>,
    slots: &Slots,
    heap: &mut Heap,
    budget: &mut Budget,
    fields: Remaining<'a>,
    table: TableId,
    scope: &Scope,
) -> Result<Remaining<'a>, NoMemory>
    requires { ArePaths (items_of tree.now) slots.now }
    ensures passes { IfOk result (λ left. (place : places.Place) →
        Becomes (items_of tree.now)
        (plans.fields (items_of tree.now) fields.entry.rest.now table fields.entry.next place scope.now)
        heap.old budget.old
        (plans.fields (items_of tree.now) left.rest.now table left.next place scope.now) heap.new budget.new) }
    ensures kept { OnOk result (KeepsHeap heap.old heap.new) }
{
    let mut rest = fields.rest;
    let mut next = fields.next;
    'fields: for _ in 0..fields.rest.len() {
        match rest.split_first() {
            None => return Ok(Remaining { rest, next }),
            Some((first, more)) => {
                let done = field_at_once(tree, slots, heap, budget, *first, table, next, scope)?;
                match done {
                    None => return Ok(Remaining { rest, next }),
                    Some(behind) => {
                        rest = more;
                        next = behind;
                    }
                }
            }
        }
    }
    Ok(Remaining { rest, next })
}

/// Evaluates and stores a field at once, where that is possible, and pays for it. It gives the number of the next field without a
/// key.
fn field_at_once<'a>(
    tree: &'a Tree<'a>,
    slots: &Slots,
    heap: &mut Heap,
    budget: &mut Budget,
    node: NodeId,
    table: TableId,
    next: u64,
    scope: &Scope,
) -> Result<Option<u64>, NoMemory>
    requires { ArePaths (items_of tree.now) slots.now }
    ensures passes { IfOk result (λ r. IfSome r (λ behind. (rest : List ids.NodeId) (place : places.Place) →
        Becomes (items_of tree.now) (plans.fields (items_of tree.now) (node ∷ rest) table next place scope.now)
        heap.old budget.old (plans.fields (items_of tree.now) rest table behind place scope.now) heap.new budget.new)) }
    ensures heap { IfOk result (λ r. IfNone r (heap.new ≡ heap.old)) }
    ensures budget { IfOk result (λ r. IfNone r (budget.new ≡ budget.old)) }
    ensures kept { OnOk result (KeepsHeap heap.old heap.new) }
{
    match field_kind(tree.node(node)) {
        FieldKind::Named(key, value) => {
            if named_at_once(tree, slots, heap, budget, key, value, table, scope)? {
                Ok(Some(next))
            } else {
                Ok(None)
            }
        }
        FieldKind::Keyed(_, _) => Ok(None),
        FieldKind::Listed => match at_once(tree, slots, heap, budget, node, scope) {
            None => Ok(None),
            Some(value) => {
                store_values(heap, table, next, &[value])?;
                let behind = following(next)?;
                Ok(Some(behind))
            }
        },
    }
}

/// Evaluates and stores a field with a name at once, and pays for it, where that is possible.
fn named_at_once<'a>(
    tree: &'a Tree<'a>,
    slots: &Slots,
    heap: &mut Heap,
    budget: &mut Budget,
    key: NodeId,
    value: NodeId,
    table: TableId,
    scope: &Scope,
) -> Result<bool, NoMemory>
    requires { ArePaths (items_of tree.now) slots.now }
    ensures passes { IfOk result (λ done. done ≡ true → (place : places.Place) (go : LuaPlan) →
        Becomes (items_of tree.now) (value_of value scope.now (λ v.
        with_text_of (name_at (items_of tree.now) key) (λ k. store_raw table k v place go)))
        heap.old budget.old go heap.new budget.new) }
    ensures heap { IfOk result (λ done. done ≡ false → heap.new ≡ heap.old) }
    ensures budget { IfOk result (λ done. done ≡ false → budget.new ≡ budget.old) }
    ensures kept { OnOk result (KeepsHeap heap.old heap.new) }
{
    let bytes = name(tree, key).as_bytes();
    // A name that is too long is no key.
    if bytes.len() > Text::MAX_LEN {
        return Ok(false);
    }
    match at_once(tree, slots, heap, budget, value, scope) {
        None => Ok(false),
        Some(value) => {
            let text = heap.intern(bytes)?;
            heap.store(table, Value::Text(text), value)?;
            Ok(true)
        }
    }
}

/// Evaluates and stores the fields that are left, of which the first isn't evaluated at once.
pub fn fields_left<'a>(
    tree: &'a Tree<'a>,
    frames: &mut Vec<LuaFrame<'a>>,
    rest: &'a [NodeId],
    table: TableId,
    next: u64,
    place: Place,
    scope: Scope,
) -> Result<LuaStep, NoMemory>
    ensures means { IfOk result (λ step. (s : LuaState) (left : ℕ) →
        Goes (items_of tree.now) frames.old.items
        (plans.fields (items_of tree.now) rest.now table next place scope) s left frames.new.items step s left) }
{
    match rest.split_first() {
        None => Ok(Step::Return(End::One(Value::Table(table)))),
        Some((first, more)) => {
            let frame = TableFrame {
                table,
                next,
                rest: more,
                place,
                scope,
            };
            let kind = field_kind(tree.node(*first));
            field(frames, *first, frame, kind)
        }
    }
}

#[tactic(auto, using(tl_base::proofs::Steps::pushes))]
/// Evaluates and stores a field, and those behind it.
fn field<'a>(
    frames: &mut Vec<LuaFrame<'a>>,
    node: NodeId,
    frame: TableFrame<'a>,
    kind: FieldKind,
) -> Result<LuaStep, NoMemory>
    ensures means { IfOk result (λ step. (items : Items) (s : LuaState) (left : ℕ) →
        Goes items frames.old.items (field_by items kind node frame.entry) s left frames.new.items step s left) }
{
    match kind {
        FieldKind::Named(name, value) => {
            frames.push(LuaFrame::One(OneFrame::Field(frame, FieldFrame::Named(name))))?;
            Ok(Step::Enter(Job::Expression(value, frame.scope)))
        }
        FieldKind::Keyed(key, value) => {
            frames.push(LuaFrame::One(OneFrame::Field(frame, FieldFrame::Key(value))))?;
            Ok(Step::Enter(Job::Expression(key, frame.scope)))
        }
        FieldKind::Listed => { listed_field(frames, node, frame) }
    }
}

/// Evaluates and stores a field without a key, and those behind it.
fn listed_field<'a>(
    frames: &mut Vec<LuaFrame<'a>>,
    node: NodeId,
    frame: TableFrame<'a>,
) -> Result<LuaStep, NoMemory>
    ensures means { IfOk result (λ step. (items : Items) (s : LuaState) (left : ℕ) →
        Goes items frames.old.items (field_by items FieldKind.Listed node frame.entry) s left
        frames.new.items step s left) }
{
    let job = Job::Expression(node, frame.scope);
    // The last one gives all its values, and any other one gives one.
    if frame.rest.is_empty() {
        let last = enter_below(frames, LuaFrame::All(AllFrame::LastField(frame)), job)?;
        return Ok(last);
    }
    let field = LuaFrame::One(OneFrame::Field(frame, FieldFrame::Next));
    let entered = enter_below(frames, field, job)?;
    Ok(entered)
}

#[tactic(auto, using(tl_base::proofs::Steps::pushes))]
/// Stores a field under a key, and goes on with the fields behind it.
fn store_field<'a>(
    tree: &'a Tree<'a>,
    frames: &mut Vec<LuaFrame<'a>>,
    heap: &mut Heap,
    budget: &mut Budget,
    frame: TableFrame<'a>,
    key: Value,
    value: Value,
) -> Result<LuaStep, NoMemory>
    ensures means { IfOk result (λ step.
        Goes (items_of tree.now) frames.old.items
        (store_raw frame.entry.table key value frame.entry.place
        (fields_from (items_of tree.now) frame.entry frame.entry.next))
        heap.old budget.old frames.new.items step heap.new budget.new) }
    ensures kept { OnOk result (KeepsHeap heap.old heap.new) }
{
    if key.is_nil() {
        let raised = raise(heap, budget, frame.place, Fault::NilKey)?;
        return Ok(raised);
    }
    heap.store(frame.table, key, value)?;
    fields_left(
        tree,
        frames,
        frame.rest,
        frame.table,
        frame.next,
        frame.place,
        frame.scope,
    )
}

/// Stores the value of a field with a name, and goes on with the fields behind it.
fn named_field<'a>(
    tree: &'a Tree<'a>,
    frames: &mut Vec<LuaFrame<'a>>,
    heap: &mut Heap,
    budget: &mut Budget,
    frame: TableFrame<'a>,
    node: NodeId,
    value: Value,
) -> Result<LuaStep, NoMemory>
    ensures means { IfOk result (λ step.
        Goes (items_of tree.now) frames.old.items
        (with_field (items_of tree.now) frame.entry (FieldFrame.Named node) value)
        heap.old budget.old frames.new.items step heap.new budget.new) }
    ensures kept { OnOk result (KeepsHeap heap.old heap.new) }
{
    let key = text_value(heap, name(tree, node).as_bytes())?;
    store_field(tree, frames, heap, budget, frame, key, value)
}

/// The number behind another. No tree has so many fields that there is none.
fn following(number: u64) -> Result<u64, NoMemory>
    ensures { IfOk result (λ next. next ≡ number + 1) }
{
    match number.checked_add(1) {
        Some(next) => Ok(next),
        None => Err(NoMemory),
    }
}

/// Stores the value of a field without a key, and goes on with the fields behind it.
fn numbered_field<'a>(
    tree: &'a Tree<'a>,
    frames: &mut Vec<LuaFrame<'a>>,
    heap: &mut Heap,
    budget: &mut Budget,
    frame: TableFrame<'a>,
    value: Value,
) -> Result<LuaStep, NoMemory>
    ensures means { IfOk result (λ step.
        Goes (items_of tree.now) frames.old.items
        (with_field (items_of tree.now) frame.entry FieldFrame.Next value)
        heap.old budget.old frames.new.items step heap.new budget.new) }
    ensures kept { OnOk result (KeepsHeap heap.old heap.new) }
{
    store_values(heap, frame.table, frame.next, &[value])?;
    let next = following(frame.next)?;
    fields_left(
        tree,
        frames,
        frame.rest,
        frame.table,
        next,
        frame.place,
        frame.scope,
    )
}

#[tactic(auto, using(tl_base::proofs::Steps::pushes))]
/// Goes on with a field, of which something was evaluated.
pub fn with_field<'a>(
    tree: &'a Tree<'a>,
    frames: &mut Vec<LuaFrame<'a>>,
    heap: &mut Heap,
    budget: &mut Budget,
    frame: TableFrame<'a>,
    wait: FieldFrame,
    value: Value,
) -> Result<LuaStep, NoMemory>
    ensures means { IfOk result (λ step.
        Goes (items_of tree.now) frames.old.items (with_field (items_of tree.now) frame.entry wait value)
        heap.old budget.old frames.new.items step heap.new budget.new) }
    ensures kept { OnOk result (KeepsHeap heap.old heap.new) }
{
    match wait {
        FieldFrame::Next => { numbered_field(tree, frames, heap, budget, frame, value) }
        FieldFrame::Named(node) => { named_field(tree, frames, heap, budget, frame, node, value) }
        FieldFrame::Key(node) => {
            frames.push(LuaFrame::One(OneFrame::Field(frame, FieldFrame::Under(value))))?;
            Ok(Step::Enter(Job::Expression(node, frame.scope)))
        }
        FieldFrame::Under(key) => { store_field(tree, frames, heap, budget, frame, key, value) }
    }
}

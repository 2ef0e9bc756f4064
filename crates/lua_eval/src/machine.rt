// The machine: how tasks and jobs begin, and how frames go on.

ghost use Rattle.std.specs.Prelude.{◌≡◌, ℕ, List, None, IfOk, OnOk, true, false};
ghost use Rattle.tl_base.specs.Plan.{Give};
ghost use Rattle.tl_tree.specs.Code.{Items};
ghost use Rattle.lua_table.specs.LuaState.{LuaState};
ghost use Rattle.lua_model.specs.Plans.{scope_at, alone, on_one, on_all, on_fell, statements};
ghost use Rattle.lua_model.specs.Fields.{read};
ghost use Rattle.lua_model.specs.Meaning.{chunk_plan};
ghost use Rattle.lua_model.specs.Calls.{returned};
ghost use Rattle.lua_model.specs.Loops.{after_turn};
ghost use Rattle.tl_tree.specs.Arena.{items_of};
ghost use Rattle.lua_table.specs.Keeping.{KeepsHeap};
ghost use Rattle.lua_eval.specs.Slots.{ArePaths};
ghost use Rattle.lua_eval.specs.Frames.{lua_rules, with_one, with_all, next_turn, is_go};
ghost use Rattle.lua_eval.specs.Steps.{Goes};

use crate::assignments::{define_name, stores, targets, with_target};
use crate::callees::with_call;
use crate::calls::{call, call_closure, statements};
use crate::expressions::{node, with_value};
use crate::fields::{read, store};
use crate::frame::{AllFrame, LuaFrame, OneFrame, TurnFrame, ValueFrame};
use crate::lists::{list, with_list};
use crate::loops::{listed, next_turn, with_loop};
use crate::raise::LuaStep;
use crate::statements::{block, statement, target, with_statement};
use crate::tables::{store_values, with_field};
use crate::turns::begin_turn;
use crate::values::{one, split_values};
use crate::waiting::{proceed, take_all};
use lua_model::{Caller, End, Job, LuaAnswer, LuaEnd, LuaJob, LuaQuestion, Scope};
use lua_table::Heap;
use lua_value::{Value, Values};
use std::alloc::Global;
use tl_base::{Budget, CellId, EnvId, Machine, NoMemory, NodeId, Place, Step};
use tl_rename::Slots;
use tl_tree::Tree;
use tl_tree::code::block_statements;

/// The steps of the evaluation of Lua code.
#[derive(Drop)]
pub(crate) struct Steps<'a> {
    alloc: Global,
    tree: &'a Tree<'a>,
    slots: &'a Slots,
    ghost resolved: { ArePaths (items_of tree.now) slots.now },
}

/// A scope that no function was called for.
fn scope_at(env: EnvId) -> Scope
    ensures { result ≡ scope_at env }
{
    Scope {
        env,
        extra: CellId(0),
        count: 0,
        call: None,
    }
}

#[tactic(auto, using(tl_base::proofs::Steps::pushes))]
/// Goes on with what waited for one value.
fn with_one<'a>(
    tree: &'a Tree<'a>,
    slots: &Slots,
    frames: &mut Vec<LuaFrame<'a>>,
    heap: &mut Heap,
    budget: &mut Budget,
    frame: OneFrame<'a>,
    value: Value,
) -> Result<LuaStep, NoMemory>
    requires { ArePaths (items_of tree.now) slots.now }
    ensures means { IfOk result (λ step.
        Goes (items_of tree.now) frames.old.items (with_one (items_of tree.now) frame.entry value)
        heap.old budget.old frames.new.items step heap.new budget.new) }
    ensures kept { OnOk result (KeepsHeap heap.old heap.new) }
{
    match frame {
        OneFrame::Value(frame) => { with_value(tree, slots, frames, heap, budget, frame, value) }
        OneFrame::Item(frame) => {
            let mut values = frame.values;
            values.push(value)?;
            list(
                tree,
                slots,
                frames,
                heap,
                budget,
                frame.rest,
                frame.scope,
                values,
                frame.then,
            )
        }
        OneFrame::Call(frame) => { with_call(tree, slots, frames, heap, budget, &frame, value) }
        OneFrame::Field(frame, wait) => {
            with_field(tree, frames, heap, budget, frame, wait, value)
        }
        OneFrame::Target(frame) => { with_target(tree, frames, heap, budget, &frame, value) }
        OneFrame::Loop(frame) => { with_loop(frames, heap, budget, frame, value) }
        OneFrame::Statement(frame) => { with_statement(tree, frames, heap, frame, value) }
    }
}

#[tactic(auto, using(tl_base::proofs::Steps::pushes))]
/// Goes on with what waited for all values.
fn with_all<'a>(
    tree: &'a Tree<'a>,
    slots: &Slots,
    frames: &mut Vec<LuaFrame<'a>>,
    heap: &mut Heap,
    budget: &mut Budget,
    frame: AllFrame<'a>,
    more: Values,
) -> Result<LuaStep, NoMemory>
    requires { ArePaths (items_of tree.now) slots.now }
    ensures means { IfOk result (λ step.
        Goes (items_of tree.now) frames.old.items (with_all (items_of tree.now) frame.entry more)
        heap.old budget.old frames.new.items step heap.new budget.new) }
    ensures kept { OnOk result (KeepsHeap heap.old heap.new) }
{
    match frame {
        AllFrame::Last(frame) => {
            let mut values = frame.values;
            values.push_all(more.as_slice())?;
            with_list(
                tree,
                slots,
                frames,
                heap,
                budget,
                frame.scope,
                values,
                frame.then,
            )
        }
        AllFrame::LastField(frame) => {
            store_values(heap, frame.table, frame.next, more.as_slice())?;
            Ok(Step::Return(End::One(Value::Table(frame.table))))
        }
        AllFrame::Target(rest, all, values, scope, before) => {
            let mut held = before;
            held.push_all(more.as_slice())?;
            targets(
                tree, slots, frames, heap, budget, rest, all, values, scope, held,
            )
        }
        AllFrame::Stores(all, scope, held, values, left) => {
            stores(
                tree, slots, frames, heap, budget, all, scope, held, values, left,
            )
        }
        AllFrame::Name(name, function, scope) => {
            define_name(tree, slots, frames, heap, budget, name, function, scope)
        }
        AllFrame::Listed(node, names, scope, function, state, out) => {
            listed(
                heap,
                node,
                names,
                scope,
                function,
                state,
                more.as_slice(),
                out,
            )
        }
        AllFrame::Done => Ok(Step::Return(End::Fell(Values::new(heap.allocator())))),
        AllFrame::Wait(wait, scope) => take_all(heap, &scope, wait, more.as_slice()),
    }
}

#[tactic(auto, using(tl_base::proofs::Steps::pushes))]
/// Goes on with what waited for one value, given how what gives it ended.
fn after_one<'a>(
    tree: &'a Tree<'a>,
    slots: &Slots,
    frames: &mut Vec<LuaFrame<'a>>,
    heap: &mut Heap,
    budget: &mut Budget,
    frame: OneFrame<'a>,
    end: End,
) -> Result<LuaStep, NoMemory>
    requires { ArePaths (items_of tree.now) slots.now }
    ensures means { IfOk result (λ step.
        Goes (items_of tree.now) frames.old.items (on_one end (λ v. with_one (items_of tree.now) frame.entry v))
        heap.old budget.old frames.new.items step heap.new budget.new) }
    ensures kept { OnOk result (KeepsHeap heap.old heap.new) }
{
    match end {
        End::One(value) => { with_one(tree, slots, frames, heap, budget, frame, value) }
        End::Many(values) => {
            let (value, _) = split_values(values.as_slice());
            with_one(tree, slots, frames, heap, budget, frame, value)
        }
        End::Raised(value, place) => Ok(Step::Return(End::Raised(value, place))),
        _ => { with_one(tree, slots, frames, heap, budget, frame, Value::Nil) }
    }
}

#[tactic(auto, using(tl_base::proofs::Steps::pushes))]
/// Goes on with what waited for all values, given how what gives them ended.
fn after_all<'a>(
    tree: &'a Tree<'a>,
    slots: &Slots,
    frames: &mut Vec<LuaFrame<'a>>,
    heap: &mut Heap,
    budget: &mut Budget,
    frame: AllFrame<'a>,
    end: End,
) -> Result<LuaStep, NoMemory>
    requires { ArePaths (items_of tree.now) slots.now }
    ensures means { IfOk result (λ step.
        Goes (items_of tree.now) frames.old.items (on_all end (λ vs. with_all (items_of tree.now) frame.entry vs))
        heap.old budget.old frames.new.items step heap.new budget.new) }
    ensures kept { OnOk result (KeepsHeap heap.old heap.new) }
{
    match end {
        End::One(value) => {
            let values = one(heap.allocator(), value)?;
            with_all(tree, slots, frames, heap, budget, frame, values)
        }
        End::Many(values) => { with_all(tree, slots, frames, heap, budget, frame, values) }
        End::Raised(value, place) => Ok(Step::Return(End::Raised(value, place))),
        _ => {
            let none = Values::new(heap.allocator());
            with_all(tree, slots, frames, heap, budget, frame, none)
        }
    }
}

#[tactic(auto, using(tl_base::proofs::Steps::pushes))]
/// Goes on behind a turn of a loop, whose block ended so.
fn after_turn<'a>(
    tree: &'a Tree<'a>,
    frames: &mut Vec<LuaFrame<'a>>,
    heap: &mut Heap,
    budget: &mut Budget,
    node: NodeId,
    scope: Scope,
    frame: &TurnFrame<'a>,
    end: End,
) -> Result<LuaStep, NoMemory>
    ensures means { IfOk result (λ step.
        Goes (items_of tree.now) frames.old.items
        (after_turn end (λ out. next_turn (items_of tree.now) node scope frame.now out))
        heap.old budget.old frames.new.items step heap.new budget.new) }
    ensures kept { OnOk result (KeepsHeap heap.old heap.new) }
{
    match end {
        End::Fell(out) => { next_turn(tree, frames, heap, budget, node, scope, frame, out) }
        End::Broke(out) => Ok(Step::Return(End::Fell(out))),
        End::Returned(values, out) => Ok(Step::Return(End::Returned(values, out))),
        End::Raised(value, place) => Ok(Step::Return(End::Raised(value, place))),
        End::One(_) | End::Many(_) => {
            let none = Values::new(heap.allocator());
            next_turn(tree, frames, heap, budget, node, scope, frame, none)
        }
    }
}

#[tactic(auto, using(tl_base::proofs::Steps::pushes))]
/// Goes on with a block, of which a statement ended so.
fn after_statement<'a>(
    tree: &'a Tree<'a>,
    slots: &Slots,
    frames: &mut Vec<LuaFrame<'a>>,
    heap: &mut Heap,
    budget: &mut Budget,
    rest: &'a [NodeId],
    scope: Scope,
    before: Values,
    end: End,
) -> Result<LuaStep, NoMemory>
    requires { ArePaths (items_of tree.now) slots.now }
    ensures means { IfOk result (λ step.
        Goes (items_of tree.now) frames.old.items (on_fell end before Give (λ all. statements rest.now scope all Give))
        heap.old budget.old frames.new.items step heap.new budget.new) }
    ensures kept { OnOk result (KeepsHeap heap.old heap.new) }
{
    let mut out = before;
    match end {
        End::Fell(more) => {
            out.push_all(more.as_slice())?;
            proceed(tree, slots, frames, heap, budget, rest, scope, out)
        }
        End::Broke(more) => {
            out.push_all(more.as_slice())?;
            Ok(Step::Return(End::Broke(out)))
        }
        End::Returned(values, more) => {
            out.push_all(more.as_slice())?;
            Ok(Step::Return(End::Returned(values, out)))
        }
        End::Raised(value, place) => Ok(Step::Return(End::Raised(value, place))),
        _ => { proceed(tree, slots, frames, heap, budget, rest, scope, out) }
    }
}

/// What a call gives when the block of its function ended so.
fn returned(heap: &Heap, end: End) -> End
    ensures { result ≡ returned end }
{
    match end {
        End::Returned(values, _) => End::Many(values),
        End::Many(values) => End::Many(values),
        End::Fell(_) | End::Broke(_) => End::Many(Values::new(heap.allocator())),
        End::One(value) => End::One(value),
        End::Raised(value, place) => End::Raised(value, place),
    }
}

/// Begins the chunk.
fn chunk<'a>(
    tree: &'a Tree<'a>,
    frames: &mut Vec<LuaFrame<'a>>,
    heap: &mut Heap,
) -> Result<LuaStep, NoMemory>
    ensures means { IfOk result (λ step. (left : ℕ) →
        Goes (items_of tree.now) frames.old.items (chunk_plan (items_of tree.now)) heap.old left
        frames.new.items step heap.new left) }
    ensures kept { OnOk result (KeepsHeap heap.old heap.new) }
{
    let root = tree.root();
    let env = heap.new_env(root, None)?;
    let none = Values::new(heap.allocator());
    let begun = statements(frames, block_statements(tree, root), scope_at(env), none)?;
    Ok(begun)
}

/// Reads a key of a value, which is all that is asked for.
fn read_alone<'a>(
    frames: &mut Vec<LuaFrame<'a>>,
    heap: &mut Heap,
    budget: &mut Budget,
    object: Value,
    key: Value,
    place: Place,
) -> Result<LuaStep, NoMemory>
    ensures means { IfOk result (λ step. (items : Items) →
        Goes items frames.old.items (read object key place None alone)
        heap.old budget.old frames.new.items step heap.new budget.new) }
    ensures kept { OnOk result (KeepsHeap heap.old heap.new) }
{
    frames.push(LuaFrame::One(OneFrame::Value(ValueFrame::Alone)))?;
    let found = read(frames, heap, budget, object, key, place, None)?;
    Ok(found)
}

impl<'a> Steps<'a> {
    /// The steps over a tree, whose uses of locals have these slots.
    pub(crate) fn new(alloc: Global, tree: &'a Tree<'a>, slots: &'a Slots) -> Steps<'a>
        requires { ArePaths (items_of tree.now) slots.now }
        ensures { result.tree.now ≡ tree.now }
    {
        Steps { alloc, tree, slots }
    }
}

impl<'a> Machine for Steps<'a> {
    ghost use Rattle.lua_table.proofs.Keeping.{keeps_itself, keeps_then};

    type World = Heap;

    type Task = LuaJob;

    type Job = Job;

    type Frame = LuaFrame<'a>;

    type Question = LuaQuestion;

    type Answer = LuaAnswer;

    type Return = End;

    type End = LuaEnd;

    ghost rules = { λ steps. lua_rules (items_of steps.tree.now) };

    ghost keeps = { KeepsHeap };

    ghost is_go = { is_go };

    ghost keeps_self = { keeps_itself };

    ghost keeps_on = { keeps_then };

    #[tactic(auto, using(tl_base::proofs::Steps::pushes))]
    fn open(
        &self,
        frames: &mut Vec<LuaFrame<'a>>,
        heap: &mut Heap,
        budget: &mut Budget,
        task: LuaJob,
    ) -> Result<LuaStep, NoMemory> {
        match task {
            LuaJob::Chunk => { chunk(self.tree, frames, heap) }
            LuaJob::Call(function, args, place) => {
                let by = Caller::ByOther;
                call(
                    self.tree,
                    frames,
                    heap,
                    budget,
                    by,
                    function,
                    args,
                    place,
                    Some(place),
                )
            }
            LuaJob::Expr(node, env) => {
                frames.push(LuaFrame::One(OneFrame::Value(ValueFrame::Alone)))?;
                Ok(Step::Enter(Job::Expression(node, scope_at(env))))
            }
            LuaJob::Emitted(node, env) => { block(self.tree, frames, heap, node, scope_at(env)) }
            LuaJob::Index(object, text, place) => {
                read_alone(frames, heap, budget, object, Value::Text(text), place)
            }
        }
    }

    #[tactic(auto, using(tl_base::proofs::Steps::pushes))]
    fn begin(
        &self,
        frames: &mut Vec<LuaFrame<'a>>,
        heap: &mut Heap,
        budget: &mut Budget,
        job: Job,
    ) -> Result<LuaStep, NoMemory> {
        match job {
            Job::Expression(id, scope) => {
                node(self.tree, self.slots, frames, heap, budget, id, scope)
            }
            Job::Statement(id, scope) => {
                statement(self.tree, self.slots, frames, heap, budget, id, scope)
            }
            Job::Target(id, scope) => { target(self.tree, frames, heap, id, scope) }
            Job::Turn(id, scope, kind, out) => {
                begin_turn(
                    self.tree, self.slots, frames, heap, budget, id, scope, kind, out,
                )
            }
            Job::Callback(closure, args, place) => {
                call_closure(self.tree, frames, heap, budget, closure, args, place)
            }
            Job::Read(object, key, place, outer) => {
                read(frames, heap, budget, object, key, place, outer)
            }
            Job::Store(object, key, value, place, outer) => {
                store(frames, heap, budget, object, key, value, place, outer)
            }
        }
    }

    #[tactic(auto, using(tl_base::proofs::Steps::pushes))]
    fn go_on(
        &self,
        frames: &mut Vec<LuaFrame<'a>>,
        heap: &mut Heap,
        budget: &mut Budget,
        frame: LuaFrame<'a>,
        end: End,
    ) -> Result<LuaStep, NoMemory> {
        match frame {
            LuaFrame::One(frame) => {
                after_one(self.tree, self.slots, frames, heap, budget, frame, end)
            }
            LuaFrame::All(frame) => {
                after_all(self.tree, self.slots, frames, heap, budget, frame, end)
            }
            LuaFrame::Library => {
                heap.end_call();
                Ok(Step::Return(end))
            }
            LuaFrame::Function => {
                heap.end_call();
                Ok(Step::Return(returned(heap, end)))
            }
            LuaFrame::Turn(node, scope, kind) => {
                after_turn(self.tree, frames, heap, budget, node, scope, &kind, end)
            }
            LuaFrame::Block(rest, scope, out) => {
                after_statement(
                    self.tree, self.slots, frames, heap, budget, rest, scope, out, end,
                )
            }
        }
    }

    fn reply(&self, answer: LuaAnswer) -> End {
        match answer {
            LuaAnswer::Go => End::Many(Values::new(self.alloc)),
            LuaAnswer::Values(values) => End::Many(values),
            LuaAnswer::Raise(value, place) => End::Raised(value, place),
        }
    }

    fn close(&self, end: End) -> LuaEnd {
        match end {
            // Nothing that is asked for ends so.
            End::One(_) => LuaEnd::Done(Values::new(self.alloc)),
            End::Many(values) => LuaEnd::Done(values),
            End::Fell(out) | End::Broke(out) => LuaEnd::Done(out),
            End::Returned(_, out) => LuaEnd::Done(out),
            End::Raised(value, place) => LuaEnd::Raised(value, place),
        }
    }
}

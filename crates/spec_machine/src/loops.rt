// `for`, `while` and `repeat`.

ghost use Rattle.std.specs.Prelude.{◌≡◌, ℕ, [], ◌∷◌, ◌++◌, IfOk, OnOk};
ghost use Rattle.tl_tree.specs.Arena.{items_of};
ghost use Rattle.tl_tree.specs.Code.{Items, if_any};
ghost use Rattle.exotype.specs.World.{StageState};
ghost use Rattle.spec_model.specs.Statements as plans;
ghost use Rattle.tl_tree.specs.declared.node.TerraStatement.TheVariants as tree_statements;
ghost use Rattle.spec_machine.specs.Frames.{bounds_from, for_plan_of};
ghost use Rattle.spec_machine.specs.Keeping.{KeepsStage};
ghost use Rattle.spec_machine.specs.Steps.{Goes};

use crate::blocks::{entered, statements};
use crate::code::escaped;
use crate::frame::{BlockThen, ForFrame, SpecFrame, TermFrame, ValueFrame};
use crate::making::{new_env, new_symbol};
use crate::names::declare;
use crate::reached::SpecStep;
use exotype::World;
use lua_value::Value;
use spec_model::{Job, SpecQuestion};
use tl_base::{Budget, EnvId, List, NoMemory, NodeId, Place, Step, SymId, TermId};
use tl_tree::Tree;
use tl_tree::code::{block_statements, place};

/// Specialises a `for`: an escape in its name's place goes before the bounds.
pub fn for_loop<'a>(
    tree: &'a Tree<'a>,
    frames: &mut Vec<SpecFrame<'a>>,
    world: &World,
    node: NodeId,
    name: NodeId,
    first: NodeId,
    limit: NodeId,
    step: Option<NodeId>,
    block: NodeId,
    at: Place,
    env: EnvId,
) -> Result<SpecStep, NoMemory>
    ensures means { IfOk result (λ next. (left : ℕ) →
        Goes (items_of tree.now) frames.old.items
        (plans.statement_of (items_of tree.now) (tree_statements.For name first limit step block) node at env)
        world.now left frames.new.items next world.now left) }
{
    let frame = ForFrame {
        node,
        symbol: None,
        at: place(tree, name),
        block,
        place: at,
        env,
    };
    match escaped(tree, name) {
        Some(code) => {
            let value = ValueFrame::ForName(first, limit, step, frame);
            frames.push(SpecFrame::Value(value))?;
            Ok(Step::Stop(SpecQuestion::Eval(code, env)))
        }
        None => bounds(frames, world, first, limit, step, frame),
    }
}

/// Specialises the bounds of a `for`.
pub fn bounds<'a>(
    frames: &mut Vec<SpecFrame<'a>>,
    world: &World,
    first: NodeId,
    limit: NodeId,
    step: Option<NodeId>,
    frame: ForFrame,
) -> Result<SpecStep, NoMemory>
    ensures means { IfOk result (λ next. (items : Items) (w : StageState) (left : ℕ) →
        Goes items frames.old.items (bounds_from items frame (first ∷ limit ∷ if_any step) [])
        w left frames.new.items next w left) }
{
    let none = List::new(world.heap.allocator());
    let bound = TermFrame::Bound(Some(limit), step, none, frame);
    frames.push(SpecFrame::Term(bound))?;
    Ok(Step::Enter(Job::Expression(first, frame.env)))
}

/// Goes on with the bounds that are left.
pub fn more_bounds<'a>(
    tree: &'a Tree<'a>,
    frames: &mut Vec<SpecFrame<'a>>,
    world: &mut World,
    budget: &mut Budget,
    limit: Option<NodeId>,
    step: Option<NodeId>,
    terms: List<TermId>,
    frame: ForFrame,
) -> Result<SpecStep, NoMemory>
    ensures means { IfOk result (λ next.
        Goes (items_of tree.now) frames.old.items
        (bounds_from (items_of tree.now) frame (if_any limit ++ if_any step) terms)
        world.old budget.old frames.new.items next world.new budget.new) }
    ensures kept { OnOk result (KeepsStage world.old world.new) }
{
    match limit {
        Some(bound) => {
            let waits = TermFrame::Bound(None, step, terms, frame);
            frames.push(SpecFrame::Term(waits))?;
            Ok(Step::Enter(Job::Expression(bound, frame.env)))
        }
        None => last_bound(tree, frames, world, budget, step, terms, frame),
    }
}

/// Goes on with the step of a `for`, if it has one.
fn last_bound<'a>(
    tree: &'a Tree<'a>,
    frames: &mut Vec<SpecFrame<'a>>,
    world: &mut World,
    budget: &mut Budget,
    step: Option<NodeId>,
    terms: List<TermId>,
    frame: ForFrame,
) -> Result<SpecStep, NoMemory>
    ensures means { IfOk result (λ next.
        Goes (items_of tree.now) frames.old.items
        (bounds_from (items_of tree.now) frame (if_any step) terms)
        world.old budget.old frames.new.items next world.new budget.new) }
    ensures kept { OnOk result (KeepsStage world.old world.new) }
{
    match step {
        Some(bound) => {
            let waits = TermFrame::Bound(None, None, terms, frame);
            frames.push(SpecFrame::Term(waits))?;
            Ok(Step::Enter(Job::Expression(bound, frame.env)))
        }
        None => for_body(tree, frames, world, budget, terms, frame),
    }
}

/// Specialises the block of a `for`, behind its bounds: a plain name draws its symbol, and is declared.
fn for_body<'a>(
    tree: &'a Tree<'a>,
    frames: &mut Vec<SpecFrame<'a>>,
    world: &mut World,
    budget: &mut Budget,
    bounds: List<TermId>,
    frame: ForFrame,
) -> Result<SpecStep, NoMemory>
    ensures means { IfOk result (λ next.
        Goes (items_of tree.now) frames.old.items (for_plan_of (items_of tree.now) frame frame.symbol bounds)
        world.old budget.old frames.new.items next world.new budget.new) }
    ensures kept { OnOk result (KeepsStage world.old world.new) }
{
    match frame.symbol {
        Some(symbol) => {
            let then = BlockThen::For(symbol, frame.at, bounds, frame.place);
            entered(
                tree,
                frames,
                world,
                budget,
                frame.node,
                frame.block,
                frame.env,
                then,
            )
        }
        None => {
            let symbol = new_symbol(world, None)?;
            let inner = new_env(world, frame.node, frame.env)?;
            declare(world, inner, Value::Symbol(symbol))?;
            let then = BlockThen::For(symbol, frame.at, bounds, frame.place);
            let none = List::new(world.heap.allocator());
            let nodes = block_statements(tree, frame.block);
            statements(tree, frames, world, budget, nodes, inner, none, then)
        }
    }
}

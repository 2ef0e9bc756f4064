// Blocks, and what is done with their statements.

ghost use Rattle.std.specs.Prelude.{◌≡◌, ℕ, [], None, IfOk, OnOk};
ghost use Rattle.tl_tree.specs.Arena.{items_of};
ghost use Rattle.tl_tree.specs.Code.{Items, statements_at};
ghost use Rattle.spec_model.specs.Plans.{entering, join};
ghost use Rattle.terra_term.specs.declared.term.Statement.TheVariants as kinds;
ghost use Rattle.spec_machine.specs.Frames.{block_plan, block_then};
ghost use Rattle.spec_machine.specs.Keeping.{KeepsStage};
ghost use Rattle.spec_machine.specs.Steps.{Goes, Does};

use crate::conditions::{last_arm, others};
use crate::definitions::finish;
use crate::frame::{BlockFrame, BlockThen, SpecFrame, TermFrame};
use crate::making::new_env;
use crate::quotes::quoted;
use crate::reached::SpecStep;
use crate::terms::join;
use exotype::World;
use spec_model::Job;
use terra_term::{LoopName, Statement, TermList, VarName};
use tl_base::{Budget, EnvId, List, NoMemory, NodeId, Place, Step, SymId, TermId};
use tl_tree::Tree;
use tl_tree::code::block_statements;

/// Specialises a block in a new environment, which belongs to an owner.
pub fn entered<'a>(
    tree: &'a Tree<'a>,
    frames: &mut Vec<SpecFrame<'a>>,
    world: &mut World,
    budget: &mut Budget,
    owner: NodeId,
    block: NodeId,
    env: EnvId,
    then: BlockThen<'a>,
) -> Result<SpecStep, NoMemory>
    ensures means { IfOk result (λ step.
        Goes (items_of tree.now) frames.old.items
        (entering owner env (λ inner.
        block_plan (items_of tree.now) (statements_at (items_of tree.now) block) inner [] then.entry))
        world.old budget.old frames.new.items step world.new budget.new) }
    ensures kept { OnOk result (KeepsStage world.old world.new) }
{
    let inner = new_env(world, owner, env)?;
    let none = List::new(world.heap.allocator());
    statements(
        tree,
        frames,
        world,
        budget,
        block_statements(tree, block),
        inner,
        none,
        then,
    )
}

/// Specialises statements in their order behind others, and does that with all.
pub fn statements<'a>(
    tree: &'a Tree<'a>,
    frames: &mut Vec<SpecFrame<'a>>,
    world: &mut World,
    budget: &mut Budget,
    nodes: &'a [NodeId],
    env: EnvId,
    terms: List<TermId>,
    then: BlockThen<'a>,
) -> Result<SpecStep, NoMemory>
    ensures means { IfOk result (λ step.
        Goes (items_of tree.now) frames.old.items (block_plan (items_of tree.now) nodes.now env terms then.entry)
        world.old budget.old frames.new.items step world.new budget.new) }
    ensures kept { OnOk result (KeepsStage world.old world.new) }
{
    match nodes.split_first() {
        None => with_block(tree, frames, world, budget, env, terms, then),
        Some((first, rest)) => {
            let frame = BlockFrame {
                rest,
                env,
                terms,
                then,
            };
            frames.push(SpecFrame::Block(frame))?;
            Ok(Step::Enter(Job::Statement(*first, env)))
        }
    }
}

/// What is done with the statements of a block.
fn with_block<'a>(
    tree: &'a Tree<'a>,
    frames: &mut Vec<SpecFrame<'a>>,
    world: &mut World,
    budget: &mut Budget,
    env: EnvId,
    terms: List<TermId>,
    then: BlockThen<'a>,
) -> Result<SpecStep, NoMemory>
    ensures means { IfOk result (λ step.
        Goes (items_of tree.now) frames.old.items (block_then (items_of tree.now) then.entry env terms)
        world.old budget.old frames.new.items step world.new budget.new) }
    ensures kept { OnOk result (KeepsStage world.old world.new) }
{
    match then {
        BlockThen::Do(place) => {
            let list = TermList::from_list(terms)?;
            join(world, place, Statement::Do(list))
        }
        BlockThen::While(test, place) => {
            let list = TermList::from_list(terms)?;
            join(world, place, Statement::While(test, list))
        }
        BlockThen::Repeat(condition, place) => {
            frames.push(SpecFrame::Term(TermFrame::Repeat(terms, place)))?;
            Ok(Step::Enter(Job::Expression(condition, env)))
        }
        BlockThen::For(symbol, at, bounds, place) => {
            for_statement(world, symbol, at, bounds, terms, place)
        }
        BlockThen::Quoted(value, place) => {
            quoted(frames, world, budget, value, terms, place, env)
        }
        BlockThen::Arm(test, frame) => others(tree, frames, world, frame, test, terms),
        BlockThen::Else(arm, arms) => last_arm(world, arm, arms, Some(terms)),
        BlockThen::Body(definition, drawn, of) => {
            finish(world, budget, &definition, drawn, of, terms)
        }
    }
}

/// Makes a `for`.
fn for_statement(
    world: &mut World,
    symbol: SymId,
    at: Place,
    bounds: List<TermId>,
    terms: List<TermId>,
    place: Place,
) -> Result<SpecStep, NoMemory>
    ensures means { IfOk result (λ step. (items : Items) (left : ℕ) →
        Does items (join place (kinds.For (record { symbol = symbol; of = None; place = at }) bounds terms))
        world.old left step world.new left) }
    ensures kept { OnOk result (KeepsStage world.old world.new) }
{
    let name = VarName {
        symbol,
        of: None,
        place: at,
    };
    let name = LoopName::new(world.heap.allocator(), name)?;
    let bounds = TermList::from_list(bounds)?;
    let list = TermList::from_list(terms)?;
    join(world, place, Statement::For(name, bounds, list))
}

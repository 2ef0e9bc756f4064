// `if`: its arms, and what stands behind `else`.

ghost use Rattle.std.specs.Prelude.{◌≡◌, ℕ, [], ◌∷◌, ◌++◌, Some, None, Option, IfOk, OnOk};
ghost use Rattle.tl_base.specs.declared.ids.TermId.{TermId};
ghost use Rattle.tl_tree.specs.Arena.{items_of};
ghost use Rattle.tl_tree.specs.Code.{Items, arm_condition, arm_block};
ghost use Rattle.tl_tree.specs.Nodes.{item_at};
ghost use Rattle.terra_term.specs.declared.term.Statement.TheVariants as kinds;
ghost use Rattle.terra_term.specs.declared.term.Term.TheVariants as terms;
ghost use Rattle.exotype.specs.World.{StageState};
ghost use Rattle.spec_model.specs.Plans.{term, node};
ghost use Rattle.spec_model.specs.Statements.{if_plan, inner_block, else_of};
ghost use Rattle.spec_machine.specs.Frames as waiting;
ghost use Rattle.spec_machine.specs.Keeping.{KeepsStage};
ghost use Rattle.spec_machine.specs.Steps.{Goes, Does, Gets};

use crate::code::arm_parts;
use crate::frame::{Arm, ArmsFrame, BlockFrame, BlockThen, SpecFrame, TermFrame};
use crate::making::{new_env, new_term};
use crate::reached::SpecStep;
use crate::row::{list_if_any, single};
use exotype::World;
use spec_model::{End, Job};
use terra_term::{Statement, Term, TermList};
use tl_base::{EnvId, List, NoMemory, NodeId, Place, Step, TermId};
use tl_tree::Tree;
use tl_tree::code::{block_statements, place};

/// Specialises an `if` with these arms.
pub fn if_statement<'a>(
    tree: &'a Tree<'a>,
    frames: &mut Vec<SpecFrame<'a>>,
    world: &World,
    arms: &'a [NodeId],
    otherwise: Option<NodeId>,
    place: Place,
    env: EnvId,
) -> Result<SpecStep, NoMemory>
    ensures means { IfOk result (λ step. (left : ℕ) →
        Goes (items_of tree.now) frames.old.items
        (if_plan (items_of tree.now) arms.now otherwise place env)
        world.now left frames.new.items step world.now left) }
{
    let alloc = world.heap.allocator();
    match arms.split_first() {
        None => {
            let none = TermList::from_list(List::new(alloc))?;
            Ok(Step::Return(End::Joined(none)))
        }
        Some((first, rest)) => {
            let frame = ArmsFrame {
                rest,
                otherwise,
                place,
                env,
                arms: List::new(alloc),
            };
            arm(tree, frames, *first, frame)
        }
    }
}

/// Specialises an arm.
fn arm<'a>(
    tree: &'a Tree<'a>,
    frames: &mut Vec<SpecFrame<'a>>,
    node: NodeId,
    frame: ArmsFrame<'a>,
) -> Result<SpecStep, NoMemory>
    ensures means { IfOk result (λ step. (world : StageState) (left : ℕ) →
        Goes (items_of tree.now) frames.old.items
        (term (arm_condition (item_at (items_of tree.now) node)) frame.entry.env (λ test.
        inner_block (items_of tree.now) (arm_block (item_at (items_of tree.now) node)) frame.entry.env
        (λ ts. waiting.others (items_of tree.now) frame.entry test ts)))
        world left frames.new.items step world left) }
{
    let (condition, block) = arm_parts(tree, node);
    let env = frame.env;
    frames.push(SpecFrame::Term(TermFrame::Arm(block, frame)))?;
    Ok(Step::Enter(Job::Expression(condition, env)))
}

/// Goes on behind the block of an arm.
pub fn others<'a>(
    tree: &'a Tree<'a>,
    frames: &mut Vec<SpecFrame<'a>>,
    world: &mut World,
    frame: ArmsFrame<'a>,
    test: TermId,
    statements: List<TermId>,
) -> Result<SpecStep, NoMemory>
    ensures means { IfOk result (λ step. (left : ℕ) →
        Goes (items_of tree.now) frames.old.items (waiting.others (items_of tree.now) frame.entry test statements)
        world.old left frames.new.items step world.new left) }
    ensures kept { OnOk result (KeepsStage world.old world.new) }
{
    let ArmsFrame {
        rest,
        otherwise,
        place: at,
        env,
        arms,
    } = frame;
    let done = Arm {
        place: at,
        test,
        statements,
    };
    match rest.split_first() {
        None => else_block(tree, frames, world, otherwise, env, done, arms),
        Some((next, rest)) => {
            let mut arms = arms;
            arms.push(done)?;
            let (condition, _) = arm_parts(tree, *next);
            let frame = ArmsFrame {
                rest,
                otherwise,
                place: place(tree, condition),
                env,
                arms,
            };
            arm(tree, frames, *next, frame)
        }
    }
}

/// Specialises the block behind `else`, if there is one.
fn else_block<'a>(
    tree: &'a Tree<'a>,
    frames: &mut Vec<SpecFrame<'a>>,
    world: &mut World,
    otherwise: Option<NodeId>,
    env: EnvId,
    last: Arm,
    arms: List<Arm>,
) -> Result<SpecStep, NoMemory>
    ensures means { IfOk result (λ step. (left : ℕ) →
        Goes (items_of tree.now) frames.old.items
        (else_of (items_of tree.now) [] otherwise env (λ us. waiting.last_arm last arms us))
        world.old left frames.new.items step world.new left) }
    ensures kept { OnOk result (KeepsStage world.old world.new) }
{
    let Some(block) = otherwise else {
        return last_arm(world, last, arms, None);
    };
    let env = new_env(world, block, env)?;
    let none = List::new(world.heap.allocator());
    match block_statements(tree, block).split_first() {
        None => last_arm(world, last, arms, Some(none)),
        Some((first, rest)) => {
            let frame = BlockFrame {
                rest,
                env,
                terms: none,
                then: BlockThen::Else(last, arms),
            };
            frames.push(SpecFrame::Block(frame))?;
            Ok(Step::Enter(Job::Statement(*first, env)))
        }
    }
}

/// Makes the statement of an arm.
fn arm_statement(
    world: &mut World,
    arm: Arm,
    otherwise: Option<List<TermId>>,
) -> Result<TermId, NoMemory>
    ensures means { IfOk result (λ t.
        Gets (λ go. node (terms.Statement arm.place (kinds.If arm.test arm.statements otherwise)) go)
        world.old t world.new) }
    ensures kept { OnOk result (KeepsStage world.old world.new) }
{
    let statements = TermList::from_list(arm.statements)?;
    let otherwise = list_if_any(otherwise)?;
    let statement = Statement::If(arm.test, statements, otherwise);
    let made = new_term(world, Term::Statement(arm.place, statement))?;
    Ok(made)
}

/// Makes the statement of the last arm, and those of the arms before it, each of which has it behind its `else`.
pub fn last_arm(
    world: &mut World,
    last: Arm,
    arms: List<Arm>,
    otherwise: Option<List<TermId>>,
) -> Result<SpecStep, NoMemory>
    ensures means { IfOk result (λ step. (items : Items) (left : ℕ) →
        Does items (waiting.last_arm last arms otherwise) world.old left step world.new left) }
    ensures kept { OnOk result (KeepsStage world.old world.new) }
{
    let mut arms = arms;
    let mut made = arm_statement(world, last, otherwise)?;
    'arms: while let Some(arm) = arms.pop() {
        let behind = single(world.heap.allocator(), made)?;
        made = arm_statement(world, arm, Some(behind))?;
    }
    let row = single(world.heap.allocator(), made)?;
    let terms = TermList::from_list(row)?;
    Ok(Step::Return(End::Joined(terms)))
}

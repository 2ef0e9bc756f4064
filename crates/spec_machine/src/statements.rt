// Statements of Terra code.

ghost use Rattle.std.specs.Prelude.{◌≡◌, ℕ, [], IfOk, OnOk};
ghost use Rattle.tl_tree.specs.Arena.{items_of};
ghost use Rattle.tl_tree.specs.Code.{Items};
ghost use Rattle.tl_tree.specs.Nodes.{item_at};
ghost use Rattle.spec_model.specs.Nodes.{escaped_at, or_first};
ghost use Rattle.spec_model.specs.Statements as plans;
ghost use Rattle.spec_machine.specs.Keeping.{KeepsStage};
ghost use Rattle.spec_machine.specs.Steps.{Goes};

use crate::blocks::entered;
use crate::code::escaped;
use crate::conditions::if_statement;
use crate::frame::{BlockThen, SpecFrame, TermFrame, TermsThen, ValueFrame, VarFrame};
use crate::lists::terms;
use crate::loops::for_loop;
use crate::reached::SpecStep;
use crate::terms::join;
use crate::variables::variables;
use exotype::World;
use spec_model::{End, Job, SpecQuestion};
use terra_term::{Statement, TermList};
use tl_base::{Budget, EnvId, List, NoMemory, NodeId, Place, Step};
use tl_tree::{Node, TerraStatement, Tree};

/// Specialises the statement that a node is.
pub fn statement<'a>(
    tree: &'a Tree<'a>,
    frames: &mut Vec<SpecFrame<'a>>,
    world: &mut World,
    budget: &mut Budget,
    node: NodeId,
    env: EnvId,
) -> Result<SpecStep, NoMemory>
    ensures means { IfOk result (λ step.
        Goes (items_of tree.now) frames.old.items
        (plans.statement_plan (items_of tree.now) (item_at (items_of tree.now) node) node env)
        world.old budget.old frames.new.items step world.new budget.new) }
    ensures kept { OnOk result (KeepsStage world.old world.new) }
{
    match tree.node(node) {
        Node::TerraStatement(place, statement) => {
            specialise(tree, frames, world, budget, statement, node, *place, env)
        }
        _ => {
            let none = TermList::from_list(List::new(world.heap.allocator()))?;
            Ok(Step::Return(End::Joined(none)))
        }
    }
}

/// Specialises a statement.
fn specialise<'a>(
    tree: &'a Tree<'a>,
    frames: &mut Vec<SpecFrame<'a>>,
    world: &mut World,
    budget: &mut Budget,
    statement: &'a TerraStatement,
    node: NodeId,
    place: Place,
    env: EnvId,
) -> Result<SpecStep, NoMemory>
    ensures means { IfOk result (λ step.
        Goes (items_of tree.now) frames.old.items
        (plans.statement_of (items_of tree.now) statement.now node place env)
        world.old budget.old frames.new.items step world.new budget.new) }
    ensures kept { OnOk result (KeepsStage world.old world.new) }
{
    match statement {
        TerraStatement::Assign(targets, values) => {
            let none = List::new(world.heap.allocator());
            let then = TermsThen::Targets(values.as_slice(), place);
            terms(frames, world, targets.as_slice(), env, none, then)
        }
        TerraStatement::Call(call) => {
            frames.push(SpecFrame::Term(TermFrame::Perform(place)))?;
            Ok(Step::Enter(Job::Expression(*call, env)))
        }
        TerraStatement::Splice(code) => {
            let code = escape(tree, *code);
            frames.push(SpecFrame::Value(ValueFrame::Splice(place)))?;
            Ok(Step::Stop(SpecQuestion::Eval(code, env)))
        }
        TerraStatement::Do(block) => {
            let then = BlockThen::Do(place);
            entered(tree, frames, world, budget, *block, *block, env, then)
        }
        TerraStatement::While(condition, block) => {
            frames.push(SpecFrame::Term(TermFrame::While(*block, place, env)))?;
            Ok(Step::Enter(Job::Expression(*condition, env)))
        }
        TerraStatement::Repeat(block, condition) => {
            let then = BlockThen::Repeat(*condition, place);
            entered(tree, frames, world, budget, node, *block, env, then)
        }
        TerraStatement::If(arms, otherwise) => {
            if_statement(tree, frames, world, arms.as_slice(), *otherwise, place, env)
        }
        TerraStatement::For(name, first, limit, step, block) => for_loop(
            tree, frames, world, node, *name, *first, *limit, *step, *block, place, env,
        ),
        TerraStatement::Var(names, values) => {
            let frame = VarFrame {
                rest: names.as_slice(),
                values: values.as_slice(),
                place,
                env,
                wanted: List::new(world.heap.allocator()),
            };
            variables(tree, frames, world, budget, frame)
        }
        TerraStatement::Escape(block) => {
            frames.push(SpecFrame::Emitted(place))?;
            Ok(Step::Stop(SpecQuestion::Emitted(*block, env)))
        }
        TerraStatement::Return(values) => {
            let none = List::new(world.heap.allocator());
            let then = TermsThen::Return(place);
            terms(frames, world, values.as_slice(), env, none, then)
        }
        TerraStatement::Break => join(world, place, Statement::Break),
    }
}

/// The Lua code of an escape, which a splice holds.
fn escape(tree: &Tree<'_>, node: NodeId) -> NodeId
    ensures { result ≡ or_first (escaped_at (items_of tree.now) node) }
{
    match escaped(tree, node) {
        Some(code) => code,
        None => NodeId(0),
    }
}

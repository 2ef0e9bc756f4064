// Expressions in a list position, and what is done with their terms.

ghost use Rattle.std.specs.Prelude.{◌≡◌, ℕ, [], Some, None, IfOk, OnOk};
ghost use Rattle.tl_tree.specs.Code.{Items};
ghost use Rattle.terra_term.specs.declared.term.Statement.TheVariants as kinds;
ghost use Rattle.spec_model.specs.Plans as plans;
ghost use Rattle.spec_model.specs.Statements.{drawn};
ghost use Rattle.spec_machine.specs.Frames.{terms_plan, terms_then};
ghost use Rattle.spec_machine.specs.Keeping.{KeepsStage};
ghost use Rattle.spec_machine.specs.Steps.{Goes, Does};

use crate::frame::{SpecFrame, TermsFrame, TermsThen};
use crate::names::naming;
use crate::reached::SpecStep;
use crate::terms::{join, make};
use crate::variables::declared;
use exotype::World;
use spec_model::Job;
use terra_term::{Expression, Initialiser, Statement, TermList};
use tl_base::{EnvId, List, NoMemory, NodeId, Place, Step, TermId};

/// Specialises expressions in their order behind terms, and does that with all terms.
pub fn terms<'a>(
    frames: &mut Vec<SpecFrame<'a>>,
    world: &mut World,
    nodes: &'a [NodeId],
    env: EnvId,
    terms: List<TermId>,
    then: TermsThen<'a>,
) -> Result<SpecStep, NoMemory>
    ensures means { IfOk result (λ step. (items : Items) (left : ℕ) →
        Goes items frames.old.items (terms_plan items nodes.now env terms then.entry)
        world.old left frames.new.items step world.new left) }
    ensures kept { OnOk result (KeepsStage world.old world.new) }
{
    match nodes.split_first() {
        None => with_terms(frames, world, env, terms, then),
        Some((first, rest)) => {
            let frame = TermsFrame {
                rest,
                env,
                terms,
                then,
            };
            frames.push(SpecFrame::Terms(frame))?;
            Ok(Step::Enter(Job::Expression(*first, env)))
        }
    }
}

/// What is done with the terms of a list.
fn with_terms<'a>(
    frames: &mut Vec<SpecFrame<'a>>,
    world: &mut World,
    env: EnvId,
    terms: List<TermId>,
    then: TermsThen<'a>,
) -> Result<SpecStep, NoMemory>
    ensures means { IfOk result (λ step. (items : Items) (left : ℕ) →
        Goes items frames.old.items (terms_then items then.entry env terms)
        world.old left frames.new.items step world.new left) }
    ensures kept { OnOk result (KeepsStage world.old world.new) }
{
    match then {
        TermsThen::Call(callee, place) => {
            let list = TermList::from_list(terms)?;
            make(world, place, Expression::Call(callee, list))
        }
        TermsThen::Method(object, method, place) => {
            naming(world, method)?;
            let list = TermList::from_list(terms)?;
            make(world, place, Expression::Method(object, method, list))
        }
        TermsThen::Positional(of, place) => {
            let values = Initialiser::Positional(TermList::from_list(terms)?);
            make(world, place, Expression::New(of, values))
        }
        TermsThen::Targets(values, place) => assigned(frames, world, values, env, terms, place),
        TermsThen::Assign(targets, place) => assign(world, targets, terms, place),
        TermsThen::Return(place) => {
            let list = TermList::from_list(terms)?;
            join(world, place, Statement::Return(list))
        }
        TermsThen::Var(wanted, place) => declared(world, wanted, env, Some(terms), place),
    }
}

/// Specialises the values of an assignment to these targets.
fn assigned<'a>(
    frames: &mut Vec<SpecFrame<'a>>,
    world: &mut World,
    values: &'a [NodeId],
    env: EnvId,
    targets: List<TermId>,
    place: Place,
) -> Result<SpecStep, NoMemory>
    ensures means { IfOk result (λ step. (items : Items) (left : ℕ) →
        Goes items frames.old.items
        (plans.terms_of values.now env [] (λ us. plans.join place (kinds.Assign targets us)))
        world.old left frames.new.items step world.new left) }
    ensures kept { OnOk result (KeepsStage world.old world.new) }
{
    let none = List::new(world.heap.allocator());
    match values.split_first() {
        None => assign(world, targets, none, place),
        Some((first, rest)) => {
            let frame = TermsFrame {
                rest,
                env,
                terms: none,
                then: TermsThen::Assign(targets, place),
            };
            frames.push(SpecFrame::Terms(frame))?;
            Ok(Step::Enter(Job::Expression(*first, env)))
        }
    }
}

/// Makes an assignment.
fn assign(
    world: &mut World,
    targets: List<TermId>,
    values: List<TermId>,
    place: Place,
) -> Result<SpecStep, NoMemory>
    ensures means { IfOk result (λ step. (items : Items) (left : ℕ) →
        Does items (plans.join place (kinds.Assign targets values)) world.old left step world.new left) }
    ensures kept { OnOk result (KeepsStage world.old world.new) }
{
    let targets = TermList::from_list(targets)?;
    let values = TermList::from_list(values)?;
    join(world, place, Statement::Assign(targets, values))
}

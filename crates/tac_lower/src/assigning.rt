// Assignments.

ghost use Rattle.std.specs.Prelude.{◌≡◌, map, MatchOption, if◌then◌else◌};
ghost use Rattle.terra_term.specs.TypedTerms as typed;
ghost use Rattle.tac_lower.specs.Pieces.{Holders};
ghost use Rattle.tac_lower.specs.Lowering.{assigned, assigned_all};
ghost use Rattle.terra_eval.specs.Trees.{expression_before, list_before};
ghost use Rattle.tac_lower.specs.Data.{result_of, target_of};
ghost use Rattle.tac_lower.specs.Parts.{AimsAt};
ghost use Rattle.tac_lower.specs.Works.{Put};

use crate::emit::stored;
use crate::value::{Holder, Target, Value, value_at};
use crate::work::Work;
use tac_form::{Instruction, Spot};
use terra_eval::nodes::{expression, type_of};
use terra_term::{Store, TypedExpression};
use tl_base::{NoMemory, Place, TermId};

/// The place of what isn't there.
const NOWHERE: Place = Place { line: 0, word: 0 };

/// The place in the source of an expression.
fn place_of(store: &Store, below: u64, node: TermId) -> Place
    ensures { result ≡ typed.place_of (expression_before store.now below node) }
{
    match expression(store, below, node) {
        Some(found) => found.at,
        None => NOWHERE,
    }
}

/// The temporary that a target is, where it is a variable that is in one.
pub(crate) fn held_target(store: &Store, below: u64, node: TermId, work: &Work) -> Option<u64>
    ensures { AimsAt (expression_before store.now below node) work.now.scope result }
{
    match expression(store, below, node) {
        None => None,
        Some(e) => match e.form {
            TypedExpression::Variable(x) => match work.holder(*x) {
                Some(Holder::Temp(t)) => Some(t),
                Some(Holder::Offset(_)) => None,
                None => None,
            },
            TypedExpression::Constant(_) => None,
            TypedExpression::Global(_) => None,
            TypedExpression::Operate(_, _) => None,
            TypedExpression::Both(_, _) => None,
            TypedExpression::Either(_, _) => None,
            TypedExpression::Dereference(_) => None,
            TypedExpression::Select(_, _) => None,
            TypedExpression::Follow(_, _) => None,
            TypedExpression::Element(_, _) => None,
            TypedExpression::Index(_, _) => None,
            TypedExpression::Address(_) => None,
            TypedExpression::Decay(_) => None,
            TypedExpression::Let(_, _) => None,
        },
    }
}

/// A value goes to a target.
fn assigned(
    store: &Store,
    below: u64,
    node: TermId,
    target: Target,
    v: Value,
    work: &mut Work,
) -> Result<(), NoMemory>
    ensures { Put result work.old work.new (assigned store.now.types (expression_before store.now below node) (target_of target)
        (result_of v) work.old.used) }
{
    match target {
        Target::Temp(t) => work.put(Instruction::Copy(t, v.word())),
        Target::Place(place) => {
            let to = Spot::Region(place_of(store, below, node), place.address());
            stored(store.types(), type_of(store, below, node), to, v, work)
        }
    }
}

/// Values go to targets, each to the one of its position.
pub(crate) fn assigned_all(
    store: &Store,
    below: u64,
    nodes: &[TermId],
    targets: &[Target],
    values: &[Value],
    work: &mut Work,
) -> Result<(), NoMemory>
    ensures { Put result work.old work.new (assigned_all store.now.types (list_before store.now below nodes.now) (map target_of targets.now)
        (map result_of values.now) work.old.used) }
{
    let count = nodes.len().min(targets.len());
    for i in 0..count {
        let v = value_at(values, i);
        assigned(store, below, nodes[i], targets[i], v, work)?;
    }
    Ok(())
}

// The loop over the layers that are suspended.

ghost use Rattle.std.specs.Prelude.{ℕ, Option, Some, List, ◌++◌, ◌≡◌, ◌≤◌, IfOk, OnOk};
ghost use Rattle.tl_base.specs.Layer.{State, Given, Meaning, state, IsSameUnlessAsks};
ghost use Rattle.stage_form.specs.Stage.{Stage, Final, staged, final_of};
ghost use Rattle.stage_form.specs.Holding.{OnEnds};
ghost use Rattle.stage_form.specs.Within.{Fitting, within};

use crate::form::Stages;
use std::alloc::Global;
use tl_base::{Budget, Layer, NoMemory, Turn};

/// What a question comes to: the end of its layer, or a payment above what was left.
#[derive(Drop)]
pub enum Outcome<E> {
    Ends(E),
    Spent,
}

/// What a question comes to where layers are nested, and fed, at most n deep, it comes to at each larger n.
pub fn larger_changes_nothing<W, Q, A, E>()
    ensures { (stage : Stage W Q A E) (n m : ℕ) (question : Q) (s : State W) (out : Final W E) →
        staged stage n question s ≡ Some out → n ≤ m → staged stage m question s ≡ Some out }
{}

/// A layer that stands in a stage reads no answer past its end, or behind a payment above what was left: with any
/// others behind them it ends alike, and so does the world outside its part.
pub fn nothing_is_read_past_the_end<W, P, Q, R, A, B, E, F>()
    ensures { (fitting : Fitting W P Q R A B E F) (meaning : Meaning P Q A E) (first : Given W B)
        (answers more : List (Given W B)) →
        IsSameUnlessAsks (within fitting meaning first answers) (within fitting meaning first (answers ++ more)) }
{}

/// Runs the layer that a question names, and each layer that is asked for on the way, to what the question comes to.
///
/// Layers may ask one another without end and without a payment, so no measure in units falls. The turns are counted,
/// and behind the last of them, to which no run comes, stands the one answer that is free.
pub fn run<S: Stages>(
    alloc: Global,
    stages: &S,
    question: S::Question,
    world: &mut S::World,
    budget: &mut Budget,
) -> Result<Outcome<S::End>, NoMemory>
    requires { S.begins stages.now question world.old }
    ensures means { IfOk result (λ outcome.
        (n : ℕ)
        × (staged (S.stage stages.now) n question (state world.old budget.old)
        ≡ Some (final_of outcome (state world.new budget.new)))) }
    ensures left { IfOk result (λ outcome. OnEnds outcome (λ end. S.leaves stages.now question world.old end world.new)) }
    ensures kept { OnOk result (S.Staged.keeps world.old world.new) }
    ensures paid { OnOk result (budget.new ≤ budget.old) }
{
    let mut below: Vec<S::Staged> = Vec::new(alloc);
    let mut current = stages.start(alloc, question);
    let mut next = stages.go();
    for _ in 0..u64::MAX {
        match current.resume(world, budget, next)? {
            Turn::Spent => return Ok(Outcome::Spent),
            Turn::End(end) => match below.pop() {
                None => return Ok(Outcome::Ends(end)),
                Some(layer) => {
                    current = layer;
                    next = stages.answer(end);
                    continue;
                }
            },
            Turn::Ask(asked) => {
                below.push(current)?;
                current = stages.start(alloc, asked);
                next = stages.go();
            }
        }
    }
    Err(NoMemory)
}

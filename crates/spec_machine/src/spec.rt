// The specialisation of Terra code, as a layer.

ghost use Rattle.std.specs.Prelude.{◌≡◌, List, false};
ghost use Rattle.tl_tree.specs.Arena.{items_of};
ghost use Rattle.spec_model.specs.Meaning.{spec, SpecGiven};
ghost use Rattle.spec_machine.specs.Keeping.{KeepsStage};
ghost use Rattle.tl_rename.specs.Answers.{ArePaths};

use crate::machine::Steps;
use exotype::World;
use spec_model::{SpecAnswer, SpecEnd, SpecJob, SpecQuestion};
use std::alloc::Global;
use tl_base::{Budget, EnvId, Layer, NoMemory, NodeId, Suspended, Turn};
use tl_rename::Slots;
use tl_tree::Tree;

/// The specialisation of the Terra code of a node of Lua code, which suspends itself to ask for what Lua code gives.
#[derive(Drop)]
pub struct Spec<'a> {
    machine: Suspended<Steps<'a>>,
}

impl<'a> Spec<'a> {
    ghost use Rattle.spec_machine.specs.Rest.{spec_rest, SpecFits};

    /// What is to specialise a node in an environment, and is to begin with `Go`. The slots are those that
    /// `tl_rename::resolve` gives for the tree.
    ///
    /// - `means`: what remains of it is what `spec_model` says that specialising the node means.
    /// - `fits`: `Go` is what it begins with.
    pub fn start(
        alloc: Global,
        tree: &'a Tree<'a>,
        slots: &'a Slots,
        node: NodeId,
        env: EnvId,
    ) -> Spec<'a>
        requires { ArePaths (items_of tree.now) slots.now }
        ensures means { (first : SpecGiven) (later : List SpecGiven) →
            spec_rest result first later ≡ spec (items_of tree.now) (record { node = node; env = env }) first later }
        ensures fits { (first : SpecGiven) → first.answer ≡ SpecAnswer.Go → SpecFits result first }
    {
        Spec {
            machine: Suspended::start(alloc, Steps::new(alloc, tree, slots), SpecJob { node, env }),
        }
    }
}

impl Layer for Spec<'_> {
    ghost use Rattle.spec_machine.specs.Frames.{is_go};
    ghost use Rattle.spec_machine.specs.Rest.{spec_rest, SpecFits};

    type World = World;

    type Question = SpecQuestion;

    type Answer = SpecAnswer;

    type End = SpecEnd;

    ghost rest = { spec_rest };

    ghost fits = { SpecFits };

    ghost follows = { λ question s next. is_go next.answer ≡ false };

    ghost keeps = { KeepsStage };

    fn resume(
        &mut self,
        world: &mut World,
        budget: &mut Budget,
        answer: SpecAnswer,
    ) -> Result<Turn<SpecQuestion, SpecEnd>, NoMemory> {
        self.machine.resume(world, budget, answer)
    }
}

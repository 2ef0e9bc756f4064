// A layout, as a layer.

ghost use Rattle.std.specs.Prelude.{◌≡◌, List, false};
ghost use Rattle.check_model.specs.Layouts.{layout, LayoutGiven};
ghost use Rattle.check_flow.specs.Keeping.{KeepsLayouts};

use crate::layout_steps::LayoutSteps;
use check_model::{CheckAnswer, LayoutEnd, LayoutQuestion, LayoutTask};
use exotype::World;
use std::alloc::Global;
use tl_base::{Budget, Layer, NoMemory, Place, Suspended, Turn, TypeId};

/// The settling of a type's layout, which suspends itself to ask for those of the types that it is made of.
#[derive(Drop)]
pub struct Layout {
    machine: Suspended<LayoutSteps>,
}

impl Layout {
    ghost use Rattle.check_flow.specs.Rest.{layout_rest, LayoutFits};

    /// What is to settle the layout of a type for a node or a call at a place, and is to begin with `Go`.
    ///
    /// - `means`: what remains of it is what `check_model` says that settling the layout means.
    /// - `fits`: `Go` is what it begins with.
    pub fn start(alloc: Global, of: TypeId, at: Place) -> Layout
        ensures means { (first : LayoutGiven) (later : List LayoutGiven) →
            layout_rest result first later ≡ layout (record { of = of; at = at }) first later }
        ensures fits { (first : LayoutGiven) → first.answer ≡ CheckAnswer.Go → LayoutFits result first }
    {
        Layout {
            machine: Suspended::start(alloc, LayoutSteps { alloc }, LayoutTask { of, at }),
        }
    }
}

impl Layer for Layout {
    ghost use Rattle.check_flow.specs.LayoutFrames.{is_go};
    ghost use Rattle.check_flow.specs.Rest.{layout_rest, LayoutFits};

    type World = World;

    type Question = LayoutQuestion;

    type Answer = CheckAnswer;

    type End = LayoutEnd;

    ghost rest = { layout_rest };

    ghost fits = { LayoutFits };

    ghost follows = { λ question s next. is_go next.answer ≡ false };

    ghost keeps = { KeepsLayouts };

    fn resume(
        &mut self,
        world: &mut World,
        budget: &mut Budget,
        answer: CheckAnswer,
    ) -> Result<Turn<LayoutQuestion, LayoutEnd>, NoMemory> {
        self.machine.resume(world, budget, answer)
    }
}

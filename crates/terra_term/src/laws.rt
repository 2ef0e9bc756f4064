// Laws of the store.

ghost use Rattle.std.specs.Prelude.{◌≡◌};
ghost use Rattle.terra_term.specs.Held.{state_of, begun, finished, refused, with_function, with_defined, with_state, with_term, with_typed};
ghost use Rattle.terra_term.specs.Planted.{trees, typed_trees};
ghost use Rattle.terra_term.specs.Keeping.{AllStay, AreKept};

use crate::refusal::Refusal;
use crate::store::{FunctionState, Store};
use crate::term::Term;
use crate::typed::Typed;
use tl_base::{FnId, Place, TermId, TypeId};

impl Store {
    /// A function that is defined keeps its term, one that is typed its typed term, and one that is refused its refusal: whatever
    /// function is declared, defined, begun to be typed, typed or refused. This is a law, and does nothing.
    pub fn functions_stay(
        &self,
        f: FnId,
        of: Option<TypeId>,
        term: TermId,
        place: Place,
        refusal: Refusal,
    )
        ensures declare { AllStay self.now (with_function self.now of place) }
        ensures define { state_of self.now f ≡ FunctionState.Undefined → AllStay self.now (with_defined self.now f term place) }
        ensures begin_typing { AllStay self.now (with_state self.now f (begun (state_of self.now f))) }
        ensures finish_typing { AllStay self.now (with_state self.now f (finished (state_of self.now f) term)) }
        ensures refuse { AllStay self.now (with_state self.now f (refused (state_of self.now f) refusal)) }
    {}

    /// A new node changes the tree of no other. This is a law, and does nothing.
    pub fn trees_stay(&self, term: &Term, typed: &Typed)
        ensures specialised { AreKept (trees self.now.terms) (trees (with_term self.now term.now).terms) }
        ensures typed { AreKept (typed_trees self.now.typed) (typed_trees (with_typed self.now typed.now).typed) }
    {}
}

// What follows of what calls keep.

ghost use Rattle.terra_term.specs.Keeping.{AllStay};
ghost use Rattle.exotype.specs.World.{StageState};
ghost use Rattle.check_library.specs.Keeping.{KeepsAsked};

/// A function that is defined keeps its term, one that is typed its typed term, and one that is refused its refusal, whatever call is made
/// or goes on. The function changes nothing, and its clause is a law.
pub fn defined_terms_stay()
    ensures { (old new : StageState) → KeepsAsked old new → AllStay old.store new.store }
{}

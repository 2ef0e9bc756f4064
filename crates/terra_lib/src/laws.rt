// What follows of what calls of the library keep.

ghost use Rattle.terra_term.specs.Keeping.{AllStay};
ghost use Rattle.exotype.specs.World.{StageState};
ghost use Rattle.terra_lib.specs.Keeping.{KeepsWorld};

/// A function that is defined keeps its term, one that is typed its typed term, and one that is refused its refusal, whatever call of the
/// library is made. The function changes nothing, and its clause is a law.
pub fn defined_terms_stay()
    ensures { (old new : StageState) → KeepsWorld old new → AllStay old.store new.store }
{}

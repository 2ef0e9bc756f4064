// What the names of locals mean for a staging. Each function does nothing, and its clause is a law.

ghost use Rattle.stage_alike.specs.Same.{TextsStageAlike, TreesStageAlike};

/// The staging of a tree comes to the same as that of one that is alike: the same prints, errors and places, functions with their terms
/// and types, exports and checks, and as many units are left.
pub fn trees_stage_alike()
    ensures { TreesStageAlike }
{}

/// So does that of a text for one that binds alike.
pub fn texts_stage_alike()
    ensures { TextsStageAlike }
{}

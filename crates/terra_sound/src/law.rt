// What typing promises. Each function does nothing, and its clause is a law.

ghost use Rattle.terra_sound.specs.Laws.{TypedRunsAreNotStuck, TypedRunsGiveValues};

/// A run of a typed function is never stuck: each variable that it reads is in scope, each function that it calls is there, and no
/// distance is measured in elements that have no bytes. The functions of the store that can be called are typed.
pub fn typed_runs_are_not_stuck()
    ensures { TypedRunsAreNotStuck }
{}

/// What a typed function gives back is a value of its result type, where its arguments are values of its parameters' types: a word that
/// is extended as the type asks, or the bytes of an aggregate.
pub fn typed_runs_give_values()
    ensures { TypedRunsGiveValues }
{}

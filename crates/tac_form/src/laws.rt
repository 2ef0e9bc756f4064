// What the definitions mean together. Each function does nothing, and its clause is a law.

ghost use Rattle.std.specs.Prelude.{◌≡◌, ℕ, ◌+◌, List};
ghost use Rattle.tl_base.specs.declared.ids.FnId.{FnId};
ghost use Rattle.terra_words.specs.Runs.{Value, Run};
ghost use Rattle.tac_form.specs.Flow.{Program, Moved, TacRun, steps};

/// A function has at most one run on the same arguments at the same count.
pub fn code_has_one_run()
    ensures { (p : Program) (statics : List ℕ) (memory n : ℕ) (f : FnId) (arguments : List Value) (r q : Run) →
        TacRun p statics memory n f arguments r → TacRun p statics memory n f arguments q → q ≡ r }
{}

/// Steps add up.
pub fn code_steps_add_up()
    ensures { (p : Program) (k j : ℕ) (from : Moved) → steps p (k + j) from ≡ steps p j (steps p k from) }
{}

// What the definitions mean together. Each function does nothing, and its clauses are laws.

ghost use Rattle.std.specs.Prelude.{◌≡◌, ℕ, suc, ◌-◌, ◌≤◌, true, List};
ghost use Rattle.terra_words.specs.Runs.{End, Over, More, Run};
ghost use Rattle.tac_form.specs.Flow.{Program, State, Goes, Stops, step, steps};
ghost use Rattle.tac_counts.specs.Counts.{Needs, counting, left_behind, left_in, takes};

/// A step that goes on has the count fewer that it takes, and needs more exactly where it finds none to take.
pub fn steps_take_counts()
    ensures goes { (p : Program) (s t : State) → step p s ≡ Goes t → t.left ≡ left_behind p s }
    ensures more { (p : Program) (s : State) (out : List ℕ) →
        step p s ≡ Stops (More out) → (takes p s ≡ true) × (s.left ≡ 0) }
    ensures none { (p : Program) (s : State) →
        takes p s ≡ true → s.left ≡ 0 → (out : List ℕ) × (step p s ≡ Stops (More out)) }
{}

/// A run that stops with counts left stops so with one count fewer, and then has one fewer left; one that stops with
/// none left needs more with one count fewer.
pub fn fewer_counts_are_left()
    ensures fewer { (p : Program) (k n c : ℕ) (s : State) (e : End) (out : List ℕ) →
        steps p k (Goes (counting (suc n) s)) ≡ Stops (Over e out) → left_in p k (counting (suc n) s) ≡ suc c →
        (steps p k (Goes (counting n s)) ≡ Stops (Over e out)) × (left_in p k (counting n s) ≡ c) }
    ensures none { (p : Program) (k n : ℕ) (s : State) (e : End) (out : List ℕ) →
        steps p k (Goes (counting (suc n) s)) ≡ Stops (Over e out) → left_in p k (counting (suc n) s) ≡ 0 →
        (less : List ℕ) × (steps p k (Goes (counting n s)) ≡ Stops (More less)) }
{}

/// A run needs the counts that it has less those that are left: with so many it ends so, and with fewer it needs more.
pub fn runs_need_what_is_not_left()
    ensures { (p : Program) (k n : ℕ) (s : State) (e : End) (out : List ℕ) →
        steps p k (Goes (counting n s)) ≡ Stops (Over e out) →
        (left_in p k (counting n s) ≤ n) × Needs p k s e out (n - left_in p k (counting n s)) }
{}

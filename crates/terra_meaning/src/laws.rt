// What the definitions mean together. Each function does nothing, and its clause is a law.

ghost use Rattle.std.specs.Prelude.{◌≡◌, ◌≤◌, ℕ, List, false};
ghost use Rattle.tl_base.specs.declared.ids.FnId.{FnId};
ghost use Rattle.terra_words.specs.Runs.{Value, Extends};
ghost use Rattle.terra_term.specs.Stores.{Contents};
ghost use Rattle.terra_term.specs.TypedTerms.{Expression, Statements};
ghost use Rattle.terra_meaning.specs.Meaning.{Call, Wanted, done_all, meaning, meant};
ghost use Rattle.terra_meaning.specs.Laws.{Adds, AreAlike, CallsKeep, Keeps, Need, needs_more};

/// A larger count changes no end, and takes back no output.
pub fn larger_counts_extend_runs()
    ensures { (store : Contents) (entries : List FnId) (memory : ℕ) (f : FnId) (arguments : List Value) (n m : ℕ) → n ≤ m →
        Extends (meaning store entries memory n f arguments) (meaning store entries memory m f arguments) }
{}

/// A run that is over at some count needs one count: at each smaller one it needs more, and at each larger one it is the same.
pub fn runs_need_one_count()
    ensures { (store : Contents) (entries : List FnId) (memory : ℕ) (f : FnId) (arguments : List Value) (n : ℕ) →
        needs_more (meaning store entries memory n f arguments) ≡ false →
        (count : ℕ) × (count ≤ n) × Need (λ m. meaning store entries memory m f arguments) count }
{}

/// A run depends on nothing of a store but its types, its statics, and the places and typed terms of the functions that are
/// reached.
pub fn runs_depend_on_what_is_reached()
    ensures { (a b : Contents) (entries : List FnId) (memory n : ℕ) (f : FnId) (arguments : List Value) → AreAlike entries f a b →
        meaning a entries memory n f arguments ≡ meaning b entries memory n f arguments }
{}

/// An expression leaves the variables in scope with the symbols and places that they had, and statements leave them so under
/// those that they declare, where calls leave their caller's.
pub fn scopes_keep_variables()
    ensures expressions { (c : Call) (want : Wanted) (e : Expression) (from : ℕ) → CallsKeep c → Keeps (meant c want e from) }
    ensures statements { (c : Call) (block : Statements) (from : ℕ) → CallsKeep c → Adds (done_all c block from) }
{}

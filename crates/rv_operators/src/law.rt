// What the sequences do. Each function does nothing, and its clauses are laws.

ghost use Rattle.std.specs.Prelude.{◌≡◌, ◌≢◌, ℕ, ◌-◌, ◌^◌, ◌<◌, ◌≤◌, nat_lt, IsTrue, length};
ghost use Rattle.rv_isa.specs.declared.operand.Register.{Register};
ghost use Rattle.terra_words.specs.declared.words.Width.{Width};
ghost use Rattle.terra_words.specs.declared.words.BinaryOperator.{BinaryOperator};
ghost use Rattle.terra_words.specs.declared.words.BinaryOperator.TheVariants.{Add, Subtract, Xor, NotEqual};
ghost use Rattle.terra_words.specs.Words.{wrapped, applied, negated, complemented, flag};
ghost use Rattle.rv_operators.specs.Claims.{Computes, Cuts};
ghost use Rattle.rv_operators.specs.Codes.{AreApart, code_of, cut, is_width};
ghost use Rattle.rv_operators.specs.Runs.{AreStraight, StraightCodeRuns, WordsStand};

/// The sequence for an operator at the width of a type computes it, of any two registers to a third. It has at most four instructions,
/// and none of them jumps.
pub fn operators_are_computed()
    ensures computes { (d a b : Register) (w : Width) (op : BinaryOperator) → IsTrue (is_width w.bits) → AreApart d a →
        Computes (code_of d a b w op) d a b w op }
    ensures short { (d a b : Register) (w : Width) (op : BinaryOperator) → length (code_of d a b w op) ≤ 4 }
    ensures straight { (d a b : Register) (w : Width) (op : BinaryOperator) → AreStraight (code_of d a b w op) }
{}

/// The sequence that cuts a word to the width of a type does so, by at most two instructions.
pub fn words_are_cut()
    ensures cuts { (d : Register) (w : Width) → IsTrue (is_width w.bits) → d.number ≢ 0 → Cuts (cut d w) d w }
    ensures short { (d : Register) (w : Width) → length (cut d w) ≤ 2 }
    ensures straight { (d : Register) (w : Width) → AreStraight (cut d w) }
{}

/// The operators of one operand, and the conversions, are operators of two with a constant: the negative of a word is 0 less it,
/// its other bits are its exclusive or with all bits, a word of another width is its sum with 0, and it is true where it isn't 0.
pub fn one_operand_needs_no_more()
    ensures negated { (w : Width) (x : ℕ) → applied w Subtract 0 x ≡ negated w x }
    ensures complemented { (w : Width) (x : ℕ) → x < 2 ^ 64 → applied w Xor x (2 ^ 64 - 1) ≡ complemented w x }
    ensures converted { (w : Width) (x : ℕ) → applied w Add x 0 ≡ wrapped w x }
    ensures truth { (w : Width) (x : ℕ) → applied w NotEqual x 0 ≡ flag (nat_lt 0 x) }
{}

/// Where straight instructions stand in a program, its run does what they do.
pub fn straight_code_runs()
    ensures { StraightCodeRuns }
{}

/// Instructions stand where their words are in the text.
pub fn instructions_stand_at_their_words()
    ensures { WordsStand }
{}

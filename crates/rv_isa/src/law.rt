// The law of the table.

ghost use Rattle.std.specs.Prelude.{◌≡◌};
ghost use Rattle.rv_isa.specs.Table.{word_of};
ghost use Rattle.rv_isa.specs.declared.instr.Instr.{Instr};

/// The table goes both ways: each instruction has one word, and each word at most one instruction. A law on definitions alone; it
/// does nothing.
pub fn table_goes_both_ways()
    ensures { (i j : Instr) → word_of i ≡ word_of j → i ≡ j }
{}

// What code without copies keeps. Each function does nothing, and its clause is a law.

ghost use Rattle.tac_form.specs.Counting.{with_counts};
ghost use Rattle.tac_copies.specs.Directed.{directed_code};
ghost use Rattle.tac_copies.specs.Laws.{KeepsCounted, KeepsFits, KeepsRuns, KeepsSized};
ghost use Rattle.tac_copies.specs.Reached.{reached_code};
ghost use Rattle.tac_copies.specs.Shortened.{shortened_code};
ghost use Rattle.tac_copies.specs.Taken.{taken_code};

/// Code whose results go at once to where they are copied runs as before, at every count.
pub fn directing_keeps_runs()
    ensures { KeepsRuns directed_code }
{}

/// Machine code can be made of it as before: what it names is there, and the same temporaries are live where it is entered.
pub fn directing_keeps_fits()
    ensures { KeepsFits directed_code }
{}

/// Each way round its flow graph counts as before.
pub fn directing_keeps_counted()
    ensures { KeepsCounted directed_code }
{}

/// It has no more words and private bytes than before.
pub fn directing_keeps_sized()
    ensures { KeepsSized directed_code }
{}

/// Code that reads what is copied where it was copied from runs as before, at every count.
pub fn shortening_keeps_runs()
    ensures { KeepsRuns shortened_code }
{}

/// Machine code can be made of it as before: what it names is there, and the same temporaries are live where it is entered.
pub fn shortening_keeps_fits()
    ensures { KeepsFits shortened_code }
{}

/// Each way round its flow graph counts as before.
pub fn shortening_keeps_counted()
    ensures { KeepsCounted shortened_code }
{}

/// It has no more words and private bytes than before.
pub fn shortening_keeps_sized()
    ensures { KeepsSized shortened_code }
{}

/// Code without the blocks that no way leads to runs as before, at every count.
pub fn reaching_keeps_runs()
    ensures { KeepsRuns reached_code }
{}

/// Machine code can be made of it as before: what it names is there, and the same temporaries are live where it is entered.
pub fn reaching_keeps_fits()
    ensures { KeepsFits reached_code }
{}

/// Each way round its flow graph counts as before.
pub fn reaching_keeps_counted()
    ensures { KeepsCounted reached_code }
{}

/// It has no more words and private bytes than before.
pub fn reaching_keeps_sized()
    ensures { KeepsSized reached_code }
{}

/// Code whose parameters go at once to their variables runs as before, at every count.
pub fn taking_keeps_runs()
    ensures { KeepsRuns taken_code }
{}

/// Machine code can be made of it as before: what it names is there, and the temporaries are live where it is entered that it takes.
pub fn taking_keeps_fits()
    ensures { KeepsFits taken_code }
{}

/// Each way round its flow graph counts as before.
pub fn taking_keeps_counted()
    ensures { KeepsCounted taken_code }
{}

/// It has no more words and private bytes than before.
pub fn taking_keeps_sized()
    ensures { KeepsSized taken_code }
{}

/// Code that counts runs as the same code that doesn't, at every count.
pub fn counting_keeps_runs()
    ensures { KeepsRuns with_counts }
{}

/// Machine code can be made of it as of the other: what it names is there, and the same temporaries are live where it is entered.
pub fn counting_keeps_fits()
    ensures { KeepsFits with_counts }
{}

/// Each way round its flow graph counts as before.
pub fn counting_keeps_counted()
    ensures { KeepsCounted with_counts }
{}

/// It has no more words and private bytes than the other: what takes a count is weighed whether code counts or not.
pub fn counting_keeps_sized()
    ensures { KeepsSized with_counts }
{}

// What follows of the definitions.

ghost use Rattle.terrac_call.specs.Headline.{DueTellsMeaning, RunsTellMeaning};
ghost use Rattle.terrac_call.specs.Meant.{CallsAreMeant, SourcesAreMeant};
ghost use Rattle.terrac_call.specs.Ranges.{AreWorked, JobsAreLawful};

/// The run of an export of a compiled image ends, prints and fails only as the function that it is means, and isn't over only where that
/// isn't over in time.
pub fn runs_tell_meaning()
    ensures { RunsTellMeaning }
{}

/// What is due for a call of what a source exports is what the export means: the arguments are values of its parameters' types, and the run
/// ends, prints and fails only as the function does, so that no fault of the machine is due.
pub fn due_tells_meaning()
    ensures { DueTellsMeaning }
{}

/// What is due for a call of what a source exports follows from the names of the exports, the types of their functions and what
/// these mean: `no entry` where no export has the name, `bad argument` where the words are no values of the parameters' types,
/// and else what the function prints and how it ends, with the text of the value that it returns, or the kind and the place of
/// its fault.
pub fn calls_are_meant()
    ensures { CallsAreMeant }
{}

/// So it is for each source whose staging is done, behind what the staging printed.
pub fn sources_are_meant()
    ensures { SourcesAreMeant }
{}

/// The numbers of each job that words name are in their ranges: limits, steps, and how many functions are generated.
pub fn jobs_are_lawful()
    ensures { JobsAreLawful }
{}

/// What some words name, worked out.
pub fn words_are_worked()
    ensures { AreWorked }
{}

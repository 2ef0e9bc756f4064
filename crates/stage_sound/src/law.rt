// What staging promises of worlds. Each function does nothing, and its clause is a law.

ghost use Rattle.stage_sound.specs.Promises.{JobsKeepSound, StagesHoldSound, StagingsEndSound};

/// What is asked for in a sound world leaves a sound world, with what its end says: behind a check, the function and all that it
/// reaches are ready, and behind a layout its size is known.
pub fn jobs_keep_sound()
    ensures { JobsKeepSound }
{}

/// So it is while a staging goes on: each layer that begins in a sound world asks in one, and leaves one, if its questions' layers do.
pub fn stages_hold_sound()
    ensures { StagesHoldSound }
{}

/// A source's staging for which there were units ends in a sound world of the memory that was given, and its exports are fine there: each
/// has a name of its own and one word for each parameter and result, is ready with all that it reaches, and together they aren't too large.
pub fn stagings_end_sound()
    ensures { StagingsEndSound }
{}

// Where the variables of a frame lie. The function does nothing, and its clause is a law.

ghost use Rattle.terra_frames.specs.Laid.{FramesAreLaidOut};

/// The variables of a function that have addresses lie within its frame, each at a multiple of its type's alignment and behind those that
/// are declared before it. A frame's size is a multiple of 16.
pub fn frames_are_laid_out()
    ensures { FramesAreLaidOut }
{}

// What the names of locals mean for what is due. Each function does nothing, and its clause is a law.

ghost use Rattle.terrac_alike.specs.Alike.{AlikeSourcesAnswerAlike, AlikeSourcesAreDueAlike, RenamedSourcesAreDueAlike};

use terrac_call::one_due;

/// Two sources that differ in the names of locals alone are due the same, for `run`, `emit`, `check` and `terms`.
pub fn alike_sources_are_due_alike()
    ensures { AlikeSourcesAreDueAlike }
{}

/// Of `check` and `terms`, which have one thing due, they are due the very same: what they print, the lines and the status.
pub fn alike_sources_answer_alike()
    ensures { AlikeSourcesAnswerAlike }
{
    one_due()
}

/// A source is due the same with its locals renamed, for `run`, `emit`, `check` and `terms`, where no name has more than 248 bytes and the
/// renamed text is no longer than a source may be.
pub fn renamed_sources_are_due_alike()
    ensures { RenamedSourcesAreDueAlike }
{}

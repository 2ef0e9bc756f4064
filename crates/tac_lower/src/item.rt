// Code in a line: instructions, and the ends of blocks.

ghost use Rattle.std.specs.Prelude.{◌≡◌};
ghost use Rattle.tac_lower.specs.Items.{left_by};
ghost use Rattle.tac_lower.specs.Data.{ending_of, reaching};

use tac_form::{Instruction, Operand, Part};
use terra_words::FaultKind;
use tl_base::Place;

/// How a block ends. Blocks ahead are named by how many are passed, and blocks behind by how many are gone back.
#[derive(Clone, Copy)]
pub(crate) enum Ending {
    /// Past so many blocks.
    Skips(u64),
    /// To the next block where the word isn't zero, and else past so many.
    Tests(Operand, u64),
    /// So many blocks back, which counts.
    Repeats(u64),
    /// To the next block where the word isn't zero, and else so many back, which counts.
    RepeatsUnless(Operand, u64),
    /// Out of the loop around, which isn't known yet.
    Leaves,
    Gives(Part),
    Fails(FaultKind, Place),
}

/// An instruction, or the end of a block.
#[derive(Drop)]
pub(crate) enum Item {
    Does(Instruction),
    Ends(Ending),
}

/// A forward ending, past so many blocks; any other stays.
pub(crate) fn reaching(ending: Ending, blocks: u64) -> Ending
    ensures { ending_of result ≡ reaching (ending_of ending) blocks }
{
    match ending {
        Ending::Skips(_) => Ending::Skips(blocks),
        Ending::Tests(test, _) => Ending::Tests(test, blocks),
        Ending::Repeats(_) => ending,
        Ending::RepeatsUnless(_, _) => ending,
        Ending::Leaves => ending,
        Ending::Gives(_) => ending,
        Ending::Fails(_, _) => ending,
    }
}

/// What leaves a loop leads past the blocks up to its end; any other ending stays.
pub(crate) fn left_by(ending: Ending, behind: u64) -> Ending
    ensures { ending_of result ≡ left_by (ending_of ending) behind }
{
    match ending {
        Ending::Leaves => Ending::Skips(behind),
        Ending::Skips(_) => ending,
        Ending::Tests(_, _) => ending,
        Ending::Repeats(_) => ending,
        Ending::RepeatsUnless(_, _) => ending,
        Ending::Gives(_) => ending,
        Ending::Fails(_, _) => ending,
    }
}

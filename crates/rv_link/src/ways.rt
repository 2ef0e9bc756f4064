// Whether the blocks of code are there.

ghost use Rattle.std.specs.Prelude.{◌≡◌};
ghost use Rattle.rv_link.specs.Linked.{blocks_there, exit_there};

use tac_form::{Exit, Tac};

/// An exit leads to blocks of the code.
fn exit_there(tac: &Tac, exit: &Exit) -> bool
    ensures { result ≡ exit_there tac.now exit.now }
{
    let count = tac.blocks.as_slice().len() as u64;
    match exit {
        Exit::Jump(edge) => edge.block < count,
        Exit::Branch(_, first, second) => first.block < count && second.block < count,
        _ => true,
    }
}

/// Whether each way on from a block of code leads to one of its blocks. In code that machine code may be made of it does.
pub fn blocks_there(tac: &Tac) -> bool
    ensures { result ≡ blocks_there tac.now }
{
    tac.blocks
        .as_slice()
        .iter()
        .all(|block| exit_there(tac, &block.exit))
}

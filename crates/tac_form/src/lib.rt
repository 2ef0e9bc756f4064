//! Three-address code.
//!
//! The code of a function is a graph of blocks over numbered temporaries, which hold words, and areas, which hold the bytes of an
//! aggregate that is no place. `specs/Flow.antt` says what it does, in small steps, `specs/Fits.antt` which code
//! machine code may be made of, `specs/Weights.antt` how many words of that and how many private bytes each part may take, and
//! `specs/Live.antt` where a temporary is in use.
#![tactic(auto)]

pub mod graph;
pub mod laws;
pub mod reads;
pub mod tac;

pub use graph::{FlowBlock, Step, StepList, TempList};
pub use laws::{code_has_one_run, code_steps_add_up};
pub use tac::{
    Address, Block, BlockList, Destination, DestinationList, Edge, Exit, Instruction,
    InstructionList, Number, Operand, Part, PartList, Signature, Size, SizeList, Spot, Tac,
    TypeIds,
};

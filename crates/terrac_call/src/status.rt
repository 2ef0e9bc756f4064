// How a call of the program ends.

ghost use Rattle.std.specs.Prelude.{◌≡◌};
ghost use Rattle.terrac_call.specs.Statuses.{code_of};

use elf_image::ImageError;
use rv_listing::AsmKind;
use rv_machine::MachineKind;
use tl_base::{Bytes, Place};
use tl_lex::SyntaxKind;

/// How a call ends. Each status but [`Status::Ok`] has a line on `notes`.
#[derive(Drop)]
pub enum Status {
    /// What was asked for was written.
    Ok,
    /// The words name no job.
    Usage,
    /// The source is refused for this reason: the token at this place, or at 0:0 the whole source.
    Syntax { kind: SyntaxKind, place: Place },
    /// Staging ended by an error with this text, which none of the source's calls caught, at the place of what raised it.
    Raised { text: Bytes, place: Place },
    /// Staging came to a payment above what was left of its budget.
    BudgetSpent,
    /// The source or the image has no function of the entry's name.
    NoEntry,
    /// The word at this position, from 1, is the first that is bad, missing or one too many.
    BadArgument { number: u64 },
    /// The run ended with a fault of the program, at this place of its source.
    Fault { kind: FaultKind, place: Place },
    /// The run isn't over after its steps.
    Unfinished,
    /// The bytes are no image.
    BadImage { fault: ImageFault },
    /// A read of the source failed.
    ReadFault,
    /// A write to a sink failed.
    WriteFault,
    /// Memory was not found.
    NoMemory,
    /// The machine refused the instruction at this address.
    MachineFault { kind: MachineKind, pc: u64 },
    /// This line is the first that is no instruction; or there are no lines, at line 0.
    BadAssembly { kind: AsmKind, line: u64 },
}

/// With which fault a program ends.
#[derive(Clone, Copy, PartialEq, Eq)]
pub enum FaultKind {
    /// An access isn't wholly in the region.
    BadAddress,
    /// A divisor is zero.
    DivZero,
    /// A frame passes the data stack.
    StackFull,
    /// Calls nest too deep.
    CallDepth,
    /// A function with a result ends without one.
    NoReturn,
    /// A call by value whose value names no function of the call's types.
    BadCall,
}

/// Why bytes are no image.
#[derive(Clone, Copy, PartialEq, Eq)]
pub enum ImageFault {
    /// There are more than 268,435,456.
    TooLong,
    /// They fail a test of the format, for which memory is always found.
    Refused(ImageError),
}

impl Status {
    /// The code with which the process ends.
    pub fn code(&self) -> u8
        ensures { result ≡ code_of self.now }
    {
        match self {
            Status::Ok => 0,
            Status::Usage => 2,
            Status::Syntax { kind: _, place: _ } => 3,
            Status::Raised { text: _, place: _ } => 4,
            Status::BudgetSpent => 5,
            Status::NoEntry => 6,
            Status::BadArgument { number: _ } => 7,
            Status::Fault { kind: _, place: _ } => 8,
            Status::Unfinished => 9,
            Status::BadImage { fault: _ } => 10,
            Status::ReadFault => 11,
            Status::WriteFault => 12,
            Status::NoMemory => 13,
            Status::MachineFault { kind: _, pc: _ } => 14,
            Status::BadAssembly { kind: _, line: _ } => 16,
        }
    }
}

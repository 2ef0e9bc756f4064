// Why a run stops.

/// What is wrong with a run that the machine stops.
#[derive(Clone, Copy, PartialEq, Eq, Debug)]
pub enum MachineKind {
    /// The word at the program counter is no instruction of the machine.
    IllegalWord,
    /// The program counter is no multiple of 4 within text.
    BadFetch,
    /// A load or store does not lie wholly in the region or in private memory.
    BadAccess,
    /// A call of the environment that it does not know, or bytes to write that do not lie wholly in the region or in private memory.
    BadCall,
    /// A breakpoint.
    Break,
}

/// Why a run stops.
#[derive(Clone, Copy, PartialEq, Eq)]
pub enum Stop {
    /// The program counter is 0: the run is over, with the value of x10.
    Returned(u64),
    /// The program itself ended the run with a fault: its kind, from 1 to 5, and its place in the source, as the program gave them.
    TerraFault { kind: u64, place: u64 },
    /// The machine refused the instruction at `pc`.
    MachineFault { kind: MachineKind, pc: u64 },
    /// The steps are used up.
    Unfinished,
    /// The sink failed, or took nothing of some bytes.
    WriteFault,
}

// What lowered code does and keeps. Each function does nothing, and its clause is a law.

ghost use Rattle.tac_lower.specs.Laws.{LoweredIsCounted, LoweredIsGood, LoweredIsSized, LoweringKeepsRuns};
ghost use Rattle.tac_lower.specs.Lowering.{lowered};

/// The code of a store's functions has the runs that their typed terms mean, and no others, at every count: the same value or
/// fault, at the same place, with the same output, and the need of more at the same counts. The functions' terms are typed, and
/// each parameter of the function that runs has at most 128 bytes, as values have.
pub fn lowering_keeps_runs()
    ensures { LoweringKeepsRuns lowered }
{}

/// Each way round the flow graph of a function's code counts: an edge that doesn't count leads to a later block.
pub fn lowered_code_is_counted()
    ensures { LoweredIsCounted lowered }
{}

/// The code of a typed function has at most 250 words for each of its typed nodes, with the fixed part of the function, and at
/// most 136 private bytes for each, and 65,536 more.
pub fn lowered_code_is_sized()
    ensures { LoweredIsSized lowered }
{}

/// Machine code can be made of a typed function's code, where the function has at most 131,072 typed nodes and a place in a text:
/// each block, temporary and area that the code names is there, each access lies within the frame or the area that it names, no area
/// has more than 128 bytes, and the temporaries that are live where the code is entered are those where its parameters go. Each way
/// round its flow graph counts, and it keeps its words and private bytes.
pub fn lowered_code_is_good()
    ensures { LoweredIsGood lowered }
{}

// What compiling asks of a store. Each function does nothing, and its clause is a law.

ghost use Rattle.ready_image.specs.Places.{FaultsHavePlaces};
ghost use Rattle.ready_image.specs.Ready.{ReadyExportsCompile};

/// In a sound world, exports whose functions are ready with all that they reach, and which were counted, can be compiled but for their
/// names and signatures.
pub fn ready_exports_compile()
    ensures { ReadyExportsCompile }
{}

/// Whatever a function is given that can be compiled, its fault has a place of a text, so that it is read back from the number of the place.
pub fn faults_have_places()
    ensures { FaultsHavePlaces }
{}

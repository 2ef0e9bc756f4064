// What linked texts promise. Each function does nothing, and its clause is a law.

ghost use Rattle.rv_link.specs.Images.{CountedImagesAreCarried, ImagesAreCarried, ImagesStart};
ghost use Rattle.rv_link.specs.Linked.{LinkedTextsAreLinked};

/// In a text that `link` gives, of functions that machine code may be made of, each function stands where calls look for it, so runs of
/// the program are carried out by the machine.
pub fn linked_texts_are_linked()
    ensures { LinkedTextsAreLinked }
{}

/// A lawful image begins, at an address, as the code of a function that begins as the entry asks for.
pub fn images_start()
    ensures { ImagesStart }
{}

/// A run of an image that has a linked text, from where a function begins as the entry, ends as the run of its three-address code does, in
/// at most as many steps for each count, and for the begin, as the image has instructions.
pub fn images_are_carried()
    ensures { ImagesAreCarried }
{}

/// So does one of functions that count, from the words behind them all that give one of them its counts: it breaks off where none is left.
pub fn counted_images_are_carried()
    ensures { CountedImagesAreCarried }
{}

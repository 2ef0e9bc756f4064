// What specialisation promises of worlds. The function does nothing, and its clause is a law.

ghost use Rattle.spec_sound.specs.Sound.{SpecialisingKeepsSound};

/// Where Terra code is specialised from a sound world, and each question is answered in a sound world that follows, it asks in sound
/// worlds, and ends in a sound world that follows.
pub fn specialising_keeps_sound()
    ensures { SpecialisingKeepsSound }
{}

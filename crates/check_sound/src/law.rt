// What typing promises of typed terms. Each function does nothing, and its clause is a law.

ghost use Rattle.check_sound.specs.Sound.{BeginsSound};
ghost use Rattle.check_sound.specs.Layers.{ChecksKeepSound, CountedStay, KeepsSound, LayoutsKeepSound, ReadyStays};
ghost use Rattle.check_sound.specs.Reached.{ReachedStoresAreTyped};

/// A staging begins in a sound world, whatever memory within the limit its runs have.
pub fn stagings_begin_sound()
    ensures { BeginsSound }
{}

/// Where a body is typed in a sound world, and each answer fits and is given in a sound world, it asks in sound worlds and leaves one.
pub fn typing_keeps_sound()
    ensures { KeepsSound }
{}

/// A check does so too, and behind it the function and all that it reaches can be called, and their bodies pass the test of typed terms.
pub fn checks_keep_sound()
    ensures { ChecksKeepSound }
{}

/// A layout does so too, and where it is done, the size of the type is known.
pub fn layouts_keep_sound()
    ensures { LayoutsKeepSound }
{}

/// What was ready once is ready in each sound world that has grown since.
pub fn ready_stays()
    ensures { ReadyStays }
{}

/// Exports that were counted once are counted so in each sound world that has grown since.
pub fn counted_stays()
    ensures { CountedStay }
{}

/// A store with what a check reached alone is typed: each function that can be called in it passes the test of typed terms there, and
/// what was reached is called as in the whole store.
pub fn reached_stores_are_typed()
    ensures { ReachedStoresAreTyped }
{}

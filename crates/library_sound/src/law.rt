// What calls of the library leave of sound worlds. Each function does nothing, and its clause is a law.

ghost use Rattle.library_sound.specs.Leaving.{CallsLeaveSound, AnswersLeaveSound};
ghost use Rattle.library_sound.specs.Leaving.{CallsAskSound, EndsAskSound, AnswersAskSound};
ghost use Rattle.library_sound.specs.Layers.{LibraryKeepsSound, TypeTextsKeepSound};

/// A call of a function of Terra's library that needs no check and no layout leaves a sound world.
pub fn calls_leave_sound()
    ensures { CallsLeaveSound }
{}

/// So does an answer of Lua code to a function that waits for one.
pub fn answers_leave_sound()
    ensures { AnswersLeaveSound }
{}

/// A call of a function of the library, Lua's or Terra's, that needs no check and no layout asks in sound worlds, and ends in one.
pub fn library_keeps_sound()
    ensures { LibraryKeepsSound }
{}

/// What is asked for the text of a type ends in a sound world.
pub fn type_texts_keep_sound()
    ensures { TypeTextsKeepSound }
{}

/// A call of a function that may ask for a check or a layout leaves a sound world, with its question or its answer.
pub fn calls_ask_sound()
    ensures { CallsAskSound }
{}

/// So do the exports at the end of the chunk.
pub fn ends_ask_sound()
    ensures { EndsAskSound }
{}

/// Where an answer fits a question, and comes back in a sound world, what the function goes on with leaves a sound world.
pub fn answers_ask_sound()
    ensures { AnswersAskSound }
{}

// What renaming keeps. Each function does nothing, and its clause is a law of what `tl_renaming::rename` gives.

ghost use Rattle.renaming_alike.specs.Renamed.{RenamedTextsAreAlike, RenamedTextsAreUtf8, RenamedTextsHaveSamePlaces, RenamedTextsRead};

/// What `rename` gives of a text of at most `LONGEST_TEXT` bytes with no name of more than 248 reads. It may have more than `LONGEST_TEXT`
/// bytes.
pub fn renamed_texts_read()
    ensures { RenamedTextsRead }
{}

/// It binds alike: each use of a local finds the declaration that it found, and all but names of locals is the same.
pub fn renamed_texts_are_alike()
    ensures { RenamedTextsAreAlike }
{}

/// Each of its tokens stands where it stood, and so does its end: on the same line, with as many tokens before it there.
pub fn renamed_texts_have_same_places()
    ensures { RenamedTextsHaveSamePlaces }
{}

/// What `rename` gives of any text is UTF-8 where that text is, however long it or its names are.
pub fn renamed_texts_are_utf8()
    ensures { RenamedTextsAreUtf8 }
{}

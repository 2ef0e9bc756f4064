// What binding alike says of trees. The function does nothing, and its clause is a law.

ghost use Rattle.tl_alike.specs.Alike.{AlikeTextsHaveAlikeTrees};

/// The trees of texts that bind alike have the same nodes but for names; each name finds the same declaration; and the names that are
/// used for no local, or selected, are the same.
pub fn alike_trees()
    ensures { AlikeTextsHaveAlikeTrees }
{}

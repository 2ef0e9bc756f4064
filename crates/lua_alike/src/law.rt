// What Lua code means in trees that are alike. The function does nothing, and its clause is a law.

ghost use Rattle.lua_alike.specs.Same.{MeansSame};

/// What Lua code means is the same in two trees that are alike but for the names of locals (Lua 5.1 manual, section 2.6): given the same
/// answers, it ends by the same values or error, with the same heap and the same units left, or asks the same question, or lacks units at
/// the same point. Where an expression is asked for by itself, and is the use of a name that finds no local, it has to be the same name in
/// both.
pub fn lua_means_same()
    ensures { MeansSame }
{}

// What the count of exports promises. The function does nothing, and its clause is a law.

ghost use Rattle.export_count.specs.Counted.{CountsAreRight, OneCountsRight};

/// In a sound world whose exports were checked, and a part of them counted, counting goes through the rest and one more function, and
/// where none passes the most, all of them are counted.
pub fn counts_are_right()
    ensures { CountsAreRight }
{}

/// In a sound world one function that was checked is counted, where it doesn't pass the most with all that it reaches.
pub fn one_counts_right()
    ensures { OneCountsRight }
{}

// What specialising says of trees that are alike. The function does nothing, and its clause is a law.

ghost use Rattle.spec_alike.specs.Same.{MeansSame};

/// In two trees that are alike Terra code is specialised alike: the same answers lead to the same terms, the same errors and the same
/// questions, and the Lua code that is asked for is read alike in both.
pub fn specialising_means_same()
    ensures { MeansSame }
{}

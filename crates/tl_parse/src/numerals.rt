// The sizes of numerals.
ghost use Rattle.std.specs.Prelude.{◌≡◌, ◌<◌, nat_lt};
ghost use Rattle.tl_tree.specs.Numbers as numbers;

use tl_tree::numeral_value;

/// Does a numeral stand for a number above this limit?
#[tactic(auto, using(crate::proofs::TerraNumbers::above))]
pub(crate) fn is_above(text: &str, limit: u64) -> bool
    ensures { result ≡ nat_lt limit (numbers.value_of text.now) }
{
    match numeral_value(text) {
        Some(value) => value > limit,
        None => true,
    }
}

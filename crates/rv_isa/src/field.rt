// Bits of a word.

ghost use Rattle.std.specs.Prelude.{◌≡◌, ◌+◌, ◌<◌, ◌≤◌};
ghost use Rattle.rv_isa.specs.Formats.{bits};

/// word[high:low], the bits from `high` down to `low`.
pub(crate) fn field(word: u32, high: u32, low: u32) -> u32
    requires ordered { low ≤ high }
    requires within { high < 32 }
    requires not_all { high < low + 31 }
    ensures { result ≡ bits high low word }
{
    word >> low & ((1 << (high + 1 - low)) - 1)
}

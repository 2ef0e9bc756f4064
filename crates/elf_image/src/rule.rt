// What a field of a table may hold.

ghost use Rattle.std.specs.Prelude.{◌≡◌};

/// What a field may hold.
#[derive(Clone, Copy)]
pub enum Rule {
    /// Every number.
    Any,
    /// This number alone.
    Is(u64),
    /// The numbers from the first to the second.
    Between(u64, u64),
    /// The multiples of the first from the second to the third.
    Multiple(u64, u64, u64),
    /// The first number and a multiple of the second, which is at most the third.
    Beyond(u64, u64, u64),
}

impl Rule {
    ghost use Rattle.elf_image.specs.Fields.{allows};

    /// Whether the field may hold the number.
    pub fn allows(self, number: u64) -> bool
        ensures { result ≡ allows self number }
    {
        match self {
            Rule::Any => true,
            Rule::Is(value) => number == value,
            Rule::Between(low, high) => low <= number && number <= high,
            Rule::Multiple(step, low, high) => {
                number.is_multiple_of(step) && low <= number && number <= high
            }
            Rule::Beyond(base, step, most) => {
                base <= number && (number - base).is_multiple_of(step) && number - base <= most
            }
        }
    }
}

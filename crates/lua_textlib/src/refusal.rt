// What ends the making of a text.

/// Why a function that makes a text step by step makes none.
#[derive(Clone, Copy, PartialEq, Eq)]
pub enum Refusal {
    /// The argument of this position, from 1, isn't of its form.
    BadArgument(usize),
    /// The text would have more than 65,535 bytes.
    TooLong,
    /// A payment is larger than what is left of the budget.
    Spent,
}

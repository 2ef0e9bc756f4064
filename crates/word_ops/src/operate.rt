// What operators give of words.

ghost use Rattle.std.specs.Prelude.{◌≡◌, ◌≢◌, ◌≤◌, ◌<◌, ◌^◌, ◌-◌, IsTrue, IsFalse, if◌then◌else◌};
ghost use Rattle.terra_words.specs.Words.{applied, complemented, divides, is_less, is_negative, negated, wrapped};

use terra_words::{BinaryOperator, Width};

/// `2 ^ bits`.
fn power(bits: u64) -> u128
    requires { bits ≤ 64 }
    ensures { result ≡ 2 ^ bits }
{
    1 << bits
}

/// The word of a number's low bits.
#[tactic(auto, using(crate::proofs::Powers::powers), unfolding(terra_words::specs::Words::wrapped))]
pub fn wrap(width: Width, n: u128) -> u64
    requires { width.bits ≤ 64 }
    ensures { result ≡ wrapped width n }
{
    let whole = power(width.bits);
    let low = n % whole;
    if width.signed && power(width.bits.saturating_sub(1)) <= low {
        return (low + (power(64) - whole)) as u64;
    }
    low as u64
}

/// Whether the word, read as a number with a sign, is below zero.
pub fn is_negative(x: u64) -> bool
    ensures { result ≡ is_negative x }
{
    x >= 1 << 63
}

/// Whether one word is below another, by sign or without.
pub fn is_less(width: Width, x: u64, y: u64) -> bool
    ensures { result ≡ is_less width x y }
{
    if width.signed {
        x.wrapping_add(1 << 63) < y.wrapping_add(1 << 63)
    } else {
        x < y
    }
}

/// The word of a number's opposite.
#[tactic(auto, unfolding(terra_words::specs::Words::negated))]
pub fn negate(width: Width, x: u64) -> u64
    requires { width.bits ≤ 64 }
    ensures { result ≡ negated width x }
{
    wrap(width, opposite(u128::from(x)))
}

/// The word whose bits are the others.
#[tactic(auto, unfolding(terra_words::specs::Words::complemented))]
pub fn complement(width: Width, x: u64) -> u64
    requires { width.bits ≤ 64 }
    ensures { result ≡ complemented width x }
{
    wrap(width, u128::from(u64::MAX - x))
}

/// What an operator gives of two words of a width. A divisor isn't zero.
#[tactic(auto, unfolding(terra_words::specs::Words::applied))]
pub fn apply(width: Width, operator: BinaryOperator, x: u64, y: u64) -> u64
    requires bits { width.bits ≤ 64 }
    requires divisor { IsTrue (divides operator) → y ≢ 0 }
    ensures { result ≡ applied width operator x y }
{
    match operator {
        BinaryOperator::Add => wrap(width, u128::from(x) + u128::from(y)),
        BinaryOperator::Subtract => wrap(width, u128::from(x) + opposite(u128::from(y))),
        BinaryOperator::Multiply => wrap(width, u128::from(x) * u128::from(y)),
        BinaryOperator::Divide => divide(width, x, y),
        BinaryOperator::Modulo => modulo(width, x, y),
        BinaryOperator::Xor => wrap(width, u128::from(x ^ y)),
        BinaryOperator::And => wrap(width, u128::from(x & y)),
        BinaryOperator::Or => wrap(width, u128::from(x | y)),
        BinaryOperator::ShiftLeft => shift_left(width, x, y),
        BinaryOperator::ShiftRight => shift_right(width, x, y),
        BinaryOperator::Equal => u64::from(x == y),
        BinaryOperator::NotEqual => u64::from(x != y),
        BinaryOperator::Less => u64::from(is_less(width, x, y)),
        BinaryOperator::LessEqual => u64::from(!is_less(width, y, x)),
        BinaryOperator::Greater => u64::from(is_less(width, y, x)),
        BinaryOperator::GreaterEqual => u64::from(!is_less(width, x, y)),
    }
}

/// `2 ^ 64` less a number.
fn opposite(x: u128) -> u128
    requires { x ≤ 2 ^ 64 }
    ensures { result ≡ 2 ^ 64 - x }
{
    (1 << 64) - x
}

/// A word without its sign.
fn magnitude(x: u64) -> u64
    ensures { result ≡ (if is_negative x then 2 ^ 64 - x else x) }
{
    if is_negative(x) {
        (u64::MAX - x) + 1
    } else {
        x
    }
}

#[tactic(auto, unfolding(terra_words::specs::Words::applied))]
fn divide(width: Width, x: u64, y: u64) -> u64
    requires bits { width.bits ≤ 64 }
    requires divisor { y ≢ 0 }
    ensures { result ≡ applied width BinaryOperator.Divide x y }
{
    if !width.signed {
        return wrap(width, u128::from(x / y));
    }
    let quotient = u128::from(magnitude(x) / magnitude(y));
    if is_negative(x) != is_negative(y) {
        wrap(width, opposite(quotient))
    } else {
        wrap(width, quotient)
    }
}

#[tactic(auto, unfolding(terra_words::specs::Words::applied))]
fn modulo(width: Width, x: u64, y: u64) -> u64
    requires bits { width.bits ≤ 64 }
    requires divisor { y ≢ 0 }
    ensures { result ≡ applied width BinaryOperator.Modulo x y }
{
    if !width.signed {
        return wrap(width, u128::from(x % y));
    }
    let remainder = u128::from(magnitude(x) % magnitude(y));
    if is_negative(x) {
        wrap(width, opposite(remainder))
    } else {
        wrap(width, remainder)
    }
}

#[tactic(auto, unfolding(terra_words::specs::Words::applied))]
fn shift_left(width: Width, x: u64, y: u64) -> u64
    requires { width.bits ≤ 64 }
    ensures { result ≡ applied width BinaryOperator.ShiftLeft x y }
{
    if width.bits == 0 {
        return 0;
    }
    wrap(width, u128::from(x) * power(y % width.bits))
}

#[tactic(auto, unfolding(terra_words::specs::Words::applied))]
fn shift_right(width: Width, x: u64, y: u64) -> u64
    requires { width.bits ≤ 64 }
    ensures { result ≡ applied width BinaryOperator.ShiftRight x y }
{
    if width.bits == 0 {
        return 0;
    }
    let count = power(y % width.bits);
    if width.signed && is_negative(x) {
        return wrap(
            width,
            u128::from(u64::MAX) - u128::from(u64::MAX - x) / count,
        );
    }
    wrap(width, u128::from(x) / count)
}

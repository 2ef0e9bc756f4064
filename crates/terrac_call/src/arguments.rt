// The arguments of a run.

ghost use Rattle.std.specs.Prelude.{◌≡◌, ℕ, ◌+◌, ◌-◌, ◌*◌, ◌≤◌, length, IfOk, IsTrue};
ghost use Rattle.std.specs.List.{list_all};
ghost use Rattle.std.specs.Char.{is_ascii_digit};
ghost use Rattle.terrac_call.specs.Arguments.{number_of, is_number, size_of, below_64_bits, bool_word, number_word};
ghost use Rattle.terrac_call.specs.Arguments.{argument_of, arguments_of};
ghost use Rattle.terrac_call.specs.JobView.{texts_of, shown_arguments, HasCount};

use elf_image::{word_above, word_below};
use std::alloc::Global;
use tl_base::NoMemory;

/// The type code of bool.
const BOOL: u8 = 9;

/// The arguments as 64-bit words, or the least position, from 1, at which a word is bad, missing or one too many.
#[derive(Drop)]
pub(crate) enum Arguments {
    Good(Vec<u64>),
    Bad(u64),
}

/// The arguments for parameters of the types of these codes.
pub(crate) fn arguments_of(
    alloc: Global,
    codes: &[u8],
    words: &[&str],
) -> Result<Arguments, NoMemory>
    ensures value { IfOk result (λ arguments. shown_arguments arguments ≡ arguments_of codes.now 1 (texts_of words.now)) }
    ensures count { IfOk result (λ arguments. HasCount (length codes.now) arguments) }
{
    let mut values = Vec::new(alloc);
    for word in words {
        let position = values.len();
        if position == codes.len() {
            return Ok(Arguments::Bad(position as u64 + 1));
        }
        match argument(codes[position], word) {
            Some(value) => values.push(value)?,
            None => return Ok(Arguments::Bad(position as u64 + 1)),
        }
    }
    if values.len() < codes.len() {
        return Ok(Arguments::Bad(values.len() as u64 + 1));
    }
    Ok(Arguments::Good(values))
}

/// The word of an argument for a parameter of the type of this code; `None` where it is bad.
fn argument(code: u8, text: &str) -> Option<u64>
    ensures { result ≡ argument_of code text.now }
{
    match code {
        BOOL => bool_word(text),
        _ => number_word(code, text.as_bytes()),
    }
}

fn bool_word(text: &str) -> Option<u64>
    ensures { result ≡ bool_word text.now }
{
    match text {
        "true" => Some(1),
        "false" => Some(0),
        _ => None,
    }
}

/// The word of a number: an optional `-` and decimal digits.
fn number_word(code: u8, text: &[u8]) -> Option<u64>
    ensures { result ≡ number_word code text.now }
{
    match text {
        [b'-', digits @ ..] => word_below(code, size_of(digits)?),
        digits => word_above(code, size_of(digits)?),
    }
}

/// The number of 1 to 20 decimal digits, where it has 64 bits at most.
fn size_of(digits: &[u8]) -> Option<u64>
    ensures { result ≡ size_of digits.now }
{
    if is_number(digits) {
        number_of(digits)
    } else {
        None
    }
}

/// Whether these are 1 to 20 decimal digits.
fn is_number(digits: &[u8]) -> bool
    ensures { result ≡ is_number digits.now }
{
    are_digits(digits) && 1 <= digits.len() && digits.len() <= 20
}

fn are_digits(bytes: &[u8]) -> bool
    ensures { result ≡ list_all is_ascii_digit bytes.now }
{
    bytes.iter().all(|byte| byte.is_ascii_digit())
}

/// The number that decimal digits are, where it is below 2^64.
fn number_of(digits: &[u8]) -> Option<u64>
    requires { IsTrue (list_all is_ascii_digit digits.now) }
    ensures { result ≡ below_64_bits (number_of digits.now) }
{
    let mut number = 0;
    let mut rest = digits;
    'digits: while let Some((digit, others)) = rest.split_first() {
        match with_digit(number, *digit) {
            Some(larger) => number = larger,
            None => return None,
        }
        rest = others;
    }
    Some(number)
}

/// A number with one more decimal digit at its end, where it stays below 2^64.
fn with_digit(number: u64, digit: u8) -> Option<u64>
    requires { 48 ≤ digit }
    ensures { result ≡ below_64_bits (10 * number + (digit - 48)) }
{
    number.checked_mul(10)?.checked_add(u64::from(digit - b'0'))
}

// The values of numerals.
ghost use Rattle.std.specs.Prelude.{◌≡◌, ◌<◌, ◌≤◌, ◌+◌, ◌*◌, length, drop};
ghost use Rattle.tl_tree.specs.Numbers as numbers;

/// The value of a digit of a base, small and large letters alike.
fn digit(base: u64, c: u8) -> Option<u64>
    ensures { result ≡ numbers.digit_of base c }
{
    let value = match c {
        b'0'..=b'9' => c - b'0',
        b'A'..=b'F' => c - b'A' + 10,
        b'a'..=b'f' => c - b'a' + 10,
        _ => return None,
    };
    let value = u64::from(value);
    if value < base { Some(value) } else { None }
}

/// A number with one digit more behind it; `None` where it has more than 64 bits.
fn with_digit(base: u64, before: u64, digit: u64) -> Option<u64>
    ensures { result ≡ numbers.fitting (before * base + digit) }
{
    before.checked_mul(base)?.checked_add(digit)
}

/// The number that digits of a base write, up to what is no such digit; `None` where it has more than 64 bits.
fn number_in(base: u64, bytes: &[u8]) -> Option<u64>
    requires { 0 < base }
    ensures { result ≡ numbers.fitting (numbers.number_in base 0 bytes.now) }
{
    let mut value: u64 = 0;
    let mut at = 0;
    'digits: while at < bytes.len() {
        let Some(digit) = digit(base, bytes[at]) else {
            return Some(value);
        };
        let Some(more) = with_digit(base, value, digit) else {
            return None;
        };
        value = more;
        at += 1;
    }
    Some(value)
}

/// The value of a numeral: decimal digits, or `0x` or `0X` and hexadecimal digits, and a suffix (Lua 5.1 manual,
/// section 2.1). `None` where it has more than 64 bits.
#[tactic(auto, unfolding(crate::specs::Numbers::value_of))]
pub fn numeral_value(text: &str) -> Option<u64>
    ensures { result ≡ numbers.fitting (numbers.value_of text.now) }
{
    let bytes = text.as_bytes();
    if bytes.len() > 1 && bytes[0] == b'0' && (bytes[1] == b'x' || bytes[1] == b'X') {
        number_in(16, &bytes[2..])
    } else {
        number_in(10, bytes)
    }
}

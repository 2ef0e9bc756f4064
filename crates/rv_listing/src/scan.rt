// Numbers of a text, read loosely: all that is no digit stands between them.

ghost use Rattle.std.specs.Prelude.{◌≡◌, ◌<◌};
ghost use Rattle.rv_listing.specs.Reading.{longer, between, with_digit, scan_byte, scan_all, scan_start};

/// A number, by its sign and its size.
#[derive(Clone, Copy)]
pub(crate) struct Number {
    pub(crate) negative: bool,
    pub(crate) size: u64,
}

/// How far the reading of numbers is.
#[derive(Clone, Copy)]
pub(crate) struct Scan {
    /// The last number but two.
    pub(crate) first: Number,
    /// The last number but one.
    pub(crate) second: Number,
    /// The last number.
    pub(crate) third: Number,
    /// Whether the byte before was a digit of the last number.
    pub(crate) inside: bool,
    /// Whether a minus stood before the digits, if any.
    pub(crate) minus: bool,
}

// A larger number is no operand, however many digits follow.
const LARGE: u64 = 1_000_000_000;

/// The last three numbers of a text. One that isn't there is 0.
pub(crate) fn numbers_of(bytes: &[u8]) -> Scan
    ensures { result ≡ scan_all scan_start bytes.now }
{
    let zero = Number {
        negative: false,
        size: 0,
    };
    let mut s = Scan {
        first: zero,
        second: zero,
        third: zero,
        inside: false,
        minus: false,
    };
    for byte in bytes {
        s = scan_byte(s, *byte);
    }
    s
}

fn scan_byte(s: Scan, byte: u8) -> Scan
    ensures { result ≡ scan_byte s byte }
{
    if byte.is_ascii_digit() {
        with_digit(s, u64::from(byte - b'0'))
    } else {
        Scan {
            inside: false,
            minus: byte == b'-',
            ..s
        }
    }
}

fn with_digit(s: Scan, digit: u64) -> Scan
    requires { digit < 10 }
    ensures { result ≡ with_digit s digit }
{
    if s.inside {
        Scan {
            third: longer(s.third, digit),
            ..s
        }
    } else {
        Scan {
            first: s.second,
            second: s.third,
            third: Number {
                negative: s.minus,
                size: digit,
            },
            inside: true,
            minus: s.minus,
        }
    }
}

fn longer(n: Number, digit: u64) -> Number
    requires { digit < 10 }
    ensures { result ≡ longer n digit }
{
    if n.size < LARGE {
        Number {
            size: n.size * 10 + digit,
            ..n
        }
    } else {
        n
    }
}

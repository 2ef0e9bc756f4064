// Numerals.
ghost use Rattle.std.specs.Prelude.{◌≡◌, ◌<◌, ◌≤◌, length};
ghost use Rattle.std.specs.List.{prefix_len};
ghost use Rattle.tl_lex.specs.Bytes as classes;
ghost use Rattle.tl_lex.specs.Numerals as numerals;

use crate::bytes::{is_digit, is_hex_digit, is_numeral_byte};
use crate::front::Front;
use crate::{SyntaxKind, TokenKind};

fn is_suffix(bytes: &[u8]) -> bool
    ensures { result ≡ numerals.is_suffix bytes.now }
{
    bytes.is_empty() || bytes == b"LL".as_slice() || bytes == b"ULL".as_slice()
}

#[tactic(auto, using(crate::proofs::Prefixes::prefixes))]
fn digits_len(bytes: &[u8]) -> usize
    ensures len { result ≡ prefix_len classes.is_digit bytes.now }
    ensures within { result ≤ length bytes.now }
{
    bytes.iter().take_while(|c| is_digit(**c)).count()
}

#[tactic(auto, using(crate::proofs::Prefixes::prefixes))]
fn hex_digits_len(bytes: &[u8]) -> usize
    ensures len { result ≡ prefix_len classes.is_hex_digit bytes.now }
    ensures within { result ≤ length bytes.now }
{
    bytes.iter().take_while(|c| is_hex_digit(**c)).count()
}

fn is_decimal(bytes: &[u8]) -> bool
    ensures { result ≡ numerals.is_digits classes.is_digit bytes.now }
{
    let len = digits_len(bytes);
    len > 0 && is_suffix(&bytes[len..])
}

fn is_hex(bytes: &[u8]) -> bool
    ensures { result ≡ numerals.is_digits classes.is_hex_digit bytes.now }
{
    let len = hex_digits_len(bytes);
    len > 0 && is_suffix(&bytes[len..])
}

fn is_hexadecimal(bytes: &[u8]) -> bool
    ensures { result ≡ numerals.is_hexadecimal bytes.now }
{
    bytes.len() > 2
        && bytes[0] == b'0'
        && (bytes[1] == b'x' || bytes[1] == b'X')
        && is_hex(&bytes[2..])
}

#[tactic(auto, using(crate::proofs::Prefixes::prefixes))]
fn numeral_len(bytes: &[u8]) -> usize
    ensures len { result ≡ prefix_len classes.is_numeral_byte bytes.now }
    ensures within { result ≤ length bytes.now }
{
    bytes.iter().take_while(|c| is_numeral_byte(**c)).count()
}

/// The front of a text that begins with a digit.
#[tactic(auto, unfolding(crate::specs::Numerals::numeral_front, crate::specs::Numerals::is_numeral))]
pub(crate) fn numeral_front(bytes: &[u8]) -> Front
    ensures { result ≡ numerals.numeral_front bytes.now }
{
    let len = numeral_len(bytes);
    let run = &bytes[..len];
    if is_decimal(run) || is_hexadecimal(run) {
        Front::Lexeme(TokenKind::Numeral, len)
    } else {
        Front::Refusal(SyntaxKind::BadNumber)
    }
}

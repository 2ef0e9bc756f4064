// The classes of bytes that the rules of tokens speak of.
ghost use Rattle.std.specs.Prelude.{◌≡◌};
ghost use Rattle.tl_lex.specs.Bytes as classes;

pub(crate) fn is_white(c: u8) -> bool
    ensures { result ≡ classes.is_white c }
{
    (9 <= c && c <= 13) || c == b' '
}

pub(crate) fn is_line_end(c: u8) -> bool
    ensures { result ≡ classes.is_line_end c }
{
    c == b'\n' || c == b'\r'
}

pub(crate) fn is_letter(c: u8) -> bool
    ensures { result ≡ classes.is_letter c }
{
    (b'A' <= c && c <= b'Z') || (b'a' <= c && c <= b'z')
}

pub(crate) fn is_digit(c: u8) -> bool
    ensures { result ≡ classes.is_digit c }
{
    b'0' <= c && c <= b'9'
}

pub(crate) fn is_hex_digit(c: u8) -> bool
    ensures { result ≡ classes.is_hex_digit c }
{
    is_digit(c) || (b'A' <= c && c <= b'F') || (b'a' <= c && c <= b'f')
}

pub(crate) fn begins_name(c: u8) -> bool
    ensures { result ≡ classes.begins_name c }
{
    is_letter(c) || c == b'_'
}

pub(crate) fn is_name_byte(c: u8) -> bool
    ensures { result ≡ classes.is_name_byte c }
{
    begins_name(c) || is_digit(c)
}

pub(crate) fn is_numeral_byte(c: u8) -> bool
    ensures { result ≡ classes.is_numeral_byte c }
{
    is_name_byte(c) || c == b'.'
}

pub(crate) fn is_quote(c: u8) -> bool
    ensures { result ≡ classes.is_quote c }
{
    c == b'"' || c == b'\''
}

// Line ends.
ghost use Rattle.std.specs.Prelude.{◌≡◌, ◌+◌, ◌<◌, ◌≤◌, ◌∷◌, length, drop};
ghost use Rattle.tl_lex.specs.LineEnds as ends;

use crate::bytes::is_line_end;

/// How many bytes the line end has at the front: one or two, or none.
pub(crate) fn line_end_len(bytes: &[u8]) -> usize
    ensures { result ≡ ends.line_end_len bytes.now }
{
    if bytes.is_empty() || !is_line_end(bytes[0]) {
        return 0;
    }
    if bytes.len() > 1 && is_line_end(bytes[1]) && bytes[0] != bytes[1] {
        return 2;
    }
    1
}

/// The first character of a text: a line end, which is an LF, or a byte.
#[derive(Clone, Copy, PartialEq, Eq)]
pub(crate) struct FirstCharacter {
    /// How many bytes it has.
    pub(crate) len: usize,
    /// The byte that it is when each line end is one LF.
    pub(crate) byte: u8,
}

/// The first character of a text that isn't empty.
pub(crate) fn first_character(bytes: &[u8]) -> FirstCharacter
    requires { 0 < length bytes.now }
    ensures some { 0 < result.len }
    ensures within { result.len ≤ length bytes.now }
    ensures first { ends.with_line_feeds bytes.now ≡ result.byte ∷ ends.with_line_feeds (drop result.len bytes.now) }
{
    let len = line_end_len(bytes);
    if len == 0 {
        FirstCharacter {
            len: 1,
            byte: bytes[0],
        }
    } else {
        FirstCharacter { len, byte: b'\n' }
    }
}

/// What a text is when each line end is one LF.
#[derive(Clone, Copy, PartialEq, Eq)]
pub(crate) struct Unified {
    /// How many bytes it has then.
    pub(crate) len: usize,
    /// How many line ends there are.
    pub(crate) line_ends: usize,
}

/// Counts the line ends of a text, and its bytes when each line end is one LF.
pub(crate) fn count_line_ends(bytes: &[u8]) -> Unified
    ensures len { result.len ≡ length (ends.with_line_feeds bytes.now) }
    ensures line_ends { result.line_ends ≡ ends.line_ends bytes.now }
{
    let mut at = 0;
    let mut len = 0;
    let mut line_ends = 0;
    'bytes: while at < bytes.len() {
        let ends = line_end_len(&bytes[at..]);
        if ends == 0 {
            at += 1;
        } else {
            at += ends;
            line_ends += 1;
        }
        len += 1;
    }
    Unified { len, line_ends }
}

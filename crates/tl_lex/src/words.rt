// Names and reserved words.
ghost use Rattle.std.specs.Prelude.{◌≡◌, ◌<◌, ◌≤◌, [], ◌∷◌, length, codes, bytes_eq};
ghost use Rattle.std.specs.List.{prefix_len};
ghost use Rattle.tl_lex.specs.Bytes as classes;
ghost use Rattle.tl_lex.specs.Words as words;

use crate::bytes::is_name_byte;
use crate::front::Front;
use crate::{SyntaxKind, TokenKind};

/// The most bytes of a name.
const LONGEST_NAME: usize = 255;

/// Is the word this one? Most others differ from it in their first byte.
#[tactic(auto, using(crate::proofs::WordLemmas::first_differs))]
#[inline(always)]
fn is_word(word: &[u8], other: &[u8]) -> bool
    ensures { result ≡ bytes_eq word.now other.now }
{
    if !word.is_empty() && !other.is_empty() && word[0] != other[0] {
        return false;
    }
    word == other
}

fn is_two_byte_word(word: &[u8]) -> bool
    ensures { result ≡ words.is_one_of word.now (codes "do" ∷ codes "if" ∷ codes "in" ∷ codes "or" ∷ []) }
{
    is_word(word, b"do".as_slice())
        || is_word(word, b"if".as_slice())
        || is_word(word, b"in".as_slice())
        || is_word(word, b"or".as_slice())
}

fn is_three_byte_word(word: &[u8]) -> bool
    ensures { result ≡ words.is_one_of word.now (codes "and" ∷ codes "end" ∷ codes "for" ∷ codes "nil" ∷ codes "not" ∷ codes "var" ∷ []) }
{
    is_word(word, b"and".as_slice())
        || is_word(word, b"end".as_slice())
        || is_word(word, b"for".as_slice())
        || is_word(word, b"nil".as_slice())
        || is_word(word, b"not".as_slice())
        || is_word(word, b"var".as_slice())
}

fn is_four_byte_word(word: &[u8]) -> bool
    ensures { result ≡ words.is_one_of word.now (codes "else" ∷ codes "then" ∷ codes "true" ∷ codes "emit" ∷ []) }
{
    is_word(word, b"else".as_slice())
        || is_word(word, b"then".as_slice())
        || is_word(word, b"true".as_slice())
        || is_word(word, b"emit".as_slice())
}

fn is_five_byte_word(word: &[u8]) -> bool
    ensures { result ≡ words.is_one_of word.now
        (codes "break" ∷ codes "false" ∷ codes "local" ∷ codes "until" ∷ codes "while" ∷ codes "terra" ∷ codes "quote" ∷ []) }
{
    is_word(word, b"break".as_slice())
        || is_word(word, b"false".as_slice())
        || is_word(word, b"local".as_slice())
        || is_word(word, b"until".as_slice())
        || is_word(word, b"while".as_slice())
        || is_word(word, b"terra".as_slice())
        || is_word(word, b"quote".as_slice())
}

fn is_six_byte_word(word: &[u8]) -> bool
    ensures { result ≡ words.is_one_of word.now (codes "elseif" ∷ codes "repeat" ∷ codes "return" ∷ codes "escape" ∷ codes "struct" ∷ []) }
{
    is_word(word, b"elseif".as_slice())
        || is_word(word, b"repeat".as_slice())
        || is_word(word, b"return".as_slice())
        || is_word(word, b"escape".as_slice())
        || is_word(word, b"struct".as_slice())
}

fn is_eight_byte_word(word: &[u8]) -> bool
    ensures { result ≡ words.is_one_of word.now (codes "function" ∷ []) }
{
    is_word(word, b"function".as_slice())
}

/// By the length of the word, then by comparison.
#[inline(never)]
fn is_reserved(word: &[u8]) -> bool
    ensures { result ≡ words.is_reserved word.now }
{
    let len = word.len();
    if len == 2 {
        is_two_byte_word(word)
    } else if len == 3 {
        is_three_byte_word(word)
    } else if len == 4 {
        is_four_byte_word(word)
    } else if len == 5 {
        is_five_byte_word(word)
    } else if len == 6 {
        is_six_byte_word(word)
    } else if len == 8 {
        is_eight_byte_word(word)
    } else {
        false
    }
}

#[tactic(auto, using(crate::proofs::Prefixes::prefixes))]
fn name_len(bytes: &[u8]) -> usize
    ensures len { result ≡ prefix_len classes.is_name_byte bytes.now }
    ensures within { result ≤ length bytes.now }
{
    bytes.iter().take_while(|c| is_name_byte(**c)).count()
}

/// The front of a text that begins with a letter or `_`.
#[tactic(auto, unfolding(crate::specs::Words::word_front))]
#[inline(always)]
pub(crate) fn word_front(bytes: &[u8]) -> Front
    ensures { result ≡ words.word_front bytes.now }
{
    let len = name_len(bytes);
    if len > LONGEST_NAME {
        return Front::Refusal(SyntaxKind::NameTooLong);
    }
    if is_reserved(&bytes[..len]) {
        Front::Lexeme(TokenKind::Reserved, len)
    } else {
        Front::Lexeme(TokenKind::Name, len)
    }
}

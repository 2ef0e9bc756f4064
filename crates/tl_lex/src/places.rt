// Places of tokens.
ghost use Rattle.std.specs.Prelude.{◌≡◌, ◌≢◌, ◌+◌, ◌<◌, ◌≤◌, ◌^◌, length};
ghost use Rattle.tl_lex.specs.LineEnds.{line_ends};
ghost use Rattle.tl_lex.specs.Answers as answers;
ghost use Rattle.tl_lex.specs.Lexing as lexing;
ghost use Rattle.tl_lex.specs.declared.TokenKind.TheVariants as kinds;

use crate::TokenKind;
use crate::brackets::begins_with;
use crate::front::line_len;
use crate::line_ends::count_line_ends;
use tl_base::Place;

/// How many bytes a first line has that is no code, without its line end.
pub(crate) fn first_line_len(text: &[u8]) -> usize
    ensures { result ≡ answers.first_line_len text.now }
{
    if begins_with(b'#', text) {
        line_len(text)
    } else {
        0
    }
}

/// The place behind so many line ends, or behind so many words on the same line.
pub(crate) fn moved(place: Place, lines: u32, words: u32) -> Place
    requires line_fits { place.line + lines < 2 ^ 32 }
    requires word_fits { place.word + words < 2 ^ 32 }
    ensures { result ≡ lexing.moved place lines words }
{
    if lines == 0 {
        Place {
            line: place.line,
            word: place.word + words,
        }
    } else {
        Place {
            line: place.line + lines,
            word: 1,
        }
    }
}

/// How many line ends a token has. Only a literal can have some.
pub(crate) fn line_ends_in(kind: TokenKind, token: &[u8]) -> usize
    requires { kind ≢ kinds.Literal → line_ends token.now ≡ 0 }
    ensures { result ≡ line_ends token.now }
{
    match kind {
        TokenKind::Literal => count_line_ends(token).line_ends,
        _ => 0,
    }
}

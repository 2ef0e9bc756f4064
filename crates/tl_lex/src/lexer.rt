// The lexer.
ghost use Rattle.std.specs.Prelude.{◌+◌, ◌<◌, ◌^◌, length};

use crate::brackets::begins_with;
use crate::front::{Front, front_of};
use crate::line_ends::count_line_ends;
use crate::places::{first_line_len, line_ends_in, moved};
use crate::token::Token;
use crate::{LONGEST_TEXT, LexError, TokenKind};
use tl_base::Place;

/// Gives the tokens of a text, one after the other.
#[derive(Drop)]
pub struct Lexer<'a> {
    /// The text that is left.
    rest: &'a str,
    /// The place of a token that begins here.
    place: Place,
    /// How many bytes of the source are before it.
    offset: u32,
    ghost line_fits: { place.line + length rest.now < 2 ^ 32 },
    ghost word_fits: { place.word + length rest.now < 2 ^ 32 },
    ghost offset_fits: { offset + length rest.now < 2 ^ 32 },
}

impl<'a> Lexer<'a> {
    ghost use Rattle.std.specs.Prelude.{◌≡◌, ◌≤◌, slice_get, Some, take, drop, IsCharBoundary};
    ghost use Rattle.tl_lex.specs.LineEnds.{line_ends};
    ghost use Rattle.tl_lex.specs.Fronts.{front_of};
    ghost use Rattle.tl_lex.specs.Answers.{answers_of};
    ghost use Rattle.tl_lex.specs.Lexing.{answers_left, answer_of, behind_first, position_of, behind, IsOther};

    /// A lexer before the first token of a text. A first line that begins with `#` is passed over.
    pub fn new(text: &'a str) -> Lexer<'a>
        requires { length text.now ≤ LONGEST_TEXT }
        ensures { answers_left result ≡ answers_of text.now }
    {
        let first_line = first_line_len(text.as_bytes());
        Lexer {
            rest: &text[first_line..],
            place: Place { line: 1, word: 1 },
            offset: first_line as u32,
        }
    }

    /// Passes over so many bytes with so many line ends and words.
    fn pass(&mut self, len: usize, lines: usize, words: u32) -> &'a str
        requires cut { IsCharBoundary self.old.rest.now len }
        requires some { 0 < len }
        requires lines { lines ≡ line_ends (take len self.old.rest.now) }
        requires words { words ≤ 1 }
        ensures text { result.now ≡ take len self.old.rest.now }
        ensures rest { self.new.rest.now ≡ drop len self.old.rest.now }
        ensures position { position_of self.new ≡ behind (position_of self.old) len lines words }
    {
        let (front, rest) = self.rest.split_at(len);
        self.rest = rest;
        self.place = moved(self.place, lines as u32, words);
        self.offset += len as u32;
        front
    }

    /// Passes over spaces.
    fn pass_spaces(&mut self)
        ensures { answers_left self.new ≡ answers_left self.old }
    {
        'spaces: while begins_with(b' ', self.rest.as_bytes()) {
            self.pass(1, 0, 0);
        }
    }

    /// Passes over runs of white space and comments, up to another front.
    #[inline(always)]
    fn pass_runs(&mut self) -> Front
        ensures front { result ≡ front_of self.new.rest.now }
        ensures other { IsOther result }
        ensures left { answers_left self.new ≡ answers_left self.old }
    {
        'blanks: loop {
            let bytes = self.rest.as_bytes();
            let front = front_of(bytes);
            let Front::Blank(len) = front else {
                return front;
            };
            let lines = count_line_ends(&bytes[..len]).line_ends;
            self.pass(len, lines, 0);
        }
    }

    /// Passes over white space and comments, up to another front. Most of it is single spaces.
    #[inline(always)]
    fn pass_blanks(&mut self) -> Front
        ensures front { result ≡ front_of self.new.rest.now }
        ensures other { IsOther result }
        ensures left { answers_left self.new ≡ answers_left self.old }
    {
        self.pass_spaces();
        self.pass_runs()
    }

    /// The next token. The end token, and a refusal, come again and again. Takes no memory.
    #[inline(always)]
    pub fn next_token(&mut self) -> Result<Token<'a>, LexError>
        ensures first { slice_get (answers_left self.old) 0 ≡ Some (answer_of result) }
        ensures rest { answers_left self.new ≡ behind_first (answers_left self.old) }
    {
        let front = self.pass_blanks();
        let place = self.place;
        let offset = self.offset;
        match front {
            Front::Lexeme(kind, len) => {
                let lines = line_ends_in(kind, &self.rest.as_bytes()[..len]);
                let text = self.pass(len, lines, 1);
                Ok(Token {
                    kind,
                    text,
                    place,
                    offset,
                    first_on_line: place.word == 1,
                })
            }
            Front::Refusal(kind) => Err(LexError { kind, place }),
            Front::End => Ok(Token {
                kind: TokenKind::End,
                text: self.rest,
                place,
                offset,
                first_on_line: place.word == 1,
            }),
            Front::Blank(_) => unreachable!(),
        }
    }
}

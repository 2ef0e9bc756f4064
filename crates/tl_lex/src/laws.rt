//! Laws of the division of texts into tokens. The functions do nothing: their contracts are the laws.

ghost use Rattle.std.specs.Prelude.{◌≡◌, ℕ, drop};
ghost use Rattle.tl_lex.specs.Fronts.{front_of};
ghost use Rattle.tl_lex.specs.Answers.{first_line_len, answers_of};
ghost use Rattle.tl_lex.specs.Laws.{HasOneDivision, EndsOnce, AreSlices, IsLongestToken, IsOnlyLiteral, BeginsNoToken, BeginsNoLiteral};
ghost use Rattle.tl_lex.specs.declared.SyntaxKind.TheVariants as why;
ghost use Rattle.tl_lex.specs.declared.TokenKind.{TokenKind};
ghost use Rattle.tl_lex.specs.declared.front.Front.TheVariants as fronts;

/// A text, behind a first line that begins with `#`, has exactly one division into white space, comments and tokens, which ends with the
/// text or with its first refusal. Its answers are tokens and then one end token or one refusal.
pub fn one_division(text: &str)
    ensures division { HasOneDivision (drop (first_line_len text.now) text.now) }
    ensures answers { EndsOnce (answers_of text.now) }
{}

/// Each token of a text is the slice of it that its offset and its length tell.
pub fn slices(text: &str)
    ensures { AreSlices text.now (answers_of text.now) }
{}

/// The token at the front of a text is a token by itself, and no longer front of the text is one, of whatever kind. No other
/// front of the text, longer or shorter, is a literal.
pub fn longest_token(text: &str)
    ensures longest { (kind : TokenKind) (len : ℕ)
        → front_of text.now ≡ fronts.Lexeme kind len → IsLongestToken text.now kind len }
    ensures literal { (kind : TokenKind) (len : ℕ)
        → front_of text.now ≡ fronts.Lexeme kind len → IsOnlyLiteral text.now len }
{}

/// Where a text is refused as a bad byte, no token of any kind begins. Where it is refused as an open text, no literal begins.
pub fn refusals(text: &str)
    ensures bad_byte { front_of text.now ≡ fronts.Refusal why.BadByte → BeginsNoToken text.now }
    ensures open_text { front_of text.now ≡ fronts.Refusal why.OpenText → BeginsNoLiteral text.now }
{}

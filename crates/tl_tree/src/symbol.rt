// The symbols of the grammar.
use tl_lex::SyntaxKind;

/// What a token is to the grammar: each reserved word and each sign by name, and the classes of the other tokens.
#[derive(Clone, Copy, Debug, PartialEq, Eq)]
pub enum Symbol {
    And,
    Break,
    Do,
    Else,
    Elseif,
    End,
    False,
    For,
    Function,
    If,
    In,
    Local,
    Nil,
    Not,
    Or,
    Repeat,
    Return,
    Then,
    True,
    Until,
    While,
    Terra,
    Quote,
    Escape,
    Emit,
    Struct,
    Var,
    Plus,
    Minus,
    Star,
    Slash,
    Percent,
    Caret,
    Hash,
    /// `==`
    DoubleEqual,
    /// `~=`
    NotEqual,
    LessEqual,
    GreaterEqual,
    Less,
    Greater,
    /// `=`
    Equal,
    OpenParen,
    CloseParen,
    OpenBrace,
    CloseBrace,
    OpenBracket,
    CloseBracket,
    Semicolon,
    Colon,
    DoubleColon,
    Comma,
    Dot,
    DoubleDot,
    Ellipsis,
    /// `->`
    Arrow,
    At,
    Ampersand,
    /// `<<`
    DoubleLess,
    /// `>>`
    DoubleGreater,
    Backtick,
    Name,
    /// A numeral without suffix.
    Numeral,
    /// A numeral with the suffix `LL`.
    LongNumeral,
    /// A numeral with the suffix `ULL`.
    UnsignedNumeral,
    /// A text in quotes or in long brackets.
    Literal,
    /// What breaks a rule of tokens.
    Bad(SyntaxKind),
    /// The end of the text.
    Finish,
}

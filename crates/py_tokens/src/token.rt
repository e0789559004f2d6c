// The tokens of a text.
use py_base::{Place, Text};

/// A token, from its place up to its end, which is the place just after its last character. The
/// tokens of the layout have no characters: their end is their place.
#[derive(Debug, Drop)]
pub struct Token {
    pub place: Place,
    pub end: Place,
    pub form: TokenForm,
}

/// What a token is.
#[derive(Debug, Drop)]
pub enum TokenForm {
    /// A name, by its bytes in UTF-8.
    Name(Text),
    /// A keyword.
    Key(Keyword),
    /// A number.
    Number(i128),
    /// A string, by the bytes of what it stands for.
    Str(Text),
    /// A mark.
    Mark(Mark),
    /// The end of a line that has tokens.
    Newline,
    /// A line is deeper than the one before.
    Indent,
    /// A line is shallower by one open width.
    Dedent,
    /// The end of the text.
    End,
}

/// The keywords.
#[derive(Clone, Copy, Debug, PartialEq, Eq)]
pub enum Keyword {
    False,
    None,
    True,
    And,
    As,
    Assert,
    Async,
    Await,
    Break,
    Class,
    Continue,
    Def,
    Del,
    Elif,
    Else,
    Except,
    Finally,
    For,
    From,
    Global,
    If,
    Import,
    In,
    Is,
    Lambda,
    Nonlocal,
    Not,
    Or,
    Pass,
    Raise,
    Return,
    Try,
    While,
    With,
    Yield,
}

/// The marks.
#[derive(Clone, Copy, Debug, PartialEq, Eq)]
pub enum Mark {
    /// `(`
    OpenParen,
    /// `)`
    CloseParen,
    /// `[`
    OpenBracket,
    /// `]`
    CloseBracket,
    /// `:`
    Colon,
    /// `,`
    Comma,
    /// `.`
    Dot,
    /// `=`
    Assign,
    /// `->`
    Arrow,
    /// `@`
    At,
    /// `+`
    Plus,
    /// `-`
    Minus,
    /// `*`
    Star,
    /// `/`
    Slash,
    /// `//`
    TwoSlashes,
    /// `%`
    Percent,
    /// `<`
    Less,
    /// `<=`
    LessEqual,
    /// `>`
    Greater,
    /// `>=`
    GreaterEqual,
    /// `==`
    Equal,
    /// `!=`
    NotEqual,
    /// `+=`
    PlusAssign,
    /// `-=`
    MinusAssign,
    /// `*=`
    StarAssign,
    /// `//=`
    TwoSlashesAssign,
    /// `%=`
    PercentAssign,
}

// What the next token begins.
ghost use Rattle.py_parser.specs.Begins.{BlockBegins, StmtBegins, ListBegins, TailBegins};

use py_tokens::{Keyword, Token, TokenForm};

/// How a block begins.
#[derive(Clone, Copy, Debug)]
pub enum BlockStart {
    /// With the end of a line, so that an indented list is behind it.
    Lines,
    /// With a statement on the line.
    Line,
}

/// How the token begins a block.
pub fn block_start(token: &Token) -> BlockStart
    ensures { BlockBegins result token.now.place token.now.form }
{
    match &token.form {
        TokenForm::Newline => BlockStart::Lines,
        _ => BlockStart::Line,
    }
}

/// How a list of statements goes on.
#[derive(Clone, Copy, Debug)]
pub enum ListStart {
    /// It is at its end.
    End,
    /// With a statement.
    More,
}

/// How a list of statements goes on with the token.
pub fn list_start(token: &Token) -> ListStart
    ensures { ListBegins result token.now.place token.now.form }
{
    match &token.form {
        TokenForm::Dedent => ListStart::End,
        _ => ListStart::More,
    }
}

/// How a statement begins.
#[derive(Clone, Copy, Debug)]
pub enum StmtStart {
    If,
    While,
    Try,
    With,
    /// It is a statement of one line.
    Line,
}

/// How the token begins a statement.
pub fn stmt_start(token: &Token) -> StmtStart
    ensures { StmtBegins result token.now.place token.now.form }
{
    match &token.form {
        TokenForm::Key(Keyword::If) => StmtStart::If,
        TokenForm::Key(Keyword::While) => StmtStart::While,
        TokenForm::Key(Keyword::Try) => StmtStart::Try,
        TokenForm::Key(Keyword::With) => StmtStart::With,
        _ => StmtStart::Line,
    }
}

/// What stands behind the block of `try`.
#[derive(Clone, Copy, Debug)]
pub enum TailStart {
    Except,
    Finally,
    /// Neither may be missing.
    Other,
}

/// What the token is behind the block of `try`.
pub fn tail_start(token: &Token) -> TailStart
    ensures { TailBegins result token.now.form }
{
    match &token.form {
        TokenForm::Key(Keyword::Except) => TailStart::Except,
        TokenForm::Key(Keyword::Finally) => TailStart::Finally,
        _ => TailStart::Other,
    }
}

// Lines that are too long.
ghost use Rattle.std.specs.Prelude.{◌≡◌, ◌≤◌, ◌↔◌, ◌&&◌, nat_le, IsTrue};
ghost use Rattle.py_parser.specs.Limits.{HasLongLine, is_counted, count_behind};

use expr_parser::expr::split;
use py_tokens::{Token, TokenForm};

/// The number of tokens that a logical line may have.
pub const LINE_LIMIT: usize = 2_000;

fn is_counted(form: &TokenForm) -> bool
    ensures { result ≡ is_counted form.now }
{
    !matches!(form, TokenForm::Indent | TokenForm::Dedent | TokenForm::End)
}

fn count_behind(count: usize, form: &TokenForm) -> usize
    requires { count ≤ 2000 }
    ensures { result ≡ count_behind count form.now }
{
    match form {
        TokenForm::Newline => 0,
        TokenForm::Indent | TokenForm::Dedent | TokenForm::End => count,
        _ => count + 1,
    }
}

// Whether a token is one too many, behind so many of its line.
fn is_over(count: usize, form: &TokenForm) -> bool
    ensures { result ≡ is_counted form.now && nat_le 2000 count }
{
    is_counted(form) && count >= LINE_LIMIT
}

/// Whether a line has too many tokens.
pub fn has_long_line(ts: &[Token]) -> bool
    ensures { IsTrue result ↔ HasLongLine 2000 ts.now }
{
    let mut count = 0;
    let mut rest = ts;
    'tokens: while let Some((token, after)) = split(rest) {
        if is_over(count, &token.form) {
            return true;
        }
        count = count_behind(count, &token.form);
        rest = after;
    }
    false
}

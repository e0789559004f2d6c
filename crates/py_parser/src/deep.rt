// Tokens that are nested too deep.
ghost use Rattle.std.specs.Prelude.{◌≡◌, ◌≤◌, suc, if◌then◌else◌, List, MatchOption};
ghost use Rattle.std.specs.Option.{option_map};
ghost use Rattle.py_tokens.specs.declared.Token.{Token};
ghost use Rattle.py_grammar.specs.Nesting.{open_after, ends_operand, is_prefix};
ghost use Rattle.py_parser.specs.Depths.{IsNowhereDeep, IsDeepAt, form_of, is_word_is, is_word_not, is_minus};

use py_tokens::{Keyword, Mark, Token, TokenForm};

/// The deepest nesting of a token that is read.
pub const NESTING_LIMIT: usize = 100;

// The number of open indents and brackets once a token is read.
fn open_after(opened: usize, form: &TokenForm) -> usize
    requires { opened ≤ 1000 }
    ensures { result ≡ open_after opened form.now }
{
    match form {
        TokenForm::Indent | TokenForm::Mark(Mark::OpenParen) | TokenForm::Mark(Mark::OpenBracket) =>
            opened + 1,
        TokenForm::Dedent
        | TokenForm::Mark(Mark::CloseParen)
        | TokenForm::Mark(Mark::CloseBracket) => opened.saturating_sub(1),
        _ => opened,
    }
}

// Whether an operand may end with a token.
fn ends_operand(form: &TokenForm) -> bool
    ensures { result ≡ ends_operand form.now }
{
    matches!(
        form,
        TokenForm::Name(_)
            | TokenForm::Number(_)
            | TokenForm::Str(_)
            | TokenForm::Key(Keyword::True)
            | TokenForm::Key(Keyword::False)
            | TokenForm::Key(Keyword::None)
            | TokenForm::Mark(Mark::CloseParen)
    )
}

fn is_word_is(form: &TokenForm) -> bool
    ensures { result ≡ is_word_is form.now }
{
    matches!(form, TokenForm::Key(Keyword::Is))
}

fn is_word_not(form: &TokenForm) -> bool
    ensures { result ≡ is_word_not form.now }
{
    matches!(form, TokenForm::Key(Keyword::Not))
}

fn is_minus(form: &TokenForm) -> bool
    ensures { result ≡ is_minus form.now }
{
    matches!(form, TokenForm::Mark(Mark::Minus))
}

// Whether a token is a `not` or a prefix `-`.
#[tactic(auto, using(crate::proofs::DeepTokens::prefix_rows))]
fn is_prefix(last: Option<&Token>, form: &TokenForm) -> bool
    ensures { result ≡ is_prefix (option_map form_of last.entry) form.now }
{
    if is_word_not(form) {
        match last {
            Some(before) => !is_word_is(&before.form),
            None => true,
        }
    } else if is_minus(form) {
        match last {
            Some(before) => !ends_operand(&before.form),
            None => true,
        }
    } else {
        false
    }
}

// The length of the run of prefixes that ends with a token.
fn prefixes_behind(prefixes: usize, last: Option<&Token>, form: &TokenForm) -> usize
    requires { prefixes ≤ 1000 }
    ensures { result ≡ (if is_prefix (option_map form_of last.entry) form.now then suc prefixes else 0) }
{
    if is_prefix(last, form) {
        prefixes + 1
    } else {
        0
    }
}

/// The first token that is nested too deep, and those before it.
pub fn first_deep(ts: &[Token]) -> Option<(&[Token], &Token)>
    ensures { MatchOption result (IsNowhereDeep 100 ts.now) (λ x. (after : List Token) × IsDeepAt 100 ts.now x.0.now x.1.now after) }
{
    let mut opened = 0;
    let mut prefixes = 0;
    let mut last: Option<&Token> = None;
    let mut index = 0;
    'tokens: while index < ts.len() {
        let token = &ts[index];
        opened = open_after(opened, &token.form);
        if opened + prefixes > NESTING_LIMIT {
            return Some((&ts[..index], token));
        }
        prefixes = prefixes_behind(prefixes, last, &token.form);
        last = Some(token);
        index += 1;
    }
    None
}

// Marks.
ghost use Rattle.std.specs.Prelude.{◌≡◌, ◌++◌, ◌∷◌, [], ◌↔◌, IsTrue, ℕ, List, IsNone, IfSome};
ghost use Rattle.py_tokens.specs.MarkForms.{mark_text};
ghost use Rattle.py_tokens.specs.StringForms.{BeginsWith};
ghost use Rattle.py_tokens.specs.TextPieces.{Longest, IsMark};
ghost use Rattle.py_lexer.specs.LongestForms.{IsLongestOf};

use py_tokens::Mark;

const MARKS: [Mark; 27] = [
    Mark::OpenParen,
    Mark::CloseParen,
    Mark::OpenBracket,
    Mark::CloseBracket,
    Mark::Colon,
    Mark::Comma,
    Mark::Dot,
    Mark::Assign,
    Mark::Arrow,
    Mark::At,
    Mark::Plus,
    Mark::Minus,
    Mark::Star,
    Mark::Slash,
    Mark::TwoSlashes,
    Mark::Percent,
    Mark::Less,
    Mark::LessEqual,
    Mark::Greater,
    Mark::GreaterEqual,
    Mark::Equal,
    Mark::NotEqual,
    Mark::PlusAssign,
    Mark::MinusAssign,
    Mark::StarAssign,
    Mark::TwoSlashesAssign,
    Mark::PercentAssign,
];

/// The longest mark in front, and what it is written with and what stands behind it.
pub fn split_mark(codes: &[char]) -> Option<(Mark, &[char], &[char])>
    ensures none { IsNone result → (front : List ℕ) (rest : List ℕ) → codes.now ≡ front ++ rest → ¬ IsMark front }
    ensures whole { IfSome result (λ found. codes.now ≡ found.1.now ++ found.2.now) }
    ensures mark { IfSome result (λ found. found.1.now ≡ mark_text found.0) }
    ensures longest { IfSome result (λ found. Longest IsMark found.1.now found.2.now) }
{
    match longest_mark(&MARKS, codes) {
        None => None,
        Some(mark) => {
            let (front, rest) = codes.split_at(mark_text(mark).len());
            Some((mark, front, rest))
        }
    }
}

fn longest_mark(marks: &[Mark], codes: &[char]) -> Option<Mark>
    ensures { IsLongestOf codes.now marks.now result }
{
    let mut best = None;
    for mark in marks {
        best = longer_mark(codes, best, *mark);
    }
    best
}

// The longest once one more mark is tried.
fn longer_mark(codes: &[char], best: Option<Mark>, mark: Mark) -> Option<Mark>
    ensures { (tried : List Mark) → IsLongestOf codes.now tried best → IsLongestOf codes.now (tried ++ mark ∷ []) result }
{
    if !begins_with(codes, mark_text(mark)) {
        return best;
    }
    match best {
        None => Some(mark),
        Some(other) => {
            if mark_text(other).len() < mark_text(mark).len() {
                Some(mark)
            } else {
                best
            }
        }
    }
}

#[tactic(auto, using(crate::proofs::Begins::begins_all, crate::proofs::Begins::begins_more, crate::proofs::Begins::more_begins, crate::proofs::Begins::first_begins, crate::proofs::Begins::nothing_begins))]
pub(crate) fn begins_with(codes: &[char], text: &[u8]) -> bool
    ensures { IsTrue result ↔ BeginsWith codes.now text.now }
{
    match text {
        [] => true,
        [b, text @ ..] => match codes {
            [] => false,
            [c, codes @ ..] => *c == *b as char && begins_with(codes, text),
        },
    }
}

fn mark_text(mark: Mark) -> &'static [u8]
    ensures { result.now ≡ mark_text mark }
{
    match mark {
        Mark::OpenParen => b"(",
        Mark::CloseParen => b")",
        Mark::OpenBracket => b"[",
        Mark::CloseBracket => b"]",
        Mark::Colon => b":",
        Mark::Comma => b",",
        Mark::Dot => b".",
        Mark::Assign => b"=",
        Mark::Arrow => b"->",
        Mark::At => b"@",
        Mark::Plus => b"+",
        Mark::Minus => b"-",
        Mark::Star => b"*",
        Mark::Slash => b"/",
        Mark::TwoSlashes => b"//",
        Mark::Percent => b"%",
        Mark::Less => b"<",
        Mark::LessEqual => b"<=",
        Mark::Greater => b">",
        Mark::GreaterEqual => b">=",
        Mark::Equal => b"==",
        Mark::NotEqual => b"!=",
        Mark::PlusAssign => b"+=",
        Mark::MinusAssign => b"-=",
        Mark::StarAssign => b"*=",
        Mark::TwoSlashesAssign => b"//=",
        Mark::PercentAssign => b"%=",
    }
}

// Names and keywords.
ghost use Rattle.std.specs.Prelude.{◌≡◌, ◌≤◌, ◌++◌, ◌||◌, ◌==◌, ◌↔◌, ℕ, List, IsTrue, IsNone, IfSome, MatchOption, All, length};
ghost use Rattle.std.specs.List.{prefix_len};
ghost use Rattle.unicode_ident.specs.Ident.{is_xid_continue};
ghost use Rattle.py_tokens.specs.TextPieces.{Longest, IsWord, IsKeyword};
ghost use Rattle.py_tokens.specs.WordForms.{begins_word, word_len, keyword_text};

use crate::marks::begins_with;
use py_tokens::Keyword;

const KEYWORDS: [Keyword; 35] = [
    Keyword::False,
    Keyword::None,
    Keyword::True,
    Keyword::And,
    Keyword::As,
    Keyword::Assert,
    Keyword::Async,
    Keyword::Await,
    Keyword::Break,
    Keyword::Class,
    Keyword::Continue,
    Keyword::Def,
    Keyword::Del,
    Keyword::Elif,
    Keyword::Else,
    Keyword::Except,
    Keyword::Finally,
    Keyword::For,
    Keyword::From,
    Keyword::Global,
    Keyword::If,
    Keyword::Import,
    Keyword::In,
    Keyword::Is,
    Keyword::Lambda,
    Keyword::Nonlocal,
    Keyword::Not,
    Keyword::Or,
    Keyword::Pass,
    Keyword::Raise,
    Keyword::Return,
    Keyword::Try,
    Keyword::While,
    Keyword::With,
    Keyword::Yield,
];

/// The longest word in front, a name or a keyword, and what stands behind it.
#[tactic(auto, using(crate::proofs::LongestWord::longest_word, crate::proofs::LongestWord::no_word))]
pub fn split_word(codes: &[char]) -> Option<(&[char], &[char])>
    ensures none { IsNone result → (front : List ℕ) (rest : List ℕ) → codes.now ≡ front ++ rest → ¬ IsWord front }
    ensures whole { IfSome result (λ found. codes.now ≡ found.0.now ++ found.1.now) }
    ensures longest { IfSome result (λ found. Longest IsWord found.0.now found.1.now) }
{
    let n = word_len(codes);
    if n == 0 {
        return None;
    }
    Some(codes.split_at(n))
}

fn word_len(codes: &[char]) -> usize
    ensures value { result ≡ word_len codes.now }
    ensures within { result ≤ length codes.now }
{
    match codes {
        [] => 0,
        [c, rest @ ..] => {
            if begins_word(*c) {
                1 + continued_len(rest)
            } else {
                0
            }
        }
    }
}

fn begins_word(c: char) -> bool
    ensures { result ≡ begins_word c }
{
    unicode_ident::is_xid_start(c) | (c == '_')
}

fn continued_len(codes: &[char]) -> usize
    ensures len { result ≡ prefix_len is_xid_continue codes.now }
    ensures within { result ≤ length codes.now }
{
    let mut n = 0;
    while n < codes.len() {
        if !unicode_ident::is_xid_continue(codes[n]) {
            return n;
        }
        n += 1;
    }
    n
}

/// The keyword that the characters spell.
pub fn keyword_of(word: &[char]) -> Option<Keyword>
    ensures { MatchOption result (¬ IsKeyword word.now) (λ keyword. word.now ≡ keyword_text keyword) }
{
    spelled(&KEYWORDS, word)
}

fn spelled(keywords: &[Keyword], word: &[char]) -> Option<Keyword>
    ensures { MatchOption result (All (λ keyword. ¬ (word.now ≡ keyword_text keyword)) keywords.now) (λ keyword. word.now ≡ keyword_text keyword) }
{
    for keyword in keywords {
        if is_text(word, keyword_text(*keyword)) {
            return Some(*keyword);
        }
    }
    None
}

fn is_text(codes: &[char], text: &[u8]) -> bool
    ensures { IsTrue result ↔ (codes.now ≡ text.now) }
{
    codes.len() == text.len() && begins_with(codes, text)
}

fn keyword_text(keyword: Keyword) -> &'static [u8]
    ensures { result.now ≡ keyword_text keyword }
{
    match keyword {
        Keyword::False => b"False",
        Keyword::None => b"None",
        Keyword::True => b"True",
        Keyword::And => b"and",
        Keyword::As => b"as",
        Keyword::Assert => b"assert",
        Keyword::Async => b"async",
        Keyword::Await => b"await",
        Keyword::Break => b"break",
        Keyword::Class => b"class",
        Keyword::Continue => b"continue",
        Keyword::Def => b"def",
        Keyword::Del => b"del",
        Keyword::Elif => b"elif",
        Keyword::Else => b"else",
        Keyword::Except => b"except",
        Keyword::Finally => b"finally",
        Keyword::For => b"for",
        Keyword::From => b"from",
        Keyword::Global => b"global",
        Keyword::If => b"if",
        Keyword::Import => b"import",
        Keyword::In => b"in",
        Keyword::Is => b"is",
        Keyword::Lambda => b"lambda",
        Keyword::Nonlocal => b"nonlocal",
        Keyword::Not => b"not",
        Keyword::Or => b"or",
        Keyword::Pass => b"pass",
        Keyword::Raise => b"raise",
        Keyword::Return => b"return",
        Keyword::Try => b"try",
        Keyword::While => b"while",
        Keyword::With => b"with",
        Keyword::Yield => b"yield",
    }
}

// Comments.
ghost use Rattle.std.specs.Prelude.{◌≡◌, ◌≤◌, ◌++◌, ℕ, List, IsNone, IfSome, length};
ghost use Rattle.std.specs.List.{prefix_len};
ghost use Rattle.py_tokens.specs.TextPieces.{Longest, IsComment};
ghost use Rattle.py_lexer.specs.LongestForms.{is_in_line};

/// The comment in front, and what stands behind it.
pub fn split_comment(codes: &[char]) -> Option<(&[char], &[char])>
    ensures none { IsNone result → (front : List ℕ) (rest : List ℕ) → codes.now ≡ front ++ rest → ¬ IsComment front }
    ensures whole { IfSome result (λ found. codes.now ≡ found.0.now ++ found.1.now) }
    ensures longest { IfSome result (λ found. Longest IsComment found.0.now found.1.now) }
{
    match codes {
        [] => None,
        [c, text @ ..] => {
            if *c == '#' {
                Some(codes.split_at(1 + line_len(text)))
            } else {
                None
            }
        }
    }
}

// How many characters are in front of the first line end.
fn line_len(codes: &[char]) -> usize
    ensures len { result ≡ prefix_len is_in_line codes.now }
    ensures within { result ≤ length codes.now }
{
    let mut n = 0;
    while n < codes.len() {
        if codes[n] == '\n' {
            return n;
        }
        n += 1;
    }
    n
}

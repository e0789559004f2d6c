// Numbers.
ghost use Rattle.std.specs.Prelude.{◌≡◌, ◌≤◌, ◌<◌, ◌^◌, ◌++◌, pos, ℕ, List, [], IsNone, IfSome, MatchOption, length, take, drop, ◌+◌, ◌*◌, ◌-◌};
ghost use Rattle.py_tokens.specs.TextPieces.{Longest, IsNumber};
ghost use Rattle.py_tokens.specs.WordForms.{is_digit, begins_with_digit, number_value};
ghost use Rattle.py_lexer.specs.LongestForms.{AreMoreDigits};

/// The longest number in front, and what stands behind it.
pub fn split_number(codes: &[char]) -> Option<(&[char], &[char])>
    ensures none { IsNone result → (front : List ℕ) (rest : List ℕ) → codes.now ≡ front ++ rest → ¬ IsNumber front }
    ensures whole { IfSome result (λ found. codes.now ≡ found.0.now ++ found.1.now) }
    ensures longest { IfSome result (λ found. Longest IsNumber found.0.now found.1.now) }
{
    match codes {
        [] => None,
        [c, rest @ ..] => {
            if *c == '0' {
                Some(codes.split_at(1))
            } else if is_digit(*c) {
                Some(codes.split_at(1 + more_digits_len(rest)))
            } else {
                None
            }
        }
    }
}

fn is_digit(c: char) -> bool
    ensures { result ≡ is_digit c }
{
    '0' <= c && c <= '9'
}

fn begins_with_digit(codes: &[char]) -> bool
    ensures { result ≡ begins_with_digit codes.now }
{
    match codes {
        [] => false,
        [c, ..] => is_digit(*c),
    }
}

// How many characters of more digits there are.
fn more_digits_len(codes: &[char]) -> usize
    ensures within { result ≤ length codes.now }
    ensures longest { Longest AreMoreDigits (take result codes.now) (drop result codes.now) }
{
    let mut n = 0;
    let mut rest = codes;
    'digits: loop {
        let len = one_more_len(rest);
        if len == 0 {
            return n;
        }
        n += len;
        let (_, more) = rest.split_at(len);
        rest = more;
    }
}

// How many characters one more digit has, with the underscore in front of it.
fn one_more_len(codes: &[char]) -> usize
    ensures within { result ≤ length codes.now }
    ensures digit { AreMoreDigits (take result codes.now) }
    ensures none { result ≡ 0 → Longest AreMoreDigits [] codes.now }
{
    match codes {
        [] => 0,
        [c, rest @ ..] => {
            if is_digit(*c) {
                1
            } else if *c == '_' && begins_with_digit(rest) {
                2
            } else {
                0
            }
        }
    }
}

/// The number that the characters write, if it is below 2^127.
pub fn value_of(codes: &[char]) -> Option<i128>
    ensures { MatchOption result (2 ^ 127 ≤ number_value codes.now) (λ value. number_value codes.now < 2 ^ 127 × value ≡ pos (number_value codes.now)) }
{
    match unsigned_value(codes) {
        None => None,
        Some(value) => {
            if value < 0x8000_0000_0000_0000_0000_0000_0000_0000 {
                Some(value as i128)
            } else {
                None
            }
        }
    }
}

// The number that the characters write, if it is below 2^128.
fn unsigned_value(codes: &[char]) -> Option<u128>
    ensures { MatchOption result (2 ^ 128 ≤ number_value codes.now) (λ value. value ≡ number_value codes.now) }
{
    let mut value: u128 = 0;
    let mut rest = codes;
    'codes: while let [c, more @ ..] = rest {
        rest = more;
        if *c == '_' {
            continue;
        }
        match with_digit(value, *c) {
            None => return None,
            Some(longer) => value = longer,
        }
    }
    Some(value)
}

// The number with one more digit behind it, if it is below 2^128.
fn with_digit(value: u128, digit: char) -> Option<u128>
    ensures { MatchOption result (2 ^ 128 ≤ value * 10 + (digit - 48)) (λ longer. longer ≡ value * 10 + (digit - 48)) }
{
    match value.checked_mul(10) {
        None => None,
        Some(tenfold) => tenfold.checked_add(u128::from((digit as u32).saturating_sub(48))),
    }
}

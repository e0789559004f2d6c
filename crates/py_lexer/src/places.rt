// The characters of a text and their places.
ghost use Rattle.std.specs.Prelude.{◌≡◌, ◌<◌, ◌+◌, ◌^◌, IfOk, IfErr, MatchResult, length, ◌≤◌};
ghost use Rattle.std.specs.Str.{IsUtf8, IsValidUpTo, chars};
ghost use Rattle.py_tokens.specs.PlacedText.{
  begins_with_lf,
  without_order_mark,
  with_line_ends,
  text_characters,
  text_start,
  after_one,
  after,
  placed,
  IsBadByteAt,
};

use py_base::Place;
use py_tokens::{LexFault, Spot};
use std::alloc::{AllocError, Global};

/// The characters of a text with their places, each line end as one LF, and the place just after
/// the last.
#[derive(Debug, Drop)]
pub struct TextSpots {
    pub spots: Vec<Spot>,
    pub end: Place,
}

/// The characters of a text. A byte order mark in front is none of them.
pub fn characters(alloc: Global, text: &[u8]) -> Result<TextSpots, LexFault>
    requires { length text.now + 1 < 2 ^ 32 }
    ensures utf8 { IfOk result (λ _. IsUtf8 text.now) }
    ensures spots { IfOk result (λ found. found.spots.items ≡ placed text_start (text_characters text.now)) }
    ensures end { IfOk result (λ found. found.end ≡ after text_start (text_characters text.now)) }
    ensures bad { IfErr result (λ fault. ¬ (fault ≡ LexFault.OutOfMemory) → (p : Place) × (fault ≡ LexFault.BadUtf8 p) × IsBadByteAt text.now p) }
{
    match checked(text) {
        Ok(whole) => Ok(placed_text(alloc, whole)?),
        Err(n) => {
            let (front, _) = text.split_at(n);
            let found = placed_text(alloc, as_text(front))?;
            Err(LexFault::BadUtf8(found.end))
        }
    }
}

// The bytes as a text, or how many bytes in front are one.
fn checked(text: &[u8]) -> Result<&str, usize>
    ensures { MatchResult result (λ s. (s.now ≡ text.now) × IsUtf8 text.now) (λ n. IsValidUpTo text.now n) }
{
    match std::str::from_utf8(text) {
        Ok(s) => Ok(s),
        Err(e) => Err(e.valid_up_to()),
    }
}

// The text of bytes in UTF-8.
pub fn as_text(bytes: &[u8]) -> &str
    requires { IsUtf8 bytes.now }
    ensures { result.now ≡ bytes.now }
{
    match std::str::from_utf8(bytes) {
        Ok(text) => text,
        Err(_) => "",
    }
}

fn placed_text(alloc: Global, text: &str) -> Result<TextSpots, AllocError>
    requires { length text.now + 1 < 2 ^ 32 }
    ensures spots { IfOk result (λ found. found.spots.items ≡ placed text_start (text_characters text.now)) }
    ensures end { IfOk result (λ found. found.end ≡ after text_start (text_characters text.now)) }
{
    let codes = chars_of(alloc, text)?;
    place_all(alloc, past_order_mark(&codes))
}

fn chars_of(alloc: Global, text: &str) -> Result<Vec<char>, AllocError>
    ensures { IfOk result (λ codes. codes.items ≡ chars text.now) }
{
    text.chars().collect(alloc)
}

fn past_order_mark(codes: &[char]) -> &[char]
    ensures value { result.now ≡ without_order_mark codes.now }
    ensures within { length result.now ≤ length codes.now }
{
    match codes {
        [] => codes,
        [c, rest @ ..] => { if *c == '\u{feff}' { rest } else { codes } }
    }
}

fn begins_with_lf(codes: &[char]) -> bool
    ensures { result ≡ begins_with_lf codes.now }
{
    match codes {
        [] => false,
        [c, ..] => *c == '\n',
    }
}

fn after_one(place: Place, code: char) -> Place
    requires line { place.line + 1 < 2 ^ 32 }
    requires col { place.col + 1 < 2 ^ 32 }
    ensures { result ≡ after_one place code }
{
    if code == '\n' {
        Place {
            line: place.line + 1,
            col: 1,
        }
    } else {
        Place {
            line: place.line,
            col: place.col + 1,
        }
    }
}

/// The place just after characters that begin at a place.
pub fn place_after(place: Place, codes: &[char]) -> Place
    requires line { place.line + length codes.now < 2 ^ 32 }
    requires col { place.col + length codes.now < 2 ^ 32 }
    ensures { result ≡ after place codes.now }
{
    let mut end = place;
    let mut rest = codes;
    'codes: while let [c, more @ ..] = rest {
        rest = more;
        end = after_one(end, *c);
    }
    end
}

fn place_all(alloc: Global, codes: &[char]) -> Result<TextSpots, AllocError>
    requires { length codes.now + 1 < 2 ^ 32 }
    ensures spots { IfOk result (λ found. found.spots.items ≡ placed text_start (with_line_ends codes.now)) }
    ensures end { IfOk result (λ found. found.end ≡ after text_start (with_line_ends codes.now)) }
{
    let mut spots: Vec<Spot> = Vec::new(alloc);
    let mut end = Place { line: 1, col: 1 };
    let mut rest = codes;
    'codes: while let [c, more @ ..] = rest {
        rest = more;
        if *c == '\r' && begins_with_lf(rest) {
            continue;
        }
        let code = if *c == '\r' { '\n' } else { *c };
        spots.push(Spot { code, place: end })?;
        end = after_one(end, code);
    }
    Ok(TextSpots { spots, end })
}

// Strings.
ghost use Rattle.std.specs.Prelude.{
  ◌≡◌,
  ◌∷◌,
  [],
  ◌++◌,
  ◌↔◌,
  ℕ,
  List,
  IsTrue,
  IfOk,
  MatchOption,
  length,
  string_bytes,
};
ghost use Rattle.py_tokens.specs.StringForms.{Quotes, BeginsWith, IsQuote, OpensWith, IsEscape, FitsLine, Part, GoesOn, quote_text};
ghost use Rattle.py_lexer.specs.StringReading.{quotes_of, StandsNext, StandsBehindBackslash, HasRead, NeverCloses};

use std::alloc::{AllocError, Global};

/// How a string opens.
#[derive(Clone, Copy, Debug, PartialEq, Eq)]
pub enum Opening {
    /// One quote.
    Single(char),
    /// Three quotes.
    Triple(char),
}

/// What stands next in a string.
#[derive(Clone, Copy, Debug, PartialEq, Eq)]
pub enum Reading {
    /// So many characters that stand for one.
    Part(usize, char),
    /// Nothing that stands for a character.
    Stop(Stop),
}

/// Why no further part of a string is read.
#[derive(Clone, Copy, Debug, PartialEq, Eq)]
pub enum Stop {
    /// The closing quotes.
    Closing,
    /// The end of what can be in the string.
    Unclosed,
    /// A backslash that begins no escape.
    LoneBackslash,
}

/// How the string in front opens.
pub fn opening_of(codes: &[char]) -> Option<Opening>
    ensures { MatchOption result ((quotes : Quotes) → ¬ OpensWith codes.now quotes) (λ opening. OpensWith codes.now (quotes_of opening)) }
{
    match codes {
        [] => None,
        [c, rest @ ..] => {
            if !is_quote(*c) {
                None
            } else if begins_with_two(rest, *c) {
                Some(Opening::Triple(*c))
            } else {
                Some(Opening::Single(*c))
            }
        }
    }
}

fn is_quote(c: char) -> bool
    ensures { IsTrue result ↔ IsQuote c }
{
    c == '\'' || c == '"'
}

fn begins_with_one(codes: &[char], quote: char) -> bool
    ensures { IsTrue result ↔ BeginsWith codes.now (quote ∷ []) }
{
    match codes {
        [] => false,
        [c, ..] => *c == quote,
    }
}

fn begins_with_two(codes: &[char], quote: char) -> bool
    ensures { IsTrue result ↔ BeginsWith codes.now (quote ∷ quote ∷ []) }
{
    match codes {
        [] => false,
        [c, rest @ ..] => *c == quote && begins_with_one(rest, quote),
    }
}

fn begins_with_three(codes: &[char], quote: char) -> bool
    ensures { IsTrue result ↔ BeginsWith codes.now (quote ∷ quote ∷ quote ∷ []) }
{
    match codes {
        [] => false,
        [c, rest @ ..] => *c == quote && begins_with_two(rest, quote),
    }
}

fn closes(opening: Opening, codes: &[char]) -> bool
    ensures { IsTrue result ↔ BeginsWith codes.now (quote_text (quotes_of opening)) }
{
    match opening {
        Opening::Single(quote) => begins_with_one(codes, quote),
        Opening::Triple(quote) => begins_with_three(codes, quote),
    }
}

/// How many quotes there are on each side.
pub fn quotes_len(opening: Opening) -> usize
    ensures { result ≡ length (quote_text (quotes_of opening)) }
{
    match opening {
        Opening::Single(_) => 1,
        Opening::Triple(_) => 3,
    }
}

// What the character behind a backslash stands for with it.
fn escape_value(c: char) -> Option<char>
    ensures { MatchOption result ((v : ℕ) → ¬ IsEscape c v) (λ value. IsEscape c value) }
{
    match c {
        '\\' => Some('\\'),
        '\'' => Some('\''),
        '"' => Some('"'),
        'n' => Some('\n'),
        't' => Some('\t'),
        _ => None,
    }
}

// Whether a character other than a backslash can be in the string.
fn fits_line(opening: Opening, c: char) -> bool
    ensures { IsTrue result ↔ FitsLine (quotes_of opening) c }
{
    match opening {
        Opening::Single(_) => c != '\n',
        Opening::Triple(_) => true,
    }
}

fn next_part(opening: Opening, codes: &[char]) -> Reading
    ensures { StandsNext (quotes_of opening) codes.now result }
{
    if closes(opening, codes) {
        return Reading::Stop(Stop::Closing);
    }
    match codes {
        [] => Reading::Stop(Stop::Unclosed),
        [c, rest @ ..] => {
            if *c == '\\' {
                behind_backslash(rest)
            } else if fits_line(opening, *c) {
                Reading::Part(1, *c)
            } else {
                Reading::Stop(Stop::Unclosed)
            }
        }
    }
}

fn behind_backslash(codes: &[char]) -> Reading
    ensures { StandsBehindBackslash codes.now result }
{
    match codes {
        [] => Reading::Stop(Stop::LoneBackslash),
        [c, ..] => match escape_value(*c) {
            None => Reading::Stop(Stop::LoneBackslash),
            Some(value) => Reading::Part(2, value),
        },
    }
}

/// The parts in front that stand for characters, as a text, then what is left and why no further
/// part is read.
pub fn read_parts(
    alloc: Global,
    opening: Opening,
    codes: &[char],
) -> Result<(String, &[char], Stop), AllocError>
    ensures read { IfOk result (λ found. HasRead (quotes_of opening) codes.now (string_bytes found.0) found.1.now) }
    ensures stop { IfOk result (λ found. StandsNext (quotes_of opening) found.1.now (Reading.Stop found.2)) }
{
    let mut text = String::new(alloc);
    let mut rest = codes;
    'parts: loop {
        match next_part(opening, rest) {
            Reading::Stop(stop) => return Ok((text, rest, stop)),
            Reading::Part(len, value) => {
                text.push(value)?;
                rest = rest.split_at(len).1;
            }
        }
    }
}

/// What stands behind the closing quotes, if there are any.
pub fn behind_closing(opening: Opening, codes: &[char]) -> Option<&[char]>
    ensures { MatchOption result (NeverCloses (quotes_of opening) codes.now) (λ rest. (parts : List Part) × GoesOn (quotes_of opening) codes.now parts (quote_text (quotes_of opening) ++ rest.now)) }
{
    let mut rest = codes;
    'parts: loop {
        match next_part(opening, rest) {
            Reading::Stop(Stop::Closing) => return Some(rest.split_at(quotes_len(opening)).1),
            Reading::Stop(Stop::Unclosed) => return None,
            Reading::Stop(Stop::LoneBackslash) => rest = rest.split_at(1).1,
            Reading::Part(len, _) => rest = rest.split_at(len).1,
        }
    }
}

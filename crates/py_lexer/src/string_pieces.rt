// The strings in front.
ghost use Rattle.std.specs.Prelude.{◌≡◌, ◌≤◌, ◌<◌, ◌+◌, ◌^◌, IfOk, length};
ghost use Rattle.py_tokens.specs.StringForms.{OpensWith, quote_text};
ghost use Rattle.py_lexer.specs.StringReading.{quotes_of, StandsInFront};
ghost use Rattle.py_lexer.specs.PieceForms.{StandsAt};

use crate::places::place_after;
use crate::strings::{Opening, Stop, behind_closing, opening_of, quotes_len, read_parts};
use py_base::{Place, Text};
use py_tokens::{Shape, TokenForm};
use std::alloc::{AllocError, Global};

/// The shape of the string in front, and how many characters it has. A string without its end has
/// all that are left.
pub fn split_string(
    alloc: Global,
    place: Place,
    codes: &[char],
) -> Result<Option<(Shape, usize)>, AllocError>
    requires line { place.line + length codes.now < 2 ^ 32 }
    requires col { place.col + length codes.now < 2 ^ 32 }
    ensures { IfOk result (λ found. StandsInFront place codes.now found) }
{
    match opening_of(codes) {
        None => Ok(None),
        Some(opening) => Ok(Some(read_string(alloc, place, opening, codes)?)),
    }
}

fn read_string(
    alloc: Global,
    place: Place,
    opening: Opening,
    codes: &[char],
) -> Result<(Shape, usize), AllocError>
    requires opens { OpensWith codes.now (quotes_of opening) }
    requires line { place.line + length codes.now < 2 ^ 32 }
    requires col { place.col + length codes.now < 2 ^ 32 }
    ensures { IfOk result (λ found. StandsAt place codes.now found.1 found.0) }
{
    let (_, inner) = codes.split_at(quotes_len(opening));
    let (text, rest, stop) = read_parts(alloc, opening, inner)?;
    let read = codes.len() - rest.len();
    match stop {
        Stop::Closing => {
            let text = Text::of(text.into_bytes());
            Ok((
                Shape::Whole(TokenForm::Str(text)),
                read + quotes_len(opening),
            ))
        }
        Stop::Unclosed => Ok((Shape::Unclosed, codes.len())),
        Stop::LoneBackslash => match behind_closing(opening, rest.split_at(1).1) {
            None => Ok((Shape::Unclosed, codes.len())),
            Some(behind) => {
                let backslash = place_after(place, codes.split_at(read).0);
                Ok((Shape::BadEscape(backslash), codes.len() - behind.len()))
            }
        },
    }
}

// A text cut into pieces.
ghost use Rattle.std.specs.Prelude.{◌≡◌, ◌<◌, ◌+◌, ◌^◌, IfOk, IfErr, length, map};
ghost use Rattle.py_tokens.specs.PlacedText.{text_characters, text_start, after, IsBadByteAt};
ghost use Rattle.py_tokens.specs.TextPieces.{CutInto};
ghost use Rattle.py_tokens.specs.TextTokens.{PiecesOf};

use crate::pieces::next_shape;
use crate::places::{characters, place_after};
use py_base::Place;
use py_tokens::{LexFault, Piece, Spot};
use std::alloc::{AllocError, Global};

/// The pieces of a text, and the place just after its last character.
#[derive(Debug, Drop)]
pub struct CutText {
    pub pieces: Vec<Piece>,
    pub end: Place,
}

/// The pieces of a text.
pub fn text_pieces(alloc: Global, text: &[u8]) -> Result<CutText, LexFault>
    requires { length text.now + 1 < 2 ^ 32 }
    ensures pieces { IfOk result (λ found. PiecesOf text.now found.pieces.items) }
    ensures end { IfOk result (λ found. found.end ≡ after text_start (text_characters text.now)) }
    ensures bad { IfErr result (λ fault. ¬ (fault ≡ LexFault.OutOfMemory) → (p : Place) × (fault ≡ LexFault.BadUtf8 p) × IsBadByteAt text.now p) }
{
    match characters(alloc, text) {
        Err(fault) => Err(fault),
        Ok(found) => {
            let codes = codes_of(alloc, &found.spots)?;
            let pieces = cut_all(alloc, &codes)?;
            Ok(CutText {
                pieces,
                end: found.end,
            })
        }
    }
}

fn codes_of(alloc: Global, spots: &[Spot]) -> Result<Vec<char>, AllocError>
    ensures { IfOk result (λ codes. codes.items ≡ map (λ spot. spot.code) spots.now) }
{
    let mut codes = Vec::new(alloc);
    for spot in spots {
        codes.push(spot.code)?;
    }
    Ok(codes)
}

/// The pieces of characters that begin a text.
pub fn cut_all(alloc: Global, codes: &[char]) -> Result<Vec<Piece>, AllocError>
    requires { length codes.now + 1 < 2 ^ 32 }
    ensures { IfOk result (λ pieces. CutInto text_start codes.now pieces.items) }
{
    let mut pieces = Vec::new(alloc);
    let mut place = Place { line: 1, col: 1 };
    let mut rest = codes;
    'pieces: while !rest.is_empty() {
        let (shape, len) = next_shape(alloc, place, rest)?;
        let (front, more) = rest.split_at(len);
        let end = place_after(place, front);
        pieces.push(Piece { place, end, shape })?;
        place = end;
        rest = more;
    }
    Ok(pieces)
}

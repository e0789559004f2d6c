// The tokens of a text.
ghost use Rattle.std.specs.Prelude.{◌≡◌, ◌+◌, ◌<◌, ◌^◌, [], length, Ok, Err, IfOk, IfErr};
ghost use Rattle.py_tokens.specs.LineLayout.{end_place};
ghost use Rattle.py_tokens.specs.TextTokens.{Tokens, IsFirstFault};
ghost use Rattle.py_lexer.specs.Walk.{first_layout, walked, AreTextNames};

use crate::cut::text_pieces;
use crate::faults::fault_at;
use crate::layout::Layout;
use py_base::Place;
use py_tokens::{LexFault, Piece, Token};
use std::alloc::Global;

/// The tokens of a text, or its first fault.
#[tactic(auto, using(crate::proofs::Judging::tokens_judged, crate::proofs::Judging::fault_judged, crate::proofs::TextBounds::few_pieces, crate::proofs::TextBounds::low_end, crate::proofs::TextBounds::names_are_texts))]
pub fn lex(alloc: Global, text: &[u8]) -> Result<Vec<Token>, LexFault>
    requires { length text.now + 1 < 2 ^ 32 }
    ensures tokens { IfOk result (λ tokens. Tokens text.now tokens.items) }
    ensures fault { IfErr result (λ fault. ¬ (fault ≡ LexFault.OutOfMemory) → IsFirstFault text.now fault) }
{
    match text_pieces(alloc, text) {
        Ok(found) => lay_out(alloc, found.pieces, found.end),
        Err(fault) => Err(fault),
    }
}

// The tokens of pieces, or their first fault.
fn lay_out(alloc: Global, pieces: Vec<Piece>, place: Place) -> Result<Vec<Token>, LexFault>
    requires names { AreTextNames pieces.items }
    requires few { length pieces.items + 1 < 2 ^ 32 }
    requires end { (end_place place).line < 2 ^ 32 }
    ensures ok { IfOk result (λ tokens. walked place first_layout [] pieces.items ≡ Ok tokens.items) }
    ensures err { IfErr result (λ fault. ¬ (fault ≡ LexFault.OutOfMemory) → walked place first_layout [] pieces.items ≡ Err fault) }
{
    let mut tokens = Vec::new(alloc);
    let mut layout = Layout::first(alloc)?;
    'pieces: for piece in pieces {
        if let Some(fault) = fault_at(alloc, &layout, &piece)? {
            return Err(fault);
        }
        layout.take(piece, &mut tokens)?;
    }
    layout.finish(place, &mut tokens)?;
    Ok(tokens)
}

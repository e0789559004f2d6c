// What the definitions say of some texts.
ghost use Rattle.std.specs.Prelude.{◌≡◌, ℕ, pos, codes, List, [], ◌∷◌, ◌++◌};
ghost use Rattle.py_base.specs.declared.Place.{Place};
ghost use Rattle.py_tokens.specs.declared.piece.Shape.TheVariants as shapes;
ghost use Rattle.py_tokens.specs.declared.token.TokenForm.TheVariants as forms;
ghost use Rattle.py_tokens.specs.declared.token.Keyword.TheVariants as keys;
ghost use Rattle.py_tokens.specs.declared.token.Mark.TheVariants as marks;
ghost use Rattle.py_tokens.specs.TextPieces.{IsPiece};
ghost use Rattle.py_tokens.specs.TextTokens.{PiecesOf, Tokens};
ghost use Rattle.py_tokens.specs.TextExamples.{two_lines, two_line_pieces, two_line_tokens, two_line_end};

/// The longest form is a piece: a number ends where no digit follows an underscore, and behind a
/// leading 0.
pub fn the_longest_form_is_a_piece()
    ensures number { (p : Place) → IsPiece p (codes "1_0") (codes "__0") (shapes.Whole (forms.Number (pos 10))) }
    ensures zero { (p : Place) → IsPiece p (codes "0") (codes "07") (shapes.Whole (forms.Number (pos 0))) }
    ensures mark { (p : Place) → IsPiece p (codes "<=") (codes "=1") (shapes.Whole (forms.Mark marks.LessEqual)) }
    ensures keyword { (p : Place) → IsPiece p (codes "class") (codes " y") (shapes.Whole (forms.Key keys.Class)) }
    ensures name { (p : Place) → IsPiece p (codes "classy") (codes ":") (shapes.Whole (forms.Name (codes "classy"))) }
    ensures comment { (p : Place) → IsPiece p (codes "# 'a") (10 ∷ codes "b") shapes.Comment }
    ensures stray { (p : Place) → IsPiece p (codes "!") (codes " =") shapes.Stray }
{}

/// A string ends at its own quotes. A bad escape is told by the place of its backslash, and a string
/// on one line without an end is all that follows.
pub fn a_string_is_a_piece()
    ensures escaped { (p : Place) → IsPiece p (codes "'\\''") (codes "'") (shapes.Whole (forms.Str (codes "'"))) }
    ensures triple { (p : Place) → IsPiece p (codes "''''a'''") (codes "b") (shapes.Whole (forms.Str (codes "'a"))) }
    ensures bad { IsPiece (record { line = 3; col = 5 }) (codes "'a\\q'") [] (shapes.BadEscape (record { line = 3; col = 7 })) }
    ensures unclosed { (p : Place) → IsPiece p (39 ∷ 97 ∷ 10 ∷ 39 ∷ []) [] shapes.Unclosed }
{}

/// A text of two lines, whose second is deeper and lacks its end, has the pieces and tokens that a
/// reader expects.
pub fn a_text_of_two_lines()
    ensures pieces { PiecesOf two_lines two_line_pieces }
    ensures tokens { Tokens two_lines (two_line_tokens ++ two_line_end) }
{}

// Laws of tokens, which hold of every text.
ghost use Rattle.std.specs.Prelude.{◌≡◌, ℕ, List, [], ◌∷◌, ◌++◌, All};
ghost use Rattle.std.specs.Str.{IsUtf8};
ghost use Rattle.py_base.specs.declared.Place.{Place};
ghost use Rattle.py_tokens.specs.declared.piece.Piece.{Piece};
ghost use Rattle.py_tokens.specs.declared.piece.Shape.{Shape};
ghost use Rattle.py_tokens.specs.declared.piece.Shape.TheVariants as shapes;
ghost use Rattle.py_tokens.specs.declared.token.Token.{Token};
ghost use Rattle.py_tokens.specs.declared.fault.LexFault.{LexFault};
ghost use Rattle.py_tokens.specs.declared.fault.LexFault.TheVariants as faults;
ghost use Rattle.py_tokens.specs.PlacedText.{after};
ghost use Rattle.py_tokens.specs.PlaceLaws.{Precedes};
ghost use Rattle.py_tokens.specs.StringForms.{Quotes, Part, SpellsString};
ghost use Rattle.py_tokens.specs.TextPieces.{IsPiece, CutInto};
ghost use Rattle.py_tokens.specs.LineLayout.{Between, Lays, LaidOut, EndsWith};
ghost use Rattle.py_tokens.specs.TextTokens.{PiecesOf, HasFault, IsFirstFault, Tokens};

/// One string is in front of some characters: its quotes, its parts, and what stands behind it.
pub fn a_text_has_one_string_in_front()
    ensures { (cs : List ℕ) (q r : Quotes) (ps qs : List Part) (rest other : List ℕ) →
        SpellsString cs q ps rest → SpellsString cs r qs other →
        (q ≡ r) × (ps ≡ qs) × (rest ≡ other) }
{}

/// One piece is in front of a text, with one rest behind it, and has a character.
pub fn a_text_has_one_piece_in_front()
    ensures one { (p : Place) (front rest fore behind : List ℕ) (shape other : Shape) →
        front ++ rest ≡ fore ++ behind →
        IsPiece p front rest shape → IsPiece p fore behind other →
        (front ≡ fore) × (rest ≡ behind) × (shape ≡ other) }
    ensures filled { (p : Place) (front rest : List ℕ) (shape : Shape) →
        IsPiece p front rest shape → (c : ℕ) × (cs : List ℕ) × (front ≡ c ∷ cs) }
{}

/// A text is cut into pieces in one way. Some of them from the first on cover a front of it, and the
/// others are what the rest is cut into.
pub fn a_text_is_cut_in_one_way()
    ensures one { (ps qs : List Piece) (p : Place) (cs : List ℕ) →
        CutInto p cs ps → CutInto p cs qs → ps ≡ qs }
    ensures rest { (before rest : List Piece) (p : Place) (cs : List ℕ) →
        CutInto p cs (before ++ rest) →
        (front : List ℕ) × (more : List ℕ) × (cs ≡ front ++ more) × CutInto (after p front) more rest }
    ensures end { (pieces : List Piece) (last : Piece) (p : Place) (cs : List ℕ) →
        CutInto p cs (pieces ++ last ∷ []) → last.end ≡ after p cs }
{}

/// A piece ends behind its place, the next begins there, and all behind it have later places. A
/// backslash that begins no escape is within its piece.
pub fn places_of_pieces_ascend()
    ensures spans { (p : Place) (cs : List ℕ) (before rest : List Piece) (piece : Piece) →
        CutInto p cs (before ++ piece ∷ rest) → Precedes piece.place piece.end }
    ensures touch { (p : Place) (cs : List ℕ) (before rest : List Piece) (piece next : Piece) →
        CutInto p cs (before ++ piece ∷ next ∷ rest) → next.place ≡ piece.end }
    ensures ascend { (p : Place) (cs : List ℕ) (before rest : List Piece) (piece : Piece) →
        CutInto p cs (before ++ piece ∷ rest) → All (λ next. Precedes piece.place next.place) rest }
    ensures within { (p : Place) (cs : List ℕ) (before rest : List Piece) (piece : Piece) (q : Place) →
        CutInto p cs (before ++ piece ∷ rest) → piece.shape ≡ shapes.BadEscape q →
        Precedes piece.place q × Precedes q piece.end }
{}

/// Pieces are laid out in one way, some from the first on and then the others, and a text ends in
/// one way.
pub fn pieces_are_laid_out_in_one_way()
    ensures each { (b : Between) (piece : Piece) (ts us : List Token) (next other : Between) →
        Lays b piece ts next → Lays b piece us other → (ts ≡ us) × (next ≡ other) }
    ensures all { (pieces : List Piece) (b : Between) (ts us : List Token) (last other : Between) →
        LaidOut b pieces ts last → LaidOut b pieces us other → (ts ≡ us) × (last ≡ other) }
    ensures apart { (before rest : List Piece) (b : Between) (ts : List Token) (last : Between) →
        LaidOut b (before ++ rest) ts last →
        (front : List Token) × (more : List Token) × (next : Between) × (ts ≡ front ++ more) ×
        LaidOut b before front next × LaidOut next rest more last }
    ensures together { (before rest : List Piece) (b next last : Between) (front more : List Token) →
        LaidOut b before front next → LaidOut next rest more last →
        LaidOut b (before ++ rest) (front ++ more) last }
    ensures ends { (b : Between) (p : Place) (ts us : List Token) →
        EndsWith b p ts → EndsWith b p us → ts ≡ us }
{}

/// A text has one list of pieces, and one list of tokens if it has no fault, and none if it has one.
pub fn a_text_has_one_token_list()
    ensures pieces { (bytes : List ℕ) (ps qs : List Piece) →
        PiecesOf bytes ps → PiecesOf bytes qs → ps ≡ qs }
    ensures tokens { (bytes : List ℕ) (ts us : List Token) →
        Tokens bytes ts → Tokens bytes us → ts ≡ us }
    ensures or_fault { (bytes : List ℕ) (ts : List Token) (f : LexFault) →
        Tokens bytes ts → HasFault bytes f → ⊥ }
{}

/// A text has one first fault. A byte that belongs to no whole character is the only fault.
pub fn a_text_has_one_first_fault()
    ensures first { (bytes : List ℕ) (f g : LexFault) →
        IsFirstFault bytes f → IsFirstFault bytes g → f ≡ g }
    ensures alone { (bytes : List ℕ) (p : Place) (f : LexFault) →
        HasFault bytes (faults.BadUtf8 p) → HasFault bytes f → f ≡ faults.BadUtf8 p }
{}

// Laws of linear forms.
ghost use Rattle.std.specs.Prelude.{◌≡◌, ◌+ℤ◌, ◌*ℤ◌, IsTrue};
ghost use Rattle.lin_rows.specs.Terms.{IsNormal, value_at};
ghost use Rattle.terms.specs.declared.linear.Linear.{Linear};
ghost use Rattle.terms.specs.declared.term.Term.{Term};
ghost use Rattle.terms.specs.Forms.{form_in, form_of};
ghost use Rattle.terms.specs.Sorts.{of_numbers};
ghost use Rattle.terms.specs.Meanings.{Valued, Number, meaning_at, number_at};

/// The linear form of a term has the term's number, at every valuation and unit.
pub fn linear_forms_have_the_number()
    ensures { (m : Valued) (t : Term) (l : Linear) → form_in l ≡ form_of t →
        number_at m t ≡ value_at m.numbers l.coefs +ℤ l.bound *ℤ m.unit }
{}

/// A linear form is written in one way.
pub fn linear_forms_are_unique()
    ensures { (l k : Linear) → IsNormal l.coefs → IsNormal k.coefs → form_in l ≡ form_in k → l ≡ k }
{}

/// A term of numbers is its number.
pub fn terms_of_numbers_are_their_numbers()
    ensures { (m : Valued) (t : Term) → IsTrue (of_numbers t) → meaning_at m t ≡ Number (number_at m t) }
{}

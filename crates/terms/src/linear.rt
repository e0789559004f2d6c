// Linear forms.
use lin_rows::Terms;

/// A linear form: the sum of each coefficient times its number symbol, and a number of units.
#[derive(Debug, Drop)]
pub struct Linear {
    pub coefs: Terms,
    /// The number of units.
    pub bound: i128,
}

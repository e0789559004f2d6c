// Derivations.
use lin_rows::ComboStep;
use sqlite_items::{Boxed, Items};
use terms::Literal;

/// Why assumptions can't hold together. Assumptions are numbered from 0, first the hypotheses, then
/// the opposite of the goal, then those that are added.
#[derive(Debug, Drop)]
pub enum Derivation {
    /// The literal, with what follows where it holds and where it doesn't.
    Split(Literal, Boxed<Derivation>, Boxed<Derivation>),
    /// Adds the second assumption with the equality that is the first put into it.
    Replace(u32, u32, Boxed<Derivation>),
    /// Adds the equality of the results of two applications, numbered as they stand in the condition.
    Congruent(u32, u32, Boxed<Derivation>),
    /// Two assumptions that are opposites, or one that is false by itself.
    Clash(u32, u32),
    /// Rows that can't be met together. Those of assumption i are 2i and 2i + 1; the steps come after.
    Combine(Items<ComboStep>),
}

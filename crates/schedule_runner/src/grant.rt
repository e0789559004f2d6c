// Grants of steps.

/// To which thread a step is granted.
#[derive(Clone, Copy, Debug, PartialEq, Eq)]
pub enum Grant {
    /// The thread of this number.
    To(u64),
    /// The thread that follows the one that got the step before.
    Following,
}

// A sink that takes bytes.
ghost use Rattle.std.specs.Prelude.{◌≡◌, ◌≤◌, ℕ, Bool, List, Option, OnOk, OnErr, IsErrOf};
ghost use Rattle.std.specs.Io.KnownBytes.{Appends};
ghost use Rattle.io_edge.specs.Outside.{AppendsPart, Rose, late_after};

use crate::SinkAnswer;

/// A sink that takes bytes, and a count of the writes that failed.
pub trait Sink {
    /// The bytes that were written, where they are told.
    ghost written: { Self → Option (List ℕ) };

    /// How many writes have failed, which never falls and stays at 2^64 - 1.
    ghost faults: { Self → ℕ };

    /// Whether a write has begun after one had failed.
    ghost late: { Self → Bool };

    /// Writes the whole piece, or at an Err some front of it.
    fn write(&mut self, piece: &[u8]) -> Result<(), SinkAnswer>
        ensures whole { OnOk result (Appends (written self.old) (written self.new) piece.now) }
        ensures part { OnErr result (AppendsPart (written self.old) (written self.new) piece.now) }

        // What a failure changes, and that nothing else changes it.
        ensures counted { IsErrOf result SinkAnswer.Failed
            → Rose (faults self.old) (faults self.new) }
        ensures not_counted { ¬ IsErrOf result SinkAnswer.Failed
            → faults self.new ≡ faults self.old }
        ensures never_falls { faults self.old ≤ faults self.new }
        ensures late { late self.new ≡ late_after (faults self.old) (late self.old) };
}

// Files that are read by name.
ghost use Rattle.std.specs.Prelude.{◌≡◌, ◌≤◌, ◌⊎◌, ℕ, Bool, List, length, Option, Some, None, IfOk, IfSome, IsErrOf};
ghost use Rattle.io_edge.specs.Outside.{Held, held_at, IsTooLong, Rose, late_after};

use crate::FileAnswer;
use std::alloc::Global;

/// Files that are read by name, and a count of the reads that failed.
pub trait Files {
    /// The names and bytes of the files, where they are told.
    ghost held: { Self → Option Held };

    /// How many reads have failed, which never falls and stays at 2^64 - 1.
    ghost faults: { Self → ℕ };

    /// The name of the last read that failed.
    ghost failed: { Self → Option (List ℕ) };

    /// Whether a read has begun after one had failed.
    ghost late: { Self → Bool };

    /// All the bytes of the named file, where they are at most `limit`.
    fn read(&mut self, alloc: Global, name: &str, limit: usize) -> Result<Vec<u8>, FileAnswer>
        ensures fits { IfOk result (λ bytes. length bytes.items ≤ limit) }
        ensures bytes { IfOk result (λ bytes.
            IfSome (held self.old) (λ all. held_at all name.now ≡ Some bytes.items)) }

        // Each answer in place of Ok, and when it comes.
        ensures too_long { IfSome (held self.old) (λ all.
            IsTooLong limit (held_at all name.now)
            → ¬ IsErrOf result FileAnswer.Failed
            → IsErrOf result FileAnswer.TooLong ⊎ IsErrOf result FileAnswer.OutOfMemory) }
        ensures only_too_long { IsErrOf result FileAnswer.TooLong
            → IfSome (held self.old) (λ all. IsTooLong limit (held_at all name.now)) }
        ensures missing { IfSome (held self.old) (λ all.
            held_at all name.now ≡ None
            → IsErrOf result FileAnswer.Failed ⊎ IsErrOf result FileAnswer.OutOfMemory) }

        // What a failure changes, and that nothing else changes it.
        ensures counted { IsErrOf result FileAnswer.Failed
            → Rose (faults self.old) (faults self.new) }
        ensures named { IsErrOf result FileAnswer.Failed → failed self.new ≡ Some name.now }
        ensures not_counted { ¬ IsErrOf result FileAnswer.Failed
            → faults self.new ≡ faults self.old }
        ensures not_named { ¬ IsErrOf result FileAnswer.Failed
            → failed self.new ≡ failed self.old }
        ensures never_falls { faults self.old ≤ faults self.new }

        ensures held { held self.new ≡ held self.old }
        ensures late { late self.new ≡ late_after (faults self.old) (late self.old) };
}

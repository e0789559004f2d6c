// A sink in memory whose writes don't fail.
ghost use Rattle.std.specs.Prelude.{◌≡◌, ◌≤◌, [], false, Some, OnOk, OnErr, IsErrOf};
ghost use Rattle.std.specs.Io.KnownBytes.{Appends};
ghost use Rattle.io_edge.specs.Outside.{AppendsPart, Rose, late_after};

use crate::{Sink, SinkAnswer};
use std::alloc::Global;

/// A sink in memory whose count of failures is always 0.
#[derive(Drop)]
pub struct SureSink {
    bytes: Vec<u8>,
}

impl SureSink {
    /// Nothing is written.
    pub fn new(alloc: Global) -> SureSink
        ensures written { ⟦<SureSink as Sink>⟧.written result ≡ Some [] }
        ensures faults { ⟦<SureSink as Sink>⟧.faults result ≡ 0 }
        ensures late { ⟦<SureSink as Sink>⟧.late result ≡ false }
    {
        SureSink {
            bytes: Vec::new(alloc),
        }
    }

    /// What was written.
    pub fn written(&self) -> &[u8]
        ensures { ⟦<SureSink as Sink>⟧.written self.now ≡ Some result.now }
    {
        &self.bytes
    }
}

impl Sink for SureSink {
    ghost written = { λ s. Some s.bytes.items };

    ghost faults = { λ _. 0 };

    ghost late = { λ _. false };

    fn write(&mut self, piece: &[u8]) -> Result<(), SinkAnswer>
        // Those of the trait.
        ensures whole { OnOk result
            (Appends (⟦<SureSink as Sink>⟧.written self.old)
            (⟦<SureSink as Sink>⟧.written self.new) piece.now) }
        ensures part { OnErr result
            (AppendsPart (⟦<SureSink as Sink>⟧.written self.old)
            (⟦<SureSink as Sink>⟧.written self.new) piece.now) }
        ensures counted { IsErrOf result SinkAnswer.Failed
            → Rose (⟦<SureSink as Sink>⟧.faults self.old) (⟦<SureSink as Sink>⟧.faults self.new) }
        ensures not_counted { ¬ IsErrOf result SinkAnswer.Failed
            → ⟦<SureSink as Sink>⟧.faults self.new ≡ ⟦<SureSink as Sink>⟧.faults self.old }
        ensures never_falls { ⟦<SureSink as Sink>⟧.faults self.old
            ≤ ⟦<SureSink as Sink>⟧.faults self.new }
        ensures late { ⟦<SureSink as Sink>⟧.late self.new
            ≡ late_after (⟦<SureSink as Sink>⟧.faults self.old)
            (⟦<SureSink as Sink>⟧.late self.old) }

        // No write fails.
        ensures faults { ⟦<SureSink as Sink>⟧.faults self.new ≡ 0 }
        ensures sure { ¬ IsErrOf result SinkAnswer.Failed }
    {
        Ok(self.bytes.extend_from_slice(piece)?)
    }
}

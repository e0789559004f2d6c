// A sink in memory, whose writes fail where it is asked.
ghost use Rattle.std.specs.Prelude.{◌≡◌, ◌≤◌, ◌⊎◌, [], false, Some, take, OnOk, OnErr, IsSome, IsSomeAnd, IsErrOf};
ghost use Rattle.std.specs.Io.KnownBytes.{Appends};
ghost use Rattle.io_edge.specs.Memory.{failing_writes, writes, taken_at};
ghost use Rattle.io_edge.specs.Outside.{AppendsPart, Rose, late_after, next_count};

use crate::count::{Faults, one_more};
use crate::{Sink, SinkAnswer};
use std::alloc::Global;

/// A sink in memory.
#[derive(Drop)]
pub struct MemSink {
    bytes: Vec<u8>,
    failing: Vec<(u64, usize)>,
    calls: u64,
    faults: Faults,
}

impl MemSink {
    /// Nothing is written. A write whose number stands first in a pair of `failing` takes as many
    /// bytes as the first such pair says, or the whole of a shorter piece, and then fails, where
    /// the first write has number 0.
    pub fn new(alloc: Global, failing: Vec<(u64, usize)>) -> MemSink
        ensures written { ⟦<MemSink as Sink>⟧.written result ≡ Some [] }
        ensures faults { ⟦<MemSink as Sink>⟧.faults result ≡ 0 }
        ensures late { ⟦<MemSink as Sink>⟧.late result ≡ false }
        ensures failing { failing_writes result ≡ failing.items }
        ensures writes { writes result ≡ 0 }
    {
        MemSink {
            bytes: Vec::new(alloc),
            failing,
            calls: 0,
            faults: Faults::none(),
        }
    }

    /// What was written.
    pub fn written(&self) -> &[u8]
        ensures { ⟦<MemSink as Sink>⟧.written self.now ≡ Some result.now }
    {
        &self.bytes
    }

    // How many bytes the write of this number takes, if it is to fail.
    fn taken_by(&self, call: u64) -> Option<usize>
        ensures { result ≡ taken_at self.now.failing.items call }
    {
        let failing = self.failing.iter().find(|pair| pair.0 == call)?;
        Some(failing.1)
    }
}

impl Sink for MemSink {
    ghost written = { λ s. Some s.bytes.items };

    ghost faults = { λ s. s.faults.count };

    ghost late = { λ s. s.faults.late };

    fn write(&mut self, piece: &[u8]) -> Result<(), SinkAnswer>
        // Those of the trait.
        ensures whole { OnOk result
            (Appends (⟦<MemSink as Sink>⟧.written self.old)
            (⟦<MemSink as Sink>⟧.written self.new) piece.now) }
        ensures part { OnErr result
            (AppendsPart (⟦<MemSink as Sink>⟧.written self.old)
            (⟦<MemSink as Sink>⟧.written self.new) piece.now) }
        ensures counted { IsErrOf result SinkAnswer.Failed
            → Rose (⟦<MemSink as Sink>⟧.faults self.old) (⟦<MemSink as Sink>⟧.faults self.new) }
        ensures not_counted { ¬ IsErrOf result SinkAnswer.Failed
            → ⟦<MemSink as Sink>⟧.faults self.new ≡ ⟦<MemSink as Sink>⟧.faults self.old }
        ensures never_falls { ⟦<MemSink as Sink>⟧.faults self.old
            ≤ ⟦<MemSink as Sink>⟧.faults self.new }
        ensures late { ⟦<MemSink as Sink>⟧.late self.new
            ≡ late_after (⟦<MemSink as Sink>⟧.faults self.old) (⟦<MemSink as Sink>⟧.late self.old) }

        // A write fails exactly where its number is listed, behind so many bytes. Each one counts.
        ensures listed { IsSome (taken_at (failing_writes self.old) (writes self.old))
            → IsErrOf result SinkAnswer.Failed ⊎ IsErrOf result SinkAnswer.OutOfMemory }
        ensures only_listed { IsErrOf result SinkAnswer.Failed
            → IsSomeAnd (taken_at (failing_writes self.old) (writes self.old)) (λ n.
            Appends (⟦<MemSink as Sink>⟧.written self.old)
            (⟦<MemSink as Sink>⟧.written self.new) (take n piece.now)) }
        ensures writes { writes self.new ≡ next_count (writes self.old) }
        ensures failing { failing_writes self.new ≡ failing_writes self.old }
    {
        self.faults.begin();
        let call = self.calls;
        self.calls = one_more(call);
        let Some(taken) = self.taken_by(call) else {
            return Ok(self.bytes.extend_from_slice(piece)?);
        };
        let front = &piece[..taken.min(piece.len())];
        self.bytes.extend_from_slice(front)?;
        self.faults.add();
        Err(SinkAnswer::Failed)
    }
}

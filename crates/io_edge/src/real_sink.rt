// An output of the system.
ghost use Rattle.std.specs.Prelude.{◌≡◌, false, OnOk, OnErr, IsOkUnless};
ghost use Rattle.std.specs.Io.KnownBytes.{Appends};
ghost use Rattle.io_edge.specs.Outside.{AppendsPart};

use crate::count::Faults;
use crate::{Sink, SinkAnswer};
use std::io::Write;

/// An output of the system, of which as much is told as std's writer tells.
#[derive(Drop)]
pub struct RealSink<W: Write> {
    out: W,
    faults: Faults,
}

impl<W: Write> RealSink<W> {
    /// No write has failed.
    pub fn new(out: W) -> RealSink<W>
        ensures written { ⟦<RealSink<W> as Sink>⟧.written result ≡ W.contents out }
        ensures faults { ⟦<RealSink<W> as Sink>⟧.faults result ≡ 0 }
        ensures late { ⟦<RealSink<W> as Sink>⟧.late result ≡ false }
    {
        RealSink {
            out,
            faults: Faults::none(),
        }
    }
}

impl<W: Write> Sink for RealSink<W> {
    ghost written = { λ s. W.contents s.out };

    ghost faults = { λ s. s.faults.count };

    ghost late = { λ s. s.faults.late };

    fn write(&mut self, piece: &[u8]) -> Result<(), SinkAnswer> {
        self.faults.begin();
        let answer = write_whole(&mut self.out, piece);
        if answer.is_err() {
            self.faults.add();
        }
        answer
    }
}

// Writes until the whole piece is taken, or a write fails or takes nothing.
fn write_whole<W: Write>(out: &mut W, piece: &[u8]) -> Result<(), SinkAnswer>
    ensures whole { OnOk result (Appends (W.contents out.old) (W.contents out.new) piece.now) }
    ensures part { OnErr result (AppendsPart (W.contents out.old) (W.contents out.new) piece.now) }
    ensures failed { IsOkUnless result SinkAnswer.Failed }
{
    let mut taken = 0;
    while taken < piece.len() {
        match out.write(&piece[taken..]) {
            Ok(0) | Err(_) => return Err(SinkAnswer::Failed),
            Ok(n) => taken += n,
        }
    }
    Ok(())
}

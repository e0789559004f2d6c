// What a command answers, and how it is written.
ghost use Rattle.std.specs.Prelude.{◌≡◌, ◌≢◌, ◌++◌, [], false, IfOk, IsOkAnd, IsErr, OnOk, OnErr, IsErrOf, flat_map, string_bytes};
ghost use Rattle.std.specs.Io.KnownBytes.{Appends};
ghost use Rattle.io_edge.specs.Outside.{AppendsPart, Rose};
ghost use Rattle.io_edge.specs.declared.SinkAnswer.{SinkAnswer};
ghost use Rattle.nagini_cli.specs.Replies.{Says, text_of};
ghost use Rattle.nagini_cli.specs.Statuses.{IsQuiet, IsCutShort};

use crate::status::{NO_MEMORY, WRITE_FAULT};
use io_edge::{Sink, SinkAnswer};
use py_base::OutOfMemory;
use std::alloc::{AllocError, Global};

/// What a command answers: a status, and the lines that are written before it.
#[derive(Debug, Drop)]
pub struct Reply {
    pub status: u8,
    pub lines: Vec<String>,
}

impl Reply {
    /// A reply of one line.
    pub fn one(alloc: Global, status: u8, line: String) -> Result<Reply, AllocError>
        ensures { IfOk result (λ r. Says r status (string_bytes line)) }
    {
        Ok(Reply {
            status,
            lines: vec![in alloc; line]?,
        })
    }

    /// A reply of no line.
    pub fn none(alloc: Global, status: u8) -> Reply
        ensures { Says result status [] }
    {
        Reply {
            status,
            lines: Vec::new(alloc),
        }
    }

    /// A reply of two lines.
    pub fn two(
        alloc: Global,
        status: u8,
        first: String,
        second: String,
    ) -> Result<Reply, AllocError>
        ensures { IfOk result (λ r. Says r status (string_bytes first ++ string_bytes second)) }
    {
        Ok(Reply {
            status,
            lines: vec![in alloc; first, second]?,
        })
    }
}

/// Writes a reply, and answers its status. A write that fails is the last one.
pub fn finish<O: Sink>(reply: Result<Reply, OutOfMemory>, out: &mut O) -> u8
    requires { IfOk reply (λ r. IsQuiet r.status) }
    ensures whole { IsQuiet result → IsOkAnd reply (λ r.
        (result ≡ r.status) × Appends (O.written out.old) (O.written out.new) (text_of r)) }
    ensures part { IsCutShort result → IfOk reply (λ r.
        AppendsPart (O.written out.old) (O.written out.new) (text_of r)) }
    ensures nothing { IsErr reply → O.written out.new ≡ O.written out.old }
    ensures write_fault { result ≡ WRITE_FAULT → Rose (O.faults out.old) (O.faults out.new) }
    ensures no_write_fault { result ≢ WRITE_FAULT → O.faults out.new ≡ O.faults out.old }
    ensures no_late_write { O.faults out.old ≡ 0 → O.late out.old ≡ false →
        O.late out.new ≡ false }
{
    let Ok(reply) = reply else {
        return NO_MEMORY;
    };
    match write_lines(&reply.lines, out) {
        Ok(()) => reply.status,
        Err(SinkAnswer::Failed) => WRITE_FAULT,
        Err(SinkAnswer::OutOfMemory) => NO_MEMORY,
    }
}

// Writes the lines, each by one write, until one fails.
fn write_lines<O: Sink>(lines: &[String], out: &mut O) -> Result<(), SinkAnswer>
    ensures whole { OnOk result
        (Appends (O.written out.old) (O.written out.new) (flat_map string_bytes lines.now)) }
    ensures part { OnErr result
        (AppendsPart (O.written out.old) (O.written out.new) (flat_map string_bytes lines.now)) }
    ensures counted { IsErrOf result SinkAnswer.Failed →
        Rose (O.faults out.old) (O.faults out.new) }
    ensures not_counted { ¬ IsErrOf result SinkAnswer.Failed →
        O.faults out.new ≡ O.faults out.old }
    ensures late { O.faults out.old ≡ 0 → O.late out.old ≡ false →
        O.late out.new ≡ false }
{
    for line in lines {
        if let Err(answer) = out.write(line.as_bytes()) {
            return Err(answer);
        }
    }
    Ok(())
}

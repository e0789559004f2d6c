// The files of the system.
ghost use Rattle.std.specs.Prelude.{◌≡◌, ◌≤◌, ◌<◌, ◌+◌, false, None, length, IfOk, IfSome, IsErrOf, string_bytes};
ghost use Rattle.std.specs.Option.{option_map};
ghost use Rattle.io_edge.specs.Outside.{ConsumesAtMost};

use crate::count::Faults;
use crate::{FileAnswer, Files};
use std::alloc::Global;
use std::io::Read;
use std::{fs, rt};

// How many bytes one turn asks for at most.
const BLOCK: usize = 4096;

/// The files of the system, of which no content is told.
#[derive(Drop)]
pub struct RealFiles<'a, R: rt::Files> {
    rt: &'a R,
    faults: Faults,
    failed: Option<String>,
}

impl<'a, R: rt::Files> RealFiles<'a, R> {
    /// No read has failed.
    pub fn new(rt: &'a R) -> RealFiles<'a, R>
        ensures held { ⟦<RealFiles<'a, R> as Files>⟧.held result ≡ None }
        ensures faults { ⟦<RealFiles<'a, R> as Files>⟧.faults result ≡ 0 }
        ensures failed { ⟦<RealFiles<'a, R> as Files>⟧.failed result ≡ None }
        ensures late { ⟦<RealFiles<'a, R> as Files>⟧.late result ≡ false }
    {
        RealFiles {
            rt,
            faults: Faults::none(),
            failed: None,
        }
    }
}

impl<'a, R: rt::Files> Files for RealFiles<'a, R> {
    ghost held = { λ _. None };

    ghost faults = { λ f. f.faults.count };

    ghost failed = { λ f. option_map string_bytes f.failed };

    ghost late = { λ f. f.faults.late };

    fn read(&mut self, alloc: Global, name: &str, limit: usize) -> Result<Vec<u8>, FileAnswer> {
        self.faults.begin();
        let failed = String::from_str(alloc, name)?;
        let answer = read_file(self.rt, alloc, name, limit);
        if let Err(FileAnswer::Failed) = &answer {
            self.faults.add();
            self.failed = Some(failed);
        }
        answer
    }
}

// Opens the file and reads it to its end.
fn read_file<R: rt::Files>(
    rt: &R,
    alloc: Global,
    name: &str,
    limit: usize,
) -> Result<Vec<u8>, FileAnswer>
    ensures { IfOk result (λ bytes. length bytes.items ≤ limit) }
{
    match fs::open(rt, name) {
        Ok(mut file) => read_to_limit(&mut file, alloc, limit),
        Err(_) => Err(FileAnswer::Failed),
    }
}

/// All that the reader has left, where that is at most `limit` bytes. Any error is a failure.
pub fn read_to_limit<R: Read>(
    reader: &mut R,
    alloc: Global,
    limit: usize,
) -> Result<Vec<u8>, FileAnswer>
    ensures fits { IfOk result (λ bytes. length bytes.items ≤ limit) }
    ensures whole { IfOk result (λ bytes.
        IfSome (R.remaining reader.old) (λ all. bytes.items ≡ all)) }
    ensures too_long { IsErrOf result FileAnswer.TooLong
        → IfSome (R.remaining reader.old) (λ all. limit < length all) }
    ensures taken { ConsumesAtMost (R.remaining reader.old) (R.remaining reader.new) (limit + 1) }
{
    let mut bytes = Vec::new(alloc);
    let mut block = [0u8; BLOCK];
    while bytes.len() <= limit {
        let room = (limit - bytes.len()).min(BLOCK - 1) + 1;
        match reader.read(&mut block[..room]) {
            Err(_) => return Err(FileAnswer::Failed),
            Ok(0) => return Ok(bytes),
            Ok(n) => bytes.extend_from_slice(&block[..n])?,
        }
    }
    Err(FileAnswer::TooLong)
}

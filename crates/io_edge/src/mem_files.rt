// Files in memory, whose reads fail where it is asked.
ghost use Rattle.std.specs.Prelude.{◌≡◌, ◌≤◌, ◌⊎◌, ◌↔◌, false, Some, None, IfOk, IfSome, IsNone, IsErrOf, Contains, length, string_bytes, option_copied, find, bytes_eq};
ghost use Rattle.std.specs.Option.{option_map};
ghost use Rattle.io_edge.specs.Memory.{names_and_bytes, failing_reads, reads};
ghost use Rattle.io_edge.specs.Outside.{held_at, IsTooLong, Rose, late_after, next_count};

use crate::count::{Faults, one_more};
use crate::{FileAnswer, Files};
use std::alloc::Global;

/// Files in memory.
#[derive(Drop)]
pub struct MemFiles {
    files: Vec<(String, Vec<u8>)>,
    failing: Vec<u64>,
    calls: u64,
    faults: Faults,
    failed: Option<String>,
}

impl MemFiles {
    /// Holds these files, the first of those with one name. A read whose number is in `failing`
    /// fails, where the first read has number 0.
    pub fn new(files: Vec<(String, Vec<u8>)>, failing: Vec<u64>) -> MemFiles
        ensures held { ⟦<MemFiles as Files>⟧.held result ≡ Some (names_and_bytes files.items) }
        ensures faults { ⟦<MemFiles as Files>⟧.faults result ≡ 0 }
        ensures failed { ⟦<MemFiles as Files>⟧.failed result ≡ None }
        ensures late { ⟦<MemFiles as Files>⟧.late result ≡ false }
        ensures failing { failing_reads result ≡ failing.items }
        ensures reads { reads result ≡ 0 }
    {
        MemFiles {
            files,
            failing,
            calls: 0,
            faults: Faults::none(),
            failed: None,
        }
    }

    // The bytes that the read of this number finds, if it is not to fail.
    fn find(&self, call: u64, name: &str) -> Option<&[u8]>
        ensures none { IsNone result
            ↔ (Contains self.now.failing.items call
            ⊎ (held_at (names_and_bytes self.now.files.items) name.now ≡ None)) }
        ensures some { IfSome result (λ bytes.
            held_at (names_and_bytes self.now.files.items) name.now ≡ Some bytes.now) }
    {
        if self.failing.contains(&call) {
            return None;
        }
        bytes_named(&self.files, name)
    }
}

impl Files for MemFiles {
    ghost held = { λ f. Some (names_and_bytes f.files.items) };

    ghost faults = { λ f. f.faults.count };

    ghost failed = { λ f. option_map string_bytes f.failed };

    ghost late = { λ f. f.faults.late };

    fn read(&mut self, alloc: Global, name: &str, limit: usize) -> Result<Vec<u8>, FileAnswer>
        // Those of the trait.
        ensures fits { IfOk result (λ bytes. length bytes.items ≤ limit) }
        ensures bytes { IfOk result (λ bytes.
            IfSome (⟦<MemFiles as Files>⟧.held self.old) (λ all.
            held_at all name.now ≡ Some bytes.items)) }
        ensures too_long { IfSome (⟦<MemFiles as Files>⟧.held self.old) (λ all.
            IsTooLong limit (held_at all name.now)
            → ¬ IsErrOf result FileAnswer.Failed
            → IsErrOf result FileAnswer.TooLong ⊎ IsErrOf result FileAnswer.OutOfMemory) }
        ensures only_too_long { IsErrOf result FileAnswer.TooLong
            → IfSome (⟦<MemFiles as Files>⟧.held self.old) (λ all.
            IsTooLong limit (held_at all name.now)) }
        ensures missing { IfSome (⟦<MemFiles as Files>⟧.held self.old) (λ all.
            held_at all name.now ≡ None
            → IsErrOf result FileAnswer.Failed ⊎ IsErrOf result FileAnswer.OutOfMemory) }
        ensures counted { IsErrOf result FileAnswer.Failed
            → Rose (⟦<MemFiles as Files>⟧.faults self.old) (⟦<MemFiles as Files>⟧.faults self.new) }
        ensures named { IsErrOf result FileAnswer.Failed
            → ⟦<MemFiles as Files>⟧.failed self.new ≡ Some name.now }
        ensures not_counted { ¬ IsErrOf result FileAnswer.Failed
            → ⟦<MemFiles as Files>⟧.faults self.new ≡ ⟦<MemFiles as Files>⟧.faults self.old }
        ensures not_named { ¬ IsErrOf result FileAnswer.Failed
            → ⟦<MemFiles as Files>⟧.failed self.new ≡ ⟦<MemFiles as Files>⟧.failed self.old }
        ensures never_falls { ⟦<MemFiles as Files>⟧.faults self.old
            ≤ ⟦<MemFiles as Files>⟧.faults self.new }
        ensures held { ⟦<MemFiles as Files>⟧.held self.new ≡ ⟦<MemFiles as Files>⟧.held self.old }
        ensures late { ⟦<MemFiles as Files>⟧.late self.new
            ≡ late_after (⟦<MemFiles as Files>⟧.faults self.old)
            (⟦<MemFiles as Files>⟧.late self.old) }

        // A read fails exactly where its number is listed or its name isn't held. Each read counts.
        ensures listed { Contains (failing_reads self.old) (reads self.old)
            → IsErrOf result FileAnswer.Failed ⊎ IsErrOf result FileAnswer.OutOfMemory }
        ensures only_listed { IsErrOf result FileAnswer.Failed
            → Contains (failing_reads self.old) (reads self.old)
            ⊎ IfSome (⟦<MemFiles as Files>⟧.held self.old) (λ all. held_at all name.now ≡ None) }
        ensures reads { reads self.new ≡ next_count (reads self.old) }
        ensures failing { failing_reads self.new ≡ failing_reads self.old }
    {
        self.faults.begin();
        let call = self.calls;
        self.calls = one_more(call);
        let failed = String::from_str(alloc, name)?;
        let Some(bytes) = self.find(call, name) else {
            self.faults.add();
            self.failed = Some(failed);
            return Err(FileAnswer::Failed);
        };
        if bytes.len() > limit {
            return Err(FileAnswer::TooLong);
        }
        Ok(bytes.to_vec(alloc)?)
    }
}

// The bytes of the first file of this name.
#[tactic(auto, using(crate::proofs::Held::held_at_names))]
fn bytes_named<'a>(files: &'a [(String, Vec<u8>)], name: &str) -> Option<&'a [u8]>
    ensures { option_copied result ≡ held_at (names_and_bytes files.now) name.now }
{
    let file = first_named(files, name)?;
    Some(&file.1)
}

// The first file of this name.
fn first_named<'a>(files: &'a [(String, Vec<u8>)], name: &str) -> Option<&'a (String, Vec<u8>)>
    ensures { option_copied result
        ≡ find (λ file. bytes_eq (string_bytes file.0) name.now) files.now }
{
    files.iter().find(|file| file.0.as_str() == name)
}

// What the tests share: words, files, and modules by their text.
use io_edge::MemFiles;
use std::alloc::{AllocError, Global};

/// The smallest module that assigns, asserts and prints.
pub const SMALLEST: &str = "def main() -> None:\n    x = 3\n    assert x + 2 == 5\n    print(x)\n";

/// Two threads that each add one to a counter under its lock.
pub const COUNTER: &str = "from nagini_contracts.contracts import *

class Cell:
    def __init__(self, v: int) -> None:
        Ensures(Acc(self.value) and self.value == v)
        self.value = v

class CellLock(Lock[Cell]):
    @Predicate
    def invariant(self) -> bool:
        return Acc(self.get_locked().value)

def work(l: CellLock) -> None:
    Requires(WaitLevel() < Level(l))
    with l:
        c = l.get_locked()
        c.value = c.value + 1

def main() -> None:
    l = CellLock(Cell(0), 10)
    a = Thread(target=work, args=(l,), level=5)
    b = Thread(target=work, args=(l,), level=6)
    a.start(work)
    b.start(work)
    a.join(work)
    b.join(work)
    with l:
        print(l.get_locked().value)
";

/// The words of a command line, parted by single spaces; no words where the line is empty.
pub fn words_of(alloc: Global, line: &str) -> Result<Vec<String>, AllocError> {
    let mut words = Vec::new(alloc);
    if line.is_empty() {
        return Ok(words);
    }
    for word in line.split(' ') {
        words.push(String::from_str(alloc, word)?)?;
    }
    Ok(words)
}

/// The file `m.py` with this text, where the reads with these numbers fail.
pub fn one_file(alloc: Global, text: &[u8], failing: Vec<u64>) -> Result<MemFiles, AllocError> {
    let mut files = Vec::new(alloc);
    files.push((String::from_str(alloc, "m.py")?, text.to_vec(alloc)?))?;
    Ok(MemFiles::new(files, failing))
}

/// The files `m.py` and `s.txt` with these texts, where the reads with these numbers fail.
pub fn two_files(
    alloc: Global,
    text: &[u8],
    schedule: &[u8],
    failing: Vec<u64>,
) -> Result<MemFiles, AllocError> {
    let mut files = Vec::new(alloc);
    files.push((String::from_str(alloc, "m.py")?, text.to_vec(alloc)?))?;
    files.push((String::from_str(alloc, "s.txt")?, schedule.to_vec(alloc)?))?;
    Ok(MemFiles::new(files, failing))
}

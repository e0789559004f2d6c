// Faults of files and sinks, and how many writes an answer takes.
ghost use Rattle.std.specs.Prelude.{Some, false};

use crate::fixtures::{SMALLEST, one_file, two_files, words_of};
use io_edge::{MemSink, Sink, SinkAnswer};
use nagini_cli::nagini;
use std::alloc::Global;
use std::test::Fail;

/// A sink that counts its writes.
#[derive(Drop)]
struct CountingSink {
    bytes: Vec<u8>,
    calls: u64,
}

impl Sink for CountingSink {
    ghost written = { λ s. Some s.bytes.items };

    ghost faults = { λ _. 0 };

    ghost late = { λ _. false };

    fn write(&mut self, piece: &[u8]) -> Result<(), SinkAnswer> {
        self.calls = self.calls.saturating_add(1);
        Ok(self.bytes.extend_from_slice(piece)?)
    }
}

#[test]
fn a_file_that_is_not_held_and_a_read_that_fails_are_read_faults(
    rt: HostRuntime,
) -> Result<(), Fail> {
    let alloc = rt.alloc();
    for (line, failing, output) in [
        ("check other.py", 9, "read fault other.py\n"),
        ("check m.py", 0, "read fault m.py\n"),
    ] {
        let words = words_of(alloc, line)?;
        let mut files = one_file(alloc, SMALLEST.as_bytes(), vec![in alloc; failing]?)?;
        let mut out = MemSink::new(alloc, Vec::new(alloc));
        assert_eq!(rt; nagini(alloc, &words, &mut files, &mut out), 66, "{line}");
        assert_eq!(rt; out.written(), output.as_bytes(), "{line}");
    }
    Ok(())
}

// The number of the write that fails, how many bytes it takes, and what stands then.
#[test]
fn a_write_that_fails_leaves_a_front_of_the_answer(rt: HostRuntime) -> Result<(), Fail> {
    let alloc = rt.alloc();
    let words = words_of(alloc, "check m.py")?;
    let text = "def main() -> None:\n    assert 1 == 2\n";
    for (call, taken, output) in [
        (0, 0, ""),
        (0, 6, "2:5 5 "),
        (1, 4, "2:5 5 Assert main\nnot "),
    ] {
        let mut files = one_file(alloc, text.as_bytes(), Vec::new(alloc))?;
        let mut out = MemSink::new(alloc, vec![in alloc; (call, taken)]?);
        assert_eq!(rt; nagini(alloc, &words, &mut files, &mut out), 74, "{output}");
        assert_eq!(rt; out.written(), output.as_bytes());
    }
    Ok(())
}

#[test]
fn each_line_is_one_write(rt: HostRuntime) -> Result<(), Fail> {
    let alloc = rt.alloc();
    for (line, text, calls) in [
        ("check m.py", SMALLEST, 1),
        ("check m.py", "def main() -> None:\n    assert 1 == 2\n", 2),
        ("check m.py", "", 1),
        ("check other.py", "", 1),
        ("check", "", 1),
    ] {
        let words = words_of(alloc, line)?;
        let mut files = one_file(alloc, text.as_bytes(), Vec::new(alloc))?;
        let mut out = CountingSink {
            bytes: Vec::new(alloc),
            calls: 0,
        };
        let _ = nagini(alloc, &words, &mut files, &mut out);
        assert_eq!(rt; out.calls, calls, "{text}");
    }
    Ok(())
}

// A module that prints two lines and then fails.
const TWO_LINES: &str = "def main() -> None:\n    print(7)\n    print(8)\n    assert 1 == 2\n";

// The first number is that of the write that fails, the second how many bytes it takes.
#[test]
fn a_run_ends_at_the_write_that_fails(rt: HostRuntime) -> Result<(), Fail> {
    let alloc = rt.alloc();
    let words = words_of(alloc, "run m.py s.txt")?;
    for (call, taken, status, output) in [
        (0, 0, 74, ""),
        (0, 1, 74, "7"),
        (1, 0, 74, "7\n"),
        (1, 1, 74, "7\n8"),
        (2, 3, 74, "7\n8\nsto"),
        (3, 0, 3, "7\n8\nstopped 5 Assert 4:5 thread 0\n"),
    ] {
        let schedule = "schedule 1\nfair 100\n".as_bytes();
        let mut files = two_files(alloc, TWO_LINES.as_bytes(), schedule, Vec::new(alloc))?;
        let mut out = MemSink::new(alloc, vec![in alloc; (call, taken)]?);
        assert_eq!(rt;
            nagini(alloc, &words, &mut files, &mut out),
            status,
            "{output}"
        );
        assert_eq!(rt; out.written(), output.as_bytes());
    }
    Ok(())
}

#[test]
fn each_print_is_one_write(rt: HostRuntime) -> Result<(), Fail> {
    let alloc = rt.alloc();
    let words = words_of(alloc, "run m.py s.txt")?;
    for (text, schedule, calls) in [
        (SMALLEST, "schedule 1\nfair 100\n", 1),
        (SMALLEST, "schedule 1\n0 5\n", 1),
        (TWO_LINES, "schedule 1\nfair 100\n", 3),
        (TWO_LINES, "schedule 1\n0 2\n", 2),
    ] {
        let schedule = schedule.as_bytes();
        let mut files = two_files(alloc, text.as_bytes(), schedule, Vec::new(alloc))?;
        let mut out = CountingSink {
            bytes: Vec::new(alloc),
            calls: 0,
        };
        let _ = nagini(alloc, &words, &mut files, &mut out);
        assert_eq!(rt; out.calls, calls, "{text}");
    }
    Ok(())
}

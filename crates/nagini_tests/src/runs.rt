// The status and the text of `run`, for modules and schedules.
use crate::fixtures::{SMALLEST, two_files, words_of};
use io_edge::MemSink;
use nagini_cli::nagini;
use std::alloc::{AllocError, Global};
use std::test::Fail;

/// Whether the words, over `m.py` and `s.txt` with these texts, give the status and the text.
fn gives(
    alloc: Global,
    (line, failing): (&str, u64),
    text: &[u8],
    schedule: &[u8],
    status: u8,
    output: &str,
) -> Result<bool, AllocError> {
    let words = words_of(alloc, line)?;
    let mut files = two_files(alloc, text, schedule, vec![in alloc; failing]?)?;
    let mut out = MemSink::new(alloc, Vec::new(alloc));
    let answer = nagini(alloc, &words, &mut files, &mut out);
    Ok(answer == status && out.written() == output.as_bytes())
}

// The smallest module takes eleven steps: two to assign, six to assert, two to print, and its end.
#[test]
fn a_run_prints_its_output_and_then_its_end(rt: HostRuntime) -> Result<(), Fail> {
    let failed = "def main() -> None:\n    print(7)\n    assert 1 == 2\n";
    for (text, schedule, status, output) in [
        (SMALLEST, "schedule 1\nfair 100\n", 0, "3\n"),
        (SMALLEST, "schedule 1\n7 5\n0 10\n", 4, "3\nspent 0\n"),
        (SMALLEST, "schedule 1\n0 11\n0 5\n", 0, "3\n"),
        (SMALLEST, "schedule 1\n", 4, "spent 0\n"),
        (
            failed,
            "schedule 1\n0 100\n",
            3,
            "7\nstopped 5 Assert 3:5 thread 0\n",
        ),
        (SMALLEST, "schedule 1\r\n# all\r\n\r\nfair 11", 0, "3\n"),
    ] {
        assert!(rt;
            gives(
                rt.alloc(),
                ("run m.py s.txt", 9),
                text.as_bytes(),
                schedule.as_bytes(),
                status,
                output
            )?,
            "{schedule}"
        );
    }
    Ok(())
}

#[test]
fn a_schedule_is_refused_after_the_module(rt: HostRuntime) -> Result<(), Fail> {
    let unknown = "def main() -> None:\n    x = y\n";
    for (text, schedule, status, output) in [
        (SMALLEST, "", 2, "refused BadSchedule line 1\n"),
        (
            SMALLEST,
            "schedule 1\n0 x\n",
            2,
            "refused BadSchedule line 2\n",
        ),
        (SMALLEST, "schedule 1\n0 10000001\n", 7, "limit schedule\n"),
        (
            SMALLEST,
            "schedule 1\n0 10000001\n0\n",
            2,
            "refused BadSchedule line 3\n",
        ),
        (
            unknown,
            "schedule 1\n0 x\n",
            2,
            "refused Mistyped 2:9 rule 2\n",
        ),
        ("", "", 2, "refused NoMain 1:1\n"),
    ] {
        assert!(rt;
            gives(
                rt.alloc(),
                ("run m.py s.txt", 9),
                text.as_bytes(),
                schedule.as_bytes(),
                status,
                output
            )?,
            "{schedule}"
        );
    }
    Ok(())
}

#[test]
fn the_files_are_read_in_the_order_of_the_words(rt: HostRuntime) -> Result<(), Fail> {
    for (line, failing, output) in [
        ("run m.py s.txt", 0, "read fault m.py\n"),
        ("run m.py s.txt", 1, "read fault s.txt\n"),
        ("run other.py s.txt", 9, "read fault other.py\n"),
        ("run m.py other.txt", 9, "read fault other.txt\n"),
        ("run other.py other.txt", 9, "read fault other.py\n"),
    ] {
        assert!(rt;
            gives(rt.alloc(), (line, failing), b"", b"", 66, output)?,
            "{output}"
        );
    }
    Ok(())
}

#[test]
fn a_schedule_of_one_byte_more_than_the_limit_is_too_long(rt: HostRuntime) -> Result<(), Fail> {
    let alloc = rt.alloc();
    let long = vec![in alloc; b'#'; 1_048_577]?;
    for (line, text, schedule, output) in [
        (
            "run m.py s.txt",
            b"x".as_slice(),
            long.as_slice(),
            "limit file\n",
        ),
        ("run m.py other.txt", &long, b"", "limit file\n"),
    ] {
        assert!(rt;
            gives(alloc, (line, 9), text, schedule, 7, output)?,
            "{line}"
        );
    }
    Ok(())
}

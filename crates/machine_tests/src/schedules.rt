// What no clause says: that texts are read at all, with values from the rules of the schedule text.
use schedule_runner::{ScheduleFault, ScheduleLine, read_schedule};
use std::test::Fail;

#[test]
fn schedules_and_their_lines(rt: HostRuntime) -> Result<(), Fail> {
    use ScheduleLine::{Fair, Give};
    for (text, lines) in [
        ("schedule 1\n0 9\n", [Give(0, 9)].as_slice()),
        (
            "schedule 1\n7 5\n0 10",
            [Give(7, 5), Give(0, 10)].as_slice(),
        ),
        (
            "schedule 1\r\n0 11\r\n\r\n0 5\r\n",
            [Give(0, 11), Give(0, 5)].as_slice(),
        ),
        ("schedule 1", [].as_slice()),
        (
            "schedule 1\n\n# some steps\n#\nfair 3\n\n",
            [Fair(3)].as_slice(),
        ),
        (
            "schedule 1\n# \u{e9}\nfair 10000000",
            [Fair(10_000_000)].as_slice(),
        ),
        (
            "schedule 1\n999999999999999999 1",
            [Give(999_999_999_999_999_999, 1)].as_slice(),
        ),
    ] {
        match read_schedule(rt.alloc(), text.as_bytes()) {
            Ok(schedule) => assert_eq!(rt; schedule.lines.as_slice(), lines, "{text}"),
            Err(fault) => assert_eq!(rt; Some(fault), None, "{text}"),
        }
    }
    Ok(())
}

#[test]
fn texts_that_are_no_schedules(rt: HostRuntime) -> Result<(), Fail> {
    use ScheduleFault::{BadSchedule, ScheduleTooLong};
    for (text, fault) in [
        (b"".as_slice(), BadSchedule(1)),
        (b"schedule 2\n".as_slice(), BadSchedule(1)),
        (b"\xef\xbb\xbfschedule 1\n".as_slice(), BadSchedule(1)),
        (b"schedule 1\n0 x\n".as_slice(), BadSchedule(2)),
        (b"schedule 1\n00 5\n".as_slice(), BadSchedule(2)),
        (b"schedule 1\n0 05\n".as_slice(), BadSchedule(2)),
        (b"schedule 1\n\n0 0\n".as_slice(), BadSchedule(3)),
        (b"schedule 1\n0  1\n".as_slice(), BadSchedule(2)),
        (b"schedule 1\nfair 1 \n".as_slice(), BadSchedule(2)),
        (
            b"schedule 1\n0 1\n1000000000000000000 1".as_slice(),
            BadSchedule(3),
        ),
        (b"schedule 1\n#\xff\n".as_slice(), BadSchedule(2)),
        (b"schedule 1\n0 9\r".as_slice(), BadSchedule(2)),
        (b"schedule 1\n0 9\r\r\n".as_slice(), BadSchedule(2)),
        (b"schedule 1\n0 10000001\n".as_slice(), ScheduleTooLong),
        (b"schedule 1\n0 10000001\n0 x\n".as_slice(), BadSchedule(3)),
        (
            b"schedule 1\nfair 10000000\n0 1\n".as_slice(),
            ScheduleTooLong,
        ),
    ] {
        let read = read_schedule(rt.alloc(), text);
        assert_eq!(rt; read.err(), Some(fault), "{text:?}");
    }
    Ok(())
}

// Each line has nearly 10^18 steps, so that their sum passes 2^64.
#[test]
fn twenty_long_lines_are_too_long(rt: HostRuntime) -> Result<(), Fail> {
    let mut text = String::from_str(rt.alloc(), "schedule 1\n")?;
    for _ in 0..20 {
        text.push_str("0 999999999999999999\n")?;
    }
    let read = read_schedule(rt.alloc(), text.as_bytes());
    assert_eq!(rt; read.err(), Some(ScheduleFault::ScheduleTooLong));
    Ok(())
}

// The status and the text of `check`, for modules and for words.
use crate::fixtures::{COUNTER, SMALLEST, one_file, words_of};
use io_edge::MemSink;
use nagini_cli::nagini;
use std::alloc::Global;
use std::test::Fail;

/// Whether the words, over the file `m.py` with this text, give the status and the text.
fn gives(
    alloc: Global,
    line: &str,
    text: &[u8],
    status: u8,
    output: &str,
) -> Result<bool, std::alloc::AllocError> {
    let words = words_of(alloc, line)?;
    let mut files = one_file(alloc, text, Vec::new(alloc))?;
    let mut out = MemSink::new(alloc, Vec::new(alloc));
    let answer = nagini(alloc, &words, &mut files, &mut out);
    Ok(answer == status && out.written() == output.as_bytes())
}

/// The status of `check` for a text.
fn status_of(alloc: Global, text: &[u8]) -> Result<u8, std::alloc::AllocError> {
    let words = words_of(alloc, "check m.py")?;
    let mut files = one_file(alloc, text, Vec::new(alloc))?;
    let mut out = MemSink::new(alloc, Vec::new(alloc));
    Ok(nagini(alloc, &words, &mut files, &mut out))
}

/// The first bytes of a text, so many; None where it has fewer.
fn front_of(text: &str, length: usize) -> Option<&[u8]> {
    text.as_bytes().get(..length)
}

// No front of the first text is a small module. Of those of the second one, which has no false assert, the ones are that
// end with its first, second or last statement, and with the line end and up to four spaces behind: 6, 6 and 2.
#[test]
fn each_front_of_a_text_has_an_answer(rt: HostRuntime) -> Result<(), Fail> {
    let alloc = rt.alloc();
    for length in 0..695_usize {
        let Some(front) = front_of(COUNTER, length) else {
            return Err("no such front".into());
        };
        assert_eq!(rt; status_of(alloc, front)?, 2, "{length}");
    }
    let mut accepted = 0_u8;
    for length in 0..66_usize {
        let Some(front) = front_of(SMALLEST, length) else {
            return Err("no such front".into());
        };
        let status = status_of(alloc, front)?;
        if status == 0 {
            accepted = accepted.saturating_add(1);
        } else {
            assert_eq!(rt; status, 2, "{length}");
        }
    }
    assert_eq!(rt; accepted, 14);
    Ok(())
}

#[test]
fn small_modules_are_accepted_or_reported_at_the_first_false_assert(
    rt: HostRuntime,
) -> Result<(), Fail> {
    for (text, status, output) in [
        (SMALLEST, 0, "accepted 1\n"),
        (
            "def main() -> None:\n    assert 1 == 2\n    assert 3 == 4\n",
            1,
            "2:5 5 Assert main\nnot proved 1\n",
        ),
        (
            "# a\n\ndef main() -> None:\n    x = 1\n    x = x - 2\n    # b\n    assert x == 1 - 2\n    assert x == 1",
            1,
            "8:5 5 Assert main\nnot proved 1\n",
        ),
    ] {
        assert!(rt;
            gives(rt.alloc(), "check m.py", text.as_bytes(), status, output)?,
            "{text}"
        );
    }
    Ok(())
}

#[test]
fn other_texts_are_refused_at_their_place(rt: HostRuntime) -> Result<(), Fail> {
    for (text, output) in [
        ("", "refused NoMain 1:1\n"),
        ("# a\n# b\n", "refused NoMain 3:1\n"),
        ("import_ = 1\n", "refused Syntax 1:1\n"),
        ("def main(", "refused Syntax 2:1\n"),
        ("def main() -> None:\n", "refused Syntax 2:1\n"),
        (
            "def main() -> None:\n    \"\"\"doc",
            "refused OpenString 2:5\n",
        ),
        ("def main() -> None:\n\tpass\n", "refused TabInIndent 2:1\n"),
        (
            "def main() -> None:\n    if True:\n        pass\n      pass\n",
            "refused BadDedent 4:7\n",
        ),
        (
            "def main() -> None:\n    x = 007\n",
            "refused BadCharacter 2:10\n",
        ),
        (
            "def main() -> None:\n    x = 170141183460469231731687303715884105728\n",
            "refused LiteralTooLarge 2:9\n",
        ),
    ] {
        assert!(rt;
            gives(rt.alloc(), "check m.py", text.as_bytes(), 2, output)?,
            "{text}"
        );
    }
    Ok(())
}

// The first form that isn't built, from left to right and from top to bottom.
#[test]
fn other_modules_are_refused_at_their_first_form(rt: HostRuntime) -> Result<(), Fail> {
    for (text, output) in [
        (
            "def main() -> None:\n    x = 1 + 2 - 3\n",
            "refused NotBuilt 2:15\n",
        ),
        (
            "def main() -> None:\n    x = 1000000000\n",
            "refused NotBuilt 2:9\n",
        ),
        (
            "def main() -> None:\n    x = 2 * 3\n",
            "refused NotBuilt 2:11\n",
        ),
        (
            "def main() -> None:\n    print()\n",
            "refused NotBuilt 2:5\n",
        ),
        (
            "def main() -> None:\n    print(1, 2)\n",
            "refused NotBuilt 2:14\n",
        ),
        (
            "def main() -> None:\n    assert 1 == 1 == 1\n",
            "refused NotBuilt 2:19\n",
        ),
        (
            "def main() -> None:\n    assert 1 < 2\n",
            "refused NotBuilt 2:5\n",
        ),
        (
            "def main() -> None:\n    return\n",
            "refused NotBuilt 2:5\n",
        ),
        (
            "def f() -> None:\n    pass\ndef main() -> None:\n    pass\n",
            "refused NotBuilt 1:5\n",
        ),
        (
            "def main() -> None:\n    pass\nclass A:\n    pass\n",
            "refused NotBuilt 3:7\n",
        ),
    ] {
        assert!(rt;
            gives(rt.alloc(), "check m.py", text.as_bytes(), 2, output)?,
            "{text}"
        );
    }
    Ok(())
}

// The first fault of classes.
#[test]
fn other_classes_are_refused(rt: HostRuntime) -> Result<(), Fail> {
    for (text, output) in [
        ("def main() -> int:\n    pass\n", "refused NoMain 3:1\n"),
        (
            "def main(x: int) -> None:\n    pass\n",
            "refused NoMain 3:1\n",
        ),
        ("def f() -> None:\n    pass\n", "refused NoMain 3:1\n"),
        ("class A:\n    pass\n", "refused NoMain 3:1\n"),
        (
            "def main() -> None:\n    pass\ndef main() -> None:\n    pass\n",
            "refused DuplicateName 3:5\n",
        ),
        (
            "def main() -> None:\n    Lock = 1\n",
            "refused DuplicateName 2:5\n",
        ),
        (
            "class A(A):\n    pass\ndef main() -> None:\n    pass\n",
            "refused BaseCycle 1:9\n",
        ),
        (
            "class A:\n    def __init__(self) -> int:\n        pass\ndef main() -> None:\n    pass\n",
            "refused BadInit 2:9\n",
        ),
        (
            "def main() -> None:\n    return\nclass A(C):\n    pass\n",
            "refused UnknownBase 3:9\n",
        ),
    ] {
        assert!(rt;
            gives(rt.alloc(), "check m.py", text.as_bytes(), 2, output)?,
            "{text}"
        );
    }
    Ok(())
}

// The first fault of types.
#[test]
fn other_types_are_refused(rt: HostRuntime) -> Result<(), Fail> {
    for (text, output) in [
        (
            "def main() -> None:\n    x = y\n",
            "refused Mistyped 2:9 rule 2\n",
        ),
        (
            "def main() -> None:\n    x = y\n    z = w\n",
            "refused Mistyped 2:9 rule 2\n",
        ),
        (
            "def main() -> None:\n    assert 1\n",
            "refused Mistyped 2:12 rule 4\n",
        ),
        (
            "def main() -> None:\n    return 1\n",
            "refused Mistyped 2:5 rule 11\n",
        ),
        (
            "def main() -> None:\n    break\n",
            "refused Mistyped 2:5 rule 13\n",
        ),
        (
            "def main() -> None:\n    x = True + 1\n",
            "refused BoolAsInt 2:9\n",
        ),
        (
            "def main() -> None:\n    if True:\n        x = 1\n    print(x)\n",
            "refused Unassigned 4:11\n",
        ),
    ] {
        assert!(rt;
            gives(rt.alloc(), "check m.py", text.as_bytes(), 2, output)?,
            "{text}"
        );
    }
    Ok(())
}

// The first fault of contracts.
#[test]
fn other_contracts_are_refused(rt: HostRuntime) -> Result<(), Fail> {
    for (text, output) in [
        (
            "def main() -> None:\n    x = 1\n    Requires(True)\n",
            "refused ContractPlace 3:5\n",
        ),
        (
            "def f(x: int) -> None:\n    Requires(Old(x) == 1)\ndef main() -> None:\n    pass\n",
            "refused OldInPre 2:14\n",
        ),
        (
            "def f(x: int) -> None:\n    Ensures(MustTerminate(x))\ndef main() -> None:\n    pass\n",
            "refused DutyPlace 2:13\n",
        ),
        (
            "class C:\n    def __init__(self) -> None:\n        self.f = 0\ndef f(c: C) -> None:\n    Requires(Acc(c.f, 3/2))\ndef main() -> None:\n    pass\n",
            "refused BadFraction 5:23\n",
        ),
        (
            "@Pure\ndef f(x: int) -> int:\n    return f(x)\ndef main() -> None:\n    pass\n",
            "refused RecursivePure 2:5\n",
        ),
        (
            "def f(x: int) -> int:\n    return x\ndef main() -> None:\n    t = Thread(target=f, args=(1,), level=1)\n",
            "refused BadTarget 4:23\n",
        ),
        (
            "def main() -> None:\n    Fold(g(1))\n",
            "refused UnknownPredicate 2:10\n",
        ),
    ] {
        assert!(rt;
            gives(rt.alloc(), "check m.py", text.as_bytes(), 2, output)?,
            "{text}"
        );
    }
    Ok(())
}

// A fault of classes comes before one of types, that before one of contracts, and each before a form that isn't built, wherever they stand.
#[test]
fn faults_are_told_in_their_order(rt: HostRuntime) -> Result<(), Fail> {
    for (text, output) in [
        (
            "def main() -> None:\n    x = y\nclass A(C):\n    pass\n",
            "refused UnknownBase 3:9\n",
        ),
        (
            "def main() -> None:\n    x = 1\n    Requires(True)\n    y = z\n",
            "refused Mistyped 4:9 rule 2\n",
        ),
        (
            "def main() -> None:\n    x = 2 * 3\n    y = z\n",
            "refused Mistyped 3:9 rule 2\n",
        ),
        (
            "def main() -> None:\n    x = 2 * 3\n    Requires(True)\n",
            "refused ContractPlace 3:5\n",
        ),
        (
            "def main() -> None:\n    x = 1 + 2 - True\n",
            "refused BoolAsInt 2:17\n",
        ),
        (
            "def main() -> None:\n    x = 2 * 3\n    x = (y\n",
            "refused Syntax 4:1\n",
        ),
    ] {
        assert!(rt;
            gives(rt.alloc(), "check m.py", text.as_bytes(), 2, output)?,
            "{text}"
        );
    }
    Ok(())
}

#[test]
fn small_modules_may_be_spelled_in_any_way(rt: HostRuntime) -> Result<(), Fail> {
    for text in [
        "def main() -> None:\n    x = (1 +\n  2)\n",
        "def main() -> None: pass",
        "from a.b import *\nfrom c import d, e\ndef main() -> None:\r\n  x=1_0\r\n  assert(x)==10\r\n",
        "'doc'\ndef main() -> 'None':\n    (größe) = 1 # a\n    print(((größe - 1)))\n",
    ] {
        assert!(rt;
            gives(rt.alloc(), "check m.py", text.as_bytes(), 0, "accepted 1\n")?,
            "{text}"
        );
    }
    Ok(())
}

#[test]
fn ninety_nine_brackets_are_read_and_a_hundred_are_too_deep(rt: HostRuntime) -> Result<(), Fail> {
    let alloc = rt.alloc();
    for (count, status, output) in [(99, 0, "accepted 1\n"), (100, 2, "refused TooDeep 2:108\n")] {
        let mut text = String::from_str(alloc, "def main() -> None:\n    x = ")?;
        for _ in 0..count {
            text.push_str("(")?;
        }
        text.push_str("1")?;
        for _ in 0..count {
            text.push_str(")")?;
        }
        text.push_str("\n")?;
        assert!(rt;
            gives(alloc, "check m.py", text.as_bytes(), status, output)?,
            "{output}"
        );
    }
    Ok(())
}

// `x = 1` and so many times ` + 1` have four tokens with the end of the line, and two more each time.
#[test]
fn a_line_of_more_than_two_thousand_tokens_is_a_limit(rt: HostRuntime) -> Result<(), Fail> {
    let alloc = rt.alloc();
    for (count, status, output) in [
        (998, 2, "refused NotBuilt 2:15\n"),
        (999, 7, "limit line\n"),
    ] {
        let mut text = String::from_str(alloc, "def main() -> None:\n    x = 1")?;
        for _ in 0..count {
            text.push_str(" + 1")?;
        }
        text.push_str("\n")?;
        assert!(rt;
            gives(alloc, "check m.py", text.as_bytes(), status, output)?,
            "{output}"
        );
    }
    Ok(())
}

// Each line doubles the number: the last one is 999,999,999 * 2^59.
#[test]
fn sixty_statements_may_double_the_greatest_number(rt: HostRuntime) -> Result<(), Fail> {
    let alloc = rt.alloc();
    let mut text = String::from_str(alloc, "def main() -> None:\n    x = 999999999\n")?;
    for _ in 0..59 {
        text.push_str("    x = x + x\n")?;
    }
    assert!(rt; gives(alloc, "check m.py", text.as_bytes(), 0, "accepted 1\n")?);
    Ok(())
}

#[test]
fn a_file_of_one_byte_more_than_the_limit_is_too_long(rt: HostRuntime) -> Result<(), Fail> {
    let alloc = rt.alloc();
    let text = vec![in alloc; b'#'; 1_048_577]?;
    assert!(rt; gives(alloc, "check m.py", &text, 7, "limit file\n")?);
    assert!(rt; gives(alloc, "check m.py", &text[1..], 2, "refused NoMain 2:1\n")?);
    Ok(())
}

#[test]
fn other_words_are_answered_by_the_usage_line(rt: HostRuntime) -> Result<(), Fail> {
    for line in [
        "",
        "check",
        "check m.py m.py m.py",
        "check ",
        "check -x",
        "m.py check",
        "run",
        "run m.py",
        "run m.py s.txt s.txt",
        "run  s.txt",
        "run m.py ",
        "run m.py -s",
        "run -m s.txt",
        "check m.py s.txt",
        "--help",
    ] {
        let usage = "usage: nagini check FILE | run FILE SCHEDULE\n";
        assert!(rt;
            gives(rt.alloc(), line, SMALLEST.as_bytes(), 64, usage)?,
            "{line}"
        );
    }
    Ok(())
}

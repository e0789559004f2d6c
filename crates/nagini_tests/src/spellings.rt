// The tokens of worked examples, written out with single blanks and read again.
use crate::fixtures::COUNTER;
use py_lexer::lex;
use py_tokens::{LexFault, Token, TokenForm};
use std::alloc::{AllocError, Global};
use std::test::Fail;

/// Two threads that use one field without a lock.
const RACE: &str = "class Cell:
    def __init__(self, v: int) -> None:
        Ensures(Acc(self.value))
        self.value = v

def put(c: Cell) -> None:
    c.value = 1

def show(c: Cell) -> None:
    print(c.value)

def main() -> None:
    c = Cell(0)
    a = Thread(target=put, args=(c,), level=5)
    b = Thread(target=show, args=(c,), level=6)
    a.start(put)
    b.start(show)
    a.join(put)
    b.join(show)
";

/// Two locks in opposite orders.
const DEADLOCK: &str = "class Cell:
    def __init__(self) -> None:
        Ensures(Acc(self.value))
        self.value = 0

class CellLock(Lock[Cell]):
    @Predicate
    def invariant(self) -> bool:
        return Acc(self.get_locked().value)

def up(a: CellLock, b: CellLock) -> None:
    Requires(WaitLevel() < Level(a) and Level(a) < Level(b))
    with a:
        with b:
            pass

def down(a: CellLock, b: CellLock) -> None:
    Requires(WaitLevel() < Level(a) and Level(a) < Level(b))
    with b:
        with a:
            pass

def main() -> None:
    a = CellLock(Cell(), 10)
    b = CellLock(Cell(), 20)
    s = Thread(target=up, args=(a, b), level=1)
    t = Thread(target=down, args=(a, b), level=2)
    s.start(up)
    t.start(down)
    s.join(up)
    t.join(down)
";

/// A recursive predicate.
const LINKED_LIST: &str = "class Node:
    def __init__(self, v: int, n: Optional['Node']) -> None:
        Ensures(Acc(self.val) and Acc(self.next))
        Ensures(self.val == v and self.next is n)
        self.val = v
        self.next = n

@Predicate
def lst(n: Node) -> bool:
    return Acc(n.val) and Acc(n.next) and Implies(n.next is not None, lst(n.next))

def push(n: Node, v: int) -> Node:
    Requires(lst(n))
    Ensures(lst(Result()))
    r = Node(v, n)
    Fold(lst(r))
    return r
";

/// An exception in `finally` that replaces the pending one.
const FINALLY: &str = "class A(Exception):
    pass

class B(Exception):
    pass

def f() -> None:
    Exsures(A, True)
    try:
        raise A()
    finally:
        raise B()
";

/// A number that grows past 128 bits.
const GROWTH: &str = "def main() -> None:
    x = 1
    i = 0
    while i < 200:
        print(x)
        x = x + x
        i = i + 1
";

/// A lock that is given away and got back.
const KEPT_CAP: &str = "class Cell:
    def __init__(self) -> None:
        Ensures(Acc(self.value))
        self.value = 0

class CellLock(Lock[Cell]):
    @Predicate
    def invariant(self) -> bool:
        return Acc(self.get_locked().value)

def keep(l: CellLock, n: int) -> None:
    Requires(0 <= n and MustRelease(l, n))
    Ensures(MustRelease(l))
    pass

def spin(l: CellLock, n: int) -> None:
    Requires(1 <= n and MustRelease(l, n))
    Ensures(MustRelease(l))
    keep(l, n - 1)
    spin(l, n + 5)
";

/// Lines over brackets, a comment within them, and blanks between tokens.
const BRACKETS: &str = "def f(x: int,  # two parameters
      y: int) -> bool:
    if (x <= y and
            not x == 0):
        return   True
    return x // y != -1 % 2
";

/// The line of this number, counted from 1.
fn line_of(text: &str, number: u32) -> Option<&str> {
    let mut at = 1;
    for line in text.split('\n') {
        if at == number {
            return Some(line);
        }
        at = at.checked_add(1)?;
    }
    None
}

/// The characters of a token that stands on one line of ASCII.
fn characters_of<'a>(text: &'a str, token: &Token) -> Option<&'a [u8]> {
    let line = line_of(text, token.place.line)?.as_bytes();
    let from = token.place.col.checked_sub(1)?;
    let to = token.end.col.checked_sub(1)?;
    line.get(from as usize..to as usize)
}

fn push_blanks(out: &mut Vec<u8>, count: usize) -> Result<(), AllocError> {
    for _ in 0..count {
        out.push(b' ')?;
    }
    Ok(())
}

/// The tokens of a text with single blanks between, a line for each NEWLINE, and four blanks for each
/// open INDENT; None where a token has no characters in the text.
fn written(alloc: Global, text: &str, tokens: &[Token]) -> Result<Option<Vec<u8>>, AllocError> {
    let mut out = Vec::new(alloc);
    let mut depth: usize = 0;
    let mut fresh = true;
    for token in tokens {
        match &token.form {
            TokenForm::Newline => {
                out.push(b'\n')?;
                fresh = true;
            }
            TokenForm::Indent => depth = depth.saturating_add(1),
            TokenForm::Dedent => depth = depth.saturating_sub(1),
            TokenForm::End => {}
            _ => {
                let Some(bytes) = characters_of(text, token) else {
                    return Ok(None);
                };
                let blanks = if fresh { depth.saturating_mul(4) } else { 1 };
                push_blanks(&mut out, blanks)?;
                out.extend_from_slice(bytes)?;
                fresh = false;
            }
        }
    }
    Ok(Some(out))
}

/// The tokens of a text that isn't too long.
fn tokens_of(alloc: Global, text: &str) -> Option<Result<Vec<Token>, LexFault>> {
    if text.len() > 100_000 {
        return None;
    }
    Some(lex(alloc, text.as_bytes()))
}

#[test]
fn tokens_with_single_blanks_are_the_same_tokens(rt: HostRuntime) -> Result<(), Fail> {
    let alloc = rt.alloc();
    for (text, count, lines) in [
        (COUNTER, 245, 24),
        (BRACKETS, 46, 4),
        (RACE, 162, 16),
        (DEADLOCK, 280, 27),
        (LINKED_LIST, 176, 15),
        (FINALLY, 60, 10),
        (GROWTH, 44, 7),
        (KEPT_CAP, 170, 17),
    ] {
        let Some(Ok(tokens)) = tokens_of(alloc, text) else {
            return Err("no tokens".into());
        };
        assert_eq!(rt; tokens.len(), count, "{text}");
        let Some(spelled) = written(alloc, text, &tokens)? else {
            return Err("a token without characters".into());
        };
        let spelled = std::str::from_utf8(&spelled).map_err(|_| "no text")?;
        let Some(Ok(again)) = tokens_of(alloc, spelled) else {
            return Err("no tokens of what was written".into());
        };
        assert_eq!(rt; again.len(), count, "{spelled}");
        let Some(twice) = written(alloc, spelled, &again)? else {
            return Err("a written token without characters".into());
        };
        assert_eq!(rt; twice.as_slice(), spelled.as_bytes());
        assert_eq!(rt; spelled.split('\n').count(), lines + 1, "{spelled}");
    }
    Ok(())
}

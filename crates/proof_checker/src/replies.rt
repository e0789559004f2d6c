// What is asked of a term's numbers and symbols, and what it replies.
ghost use Rattle.std.specs.Prelude.{◌≡◌, ◌+ℤ◌, ◌*ℤ◌};
ghost use Rattle.proof_checker.specs.Figures.{checked, symbol_reply, literal_reply, nothing_reply, sum_reply, multiple_reply, rest_reply};
ghost use Rattle.proof_checker.specs.declared.replies.Reply.TheVariants as reply;

/// A number of a linear form.
#[derive(Clone, Copy)]
pub enum Figure {
    Coefficient(u32),
    Units,
}

/// A number, or the least number symbol that isn't below one.
#[derive(Clone, Copy)]
pub enum Query {
    Number(Figure),
    Next(u64),
}

/// A number, a symbol, or neither: a number is outside 128 bits, or there is no such symbol.
#[derive(Clone, Copy)]
pub enum Reply {
    Number(i128),
    Symbol(u32),
    None,
}

fn of_sum(x: i128, y: i128) -> Reply
    ensures { result ≡ checked (x +ℤ y) }
{
    match x.checked_add(y) {
        Some(z) => Reply::Number(z),
        None => Reply::None,
    }
}

fn of_product(x: i128, y: i128) -> Reply
    ensures { result ≡ checked (x *ℤ y) }
{
    match x.checked_mul(y) {
        Some(z) => Reply::Number(z),
        None => Reply::None,
    }
}

fn of_units(z: i128) -> Reply
    ensures { result ≡ checked z }
{
    Reply::Number(z)
}

/// The reply of a number symbol.
pub fn of_symbol(q: Query, n: u32) -> Reply
    ensures { result ≡ symbol_reply q n }
{
    match q {
        Query::Number(Figure::Coefficient(v)) => Reply::Number(if v == n { 1 } else { 0 }),
        Query::Number(Figure::Units) => Reply::Number(0),
        Query::Next(from) => if from <= n as u64 {
            Reply::Symbol(n)
        } else {
            Reply::None
        },
    }
}

/// The reply of a number of units.
pub fn of_literal(q: Query, z: i128) -> Reply
    ensures { result ≡ literal_reply q z }
{
    match q {
        Query::Number(Figure::Coefficient(_)) => Reply::Number(0),
        Query::Number(Figure::Units) => of_units(z),
        Query::Next(_) => Reply::None,
    }
}

/// The reply of a reference, and of no terms.
pub fn of_nothing(q: Query) -> Reply
    ensures { result ≡ nothing_reply q }
{
    match q {
        Query::Number(_) => Reply::Number(0),
        Query::Next(_) => Reply::None,
    }
}

fn least(m: u32, n: u32) -> Reply
    ensures { result ≡ sum_reply (reply.Symbol m) (reply.Symbol n) }
{
    if m <= n {
        Reply::Symbol(m)
    } else {
        Reply::Symbol(n)
    }
}

/// The reply of a sum.
pub fn sum(a: Reply, b: Reply) -> Reply
    ensures { result ≡ sum_reply a b }
{
    match (a, b) {
        (Reply::Number(x), Reply::Number(y)) => of_sum(x, y),
        (Reply::Symbol(m), Reply::Symbol(n)) => least(m, n),
        (Reply::Symbol(m), _) => Reply::Symbol(m),
        (Reply::None, Reply::Symbol(n)) => Reply::Symbol(n),
        _ => Reply::None,
    }
}

/// The reply of a multiple.
pub fn multiple(k: i128, a: Reply) -> Reply
    ensures { result ≡ multiple_reply k a }
{
    match a {
        Reply::Number(x) => of_product(k, x),
        Reply::Symbol(n) => Reply::Symbol(n),
        Reply::None => Reply::None,
    }
}

/// The reply of a term and those after it.
pub fn with_rest(a: Reply, b: Reply) -> Reply
    ensures { result ≡ rest_reply a b }
{
    match a {
        Reply::Number(_) => b,
        Reply::Symbol(_) => sum(a, b),
        Reply::None => sum(a, b),
    }
}

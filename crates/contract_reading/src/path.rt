// Instances of predicates that are open within one another.
ghost use Rattle.std.specs.Prelude.{◌≡◌};
ghost use Rattle.machine_model.specs.Reading.{same_value, same_values, is_open};
ghost use Rattle.contract_reading.specs.Openings.{opened_in};

use py_syntax::Value;

/// The open instances of predicates, with their arguments, the innermost one at the head.
#[derive(Clone, Copy)]
pub enum Path<'a> {
    Empty,
    More(&'a Path<'a>, u32, &'a [Value]),
}

// Whether two arguments of predicates are one.
fn same_value(v: Value, w: Value) -> bool
    ensures { result ≡ same_value v w }
{
    match (v, w) {
        (Value::Ref(r), Value::Ref(s)) => r == s,
        (Value::Nil, Value::Nil) => true,
        _ => false,
    }
}

// Whether two lists of arguments are one.
fn same_values(vs: &[Value], ws: &[Value]) -> bool
    ensures { result ≡ same_values vs.now ws.now }
{
    match vs {
        [] => ws.is_empty(),
        [v, more @ ..] => match ws {
            [] => false,
            [w, others @ ..] => same_value(*v, *w) && same_values(more, others),
        },
    }
}

/// Whether an instance is open.
pub fn is_open<'a>(path: &'a Path<'a>, q: u32, vs: &'a [Value]) -> bool
    ensures { result ≡ is_open (opened_in path.now) q vs.now }
{
    match path {
        Path::Empty => false,
        Path::More(before, p, ws) => {
            if *p == q && same_values(&**ws, &*vs) {
                true
            } else {
                is_open(&**before, q, &*vs)
            }
        }
    }
}

// The first of some faults.
ghost use Rattle.std.specs.Prelude.{◌≡◌, None};
ghost use Rattle.class_table.specs.Faults.{place_of, rank_of, comes_before, sooner, first_of};

use crate::fault::ClassFault;
use py_base::Place;

fn place_of(fault: ClassFault) -> Place
    ensures { result ≡ place_of fault }
{
    match fault {
        ClassFault::DuplicateName(place) => place,
        ClassFault::UnknownBase(place) => place,
        ClassFault::BaseCycle(place) => place,
        ClassFault::BadInit(place) => place,
        ClassFault::NoMain(place) => place,
        ClassFault::OutOfMemory => Place { line: 0, col: 0 },
    }
}

fn rank_of(fault: ClassFault) -> u8
    ensures { result ≡ rank_of fault }
{
    match fault {
        ClassFault::DuplicateName(_) => 1,
        ClassFault::UnknownBase(_) => 2,
        ClassFault::BaseCycle(_) => 3,
        ClassFault::BadInit(_) => 4,
        ClassFault::NoMain(_) => 5,
        ClassFault::OutOfMemory => 0,
    }
}

fn comes_before(one: ClassFault, other: ClassFault) -> bool
    ensures { result ≡ comes_before one other }
{
    let here = place_of(one);
    let there = place_of(other);
    if here.line != there.line {
        return here.line < there.line;
    }
    if here.col != there.col {
        return here.col < there.col;
    }
    rank_of(one) < rank_of(other)
}

fn sooner(best: Option<ClassFault>, fault: ClassFault) -> ClassFault
    ensures { result ≡ sooner best fault }
{
    match best {
        Some(other) => {
            if comes_before(fault, other) {
                return fault;
            }
            other
        }
        None => fault,
    }
}

/// The first by place, and at one place in the order of the variants.
pub fn first_of(faults: &[ClassFault]) -> Option<ClassFault>
    ensures { result ≡ first_of None faults.now }
{
    let mut best = None;
    'faults: for fault in faults {
        best = Some(sooner(best, *fault));
    }
    best
}

// Operators and their operands.
ghost use Rattle.std.specs.Prelude.{◌≡◌, ◌++◌, Some, OnOk};
ghost use Rattle.py_syntax.specs.declared.Ty.TheVariants as types;
ghost use Rattle.type_names.specs.Operands.{bool_faults, both_bool_faults, prefix_faults, row_faults, arithmetic_faults, arithmetic_type, comparison_type, may_equal, may_be_equal, equal_faults, are_in_line, are_alike, are_known_comparable, is_faults, comparison_faults, joined_is_faults, link_faults, links_faults, chain_faults};

use crate::fitting::{is_thread_type, is_void, note, note_if, note_want, note_wanted};
use crate::links::Compared;
use crate::meaning::Worth;
use crate::table::{class_in, fits_row, left_type, out_type, right_type};
use class_table::is_subclass;
use py_base::{OutOfMemory, Place};
use py_syntax::{Class, Ty};
use raw_syntax::{Arithmetic, Comparison};
use sqlite_items::Items;
use type_base::Fault;

fn note_bool(found: &mut Items<Fault>, classes: &[Class], a: Worth) -> Result<(), OutOfMemory>
    ensures { OnOk result (found.new ≡ found.old ++ bool_faults classes.now a) }
{
    note_want(found, classes, 3, Ty::Bool, a)
}

/// Adds the faults of the operands of `and` and `or`.
pub fn note_both_bool(
    found: &mut Items<Fault>,
    classes: &[Class],
    a: Worth,
    b: Worth,
) -> Result<(), OutOfMemory>
    ensures { OnOk result (found.new ≡ found.old ++ both_bool_faults classes.now a b) }
{
    note_bool(found, classes, a)?;
    note_bool(found, classes, b)
}

/// Adds the fault of the operand of the prefix operator with this key.
pub fn note_prefix(
    found: &mut Items<Fault>,
    classes: &[Class],
    key: u16,
    a: Worth,
) -> Result<(), OutOfMemory>
    ensures { OnOk result (found.new ≡ found.old ++ prefix_faults classes.now key a) }
{
    note_wanted(found, classes, 3, right_type(key), a)
}

fn note_row(
    found: &mut Items<Fault>,
    classes: &[Class],
    key: u16,
    a: Worth,
    b: Worth,
) -> Result<(), OutOfMemory>
    ensures { OnOk result (found.new ≡ found.old ++ row_faults classes.now key a b) }
{
    note_wanted(found, classes, 3, left_type(key), a)?;
    note_wanted(found, classes, 3, right_type(key), b)
}

/// Adds the faults of an operator on numbers at its place.
pub fn note_arithmetic(
    found: &mut Items<Fault>,
    classes: &[Class],
    operator: Arithmetic,
    place: Place,
    a: Worth,
    b: Worth,
) -> Result<(), OutOfMemory>
    ensures { OnOk result (found.new ≡ found.old ++ arithmetic_faults classes.now operator place a b) }
{
    match operator {
        Arithmetic::Plus => note_row(found, classes, 1, a, b),
        Arithmetic::Minus => note_row(found, classes, 2, a, b),
        Arithmetic::Times => note_row(found, classes, 3, a, b),
        Arithmetic::Divide => note(found, place, 18),
        Arithmetic::FloorDivide => note_row(found, classes, 4, a, b),
        Arithmetic::Modulo => note_row(found, classes, 5, a, b),
    }
}

/// The type of an operator on numbers.
pub fn arithmetic_type(operator: Arithmetic) -> Option<Ty>
    ensures { result ≡ arithmetic_type operator }
{
    match operator {
        Arithmetic::Plus => out_type(1),
        Arithmetic::Minus => out_type(2),
        Arithmetic::Times => out_type(3),
        Arithmetic::Divide => None,
        Arithmetic::FloorDivide => out_type(4),
        Arithmetic::Modulo => out_type(5),
    }
}

/// The type of a comparison, which is bool for each of them.
pub fn comparison_type(operator: Comparison) -> Option<Ty>
    ensures by_row { result ≡ comparison_type operator }
    ensures is_bool { result ≡ Some types.Bool }
{
    match operator {
        Comparison::Less => out_type(7),
        Comparison::LessEqual => out_type(8),
        Comparison::Greater => out_type(9),
        Comparison::GreaterEqual => out_type(10),
        Comparison::Equal => out_type(11),
        Comparison::NotEqual => out_type(12),
        Comparison::Is => out_type(15),
        Comparison::IsNot => out_type(16),
    }
}

fn may_equal(ints: u16, bools: u16, a: Ty, b: Ty) -> bool
    ensures { result ≡ may_equal ints bools a b }
{
    fits_row(ints, a, b) || fits_row(bools, a, b)
}

fn may_be_equal(ints: u16, bools: u16, a: Option<Ty>, b: Option<Ty>) -> bool
    ensures { result ≡ may_be_equal ints bools a b }
{
    match (a, b) {
        (Some(one), Some(other)) => may_equal(ints, bools, one, other),
        (Some(one), None) => may_equal(ints, bools, one, one),
        (None, Some(other)) => may_equal(ints, bools, other, other),
        (None, None) => true,
    }
}

fn note_equal(
    found: &mut Items<Fault>,
    ints: u16,
    bools: u16,
    place: Place,
    a: Worth,
    b: Worth,
) -> Result<(), OutOfMemory>
    ensures { OnOk result (found.new ≡ found.old ++ equal_faults ints bools place a b) }
{
    note_if(found, !may_be_equal(ints, bools, a.ty, b.ty), place, 3)
}

fn are_in_line(classes: &[Class], a: Option<u32>, b: Option<u32>) -> bool
    ensures { result ≡ are_in_line classes.now a b }
{
    let Some(c) = a else {
        return false;
    };
    match b {
        Some(d) => is_subclass(classes, c, d) || is_subclass(classes, d, c),
        None => false,
    }
}

fn are_alike(classes: &[Class], a: Ty, b: Ty) -> bool
    ensures { result ≡ are_alike classes.now a b }
{
    is_void(a)
        || is_void(b)
        || (is_thread_type(a) && is_thread_type(b))
        || are_in_line(classes, class_in(a), class_in(b))
}

fn are_known_comparable(classes: &[Class], key: u16, a: Option<Ty>, b: Option<Ty>) -> bool
    ensures { result ≡ are_known_comparable classes.now key a b }
{
    let Some(one) = a else {
        return true;
    };
    match b {
        Some(other) => fits_row(key, one, other) && are_alike(classes, one, other),
        None => true,
    }
}

fn note_is(
    found: &mut Items<Fault>,
    classes: &[Class],
    key: u16,
    place: Place,
    a: Worth,
    b: Worth,
) -> Result<(), OutOfMemory>
    ensures { OnOk result (found.new ≡ found.old ++ is_faults classes.now key place a b) }
{
    note_if(
        found,
        !are_known_comparable(classes, key, a.ty, b.ty),
        place,
        16,
    )
}

fn note_comparison(
    found: &mut Items<Fault>,
    classes: &[Class],
    a: Worth,
    link: Compared,
) -> Result<(), OutOfMemory>
    ensures { OnOk result (found.new ≡ found.old ++ comparison_faults classes.now a link) }
{
    match link.operator {
        Comparison::Less => note_row(found, classes, 7, a, link.operand),
        Comparison::LessEqual => note_row(found, classes, 8, a, link.operand),
        Comparison::Greater => note_row(found, classes, 9, a, link.operand),
        Comparison::GreaterEqual => note_row(found, classes, 10, a, link.operand),
        Comparison::Equal => note_equal(found, 11, 13, link.place, a, link.operand),
        Comparison::NotEqual => note_equal(found, 12, 14, link.place, a, link.operand),
        Comparison::Is => note_is(found, classes, 15, link.place, a, link.operand),
        Comparison::IsNot => note_is(found, classes, 16, link.place, a, link.operand),
    }
}

fn note_joined_is(
    found: &mut Items<Fault>,
    classes: &[Class],
    key: u16,
    place: Place,
    a: Worth,
    b: Worth,
) -> Result<(), OutOfMemory>
    ensures { OnOk result (found.new ≡ found.old ++ joined_is_faults classes.now key place a b) }
{
    note_is(found, classes, key, place, a, b)?;
    note(found, place, 26)
}

fn note_link(
    found: &mut Items<Fault>,
    classes: &[Class],
    a: Worth,
    link: Compared,
) -> Result<(), OutOfMemory>
    ensures { OnOk result (found.new ≡ found.old ++ link_faults classes.now a link) }
{
    match link.operator {
        Comparison::Less => note_row(found, classes, 7, a, link.operand),
        Comparison::LessEqual => note_row(found, classes, 8, a, link.operand),
        Comparison::Greater => note_row(found, classes, 9, a, link.operand),
        Comparison::GreaterEqual => note_row(found, classes, 10, a, link.operand),
        Comparison::Equal => note_row(found, classes, 11, a, link.operand),
        Comparison::NotEqual => note_row(found, classes, 12, a, link.operand),
        Comparison::Is => note_joined_is(found, classes, 15, link.place, a, link.operand),
        Comparison::IsNot => note_joined_is(found, classes, 16, link.place, a, link.operand),
    }
}

fn note_links(
    found: &mut Items<Fault>,
    classes: &[Class],
    first: Worth,
    links: &[Compared],
) -> Result<(), OutOfMemory>
    ensures { OnOk result (found.new ≡ found.old ++ links_faults classes.now first links.now) }
{
    let mut before = first;
    'links: for link in links {
        note_link(found, classes, before, *link)?;
        before = link.operand;
    }
    Ok(())
}

/// Adds the faults of a chain of comparisons.
pub fn note_chain(
    found: &mut Items<Fault>,
    classes: &[Class],
    first: Worth,
    links: &[Compared],
) -> Result<(), OutOfMemory>
    ensures { OnOk result (found.new ≡ found.old ++ chain_faults classes.now first links.now) }
{
    match links {
        [link] => note_comparison(found, classes, first, *link),
        _ => note_links(found, classes, first, links),
    }
}

// The marks and the operators that they write.
ghost use Rattle.std.specs.Prelude.{◌≡◌};
ghost use Rattle.case_tables.specs.Operators.{row, nothing};
ghost use Rattle.case_tables.specs.Marks.{mark_rows};

use crate::row::{CaseRow, NOTHING};
use crate::table::Table;

/// The marks by their numbers, which go from 1 in the order
/// `( ) [ ] : , . = -> @ + - * / // % < <= > >= == != += -= *= //= %=`. The rows give in `out` the key
/// of the infix operator that the mark writes, for `==` and `!=` that on ints; for a mark such as
/// `+=` the key of the operator before its `=`; and 0 for every other mark.
pub fn marks() -> Table<27>
    ensures { result ≡ mark_rows }
{
    Table::of([
        mark(1, 0),
        mark(2, 0),
        mark(3, 0),
        mark(4, 0),
        mark(5, 0),
        mark(6, 0),
        mark(7, 0),
        mark(8, 0),
        mark(9, 0),
        mark(10, 0),
        mark(11, 1),
        mark(12, 2),
        mark(13, 3),
        mark(14, 0),
        mark(15, 4),
        mark(16, 5),
        mark(17, 7),
        mark(18, 8),
        mark(19, 9),
        mark(20, 10),
        mark(21, 11),
        mark(22, 12),
        mark(23, 1),
        mark(24, 2),
        mark(25, 3),
        mark(26, 4),
        mark(27, 5),
    ])
}

// A mark and the key of its operator.
fn mark(number: u16, operator: u8) -> CaseRow
    ensures { result ≡ row number nothing nothing operator }
{
    CaseRow {
        key: number,
        left: NOTHING,
        right: NOTHING,
        out: operator,
    }
}

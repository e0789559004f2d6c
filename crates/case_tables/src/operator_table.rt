// The operators and the sorts of their operands and results.
ghost use Rattle.std.specs.Prelude.{◌≡◌};
ghost use Rattle.case_tables.specs.Operators.{operator_rows};

use crate::operator_cases;
use crate::row::{BOOL, CaseRow, INT, NOTHING, REFERENCE};
use crate::table::Table;

macro_rules! rows {
    (; $($name:ident $key:literal ($left:ident $right:ident $out:ident) [$($mark:ident)*])*) => {
        [$(CaseRow { key: $key, left: $left, right: $right, out: $out }),*]
    };
}

/// The operators by their keys: `+ - * // %` are 1 to 5, prefix `-` is 6, `< <= > >=` are 7 to 10,
/// `== !=` are 11 and 12 on ints and 13 and 14 on bools, `is` and `is not` are 15 and 16, and `not`
/// is 17. The rows give sorts: of the left operand, of the right one and of the result.
pub fn operators() -> Table<17>
    ensures { result ≡ operator_rows }
{
    Table::of(operator_cases!(rows))
}

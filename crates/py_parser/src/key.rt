// The operators that marks write.
ghost use Rattle.std.specs.Prelude.{◌≡◌};
ghost use Rattle.py_parser.specs.MarkKeys.{key_of};

use case_tables::operator_cases;
use py_tokens::Mark;

macro_rules! mark_keys {
    ($given:expr; $($name:ident $key:literal ($left:ident $right:ident $out:ident) [$($mark:ident)*])*) => {
        match $given {
            $($(Mark::$mark => Some($key),)*)*
            _ => None,
        }
    };
}

/// The key of the operator that a mark writes between two operands or before the `=` of an assignment; for `==`
/// and `!=` that on ints.
pub fn operator_key(mark: Mark) -> Option<u16>
    ensures { result ≡ key_of mark }
{
    operator_cases!(mark_keys, mark)
}

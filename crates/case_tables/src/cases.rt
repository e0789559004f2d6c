// The rows of the operators, for bodies.

/// The operators in the order of their keys, for a macro of the caller's: `operator_cases!(cases, x)` is
/// `cases! { x; rows }`. A row has the operator's name, its key, the sorts of its left operand, of its right one
/// and of its result as in the table of operators, and the marks that write it between two operands or before
/// the `=` of an assignment, `==` and `!=` on ints alone.
#[macro_export]
macro_rules! operator_cases {
    ($cases:ident $(, $argument:expr)*) => {
        $cases! {
            $($argument),*;
            Plus 1 (INT INT INT) [Plus PlusAssign]
            Minus 2 (INT INT INT) [Minus MinusAssign]
            Times 3 (INT INT INT) [Star StarAssign]
            FloorDivide 4 (INT INT INT) [TwoSlashes TwoSlashesAssign]
            Modulo 5 (INT INT INT) [Percent PercentAssign]
            Negate 6 (NOTHING INT INT) []
            Less 7 (INT INT BOOL) [Less]
            LessEqual 8 (INT INT BOOL) [LessEqual]
            Greater 9 (INT INT BOOL) [Greater]
            GreaterEqual 10 (INT INT BOOL) [GreaterEqual]
            Equal 11 (INT INT BOOL) [Equal]
            NotEqual 12 (INT INT BOOL) [NotEqual]
            Equal 13 (BOOL BOOL BOOL) []
            NotEqual 14 (BOOL BOOL BOOL) []
            Is 15 (REFERENCE REFERENCE BOOL) []
            IsNot 16 (REFERENCE REFERENCE BOOL) []
            Not 17 (NOTHING BOOL BOOL) []
        }
    };
}

//! The numbers of controlling expressions.

ghost use Rattle.std.specs.Prelude.{◌≡◌};
ghost use Rattle.c_condition.specs.Values.{is_zero, number_of};

use c_literal::IntegerConstant;

/// A number of a controlling expression: all signed types are `intmax_t` there and all unsigned ones `uintmax_t` (ISO/IEC 9899:2011, 6.10.1p4).
#[derive(Clone, Copy, PartialEq, Eq, Debug)]
pub enum Number {
    Signed(i64),
    Unsigned(u64),
}

impl Number {
    /// The number that an integer constant is: unsigned where it has an unsigned suffix or isn't in `intmax_t`.
    pub fn of_constant(constant: IntegerConstant) -> Number
        ensures { result ≡ number_of constant }
    {
        if constant.is_unsigned || constant.value >= 0x8000_0000_0000_0000 {
            Number::Unsigned(constant.value)
        } else {
            Number::Signed(constant.value as i64)
        }
    }

    /// Whether the number is 0, so that its group is skipped.
    pub fn is_zero(self) -> bool
        ensures { result ≡ is_zero self }
    {
        match self {
            Number::Signed(value) => value == 0,
            Number::Unsigned(value) => value == 0,
        }
    }
}

//! What the operands of controlling expressions are.

ghost use Rattle.std.specs.Prelude.{◌≡◌};
ghost use Rattle.c_condition.specs.Values.{outcome_of, value_of, is_unsigned, truth, with_type, paired, flag};

use crate::number::Number;

/// What an operand gives: a number, or its type alone where it has no value.
#[derive(Clone, Copy, PartialEq, Eq, Debug)]
pub enum Outcome {
    Signed(i64),
    Unsigned(u64),
    Without { is_unsigned: bool },
}

/// Two operands behind the usual arithmetic conversions (ISO/IEC 9899:2011, 6.3.1.8), or their type alone where one has no value.
#[derive(Clone, Copy, PartialEq, Eq, Debug)]
pub enum Operands {
    Signed(i64, i64),
    Unsigned(u64, u64),
    Without { is_unsigned: bool },
}

/// An operator before its operand (ISO/IEC 9899:2011, 6.5.3.3).
#[derive(Clone, Copy, PartialEq, Eq, Debug)]
pub enum UnaryOperator {
    /// `+`
    Plus,
    /// `-`
    Minus,
    /// `~`
    Complement,
    /// `!`
    Not,
}

impl Outcome {
    /// The operand that a number is.
    pub fn of(number: Number) -> Outcome
        ensures { result ≡ outcome_of number }
    {
        match number {
            Number::Signed(value) => Outcome::Signed(value),
            Number::Unsigned(value) => Outcome::Unsigned(value),
        }
    }

    /// The number that the operand has.
    pub fn value(self) -> Option<Number>
        ensures { result ≡ value_of self }
    {
        match self {
            Outcome::Signed(value) => Some(Number::Signed(value)),
            Outcome::Unsigned(value) => Some(Number::Unsigned(value)),
            Outcome::Without { is_unsigned: _ } => None,
        }
    }

    /// Whether the operand is of the unsigned type.
    pub fn is_unsigned(self) -> bool
        ensures { result ≡ is_unsigned self }
    {
        match self {
            Outcome::Signed(_) => false,
            Outcome::Unsigned(_) => true,
            Outcome::Without { is_unsigned } => is_unsigned,
        }
    }

    /// Whether the operand isn't 0.
    pub fn truth(self) -> Option<bool>
        ensures { result ≡ truth self }
    {
        match self {
            Outcome::Signed(value) => Some(value != 0),
            Outcome::Unsigned(value) => Some(value != 0),
            Outcome::Without { is_unsigned: _ } => None,
        }
    }

    /// The operand with the type, which is unsigned if its own is.
    pub fn with_type(self, is_unsigned: bool) -> Outcome
        ensures { result ≡ with_type is_unsigned self }
    {
        if !is_unsigned {
            return self;
        }
        match self {
            Outcome::Signed(value) => Outcome::Unsigned(value.cast_unsigned()),
            Outcome::Unsigned(value) => Outcome::Unsigned(value),
            Outcome::Without { is_unsigned: _ } => Outcome::Without { is_unsigned: true },
        }
    }
}

/// Both operands behind the usual arithmetic conversions: unsigned where one of them is (ISO/IEC 9899:2011, 6.3.1.8).
pub fn paired(left: Outcome, right: Outcome) -> Operands
    ensures { result ≡ paired left right }
{
    match left {
        Outcome::Signed(a) => match right {
            Outcome::Signed(b) => Operands::Signed(a, b),
            Outcome::Unsigned(b) => Operands::Unsigned(a.cast_unsigned(), b),
            Outcome::Without { is_unsigned } => Operands::Without { is_unsigned },
        },
        Outcome::Unsigned(a) => match right {
            Outcome::Signed(b) => Operands::Unsigned(a, b.cast_unsigned()),
            Outcome::Unsigned(b) => Operands::Unsigned(a, b),
            Outcome::Without { is_unsigned: _ } => Operands::Without { is_unsigned: true },
        },
        Outcome::Without { is_unsigned } => Operands::Without {
            is_unsigned: is_unsigned || right.is_unsigned(),
        },
    }
}

/// 1 or 0, of type `int`.
pub fn flag(truth: Option<bool>) -> Outcome
    ensures { result ≡ flag truth }
{
    match truth {
        None => Outcome::Without { is_unsigned: false },
        Some(true) => Outcome::Signed(1),
        Some(false) => Outcome::Signed(0),
    }
}

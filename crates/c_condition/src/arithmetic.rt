//! Operators that evaluate both operands.

ghost use Rattle.std.specs.Prelude.{◌≡◌, ◌<◌, Some, IfSome};
ghost use Rattle.c_condition.specs.Values.{signed, unsigned, product, quotient, remainder, total, difference, bits_and, bits_xor, bits_or, less, equal, negated, count_of, raised, lowered, unary};

use crate::outcome::{Operands, Outcome, UnaryOperator, flag};

// A signed result, or its type alone where it has none.
fn signed(value: Option<i64>) -> Outcome
    ensures { result ≡ signed value }
{
    match value {
        None => Outcome::Without { is_unsigned: false },
        Some(value) => Outcome::Signed(value),
    }
}

// An unsigned result, or its type alone where it has none.
fn unsigned(value: Option<u64>) -> Outcome
    ensures { result ≡ unsigned value }
{
    match value {
        None => Outcome::Without { is_unsigned: true },
        Some(value) => Outcome::Unsigned(value),
    }
}

/// `*` (ISO/IEC 9899:2011, 6.5.5).
pub fn product(operands: Operands) -> Outcome
    ensures { result ≡ product operands }
{
    match operands {
        Operands::Signed(a, b) => signed(a.checked_mul(b)),
        Operands::Unsigned(a, b) => Outcome::Unsigned(a.wrapping_mul(b)),
        Operands::Without { is_unsigned } => Outcome::Without { is_unsigned },
    }
}

/// `/`, which has no value where the right operand is 0.
pub fn quotient(operands: Operands) -> Outcome
    ensures { result ≡ quotient operands }
{
    match operands {
        Operands::Signed(a, b) => signed(a.checked_div(b)),
        Operands::Unsigned(a, b) => unsigned(a.checked_div(b)),
        Operands::Without { is_unsigned } => Outcome::Without { is_unsigned },
    }
}

/// `%`, which has no value where the right operand is 0.
pub fn remainder(operands: Operands) -> Outcome
    ensures { result ≡ remainder operands }
{
    match operands {
        Operands::Signed(a, b) => {
            if b == 0 {
                Outcome::Without { is_unsigned: false }
            } else {
                Outcome::Signed(a.wrapping_rem(b))
            }
        }
        Operands::Unsigned(a, b) => unsigned(a.checked_rem(b)),
        Operands::Without { is_unsigned } => Outcome::Without { is_unsigned },
    }
}

/// `+` (6.5.6).
pub fn total(operands: Operands) -> Outcome
    ensures { result ≡ total operands }
{
    match operands {
        Operands::Signed(a, b) => signed(a.checked_add(b)),
        Operands::Unsigned(a, b) => Outcome::Unsigned(a.wrapping_add(b)),
        Operands::Without { is_unsigned } => Outcome::Without { is_unsigned },
    }
}

/// `-` (6.5.6).
pub fn difference(operands: Operands) -> Outcome
    ensures { result ≡ difference operands }
{
    match operands {
        Operands::Signed(a, b) => signed(a.checked_sub(b)),
        Operands::Unsigned(a, b) => Outcome::Unsigned(a.wrapping_sub(b)),
        Operands::Without { is_unsigned } => Outcome::Without { is_unsigned },
    }
}

/// `&` (6.5.10).
pub fn bits_and(operands: Operands) -> Outcome
    ensures { result ≡ bits_and operands }
{
    match operands {
        Operands::Signed(a, b) => Outcome::Signed(a & b),
        Operands::Unsigned(a, b) => Outcome::Unsigned(a & b),
        Operands::Without { is_unsigned } => Outcome::Without { is_unsigned },
    }
}

/// `^` (6.5.11).
pub fn bits_xor(operands: Operands) -> Outcome
    ensures { result ≡ bits_xor operands }
{
    match operands {
        Operands::Signed(a, b) => Outcome::Signed(a ^ b),
        Operands::Unsigned(a, b) => Outcome::Unsigned(a ^ b),
        Operands::Without { is_unsigned } => Outcome::Without { is_unsigned },
    }
}

/// `|` (6.5.12).
pub fn bits_or(operands: Operands) -> Outcome
    ensures { result ≡ bits_or operands }
{
    match operands {
        Operands::Signed(a, b) => Outcome::Signed(a | b),
        Operands::Unsigned(a, b) => Outcome::Unsigned(a | b),
        Operands::Without { is_unsigned } => Outcome::Without { is_unsigned },
    }
}

/// `<` (6.5.8).
pub fn less(operands: Operands) -> Option<bool>
    ensures { result ≡ less operands }
{
    match operands {
        Operands::Signed(a, b) => Some(a < b),
        Operands::Unsigned(a, b) => Some(a < b),
        Operands::Without { is_unsigned: _ } => None,
    }
}

/// `==` (6.5.9).
pub fn equal(operands: Operands) -> Option<bool>
    ensures { result ≡ equal operands }
{
    match operands {
        Operands::Signed(a, b) => Some(a == b),
        Operands::Unsigned(a, b) => Some(a == b),
        Operands::Without { is_unsigned: _ } => None,
    }
}

/// The other truth.
pub fn negated(truth: Option<bool>) -> Option<bool>
    ensures { result ≡ negated truth }
{
    match truth {
        None => None,
        Some(truth) => Some(!truth),
    }
}

// The count of a shift, from 0 to 63.
fn count_of(right: Outcome) -> Option<u32>
    ensures count { result ≡ count_of right }
    ensures below { IfSome result (λ count. count < 64) }
{
    match right {
        Outcome::Signed(count) => {
            if 0 <= count && count < 64 {
                Some(count as u32)
            } else {
                None
            }
        }
        Outcome::Unsigned(count) => { if count < 64 { Some(count as u32) } else { None } }
        Outcome::Without { is_unsigned: _ } => None,
    }
}

// A signed number times a power of two, where that is in `intmax_t`.
fn signed_raised(value: i64, count: u32) -> Outcome
    requires { count < 64 }
    ensures { result ≡ raised (Outcome.Signed value) (Some count) }
{
    let power = (1u64 << count) as i128;
    let raised = value as i128 * power;
    if -0x8000_0000_0000_0000 <= raised && raised <= 0x7fff_ffff_ffff_ffff {
        Outcome::Signed(raised as i64)
    } else {
        Outcome::Without { is_unsigned: false }
    }
}

/// `<<`: the left operand times a power of two (6.5.7).
pub fn shift_left(left: Outcome, right: Outcome) -> Outcome
    ensures { result ≡ raised left (count_of right) }
{
    match count_of(right) {
        None => Outcome::Without {
            is_unsigned: left.is_unsigned(),
        },
        Some(count) => match left {
            Outcome::Signed(value) => signed_raised(value, count),
            Outcome::Unsigned(value) => Outcome::Unsigned(value << count),
            Outcome::Without { is_unsigned } => Outcome::Without { is_unsigned },
        },
    }
}

/// `>>`: the left operand over a power of two, rounded down (6.5.7).
pub fn shift_right(left: Outcome, right: Outcome) -> Outcome
    ensures { result ≡ lowered left (count_of right) }
{
    match count_of(right) {
        None => Outcome::Without {
            is_unsigned: left.is_unsigned(),
        },
        Some(count) => match left {
            Outcome::Signed(value) => Outcome::Signed(value >> count),
            Outcome::Unsigned(value) => Outcome::Unsigned(value >> count),
            Outcome::Without { is_unsigned } => Outcome::Without { is_unsigned },
        },
    }
}

// `-` before its operand.
fn opposite(operand: Outcome) -> Outcome
    ensures { result ≡ unary UnaryOperator.Minus operand }
{
    match operand {
        Outcome::Signed(value) => signed(value.checked_neg()),
        Outcome::Unsigned(value) => Outcome::Unsigned(0u64.wrapping_sub(value)),
        Outcome::Without { is_unsigned } => Outcome::Without { is_unsigned },
    }
}

// `~` before its operand.
fn complement(operand: Outcome) -> Outcome
    ensures { result ≡ unary UnaryOperator.Complement operand }
{
    match operand {
        Outcome::Signed(value) => Outcome::Signed(!value),
        Outcome::Unsigned(value) => Outcome::Unsigned(!value),
        Outcome::Without { is_unsigned } => Outcome::Without { is_unsigned },
    }
}

/// An operator before its operand (6.5.3.3).
pub fn unary(operator: UnaryOperator, operand: Outcome) -> Outcome
    ensures { result ≡ unary operator operand }
{
    match operator {
        UnaryOperator::Plus => operand,
        UnaryOperator::Minus => opposite(operand),
        UnaryOperator::Complement => complement(operand),
        UnaryOperator::Not => flag(negated(operand.truth())),
    }
}

//! All operators of controlling expressions.

ghost use Rattle.std.specs.Prelude.{◌≡◌};
ghost use Rattle.c_condition.specs.Values.{conjunction, disjunction, comma, binary};

use crate::arithmetic::{
    bits_and, bits_or, bits_xor, difference, equal, less, negated, product, quotient, remainder,
    shift_left, shift_right, total,
};
use crate::outcome::{Outcome, flag, paired};
use c_tree::BinaryOperator;

// `&&`: the right operand counts where the left one isn't 0 (ISO/IEC 9899:2011, 6.5.13).
fn conjunction(left: Option<bool>, right: Option<bool>) -> Option<bool>
    ensures { result ≡ conjunction left right }
{
    match left {
        None => None,
        Some(false) => Some(false),
        Some(true) => right,
    }
}

// `||`: the right operand counts where the left one is 0 (6.5.14).
fn disjunction(left: Option<bool>, right: Option<bool>) -> Option<bool>
    ensures { result ≡ disjunction left right }
{
    match left {
        None => None,
        Some(true) => Some(true),
        Some(false) => right,
    }
}

/// An operator between two operands.
pub fn binary(operator: BinaryOperator, left: Outcome, right: Outcome) -> Outcome
    ensures { result ≡ binary operator left right }
{
    match operator {
        BinaryOperator::Times => product(paired(left, right)),
        BinaryOperator::Over => quotient(paired(left, right)),
        BinaryOperator::Remainder => remainder(paired(left, right)),
        BinaryOperator::Plus => total(paired(left, right)),
        BinaryOperator::Minus => difference(paired(left, right)),
        BinaryOperator::ShiftLeft => shift_left(left, right),
        BinaryOperator::ShiftRight => shift_right(left, right),
        BinaryOperator::Less => flag(less(paired(left, right))),
        BinaryOperator::Greater => flag(less(paired(right, left))),
        BinaryOperator::LessEqual => flag(negated(less(paired(right, left)))),
        BinaryOperator::GreaterEqual => flag(negated(less(paired(left, right)))),
        BinaryOperator::Equal => flag(equal(paired(left, right))),
        BinaryOperator::NotEqual => flag(negated(equal(paired(left, right)))),
        BinaryOperator::BitAnd => bits_and(paired(left, right)),
        BinaryOperator::BitXor => bits_xor(paired(left, right)),
        BinaryOperator::BitOr => bits_or(paired(left, right)),
        BinaryOperator::And => flag(conjunction(left.truth(), right.truth())),
        BinaryOperator::Or => flag(disjunction(left.truth(), right.truth())),
    }
}

/// `,` which has a type alone, since a constant expression evaluates none (6.6p3).
pub fn comma(left: Outcome, right: Outcome) -> Outcome
    ensures { result ≡ comma left right }
{
    Outcome::Without {
        is_unsigned: right.is_unsigned(),
    }
}

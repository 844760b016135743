ghost use Rattle.std.specs.Prelude.{◌≡◌, ◌+ℤ◌, ◌-ℤ◌, ◌*ℤ◌, ◌≤◌, ◌<◌, ◌^◌, SomeIff, pos, nat_le, true, unsigned_abs, Some, IsSome};
ghost use Rattle.std.specs.Int.{int_pow};
ghost use Rattle.std.specs.Int.Signed.{lt_z};
ghost use Rattle.f_value.specs.Integers.{integer_of, power, quotient as quotient_of, raised as raised_of};
ghost use Rattle.f_value.specs.Values.{has, in_kind as in_kind_of, truth as truth_of};

use crate::value::{Did, FOp, FValue};
use jf_base::Tag;

/// An INTEGER result isn't in its kind.
pub const OUT_OF_KIND: Tag = Tag(908);

/// The greatest size of a value of any kind.
const MOST: u128 = 9223372036854775808;

/// Division by zero, or 0 to a negative power.
pub const BY_ZERO: Tag = Tag(909);

/// Whether the kind has the value.
pub fn is_in_kind(v: i128, kind: u8) -> bool
    ensures { result ≡ has kind v }
{
    let half: i128 = match kind {
        1 => 128,
        2 => 32768,
        4 => 2147483648,
        _ => 9223372036854775808,
    };
    -half <= v && v < half
}

/// The value in its kind.
pub fn in_kind(v: i128, kind: u8) -> Did<FValue>
    ensures { result ≡ in_kind_of v kind }
{
    if is_in_kind(v, kind) {
        Did::Done(FValue::Int { value: v, kind })
    } else {
        Did::Violation(OUT_OF_KIND)
    }
}

pub fn sum(a: i128, b: i128, kind: u8) -> Did<FValue>
    ensures { result ≡ in_kind_of (a +ℤ b) kind }
{
    match a.checked_add(b) {
        None => Did::Violation(OUT_OF_KIND),
        Some(v) => in_kind(v, kind),
    }
}

pub fn difference(a: i128, b: i128, kind: u8) -> Did<FValue>
    ensures { result ≡ in_kind_of (a -ℤ b) kind }
{
    match a.checked_sub(b) {
        None => Did::Violation(OUT_OF_KIND),
        Some(v) => in_kind(v, kind),
    }
}

pub fn product(a: i128, b: i128, kind: u8) -> Did<FValue>
    ensures { result ≡ in_kind_of (a *ℤ b) kind }
{
    match a.checked_mul(b) {
        None => Did::Violation(OUT_OF_KIND),
        Some(v) => in_kind(v, kind),
    }
}

pub fn quotient(a: i128, b: i128, kind: u8) -> Did<FValue>
    ensures { result ≡ quotient_of a b kind }
{
    if b == 0 {
        return Did::Violation(BY_ZERO);
    }
    match a.checked_div(b) {
        None => Did::Violation(OUT_OF_KIND),
        Some(v) => in_kind(v, kind),
    }
}

pub fn truth(value: bool) -> Did<FValue>
    ensures { result ≡ truth_of value }
{
    Did::Done(FValue::Logical { value, kind: 4 })
}

/// Two INTEGER operands by an operator, with the kind of the result.
pub fn integer(op: FOp, a: i128, b: i128, kind: u8) -> Did<FValue>
    requires { IsSome (integer_of op a b kind) }
    ensures { integer_of op a b kind ≡ Some result }
{
    match op {
        FOp::Power => raised(a, b, kind),
        FOp::Multiply => product(a, b, kind),
        FOp::Divide => quotient(a, b, kind),
        FOp::Add => sum(a, b, kind),
        FOp::Subtract => difference(a, b, kind),
        FOp::Equal => truth(a == b),
        FOp::Unequal => truth(a != b),
        FOp::Less => truth(a < b),
        FOp::LessEqual => truth(a <= b),
        FOp::Greater => truth(a > b),
        FOp::GreaterEqual => truth(a >= b),
        FOp::Concat | FOp::Not | FOp::And | FOp::Or | FOp::Eqv | FOp::Neqv => unreachable!(),
    }
}

/// A number to a power: the product of so many factors, or, for a negative power, the truncated quotient of 1 and it.
pub fn raised(a: i128, b: i128, kind: u8) -> Did<FValue>
    ensures { result ≡ raised_of a b kind }
{
    let n = b.unsigned_abs();
    if is_negative(b) {
        to_negative(a, n, kind)
    } else {
        to_positive(a, n, kind)
    }
}

fn is_negative(a: i128) -> bool
    ensures { result ≡ lt_z a (pos 0) }
{
    a < 0
}

/// Whether a number is 0, 1 or -1.
fn is_unit(a: i128) -> bool
    ensures { result ≡ nat_le (unsigned_abs a) 1 }
{
    a.unsigned_abs() <= 1
}

fn to_positive(a: i128, n: u128, kind: u8) -> Did<FValue>
    ensures { result ≡ in_kind_of (power a n) kind }
{
    if is_unit(a) {
        return in_kind(unit_power(a, n), kind);
    }
    if n >= 127 {
        return Did::Violation(OUT_OF_KIND);
    }
    exact_power(a, n as u32, kind)
}

fn to_negative(a: i128, n: u128, kind: u8) -> Did<FValue>
    requires { 1 ≤ n }
    ensures { result ≡ quotient_of (pos 1) (power a n) kind }
{
    if is_unit(a) {
        quotient(1, unit_power(a, n), kind)
    } else {
        in_kind(0, kind)
    }
}

/// 0, 1 or -1 to a power.
fn unit_power(a: i128, n: u128) -> i128
    requires { nat_le (unsigned_abs a) 1 ≡ true }
    ensures { result ≡ power a n }
{
    if n == 0 {
        return 1;
    }
    if !is_negative(a) {
        return a;
    }
    if n % 2 == 0 {
        return 1;
    }
    a
}

/// A number to a power that a 128-bit product tells apart from too large.
fn exact_power(a: i128, n: u32, kind: u8) -> Did<FValue>
    ensures { result ≡ in_kind_of (int_pow a n) kind }
{
    match size_of_power(a.unsigned_abs(), n) {
        None => Did::Violation(OUT_OF_KIND),
        Some(size) => {
            if size > MOST {
                return Did::Violation(OUT_OF_KIND);
            }
            in_kind(a.pow(n), kind)
        }
    }
}

/// A size to a power by squaring, so by two products for each binary digit of the exponent; None from the first product on that
/// leaves 128 bits.
fn size_of_power(size: u128, n: u32) -> Option<u128>
    ensures { SomeIff result (size ^ n < 2 ^ 128) (size ^ n) }
{
    if n == 0 {
        return Some(1);
    }
    if size == 0 {
        return Some(0);
    }
    let half = match size_of_power(size, n / 2) {
        None => return None,
        Some(half) => half,
    };
    let square = match half.checked_mul(half) {
        None => return None,
        Some(square) => square,
    };
    if n % 2 == 1 {
        square.checked_mul(size)
    } else {
        Some(square)
    }
}

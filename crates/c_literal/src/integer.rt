//! Integer constants.

ghost use Rattle.std.specs.Prelude.{◌≡◌, MatchOption, false, true};
ghost use Rattle.c_literal.specs.Integers.{IsConstant, IsNoConstant, type_of, base_of, candidates, first_type};
ghost use Rattle.c_literal.specs.IntegerReading.{radix_at, constant_at};

use crate::digits::digits_at;
use crate::suffix::suffix_at;
use c_tree::ConstantType;

/// How the digits of an integer constant are read.
#[derive(Clone, Copy, PartialEq, Eq, Debug)]
pub enum Radix {
    Decimal,
    Octal,
    Hexadecimal,
}

/// The suffix of an integer constant that asks for a long type.
#[derive(Clone, Copy, PartialEq, Eq, Debug)]
pub enum LongSuffix {
    Absent,
    /// `l` or `L`
    Long,
    /// `ll` or `LL`
    LongLong,
}

/// An integer constant: its value, how it was written, and its suffixes.
#[derive(Clone, Copy, PartialEq, Eq, Debug)]
pub struct IntegerConstant {
    pub value: u64,
    pub radix: Radix,
    /// It has the suffix `u` or `U`.
    pub is_unsigned: bool,
    pub long: LongSuffix,
}

impl IntegerConstant {
    /// The type of the constant: the first of its list in which its value lies (ISO/IEC 9899:2011, 6.4.4.1p5).
    pub fn kind(self) -> ConstantType
        ensures { result ≡ type_of self }
    {
        match (self.is_unsigned, self.long) {
            (false, LongSuffix::Absent) => {
                if self.radix == Radix::Decimal {
                    decimal_kind(self.value)
                } else {
                    other_kind(self.value)
                }
            }
            (false, LongSuffix::Long) => long_kind(self.value),
            (false, LongSuffix::LongLong) => long_long_kind(self.value),
            (true, LongSuffix::Absent) => unsigned_kind(self.value),
            (true, LongSuffix::Long) => ConstantType::UnsignedLong,
            (true, LongSuffix::LongLong) => ConstantType::UnsignedLongLong,
        }
    }
}

// The type of a decimal constant without a suffix.
fn decimal_kind(value: u64) -> ConstantType
    ensures { result ≡ first_type (candidates false LongSuffix.Absent true) value }
{
    if value < 0x8000_0000 {
        ConstantType::Int
    } else if value < 0x8000_0000_0000_0000 {
        ConstantType::Long
    } else {
        ConstantType::UnsignedLong
    }
}

// The type of an octal or hexadecimal constant without a suffix.
fn other_kind(value: u64) -> ConstantType
    ensures { result ≡ first_type (candidates false LongSuffix.Absent false) value }
{
    if value < 0x8000_0000 {
        ConstantType::Int
    } else if value < 0x1_0000_0000 {
        ConstantType::UnsignedInt
    } else if value < 0x8000_0000_0000_0000 {
        ConstantType::Long
    } else {
        ConstantType::UnsignedLong
    }
}

// The type of a constant with a long suffix alone.
fn long_kind(value: u64) -> ConstantType
    ensures decimal { result ≡ first_type (candidates false LongSuffix.Long true) value }
    ensures other { result ≡ first_type (candidates false LongSuffix.Long false) value }
{
    if value < 0x8000_0000_0000_0000 {
        ConstantType::Long
    } else {
        ConstantType::UnsignedLong
    }
}

// The type of a constant with a long long suffix alone.
fn long_long_kind(value: u64) -> ConstantType
    ensures { result ≡ first_type (candidates false LongSuffix.LongLong true) value }
{
    if value < 0x8000_0000_0000_0000 {
        ConstantType::LongLong
    } else {
        ConstantType::UnsignedLongLong
    }
}

// The type of a constant with an unsigned suffix alone.
fn unsigned_kind(value: u64) -> ConstantType
    ensures { result ≡ first_type (candidates true LongSuffix.Absent true) value }
{
    if value < 0x1_0000_0000 {
        ConstantType::UnsignedInt
    } else {
        ConstantType::UnsignedLong
    }
}

fn base_of(radix: Radix) -> u32
    ensures { result ≡ base_of radix }
{
    match radix {
        Radix::Decimal => 10,
        Radix::Octal => 8,
        Radix::Hexadecimal => 16,
    }
}

// How the digits of a constant are read, and where they begin.
#[tactic(auto, unfolding(crate::specs::IntegerReading::radix_at))]
fn radix_at(spelling: &[u8]) -> (Radix, &[u8])
    ensures { (result.0, result.1.now) ≡ radix_at spelling.now }
{
    match spelling.split_first() {
        None => (Radix::Decimal, spelling),
        Some((first, rest)) => {
            if *first != b'0' {
                return (Radix::Decimal, spelling);
            }
            match rest.split_first() {
                None => (Radix::Octal, spelling),
                Some((second, digits)) => {
                    if *second == b'x' || *second == b'X' {
                        (Radix::Hexadecimal, digits)
                    } else {
                        (Radix::Octal, spelling)
                    }
                }
            }
        }
    }
}

#[tactic(auto, unfolding(crate::specs::IntegerReading::constant_at))]
fn constant_at(spelling: &[u8]) -> Option<IntegerConstant>
    ensures { result ≡ constant_at spelling.now }
{
    let (radix, text) = radix_at(spelling);
    let (value, rest) = digits_at(base_of(radix), text);
    if rest.len() == text.len() {
        return None;
    }
    match (value, suffix_at(rest)) {
        (Some(value), Some(suffix)) => Some(IntegerConstant {
            value,
            radix,
            is_unsigned: suffix.is_unsigned,
            long: suffix.long,
        }),
        _ => None,
    }
}

/// The integer constant that a preprocessing number is (ISO/IEC 9899:2011, 6.4.4.1): decimal, octal or hexadecimal digits and suffixes, with a value in
/// `unsigned long`. None where it is none.
pub fn integer_constant(spelling: &[u8]) -> Option<IntegerConstant>
    ensures { MatchOption result (IsNoConstant spelling.now) (IsConstant spelling.now) }
{
    constant_at(spelling)
}

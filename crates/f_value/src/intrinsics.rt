ghost use Rattle.std.specs.Prelude.{◌≡◌, ◌==◌, if◌then◌else◌, suc, [], ◌∷◌, ◌≤◌, ◌<◌, ◌*◌, ◌^◌, pos, neg_ℤ, ◌-ℤ◌, unsigned_abs, IsSome, IfSome, Some};
ghost use Rattle.jf_base.specs.Numbers.{size_of_width};
ghost use Rattle.f_value.specs.Intrinsics.{bits_of, by_arguments as by_arguments_of, character as character_of, converted as converted_of, differs_in_sign, extreme as extreme_of_more, extreme_of, intrinsic_of, len_trim as len_trim_of, merged as merged_of, modulo as modulo_of, of_bits as of_bits_of, of_integer as of_integer_of, of_integers as of_integers_of, remainder as remainder_of, of_text as of_text_of, shifted as shifted_of};
ghost use Rattle.f_value.specs.Operators.{Answers};
ghost use Rattle.f_value.specs.Values.{in_kind as in_kind_of, width_of_kind};

use crate::integer::{BY_ZERO, OUT_OF_KIND, in_kind, sum};
use crate::value::{Did, FIntrinsic, FValue};
use jf_base::{List, Tag, Width, wrap};
use std::alloc::Global;

/// ISHFT by more than the width.
pub const SHIFT_TOO_FAR: Tag = Tag(910);

/// MERGE of texts of unequal lengths.
pub const LENGTHS_DIFFER: Tag = Tag(916);

/// CHAR or ACHAR of a number outside 0 to 255.
pub const NO_CHARACTER: Tag = Tag(927);

fn absolute(v: i128, kind: u8) -> Did<FValue>
    ensures { result ≡ in_kind_of (pos (unsigned_abs v)) kind }
{
    match v.checked_abs() {
        None => Did::Violation(OUT_OF_KIND),
        Some(size) => in_kind(size, kind),
    }
}

fn complement(v: i128, kind: u8) -> Did<FValue>
    ensures { result ≡ in_kind_of (neg_ℤ v -ℤ pos 1) kind }
{
    in_kind(!v, kind)
}

fn remainder(a: i128, p: i128, kind: u8) -> Did<FValue>
    ensures { result ≡ remainder_of a p kind }
{
    if p == 0 {
        return Did::Violation(BY_ZERO);
    }
    in_kind(a.wrapping_rem(p), kind)
}

/// Whether one number is positive and one negative.
fn differ_in_sign(r: i128, p: i128) -> bool
    ensures { result ≡ differs_in_sign r p }
{
    (r < 0 && 0 < p) || (0 < r && p < 0)
}

fn modulo(a: i128, p: i128, kind: u8) -> Did<FValue>
    ensures { result ≡ modulo_of a p kind }
{
    if p == 0 {
        return Did::Violation(BY_ZERO);
    }
    let r = a.wrapping_rem(p);
    if differ_in_sign(r, p) {
        sum(r, p, kind)
    } else {
        in_kind(r, kind)
    }
}

/// The character of a number.
fn character(alloc: Global, v: i128) -> Did<FValue>
    ensures { Answers result (character_of v) }
{
    if v < 0 || v > 255 {
        return Did::Violation(NO_CHARACTER);
    }
    let mut bytes = Vec::new(alloc);
    if bytes.push(v as u8).is_err() {
        return Did::Memory;
    }
    Did::Done(FValue::Text(List::from_vec(bytes)))
}

fn width(kind: u8) -> Width
    ensures { result ≡ width_of_kind kind }
{
    match kind {
        1 => Width::W1,
        2 => Width::W2,
        4 => Width::W4,
        _ => Width::W8,
    }
}

/// The number of the kind with these bits.
fn of_bits(n: u64, kind: u8) -> Did<FValue>
    ensures { result ≡ of_bits_of n kind }
{
    Did::Done(FValue::Int {
        value: wrap(n as i128, width(kind), true),
        kind,
    })
}

/// The bits of a number of the kind.
fn bits(v: i128, kind: u8) -> u64
    ensures { result ≡ bits_of v kind }
{
    wrap(v, width(kind), false) as u64
}

/// The length without trailing blanks of a text that ends with this byte at place `i`, given the length before it.
fn trimmed_at(n: usize, i: usize, byte: u8) -> usize
    requires { i < 2 ^ 63 }
    ensures { result ≡ (if byte == 32 then n else suc i) }
{
    if byte == b' ' { n } else { i + 1 }
}

/// The length of a text without its trailing blanks.
fn len_trim(s: &[u8]) -> usize
    ensures { result ≡ len_trim_of s.now }
{
    let mut n = 0;
    for i in 0..s.len() {
        n = trimmed_at(n, i, s[i]);
    }
    n
}

/// The bits of a kind.
fn width_in_bits(kind: u8) -> u32
    ensures value { result ≡ 8 * size_of_width (width_of_kind kind) }
    ensures most { result ≤ 64 }
{
    match kind {
        1 => 8,
        2 => 16,
        4 => 32,
        _ => 64,
    }
}

fn to_left(n: u64, s: u32) -> u128
    requires { s < 64 }
    ensures value { result ≡ n * 2 ^ s }
    ensures small { result < 2 ^ 127 }
{
    let factor = 2u64.pow(s);
    n as u128 * factor as u128
}

/// Shifts to the left by a number that isn't negative.
fn left(v: i128, s: u128, kind: u8) -> Did<FValue>
    ensures { result ≡ shifted_of v (pos s) kind }
{
    let most = width_in_bits(kind);
    if s > most as u128 {
        return Did::Violation(SHIFT_TOO_FAR);
    }
    if s == most as u128 {
        return of_bits(0, kind);
    }
    Did::Done(FValue::Int {
        value: wrap(to_left(bits(v, kind), s as u32) as i128, width(kind), true),
        kind,
    })
}

/// Shifts to the right by a number that isn't 0.
fn right(v: i128, s: u128, kind: u8) -> Did<FValue>
    requires { 1 ≤ s }
    ensures { result ≡ shifted_of v (neg_ℤ (pos s)) kind }
{
    if s > width_in_bits(kind) as u128 {
        return Did::Violation(SHIFT_TOO_FAR);
    }
    if s == 64 {
        return of_bits(0, kind);
    }
    of_bits(bits(v, kind) / 2u64.pow(s as u32), kind)
}

fn shifted(v: i128, s: i128, kind: u8) -> Did<FValue>
    ensures { result ≡ shifted_of v s kind }
{
    if s < 0 {
        right(v, s.unsigned_abs(), kind)
    } else {
        left(v, s.unsigned_abs(), kind)
    }
}

/// INT to a kind that is given as a number.
fn converted(v: i128, kind: i128) -> Did<FValue>
    requires { IsSome (converted_of v kind) }
    ensures { converted_of v kind ≡ Some result }
{
    match kind {
        1 => in_kind(v, 1),
        2 => in_kind(v, 2),
        4 => in_kind(v, 4),
        8 => in_kind(v, 8),
        _ => unreachable!(),
    }
}

/// A function of one INTEGER.
fn of_integer(alloc: Global, name: FIntrinsic, v: i128, kind: u8) -> Did<FValue>
    requires { IsSome (of_integer_of name v kind) }
    ensures { IfSome (of_integer_of name v kind) (Answers result) }
{
    match name {
        FIntrinsic::Abs => absolute(v, kind),
        FIntrinsic::Int => in_kind(v, 4),
        FIntrinsic::Char | FIntrinsic::Achar => character(alloc, v),
        FIntrinsic::Not => complement(v, kind),
        _ => unreachable!(),
    }
}

/// A function of two INTEGERs, of which the first has the kind of the result.
fn of_integers(name: FIntrinsic, a: i128, b: i128, kind: u8) -> Did<FValue>
    requires { IsSome (of_integers_of name a b kind) }
    ensures { IfSome (of_integers_of name a b kind) (Answers result) }
{
    match name {
        FIntrinsic::Mod => remainder(a, b, kind),
        FIntrinsic::Modulo => modulo(a, b, kind),
        FIntrinsic::Int => converted(a, b),
        FIntrinsic::Iand => of_bits(bits(a, kind) & bits(b, kind), kind),
        FIntrinsic::Ior => of_bits(bits(a, kind) | bits(b, kind), kind),
        FIntrinsic::Ieor => of_bits(bits(a, kind) ^ bits(b, kind), kind),
        FIntrinsic::Ishft => shifted(a, b, kind),
        _ => unreachable!(),
    }
}

/// A function of one CHARACTER.
fn of_text(name: FIntrinsic, s: &[u8]) -> Did<FValue>
    requires { IsSome (of_text_of name s.now) }
    ensures { of_text_of name s.now ≡ Some result }
{
    match name {
        FIntrinsic::LenTrim => in_kind(len_trim(s) as i128, 4),
        FIntrinsic::Ichar | FIntrinsic::Iachar => match s {
            [byte] => Did::Done(FValue::Int {
                value: *byte as i128,
                kind: 4,
            }),
            _ => unreachable!(),
        },
        _ => unreachable!(),
    }
}

/// MERGE of two values of one type.
fn merged(alloc: Global, x: &FValue, y: &FValue, mask: bool) -> Did<FValue>
    requires { IsSome (merged_of x.now y.now mask) }
    ensures { IfSome (merged_of x.now y.now mask) (Answers result) }
{
    match (x, y) {
        (FValue::Int { value: a, kind: j }, FValue::Int { value: b, kind: k }) => {
            if mask {
                Did::Done(FValue::Int {
                    value: *a,
                    kind: *j,
                })
            } else {
                Did::Done(FValue::Int {
                    value: *b,
                    kind: *k,
                })
            }
        }
        (FValue::Logical { value: a, kind: j }, FValue::Logical { value: b, kind: k }) => {
            if mask {
                Did::Done(FValue::Logical {
                    value: *a,
                    kind: *j,
                })
            } else {
                Did::Done(FValue::Logical {
                    value: *b,
                    kind: *k,
                })
            }
        }
        (FValue::Text(s), FValue::Text(t)) => {
            if s.len() != t.len() {
                return Did::Violation(LENGTHS_DIFFER);
            }
            copied(alloc, if mask { s.as_slice() } else { t.as_slice() })
        }
        _ => unreachable!(),
    }
}

/// A text with these bytes.
fn copied(alloc: Global, s: &[u8]) -> Did<FValue>
    ensures { Answers result (Did.Done (FValue.Text s.now)) }
{
    match Vec::from_slice(alloc, s) {
        Err(_) => Did::Memory,
        Ok(bytes) => Did::Done(FValue::Text(List::from_vec(bytes))),
    }
}

/// The greatest or the least of a number and of more values, which are numbers.
fn extreme(greatest: bool, v: i128, more: &[FValue]) -> i128
    requires { IsSome (extreme_of_more greatest v more.now) }
    ensures { extreme_of_more greatest v more.now ≡ Some result }
{
    let mut best = v;
    for i in 0..more.len() {
        best = better(greatest, best, &more[i]);
    }
    best
}

/// The greater or the lesser of two numbers.
fn better(greatest: bool, v: i128, x: &FValue) -> i128
    requires { IsSome (extreme_of_more greatest v (x.now ∷ [])) }
    ensures { extreme_of_more greatest v (x.now ∷ []) ≡ Some result }
{
    match x {
        FValue::Int { value, .. } => {
            if greatest {
                v.max(*value)
            } else {
                v.min(*value)
            }
        }
        _ => unreachable!(),
    }
}

/// MAX or MIN.
fn extreme_value(greatest: bool, args: &[FValue]) -> Did<FValue>
    requires { IsSome (extreme_of greatest args.now) }
    ensures { extreme_of greatest args.now ≡ Some result }
{
    match args {
        [FValue::Int { value, kind }, more @ ..] => Did::Done(FValue::Int {
            value: extreme(greatest, *value, more),
            kind: *kind,
        }),
        _ => unreachable!(),
    }
}

/// A function of two arguments.
fn of_two(name: FIntrinsic, x: &FValue, y: &FValue) -> Did<FValue>
    requires { IsSome (by_arguments_of name (x.now ∷ y.now ∷ [])) }
    ensures { IfSome (by_arguments_of name (x.now ∷ y.now ∷ [])) (Answers result) }
{
    match (x, y) {
        (FValue::Int { value: a, kind }, FValue::Int { value: b, .. }) => {
            of_integers(name, *a, *b, *kind)
        }
        _ => unreachable!(),
    }
}

/// A function that isn't MAX or MIN, by the number and the types of its arguments.
fn by_arguments(alloc: Global, name: FIntrinsic, args: &[FValue]) -> Did<FValue>
    requires { IsSome (by_arguments_of name args.now) }
    ensures { IfSome (by_arguments_of name args.now) (Answers result) }
{
    match args {
        [FValue::Int { value, kind }] => of_integer(alloc, name, *value, *kind),
        [FValue::Text(s)] => of_text(name, s.as_slice()),
        [x, y] => of_two(name, x, y),
        [x, y, FValue::Logical { value: mask, .. }] => merged(alloc, x, y, *mask),
        _ => unreachable!(),
    }
}

/// An elemental intrinsic function of its arguments (clause 16.9).
pub fn intrinsic(alloc: Global, name: FIntrinsic, args: &[FValue]) -> Did<FValue>
    requires { IsSome (intrinsic_of name args.now) }
    ensures { IfSome (intrinsic_of name args.now) (Answers result) }
{
    match name {
        FIntrinsic::Max => extreme_value(true, args),
        FIntrinsic::Min => extreme_value(false, args),
        _ => by_arguments(alloc, name, args),
    }
}

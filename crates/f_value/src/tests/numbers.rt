use super::rows::{OF_KIND_1, OF_KIND_2, OF_KIND_4, OF_KIND_8, OF_TWO_KINDS};
use super::{int, says};
use crate::{Did, FIntrinsic, FOp, FValue, binary, intrinsic, unary};
use std::alloc::Global;
use std::process::Abort;
use std::str::SplitWhitespace;

/// The next word of a row, as a number.
fn number(words: &mut SplitWhitespace) -> Option<i128> {
    match words.next()?.parse::<i64>() {
        Ok(value) => Some(i128::from(value)),
        Err(_) => None,
    }
}

/// The next word of a row, as a kind.
fn kind(words: &mut SplitWhitespace) -> Option<u8> {
    match words.next()?.parse::<u8>() {
        Ok(value) => Some(value),
        Err(_) => None,
    }
}

/// A function of one number, by its name in a table.
fn of_one(alloc: Global, name: &str, a: i128, kind: u8) -> Option<Did<FValue>> {
    match name {
        "not" => Some(intrinsic(alloc, FIntrinsic::Not, &[int(a, kind)])),
        "abs" => Some(intrinsic(alloc, FIntrinsic::Abs, &[int(a, kind)])),
        "negative" => Some(unary(FOp::Subtract, &int(a, kind))),
        _ => None,
    }
}

/// An operator on two numbers, by its name in a table.
fn by_operator(
    alloc: Global,
    name: &str,
    (a, j): (i128, u8),
    (b, k): (i128, u8),
) -> Option<Did<FValue>> {
    let (x, y) = (int(a, j), int(b, k));
    match name {
        "+" => Some(binary(alloc, FOp::Add, &x, &y)),
        "-" => Some(binary(alloc, FOp::Subtract, &x, &y)),
        "*" => Some(binary(alloc, FOp::Multiply, &x, &y)),
        "/" => Some(binary(alloc, FOp::Divide, &x, &y)),
        "**" => Some(binary(alloc, FOp::Power, &x, &y)),
        "==" => Some(binary(alloc, FOp::Equal, &x, &y)),
        "/=" => Some(binary(alloc, FOp::Unequal, &x, &y)),
        "<" => Some(binary(alloc, FOp::Less, &x, &y)),
        "<=" => Some(binary(alloc, FOp::LessEqual, &x, &y)),
        ">" => Some(binary(alloc, FOp::Greater, &x, &y)),
        ">=" => Some(binary(alloc, FOp::GreaterEqual, &x, &y)),
        _ => None,
    }
}

/// A function of two numbers, by its name in a table.
fn by_function(
    alloc: Global,
    name: &str,
    (a, j): (i128, u8),
    (b, k): (i128, u8),
) -> Option<Did<FValue>> {
    let args = [int(a, j), int(b, k)];
    match name {
        "mod" => Some(intrinsic(alloc, FIntrinsic::Mod, &args)),
        "modulo" => Some(intrinsic(alloc, FIntrinsic::Modulo, &args)),
        "iand" => Some(intrinsic(alloc, FIntrinsic::Iand, &args)),
        "ior" => Some(intrinsic(alloc, FIntrinsic::Ior, &args)),
        "ieor" => Some(intrinsic(alloc, FIntrinsic::Ieor, &args)),
        "ishft" => Some(intrinsic(alloc, FIntrinsic::Ishft, &args)),
        "max" => Some(intrinsic(alloc, FIntrinsic::Max, &args)),
        "min" => Some(intrinsic(alloc, FIntrinsic::Min, &args)),
        _ => None,
    }
}

/// An operation on two numbers, by its name in a table. INT takes a kind as its second one.
fn of_two(alloc: Global, name: &str, x: (i128, u8), y: (i128, u8)) -> Option<Did<FValue>> {
    if name == "int" {
        return to_kind(alloc, x, y.0);
    }
    match by_operator(alloc, name, x, y) {
        Some(answer) => Some(answer),
        None => by_function(alloc, name, x, y),
    }
}

/// INT of a number to a kind.
fn to_kind(alloc: Global, (a, j): (i128, u8), kind: i128) -> Option<Did<FValue>> {
    match kind {
        1 => Some(intrinsic(alloc, FIntrinsic::Int, &[int(a, j), int(1, 4)])),
        2 => Some(intrinsic(alloc, FIntrinsic::Int, &[int(a, j), int(2, 4)])),
        4 => Some(intrinsic(alloc, FIntrinsic::Int, &[int(a, j), int(4, 4)])),
        8 => Some(intrinsic(alloc, FIntrinsic::Int, &[int(a, j), int(8, 4)])),
        _ => None,
    }
}

/// Whether a row of one kind holds: a name, one or two numbers, and the answer.
fn holds(alloc: Global, row: &str, kind: u8) -> Option<bool> {
    let mut words = row.split_whitespace();
    let name = words.next()?;
    let a = number(&mut words)?;
    let second = words.next()?;
    let Some(want) = words.next() else {
        return Some(says(&of_one(alloc, name, a, kind)?, second));
    };
    let Ok(b) = second.parse::<i64>() else {
        return None;
    };
    let answer = of_two(alloc, name, (a, kind), (i128::from(b), kind))?;
    Some(says(&answer, want))
}

/// Whether a row of two kinds holds: a name, a kind and a number of it twice, and the answer.
fn holds_of_two_kinds(alloc: Global, row: &str) -> Option<bool> {
    let mut words = row.split_whitespace();
    let name = words.next()?;
    let j = kind(&mut words)?;
    let a = number(&mut words)?;
    let k = kind(&mut words)?;
    let b = number(&mut words)?;
    Some(says(&of_two(alloc, name, (a, j), (b, k))?, words.next()?))
}

#[test]
fn numbers_of_each_kind(rt: HostRuntime) {
    for (kind, rows) in [
        (1u8, OF_KIND_1),
        (2, OF_KIND_2),
        (4, OF_KIND_4),
        (8, OF_KIND_8),
    ] {
        let mut count = 0u32;
        for row in rows.lines() {
            assert_eq!(rt; holds(rt.alloc(), row, kind), Some(true), "{row}");
            count = count.wrapping_add(1);
        }
        assert_eq!(rt; count, 117);
    }
}

#[test]
fn numbers_of_two_kinds(rt: HostRuntime) {
    for row in OF_TWO_KINDS.lines() {
        assert_eq!(rt; holds_of_two_kinds(rt.alloc(), row), Some(true), "{row}");
    }
}

//! Expressions and their values. A test's text has one byte a token: digits are signed numbers, a digit behind `u` is an unsigned one, and letters stand for
//! longer punctuators.

use crate::{Number, Token, condition_value};
use c_literal::integer_constant;
use c_token::Mark;
use std::alloc::{AllocError, Global};

fn mark_of(byte: u8) -> Option<Mark> {
    match byte {
        b'(' => Some(Mark::Open),
        b')' => Some(Mark::Close),
        b'+' => Some(Mark::Plus),
        b'-' => Some(Mark::Minus),
        b'*' => Some(Mark::Star),
        b'/' => Some(Mark::Slash),
        b'%' => Some(Mark::Percent),
        b'~' => Some(Mark::Tilde),
        b'!' => Some(Mark::Exclamation),
        b'<' => Some(Mark::Less),
        b'>' => Some(Mark::Greater),
        b'&' => Some(Mark::Ampersand),
        b'^' => Some(Mark::Caret),
        b'|' => Some(Mark::Bar),
        b'?' => Some(Mark::Question),
        b':' => Some(Mark::Colon),
        b',' => Some(Mark::Comma),
        b'l' => Some(Mark::ShiftLeft),
        b'r' => Some(Mark::ShiftRight),
        b'i' => Some(Mark::LessEqual),
        b'j' => Some(Mark::GreaterEqual),
        b'e' => Some(Mark::Equal),
        b'n' => Some(Mark::NotEqual),
        b'a' => Some(Mark::AndAnd),
        b'o' => Some(Mark::OrOr),
        _ => None,
    }
}

// `M` is the greatest signed number, `U` the greatest unsigned one, `K` is 63, and `u` is an unsigned 1.
fn token_of(byte: u8) -> Token {
    match byte {
        b'0'..=b'9' => Token::Number(Number::Signed((byte - b'0') as i64)),
        b'M' => Token::Number(Number::Signed(9223372036854775807)),
        b'K' => Token::Number(Number::Signed(63)),
        b'U' => Token::Number(Number::Unsigned(18446744073709551615)),
        b'u' => Token::Number(Number::Unsigned(1)),
        b'x' => Token::Name,
        _ => match mark_of(byte) {
            Some(mark) => Token::Mark(mark),
            None => Token::Other,
        },
    }
}

fn value(alloc: Global, text: &[u8]) -> Result<Option<Number>, AllocError> {
    let mut tokens = Vec::new(alloc);
    for byte in text {
        tokens.push(token_of(*byte))?;
    }
    Ok(condition_value(tokens.as_slice()))
}

fn is(alloc: Global, text: &[u8], wanted: i64) -> bool {
    match value(alloc, text) {
        Ok(Some(Number::Signed(found))) => found == wanted,
        _ => false,
    }
}

fn is_unsigned(alloc: Global, text: &[u8], wanted: u64) -> bool {
    match value(alloc, text) {
        Ok(Some(Number::Unsigned(found))) => found == wanted,
        _ => false,
    }
}

fn is_none(alloc: Global, text: &[u8]) -> bool {
    matches!(value(alloc, text), Ok(None))
}

#[test]
fn each_operator_has_its_value(rt: HostRuntime) {
    let alloc = rt.alloc();
    assert!(rt; is(alloc, b"6*7", 42));
    assert!(rt; is(alloc, b"(-7)/2", -3));
    assert!(rt; is(alloc, b"(-7)%2", -1));
    assert!(rt; is(alloc, b"2+3", 5));
    assert!(rt; is(alloc, b"2-3", -1));
    assert!(rt; is(alloc, b"1l4", 16));
    assert!(rt; is(alloc, b"(-9)r1", -5));
    assert!(rt; is(alloc, b"6&3", 2));
    assert!(rt; is(alloc, b"6^3", 5));
    assert!(rt; is(alloc, b"6|3", 7));
    assert!(rt; is(alloc, b"~0", -1));
    assert!(rt; is(alloc, b"+5", 5));
}

#[test]
fn comparisons_are_one_or_zero(rt: HostRuntime) {
    let alloc = rt.alloc();
    assert!(rt; is(alloc, b"1<2", 1) && is(alloc, b"2<2", 0));
    assert!(rt; is(alloc, b"2>1", 1) && is(alloc, b"2>2", 0));
    assert!(rt; is(alloc, b"2i2", 1) && is(alloc, b"3i2", 0));
    assert!(rt; is(alloc, b"2j2", 1) && is(alloc, b"1j2", 0));
    assert!(rt; is(alloc, b"2e2", 1) && is(alloc, b"1e2", 0));
    assert!(rt; is(alloc, b"1n2", 1) && is(alloc, b"2n2", 0));
    assert!(rt; is(alloc, b"!0", 1) && is(alloc, b"!7", 0));
    assert!(rt; is(alloc, b"1a2", 1) && is(alloc, b"1a0", 0));
    assert!(rt; is(alloc, b"0o2", 1) && is(alloc, b"0o0", 0));
    assert!(rt; is(alloc, b"-1<0", 1));
}

#[test]
fn an_unsigned_operand_makes_both_unsigned(rt: HostRuntime) {
    let alloc = rt.alloc();
    assert!(rt; is(alloc, b"-1>u", 1));
    assert!(rt; is(alloc, b"-1<u", 0));
    assert!(rt; is(alloc, b"-1eU", 1));
    assert!(rt; is_unsigned(alloc, b"U+2", 1));
    assert!(rt; is_unsigned(alloc, b"0-u", 18446744073709551615));
    assert!(rt; is_unsigned(alloc, b"-u", 18446744073709551615));
    assert!(rt; is_unsigned(alloc, b"~u", 18446744073709551614));
    assert!(rt; is_unsigned(alloc, b"U*2", 18446744073709551614));
    assert!(rt; is_unsigned(alloc, b"Ur1", 9223372036854775807));
    assert!(rt; is(alloc, b"1lu", 2));
    assert!(rt; is_unsigned(alloc, b"1?-1:u", 18446744073709551615));
}

#[test]
fn operators_bind_and_group(rt: HostRuntime) {
    let alloc = rt.alloc();
    assert!(rt; is(alloc, b"1+2*3", 7));
    assert!(rt; is(alloc, b"(1+2)*3", 9));
    assert!(rt; is(alloc, b"9-4-3", 2));
    assert!(rt; is(alloc, b"8/4/2", 1));
    assert!(rt; is(alloc, b"1l2+1", 8));
    assert!(rt; is(alloc, b"4r1<3", 1));
    assert!(rt; is(alloc, b"1<2e1", 1));
    assert!(rt; is(alloc, b"6&3e3", 0));
    assert!(rt; is(alloc, b"1^3&2", 3));
    assert!(rt; is(alloc, b"4|1^1", 4));
    assert!(rt; is(alloc, b"1o0a0", 1));
    assert!(rt; is(alloc, b"0?1:0?2:3", 3));
    assert!(rt; is(alloc, b"--5", 5));
    assert!(rt; is(alloc, b"x", 0));
}

#[test]
fn one_side_is_evaluated(rt: HostRuntime) {
    let alloc = rt.alloc();
    assert!(rt; is(alloc, b"0a(1/0)", 0));
    assert!(rt; is(alloc, b"1o(1/0)", 1));
    assert!(rt; is(alloc, b"1?2:1/0", 2));
    assert!(rt; is(alloc, b"0?1/0:3", 3));
    assert!(rt; is(alloc, b"1?2:(3,4)", 2));
    assert!(rt; is_none(alloc, b"1a(1/0)"));
    assert!(rt; is_none(alloc, b"0o(1/0)"));
    assert!(rt; is_none(alloc, b"0?2:1/0"));
    assert!(rt; is_none(alloc, b"1/0?2:3"));
    assert!(rt; is_none(alloc, b"(1,2)"));
}

#[test]
fn results_out_of_range_have_no_value(rt: HostRuntime) {
    let alloc = rt.alloc();
    assert!(rt; is(alloc, b"M", 9223372036854775807));
    assert!(rt; is_none(alloc, b"M+1"));
    assert!(rt; is(alloc, b"-M-1", -9223372036854775808));
    assert!(rt; is_none(alloc, b"-M-2"));
    assert!(rt; is_none(alloc, b"-(-M-1)"));
    assert!(rt; is_none(alloc, b"(-M-1)/-1"));
    assert!(rt; is(alloc, b"(-M-1)%-1", 0));
    assert!(rt; is_none(alloc, b"M*2"));
    assert!(rt; is_none(alloc, b"1%0"));
    assert!(rt; is_none(alloc, b"u/0"));
    assert!(rt; is_none(alloc, b"1lK"));
    assert!(rt; is(alloc, b"(-1)lK", -9223372036854775808));
    assert!(rt; is_none(alloc, b"1l(K+1)"));
    assert!(rt; is_none(alloc, b"1r-1"));
}

#[test]
fn what_is_no_expression(rt: HostRuntime) {
    let alloc = rt.alloc();
    assert!(rt; is_none(alloc, b""));
    assert!(rt; is_none(alloc, b"12"));
    assert!(rt; is_none(alloc, b"1+"));
    assert!(rt; is_none(alloc, b"(1"));
    assert!(rt; is_none(alloc, b"1)"));
    assert!(rt; is_none(alloc, b"()"));
    assert!(rt; is_none(alloc, b"1?2"));
    assert!(rt; is_none(alloc, b"1,2"));
    assert!(rt; is_none(alloc, b"$"));
}

fn nested(alloc: Global, depth: usize) -> Result<Option<Number>, AllocError> {
    let mut tokens = Vec::new(alloc);
    for _ in 0..depth {
        tokens.push(Token::Mark(Mark::Open))?;
    }
    tokens.push(Token::Number(Number::Signed(7)))?;
    for _ in 0..depth {
        tokens.push(Token::Mark(Mark::Close))?;
    }
    Ok(condition_value(tokens.as_slice()))
}

#[test]
fn sixty_four_nestings_are_read(rt: HostRuntime) {
    assert!(rt; matches!(nested(rt.alloc(), 64), Ok(Some(Number::Signed(7)))));
    assert!(rt; matches!(nested(rt.alloc(), 65), Ok(None)));
}

fn constant(spelling: &[u8]) -> Option<Number> {
    match integer_constant(spelling) {
        None => None,
        Some(constant) => Some(Number::of_constant(constant)),
    }
}

#[test]
fn constants_are_signed_where_they_fit(rt: HostRuntime) {
    assert!(rt; constant(b"0xffffffff") == Some(Number::Signed(4294967295)));
    assert!(rt; constant(b"1u") == Some(Number::Unsigned(1)));
    assert!(rt; constant(b"0x8000000000000000") == Some(Number::Unsigned(9223372036854775808)));
    assert!(rt; Number::Signed(0).is_zero() && !Number::Unsigned(2).is_zero());
}

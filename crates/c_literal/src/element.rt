//! Characters and escape sequences between quotes.

ghost use Rattle.std.specs.Prelude.{◌≡◌, ◌<◌};
ghost use Rattle.c_literal.specs.Digits.{seen};
ghost use Rattle.c_literal.specs.Literals.{simple_value};
ghost use Rattle.c_literal.specs.LiteralReading.{narrow, octal_at, third_at, second_at, hexadecimal_at, escape_at, element_at};

use crate::digits::{digit_at, digits_at};

// What a simple escape sequence stands for (ISO/IEC 9899:2011, 6.4.4.4p4).
fn simple_value(letter: u8) -> Option<u8>
    ensures { result ≡ simple_value letter }
{
    match letter {
        b'\'' | b'"' | b'?' | b'\\' => Some(letter),
        b'a' => Some(7),
        b'b' => Some(8),
        b'f' => Some(12),
        b'n' => Some(b'\n'),
        b'r' => Some(b'\r'),
        b't' => Some(b'\t'),
        b'v' => Some(11),
        _ => None,
    }
}

// The number that a third octal digit makes, if one follows.
#[tactic(auto, unfolding(crate::specs::LiteralReading::third_at))]
fn third_at(value: u64, text: &[u8]) -> (u64, &[u8])
    requires { value < 64 }
    ensures { (result.0, result.1.now) ≡ third_at value text.now }
{
    match digit_at(8, text) {
        None => (value, text),
        Some((digit, rest)) => (value * 8 + digit, rest),
    }
}

// The number that a second octal digit makes, if one follows, and a third.
#[tactic(auto, unfolding(crate::specs::LiteralReading::second_at))]
fn second_at(value: u64, text: &[u8]) -> (u64, &[u8])
    requires { value < 8 }
    ensures { (result.0, result.1.now) ≡ second_at value text.now }
{
    match digit_at(8, text) {
        None => (value, text),
        Some((digit, rest)) => third_at(value * 8 + digit, rest),
    }
}

// The number, if it is a byte.
fn narrow(value: u64, rest: &[u8]) -> Option<(u8, &[u8])>
    ensures { narrow value rest.now ≡ seen (λ x. (x.0, x.1.now)) result }
{
    if value < 256 {
        Some((value as u8, rest))
    } else {
        None
    }
}

// An octal escape sequence behind its backslash: one to three digits.
#[tactic(auto, unfolding(crate::specs::LiteralReading::octal_at))]
fn octal_at(text: &[u8]) -> Option<(u8, &[u8])>
    ensures { octal_at text.now ≡ seen (λ x. (x.0, x.1.now)) result }
{
    match digit_at(8, text) {
        None => None,
        Some((digit, behind)) => {
            let (value, rest) = second_at(digit, behind);
            narrow(value, rest)
        }
    }
}

// A hexadecimal escape sequence behind its x.
#[tactic(auto, unfolding(crate::specs::LiteralReading::hexadecimal_at))]
fn hexadecimal_at(text: &[u8]) -> Option<(u8, &[u8])>
    ensures { hexadecimal_at text.now ≡ seen (λ x. (x.0, x.1.now)) result }
{
    let (value, rest) = digits_at(16, text);
    if rest.len() == text.len() {
        return None;
    }
    match value {
        None => None,
        Some(value) => narrow(value, rest),
    }
}

// An escape sequence behind its backslash.
#[tactic(auto, unfolding(crate::specs::LiteralReading::escape_at))]
fn escape_at(text: &[u8]) -> Option<(u8, &[u8])>
    ensures { escape_at text.now ≡ seen (λ x. (x.0, x.1.now)) result }
{
    match text.split_first() {
        None => None,
        Some((first, rest)) => {
            if *first == b'x' {
                return hexadecimal_at(rest);
            }
            match simple_value(*first) {
                Some(byte) => Some((byte, rest)),
                None => octal_at(text),
            }
        }
    }
}

/// The byte that the first character or escape sequence stands for, and what follows it.
#[tactic(auto, unfolding(crate::specs::LiteralReading::element_at))]
pub fn element_at(quote: u8, text: &[u8]) -> Option<(u8, &[u8])>
    ensures { element_at quote text.now ≡ seen (λ x. (x.0, x.1.now)) result }
{
    match text.split_first() {
        None => None,
        Some((first, rest)) => {
            if *first == b'\\' {
                escape_at(rest)
            } else if *first == quote || *first == b'\n' {
                None
            } else {
                Some((*first, rest))
            }
        }
    }
}

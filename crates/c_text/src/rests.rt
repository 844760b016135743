//! What stands behind words, numbers, literals and comments.

ghost use Rattle.std.specs.Prelude.{◌≡◌, false};
ghost use Rattle.c_text.specs.Rests.{seen, byte_at, is_in_number, is_exponent, digit_is_next, word_rest, number_rest, line_rest, comment_rest, literal_rest};

use crate::character::Character;
use crate::class::{Class, class_of};

/// What stands behind the byte, if it stands first.
#[tactic(auto, unfolding(crate::specs::Rests::byte_at))]
pub fn byte_at(wanted: u8, text: &[Character]) -> Option<&[Character]>
    ensures { byte_at wanted text.now ≡ seen (λ x. x.now) result }
{
    match text.split_first() {
        None => None,
        Some((first, rest)) => {
            if first.byte == wanted {
                Some(rest)
            } else {
                None
            }
        }
    }
}

/// A digit stands first.
#[tactic(auto, unfolding(crate::specs::Rests::digit_is_next))]
pub fn digit_is_next(text: &[Character]) -> bool
    ensures { result ≡ digit_is_next text.now }
{
    match text.split_first() {
        None => false,
        Some((first, _)) => class_of(first.byte) == Class::Digit,
    }
}

/// What stands behind the letters, digits and underscores at the front.
#[tactic(auto, unfolding(crate::specs::Rests::word_rest))]
pub fn word_rest(text: &[Character]) -> &[Character]
    ensures { result.now ≡ word_rest text.now }
{
    let mut rest = text;
    while let Some((first, tail)) = rest.split_first() {
        match class_of(first.byte) {
            Class::Letter | Class::Digit => rest = tail,
            _ => return rest,
        }
    }
    rest
}

fn is_exponent(byte: u8) -> bool
    ensures { result ≡ is_exponent byte }
{
    byte == b'e' || byte == b'E' || byte == b'p' || byte == b'P'
}

// A preprocessing number goes on with the byte.
fn is_in_number(behind_exponent: bool, byte: u8) -> bool
    ensures { result ≡ is_in_number behind_exponent byte }
{
    match class_of(byte) {
        Class::Letter | Class::Digit | Class::Dot => true,
        _ => behind_exponent && (byte == b'+' || byte == b'-'),
    }
}

/// What stands behind a preprocessing number whose first characters were taken.
#[tactic(auto, unfolding(crate::specs::Rests::number_rest))]
pub fn number_rest(text: &[Character]) -> &[Character]
    ensures { result.now ≡ number_rest false text.now }
{
    let mut behind_exponent = false;
    let mut rest = text;
    while let Some((first, tail)) = rest.split_first() {
        if !is_in_number(behind_exponent, first.byte) {
            return rest;
        }
        behind_exponent = is_exponent(first.byte);
        rest = tail;
    }
    rest
}

/// The line end behind a comment that ends with its line, and what follows.
#[tactic(auto, unfolding(crate::specs::Rests::line_rest))]
pub fn line_rest(text: &[Character]) -> &[Character]
    ensures { result.now ≡ line_rest text.now }
{
    let mut rest = text;
    while let Some((first, tail)) = rest.split_first() {
        if first.byte == b'\n' {
            return rest;
        }
        rest = tail;
    }
    rest
}

/// What stands behind the end of a comment, if it has one.
#[tactic(auto, unfolding(crate::specs::Rests::comment_rest))]
pub fn comment_rest(text: &[Character]) -> Option<&[Character]>
    ensures { comment_rest text.now ≡ seen (λ x. x.now) result }
{
    let mut rest = text;
    while let Some((first, tail)) = rest.split_first() {
        if first.byte == b'*' {
            if let Some(behind) = byte_at(b'/', tail) {
                return Some(behind);
            }
        }
        rest = tail;
    }
    None
}

/// Behind the first quote of a literal: whether it ends on its line, and what stands behind it.
#[tactic(auto, unfolding(crate::specs::Rests::literal_rest))]
pub fn literal_rest(quote: u8, text: &[Character]) -> (bool, &[Character])
    ensures { (result.0, result.1.now) ≡ literal_rest false quote text.now }
{
    let mut is_escaped = false;
    let mut rest = text;
    while let Some((first, tail)) = rest.split_first() {
        if first.byte == b'\n' {
            return (false, rest);
        }
        if !is_escaped && first.byte == quote {
            return (true, tail);
        }
        is_escaped = !is_escaped && first.byte == b'\\';
        rest = tail;
    }
    (false, rest)
}

//! Names, numbers, marks and operators.

ghost use Rattle.std.specs.Prelude.{◌≡◌, ◌<◌, ◌^◌, IfOk, nat_lt};
ghost use Rattle.f_lex.specs.Lines.{seen};
ghost use Rattle.f_lex.specs.Words.{lowered, kind_at, quote_at, kind_quote_at, dot_word, mark_at, one_or_two, number_of, relation_word, logic_word};

use crate::class::{Class, Run, class_at};
use crate::lines::{byte_at, run_at};
use crate::token::{Kind, Mark};
use jf_base::List;
use std::alloc::{AllocError, Global};

/// What stands between two dots.
#[derive(Clone, Copy, Debug, PartialEq, Eq)]
pub enum DotWord {
    Operator(Mark),
    Truth(bool),
}

/// The bytes with their letters lowered.
#[tactic(auto, unfolding(crate::specs::Words::lowered))]
pub fn lowered(alloc: Global, bytes: &[u8]) -> Result<List<u8>, AllocError>
    ensures { IfOk result (λ l. l ≡ lowered bytes.now) }
{
    let items = bytes
        .iter()
        .map(|byte| byte.to_ascii_lowercase())
        .collect(alloc)?;
    Ok(List::from_vec(items))
}

/// The kind of a literal that stands before it, if an underscore and a kind stand first, and the rest.
#[tactic(auto, unfolding(crate::specs::Words::kind_at))]
pub fn kind_at(alloc: Global, bytes: &[u8]) -> Result<(Option<Kind>, &[u8]), AllocError>
    ensures { IfOk result (λ x. (x.0, x.1.now) ≡ kind_at bytes.now) }
{
    match byte_at(b'_', bytes) {
        None => Ok((None, bytes)),
        Some(kind) => match class_at(kind) {
            Class::Letter => {
                let (name, rest) = run_at(Run::Name, kind);
                Ok((Some(Kind::Name(lowered(alloc, name)?)), rest))
            }
            Class::Digit => {
                let (digits, rest) = run_at(Run::Digits, kind);
                Ok((Some(Kind::Number(lowered(alloc, digits)?)), rest))
            }
            _ => Ok((None, bytes)),
        },
    }
}

/// The delimiter, if it stands first, and what stands behind it.
#[tactic(auto, unfolding(crate::specs::Words::quote_at))]
pub fn quote_at(bytes: &[u8]) -> Option<(u8, &[u8])>
    ensures { quote_at bytes.now ≡ seen (λ x. (x.0, x.1.now)) result }
{
    match bytes.split_first() {
        None => None,
        Some((byte, rest)) => {
            if class_at(bytes) == Class::Quote {
                Some((*byte, rest))
            } else {
                None
            }
        }
    }
}

/// The delimiter of a text whose kind stands before this, and what stands behind it.
#[tactic(auto, unfolding(crate::specs::Words::kind_quote_at))]
pub fn kind_quote_at(bytes: &[u8]) -> Option<(u8, &[u8])>
    ensures { kind_quote_at bytes.now ≡ seen (λ x. (x.0, x.1.now)) result }
{
    match byte_at(b'_', bytes) {
        None => None,
        Some(text) => quote_at(text),
    }
}

/// The digits stand for a number below 2 to the power of 63.
pub fn is_number(digits: &[u8]) -> bool
    ensures { result ≡ nat_lt (number_of digits.now) (2 ^ 63) }
{
    let mut value: u128 = 0;
    for digit in digits {
        value = value * 10 + digit.saturating_sub(b'0') as u128;
        if value >= 1 << 63 {
            return false;
        }
    }
    true
}

// The mark of two characters, if the second stands first here, or else the mark of one.
#[tactic(auto, unfolding(crate::specs::Words::one_or_two))]
fn one_or_two(one: Mark, second: u8, two: Mark, rest: &[u8]) -> (Mark, &[u8])
    ensures { (result.0, result.1.now) ≡ one_or_two one second two rest.now }
{
    match byte_at(second, rest) {
        None => (one, rest),
        Some(behind) => (two, behind),
    }
}

/// The mark that a character begins, the longest that fits, and the rest.
#[tactic(auto, unfolding(crate::specs::Words::mark_at))]
pub fn mark_at(byte: u8, rest: &[u8]) -> (Mark, &[u8])
    ensures { (result.0, result.1.now) ≡ mark_at byte rest.now }
{
    match byte {
        b'(' => (Mark::Open, rest),
        b')' => (Mark::Close, rest),
        b'[' => (Mark::OpenBracket, rest),
        b']' => (Mark::CloseBracket, rest),
        b',' => (Mark::Comma, rest),
        b'%' => (Mark::Percent, rest),
        b'+' => (Mark::Plus, rest),
        b'-' => (Mark::Minus, rest),
        b':' => one_or_two(Mark::Colon, b':', Mark::DoubleColon, rest),
        b'*' => one_or_two(Mark::Star, b'*', Mark::Power, rest),
        b'<' => one_or_two(Mark::Less, b'=', Mark::LessEqual, rest),
        b'>' => one_or_two(Mark::Greater, b'=', Mark::GreaterEqual, rest),
        b'/' => match byte_at(b'/', rest) {
            None => one_or_two(Mark::Slash, b'=', Mark::NotEqual, rest),
            Some(behind) => (Mark::Concat, behind),
        },
        _ => match byte_at(b'>', rest) {
            None => one_or_two(Mark::Assign, b'=', Mark::Equal, rest),
            Some(behind) => (Mark::Arrow, behind),
        },
    }
}

#[tactic(auto, unfolding(crate::specs::Words::relation_word))]
fn relation_word(word: &[u8]) -> Option<Mark>
    ensures { result ≡ relation_word word.now }
{
    if word == b"eq".as_slice() {
        Some(Mark::DotEq)
    } else if word == b"ne".as_slice() {
        Some(Mark::DotNe)
    } else if word == b"lt".as_slice() {
        Some(Mark::DotLt)
    } else if word == b"le".as_slice() {
        Some(Mark::DotLe)
    } else if word == b"gt".as_slice() {
        Some(Mark::DotGt)
    } else if word == b"ge".as_slice() {
        Some(Mark::DotGe)
    } else {
        None
    }
}

#[tactic(auto, unfolding(crate::specs::Words::logic_word))]
fn logic_word(word: &[u8]) -> Option<DotWord>
    ensures { result ≡ logic_word word.now }
{
    if word == b"true".as_slice() {
        Some(DotWord::Truth(true))
    } else if word == b"false".as_slice() {
        Some(DotWord::Truth(false))
    } else if word == b"not".as_slice() {
        Some(DotWord::Operator(Mark::Not))
    } else if word == b"and".as_slice() {
        Some(DotWord::Operator(Mark::And))
    } else if word == b"or".as_slice() {
        Some(DotWord::Operator(Mark::Or))
    } else if word == b"eqv".as_slice() {
        Some(DotWord::Operator(Mark::Eqv))
    } else if word == b"neqv".as_slice() {
        Some(DotWord::Operator(Mark::Neqv))
    } else {
        None
    }
}

/// What a word in lower case between two dots is.
#[tactic(auto, unfolding(crate::specs::Words::dot_word))]
pub fn dot_word(word: &[u8]) -> Option<DotWord>
    ensures { result ≡ dot_word word.now }
{
    match relation_word(word) {
        None => logic_word(word),
        Some(mark) => Some(DotWord::Operator(mark)),
    }
}

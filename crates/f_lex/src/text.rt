//! Texts: character literal constants (ISO/IEC 1539-1:2018, 7.4.4).

ghost use Rattle.std.specs.Prelude.{◌≡◌, ◌+◌, [], length, IfOk};
ghost use Rattle.f_lex.specs.Texts.{part_at, body_at, part_of_ampersand};

use crate::class::{Class, class_at, is_next};
use crate::fault::Rule;
use crate::lines::{Context, byte_at, ends_line, goes_on_at};
use jf_base::List;
use std::alloc::{AllocError, Global};

/// A part of a text behind its first delimiter.
#[derive(Clone, Copy, Debug, PartialEq, Eq)]
pub enum Part {
    /// A character that stands for itself.
    Byte(u8),
    /// Two delimiters, which stand for one character.
    Doubled,
    /// An `&` that continues the text on a later line.
    Joined,
    /// The last delimiter.
    Closed,
    /// The line ends, and the text isn't continued.
    Open,
    /// An `&` continues the text, and no line begins with `&` behind it.
    Lost,
}

/// What stands between the delimiters of a text: its characters, how many bytes of it continue lines, and which rule it breaks.
#[derive(Drop, Debug)]
pub struct Body {
    pub bytes: List<u8>,
    pub passed: usize,
    pub broken: Option<Rule>,
}

// The part that an `&` begins.
fn part_of_ampersand(rest: &[u8]) -> (Part, &[u8])
    ensures { (result.0, result.1.now) ≡ part_of_ampersand rest.now }
{
    if ends_line(Context::Inside, rest) {
        match goes_on_at(Context::Inside, rest) {
            None => (Part::Lost, rest),
            Some(next) => (Part::Joined, next),
        }
    } else {
        (Part::Byte(b'&'), rest)
    }
}

// The part that stands first, and the rest.
#[tactic(auto, unfolding(crate::specs::Texts::part_at))]
fn part_at(quote: u8, bytes: &[u8]) -> (Part, &[u8])
    ensures { (result.0, result.1.now) ≡ part_at quote bytes.now }
{
    match bytes.split_first() {
        None => (Part::Open, bytes),
        Some((byte, rest)) => {
            if *byte == quote {
                match byte_at(quote, rest) {
                    None => (Part::Closed, rest),
                    Some(next) => (Part::Doubled, next),
                }
            } else {
                match class_at(bytes) {
                    Class::LineEnd => (Part::Open, bytes),
                    Class::Ampersand => part_of_ampersand(rest),
                    _ => (Part::Byte(*byte), rest),
                }
            }
        }
    }
}

/// What stands behind the first delimiter of a text, and the rest.
pub fn body_at(alloc: Global, quote: u8, bytes: &[u8]) -> Result<(Body, &[u8]), AllocError>
    ensures { IfOk result (λ x. (x.0, x.1.now) ≡ body_at (length bytes.now + 1) quote [] 0 bytes.now) }
{
    let mut content = List::from_vec(Vec::new(alloc));
    let mut passed = 0;
    let mut rest = bytes;
    'parts: loop {
        let (part, next) = part_at(quote, rest);
        match part {
            Part::Byte(byte) => {
                content.push(byte)?;
            }
            Part::Doubled => {
                content.push(quote)?;
            }
            Part::Joined => {
                passed += rest.len() - next.len();
            }
            Part::Closed => {
                return Ok((ended(content, passed, None), next));
            }
            Part::Open => {
                return Ok((ended(content, passed, Some(Rule::OpenText)), next));
            }
            Part::Lost => {
                return Ok((ended(content, passed, Some(Rule::LostLine)), next));
            }
        }
        rest = next;
    }
}

fn ended(bytes: List<u8>, passed: usize, broken: Option<Rule>) -> Body
    ensures { result ≡ record { bytes = bytes; passed = passed; broken = broken } }
{
    Body {
        bytes,
        passed,
        broken,
    }
}

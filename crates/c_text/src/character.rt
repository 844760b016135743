//! The first two phases of translation: characters in place of bytes, and joined lines.

ghost use Rattle.std.specs.Prelude.{◌≡◌, IfOk, length, ◌<◌, ◌^◌, false};
ghost use Rattle.c_text.specs.Characters.{is_next, third_of, trigraph_at, written_at, is_dropped, characters, is_splice, joined};

use std::alloc::{AllocError, Global};

/// A line and the byte of that line, both counted from 1.
#[derive(Clone, Copy, Debug, PartialEq, Eq)]
pub struct Point {
    pub line: u32,
    pub column: u32,
}

/// A character of a text, and where it begins.
#[derive(Clone, Copy, Debug, PartialEq, Eq)]
pub struct Character {
    pub byte: u8,
    pub point: Point,
}

// The byte stands first.
#[tactic(auto, unfolding(crate::specs::Characters::is_next))]
fn is_next(byte: u8, bytes: &[u8]) -> bool
    ensures { result ≡ is_next byte bytes.now }
{
    match bytes.split_first() {
        None => false,
        Some((first, _)) => *first == byte,
    }
}

// The character that a trigraph with this third byte stands for.
#[tactic(auto, unfolding(crate::specs::Characters::third_of))]
fn third_of(byte: u8) -> Option<u8>
    ensures { result ≡ third_of byte }
{
    match byte {
        b'=' => Some(b'#'),
        b'(' => Some(b'['),
        b'/' => Some(b'\\'),
        b')' => Some(b']'),
        b'\'' => Some(b'^'),
        b'<' => Some(b'{'),
        b'!' => Some(b'|'),
        b'>' => Some(b'}'),
        b'-' => Some(b'~'),
        _ => None,
    }
}

// The character that a trigraph stands for, if one stands first.
#[tactic(auto, unfolding(crate::specs::Characters::trigraph_at))]
fn trigraph_at(bytes: &[u8]) -> Option<u8>
    ensures { result ≡ trigraph_at bytes.now }
{
    let (first, behind) = bytes.split_first()?;
    let (second, rest) = behind.split_first()?;
    let (third, _) = rest.split_first()?;
    if *first == b'?' && *second == b'?' {
        third_of(*third)
    } else {
        None
    }
}

// The character that the first byte begins, and how many of the bytes behind it belong to it.
#[tactic(auto, unfolding(crate::specs::Characters::written_at))]
fn written_at(first: u8, bytes: &[u8]) -> (u8, usize)
    ensures { result ≡ written_at first bytes.now }
{
    match trigraph_at(bytes) {
        None => (first, 0),
        Some(byte) => (byte, 2),
    }
}

// A carriage return before a line feed.
fn is_dropped(byte: u8, behind: &[u8]) -> bool
    ensures { result ≡ is_dropped byte behind.now }
{
    byte == b'\r' && is_next(b'\n', behind)
}

// The characters of a text before its lines are joined.
fn characters(alloc: Global, bytes: &[u8]) -> Result<Vec<Character>, AllocError>
    requires { length bytes.now < 2 ^ 31 }
    ensures { IfOk result (λ v. v.items ≡ characters 0 1 1 bytes.now) }
{
    let mut characters = Vec::new(alloc);
    let mut skipped = 0usize;
    let mut line = 1;
    let mut column = 1;
    let mut rest = bytes;
    while let Some((first, tail)) = rest.split_first() {
        if skipped > 0 {
            skipped -= 1;
            column += 1;
        } else if is_dropped(*first, tail) {
            column += 1;
        } else if *first == b'\n' {
            characters.push(Character {
                byte: b'\n',
                point: Point { line, column },
            })?;
            line += 1;
            column = 1;
        } else {
            let (byte, behind) = written_at(*first, rest);
            characters.push(Character {
                byte,
                point: Point { line, column },
            })?;
            skipped = behind;
            column += 1;
        }
        rest = tail;
    }
    Ok(characters)
}

// A backslash before a line end.
fn is_splice(first: &Character, behind: &[Character]) -> bool
    ensures { result ≡ is_splice first.now behind.now }
{
    match behind.split_first() {
        None => false,
        Some((second, _)) => first.byte == b'\\' && second.byte == b'\n',
    }
}

/// The characters of a text whose lines are joined.
pub fn joined(alloc: Global, bytes: &[u8]) -> Result<Vec<Character>, AllocError>
    requires { length bytes.now < 2 ^ 31 }
    ensures { IfOk result (λ v. v.items ≡ joined false (characters 0 1 1 bytes.now)) }
{
    let text = characters(alloc, bytes)?;
    let mut joined = Vec::new(alloc);
    let mut in_splice = false;
    let mut rest = text.as_slice();
    while let Some((first, tail)) = rest.split_first() {
        if in_splice {
            in_splice = false;
        } else if is_splice(first, tail) {
            in_splice = true;
        } else {
            joined.push(*first)?;
        }
        rest = tail;
    }
    Ok(joined)
}

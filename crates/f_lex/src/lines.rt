//! Runs of characters, blanks and comments between lines, and continuation.

ghost use Rattle.std.specs.Prelude.{◌≡◌, Some, None, false};
ghost use Rattle.f_lex.specs.Characters.{goes_on};
ghost use Rattle.f_lex.specs.Lines.{run_at, byte_at, seen, passes_over, next_line, ends_line, first_of_line, goes_on_at};

use crate::class::{Class, Run, class_at, goes_on, is_next};

/// Whether a text is open, a character context of ISO/IEC 1539-1:2018, 6.3.2.
#[derive(Clone, Copy, Debug, PartialEq, Eq)]
pub enum Context {
    Outside,
    Inside,
}

/// The characters at the front that belong to the run, and the rest.
pub fn run_at(run: Run, bytes: &[u8]) -> (&[u8], &[u8])
    ensures { (result.0.now, result.1.now) ≡ run_at run bytes.now }
{
    for index in 0..bytes.len() {
        if !goes_on(run, bytes.split_at(index).1) {
            return bytes.split_at(index);
        }
    }
    bytes.split_at(bytes.len())
}

/// What stands behind the byte, if it stands first.
#[tactic(auto, unfolding(crate::specs::Lines::byte_at))]
pub fn byte_at(wanted: u8, bytes: &[u8]) -> Option<&[u8]>
    ensures { byte_at wanted bytes.now ≡ seen (λ x. x.now) result }
{
    match bytes.split_first() {
        None => None,
        Some((byte, rest)) => { if *byte == wanted { Some(rest) } else { None } }
    }
}

// In blank lines and comment lines: whether a comment goes on behind this character, or none where a line begins that has more.
fn passes_over(in_comment: bool, class: Class) -> Option<bool>
    ensures { result ≡ passes_over in_comment class }
{
    match (in_comment, class) {
        (true, Class::LineEnd) => Some(false),
        (true, _) => Some(true),
        (false, Class::Blank | Class::LineEnd) => Some(false),
        (false, Class::Exclamation) => Some(true),
        (false, _) => None,
    }
}

// The first character that belongs to no blank and no comment, on this line or a later one.
#[tactic(auto, unfolding(crate::specs::Lines::next_line))]
fn next_line(bytes: &[u8]) -> Option<&[u8]>
    ensures { next_line false bytes.now ≡ seen (λ x. x.now) result }
{
    let mut rest = bytes;
    let mut in_comment = false;
    while let Some((_, tail)) = rest.split_first() {
        match passes_over(in_comment, class_at(rest)) {
            None => {
                return Some(rest);
            }
            Some(comment) => {
                in_comment = comment;
                rest = tail;
            }
        }
    }
    None
}

/// Nothing but blanks, and outside a text a comment, is left of the line.
#[tactic(auto, unfolding(crate::specs::Lines::ends_line))]
pub fn ends_line(context: Context, bytes: &[u8]) -> bool
    ensures { result ≡ ends_line context bytes.now }
{
    match class_at(run_at(Run::Blanks, bytes).1) {
        Class::LineEnd | Class::Nothing => true,
        Class::Exclamation => context == Context::Outside,
        _ => false,
    }
}

// What the line continues with: an `&` that stands first is dropped, unless it is the line's last character too.
#[tactic(auto, unfolding(crate::specs::Lines::first_of_line))]
fn first_of_line(context: Context, bytes: &[u8]) -> &[u8]
    ensures { result.now ≡ first_of_line context bytes.now }
{
    match byte_at(b'&', bytes) {
        None => bytes,
        Some(tail) => {
            if ends_line(context, tail) {
                bytes
            } else {
                tail
            }
        }
    }
}

/// Behind an `&` that is the last character of its line: where the statement goes on, if it has a next line.
#[tactic(auto, unfolding(crate::specs::Lines::goes_on_at))]
pub fn goes_on_at(context: Context, bytes: &[u8]) -> Option<&[u8]>
    ensures { goes_on_at context bytes.now ≡ seen (λ x. x.now) result }
{
    match next_line(bytes) {
        None => None,
        Some(rest) => {
            if context == Context::Inside && !is_next(b'&', rest) {
                None
            } else {
                Some(first_of_line(context, rest))
            }
        }
    }
}

//! The pieces of a text.

ghost use Rattle.std.specs.Prelude.{◌≡◌, ◌+◌, length};
ghost use Rattle.c_text.specs.Rests.{seen};
ghost use Rattle.c_text.specs.Pieces.{kind_of_quote, quote_at, prefixed_at, literal_at, word_at, mark_at, slash_at, dot_at, piece_at};

use crate::character::Character;
use crate::class::{Class, class_of};
use crate::kind::Kind;
use crate::marks::mark_length;
use crate::rests::{
    byte_at, comment_rest, digit_is_next, line_rest, literal_rest, number_rest, word_rest,
};

// The quote that stands first, and what stands behind it.
#[tactic(auto, unfolding(crate::specs::Pieces::quote_at))]
fn quote_at(text: &[Character]) -> Option<(u8, &[Character])>
    ensures { quote_at text.now ≡ seen (λ x. (x.0, x.1.now)) result }
{
    match text.split_first() {
        None => None,
        Some((first, rest)) => {
            if class_of(first.byte) == Class::Quote {
                Some((first.byte, rest))
            } else {
                None
            }
        }
    }
}

// What a literal with a prefix has behind its first character: its first quote, and what stands behind it.
#[tactic(auto, unfolding(crate::specs::Pieces::prefixed_at))]
fn prefixed_at(first: u8, text: &[Character]) -> Option<(u8, &[Character])>
    ensures { prefixed_at first text.now ≡ seen (λ x. (x.0, x.1.now)) result }
{
    if first != b'L' && first != b'u' && first != b'U' {
        return None;
    }
    match quote_at(text) {
        Some(found) => Some(found),
        None => match byte_at(b'8', text) {
            None => None,
            Some(behind) => match byte_at(b'"', behind) {
                None => None,
                Some(rest) => {
                    if first == b'u' {
                        Some((b'"', rest))
                    } else {
                        None
                    }
                }
            },
        },
    }
}

fn kind_of_quote(quote: u8) -> Kind
    ensures { result ≡ kind_of_quote quote }
{
    if quote == b'"' {
        Kind::Text
    } else {
        Kind::Character
    }
}

// A literal behind its first quote.
#[tactic(auto, unfolding(crate::specs::Pieces::literal_at))]
fn literal_at(quote: u8, text: &[Character]) -> (Option<Kind>, &[Character])
    ensures { (result.0, result.1.now) ≡ literal_at quote text.now }
{
    let (ends, rest) = literal_rest(quote, text);
    if ends {
        (Some(kind_of_quote(quote)), rest)
    } else {
        (Some(Kind::OpenText), rest)
    }
}

// What a letter begins: an identifier, or a literal with a prefix.
#[tactic(auto, unfolding(crate::specs::Pieces::word_at))]
fn word_at(first: u8, text: &[Character]) -> (Option<Kind>, &[Character])
    ensures { (result.0, result.1.now) ≡ word_at first text.now }
{
    match prefixed_at(first, text) {
        None => (Some(Kind::Name), word_rest(text)),
        Some((quote, rest)) => literal_at(quote, rest),
    }
}

// The longest punctuator that the first character of a text begins.
#[tactic(auto, unfolding(crate::specs::Pieces::mark_at))]
fn mark_at<'a>(text: &[Character], behind: &'a [Character]) -> (Option<Kind>, &'a [Character])
    requires { length text.now ≡ length behind.now + 1 }
    ensures { (result.0, result.1.now) ≡ mark_at text.now behind.now }
{
    let length = mark_length(text);
    if length > 1 {
        (Some(Kind::Mark), behind.split_at(length - 1).1)
    } else {
        (Some(Kind::Mark), behind)
    }
}

// What a slash begins: a comment or a punctuator.
#[tactic(auto, unfolding(crate::specs::Pieces::slash_at))]
fn slash_at<'a>(text: &[Character], behind: &'a [Character]) -> (Option<Kind>, &'a [Character])
    requires { length text.now ≡ length behind.now + 1 }
    ensures { (result.0, result.1.now) ≡ slash_at text.now behind.now }
{
    if let Some(comment) = byte_at(b'/', behind) {
        return (None, line_rest(comment));
    }
    match byte_at(b'*', behind) {
        None => mark_at(text, behind),
        Some(comment) => match comment_rest(comment) {
            None => (Some(Kind::OpenText), comment.split_at(comment.len()).1),
            Some(rest) => (None, rest),
        },
    }
}

// What a dot begins: a number or a punctuator.
#[tactic(auto, unfolding(crate::specs::Pieces::dot_at))]
fn dot_at<'a>(text: &[Character], behind: &'a [Character]) -> (Option<Kind>, &'a [Character])
    requires { length text.now ≡ length behind.now + 1 }
    ensures { (result.0, result.1.now) ≡ dot_at text.now behind.now }
{
    if digit_is_next(behind) {
        (Some(Kind::Number), number_rest(behind))
    } else {
        mark_at(text, behind)
    }
}

/// The piece that stands first, the longest that fits, and the rest; white space is no kind.
#[tactic(auto, unfolding(crate::specs::Pieces::piece_at))]
pub fn piece_at(text: &[Character]) -> (Option<Kind>, &[Character])
    ensures { (result.0, result.1.now) ≡ piece_at text.now }
{
    match text.split_first() {
        None => (None, text),
        Some((first, rest)) => match class_of(first.byte) {
            Class::Letter => word_at(first.byte, rest),
            Class::Digit => (Some(Kind::Number), number_rest(rest)),
            Class::Blank => (None, rest),
            Class::LineEnd => (Some(Kind::LineEnd), rest),
            Class::Quote => literal_at(first.byte, rest),
            Class::Slash => slash_at(text, rest),
            Class::Dot => dot_at(text, rest),
            Class::Mark => mark_at(text, rest),
            Class::Backslash => (Some(Kind::Other), rest),
            Class::Foreign => (Some(Kind::ForeignByte), rest),
        },
    }
}

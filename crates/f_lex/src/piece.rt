//! The pieces of a source text: tokens, and what stands between them.

ghost use Rattle.std.specs.Prelude.{◌≡◌, IfOk};
ghost use Rattle.f_lex.specs.Pieces.{text_at, word_at, number_at, dot_at, ampersand_at, piece_at};

use crate::class::{Class, Run, class_at};
use crate::fault::Rule;
use crate::lines::{Context, byte_at, ends_line, goes_on_at, run_at};
use crate::text::{Body, body_at};
use crate::token::{Kind, Mark, Token};
use crate::words::{DotWord, dot_word, kind_at, kind_quote_at, lowered, mark_at};
use std::alloc::{AllocError, Global};

/// A piece of a source text.
#[derive(Drop, Debug)]
pub enum Piece {
    /// Blanks or a comment.
    Blank,
    /// An `&` that continues the statement on a later line, up to where the statement goes on.
    Joined,
    /// An `&` behind which no line is left that the statement could go on in.
    Lost,
    LineEnd,
    Semicolon,
    /// A token, how many of its bytes continue lines, and which rule of texts it breaks.
    Token {
        token: Token,
        passed: usize,
        broken: Option<Rule>,
    },
    /// A byte that no piece begins with, and the rule that it breaks.
    Ill(Rule),
}

fn whole(token: Token) -> Piece
    ensures { result ≡ Piece.Token token 0 None }
{
    Piece::Token {
        token,
        passed: 0,
        broken: None,
    }
}

// A text behind its kind and its first delimiter.
#[tactic(auto, unfolding(crate::specs::Pieces::text_at))]
fn text_at(
    alloc: Global,
    kind: Option<Kind>,
    quote: u8,
    bytes: &[u8],
) -> Result<(Piece, &[u8]), AllocError>
    ensures { IfOk result (λ x. (x.0, x.1.now) ≡ text_at kind quote bytes.now) }
{
    let (body, rest) = body_at(alloc, quote, bytes)?;
    let Body {
        bytes,
        passed,
        broken,
    } = body;
    Ok((
        Piece::Token {
            token: Token::Text { bytes, kind },
            passed,
            broken,
        },
        rest,
    ))
}

// What a letter begins: a name, or a text whose kind is a name.
#[tactic(auto, unfolding(crate::specs::Pieces::word_at))]
fn word_at(alloc: Global, bytes: &[u8]) -> Result<(Piece, &[u8]), AllocError>
    ensures { IfOk result (λ x. (x.0, x.1.now) ≡ word_at bytes.now) }
{
    let (word, rest) = run_at(Run::Word, bytes);
    let name = lowered(alloc, word)?;
    match kind_quote_at(rest) {
        None => Ok((whole(Token::Name(name)), rest)),
        Some((quote, text)) => text_at(alloc, Some(Kind::Name(name)), quote, text),
    }
}

// What a digit begins: a number, or a text whose kind is a number.
#[tactic(auto, unfolding(crate::specs::Pieces::number_at))]
fn number_at(alloc: Global, bytes: &[u8]) -> Result<(Piece, &[u8]), AllocError>
    ensures { IfOk result (λ x. (x.0, x.1.now) ≡ number_at bytes.now) }
{
    let (run, behind) = run_at(Run::Digits, bytes);
    let digits = lowered(alloc, run)?;
    match kind_quote_at(behind) {
        None => {
            let (kind, rest) = kind_at(alloc, behind)?;
            Ok((whole(Token::Number { digits, kind }), rest))
        }
        Some((quote, text)) => text_at(alloc, Some(Kind::Number(digits)), quote, text),
    }
}

// What a dot begins, with what stands behind it: `..`, an operator in letters or a logical value.
#[tactic(auto, unfolding(crate::specs::Pieces::dot_at))]
fn dot_at(alloc: Global, bytes: &[u8]) -> Result<(Piece, &[u8]), AllocError>
    ensures { IfOk result (λ x. (x.0, x.1.now) ≡ dot_at bytes.now) }
{
    if let Some(rest) = byte_at(b'.', bytes) {
        return Ok((whole(Token::Mark(Mark::DotDot)), rest));
    }
    let (letters, end) = run_at(Run::Letters, bytes);
    match byte_at(b'.', end) {
        None => Ok((Piece::Ill(Rule::NoToken), bytes)),
        Some(behind) => {
            let word = lowered(alloc, letters)?;
            match dot_word(word.as_slice()) {
                None => Ok((Piece::Ill(Rule::NoToken), bytes)),
                Some(DotWord::Operator(mark)) => Ok((whole(Token::Mark(mark)), behind)),
                Some(DotWord::Truth(value)) => {
                    let (kind, rest) = kind_at(alloc, behind)?;
                    Ok((whole(Token::Truth { value, kind }), rest))
                }
            }
        }
    }
}

// What an `&` begins, with what stands behind it.
#[tactic(auto, unfolding(crate::specs::Pieces::ampersand_at))]
fn ampersand_at(bytes: &[u8]) -> (Piece, &[u8])
    ensures { (result.0, result.1.now) ≡ ampersand_at bytes.now }
{
    if ends_line(Context::Outside, bytes) {
        match goes_on_at(Context::Outside, bytes) {
            None => (Piece::Lost, bytes),
            Some(rest) => (Piece::Joined, rest),
        }
    } else {
        (Piece::Ill(Rule::NoToken), bytes)
    }
}

/// The piece that stands first, the longest that fits, and the rest.
#[tactic(auto, unfolding(crate::specs::Pieces::piece_at))]
pub fn piece_at(alloc: Global, bytes: &[u8]) -> Result<(Piece, &[u8]), AllocError>
    ensures { IfOk result (λ x. (x.0, x.1.now) ≡ piece_at bytes.now) }
{
    match bytes.split_first() {
        None => Ok((Piece::LineEnd, bytes)),
        Some((byte, rest)) => match class_at(bytes) {
            Class::Letter => word_at(alloc, bytes),
            Class::Digit => number_at(alloc, bytes),
            Class::Quote => text_at(alloc, None, *byte, rest),
            Class::Dot => dot_at(alloc, rest),
            Class::Mark => {
                let (mark, behind) = mark_at(*byte, rest);
                Ok((whole(Token::Mark(mark)), behind))
            }
            Class::Blank => Ok((Piece::Blank, run_at(Run::Blanks, rest).1)),
            Class::Exclamation => Ok((Piece::Blank, run_at(Run::Comment, rest).1)),
            Class::Ampersand => Ok(ampersand_at(rest)),
            Class::LineEnd => Ok((Piece::LineEnd, rest)),
            Class::Semicolon => Ok((Piece::Semicolon, rest)),
            Class::Underscore | Class::Unused => Ok((Piece::Ill(Rule::NoToken), rest)),
            Class::Foreign | Class::Nothing => Ok((Piece::Ill(Rule::ForeignByte), rest)),
        },
    }
}

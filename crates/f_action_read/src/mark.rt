//! Single tokens, and names.

ghost use Rattle.std.specs.Prelude.{◌≡◌, IfOk};
ghost use Rattle.f_grammar.specs.Reading.{open_at, closed_at, comma_at, star_at};
ghost use Rattle.f_grammar.specs.ActionReading.{assign_at, arrow_at};
ghost use Rattle.f_expr_read.specs.Gives.{Gives, seen};
ghost use Rattle.f_expr_read.specs.Views.{tokens_of};

use f_expr_read::{ReadError, closed_at, comma_at, open_at, star_at};
use f_lex::{Mark, Spanned, Token};
use f_tree::{Name, copy_bytes};
use jf_base::{List, Place};
use std::alloc::{AllocError, Global};

/// A name of these bytes at this place.
pub fn copied(alloc: Global, bytes: &List<u8>, place: Place) -> Result<Name, AllocError>
    ensures { IfOk result (λ name. name.bytes ≡ bytes.now) }
{
    let bytes = copy_bytes(alloc, bytes)?;
    Ok(Name { bytes, place })
}

/// What stands behind `=`, where that stands first.
#[tactic(auto, unfolding(f_grammar::specs::ActionReading::assign_at))]
pub fn assign_at(tokens: &[Spanned]) -> Option<&[Spanned]>
    ensures { assign_at (tokens_of tokens.now) ≡ seen (λ x. tokens_of x.now) result }
{
    match tokens {
        [
            Spanned {
                token: Token::Mark(Mark::Assign),
                ..
            },
            rest @ ..,
        ] => Some(rest),
        _ => None,
    }
}

/// What stands behind `=>`, where that stands first.
#[tactic(auto, unfolding(f_grammar::specs::ActionReading::arrow_at))]
pub fn arrow_at(tokens: &[Spanned]) -> Option<&[Spanned]>
    ensures { arrow_at (tokens_of tokens.now) ≡ seen (λ x. tokens_of x.now) result }
{
    match tokens {
        [
            Spanned {
                token: Token::Mark(Mark::Arrow),
                ..
            },
            rest @ ..,
        ] => Some(rest),
        _ => None,
    }
}

/// What stands behind `(`.
pub fn opened(tokens: &[Spanned]) -> Result<&[Spanned], ReadError>
    ensures { Gives (λ x. tokens_of x.now) result (open_at (tokens_of tokens.now)) }
{
    match open_at(tokens) {
        Some((_, rest)) => Ok(rest),
        None => Err(ReadError::Form),
    }
}

/// What stands behind `)`.
pub fn closed(tokens: &[Spanned]) -> Result<&[Spanned], ReadError>
    ensures { Gives (λ x. tokens_of x.now) result (closed_at (tokens_of tokens.now)) }
{
    match closed_at(tokens) {
        Some((_, rest)) => Ok(rest),
        None => Err(ReadError::Form),
    }
}

/// What stands behind `,`.
pub fn comma(tokens: &[Spanned]) -> Result<&[Spanned], ReadError>
    ensures { Gives (λ x. tokens_of x.now) result (comma_at (tokens_of tokens.now)) }
{
    match comma_at(tokens) {
        Some((_, rest)) => Ok(rest),
        None => Err(ReadError::Form),
    }
}

/// What stands behind `*`.
pub fn star(tokens: &[Spanned]) -> Result<&[Spanned], ReadError>
    ensures { Gives (λ x. tokens_of x.now) result (star_at (tokens_of tokens.now)) }
{
    match star_at(tokens) {
        Some((_, rest)) => Ok(rest),
        None => Err(ReadError::Form),
    }
}

//! Single tokens that stand first.

ghost use Rattle.std.specs.Prelude.{◌≡◌, IfOk};
ghost use Rattle.f_grammar.specs.Reading.{name_at};
ghost use Rattle.f_declaration_grammar.specs.DeclarationReading.{this_at, dots_at, text_at, maybe_colons_at};
ghost use Rattle.f_expr_read.specs.Gives.{Gives, seen};
ghost use Rattle.f_expr_read.specs.Views.{tokens_of};

use f_action_read::copied;
use f_expr_read::{ReadError, colons_at, name_at};
use f_lex::{Mark, Spanned, Token};
use f_tree::{BindingName, Name, copy_bytes, copy_kind};
use jf_base::Place;
use std::alloc::Global;

/// The place of this word where it stands first, and what stands behind it.
#[tactic(auto, unfolding(f_declaration_grammar::specs::DeclarationReading::this_at))]
pub fn this_at<'a>(word: &str, tokens: &'a [Spanned]) -> Option<(Place, &'a [Spanned])>
    ensures { this_at word.now (tokens_of tokens.now) ≡ seen (λ x. tokens_of x.1.now) result }
{
    match name_at(tokens) {
        None => None,
        Some((name, place, rest)) => {
            if name.as_slice() == word.as_bytes() {
                Some((place, rest))
            } else {
                None
            }
        }
    }
}

/// The place of this word, which is due, and what stands behind it.
pub fn this<'a>(word: &str, tokens: &'a [Spanned]) -> Result<(Place, &'a [Spanned]), ReadError>
    ensures { Gives (λ x. tokens_of x.1.now) result (this_at word.now (tokens_of tokens.now)) }
{
    match this_at(word, tokens) {
        Some((place, rest)) => Ok((place, rest)),
        None => Err(ReadError::Form),
    }
}

/// The name that is due, and what stands behind it.
pub fn name(alloc: Global, tokens: &[Spanned]) -> Result<(Name, &[Spanned]), ReadError>
    ensures { Gives (λ x. (x.0.bytes, tokens_of x.1.now)) result (name_at (tokens_of tokens.now)) }
{
    match name_at(tokens) {
        None => Err(ReadError::Form),
        Some((bytes, place, rest)) => {
            let name = copied(alloc, bytes, place)?;
            Ok((name, rest))
        }
    }
}

/// The place of `..` where it stands first, and what stands behind it.
#[tactic(auto, unfolding(f_declaration_grammar::specs::DeclarationReading::dots_at))]
pub fn dots_at(tokens: &[Spanned]) -> Option<(Place, &[Spanned])>
    ensures { dots_at (tokens_of tokens.now) ≡ seen (λ x. tokens_of x.1.now) result }
{
    match tokens {
        [
            Spanned {
                token: Token::Mark(Mark::DotDot),
                place,
                ..
            },
            rest @ ..,
        ] => Some((*place, rest)),
        _ => None,
    }
}

/// The text of a label that is due, and what stands behind it.
#[tactic(auto, unfolding(f_declaration_grammar::specs::DeclarationReading::text_at))]
pub fn text(alloc: Global, tokens: &[Spanned]) -> Result<(BindingName, &[Spanned]), ReadError>
    ensures { Gives (λ x. ((x.0.bytes, x.0.kind), tokens_of x.1.now)) result (text_at (tokens_of tokens.now)) }
{
    match tokens {
        [
            Spanned {
                token: Token::Text { bytes, kind },
                place,
                ..
            },
            rest @ ..,
        ] => {
            let bytes = copy_bytes(alloc, bytes)?;
            let kind = copy_kind(alloc, kind)?;
            let place = *place;
            Ok((BindingName { bytes, kind, place }, rest))
        }
        _ => Err(ReadError::Form),
    }
}

/// Whether `::` stands first, and what stands behind it where it does.
#[tactic(auto, unfolding(f_declaration_grammar::specs::DeclarationReading::maybe_colons_at))]
pub fn maybe_colons(tokens: &[Spanned]) -> (bool, &[Spanned])
    ensures { (result.0, tokens_of result.1.now) ≡ maybe_colons_at (tokens_of tokens.now) }
{
    match colons_at(tokens) {
        None => (false, tokens),
        Some((_, rest)) => (true, rest),
    }
}

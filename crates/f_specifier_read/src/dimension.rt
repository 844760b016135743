//! Dimensions of array specifications (ISO/IEC 1539-1:2018, 8.5.8).

ghost use Rattle.std.specs.Prelude.{◌≡◌, map};
ghost use Rattle.f_declaration_grammar.specs.DeclarationReading.{dim_behind, dims_at, maybe_dims_at};
ghost use Rattle.f_expr_read.specs.Gives.{Gives};
ghost use Rattle.f_expr_read.specs.Views.{tokens_of, view};
ghost use Rattle.f_declared.specs.Views.{view_dimension, view_dimensions};

use crate::list::{Parse, listed};
use crate::word::dots_at;
use f_action_read::closed;
use f_expr_read::{ReadError, colon_at, ends_bound, open_at, read_expression, star_at};
use f_lex::Spanned;
use f_tree::{Dimension, Expression};
use jf_base::List;
use std::alloc::Global;

// A dimension that begins with this bound.
#[tactic(auto, unfolding(f_declaration_grammar::specs::DeclarationReading::dim_behind))]
fn behind_bound(
    alloc: Global,
    first: Expression,
    tokens: &[Spanned],
) -> Result<(Dimension, &[Spanned]), ReadError>
    ensures { Gives (λ x. (view_dimension x.0, tokens_of x.1.now)) result (dim_behind 65 (view first, tokens_of tokens.now)) }
{
    match colon_at(tokens) {
        None => Ok((Dimension::Upper(first), tokens)),
        Some((place, rest)) => match star_at(rest) {
            Some((place, rest)) => {
                let lower = Some(first);
                Ok((Dimension::AssumedSize { lower, place }, rest))
            }
            None => {
                if ends_bound(rest) {
                    let lower = Some(first);
                    Ok((Dimension::Deferred { lower, place }, rest))
                } else {
                    let (upper, rest) = read_expression(alloc, rest)?;
                    Ok((Dimension::Bounds(first, upper), rest))
                }
            }
        },
    }
}

impl Parse for Dimension {
    ghost use Rattle.f_declaration_grammar.specs.Declarations.{Dim};
    ghost use Rattle.f_declaration_grammar.specs.DeclarationReading.{dim_at};
    ghost use Rattle.f_declared.specs.Views.{view_dimension};

    ghost Seen = { Dim };

    ghost seen = { view_dimension };

    ghost one = { dim_at 65 };

    #[tactic(auto, unfolding(f_declaration_grammar::specs::DeclarationReading::dim_at))]
    fn parse(alloc: Global, tokens: &[Spanned]) -> Result<(Dimension, &[Spanned]), ReadError> {
        match dots_at(tokens) {
            Some((place, rest)) => Ok((Dimension::AssumedRank { place }, rest)),
            None => match star_at(tokens) {
                Some((place, rest)) => Ok((Dimension::AssumedSize { lower: None, place }, rest)),
                None => match colon_at(tokens) {
                    Some((place, rest)) => Ok((Dimension::Deferred { lower: None, place }, rest)),
                    None => {
                        let (first, rest) = read_expression(alloc, tokens)?;
                        behind_bound(alloc, first, rest)
                    }
                },
            },
        }
    }
}

/// Dimensions behind their `(`, and what stands behind their `)`.
#[tactic(auto, unfolding(f_declaration_grammar::specs::DeclarationReading::dims_at))]
pub fn dimensions(
    alloc: Global,
    tokens: &[Spanned],
) -> Result<(List<Dimension>, &[Spanned]), ReadError>
    ensures { Gives (λ x. (map view_dimension x.0, tokens_of x.1.now)) result (dims_at 65 (tokens_of tokens.now)) }
{
    let (dimensions, rest) = listed(alloc, tokens)?;
    let rest = closed(rest)?;
    Ok((dimensions, rest))
}

/// Dimensions in parentheses, where `(` stands first, and what stands behind them.
#[tactic(auto, unfolding(f_declaration_grammar::specs::DeclarationReading::maybe_dims_at))]
pub fn maybe_dimensions(
    alloc: Global,
    tokens: &[Spanned],
) -> Result<(Option<List<Dimension>>, &[Spanned]), ReadError>
    ensures { Gives (λ x. (view_dimensions x.0, tokens_of x.1.now)) result (maybe_dims_at 65 (tokens_of tokens.now)) }
{
    match open_at(tokens) {
        None => Ok((None, tokens)),
        Some((_, rest)) => {
            let (dimensions, rest) = dimensions(alloc, rest)?;
            Ok((Some(dimensions), rest))
        }
    }
}

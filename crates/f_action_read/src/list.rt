//! Lists of references and of expressions.

ghost use Rattle.std.specs.Prelude.{◌≡◌, ◌∷◌, IfOk, map, length};
ghost use Rattle.f_grammar.specs.ActionReading.{refs_at, exprs_at, status_at};
ghost use Rattle.f_expr_read.specs.Gives.{Gives, seen};
ghost use Rattle.f_expr_read.specs.Views.{tokens_of, view, view_reference};
ghost use Rattle.f_action_read.specs.Actions.{refs_of, exprs_of, view_status, next_at};

use f_expr_read::{ReadError, comma_at, read_expression, read_reference, word_at};
use f_lex::Spanned;
use f_tree::{Expression, Reference};
use jf_base::List;
use std::alloc::{AllocError, Global};

// What stands behind a comma, unless this word and `=` do.
fn next_at<'a>(word: &str, tokens: &'a [Spanned]) -> Option<&'a [Spanned]>
    ensures { next_at word.now (tokens_of tokens.now) ≡ seen (λ x. tokens_of x.now) result }
{
    match comma_at(tokens) {
        None => None,
        Some((_, rest)) => match word_at(word, rest) {
            None => Some(rest),
            Some(_) => None,
        },
    }
}

/// References with a comma before each, up to one behind which this word and `=` stand.
pub fn references<'a>(
    alloc: Global,
    word: &str,
    tokens: &'a [Spanned],
) -> Result<(Vec<Reference>, &'a [Spanned]), ReadError>
    ensures { Gives (λ x. (refs_of (map view_reference x.0.items), tokens_of x.1.now)) result (refs_at 65 word.now (length tokens.now) (tokens_of tokens.now)) }
{
    let mut items = Vec::new(alloc);
    let mut rest = tokens;
    for _ in 0..tokens.len() {
        match next_at(word, rest) {
            None => return Ok((items, rest)),
            Some(after) => {
                let (value, after) = read_reference(alloc, after)?;
                items.push(value)?;
                rest = after;
            }
        }
    }
    Ok((items, rest))
}

/// Expressions with a comma before each.
pub fn expressions(
    alloc: Global,
    tokens: &[Spanned],
) -> Result<(Vec<Expression>, &[Spanned]), ReadError>
    ensures { Gives (λ x. (exprs_of (map view x.0.items), tokens_of x.1.now)) result (exprs_at 65 (length tokens.now) (tokens_of tokens.now)) }
{
    let mut items = Vec::new(alloc);
    let mut rest = tokens;
    for _ in 0..tokens.len() {
        match comma_at(rest) {
            None => return Ok((items, rest)),
            Some((_, after)) => {
                let (value, after) = read_expression(alloc, after)?;
                items.push(value)?;
                rest = after;
            }
        }
    }
    Ok((items, rest))
}

/// A variable behind a comma, this word and `=`, where a comma stands first.
#[tactic(auto, unfolding(f_grammar::specs::ActionReading::status_at))]
pub fn status<'a>(
    alloc: Global,
    word: &str,
    tokens: &'a [Spanned],
) -> Result<(Option<Reference>, &'a [Spanned]), ReadError>
    ensures { Gives (λ x. (view_status x.0, tokens_of x.1.now)) result (status_at 65 word.now (tokens_of tokens.now)) }
{
    match comma_at(tokens) {
        None => Ok((None, tokens)),
        Some((_, rest)) => match word_at(word, rest) {
            None => Err(ReadError::Form),
            Some((_, rest)) => {
                let (variable, rest) = read_reference(alloc, rest)?;
                Ok((Some(variable), rest))
            }
        },
    }
}

/// The first of some references in front of the others.
pub fn in_front(first: Reference, others: Vec<Reference>) -> Result<List<Reference>, AllocError>
    ensures { IfOk result (λ all. all ≡ first ∷ others.items) }
{
    let mut all = others;
    all.insert(0, first)?;
    Ok(List::from_vec(all))
}

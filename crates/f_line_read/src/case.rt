//! CASE, RANK and SELECT statements.

ghost use Rattle.std.specs.Prelude.{◌≡◌, ◌∷◌, IfOk, map, length};
ghost use Rattle.f_line_grammar.specs.LineReading.{ends_line, ends_with, span_at, spans_at, behind_lower, cases_at, case_at, rank_value_at, rank_at, selector_ends, select_rank_at, select_at, test_at, tested_line};
ghost use Rattle.f_line_grammar.specs.Lines as form;
ghost use Rattle.f_grammar.specs.Reading.{name_at, upper_at, expr_at};
ghost use Rattle.f_expr_read.specs.Gives.{Gives};
ghost use Rattle.f_expr_read.specs.Views.{tokens_of, view, view_maybe, keyword_of};
ghost use Rattle.f_line_read.specs.Lines.{view_line, view_range, spans_of, cases_of};
ghost use Rattle.f_line_read.specs.Words.{cases_end, cases_behind};

use crate::line::Line;
use f_action_read::{arrow_at, closed, copied, opened};
use f_expr_read::{
    ReadError, colon_at, comma_at, ends_bound, name_at, open_at, read_expression, star_at,
};
use f_lex::Spanned;
use f_tree::{CaseChoice, CaseRange, Expression, Name, RankChoice};
use jf_base::{List, Place};
use std::alloc::{AllocError, Global};

/// Nothing stands behind what was read.
#[tactic(auto, unfolding(f_line_grammar::specs::LineReading::ends_line))]
pub fn ended(line: Line, tokens: &[Spanned]) -> Result<Line, ReadError>
    ensures { Gives view_line result (ends_line (view_line line) (tokens_of tokens.now)) }
{
    match tokens {
        [] => Ok(line),
        [_, ..] => Err(ReadError::Form),
    }
}

/// This word is all that stands behind what was read.
#[tactic(auto, unfolding(f_line_grammar::specs::LineReading::ends_with))]
pub fn ended_with(word: &str, line: Line, tokens: &[Spanned]) -> Result<Line, ReadError>
    ensures { Gives view_line result (ends_with word.now (view_line line) (tokens_of tokens.now)) }
{
    match name_at(tokens) {
        None => Err(ReadError::Form),
        Some((name, _, rest)) => {
            if name.as_slice() == word.as_bytes() {
                ended(line, rest)
            } else {
                Err(ReadError::Form)
            }
        }
    }
}

/// An expression in parentheses, and what stands behind it.
#[tactic(auto, unfolding(f_line_grammar::specs::LineReading::test_at))]
pub fn test(alloc: Global, tokens: &[Spanned]) -> Result<(Expression, &[Spanned]), ReadError>
    ensures { Gives (λ x. (view x.0, tokens_of x.1.now)) result (test_at 65 (tokens_of tokens.now)) }
{
    let rest = opened(tokens)?;
    let (condition, rest) = read_expression(alloc, rest)?;
    let rest = closed(rest)?;
    Ok((condition, rest))
}

// The upper bound of a range, where there is one.
#[tactic(auto, unfolding(f_grammar::specs::Reading::upper_at))]
fn upper(alloc: Global, tokens: &[Spanned]) -> Result<(Option<Expression>, &[Spanned]), ReadError>
    ensures { Gives (λ x. (view_maybe x.0, tokens_of x.1.now)) result (upper_at (expr_at 65) (tokens_of tokens.now)) }
{
    if ends_bound(tokens) {
        return Ok((None, tokens));
    }
    let (bound, rest) = read_expression(alloc, tokens)?;
    Ok((Some(bound), rest))
}

// A value, or a range that begins with one.
#[tactic(auto, unfolding(f_line_grammar::specs::LineReading::behind_lower))]
fn behind_lower<'a>(
    alloc: Global,
    lower: Expression,
    tokens: &'a [Spanned],
) -> Result<(CaseRange, &'a [Spanned]), ReadError>
    ensures { Gives (λ x. (view_range x.0, tokens_of x.1.now)) result (behind_lower 65 (view lower, tokens_of tokens.now)) }
{
    match colon_at(tokens) {
        None => Ok((CaseRange::Value(lower), tokens)),
        Some((_, rest)) => {
            let (upper, rest) = upper(alloc, rest)?;
            Ok((CaseRange::From { lower, upper }, rest))
        }
    }
}

#[tactic(auto, unfolding(f_line_grammar::specs::LineReading::span_at))]
fn range(alloc: Global, tokens: &[Spanned]) -> Result<(CaseRange, &[Spanned]), ReadError>
    ensures { Gives (λ x. (view_range x.0, tokens_of x.1.now)) result (span_at 65 (tokens_of tokens.now)) }
{
    match colon_at(tokens) {
        Some((place, rest)) => {
            let (upper, rest) = read_expression(alloc, rest)?;
            Ok((CaseRange::UpTo { place, upper }, rest))
        }
        None => {
            let (lower, rest) = read_expression(alloc, tokens)?;
            behind_lower(alloc, lower, rest)
        }
    }
}

// Ranges with a comma before each.
fn ranges(alloc: Global, tokens: &[Spanned]) -> Result<(Vec<CaseRange>, &[Spanned]), ReadError>
    ensures { Gives (λ x. (spans_of (map view_range x.0.items), tokens_of x.1.now)) result (spans_at 65 (length tokens.now) (tokens_of tokens.now)) }
{
    let mut items = Vec::new(alloc);
    let mut rest = tokens;
    for _ in 0..tokens.len() {
        match comma_at(rest) {
            None => return Ok((items, rest)),
            Some((_, after)) => {
                let (value, after) = range(alloc, after)?;
                items.push(value)?;
                rest = after;
            }
        }
    }
    Ok((items, rest))
}

fn in_front(first: CaseRange, others: Vec<CaseRange>) -> Result<List<CaseRange>, AllocError>
    ensures { IfOk result (λ all. all ≡ first ∷ others.items) }
{
    let mut all = others;
    all.insert(0, first)?;
    Ok(List::from_vec(all))
}

// The end of CASE behind its ranges.
#[tactic(auto, unfolding(crate::specs::Words::cases_end))]
fn cases_end(place: Place, all: List<CaseRange>, tokens: &[Spanned]) -> Result<Line, ReadError>
    ensures { Gives view_line result (cases_end (cases_of (map view_range all)) (tokens_of tokens.now)) }
{
    let rest = closed(tokens)?;
    let choice = CaseChoice::Ranges(all);
    ended(Line::Case { place, choice }, rest)
}

// The ranges of a case behind the first.
#[tactic(auto, unfolding(crate::specs::Words::cases_behind))]
fn cases_behind(
    alloc: Global,
    place: Place,
    first: CaseRange,
    tokens: &[Spanned],
) -> Result<Line, ReadError>
    ensures { Gives view_line result (cases_behind 65 (view_range first) (tokens_of tokens.now)) }
{
    let (others, rest) = ranges(alloc, tokens)?;
    let all = in_front(first, others)?;
    cases_end(place, all, rest)
}

// The ranges of a case behind their `(`.
#[tactic(auto, unfolding(f_line_grammar::specs::LineReading::cases_at, crate::specs::Words::cases_behind, crate::specs::Words::cases_end))]
fn cases(alloc: Global, place: Place, tokens: &[Spanned]) -> Result<Line, ReadError>
    ensures { Gives view_line result (cases_at 65 (tokens_of tokens.now)) }
{
    let (first, rest) = range(alloc, tokens)?;
    cases_behind(alloc, place, first, rest)
}

/// CASE behind its word.
#[tactic(auto, unfolding(f_line_grammar::specs::LineReading::case_at))]
pub fn case(alloc: Global, place: Place, tokens: &[Spanned]) -> Result<Line, ReadError>
    ensures { Gives view_line result (case_at 65 (tokens_of tokens.now)) }
{
    match open_at(tokens) {
        Some((_, rest)) => cases(alloc, place, rest),
        None => {
            let choice = CaseChoice::Default;
            ended_with("default", Line::Case { place, choice }, tokens)
        }
    }
}

// The rank of a block behind its `(`.
#[tactic(auto, unfolding(f_line_grammar::specs::LineReading::rank_value_at))]
fn rank_value(alloc: Global, place: Place, tokens: &[Spanned]) -> Result<Line, ReadError>
    ensures { Gives view_line result (rank_value_at 65 (tokens_of tokens.now)) }
{
    match star_at(tokens) {
        Some((at, rest)) => {
            let rest = closed(rest)?;
            let choice = RankChoice::AssumedSize { place: at };
            ended(Line::Rank { place, choice }, rest)
        }
        None => {
            let (value, rest) = read_expression(alloc, tokens)?;
            let rest = closed(rest)?;
            let choice = RankChoice::Rank(value);
            ended(Line::Rank { place, choice }, rest)
        }
    }
}

/// RANK behind its word.
#[tactic(auto, unfolding(f_line_grammar::specs::LineReading::rank_at))]
pub fn rank(alloc: Global, place: Place, tokens: &[Spanned]) -> Result<Line, ReadError>
    ensures { Gives view_line result (rank_at 65 (tokens_of tokens.now)) }
{
    match open_at(tokens) {
        Some((_, rest)) => rank_value(alloc, place, rest),
        None => {
            let choice = RankChoice::Default;
            ended_with("default", Line::Rank { place, choice }, tokens)
        }
    }
}

// The end of SELECT RANK behind its selector.
#[tactic(auto, unfolding(f_line_grammar::specs::LineReading::selector_ends))]
fn selector_ended(
    place: Place,
    renamed: Option<Name>,
    selector: Name,
    tokens: &[Spanned],
) -> Result<Line, ReadError>
    ensures { Gives view_line result (selector_ends (keyword_of renamed) selector.bytes (tokens_of tokens.now)) }
{
    let rest = closed(tokens)?;
    ended(
        Line::SelectRank {
            place,
            renamed,
            selector,
        },
        rest,
    )
}

// A name and its place, and what stands behind it.
fn named(alloc: Global, tokens: &[Spanned]) -> Result<(Name, &[Spanned]), ReadError>
    ensures { Gives (λ x. (x.0.bytes, tokens_of x.1.now)) result (name_at (tokens_of tokens.now)) }
{
    match name_at(tokens) {
        None => Err(ReadError::Form),
        Some((bytes, place, rest)) => Ok((copied(alloc, bytes, place)?, rest)),
    }
}

#[tactic(auto, unfolding(f_line_grammar::specs::LineReading::select_rank_at))]
fn select_rank(alloc: Global, place: Place, tokens: &[Spanned]) -> Result<Line, ReadError>
    ensures { Gives view_line result (select_rank_at (tokens_of tokens.now)) }
{
    let rest = opened(tokens)?;
    let (first, rest) = named(alloc, rest)?;
    match arrow_at(rest) {
        None => selector_ended(place, None, first, rest),
        Some(rest) => {
            let (selector, rest) = named(alloc, rest)?;
            selector_ended(place, Some(first), selector, rest)
        }
    }
}

/// SELECT CASE behind its words.
#[tactic(auto, unfolding(f_line_grammar::specs::LineReading::tested_line))]
pub fn select_case(
    alloc: Global,
    place: Place,
    is_one_word: bool,
    tokens: &[Spanned],
) -> Result<Line, ReadError>
    ensures { Gives view_line result (tested_line 65 (form.SelectCase is_one_word) (tokens_of tokens.now)) }
{
    let (selector, rest) = test(alloc, tokens)?;
    ended(
        Line::SelectCase {
            place,
            is_one_word,
            selector,
        },
        rest,
    )
}

/// SELECT behind its word.
#[tactic(auto, unfolding(f_line_grammar::specs::LineReading::select_at))]
pub fn select(alloc: Global, place: Place, tokens: &[Spanned]) -> Result<Line, ReadError>
    ensures { Gives view_line result (select_at 65 (tokens_of tokens.now)) }
{
    match name_at(tokens) {
        None => Err(ReadError::Form),
        Some((word, _, rest)) => {
            let word = word.as_slice();
            if word == "case".as_bytes() {
                return select_case(alloc, place, false, rest);
            }
            if word == "rank".as_bytes() {
                return select_rank(alloc, place, rest);
            }
            Err(ReadError::Form)
        }
    }
}

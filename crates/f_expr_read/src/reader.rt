//! From tokens to trees. Each function reads what stands first and answers it with the tokens behind it.

ghost use Rattle.std.specs.Prelude.{◌≡◌, ◌<◌, ◌≤◌, ◌∷◌, [], map, length, true, false};
ghost use Rattle.f_grammar.specs.Reading.{closed_at, end_at, expr_at, level_at, links_at, most_links, primary_at, items_at, typed_items_at, args_at, others_at, arg_at, subscript_at, behind_first, section_at, upper_at, lower_at, stride_at, range_at, substring_at, behind_name, part_at, parts_at, refer_at};
ghost use Rattle.f_grammar.specs.Grammar.{arg, part};
ghost use Rattle.f_expr_read.specs.Gives.{Gives, behind, parenthesized_at, plain_items};
ghost use Rattle.f_expr_read.specs.Views.{tokens_of, view, view_link, view_reference, view_part, view_range, view_argument, view_maybe, view_substring, links_of, parts_of, args_of, items_of, item};

use crate::error::ReadError;
use crate::made::{
    chain, constructor, kind, link, parenthesized, present, range, section, strided,
};
use crate::types::type_spec;
use crate::word::{
    begins_colon, begins_typed, closed_at, colon_at, colons_at, comma_at, end_at, ends_bound,
    key_at, link_at, name_at, open_at, percent_at, sign_at,
};
use f_lex::{Mark, Spanned, Token};
use f_tree::{Argument, Expression, Link, Name, Part, Range, Reference, copy_bytes, copy_kind};
use jf_base::{Boxed, List, Place};
use std::alloc::Global;

/// The tokens behind `)`.
pub fn closed(tokens: &[Spanned]) -> Result<&[Spanned], ReadError>
    ensures { Gives (λ x. tokens_of x.now) result (closed_at (tokens_of tokens.now)) }
{
    match closed_at(tokens) {
        Some((_, rest)) => Ok(rest),
        None => Err(ReadError::Form),
    }
}

fn ended(in_call: bool, tokens: &[Spanned]) -> Result<&[Spanned], ReadError>
    ensures { Gives (λ x. tokens_of x.now) result (end_at in_call (tokens_of tokens.now)) }
{
    match end_at(in_call, tokens) {
        Some(rest) => Ok(rest),
        None => Err(ReadError::Form),
    }
}

// An expression within so many nestings, its own counted.
#[cycle(reader)]
#[tactic(auto, unfolding(f_grammar::specs::Reading::expr_at))]
pub fn expression(
    alloc: Global,
    depth: u32,
    tokens: &[Spanned],
) -> Result<(Expression, &[Spanned]), ReadError>
    ensures { Gives (λ x. (view x.0, tokens_of x.1.now)) result (expr_at depth (tokens_of tokens.now)) }
{
    if depth == 0 {
        return Err(ReadError::Form);
    }
    level(alloc, depth - 1, 9, tokens)
}

// An expression of at most this height.
#[cycle(reader)]
#[tactic(auto, unfolding(f_grammar::specs::Reading::level_at))]
fn level<'a>(
    alloc: Global,
    depth: u32,
    height: u8,
    tokens: &'a [Spanned],
) -> Result<(Expression, &'a [Spanned]), ReadError>
    requires { height ≤ 9 }
    ensures { Gives (λ x. (view x.0, tokens_of x.1.now)) result (level_at (primary_at (expr_at depth)) height (tokens_of tokens.now)) }
{
    if height == 0 {
        return primary(alloc, depth, tokens);
    }
    let below = height - 1;
    let (sign, rest) = sign_at(below, tokens);
    let (first, rest) = level(alloc, depth, below, rest)?;
    let (links, rest) = links(alloc, depth, below, rest)?;
    Ok((chain(alloc, below, sign, first, links)?, rest))
}

// The links of a chain of this level.
#[cycle(reader)]
fn links<'a>(
    alloc: Global,
    depth: u32,
    height: u8,
    tokens: &'a [Spanned],
) -> Result<(Vec<Link>, &'a [Spanned]), ReadError>
    requires { height < 9 }
    ensures { Gives (λ x. (links_of (map view_link x.0.items), tokens_of x.1.now)) result (links_at (level_at (primary_at (expr_at depth)) height) height (most_links height (tokens_of tokens.now)) (tokens_of tokens.now)) }
{
    let mut links = Vec::new(alloc);
    let mut rest = tokens;
    let most = if height == 4 { 1 } else { tokens.len() };
    for _ in 0..most {
        match link_at(height, rest) {
            None => return Ok((links, rest)),
            Some((operator, after)) => {
                let (operand, after) = level(alloc, depth, height, after)?;
                let one = link(operator, operand);
                links.push(one)?;
                rest = after;
            }
        }
    }
    Ok((links, rest))
}

#[cycle(reader)]
#[tactic(auto, unfolding(f_grammar::specs::Reading::primary_at))]
fn primary(
    alloc: Global,
    depth: u32,
    tokens: &[Spanned],
) -> Result<(Expression, &[Spanned]), ReadError>
    ensures { Gives (λ x. (view x.0, tokens_of x.1.now)) result (primary_at (expr_at depth) (tokens_of tokens.now)) }
{
    match tokens.split_first() {
        Some((first, rest)) => match &first.token {
            Token::Number { digits, kind } => {
                let digits = copy_bytes(alloc, digits)?;
                let kind = copy_kind(alloc, kind)?;
                let place = first.place;
                Ok((
                    Expression::Number {
                        digits,
                        kind,
                        place,
                    },
                    rest,
                ))
            }
            Token::Truth { value, kind } => {
                let kind = copy_kind(alloc, kind)?;
                let value = *value;
                let place = first.place;
                Ok((Expression::Truth { value, kind, place }, rest))
            }
            Token::Text { bytes, kind } => {
                let bytes = copy_bytes(alloc, bytes)?;
                let kind = copy_kind(alloc, kind)?;
                let place = first.place;
                Ok((Expression::Text { bytes, kind, place }, rest))
            }
            Token::Name(_) => {
                let (r, rest) = reference(alloc, depth, tokens)?;
                Ok((Expression::Reference(r), rest))
            }
            Token::Mark(Mark::Open) => parentheses(alloc, depth, first.place, rest),
            Token::Mark(Mark::OpenBracket) => items(alloc, depth, first.place, rest),
            _ => Err(ReadError::Form),
        },
        None => Err(ReadError::Form),
    }
}

// An expression behind its `(`.
#[cycle(reader)]
fn parentheses<'a>(
    alloc: Global,
    depth: u32,
    place: Place,
    tokens: &'a [Spanned],
) -> Result<(Expression, &'a [Spanned]), ReadError>
    ensures { Gives (λ x. (view x.0, tokens_of x.1.now)) result (parenthesized_at (expr_at depth) (tokens_of tokens.now)) }
{
    let (inner, rest) = expression(alloc, depth, tokens)?;
    let rest = closed(rest)?;
    Ok((parenthesized(alloc, place, inner)?, rest))
}

// A constructor behind its `[`.
#[cycle(reader)]
#[tactic(auto, unfolding(f_grammar::specs::Reading::items_at))]
fn items<'a>(
    alloc: Global,
    depth: u32,
    place: Place,
    tokens: &'a [Spanned],
) -> Result<(Expression, &'a [Spanned]), ReadError>
    ensures { Gives (λ x. (view x.0, tokens_of x.1.now)) result (items_at (expr_at depth) (tokens_of tokens.now)) }
{
    if begins_typed(tokens) {
        typed_items(alloc, depth, place, tokens)
    } else {
        plain_items(alloc, depth, place, tokens)
    }
}

#[cycle(reader)]
#[tactic(auto, unfolding(f_grammar::specs::Reading::typed_items_at))]
fn typed_items<'a>(
    alloc: Global,
    depth: u32,
    place: Place,
    tokens: &'a [Spanned],
) -> Result<(Expression, &'a [Spanned]), ReadError>
    ensures { Gives (λ x. (view x.0, tokens_of x.1.now)) result (typed_items_at (expr_at depth) (tokens_of tokens.now)) }
{
    let (declared, rest) = type_spec(alloc, depth, tokens)?;
    match colons_at(rest) {
        None => Err(ReadError::Form),
        Some((_, rest)) => {
            let (items, rest) = item_list(alloc, depth, rest)?;
            let declared = Boxed::new(alloc, declared)?;
            let items = List::from_vec(items);
            Ok((constructor(place, Some(declared), items), rest))
        }
    }
}

#[cycle(reader)]
#[tactic(auto, unfolding(f_grammar::specs::Reading::args_at))]
fn plain_items<'a>(
    alloc: Global,
    depth: u32,
    place: Place,
    tokens: &'a [Spanned],
) -> Result<(Expression, &'a [Spanned]), ReadError>
    ensures { Gives (λ x. (view x.0, tokens_of x.1.now)) result (plain_items (expr_at depth) (tokens_of tokens.now)) }
{
    match end_at(false, tokens) {
        Some(_) => Err(ReadError::Form),
        None => {
            let (items, rest) = item_list(alloc, depth, tokens)?;
            let items = List::from_vec(items);
            Ok((constructor(place, None, items), rest))
        }
    }
}

// Items and their `]`.
#[cycle(reader)]
#[tactic(auto, unfolding(f_grammar::specs::Reading::args_at, f_grammar::specs::Reading::arg_at))]
fn item_list(
    alloc: Global,
    depth: u32,
    tokens: &[Spanned],
) -> Result<(Vec<Expression>, &[Spanned]), ReadError>
    ensures { Gives (λ x. (items_of (map view x.0.items), tokens_of x.1.now)) result (args_at (expr_at depth) false (tokens_of tokens.now)) }
{
    match end_at(false, tokens) {
        Some(rest) => Ok((Vec::new(alloc), rest)),
        None => {
            let (first, rest) = expression(alloc, depth, tokens)?;
            let (items, rest) = more_items(alloc, depth, first, rest)?;
            let rest = ended(false, rest)?;
            Ok((items, rest))
        }
    }
}

#[cycle(reader)]
fn more_items<'a>(
    alloc: Global,
    depth: u32,
    first: Expression,
    tokens: &'a [Spanned],
) -> Result<(Vec<Expression>, &'a [Spanned]), ReadError>
    ensures { Gives (λ x. (items_of (map view x.0.items), tokens_of x.1.now)) result (behind item (view first ∷ []) (others_at (expr_at depth) false (length tokens.now) (tokens_of tokens.now))) }
{
    let mut items = Vec::new(alloc);
    items.push(first)?;
    let mut rest = tokens;
    for _ in 0..tokens.len() {
        match comma_at(rest) {
            None => return Ok((items, rest)),
            Some((_, after)) => {
                let (value, after) = expression(alloc, depth, after)?;
                items.push(value)?;
                rest = after;
            }
        }
    }
    Ok((items, rest))
}

// Arguments and their `)`.
#[cycle(reader)]
#[tactic(auto, unfolding(f_grammar::specs::Reading::args_at))]
fn arguments(
    alloc: Global,
    depth: u32,
    tokens: &[Spanned],
) -> Result<(Vec<Argument>, &[Spanned]), ReadError>
    ensures { Gives (λ x. (args_of (map view_argument x.0.items), tokens_of x.1.now)) result (args_at (expr_at depth) true (tokens_of tokens.now)) }
{
    match end_at(true, tokens) {
        Some(rest) => Ok((Vec::new(alloc), rest)),
        None => {
            let (first, rest) = argument(alloc, depth, tokens)?;
            let (items, rest) = more_arguments(alloc, depth, first, rest)?;
            let rest = ended(true, rest)?;
            Ok((items, rest))
        }
    }
}

#[cycle(reader)]
fn more_arguments<'a>(
    alloc: Global,
    depth: u32,
    first: Argument,
    tokens: &'a [Spanned],
) -> Result<(Vec<Argument>, &'a [Spanned]), ReadError>
    ensures { Gives (λ x. (args_of (map view_argument x.0.items), tokens_of x.1.now)) result (behind arg (view_argument first ∷ []) (others_at (expr_at depth) true (length tokens.now) (tokens_of tokens.now))) }
{
    let mut items = Vec::new(alloc);
    items.push(first)?;
    let mut rest = tokens;
    for _ in 0..tokens.len() {
        match comma_at(rest) {
            None => return Ok((items, rest)),
            Some((_, after)) => {
                let (value, after) = argument(alloc, depth, after)?;
                items.push(value)?;
                rest = after;
            }
        }
    }
    Ok((items, rest))
}

#[cycle(reader)]
#[tactic(auto, unfolding(f_grammar::specs::Reading::arg_at))]
fn argument(
    alloc: Global,
    depth: u32,
    tokens: &[Spanned],
) -> Result<(Argument, &[Spanned]), ReadError>
    ensures { Gives (λ x. (view_argument x.0, tokens_of x.1.now)) result (arg_at (expr_at depth) true (tokens_of tokens.now)) }
{
    match key_at(tokens) {
        None => subscript(alloc, depth, tokens),
        Some((name, place, rest)) => {
            let bytes = copy_bytes(alloc, name)?;
            let keyword = Some(Name { bytes, place });
            let (value, rest) = expression(alloc, depth, rest)?;
            Ok((Argument::Value { keyword, value }, rest))
        }
    }
}

#[cycle(reader)]
#[tactic(auto, unfolding(f_grammar::specs::Reading::subscript_at))]
fn subscript(
    alloc: Global,
    depth: u32,
    tokens: &[Spanned],
) -> Result<(Argument, &[Spanned]), ReadError>
    ensures { Gives (λ x. (view_argument x.0, tokens_of x.1.now)) result (subscript_at (expr_at depth) (tokens_of tokens.now)) }
{
    if begins_colon(tokens) {
        return triplet(alloc, depth, None, tokens);
    }
    let (first, rest) = expression(alloc, depth, tokens)?;
    behind_lower(alloc, depth, first, rest)
}

// A value, or a triplet that begins with it.
#[cycle(reader)]
#[tactic(auto, unfolding(f_grammar::specs::Reading::behind_first))]
fn behind_lower<'a>(
    alloc: Global,
    depth: u32,
    first: Expression,
    tokens: &'a [Spanned],
) -> Result<(Argument, &'a [Spanned]), ReadError>
    ensures { Gives (λ x. (view_argument x.0, tokens_of x.1.now)) result (behind_first (expr_at depth) (view first, (tokens_of tokens.now))) }
{
    if begins_colon(tokens) {
        let lower = present(alloc, first)?;
        triplet(alloc, depth, lower, tokens)
    } else {
        Ok((
            Argument::Value {
                keyword: None,
                value: first,
            },
            tokens,
        ))
    }
}

// What stands behind a lower bound.
#[cycle(reader)]
#[tactic(auto, unfolding(f_grammar::specs::Reading::section_at))]
fn triplet<'a>(
    alloc: Global,
    depth: u32,
    lower: Option<Boxed<Expression>>,
    tokens: &'a [Spanned],
) -> Result<(Argument, &'a [Spanned]), ReadError>
    ensures { Gives (λ x. (view_argument x.0, tokens_of x.1.now)) result (section_at (expr_at depth) (view_maybe lower) (tokens_of tokens.now)) }
{
    match colons_at(tokens) {
        Some((place, rest)) => {
            let (bound, rest) = expression(alloc, depth, rest)?;
            let a = strided(alloc, lower, place, bound)?;
            Ok((a, rest))
        }
        None => match colon_at(tokens) {
            None => Err(ReadError::Form),
            Some((place, rest)) => {
                let (upper, rest) = upper(alloc, depth, rest)?;
                let (stride, rest) = stride(alloc, depth, rest)?;
                Ok((section(lower, place, upper, stride), rest))
            }
        },
    }
}

#[cycle(reader)]
#[tactic(auto, unfolding(f_grammar::specs::Reading::upper_at))]
fn upper(
    alloc: Global,
    depth: u32,
    tokens: &[Spanned],
) -> Result<(Option<Boxed<Expression>>, &[Spanned]), ReadError>
    ensures { Gives (λ x. (view_maybe x.0, tokens_of x.1.now)) result (upper_at (expr_at depth) (tokens_of tokens.now)) }
{
    if ends_bound(tokens) {
        return Ok((None, tokens));
    }
    let (bound, rest) = expression(alloc, depth, tokens)?;
    Ok((present(alloc, bound)?, rest))
}

#[cycle(reader)]
#[tactic(auto, unfolding(f_grammar::specs::Reading::lower_at))]
fn lower(
    alloc: Global,
    depth: u32,
    tokens: &[Spanned],
) -> Result<(Option<Boxed<Expression>>, &[Spanned]), ReadError>
    ensures { Gives (λ x. (view_maybe x.0, tokens_of x.1.now)) result (lower_at (expr_at depth) (tokens_of tokens.now)) }
{
    if begins_colon(tokens) {
        return Ok((None, tokens));
    }
    let (bound, rest) = expression(alloc, depth, tokens)?;
    Ok((present(alloc, bound)?, rest))
}

#[cycle(reader)]
#[tactic(auto, unfolding(f_grammar::specs::Reading::stride_at))]
fn stride(
    alloc: Global,
    depth: u32,
    tokens: &[Spanned],
) -> Result<(Option<Boxed<Expression>>, &[Spanned]), ReadError>
    ensures { Gives (λ x. (view_maybe x.0, tokens_of x.1.now)) result (stride_at (expr_at depth) (tokens_of tokens.now)) }
{
    match colon_at(tokens) {
        None => Ok((None, tokens)),
        Some((_, rest)) => {
            let (bound, rest) = expression(alloc, depth, rest)?;
            Ok((present(alloc, bound)?, rest))
        }
    }
}

// A substring range behind its `(`.
#[cycle(reader)]
#[tactic(auto, unfolding(f_grammar::specs::Reading::range_at))]
fn substring_range(
    alloc: Global,
    depth: u32,
    tokens: &[Spanned],
) -> Result<(Range, &[Spanned]), ReadError>
    ensures { Gives (λ x. (view_range x.0, tokens_of x.1.now)) result (range_at (expr_at depth) (tokens_of tokens.now)) }
{
    let (lower, rest) = lower(alloc, depth, tokens)?;
    match colon_at(rest) {
        None => Err(ReadError::Form),
        Some((_, rest)) => {
            let (upper, rest) = upper(alloc, depth, rest)?;
            let rest = closed(rest)?;
            Ok((range(lower, upper), rest))
        }
    }
}

#[cycle(reader)]
#[tactic(auto, unfolding(f_grammar::specs::Reading::substring_at))]
fn substring(
    alloc: Global,
    depth: u32,
    tokens: &[Spanned],
) -> Result<(Option<Range>, &[Spanned]), ReadError>
    ensures { Gives (λ x. (view_substring x.0, tokens_of x.1.now)) result (substring_at (expr_at depth) (tokens_of tokens.now)) }
{
    match open_at(tokens) {
        None => Ok((None, tokens)),
        Some((_, rest)) => {
            let (r, rest) = substring_range(alloc, depth, rest)?;
            Ok((Some(r), rest))
        }
    }
}

// A part whose name is read.
#[cycle(reader)]
#[tactic(auto, unfolding(f_grammar::specs::Reading::behind_name))]
fn behind_part<'a>(
    alloc: Global,
    depth: u32,
    name: Name,
    tokens: &'a [Spanned],
) -> Result<(Part, &'a [Spanned]), ReadError>
    ensures { Gives (λ x. (view_part x.0, tokens_of x.1.now)) result (behind_name (expr_at depth) name.bytes (tokens_of tokens.now)) }
{
    match open_at(tokens) {
        None => Ok((
            Part {
                name,
                arguments: None,
                substring: None,
            },
            tokens,
        )),
        Some((_, rest)) => {
            let (arguments, rest) = arguments(alloc, depth, rest)?;
            let (substring, rest) = substring(alloc, depth, rest)?;
            let arguments = Some(List::from_vec(arguments));
            Ok((
                Part {
                    name,
                    arguments,
                    substring,
                },
                rest,
            ))
        }
    }
}

#[cycle(reader)]
#[tactic(auto, unfolding(f_grammar::specs::Reading::part_at))]
fn part(alloc: Global, depth: u32, tokens: &[Spanned]) -> Result<(Part, &[Spanned]), ReadError>
    ensures { Gives (λ x. (view_part x.0, tokens_of x.1.now)) result (part_at (expr_at depth) (tokens_of tokens.now)) }
{
    match name_at(tokens) {
        None => Err(ReadError::Form),
        Some((name, place, rest)) => {
            let bytes = copy_bytes(alloc, name)?;
            behind_part(alloc, depth, Name { bytes, place }, rest)
        }
    }
}

#[cycle(reader)]
fn more_parts(
    alloc: Global,
    depth: u32,
    tokens: &[Spanned],
) -> Result<(Vec<Part>, &[Spanned]), ReadError>
    ensures { Gives (λ x. (parts_of (map view_part x.0.items), tokens_of x.1.now)) result (parts_at (expr_at depth) (length tokens.now) (tokens_of tokens.now)) }
{
    let mut items = Vec::new(alloc);
    let mut rest = tokens;
    for _ in 0..tokens.len() {
        match percent_at(rest) {
            None => return Ok((items, rest)),
            Some((_, after)) => {
                let (value, after) = part(alloc, depth, after)?;
                items.push(value)?;
                rest = after;
            }
        }
    }
    Ok((items, rest))
}

#[cycle(reader)]
#[tactic(auto, unfolding(f_grammar::specs::Reading::refer_at))]
pub fn reference(
    alloc: Global,
    depth: u32,
    tokens: &[Spanned],
) -> Result<(Reference, &[Spanned]), ReadError>
    ensures { Gives (λ x. (view_reference x.0, tokens_of x.1.now)) result (refer_at (expr_at depth) (tokens_of tokens.now)) }
{
    let (first, rest) = part(alloc, depth, tokens)?;
    let (others, rest) = more_parts(alloc, depth, rest)?;
    let others = List::from_vec(others);
    Ok((Reference { first, others }, rest))
}

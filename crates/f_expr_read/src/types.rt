//! From tokens to types. Each function reads what stands first and answers it with the tokens behind it.

ghost use Rattle.std.specs.Prelude.{◌≡◌, ◌<◌, ◌≤◌, ◌∷◌, [], map, length, is_some, true, false};
ghost use Rattle.f_grammar.specs.Reading.{integer_at, logical_at, expr_at, kind_at, selector_at, length_at, bare_param_at, param_at, mores_at, params_at, character_at, derived_at, type_name_at, typed_by, type_at};
ghost use Rattle.f_grammar.specs.Grammar.{more};
ghost use Rattle.f_expr_read.specs.Gives.{Gives, behind, kind_behind, kind_parameter};
ghost use Rattle.f_expr_read.specs.Views.{tokens_of, view_type, view_kind, view_parameter, view_selector, mores_of, params_of};

use crate::error::ReadError;
use crate::made::{character as character_type, kind};
use crate::reader::{closed, expression};
use crate::word::{comma_at, name_at, open_at, star_at, word_at};
use f_lex::Spanned;
use f_tree::{CharacterParameter, KindSelector, Name, TypeSpec, copy_bytes};
use jf_base::{List, Place};
use std::alloc::Global;

// A kind behind its `(`.
#[cycle(reader)]
#[tactic(auto, unfolding(f_grammar::specs::Reading::kind_at))]
fn kind_value(
    alloc: Global,
    depth: u32,
    tokens: &[Spanned],
) -> Result<(KindSelector, &[Spanned]), ReadError>
    ensures { Gives (λ x. (view_kind x.0, tokens_of x.1.now)) result (kind_at (expr_at depth) (tokens_of tokens.now)) }
{
    match word_at("kind", tokens) {
        None => kind_behind(alloc, depth, false, tokens),
        Some((_, rest)) => kind_behind(alloc, depth, true, rest),
    }
}

#[cycle(reader)]
fn kind_behind<'a>(
    alloc: Global,
    depth: u32,
    has_word: bool,
    tokens: &'a [Spanned],
) -> Result<(KindSelector, &'a [Spanned]), ReadError>
    ensures { Gives (λ x. (view_kind x.0, tokens_of x.1.now)) result (kind_behind (expr_at depth) has_word (tokens_of tokens.now)) }
{
    let (value, rest) = expression(alloc, depth, tokens)?;
    let rest = closed(rest)?;
    Ok((kind(alloc, has_word, value)?, rest))
}

#[cycle(reader)]
#[tactic(auto, unfolding(f_grammar::specs::Reading::selector_at))]
fn selector(
    alloc: Global,
    depth: u32,
    tokens: &[Spanned],
) -> Result<(Option<KindSelector>, &[Spanned]), ReadError>
    ensures { Gives (λ x. (view_selector x.0, tokens_of x.1.now)) result (selector_at (expr_at depth) (tokens_of tokens.now)) }
{
    match open_at(tokens) {
        None => Ok((None, tokens)),
        Some((_, rest)) => {
            let (k, rest) = kind_value(alloc, depth, rest)?;
            Ok((Some(k), rest))
        }
    }
}

// A length, behind its word where the place of that is there.
#[cycle(reader)]
#[tactic(auto, unfolding(f_grammar::specs::Reading::length_at))]
fn length<'a>(
    alloc: Global,
    depth: u32,
    word: Option<Place>,
    tokens: &'a [Spanned],
) -> Result<(CharacterParameter, &'a [Spanned]), ReadError>
    ensures { Gives (λ x. (view_parameter x.0, tokens_of x.1.now)) result (length_at (expr_at depth) (is_some word) (tokens_of tokens.now)) }
{
    match star_at(tokens) {
        Some((place, rest)) => Ok((CharacterParameter::AssumedLength { word, place }, rest)),
        None => {
            let (value, rest) = expression(alloc, depth, tokens)?;
            Ok((CharacterParameter::Length { word, value }, rest))
        }
    }
}

#[cycle(reader)]
fn kind_parameter<'a>(
    alloc: Global,
    depth: u32,
    word: Option<Place>,
    tokens: &'a [Spanned],
) -> Result<(CharacterParameter, &'a [Spanned]), ReadError>
    ensures { Gives (λ x. (view_parameter x.0, tokens_of x.1.now)) result (kind_parameter (expr_at depth) (is_some word) (tokens_of tokens.now)) }
{
    let (value, rest) = expression(alloc, depth, tokens)?;
    Ok((CharacterParameter::Kind { word, value }, rest))
}

#[cycle(reader)]
#[tactic(auto, unfolding(f_grammar::specs::Reading::bare_param_at))]
fn bare_parameter<'a>(
    alloc: Global,
    depth: u32,
    is_first: bool,
    tokens: &'a [Spanned],
) -> Result<(CharacterParameter, &'a [Spanned]), ReadError>
    ensures { Gives (λ x. (view_parameter x.0, tokens_of x.1.now)) result (bare_param_at (expr_at depth) is_first (tokens_of tokens.now)) }
{
    if is_first {
        length(alloc, depth, None, tokens)
    } else {
        kind_parameter(alloc, depth, None, tokens)
    }
}

// A parameter of CHARACTER, the first or a later one.
#[cycle(reader)]
#[tactic(auto, unfolding(f_grammar::specs::Reading::param_at))]
fn parameter<'a>(
    alloc: Global,
    depth: u32,
    is_first: bool,
    tokens: &'a [Spanned],
) -> Result<(CharacterParameter, &'a [Spanned]), ReadError>
    ensures { Gives (λ x. (view_parameter x.0, tokens_of x.1.now)) result (param_at (expr_at depth) is_first (tokens_of tokens.now)) }
{
    match word_at("len", tokens) {
        Some((place, rest)) => length(alloc, depth, Some(place), rest),
        None => match word_at("kind", tokens) {
            Some((place, rest)) => kind_parameter(alloc, depth, Some(place), rest),
            None => bare_parameter(alloc, depth, is_first, tokens),
        },
    }
}

#[cycle(reader)]
fn more_parameters<'a>(
    alloc: Global,
    depth: u32,
    first: CharacterParameter,
    tokens: &'a [Spanned],
) -> Result<(Vec<CharacterParameter>, &'a [Spanned]), ReadError>
    ensures { Gives (λ x. (mores_of (map view_parameter x.0.items), tokens_of x.1.now)) result (behind more (view_parameter first ∷ []) (mores_at (expr_at depth) (length tokens.now) (tokens_of tokens.now))) }
{
    let mut items = Vec::new(alloc);
    items.push(first)?;
    let mut rest = tokens;
    for _ in 0..tokens.len() {
        match comma_at(rest) {
            None => return Ok((items, rest)),
            Some((_, after)) => {
                let (value, after) = parameter(alloc, depth, false, after)?;
                items.push(value)?;
                rest = after;
            }
        }
    }
    Ok((items, rest))
}

// The parameters of CHARACTER behind their `(`.
#[cycle(reader)]
#[tactic(auto, using(crate::proofs::Loops::params_from), unfolding(f_grammar::specs::Reading::params_at))]
fn parameters(
    alloc: Global,
    depth: u32,
    tokens: &[Spanned],
) -> Result<(Vec<CharacterParameter>, &[Spanned]), ReadError>
    ensures { Gives (λ x. (params_of (map view_parameter x.0.items), tokens_of x.1.now)) result (params_at (expr_at depth) (tokens_of tokens.now)) }
{
    let (first, rest) = parameter(alloc, depth, true, tokens)?;
    let (all, rest) = more_parameters(alloc, depth, first, rest)?;
    let rest = closed(rest)?;
    Ok((all, rest))
}

#[cycle(reader)]
#[tactic(auto, unfolding(f_grammar::specs::Reading::character_at))]
fn character<'a>(
    alloc: Global,
    depth: u32,
    place: Place,
    tokens: &'a [Spanned],
) -> Result<(TypeSpec, &'a [Spanned]), ReadError>
    ensures { Gives (λ x. (view_type x.0, tokens_of x.1.now)) result (character_at (expr_at depth) (tokens_of tokens.now)) }
{
    match open_at(tokens) {
        None => Ok((character_type(place, None), tokens)),
        Some((_, rest)) => {
            let (all, rest) = parameters(alloc, depth, rest)?;
            let parameters = Some(List::from_vec(all));
            Ok((character_type(place, parameters), rest))
        }
    }
}

// What stands between the parentheses behind TYPE.
#[tactic(auto, unfolding(f_grammar::specs::Reading::derived_at))]
fn derived<'a>(
    alloc: Global,
    place: Place,
    tokens: &'a [Spanned],
) -> Result<(TypeSpec, &'a [Spanned]), ReadError>
    ensures { Gives (λ x. (view_type x.0, tokens_of x.1.now)) result (derived_at (tokens_of tokens.now)) }
{
    match name_at(tokens) {
        Some((name, at, rest)) => {
            let bytes = copy_bytes(alloc, name)?;
            let name = Name { bytes, place: at };
            Ok((TypeSpec::Derived { place, name }, rest))
        }
        None => match star_at(tokens) {
            Some((_, rest)) => Ok((TypeSpec::Assumed { place }, rest)),
            None => Err(ReadError::Form),
        },
    }
}

#[tactic(auto, unfolding(f_grammar::specs::Reading::type_name_at))]
fn type_name<'a>(
    alloc: Global,
    place: Place,
    tokens: &'a [Spanned],
) -> Result<(TypeSpec, &'a [Spanned]), ReadError>
    ensures { Gives (λ x. (view_type x.0, tokens_of x.1.now)) result (type_name_at (tokens_of tokens.now)) }
{
    match open_at(tokens) {
        None => Err(ReadError::Form),
        Some((_, rest)) => {
            let (t, rest) = derived(alloc, place, rest)?;
            let rest = closed(rest)?;
            Ok((t, rest))
        }
    }
}

#[cycle(reader)]
#[tactic(auto, unfolding(f_grammar::specs::Reading::integer_at))]
fn integer<'a>(
    alloc: Global,
    depth: u32,
    place: Place,
    tokens: &'a [Spanned],
) -> Result<(TypeSpec, &'a [Spanned]), ReadError>
    ensures { Gives (λ x. (view_type x.0, tokens_of x.1.now)) result (integer_at (expr_at depth) (tokens_of tokens.now)) }
{
    let (kind, rest) = selector(alloc, depth, tokens)?;
    Ok((TypeSpec::Integer { place, kind }, rest))
}

#[cycle(reader)]
#[tactic(auto, unfolding(f_grammar::specs::Reading::logical_at))]
fn logical<'a>(
    alloc: Global,
    depth: u32,
    place: Place,
    tokens: &'a [Spanned],
) -> Result<(TypeSpec, &'a [Spanned]), ReadError>
    ensures { Gives (λ x. (view_type x.0, tokens_of x.1.now)) result (logical_at (expr_at depth) (tokens_of tokens.now)) }
{
    let (kind, rest) = selector(alloc, depth, tokens)?;
    Ok((TypeSpec::Logical { place, kind }, rest))
}

// The type that a word begins.
#[cycle(reader)]
#[tactic(auto, unfolding(f_grammar::specs::Reading::typed_by))]
fn type_behind<'a>(
    alloc: Global,
    depth: u32,
    word: &List<u8>,
    place: Place,
    tokens: &'a [Spanned],
) -> Result<(TypeSpec, &'a [Spanned]), ReadError>
    ensures { Gives (λ x. (view_type x.0, tokens_of x.1.now)) result (typed_by (expr_at depth) word.now (tokens_of tokens.now)) }
{
    let word = word.as_slice();
    if word == "integer".as_bytes() {
        return integer(alloc, depth, place, tokens);
    }
    if word == "logical".as_bytes() {
        return logical(alloc, depth, place, tokens);
    }
    if word == "character".as_bytes() {
        return character(alloc, depth, place, tokens);
    }
    if word == "type".as_bytes() {
        return type_name(alloc, place, tokens);
    }
    Err(ReadError::Form)
}

#[cycle(reader)]
#[tactic(auto, unfolding(f_grammar::specs::Reading::type_at))]
pub fn type_spec(
    alloc: Global,
    depth: u32,
    tokens: &[Spanned],
) -> Result<(TypeSpec, &[Spanned]), ReadError>
    ensures { Gives (λ x. (view_type x.0, tokens_of x.1.now)) result (type_at (expr_at depth) (tokens_of tokens.now)) }
{
    match name_at(tokens) {
        None => Err(ReadError::Form),
        Some((word, place, rest)) => type_behind(alloc, depth, word, place, rest),
    }
}

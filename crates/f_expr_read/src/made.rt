//! Trees made of their parts.

ghost use Rattle.std.specs.Prelude.{◌≡◌, ◌<◌, ℕ, IfOk, map, Some, None, if◌then◌else◌};
ghost use Rattle.std.specs.Option.{option_map};
ghost use Rattle.f_grammar.specs.Grammar.{Expr, Paren, Chain, Section, Strided, Present, kind, range};
ghost use Rattle.f_grammar.specs.Reading.{chain};
ghost use Rattle.f_expr_read.specs.Views.{view, view_link, view_argument, view_range, view_kind, view_type, view_maybe, links_of, number_of, mark_of, view_parameter, constructor_of, character_of};

use f_lex::Mark;
use f_tree::{
    Argument, CharacterParameter, Expression, KindSelector, Level, Link, Range, Sign, TypeSpec,
};
use jf_base::{Boxed, List, Place};
use std::alloc::{AllocError, Global};

pub fn parenthesized(
    alloc: Global,
    place: Place,
    inner: Expression,
) -> Result<Expression, AllocError>
    ensures { IfOk result (λ e. view e ≡ Paren (view inner)) }
{
    Ok(Expression::Parenthesized {
        place,
        inner: Boxed::new(alloc, inner)?,
    })
}

pub fn constructor(
    place: Place,
    declared: Option<Boxed<TypeSpec>>,
    items: List<Expression>,
) -> Expression
    ensures { view result ≡ constructor_of (option_map view_type declared) (map view items) }
{
    Expression::Constructor {
        place,
        declared,
        items,
    }
}

pub fn character(place: Place, parameters: Option<List<CharacterParameter>>) -> TypeSpec
    ensures { view_type result ≡ character_of (option_map (map view_parameter) parameters) }
{
    TypeSpec::Character { place, parameters }
}

/// The level with this number.
pub fn level(number: u8) -> Level
    requires { number < 9 }
    ensures { number_of result ≡ number }
{
    match number {
        0 => Level::Power,
        1 => Level::Product,
        2 => Level::Sum,
        3 => Level::Concatenation,
        4 => Level::Comparison,
        5 => Level::Negation,
        6 => Level::Conjunction,
        7 => Level::Disjunction,
        _ => Level::Equivalence,
    }
}

fn linked(
    alloc: Global,
    number: u8,
    sign: Option<Sign>,
    first: Expression,
    links: Vec<Link>,
) -> Result<Expression, AllocError>
    requires { number < 9 }
    ensures { IfOk result (λ e. view e ≡ Chain number (mark_of sign) (view first) (links_of (map view_link links.items))) }
{
    Ok(Expression::Chain {
        level: level(number),
        sign,
        first: Boxed::new(alloc, first)?,
        links: List::from_vec(links),
    })
}

pub fn link(operator: Mark, operand: Expression) -> Link
    ensures { view_link result ≡ (operator, view operand) }
{
    Link { operator, operand }
}

// There is a sign or a link.
fn is_chain(sign: &Option<Sign>, links: &[Link]) -> bool
    ensures { (h : ℕ) (e : Expr) → chain h (mark_of sign.now) e (links_of (map view_link links.now)) ≡ (if result then Chain h (mark_of sign.now) e (links_of (map view_link links.now)) else e) }
{
    match sign {
        Some(_) => true,
        None => match links {
            [] => false,
            [_, ..] => true,
        },
    }
}

/// A chain of a sign and links, or the operand alone where there are none.
pub fn chain(
    alloc: Global,
    number: u8,
    sign: Option<Sign>,
    first: Expression,
    links: Vec<Link>,
) -> Result<Expression, AllocError>
    requires { number < 9 }
    ensures { IfOk result (λ e. view e ≡ chain number (mark_of sign) (view first) (links_of (map view_link links.items))) }
{
    let is_chain = is_chain(&sign, links.as_slice());
    if is_chain {
        linked(alloc, number, sign, first, links)
    } else {
        Ok(first)
    }
}

pub fn section(
    lower: Option<Boxed<Expression>>,
    place: Place,
    upper: Option<Boxed<Expression>>,
    stride: Option<Boxed<Expression>>,
) -> Argument
    ensures { view_argument result ≡ Section (view_maybe lower) (view_maybe upper) (view_maybe stride) }
{
    Argument::Section {
        lower,
        place,
        upper,
        stride,
    }
}

pub fn strided(
    alloc: Global,
    lower: Option<Boxed<Expression>>,
    place: Place,
    stride: Expression,
) -> Result<Argument, AllocError>
    ensures { IfOk result (λ a. view_argument a ≡ Strided (view_maybe lower) (view stride)) }
{
    Ok(Argument::Strided {
        lower,
        place,
        stride: Boxed::new(alloc, stride)?,
    })
}

/// A bound that is there.
pub fn present(alloc: Global, bound: Expression) -> Result<Option<Boxed<Expression>>, AllocError>
    ensures { IfOk result (λ e. view_maybe e ≡ Present (view bound)) }
{
    Ok(Some(Boxed::new(alloc, bound)?))
}

pub fn range(lower: Option<Boxed<Expression>>, upper: Option<Boxed<Expression>>) -> Range
    ensures { view_range result ≡ range (view_maybe lower) (view_maybe upper) }
{
    Range { lower, upper }
}

pub fn kind(alloc: Global, has_word: bool, value: Expression) -> Result<KindSelector, AllocError>
    ensures { IfOk result (λ k. view_kind k ≡ kind has_word (view value)) }
{
    Ok(KindSelector {
        has_word,
        value: Boxed::new(alloc, value)?,
    })
}

//! The tokens of expressions, references and types. What stands last is put first.

ghost use Rattle.std.specs.Prelude.{◌≡◌, OnOk, map};
ghost use Rattle.f_tree.specs.Lexemes.{if_there, each, listed, in_parentheses, mark_of};
ghost use Rattle.f_lex.specs.declared.token.Mark.TheVariants.{Colon, DoubleColon};
ghost use Rattle.f_tree.specs.Expressions.{expression, sign_of, link, reference, part, range, argument, type_spec, kind_selector, parameter, behind_percents, stride_of, constructor_type};

use crate::expression::{
    Argument, CharacterParameter, Expression, KindSelector, Link, Part, Range, Reference, Sign,
    TypeSpec,
};
use crate::lexeme::Lexemes;
use f_lex::Mark;
use jf_base::Boxed;
use std::alloc::AllocError;

fn put_sign(out: &mut Lexemes, sign: &Option<Sign>) -> Result<(), AllocError>
    ensures { OnOk result (out.new ≡ sign_of sign.now out.old) }
{
    match sign {
        None => Ok(()),
        Some(sign) => {
            out.placed_mark(sign.operator, sign.place)?;
            Ok(())
        }
    }
}

/// Puts an expression in front.
#[cycle(spell)]
pub fn put_expression(out: &mut Lexemes, e: &Expression) -> Result<(), AllocError>
    ensures { OnOk result (out.new ≡ expression e.now out.old) }
{
    match e {
        Expression::Number {
            digits,
            kind,
            place,
        } => {
            out.number(digits, kind, *place)?;
            Ok(())
        }
        Expression::Truth { value, kind, place } => {
            out.truth(*value, kind, *place)?;
            Ok(())
        }
        Expression::Text { bytes, kind, place } => {
            out.text(bytes, kind, *place)?;
            Ok(())
        }
        Expression::Reference(r) => {
            put_reference(out, r)?;
            Ok(())
        }
        Expression::Parenthesized { place, inner } => {
            out.mark(Mark::Close)?;
            put_expression(out, inner.get())?;
            out.placed_mark(Mark::Open, *place)?;
            Ok(())
        }
        Expression::Constructor {
            place,
            declared,
            items,
        } => {
            out.mark(Mark::CloseBracket)?;
            put_expressions(out, items.as_slice())?;
            put_constructor_type(out, declared)?;
            out.placed_mark(Mark::OpenBracket, *place)?;
            Ok(())
        }
        Expression::Chain {
            level: _,
            sign,
            first,
            links,
        } => {
            put_links(out, links.as_slice())?;
            put_expression(out, first.get())?;
            put_sign(out, sign)?;
            Ok(())
        }
    }
}

#[cycle(spell)]
fn put_optional(out: &mut Lexemes, e: &Option<Boxed<Expression>>) -> Result<(), AllocError>
    ensures { OnOk result (out.new ≡ if_there expression e.now out.old) }
{
    match e {
        None => Ok(()),
        Some(e) => {
            put_expression(out, e.get())?;
            Ok(())
        }
    }
}

/// Puts expressions with commas between them in front.
#[cycle(spell)]
pub fn put_expressions(out: &mut Lexemes, items: &[Expression]) -> Result<(), AllocError>
    ensures { OnOk result (out.new ≡ listed (map expression items.now) out.old) }
{
    let mut left = items.len();
    while left > 0 {
        left -= 1;
        put_expression(out, &items[left])?;
        out.comma_behind(&items[..left])?;
    }
    Ok(())
}

#[cycle(spell)]
fn put_links(out: &mut Lexemes, links: &[Link]) -> Result<(), AllocError>
    ensures { OnOk result (out.new ≡ each (map link links.now) out.old) }
{
    let mut left = links.len();
    while left > 0 {
        left -= 1;
        put_link(out, &links[left])?;
    }
    Ok(())
}

#[cycle(spell)]
fn put_constructor_type(
    out: &mut Lexemes,
    declared: &Option<Boxed<TypeSpec>>,
) -> Result<(), AllocError>
    ensures { OnOk result (out.new ≡ if_there (λ t rest. type_spec t (mark_of DoubleColon rest)) declared.now out.old) }
{
    match declared {
        None => Ok(()),
        Some(declared) => {
            out.mark(Mark::DoubleColon)?;
            put_type(out, declared.get())?;
            Ok(())
        }
    }
}

/// Puts a reference in front.
#[cycle(spell)]
pub fn put_reference(out: &mut Lexemes, r: &Reference) -> Result<(), AllocError>
    ensures { OnOk result (out.new ≡ reference r.now out.old) }
{
    put_parts(out, r.others.as_slice())?;
    put_part(out, &r.first)?;
    Ok(())
}

#[cycle(spell)]
fn put_parts(out: &mut Lexemes, parts: &[Part]) -> Result<(), AllocError>
    ensures { OnOk result (out.new ≡ behind_percents (map part parts.now) out.old) }
{
    let mut left = parts.len();
    while left > 0 {
        left -= 1;
        put_part(out, &parts[left])?;
        out.mark(Mark::Percent)?;
    }
    Ok(())
}

#[cycle(spell)]
fn put_part(out: &mut Lexemes, p: &Part) -> Result<(), AllocError>
    ensures { OnOk result (out.new ≡ part p.now out.old) }
{
    put_substring(out, &p.substring)?;
    match &p.arguments {
        None => {
            out.name(&p.name)?;
            Ok(())
        }
        Some(arguments) => {
            out.mark(Mark::Close)?;
            put_arguments(out, arguments.as_slice())?;
            out.mark(Mark::Open)?;
            out.name(&p.name)?;
            Ok(())
        }
    }
}

#[cycle(spell)]
fn put_substring(out: &mut Lexemes, r: &Option<Range>) -> Result<(), AllocError>
    ensures { OnOk result (out.new ≡ if_there (λ r. in_parentheses (range r)) r.now out.old) }
{
    match r {
        None => Ok(()),
        Some(r) => {
            out.mark(Mark::Close)?;
            put_optional(out, &r.upper)?;
            out.mark(Mark::Colon)?;
            put_optional(out, &r.lower)?;
            out.mark(Mark::Open)?;
            Ok(())
        }
    }
}

#[cycle(spell)]
fn put_argument(out: &mut Lexemes, a: &Argument) -> Result<(), AllocError>
    ensures { OnOk result (out.new ≡ argument a.now out.old) }
{
    match a {
        Argument::Value { keyword, value } => {
            put_expression(out, value)?;
            out.name_key(keyword)?;
            Ok(())
        }
        Argument::Section {
            lower,
            place,
            upper,
            stride,
        } => {
            put_stride(out, stride)?;
            put_optional(out, upper)?;
            out.placed_mark(Mark::Colon, *place)?;
            put_optional(out, lower)?;
            Ok(())
        }
        Argument::Strided {
            lower,
            place,
            stride,
        } => {
            put_expression(out, stride.get())?;
            out.placed_mark(Mark::DoubleColon, *place)?;
            put_optional(out, lower)?;
            Ok(())
        }
    }
}

#[cycle(spell)]
fn put_stride(out: &mut Lexemes, stride: &Option<Boxed<Expression>>) -> Result<(), AllocError>
    ensures { OnOk result (out.new ≡ if_there (λ e rest. mark_of Colon (expression e rest)) stride.now out.old) }
{
    match stride {
        None => Ok(()),
        Some(stride) => {
            put_expression(out, stride.get())?;
            out.mark(Mark::Colon)?;
            Ok(())
        }
    }
}

/// Puts a type in front.
#[cycle(spell)]
pub fn put_type(out: &mut Lexemes, t: &TypeSpec) -> Result<(), AllocError>
    ensures { OnOk result (out.new ≡ type_spec t.now out.old) }
{
    match t {
        TypeSpec::Integer { place, kind } => {
            put_kind(out, kind)?;
            out.placed_word("integer", *place)?;
            Ok(())
        }
        TypeSpec::Logical { place, kind } => {
            put_kind(out, kind)?;
            out.placed_word("logical", *place)?;
            Ok(())
        }
        TypeSpec::Character {
            place,
            parameters: None,
        } => {
            out.placed_word("character", *place)?;
            Ok(())
        }
        TypeSpec::Character {
            place,
            parameters: Some(parameters),
        } => {
            out.mark(Mark::Close)?;
            put_parameters(out, parameters.as_slice())?;
            out.mark(Mark::Open)?;
            out.placed_word("character", *place)?;
            Ok(())
        }
        TypeSpec::Derived { place, name } => {
            out.mark(Mark::Close)?;
            out.name(name)?;
            out.mark(Mark::Open)?;
            out.placed_word("type", *place)?;
            Ok(())
        }
        TypeSpec::Assumed { place } => {
            out.mark(Mark::Close)?;
            out.mark(Mark::Star)?;
            out.mark(Mark::Open)?;
            out.placed_word("type", *place)?;
            Ok(())
        }
    }
}

#[cycle(spell)]
fn put_kind(out: &mut Lexemes, kind: &Option<KindSelector>) -> Result<(), AllocError>
    ensures { OnOk result (out.new ≡ if_there kind_selector kind.now out.old) }
{
    match kind {
        None => Ok(()),
        Some(kind) => {
            out.mark(Mark::Close)?;
            put_expression(out, kind.value.get())?;
            out.key("kind", kind.has_word)?;
            out.mark(Mark::Open)?;
            Ok(())
        }
    }
}

#[cycle(spell)]
fn put_parameter(out: &mut Lexemes, p: &CharacterParameter) -> Result<(), AllocError>
    ensures { OnOk result (out.new ≡ parameter p.now out.old) }
{
    match p {
        CharacterParameter::Length { word, value } => {
            put_expression(out, value)?;
            out.placed_key("len", *word)?;
            Ok(())
        }
        CharacterParameter::AssumedLength { word, place } => {
            out.placed_mark(Mark::Star, *place)?;
            out.placed_key("len", *word)?;
            Ok(())
        }
        CharacterParameter::Kind { word, value } => {
            put_expression(out, value)?;
            out.placed_key("kind", *word)?;
            Ok(())
        }
    }
}

/// Puts arguments with commas between them in front.
#[cycle(spell)]
pub fn put_arguments(out: &mut Lexemes, arguments: &[Argument]) -> Result<(), AllocError>
    ensures { OnOk result (out.new ≡ listed (map argument arguments.now) out.old) }
{
    let mut left = arguments.len();
    while left > 0 {
        left -= 1;
        put_argument(out, &arguments[left])?;
        out.comma_behind(&arguments[..left])?;
    }
    Ok(())
}

#[cycle(spell)]
fn put_parameters(out: &mut Lexemes, parameters: &[CharacterParameter]) -> Result<(), AllocError>
    ensures { OnOk result (out.new ≡ listed (map parameter parameters.now) out.old) }
{
    let mut left = parameters.len();
    while left > 0 {
        left -= 1;
        put_parameter(out, &parameters[left])?;
        out.comma_behind(&parameters[..left])?;
    }
    Ok(())
}

#[cycle(spell)]
fn put_link(out: &mut Lexemes, l: &Link) -> Result<(), AllocError>
    ensures { OnOk result (out.new ≡ link l.now out.old) }
{
    put_expression(out, &l.operand)?;
    out.mark(l.operator)?;
    Ok(())
}

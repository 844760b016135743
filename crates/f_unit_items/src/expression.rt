//! The names in expressions, references and types. What stands last is put first.

ghost use Rattle.std.specs.Prelude.{◌≡◌, OnOk, IfOk, map};
ghost use Rattle.f_unit_items.specs.declared.expression.PartRole.TheVariants.{Selected};
ghost use Rattle.f_unit_items.specs.Fronts.{if_there, each, each_given, inside};
ghost use Rattle.f_unit_items.specs.Expressions.{expression, link, reference, part, range, argument, type_spec, kind_selector, parameter, type_place, declared_type, part_name, first_role};

use crate::items::Items;
use f_items::{DeclaredType, Item, Need};
use f_tree::{
    Argument, CharacterParameter, Expression, KindSelector, Link, Name, Part, Range, Reference,
    TypeSpec, copy_bytes,
};
use jf_base::{Boxed, Place};
use std::alloc::{AllocError, Global};

/// What a part is in a reference.
#[derive(Clone, Copy, PartialEq, Eq, Debug)]
pub enum PartRole {
    /// It is the only one.
    Alone,
    /// It is the first, and a component of it is selected.
    Base,
    /// It names a component of the part before it.
    Selected,
}

/// Puts the names of an expression in front.
#[cycle(names)]
pub fn put_expression(out: &mut Items, e: &Expression) -> Result<(), AllocError>
    ensures { OnOk result (out.new ≡ expression e.now out.old) }
{
    match e {
        Expression::Number {
            digits: _,
            kind,
            place,
        } => {
            out.kind(kind, *place)?;
            Ok(())
        }
        Expression::Truth {
            value: _,
            kind,
            place,
        } => {
            out.kind(kind, *place)?;
            Ok(())
        }
        Expression::Text {
            bytes: _,
            kind,
            place,
        } => {
            out.kind(kind, *place)?;
            Ok(())
        }
        Expression::Reference(r) => {
            put_reference(out, r)?;
            Ok(())
        }
        Expression::Parenthesized { place: _, inner } => {
            put_expression(out, inner.get())?;
            Ok(())
        }
        Expression::Constructor {
            place: _,
            declared,
            items,
        } => {
            put_expressions(out, items.as_slice())?;
            put_constructor_type(out, declared)?;
            Ok(())
        }
        Expression::Chain {
            level: _,
            sign: _,
            first,
            links,
        } => {
            put_links(out, links.as_slice())?;
            put_expression(out, first.get())?;
            Ok(())
        }
    }
}

#[cycle(names)]
fn put_optional(out: &mut Items, e: &Option<Boxed<Expression>>) -> Result<(), AllocError>
    ensures { OnOk result (out.new ≡ if_there expression e.now out.old) }
{
    match e {
        None => Ok(()),
        Some(e) => {
            put_expression(out, e.get())?;
            Ok(())
        }
    }
}

/// Puts the names of expressions in front.
#[cycle(names)]
pub fn put_expressions(out: &mut Items, all: &[Expression]) -> Result<(), AllocError>
    ensures { OnOk result (out.new ≡ each (map expression all.now) out.old) }
{
    let mut left = all.len();
    while left > 0 {
        left -= 1;
        put_expression(out, &all[left])?;
    }
    Ok(())
}

#[cycle(names)]
fn put_links(out: &mut Items, links: &[Link]) -> Result<(), AllocError>
    ensures { OnOk result (out.new ≡ each (map link links.now) out.old) }
{
    let mut left = links.len();
    while left > 0 {
        left -= 1;
        put_link(out, &links[left])?;
    }
    Ok(())
}

#[cycle(names)]
fn put_link(out: &mut Items, l: &Link) -> Result<(), AllocError>
    ensures { OnOk result (out.new ≡ link l.now out.old) }
{
    put_expression(out, &l.operand)?;
    Ok(())
}

#[cycle(names)]
fn put_constructor_type(
    out: &mut Items,
    declared: &Option<Boxed<TypeSpec>>,
) -> Result<(), AllocError>
    ensures { OnOk result (out.new ≡ if_there type_spec declared.now out.old) }
{
    match declared {
        None => Ok(()),
        Some(declared) => {
            put_type(out, declared.get())?;
            Ok(())
        }
    }
}

/// Puts the names of a reference in front.
#[cycle(names)]
pub fn put_reference(out: &mut Items, r: &Reference) -> Result<(), AllocError>
    ensures { OnOk result (out.new ≡ reference r.now out.old) }
{
    put_selected(out, r.others.as_slice())?;
    put_part(out, &r.first, first_role(r.others.as_slice()))?;
    Ok(())
}

/// The role of the first part, where these stand behind it.
fn first_role(others: &[Part]) -> PartRole
    ensures { result ≡ first_role (map part others.now) }
{
    match others {
        [] => PartRole::Alone,
        [_, ..] => PartRole::Base,
    }
}

#[cycle(names)]
fn put_selected(out: &mut Items, parts: &[Part]) -> Result<(), AllocError>
    ensures { OnOk result (out.new ≡ each_given Selected (map part parts.now) out.old) }
{
    let mut left = parts.len();
    while left > 0 {
        left -= 1;
        put_part(out, &parts[left], PartRole::Selected)?;
    }
    Ok(())
}

fn put_part_name(
    out: &mut Items,
    role: PartRole,
    name: &Name,
    is_applied: bool,
) -> Result<(), AllocError>
    ensures { OnOk result (out.new ≡ part_name role name.now is_applied out.old) }
{
    match role {
        PartRole::Alone => {
            if is_applied {
                out.refer(name, Need::Applied)
            } else {
                out.refer(name, Need::Value)
            }
        }
        PartRole::Base => out.refer(name, Need::Object),
        PartRole::Selected => out.select(name),
    }
}

#[cycle(names)]
fn put_part(out: &mut Items, p: &Part, role: PartRole) -> Result<(), AllocError>
    ensures { OnOk result (out.new ≡ part p.now role out.old) }
{
    put_substring(out, &p.substring)?;
    match &p.arguments {
        None => {
            put_part_name(out, role, &p.name, false)?;
            Ok(())
        }
        Some(arguments) => {
            out.put(Item::Outside)?;
            put_arguments(out, arguments.as_slice())?;
            out.put(Item::Inside)?;
            put_part_name(out, role, &p.name, true)?;
            Ok(())
        }
    }
}

#[cycle(names)]
fn put_substring(out: &mut Items, r: &Option<Range>) -> Result<(), AllocError>
    ensures { OnOk result (out.new ≡ if_there (λ r. inside (range r)) r.now out.old) }
{
    match r {
        None => Ok(()),
        Some(r) => {
            out.put(Item::Outside)?;
            put_optional(out, &r.upper)?;
            put_optional(out, &r.lower)?;
            out.put(Item::Inside)?;
            Ok(())
        }
    }
}

/// Puts the names of arguments in front.
#[cycle(names)]
pub fn put_arguments(out: &mut Items, arguments: &[Argument]) -> Result<(), AllocError>
    ensures { OnOk result (out.new ≡ each (map argument arguments.now) out.old) }
{
    let mut left = arguments.len();
    while left > 0 {
        left -= 1;
        put_argument(out, &arguments[left])?;
    }
    Ok(())
}

#[cycle(names)]
fn put_argument(out: &mut Items, a: &Argument) -> Result<(), AllocError>
    ensures { OnOk result (out.new ≡ argument a.now out.old) }
{
    match a {
        Argument::Value { keyword: _, value } => {
            put_expression(out, value)?;
            Ok(())
        }
        Argument::Section {
            lower,
            place: _,
            upper,
            stride,
        } => {
            put_optional(out, stride)?;
            put_optional(out, upper)?;
            put_optional(out, lower)?;
            Ok(())
        }
        Argument::Strided {
            lower,
            place: _,
            stride,
        } => {
            put_expression(out, stride.get())?;
            put_optional(out, lower)?;
            Ok(())
        }
    }
}

/// Puts the names of a type in front.
#[cycle(names)]
pub fn put_type(out: &mut Items, t: &TypeSpec) -> Result<(), AllocError>
    ensures { OnOk result (out.new ≡ type_spec t.now out.old) }
{
    match t {
        TypeSpec::Integer { place: _, kind } => {
            put_kind(out, kind)?;
            Ok(())
        }
        TypeSpec::Logical { place: _, kind } => {
            put_kind(out, kind)?;
            Ok(())
        }
        TypeSpec::Character {
            place: _,
            parameters: None,
        } => Ok(()),
        TypeSpec::Character {
            place: _,
            parameters: Some(parameters),
        } => {
            put_parameters(out, parameters.as_slice())?;
            Ok(())
        }
        TypeSpec::Derived { place: _, name } => {
            out.refer(name, Need::Type)?;
            Ok(())
        }
        TypeSpec::Assumed { place: _ } => Ok(()),
    }
}

#[cycle(names)]
fn put_kind(out: &mut Items, kind: &Option<KindSelector>) -> Result<(), AllocError>
    ensures { OnOk result (out.new ≡ if_there kind_selector kind.now out.old) }
{
    match kind {
        None => Ok(()),
        Some(kind) => {
            put_expression(out, kind.value.get())?;
            Ok(())
        }
    }
}

#[cycle(names)]
fn put_parameters(out: &mut Items, parameters: &[CharacterParameter]) -> Result<(), AllocError>
    ensures { OnOk result (out.new ≡ each (map parameter parameters.now) out.old) }
{
    let mut left = parameters.len();
    while left > 0 {
        left -= 1;
        put_parameter(out, &parameters[left])?;
    }
    Ok(())
}

#[cycle(names)]
fn put_parameter(out: &mut Items, p: &CharacterParameter) -> Result<(), AllocError>
    ensures { OnOk result (out.new ≡ parameter p.now out.old) }
{
    match p {
        CharacterParameter::Length { word: _, value } => {
            put_expression(out, value)?;
            Ok(())
        }
        CharacterParameter::AssumedLength { word: _, place: _ } => Ok(()),
        CharacterParameter::Kind { word: _, value } => {
            put_expression(out, value)?;
            Ok(())
        }
    }
}

/// Where a type begins.
pub fn type_place(t: &TypeSpec) -> Place
    ensures { result ≡ type_place t.now }
{
    match t {
        TypeSpec::Integer { place, kind: _ } => *place,
        TypeSpec::Logical { place, kind: _ } => *place,
        TypeSpec::Character {
            place,
            parameters: _,
        } => *place,
        TypeSpec::Derived { place, name: _ } => *place,
        TypeSpec::Assumed { place } => *place,
    }
}

/// What a declaration with a type says of a name's.
pub fn declared_type(alloc: Global, t: &TypeSpec) -> Result<DeclaredType, AllocError>
    ensures { IfOk result (λ of_type. of_type ≡ declared_type t.now) }
{
    match t {
        TypeSpec::Derived { place: _, name } => {
            Ok(DeclaredType::Derived(copy_bytes(alloc, &name.bytes)?))
        }
        _ => Ok(DeclaredType::NotDerived),
    }
}
